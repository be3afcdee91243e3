//! The command line, as `clap` is told of it.
ghost use Rattle.std.specs.Prelude.{◌≡◌, IfOk, map, false, ◌++◌, ◌∷◌, [], ℕ, List};
ghost use Rattle.clap.specs.Words.{app_of, shape_of, with_subcommand};
ghost use Rattle.clap.specs.declared.Command.TheViews.{out-Command as fields_of};
ghost use Rattle.clear_cli.specs.Command.{subcommand_with, with_words, program, command_line};

use clap::{Arg, Command};
use std::alloc::{AllocError, Global};

// Each word with what help says of it.
const STORE: (&str, &str) = ("STORE", "The store's file");

const RATES: (&str, &str) = ("RATES", "A rate file; stream also takes the word sample");

const CALLERS: (&str, &str) = (
    "CALLERS",
    "A caller file; stream also takes the word sample",
);

const DAY: (&str, &str) = ("DAY", "YYYY-MM-DD, 2000-01-01 to 2200-12-31");

const PORT: (&str, &str) = ("PORT", "1 to 65535");

const COUNT: (&str, &str) = ("COUNT", "How many connections are served, 1 to 1,000,000");

const NUMBER: (&str, &str) = (
    "NUMBER",
    "The number of the request, 1 to 999,999,999,999,999,999",
);

const FILE: (&str, &str) = ("FILE", "A bank file");

const EMPLOYER: (&str, &str) = ("EMPLOYER", "The firm's number, 1 to 99,999,999");

const KIND: (&str, &str) = ("KIND", "rates, callers or bank");

const CHECKED_FILE: (&str, &str) = ("FILE", "The file");

const NEW_FILE: (&str, &str) = ("FILE", "A file that isn't there yet");

// Each subcommand with what help says of it, and with its words.
const SUBCOMMANDS: [(&str, &str, &[(&str, &str)]); 9] = [
    ("init", "Makes a store in a new file", &[STORE, RATES]),
    (
        "stream",
        "Serves standard input over an office in memory",
        &[RATES, CALLERS, DAY],
    ),
    (
        "serve",
        "Serves COUNT connections on PORT of 127.0.0.1",
        &[STORE, CALLERS, DAY, PORT, COUNT],
    ),
    (
        "import",
        "Imports a bank file as the clerk",
        &[STORE, DAY, NUMBER, FILE],
    ),
    (
        "statement",
        "Prints the statement of a firm",
        &[STORE, DAY, EMPLOYER],
    ),
    (
        "migrate",
        "Says whether a store has this program's schema",
        &[STORE],
    ),
    ("look", "Tells what stands in a store", &[STORE]),
    (
        "check",
        "Reads a file and tells its first fault, or what it holds",
        &[KIND, CHECKED_FILE],
    ),
    (
        "backup",
        "Copies a store into a new file",
        &[STORE, NEW_FILE],
    ),
];

// The command with one word more, which is required, with what help says of it.
fn with_word<'a>(
    alloc: Global,
    command: Command<'a>,
    word: &'a str,
    help: &'a str,
) -> Result<Command<'a>, AllocError>
    ensures app { IfOk result (λ c. (name : List ℕ) (before : List (List ℕ))
        → app_of command.entry ≡ with_words name before
        → app_of c ≡ with_words name (before ++ word.entry.now ∷ [])) }
    ensures local { IfOk result (λ c.
        (fields_of c).has_globals ≡ (fields_of command.entry).has_globals) }
{
    let arg = Arg::new(alloc, word).help(help).required(true);
    command.arg(arg)
}

// A subcommand with its words, in their order. What help says of it is no part of its reading.
fn subcommand_with<'a>(
    alloc: Global,
    name: &'a str,
    about: &'a str,
    words: &[(&'a str, &'a str)],
) -> Result<Command<'a>, AllocError>
    ensures shape { IfOk result (λ c.
        shape_of c ≡ subcommand_with name.entry.now (map (λ w. w.0.now) words.now)) }
    ensures local { IfOk result (λ c. (fields_of c).has_globals ≡ false) }
{
    let mut command = Command::new(alloc, name).about(about);
    for (word, help) in words {
        command = with_word(alloc, command, word, help)?;
    }
    Ok(command)
}

// The command with one subcommand more.
fn and<'a>(
    alloc: Global,
    command: Command<'a>,
    name: &'a str,
    about: &'a str,
    words: &[(&'a str, &'a str)],
) -> Result<Command<'a>, AllocError>
    ensures { IfOk result (λ c. app_of c ≡ with_subcommand (app_of command.entry)
        (subcommand_with name.entry.now (map (λ w. w.0.now) words.now))) }
{
    let subcommand = subcommand_with(alloc, name, about, words)?;
    command.subcommand(subcommand)
}

// The command without its subcommands. Its name is given apart, since the words begin behind it.
fn program<'a>(alloc: Global) -> Result<Command<'a>, AllocError>
    ensures { IfOk result (λ c. app_of c ≡ program) }
{
    let command = Command::new(alloc, "clearing")
        .about("The clearing office. Without words it serves the sample from standard input.")
        .no_binary_name(true);
    command.bin_name("clearing")
}

// The command of the program, for the words behind the program's own name.
pub(crate) fn command_line<'a>(alloc: Global) -> Result<Command<'a>, AllocError>
    ensures { IfOk result (λ c. app_of c ≡ command_line) }
{
    let mut command = program(alloc)?;
    for (name, about, words) in SUBCOMMANDS {
        command = and(alloc, command, name, about, words)?;
    }
    Ok(command)
}
