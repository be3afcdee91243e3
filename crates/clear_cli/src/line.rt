//! The words of a command line, read.
ghost use Rattle.std.specs.Prelude.{◌≡◌, ◌≢◌, ◌||◌, true, false, [], ◌∷◌, codes};
ghost use Rattle.std.specs.Prelude.{Some, None};
ghost use Rattle.std.specs.Prelude.{IfOk, IfErr, IsOk, IfSome, IfNone, map, string_bytes, ℕ, List};
ghost use Rattle.clap.specs.Words.{fault_of, kind_of, subcommand_of, subcommand_rows_of, IsAmong};
ghost use Rattle.clear_cli.specs.Command.{command_line};
ghost use Rattle.clear_cli.specs.Lines.{Says, IsSame, IsInRange, IsHelp, asks_help, calls_help};
ghost use Rattle.clear_cli.specs.Lines.{plain_words, sample_words, words_for};
ghost use Rattle.clear_cli.specs.Rows.{Names};
ghost use Rattle.clear_cli.specs.declared.words.Words.{Words};

use crate::command::command_line;
use crate::subcommands::read_subcommand;
use crate::words::{LineFault, Words};
use clap::error::ErrorKind;
use clap::{ArgMatches, Error};
use clear_money::days::Day;
use std::alloc::Global;

// What the matches say.
fn said_by<'a>(matches: &ArgMatches<'a>) -> Option<Words<'a>>
    ensures found { IfSome result (Names (subcommand_rows_of matches.now)) }
    ensures only { IfNone result ((said : Words) → ¬ Names (subcommand_rows_of matches.now) said) }
{
    match matches.subcommand() {
        Some((name, words)) => read_subcommand(name, words),
        None => None,
    }
}

/// What the words of a command line say, without the program's own name. No words say the same as
/// `stream sample sample 2024-04-30`.
///
/// Behind a subcommand stands a word for each of its places, and nothing else. A word that begins
/// with `-` is taken as one of these only behind a word `--`, or if it is `-` alone. A day is written
/// as `YYYY-MM-DD` and a number in decimal digits without leading zeros, each in its range. A kind
/// of file is one of the words `rates`, `callers` and `bank`.
///
/// `Help` is answered where help is asked for: by a first word `--help` or one that begins with
/// `-h`, by such a word behind a subcommand, if it is the first that begins with `-` and no more
/// words stand before it than the subcommand has places, or by a first word `help`. Any other line
/// that says nothing is `Line`, and so may be one that begins with `help`. `Memory` may be answered
/// to any words but none.
pub fn read_words<'a>(alloc: Global, words: &'a [String]) -> Result<Words<'a>, LineFault>
    ensures said { IfOk result (λ said. Says (map string_bytes words.now) said) }
    ensures fault { IfErr result (λ fault. fault ≢ LineFault.Memory
        → (said : Words) → ¬ Says (map string_bytes words.now) said) }
    ensures help { IfErr result (λ fault. IsHelp fault
        → (asks_help (map string_bytes words.now)
        || calls_help (map string_bytes words.now)) ≡ true) }
    ensures line { IfErr result (λ fault. fault ≡ LineFault.Line
        → asks_help (map string_bytes words.now) ≡ false) }
    ensures none { words.now ≡ [] → IsOk result }
{
    if words.is_empty() {
        return Ok(sample());
    }
    read_line(alloc, words)
}

/// A law of the definitions, without effect: words say one thing at most.
pub fn law_words_say_one_thing()
    ensures { (words : List (List ℕ)) (said other : Words)
        → Says words said → Says words other → IsSame said other }
{}

/// A law of the definitions, without effect: what short lines come to.
pub fn law_lines_by_example()
    ensures minus_alone { plain_words (codes "-" ∷ []) ≡ Some (codes "-" ∷ []) }
    ensures option { plain_words (codes "S" ∷ codes "-x" ∷ []) ≡ None }
    ensures behind_two_minuses { plain_words (codes "S" ∷ codes "--" ∷ codes "-x" ∷ [])
        ≡ Some (codes "S" ∷ codes "-x" ∷ []) }
    ensures other_kind { (said : Words)
        → ¬ Says (codes "check" ∷ codes "Bank" ∷ codes "F" ∷ []) said }
    ensures help { asks_help (codes "init" ∷ codes "S" ∷ codes "-h" ∷ []) ≡ true }
    ensures help_first { asks_help (codes "--help" ∷ []) ≡ true }
    ensures help_too_late { asks_help (codes "migrate" ∷ codes "S" ∷ codes "R" ∷ codes "-h" ∷ [])
        ≡ false }
    ensures help_of_nothing { asks_help (codes "push" ∷ codes "-h" ∷ []) ≡ false }
{}

// Why the library gave no matches.
fn fault_of(alloc: Global, error: &Error) -> LineFault
    ensures memory { kind_of error.now ≡ ErrorKind.OutOfMemory → result ≡ LineFault.Memory }
    ensures help { IsHelp result → kind_of error.now ≡ ErrorKind.DisplayHelp }
    ensures line { result ≡ LineFault.Line → kind_of error.now ≢ ErrorKind.DisplayHelp }
{
    match error.kind() {
        ErrorKind::DisplayHelp => match format!(in alloc; "{error}") {
            Ok(text) => LineFault::Help(text),
            Err(_) => LineFault::Memory,
        },
        ErrorKind::OutOfMemory => LineFault::Memory,
        _ => LineFault::Line,
    }
}

// What the words say as `clap` reads them.
fn read_line<'a>(alloc: Global, words: &'a [String]) -> Result<Words<'a>, LineFault>
    ensures named { IfOk result (λ said. (fault_of command_line (map string_bytes words.now) ≡ [])
        × Names (subcommand_of command_line (map string_bytes words.now)) said) }
    ensures refused { IfErr result (λ fault. fault ≢ LineFault.Memory → (said : Words)
        → fault_of command_line (map string_bytes words.now) ≡ []
        → ¬ Names (subcommand_of command_line (map string_bytes words.now)) said) }
    ensures help { IfErr result (λ fault. IsHelp fault
        → IsAmong ErrorKind.DisplayHelp
        (fault_of command_line (map string_bytes words.now))) }
    ensures line { IfErr result (λ fault. fault ≡ LineFault.Line
        → fault_of command_line (map string_bytes words.now) ≢ ErrorKind.DisplayHelp ∷ []) }
{
    let Ok(command) = command_line(alloc) else {
        return Err(LineFault::Memory);
    };
    match command.try_get_matches_from(words) {
        Ok(matches) => match said_by(&matches) {
            Some(said) => Ok(said),
            None => Err(LineFault::Line),
        },
        Err(error) => Err(fault_of(alloc, &error)),
    }
}

// What is said without words: to answer standard input by the sample.
fn sample<'a>() -> Words<'a>
    ensures { (words_for result ≡ sample_words) × IsInRange result }
{
    match Day::read(b"2024-04-30") {
        Some(day) => Words::Stream {
            rates: "sample",
            callers: "sample",
            day,
        },
        None => unreachable!(),
    }
}
