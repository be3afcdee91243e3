//! The subcommands, each read from the words behind it.
ghost use Rattle.std.specs.Prelude.{◌≡◌, Some, IfSome, IfNone};
ghost use Rattle.clap.specs.Words.{found_of, rows_of};
ghost use Rattle.clear_cli.specs.Rows.{subcommand_named, Names, ReadsWords};
ghost use Rattle.clear_cli.specs.declared.words.Words.{Words};

use crate::places::{count, day, employer, kind, port, request, word};
use crate::words::Words;
use clap::ArgMatches;

// A subcommand.
#[derive(Clone, Copy)]
pub(crate) enum Subcommand {
    Init,
    Stream,
    Serve,
    Import,
    Statement,
    Migrate,
    Look,
    Check,
    Backup,
}

fn subcommand_named(name: &str) -> Option<Subcommand>
    ensures { result ≡ subcommand_named name.now }
{
    match name {
        "init" => Some(Subcommand::Init),
        "stream" => Some(Subcommand::Stream),
        "serve" => Some(Subcommand::Serve),
        "import" => Some(Subcommand::Import),
        "statement" => Some(Subcommand::Statement),
        "migrate" => Some(Subcommand::Migrate),
        "look" => Some(Subcommand::Look),
        "check" => Some(Subcommand::Check),
        "backup" => Some(Subcommand::Backup),
        _ => None,
    }
}

fn read_init<'a>(words: &ArgMatches<'a>) -> Option<Words<'a>>
    ensures { ReadsWords (rows_of (found_of words.now)) Subcommand.Init result }
{
    let store = word(words, "STORE")?;
    let rates = word(words, "RATES")?;
    Some(Words::Init { store, rates })
}

fn read_stream<'a>(words: &ArgMatches<'a>) -> Option<Words<'a>>
    ensures { ReadsWords (rows_of (found_of words.now)) Subcommand.Stream result }
{
    let rates = word(words, "RATES")?;
    let callers = word(words, "CALLERS")?;
    let day = day(words)?;
    Some(Words::Stream {
        rates,
        callers,
        day,
    })
}

fn read_serve<'a>(words: &ArgMatches<'a>) -> Option<Words<'a>>
    ensures { ReadsWords (rows_of (found_of words.now)) Subcommand.Serve result }
{
    let store = word(words, "STORE")?;
    let callers = word(words, "CALLERS")?;
    let day = day(words)?;
    let port = port(words)?;
    let count = count(words)?;
    Some(Words::Serve {
        store,
        callers,
        day,
        port,
        count,
    })
}

fn read_import<'a>(words: &ArgMatches<'a>) -> Option<Words<'a>>
    ensures { ReadsWords (rows_of (found_of words.now)) Subcommand.Import result }
{
    let store = word(words, "STORE")?;
    let day = day(words)?;
    let number = request(words)?;
    let file = word(words, "FILE")?;
    Some(Words::Import {
        store,
        day,
        number,
        file,
    })
}

fn read_statement<'a>(words: &ArgMatches<'a>) -> Option<Words<'a>>
    ensures { ReadsWords (rows_of (found_of words.now)) Subcommand.Statement result }
{
    let store = word(words, "STORE")?;
    let day = day(words)?;
    let employer = employer(words)?;
    Some(Words::Statement {
        store,
        day,
        employer,
    })
}

fn read_migrate<'a>(words: &ArgMatches<'a>) -> Option<Words<'a>>
    ensures { ReadsWords (rows_of (found_of words.now)) Subcommand.Migrate result }
{
    let store = word(words, "STORE")?;
    Some(Words::Migrate { store })
}

fn read_look<'a>(words: &ArgMatches<'a>) -> Option<Words<'a>>
    ensures { ReadsWords (rows_of (found_of words.now)) Subcommand.Look result }
{
    let store = word(words, "STORE")?;
    Some(Words::Look { store })
}

fn read_check<'a>(words: &ArgMatches<'a>) -> Option<Words<'a>>
    ensures { ReadsWords (rows_of (found_of words.now)) Subcommand.Check result }
{
    let kind = kind(words)?;
    let file = word(words, "FILE")?;
    Some(Words::Check { kind, file })
}

fn read_backup<'a>(words: &ArgMatches<'a>) -> Option<Words<'a>>
    ensures { ReadsWords (rows_of (found_of words.now)) Subcommand.Backup result }
{
    let store = word(words, "STORE")?;
    let file = word(words, "FILE")?;
    Some(Words::Backup { store, file })
}

// What a subcommand says with its words.
pub(crate) fn read_subcommand<'a>(name: &str, words: &ArgMatches<'a>) -> Option<Words<'a>>
    ensures found { IfSome result (Names (Some (name.now, rows_of (found_of words.now)))) }
    ensures only { IfNone result ((said : Words) →
        ¬ Names (Some (name.now, rows_of (found_of words.now))) said) }
{
    match subcommand_named(name)? {
        Subcommand::Init => read_init(words),
        Subcommand::Stream => read_stream(words),
        Subcommand::Serve => read_serve(words),
        Subcommand::Import => read_import(words),
        Subcommand::Statement => read_statement(words),
        Subcommand::Migrate => read_migrate(words),
        Subcommand::Look => read_look(words),
        Subcommand::Check => read_check(words),
        Subcommand::Backup => read_backup(words),
    }
}
