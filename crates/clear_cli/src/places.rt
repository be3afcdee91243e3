//! The words behind a subcommand, each by the name of its place.
ghost use Rattle.std.specs.Prelude.{◌≡◌, ◌<◌, ◌≤◌, ◌^◌, ⊤, codes, option_map};
ghost use Rattle.std.specs.Fmt.{decimal};
ghost use Rattle.clap.specs.Words.{found_of, rows_of, first_of};
ghost use Rattle.clear_money.specs.Calendar.{IsDay};
ghost use Rattle.clear_money.specs.Numbers.{IsEmployerNo};
ghost use Rattle.clear_money.specs.Texts.{day_text};
ghost use Rattle.clear_book.specs.Numbers.{IsRequestNo};
ghost use Rattle.clear_cli.specs.Lines.{IsPort, IsCount, kind_word};
ghost use Rattle.clear_cli.specs.Rows.{ReadsPlace};

use crate::words::FileKind;
use clap::ArgMatches;
use clear_book::numbers::RequestNo;
use clear_money::days::Day;
use clear_money::numbers::{EmployerNo, read_number};

// The least and the greatest port.
const MIN_PORT: u64 = 1;

const MAX_PORT: u64 = 65_535;

// How many connections are served at least, and at most.
const MIN_COUNT: u64 = 1;

const MAX_COUNT: u64 = 1_000_000;

// The word in a place.
pub(crate) fn word<'a>(words: &ArgMatches<'a>, id: &str) -> Option<&'a str>
    ensures { option_map (λ w. w.now) result ≡ first_of id.now (rows_of (found_of words.now)) }
{
    words.get_str(id)
}

// The number in a place.
fn number(words: &ArgMatches<'_>, id: &str) -> Option<u64>
    ensures { ReadsPlace (rows_of (found_of words.now)) id.now decimal (λ n. n < 2 ^ 64) result }
{
    read_number(word(words, id)?.as_bytes())
}

// The number in a place, within these bounds.
fn number_within(words: &ArgMatches<'_>, id: &str, least: u64, greatest: u64) -> Option<u64>
    ensures { ReadsPlace (rows_of (found_of words.now)) id.now decimal
        (λ n. (least ≤ n) × (n ≤ greatest)) result }
{
    let number = number(words, id)?;
    if number < least || number > greatest {
        return None;
    }
    Some(number)
}

// The day of the command line.
pub(crate) fn day(words: &ArgMatches<'_>) -> Option<Day>
    ensures { ReadsPlace (rows_of (found_of words.now)) (codes "DAY") day_text IsDay result }
{
    Day::read(word(words, "DAY")?.as_bytes())
}

// The port on which connections are served.
pub(crate) fn port(words: &ArgMatches<'_>) -> Option<u16>
    ensures { ReadsPlace (rows_of (found_of words.now)) (codes "PORT") decimal IsPort result }
{
    let number = number_within(words, "PORT", MIN_PORT, MAX_PORT)?;
    Some(number as u16)
}

// How many connections are served.
pub(crate) fn count(words: &ArgMatches<'_>) -> Option<u32>
    ensures { ReadsPlace (rows_of (found_of words.now)) (codes "COUNT") decimal IsCount result }
{
    let number = number_within(words, "COUNT", MIN_COUNT, MAX_COUNT)?;
    Some(number as u32)
}

// The number of a request.
pub(crate) fn request(words: &ArgMatches<'_>) -> Option<RequestNo>
    ensures { ReadsPlace (rows_of (found_of words.now)) (codes "NUMBER") decimal IsRequestNo
        result }
{
    RequestNo::new(number(words, "NUMBER")?)
}

// The number of a firm.
pub(crate) fn employer(words: &ArgMatches<'_>) -> Option<EmployerNo>
    ensures { ReadsPlace (rows_of (found_of words.now)) (codes "EMPLOYER") decimal IsEmployerNo
        result }
{
    EmployerNo::new(number(words, "EMPLOYER")?)
}

// The kind of the file that is read.
pub(crate) fn kind(words: &ArgMatches<'_>) -> Option<FileKind>
    ensures { ReadsPlace (rows_of (found_of words.now)) (codes "KIND") kind_word (λ kind. ⊤)
        result }
{
    match word(words, "KIND")? {
        "rates" => Some(FileKind::Rates),
        "callers" => Some(FileKind::Callers),
        "bank" => Some(FileKind::Bank),
        _ => None,
    }
}
