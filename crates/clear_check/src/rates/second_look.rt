//! A second look at a rate file that isn't taken: what stands at its fault.
//!
//! Which fault is told is the reader's and proved, and so is what stands there. Where bytes are no
//! document, `no_document` tells it.
ghost use Rattle.std.specs.Prelude.{◌≡◌, ◌∷◌, ◌++◌, [], map, codes, Some, IfOk, IfSome, option_map};
ghost use Rattle.std.specs.Prelude.{option_and_then, is_none, is_some, slice_get};
ghost use Rattle.toml.specs.Data.{Members, get, get_member};
ghost use Rattle.toml.specs.View.{table_view, view};
ghost use Rattle.clear_money.specs.Texts.{month_spelled};
ghost use Rattle.clear_toml.specs.RateFile.{document_of};
ghost use Rattle.clear_toml.specs.WrittenRate.{number_of, text_of, within};
ghost use Rattle.clear_check.specs.RateFound.{IsFoundIn, first_of, first_other, members_wrong};
ghost use Rattle.clear_check.specs.RateFound.{month_wrong, no_month, number_text, numbers_wrong};
ghost use Rattle.clear_check.specs.RateFound.{order_found, outside_found, ranged, row_of};
ghost use Rattle.clear_check.specs.RateFound.{row_wrong, value_wrong, why_wrong};
ghost use Rattle.clear_check.specs.Shown.{IsShown, alone};

use crate::document::no_document;
use crate::seen::Seen;
use crate::texts::shown;
use clear_money::months::Month;
use clear_money::names::is_one_of;
use clear_money::rates::RateRow;
use clear_toml::rate_file::{ROW_MEMBERS, RateFault, number_of, text_of};
use std::alloc::{AllocError, Global};
use toml::{Table, Value};

// A member that is a number, with the least and the greatest that it can be.
#[derive(Clone, Copy)]
struct NumberRange {
    name: &'static str,
    least: u16,
    greatest: u16,
}

// The members that are numbers.
const NUMBERS: [NumberRange; 5] = [
    NumberRange {
        name: "contribution",
        least: 0,
        greatest: RateRow::MAX_SHARE,
    },
    NumberRange {
        name: "report_day",
        least: 1,
        greatest: RateRow::LAST_DAY as u16,
    },
    NumberRange {
        name: "due_day",
        least: 1,
        greatest: RateRow::LAST_DAY as u16,
    },
    NumberRange {
        name: "interest",
        least: 0,
        greatest: RateRow::MAX_INTEREST_RATE,
    },
    NumberRange {
        name: "entitlement",
        least: 0,
        greatest: RateRow::MAX_SHARE,
    },
];

// A number that is out of its range.
#[derive(Clone, Copy)]
struct OutOfRange {
    range: NumberRange,
    number: i64,
}

// What is wrong with a member of this name.
#[derive(Clone, Copy)]
struct WrongMember<'a> {
    name: &'a str,
    why: &'static str,
}

// What stands at a fault.
pub(crate) fn look_at(alloc: Global, bytes: &[u8], fault: RateFault) -> Result<Seen, AllocError>
    ensures { (document : Members) → document_of bytes.now ≡ Some document
        → IfOk result (IsFoundIn document fault) }
{
    match toml::table_from_slice(alloc, bytes) {
        Ok(document) => look_in(alloc, &document, fault),
        Err(error) if error.is_memory() => Err(AllocError),
        Err(error) => no_document(alloc, bytes, &error),
    }
}

// What stands at a fault of a document.
fn look_in(alloc: Global, document: &Table, fault: RateFault) -> Result<Seen, AllocError>
    ensures { IfOk result (IsFoundIn (table_view document.now) fault) }
{
    match fault {
        RateFault::Field(0) => outside_rows(alloc, document),
        RateFault::Field(number) => wrong_member(alloc, row(document, number)),
        RateFault::Range(number) => out_of_range(alloc, row(document, number)),
        RateFault::Order(number) => out_of_order(alloc, document, number),
        RateFault::Text | RateFault::Empty | RateFault::Memory => Seen::nothing(alloc),
    }
}

// The row of a number, counted from 1.
fn row(document: &Table, number: usize) -> Option<&Value>
    ensures { option_map (λ row. view row.now) result ≡ row_of number (table_view document.now) }
{
    if number == 0 {
        return None;
    }
    rows_in(document)?.get(number - 1)
}

// The member that has the rows.
fn rows_in(document: &Table) -> Option<&Value>
    ensures { option_map (λ rows. view rows.now) result
        ≡ get_member (codes "rate") (table_view document.now) }
{
    document.get("rate")
}

// What stands at the top level and isn't the array of rows.
fn outside_rows(alloc: Global, document: &Table) -> Result<Seen, AllocError>
    ensures { IfOk result (IsShown (alone (outside_found
        (first_other (codes "rate" ∷ []) (table_view document.now))))) }
{
    match first_other(document, &["rate"]) {
        Some(name) => {
            let name = shown(alloc, name.as_bytes())?;
            Seen::new(alloc, &[name.as_str(), " is no member of a rate file"], &[])
        }
        None => Seen::new(alloc, &["rate is no array of tables, [[rate]]"], &[]),
    }
}

// The first member that has none of these names.
fn first_other<'a>(table: &'a Table, names: &[&str]) -> Option<&'a str>
    ensures { option_map (λ name. name.now) result
        ≡ first_other (map (λ name. name.now) names.now) (table_view table.now) }
{
    for (name, _) in table {
        if !is_one_of(name.as_str(), names) {
            return Some(name.as_str());
        }
    }
    None
}

// In what a row isn't a table of exactly its members.
fn wrong_member(alloc: Global, row: Option<&Value>) -> Result<Seen, AllocError>
    ensures { IfOk result (λ seen. IfSome
        (option_and_then row_wrong (option_map (λ row. view row.now) row.entry))
        (λ why. IsShown (alone why) seen)) }
{
    let Some(row) = row else {
        return Seen::nothing(alloc);
    };
    let Some(members) = row.as_table() else {
        return Seen::new(alloc, &["it is no table"], &[]);
    };
    if let Some(name) = first_other(members, &ROW_MEMBERS) {
        let name = shown(alloc, name.as_bytes())?;
        return Seen::new(alloc, &[name.as_str(), " is no member of a row"], &[]);
    }
    match first_wrong(row, &ROW_MEMBERS) {
        Some(wrong) => Seen::new(alloc, &[wrong.name, wrong.why], &[]),
        None => Seen::nothing(alloc),
    }
}

// The first of these members that isn't as it has to be.
fn first_wrong<'a>(row: &Value, names: &[&'a str]) -> Option<WrongMember<'a>>
    ensures { option_map (λ wrong. wrong.name.now ++ wrong.why.now) result
        ≡ slice_get (members_wrong (view row.now) (map (λ name. name.now) names.now)) 0 }
{
    for name in names {
        if let Some(why) = member_fault(row, name) {
            return Some(WrongMember { name, why });
        }
    }
    None
}

// Why the member of this name isn't as it has to be.
fn member_fault(row: &Value, name: &str) -> Option<&'static str>
    ensures { option_map (λ why. why.now) result ≡ why_wrong name.now (get name.now (view row.now)) }
{
    match row.get(name) {
        None => Some(" is missing"),
        Some(value) if name == "from" && !value.is_str() => Some(" is no text"),
        Some(value) if name != "from" && !value.is_integer() => Some(" is no whole number"),
        Some(_) => None,
    }
}

// The first value of a row that is out of its range, and what it can be.
fn out_of_range(alloc: Global, row: Option<&Value>) -> Result<Seen, AllocError>
    ensures { IfOk result (λ seen. IfSome
        (option_and_then value_wrong (option_map (λ row. view row.now) row.entry))
        (λ told. IsShown told seen)) }
{
    let Some(row) = row else {
        return Seen::nothing(alloc);
    };
    if let Some(from) = wrong_month(row) {
        let from = shown(alloc, from.as_bytes())?;
        let other = ["a month, YYYY-MM, 2000-01 to 2199-12"];
        return Seen::new(alloc, &["from is ", from.as_str()], &other);
    }
    match first_out(row, &NUMBERS) {
        Some(out) => out_of(alloc, out),
        None => Seen::nothing(alloc),
    }
}

// What a row has as its first month, where that is no month.
fn wrong_month(row: &Value) -> Option<&str>
    ensures { option_map (λ text. no_month text.now) result
        ≡ option_and_then month_wrong (text_of (codes "from") (view row.now)) }
{
    let from = text_of(row, "from")?;
    if is_month(from) { None } else { Some(from) }
}

fn is_month(text: &str) -> bool
    ensures { result ≡ is_some (month_spelled text.now) }
{
    Month::read(text.as_bytes()).is_some()
}

// The first of these numbers of a row that is out of its range.
fn first_out(row: &Value, ranges: &[NumberRange]) -> Option<OutOfRange>
    ensures { option_map (λ out. number_text (ranged out.range) out.number) result
        ≡ slice_get (numbers_wrong (view row.now) (map ranged ranges.now)) 0 }
{
    for range in ranges {
        if let Some(number) = number_of(row, range.name) {
            if is_out(number, range.least, range.greatest) {
                return Some(OutOfRange {
                    range: *range,
                    number,
                });
            }
        }
    }
    None
}

// Whether a number isn't from the least to the greatest.
fn is_out(number: i64, least: u16, greatest: u16) -> bool
    ensures { result ≡ is_none (within least greatest number) }
{
    match u16::try_from(number) {
        Ok(number) => number < least || number > greatest,
        Err(_) => true,
    }
}

// A number that is out of its range, and what it can be.
fn out_of(alloc: Global, out: OutOfRange) -> Result<Seen, AllocError>
    ensures { IfOk result (IsShown (number_text (ranged out.range) out.number)) }
{
    let number = out.number.to_string(alloc)?;
    let least = out.range.least.to_string(alloc)?;
    let greatest = out.range.greatest.to_string(alloc)?;
    let here = [out.range.name, " is ", number.as_str()];
    let other = [least.as_str(), " to ", greatest.as_str()];
    Seen::new(alloc, &here, &other)
}

// The first months of a row and of that before it.
fn out_of_order(alloc: Global, document: &Table, number: usize) -> Result<Seen, AllocError>
    ensures { IfOk result (λ seen. IfSome (order_found number (table_view document.now))
        (λ told. IsShown told seen)) }
{
    let Some(first) = first_of(document, number) else {
        return Seen::nothing(alloc);
    };
    let Some(before) = first_of(document, number.saturating_sub(1)) else {
        return Seen::nothing(alloc);
    };
    let here = shown(alloc, first.as_bytes())?;
    let other = shown(alloc, before.as_bytes())?;
    Seen::new(alloc, &[here.as_str()], &[other.as_str()])
}

// The text in which the row of a number has its first month.
fn first_of(document: &Table, number: usize) -> Option<&str>
    ensures { option_map (λ text. text.now) result ≡ first_of number (table_view document.now) }
{
    text_of(row(document, number)?, "from")
}
