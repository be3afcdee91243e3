//! What is told once connections are taken, and of work that was done.
ghost use Rattle.std.specs.Prelude.{◌≡◌, IfOk, string_bytes};
ghost use Rattle.clear_cli.specs.Ready.{copied_line, day_or_none, imported_line, meaning};
ghost use Rattle.clear_cli.specs.Ready.{ready_line, ready_text, schema_line, served_line};

use clear_book::carried::carried_text;
use clear_book::rules::Carried;
use clear_money::days::Day;
use std::alloc::{AllocError, Global};

// How many days a day may lie after the ledger day before that is told.
const USUAL_DAYS: u32 = 31;

/// What is told once connections are taken: on which port, the office's day, and the day of the last
/// accepted request; and what it means where the office's day lies before that, or long after it.
#[tactic(auto, unfolding(crate::specs::Ready::ready_text))]
pub fn ready_text(
    alloc: Global,
    port: u16,
    day: Day,
    ledger_day: &Option<Day>,
) -> Result<String, AllocError>
    ensures { IfOk result (λ text. string_bytes text ≡ ready_text port day ledger_day.now) }
{
    let mut text = ready_line(alloc, port, day, ledger_day)?;
    text.push_str(meaning(day, ledger_day))?;
    Ok(text)
}

// The line that tells the port on which connections are taken, the office's day, and the day of
// the last accepted request, `-` for none.
#[tactic(auto, unfolding(crate::specs::Ready::ready_line))]
fn ready_line(
    alloc: Global,
    port: u16,
    day: Day,
    ledger_day: &Option<Day>,
) -> Result<String, AllocError>
    ensures { IfOk result (λ line. string_bytes line ≡ ready_line port day ledger_day.now) }
{
    let mut line = String::from_str(alloc, "ready on 127.0.0.1:")?;
    line.push_str(port.to_string(alloc)?.as_str())?;
    line.push_str(", day ")?;
    line.push_str(carried_text(alloc, Carried::Day(day))?.as_str())?;
    line.push_str(", ledger day ")?;
    line.push_str(day_or_none(alloc, ledger_day)?.as_str())?;
    line.push_str("\n")?;
    Ok(line)
}

/// The line that tells that a store was copied, and the day of its last accepted request, `-` for
/// none.
#[tactic(auto, unfolding(crate::specs::Ready::copied_line))]
pub fn copied_line(alloc: Global, ledger_day: &Option<Day>) -> Result<String, AllocError>
    ensures { IfOk result (λ line. string_bytes line ≡ copied_line ledger_day.now) }
{
    let mut line = String::from_str(alloc, "copied, ledger day ")?;
    line.push_str(day_or_none(alloc, ledger_day)?.as_str())?;
    line.push_str("\n")?;
    Ok(line)
}

/// The line that tells the schema of a store.
#[tactic(auto, unfolding(crate::specs::Ready::schema_line))]
pub fn schema_line(alloc: Global, schema: u64) -> Result<String, AllocError>
    ensures { IfOk result (λ line. string_bytes line ≡ schema_line schema) }
{
    let mut line = String::from_str(alloc, "schema ")?;
    line.push_str(schema.to_string(alloc)?.as_str())?;
    line.push_str("\n")?;
    Ok(line)
}

/// The line that tells how many connections were served.
#[tactic(auto, unfolding(crate::specs::Ready::served_line))]
pub fn served_line(alloc: Global, count: u32) -> Result<String, AllocError>
    ensures { IfOk result (λ line. string_bytes line ≡ served_line count) }
{
    let mut line = String::from_str(alloc, "served ")?;
    line.push_str(count.to_string(alloc)?.as_str())?;
    line.push_str("\n")?;
    Ok(line)
}

/// The line that tells how many lines of a bank file were new, and how many repeats.
#[tactic(auto, unfolding(crate::specs::Ready::imported_line))]
pub fn imported_line(alloc: Global, new: u64, repeats: u64) -> Result<String, AllocError>
    ensures { IfOk result (λ line. string_bytes line ≡ imported_line new repeats) }
{
    let mut line = String::from_str(alloc, "new ")?;
    line.push_str(new.to_string(alloc)?.as_str())?;
    line.push_str(" repeats ")?;
    line.push_str(repeats.to_string(alloc)?.as_str())?;
    line.push_str("\n")?;
    Ok(line)
}

fn day_or_none(alloc: Global, day: &Option<Day>) -> Result<String, AllocError>
    ensures { IfOk result (λ text. string_bytes text ≡ day_or_none day.now) }
{
    match day {
        Some(day) => carried_text(alloc, Carried::Day(*day)),
        None => String::from_str(alloc, "-"),
    }
}

// The line that tells what it means where the office's day lies before the ledger day, or more than
// 31 days after it. Empty where it does neither.
#[tactic(auto, unfolding(crate::specs::Ready::meaning))]
fn meaning(day: Day, ledger_day: &Option<Day>) -> &'static str
    ensures { result.now ≡ meaning day ledger_day.now }
{
    let Some(last) = ledger_day else {
        return "";
    };
    if day < *last {
        "this day lies before the ledger day: every new request will be refused\n"
    } else if last.number() + USUAL_DAYS < day.number() {
        "this day lies more than 31 days after the ledger day: \
         the first accepted request moves the ledger day there for good\n"
    } else {
        ""
    }
}
