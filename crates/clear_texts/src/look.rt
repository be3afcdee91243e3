//! What stands in a store, in twelve lines.
ghost use Rattle.std.specs.Prelude.{◌≡◌, ◌++◌, IfOk, codes, string_bytes};
ghost use Rattle.clear_texts.specs.Look.{bank_lines, claim_lines, dated, day_or_dash};
ghost use Rattle.clear_texts.specs.Look.{list_or_dash, look_text, number_or_dash, request_lines};
ghost use Rattle.clear_texts.specs.Look.{run_or_dash};

use crate::amounts::append_euros;
use crate::lines::{append_day, append_number};
use clear_book::numbers::RequestNo;
use clear_book::rows::{ListRow, RunRow};
use clear_money::days::Day;
use std::alloc::{AllocError, Global};

/// What stands in a store.
#[derive(Clone, Copy)]
pub struct Look {
    /// The day of the last accepted request.
    pub day: Option<Day>,
    /// How many requests were accepted.
    pub requests: u64,
    /// The greatest number of a request of the clerks.
    pub greatest: Option<RequestNo>,
    /// How many firms are registered.
    pub firms: u64,
    /// How many months have a report, firm by firm.
    pub reports: u64,
    /// How many bank lines came in.
    pub lines: u64,
    /// How many of them are in suspense.
    pub suspended: u64,
    /// What these come to, in cents.
    pub suspended_cents: u64,
    /// How many claims are open.
    pub open_claims: u64,
    /// Of how many claims something is to be paid out: they are released, and on no list.
    pub payable_claims: u64,
    /// The last payout list.
    pub list: Option<ListRow>,
    /// The last reminder run.
    pub run: Option<RunRow>,
}

/// What stands in a store whose schema has this number, in twelve lines: with a dash in the place of
/// a day or a number that isn't there.
#[tactic(auto, unfolding(crate::specs::Look::look_text))]
pub fn look_text(alloc: Global, schema: u64, look: &Look) -> Result<String, AllocError>
    ensures { IfOk result (λ text. string_bytes text ≡ look_text schema look.now) }
{
    let mut text = String::new(alloc);
    append_requests(&mut text, schema, look)?;
    append_bank(&mut text, look)?;
    append_claims(&mut text, look)?;
    Ok(text)
}

// The lines on the requests.
#[tactic(auto, unfolding(crate::specs::Look::request_lines))]
fn append_requests(text: &mut String, schema: u64, look: &Look) -> Result<(), AllocError>
    ensures { IfOk result (λ _. string_bytes text.new
        ≡ string_bytes text.old ++ request_lines schema look.now) }
{
    append_number(text, "schema ", schema)?;
    append_day_or_dash(text, "\nledger day ", look.day)?;
    append_number(text, "\nrequests ", look.requests)?;
    append_number_or_dash(text, "\ngreatest number of the desk ", look.greatest)?;
    text.push_str("\n")?;
    Ok(())
}

// The lines on the firms, their reports and the bank lines.
#[tactic(auto, unfolding(crate::specs::Look::bank_lines))]
fn append_bank(text: &mut String, look: &Look) -> Result<(), AllocError>
    ensures { IfOk result (λ _. string_bytes text.new
        ≡ string_bytes text.old ++ bank_lines look.now) }
{
    append_number(text, "firms ", look.firms)?;
    append_number(text, "\nreports ", look.reports)?;
    append_number(text, "\nbank lines ", look.lines)?;
    append_number(text, "\nin suspense ", look.suspended)?;
    append_euros(text, " ", look.suspended_cents)?;
    text.push_str("\n")?;
    Ok(())
}

// The lines on the claims, the last payout list and the last reminder run.
#[tactic(auto, unfolding(crate::specs::Look::claim_lines))]
fn append_claims(text: &mut String, look: &Look) -> Result<(), AllocError>
    ensures { IfOk result (λ _. string_bytes text.new
        ≡ string_bytes text.old ++ claim_lines look.now) }
{
    append_number(text, "open claims ", look.open_claims)?;
    append_number(text, "\nto pay out ", look.payable_claims)?;
    append_list_or_dash(text, "\nlast list ", look.list)?;
    append_run_or_dash(text, "\nlast run ", look.run)?;
    text.push_str("\n")?;
    Ok(())
}

// Appends a text, and a day or a dash.
fn append_day_or_dash(text: &mut String, before: &str, day: Option<Day>) -> Result<(), AllocError>
    ensures { IfOk result (λ _. string_bytes text.new
        ≡ string_bytes text.old ++ before.now ++ day_or_dash day) }
{
    match day {
        Some(day) => append_day(text, before, day),
        None => append_dash(text, before),
    }
}

// Appends a text, and the number of a request or a dash.
fn append_number_or_dash(
    text: &mut String,
    before: &str,
    number: Option<RequestNo>,
) -> Result<(), AllocError>
    ensures { IfOk result (λ _. string_bytes text.new
        ≡ string_bytes text.old ++ before.now ++ number_or_dash number) }
{
    match number {
        Some(number) => append_number(text, before, number.number()),
        None => append_dash(text, before),
    }
}

// Appends a text, and the number and the day of a payout list or a dash.
fn append_list_or_dash(
    text: &mut String,
    before: &str,
    list: Option<ListRow>,
) -> Result<(), AllocError>
    ensures { IfOk result (λ _. string_bytes text.new
        ≡ string_bytes text.old ++ before.now ++ list_or_dash list) }
{
    match list {
        Some(list) => append_dated(text, before, list.list.number(), list.day),
        None => append_dash(text, before),
    }
}

// Appends a text, and the number and the day of a reminder run or a dash.
fn append_run_or_dash(
    text: &mut String,
    before: &str,
    run: Option<RunRow>,
) -> Result<(), AllocError>
    ensures { IfOk result (λ _. string_bytes text.new
        ≡ string_bytes text.old ++ before.now ++ run_or_dash run) }
{
    match run {
        Some(run) => append_dated(text, before, run.run.number(), run.day),
        None => append_dash(text, before),
    }
}

// Appends a text, a number, and behind a space a day.
fn append_dated(text: &mut String, before: &str, number: u32, day: Day) -> Result<(), AllocError>
    ensures { IfOk result (λ _. string_bytes text.new
        ≡ string_bytes text.old ++ before.now ++ dated number day) }
{
    append_number(text, before, u64::from(number))?;
    append_day(text, " ", day)
}

// Appends a text, and a dash.
fn append_dash(text: &mut String, before: &str) -> Result<(), AllocError>
    ensures { IfOk result (λ _. string_bytes text.new
        ≡ string_bytes text.old ++ before.now ++ codes "-") }
{
    text.push_str(before)?;
    text.push_str("-")
}
