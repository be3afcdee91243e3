//! What is said of a bank file.
ghost use Rattle.std.specs.Prelude.{◌≡◌, ◌≢◌, IfOk, OnOk, is_ok, count_by, sum_by, string_bytes};
ghost use Rattle.clear_bank.specs.Answers.{Gives};
ghost use Rattle.clear_book.specs.Documents.Amounts.{euros_text};
ghost use Rattle.clear_bank_check.specs.BankChecks.{SaysBank, SaysFault, Tells, TellsFault, bank_line};
ghost use Rattle.clear_bank_check.specs.BankChecks.{bank_of, bank_text};
ghost use Rattle.clear_bank_check.specs.BankChecks.{cents_of, counts_text, field_line, field_wanted};
ghost use Rattle.clear_bank_check.specs.BankChecks.{held_of, lines_at, names_no_firm, record_line};
ghost use Rattle.clear_bank_check.specs.BankChecks.{totals_text};

mod second_look;

use crate::hints::hints_of;
use crate::records::read_records;
use clear_bank::fault::BankFault;
use clear_bank::fields::{BankField, RecordFault};
use clear_bank::files::read_file;
use clear_bank::newness::{Judged, judge_file};
use clear_check::Checked;
use clear_check::seen::Seen;
use clear_check::texts::{joined, plural};
use clear_values::limits::MAX_RECORDS;
use clear_values::lines::BankLine;
use second_look::look_at;
use std::alloc::{AllocError, Global};

// What a bank file holds by itself: its lines, and which of them are new within it.
#[derive(Drop)]
struct Held {
    lines: Vec<BankLine>,
    judged: Judged,
}

/// What is said of a bank file: its lines, or its first fault, with a hint or more where the bytes
/// give one. It is judged by itself: what the office has already isn't known here.
pub fn check_bank(alloc: Global, bytes: &[u8]) -> Result<Checked, AllocError>
    ensures good { IfOk result (λ checked. checked.good ≡ is_ok (bank_of bytes.now)) }
    ensures says { IfOk result (λ checked.
        SaysBank (bank_of bytes.now) (string_bytes checked.text)) }
    ensures tells { IfOk result (λ checked.
        Tells bytes.now (bank_of bytes.now) (string_bytes checked.text)) }
{
    match read_bank(alloc, bytes) {
        Ok(held) => Ok(Checked {
            text: held_text(alloc, &held)?,
            good: true,
        }),
        Err(fault) => Ok(Checked {
            text: fault_text(alloc, bytes, fault)?,
            good: false,
        }),
    }
}

fn read_bank(alloc: Global, bytes: &[u8]) -> Result<Held, BankFault>
    ensures { Gives held_of result (bank_of bytes.now) }
{
    let lines = read_file(alloc, bytes, MAX_RECORDS)?;
    let judged = judge_file(alloc, lines.as_slice(), &[])?;
    Ok(Held { lines, judged })
}

fn held_text(alloc: Global, held: &Held) -> Result<String, AllocError>
    ensures { IfOk result (λ text. string_bytes text ≡ bank_text (held_of held.now)) }
{
    let lines = held.lines.as_slice();
    let totals = totals_of(lines, held.judged.new.as_slice());
    counts_text(alloc, lines.len(), held.judged.repeats, totals)
}

// How many lines and repeats, and the totals.
#[tactic(auto, unfolding(crate::specs::BankChecks::counts_text))]
fn counts_text(
    alloc: Global,
    lines: usize,
    repeats: usize,
    totals: Totals,
) -> Result<String, AllocError>
    ensures { IfOk result (λ text. string_bytes text
        ≡ counts_text lines repeats totals.unnamed totals.cents) }
{
    let count = lines.to_string(alloc)?;
    let repeated = repeats.to_string(alloc)?;
    let totals = totals_text(alloc, totals)?;
    let parts = [
        count.as_str(),
        " line",
        plural(lines),
        ", ",
        repeated.as_str(),
        " repeat",
        plural(repeats),
        " within the file, ",
        totals.as_str(),
    ];
    joined(alloc, &parts)
}

#[tactic(auto, unfolding(crate::specs::BankChecks::totals_text))]
fn totals_text(alloc: Global, totals: Totals) -> Result<String, AllocError>
    ensures { IfOk result (λ text. string_bytes text
        ≡ totals_text totals.unnamed totals.cents) }
{
    let unnamed = totals.unnamed.to_string(alloc)?;
    let euros = euros_text(alloc, totals.cents)?;
    joined(
        alloc,
        &[
            unnamed.as_str(),
            " without a firm, ",
            euros.as_str(),
            " in all\n",
        ],
    )
}

// How many lines name no firm, and their cents together.
#[derive(Clone, Copy)]
struct Totals {
    unnamed: usize,
    cents: u128,
}

// The totals of the lines at these places.
fn totals_of(lines: &[BankLine], places: &[usize]) -> Totals
    ensures unnamed { result.unnamed ≡ count_by names_no_firm (lines_at lines.now places.now) }
    ensures cents { result.cents ≡ sum_by cents_of (lines_at lines.now places.now) }
{
    let mut unnamed = 0;
    let mut cents = 0u128;
    for place in places {
        if let Some(line) = lines.get(*place) {
            cents += u128::from(line.cents.cents());
            unnamed += usize::from(line.employer.is_none());
        }
    }
    Totals { unnamed, cents }
}

fn euros_text(alloc: Global, cents: u128) -> Result<String, AllocError>
    ensures { IfOk result (λ text. string_bytes text ≡ euros_text cents) }
{
    format!(in alloc; "{}.{:02}", cents / 100, cents % 100)
}

// The line on a fault, and the hints below it.
fn fault_text(alloc: Global, bytes: &[u8], fault: BankFault) -> Result<String, AllocError>
    ensures known { OnOk result (fault ≢ BankFault.Memory) }
    ensures says { IfOk result (λ text. SaysFault fault (string_bytes text)) }
    ensures tells { IfOk result (λ text. TellsFault bytes.now fault (string_bytes text)) }
{
    let records = read_records(alloc, bytes, b',')?;
    let rows = records.as_slice();
    let seen = look_at(alloc, rows, fault)?;
    let line = bank_line(alloc, fault, &seen)?;
    let hints = hints_of(alloc, bytes, rows, fault)?;
    joined(alloc, &[line.as_str(), hints.text(alloc)?.as_str()])
}

// The line on a fault.
#[tactic(auto, unfolding(crate::specs::BankChecks::bank_line))]
fn bank_line(alloc: Global, fault: BankFault, seen: &Seen) -> Result<String, AllocError>
    ensures known { OnOk result (fault ≢ BankFault.Memory) }
    ensures line { IfOk result (λ line. string_bytes line ≡ bank_line fault seen.now) }
{
    let (here, other) = (seen.here(), seen.other());
    match fault {
        BankFault::OverLimit => String::from_str(alloc, "more than 10000 lines\n"),
        BankFault::BadCsv { line: 1, .. } => {
            let header = "record 1: the header has to be \
                reference,value_date,employer,cents,purpose,note; ";
            joined(alloc, &[header, here, "\n"])
        }
        BankFault::BadCsv { line, fault } => record_line(alloc, line, fault, here),
        BankFault::RefConflict { line } => {
            let line = line.to_string(alloc)?;
            let parts = [
                "record ",
                line.as_str(),
                ", reference: ",
                here,
                " stands with another content in record ",
                other,
                "\n",
            ];
            joined(alloc, &parts)
        }
        BankFault::Memory => Err(AllocError),
    }
}

// The line on a record that isn't as it should be.
#[tactic(auto, unfolding(crate::specs::BankChecks::record_line))]
fn record_line(
    alloc: Global,
    line: usize,
    fault: RecordFault,
    here: &str,
) -> Result<String, AllocError>
    ensures { IfOk result (λ text. string_bytes text ≡ record_line line fault here.now) }
{
    match fault {
        RecordFault::FieldCount => {
            let line = line.to_string(alloc)?;
            let parts = [
                "record ",
                line.as_str(),
                ": it has ",
                here,
                "; a line has 6\n",
            ];
            joined(alloc, &parts)
        }
        RecordFault::Field(field) => {
            field_line(alloc, line, field.name(), here, field_wanted(field))
        }
    }
}

// The line on a field of this name, in which something else has to stand.
#[tactic(auto, unfolding(crate::specs::BankChecks::field_line))]
fn field_line<'a>(
    alloc: Global,
    line: usize,
    name: &'a str,
    here: &'a str,
    wanted: &'a str,
) -> Result<String, AllocError>
    ensures { IfOk result (λ text. string_bytes text
        ≡ field_line line name.now here.now wanted.now) }
{
    let line = line.to_string(alloc)?;
    let parts = [
        "record ",
        line.as_str(),
        ", ",
        name,
        ": ",
        here,
        " is no ",
        wanted,
        "\n",
    ];
    joined(alloc, &parts)
}

// What can stand in a field.
fn field_wanted(field: BankField) -> &'static str
    ensures { result.now ≡ field_wanted field }
{
    match field {
        BankField::Reference => "reference (1 to 35 visible ASCII characters)",
        BankField::ValueDate => "day (YYYY-MM-DD, 2000-01-01 to 2200-12-31)",
        BankField::Employer => "number of a firm (1 to 99999999, or nothing)",
        BankField::Cents => "amount in cents (a whole number, 1 to 100000000000)",
        BankField::Purpose => "purpose (C, I, or nothing)",
        BankField::Note => "note (at most 140 bytes of UTF-8 without control characters)",
    }
}
