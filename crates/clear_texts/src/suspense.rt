//! The document of the lines in suspense.
ghost use Rattle.std.specs.Prelude.{◌≡◌, ◌<◌, ◌^◌, ◌++◌, List, None, codes, length};
ghost use Rattle.std.specs.Prelude.{string_bytes, sum_by};
ghost use Rattle.std.specs.Prelude.{IfErr, IfOk, OnErr};
ghost use Rattle.std.specs.Iterator.{YieldsThen};
ghost use Rattle.std.specs.List.{flat_map};
ghost use Rattle.clear_book.specs.declared.rows.BankRow.{BankRow};
ghost use Rattle.clear_book.specs.Documents.Suspense.{named_text, note_text};
ghost use Rattle.clear_book.specs.Documents.Suspense.{suspense_day_line, suspense_line};
ghost use Rattle.clear_book.specs.Documents.Suspense.{suspense_text, suspense_total_lines};
ghost use Rattle.clear_texts.specs.Rows.{IsCutOffAdding};

use crate::amounts::append_amount;
use crate::line_rows::{LineRow, append_lines};
use crate::lines::{append_day, append_number};
use crate::rows::RowSource;
use crate::whole::append_whole;
use clear_book::rows::BankRow;
use clear_money::days::Day;
use clear_money::numbers::EmployerNo;
use clear_values::causes::{Fault, StoreCause};
use std::alloc::{AllocError, Global};

/// Appends the document of lines in suspense on a day, which are those that the source gives up to
/// its end. A refusal leaves the text as it was: there was no memory, the source refused a line, or
/// the lines came to 2^64 cents or more, which is `Fault::Store(StoreCause::Row)`.
pub fn suspense_text<R: RowSource<Row = BankRow>>(
    alloc: Global,
    day: Day,
    rows: &mut R,
    text: &mut String,
) -> Result<(), Fault>
    ensures written { IfOk result (λ _. (given : List BankRow)
        × YieldsThen R.next_gives rows.old given None rows.new
        × (sum_by (λ row. row.line.cents) given < 2 ^ 64)
        × (string_bytes text.new ≡ string_bytes text.old ++ suspense_text day given)) }
    ensures unchanged { OnErr result (string_bytes text.new ≡ string_bytes text.old) }
    ensures refused { IfErr result (λ fault. IsCutOffAdding R.next_gives R.next_refuses
        (λ row. row.line.cents) rows.old fault rows.new) }
{
    let mut written = String::new(alloc);
    append_suspense(&mut written, day, rows)?;
    append_whole(text, written)?;
    Ok(())
}

// Appends the document, as `suspense_text` does, but for a refusal: it may leave a part.
#[tactic(auto, unfolding(clear_book::specs::Documents::Suspense::suspense_text))]
fn append_suspense<R: RowSource<Row = BankRow>>(
    text: &mut String,
    day: Day,
    rows: &mut R,
) -> Result<(), Fault>
    ensures written { IfOk result (λ _. (given : List BankRow)
        × YieldsThen R.next_gives rows.old given None rows.new
        × (sum_by (λ row. row.line.cents) given < 2 ^ 64)
        × (string_bytes text.new ≡ string_bytes text.old ++ suspense_text day given)) }
    ensures refused { IfErr result (λ fault. IsCutOffAdding R.next_gives R.next_refuses
        (λ row. row.line.cents) rows.old fault rows.new) }
{
    append_suspense_day(text, day)?;
    let sums = append_rows(text, rows)?;
    append_sums(text, sums)?;
    Ok(())
}

// The line on the day.
#[tactic(auto, unfolding(clear_book::specs::Documents::Suspense::suspense_day_line))]
fn append_suspense_day(text: &mut String, day: Day) -> Result<(), AllocError>
    ensures { IfOk result (λ _. string_bytes text.new
        ≡ string_bytes text.old ++ suspense_day_line day) }
{
    append_day(text, "suspense ", day)?;
    text.push_str("\n")?;
    Ok(())
}

// How many lines there are, and their cents together.
#[derive(Clone, Copy)]
struct Sums {
    count: u64,
    total: u64,
}

// Appends the lines of all rows, and tells what they come to.
fn append_rows<R: RowSource<Row = BankRow>>(text: &mut String, rows: &mut R) -> Result<Sums, Fault>
    ensures written { IfOk result (λ sums. (given : List BankRow)
        × YieldsThen R.next_gives rows.old given None rows.new
        × (string_bytes text.new ≡ string_bytes text.old ++ flat_map suspense_line given)
        × (sums.count ≡ length given) × (sums.total ≡ sum_by (λ row. row.line.cents) given)) }
    ensures refused { IfErr result (λ fault. IsCutOffAdding R.next_gives R.next_refuses
        (λ row. row.line.cents) rows.old fault rows.new) }
{
    let mut summed = Summed { rows, total: 0 };
    sum_rows(text, &mut summed)
}

// Appends the lines of all rows that are still to be added up, and tells what they come to.
fn sum_rows<R: RowSource<Row = BankRow>>(
    text: &mut String,
    summed: &mut Summed<'_, R>,
) -> Result<Sums, Fault>
    requires { summed.old.total ≡ 0 }
    ensures same_reference { summed.new.rows.ghost_name ≡ summed.old.rows.ghost_name }
    ensures written { IfOk result (λ sums. (given : List BankRow)
        × YieldsThen R.next_gives summed.old.rows.now given None summed.new.rows.now
        × (string_bytes text.new ≡ string_bytes text.old ++ flat_map suspense_line given)
        × (sums.count ≡ length given) × (sums.total ≡ sum_by (λ row. row.line.cents) given)) }
    ensures refused { IfErr result (λ fault. IsCutOffAdding R.next_gives R.next_refuses
        (λ row. row.line.cents) summed.old.rows.now fault summed.new.rows.now) }
{
    let count = append_lines(text, summed)?;
    Ok(Sums {
        count,
        total: summed.total,
    })
}

// The lines on what they come to.
#[tactic(auto, unfolding(clear_book::specs::Documents::Suspense::suspense_total_lines))]
fn append_sums(text: &mut String, sums: Sums) -> Result<(), AllocError>
    ensures { IfOk result (λ _. string_bytes text.new
        ≡ string_bytes text.old ++ suspense_total_lines sums.count sums.total) }
{
    append_number(text, "lines ", sums.count)?;
    append_amount(text, "\ntotal ", sums.total)?;
    text.push_str("\n")?;
    Ok(())
}

/// The rows of a source, and the cents of those that it has given, together.
#[derive(Drop)]
struct Summed<'a, R> {
    rows: &'a mut R,
    total: u64,
}

impl<R: RowSource<Row = BankRow>> RowSource for Summed<'_, R> {
    ghost use Rattle.std.specs.Prelude.{◌≡◌};
    ghost use Rattle.clear_texts.specs.Adding.{GivesAdding, RefusesAdding};

    type Row = BankRow;

    ghost next_gives = { λ old found new. (new.rows.ghost_name ≡ old.rows.ghost_name)
        × GivesAdding R.next_gives (λ row. row.line.cents) old.rows.now old.total found
        new.rows.now new.total };

    ghost next_refuses = { λ old fault new. (new.rows.ghost_name ≡ old.rows.ghost_name)
        × RefusesAdding R.next_gives (λ row. row.line.cents) R.next_refuses old.rows.now old.total
        fault new.rows.now };

    fn next(&mut self) -> Result<Option<BankRow>, Fault> {
        match self.rows.next() {
            Ok(Some(row)) => match self.total.checked_add(line_cents(&row)) {
                Some(total) => {
                    self.total = total;
                    Ok(Some(row))
                }
                None => Err(Fault::Store(StoreCause::Row)),
            },
            Ok(None) => Ok(None),
            Err(fault) => Err(fault),
        }
    }
}

// The cents of a line.
fn line_cents(row: &BankRow) -> u64
    ensures { result ≡ row.now.line.cents }
{
    row.line.cents.cents()
}

impl LineRow for BankRow {
    ghost use Rattle.clear_book.specs.Documents.Suspense.{suspense_line};

    ghost line = { suspense_line };

    fn append_line(&self, text: &mut String) -> Result<(), AllocError> {
        append_suspense_line(text, self)
    }
}

// The line of a bank line.
#[tactic(auto, unfolding(clear_book::specs::Documents::Suspense::suspense_line))]
fn append_suspense_line(text: &mut String, row: &BankRow) -> Result<(), AllocError>
    ensures { IfOk result (λ _. string_bytes text.new
        ≡ string_bytes text.old ++ suspense_line row.now) }
{
    text.push_str("line ")?;
    text.push_str(row.line.reference.as_str())?;
    append_day(text, " ", row.line.value)?;
    text.push_str(" ")?;
    text.push_str(row.line.purpose.letter())?;
    append_named(text, row.line.employer)?;
    append_amount(text, " ", line_cents(row))?;
    append_note(text, row.line.note.as_str())?;
    text.push_str("\n")?;
    Ok(())
}

// Behind a space, the firm that the file named, or a dash.
fn append_named(text: &mut String, named: Option<EmployerNo>) -> Result<(), AllocError>
    ensures { IfOk result (λ _. string_bytes text.new
        ≡ string_bytes text.old ++ codes " " ++ named_text named) }
{
    match named {
        Some(employer) => append_number(text, " ", u64::from(employer.number())),
        None => text.push_str(" -"),
    }
}

// A note behind a space, and nothing where it is empty.
fn append_note(text: &mut String, note: &str) -> Result<(), AllocError>
    ensures { IfOk result (λ _. string_bytes text.new
        ≡ string_bytes text.old ++ note_text note.now) }
{
    if note.is_empty() {
        return Ok(());
    }
    text.push_str(" ")?;
    text.push_str(note)
}
