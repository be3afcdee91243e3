//! The document of a reminder run.
ghost use Rattle.std.specs.Prelude.{◌≡◌, ◌++◌, List, None, string_bytes};
ghost use Rattle.std.specs.Prelude.{IfErr, IfOk, OnErr};
ghost use Rattle.std.specs.Iterator.{YieldsThen};
ghost use Rattle.clear_book.specs.Documents.Reminders.{firms_line, reminder_line};
ghost use Rattle.clear_book.specs.Documents.Reminders.{reminders_text, run_line};
ghost use Rattle.clear_book.specs.declared.rows.ReminderRow.{ReminderRow};
ghost use Rattle.clear_texts.specs.Rows.{IsCutOff};

use crate::amounts::append_amount;
use crate::line_rows::{LineRow, append_lines};
use crate::lines::{append_day, append_month_or_dash, append_number};
use crate::rows::RowSource;
use crate::whole::append_whole;
use clear_book::rows::{ReminderRow, RunRow};
use clear_values::causes::Fault;
use std::alloc::{AllocError, Global};

/// Appends the document of a reminder run, whose reminders are those that the source gives up to
/// its end. A refusal leaves the text as it was: there was no memory, or the source refused a
/// reminder.
pub fn remind_text<R: RowSource<Row = ReminderRow>>(
    alloc: Global,
    run: &RunRow,
    rows: &mut R,
    text: &mut String,
) -> Result<(), Fault>
    ensures written { IfOk result (λ _. (given : List ReminderRow)
        × YieldsThen R.next_gives rows.old given None rows.new
        × (string_bytes text.new ≡ string_bytes text.old ++ reminders_text run.now given)) }
    ensures unchanged { OnErr result (string_bytes text.new ≡ string_bytes text.old) }
    ensures refused { IfErr result (λ fault.
        IsCutOff R.next_gives R.next_refuses rows.old fault rows.new) }
{
    let mut written = String::new(alloc);
    append_run(&mut written, run, rows)?;
    append_whole(text, written)?;
    Ok(())
}

// Appends the document, as `remind_text` does, but for a refusal: it may leave a part.
#[tactic(auto, unfolding(clear_book::specs::Documents::Reminders::reminders_text))]
fn append_run<R: RowSource<Row = ReminderRow>>(
    text: &mut String,
    run: &RunRow,
    rows: &mut R,
) -> Result<(), Fault>
    ensures written { IfOk result (λ _. (given : List ReminderRow)
        × YieldsThen R.next_gives rows.old given None rows.new
        × (string_bytes text.new ≡ string_bytes text.old ++ reminders_text run.now given)) }
    ensures refused { IfErr result (λ fault.
        IsCutOff R.next_gives R.next_refuses rows.old fault rows.new) }
{
    append_run_day(text, run)?;
    append_lines(text, rows)?;
    append_firms(text, run)?;
    Ok(())
}

// The line on the run.
#[tactic(auto, unfolding(clear_book::specs::Documents::Reminders::run_line))]
fn append_run_day(text: &mut String, run: &RunRow) -> Result<(), AllocError>
    ensures { IfOk result (λ _. string_bytes text.new
        ≡ string_bytes text.old ++ run_line run.now) }
{
    append_number(text, "reminders ", u64::from(run.run.number()))?;
    append_day(text, " ", run.day)?;
    text.push_str("\n")?;
    Ok(())
}

impl LineRow for ReminderRow {
    ghost use Rattle.clear_book.specs.Documents.Reminders.{reminder_line};

    ghost line = { reminder_line };

    fn append_line(&self, text: &mut String) -> Result<(), AllocError> {
        append_reminder(text, self)
    }
}

// The line of a firm.
#[tactic(auto, unfolding(clear_book::specs::Documents::Reminders::reminder_line))]
fn append_reminder(text: &mut String, reminder: &ReminderRow) -> Result<(), AllocError>
    ensures { IfOk result (λ _. string_bytes text.new
        ≡ string_bytes text.old ++ reminder_line reminder.now) }
{
    append_number(text, "employer ", u64::from(reminder.employer.number()))?;
    append_number(text, " level ", u64::from(reminder.level))?;
    append_number(text, " missing ", u64::from(reminder.missing))?;
    append_month_or_dash(text, " ", reminder.first)?;
    append_amount(text, " ", reminder.arrears)?;
    append_amount(text, " ", reminder.interest)?;
    text.push_str("\n")?;
    Ok(())
}

// The line on how many firms they are.
#[tactic(auto, unfolding(clear_book::specs::Documents::Reminders::firms_line))]
fn append_firms(text: &mut String, run: &RunRow) -> Result<(), AllocError>
    ensures { IfOk result (λ _. string_bytes text.new
        ≡ string_bytes text.old ++ firms_line run.now) }
{
    append_number(text, "firms ", run.firms)?;
    text.push_str("\n")?;
    Ok(())
}
