//! The statement of a firm's account.
ghost use Rattle.std.specs.Prelude.{◌≡◌, ◌++◌, ◌≤◌, List, None, length, string_bytes};
ghost use Rattle.std.specs.Prelude.{IfErr, IfOk, OnErr};
ghost use Rattle.std.specs.Iterator.{YieldsThen};
ghost use Rattle.std.specs.List.{flat_map};
ghost use Rattle.clear_book.specs.Documents.Lines.{interest_paid_line, missing_line};
ghost use Rattle.clear_book.specs.Documents.Statement.{firm_lines, sum_lines};
ghost use Rattle.clear_texts.specs.Charges.{charge_lines};
ghost use Rattle.clear_texts.specs.RowSteps.{IsNotTheEnd};
ghost use Rattle.clear_texts.specs.Rows.{IsRefused, most_rows};
ghost use Rattle.clear_texts.specs.declared.rows.ChargeRow.{ChargeRow};
ghost use Rattle.clear_texts.specs.Text.{text_of_rows};

use crate::amounts::append_amount;
use crate::lines::{
    append_day, append_interest_credit, append_missing, append_month, append_month_or_dash,
    append_number, append_row,
};
use crate::rows::{ChargeRow, MAX_ROWS, RowSource};
use crate::whole::append_whole;
use clear_book::documents::{FirmAccount, Payment};
use clear_money::months::Month;
use clear_values::causes::{Fault, StoreCause};
use std::alloc::{AllocError, Global};

/// Appends the statement of a firm with these credits for interest and months without a report,
/// whose charges are the rows that the source gives up to its end.
/// A refusal leaves the text as it was: there was no memory, the source refused a row, or it gave
/// more than `MAX_ROWS`, which is `StoreCause::Row`.
pub fn statement<R: RowSource<Row = ChargeRow>>(
    alloc: Global,
    firm: &FirmAccount,
    interest_credits: &[Payment],
    missing: &[Month],
    rows: &mut R,
    text: &mut String,
) -> Result<(), Fault>
    ensures written { IfOk result (λ _. (given : List ChargeRow)
        × YieldsThen R.next_gives rows.old given None rows.new
        × (length given ≤ most_rows)
        × (string_bytes text.new ≡ string_bytes text.old
        ++ text_of_rows firm.now interest_credits.now missing.now given)) }
    ensures unchanged { OnErr result (string_bytes text.new ≡ string_bytes text.old) }
    ensures refused { IfErr result (λ fault.
        IsRefused R.next_gives R.next_refuses rows.old fault rows.new) }
{
    let mut written = String::new(alloc);
    append_statement(&mut written, firm, interest_credits, missing, rows)?;
    append_whole(text, written)?;
    Ok(())
}

/// Appends the statement of a firm, as `statement` does, but for a refusal: it may leave a part.
#[tactic(auto, unfolding(crate::specs::Text::text_of_rows))]
pub(crate) fn append_statement<R: RowSource<Row = ChargeRow>>(
    text: &mut String,
    firm: &FirmAccount,
    interest_credits: &[Payment],
    missing: &[Month],
    rows: &mut R,
) -> Result<(), Fault>
    ensures written { IfOk result (λ _. (given : List ChargeRow)
        × YieldsThen R.next_gives rows.old given None rows.new
        × (length given ≤ most_rows)
        × (string_bytes text.new ≡ string_bytes text.old
        ++ text_of_rows firm.now interest_credits.now missing.now given)) }
    ensures refused { IfErr result (λ fault.
        IsRefused R.next_gives R.next_refuses rows.old fault rows.new) }
{
    append_firm(text, firm)?;
    append_charges(text, rows)?;
    append_interest_credits(text, interest_credits)?;
    append_missing_months(text, missing)?;
    append_sums(text, firm)?;
    Ok(())
}

// The lines on the firm.
#[tactic(auto, unfolding(clear_book::specs::Documents::Statement::firm_lines))]
fn append_firm(text: &mut String, firm: &FirmAccount) -> Result<(), AllocError>
    ensures { IfOk result (λ _. string_bytes text.new
        ≡ string_bytes text.old ++ firm_lines firm.now) }
{
    append_number(text, "statement ", u64::from(firm.employer.number()))?;
    append_day(text, " ", firm.day)?;
    text.push_str("\nname ")?;
    text.push_str(firm.name.as_str())?;
    append_month(text, "\nmember ", firm.start)?;
    append_month_or_dash(text, " ", firm.last)?;
    text.push_str("\n")?;
    Ok(())
}

// The lines of all charges that the source gives up to its end.
fn append_charges<R: RowSource<Row = ChargeRow>>(
    text: &mut String,
    rows: &mut R,
) -> Result<(), Fault>
    ensures written { IfOk result (λ _. (given : List ChargeRow)
        × YieldsThen R.next_gives rows.old given None rows.new
        × (length given ≤ most_rows)
        × (string_bytes text.new ≡ string_bytes text.old ++ charge_lines given)) }
    ensures refused { IfErr result (λ fault.
        IsRefused R.next_gives R.next_refuses rows.old fault rows.new) }
{
    let mut before = None;
    for _count in 0..MAX_ROWS {
        match rows.next() {
            Ok(Some(row)) => {
                append_row(text, before, &row)?;
                before = Some(row.state.month);
            }
            Ok(None) => return Ok(()),
            Err(fault) => return Err(fault),
        }
    }
    end_rows(rows)
}

// The source gives no further row.
fn end_rows<R: RowSource<Row = ChargeRow>>(rows: &mut R) -> Result<(), Fault>
    ensures ends { IfOk result (λ _. R.next_gives rows.old None rows.new) }
    ensures refused { IfErr result (λ fault.
        IsNotTheEnd R.next_gives R.next_refuses rows.old fault rows.new) }
{
    match rows.next() {
        Ok(Some(_)) => Err(Fault::Store(StoreCause::Row)),
        Ok(None) => Ok(()),
        Err(fault) => Err(fault),
    }
}

fn append_interest_credits(text: &mut String, credits: &[Payment]) -> Result<(), AllocError>
    ensures { IfOk result (λ _. string_bytes text.new
        ≡ string_bytes text.old ++ flat_map interest_paid_line credits.now) }
{
    for credit in credits {
        append_interest_credit(text, credit)?;
    }
    Ok(())
}

fn append_missing_months(text: &mut String, months: &[Month]) -> Result<(), AllocError>
    ensures { IfOk result (λ _. string_bytes text.new
        ≡ string_bytes text.old ++ flat_map missing_line months.now) }
{
    for month in months {
        append_missing(text, *month)?;
    }
    Ok(())
}

#[tactic(auto, unfolding(clear_book::specs::Documents::Statement::sum_lines))]
fn append_sums(text: &mut String, firm: &FirmAccount) -> Result<(), AllocError>
    ensures { IfOk result (λ _. string_bytes text.new
        ≡ string_bytes text.old ++ sum_lines firm.now) }
{
    append_amount(text, "prepaid ", firm.prepaid)?;
    append_amount(text, "\narrears ", firm.arrears)?;
    append_amount(text, "\ninterest ", firm.interest)?;
    text.push_str("\n")?;
    Ok(())
}
