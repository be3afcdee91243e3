//! The lines of documents. Each ends with LF. An `Err` of these functions may leave a part of a
//! line.
ghost use Rattle.std.specs.Prelude.{◌≡◌, ◌++◌, IfOk, string_bytes};
ghost use Rattle.std.specs.Fmt.{decimal};
ghost use Rattle.std.specs.Str.{IsAscii};
ghost use Rattle.clear_money.specs.Texts.{day_text, month_text};
ghost use Rattle.clear_book.specs.Documents.Lines.{charge_line, payment_line};
ghost use Rattle.clear_book.specs.Documents.Lines.{interest_paid_line, missing_line};
ghost use Rattle.clear_book.specs.Documents.Lines.{month_or_dash};
ghost use Rattle.clear_texts.specs.RowSteps.{row_lines};

use crate::amounts::append_amount;
use crate::rows::ChargeRow;
use clear_book::documents::{ChargeState, Payment};
use clear_money::days::Day;
use clear_money::months::Month;
use std::alloc::AllocError;
use std::fmt::Write;
use std::str;

/// Appends the lines that a row adds behind a row of this month: of its charge, if its month is
/// another one, and of its piece.
pub(crate) fn append_row(
    text: &mut String,
    before: Option<Month>,
    row: &ChargeRow,
) -> Result<(), AllocError>
    ensures { IfOk result (λ _. string_bytes text.new
        ≡ string_bytes text.old ++ row_lines before row.now) }
{
    if before != Some(row.state.month) {
        append_charge(text, &row.state)?;
    }
    match &row.piece {
        Some(piece) => append_payment(text, "  paid", piece),
        None => Ok(()),
    }
}

/// Appends the line of a charge.
#[tactic(auto, unfolding(clear_book::specs::Documents::Lines::charge_line))]
pub(crate) fn append_charge(text: &mut String, charge: &ChargeState) -> Result<(), AllocError>
    ensures { IfOk result (λ _. string_bytes text.new
        ≡ string_bytes text.old ++ charge_line charge.now) }
{
    append_month(text, "charge ", charge.month)?;
    append_day(text, " due ", charge.due)?;
    append_number(text, " version ", u64::from(charge.version))?;
    append_amount(text, " ", charge.contribution)?;
    append_amount(text, " ", charge.left)?;
    append_amount(text, " ", charge.interest)?;
    text.push_str("\n")?;
    Ok(())
}

/// Appends the line of a credit for interest.
#[tactic(auto, unfolding(clear_book::specs::Documents::Lines::interest_paid_line))]
pub(crate) fn append_interest_credit(text: &mut String, credit: &Payment) -> Result<(), AllocError>
    ensures { IfOk result (λ _. string_bytes text.new
        ≡ string_bytes text.old ++ interest_paid_line credit.now) }
{
    append_payment(text, "interest-paid", credit)
}

/// Appends the line of a payment, behind a word.
#[tactic(auto, unfolding(clear_book::specs::Documents::Lines::payment_line))]
fn append_payment(text: &mut String, word: &str, payment: &Payment) -> Result<(), AllocError>
    ensures { IfOk result (λ _. string_bytes text.new
        ≡ string_bytes text.old ++ payment_line word.now payment.now) }
{
    text.push_str(word)?;
    append_day(text, " ", payment.day)?;
    append_amount(text, " ", payment.cents)?;
    text.push_str(" ")?;
    text.push_str(payment.reference.as_str())?;
    text.push_str("\n")?;
    Ok(())
}

/// Appends the line of a month without a report.
#[tactic(auto, unfolding(clear_book::specs::Documents::Lines::missing_line))]
pub(crate) fn append_missing(text: &mut String, month: Month) -> Result<(), AllocError>
    ensures { IfOk result (λ _. string_bytes text.new
        ≡ string_bytes text.old ++ missing_line month) }
{
    append_month(text, "missing ", month)?;
    text.push_str("\n")?;
    Ok(())
}

/// Appends a text, and a number in decimal.
pub(crate) fn append_number(text: &mut String, before: &str, number: u64) -> Result<(), AllocError>
    ensures { IfOk result (λ _. string_bytes text.new
        ≡ string_bytes text.old ++ before.now ++ decimal number) }
{
    write!(text, "{before}{number}")
}

/// Appends a text, and a month.
pub(crate) fn append_month(text: &mut String, before: &str, month: Month) -> Result<(), AllocError>
    ensures { IfOk result (λ _. string_bytes text.new
        ≡ string_bytes text.old ++ before.now ++ month_text month) }
{
    let _in_range = month.number();
    append_ascii(text, before, month.text().as_slice())
}

/// Appends a text, and a month or a dash.
pub(crate) fn append_month_or_dash(
    text: &mut String,
    before: &str,
    month: Option<Month>,
) -> Result<(), AllocError>
    ensures { IfOk result (λ _. string_bytes text.new
        ≡ string_bytes text.old ++ before.now ++ month_or_dash month) }
{
    match month {
        Some(month) => append_month(text, before, month),
        None => write!(text, "{before}-"),
    }
}

/// Appends a text, and a day.
pub(crate) fn append_day(text: &mut String, before: &str, day: Day) -> Result<(), AllocError>
    ensures { IfOk result (λ _. string_bytes text.new
        ≡ string_bytes text.old ++ before.now ++ day_text day) }
{
    let _month_in_range = day.month_number();
    let _place_in_range = day.day_of_month();
    append_ascii(text, before, day.text().as_slice())
}

fn append_ascii(text: &mut String, before: &str, bytes: &[u8]) -> Result<(), AllocError>
    requires { IsAscii bytes.now }
    ensures { IfOk result (λ _. string_bytes text.new
        ≡ string_bytes text.old ++ before.now ++ bytes.now) }
{
    text.push_str(before)?;
    match str::from_utf8(bytes) {
        Ok(written) => text.push_str(written),
        Err(_) => unreachable!(),
    }
}
