//! The document of a payout list.
ghost use Rattle.std.specs.Prelude.{◌≡◌, ◌++◌, List, None, string_bytes};
ghost use Rattle.std.specs.Prelude.{IfErr, IfOk, OnErr};
ghost use Rattle.std.specs.Iterator.{YieldsThen};
ghost use Rattle.clear_book.specs.Documents.Payout.{list_line, payout_line, payout_text};
ghost use Rattle.clear_book.specs.Documents.Payout.{total_lines};
ghost use Rattle.clear_book.specs.declared.rows.ClaimRow.{ClaimRow};
ghost use Rattle.clear_texts.specs.Rows.{IsCutOff};

use crate::amounts::append_amount;
use crate::line_rows::{LineRow, append_lines};
use crate::lines::{append_day, append_number};
use crate::rows::RowSource;
use crate::whole::append_whole;
use clear_book::rows::{ClaimRow, ListRow};
use clear_values::causes::Fault;
use std::alloc::{AllocError, Global};

/// Appends the document of a payout list, whose claims are those that the source gives up to its
/// end. A refusal leaves the text as it was: there was no memory, or the source refused a claim.
pub fn payout_text<R: RowSource<Row = ClaimRow>>(
    alloc: Global,
    list: &ListRow,
    rows: &mut R,
    text: &mut String,
) -> Result<(), Fault>
    ensures written { IfOk result (λ _. (given : List ClaimRow)
        × YieldsThen R.next_gives rows.old given None rows.new
        × (string_bytes text.new ≡ string_bytes text.old ++ payout_text list.now given)) }
    ensures unchanged { OnErr result (string_bytes text.new ≡ string_bytes text.old) }
    ensures refused { IfErr result (λ fault.
        IsCutOff R.next_gives R.next_refuses rows.old fault rows.new) }
{
    let mut written = String::new(alloc);
    append_payout(&mut written, list, rows)?;
    append_whole(text, written)?;
    Ok(())
}

// Appends the document, as `payout_text` does, but for a refusal: it may leave a part.
#[tactic(auto, unfolding(clear_book::specs::Documents::Payout::payout_text))]
fn append_payout<R: RowSource<Row = ClaimRow>>(
    text: &mut String,
    list: &ListRow,
    rows: &mut R,
) -> Result<(), Fault>
    ensures written { IfOk result (λ _. (given : List ClaimRow)
        × YieldsThen R.next_gives rows.old given None rows.new
        × (string_bytes text.new ≡ string_bytes text.old ++ payout_text list.now given)) }
    ensures refused { IfErr result (λ fault.
        IsCutOff R.next_gives R.next_refuses rows.old fault rows.new) }
{
    append_list(text, list)?;
    append_lines(text, rows)?;
    append_total(text, list)?;
    Ok(())
}

// The line on the list.
#[tactic(auto, unfolding(clear_book::specs::Documents::Payout::list_line))]
fn append_list(text: &mut String, list: &ListRow) -> Result<(), AllocError>
    ensures { IfOk result (λ _. string_bytes text.new
        ≡ string_bytes text.old ++ list_line list.now) }
{
    append_number(text, "payout ", u64::from(list.list.number()))?;
    append_day(text, " ", list.day)?;
    text.push_str("\n")?;
    Ok(())
}

impl LineRow for ClaimRow {
    ghost use Rattle.clear_book.specs.Documents.Payout.{payout_line};

    ghost line = { payout_line };

    fn append_line(&self, text: &mut String) -> Result<(), AllocError> {
        append_claim(text, self)
    }
}

// The line of a claim.
#[tactic(auto, unfolding(clear_book::specs::Documents::Payout::payout_line))]
fn append_claim(text: &mut String, claim: &ClaimRow) -> Result<(), AllocError>
    ensures { IfOk result (λ _. string_bytes text.new
        ≡ string_bytes text.old ++ payout_line claim.now) }
{
    append_number(text, "claim ", u64::from(claim.claim.number()))?;
    append_number(text, " employer ", u64::from(claim.employer.number()))?;
    append_number(text, " worker ", u64::from(claim.worker.number()))?;
    append_amount(text, " ", claim.state.paid_out())?;
    text.push_str("\n")?;
    Ok(())
}

// The lines on what it comes to.
#[tactic(auto, unfolding(clear_book::specs::Documents::Payout::total_lines))]
fn append_total(text: &mut String, list: &ListRow) -> Result<(), AllocError>
    ensures { IfOk result (λ _. string_bytes text.new
        ≡ string_bytes text.old ++ total_lines list.now) }
{
    append_number(text, "items ", list.items)?;
    append_amount(text, "\ntotal ", list.total)?;
    text.push_str("\n")?;
    Ok(())
}
