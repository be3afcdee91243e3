//! The document of a worker.
ghost use Rattle.std.specs.Prelude.{◌≡◌, ◌++◌, IfOk, OnErr, codes, string_bytes};
ghost use Rattle.std.specs.List.{flat_map};
ghost use Rattle.clear_book.specs.Documents.Worker.{balance_line, claim_line, earned_line};
ghost use Rattle.clear_book.specs.Documents.Worker.{state_word, worker_line, worker_text};

use crate::amounts::append_amount;
use crate::lines::{append_day, append_month, append_number};
use crate::whole::append_whole;
use clear_book::documents::EarnedLine;
use clear_book::rows::{ClaimRow, ClaimState};
use clear_records::worker::WorkerAccount;
use std::alloc::{AllocError, Global};

/// Appends the document of a worker. A refusal, for want of memory, leaves the text as it was.
pub fn worker_text(
    alloc: Global,
    account: &WorkerAccount,
    text: &mut String,
) -> Result<(), AllocError>
    ensures written { IfOk result (λ _. string_bytes text.new
        ≡ string_bytes text.old ++ worker_text account.now) }
    ensures unchanged { OnErr result (string_bytes text.new ≡ string_bytes text.old) }
{
    let mut written = String::new(alloc);
    append_worker(&mut written, account)?;
    append_whole(text, written)
}

/// Appends the document, as `worker_text` does, but for a refusal: it may leave a part.
#[tactic(auto, unfolding(clear_book::specs::Documents::Worker::worker_text))]
pub(crate) fn append_worker(text: &mut String, account: &WorkerAccount) -> Result<(), AllocError>
    ensures { IfOk result (λ _. string_bytes text.new
        ≡ string_bytes text.old ++ worker_text account.now) }
{
    append_heading(text, account)?;
    append_earned(text, account.earned.as_slice())?;
    append_claims(text, account.claims.as_slice())?;
    append_balance(text, account.balance)?;
    Ok(())
}

// The line on the worker.
#[tactic(auto, unfolding(clear_book::specs::Documents::Worker::worker_line))]
fn append_heading(text: &mut String, account: &WorkerAccount) -> Result<(), AllocError>
    ensures { IfOk result (λ _. string_bytes text.new
        ≡ string_bytes text.old ++ worker_line account.now) }
{
    append_number(text, "worker ", u64::from(account.worker.number()))?;
    append_day(text, " ", account.day)?;
    text.push_str("\n")?;
    Ok(())
}

// The lines of what is earned.
fn append_earned(text: &mut String, lines: &[EarnedLine]) -> Result<(), AllocError>
    ensures { IfOk result (λ _. string_bytes text.new
        ≡ string_bytes text.old ++ flat_map earned_line lines.now) }
{
    for line in lines {
        append_earned_line(text, line)?;
    }
    Ok(())
}

#[tactic(auto, unfolding(clear_book::specs::Documents::Worker::earned_line))]
fn append_earned_line(text: &mut String, line: &EarnedLine) -> Result<(), AllocError>
    ensures { IfOk result (λ _. string_bytes text.new
        ≡ string_bytes text.old ++ earned_line line.now) }
{
    append_number(text, "earned ", u64::from(line.employer.number()))?;
    append_month(text, " ", line.month)?;
    append_amount(text, " ", line.cents)?;
    text.push_str("\n")?;
    Ok(())
}

// The lines of the claims.
fn append_claims(text: &mut String, claims: &[ClaimRow]) -> Result<(), AllocError>
    ensures { IfOk result (λ _. string_bytes text.new
        ≡ string_bytes text.old ++ flat_map claim_line claims.now) }
{
    for claim in claims {
        append_claim(text, claim)?;
    }
    Ok(())
}

#[tactic(auto, unfolding(clear_book::specs::Documents::Worker::claim_line))]
fn append_claim(text: &mut String, claim: &ClaimRow) -> Result<(), AllocError>
    ensures { IfOk result (λ _. string_bytes text.new
        ≡ string_bytes text.old ++ claim_line claim.now) }
{
    append_number(text, "claim ", u64::from(claim.claim.number()))?;
    append_number(text, " employer ", u64::from(claim.employer.number()))?;
    append_state(text, &claim.state)?;
    append_amount(text, " ", claim.cents.cents())?;
    text.push_str("\n")?;
    Ok(())
}

// A space, and how a claim stands.
fn append_state(text: &mut String, state: &ClaimState) -> Result<(), AllocError>
    ensures { IfOk result (λ _. string_bytes text.new
        ≡ string_bytes text.old ++ codes " " ++ state_word state.now) }
{
    match state {
        ClaimState::Open => text.push_str(" open"),
        ClaimState::Withdrawn => text.push_str(" withdrawn"),
        ClaimState::Released(_) => text.push_str(" released"),
    }
}

// The line of the balance.
#[tactic(auto, unfolding(clear_book::specs::Documents::Worker::balance_line))]
fn append_balance(text: &mut String, balance: u64) -> Result<(), AllocError>
    ensures { IfOk result (λ _. string_bytes text.new
        ≡ string_bytes text.old ++ balance_line balance) }
{
    append_amount(text, "balance ", balance)?;
    text.push_str("\n")?;
    Ok(())
}
