//! The credits that a change makes, as rows: those that bank lines are, and the set-offs of a
//! release. Which they are is said here alone. What puts a change into the tables adds these rows,
//! and what allocates the accounts anew goes by them.
ghost use Rattle.std.specs.Prelude.{◌≡◌, ◌≢◌, ◌≤◌, ◌++◌, IfErr, IfOk, OnOk};
ghost use Rattle.std.specs.List.{AllByRecursion};
ghost use Rattle.clear_values.specs.Credits.{credits_of_lines, set_off, set_offs_at, set_offs_of};
ghost use Rattle.clear_values.specs.RowRanges.{IsClaimRow, IsCreditRow, IsReleased};

use clear_money::days::Day;
use clear_money::numbers::Amount;
use clear_schema::fault::Fault;
use clear_values::causes::StoreCause;
use clear_values::lines::Purpose;
use clear_values::rows::{BankRow, ClaimRow, ClaimState, CreditRow, ReleasedClaim};
use clear_values::texts::CreditReference;
use std::alloc::{AllocError, Global};

/// The credits that bank lines are for their firms: none of a line in suspense.
pub fn credits_of_rows(alloc: Global, rows: &[BankRow]) -> Result<Vec<CreditRow>, AllocError>
    ensures { IfOk result (λ credits. credits.items ≡ credits_of_lines rows.now) }
{
    let mut credits = Vec::new(alloc);
    for row in rows {
        if let Some(employer) = row.employer {
            credits.push(CreditRow {
                employer,
                purpose: row.line.purpose,
                day: row.line.value,
                serial: row.serial,
                cents: row.line.cents,
                reference: CreditReference::of_line(alloc, &row.line.reference)?,
            })?;
        }
    }
    Ok(credits)
}

/// The set-offs of a claim as it stands, where its release has this serial: to contributions and
/// to interest, each where it is above 0. A claim that is not released has none.
///
/// More than 100,000,000,000 cents are refused with `Fault::Store(StoreCause::Row)`. Any other error is
/// want of memory.
pub fn set_offs(alloc: Global, claim: &ClaimRow, serial: u64) -> Result<Vec<CreditRow>, Fault>
    ensures value { IfOk result (λ credits. credits.items ≡ set_offs_of claim.now serial) }
    ensures cause { IfErr result (λ fault. fault ≢ Fault.Store StoreCause.Constraint) }
    ensures other { IfErr result (λ fault. fault ≢ Fault.Store StoreCause.Other) }
    ensures range { IfErr result (λ fault. fault ≡ Fault.Store StoreCause.Row
        → ¬ IsClaimRow claim.now) }
    ensures fault { AllByRecursion IsCreditRow (set_offs_of claim.now serial)
        → IfErr result (λ fault. fault ≡ Fault.Memory) }
{
    match claim.state {
        ClaimState::Open => Ok(Vec::new(alloc)),
        ClaimState::Withdrawn => Ok(Vec::new(alloc)),
        ClaimState::Released(release) => release_set_offs(alloc, claim, &release, serial),
    }
}

// The set-offs of a release of a claim: to contributions and to interest.
fn release_set_offs(
    alloc: Global,
    claim: &ClaimRow,
    release: &ReleasedClaim,
    serial: u64,
) -> Result<Vec<CreditRow>, Fault>
    ensures value { IfOk result (λ credits.
        credits.items ≡ set_offs_at claim.now serial release.now) }
    ensures cause { IfErr result (λ fault. fault ≢ Fault.Store StoreCause.Constraint) }
    ensures other { IfErr result (λ fault. fault ≢ Fault.Store StoreCause.Other) }
    ensures range { IfErr result (λ fault. fault ≡ Fault.Store StoreCause.Row
        → ¬ (IsClaimRow claim.now × IsReleased claim.now.cents release.now)) }
    ensures fault { AllByRecursion IsCreditRow (set_offs_at claim.now serial release.now)
        → IfErr result (λ fault. fault ≡ Fault.Memory) }
{
    let mut credits = Vec::new(alloc);
    let owed = release.settlement.to_contributions;
    add_set_off(
        &mut credits,
        claim,
        release.day,
        serial,
        Purpose::Contribution,
        owed,
    )?;
    let interest = release.settlement.to_interest;
    add_set_off(
        &mut credits,
        claim,
        release.day,
        serial,
        Purpose::Interest,
        interest,
    )?;
    Ok(credits)
}

// Adds what is set off from a claim on a day for a purpose, where it is above 0.
fn add_set_off(
    credits: &mut Vec<CreditRow>,
    claim: &ClaimRow,
    day: Day,
    serial: u64,
    purpose: Purpose,
    cents: u64,
) -> Result<(), Fault>
    ensures value { OnOk result (credits.new.items
        ≡ credits.old.items ++ set_off claim.now day serial purpose cents) }
    ensures cause { IfErr result (λ fault. fault ≢ Fault.Store StoreCause.Constraint) }
    ensures other { IfErr result (λ fault. fault ≢ Fault.Store StoreCause.Other) }
    ensures range { IfErr result (λ fault. fault ≡ Fault.Store StoreCause.Row
        → ¬ (IsClaimRow claim.now × (cents ≤ claim.now.cents))) }
    ensures fault { AllByRecursion IsCreditRow (set_off claim.now day serial purpose cents)
        → IfErr result (λ fault. fault ≡ Fault.Memory) }
{
    if cents == 0 {
        return Ok(());
    }
    let amount = match Amount::new(cents) {
        Some(amount) => amount,
        None => return Err(Fault::Store(StoreCause::Row)),
    };
    let reference = CreditReference::of_set_off(*credits.allocator(), claim.claim)?;
    let credit = CreditRow {
        employer: claim.employer,
        purpose,
        day,
        serial,
        cents: amount,
        reference,
    };
    credits.push(credit)?;
    Ok(())
}
