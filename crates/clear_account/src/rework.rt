//! What a change of a kept account makes anew.
ghost use Rattle.std.specs.Prelude.{◌≡◌, ◌++◌, ◌∷◌, IfErr, IfOk, filter, nat_lt, take};
ghost use Rattle.clear_account.specs.Account.{IsAccount, charged, comes_before, credited};
ghost use Rattle.clear_account.specs.Account.{with_charge, with_credit};
ghost use Rattle.clear_account.specs.Allocation.{right_pieces};
ghost use Rattle.clear_account.specs.Kept.{CountsTurns};

use crate::entries::{AccountFault, Charge, Credit, Piece};
use crate::places::{charges_before, charges_ended, credits_before, credits_ended, pieces_ended};
use crate::refill::refill;
use crate::turns::Turns;
use std::alloc::{AllocError, Global};

/// The pieces that a change makes.
#[derive(Drop)]
pub(crate) struct Fresh {
    /// How many of the old pieces are kept before them.
    pub keep: usize,
    pub pieces: Vec<Piece>,
    /// The turns that they took.
    pub turns: Turns,
}

/// The pieces of an account with a charge added, or put in the place of its month's.
///
/// Charges of nothing at the place have no piece and take no turn.
pub(crate) fn rework_charge(
    alloc: Global,
    charges: &[Charge],
    credits: &[Credit],
    pieces: &[Piece],
    charge: &Charge,
) -> Result<Fresh, AccountFault>
    requires account { IsAccount charges.now credits.now }
    requires after { IsAccount (with_charge charge.now charges.now) credits.now }
    requires pieces { pieces.now ≡ right_pieces charges.now credits.now }
    ensures pieces { IfOk result (λ fresh. take fresh.keep pieces.now ++ fresh.pieces.items
        ≡ right_pieces (with_charge charge.now charges.now) credits.now) }
    ensures turns { IfOk result (λ fresh.
        CountsTurns (charged (filter (λ d. nat_lt d.month charge.now.month) charges.now))
        (with_charge charge.now charges.now) credits.now fresh.turns) }
    ensures err { IfErr result (λ fault. fault ≡ AccountFault.Memory) }
{
    let before = charges_before(charges, charge.month);
    let owed = owed_from(alloc, charges, charge)?;
    let nothing = charges_ended(owed.as_slice(), 0);
    let paid = credits_ended(credits, before.cents);
    let kept = pieces_ended(pieces, before.cents);
    let mut turns = Turns::new();
    let owed = &owed.as_slice()[nothing.count..];
    let fresh = refill(
        alloc,
        before.cents,
        paid.cents,
        owed,
        &credits[paid.count..],
        &mut turns,
    )?;
    Ok(Fresh {
        keep: kept.count,
        pieces: fresh,
        turns,
    })
}

/// The pieces of an account with one payment more.
pub(crate) fn rework_credit(
    alloc: Global,
    charges: &[Charge],
    credits: &[Credit],
    pieces: &[Piece],
    credit: &Credit,
) -> Result<Fresh, AccountFault>
    requires account { IsAccount charges.now credits.now }
    requires after { IsAccount charges.now (with_credit credit.now credits.now) }
    requires pieces { pieces.now ≡ right_pieces charges.now credits.now }
    ensures pieces { IfOk result (λ fresh. take fresh.keep pieces.now ++ fresh.pieces.items
        ≡ right_pieces charges.now (with_credit credit.now credits.now)) }
    ensures turns { IfOk result (λ fresh.
        CountsTurns (credited (filter (λ l. comes_before l credit.now) credits.now))
        charges.now (with_credit credit.now credits.now) fresh.turns) }
    ensures err { IfErr result (λ fault. fault ≡ AccountFault.Memory) }
{
    let before = credits_before(credits, credit);
    let paid = paid_from(alloc, credits, credit)?;
    let nothing = credits_ended(paid.as_slice(), 0);
    let owed = charges_ended(charges, before.cents);
    let kept = pieces_ended(pieces, before.cents);
    let mut turns = Turns::new();
    let paid = &paid.as_slice()[nothing.count..];
    let fresh = refill(
        alloc,
        owed.cents,
        before.cents,
        &charges[owed.count..],
        paid,
        &mut turns,
    )?;
    Ok(Fresh {
        keep: kept.count,
        pieces: fresh,
        turns,
    })
}

// A charge, and the charges of later months.
fn owed_from(alloc: Global, charges: &[Charge], charge: &Charge) -> Result<Vec<Charge>, AllocError>
    ensures { IfOk result (λ owed. owed.items
        ≡ charge.now ∷ filter (λ d. nat_lt charge.now.month d.month) charges.now) }
{
    let mut owed = Vec::new(alloc);
    owed.push(*charge)?;
    for other in charges {
        if is_later(other, charge) {
            owed.push(*other)?;
        }
    }
    Ok(owed)
}

// Whether a charge is for a later month.
fn is_later(charge: &Charge, other: &Charge) -> bool
    ensures { result ≡ nat_lt other.now.month charge.now.month }
{
    other.month < charge.month
}

// A payment, and those that come after it.
fn paid_from(alloc: Global, credits: &[Credit], credit: &Credit) -> Result<Vec<Credit>, AllocError>
    ensures { IfOk result (λ paid. paid.items
        ≡ credit.now ∷ filter (λ l. comes_before credit.now l) credits.now) }
{
    let mut paid = Vec::new(alloc);
    paid.push(*credit)?;
    for other in credits {
        if credit.is_before(other) {
            paid.push(*other)?;
        }
    }
    Ok(paid)
}
