//! Claims: made, withdrawn, and released with their set-offs.
ghost use Rattle.std.specs.Prelude.{◌≡◌};
ghost use Rattle.clear_values.specs.Credits.{credit_key, set_offs_of};
ghost use Rattle.clear_values.specs.Keyed.{put_row, with_row, with_rows};
ghost use Rattle.clear_values.specs.RowRanges.{IsClaimRow};
ghost use Rattle.clear_values.specs.Tables.{claim_key};
ghost use Rattle.clear_store.specs.Changes.{IsClaimThere, IsFree, IsInRange, Puts};

use crate::each::put_each;
use crate::new_credits::set_offs;
use clear_ledger::credits::Credits;
use clear_payouts::claims::{insert_claim, replace_claim};
use clear_schema::fault::Fault;
use clear_values::rows::{Change, ClaimRow};
use sqlite::{Alter, Transaction};
use std::alloc::Global;

// Adds a claim.
pub(crate) fn add_claim<S: Alter>(tx: &mut Transaction<'_, S>, row: &ClaimRow) -> Result<(), Fault>
    ensures same_reference { tx.new.conn.ghost_name ≡ tx.old.conn.ghost_name }
    ensures puts { Puts S.Store tx.old.conn.now tx.new.conn.now result (λ _. Unit {0})
        (IsFree (Change.AddClaim row.now)) (IsClaimRow row.now)
        (λ t. record t { claims = with_row claim_key t.claims row.now }) }
{
    insert_claim(tx, row)
}

// Puts a claim in the place of the one of its number.
pub(crate) fn put_claim<S: Alter>(tx: &mut Transaction<'_, S>, row: &ClaimRow) -> Result<(), Fault>
    ensures same_reference { tx.new.conn.ghost_name ≡ tx.old.conn.ghost_name }
    ensures puts { Puts S.Store tx.old.conn.now tx.new.conn.now result (IsClaimThere row.now)
        (λ _. Unit {0}) (IsClaimRow row.now)
        (λ t. record t { claims = put_row claim_key t.claims row.now }) }
{
    replace_claim(tx, row)
}

// Puts a released claim in the place of the one of its number, and adds its set-offs.
pub(crate) fn put_release<S: Alter>(
    alloc: Global,
    tx: &mut Transaction<'_, S>,
    claim: &ClaimRow,
    serial: u64,
) -> Result<(), Fault>
    ensures same_reference { tx.new.conn.ghost_name ≡ tx.old.conn.ghost_name }
    ensures puts { Puts S.Store tx.old.conn.now tx.new.conn.now result (IsClaimThere claim.now)
        (IsFree (Change.ReleaseClaim claim.now serial))
        (IsInRange (Change.ReleaseClaim claim.now serial))
        (λ t. record t {
          claims = put_row claim_key t.claims claim.now;
          credits = with_rows credit_key t.credits (set_offs_of claim.now serial);
        }) }
{
    let credits = set_offs(alloc, claim, serial)?;
    put_each(tx, &Credits, credits.as_slice())?;
    put_claim(tx, claim)
}
