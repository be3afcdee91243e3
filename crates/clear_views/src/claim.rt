//! What a claim is judged by.
ghost use Rattle.std.specs.Prelude.{◌≡◌, IfErr, IfOk};
ghost use Rattle.clear_book.specs.Book.{Book};
ghost use Rattle.clear_book.specs.Machine.{IsLawful};
ghost use Rattle.clear_book.specs.Tables.{Stands};
ghost use Rattle.clear_rules.specs.Views.Claim.{IsClaimView};
ghost use Rattle.clear_schema.specs.Frame.{Leaves};
ghost use Rattle.clear_schema.specs.Faults.{IsOfDisk};
ghost use Rattle.clear_schema.specs.Values.{counts_of};
ghost use Rattle.clear_debts.specs.Reads.{OfTables};

mod claimed;
mod earned;

use crate::member::find_member;
use claimed::read_claimed;
use clear_book::calls::HolidayClaim;
use clear_book::numbers::ClaimNo;
use clear_book::rules::StoreCause;
use clear_rules::decide::claim::ClaimView;
use clear_schema::counts::Counts;
use clear_schema::fault::Fault;
use earned::read_earned;
use sqlite::{Alter, Transaction};

/// What a claim is judged by, where these counts stand: whether the firm is registered, whether a
/// latest report of it has a line of the worker, the worker's balance over all firms, in cents, and
/// the number that the claim is to have.
///
/// It takes one search for the firm, reads the rates, and reads each line that the latest reports
/// have of the worker and each claim for the worker once, whatever else the book holds. What no
/// book holds is refused with `Fault::Store(StoreCause::Row)`: besides a value out of its range, more
/// claims than can be numbered, and amounts whose sum is not below 2^64 cents.
pub fn claim_view<S: Alter>(
    tx: &mut Transaction<'_, S>,
    counts: &Counts,
    claim: &HolidayClaim,
) -> Result<ClaimView, Fault>
    ensures same_reference { tx.new.conn.ghost_name ≡ tx.old.conn.ghost_name }
    ensures view { OfTables S.Store tx.old.conn.now tx.new.conn.now (λ t.
        counts.now ≡ counts_of t → (b : Book) → IsLawful b → Stands b t
        → IfOk result (IsClaimView b claim.now)) }
    ensures fault { OfTables S.Store tx.old.conn.now tx.new.conn.now (λ t.
        counts.now ≡ counts_of t → (b : Book) → IsLawful b → Stands b t → IfErr result IsOfDisk) }
    ensures leaves { Leaves S.Store tx.old.conn.now tx.new.conn.now result }
{
    let Some(next) = ClaimNo::new(u64::from(counts.claims) + 1) else {
        return Err(Fault::Store(StoreCause::Row));
    };
    let registered = find_member(tx, claim.employer)?.is_some();
    let earned = read_earned(tx, claim.employer, claim.worker)?;
    let claimed = read_claimed(tx, claim.worker)?;
    Ok(ClaimView {
        registered,
        employed: earned.employed,
        balance: earned.entitlement.saturating_sub(claimed),
        next,
    })
}
