//! Payout lists, and the claims that go on them.
ghost use Rattle.std.specs.Prelude.{◌≡◌};
ghost use Rattle.clear_values.specs.Keyed.{put_rows, with_row};
ghost use Rattle.clear_values.specs.Tables.{claim_key, list_key};
ghost use Rattle.clear_store.specs.Changes.{AreClaimsThere, IsFree, IsInRange, Puts};

use crate::each::put_each;
use clear_payouts::claims::Claims;
use clear_payouts::lists::insert_list;
use clear_schema::fault::Fault;
use clear_values::rows::{Change, ClaimRow, ListRow};
use sqlite::{Alter, Transaction};

// Adds a payout list, and puts each claim that goes on it in the place of the one of its number.
pub(crate) fn add_list<S: Alter>(
    tx: &mut Transaction<'_, S>,
    row: &ListRow,
    claims: &[ClaimRow],
) -> Result<(), Fault>
    ensures same_reference { tx.new.conn.ghost_name ≡ tx.old.conn.ghost_name }
    ensures puts { Puts S.Store tx.old.conn.now tx.new.conn.now result (AreClaimsThere claims.now)
        (IsFree (Change.AddList row.now claims.now)) (IsInRange (Change.AddList row.now claims.now))
        (λ t. record t {
          lists = with_row list_key t.lists row.now;
          claims = put_rows claim_key t.claims claims.now;
        }) }
{
    insert_list(tx, row)?;
    put_each(tx, &Claims, claims)
}
