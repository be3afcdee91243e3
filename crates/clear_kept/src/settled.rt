//! The rows of charges from one on.
ghost use Rattle.std.specs.Prelude.{◌≡◌, ◌+◌, ◌<◌, ◌≤◌, IfOk, drop, length};
ghost use Rattle.clear_account.specs.Account.{IsAccount, charged_up_to};
ghost use Rattle.clear_account.specs.Walk.{Stands};
ghost use Rattle.clear_kept.specs.Weighed.{weighed_charge, weighed_charges};

use crate::rows::WeighedCharge;
use clear_account::entries::{Charge, Credit};
use clear_account::places::Front;
use clear_account::settled::Walk;
use std::alloc::{AllocError, Global};

/// The rows of the charges behind a front, in month order.
///
/// It takes one step for each payment up to where the front ends, and then one walk along the
/// charges and payments behind that.
pub fn settle_from(
    alloc: Global,
    charges: &[Charge],
    credits: &[Credit],
    front: Front,
) -> Result<Vec<WeighedCharge>, AllocError>
    requires account { IsAccount charges.now credits.now }
    requires within { front.count ≤ length charges.now }
    requires front { front.cents ≡ charged_up_to charges.now front.count }
    ensures { IfOk result (λ rows.
        rows.items ≡ drop front.count (weighed_charges charges.now credits.now)) }
{
    let mut rows = Vec::new(alloc);
    let mut walk = Walk::behind(front.cents, credits);
    for place in front.count..charges.len() {
        rows.push(settle_charge(alloc, charges, credits, place, &mut walk)?)?;
    }
    Ok(rows)
}

// The row of the charge at a place, which the walk has come to.
fn settle_charge(
    alloc: Global,
    charges: &[Charge],
    credits: &[Credit],
    place: usize,
    walk: &mut Walk,
) -> Result<WeighedCharge, AllocError>
    requires account { IsAccount charges.now credits.now }
    requires place { place < length charges.now }
    requires stands { Stands credits.now walk.old }
    requires charged { walk.old.charged ≡ charged_up_to charges.now place }
    ensures row { IfOk result (λ row. row ≡ weighed_charge charges.now credits.now place) }
    ensures stands { Stands credits.now walk.new }
    ensures charged { walk.new.charged ≡ charged_up_to charges.now (place + 1) }
{
    let charge = &charges[place];
    let paid = walk.find_paid(alloc, charges, credits, place)?;
    Ok(WeighedCharge {
        month: charge.month,
        due: charge.due,
        cents: charge.cents,
        left: paid.left,
        weight: paid.weight,
    })
}
