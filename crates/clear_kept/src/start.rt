//! Where an account is allocated anew after a change.
ghost use Rattle.std.specs.Prelude.{◌≡◌, length};
ghost use Rattle.clear_account.specs.Account.{IsAccount, charged, credited};
ghost use Rattle.clear_kept.specs.Changes.{charges_before, credits_before};
ghost use Rattle.clear_kept.specs.Start.{StartsAt};

use clear_account::entries::{Charge, Credit};
use clear_account::places::{self, Front};
use clear_money::months::Month;

/// The place of a change, and what ends at or below it.
#[derive(Clone, Copy)]
pub struct Start {
    /// The sum of the charges, or of the payments, that come before the change, in cents.
    pub place: u64,
    /// The charges that end at or below the place.
    pub charges: Front,
    /// The payments that do.
    pub credits: Front,
    /// The charges whose kept rows stand.
    pub rows: Front,
}

/// The start after the charge of a month was changed or put in. The lists are those after it.
pub fn start_of_charge(charges: &[Charge], credits: &[Credit], month: Month) -> Start
    requires { IsAccount charges.now credits.now }
    ensures start { StartsAt charges.now credits.now result }
    ensures place { result.place ≡ charged (charges_before month charges.now) }
    ensures rows { result.rows.count ≡ length (charges_before month charges.now) }
{
    let rows = places::charges_before(charges, month);
    Start {
        place: rows.cents,
        charges: places::charges_ended(charges, rows.cents),
        credits: places::credits_ended(credits, rows.cents),
        rows,
    }
}

/// The start after payments were put in or taken out, `first` the first of them by day and serial.
/// The lists are those after it.
pub fn start_of_credits(charges: &[Charge], credits: &[Credit], first: &Credit) -> Start
    requires { IsAccount charges.now credits.now }
    ensures start { StartsAt charges.now credits.now result }
    ensures place { result.place ≡ credited (credits_before first.now credits.now) }
    ensures rows { result.rows ≡ result.charges }
{
    let before = places::credits_before(credits, first);
    let owed = places::charges_ended(charges, before.cents);
    Start {
        place: before.cents,
        charges: owed,
        credits: places::credits_ended(credits, before.cents),
        rows: owed,
    }
}
