//! How much is open of a charge, and for how many months.
ghost use Rattle.std.specs.Prelude.{◌≡◌, ◌-◌, ◌*◌, ◌<◌, ◌≤◌, All, length, max, min};
ghost use Rattle.clear_money.specs.Limits.{most_base};
ghost use Rattle.clear_money.specs.Calendar.{begun_months, day_of_month};
ghost use Rattle.clear_account.specs.Account.{IsAccount};
ghost use Rattle.clear_account.specs.Interest.{weight_on};

use crate::entries::{Charge, Credit};
use crate::lists::{add_charges, open_cents};
use clear_money::days::{Day, begun_months};

/// The open parts of the charge at a place on the days due, due plus 1 month, .. strictly before a
/// day, in cents, summed. That is each paid part times the months begun until it was paid, and
/// what is open times all months begun.
pub(crate) fn weigh(charges: &[Charge], credits: &[Credit], place: usize, day: Day) -> u64
    requires account { IsAccount charges.now credits.now }
    requires place { place < length charges.now }
    requires day { All (λ k. k.day ≤ day) credits.now }
    ensures value { result ≡ weight_on charges.now credits.now place day }
    ensures range { result ≤ Charge.MAX_WEIGHT }
{
    let start = add_charges(&charges[..place]);
    let charge = &charges[place];
    let end = start + charge.cents;
    let mut credit_start = 0;
    let mut weight = 0;
    for credit in credits {
        let credit_end = credit_start + credit.cents.cents();
        let share = common(start, end, credit_start, credit_end);
        let part = weigh_part(share, charge.due, credit.day);
        weight += part;
        credit_start = credit_end;
    }
    weight + weigh_part(open_cents(charges, credits, place), charge.due, day)
}

/// What two stretches of cents have in common.
pub(crate) fn common(start: u64, end: u64, other_start: u64, other_end: u64) -> u64
    ensures { result ≡ min end other_end - max start other_start }
{
    end.min(other_end).saturating_sub(start.max(other_start))
}

/// Some cents, once for each month begun from the due day to a day.
pub(crate) fn weigh_part(cents: u64, due: Day, day: Day) -> u64
    requires cents { cents ≤ most_base }
    requires due { day_of_month due ≤ 28 }
    ensures { result ≡ cents * begun_months due day }
{
    if cents == 0 {
        return 0;
    }
    cents * u64::from(begun_months(due, day))
}
