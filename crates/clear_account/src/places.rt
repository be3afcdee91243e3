//! Where the charges, payments and pieces of an account lie against a place, which is so many cents
//! from the first charge and the first payment on. Each call takes one step for each element up to
//! the place; a month or a payment is first found by bisection.
ghost use Rattle.std.specs.Prelude.{◌≡◌, ◌≤◌, ◌<◌, ◌^◌, All, AllPairs, IsTrue, drop};
ghost use Rattle.std.specs.Prelude.{false, length, sum_by, take, true};
ghost use Rattle.clear_account.specs.Account.{charged, charged_up_to, comes_before, credited};
ghost use Rattle.clear_account.specs.Account.{credited_up_to};
ghost use Rattle.clear_account.specs.Places.{Ends};

use crate::entries::{Charge, Credit, Piece};
use crate::lists;
use clear_money::months::Month;

/// The first elements of a list.
#[derive(Clone, Copy)]
pub struct Front {
    /// How many they are.
    pub count: usize,
    /// Their sum, in cents.
    pub cents: u64,
}

/// The charges that end at or below a place: those which the first `place` cents of charges hold
/// whole.
pub fn charges_ended(charges: &[Charge], place: u64) -> Front
    requires { charged charges.now < 2 ^ 64 }
    ensures ends { Ends (λ c. c.cents) charges.now place result.count }
    ensures cents { result.cents ≡ charged_up_to charges.now result.count }
{
    let mut front = Front { count: 0, cents: 0 };
    for charge in charges {
        let end = front.cents + charge.cents;
        if end > place {
            return front;
        }
        front.count += 1;
        front.cents = end;
    }
    front
}

/// The payments that end at or below a place.
pub fn credits_ended(credits: &[Credit], place: u64) -> Front
    requires { credited credits.now < 2 ^ 64 }
    ensures ends { Ends (λ k. k.cents) credits.now place result.count }
    ensures cents { result.cents ≡ credited_up_to credits.now result.count }
{
    let mut front = Front { count: 0, cents: 0 };
    for credit in credits {
        let end = front.cents + credit.cents.cents();
        if end > place {
            return front;
        }
        front.count += 1;
        front.cents = end;
    }
    front
}

/// The pieces that end at or below a place.
pub fn pieces_ended(pieces: &[Piece], place: u64) -> Front
    requires { sum_by (λ p. p.cents) pieces.now < 2 ^ 64 }
    ensures ends { Ends (λ p. p.cents) pieces.now place result.count }
    ensures cents { result.cents ≡ sum_by (λ p. p.cents) (take result.count pieces.now) }
{
    let mut front = Front { count: 0, cents: 0 };
    for piece in pieces {
        let end = front.cents + piece.cents;
        if end > place {
            return front;
        }
        front.count += 1;
        front.cents = end;
    }
    front
}

/// The charges of earlier months.
pub fn charges_before(charges: &[Charge], month: Month) -> Front
    requires small { charged charges.now < 2 ^ 64 }
    requires rise { AllPairs (λ c d. c.month < d.month) charges.now }
    ensures within { result.count ≤ length charges.now }
    ensures before { All (λ c. c.month < month) (take result.count charges.now) }
    ensures from { All (λ c. month ≤ c.month) (drop result.count charges.now) }
    ensures cents { result.cents ≡ charged_up_to charges.now result.count }
{
    let count = lists::months_before(charges, month);
    Front {
        count,
        cents: lists::add_charges(&charges[..count]),
    }
}

/// The payments that come before one.
pub fn credits_before(credits: &[Credit], credit: &Credit) -> Front
    requires small { credited credits.now < 2 ^ 64 }
    requires rise { AllPairs (λ k l. IsTrue (comes_before k l)) credits.now }
    ensures within { result.count ≤ length credits.now }
    ensures before { All (λ k. comes_before k credit.now ≡ true) (take result.count credits.now) }
    ensures from { All (λ k. comes_before k credit.now ≡ false) (drop result.count credits.now) }
    ensures cents { result.cents ≡ credited_up_to credits.now result.count }
{
    let count = lists::credits_before(credits, credit);
    Front {
        count,
        cents: lists::add_credits(&credits[..count]),
    }
}
