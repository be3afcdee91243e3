//! How the cents of a claim are settled.
ghost use Rattle.std.specs.Prelude.{◌≡◌};
ghost use Rattle.clear_book.specs.Own.Release.{settlement_of};

use clear_money::numbers::Amount;
use clear_values::replies::Settlement;

/// How a claim of so many cents is settled, where its firm is so many cents in arrears of
/// contributions and of interest: it first pays the contributions, then the interest, as far as its
/// cents go, and what is left is paid out.
pub fn settle(cents: Amount, arrears: u64, interest_arrears: u64) -> Settlement
    ensures { result ≡ settlement_of cents arrears interest_arrears }
{
    let cents = cents.cents();
    let to_contributions = cents.min(arrears);
    let rest = cents - to_contributions;
    let to_interest = rest.min(interest_arrears);
    Settlement {
        to_contributions,
        to_interest,
        paid: rest - to_interest,
    }
}
