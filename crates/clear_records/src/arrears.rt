//! What a firm owes of interest on a day.
ghost use Rattle.std.specs.Prelude.{◌≡◌, ◌≤◌, None, IfSome, IsSome, length, map};
ghost use Rattle.clear_account.specs.Account.{credited};
ghost use Rattle.clear_book.specs.Accounts.{row_credit};
ghost use Rattle.clear_book.specs.Limits.{most_credits};
ghost use Rattle.clear_records.specs.Told.{AreTooMuch, interest_owed};

use clear_book::limits::MAX_CREDITED;
use clear_book::rows::CreditRow;
use clear_kept::owing::WeighedCharges;
use clear_money::days::Day;
use clear_money::rates::RateTable;

/// The interest of all charges up to a day that no payment comes after, less what is paid of
/// interest, at least 0, in cents. It takes a search among the rates for each charge.
pub fn interest_arrears(rates: &RateTable, charges: &WeighedCharges, paid: u64, day: Day) -> u64
    ensures { result ≡ interest_owed rates.now charges.now paid day }
{
    charges.interest(rates, day).saturating_sub(paid)
}

/// The sum of credits, in cents. None where the credits before one already come to more than
/// `MAX_CREDITED`, as those of an account never do, and nowhere else.
pub(crate) fn add_credits(credits: &[CreditRow]) -> Option<u64>
    ensures some { length credits.now ≤ most_credits → IsSome result }
    ensures none { result ≡ None → AreTooMuch credits.now }
    ensures value { IfSome result (λ sum. sum ≡ credited (map row_credit credits.now)) }
{
    let mut sum = 0;
    for credit in credits {
        if sum > MAX_CREDITED {
            return None;
        }
        sum += credit.cents.cents();
    }
    Some(sum)
}
