//! What keeps an account.
ghost use Rattle.std.specs.Prelude.{◌≡◌, ◌≢◌, ◌≤◌, ◌↔◌, Err, IfOk, IfSome, IsTrue, List, OnErr};
ghost use Rattle.std.specs.Prelude.{OnOk, length};
ghost use Rattle.std.specs.List.{slice_get};
ghost use Rattle.clear_money.specs.Calendar.{day_of_month};
ghost use Rattle.clear_money.specs.Limits.{most_credits, most_months};
ghost use Rattle.clear_account.specs.declared.entries.Charge.{Charge as AnyCharge};
ghost use Rattle.clear_account.specs.declared.entries.Credit.{Credit as AnyCredit};
ghost use Rattle.clear_account.specs.Account.{HoldsSerial, IsAccount, charged, credited, last_day};
ghost use Rattle.clear_account.specs.Account.{with_charge, with_credit};
ghost use Rattle.clear_account.specs.Allocation.{open_of, prepaid, right_pieces};
ghost use Rattle.clear_account.specs.Arrears.{charged_before};
ghost use Rattle.clear_account.specs.Interest.{weight_of};

use crate::entries::{AccountFault, Charge, Credit, Piece};
use clear_money::days::Day;
use clear_money::limits;
use clear_money::months::Month;
use std::alloc::Global;

/// The most payments that an account has.
pub const MAX_CREDITS: usize = limits::MAX_CREDITS as usize;

/// Keeps an account, which a contract sees as its charges in month order and its credits, the
/// payments, in order of day and serial.
///
/// Amounts are in cents. A change and `pieces` may take memory, and whatever is refused leaves the
/// account as it was.
pub trait Keeper {
    ghost charges: { Self → List AnyCharge };

    ghost credits: { Self → List AnyCredit };

    /// Adds the charge, or puts it in the place of its month's. It is at most `Charge::MAX_CENTS`
    /// and due on a day of month of at most 28.
    fn set_charge(&mut self, charge: Charge) -> Result<(), AccountFault>
        requires cents { charge.cents ≤ Charge.MAX_CENTS }
        requires due { day_of_month charge.due ≤ 28 }
        ensures ok { OnOk result (charges self.new ≡ with_charge charge (charges self.old)) }
        ensures err { OnErr result (charges self.new ≡ charges self.old) }
        // There are no more than 2,400 months.
        ensures never_over { result ≢ Err AccountFault.OverLimit }
        ensures credits { credits self.new ≡ credits self.old };

    /// Adds the payment in its place. Its serial must not be held yet.
    fn add_credit(&mut self, credit: Credit) -> Result<(), AccountFault>
        requires { ¬ HoldsSerial (credits self.old) credit.serial }
        ensures ok { OnOk result (credits self.new ≡ with_credit credit (credits self.old)) }
        ensures err { OnErr result (credits self.new ≡ credits self.old) }
        ensures limit { (result ≡ Err AccountFault.OverLimit)
            ↔ (most_credits ≤ length (credits self.old)) }
        ensures charges { charges self.new ≡ charges self.old };

    /// Whether a payment has the serial.
    fn holds(&self, serial: u64) -> bool
        ensures { IsTrue result ↔ HoldsSerial (credits self.now) serial };

    /// What each payment pays of each charge, in order of month, then payment.
    fn pieces(&self, alloc: Global) -> Result<Vec<Piece>, AccountFault>
        ensures right { IfOk result (λ pieces.
            pieces.items ≡ right_pieces (charges self.now) (credits self.now)) }
        ensures never_over { result ≢ Err AccountFault.OverLimit };

    /// What is open of a month's charge. None for a month without one.
    fn open_of(&self, month: Month) -> Option<u64>
        ensures { result ≡ open_of (charges self.now) (credits self.now) month };

    /// The open parts of a month's charge on the days due, due plus 1 month, due plus 2 months, ..
    /// strictly before a day, summed. The day is not before the last payment's. None for a month
    /// without a charge.
    fn weight_of(&self, month: Month, day: Day) -> Option<u64>
        requires { last_day (credits self.now) ≤ day }
        ensures value { result ≡ weight_of (charges self.now) (credits self.now) month day }
        ensures range { IfSome result (λ weight. weight ≤ Charge.MAX_WEIGHT) };

    /// The day of the last payment, or 2000-01-01 without one.
    fn last_day(&self) -> Day
        ensures { result ≡ last_day (credits self.now) };

    /// The part of the payments that no charge reaches.
    fn prepaid(&self) -> u64
        ensures { result ≡ prepaid (charges self.now) (credits self.now) };

    /// All charges.
    fn charged(&self) -> u64
        ensures { result ≡ charged (charges self.now) };

    /// All payments.
    fn credited(&self) -> u64
        ensures { result ≡ credited (credits self.now) };

    /// The charges due before a day.
    fn charged_before(&self, day: Day) -> u64
        ensures { result ≡ charged_before (charges self.now) day };

    /// How many months have a charge.
    fn charge_count(&self) -> usize
        ensures count { result ≡ length (charges self.now) }
        ensures range { result ≤ most_months }
        ensures account { IsAccount (charges self.now) (credits self.now) };

    /// Charge `index` in month order, from 0.
    fn charge_at(&self, index: usize) -> Option<Charge>
        ensures { result ≡ slice_get (charges self.now) index };
}
