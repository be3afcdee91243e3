//! Charges in month order and payments in order of day and serial, as lists.
ghost use Rattle.std.specs.Prelude.{◌≡◌, ◌<◌, ◌≤◌, ◌^◌, ◌↔◌, All, AllPairs, IsTrue, OnOk, OnErr};
ghost use Rattle.std.specs.Prelude.{drop, length, take, true, false};
ghost use Rattle.clear_account.specs.Account.{HoldsSerial, IsAccount, charged, comes_before};
ghost use Rattle.clear_account.specs.Account.{credited, place_of, with_charge, with_credit};
ghost use Rattle.clear_account.specs.Allocation.{open_part};
ghost use Rattle.clear_account.specs.Arrears.{charged_before};

use crate::entries::{Charge, Credit};
use clear_money::days::Day;
use clear_money::months::Month;
use std::alloc::AllocError;

/// Adds the charge, or puts it in the place of its month's.
pub(crate) fn put_charge(charges: &mut Vec<Charge>, charge: Charge) -> Result<(), AllocError>
    requires { AllPairs (λ c d. c.month < d.month) charges.old.items }
    ensures ok { OnOk result (charges.new.items ≡ with_charge charge charges.old.items) }
    ensures err { OnErr result (charges.new.items ≡ charges.old.items) }
{
    let place = months_before(charges.as_slice(), charge.month);
    if place < charges.len() && charges[place].month == charge.month {
        charges[place] = charge;
        return Ok(());
    }
    charges.insert(place, charge)?;
    Ok(())
}

/// How many charges are for earlier months.
pub(crate) fn months_before(charges: &[Charge], month: Month) -> usize
    requires { AllPairs (λ c d. c.month < d.month) charges.now }
    ensures bound { result ≤ length charges.now }
    ensures before { All (λ c. c.month < month) (take result charges.now) }
    ensures from { All (λ c. month ≤ c.month) (drop result charges.now) }
{
    charges.partition_point(|c| c.month < month)
}

/// Adds the payment in its place.
pub(crate) fn put_credit(credits: &mut Vec<Credit>, credit: Credit) -> Result<(), AllocError>
    requires rise { AllPairs (λ k l. IsTrue (comes_before k l)) credits.old.items }
    requires fresh { ¬ HoldsSerial credits.old.items credit.serial }
    ensures ok { OnOk result (credits.new.items ≡ with_credit credit credits.old.items) }
    ensures err { OnErr result (credits.new.items ≡ credits.old.items) }
{
    let place = credits_before(credits.as_slice(), &credit);
    credits.insert(place, credit)?;
    Ok(())
}

/// How many payments come before one.
pub(crate) fn credits_before(credits: &[Credit], credit: &Credit) -> usize
    requires { AllPairs (λ k l. IsTrue (comes_before k l)) credits.now }
    ensures bound { result ≤ length credits.now }
    ensures before { All (λ k. comes_before k credit.now ≡ true) (take result credits.now) }
    ensures from { All (λ k. comes_before k credit.now ≡ false) (drop result credits.now) }
{
    credits.partition_point(|k| k.is_before(credit))
}

/// Whether a payment has the serial.
pub(crate) fn holds_serial(credits: &[Credit], serial: u64) -> bool
    ensures { IsTrue result ↔ HoldsSerial credits.now serial }
{
    credits.iter().any(|k| k.serial == serial)
}

/// The place of a month's charge, from 0.
pub(crate) fn place_of(charges: &[Charge], month: Month) -> Option<usize>
    ensures { result ≡ place_of charges.now month }
{
    charges.iter().position(|c| c.month == month)
}

/// All charges, in cents.
pub(crate) fn add_charges(charges: &[Charge]) -> u64
    requires { charged charges.now < 2 ^ 64 }
    ensures { result ≡ charged charges.now }
{
    charges.iter().map(|c| c.cents).sum()
}

/// All payments, in cents.
pub(crate) fn add_credits(credits: &[Credit]) -> u64
    requires { credited credits.now < 2 ^ 64 }
    ensures { result ≡ credited credits.now }
{
    credits.iter().map(|k| k.cents.cents()).sum()
}

/// The charges due before a day, in cents.
pub(crate) fn add_due(charges: &[Charge], day: Day) -> u64
    requires { charged charges.now < 2 ^ 64 }
    ensures { result ≡ charged_before charges.now day }
{
    charges
        .iter()
        .filter(|c| c.due < day)
        .map(|c| c.cents)
        .sum()
}

/// What is open of the charge at a place, in cents.
pub(crate) fn open_cents(charges: &[Charge], credits: &[Credit], place: usize) -> u64
    requires account { IsAccount charges.now credits.now }
    requires place { place < length charges.now }
    ensures { result ≡ open_part charges.now credits.now place }
{
    let before = add_charges(&charges[..place]);
    let charge = &charges[place];
    charge.cents
        - charge
            .cents
            .min(add_credits(credits).saturating_sub(before))
}
