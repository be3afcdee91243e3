//! A keeper that computes each answer from its two lists.
use crate::entries::{AccountFault, Charge, Credit, Piece};
use crate::keeper::{Keeper, MAX_CREDITS};
use crate::lists::{
    add_charges, add_credits, add_due, holds_serial, open_cents, place_of, put_charge, put_credit,
};
use crate::refill::refill;
use crate::turns::Turns;
use crate::weights::weigh;
use clear_money::days::Day;
use clear_money::months::Month;
use std::alloc::Global;
use std::marker::Model;

/// A keeper that computes each answer from its two lists.
#[derive(Drop)]
pub struct Plain {
    charges: Vec<Charge>,
    credits: Vec<Credit>,
}

impl Model for Plain {
    ghost use Rattle.clear_account.specs.Account.{Account, IsAccount};

    ghost Value = { Account };

    ghost view = { λ a. record { charges = a.charges.items; credits = a.credits.items } };

    ghost invariant = { λ a. IsAccount a.charges.items a.credits.items };
}

impl Plain {
    ghost use Rattle.std.specs.Prelude.{◌≡◌, []};
    ghost use Rattle.clear_account.specs.Account.{IsAccount, last_day};

    /// An account without charges and payments.
    pub fn new(alloc: Global) -> Plain
        ensures { result ≡ record { charges = []; credits = [] } }
    {
        Plain {
            charges: Vec::new(alloc),
            credits: Vec::new(alloc),
        }
    }

    /// The charges in month order.
    pub fn all_charges(&self) -> &[Charge]
        ensures value { result.now ≡ self.now.charges }
        ensures account { IsAccount self.now.charges self.now.credits }
    {
        self.charges.as_slice()
    }

    /// The payments in order of day and serial.
    pub fn all_credits(&self) -> &[Credit]
        ensures { result.now ≡ self.now.credits }
    {
        self.credits.as_slice()
    }
}

impl Keeper for Plain {
    ghost charges = { λ a. a.charges };

    ghost credits = { λ a. a.credits };

    fn set_charge(&mut self, charge: Charge) -> Result<(), AccountFault> {
        // No effect at run time: the proof reads the month's range from this call.
        let _number = charge.month.number();
        put_charge(&mut self.charges, charge)?;
        Ok(())
    }

    fn add_credit(&mut self, credit: Credit) -> Result<(), AccountFault> {
        // No effect at run time: the proof reads the amount's range from this call.
        let _cents = credit.cents.cents();
        if self.credits.len() >= MAX_CREDITS {
            return Err(AccountFault::OverLimit);
        }
        put_credit(&mut self.credits, credit)?;
        Ok(())
    }

    fn holds(&self, serial: u64) -> bool {
        holds_serial(self.credits.as_slice(), serial)
    }

    fn pieces(&self, alloc: Global) -> Result<Vec<Piece>, AccountFault> {
        let mut turns = Turns::new();
        refill(
            alloc,
            0,
            0,
            self.charges.as_slice(),
            self.credits.as_slice(),
            &mut turns,
        )
    }

    fn open_of(&self, month: Month) -> Option<u64> {
        let place = place_of(self.charges.as_slice(), month)?;
        Some(open_cents(self.charges.as_slice(), self.credits.as_slice(), place))
    }

    fn weight_of(&self, month: Month, day: Day) -> Option<u64> {
        let place = place_of(self.charges.as_slice(), month)?;
        Some(weigh(self.charges.as_slice(), self.credits.as_slice(), place, day))
    }

    fn last_day(&self) -> Day {
        match self.credits.last() {
            Some(credit) => credit.day,
            None => Day::first(),
        }
    }

    fn prepaid(&self) -> u64 {
        self.credited().saturating_sub(self.charged())
    }

    fn charged(&self) -> u64 {
        add_charges(self.charges.as_slice())
    }

    fn credited(&self) -> u64 {
        add_credits(self.credits.as_slice())
    }

    fn charged_before(&self, day: Day) -> u64 {
        add_due(self.charges.as_slice(), day)
    }

    fn charge_count(&self) -> usize {
        self.charges.len()
    }

    fn charge_at(&self, index: usize) -> Option<Charge> {
        self.charges.get(index).copied()
    }
}
