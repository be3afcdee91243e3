//! A keeper that keeps its pieces.
use crate::entries::{AccountFault, Charge, Credit, Piece};
use crate::keeper::{Keeper, MAX_CREDITS};
use crate::plain::Plain;
use crate::rework::{Fresh, rework_charge, rework_credit};
use crate::turns::Turns;
use clear_money::days::Day;
use clear_money::months::Month;
use std::alloc::Global;
use std::marker::Model;

/// A keeper that keeps its pieces.
///
/// A change has a place: for a charge the sum of the charges of earlier months, for a payment the
/// sum of the payments that come before it. Pieces that end at or below the place are kept; the
/// others are made anew by one `refill` over the charges and payments that reach beyond it.
#[derive(Drop)]
pub struct Kept {
    account: Plain,
    pieces: Vec<Piece>,
    turns: Turns,
    alloc: Global,
}

impl Model for Kept {
    ghost use Rattle.std.specs.Prelude.{◌≡◌};
    ghost use Rattle.clear_account.specs.Allocation.{right_pieces};
    ghost use Rattle.clear_account.specs.Kept.{KeptAccount};

    ghost Value = { KeptAccount };

    ghost view = { λ a. record {
      charges = a.account.charges;
      credits = a.account.credits;
      turns = a.turns;
    } };

    ghost invariant = { λ a. a.pieces.items ≡ right_pieces a.account.charges a.account.credits };
}

impl Kept {
    ghost use Rattle.std.specs.Prelude.{◌≡◌, []};

    /// An account without charges and payments.
    pub fn new(alloc: Global) -> Kept
        ensures { result ≡ record { charges = []; credits = []; turns = 0 } }
    {
        Kept {
            account: Plain::new(alloc),
            pieces: Vec::new(alloc),
            turns: Turns::new(),
            alloc,
        }
    }

    /// The turns of `refill` in the last change that was accepted; 0 before one.
    pub fn turns(&self) -> u64
        ensures { result ≡ self.now.turns }
    {
        self.turns.count()
    }
}

impl Keeper for Kept {
    ghost use Rattle.std.specs.Prelude.{◌≡◌, ◌≢◌, ◌≤◌, ◌↔◌, Err, OnErr, OnOk, filter, length};
    ghost use Rattle.std.specs.Prelude.{nat_lt};
    ghost use Rattle.clear_money.specs.Calendar.{day_of_month};
    ghost use Rattle.clear_money.specs.Limits.{most_credits};
    ghost use Rattle.clear_account.specs.Account.{HoldsSerial, charged, comes_before, credited};
    ghost use Rattle.clear_account.specs.Account.{with_charge, with_credit};
    ghost use Rattle.clear_account.specs.Kept.{CountsTurns};

    ghost charges = { λ a. a.charges };

    ghost credits = { λ a. a.credits };

    fn set_charge(&mut self, charge: Charge) -> Result<(), AccountFault>
        requires cents { charge.cents ≤ Charge.MAX_CENTS }
        requires due { day_of_month charge.due ≤ 28 }
        ensures ok { OnOk result (self.new.charges ≡ with_charge charge self.old.charges) }
        ensures err { OnErr result (self.new.charges ≡ self.old.charges) }
        ensures never_over { result ≢ Err AccountFault.OverLimit }
        ensures credits { self.new.credits ≡ self.old.credits }
        ensures turns { OnOk result
            (CountsTurns (charged (filter (λ d. nat_lt d.month charge.month) self.old.charges))
            self.new.charges self.new.credits self.new.turns) }
        ensures same_turns { OnErr result (self.new.turns ≡ self.old.turns) }
    {
        let alloc = self.alloc;
        let Fresh {
            keep,
            mut pieces,
            turns,
        } = rework_charge(
            alloc,
            self.account.all_charges(),
            self.account.all_credits(),
            self.pieces.as_slice(),
            &charge,
        )?;
        if self.pieces.reserve(pieces.len()).is_err() {
            return Err(AccountFault::Memory);
        }
        self.account.set_charge(charge)?;
        replace(&mut self.pieces, keep, &mut pieces);
        self.turns = turns;
        Ok(())
    }

    fn add_credit(&mut self, credit: Credit) -> Result<(), AccountFault>
        requires { ¬ HoldsSerial self.old.credits credit.serial }
        ensures ok { OnOk result (self.new.credits ≡ with_credit credit self.old.credits) }
        ensures err { OnErr result (self.new.credits ≡ self.old.credits) }
        ensures limit { (result ≡ Err AccountFault.OverLimit)
            ↔ (most_credits ≤ length self.old.credits) }
        ensures charges { self.new.charges ≡ self.old.charges }
        ensures turns { OnOk result
            (CountsTurns (credited (filter (λ l. comes_before l credit) self.old.credits))
            self.new.charges self.new.credits self.new.turns) }
        ensures same_turns { OnErr result (self.new.turns ≡ self.old.turns) }
    {
        if self.account.all_credits().len() >= MAX_CREDITS {
            return Err(AccountFault::OverLimit);
        }
        let alloc = self.alloc;
        let Fresh {
            keep,
            mut pieces,
            turns,
        } = rework_credit(
            alloc,
            self.account.all_charges(),
            self.account.all_credits(),
            self.pieces.as_slice(),
            &credit,
        )?;
        if self.pieces.reserve(pieces.len()).is_err() {
            return Err(AccountFault::Memory);
        }
        self.account.add_credit(credit)?;
        replace(&mut self.pieces, keep, &mut pieces);
        self.turns = turns;
        Ok(())
    }

    fn holds(&self, serial: u64) -> bool {
        self.account.holds(serial)
    }

    fn pieces(&self, alloc: Global) -> Result<Vec<Piece>, AccountFault> {
        let mut pieces = Vec::new(alloc);
        pieces.extend_from_slice(self.pieces.as_slice())?;
        Ok(pieces)
    }

    fn open_of(&self, month: Month) -> Option<u64> {
        self.account.open_of(month)
    }

    fn weight_of(&self, month: Month, day: Day) -> Option<u64> {
        self.account.weight_of(month, day)
    }

    fn last_day(&self) -> Day {
        self.account.last_day()
    }

    fn prepaid(&self) -> u64 {
        self.account.prepaid()
    }

    fn charged(&self) -> u64 {
        self.account.charged()
    }

    fn credited(&self) -> u64 {
        self.account.credited()
    }

    fn charged_before(&self, day: Day) -> u64 {
        self.account.charged_before(day)
    }

    fn charge_count(&self) -> usize {
        self.account.charge_count()
    }

    fn charge_at(&self, index: usize) -> Option<Charge> {
        self.account.charge_at(index)
    }
}

ghost use Rattle.std.specs.Prelude.{◌≡◌, ◌++◌, ◌+◌, ◌≤◌, length, take, vec_capacity, vec_len};

// Keeps the first pieces, and puts the new ones behind them. There is room.
fn replace(pieces: &mut Vec<Piece>, keep: usize, fresh: &mut Vec<Piece>)
    requires { vec_len pieces.old + vec_len fresh.old ≤ vec_capacity pieces.old }
    ensures { pieces.new.items ≡ take keep pieces.old.items ++ fresh.old.items }
{
    pieces.truncate(keep);
    match pieces.append(fresh) {
        Ok(()) => (),
        Err(_) => unreachable!(),
    }
}
