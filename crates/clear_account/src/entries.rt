//! What an account holds, and what is paid of it.
use clear_money::days::Day;
use clear_money::limits::{self, MAX_BASE};
use clear_money::months::Month;
use clear_money::numbers::Amount;
use std::alloc::AllocError;

/// The contribution that a firm owes for a month.
#[derive(Clone, Copy)]
pub struct Charge {
    pub month: Month,
    /// The day on which it is due.
    pub due: Day,
    /// 0 to `MAX_CENTS`.
    pub cents: u64,
}

impl Charge {
    /// The greatest contribution for a month.
    pub const MAX_CENTS: u64 = MAX_BASE;

    /// The greatest weight of a contribution, in cents: the greatest one, once for each of 2,412 begun
    /// months.
    pub const MAX_WEIGHT: u64 = limits::MAX_WEIGHT;
}

/// A payment of a firm, or what was set off for it.
#[derive(Clone, Copy)]
pub struct Credit {
    /// The day from which it counts as paid.
    pub day: Day,
    /// Its number in the whole office; an account has no two payments of one serial.
    pub serial: u64,
    pub cents: Amount,
}

impl Credit {
    ghost use Rattle.std.specs.Prelude.{◌≡◌};
    ghost use Rattle.clear_account.specs.Account.{comes_before};

    /// By day, and on one day by serial.
    pub fn is_before(&self, other: &Credit) -> bool
        ensures { result ≡ comes_before self.now other.now }
    {
        self.day < other.day || (self.day == other.day && self.serial < other.serial)
    }
}

/// What a payment pays of the charge of a month: 1 cent or more.
#[derive(Clone, Copy)]
pub struct Piece {
    pub month: Month,
    /// The serial of the payment.
    pub serial: u64,
    pub cents: u64,
}

/// Why an account is not changed.
#[derive(Clone, Copy)]
pub enum AccountFault {
    /// It has `MAX_CREDITS` payments.
    OverLimit,
    Memory,
}

impl From<AllocError> for AccountFault {
    ghost use Rattle.std.specs.Prelude.{◌≡◌};
    ghost use Rattle.clear_account.specs.declared.entries.AccountFault.TheVariants.{Memory};

    ghost from_gives = { λ _ fault. fault ≡ Memory };

    fn from(_error: AllocError) -> AccountFault {
        AccountFault::Memory
    }
}
