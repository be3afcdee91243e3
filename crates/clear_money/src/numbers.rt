//! Numbers of firms and workers, amounts of money, and numbers as they are written.
ghost use Rattle.std.specs.Prelude.{◌≡◌, ℕ, ◌≤◌, ◌↔◌, ◌≢◌, ◌⊎◌, false, IsTrue, IsSome, IfSome};
ghost use Rattle.std.specs.Prelude.{IfNone, length, slice_index};
ghost use Rattle.clear_money.specs.Numbers.{IsEmployerNo, IsWorkerNo, IsAmount, IsNumberText};

use std::marker::Model;
use std::str;

/// The number of a firm, 1 to 99,999,999.
#[derive(Clone, Copy, PartialEq, Eq, PartialOrd, Ord)]
pub struct EmployerNo {
    number: u32,
}

impl Model for EmployerNo {
    ghost use Rattle.std.specs.Prelude.{ℕ};

    ghost Value = { ℕ };

    ghost use Rattle.clear_money.specs.Numbers.{IsEmployerNo};

    ghost view = { λ a. a.number };

    ghost invariant = { λ a. IsEmployerNo a.number };

    ghost inverse = { λ n. record { number = n } };
}

impl EmployerNo {
    /// The greatest number of a firm.
    pub const MAX: u64 = 99_999_999;

    /// None outside 1 to 99,999,999.
    pub fn new(number: u64) -> Option<EmployerNo>
        ensures some { IsSome result ↔ IsEmployerNo number }
        ensures value { IfSome result (λ e. e ≡ number) }
    {
        if number < 1 || number > Self::MAX {
            return None;
        }
        Some(EmployerNo {
            number: number as u32,
        })
    }

    /// The number, 1 to 99,999,999.
    pub fn number(self) -> u32
        ensures value { result ≡ self }
        ensures range { IsEmployerNo result }
    {
        self.number
    }
}

/// The number of a worker, 1 to 999,999,999.
#[derive(Clone, Copy, PartialEq, Eq, PartialOrd, Ord)]
pub struct WorkerNo {
    number: u32,
}

impl Model for WorkerNo {
    ghost use Rattle.std.specs.Prelude.{ℕ};

    ghost Value = { ℕ };

    ghost use Rattle.clear_money.specs.Numbers.{IsWorkerNo};

    ghost view = { λ a. a.number };

    ghost invariant = { λ a. IsWorkerNo a.number };

    ghost inverse = { λ n. record { number = n } };
}

impl WorkerNo {
    /// The greatest number of a worker.
    pub const MAX: u64 = 999_999_999;

    /// None outside 1 to 999,999,999.
    pub fn new(number: u64) -> Option<WorkerNo>
        ensures some { IsSome result ↔ IsWorkerNo number }
        ensures value { IfSome result (λ w. w ≡ number) }
    {
        if number < 1 || number > Self::MAX {
            return None;
        }
        Some(WorkerNo {
            number: number as u32,
        })
    }

    /// The number, 1 to 999,999,999.
    pub fn number(self) -> u32
        ensures value { result ≡ self }
        ensures range { IsWorkerNo result }
    {
        self.number
    }
}

/// An amount that is paid or claimed, 1 to 100,000,000,000 cents.
#[derive(Clone, Copy, PartialEq, Eq, PartialOrd, Ord)]
pub struct Amount {
    cents: u64,
}

impl Model for Amount {
    ghost use Rattle.std.specs.Prelude.{ℕ};

    ghost Value = { ℕ };

    ghost use Rattle.clear_money.specs.Numbers.{IsAmount};

    ghost view = { λ a. a.cents };

    ghost invariant = { λ a. IsAmount a.cents };

    ghost inverse = { λ n. record { cents = n } };
}

impl Amount {
    /// The greatest amount in cents.
    pub const MAX: u64 = 100_000_000_000;

    /// None outside 1 to 100,000,000,000 cents.
    pub fn new(cents: u64) -> Option<Amount>
        ensures some { IsSome result ↔ IsAmount cents }
        ensures value { IfSome result (λ a. a ≡ cents) }
    {
        if cents < 1 || cents > Self::MAX {
            return None;
        }
        Some(Amount { cents })
    }

    /// The amount in cents.
    pub fn cents(self) -> u64
        ensures value { result ≡ self }
        ensures range { IsAmount result }
    {
        self.cents
    }
}

/// Reads a number in decimal digits without leading zeros; `0` itself is read. None for any other
/// text, and past `u64`.
pub fn read_number(bytes: &[u8]) -> Option<u64>
    ensures found { IfSome result (λ n. IsNumberText bytes.now n) }
    ensures only { IfNone result ((n : ℕ) → ¬ (IsNumberText bytes.now n)) }
{
    if !starts_plainly(bytes) {
        return None;
    }
    let Ok(text) = str::from_utf8(bytes) else {
        return None;
    };
    match text.parse::<u64>() {
        Ok(number) => Some(number),
        Err(_) => None,
    }
}

// Neither a plus nor a zero before other digits stands first: `parse` reads these too.
fn starts_plainly(bytes: &[u8]) -> bool
    ensures plus { IsTrue result → slice_index bytes.now 0 ≢ 43 }
    ensures zero { IsTrue result → slice_index bytes.now 0 ≡ 48 → length bytes.now ≡ 1 }
    ensures only { result ≡ false
        → (slice_index bytes.now 0 ≡ 43)
        ⊎ ((slice_index bytes.now 0 ≡ 48) × (2 ≤ length bytes.now)) }
{
    match bytes {
        [b'+', ..] => false,
        [b'0', _, ..] => false,
        _ => true,
    }
}
