//! Whole numbers of a range.
ghost use Rattle.std.specs.Prelude.{◌≡◌, ◌≤◌};
ghost use Rattle.clear_routes.specs.Members.{within};

use std::marker::Model;

/// A whole number from `LOW` to `HIGH`.
#[derive(Clone, Copy)]
pub(crate) struct Within<const LOW: u64, const HIGH: u64> {
    number: u64,
}

impl<const LOW: u64, const HIGH: u64> Model for Within<LOW, HIGH> {
    ghost use Rattle.std.specs.Prelude.{ℕ, ◌≤◌};

    ghost Value = { ℕ };

    ghost view = { λ a. a.number };

    ghost invariant = { λ a. (LOW ≤ a.number) × (a.number ≤ HIGH) };

    ghost inverse = { λ n. record { number = n } };
}

impl<const LOW: u64, const HIGH: u64> Within<LOW, HIGH> {
    /// The number.
    pub(crate) fn number(self) -> u64
        ensures value { result ≡ self.entry }
        ensures range { (LOW ≤ result) × (result ≤ HIGH) }
    {
        self.number
    }

    /// None outside the range.
    pub(crate) fn new(number: u64) -> Option<Within<LOW, HIGH>>
        ensures { result ≡ within LOW HIGH number }
    {
        if number < LOW || number > HIGH {
            return None;
        }
        Some(Within { number })
    }
}
