//! A count of turns.
use std::marker::Model;

/// Counts the turns of `refill`. A turn is one pass of its loop, and gives one piece at most.
#[derive(Clone, Copy)]
pub struct Turns {
    count: u64,
}

impl Model for Turns {
    ghost use Rattle.std.specs.Prelude.{ℕ, ◌^◌, ◌<◌};

    ghost Value = { ℕ };

    ghost view = { λ t. t.count };

    ghost invariant = { λ t. t.count < 2 ^ 64 };

    ghost inverse = { λ n. record { count = n } };
}

impl Turns {
    ghost use Rattle.std.specs.Prelude.{◌≡◌, ◌+◌, ◌^◌, ◌<◌};

    /// No turn yet.
    pub fn new() -> Turns
        ensures { result ≡ 0 }
    {
        Turns { count: 0 }
    }

    /// How many there were.
    pub fn count(&self) -> u64
        ensures { result ≡ self.now }
    {
        self.count
    }

    /// One turn more.
    pub(crate) fn add(&mut self)
        requires { self.old + 1 < 2 ^ 64 }
        ensures { self.new ≡ self.old + 1 }
    {
        self.count += 1;
    }
}
