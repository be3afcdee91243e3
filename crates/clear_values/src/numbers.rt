//! The numbers of requests, claims, payout lists and reminder runs, and how many serials were given.
ghost use Rattle.std.specs.Prelude.{◌≡◌, ◌↔◌, IsSome, IfSome};
ghost use Rattle.clear_values.specs.Numbers.{IsClaimNo, IsListNo, IsRequestNo, IsRunNo};
ghost use Rattle.clear_values.specs.Numbers.{IsSerialCount};

use crate::limits::{MAX_ENTRIES, MAX_REQUEST_NO, MAX_SERIALS};
use std::marker::Model;

/// The number that a caller gives a command, 1 to 999,999,999,999,999,999.
#[derive(Clone, Copy, PartialEq, Eq, PartialOrd, Ord)]
pub struct RequestNo {
    number: u64,
}

impl Model for RequestNo {
    ghost use Rattle.std.specs.Prelude.{ℕ};
    ghost use Rattle.clear_values.specs.Numbers.{IsRequestNo};

    ghost Value = { ℕ };

    ghost view = { λ a. a.number };

    ghost invariant = { λ a. IsRequestNo a.number };

    ghost inverse = { λ n. record { number = n } };
}

impl RequestNo {
    /// None outside 1 to 999,999,999,999,999,999.
    pub fn new(number: u64) -> Option<RequestNo>
        ensures some { IsSome result ↔ IsRequestNo number }
        ensures value { IfSome result (λ n. n ≡ number) }
    {
        if number < 1 || number > MAX_REQUEST_NO {
            return None;
        }
        Some(RequestNo { number })
    }

    /// The number, 1 to 999,999,999,999,999,999.
    pub fn number(self) -> u64
        ensures value { result ≡ self }
        ensures range { IsRequestNo result }
    {
        self.number
    }
}

/// The number of a claim among all claims, 1 to 50,000,000.
#[derive(Clone, Copy, PartialEq, Eq, PartialOrd, Ord)]
pub struct ClaimNo {
    number: u32,
}

impl Model for ClaimNo {
    ghost use Rattle.std.specs.Prelude.{ℕ};
    ghost use Rattle.clear_values.specs.Numbers.{IsClaimNo};

    ghost Value = { ℕ };

    ghost view = { λ a. a.number };

    ghost invariant = { λ a. IsClaimNo a.number };

    ghost inverse = { λ n. record { number = n } };
}

impl ClaimNo {
    /// None outside 1 to 50,000,000.
    pub fn new(number: u64) -> Option<ClaimNo>
        ensures some { IsSome result ↔ IsClaimNo number }
        ensures value { IfSome result (λ claim. claim ≡ number) }
    {
        if number < 1 || number > MAX_ENTRIES {
            return None;
        }
        Some(ClaimNo {
            number: number as u32,
        })
    }

    /// The number, 1 to 50,000,000.
    pub fn number(self) -> u32
        ensures value { result ≡ self }
        ensures range { IsClaimNo result }
    {
        self.number
    }
}

/// The number of a payout list, 1 to 50,000,000.
#[derive(Clone, Copy, PartialEq, Eq, PartialOrd, Ord)]
pub struct ListNo {
    number: u32,
}

impl Model for ListNo {
    ghost use Rattle.std.specs.Prelude.{ℕ};
    ghost use Rattle.clear_values.specs.Numbers.{IsListNo};

    ghost Value = { ℕ };

    ghost view = { λ a. a.number };

    ghost invariant = { λ a. IsListNo a.number };

    ghost inverse = { λ n. record { number = n } };
}

impl ListNo {
    /// None outside 1 to 50,000,000.
    pub fn new(number: u64) -> Option<ListNo>
        ensures some { IsSome result ↔ IsListNo number }
        ensures value { IfSome result (λ list. list ≡ number) }
    {
        if number < 1 || number > MAX_ENTRIES {
            return None;
        }
        Some(ListNo {
            number: number as u32,
        })
    }

    /// The number, 1 to 50,000,000.
    pub fn number(self) -> u32
        ensures value { result ≡ self }
        ensures range { IsListNo result }
    {
        self.number
    }
}

/// The number of a reminder run, 1 to 50,000,000.
#[derive(Clone, Copy, PartialEq, Eq, PartialOrd, Ord)]
pub struct RunNo {
    number: u32,
}

impl Model for RunNo {
    ghost use Rattle.std.specs.Prelude.{ℕ};
    ghost use Rattle.clear_values.specs.Numbers.{IsRunNo};

    ghost Value = { ℕ };

    ghost view = { λ a. a.number };

    ghost invariant = { λ a. IsRunNo a.number };

    ghost inverse = { λ n. record { number = n } };
}

impl RunNo {
    /// None outside 1 to 50,000,000.
    pub fn new(number: u64) -> Option<RunNo>
        ensures some { IsSome result ↔ IsRunNo number }
        ensures value { IfSome result (λ run. run ≡ number) }
    {
        if number < 1 || number > MAX_ENTRIES {
            return None;
        }
        Some(RunNo {
            number: number as u32,
        })
    }

    /// The number, 1 to 50,000,000.
    pub fn number(self) -> u32
        ensures value { result ≡ self }
        ensures range { IsRunNo result }
    {
        self.number
    }
}

/// How many serials were given, 0 to 500,000,000,000: 50,000,000 requests of 10,000 records each
/// take no more.
#[derive(Clone, Copy)]
pub struct SerialCount {
    count: u64,
}

impl Model for SerialCount {
    ghost use Rattle.std.specs.Prelude.{ℕ};
    ghost use Rattle.clear_values.specs.Numbers.{IsSerialCount};

    ghost Value = { ℕ };

    ghost view = { λ a. a.count };

    ghost invariant = { λ a. IsSerialCount a.count };

    ghost inverse = { λ n. record { count = n } };
}

impl SerialCount {
    /// None above 500,000,000,000.
    pub fn new(count: u64) -> Option<SerialCount>
        ensures some { IsSome result ↔ IsSerialCount count }
        ensures value { IfSome result (λ n. n ≡ count) }
    {
        if count > MAX_SERIALS {
            return None;
        }
        Some(SerialCount { count })
    }

    /// The number, 0 to 500,000,000,000.
    pub fn count(self) -> u64
        ensures value { result ≡ self }
        ensures range { IsSerialCount result }
    {
        self.count
    }
}
