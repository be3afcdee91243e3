//! Months from 2000-01 to 2199-12.
ghost use Rattle.std.specs.Prelude.{◌≡◌, ◌≢◌, ℕ, ◌≤◌, ◌<◌, ◌+◌, ◌*◌, ◌/◌, ◌%◌, ◌↔◌, ◌∷◌, []};
ghost use Rattle.std.specs.Prelude.{IsSome, IfSome, IfNone};
ghost use Rattle.clear_money.specs.Calendar.{IsMonth};
ghost use Rattle.clear_money.specs.Texts.{two_digits, four_digits, month_text};

use std::marker::Model;

/// A month from 2000-01 to 2199-12.
///
/// A contract sees its number: twelve times the year, and the months of the year before it.
#[derive(Clone, Copy, PartialEq, Eq, PartialOrd, Ord)]
pub struct Month {
    number: u16,
}

impl Model for Month {
    ghost use Rattle.std.specs.Prelude.{ℕ};

    ghost Value = { ℕ };

    ghost use Rattle.clear_money.specs.Calendar.{IsMonth};

    ghost view = { λ a. a.number };

    ghost invariant = { λ a. IsMonth a.number };

    ghost inverse = { λ m. record { number = m } };
}

impl Month {
    /// The number of 2000-01, the first month.
    pub const FIRST_NUMBER: u16 = 24_000;

    /// The number of 2199-12, the last month.
    pub const LAST_NUMBER: u16 = 26_399;

    /// How many months there are.
    pub const COUNT: u16 = 2_400;

    /// The month of a number: twelve times the year, and the months of the year before it. None
    /// outside 2000-01 to 2199-12.
    pub fn from_number(number: u16) -> Option<Month>
        ensures some { IsSome result ↔ IsMonth number }
        ensures value { IfSome result (λ m. m ≡ number) }
    {
        if number < Self::FIRST_NUMBER || number > Self::LAST_NUMBER {
            return None;
        }
        Some(Month { number })
    }

    /// A month of a year, counted from 1. None outside 2000-01 to 2199-12.
    pub fn new(year: u16, month: u16) -> Option<Month>
        ensures some { IsSome result
            ↔ ((2000 ≤ year) × (year ≤ 2199) × (1 ≤ month) × (month ≤ 12)) }
        ensures value { IfSome result (λ m. m + 1 ≡ 12 * year + month) }
    {
        if year < 2000 || year > 2199 || month < 1 || month > 12 {
            return None;
        }
        Some(Month {
            number: 12 * year + (month - 1),
        })
    }

    /// Reads exactly `YYYY-MM`. None for any other text, and outside the range.
    pub fn read(bytes: &[u8]) -> Option<Month>
        ensures found { IfSome result (λ m. IsMonth m × (bytes.now ≡ month_text m)) }
        ensures only { IfNone result ((m : ℕ) → IsMonth m → bytes.now ≢ month_text m) }
    {
        let [a, b, c, d, dash, e, f] = bytes else {
            return None;
        };
        if *dash != b'-' {
            return None;
        }
        let year = read_four(*a, *b, *c, *d)?;
        let month = read_two(*e, *f)?;
        Month::new(year, month)
    }

    /// `YYYY-MM`.
    pub fn text(self) -> [u8; 7]
        ensures { result ≡ month_text self }
    {
        let [a, b, c, d] = write_four(self.year());
        let [e, f] = write_two(self.month_of_year());
        [a, b, c, d, b'-', e, f]
    }

    /// The year, 2000 to 2199.
    pub fn year(self) -> u16
        ensures value { result ≡ self / 12 }
        ensures range { (2000 ≤ result) × (result ≤ 2199) }
    {
        self.number / 12
    }

    /// The month of the year, 1 to 12.
    pub fn month_of_year(self) -> u16
        ensures value { result ≡ self % 12 + 1 }
        ensures range { result ≤ 12 }
    {
        self.number % 12 + 1
    }

    /// The number of the month: twelve times the year, and the months of the year before it.
    pub fn number(self) -> u16
        ensures value { result ≡ self }
        ensures range { IsMonth result }
    {
        self.number
    }
}

// The number that two digits write.
pub(crate) fn read_two(a: u8, b: u8) -> Option<u16>
    ensures found { IfSome result (λ n. (n < 100) × ((a ∷ b ∷ []) ≡ two_digits n)) }
    ensures only { IfNone result ((n : ℕ) → n < 100 → (a ∷ b ∷ []) ≢ two_digits n) }
{
    if !a.is_ascii_digit() || !b.is_ascii_digit() {
        return None;
    }
    Some(u16::from(a - b'0') * 10 + u16::from(b - b'0'))
}

// The number that four digits write.
pub(crate) fn read_four(a: u8, b: u8, c: u8, d: u8) -> Option<u16>
    ensures found { IfSome result (λ n. (n < 10_000) × ((a ∷ b ∷ c ∷ d ∷ []) ≡ four_digits n)) }
    ensures only { IfNone result ((n : ℕ) → n < 10_000 → (a ∷ b ∷ c ∷ d ∷ []) ≢ four_digits n) }
{
    if !a.is_ascii_digit() || !b.is_ascii_digit() || !c.is_ascii_digit() || !d.is_ascii_digit() {
        return None;
    }
    let high = u16::from(a - b'0') * 1_000 + u16::from(b - b'0') * 100;
    Some(high + u16::from(c - b'0') * 10 + u16::from(d - b'0'))
}

// A number in two digits.
pub(crate) fn write_two(number: u16) -> [u8; 2]
    requires { number < 100 }
    ensures { result ≡ two_digits number }
{
    [b'0' + (number / 10) as u8, b'0' + (number % 10) as u8]
}

// A number in four digits.
pub(crate) fn write_four(number: u16) -> [u8; 4]
    requires { number < 10_000 }
    ensures { result ≡ four_digits number }
{
    [
        b'0' + (number / 1_000) as u8,
        b'0' + (number / 100 % 10) as u8,
        b'0' + (number / 10 % 10) as u8,
        b'0' + (number % 10) as u8,
    ]
}
