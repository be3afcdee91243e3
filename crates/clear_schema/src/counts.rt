//! The counts of an office.
use clear_money::days::Day;
use clear_values::numbers::SerialCount;

/// The day of the last accepted request, how many there were, and the last numbers given.
#[derive(Clone, Copy)]
pub struct Counts {
    /// The day of the last accepted request, none before the first.
    pub day: Option<Day>,
    /// How many requests were accepted, at most 50,000,000.
    pub entries: u64,
    /// How many serials were given to bank lines and releases, at most 500,000,000,000.
    pub serial: SerialCount,
    /// How many claims were given numbers, at most 50,000,000.
    pub claims: u32,
    /// How many payout lists were given numbers, at most 50,000,000.
    pub lists: u32,
    /// How many reminder runs were given numbers, at most 50,000,000.
    pub runs: u32,
}
