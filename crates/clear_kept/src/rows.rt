//! Kept rows. Amounts are in cents.
use clear_money::days::Day;
use clear_money::months::Month;

/// What a payment pays of the charge of a month, with the day of the payment.
#[derive(Clone, Copy)]
pub struct DatedPiece {
    pub month: Month,
    /// The day of the payment.
    pub day: Day,
    /// The serial of the payment.
    pub serial: u64,
    /// 1 cent or more.
    pub cents: u64,
}

/// A piece, and where its payment stands in a list of payments.
#[derive(Clone, Copy)]
pub struct PlacedPiece {
    pub piece: DatedPiece,
    /// The place of the payment, from 0.
    pub place: usize,
}

/// What a firm owes for a month, with what is paid of it.
#[derive(Clone, Copy)]
pub struct WeighedCharge {
    pub month: Month,
    /// The day on which it is due.
    pub due: Day,
    pub cents: u64,
    /// What is open of it.
    pub left: u64,
    /// Its weight so far: the cents of its pieces, each once for each month begun from the due day
    /// until it was paid.
    pub weight: u64,
}
