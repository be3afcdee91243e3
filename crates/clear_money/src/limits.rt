//! How large a base may be, and what follows for an account.

/// The base of a month, which its contribution doesn't exceed, in cents: 500 lines of 10,000,000
/// cents.
pub const MAX_BASE: u64 = 5_000_000_000;

/// The weight of a contribution, in cents: the greatest base, once for each of 2,412 begun months.
pub const MAX_WEIGHT: u64 = 12_060_000_000_000;

/// All contributions of an employer, in cents: 2,400 months of the greatest base.
pub const MAX_CHARGED: u64 = 12_000_000_000_000;

/// The credits of an employer for one purpose.
pub const MAX_CREDITS: u64 = 100_000;

/// All credits of an employer for one purpose, in cents: 100,000 credits of 100,000,000,000 cents.
pub const MAX_CREDITED: u64 = 10_000_000_000_000_000;
