//! How much a book, a request and an account may hold.

pub use clear_money::limits::{MAX_BASE, MAX_CHARGED, MAX_CREDITED, MAX_CREDITS, MAX_WEIGHT};

/// The accepted requests of a book.
pub const MAX_ENTRIES: u64 = 50_000_000;

/// The registered employers.
pub const MAX_EMPLOYERS: u64 = 10_000;

/// The lines of a report.
pub const MAX_LINES: usize = 500;

/// The gross amount of a line, in cents.
pub const MAX_GROSS: u64 = 10_000_000;

/// The versions of a month's report.
pub const MAX_VERSIONS: u32 = 10_000;

/// The data records of a bank file.
pub const MAX_RECORDS: usize = 10_000;

/// The lines in suspense.
pub const MAX_SUSPENSE: u64 = 100_000;

/// The number of a request.
pub const MAX_REQUEST_NO: u64 = 999_999_999_999_999_999;

/// The bytes of a name.
pub const MAX_NAME_BYTES: usize = 60;

/// The level of a reminder.
pub const MAX_LEVEL: u8 = 3;

/// All interest of an employer, in cents: that of 2,400 months of the greatest base, 10 percent for
/// each of 2,412 begun months.
pub const MAX_INTEREST: u64 = 2_894_400_000_000_000;

/// All claims, in cents: 50,000,000 claims of 100,000,000,000 cents.
pub const MAX_CLAIMED: u64 = 5_000_000_000_000_000_000;

/// The serials that an office gives: 50,000,000 requests of 10,000 records.
pub const MAX_SERIALS: u64 = 500_000_000_000;
