//! What several columns of a row tell together.
use clear_money::days::Day;
use clear_values::numbers::ListNo;
use clear_values::replies::Settlement;

/// The columns of a claim that tell how it stands.
#[derive(Clone, Copy)]
pub struct StateColumns {
    /// 0 is open, 1 is withdrawn, and 2 is released.
    pub code: u64,
    /// The day of the release.
    pub released: Option<Day>,
    /// Three times 0 without a release.
    pub settlement: Settlement,
    /// The payout list of a release, if it is on one.
    pub list: Option<ListNo>,
}

/// The kind of a reply, and its own numbers: 0 stands for those that it has not.
#[derive(Clone, Copy, PartialEq, Eq)]
pub struct ReplyNumbers {
    /// 1 is done, 2 is reported, 3 is imported, 4 is claimed, 5 is released, 6 is listed, and 7 is
    /// reminded.
    pub kind: u64,
    pub first: u64,
    pub second: u64,
    pub third: u64,
}
