//! What an accepted command is answered.
use crate::numbers::{ClaimNo, ListNo, RunNo};

/// What an accepted command is answered.
#[derive(Clone, Copy)]
pub enum Reply {
    /// It is done, and there is nothing to tell.
    Done,
    /// The version of the month's report, and the month's contribution in cents.
    Reported {
        version: u32,
        charge: u64,
    },
    /// How many lines of a bank file were new, and how many repeat an earlier one.
    Imported {
        new: u64,
        repeats: u64,
    },
    /// The number of the claim that was made.
    Claimed {
        claim: ClaimNo,
    },
    /// How the claim was settled.
    Released(Settlement),
    /// The number of the payout list, how many claims are on it, and what they pay out together, in
    /// cents.
    Listed {
        list: ListNo,
        items: u64,
        total: u64,
    },
    /// The number of the reminder run, and how many firms were reminded.
    Reminded {
        run: RunNo,
        firms: u64,
    },
}

/// How the cents of a claim are settled: first what the firm owes of contributions, then what it
/// owes of interest, and the rest is paid out. The three amounts are cents, and their sum is the
/// claim's.
#[derive(Clone, Copy)]
pub struct Settlement {
    /// What is set off to contributions.
    pub to_contributions: u64,
    /// What is set off to interest.
    pub to_interest: u64,
    /// What is paid out.
    pub paid: u64,
}
