//! The changes that decisions make of the store: each is put into the tables as its meaning says
//! (`put_change`), or refused, where a number is out of its range or a key isn't free.
//!
//! The rows of the tables are those of the crates below; what a decision reads of them, and the
//! store itself, can be named by this crate, too.
//!
//! Any change may be refused for want of memory or for a fault of the store, whatever the tables hold:
//! so a body that only refuses meets the contract of each, and tests show that changes succeed.
#![tactic(auto)]

mod bank_file;
pub mod changes;
pub mod charges;
mod claims;
mod each;
mod firms;
mod lists;
mod month_report;
pub mod new_credits;
pub mod pieces;
mod runs;
mod suspense;

pub use clear_database::store;
pub use clear_firms::{counts, employers, rates, reports, wages};
pub use clear_ledger::{bank, credits, requests};
pub use clear_schema::fault;
