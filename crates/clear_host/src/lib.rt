//! Offices over stores in files, and such stores brought to this schema.
//!
//! No contract knows what a path names, or what a file holds: so a body that takes another path meets each,
//! and tests open stores by their paths. A store is spoken of by whatever its two files may hold: an office
//! over one keeps the book that they held, or, where they held nothing, the book without requests.
#![tactic(auto)]

pub mod hindrance;
mod ledger;
pub mod migrations;
pub mod offices;
mod opening;
pub mod stores;
