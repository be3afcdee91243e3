//! The tables of claims and of payout lists in the store, each statement one function.
//!
//! Any call may be refused for want of memory or for a fault of the store, whatever the tables hold:
//! so a body that only refuses meets the contract of each, and tests show that calls succeed.
#![tactic(auto, using(clear_schema::proofs::FrameLemmas::writes_none))]

pub mod claims;
pub mod lists;
mod states;
