//! The ledger's tables in the store, each statement one function: bank lines, credits, what these
//! pay, reminder runs with their reminders, and the accepted requests. Under its caller and number
//! a request is kept as its day, the bytes of its command and its reply, so that the same request
//! can be answered again.
//!
//! Any call may be refused for want of memory or for a fault of the store, whatever the tables hold:
//! so a body that only refuses meets the contract of each, and tests show that calls succeed.
#![tactic(auto, using(clear_schema::proofs::FrameLemmas::writes_none))]

pub mod bank;
pub mod credits;
pub mod laws;
pub mod pieces;
pub mod reminders;
mod replies;
pub mod requests;
pub mod runs;
