//! The tables of firms, reports, wages and charges, the rates and the counts: each function one
//! statement.
//!
//! A putter changes its own table and no other (`writes`), and refuses a number out of its range; a
//! getter finds what the tables hold, and leaves them (`looks`). Any call may be refused for want of
//! memory or for a fault of the store, whatever the tables hold: so a body that only refuses meets the
//! contract of each, and tests show that calls succeed.
#![tactic(auto, using(clear_schema::proofs::FrameLemmas::writes_none))]

pub mod charges;
pub mod counts;
pub mod employers;
mod parameters;
pub mod rates;
pub mod reports;
pub mod wages;
