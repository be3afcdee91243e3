//! What a request is judged by, read from the store inside of its transaction: the view of each
//! command but those that make a payout list or a reminder run.
//!
//! Each is read by keys, by the front of a key or, of a worker, by an index, so a request reads what
//! it touches, whatever the book holds. The rates are read whole for a claim and a release, and else the
//! one row that is asked for; firms and bank lines are counted only where no number that is known serves in
//! the place of their count. Where the tables stand for a
//! lawful book, a view is what that book says, and no fault is one of a key or of a row.
#![tactic(auto)]

pub mod add_rate;
pub mod assign;
pub mod claim;
pub mod end;
pub mod import;
mod lookups;
pub mod member;
pub mod register;
pub mod release;
pub mod report;
pub mod withdraw;
