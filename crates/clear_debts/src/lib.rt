//! What a firm owes and what it has overdue, read from the store inside of a transaction.
//!
//! Each is read by keys or by the front of a key, so a read takes what is kept of the firm, whatever
//! the book holds. Where the tables stand for a lawful book, what is read is what that book says, and no
//! fault is one of a key or of a row.
#![tactic(auto)]

pub mod overdue;
pub mod owed;
pub mod owing;
