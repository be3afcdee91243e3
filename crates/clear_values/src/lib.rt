//! The values that requests, bank lines and the rows of tables are made of, and the tables.
//!
//! Whatever keeps rows stands on this crate alone and knows nothing of the book. `specs/` says which
//! values each may hold, what the key of a row is, and what a decision changes in the tables;
//! `limits` has the limits on a book, a request and an account.
#![tactic(auto)]

pub mod callers;
pub mod causes;
pub mod limits;
pub mod lines;
pub mod numbers;
pub mod ranges;
pub mod replies;
pub mod rows;
pub mod texts;
