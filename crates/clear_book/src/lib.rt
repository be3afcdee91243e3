//! The values of requests, the rules, and the book that requests make.
//!
//! `specs/` says what a reader must believe: the book of accepted requests, what is read off it,
//! the judge with its one order of checks, the machine that goes from call to call, and the tables
//! that stand for a book. What follows from these definitions alone stands in `clear_laws`. `rules`
//! is the one table of all rules, and `limits` has the limits on a book, a request and an account.
#![tactic(auto)]

pub mod calls;
pub mod carried;
pub mod documents;
pub mod files;
pub mod outcomes;
pub mod rules;

pub use clear_values::{limits, numbers, ranges, rows, texts};
