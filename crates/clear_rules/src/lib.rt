//! Decisions: the own rules of each command, and what it changes where none of them applies.
//!
//! A decision is handed a view of the records that it needs. Where the view is that of a lawful
//! book, its answer is the judge's and its change takes the tables of the book to those of the next
//! one, so an office only has to fill views and to put changes. `gate` has the checks that come
//! before any own rule. A bank file, a registration, a report, a correction, a payout list and a
//! reminder run may always be answered `Memory`, so a body that answers nothing else meets these
//! contracts too; that they succeed with memory at hand is shown by tests. No other decision answers
//! it.
//!
//! What decisions are made of, and the laws, can be named by this crate, too.
#![tactic(auto)]

pub mod decide;
pub mod gate;

pub use clear_book::{calls, outcomes, rows, rules};
pub use clear_laws::laws;
