//! The documents of the office, byte for byte: of a firm, of a worker, of a payout list, of a
//! reminder run, and of the lines in suspense.
//!
//! `statement_text` appends the statement of a firm over the pieces that pay its charges, which it
//! reads one at a time, each under the charge of its month. `worker_document` is the document of a
//! worker, made from its records. Where the records are those of a lawful book, and the pieces those of
//! tables that represent it, both are the ones that the judge answers, and only want of memory refuses
//! them.
//!
//! `statement`, `payout_text`, `remind_text` and `suspense_text` append the text of a document
//! whose rows they read one at a time from a source: the charges of a firm with what pays each, the
//! claims that a list pays, the reminders of a run, or the lines in suspense. The text is exactly
//! its definition over the rows that the source gave. A refusal leaves the text as it was: for want
//! of memory, for what the source tells, or, of a statement, for one row more than an account has,
//! and of lines in suspense, for 2^64 cents or more. A list may have any number of claims, a run
//! any number of reminders, and there may be any number of lines.
//!
//! `look_text` is no document of a day, but what stands in a store, in twelve lines.
#![tactic(auto)]

mod amounts;
pub mod documents;
pub mod laws;
mod line_rows;
mod lines;
pub mod look;
pub mod paid;
pub mod payout;
pub mod reminders;
pub mod rows;
pub mod statement;
pub mod suspense;
mod whole;
pub mod worker;
