//! What payout lists, reminder runs and documents are made from, read from the store.
//!
//! Inside of a transaction `payout_view` and `remind_view` read what a payout list and a reminder run
//! are judged by, `firm_head` what a firm's statement tells but for its pieces, and `worker_records`
//! what a worker's document is made from. They read by keys and by indexes, so they cost what they
//! find, whatever else the book holds; a reminder run reads each firm. Outside of one `tell_statement`
//! writes a firm's statement over its pieces, and `tell_list` the document of a list, whose claims it
//! reads one at a time: a list may have every claim of the book. `tell_reminders` writes that of a
//! reminder run so, and `tell_suspense` that of the lines in suspense, in one pass over all bank
//! lines; and `look` tells what stands in a store, in one pass over each of four tables. None of them
//! changes anything, and none fails for a key or a row of a lawful book.
#![tactic(auto)]

mod counting;
pub mod firm_head;
pub mod lists;
pub mod look;
pub mod payout;
pub mod remind;
pub mod reminders;
mod row_counts;
pub mod statement;
pub mod stored;
pub mod suspense;
mod telling;
pub mod worker;
