//! The store: a database with the office's tables, made, opened and changed in one transaction.
//!
//! `Store::create` makes the tables in an empty database, with the opening rates, and `Store::open`
//! finds them again, also after a crash. Work is a `Body`, and `within` does it in one transaction:
//! all of it is committed, or none. A call may always fail, so a body that answers nothing else meets
//! these contracts too; tests show that it succeeds.
#![tactic(auto)]

pub mod body;
pub mod create;
pub mod laws;
pub mod make;
pub mod meta;
pub mod open;
pub mod store;
