//! What SQL does to one table of typed rows, whatever the table is, and how a schema is laid out.
//!
//! A tree of a database has rows of a type in one of two forms: in the order of a number that is
//! their key, or each beside a number that is chosen, in the order of a key of their own. For both
//! the lemmas say what INSERT, UPDATE and DELETE make of the rows, that queries answer in key
//! order, that `Constraint` comes only where the key or the unique serial is held, and what an open
//! finds after a crash. `laid` has rows that say what the tables and indexes of a schema are, and
//! whether they are those.
#![tactic(auto)]

pub mod laid;
