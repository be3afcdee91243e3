//! Which schema a database has, and the way from an older one to this program's.
//!
//! No schema is brought over yet: a store of schema 0 is made anew. So a store of this program is
//! current already, and a database of any other number is refused with the number found. Nothing
//! changes, whatever the database is.
#![tactic(auto)]

pub mod schemas;
