//! Queries: what is found for one inside of its transaction, and behind it the documents that are told over
//! their rows.
//!
//! Where the tables are those of a lawful book, a query is answered as the judge answers it, and no fault is
//! one of a key or of a row; the tables stay, and a crash leaves them or what it could leave before.
#![tactic(auto)]

pub mod inquiry;
