//! What the crates of the tables have in common: the office's values on their way into a statement and
//! out of a row, a table by how its rows are read (`StoredTable`), a look at the first row or at all
//! rows of a query (`find`, `list`), and rows that are read one at a time (`begin_rows`, `next_row`).
//!
//! A number out of its type's range is a fault of the row. Any query may be refused for want of memory or
//! for a fault of the store, whatever the tables hold: so a body that only refuses meets the contract of
//! each, and tests show that queries succeed. The lemmas beside these are those that the tables' proofs
//! share.
#![tactic(auto)]

pub mod columns;
pub mod laws;
pub mod parameters;
pub mod queries;
pub mod ranges;
pub mod rows;
