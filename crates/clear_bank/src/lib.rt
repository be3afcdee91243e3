//! Bank files: what their bytes say, and which of their lines are new.
//!
//! `read_file` gives the lines of a file just if each of its records is as it should be and no
//! more of them stand in it than its limit; else it names the first fault. `judge_file` tells the
//! lines whose reference appears for the first time from repeats, or names the first line whose
//! reference stands earlier with another content. Both are definitions in `specs/`, over the
//! records that the grammar of `csv` finds and over the lines that stand before each line. Want of
//! memory is an answer of its own, which may stand in place of any other; nothing is changed by a
//! refusal.
#![tactic(auto)]

pub mod fault;
pub mod fields;
pub mod files;
pub mod laws;
pub mod newness;
mod records;

pub use clear_values::{lines, texts};
