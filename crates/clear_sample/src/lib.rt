//! The sample's rates, and an office over a new store in memory, which lies on files in memory.
//!
//! Such files return what was written to them. So this office keeps the book without a premise
//! (`law_honest_in_memory`).
#![tactic(auto)]

pub mod memory;
pub mod memory_file;
pub mod samples;
