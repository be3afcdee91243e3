//! TOML documents, and the rate file among them.
//!
//! A text reads as rates just if it says them, and otherwise its first fault is told. `Memory` may
//! be answered at any time and says nothing of the text.
#![tactic(auto)]

pub mod documents;
pub mod rate_file;
