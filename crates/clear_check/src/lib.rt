//! What is said of a TOML file before the office takes it: how much a rate file or a caller file
//! holds, or its first fault and where that is. `Checked`, `seen` and `texts` serve what is said of
//! other files, too: `clear_bank_check` stands on them.
//!
//! A file is read as the program reads it, and its first fault is the reader's: which row, field or
//! key it is in, and of which kind it is, are proved. A second look at the document finds what stands
//! there, and that is proved, too. Of where bytes are no document the contracts say only that a line
//! stays one line, and tests on real files compare it.
#![tactic(auto)]

pub mod callers;
mod document;
pub mod laws;
pub mod rates;
pub mod seen;
pub mod texts;

/// What is said of a file.
#[derive(Drop)]
pub struct Checked {
    /// One line or more, each with its end.
    pub text: String,
    /// Whether the program takes the file.
    pub good: bool,
}
