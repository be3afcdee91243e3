//! What is said of a bank file before the office takes it: how much it holds, or its first fault and
//! where that is, with hints on what the file looks like.
//!
//! A file is read as the program reads it, and its first fault is the reader's: which record and field
//! it is in, and of which kind it is, are proved. A second look at the records finds what stands there,
//! and the hints, and that is proved, too.
#![tactic(auto)]

pub mod bank;
mod hints;
pub mod laws;
mod records;
