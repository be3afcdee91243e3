//! The office after a stop of the machine.
//!
//! An office that is opened on what a crash left keeps the book that it kept before, or that with
//! one request more; the request that had no answer is sent again, and acts once.
#![tactic(auto)]

pub mod resumed;
