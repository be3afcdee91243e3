//! What the program does: the words of its command line are read, with the files that they name, the
//! store at a path is opened, made or brought to this program's schema, and what the words ask for is
//! done with it by `clear_work`.
//!
//! Contracts say which task the words ask for, on which office it is done or why there is none, and what
//! stands on any output at the end. What a path names, that the outputs are printed, and all of sockets
//! is compared by tests. The two kinds of store, in files and in memory, are named in few calls.
#![tactic(auto)]

mod look;
mod make;
mod migrate;
mod opening;
pub mod reasons;
pub mod run;
mod tasks;
