//! Files of the host: those that are read whole, what stands at a path, whether the files of a store still
//! stand there, and a copy of one.
//!
//! No contract knows what a file holds, what the system tells of a path, or what it does there. So rates and
//! callers are said of any reader's bytes, and of a file to be those that some bytes say; and what it means
//! that the system told something of a path, or gave an error, is said of whatever that may be. That it is
//! asked, of which path, and that a copy is whole before it has its name, is compared by tests.
#![tactic(auto)]

pub mod backup;
pub mod fault;
pub mod logs;
pub mod named;
pub mod paths;
pub mod read;
