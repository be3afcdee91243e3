//! A store in two files, its log and its database file.
//!
//! `open_connection` opens the files as a database, or makes an empty one there, and harms nothing that
//! they held where it is refused. `crash_and_open` finds the store that they hold after a crash. A call
//! may always fail, so a body that answers nothing else meets these contracts too; tests show that it
//! succeeds.
#![tactic(auto)]

pub mod database;
pub mod files;
