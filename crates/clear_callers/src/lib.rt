//! The directory of callers: which keys there are, and who calls with each.
//!
//! A directory is read from a caller file, a TOML text of keys and numbers. A text reads as a
//! directory just if it says one, and otherwise its first fault is told. A key is somebody's only
//! if all its bytes are the same. `Memory` may be answered at any time and says nothing of the
//! text.
#![tactic(auto)]

pub mod caller_file;
pub mod directory;
