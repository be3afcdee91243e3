//! What stands at a path. No contract knows what a path names: each function asks the system once, and
//! a function over what it tells says what that means.
ghost use Rattle.std.specs.Prelude.{◌≡◌, ◌↔◌, IsTrue};
ghost use Rattle.clear_files.specs.Found.{IsEmptyFile, IsFolder, IsMissing};

use std::fs::Metadata;
use std::io::ErrorKind;
use std::{fs, io};

/// What stands at a path, as far as that decides whether it can be a store.
#[derive(Clone, Copy)]
pub enum PathKind {
    /// Nothing.
    Missing,
    Folder,
    /// A file without bytes.
    Empty,
    /// A file with bytes, or something that can't be asked for.
    Filled,
}

/// Nothing stands at the path, not even a link that leads nowhere.
pub(crate) fn is_free(rt: &HostRuntime, path: &str) -> bool {
    is_missing(&fs::symlink_metadata(rt, path))
}

/// Whether the system told that nothing stands where it was asked.
pub(crate) fn is_missing(told: &io::Result<Metadata>) -> bool
    ensures { IsTrue result ↔ IsMissing told.now }
{
    match told {
        Ok(_) => false,
        Err(error) => error.kind() == ErrorKind::NotFound,
    }
}

/// What stands at a path, through links too.
pub fn path_kind(rt: &HostRuntime, path: &str) -> PathKind {
    kind_of(&fs::metadata(rt, path))
}

// What stands where this was told.
fn kind_of(told: &io::Result<Metadata>) -> PathKind
    ensures missing { (result ≡ PathKind.Missing) ↔ IsMissing told.now }
    ensures folder { (result ≡ PathKind.Folder) ↔ IsFolder told.now }
    ensures empty { (result ≡ PathKind.Empty) ↔ IsEmptyFile told.now }
{
    match told {
        Ok(found) if found.is_dir() => PathKind::Folder,
        Ok(found) if found.is_file() && found.len() == 0 => PathKind::Empty,
        Err(error) if error.kind() == ErrorKind::NotFound => PathKind::Missing,
        Ok(_) | Err(_) => PathKind::Filled,
    }
}
