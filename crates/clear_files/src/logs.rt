//! The log of a store, which stands beside its file. No contract knows what files hold.
ghost use Rattle.std.specs.Prelude.{◌≡◌, ◌≢◌, ◌↔◌, ◌++◌, ℕ, List, None, codes};
ghost use Rattle.std.specs.Prelude.{IfOk, IfSome, IsTrue, OnErr, string_bytes};
ghost use Rattle.std.specs.IoError.{error_kind};
ghost use Rattle.clear_files.specs.Found.{IsBroughtOver};

use crate::paths::{PathKind, is_free, is_missing, path_kind};
use std::alloc::{AllocError, Global};
use std::fs::Metadata;
use std::io::ErrorKind;
use std::{fs, io};

// The greatest length that a close leaves of a store's log, in bytes.
const LOG_OF_A_CLOSE: u64 = 41;

/// Whether all that was accepted stands in the file of the store at a path: the log, which stands beside
/// the file that a link leads to, is no longer than a close leaves it. `false` where that can't be told,
/// too.
pub fn is_brought_over(rt: &HostRuntime, store: &str) -> bool {
    match log_beside(rt, store) {
        Ok(Some(log)) => is_as_closed(&fs::metadata(rt, log.as_str())),
        Ok(None) | Err(_) => false,
    }
}

// Whether a log of which this was told has nothing that a close would bring over, or isn't there.
fn is_as_closed(told: &io::Result<Metadata>) -> bool
    ensures { IsTrue result ↔ IsBroughtOver told.now }
{
    match told {
        Ok(found) => found.len() <= LOG_OF_A_CLOSE,
        Err(_) => is_missing(told),
    }
}

/// Whether a log was left alone beside a path where no file is, or an empty one, as where a store was
/// moved away without it. Who makes a store there loses what that log has; and a log that others may
/// read stays so, with what the new store accepts. A store that was only begun has an empty file and no
/// longer log than a close leaves.
pub fn is_left_log(rt: &HostRuntime, store: &str) -> Result<bool, AllocError> {
    match path_kind(rt, store) {
        PathKind::Missing => {
            let log = log_path(rt.alloc(), store)?;
            Ok(!is_free(rt, log.as_str()))
        }
        PathKind::Empty => Ok(!is_brought_over(rt, store)),
        PathKind::Folder | PathKind::Filled => Ok(false),
    }
}

// The path of the log of a store, beside the file that a link leads to. `None` where that can't be told.
pub(crate) fn log_beside(rt: &HostRuntime, store: &str) -> Result<Option<String>, AllocError>
    ensures { IfOk result (λ found. IfSome found (λ log.
        (file : List ℕ) × (string_bytes log ≡ file ++ codes "-wal"))) }
{
    match fs::canonicalize(rt, store) {
        Ok(file) => Ok(Some(log_path(rt.alloc(), file.as_str())?)),
        Err(error) => none_but_memory(&error),
    }
}

// What can't be told is `None`, but for want of memory.
pub(crate) fn none_but_memory<T>(error: &io::Error) -> Result<Option<T>, AllocError>
    ensures none { IfOk result (λ found. found ≡ None) }
    ensures told { IfOk result (λ _. error_kind error.now ≢ ErrorKind.OutOfMemory) }
    ensures memory { OnErr result (error_kind error.now ≡ ErrorKind.OutOfMemory) }
{
    if error.kind() == ErrorKind::OutOfMemory {
        Err(AllocError)
    } else {
        Ok(None)
    }
}

/// The path of the log of a store whose file is at a path.
pub(crate) fn log_path(alloc: Global, file: &str) -> Result<String, AllocError>
    ensures { IfOk result (λ path. string_bytes path ≡ file.now ++ codes "-wal") }
{
    format!(in alloc; "{file}-wal")
}
