//! The two files of a store, its database file and its log, opened as a database.
ghost use Rattle.std.specs.Prelude.{◌≡◌, false, true, Err, None, IfErr, IfOk, IsTrue};
ghost use Rattle.sqlite.specs.Files.{over_files};
ghost use Rattle.sqlite_std_file.specs.File.{file_is_usable, IsFresh};
ghost use Rattle.sqlite_wal.specs.Files.{image_at};
ghost use Rattle.clear_disk.specs.Seen.{Sees};
ghost use Rattle.clear_host.specs.Contents.{IsByError};
ghost use Rattle.clear_host.specs.Paths.{RefusesNoFile, cannot_open, is_no_file};

use crate::hindrance::hindrance_of;
use crate::offices::NotOpened;
use clear_disk::database::open_connection;
use clear_disk::files::store_options;
use clear_schema::fault::{OpenFault, fault_of};
use sqlite::{Alter, Connection, Error, ErrorCode, FileStore, Files};
use sqlite_disk::Start;
use sqlite_std_file::{FileFrom, OpenError};
use std::hash::{BuildHasher, RandomState};
use std::{fs, io};

const CANNOT_OPEN: Error = Error::SqliteFailure(ErrorCode::CannotOpen);

const NO_MEMORY: Error = Error::SqliteFailure(ErrorCode::OutOfMemory);

/// Opens the database in the file at a path. Where no file is, none is made. A file that is empty
/// gets an empty database, which is no store.
pub(crate) fn open_database<S: Start>(
    rt: &HostRuntime,
    path: &str,
    start: S,
) -> Result<Connection<FileStore<FileFrom<S>>>, NotOpened<FileStore<FileFrom<S>>>>
    ensures mode { IfOk result (λ connection. connection.in_transaction ≡ false) }
    ensures sees { IfOk result (Sees over_files (image_at S.Start)) }
    ensures none { IfErr result (λ refused. refused.connection ≡ None) }
    ensures why { IfErr result IsByError }
    ensures named { RefusesNoFile path.now result }
{
    let files = open_files(rt, path, start)?;
    let seed = random_seed(rt)?;
    match open_connection(rt.alloc(), files, store_options(seed)) {
        Ok(connection) => Ok(connection),
        Err(refusal) => Err(NotOpened::from(refusal.error)),
    }
}

// Opens the two files: that of the database has to stand there, and a log that is missing is made.
fn open_files<S: Start>(rt: &HostRuntime, path: &str, start: S) -> Result<Files<FileFrom<S>>, Error>
    ensures log { IfOk result (λ files. IsTrue (file_is_usable S.Start files.log)) }
    ensures db { IfOk result (λ files. IsTrue (file_is_usable S.Start files.db)) }
    ensures fresh { IfOk result (λ files. IsFresh true files.log × IsFresh false files.db) }
    ensures named { is_no_file path.now ≡ true → result ≡ Err cannot_open }
{
    if is_no_file(path) {
        return Err(CANNOT_OPEN);
    }
    if let Err(error) = fs::metadata(rt, path) {
        return Err(error_of_file(&error));
    }
    match sqlite_std_file::open(rt, path, start) {
        Ok(files) => Ok(files),
        Err(OpenError::OutOfMemory) => Err(NO_MEMORY),
        Err(OpenError::Busy) => Err(Error::SqliteFailure(ErrorCode::DatabaseBusy)),
        Err(OpenError::Io(error)) => Err(error_of_file(&error)),
        Err(_) => Err(CANNOT_OPEN),
    }
}

// Want of memory, or a file that can't be opened.
fn error_of_file(error: &io::Error) -> Error {
    if error.kind() == io::ErrorKind::OutOfMemory {
        NO_MEMORY
    } else {
        CANNOT_OPEN
    }
}

/// Whether SQLite takes a path for something else than the name of a file: such a one is refused.
pub(crate) fn is_no_file(path: &str) -> bool
    ensures { result ≡ is_no_file path.now }
{
    path == ":memory:" || path.as_bytes().starts_with(b"file:")
}

// A random number for the salts of a log.
fn random_seed(rt: &HostRuntime) -> Result<u64, Error> {
    let random = RandomState::new(rt).map_err(|_| CANNOT_OPEN)?;
    Ok(random.hash_one(&0u8))
}

impl<S: Alter> From<Error> for NotOpened<S> {
    ghost use Rattle.std.specs.Prelude.{◌≡◌, None};
    ghost use Rattle.clear_schema.specs.Faults.{fault_of};
    ghost use Rattle.clear_schema.specs.declared.fault.OpenFault.TheVariants.{Failed};
    ghost use Rattle.clear_host.specs.Hindrances.{hindrance_of};

    ghost from_gives = { λ error refused. (refused.connection ≡ None)
        × (refused.fault ≡ Failed (fault_of error)) × (refused.hindrance ≡ hindrance_of error) };

    fn from(error: Error) -> NotOpened<S> {
        let hindrance = hindrance_of(&error);
        NotOpened {
            fault: OpenFault::Failed(fault_of(error)),
            hindrance,
            connection: None,
        }
    }
}
