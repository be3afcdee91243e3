//! The database that two files hold, and the one that a new store begins with.
ghost use Rattle.std.specs.Prelude.{◌≡◌, ◌⊎◌, false, [], IfErr, IfOk, IsTrue};
ghost use Rattle.sqlite.specs.Closing.{files_left};
ghost use Rattle.sqlite.specs.Files.{file_state, image_of, over_files};
ghost use Rattle.sqlite.specs.Files.{IsCleanLeft, IsOpened, LeavesFiles};
ghost use Rattle.sqlite.specs.Opening.{is_open_error, reported};
ghost use Rattle.sqlite.specs.State.{HasCleanDisk};
ghost use Rattle.sqlite.specs.Steps.{IsFresh};
ghost use Rattle.sqlite_pool.specs.Opening.{IsBlankFile};
ghost use Rattle.sqlite_store.specs.FileStore.{view};
ghost use Rattle.sqlite_store.specs.Unopened.{files_of, state_of, wanted_by};
ghost use Rattle.sqlite_trees.specs.Objects.{catalog_tree};
ghost use Rattle.sqlite_trees.specs.View.{IsClean};
ghost use Rattle.sqlite_wal.specs.PageSize.{bytes_of};
ghost use Rattle.sqlite_wal.specs.Reads.{AreClean};
ghost use Rattle.clear_disk.specs.Opening.{AreSpared};
ghost use Rattle.clear_disk.specs.Seen.{IsUnmade, Sees};

use sqlite::{Connection, Error, ErrorCode, FileStore, Files, Leftover, Options};
use sqlite_disk::Disk;
use sqlite_pager::Pager;
use sqlite_pool::probe_blank;
use sqlite_store::{OpenError, Unopened};
use sqlite_wal::PageSize;
use std::alloc::Global;

// The size of the pages of a new store, in bytes. A line of a report goes to a place of its own in the
// index by workers, and the page that it changes is written whole: where pages have 4,096 bytes, as the
// kit's open makes them, that is four times as much.
const PAGE: usize = 1024;

const NO_MEMORY: Error = Error::SqliteFailure(ErrorCode::OutOfMemory);

/// Why there is no connection on two files, and what is left of them: `left.into_files()` gives them back.
#[derive(Drop)]
pub struct NotConnected<D: Disk + Drop> {
    pub error: Error,
    pub left: Leftover<D>,
}

/// A connection on the database that two files hold. Where they hold none, or one that an earlier call
/// left half made, an empty one of small pages is made there.
///
/// An error is one of those with which the kit opens files: want of memory, a failed or a full disk, or
/// files that hold no database or a damaged one. It comes with what is left of the files, and harms
/// nothing that they held: whatever a crash may leave of them now, it might have left before the call, or
/// it reads as the database that they held. Where none had been made of them, it may be a half-made or an
/// empty one. So it is after a stop meanwhile, from which on each call on the files fails.
pub fn open_connection<D: Disk + Drop>(
    alloc: Global,
    files: Files<D>,
    options: Options,
) -> Result<Connection<FileStore<D>>, NotConnected<D>>
    requires log { IsTrue (D.Disk.is_usable files.log) }
    requires db { IsTrue (D.Disk.is_usable files.db) }
    ensures mode { IfOk result (λ connection. connection.in_transaction ≡ false) }
    ensures sees { IfOk result (Sees over_files (image_of D.Disk files)) }
    ensures named { IfErr result (λ refusal. IsTrue (is_open_error refusal.error)) }
    ensures unharmed { IfErr result (λ refusal. IsCleanLeft refusal.left
        → LeavesFiles files refusal.left ⊎ IsUnmade (image_of D.Disk files)) }
    ensures spared { IfErr result (λ refusal. IsCleanLeft refusal.left
        → AreSpared D.Disk files (files_left refusal.left)) }
{
    let mut files = files;
    let size = PageSize::new(PAGE).unwrap();
    let blank = probe_blank(alloc, &mut files, size, false);
    if let Ok(true) = blank {
        return made_database(alloc, files, size, options);
    }
    match Connection::open_files(alloc, files, options) {
        Ok(connection) => Ok(connection),
        Err((error, left)) => Err(NotConnected { error, left }),
    }
}

// A connection on an empty database of pages of this size, which is made in two files.
fn made_database<D: Disk + Drop>(
    alloc: Global,
    files: Files<D>,
    size: PageSize,
    options: Options,
) -> Result<Connection<FileStore<D>>, NotConnected<D>>
    requires log { IsTrue (D.Disk.is_usable files.log) }
    requires db { IsTrue (D.Disk.is_usable files.db) }
    ensures mode { IfOk result (λ connection. connection.in_transaction ≡ false) }
    ensures empty { IfOk result (λ connection. HasCleanDisk (file_state connection)
        → IsOpened connection × ((file_state connection).now.trees catalog_tree ≡ [])) }
    ensures honest { IfOk result (λ connection. HasCleanDisk (file_state connection)
        → AreClean D.Disk files.log files.db) }
    ensures named { IfErr result (λ refusal. IsTrue (is_open_error refusal.error)) }
    ensures honest_left { IfErr result (λ refusal. IsCleanLeft refusal.left
        → AreClean D.Disk files.log files.db) }
    ensures spared { IfErr result (λ refusal. IsCleanLeft refusal.left
        → IsBlankFile (bytes_of size) (image_of D.Disk files)
        → AreSpared D.Disk files (files_left refusal.left)) }
{
    let store = match made_store(alloc, files, size, options) {
        Ok(store) => store,
        Err(refusal) => return Err(refusal),
    };
    match Connection::over(alloc, store) {
        Ok(connection) => Ok(connection),
        Err((error, store)) => Err(NotConnected {
            error,
            left: Leftover::Store(store),
        }),
    }
}

// The trees of an empty database.
fn made_store<D: Disk + Drop>(
    alloc: Global,
    files: Files<D>,
    size: PageSize,
    options: Options,
) -> Result<FileStore<D>, NotConnected<D>>
    requires log { IsTrue (D.Disk.is_usable files.log) }
    requires db { IsTrue (D.Disk.is_usable files.db) }
    ensures fresh { IfOk result (λ store. IsClean (view store) → IsFresh (view store)) }
    ensures open { IfOk result (λ store. IsClean (view store) → IsTrue (view store).is_open) }
    ensures empty { IfOk result (λ store. IsClean (view store) → (view store).trees catalog_tree ≡ []) }
    ensures honest { IfOk result (λ store. IsClean (view store) → AreClean D.Disk files.log files.db) }
    ensures named { IfErr result (λ refusal. IsTrue (is_open_error refusal.error)) }
    ensures honest_left { IfErr result (λ refusal. IsCleanLeft refusal.left
        → AreClean D.Disk files.log files.db) }
    ensures spared { IfErr result (λ refusal. IsCleanLeft refusal.left
        → IsBlankFile (bytes_of size) (image_of D.Disk files)
        → AreSpared D.Disk files (files_left refusal.left)) }
{
    let database = match unopened(alloc, files, size, options) {
        Ok(database) => database,
        Err(files) => return Err(NotConnected {
            error: NO_MEMORY,
            left: Leftover::Files(files),
        }),
    };
    match database.create() {
        Ok(store) => Ok(store),
        Err((error, database)) => Err(NotConnected {
            error: error_of(error),
            left: Leftover::Unopened(database),
        }),
    }
}

// Two files in which a database is to be made. An error gives them back.
fn unopened<D: Disk + Drop>(
    alloc: Global,
    files: Files<D>,
    size: PageSize,
    options: Options,
) -> Result<Unopened<D>, Files<D>>
    ensures back { IfErr result (λ left. (left.log ≡ files.log) × (left.db ≡ files.db)) }
    ensures files { IfOk result (λ database. files_of database ≡ (files.log, files.db)) }
    ensures size { IfOk result (λ database. (state_of database).page_size ≡ bytes_of size) }
    ensures none { IfOk result (λ database. wanted_by database ≡ []) }
{
    let pager = match Pager::new(alloc, files, size, options) {
        Ok(pager) => pager,
        Err(failed) => return Err(failed.value),
    };
    match Unopened::new(alloc, pager, &[]) {
        Ok(database) => Ok(database),
        Err(failed) => Err(failed.value.close()),
    }
}

// Why no database is made, as the kit's open tells it.
fn error_of(error: OpenError) -> Error
    ensures named { IsTrue (is_open_error result) }
    ensures value { result ≡ reported error }
{
    Error::SqliteFailure(match error {
        OpenError::OutOfMemory => ErrorCode::OutOfMemory,
        OpenError::Io => ErrorCode::SystemIoFailure,
        OpenError::Full => ErrorCode::DiskFull,
        OpenError::Refused => ErrorCode::DatabaseCorrupt,
    })
}
