//! Stores in files, brought to this program's schema.
ghost use Rattle.std.specs.Prelude.{◌≡◌, false, IfErr, IfOk};
ghost use Rattle.sqlite.specs.Files.{over_files, HoldsDatabase};
ghost use Rattle.sqlite.specs.Held.{state};
ghost use Rattle.sqlite.specs.State.{HasCleanDisk};
ghost use Rattle.sqlite.specs.Tree.{Trees};
ghost use Rattle.sqlite_wal.specs.Files.{image_at};
ghost use Rattle.sqlite_wal.specs.Recovery.{Image};
ghost use Rattle.clear_book.specs.Tables.{Tables};
ghost use Rattle.clear_schema.specs.Held.{HasTables};
ghost use Rattle.clear_schema.specs.Schema.{this_layout};
ghost use Rattle.clear_disk.specs.Seen.{Sees};
ghost use Rattle.clear_host.specs.Contents.{BlamesNone, HandsBack, HasJust, HoldsNumberOrNone};
ghost use Rattle.clear_host.specs.Contents.{HoldsStore, IfRefused, IsOutside, IsWhyUnopened};
ghost use Rattle.clear_host.specs.Contents.{LeavesAlone, MakesNone};
ghost use Rattle.clear_host.specs.Offices.{IsOurs, TellsOf};
ghost use Rattle.clear_host.specs.Paths.{RefusesNoFile};

use crate::offices::NotOpened;
use crate::opening::open_database;
use clear_migrate::schemas::{Migration, to_current};
use sqlite::{Alter, Connection, FileStore};
use sqlite_disk::Start;
use sqlite_std_file::FileFrom;

/// What was done to a store, so that it is one of this program, and its connection, which is still to
/// be closed.
#[derive(Drop)]
pub struct Brought<S: Alter> {
    pub migration: Migration,
    pub connection: Connection<S>,
}

/// Brings the store in the file at a path to this program's schema. Where no file is, none is made.
/// No schema is brought over yet, so the store is current already, and nothing in it changes. Where
/// the file holds no store of this program, `WrongVersion` with the number of its schema, 0 without
/// one; where that is our number, but its tables or indexes are others than ours,
/// `Failed(Fault::Store(StoreCause::Other))`.
pub fn bring_to_current<S: Start>(
    rt: &HostRuntime,
    path: &str,
    start: S,
) -> Result<Brought<FileStore<FileFrom<S>>>, NotOpened<FileStore<FileFrom<S>>>>
    ensures current { IfOk result (λ brought. brought.migration ≡ Migration.AlreadyCurrent) }
    ensures found { IfOk result (λ brought. HasCleanDisk (state over_files brought.connection)
        → (t : Tables) → HoldsStore this_layout t (image_at S.Start)
        → HasTables t (state over_files brought.connection).now
        × HasTables t (state over_files brought.connection).committed) }
    ensures ours { IfOk result (λ brought. HasCleanDisk (state over_files brought.connection)
        → IsOurs (image_at S.Start)) }
    ensures tells { IfErr result (TellsOf over_files (image_at S.Start)) }
    // No key and no row is to blame, whatever the counts.
    ensures cause { HoldsNumberOrNone (image_at S.Start)
        → IfErr result (IfRefused over_files BlamesNone) }
    ensures unopened { IfErr result IsWhyUnopened }
    ensures outside { IfErr result IsOutside }
    ensures mode { IfOk result (λ brought. brought.connection.in_transaction ≡ false) }
    // A path that SQLite takes for something else than the name of a file is refused.
    ensures named { RefusesNoFile path.now result }
    ensures alone { IfErr result (LeavesAlone over_files (image_at S.Start)) }
    ensures bare { IfErr result (MakesNone over_files (image_at S.Start)) }
    ensures still { IfOk result (λ brought. HasCleanDisk (state over_files brought.connection)
        → (trees : Trees) → HoldsDatabase (image_at S.Start) trees
        → HasJust trees (state over_files brought.connection)) }
{
    let connection = open_database(rt, path, start)?;
    bring(connection)
}

// Brings the store of a connection that was just opened to this program's schema.
fn bring<S: Alter>(connection: Connection<S>) -> Result<Brought<S>, NotOpened<S>>
    requires { connection.in_transaction ≡ false }
    ensures current { IfOk result (λ brought. brought.migration ≡ Migration.AlreadyCurrent) }
    ensures found { (image : Image) → Sees S.Store image connection
        → IfOk result (λ brought. HasCleanDisk (state S.Store brought.connection)
        → (t : Tables) → HoldsStore this_layout t image
        → HasTables t (state S.Store brought.connection).now
        × HasTables t (state S.Store brought.connection).committed) }
    ensures ours { (image : Image) → Sees S.Store image connection
        → IfOk result (λ brought. HasCleanDisk (state S.Store brought.connection)
        → IsOurs image) }
    ensures tells { (image : Image) → Sees S.Store image connection
        → IfErr result (TellsOf S.Store image) }
    ensures cause { (image : Image) → Sees S.Store image connection → HoldsNumberOrNone image
        → IfErr result (IfRefused S.Store BlamesNone) }
    ensures back { IfErr result HandsBack }
    ensures mode { IfOk result (λ brought. brought.connection.in_transaction ≡ false) }
    ensures alone { (image : Image) → Sees S.Store image connection
        → IfErr result (LeavesAlone S.Store image) }
    ensures bare { (image : Image) → Sees S.Store image connection
        → IfErr result (MakesNone S.Store image) }
    ensures still { (image : Image) → Sees S.Store image connection
        → IfOk result (λ brought. HasCleanDisk (state S.Store brought.connection)
        → (trees : Trees) → HoldsDatabase image trees
        → HasJust trees (state S.Store brought.connection)) }
{
    let mut connection = connection;
    match to_current(&mut connection) {
        Ok(migration) => Ok(Brought {
            migration,
            connection,
        }),
        Err(fault) => Err(NotOpened {
            fault,
            hindrance: None,
            connection: Some(connection),
        }),
    }
}
