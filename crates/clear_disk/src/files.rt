//! A store in two files, its log and its database file, and the open after a crash.
ghost use Rattle.std.specs.Prelude.{◌≡◌, ◌≢◌, ◌⊎◌, false, ℕ, IsTrue, IfOk, IfErr};
ghost use Rattle.sqlite.specs.Files.{file_state, image_of, HoldsDatabase};
ghost use Rattle.sqlite.specs.State.{HasCleanDisk};
ghost use Rattle.sqlite.specs.Tree.{Trees};
ghost use Rattle.sqlite.specs.WalReads.{AreClean};
ghost use Rattle.clear_values.specs.Tables.{Tables};
ghost use Rattle.clear_schema.specs.Faults.{IsOfDisk, IsWrong};
ghost use Rattle.clear_schema.specs.Held.{HasTables, StandsFor, TellsAs, this_schema};
ghost use Rattle.clear_disk.specs.Opening.{IfNotTaken, IfUnopened};
ghost use Rattle.clear_database.specs.Still.{IsFound};
ghost use Rattle.clear_schema.specs.declared.fault.OpenFault.TheVariants.{WrongVersion};

use clear_database::store::{Refusal, Store};
use clear_schema::fault::{Fault, OpenFault, fault_of};
use sqlite::{Connection, FileStore, Files, Options};
use sqlite_disk::{Crash, Disk};
use std::alloc::Global;

// How many pages the log takes before it is copied into the database file, four times as many as the
// kit's open has it. Requests that change the same pages share the copy.
const LOG_PAGES: usize = 4_000;

/// How the files of a store are kept, by a random number for the salts of its log: as the kit does,
/// but for a log of up to 4,000 pages, some 4 MB where they have 1,024 bytes, which lies beside the
/// database file as long as the store is open.
pub fn store_options(seed: u64) -> Options
    ensures seed { result.seed ≡ seed }
    ensures memory { (result.cache_pages ≡ 2000) × (result.spill_pages ≡ 2000) }
    ensures log { result.checkpoint_frames ≡ 4000 }
{
    let mut options = Options::new(seed);
    options.checkpoint_frames = LOG_PAGES;
    options
}

/// Why two files are not opened as a store.
#[derive(Drop)]
pub enum FilesRefusal<D: Disk + Drop> {
    /// They are not opened as a database.
    Unopened(Fault),
    /// Their database is not taken as a store.
    NotTaken(Refusal<FileStore<D>>),
}

// Opens the store that the two files hold.
fn open_files<D: Disk + Drop>(
    alloc: Global,
    files: Files<D>,
    options: Options,
) -> Result<Store<FileStore<D>>, FilesRefusal<D>>
    requires log { IsTrue (D.Disk.is_usable files.log) }
    requires db { IsTrue (D.Disk.is_usable files.db) }
    ensures honest { IfOk result (λ store. HasCleanDisk (file_state store.conn)
        → AreClean D.Disk files.log files.db) }
    ensures honest_left { IfErr result (IfNotTaken (λ refusal.
        HasCleanDisk (file_state refusal.connection)
        → AreClean D.Disk files.log files.db)) }
    ensures found { IfOk result (λ store. HasCleanDisk (file_state store.conn)
        → (t : Tables) (trees : Trees) → HoldsDatabase (image_of D.Disk files) trees
        → StandsFor t trees
        → HasTables t (file_state store.conn).now × HasTables t (file_state store.conn).committed) }
    ensures mode { IfOk result (λ store. store.conn.in_transaction ≡ false) }
    ensures open { IfOk result (λ store. HasCleanDisk (file_state store.conn)
        → IsTrue (file_state store.conn).is_open) }
    ensures version { IfErr result (IfNotTaken (λ refusal.
        HasCleanDisk (file_state refusal.connection)
        → (number : ℕ) (trees : Trees)
        → HoldsDatabase (image_of D.Disk files) trees → TellsAs number trees
        → IsWrong this_schema number refusal.fault)) }
    // No key and no row is to blame for a fault.
    ensures cause { IfErr result (IfNotTaken (λ refusal.
        HasCleanDisk (file_state refusal.connection)
        → (number : ℕ) (trees : Trees)
        → HoldsDatabase (image_of D.Disk files) trees → TellsAs number trees
        → (why : Fault) → refusal.fault ≡ OpenFault.Failed why → IsOfDisk why)) }
    ensures unopened { IfErr result (IfUnopened IsOfDisk) }
{
    let conn = match Connection::open_files(alloc, files, options) {
        Ok(conn) => conn,
        Err((error, _)) => return Err(FilesRefusal::Unopened(fault_of(error))),
    };
    match Store::open(conn) {
        Ok(store) => Ok(store),
        Err(refusal) => Err(FilesRefusal::NotTaken(refusal)),
    }
}

/// The machine stops now, and the store is opened again.
pub fn crash_and_open<D: Crash + Drop>(
    alloc: Global,
    conn: Connection<FileStore<D>>,
    options: Options,
) -> Result<Store<FileStore<D>>, FilesRefusal<D>>
    ensures found { IfOk result (λ store. HasCleanDisk (file_state store.conn)
        → (t u : Tables)
        → ((trees : Trees) → (file_state conn).may_leave trees
        → StandsFor t trees ⊎ StandsFor u trees)
        → ∥ HasTables t (file_state store.conn).now ⊎ HasTables u (file_state store.conn).now ∥₁) }
    ensures one_of_those { IfOk result (λ store. HasCleanDisk (file_state store.conn)
        → ∥ ((trees : Trees) × (file_state conn).may_leave trees
        × ((t : Tables) → StandsFor t trees → HasTables t (file_state store.conn).now)) ∥₁) }
    ensures mode { IfOk result (λ store. store.conn.in_transaction ≡ false) }
    ensures stands { IfOk result (λ store. HasCleanDisk (file_state store.conn)
        → ∥ ((trees : Trees) × (file_state conn).may_leave trees
        × ((t : Tables) → StandsFor t trees → IsFound t (file_state store.conn))) ∥₁) }
    ensures version { IfErr result (IfNotTaken (λ refusal.
        HasCleanDisk (file_state refusal.connection)
        → ((trees : Trees) → (file_state conn).may_leave trees → (t : Tables) × StandsFor t trees)
        → (told : ℕ) → refusal.fault ≢ WrongVersion told)) }
    ensures cause { IfErr result (IfNotTaken (λ refusal.
        HasCleanDisk (file_state refusal.connection)
        → ((trees : Trees) → (file_state conn).may_leave trees → (t : Tables) × StandsFor t trees)
        → (why : Fault) → refusal.fault ≡ OpenFault.Failed why → IsOfDisk why)) }
    ensures unopened { IfErr result (IfUnopened IsOfDisk) }
{
    let mut files = conn.into_store().close();
    files.log.crash();
    files.db.crash();
    match open_files(alloc, files, options) {
        Ok(store) => Ok(store),
        Err(left) => Err(left),
    }
}
