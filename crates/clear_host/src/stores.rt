//! Offices over stores in files.
//!
//! A type `S` stands for what the files hold, its log and its database file. Each clause on values
//! speaks of a disk that so far has returned what was written to it, so a refusal comes with its
//! connection, which tells that.
ghost use Rattle.std.specs.Prelude.{◌≡◌, false, None, IfErr, IfOk};
ghost use Rattle.sqlite.specs.Files.{over_files};
ghost use Rattle.sqlite_wal.specs.Files.{image_at};
ghost use Rattle.clear_book.specs.Book.{first_book};
ghost use Rattle.clear_book.specs.Machine.{IsLawful};
ghost use Rattle.clear_office.specs.Office.{IsHonest};
ghost use Rattle.clear_host.specs.Contents.{HoldsNone, HoldsObjects, IsOutside, IsWhyUnopened};
ghost use Rattle.clear_host.specs.Contents.{LeavesAlone, MakesNone};
ghost use Rattle.clear_host.specs.Offices.{IsNewOffice, IsOfficeOver, Leaves, TellsOf, TellsOfNew};
ghost use Rattle.clear_host.specs.Paths.{RefusesNoFile};

use crate::offices::{NotOpened, Opened, find_office, new_office};
use crate::opening::{is_no_file, open_database};
use clear_book::ranges::rates_in_range;
use clear_money::rates::RateTable;
use sqlite::FileStore;
use sqlite_disk::Start;
use sqlite_std_file::FileFrom;
use std::fs;
use std::os::unix::fs::OpenOptionsExt;

// Who may read and write a new store: its owner alone, since it holds wages.
const OWNER_ALONE: u32 = 0o600;

/// Makes a store without requests, with these opening rates, and an office over it, at a path where
/// no file is, or an empty one, or one that an earlier call left half made. A database that has a
/// table, an index or a view is refused: where it tells the number of a schema, by `WrongVersion` with
/// that one. A refusal leaves any database as it was, and an empty file without tables. It blames no key
/// and no row where the files hold nothing, or a database that tells a number or none.
///
/// A file that is made can be read and written by its owner alone, and its log too.
pub fn create_office<S: Start>(
    rt: &HostRuntime,
    path: &str,
    rates: &RateTable,
    start: S,
) -> Result<Opened<FileStore<FileFrom<S>>>, NotOpened<FileStore<FileFrom<S>>>>
    ensures working { IfOk result (λ opened. opened.office.failed ≡ false) }
    ensures made { IfOk result (λ opened. IsHonest over_files opened.office
        → IsNewOffice over_files rates.now opened) }
    ensures lawful { IsLawful (first_book rates.now) }
    ensures only_new { IfOk result (λ opened. IsHonest over_files opened.office
        → ¬ HoldsObjects (image_at S.Start)) }
    // Files that hold anything else, a text for instance, never become a store.
    ensures over_none { IfOk result (λ opened. IsHonest over_files opened.office
        → HoldsNone (image_at S.Start)) }
    ensures day { IfOk result (λ opened. opened.ledger_day ≡ None) }
    ensures tells { IfErr result (TellsOfNew over_files (image_at S.Start)) }
    ensures unopened { IfErr result IsWhyUnopened }
    ensures outside { IfErr result IsOutside }
    // A path that SQLite takes for something else than the name of a file is refused.
    ensures named { RefusesNoFile path.now result }
    ensures alone { IfErr result (LeavesAlone over_files (image_at S.Start)) }
    ensures bare { IfErr result (MakesNone over_files (image_at S.Start)) }
{
    // No effect at run time: the proof reads from this call that the rates are lawful.
    rates_in_range(rates);
    make_private(rt, path);
    let connection = open_database(rt, path, start)?;
    new_office(rt.alloc(), connection, rates)
}

/// Opens the store in the file at a path, and an office over it, which keeps the book that it finds.
/// The store is confirmed to stand, so that a crash leaves the tables that it has and no others.
/// Where no file is, none is made. Where the file holds no store of this program, `WrongVersion`
/// with the number of its schema, 0 without one; where that is our number, but its tables or indexes
/// are others than ours, `Failed(Fault::Store(StoreCause::Other))`. A refusal leaves a store its tables,
/// and a database of another schema, of other tables or without a number as it was. Of a store whose
/// counts are in their ranges, and of a database of another schema or without a number, it blames no
/// key and no row.
pub fn open_office<S: Start>(
    rt: &HostRuntime,
    path: &str,
    start: S,
) -> Result<Opened<FileStore<FileFrom<S>>>, NotOpened<FileStore<FileFrom<S>>>>
    ensures working { IfOk result (λ opened. opened.office.failed ≡ false) }
    ensures opened { IfOk result (λ opened. IsHonest over_files opened.office
        → IsOfficeOver over_files (image_at S.Start) opened) }
    ensures tells { IfErr result (TellsOf over_files (image_at S.Start)) }
    ensures unopened { IfErr result IsWhyUnopened }
    ensures outside { IfErr result IsOutside }
    // A path that SQLite takes for something else than the name of a file is refused.
    ensures named { RefusesNoFile path.now result }
    ensures leaves { IfErr result (Leaves over_files (image_at S.Start)) }
{
    let connection = open_database(rt, path, start)?;
    find_office(rt.alloc(), connection)
}

// Makes an empty file for a store, where no file is: one that stands keeps its mode. Why there is
// none then is told by the open that comes next. That takes no path of these two kinds.
fn make_private(rt: &HostRuntime, path: &str) {
    if is_no_file(path) {
        return;
    }
    let mut how = fs::OpenOptions::new();
    how.write(true).create_new(true).mode(OWNER_ALONE);
    let _ = how.open(rt, path);
}
