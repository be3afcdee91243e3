//! Offices over connections on a database, whatever keeps it.
//!
//! A connection on files that were just opened sees what they held. So what is said here of an
//! office goes by that: by a log and a database file that may have been there.
ghost use Rattle.std.specs.Prelude.{◌≡◌, false, None, IfErr, IfOk};
ghost use Rattle.sqlite.specs.Held.{state};
ghost use Rattle.sqlite.specs.State.{HasCleanDisk};
ghost use Rattle.sqlite_wal.specs.Recovery.{Image};
ghost use Rattle.clear_book.specs.Allocated.{Represents};
ghost use Rattle.clear_book.specs.Book.{Book};
ghost use Rattle.clear_book.specs.Tables.{Tables};
ghost use Rattle.clear_schema.specs.Held.{HasTables};
ghost use Rattle.clear_schema.specs.Schema.{this_layout};
ghost use Rattle.clear_disk.specs.Seen.{Sees};
ghost use Rattle.clear_database.specs.Still.{Holds};
ghost use Rattle.clear_office.specs.Office.{IsHonest, Keeps};
ghost use Rattle.clear_host.specs.Contents.{BlamesCounts, BlamesNone, FailsOver, HandsBack};
ghost use Rattle.clear_host.specs.Contents.{HoldsNone, HoldsObjects, HoldsStore, LeavesAlone};
ghost use Rattle.clear_host.specs.Contents.{MakesNone};
ghost use Rattle.clear_host.specs.Offices.{IsNewOffice, IsOfficeOver, IsOurs, Leaves, TellsOf};
ghost use Rattle.clear_host.specs.Offices.{TellsOfNew};

use crate::hindrance::Hindrance;
use crate::ledger::ledger_day;
use clear_database::body;
use clear_database::store::Store;
use clear_money::days::Day;
use clear_money::rates::RateTable;
use clear_office::made::make_office;
use clear_office::office::Office;
use clear_schema::fault::OpenFault;
use sqlite::{Alter, Connection};
use std::alloc::Global;

/// An office that was just opened over its store, and the day of its last accepted request, if
/// there was one: it takes no request of an earlier day.
#[derive(Drop)]
pub struct Opened<S: Alter> {
    pub office: Office<S>,
    pub ledger_day: Option<Day>,
}

impl<S: Alter> Opened<S> {
    /// The connection of its store alone, which is still to be closed.
    pub fn into_connection(self) -> Connection<S>
        ensures { result ≡ self.office.conn }
    {
        self.office.into_store().into_connection()
    }
}

/// Why no office is opened, and the connection on the database, if it came so far.
#[derive(Drop)]
pub struct NotOpened<S: Alter> {
    pub fault: OpenFault,
    /// What stood in the way of a connection, where that says more than the fault does.
    pub hindrance: Option<Hindrance>,
    pub connection: Option<Connection<S>>,
}

/// Makes a store without requests, with these opening rates, in an empty database, and an office
/// over it. A database that has a table, an index or a view is refused: where it tells the number of a
/// schema, by `WrongVersion` with that one. A refusal leaves any database as it was.
pub(crate) fn new_office<S: Alter>(
    alloc: Global,
    connection: Connection<S>,
    rates: &RateTable,
) -> Result<Opened<S>, NotOpened<S>>
    requires { connection.in_transaction ≡ false }
    ensures working { IfOk result (λ opened. opened.office.failed ≡ false) }
    ensures made { IfOk result (λ opened. IsHonest S.Store opened.office
        → IsNewOffice S.Store rates.now opened) }
    ensures only_new { (image : Image) → Sees S.Store image connection
        → IfOk result (λ opened. IsHonest S.Store opened.office → ¬ HoldsObjects image) }
    ensures over_none { (image : Image) → Sees S.Store image connection
        → IfOk result (λ opened. IsHonest S.Store opened.office → HoldsNone image) }
    ensures day { IfOk result (λ opened. opened.ledger_day ≡ None) }
    ensures tells { (image : Image) → Sees S.Store image connection
        → IfErr result (TellsOfNew S.Store image) }
    ensures back { IfErr result HandsBack }
    ensures alone { (image : Image) → Sees S.Store image connection
        → IfErr result (LeavesAlone S.Store image) }
    ensures bare { (image : Image) → Sees S.Store image connection
        → IfErr result (MakesNone S.Store image) }
{
    match make_office(alloc, connection, rates) {
        Ok(office) => Ok(Opened {
            office,
            ledger_day: None,
        }),
        Err(refusal) => Err(NotOpened {
            fault: refusal.fault,
            hindrance: None,
            connection: Some(refusal.connection),
        }),
    }
}

/// Finds the store in a database, and opens an office over it, which keeps the book that it finds.
/// The store is confirmed to stand, so that a crash leaves the tables that it has and no others.
/// Where the database is no store of this program, `WrongVersion` with the number of its schema, 0
/// without one; where that is our number, but its tables or indexes are others than ours,
/// `Failed(Fault::Store(StoreCause::Other))`.
pub(crate) fn find_office<S: Alter>(
    alloc: Global,
    connection: Connection<S>,
) -> Result<Opened<S>, NotOpened<S>>
    requires { connection.in_transaction ≡ false }
    ensures working { IfOk result (λ opened. opened.office.failed ≡ false) }
    ensures opened { (image : Image) → Sees S.Store image connection
        → IfOk result (λ opened. IsHonest S.Store opened.office
        → IsOfficeOver S.Store image opened) }
    ensures tells { (image : Image) → Sees S.Store image connection
        → IfErr result (TellsOf S.Store image) }
    ensures back { IfErr result HandsBack }
    ensures leaves { (image : Image) → Sees S.Store image connection
        → IfErr result (Leaves S.Store image) }
{
    let store = find_store(connection)?;
    office_over(alloc, store)
}

// The store in a database, once it is known to stand.
fn find_store<S: Alter>(connection: Connection<S>) -> Result<Store<S>, NotOpened<S>>
    requires { connection.in_transaction ≡ false }
    ensures mode { IfOk result (λ store. store.conn.in_transaction ≡ false) }
    ensures found { (image : Image) → Sees S.Store image connection
        → IfOk result (λ store. HasCleanDisk (state S.Store store.conn)
        → (t : Tables) → HoldsStore this_layout t image → Holds S.Store store.conn t) }
    ensures ours { (image : Image) → Sees S.Store image connection
        → IfOk result (λ store. HasCleanDisk (state S.Store store.conn) → IsOurs image) }
    ensures tells { (image : Image) → Sees S.Store image connection
        → IfErr result (TellsOf S.Store image) }
    ensures back { IfErr result HandsBack }
    ensures leaves { (image : Image) → Sees S.Store image connection
        → IfErr result (Leaves S.Store image) }
{
    match Store::open(connection) {
        Ok(store) => confirm(store),
        Err(refusal) => Err(NotOpened {
            fault: refusal.fault,
            hindrance: None,
            connection: Some(refusal.connection),
        }),
    }
}

// The store, once it is known to stand.
fn confirm<S: Alter>(store: Store<S>) -> Result<Store<S>, NotOpened<S>>
    requires { store.conn.in_transaction ≡ false }
    ensures mode { IfOk result (λ confirmed. confirmed.conn.in_transaction ≡ false) }
    ensures kept { IfOk result (λ confirmed. HasCleanDisk (state S.Store confirmed.conn)
        → (t : Tables) → HasTables t (state S.Store store.conn).now
        → Holds S.Store confirmed.conn t) }
    ensures clean { IfOk result (λ confirmed. HasCleanDisk (state S.Store confirmed.conn)
        → HasCleanDisk (state S.Store store.conn)) }
    ensures fails { IfErr result (FailsOver S.Store (state S.Store store.conn) BlamesNone) }
    ensures back { IfErr result HandsBack }
{
    let mut store = store;
    match body::confirm(&mut store.conn) {
        Ok(()) => Ok(store),
        Err(fault) => Err(NotOpened {
            fault: OpenFault::Failed(fault),
            hindrance: None,
            connection: Some(store.into_connection()),
        }),
    }
}

// An office over a store that stands.
fn office_over<S: Alter>(alloc: Global, store: Store<S>) -> Result<Opened<S>, NotOpened<S>>
    requires { store.conn.in_transaction ≡ false }
    ensures working { IfOk result (λ opened. opened.office.failed ≡ false) }
    ensures clean { IfOk result (λ opened. IsHonest S.Store opened.office
        → HasCleanDisk (state S.Store store.conn)) }
    ensures kept { IfOk result (λ opened. IsHonest S.Store opened.office
        → (t : Tables) → HasTables t (state S.Store store.conn).now
        → Holds S.Store opened.office.conn t) }
    ensures keeps { IfOk result (λ opened. IsHonest S.Store opened.office
        → (b : Book) (t : Tables) → Represents b t → HasTables t (state S.Store store.conn).now
        → Keeps S.Store opened.office b) }
    ensures day { IfOk result (λ opened. IsHonest S.Store opened.office
        → (t : Tables) → HasTables t (state S.Store store.conn).now
        → opened.ledger_day ≡ t.day) }
    ensures fails { IfErr result (FailsOver S.Store (state S.Store store.conn)
        (BlamesCounts (state S.Store store.conn))) }
    ensures back { IfErr result HandsBack }
{
    let mut store = store;
    match ledger_day(&mut store) {
        Ok(day) => Ok(Opened {
            office: Office::open(alloc, store),
            ledger_day: day,
        }),
        Err(fault) => Err(NotOpened {
            fault: OpenFault::Failed(fault),
            hindrance: None,
            connection: Some(store.into_connection()),
        }),
    }
}
