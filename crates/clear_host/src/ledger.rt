//! The ledger day of a store: the day of its last accepted request.
ghost use Rattle.std.specs.Prelude.{◌≡◌, false, IfErr, IfOk, IsTrue, OnErr, OnOk};
ghost use Rattle.sqlite.specs.Held.{state};
ghost use Rattle.sqlite.specs.State.{HasCleanDisk};
ghost use Rattle.clear_book.specs.Tables.{Tables};
ghost use Rattle.clear_schema.specs.Faults.{IsOfDisk};
ghost use Rattle.clear_schema.specs.Held.{HasTables};
ghost use Rattle.clear_schema.specs.Values.{counts_of};
ghost use Rattle.clear_database.specs.Still.{Holds};
ghost use Rattle.clear_firms.specs.Counts.{AreCounts};

use clear_database::body::{Body, Stop, within};
use clear_database::store::Store;
use clear_firms::counts::find_counts;
use clear_money::days::Day;
use clear_schema::fault::Fault;
use sqlite::{Alter, Transaction};
use std::convert::Infallible;

/// The day of the last accepted request of a store, if there was one, by a transaction that leaves
/// the tables. After `Ok` a crash leaves these alone.
pub(crate) fn ledger_day<S: Alter>(store: &mut Store<S>) -> Result<Option<Day>, Fault>
    requires { store.old.conn.in_transaction ≡ false }
    ensures mode { store.new.conn.in_transaction ≡ false }
    ensures clean { HasCleanDisk (state S.Store store.new.conn)
        → HasCleanDisk (state S.Store store.old.conn) }
    ensures day { HasCleanDisk (state S.Store store.new.conn)
        → (t : Tables) → HasTables t (state S.Store store.old.conn).now
        → IfOk result (λ day. day ≡ t.day) }
    ensures kept { HasCleanDisk (state S.Store store.new.conn)
        → (t : Tables) → HasTables t (state S.Store store.old.conn).now
        → OnOk result (Holds S.Store store.new.conn t) }
    // Where the counts are in their ranges, no key and no row is to blame for a fault.
    ensures cause { HasCleanDisk (state S.Store store.new.conn)
        → (t : Tables) → HasTables t (state S.Store store.old.conn).now
        → AreCounts (counts_of t) → IfErr result IsOfDisk }
    ensures rests { HasCleanDisk (state S.Store store.new.conn)
        → (t : Tables) → HasTables t (state S.Store store.old.conn).now
        → IsTrue (state S.Store store.new.conn).is_open
        → OnErr result (((state S.Store store.new.conn).now
        ≡ (state S.Store store.old.conn).committed)
        × ((state S.Store store.new.conn).committed
        ≡ (state S.Store store.old.conn).committed)) }
{
    match within(&mut store.conn, LedgerDay) {
        Ok(day) => Ok(day),
        Err(Stop::Fault(fault)) => Err(fault),
        Err(Stop::Refused(never)) => match never {},
    }
}

// It answers the ledger day.
#[derive(Clone, Copy)]
struct LedgerDay;

impl Body for LedgerDay {
    ghost use Rattle.std.specs.Prelude.{◌≡◌};
    ghost use Rattle.clear_schema.specs.Faults.{IsOfDisk};
    ghost use Rattle.clear_schema.specs.Values.{counts_of};
    ghost use Rattle.clear_firms.specs.Counts.{AreCounts};

    type Out = Option<Day>;

    type Refusal = Infallible;

    ghost does = { λ self t u day. (u ≡ t) × (day ≡ t.day) };

    ghost refuses = { λ self t why. ⊥ };

    ghost fails = { λ self t fault. AreCounts (counts_of t) → IsOfDisk fault };

    fn run<S: Alter>(self, tx: &mut Transaction<'_, S>) -> Result<Option<Day>, Stop<Infallible>> {
        match find_counts(tx) {
            Ok(counts) => Ok(counts.day),
            Err(fault) => Err(Stop::Fault(fault)),
        }
    }
}
