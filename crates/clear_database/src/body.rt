//! Work inside one transaction: all of it is committed, or none.
ghost use Rattle.std.specs.Prelude.{◌≡◌, ◌⊎◌, false, IsTrue, IfOk, IfErr, OnOk, OnErr};
ghost use Rattle.sqlite.specs.Effect.{Database};
ghost use Rattle.sqlite.specs.Held.{state};
ghost use Rattle.sqlite.specs.State.{HasCleanDisk, KeepsCommit, Survives};
ghost use Rattle.sqlite.specs.Tree.{Trees};
ghost use Rattle.clear_rows.specs.Stands.{Stands};
ghost use Rattle.clear_values.specs.Tables.{Tables};
ghost use Rattle.clear_schema.specs.Faults.{IsOfDisk};
ghost use Rattle.clear_schema.specs.Held.{HasTables, StandsFor};
ghost use Rattle.clear_database.specs.Still.{IsStill};

use clear_schema::fault::{Fault, fault_of};
use sqlite::{Alter, Connection, Error, Transaction};

/// Why a body ends with nothing done.
#[derive(Drop)]
pub enum Stop<R> {
    /// A rule refuses it.
    Refused(R),
    /// The database failed.
    Fault(Fault),
}

impl<R: Drop> From<Fault> for Stop<R> {
    ghost use Rattle.clear_database.specs.declared.body.Stop.TheVariants as stop;

    ghost from_gives = { λ fault given. given ≡ stop.Fault fault };

    fn from(fault: Fault) -> Stop<R> {
        Stop::Fault(fault)
    }
}

/// What is done inside one transaction.
pub trait Body {
    ghost use Rattle.clear_schema.specs.declared.fault.Fault.{Fault};

    /// What it answers.
    type Out: Drop;

    /// Why a rule refuses it.
    type Refusal: Drop;

    /// What it makes of the tables, and what it then answers.
    ghost does: { Self → Tables → Tables → Self.Out → Type 0 };

    /// Which tables it refuses, and why.
    ghost refuses: { Self → Tables → Self.Refusal → Type 0 };

    /// On which tables it may fail, and how.
    ghost fails: { Self → Tables → Fault → Type 0 };

    /// Does it, and commits nothing.
    fn run<S: Alter>(self, tx: &mut Transaction<'_, S>) -> Result<Self::Out, Stop<Self::Refusal>>
        ensures same_reference { tx.new.conn.ghost_name ≡ tx.old.conn.ghost_name }
        ensures did { HasCleanDisk (state S.Store tx.new.conn.now)
            → (t : Tables) → HasTables t (state S.Store tx.old.conn.now).now
            → IfOk result (λ out. (u : Tables) × does self t u out
            × HasTables u (state S.Store tx.new.conn.now).now) }
        ensures refused { HasCleanDisk (state S.Store tx.new.conn.now)
            → (t : Tables) → HasTables t (state S.Store tx.old.conn.now).now
            → IfErr result (λ stop. (why : _) → stop ≡ Stop.Refused why → refuses self t why) }
        ensures failed { HasCleanDisk (state S.Store tx.new.conn.now)
            → (t : Tables) → HasTables t (state S.Store tx.old.conn.now).now
            → IfErr result (λ stop. (fault : _) → stop ≡ Stop.Fault fault → fails self t fault) }
        ensures goes_on { HasCleanDisk (state S.Store tx.new.conn.now)
            → (t : Tables) → HasTables t (state S.Store tx.old.conn.now).now
            → IsTrue tx.old.conn.now.in_transaction
            → OnOk result (IsTrue tx.new.conn.now.in_transaction) }
        ensures kept { HasCleanDisk (state S.Store tx.new.conn.now)
            → (t : Tables) → HasTables t (state S.Store tx.old.conn.now).now
            → KeepsCommit (state S.Store tx.old.conn.now) (state S.Store tx.new.conn.now) }
        ensures survives { Survives (state S.Store tx.old.conn.now)
            (state S.Store tx.new.conn.now) (λ _. ⊥) };
}

/// Runs it in a transaction, and answers once that is committed.
pub fn within<S: Alter, B: Body>(
    conn: &mut Connection<S>,
    body: B,
) -> Result<B::Out, Stop<B::Refusal>>
    requires { conn.old.in_transaction ≡ false }
    ensures mode { conn.new.in_transaction ≡ false }
    ensures clean { HasCleanDisk (state S.Store conn.new) → HasCleanDisk (state S.Store conn.old) }
    ensures done { HasCleanDisk (state S.Store conn.new)
        → (t : Tables) → HasTables t (state S.Store conn.old).now
        → IfOk result (λ out. (u : Tables) × B.does body t u out
        × HasTables u (state S.Store conn.new).now × HasTables u (state S.Store conn.new).committed
        × ((trees : Trees) → (state S.Store conn.new).may_leave trees → StandsFor u trees)) }
    ensures refused { HasCleanDisk (state S.Store conn.new)
        → (t : Tables) → HasTables t (state S.Store conn.old).now
        → IfErr result (λ stop. (why : _) → stop ≡ Stop.Refused why → B.refuses body t why
        × Survives (state S.Store conn.old) (state S.Store conn.new) (λ _. ⊥)) }
    ensures failed { HasCleanDisk (state S.Store conn.new)
        → (t : Tables) → HasTables t (state S.Store conn.old).now
        → IfErr result (λ stop. (fault : _) → stop ≡ Stop.Fault fault
        → B.fails body t fault ⊎ IsOfDisk fault) }
    ensures open { HasCleanDisk (state S.Store conn.new)
        → OnOk result (IsTrue (state S.Store conn.new).is_open) }
    ensures stays { HasCleanDisk (state S.Store conn.new)
        → (t : Tables) → HasTables t (state S.Store conn.old).now
        → IsTrue (state S.Store conn.new).is_open
        → OnErr result (((state S.Store conn.new).now ≡ (state S.Store conn.old).committed)
        × ((state S.Store conn.new).committed ≡ (state S.Store conn.old).committed)) }
    ensures was_open { HasCleanDisk (state S.Store conn.new)
        → (t : Tables) → HasTables t (state S.Store conn.old).now
        → IsTrue (state S.Store conn.new).is_open
        → OnErr result (IsTrue (state S.Store conn.old).is_open) }
    ensures crash { (t : Tables) → HasTables t (state S.Store conn.old).now
        → Survives (state S.Store conn.old) (state S.Store conn.new) (Stands (λ (db : Database).
        (u : Tables) × (out : B.Out) × B.does body t u out × HasTables u db)) }
{
    let mut tx = conn.transaction();
    let out = body.run(&mut tx)?;
    match tx.commit() {
        Ok(()) => Ok(out),
        Err(error) => Err(Stop::Fault(fault_of(error))),
    }
}

/// Confirms that the store still stands, by asking for nothing.
///
/// A rollback doesn't tell whether a fault of the disk has shut the store. A text without words tells
/// it: it is refused as no query where the store is open, and without memory once the connection has
/// met it. After `Ok` the store is open, and a crash leaves the tables that it has, and no other.
/// After any answer a crash leaves no more than before, and while the store is open it has the tables
/// that it had.
pub fn confirm<S: Alter>(conn: &mut Connection<S>) -> Result<(), Fault>
    requires { conn.old.in_transaction ≡ false }
    ensures mode { conn.new.in_transaction ≡ false }
    ensures open { HasCleanDisk (state S.Store conn.new)
        → OnOk result (IsTrue (state S.Store conn.new).is_open) }
    ensures still { HasCleanDisk (state S.Store conn.new)
        → IsTrue (state S.Store conn.new).is_open
        → IsStill (state S.Store conn.old) (state S.Store conn.new) }
    ensures kept { HasCleanDisk (state S.Store conn.new)
        → (t : Tables) → HasTables t (state S.Store conn.old).now
        → OnOk result (HasTables t (state S.Store conn.new).now
        × HasTables t (state S.Store conn.new).committed
        × ((trees : Trees) → (state S.Store conn.new).may_leave trees → StandsFor t trees)) }
    // No key and no row is to blame for a fault.
    ensures cause { HasCleanDisk (state S.Store conn.new) → IfErr result IsOfDisk }
    ensures clean { HasCleanDisk (state S.Store conn.new) → HasCleanDisk (state S.Store conn.old) }
    ensures survives { Survives (state S.Store conn.old) (state S.Store conn.new) (λ _. ⊥) }
{
    // For what it says of a connection outside of a transaction.
    let _outside = conn.is_autocommit();
    match conn.query_all("", &[]) {
        Ok(_rows) => Ok(()),
        Err(Error::InvalidQuery) => Ok(()),
        Err(error) => Err(fault_of(error)),
    }
}
