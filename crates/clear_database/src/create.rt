//! Making the tables of an office without requests.
ghost use Rattle.std.specs.Prelude.{◌≡◌, ◌↔◌, false, true, [], IsTrue, IfErr, OnErr, OnOk};
ghost use Rattle.sqlite.specs.Effect.{IsDatabase};
ghost use Rattle.sqlite.specs.Held.{state};
ghost use Rattle.sqlite.specs.State.{HasCleanDisk, KeepsCommit, Survives};
ghost use Rattle.sqlite_keyed.specs.Keyed.{has_key, insert_by};
ghost use Rattle.clear_values.specs.Ranges.{AreRates};
ghost use Rattle.clear_values.specs.Tables.{Tables};
ghost use Rattle.clear_schema.specs.Faults.{IsOfDisk};
ghost use Rattle.clear_database.specs.First.{first_tables};
ghost use Rattle.clear_schema.specs.Held.{HasTables, StandsFor};
ghost use Rattle.clear_database.specs.Making.{IsMade, rate_number};
ghost use Rattle.clear_database.specs.Outcomes.{CreatesStore, RefusesToCreate};
ghost use Rattle.clear_schema.specs.Schema.{no_schema, store_schema};

use crate::make::make_all;
use crate::open::found_schema;
use clear_money::rates::{RateRow, RateTable};
use clear_schema::fault::{Fault, OpenFault, fault_of};
use clear_schema::statement::put;
use clear_schema::values::rate_values;
use clear_values::ranges::rates_in_range;
use sqlite::{Alter, Connection, Transaction};
use sqlite_schema::schema::Schema;

/// Makes the tables of an office without requests in an empty database, with its opening rates, in
/// one transaction. A database that has a table, an index or a view is refused: where it tells a number
/// in `meta`, by `WrongVersion` with that one, and otherwise with 0. A refusal leaves any database as
/// it was.
pub(crate) fn create_in<S: Alter>(
    conn: &mut Connection<S>,
    rates: &RateTable,
) -> Result<(), OpenFault>
    requires { conn.old.in_transaction ≡ false }
    ensures mode { conn.new.in_transaction ≡ false }
    ensures created { OnOk result
        (CreatesStore rates.now (state S.Store conn.old) (state S.Store conn.new)) }
    ensures refused { IfErr result (λ fault.
        RefusesToCreate rates.now (state S.Store conn.old) fault (state S.Store conn.new)) }
{
    // For what it says of a connection outside of a transaction.
    let _outside = conn.is_autocommit();
    if is_empty(conn.schema()) {
        return match create_tables(conn, rates) {
            Ok(()) => Ok(()),
            Err(fault) => Err(OpenFault::Failed(fault)),
        };
    }
    match found_schema(conn) {
        Ok(Some(number)) => Err(OpenFault::WrongVersion(number)),
        Ok(None) => Err(OpenFault::WrongVersion(0)),
        Err(fault) => Err(OpenFault::Failed(fault)),
    }
}

// Whether the database has no table, no index and no view.
fn is_empty(schema: &Schema) -> bool
    ensures { (result ≡ true) ↔ (schema.now ≡ no_schema) }
{
    schema.tables.is_empty() && schema.indexes.is_empty() && schema.views.is_empty()
}

// Makes the tables of an office without requests in an empty database: with its opening rates, in
// one transaction.
fn create_tables<S: Alter>(conn: &mut Connection<S>, rates: &RateTable) -> Result<(), Fault>
    requires mode { conn.old.in_transaction ≡ false }
    requires empty { (state S.Store conn.old).now.schema ≡ no_schema }
    ensures mode { conn.new.in_transaction ≡ false }
    ensures created { OnOk result
        (CreatesStore rates.now (state S.Store conn.old) (state S.Store conn.new)) }
    ensures undone { HasCleanDisk (state S.Store conn.new) → IsTrue (state S.Store conn.new).is_open
        → OnErr result (IsTrue (state S.Store conn.old).is_open
        × ((state S.Store conn.new).now ≡ (state S.Store conn.old).committed)
        × ((state S.Store conn.new).committed ≡ (state S.Store conn.old).committed)) }
    ensures crash { OnErr result (Survives (state S.Store conn.old) (state S.Store conn.new)
        (StandsFor (first_tables rates.now))) }
    ensures cause { HasCleanDisk (state S.Store conn.new) → IfErr result IsOfDisk }
    ensures clean { OnErr result (HasCleanDisk (state S.Store conn.new)
        → HasCleanDisk (state S.Store conn.old)) }
{
    let mut tx = conn.transaction();
    put_first(&mut tx, rates)?;
    match tx.commit() {
        Ok(()) => Ok(()),
        Err(error) => Err(fault_of(error)),
    }
}

// Makes the tables, with the row of `meta` and the opening rates.
fn put_first<S: Alter>(tx: &mut Transaction<'_, S>, rates: &RateTable) -> Result<(), Fault>
    ensures same_reference { tx.new.conn.ghost_name ≡ tx.old.conn.ghost_name }
    ensures put { HasCleanDisk (state S.Store tx.new.conn.now)
        → (state S.Store tx.old.conn.now).now.schema ≡ no_schema
        → OnOk result (HasTables (first_tables rates.now) (state S.Store tx.new.conn.now).now) }
    ensures cause { HasCleanDisk (state S.Store tx.new.conn.now)
        → (state S.Store tx.old.conn.now).now.schema ≡ no_schema → IfErr result IsOfDisk }
    ensures kept { HasCleanDisk (state S.Store tx.new.conn.now)
        → KeepsCommit (state S.Store tx.old.conn.now) (state S.Store tx.new.conn.now) }
    ensures goes_on { HasCleanDisk (state S.Store tx.new.conn.now)
        → OnOk result (IsTrue tx.new.conn.now.in_transaction) }
    ensures survives { Survives (state S.Store tx.old.conn.now) (state S.Store tx.new.conn.now)
        (λ _. ⊥) }
{
    make_all(tx)?;
    put_meta(tx)?;
    rates_in_range(rates);
    put_rates(tx, rates.as_slice())?;
    Ok(())
}

// Adds the row of `meta` to empty tables.
fn put_meta<S: Alter>(tx: &mut Transaction<'_, S>) -> Result<(), Fault>
    ensures same_reference { tx.new.conn.ghost_name ≡ tx.old.conn.ghost_name }
    ensures put { HasCleanDisk (state S.Store tx.new.conn.now)
        → IsMade store_schema (state S.Store tx.old.conn.now).now
        → OnOk result (HasTables (first_tables []) (state S.Store tx.new.conn.now).now) }
    ensures cause { HasCleanDisk (state S.Store tx.new.conn.now)
        → IsMade store_schema (state S.Store tx.old.conn.now).now
        → IsDatabase (state S.Store tx.old.conn.now).now → IfErr result IsOfDisk }
    ensures kept { HasCleanDisk (state S.Store tx.new.conn.now)
        → KeepsCommit (state S.Store tx.old.conn.now) (state S.Store tx.new.conn.now) }
    ensures goes_on { HasCleanDisk (state S.Store tx.new.conn.now)
        → OnOk result (IsTrue tx.new.conn.now.in_transaction) }
    ensures survives { Survives (state S.Store tx.old.conn.now) (state S.Store tx.new.conn.now)
        (λ _. ⊥) }
{
    put(
        tx,
        "INSERT INTO meta (one, schema, day, entries, serial, claims, lists, runs) \
         VALUES (1, 1, NULL, 0, 0, 0, 0, 0)",
        &[],
    )
}

// Adds the opening rates, one row each.
fn put_rates<S: Alter>(tx: &mut Transaction<'_, S>, rows: &[RateRow]) -> Result<(), Fault>
    requires { AreRates rows.now }
    ensures same_reference { tx.new.conn.ghost_name ≡ tx.old.conn.ghost_name }
    ensures put { HasCleanDisk (state S.Store tx.new.conn.now)
        → HasTables (first_tables []) (state S.Store tx.old.conn.now).now
        → OnOk result (HasTables (first_tables rows.now) (state S.Store tx.new.conn.now).now) }
    ensures cause { HasCleanDisk (state S.Store tx.new.conn.now)
        → HasTables (first_tables []) (state S.Store tx.old.conn.now).now
        → IfErr result IsOfDisk }
    ensures kept { HasCleanDisk (state S.Store tx.new.conn.now)
        → KeepsCommit (state S.Store tx.old.conn.now) (state S.Store tx.new.conn.now) }
    ensures goes_on { HasCleanDisk (state S.Store tx.new.conn.now)
        → IsTrue tx.old.conn.now.in_transaction
        → OnOk result (IsTrue tx.new.conn.now.in_transaction) }
    ensures survives { Survives (state S.Store tx.old.conn.now) (state S.Store tx.new.conn.now)
        (λ _. ⊥) }
{
    for row in rows {
        put_rate(tx, row)?;
    }
    Ok(())
}

// Adds a rate whose first month is free.
fn put_rate<S: Alter>(tx: &mut Transaction<'_, S>, row: &RateRow) -> Result<(), Fault>
    ensures same_reference { tx.new.conn.ghost_name ≡ tx.old.conn.ghost_name }
    ensures put { HasCleanDisk (state S.Store tx.new.conn.now) → (t : Tables)
        → HasTables t (state S.Store tx.old.conn.now).now
        → OnOk result (HasTables (record t { rates = insert_by rate_number t.rates row.now })
        (state S.Store tx.new.conn.now).now) }
    ensures cause { HasCleanDisk (state S.Store tx.new.conn.now) → (t : Tables)
        → HasTables t (state S.Store tx.old.conn.now).now
        → has_key rate_number t.rates (rate_number row.now) ≡ false → IfErr result IsOfDisk }
    ensures kept { HasCleanDisk (state S.Store tx.new.conn.now)
        → KeepsCommit (state S.Store tx.old.conn.now) (state S.Store tx.new.conn.now) }
    ensures goes_on { HasCleanDisk (state S.Store tx.new.conn.now)
        → OnOk result (IsTrue tx.new.conn.now.in_transaction) }
    ensures survives { Survives (state S.Store tx.old.conn.now) (state S.Store tx.new.conn.now)
        (λ _. ⊥) }
{
    put(
        tx,
        "INSERT INTO rates (first, contribution, report_day, due_day, interest, entitlement) \
         VALUES (?1, ?2, ?3, ?4, ?5, ?6)",
        &rate_values(row),
    )
}
