//! Making the tables and indexes of a store.
ghost use Rattle.std.specs.Prelude.{◌≡◌, map, IfErr, IsTrue, OnOk};
ghost use Rattle.sqlite.specs.Effect.{IsDatabase};
ghost use Rattle.sqlite.specs.Held.{state};
ghost use Rattle.sqlite.specs.State.{HasCleanDisk, KeepsCommit, Survives};
ghost use Rattle.clear_schema.specs.Faults.{IsOfDisk};
ghost use Rattle.clear_database.specs.Making.{IsMade, part_texts};
ghost use Rattle.clear_schema.specs.Schema.{no_schema, store_schema};

use clear_schema::fault::Fault;
use clear_schema::statement::put;
use sqlite::{Alter, Transaction};

// The statements that make the tables, in the order of their places, and then those that make the
// indexes of wages, claims and reminders.
const PARTS: [&str; 19] = [
    "CREATE TABLE meta (one INTEGER PRIMARY KEY, schema INTEGER NOT NULL, day INTEGER, \
     entries INTEGER NOT NULL, serial INTEGER NOT NULL, claims INTEGER NOT NULL, \
     lists INTEGER NOT NULL, runs INTEGER NOT NULL) STRICT",
    "CREATE TABLE rates (first INTEGER PRIMARY KEY, contribution INTEGER NOT NULL, \
     report_day INTEGER NOT NULL, due_day INTEGER NOT NULL, interest INTEGER NOT NULL, \
     entitlement INTEGER NOT NULL) STRICT",
    "CREATE TABLE employers (no INTEGER PRIMARY KEY, name TEXT NOT NULL, \
     start INTEGER NOT NULL, last INTEGER) STRICT",
    "CREATE TABLE reports (employer INTEGER NOT NULL, month INTEGER NOT NULL, \
     version INTEGER NOT NULL, PRIMARY KEY (employer, month)) STRICT",
    "CREATE TABLE wages (employer INTEGER NOT NULL, month INTEGER NOT NULL, \
     worker INTEGER NOT NULL, gross INTEGER NOT NULL, \
     PRIMARY KEY (employer, month, worker)) STRICT",
    "CREATE TABLE bank (reference TEXT NOT NULL PRIMARY KEY, serial INTEGER NOT NULL UNIQUE, \
     value INTEGER NOT NULL, named INTEGER, employer INTEGER, cents INTEGER NOT NULL, \
     purpose TEXT NOT NULL, note TEXT NOT NULL) STRICT",
    "CREATE TABLE credits (employer INTEGER NOT NULL, purpose TEXT NOT NULL, \
     day INTEGER NOT NULL, serial INTEGER NOT NULL, cents INTEGER NOT NULL, \
     ref TEXT NOT NULL, PRIMARY KEY (employer, purpose, day, serial)) STRICT",
    "CREATE TABLE claims (no INTEGER PRIMARY KEY, employer INTEGER NOT NULL, \
     worker INTEGER NOT NULL, cents INTEGER NOT NULL, state INTEGER NOT NULL, \
     made INTEGER NOT NULL, released INTEGER, to_contributions INTEGER NOT NULL, \
     to_interest INTEGER NOT NULL, paid INTEGER NOT NULL, list INTEGER) STRICT",
    "CREATE TABLE lists (no INTEGER PRIMARY KEY, day INTEGER NOT NULL, \
     items INTEGER NOT NULL, total INTEGER NOT NULL) STRICT",
    "CREATE TABLE runs (no INTEGER PRIMARY KEY, day INTEGER NOT NULL, \
     firms INTEGER NOT NULL) STRICT",
    "CREATE TABLE reminders (run INTEGER NOT NULL, employer INTEGER NOT NULL, \
     level INTEGER NOT NULL, missing INTEGER NOT NULL, first INTEGER, \
     arrears INTEGER NOT NULL, interest INTEGER NOT NULL, PRIMARY KEY (run, employer)) STRICT",
    "CREATE TABLE requests (caller INTEGER NOT NULL, number INTEGER NOT NULL, \
     day INTEGER NOT NULL, command BLOB NOT NULL, kind INTEGER NOT NULL, a INTEGER NOT NULL, \
     b INTEGER NOT NULL, c INTEGER NOT NULL, PRIMARY KEY (caller, number)) STRICT",
    "CREATE TABLE charges (employer INTEGER NOT NULL, month INTEGER NOT NULL, \
     due INTEGER NOT NULL, cents INTEGER NOT NULL, open INTEGER NOT NULL, \
     weight INTEGER NOT NULL, PRIMARY KEY (employer, month)) STRICT",
    "CREATE TABLE pieces (employer INTEGER NOT NULL, month INTEGER NOT NULL, \
     day INTEGER NOT NULL, serial INTEGER NOT NULL, cents INTEGER NOT NULL, ref TEXT NOT NULL, \
     PRIMARY KEY (employer, month, day, serial)) STRICT",
    "CREATE INDEX wages_by_worker ON wages (worker, employer, month)",
    "CREATE INDEX claims_by_worker ON claims (worker, no)",
    "CREATE INDEX claims_by_release ON claims (released)",
    "CREATE INDEX claims_by_list ON claims (list)",
    "CREATE INDEX reminders_by_employer ON reminders (employer, run)",
];

/// Makes all tables and indexes in an empty database.
pub fn make_all<S: Alter>(tx: &mut Transaction<'_, S>) -> Result<(), Fault>
    ensures same_reference { tx.new.conn.ghost_name ≡ tx.old.conn.ghost_name }
    ensures made { HasCleanDisk (state S.Store tx.new.conn.now)
        → (state S.Store tx.old.conn.now).now.schema ≡ no_schema
        → OnOk result (IsMade store_schema (state S.Store tx.new.conn.now).now) }
    ensures cause { HasCleanDisk (state S.Store tx.new.conn.now)
        → (state S.Store tx.old.conn.now).now.schema ≡ no_schema → IfErr result IsOfDisk }
    ensures sound { HasCleanDisk (state S.Store tx.new.conn.now)
        → (state S.Store tx.old.conn.now).now.schema ≡ no_schema
        → OnOk result (IsDatabase (state S.Store tx.new.conn.now).now) }
    ensures kept { HasCleanDisk (state S.Store tx.new.conn.now)
        → KeepsCommit (state S.Store tx.old.conn.now) (state S.Store tx.new.conn.now) }
    ensures goes_on { HasCleanDisk (state S.Store tx.new.conn.now)
        → OnOk result (IsTrue tx.new.conn.now.in_transaction) }
    ensures survives { Survives (state S.Store tx.old.conn.now) (state S.Store tx.new.conn.now)
        (λ _. ⊥) }
{
    make_parts(tx, &PARTS)
}

// Makes the tables and indexes by their statements, one after another.
fn make_parts<S: Alter>(tx: &mut Transaction<'_, S>, texts: &[&str]) -> Result<(), Fault>
    requires { map (λ text. text.now) texts.now ≡ part_texts }
    ensures same_reference { tx.new.conn.ghost_name ≡ tx.old.conn.ghost_name }
    ensures made { HasCleanDisk (state S.Store tx.new.conn.now)
        → (state S.Store tx.old.conn.now).now.schema ≡ no_schema
        → OnOk result (IsMade store_schema (state S.Store tx.new.conn.now).now) }
    ensures cause { HasCleanDisk (state S.Store tx.new.conn.now)
        → (state S.Store tx.old.conn.now).now.schema ≡ no_schema → IfErr result IsOfDisk }
    ensures sound { HasCleanDisk (state S.Store tx.new.conn.now)
        → (state S.Store tx.old.conn.now).now.schema ≡ no_schema
        → OnOk result (IsDatabase (state S.Store tx.new.conn.now).now) }
    ensures kept { HasCleanDisk (state S.Store tx.new.conn.now)
        → KeepsCommit (state S.Store tx.old.conn.now) (state S.Store tx.new.conn.now) }
    ensures goes_on { HasCleanDisk (state S.Store tx.new.conn.now)
        → OnOk result (IsTrue tx.new.conn.now.in_transaction) }
    ensures survives { Survives (state S.Store tx.old.conn.now) (state S.Store tx.new.conn.now)
        (λ _. ⊥) }
{
    for text in texts {
        put(tx, text, &[])?;
    }
    Ok(())
}
