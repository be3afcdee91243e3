//! Finding the store in a database that it was made in.
ghost use Rattle.std.specs.Prelude.{◌≡◌, false, ℕ, negsuc, [], ◌∷◌, Some, None};
ghost use Rattle.std.specs.Prelude.{IsSome, IsTrue, Ok, OnOk, IfOk, IfErr};
ghost use Rattle.sqlite.specs.declared.types.Value.TheVariants.{Int};
ghost use Rattle.sqlite.specs.Held.{state};
ghost use Rattle.sqlite.specs.State.{HasCleanDisk, Survives, IsUnchanged};
ghost use Rattle.clear_schema.specs.Faults.{IsOfDisk, IsOfRowOrDisk};
ghost use Rattle.clear_schema.specs.Held.{HasMeta, TellsSchema};
ghost use Rattle.clear_database.specs.Opening.{IsBelowZero, TellsNoNumber, TellsNumberOrNone};
ghost use Rattle.clear_database.specs.Outcomes.{OpensStore, RefusesToOpen};
ghost use Rattle.clear_database.specs.Still.{IsStill};
ghost use Rattle.clear_schema.specs.Values.{number as stored_number};

use crate::meta::has_meta;
use crate::store::SCHEMA;
use clear_schema::fault::{Fault, OpenFault, fault_of, read_fault};
use clear_schema::layout::has_this_layout;
use clear_values::causes::StoreCause;
use sqlite::{Alter, Connection, Error, Row};

/// Tells whether the database is a store of this program, and which number it has otherwise. Where it
/// tells our number, but has other tables or indexes than ours,
/// `Failed(Fault::Store(StoreCause::Other))`.
pub(crate) fn open_tables<S: Alter>(conn: &mut Connection<S>) -> Result<(), OpenFault>
    requires { conn.old.in_transaction ≡ false }
    ensures mode { conn.new.in_transaction ≡ false }
    ensures opened { OnOk result (OpensStore (state S.Store conn.old) (state S.Store conn.new)) }
    ensures refused { IfErr result (λ fault.
        RefusesToOpen (state S.Store conn.old) fault (state S.Store conn.new)) }
{
    let ours = has_this_layout(conn.schema());
    // For what it says of a connection outside of a transaction.
    let _outside = conn.is_autocommit();
    let number = match found_schema(conn) {
        Ok(Some(number)) => number,
        Ok(None) => return Err(OpenFault::WrongVersion(0)),
        Err(fault) => return Err(OpenFault::Failed(fault)),
    };
    if number != SCHEMA {
        return Err(OpenFault::WrongVersion(number));
    }
    if ours {
        Ok(())
    } else {
        Err(OpenFault::Failed(Fault::Store(StoreCause::Other)))
    }
}

/// The number of its schema that the database tells, or none where it has no `meta` of ours as its first
/// table, or no row there. Only such a `meta` is asked, so any other database is left alone.
pub fn found_schema<S: Alter>(conn: &mut Connection<S>) -> Result<Option<u64>, Fault>
    ensures empty { HasCleanDisk (state S.Store conn.new)
        → TellsNoNumber (state S.Store conn.old).now
        → IfOk result (λ found. found ≡ None) }
    ensures found { HasCleanDisk (state S.Store conn.new)
        → (number : ℕ) → TellsSchema number (state S.Store conn.old).now
        → IfOk result (λ found. found ≡ Some number) }
    ensures below_zero { HasCleanDisk (state S.Store conn.new)
        → IsBelowZero (state S.Store conn.old).now
        → OnOk result ⊥ × IfErr result IsOfRowOrDisk }
    ensures only_meta { IfOk result (λ found. IsSome found
        → HasMeta (state S.Store conn.old).now.schema) }
    ensures unasked { ¬ HasMeta (state S.Store conn.old).now.schema
        → (result ≡ Ok None) × (conn.new ≡ conn.old) }
    ensures same { HasCleanDisk (state S.Store conn.new)
        → HasMeta (state S.Store conn.old).now.schema
        → OnOk result (IsUnchanged (state S.Store conn.old) (state S.Store conn.new)) }
    ensures mode { conn.old.in_transaction ≡ false → conn.new.in_transaction ≡ false }
    ensures still { HasCleanDisk (state S.Store conn.new)
        → conn.old.in_transaction ≡ false → IsTrue (state S.Store conn.new).is_open
        → IsStill (state S.Store conn.old) (state S.Store conn.new) }
    ensures cause { HasCleanDisk (state S.Store conn.new)
        → TellsNumberOrNone (state S.Store conn.old).now → IfErr result IsOfDisk }
    ensures clean { HasCleanDisk (state S.Store conn.new) → HasCleanDisk (state S.Store conn.old) }
    ensures survives { Survives (state S.Store conn.old) (state S.Store conn.new) (λ _. ⊥) }
{
    // For what it says of a connection outside of a transaction.
    let _outside = conn.is_autocommit();
    if has_meta(conn.schema()) {
        number_of_meta(conn)
    } else {
        Ok(None)
    }
}

// The number in the one row of `meta`, or none where there is no row.
fn number_of_meta<S: Alter>(conn: &mut Connection<S>) -> Result<Option<u64>, Fault>
    requires { HasMeta (state S.Store conn.old).now.schema }
    ensures empty { HasCleanDisk (state S.Store conn.new)
        → (state S.Store conn.old).now.trees 0 ≡ [] → IfOk result (λ found. found ≡ None) }
    ensures found { HasCleanDisk (state S.Store conn.new)
        → (number : ℕ) → TellsSchema number (state S.Store conn.old).now
        → IfOk result (λ found. found ≡ Some number) }
    ensures below_zero { HasCleanDisk (state S.Store conn.new)
        → IsBelowZero (state S.Store conn.old).now
        → OnOk result ⊥ × IfErr result IsOfRowOrDisk }
    ensures same { HasCleanDisk (state S.Store conn.new)
        → OnOk result (IsUnchanged (state S.Store conn.old) (state S.Store conn.new)) }
    ensures mode { conn.old.in_transaction ≡ false → conn.new.in_transaction ≡ false }
    ensures still { HasCleanDisk (state S.Store conn.new)
        → conn.old.in_transaction ≡ false → IsTrue (state S.Store conn.new).is_open
        → IsStill (state S.Store conn.old) (state S.Store conn.new) }
    ensures cause { HasCleanDisk (state S.Store conn.new)
        → TellsNumberOrNone (state S.Store conn.old).now → IfErr result IsOfDisk }
    ensures clean { HasCleanDisk (state S.Store conn.new) → HasCleanDisk (state S.Store conn.old) }
    ensures survives { Survives (state S.Store conn.old) (state S.Store conn.new) (λ _. ⊥) }
{
    // For what it says of a connection outside of a transaction.
    let _outside = conn.is_autocommit();
    match conn.query_row("SELECT schema FROM meta WHERE one = 1", &[]) {
        Ok(row) => number_in(&row),
        Err(Error::QueryReturnedNoRows) => Ok(None),
        Err(error) => Err(fault_of(error)),
    }
}

// The number in the row's one column. A number below 0 is out of its range.
fn number_in(row: &Row) -> Result<Option<u64>, Fault>
    ensures told { IfOk result (λ found. (n : ℕ) → row.now ≡ stored_number n ∷ []
        → found ≡ Some n) }
    ensures below_zero { (n : ℕ) → row.now ≡ Int (negsuc n) ∷ [] → OnOk result ⊥ }
    ensures cause { (n : ℕ) → row.now ≡ stored_number n ∷ [] → IfErr result IsOfDisk }
    ensures fault { IfErr result IsOfRowOrDisk }
{
    match row.get(0) {
        Ok(number) => Ok(Some(number)),
        Err(error) => Err(read_fault(error)),
    }
}
