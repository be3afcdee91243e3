//! The number of a database's schema, and a store brought to this program's.
ghost use Rattle.std.specs.Prelude.{◌≡◌, ◌≢◌, false, true, ℕ, Ok, Err, IsTrue, IfErr, OnOk};
ghost use Rattle.sqlite.specs.Held.{state};
ghost use Rattle.sqlite.specs.State.{HasCleanDisk, Survives};
ghost use Rattle.clear_schema.specs.Faults.{IsOfDisk, IsWrong, other_layout};
ghost use Rattle.clear_schema.specs.Held.{HasOtherLayout, TellsSchema, this_schema};
ghost use Rattle.clear_database.specs.Opening.{IsBelowZero, TellsNoNumber, TellsNumberOrNone};
ghost use Rattle.clear_schema.specs.Schema.{store_schema};
ghost use Rattle.clear_database.specs.Still.{IsStill};
ghost use Rattle.clear_migrate.specs.Answered.{AnswersOrFails};

use clear_database::open::found_schema;
use clear_database::store::SCHEMA;
use clear_schema::fault::{Fault, OpenFault};
use clear_schema::layout::has_this_layout;
use clear_values::causes::StoreCause;
use sqlite::{Alter, Connection};

/// What was done to a store, so that it is one of this program.
#[derive(Clone, Copy)]
pub enum Migration {
    /// Nothing: it was one already.
    AlreadyCurrent,
}

/// The number of its schema that a database tells, in the row of its first table `meta`, whichever
/// number that is and whatever other tables there are. `WrongVersion` with 0 where no such `meta` stands
/// first, as in an empty database or another program's, or it has no row;
/// `Failed(Fault::Store(StoreCause::Row))` for a number below 0. Nothing changes, whatever the database
/// is.
pub fn version<S: Alter>(conn: &mut Connection<S>) -> Result<u64, OpenFault>
    ensures told { HasCleanDisk (state S.Store conn.new)
        → (number : ℕ) → TellsSchema number (state S.Store conn.old).now
        → AnswersOrFails (Ok number) result }
    ensures empty { HasCleanDisk (state S.Store conn.new)
        → TellsNoNumber (state S.Store conn.old).now
        → AnswersOrFails (Err (OpenFault.WrongVersion 0)) result }
    ensures below_zero { HasCleanDisk (state S.Store conn.new)
        → IsBelowZero (state S.Store conn.old).now
        → AnswersOrFails (Err (OpenFault.Failed (Fault.Store StoreCause.Row))) result }
    ensures open { HasCleanDisk (state S.Store conn.new)
        → OnOk result (IsTrue (state S.Store conn.new).is_open) }
    ensures mode { conn.old.in_transaction ≡ false → conn.new.in_transaction ≡ false }
    ensures still { HasCleanDisk (state S.Store conn.new)
        → conn.old.in_transaction ≡ false → IsTrue (state S.Store conn.new).is_open
        → IsStill (state S.Store conn.old) (state S.Store conn.new) }
    ensures survives { Survives (state S.Store conn.old) (state S.Store conn.new) (λ _. ⊥) }
    ensures clean { HasCleanDisk (state S.Store conn.new) → HasCleanDisk (state S.Store conn.old) }
{
    match found_schema(conn) {
        Ok(Some(number)) => Ok(number),
        Ok(None) => Err(OpenFault::WrongVersion(0)),
        Err(fault) => Err(OpenFault::Failed(fault)),
    }
}

/// Brings a store to this program's schema. That is done where the database tells its number and has
/// its tables and indexes, and no others: then `Store::open` takes it. `WrongVersion` with the number
/// in `meta`, 0 without one, where that is another one, and `Failed(Fault::Store(StoreCause::Other))`
/// where the number is ours, but tables or indexes are others than ours. Nothing changes, whatever the
/// database is.
pub fn to_current<S: Alter>(conn: &mut Connection<S>) -> Result<Migration, OpenFault>
    requires { conn.old.in_transaction ≡ false }
    ensures mode { conn.new.in_transaction ≡ false }
    ensures current { HasCleanDisk (state S.Store conn.new)
        → TellsSchema this_schema (state S.Store conn.old).now
        → (state S.Store conn.old).now.schema ≡ store_schema
        → AnswersOrFails (Ok Migration.AlreadyCurrent) result }
    ensures another { HasCleanDisk (state S.Store conn.new)
        → (number : ℕ) → TellsSchema number (state S.Store conn.old).now → number ≢ this_schema
        → AnswersOrFails (Err (OpenFault.WrongVersion number)) result }
    ensures other { HasCleanDisk (state S.Store conn.new)
        → HasOtherLayout (state S.Store conn.old).now → AnswersOrFails (Err other_layout) result }
    ensures version { HasCleanDisk (state S.Store conn.new)
        → (number : ℕ) → TellsSchema number (state S.Store conn.old).now
        → IfErr result (IsWrong this_schema number) }
    ensures empty { HasCleanDisk (state S.Store conn.new)
        → TellsNoNumber (state S.Store conn.old).now
        → AnswersOrFails (Err (OpenFault.WrongVersion 0)) result }
    ensures below_zero { HasCleanDisk (state S.Store conn.new)
        → IsBelowZero (state S.Store conn.old).now
        → AnswersOrFails (Err (OpenFault.Failed (Fault.Store StoreCause.Row))) result }
    ensures cause { HasCleanDisk (state S.Store conn.new)
        → TellsNumberOrNone (state S.Store conn.old).now
        → IfErr result (λ fault. (why : Fault) → fault ≡ OpenFault.Failed why → IsOfDisk why) }
    // A store is current only where its number, its tables and its indexes are just those of ours.
    ensures only_this { HasCleanDisk (state S.Store conn.new)
        → (number : ℕ) → TellsSchema number (state S.Store conn.old).now
        → OnOk result (number ≡ this_schema) }
    ensures only_ours { OnOk result ((state S.Store conn.old).now.schema ≡ store_schema) }
    ensures open { HasCleanDisk (state S.Store conn.new)
        → OnOk result (IsTrue (state S.Store conn.new).is_open) }
    ensures still { HasCleanDisk (state S.Store conn.new)
        → IsTrue (state S.Store conn.new).is_open
        → IsStill (state S.Store conn.old) (state S.Store conn.new) }
    ensures survives { Survives (state S.Store conn.old) (state S.Store conn.new) (λ _. ⊥) }
    ensures clean { HasCleanDisk (state S.Store conn.new) → HasCleanDisk (state S.Store conn.old) }
{
    let ours = has_this_layout(conn.schema());
    let number = version(conn)?;
    current_if(number, ours)
}

// A database of this number is current where it is our number, and its layout is ours.
fn current_if(number: u64, ours: bool) -> Result<Migration, OpenFault>
    ensures current { number ≡ this_schema → ours ≡ true → result ≡ Ok Migration.AlreadyCurrent }
    ensures another { number ≢ this_schema → result ≡ Err (OpenFault.WrongVersion number) }
    ensures other { number ≡ this_schema → ours ≡ false → result ≡ Err other_layout }
    ensures version { IfErr result (IsWrong this_schema number) }
    ensures cause { IfErr result (λ fault. (why : Fault) → fault ≡ OpenFault.Failed why
        → IsOfDisk why) }
    ensures only_this { OnOk result (number ≡ this_schema) }
    ensures only_ours { OnOk result (IsTrue ours) }
{
    if number != SCHEMA {
        return Err(OpenFault::WrongVersion(number));
    }
    if ours {
        Ok(Migration::AlreadyCurrent)
    } else {
        Err(OpenFault::Failed(Fault::Store(StoreCause::Other)))
    }
}
