//! Offices over stores that are just made, whatever keeps them.
ghost use Rattle.std.specs.Prelude.{◌≡◌, false, IfErr, IfOk, IsTrue, OnOk};
ghost use Rattle.sqlite.specs.Held.{state};
ghost use Rattle.sqlite.specs.State.{HasCleanDisk};
ghost use Rattle.clear_book.specs.Book.{first_book};
ghost use Rattle.clear_database.specs.First.{first_tables};
ghost use Rattle.clear_database.specs.Outcomes.{RefusesToCreate};
ghost use Rattle.clear_database.specs.Still.{Holds};
ghost use Rattle.clear_schema.specs.Schema.{no_schema};
ghost use Rattle.clear_office.specs.Office.{IsHonest, Keeps};

use crate::office::Office;
use clear_database::store::{Refusal, Store};
use clear_money::rates::RateTable;
use sqlite::{Alter, Connection};
use std::alloc::Global;

/// Makes a store without requests, with these opening rates, in an empty database, and an office
/// over it. The connection stands in no transaction. A database that has a table, an index or a view is
/// refused: where it tells the number of a schema, by `WrongVersion` with that one. A refusal hands the
/// connection back, and leaves any database as it was.
pub fn make_office<S: Alter>(
    alloc: Global,
    connection: Connection<S>,
    rates: &RateTable,
) -> Result<Office<S>, Refusal<S>>
    requires { connection.in_transaction ≡ false }
    ensures working { IfOk result (λ office. office.failed ≡ false) }
    ensures clean { IfOk result (λ office. IsHonest S.Store office
        → HasCleanDisk (state S.Store connection)) }
    ensures only_empty { OnOk result ((state S.Store connection).now.schema ≡ no_schema) }
    ensures created { IfOk result (λ office. IsHonest S.Store office
        → Holds S.Store office.conn (first_tables rates.now)) }
    ensures keeps { IfOk result (λ office. IsHonest S.Store office
        → Keeps S.Store office (first_book rates.now)) }
    ensures open { IfOk result (λ office. IsHonest S.Store office
        → IsTrue (state S.Store office.conn).is_open) }
    ensures mode_left { IfErr result (λ left. left.connection.in_transaction ≡ false) }
    ensures refused { IfErr result (λ left. RefusesToCreate rates.now
        (state S.Store connection) left.fault (state S.Store left.connection)) }
{
    let store = Store::create(connection, rates)?;
    Ok(Office::open(alloc, store))
}
