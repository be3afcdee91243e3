//! Queries of one table: what is found, and that nothing changes.
ghost use Rattle.std.specs.Prelude.{◌≡◌};
ghost use Rattle.sqlite.specs.Values.{bound};
ghost use Rattle.clear_schema.specs.Frame.{CountsAll, FindsFirst, ListsAll};

use crate::rows::{StoredTable, all_rows, first_row};
use clear_schema::fault::Fault;
use clear_schema::statement::look;
use sqlite::{Alter, Transaction};
use sqlite_value::value::ValueRef;

/// The first row that a query of one table answers, if it answers any.
pub fn find<S: Alter, T: StoredTable>(
    tx: &mut Transaction<'_, S>,
    sql: &str,
    values: &[ValueRef<'_>],
) -> Result<Option<T::Row>, Fault>
    ensures same_reference { tx.new.conn.ghost_name ≡ tx.old.conn.ghost_name }
    ensures looks { FindsFirst S.Store tx.old.conn.now tx.new.conn.now T.shown T.is_in_range
        sql.now (bound values.now) result }
{
    let rows = look(tx, sql, values)?;
    first_row::<T>(&rows)
}

/// All rows that a query of one table answers, in its order.
pub fn list<S: Alter, T: StoredTable>(
    tx: &mut Transaction<'_, S>,
    sql: &str,
    values: &[ValueRef<'_>],
) -> Result<Vec<T::Row>, Fault>
    ensures same_reference { tx.new.conn.ghost_name ≡ tx.old.conn.ghost_name }
    ensures looks { ListsAll S.Store tx.old.conn.now tx.new.conn.now T.shown T.is_in_range
        sql.now (bound values.now) result }
{
    let rows = look(tx, sql, values)?;
    all_rows::<T>(*rows.allocator(), &rows)
}

/// How many rows a query of one table answers.
pub fn count<S: Alter>(
    tx: &mut Transaction<'_, S>,
    sql: &str,
    values: &[ValueRef<'_>],
) -> Result<u64, Fault>
    ensures same_reference { tx.new.conn.ghost_name ≡ tx.old.conn.ghost_name }
    ensures looks { CountsAll S.Store tx.old.conn.now tx.new.conn.now
        sql.now (bound values.now) result }
{
    let rows = look(tx, sql, values)?;
    Ok(rows.len() as u64)
}
