//! Rows of the office's types out of the rows of an answer.
ghost use Rattle.std.specs.Borrow.{sem, RestsIfErr};
ghost use Rattle.std.specs.List.{AllByRecursion};
ghost use Rattle.std.specs.Prelude.{◌≡◌, ◌≢◌, List, Some, map, slice_get};
ghost use Rattle.std.specs.Prelude.{IfErr, IfOk, IfSome};
ghost use Rattle.sqlite.specs.Given.{IsPlain};
ghost use Rattle.sqlite.specs.Held.{state};
ghost use Rattle.sqlite.specs.Listing.{understood};
ghost use Rattle.sqlite.specs.Values.{bound};
ghost use Rattle.sqlite.specs.contracts.connection.Connection.{the_row};
ghost use Rattle.clear_schema.specs.Frame.{AnswersJust};
ghost use Rattle.clear_columns.specs.Reading.{Advances, Begun, IsLeft};

use clear_schema::fault::{Fault, fault_of};
use clear_values::causes::StoreCause;
use sqlite::{Alter, Connection, Error, Row, Rows};
use sqlite_value::value::ValueRef;
use std::alloc::Global;

/// A table of the store, by how the rows that a query shows are read.
pub trait StoredTable {
    ghost use Rattle.std.specs.Prelude.{◌≡◌};
    ghost use Rattle.sqlite.specs.Order.{Row as Columns};

    /// A row of the table.
    type Row: Drop;

    /// What a query shows of a row, column by column.
    ghost shown: { Self.Row → Columns };

    /// Each value of the row lies in its type's range.
    ghost is_in_range: { Self.Row → Type 0 };

    /// The row of which a query shows this. A value that is out of its type's range is
    /// `Fault::Store(StoreCause::Row)`.
    fn read(row: &Row) -> Result<Self::Row, Fault>
        ensures read { IfOk result (λ r. (x : Self.Row) → row.now ≡ shown x → r ≡ x) }
        ensures good { IfOk result is_in_range }
        ensures cause { IfErr result (λ fault. fault ≢ Fault.Store StoreCause.Constraint) }
        ensures range { IfErr result (λ fault. fault ≡ Fault.Store StoreCause.Row
            → (x : Self.Row) → row.now ≡ shown x → ¬ is_in_range x) };
}

/// The first row of an answer, if it has any.
pub fn first_row<T: StoredTable>(rows: &[Row]) -> Result<Option<T::Row>, Fault>
    ensures read { IfOk result (λ found. (xs : List T.Row)
        → rows.now ≡ map T.shown xs → found ≡ slice_get xs 0) }
    ensures good { IfOk result (λ found. IfSome found T.is_in_range) }
    ensures cause { IfErr result (λ fault. fault ≢ Fault.Store StoreCause.Constraint) }
    ensures range { IfErr result (λ fault. fault ≡ Fault.Store StoreCause.Row
        → (xs : List T.Row) → rows.now ≡ map T.shown xs
        → (x : T.Row) × (slice_get xs 0 ≡ Some x) × ¬ T.is_in_range x) }
{
    match rows.first() {
        Some(row) => Ok(Some(T::read(row)?)),
        None => Ok(None),
    }
}

/// All rows of an answer, in its order.
pub fn all_rows<T: StoredTable>(alloc: Global, rows: &[Row]) -> Result<Vec<T::Row>, Fault>
    ensures read { IfOk result (λ found. (xs : List T.Row)
        → rows.now ≡ map T.shown xs → found.items ≡ xs) }
    ensures good { IfOk result (λ found. AllByRecursion T.is_in_range found.items) }
    ensures cause { IfErr result (λ fault. fault ≢ Fault.Store StoreCause.Constraint) }
    ensures range { IfErr result (λ fault. fault ≡ Fault.Store StoreCause.Row
        → (xs : List T.Row) → rows.now ≡ map T.shown xs → ¬ AllByRecursion T.is_in_range xs) }
{
    let mut found = Vec::new(alloc);
    for row in rows {
        let read = T::read(row)?;
        found.push(read)?;
    }
    Ok(found)
}

/// Begins a query whose rows `next_row` reads one at a time. The rows may be dropped at any of them.
pub fn begin_rows<'a, T: StoredTable, S: Alter>(
    conn: &'a mut Connection<S>,
    sql: &str,
    values: &[ValueRef<'_>],
) -> Result<Rows<'a, S>, Error>
    ensures* refused { sem 𝓛 (RestsIfErr (the_row S.row S.Store) conn.entry
        (λ rows. rows.conn.ghost_name) result
        (IsLeft S.Store conn.old (IsPlain (understood conn.old.schema sql.now)) result)) }
    ensures same_reference { IfOk result (λ rows. rows.conn.ghost_name ≡ conn.entry.ghost_name) }
    ensures begun { IfOk result (λ rows. Begun S.Store conn.old rows.conn.now
        (IsPlain (understood conn.old.schema sql.now))
        (λ all. AnswersJust S.Store sql.now (bound values.now)
        (state S.Store conn.old).now (map T.shown all)) T.shown (λ all. all)) }
{
    conn.query(sql, values)
}

/// The next row, and none past the last. One that is out of its range is
/// `Fault::Store(StoreCause::Row)`; of the rows behind it nothing is said.
pub fn next_row<T: StoredTable, S: Alter>(rows: &mut Rows<'_, S>) -> Result<Option<T::Row>, Fault>
    ensures same_reference { rows.new.conn.ghost_name ≡ rows.old.conn.ghost_name }
    ensures advances { Advances S.Store rows.old.conn.now rows.new.conn.now T.shown T.is_in_range
        result }
{
    if let Err(error) = rows.advance() {
        return Err(fault_of(error));
    }
    match rows.get() {
        Some(row) => Ok(Some(T::read(row)?)),
        None => Ok(None),
    }
}
