//! What is counted of rows of a table that a query gives one at a time, outside of a transaction.
ghost use Rattle.std.specs.Prelude.{◌≡◌, List, None, IfErr, IfOk};
ghost use Rattle.std.specs.Iterator.{YieldsThen};
ghost use Rattle.clear_texts.specs.Rows.{IsCutOffAdding};
ghost use Rattle.clear_reading.specs.Reader.{AreAddable, Tells};

use crate::stored::StoredRows;
use clear_columns::rows::StoredTable;
use clear_schema::fault::Fault;
use clear_texts::rows::RowSource;
use clear_values::causes::StoreCause;
use sqlite::{Alter, Rows};
use std::marker::PhantomData;

/// What is counted of the rows of a table, one after another.
pub(crate) trait Tally {
    ghost use Rattle.std.specs.Prelude.{◌≡◌, ◌<◌, ◌≤◌, ◌-◌, ◌^◌, ◌++◌, [], ◌∷◌, ℕ, List, None};
    ghost use Rattle.std.specs.Prelude.{IfSome, length, sum_by};

    /// The table whose rows are counted.
    type Table: StoredTable;

    /// What is counted of them.
    type Count: Copy;

    /// The count of rows.
    ghost counted: { List Self.Table.Row → Self.Count };

    /// What is added up of each row.
    ghost amount: { Self.Table.Row → ℕ };

    /// The count of no rows.
    fn none() -> Self::Count
        ensures none { result ≡ counted [] };

    /// The count with one row more. None where the amounts come to 2^64 or more.
    fn with(count: Self::Count, row: &<Self::Table as StoredTable>::Row) -> Option<Self::Count>
        requires few { (before : List Self.Table.Row) × (count ≡ counted before)
            × (length before < 2 ^ 64 - 1) }
        ensures more { IfSome result (λ more. (before : List Self.Table.Row)
            → count ≡ counted before → more ≡ counted (before ++ row.now ∷ [])) }
        ensures much { result ≡ None → (before : List Self.Table.Row)
            → count ≡ counted before → 2 ^ 64 ≤ sum_by amount (before ++ row.now ∷ []) };
}

/// The count of what a query for rows of a table still has to give.
pub(crate) fn count_rows<T: Tally, S: Alter>(rows: &mut Rows<'_, S>) -> Result<T::Count, Fault>
    ensures same_reference { rows.new.conn.ghost_name ≡ rows.old.conn.ghost_name }
    ensures tells { Tells S.Store T.Table.shown rows.old.conn.now rows.new.conn.now T.counted
        (AreAddable T.Table.is_in_range T.amount) result }
{
    let mut source = StoredRows::<S, T::Table> {
        rows,
        table: PhantomData,
    };
    count_source::<T, S>(&mut source)
}

// The count of what the reader still has to give.
fn count_source<T: Tally, S: Alter>(
    source: &mut StoredRows<'_, '_, S, T::Table>,
) -> Result<T::Count, Fault>
    ensures same_reference { source.new.rows.ghost_name ≡ source.old.rows.ghost_name }
    ensures same_connection { source.new.rows.now.conn.ghost_name
        ≡ source.old.rows.now.conn.ghost_name }
    ensures tells { Tells S.Store T.Table.shown
        source.old.rows.now.conn.now source.new.rows.now.conn.now T.counted
        (AreAddable T.Table.is_in_range T.amount) result }
{
    count_all::<T, StoredRows<'_, '_, S, T::Table>>(source)
}

// The count of all rows that the source gives up to its end. 2^64 - 1 or more find no memory.
fn count_all<T: Tally, R: RowSource<Row = <T::Table as StoredTable>::Row>>(
    rows: &mut R,
) -> Result<T::Count, Fault>
    ensures counted { IfOk result (λ count. (given : List T.Table.Row)
        × YieldsThen R.next_gives rows.old given None rows.new × (count ≡ T.counted given)) }
    ensures refused { IfErr result (λ fault.
        IsCutOffAdding R.next_gives R.next_refuses T.amount rows.old fault rows.new) }
{
    let mut count = T::none();
    for _turn in 0..u64::MAX {
        match rows.next()? {
            Some(row) => {
                count = match T::with(count, &row) {
                    Some(more) => more,
                    None => return Err(Fault::Store(StoreCause::Row)),
                }
            }
            None => return Ok(count),
        }
    }
    Err(Fault::Memory)
}

/// How many rows of a table there are.
pub(crate) struct AllRows<T> {
    table: PhantomData<T>,
}

impl<T: StoredTable> Tally for AllRows<T> {
    ghost use Rattle.std.specs.Prelude.{length};

    type Table = T;

    type Count = u64;

    ghost counted = { length };

    ghost amount = { λ row. 0 };

    fn none() -> u64 {
        0
    }

    fn with(count: u64, _row: &T::Row) -> Option<u64> {
        Some(count + 1)
    }
}
