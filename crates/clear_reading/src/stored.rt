//! The rows of a table that a query shows, one at a time.
ghost use Rattle.std.specs.List.{AllByRecursion};
ghost use Rattle.std.specs.Prelude.{◌≡◌, slice_get};
ghost use Rattle.clear_reading.specs.Reader.{Tells};

use clear_columns::rows::{StoredTable, next_row};
use clear_schema::fault::Fault;
use clear_texts::rows::RowSource;
use sqlite::{Alter, Rows};
use std::marker::PhantomData;

/// The rows of a query for rows of a table.
#[derive(Drop)]
pub struct StoredRows<'a, 'conn, S: Alter, T> {
    pub(crate) rows: &'a mut Rows<'conn, S>,
    pub(crate) table: PhantomData<T>,
}

impl<S: Alter, T: StoredTable> RowSource for StoredRows<'_, '_, S, T> {
    ghost use Rattle.clear_reading.specs.Source.{Gives, Refuses};

    type Row = T::Row;

    ghost next_gives = { Gives S.Store T.shown T.is_in_range };

    ghost next_refuses = { Refuses S.Store T.shown T.is_in_range };

    fn next(&mut self) -> Result<Option<T::Row>, Fault> {
        next_row::<T, S>(self.rows)
    }
}

/// The first row that a query for rows of a table still has to give, if there is one.
pub(crate) fn first_row<T: StoredTable, S: Alter>(
    rows: &mut Rows<'_, S>,
) -> Result<Option<T::Row>, Fault>
    ensures same_reference { rows.new.conn.ghost_name ≡ rows.old.conn.ghost_name }
    ensures tells { Tells S.Store T.shown rows.old.conn.now rows.new.conn.now
        (λ rest. slice_get rest 0) (AllByRecursion T.is_in_range) result }
{
    next_row::<T, S>(rows)
}
