//! The payout lists, by their numbers.
ghost use Rattle.std.specs.Borrow.{sem, RestsIfErr};
ghost use Rattle.std.specs.Option.{option_to_list};
ghost use Rattle.std.specs.Prelude.{◌≡◌, ◌↔◌, [], ◌∷◌, true, IfOk};
ghost use Rattle.sqlite.specs.Values.{bound};
ghost use Rattle.sqlite.specs.contracts.connection.Connection.{the_row};
ghost use Rattle.clear_values.specs.Keyed.{find_row, is_held, with_row};
ghost use Rattle.clear_values.specs.RowRanges.{IsListRow};
ghost use Rattle.clear_values.specs.Tables.{list_key};
ghost use Rattle.clear_columns.specs.Reading.{IsLeftOn, ReadsOn};
ghost use Rattle.clear_schema.specs.Values.{list_shown};
ghost use Rattle.clear_schema.specs.Frame.{Finds, Writes};

use clear_columns::columns::{day_at, list_at, number_at};
use clear_columns::parameters::{day, list_no};
use clear_columns::queries::find;
use clear_columns::ranges::is_listed;
use clear_columns::rows::{StoredTable, begin_rows};
use clear_schema::fault::Fault;
use clear_schema::statement::put;
use clear_schema::values::number;
use clear_values::causes::StoreCause;
use clear_values::numbers::ListNo;
use clear_values::rows::ListRow;
use sqlite::{Alter, Connection, Error, Row, Rows, Transaction};
use sqlite_value::value::ValueRef;

// The payout list of a number.
const LIST: &str = "SELECT no, day, items, total FROM lists WHERE no = ?1";

/// Adds a payout list whose number is free. Counts of claims and cents that no list can have are
/// refused with `Fault::Store(StoreCause::Row)`, and nothing is done.
pub fn insert_list<S: Alter>(tx: &mut Transaction<'_, S>, row: &ListRow) -> Result<(), Fault>
    ensures same_reference { tx.new.conn.ghost_name ≡ tx.old.conn.ghost_name }
    ensures writes { Writes S.Store tx.old.conn.now tx.new.conn.now result (IsListRow row.now)
        (λ t. is_held list_key row.now t.lists)
        (λ t. record t { lists = with_row list_key t.lists row.now }) }
{
    if !is_list_row(row) {
        return Err(Fault::Store(StoreCause::Row));
    }
    put(
        tx,
        "INSERT INTO lists (no, day, items, total) VALUES (?1, ?2, ?3, ?4)",
        &list_values(row),
    )
}

/// The payout list of a number.
pub fn find_list<S: Alter>(
    tx: &mut Transaction<'_, S>,
    list: ListNo,
) -> Result<Option<ListRow>, Fault>
    ensures same_reference { tx.new.conn.ghost_name ≡ tx.old.conn.ghost_name }
    ensures looks { Finds S.Store tx.old.conn.now tx.new.conn.now result IsListRow
        (λ t. find_row list_key t.lists (list ∷ [])) }
{
    find::<S, Lists>(tx, LIST, &[list_no(list)])
}

/// The payout list of a number, whether a list can have that or not, as the one row of a query, if
/// there is one: `next_row` reads it.
pub fn read_list<S: Alter>(conn: &mut Connection<S>, list: u32) -> Result<Rows<'_, S>, Error>
    ensures* refused { sem 𝓛 (RestsIfErr (the_row S.row S.Store) conn.entry
        (λ rows. rows.conn.ghost_name) result (IsLeftOn S.Store conn.old result)) }
    ensures same_reference { IfOk result (λ rows. rows.conn.ghost_name ≡ conn.entry.ghost_name) }
    ensures begun { IfOk result (λ rows. ReadsOn S.Store conn.old rows.conn.now list_shown
        (λ t. option_to_list (find_row list_key t.lists (list ∷ [])))) }
{
    begin_rows::<Lists, S>(conn, LIST, &[number(u64::from(list))])
}

/// The table of payout lists.
pub struct Lists;

impl StoredTable for Lists {
    type Row = ListRow;

    ghost shown = { list_shown };

    ghost is_in_range = { IsListRow };

    fn read(row: &Row) -> Result<ListRow, Fault> {
        let list = ListRow {
            list: list_at(row, 0)?,
            day: day_at(row, 1)?,
            items: number_at(row, 2)?,
            total: number_at(row, 3)?,
        };
        if !is_list_row(&list) {
            return Err(Fault::Store(StoreCause::Row));
        }
        Ok(list)
    }
}

// Whether the numbers of a list are in their ranges.
fn is_list_row(row: &ListRow) -> bool
    ensures { (result ≡ true) ↔ IsListRow row.now }
{
    // A proof reads the range of the day from its type.
    let _day = row.day.number();
    is_listed(row.list, row.items, row.total)
}

// The parameters of a statement that writes a row.
fn list_values(row: &ListRow) -> [ValueRef<'static>; 4]
    requires { IsListRow row.now }
    ensures { bound result ≡ list_shown row.now }
{
    [
        list_no(row.list),
        day(row.day),
        number(row.items),
        number(row.total),
    ]
}
