//! The reminder runs, by their numbers.
ghost use Rattle.std.specs.Borrow.{sem, RestsIfErr};
ghost use Rattle.std.specs.Option.{option_to_list};
ghost use Rattle.std.specs.Prelude.{◌≡◌, ◌↔◌, [], ◌∷◌, true, IfOk};
ghost use Rattle.sqlite.specs.Values.{bound};
ghost use Rattle.sqlite.specs.contracts.connection.Connection.{the_row};
ghost use Rattle.clear_values.specs.Keyed.{find_row, is_held, with_row};
ghost use Rattle.clear_values.specs.RowRanges.{IsRunRow};
ghost use Rattle.clear_values.specs.Tables.{run_key};
ghost use Rattle.clear_columns.specs.Reading.{IsLeftOn, ReadsOn};
ghost use Rattle.clear_schema.specs.Values.{run_shown};
ghost use Rattle.clear_schema.specs.Frame.{Finds, Writes};

use clear_columns::columns::{day_at, number_at, run_at};
use clear_columns::parameters::{day, run_no};
use clear_columns::queries::find;
use clear_columns::ranges::is_reminded;
use clear_columns::rows::{StoredTable, begin_rows};
use clear_schema::fault::Fault;
use clear_schema::statement::put;
use clear_schema::values::number;
use clear_values::causes::StoreCause;
use clear_values::numbers::RunNo;
use clear_values::rows::RunRow;
use sqlite::{Alter, Connection, Error, Row, Rows, Transaction};
use sqlite_value::value::ValueRef;

// The reminder run of a number.
const RUN: &str = "SELECT no, day, firms FROM runs WHERE no = ?1";

/// Adds a reminder run whose number is free. A count of firms that no run can have is refused with
/// `Fault::Store(StoreCause::Row)`, and nothing is done.
pub fn insert_run<S: Alter>(tx: &mut Transaction<'_, S>, row: &RunRow) -> Result<(), Fault>
    ensures same_reference { tx.new.conn.ghost_name ≡ tx.old.conn.ghost_name }
    ensures writes { Writes S.Store tx.old.conn.now tx.new.conn.now result (IsRunRow row.now)
        (λ t. is_held run_key row.now t.runs)
        (λ t. record t { runs = with_row run_key t.runs row.now }) }
{
    if !is_run_row(row) {
        return Err(Fault::Store(StoreCause::Row));
    }
    put(
        tx,
        "INSERT INTO runs (no, day, firms) VALUES (?1, ?2, ?3)",
        &run_values(row),
    )
}

/// The reminder run of a number.
pub fn find_run<S: Alter>(tx: &mut Transaction<'_, S>, run: RunNo) -> Result<Option<RunRow>, Fault>
    ensures same_reference { tx.new.conn.ghost_name ≡ tx.old.conn.ghost_name }
    ensures looks { Finds S.Store tx.old.conn.now tx.new.conn.now result IsRunRow
        (λ t. find_row run_key t.runs (run ∷ [])) }
{
    find::<S, Runs>(tx, RUN, &[run_no(run)])
}

/// The reminder run of a number, whether a run can have that or not, as the one row of a query, if
/// there is one: `next_row` reads it.
pub fn read_run<S: Alter>(conn: &mut Connection<S>, run: u32) -> Result<Rows<'_, S>, Error>
    ensures* refused { sem 𝓛 (RestsIfErr (the_row S.row S.Store) conn.entry
        (λ rows. rows.conn.ghost_name) result (IsLeftOn S.Store conn.old result)) }
    ensures same_reference { IfOk result (λ rows. rows.conn.ghost_name ≡ conn.entry.ghost_name) }
    ensures begun { IfOk result (λ rows. ReadsOn S.Store conn.old rows.conn.now run_shown
        (λ t. option_to_list (find_row run_key t.runs (run ∷ [])))) }
{
    begin_rows::<Runs, S>(conn, RUN, &[number(u64::from(run))])
}

/// The table of reminder runs.
pub struct Runs;

impl StoredTable for Runs {
    type Row = RunRow;

    ghost shown = { run_shown };

    ghost is_in_range = { IsRunRow };

    fn read(row: &Row) -> Result<RunRow, Fault> {
        let run = RunRow {
            run: run_at(row, 0)?,
            day: day_at(row, 1)?,
            firms: number_at(row, 2)?,
        };
        if !is_run_row(&run) {
            return Err(Fault::Store(StoreCause::Row));
        }
        Ok(run)
    }
}

// Whether the numbers of a run are in their ranges.
fn is_run_row(row: &RunRow) -> bool
    ensures { (result ≡ true) ↔ IsRunRow row.now }
{
    // A proof reads the range of the day from its type.
    let _day = row.day.number();
    is_reminded(row.run, row.firms)
}

// The parameters of a statement that writes a row.
fn run_values(row: &RunRow) -> [ValueRef<'static>; 3]
    requires { IsRunRow row.now }
    ensures { bound result ≡ run_shown row.now }
{
    [run_no(row.run), day(row.day), number(row.firms)]
}
