//! The table of wages: the lines of each month's latest report.
ghost use Rattle.std.specs.Prelude.{◌≡◌, ◌≤◌, ◌==◌, ◌↔◌, false, filter, length, IsTrue};
ghost use Rattle.std.specs.List.{AllByRecursion};
ghost use Rattle.sqlite.specs.Values.{bound};
ghost use Rattle.clear_values.specs.Keyed.{is_held, with_row, with_rows, without_rows};
ghost use Rattle.clear_values.specs.Limits.{most_gross};
ghost use Rattle.clear_values.specs.RowRanges.{IsWageRow};
ghost use Rattle.clear_values.specs.Tables.{is_wage_key_of, wage_key, wage_rows};
ghost use Rattle.clear_schema.specs.Frame.{Lists, Writes};
ghost use Rattle.clear_schema.specs.Values.{wage_shown};
ghost use Rattle.clear_columns.specs.Keys.{are_held};
ghost use Rattle.clear_firms.specs.Shown.{lines_given};

use crate::parameters::month_values;
use clear_columns::columns::{employer_at, gross_at, month_at, worker_at};
use clear_columns::parameters::{employer, worker as person};
use clear_columns::queries::list;
use clear_columns::ranges::is_gross;
use clear_columns::rows::StoredTable;
use clear_money::months::Month;
use clear_money::numbers::{EmployerNo, WorkerNo};
use clear_schema::fault::Fault;
use clear_schema::statement::put;
use clear_schema::values::{month, number};
use clear_values::causes::StoreCause;
use clear_values::rows::WageRow;
use clear_values::texts::WageLine;
use sqlite::{Alter, Row, Transaction};
use sqlite_value::value::ValueRef;

/// Adds a worker's line of a month. A gross amount above 10,000,000 cents is refused with
/// `Fault::Store(StoreCause::Row)`, and nothing is done.
pub fn insert_wage<S: Alter>(tx: &mut Transaction<'_, S>, row: WageRow) -> Result<(), Fault>
    ensures same_reference { tx.new.conn.ghost_name ≡ tx.old.conn.ghost_name }
    ensures writes { Writes S.Store tx.old.conn.now tx.new.conn.now result
        (row.gross ≤ most_gross) (λ t. is_held wage_key row t.wages)
        (λ t. record t { wages = with_row wage_key t.wages row }) }
{
    if !is_gross(row.gross) {
        return Err(Fault::Store(StoreCause::Row));
    }
    put(
        tx,
        "INSERT INTO wages (employer, month, worker, gross) VALUES (?1, ?2, ?3, ?4)",
        &wage_values(&row),
    )
}

/// Adds ten workers' lines of a month by one statement. Where a gross amount is above 10,000,000 cents, it is
/// refused with `Fault::Store(StoreCause::Row)`, and nothing is done.
pub fn insert_ten_wages<S: Alter>(
    tx: &mut Transaction<'_, S>,
    no: EmployerNo,
    at: Month,
    lines: &[WageLine],
) -> Result<(), Fault>
    requires ten { length lines.now ≡ 10 }
    ensures same_reference { tx.new.conn.ghost_name ≡ tx.old.conn.ghost_name }
    ensures writes { Writes S.Store tx.old.conn.now tx.new.conn.now result
        (AllByRecursion (λ line. line.gross ≤ most_gross) lines.now)
        (λ t. are_held (is_held wage_key) wage_key (wage_rows no at lines.now) t.wages)
        (λ t. record t { wages = with_rows wage_key t.wages (wage_rows no at lines.now) }) }
{
    if !are_gross(lines) {
        return Err(Fault::Store(StoreCause::Row));
    }
    put(
        tx,
        "INSERT INTO wages (employer, month, worker, gross) VALUES \
         (?1, ?2, ?3, ?4), (?1, ?2, ?5, ?6), (?1, ?2, ?7, ?8), (?1, ?2, ?9, ?10), \
         (?1, ?2, ?11, ?12), (?1, ?2, ?13, ?14), (?1, ?2, ?15, ?16), (?1, ?2, ?17, ?18), \
         (?1, ?2, ?19, ?20), (?1, ?2, ?21, ?22)",
        &ten_values(no, at, lines),
    )
}

/// Takes out the lines of a firm's month.
pub fn delete_wages<S: Alter>(
    tx: &mut Transaction<'_, S>,
    no: EmployerNo,
    at: Month,
) -> Result<(), Fault>
    ensures same_reference { tx.new.conn.ghost_name ≡ tx.old.conn.ghost_name }
    ensures writes { Writes S.Store tx.old.conn.now tx.new.conn.now result (Unit {0}) (λ _. false)
        (λ t. record t { wages = without_rows wage_key (is_wage_key_of no at) t.wages }) }
{
    put(
        tx,
        "DELETE FROM wages WHERE employer = ?1 AND month = ?2",
        &month_values(no, at),
    )
}

/// The lines of a worker in the latest reports, by firm and month.
pub fn worker_wages<S: Alter>(
    tx: &mut Transaction<'_, S>,
    worker: WorkerNo,
) -> Result<Vec<WageRow>, Fault>
    ensures same_reference { tx.new.conn.ghost_name ≡ tx.old.conn.ghost_name }
    ensures looks { Lists S.Store tx.old.conn.now tx.new.conn.now result IsWageRow
        (λ t. filter (λ row. row.worker == worker) t.wages) }
{
    list::<S, Wages>(
        tx,
        "SELECT employer, month, worker, gross FROM wages WHERE worker = ?1 \
         ORDER BY employer, month",
        &[person(worker)],
    )
}

/// The table of wages.
pub struct Wages;

impl StoredTable for Wages {
    type Row = WageRow;

    ghost shown = { wage_shown };

    ghost is_in_range = { IsWageRow };

    fn read(row: &Row) -> Result<WageRow, Fault> {
        Ok(WageRow {
            employer: employer_at(row, 0)?,
            month: month_at(row, 1)?,
            worker: worker_at(row, 2)?,
            gross: gross_at(row, 3)?,
        })
    }
}

// What a statement is given of a row.
fn wage_values(row: &WageRow) -> [ValueRef<'static>; 4]
    requires { row.now.gross ≤ most_gross }
    ensures { bound result ≡ wage_shown row.now }
{
    [
        employer(row.employer),
        month(row.month),
        person(row.worker),
        number(row.gross),
    ]
}

// Whether each gross amount can be that of a line.
fn are_gross(lines: &[WageLine]) -> bool
    ensures { IsTrue result ↔ AllByRecursion (λ line. line.gross ≤ most_gross) lines.now }
{
    lines.iter().all(|line| is_gross(line.gross))
}

// What the statement of ten lines is given.
fn ten_values(no: EmployerNo, at: Month, lines: &[WageLine]) -> [ValueRef<'static>; 22]
    requires ten { length lines.now ≡ 10 }
    requires in_range { AllByRecursion (λ line. line.gross ≤ most_gross) lines.now }
    ensures { bound result ≡ lines_given no at lines.now }
{
    match lines {
        [a, b, c, d, e, f, g, h, i, j] => [
            employer(no),
            month(at),
            person(a.worker),
            number(a.gross),
            person(b.worker),
            number(b.gross),
            person(c.worker),
            number(c.gross),
            person(d.worker),
            number(d.gross),
            person(e.worker),
            number(e.gross),
            person(f.worker),
            number(f.gross),
            person(g.worker),
            number(g.gross),
            person(h.worker),
            number(h.gross),
            person(i.worker),
            number(i.gross),
            person(j.worker),
            number(j.gross),
        ],
        _ => unreachable!(),
    }
}
