//! The table of reports: the version of each month's latest report.
ghost use Rattle.std.specs.Borrow.{sem, RestsIfErr};
ghost use Rattle.std.specs.List.{last_or};
ghost use Rattle.std.specs.Prelude.{◌≡◌, ◌≤◌, ◌==◌, [], ◌∷◌, None, false, filter, IfOk};
ghost use Rattle.sqlite.specs.Values.{bound};
ghost use Rattle.sqlite.specs.contracts.connection.Connection.{the_row};
ghost use Rattle.clear_values.specs.Keyed.{find_row, is_held, replaced, with_row};
ghost use Rattle.clear_values.specs.Limits.{most_versions};
ghost use Rattle.clear_values.specs.RowRanges.{IsReportRow};
ghost use Rattle.clear_values.specs.Tables.{report_key};
ghost use Rattle.clear_schema.specs.Frame.{Finds, Lists, Writes};
ghost use Rattle.clear_columns.specs.Reading.{IsLeftOn, ReadsOn};
ghost use Rattle.clear_schema.specs.Values.{report_shown};

use crate::parameters::month_values;
use clear_columns::columns::{employer_at, month_at, version_at};
use clear_columns::parameters::employer;
use clear_columns::queries::{find, list};
use clear_columns::ranges::is_version;
use clear_columns::rows::{StoredTable, begin_rows};
use clear_money::months::Month;
use clear_money::numbers::EmployerNo;
use clear_schema::fault::Fault;
use clear_schema::statement::put;
use clear_schema::values::{month, number};
use clear_values::causes::StoreCause;
use clear_values::rows::ReportRow;
use sqlite::{Alter, Connection, Error, Row, Rows, Transaction};
use sqlite_value::value::ValueRef;

/// Adds the first report of a month. A version out of 1 to 10,000 is refused with
/// `Fault::Store(StoreCause::Row)`, and nothing is done.
pub fn insert_report<S: Alter>(tx: &mut Transaction<'_, S>, row: ReportRow) -> Result<(), Fault>
    ensures same_reference { tx.new.conn.ghost_name ≡ tx.old.conn.ghost_name }
    ensures writes { Writes S.Store tx.old.conn.now tx.new.conn.now result
        ((1 ≤ row.version) × (row.version ≤ most_versions))
        (λ t. is_held report_key row t.reports)
        (λ t. record t { reports = with_row report_key t.reports row }) }
{
    if !is_version(row.version) {
        return Err(Fault::Store(StoreCause::Row));
    }
    put(
        tx,
        "INSERT INTO reports (employer, month, version) VALUES (?1, ?2, ?3)",
        &report_values(&row),
    )
}

/// Writes the version of a later report of a month. Where the month has none, nothing is written.
/// A version out of 1 to 10,000 is refused as by `insert_report`.
pub fn replace_report<S: Alter>(tx: &mut Transaction<'_, S>, row: ReportRow) -> Result<(), Fault>
    ensures same_reference { tx.new.conn.ghost_name ≡ tx.old.conn.ghost_name }
    ensures writes { Writes S.Store tx.old.conn.now tx.new.conn.now result
        ((1 ≤ row.version) × (row.version ≤ most_versions)) (λ _. false)
        (λ t. record t { reports = replaced report_key row t.reports }) }
{
    if !is_version(row.version) {
        return Err(Fault::Store(StoreCause::Row));
    }
    put(
        tx,
        "UPDATE reports SET version = ?3 WHERE employer = ?1 AND month = ?2",
        &report_values(&row),
    )
}

/// The latest report of a firm's month, if there is one.
pub fn find_report<S: Alter>(
    tx: &mut Transaction<'_, S>,
    no: EmployerNo,
    at: Month,
) -> Result<Option<ReportRow>, Fault>
    ensures same_reference { tx.new.conn.ghost_name ≡ tx.old.conn.ghost_name }
    ensures looks { Finds S.Store tx.old.conn.now tx.new.conn.now result IsReportRow
        (λ t. find_row report_key t.reports (no ∷ at ∷ [])) }
{
    find::<S, Reports>(
        tx,
        "SELECT employer, month, version FROM reports WHERE employer = ?1 AND month = ?2",
        &month_values(no, at),
    )
}

/// The latest reports of a firm, the months rising.
pub fn reports_of<S: Alter>(
    tx: &mut Transaction<'_, S>,
    no: EmployerNo,
) -> Result<Vec<ReportRow>, Fault>
    ensures same_reference { tx.new.conn.ghost_name ≡ tx.old.conn.ghost_name }
    ensures looks { Lists S.Store tx.old.conn.now tx.new.conn.now result IsReportRow
        (λ t. filter (λ row. row.employer == no) t.reports) }
{
    list::<S, Reports>(
        tx,
        "SELECT employer, month, version FROM reports WHERE employer = ?1 ORDER BY employer, month",
        &[employer(no)],
    )
}

/// The report of a firm's last month that has one: the greatest of these months, by the key.
pub fn find_last_report<S: Alter>(
    tx: &mut Transaction<'_, S>,
    no: EmployerNo,
) -> Result<Option<ReportRow>, Fault>
    ensures same_reference { tx.new.conn.ghost_name ≡ tx.old.conn.ghost_name }
    ensures looks { Finds S.Store tx.old.conn.now tx.new.conn.now result IsReportRow
        (λ t. last_or None (filter (λ row. row.employer == no) t.reports)) }
{
    find::<S, Reports>(
        tx,
        "SELECT employer, month, version FROM reports WHERE employer = ?1 \
         ORDER BY month DESC LIMIT 1",
        &[employer(no)],
    )
}

/// All latest reports, by firm and month: `next_row` reads one at a time. This is one pass by the
/// key, with a search for the row of each.
pub fn read_reports<S: Alter>(conn: &mut Connection<S>) -> Result<Rows<'_, S>, Error>
    ensures* refused { sem 𝓛 (RestsIfErr (the_row S.row S.Store) conn.entry
        (λ rows. rows.conn.ghost_name) result (IsLeftOn S.Store conn.old result)) }
    ensures same_reference { IfOk result (λ rows. rows.conn.ghost_name ≡ conn.entry.ghost_name) }
    ensures begun { IfOk result (λ rows. ReadsOn S.Store conn.old rows.conn.now report_shown
        (λ t. t.reports)) }
{
    begin_rows::<Reports, S>(
        conn,
        "SELECT employer, month, version FROM reports ORDER BY employer, month",
        &[],
    )
}

/// The table of reports.
pub struct Reports;

impl StoredTable for Reports {
    type Row = ReportRow;

    ghost shown = { report_shown };

    ghost is_in_range = { IsReportRow };

    fn read(row: &Row) -> Result<ReportRow, Fault> {
        Ok(ReportRow {
            employer: employer_at(row, 0)?,
            month: month_at(row, 1)?,
            version: version_at(row, 2)?,
        })
    }
}

// What a statement is given of a row.
fn report_values(row: &ReportRow) -> [ValueRef<'static>; 3]
    ensures { bound result ≡ report_shown row.now }
{
    [
        employer(row.employer),
        month(row.month),
        number(u64::from(row.version)),
    ]
}
