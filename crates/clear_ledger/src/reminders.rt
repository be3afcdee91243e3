//! The reminders, by run and firm.
ghost use Rattle.std.specs.Borrow.{sem, RestsIfErr};
ghost use Rattle.std.specs.List.{last_or};
ghost use Rattle.std.specs.Prelude.{◌≡◌, ◌==◌, ◌↔◌, filter, true, IfOk, IfSome, None};
ghost use Rattle.sqlite.specs.Values.{bound};
ghost use Rattle.sqlite.specs.contracts.connection.Connection.{the_row};
ghost use Rattle.clear_money.specs.Calendar.{IsMonth};
ghost use Rattle.clear_values.specs.Keyed.{is_held, with_row};
ghost use Rattle.clear_values.specs.RowRanges.{IsReminderRow};
ghost use Rattle.clear_values.specs.Tables.{reminder_key};
ghost use Rattle.clear_columns.specs.Reading.{IsLeftOn, ReadsOn};
ghost use Rattle.clear_schema.specs.Values.{reminder_shown};
ghost use Rattle.clear_schema.specs.Frame.{Finds, Writes};

use clear_columns::columns::{
    employer_at, level_at, maybe_month_at, month_count_at, number_at, run_at,
};
use clear_columns::parameters::{employer as firm, maybe_month, run_no};
use clear_columns::queries::find;
use clear_columns::ranges::{is_charged, is_interest, is_month_count};
use clear_columns::rows::{StoredTable, begin_rows};
use clear_money::months::Month;
use clear_money::numbers::EmployerNo;
use clear_schema::fault::Fault;
use clear_schema::statement::put;
use clear_schema::values::number;
use clear_values::causes::StoreCause;
use clear_values::limits::MAX_LEVEL;
use clear_values::numbers::RunNo;
use clear_values::rows::ReminderRow;
use sqlite::{Alter, Connection, Error, Row, Rows, Transaction};
use sqlite_value::value::ValueRef;

/// Adds a reminder whose run and firm are free. Numbers that no reminder can have are refused with
/// `Fault::Store(StoreCause::Row)`, and nothing is done.
pub fn insert_reminder<S: Alter>(
    tx: &mut Transaction<'_, S>,
    row: &ReminderRow,
) -> Result<(), Fault>
    ensures same_reference { tx.new.conn.ghost_name ≡ tx.old.conn.ghost_name }
    ensures writes { Writes S.Store tx.old.conn.now tx.new.conn.now result
        (IsReminderRow row.now) (λ t. is_held reminder_key row.now t.reminders)
        (λ t. record t { reminders = with_row reminder_key t.reminders row.now }) }
{
    if !is_reminder_row(row) {
        return Err(Fault::Store(StoreCause::Row));
    }
    put(
        tx,
        "INSERT INTO reminders (run, employer, level, missing, first, arrears, interest) \
         VALUES (?1, ?2, ?3, ?4, ?5, ?6, ?7)",
        &reminder_values(row),
    )
}

/// The last reminder to a firm: that of the latest run which gave it one.
pub fn last_reminder<S: Alter>(
    tx: &mut Transaction<'_, S>,
    employer: EmployerNo,
) -> Result<Option<ReminderRow>, Fault>
    ensures same_reference { tx.new.conn.ghost_name ≡ tx.old.conn.ghost_name }
    ensures looks { Finds S.Store tx.old.conn.now tx.new.conn.now result IsReminderRow
        (λ t. last_or None (filter (λ row. row.employer == employer) t.reminders)) }
{
    find::<S, Reminders>(
        tx,
        "SELECT run, employer, level, missing, first, arrears, interest FROM reminders \
         WHERE employer = ?1 ORDER BY run DESC LIMIT 1",
        &[firm(employer)],
    )
}

/// The reminders of a run, in the order of their firms: `next_row` reads one at a time.
pub fn read_reminders<S: Alter>(conn: &mut Connection<S>, run: RunNo) -> Result<Rows<'_, S>, Error>
    ensures* refused { sem 𝓛 (RestsIfErr (the_row S.row S.Store) conn.entry
        (λ rows. rows.conn.ghost_name) result (IsLeftOn S.Store conn.old result)) }
    ensures same_reference { IfOk result (λ rows. rows.conn.ghost_name ≡ conn.entry.ghost_name) }
    ensures begun { IfOk result (λ rows. ReadsOn S.Store conn.old rows.conn.now reminder_shown
        (λ t. filter (λ row. row.run == run) t.reminders)) }
{
    begin_rows::<Reminders, S>(
        conn,
        "SELECT run, employer, level, missing, first, arrears, interest FROM reminders \
         WHERE run = ?1 ORDER BY run, employer",
        &[run_no(run)],
    )
}

/// The table of reminders.
pub struct Reminders;

impl StoredTable for Reminders {
    type Row = ReminderRow;

    ghost shown = { reminder_shown };

    ghost is_in_range = { IsReminderRow };

    fn read(row: &Row) -> Result<ReminderRow, Fault> {
        let reminder = ReminderRow {
            run: run_at(row, 0)?,
            employer: employer_at(row, 1)?,
            level: level_at(row, 2)?,
            missing: month_count_at(row, 3)?,
            first: maybe_month_at(row, 4)?,
            arrears: number_at(row, 5)?,
            interest: number_at(row, 6)?,
        };
        if !is_reminder_row(&reminder) {
            return Err(Fault::Store(StoreCause::Row));
        }
        Ok(reminder)
    }
}

// Whether the numbers of a reminder are in their ranges.
fn is_reminder_row(row: &ReminderRow) -> bool
    ensures { (result ≡ true) ↔ IsReminderRow row.now }
{
    // A proof reads the ranges of the run, of the firm and of the month from their types.
    let _run = row.run.number();
    let _employer = row.employer.number();
    let _first = month_number(row.first);
    row.level >= 1
        && row.level <= MAX_LEVEL
        && is_month_count(row.missing)
        && is_charged(row.arrears)
        && is_interest(row.interest)
}

// The number of a month that may be there.
fn month_number(month: Option<Month>) -> Option<u16>
    ensures { IfSome month IsMonth }
{
    match month {
        Some(month) => Some(month.number()),
        None => None,
    }
}

// The parameters of a statement that writes a row.
fn reminder_values(row: &ReminderRow) -> [ValueRef<'static>; 7]
    requires { IsReminderRow row.now }
    ensures { bound result ≡ reminder_shown row.now }
{
    [
        run_no(row.run),
        firm(row.employer),
        number(u64::from(row.level)),
        number(u64::from(row.missing)),
        maybe_month(row.first),
        number(row.arrears),
        number(row.interest),
    ]
}
