//! A month's report: its row, the wage rows of its lines, and the contribution for it.
ghost use Rattle.std.specs.Prelude.{◌≡◌};
ghost use Rattle.clear_values.specs.Keyed.{put_row, with_row, with_rows, without_rows};
ghost use Rattle.clear_values.specs.Tables.{changed, is_wage_key_of, report_key, wage_key};
ghost use Rattle.clear_values.specs.Tables.{wage_rows, with_wages};
ghost use Rattle.clear_store.specs.Changes.{AreFree, AreGross, AreLinesFree, IsFree, IsInRange};
ghost use Rattle.clear_store.specs.Changes.{IsMonthFree, IsMonthInRange, IsReportThere, IsThere};
ghost use Rattle.clear_store.specs.Changes.{Puts};

use crate::each::{MonthLines, put_each};
use clear_firms::charges::{correct_charge, insert_charge};
use clear_firms::reports::{insert_report, replace_report};
use clear_firms::wages::{delete_wages, insert_ten_wages};
use clear_money::months::Month;
use clear_money::numbers::EmployerNo;
use clear_schema::fault::Fault;
use clear_values::rows::{Change, KeptCharge, ReportRow};
use clear_values::texts::WageLine;
use sqlite::{Alter, Transaction};

// Adds the first report of a month, and the contribution for it.
pub(crate) fn add_report<S: Alter>(
    tx: &mut Transaction<'_, S>,
    row: &ReportRow,
    lines: &[WageLine],
    charge: &KeptCharge,
) -> Result<(), Fault>
    ensures same_reference { tx.new.conn.ghost_name ≡ tx.old.conn.ghost_name }
    ensures puts { Puts S.Store tx.old.conn.now tx.new.conn.now result (λ _. Unit {0})
        (IsFree (Change.AddReport row.now lines.now charge.now))
        (IsInRange (Change.AddReport row.now lines.now charge.now))
        (changed (Change.AddReport row.now lines.now charge.now)) }
{
    insert_charge(tx, *charge)?;
    insert_month(tx, row, lines)
}

// Puts a correction and the contribution for it in the place of a month's report and contribution. One
// of the same cents due on the same day stays with what is paid of it.
pub(crate) fn put_report<S: Alter>(
    tx: &mut Transaction<'_, S>,
    row: &ReportRow,
    lines: &[WageLine],
    charge: &KeptCharge,
) -> Result<(), Fault>
    ensures same_reference { tx.new.conn.ghost_name ≡ tx.old.conn.ghost_name }
    ensures puts { Puts S.Store tx.old.conn.now tx.new.conn.now result
        (IsThere (Change.ReplaceReport row.now lines.now charge.now))
        (IsFree (Change.ReplaceReport row.now lines.now charge.now))
        (IsInRange (Change.ReplaceReport row.now lines.now charge.now))
        (changed (Change.ReplaceReport row.now lines.now charge.now)) }
{
    correct_charge(tx, *charge)?;
    replace_month(tx, row, lines)
}

// Adds the row of the first report of a month, and a row for each of its lines.
fn insert_month<S: Alter>(
    tx: &mut Transaction<'_, S>,
    row: &ReportRow,
    lines: &[WageLine],
) -> Result<(), Fault>
    ensures same_reference { tx.new.conn.ghost_name ≡ tx.old.conn.ghost_name }
    ensures puts { Puts S.Store tx.old.conn.now tx.new.conn.now result (λ _. Unit {0})
        (IsMonthFree row.now lines.now) (IsMonthInRange row.now lines.now)
        (λ t. record t {
          reports = with_row report_key t.reports row.now;
          wages = with_rows wage_key t.wages
              (wage_rows row.now.employer row.now.month lines.now);
        }) }
{
    insert_report(tx, *row)?;
    insert_wages(tx, row.employer, row.month, lines)
}

// Puts the row of a correction in the place of that of the month's report, and the rows of its lines
// in the place of what stood for the month.
fn replace_month<S: Alter>(
    tx: &mut Transaction<'_, S>,
    row: &ReportRow,
    lines: &[WageLine],
) -> Result<(), Fault>
    ensures same_reference { tx.new.conn.ghost_name ≡ tx.old.conn.ghost_name }
    ensures puts { Puts S.Store tx.old.conn.now tx.new.conn.now result (IsReportThere row.now)
        (AreLinesFree row.now lines.now) (IsMonthInRange row.now lines.now)
        (λ t. record t {
          reports = put_row report_key t.reports row.now;
          wages = with_wages row.now.employer row.now.month lines.now t.wages;
        }) }
{
    replace_report(tx, *row)?;
    replace_wages(tx, row.employer, row.month, lines)
}

// Adds a row for each line of a month's report: ten by each statement, and one for each line that is left.
fn insert_wages<S: Alter>(
    tx: &mut Transaction<'_, S>,
    no: EmployerNo,
    month: Month,
    lines: &[WageLine],
) -> Result<(), Fault>
    ensures same_reference { tx.new.conn.ghost_name ≡ tx.old.conn.ghost_name }
    ensures puts { Puts S.Store tx.old.conn.now tx.new.conn.now result (λ _. Unit {0})
        (λ t. AreFree wage_key t.wages (wage_rows no month lines.now)) (AreGross lines.now)
        (λ t. record t { wages = with_rows wage_key t.wages (wage_rows no month lines.now) }) }
{
    let mut rest = lines;
    'tens: while rest.len() >= 10 {
        let (ten, more) = rest.split_at(10);
        insert_ten_wages(tx, no, month, ten)?;
        rest = more;
    }
    let each = MonthLines {
        employer: no,
        month,
    };
    put_each(tx, &each, rest)
}

// Puts the rows of the lines of a month's report in the place of what stood for the month.
fn replace_wages<S: Alter>(
    tx: &mut Transaction<'_, S>,
    no: EmployerNo,
    month: Month,
    lines: &[WageLine],
) -> Result<(), Fault>
    ensures same_reference { tx.new.conn.ghost_name ≡ tx.old.conn.ghost_name }
    ensures puts { Puts S.Store tx.old.conn.now tx.new.conn.now result (λ _. Unit {0})
        (λ t. AreFree wage_key (without_rows wage_key (is_wage_key_of no month) t.wages)
        (wage_rows no month lines.now)) (AreGross lines.now)
        (λ t. record t { wages = with_wages no month lines.now t.wages }) }
{
    delete_wages(tx, no, month)?;
    insert_wages(tx, no, month, lines)
}
