//! What a reminder run is judged by.
ghost use Rattle.std.specs.Prelude.{◌≡◌, IfErr, IfOk, None, map};
ghost use Rattle.std.specs.Option.{option_map};
ghost use Rattle.clear_book.specs.Allocated.{StandsWeighed};
ghost use Rattle.clear_book.specs.Book.{Book, rates_of};
ghost use Rattle.clear_book.specs.Judge.{day_back};
ghost use Rattle.clear_book.specs.Machine.{IsLawful};
ghost use Rattle.clear_book.specs.Reminders.{as_last, last_among};
ghost use Rattle.clear_book.specs.RowRanges.{AreInRange};
ghost use Rattle.clear_book.specs.Workers.{employers_of};
ghost use Rattle.clear_rules.specs.Views.RemindRun.{IsRemindView, firm_on_day, last_viewed};
ghost use Rattle.clear_schema.specs.Frame.{Leaves};
ghost use Rattle.clear_schema.specs.Faults.{IsOfDisk};
ghost use Rattle.clear_schema.specs.Values.{counts_of};
ghost use Rattle.clear_debts.specs.Overdue.{IsFirm};
ghost use Rattle.clear_debts.specs.Reads.{OfTables};

use clear_book::numbers::RunNo;
use clear_book::rows::{EmployerRow, ReminderRow};
use clear_book::rules::StoreCause;
use clear_debts::overdue::read_overdue;
use clear_firms::employers::all_employers;
use clear_firms::rates::rate_table;
use clear_ledger::reminders::last_reminder;
use clear_ledger::runs::find_run;
use clear_money::days::Day;
use clear_money::numbers::EmployerNo;
use clear_money::rates::RateTable;
use clear_rules::decide::remind::{LastReminder, OverdueFirm, RemindView};
use clear_schema::counts::Counts;
use clear_schema::fault::Fault;
use sqlite::{Alter, Transaction};
use std::alloc::Global;

/// What a reminder run is judged by on a day that isn't before the ledger day, where these counts
/// stand: each firm with what it has overdue on the day and with its last reminder, by the firms'
/// numbers, and the number that the run is to have.
///
/// It reads the rates and all firms once, and then each contribution that is kept of a firm and the
/// amount of each of its credits for interest once, its last reminder and the run of that, by a search
/// each; of each firm it takes one step for each member month before that of the day. What no book
/// holds is refused with `Fault::Store(StoreCause::Row)`: a value out of its range, more contributions
/// or credits than an account has, and more runs than can be numbered.
pub fn remind_view<S: Alter>(
    alloc: Global,
    tx: &mut Transaction<'_, S>,
    counts: &Counts,
    day: Day,
) -> Result<RemindView, Fault>
    ensures same_reference { tx.new.conn.ghost_name ≡ tx.old.conn.ghost_name }
    ensures view { OfTables S.Store tx.old.conn.now tx.new.conn.now (λ t.
        counts.now ≡ counts_of t → day_back t.day day ≡ None → (b : Book) → IsLawful b
        → StandsWeighed b t → IfOk result (IsRemindView b day)) }
    ensures fault { OfTables S.Store tx.old.conn.now tx.new.conn.now (λ t.
        counts.now ≡ counts_of t → (b : Book) → IsLawful b → StandsWeighed b t
        → IfErr result IsOfDisk) }
    ensures leaves { Leaves S.Store tx.old.conn.now tx.new.conn.now result }
{
    let Some(next) = RunNo::new(u64::from(counts.runs) + 1) else {
        return Err(Fault::Store(StoreCause::Row));
    };
    let rates = rate_table(tx)?;
    let firms = overdue_firms(alloc, tx, &rates, day)?;
    Ok(RemindView { firms, next })
}

// All firms, with what each has overdue on a day that is not before the ledger day, at these rates,
// and with its last reminder, by their numbers.
fn overdue_firms<S: Alter>(
    alloc: Global,
    tx: &mut Transaction<'_, S>,
    rates: &RateTable,
    day: Day,
) -> Result<Vec<OverdueFirm>, Fault>
    ensures same_reference { tx.new.conn.ghost_name ≡ tx.old.conn.ghost_name }
    ensures firms { OfTables S.Store tx.old.conn.now tx.new.conn.now (λ t.
        day_back t.day day ≡ None → (b : Book) → IsLawful b → StandsWeighed b t
        → rates.now ≡ rates_of b
        → IfOk result (λ firms. firms.items ≡ map (firm_on_day b day) (employers_of b.entries))) }
    ensures fault { OfTables S.Store tx.old.conn.now tx.new.conn.now (λ t.
        (b : Book) → IsLawful b → StandsWeighed b t → IfErr result IsOfDisk) }
    ensures leaves { Leaves S.Store tx.old.conn.now tx.new.conn.now result }
{
    let members = all_employers(tx)?;
    let mut firms = Vec::new(alloc);
    for member in &members {
        let firm = overdue_firm(alloc, tx, rates, member, day)?;
        firms.push(firm)?;
    }
    Ok(firms)
}

// A firm, with what it has overdue on a day that is not before the ledger day, at these rates, and
// with its last reminder.
fn overdue_firm<S: Alter>(
    alloc: Global,
    tx: &mut Transaction<'_, S>,
    rates: &RateTable,
    member: &EmployerRow,
    day: Day,
) -> Result<OverdueFirm, Fault>
    ensures same_reference { tx.new.conn.ghost_name ≡ tx.old.conn.ghost_name }
    ensures firm { OfTables S.Store tx.old.conn.now tx.new.conn.now (λ t.
        day_back t.day day ≡ None → (b : Book) → IsLawful b → StandsWeighed b t
        → rates.now ≡ rates_of b → IsFirm b member.now
        → IfOk result (λ firm. firm ≡ firm_on_day b day member.now.employer)) }
    ensures fault { OfTables S.Store tx.old.conn.now tx.new.conn.now (λ t.
        (b : Book) → IsLawful b → StandsWeighed b t → IfErr result IsOfDisk) }
    ensures leaves { Leaves S.Store tx.old.conn.now tx.new.conn.now result }
{
    let overdue = read_overdue(alloc, tx, rates, member, day)?;
    let last = read_last(tx, member.employer)?;
    Ok(OverdueFirm {
        employer: member.employer,
        missing_count: overdue.missing,
        first_missing: overdue.first,
        arrears: overdue.arrears,
        interest_arrears: overdue.interest,
        last,
    })
}

// The last reminder of a firm, if it had one.
fn read_last<S: Alter>(
    tx: &mut Transaction<'_, S>,
    employer: EmployerNo,
) -> Result<Option<LastReminder>, Fault>
    ensures same_reference { tx.new.conn.ghost_name ≡ tx.old.conn.ghost_name }
    ensures last { OfTables S.Store tx.old.conn.now tx.new.conn.now (λ t.
        IfOk result (λ last. last
        ≡ option_map last_viewed (last_among t.runs t.reminders employer))) }
    ensures fault { OfTables S.Store tx.old.conn.now tx.new.conn.now (λ t.
        AreInRange t → IfErr result IsOfDisk) }
    ensures leaves { Leaves S.Store tx.old.conn.now tx.new.conn.now result }
{
    match last_reminder(tx, employer)? {
        Some(row) => read_run(tx, &row),
        None => Ok(None),
    }
}

// What a run goes by of a reminder, where the run of this is there.
fn read_run<S: Alter>(
    tx: &mut Transaction<'_, S>,
    row: &ReminderRow,
) -> Result<Option<LastReminder>, Fault>
    ensures same_reference { tx.new.conn.ghost_name ≡ tx.old.conn.ghost_name }
    ensures last { OfTables S.Store tx.old.conn.now tx.new.conn.now (λ t.
        IfOk result (λ last. last ≡ option_map last_viewed (as_last t.runs row.now))) }
    ensures fault { OfTables S.Store tx.old.conn.now tx.new.conn.now (λ t.
        AreInRange t → IfErr result IsOfDisk) }
    ensures leaves { Leaves S.Store tx.old.conn.now tx.new.conn.now result }
{
    match find_run(tx, row.run)? {
        Some(run) => Ok(Some(LastReminder {
            level: row.level,
            day: run.day,
        })),
        None => Ok(None),
    }
}
