//! The decision on a reminder run.
ghost use Rattle.std.specs.Prelude.{◌≡◌, IfOk, length};
ghost use Rattle.std.specs.List.{filter_map};
ghost use Rattle.std.specs.Option.{option_map};
ghost use Rattle.clear_book.specs.declared.calls.Command.TheVariants.{RemindRun};
ghost use Rattle.clear_book.specs.declared.outcomes.Reply.TheVariants.{Reminded};
ghost use Rattle.clear_book.specs.Book.{Book};
ghost use Rattle.clear_book.specs.Own.RemindRun.{own_remind};
ghost use Rattle.clear_book.specs.Reminders.{level_after, level_due};
ghost use Rattle.clear_rules.specs.Decisions.{Refuses, IsJudged, TakesTables};
ghost use Rattle.clear_rules.specs.Views.RemindRun.{IsRemindView, Reminds, firm_due};
ghost use Rattle.clear_rules.specs.Views.RemindRun.{has_overdue, last_seen, rows_due};

use clear_book::limits::MAX_LEVEL;
use clear_book::numbers::RunNo;
use clear_book::outcomes::Reply;
use clear_book::rows::{Change, Decision, ReminderRow, Rows, RunRow};
use clear_book::rules::Rule;
use clear_money::days::Day;
use clear_money::months::Month;
use clear_money::numbers::EmployerNo;
use std::alloc::{AllocError, Global};

// So many days after a reminder the next one may be due to the firm.
const DAYS_BETWEEN: u32 = 14;

// Up to so many days after a reminder the level goes on, and after more it begins again.
const DAYS_OF_A_LEVEL: u32 = 60;

/// What a firm has overdue on the request's day, and its last reminder.
#[derive(Clone, Copy)]
pub struct OverdueFirm {
    pub employer: EmployerNo,
    /// How many months miss their report.
    pub missing_count: u32,
    /// The first of them, if there is one.
    pub first_missing: Option<Month>,
    /// What is in arrears of contributions, in cents.
    pub arrears: u64,
    /// What is in arrears of interest, in cents.
    pub interest_arrears: u64,
    /// The last reminder that it had, if it had one.
    pub last: Option<LastReminder>,
}

/// What a run goes by of an earlier reminder.
#[derive(Clone, Copy)]
pub struct LastReminder {
    /// 1 to 3.
    pub level: u8,
    /// The day of its run.
    pub day: Day,
}

/// What a reminder run is judged by.
#[derive(Drop)]
pub struct RemindView {
    /// All firms, by their numbers.
    pub firms: Vec<OverdueFirm>,
    /// The number that the run is to have.
    pub next: RunNo,
}

/// Decides on a reminder run on the request's day: `NothingToRemind` where no reminder is due.
/// `Memory` may stand in place of any answer.
///
/// Each firm to which a reminder is due is reminded, in the order of the firms' numbers, of what it
/// has overdue on the day. It costs a few steps a firm.
pub fn decide_remind(alloc: Global, day: Day, view: &RemindView) -> Result<Decision, Rule>
    // The answer is the judge's, where the view is the book's, but for want of memory.
    ensures judged { (b : Book) → IsRemindView b day view.now
        → IsJudged b day RemindRun result }
    // Where the judge gives the reply, the change takes the tables of a lawful book to those of the
    // next.
    ensures change { (b : Book) → IsRemindView b day view.now
        → IfOk result (TakesTables b day RemindRun) }
    ensures rule { Refuses result (own_remind (rows_due day view.now)) }
    ensures made { IfOk result (λ decision. Reminds day view.now decision.change) }
    ensures reply { IfOk result (λ decision. decision.reply
        ≡ Reminded view.now.next (length (rows_due day view.now))) }
{
    let rows = due_rows(alloc, view.next, day, &view.firms)?;
    if rows.is_empty() {
        return Err(Rule::NothingToRemind);
    }
    let firms = rows.len() as u64;
    let run = RunRow {
        run: view.next,
        day,
        firms,
    };
    Ok(Decision {
        change: Change::AddRun(run, Rows::new(rows)),
        reply: Reply::Reminded {
            run: view.next,
            firms,
        },
    })
}

// The reminders that a run on a day gives to these firms.
fn due_rows(
    alloc: Global,
    run: RunNo,
    day: Day,
    firms: &[OverdueFirm],
) -> Result<Vec<ReminderRow>, AllocError>
    ensures { IfOk result (λ rows. rows.items ≡ filter_map (firm_due run day) firms.now) }
{
    let mut rows = Vec::new(alloc);
    for firm in firms {
        if let Some(row) = firm_due(run, day, firm) {
            rows.push(row)?;
        }
    }
    Ok(rows)
}

// The reminder to a firm in a run on a day, if one is due.
fn firm_due(run: RunNo, day: Day, firm: &OverdueFirm) -> Option<ReminderRow>
    ensures { result ≡ firm_due run day firm.now }
{
    if !is_in_default(firm) {
        return None;
    }
    match level_due(firm.last, day) {
        Some(level) => Some(ReminderRow {
            run,
            employer: firm.employer,
            level,
            missing: firm.missing_count,
            first: firm.first_missing,
            arrears: firm.arrears,
            interest: firm.interest_arrears,
        }),
        None => None,
    }
}

// Whether a firm is in default: it misses a report, or is in arrears.
fn is_in_default(firm: &OverdueFirm) -> bool
    ensures { result ≡ has_overdue firm.now }
{
    firm.missing_count > 0 || firm.arrears > 0 || firm.interest_arrears > 0
}

// The level that is due on a day after the last reminder, if one is.
fn level_due(last: Option<LastReminder>, day: Day) -> Option<u8>
    ensures { result ≡ level_due (option_map last_seen last) day }
{
    match last {
        Some(last) => level_after(last, day),
        None => Some(1),
    }
}

// The level that is due on a day after a reminder, if one is: from the fourteenth day on the next
// one, up to the highest, and after more than 60 days the first one again.
fn level_after(last: LastReminder, day: Day) -> Option<u8>
    ensures { result ≡ level_after (last_seen last) day }
{
    let (from, now) = (last.day.number(), day.number());
    if now < from + DAYS_BETWEEN {
        None
    } else if now <= from + DAYS_OF_A_LEVEL {
        Some(last.level.saturating_add(1).min(MAX_LEVEL))
    } else {
        Some(1)
    }
}
