//! Putting the change of a decision into the tables.
ghost use Rattle.std.specs.Prelude.{◌≡◌, None, Err, IfSome};
ghost use Rattle.clear_values.specs.Tables.{changed, dated};
ghost use Rattle.clear_schema.specs.Values.{counts_of, with_counts};
ghost use Rattle.clear_store.specs.Changes.{HasRoom, IsFree, IsInRange, IsPuttable, IsThere, Puts};
ghost use Rattle.clear_store.specs.Changes.{counts_after, taken_by};

use crate::bank_file::add_lines;
use crate::claims::{add_claim, put_claim, put_release};
use crate::firms::{add_employer, add_rate, put_employer};
use crate::lists::add_list;
use crate::month_report::{add_report, put_report};
use crate::runs::add_run;
use crate::suspense::put_line;
use clear_firms::counts::put_counts;
use clear_money::days::Day;
use clear_schema::counts::Counts;
use clear_schema::fault::Fault;
use clear_values::causes::StoreCause;
use clear_values::numbers::SerialCount;
use clear_values::rows::Change;
use sqlite::{Alter, Transaction};
use std::alloc::Global;

/// Puts a change into the tables, and notes the day of its request and one entry more.
///
/// That is promised where `counts` are those that stand, and what the change changes is there: the
/// firm, the report, the claims, each named once, or the line, which is this one but for its firm. A
/// row of rates is to come behind the others, and the contribution for a correction to lie in its
/// range. Otherwise the tables may be others than the change makes; what is told of errors below holds
/// all the same.
///
/// It is done only where each key that it adds is free, each number of a row is in its range, and at
/// most 50,000,000 entries, claims, lists and runs, and 500,000,000,000 serials, are then counted.
/// `Fault::Store(StoreCause::Constraint)` comes only where a key is not free, and
/// `Fault::Store(StoreCause::Row)` only where a number or a count is out of its range, and always for a
/// count: then nothing is done. After another error a part of the change may be done: the transaction
/// is to be rolled back.
pub fn put_change<S: Alter>(
    alloc: Global,
    tx: &mut Transaction<'_, S>,
    counts: &Counts,
    day: Day,
    change: &Change,
) -> Result<(), Fault>
    ensures same_reference { tx.new.conn.ghost_name ≡ tx.old.conn.ghost_name }
    ensures puts { Puts S.Store tx.old.conn.now tx.new.conn.now result
        (λ t. (counts.now ≡ counts_of t) × IsThere change.now t) (IsFree change.now)
        (IsPuttable counts.now change.now) (λ t. dated day (changed change.now t)) }
    // Where a count would be out of its range, nothing is done.
    ensures full { ¬ HasRoom counts.now (taken_by change.now)
        → (result ≡ Err (Fault.Store StoreCause.Row)) × (tx.new.conn.now ≡ tx.old.conn.now) }
{
    let taken = taken_by(change);
    note(tx, counts, day, &taken)?;
    put_rows(alloc, tx, change)
}

// Puts the rows of a change. The counts are left.
fn put_rows<S: Alter>(
    alloc: Global,
    tx: &mut Transaction<'_, S>,
    change: &Change,
) -> Result<(), Fault>
    ensures same_reference { tx.new.conn.ghost_name ≡ tx.old.conn.ghost_name }
    ensures puts { Puts S.Store tx.old.conn.now tx.new.conn.now result (IsThere change.now)
        (IsFree change.now) (IsInRange change.now)
        (λ t. with_counts (counts_of t) (changed change.now t)) }
{
    match change {
        Change::AddRate(row) => add_rate(tx, row),
        Change::AddEmployer(row) => add_employer(tx, row),
        Change::EndMembership(row) => put_employer(tx, row),
        Change::AddReport(row, lines, charge) => add_report(tx, row, lines.as_slice(), charge),
        Change::ReplaceReport(row, lines, charge) => put_report(tx, row, lines.as_slice(), charge),
        Change::AddBankLines(rows) => add_lines(alloc, tx, rows.as_slice()),
        Change::AssignLine(row) => put_line(alloc, tx, row),
        Change::AddClaim(row) => add_claim(tx, row),
        Change::WithdrawClaim(row) => put_claim(tx, row),
        Change::ReleaseClaim { claim, serial } => put_release(alloc, tx, claim, *serial),
        Change::AddList(row, claims) => add_list(tx, row, claims.as_slice()),
        Change::AddRun(row, reminders) => add_run(tx, row, reminders.as_slice()),
    }
}

// How many numbers a change takes of each kind.
#[derive(Clone, Copy)]
struct Taken {
    // One for each new bank line, and one for a release.
    serials: u64,
    claims: u32,
    lists: u32,
    runs: u32,
}

// A change that takes no number.
const NOTHING: Taken = Taken {
    serials: 0,
    claims: 0,
    lists: 0,
    runs: 0,
};

// How many numbers a change takes.
fn taken_by(change: &Change) -> Taken
    ensures { result ≡ taken_by change.now }
{
    match change {
        Change::AddRate(_) => NOTHING,
        Change::AddEmployer(_) => NOTHING,
        Change::EndMembership(_) => NOTHING,
        Change::AddReport(_, _, _) => NOTHING,
        Change::ReplaceReport(_, _, _) => NOTHING,
        Change::AddBankLines(rows) => Taken {
            serials: rows.as_slice().len() as u64,
            ..NOTHING
        },
        Change::AssignLine(_) => NOTHING,
        Change::AddClaim(_) => Taken {
            claims: 1,
            ..NOTHING
        },
        Change::WithdrawClaim(_) => NOTHING,
        Change::ReleaseClaim { .. } => Taken {
            serials: 1,
            ..NOTHING
        },
        Change::AddList(_, _) => Taken {
            lists: 1,
            ..NOTHING
        },
        Change::AddRun(_, _) => Taken { runs: 1, ..NOTHING },
    }
}

// Notes one entry more: its day, and the numbers that it took.
fn note<S: Alter>(
    tx: &mut Transaction<'_, S>,
    counts: &Counts,
    day: Day,
    taken: &Taken,
) -> Result<(), Fault>
    ensures same_reference { tx.new.conn.ghost_name ≡ tx.old.conn.ghost_name }
    ensures puts { Puts S.Store tx.old.conn.now tx.new.conn.now result (λ _. Unit {0})
        (λ _. Unit {0}) (HasRoom counts.now taken.now)
        (with_counts (counts_after day taken.now counts.now)) }
    ensures full { ¬ HasRoom counts.now taken.now
        → (result ≡ Err (Fault.Store StoreCause.Row)) × (tx.new.conn.now ≡ tx.old.conn.now) }
{
    match next_counts(counts, day, taken) {
        Some(next) => put_counts(tx, &next),
        None => Err(Fault::Store(StoreCause::Row)),
    }
}

// The counts after one entry more. None where a count would pass its bits, and past 500,000,000,000
// serials.
fn next_counts(counts: &Counts, day: Day, taken: &Taken) -> Option<Counts>
    ensures next { IfSome result (λ next.
        next ≡ counts_after day taken.now counts.now) }
    ensures none { result ≡ None → ¬ HasRoom counts.now taken.now }
{
    let entries = counts.entries.checked_add(1)?;
    let serial = SerialCount::new(counts.serial.count().checked_add(taken.serials)?)?;
    let claims = counts.claims.checked_add(taken.claims)?;
    let lists = counts.lists.checked_add(taken.lists)?;
    let runs = counts.runs.checked_add(taken.runs)?;
    Some(Counts {
        day: Some(day),
        entries,
        serial,
        claims,
        lists,
        runs,
    })
}
