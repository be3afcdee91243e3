//! What stands in a store, read outside of a transaction.
ghost use Rattle.std.specs.Prelude.{◌≡◌, [], ◌∷◌, Some, false};
ghost use Rattle.clear_values.specs.declared.callers.Caller.TheVariants.{Clerk};
ghost use Rattle.clear_values.specs.Keyed.{find_row};
ghost use Rattle.clear_values.specs.Tables.{list_key, run_key};
ghost use Rattle.clear_ledger.specs.Kept.{greatest_number};
ghost use Rattle.clear_schema.specs.Values.{counts_of};
ghost use Rattle.clear_reading.specs.Look.{AreFewSuspended, look_of};
ghost use Rattle.clear_reading.specs.LookParts.{latest_of, look_at};
ghost use Rattle.clear_reading.specs.Reader.{TellsTables};

use crate::row_counts::{RowCounts, count_tables};
use crate::stored::first_row;
use clear_firms::counts::{Meta, read_counts};
use clear_ledger::requests::{RequestNumbers, read_greatest};
use clear_ledger::runs::{Runs, read_run};
use clear_payouts::lists::{Lists, read_list};
use clear_schema::counts::Counts;
use clear_schema::fault::{Fault, fault_of};
use clear_texts::look::Look;
use clear_values::callers::Caller;
use clear_values::causes::StoreCause;
use clear_values::numbers::RequestNo;
use clear_values::rows::{ListRow, RunRow};
use sqlite::{Alter, Connection};

/// What stands in a store. Nothing is changed.
///
/// Firms, reports, bank lines and claims are read one at a time, so it takes as many steps as there
/// are of them, and the same memory however many there are. Lines in suspense that come to 2^64 cents
/// or more are refused with `Fault::Store(StoreCause::Row)`.
pub fn look<S: Alter>(conn: &mut Connection<S>) -> Result<Look, Fault>
    requires outside { conn.old.in_transaction ≡ false }
    ensures mode { conn.new.in_transaction ≡ false }
    ensures looks { TellsTables S.Store conn.old conn.new look_of AreFewSuspended result }
{
    let latest = find_latest(conn)?;
    let rows = count_tables(conn)?;
    Ok(look_at(&latest, &rows))
}

// What these say together.
fn look_at(latest: &Latest, rows: &RowCounts) -> Look
    ensures { result ≡ look_at latest.now rows.now }
{
    Look {
        day: latest.counts.day,
        requests: latest.counts.entries,
        greatest: latest.greatest,
        firms: rows.firms,
        reports: rows.reports,
        lines: rows.lines.lines,
        suspended: rows.lines.suspended,
        suspended_cents: rows.lines.cents,
        open_claims: rows.claims.open_claims,
        payable_claims: rows.claims.payable_claims,
        list: latest.list,
        run: latest.run,
    }
}

/// The counts that stand, and what was given or made last.
#[derive(Clone, Copy)]
struct Latest {
    counts: Counts,
    /// The greatest number of a request of the clerks.
    greatest: Option<RequestNo>,
    list: Option<ListRow>,
    run: Option<RunRow>,
}

// Each takes a search.
fn find_latest<S: Alter>(conn: &mut Connection<S>) -> Result<Latest, Fault>
    requires outside { conn.old.in_transaction ≡ false }
    ensures mode { conn.new.in_transaction ≡ false }
    ensures tells { TellsTables S.Store conn.old conn.new latest_of (λ t. Unit {0}) result }
{
    let counts = find_counts(conn)?;
    let greatest = find_greatest(conn)?;
    let list = find_list(conn, counts.lists)?;
    let run = find_run(conn, counts.runs)?;
    Ok(Latest {
        counts,
        greatest,
        list,
        run,
    })
}

fn find_counts<S: Alter>(conn: &mut Connection<S>) -> Result<Counts, Fault>
    requires outside { conn.old.in_transaction ≡ false }
    ensures mode { conn.new.in_transaction ≡ false }
    ensures tells { TellsTables S.Store conn.old conn.new (λ t. counts_of t)
        (λ t. Unit {0}) result }
{
    match first_counts(conn)? {
        Some(counts) => Ok(counts),
        None => Err(Fault::Store(StoreCause::Other)),
    }
}

// The row of the counts, which is always there.
fn first_counts<S: Alter>(conn: &mut Connection<S>) -> Result<Option<Counts>, Fault>
    requires outside { conn.old.in_transaction ≡ false }
    ensures mode { conn.new.in_transaction ≡ false }
    ensures tells { TellsTables S.Store conn.old conn.new (λ t. Some (counts_of t))
        (λ t. Unit {0}) result }
{
    match read_counts(conn) {
        Ok(mut rows) => first_row::<Meta, S>(&mut rows),
        Err(error) => Err(fault_of(error)),
    }
}

// The greatest number of the clerks' requests.
fn find_greatest<S: Alter>(conn: &mut Connection<S>) -> Result<Option<RequestNo>, Fault>
    requires outside { conn.old.in_transaction ≡ false }
    ensures mode { conn.new.in_transaction ≡ false }
    ensures tells { TellsTables S.Store conn.old conn.new
        (λ t. greatest_number Clerk t.requests) (λ t. Unit {0}) result }
{
    match read_greatest(conn, Caller::Clerk) {
        Ok(mut rows) => first_row::<RequestNumbers, S>(&mut rows),
        Err(error) => Err(fault_of(error)),
    }
}

fn find_list<S: Alter>(conn: &mut Connection<S>, list: u32) -> Result<Option<ListRow>, Fault>
    requires outside { conn.old.in_transaction ≡ false }
    ensures mode { conn.new.in_transaction ≡ false }
    ensures tells { TellsTables S.Store conn.old conn.new
        (λ t. find_row list_key t.lists (list ∷ [])) (λ t. Unit {0}) result }
{
    match read_list(conn, list) {
        Ok(mut rows) => first_row::<Lists, S>(&mut rows),
        Err(error) => Err(fault_of(error)),
    }
}

fn find_run<S: Alter>(conn: &mut Connection<S>, run: u32) -> Result<Option<RunRow>, Fault>
    requires outside { conn.old.in_transaction ≡ false }
    ensures mode { conn.new.in_transaction ≡ false }
    ensures tells { TellsTables S.Store conn.old conn.new
        (λ t. find_row run_key t.runs (run ∷ [])) (λ t. Unit {0}) result }
{
    match read_run(conn, run) {
        Ok(mut rows) => first_row::<Runs, S>(&mut rows),
        Err(error) => Err(fault_of(error)),
    }
}
