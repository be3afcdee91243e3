//! How many firms, reports, bank lines and claims there are, of all rows of their tables.
ghost use Rattle.std.specs.Prelude.{◌≡◌, false, length};
ghost use Rattle.clear_reading.specs.Look.{AreFewSuspended};
ghost use Rattle.clear_reading.specs.LookParts.{claims_counted, lines_counted, rows_counted};
ghost use Rattle.clear_reading.specs.LookParts.{suspended_cents};
ghost use Rattle.clear_reading.specs.Reader.{TellsTables};

use crate::counting::{AllRows, Tally, count_rows};
use clear_firms::employers::{Employers, read_employers};
use clear_firms::reports::{Reports, read_reports};
use clear_ledger::bank::{Bank, read_lines};
use clear_payouts::claims::{Claims, read_claims};
use clear_schema::fault::{Fault, fault_of};
use clear_values::rows::{BankRow, ClaimRow};
use sqlite::{Alter, Connection};

/// How many rows the tables of firms, reports, bank lines and claims have.
#[derive(Clone, Copy)]
pub struct RowCounts {
    pub firms: u64,
    pub reports: u64,
    pub lines: LineCount,
    pub claims: ClaimCount,
}

/// What is counted of bank lines.
#[derive(Clone, Copy)]
pub struct LineCount {
    /// All of them.
    pub lines: u64,
    /// Those in suspense.
    pub suspended: u64,
    /// What these come to.
    pub cents: u64,
}

/// What is counted of claims.
#[derive(Clone, Copy)]
pub struct ClaimCount {
    pub open_claims: u64,
    /// Those of which something is to be paid out.
    pub payable_claims: u64,
}

/// Counts the rows of these tables, one row at a time.
pub(crate) fn count_tables<S: Alter>(conn: &mut Connection<S>) -> Result<RowCounts, Fault>
    requires outside { conn.old.in_transaction ≡ false }
    ensures mode { conn.new.in_transaction ≡ false }
    ensures tells { TellsTables S.Store conn.old conn.new rows_counted AreFewSuspended result }
{
    let firms = count_firms(conn)?;
    let reports = count_reports(conn)?;
    let lines = count_lines(conn)?;
    let claims = count_claims(conn)?;
    Ok(RowCounts {
        firms,
        reports,
        lines,
        claims,
    })
}

fn count_firms<S: Alter>(conn: &mut Connection<S>) -> Result<u64, Fault>
    requires outside { conn.old.in_transaction ≡ false }
    ensures mode { conn.new.in_transaction ≡ false }
    ensures tells { TellsTables S.Store conn.old conn.new (λ t. length t.employers)
        (λ t. Unit {0}) result }
{
    match read_employers(conn) {
        Ok(mut rows) => count_rows::<AllRows<Employers>, S>(&mut rows),
        Err(error) => Err(fault_of(error)),
    }
}

fn count_reports<S: Alter>(conn: &mut Connection<S>) -> Result<u64, Fault>
    requires outside { conn.old.in_transaction ≡ false }
    ensures mode { conn.new.in_transaction ≡ false }
    ensures tells { TellsTables S.Store conn.old conn.new (λ t. length t.reports)
        (λ t. Unit {0}) result }
{
    match read_reports(conn) {
        Ok(mut rows) => count_rows::<AllRows<Reports>, S>(&mut rows),
        Err(error) => Err(fault_of(error)),
    }
}

// Lines in suspense that come to 2^64 cents or more are refused with `Fault::Store(StoreCause::Row)`.
fn count_lines<S: Alter>(conn: &mut Connection<S>) -> Result<LineCount, Fault>
    requires outside { conn.old.in_transaction ≡ false }
    ensures mode { conn.new.in_transaction ≡ false }
    ensures tells { TellsTables S.Store conn.old conn.new (λ t. lines_counted t.bank)
        AreFewSuspended result }
{
    match read_lines(conn) {
        Ok(mut rows) => count_rows::<AllLines, S>(&mut rows),
        Err(error) => Err(fault_of(error)),
    }
}

fn count_claims<S: Alter>(conn: &mut Connection<S>) -> Result<ClaimCount, Fault>
    requires outside { conn.old.in_transaction ≡ false }
    ensures mode { conn.new.in_transaction ≡ false }
    ensures tells { TellsTables S.Store conn.old conn.new (λ t. claims_counted t.claims)
        (λ t. Unit {0}) result }
{
    match read_claims(conn) {
        Ok(mut rows) => count_rows::<AllClaims, S>(&mut rows),
        Err(error) => Err(fault_of(error)),
    }
}

// How many bank lines there are, how many of them are in suspense, and what these come to.
struct AllLines;

impl Tally for AllLines {
    ghost use Rattle.clear_reading.specs.LookParts.{lines_counted, suspended_cents};

    type Table = Bank;

    type Count = LineCount;

    ghost counted = { lines_counted };

    ghost amount = { suspended_cents };

    fn none() -> LineCount {
        LineCount {
            lines: 0,
            suspended: 0,
            cents: 0,
        }
    }

    fn with(count: LineCount, row: &BankRow) -> Option<LineCount> {
        let cents = count.cents.checked_add(suspended_cents(row))?;
        Some(LineCount {
            lines: count.lines + 1,
            suspended: count.suspended + u64::from(row.employer.is_none()),
            cents,
        })
    }
}

// The cents of a bank line in suspense, and nothing of another one.
fn suspended_cents(row: &BankRow) -> u64
    ensures { result ≡ suspended_cents row.now }
{
    match row.employer {
        Some(_firm) => 0,
        None => row.line.cents.cents(),
    }
}

// How many claims are open, and how many are to be paid out.
struct AllClaims;

impl Tally for AllClaims {
    ghost use Rattle.clear_reading.specs.LookParts.{claims_counted};

    type Table = Claims;

    type Count = ClaimCount;

    ghost counted = { claims_counted };

    ghost amount = { λ claim. 0 };

    fn none() -> ClaimCount {
        ClaimCount {
            open_claims: 0,
            payable_claims: 0,
        }
    }

    fn with(count: ClaimCount, claim: &ClaimRow) -> Option<ClaimCount> {
        Some(ClaimCount {
            open_claims: count.open_claims + u64::from(claim.state.is_open()),
            payable_claims: count.payable_claims + u64::from(claim.state.is_payable()),
        })
    }
}
