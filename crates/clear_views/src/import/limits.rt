//! How many lines are in suspense and how many credits a firm has, as far as they are counted.
ghost use Rattle.std.specs.List.{list_all};
ghost use Rattle.std.specs.Prelude.{◌≡◌, ◌+◌, ◌≤◌, None, Some, IfOk, IfSome, ⊤, true};
ghost use Rattle.std.specs.Prelude.{if◌then◌else◌};
ghost use Rattle.std.specs.Prelude.{is_some, length, nat_le};
ghost use Rattle.clear_debts.specs.Reads.{Reads};
ghost use Rattle.clear_book.specs.Limits.{most_suspense};
ghost use Rattle.clear_views.specs.Imports.{IsServing, IsSuspenseViewed, IsUncounted};
ghost use Rattle.clear_views.specs.Imports.{credits_viewed};

use clear_bank::lines::{BankLine, Purpose};
use clear_book::limits::MAX_SUSPENSE;
use clear_book::numbers::SerialCount;
use clear_ledger::bank::suspense_count;
use clear_ledger::credits::credit_count;
use clear_money::numbers::EmployerNo;
use clear_schema::fault::Fault;
use sqlite::{Alter, Transaction};

/// A number that serves in place of a count that is no more than the serials given, where these
/// lines come in: the serials, if they and the lines are within the limit.
pub(super) fn serving(serials: SerialCount, lines: &[BankLine], limit: u64) -> Option<u64>
    ensures number { result
        ≡ if nat_le (serials + length lines.now) limit then Some serials else None }
    ensures serves { IfSome result (IsServing serials (length lines.now) limit) }
{
    let given = serials.count();
    let more = lines.len() as u64;
    if given <= limit && more <= limit - given {
        Some(given)
    } else {
        None
    }
}

/// A number that serves for the lines in suspense where these lines come in: the serials, or the
/// limit where no line stays without a firm; or else how many there are.
pub(super) fn view_suspense<S: Alter>(
    tx: &mut Transaction<'_, S>,
    serials: SerialCount,
    lines: &[BankLine],
    all_registered: bool,
) -> Result<u64, Fault>
    ensures same_reference { tx.new.conn.ghost_name ≡ tx.old.conn.ghost_name }
    ensures reads { Reads S.Store ⊤ tx.old.conn.now tx.new.conn.now result
        (λ t count. IsSuspenseViewed t serials lines.now all_registered count) }
    ensures few { serials + length lines.now ≤ most_suspense
        → IfOk result (IsUncounted serials) }
    ensures placed { all_registered ≡ true
        → list_all (λ line. is_some line.employer) lines.now ≡ true
        → IfOk result (IsUncounted serials) }
{
    if let Some(number) = serving(serials, lines, MAX_SUSPENSE) {
        return Ok(number);
    }
    if all_registered && each_names_a_firm(lines) {
        return Ok(MAX_SUSPENSE);
    }
    suspense_count(tx)
}

// Whether each of these lines names a firm.
fn each_names_a_firm(lines: &[BankLine]) -> bool
    ensures { result ≡ list_all (λ line. is_some line.employer) lines.now }
{
    lines.iter().all(|line| line.employer.is_some())
}

/// The number that serves for the credits of a firm for a purpose, or else how many there are.
pub(super) fn count_credits<S: Alter>(
    tx: &mut Transaction<'_, S>,
    serving: Option<u64>,
    no: EmployerNo,
    purpose: Purpose,
) -> Result<u64, Fault>
    ensures same_reference { tx.new.conn.ghost_name ≡ tx.old.conn.ghost_name }
    ensures reads { Reads S.Store ⊤ tx.old.conn.now tx.new.conn.now result
        (λ t count. count ≡ credits_viewed serving t no purpose) }
{
    if let Some(number) = serving {
        return Ok(number);
    }
    credit_count(tx, no, purpose)
}
