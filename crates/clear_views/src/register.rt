//! What a registration is judged by.
ghost use Rattle.std.specs.Prelude.{◌≡◌, length, IfErr, IfOk};
ghost use Rattle.clear_book.specs.Book.{Book};
ghost use Rattle.clear_book.specs.Limits.{most_employers};
ghost use Rattle.clear_book.specs.RowRanges.{AreInRange};
ghost use Rattle.clear_book.specs.Tables.{Stands};
ghost use Rattle.clear_schema.specs.Frame.{Leaves};
ghost use Rattle.clear_schema.specs.Faults.{IsOfDisk};
ghost use Rattle.clear_schema.specs.Values.{counts_of};
ghost use Rattle.clear_rules.specs.Views.Register.{IsRegisterView};
ghost use Rattle.clear_debts.specs.Reads.{LeavesOpen, OfTables};
ghost use Rattle.clear_views.specs.Bounds.{bound_or_count};

use crate::lookups::rate_for;
use crate::member::find_member;
use clear_book::calls::Registration;
use clear_book::limits::MAX_EMPLOYERS;
use clear_firms::employers::employer_count;
use clear_rules::decide::register::RegisterView;
use clear_schema::counts::Counts;
use clear_schema::fault::Fault;
use sqlite::{Alter, Transaction};

/// What a registration is judged by: whether the firm is registered, whether a rate row is in force
/// for its first member month, and how many firms there are, `counts` being the counts that stand.
/// While there are fewer than 10,000 entries, their number serves, since each firm is one of them;
/// else the firms are counted. Where the rows lie in their ranges, no fault is one of a key or of a
/// row.
pub fn register_view<S: Alter>(
    tx: &mut Transaction<'_, S>,
    counts: &Counts,
    registration: &Registration,
) -> Result<RegisterView, Fault>
    ensures same_reference { tx.new.conn.ghost_name ≡ tx.old.conn.ghost_name }
    ensures view { OfTables S.Store tx.old.conn.now tx.new.conn.now (λ t.
        counts.now ≡ counts_of t → (b : Book) → Stands b t
        → IfOk result (IsRegisterView b registration.now)) }
    // While the entries serve, the limit is judged by their number, not by how many firms there are.
    ensures count { OfTables S.Store tx.old.conn.now tx.new.conn.now (λ t.
        IfOk result (λ view. view.employer_count
        ≡ bound_or_count counts.now.entries most_employers (length t.employers))) }
    ensures fault { OfTables S.Store tx.old.conn.now tx.new.conn.now (λ t.
        AreInRange t → IfErr result IsOfDisk) }
    ensures leaves { Leaves S.Store tx.old.conn.now tx.new.conn.now result }
{
    let registered = find_member(tx, registration.employer)?.is_some();
    let has_rate = rate_for(tx, registration.start)?.is_some();
    let employer_count = employer_bound(tx, counts.entries)?;
    Ok(RegisterView {
        registered,
        employer_count,
        has_rate,
    })
}

// The number of entries, while one more firm than that stays within the limit; else how many firms
// there are.
fn employer_bound<S: Alter>(tx: &mut Transaction<'_, S>, entries: u64) -> Result<u64, Fault>
    ensures same_reference { tx.new.conn.ghost_name ≡ tx.old.conn.ghost_name }
    ensures count { OfTables S.Store tx.old.conn.now tx.new.conn.now (λ t.
        IfOk result (λ count. count ≡ bound_or_count entries most_employers (length t.employers))) }
    ensures fault { OfTables S.Store tx.old.conn.now tx.new.conn.now (λ t.
        AreInRange t → IfErr result IsOfDisk) }
    ensures leaves { LeavesOpen S.Store tx.old.conn.now tx.new.conn.now result }
{
    if entries < MAX_EMPLOYERS {
        return Ok(entries);
    }
    employer_count(tx)
}
