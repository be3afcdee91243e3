//! What a payout list is judged by.
ghost use Rattle.std.specs.Prelude.{◌≡◌, ◌≤◌, ◌<◌, ◌+◌, ◌^◌, filter, length, sum_by};
ghost use Rattle.std.specs.Prelude.{IfErr, IfOk, IfSome, IsSome};
ghost use Rattle.clear_values.specs.Limits.{most_entries};
ghost use Rattle.clear_values.specs.RowRanges.{AreInRange};
ghost use Rattle.clear_book.specs.Book.{Book};
ghost use Rattle.clear_book.specs.Machine.{IsLawful};
ghost use Rattle.clear_book.specs.Tables.{Stands};
ghost use Rattle.clear_book.specs.Workers.{is_payable, paid_out};
ghost use Rattle.clear_rules.specs.Views.PayoutList.{IsPayoutView};
ghost use Rattle.clear_schema.specs.Frame.{Leaves};
ghost use Rattle.clear_schema.specs.Faults.{IsOfDisk};
ghost use Rattle.clear_schema.specs.Values.{counts_of};
ghost use Rattle.clear_reading.specs.Payout.{AreAmong, AreSince, IsViewOf, day_of_list};
ghost use Rattle.clear_reading.specs.Payout.{released_since};
ghost use Rattle.clear_debts.specs.Reads.{OfTables};

use clear_money::days::Day;
use clear_payouts::claims::claims_released_since;
use clear_payouts::lists::find_list;
use clear_rules::decide::payout::PayoutView;
use clear_schema::counts::Counts;
use clear_schema::fault::Fault;
use clear_values::causes::StoreCause;
use clear_values::numbers::ListNo;
use clear_values::rows::ClaimRow;
use sqlite::{Alter, Transaction};

/// What a payout list is judged by, where these counts stand: the claims of which something is to be
/// paid out, by their numbers, what that comes to, and the number that the list is to have.
///
/// It takes one search for the last list, and reads each claim that was released on its day or later
/// once: what was to be paid out before is on a list. What no book holds is refused with
/// `Fault::Store(StoreCause::Row)`: besides a value out of its range, more lists than can be numbered,
/// and amounts whose sum is not below 2^64 cents.
pub fn payout_view<S: Alter>(
    tx: &mut Transaction<'_, S>,
    counts: &Counts,
) -> Result<PayoutView, Fault>
    ensures same_reference { tx.new.conn.ghost_name ≡ tx.old.conn.ghost_name }
    // Each is a claim of the table, and none stands twice.
    ensures claims { OfTables S.Store tx.old.conn.now tx.new.conn.now (λ t.
        IfOk result (λ view. AreAmong view.payable.items t.claims)) }
    ensures view { OfTables S.Store tx.old.conn.now tx.new.conn.now (λ t.
        counts.now ≡ counts_of t → (b : Book) → IsLawful b → Stands b t
        → IfOk result (IsPayoutView b)) }
    // Whatever the tables hold, it is of the claims released on the last list's day or later.
    ensures since { OfTables S.Store tx.old.conn.now tx.new.conn.now (λ t.
        0 < counts.now.lists
        → IfOk result
        (IsViewOf (released_since (day_of_list t.lists counts.now.lists) t.claims)
        (counts.now.lists + 1))) }
    ensures fault { OfTables S.Store tx.old.conn.now tx.new.conn.now (λ t.
        counts.now ≡ counts_of t → (b : Book) → IsLawful b → Stands b t → IfErr result IsOfDisk) }
    ensures leaves { Leaves S.Store tx.old.conn.now tx.new.conn.now result }
{
    let Some(next) = ListNo::new(u64::from(counts.lists) + 1) else {
        return Err(Fault::Store(StoreCause::Row));
    };
    match ListNo::new(u64::from(counts.lists)) {
        Some(last) => payable_after(tx, last, next),
        None => payable_since(tx, Day::first(), next),
    }
}

// What is to be paid out, where this is the number of the last list: no claim of which something is
// to be paid out was released before its day.
fn payable_after<S: Alter>(
    tx: &mut Transaction<'_, S>,
    last: ListNo,
    next: ListNo,
) -> Result<PayoutView, Fault>
    ensures same_reference { tx.new.conn.ghost_name ≡ tx.old.conn.ghost_name }
    ensures claims { OfTables S.Store tx.old.conn.now tx.new.conn.now (λ t.
        IfOk result (λ view. AreAmong view.payable.items t.claims)) }
    ensures view { OfTables S.Store tx.old.conn.now tx.new.conn.now (λ t.
        AreSince (day_of_list t.lists last) t.claims → IfOk result (IsViewOf t.claims next)) }
    ensures since { OfTables S.Store tx.old.conn.now tx.new.conn.now (λ t.
        IfOk result (IsViewOf (released_since (day_of_list t.lists last) t.claims) next)) }
    ensures fault { OfTables S.Store tx.old.conn.now tx.new.conn.now (λ t.
        AreInRange t → length t.claims ≤ most_entries → IfErr result IsOfDisk) }
    ensures leaves { Leaves S.Store tx.old.conn.now tx.new.conn.now result }
{
    match find_list(tx, last)? {
        Some(list) => payable_since(tx, list.day, next),
        None => payable_since(tx, Day::first(), next),
    }
}

// What is to be paid out, where no claim of which something is to be paid out was released before
// this day.
fn payable_since<S: Alter>(
    tx: &mut Transaction<'_, S>,
    since: Day,
    next: ListNo,
) -> Result<PayoutView, Fault>
    ensures same_reference { tx.new.conn.ghost_name ≡ tx.old.conn.ghost_name }
    ensures claims { OfTables S.Store tx.old.conn.now tx.new.conn.now (λ t.
        IfOk result (λ view. AreAmong view.payable.items t.claims)) }
    ensures view { OfTables S.Store tx.old.conn.now tx.new.conn.now (λ t.
        AreSince since t.claims → IfOk result (IsViewOf t.claims next)) }
    ensures since { OfTables S.Store tx.old.conn.now tx.new.conn.now (λ t.
        IfOk result (IsViewOf (released_since since t.claims) next)) }
    ensures fault { OfTables S.Store tx.old.conn.now tx.new.conn.now (λ t.
        AreInRange t → length t.claims ≤ most_entries → IfErr result IsOfDisk) }
    ensures leaves { Leaves S.Store tx.old.conn.now tx.new.conn.now result }
{
    let rows = claims_released_since(tx, since)?;
    view_of(rows, next)
}

// The view of the claims among these of which something is to be paid out.
fn view_of(rows: Vec<ClaimRow>, next: ListNo) -> Result<PayoutView, Fault>
    ensures view { IfOk result (IsViewOf rows.items next) }
    ensures fault { sum_by (λ row. paid_out row.state)
        (filter (λ row. is_payable row.state) rows.items) < 2 ^ 64 → IfErr result IsOfDisk }
{
    let mut payable = rows;
    keep_payable(&mut payable);
    match add_paid(payable.as_slice()) {
        Some(total) => Ok(PayoutView {
            payable,
            total,
            next,
        }),
        None => Err(Fault::Store(StoreCause::Row)),
    }
}

// Keeps the claims of which something is to be paid out.
fn keep_payable(rows: &mut Vec<ClaimRow>)
    ensures { rows.new.items ≡ filter (λ row. is_payable row.state) rows.old.items }
{
    rows.retain(|row| row.state.is_payable());
}

// What is paid out of claims together, in cents. None of a sum from 2^64 on.
fn add_paid(rows: &[ClaimRow]) -> Option<u64>
    ensures value { IfSome result (λ sum. sum ≡ sum_by (λ row. paid_out row.state) rows.now) }
    ensures some { sum_by (λ row. paid_out row.state) rows.now < 2 ^ 64 → IsSome result }
{
    let mut sum: u64 = 0;
    for row in rows {
        sum = sum.checked_add(row.state.paid_out())?;
    }
    Some(sum)
}
