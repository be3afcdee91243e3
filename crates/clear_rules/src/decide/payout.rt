//! The decision on a payout list.
ghost use Rattle.std.specs.Prelude.{◌≡◌, IfOk, length, map};
ghost use Rattle.clear_book.specs.declared.calls.Command.TheVariants.{PayoutList};
ghost use Rattle.clear_book.specs.declared.outcomes.Reply.TheVariants.{Listed};
ghost use Rattle.clear_book.specs.declared.rows.ClaimState.TheVariants.{Released};
ghost use Rattle.clear_book.specs.Book.{Book};
ghost use Rattle.clear_book.specs.Own.PayoutList.{own_payout_list};
ghost use Rattle.clear_book.specs.Workers.{on_list, state_on};
ghost use Rattle.clear_rules.specs.Decisions.{Refuses, IsJudged, TakesTables};
ghost use Rattle.clear_rules.specs.Views.PayoutList.{IsPayoutView, Lists};

use clear_book::numbers::ListNo;
use clear_book::outcomes::Reply;
use clear_book::rows::{Change, ClaimRow, ClaimState, Decision, ListRow, ReleasedClaim, Rows};
use clear_book::rules::Rule;
use clear_money::days::Day;
use std::alloc::{AllocError, Global};

/// What a payout list is judged by.
#[derive(Drop)]
pub struct PayoutView {
    /// The claims of which something is to be paid out, by their numbers.
    pub payable: Vec<ClaimRow>,
    /// What is paid out of them together, in cents.
    pub total: u64,
    /// The number that the list is to have.
    pub next: ListNo,
}

/// Decides on a payout list: `NothingToPay` where nothing is to be paid out. `Memory` may stand in
/// place of any answer.
///
/// All that is to be paid out goes on the list, in the order of the claims' numbers. It costs a few
/// steps a claim that is listed.
pub fn decide_payout(alloc: Global, day: Day, view: &PayoutView) -> Result<Decision, Rule>
    // The answer is the judge's, where the view is the book's, but for want of memory.
    ensures judged { (b : Book) → IsPayoutView b view.now → IsJudged b day PayoutList result }
    // Where the judge gives the reply, the change takes the tables of a lawful book to those of the
    // next.
    ensures change { (b : Book) → IsPayoutView b view.now
        → IfOk result (TakesTables b day PayoutList) }
    ensures rule { Refuses result (own_payout_list view.now.payable.items) }
    ensures made { IfOk result (λ decision. Lists day view.now decision.change) }
    ensures reply { IfOk result (λ decision. decision.reply
        ≡ Listed view.now.next (length view.now.payable.items) view.now.total) }
{
    if view.payable.is_empty() {
        return Err(Rule::NothingToPay);
    }
    let rows = listed_rows(alloc, view.next, &view.payable)?;
    let items = view.payable.len() as u64;
    let list = ListRow {
        list: view.next,
        day,
        items,
        total: view.total,
    };
    Ok(Decision {
        change: Change::AddList(list, Rows::new(rows)),
        reply: Reply::Listed {
            list: view.next,
            items,
            total: view.total,
        },
    })
}

// The rows of claims, each on the list where something of it is to be paid out.
fn listed_rows(
    alloc: Global,
    list: ListNo,
    claims: &[ClaimRow],
) -> Result<Vec<ClaimRow>, AllocError>
    ensures { IfOk result (λ rows. rows.items ≡ map (on_list list) claims.now) }
{
    let mut rows = Vec::new(alloc);
    for claim in claims {
        rows.push(on_list(list, claim))?;
    }
    Ok(rows)
}

// A claim, on the list where something of it is to be paid out.
fn on_list(list: ListNo, claim: &ClaimRow) -> ClaimRow
    ensures { result ≡ on_list list claim.now }
{
    ClaimRow {
        state: state_on(list, claim.state),
        ..*claim
    }
}

// How a claim stands, on the list where something of it is to be paid out.
fn state_on(list: ListNo, state: ClaimState) -> ClaimState
    ensures { result ≡ state_on list state }
{
    match state {
        ClaimState::Open => ClaimState::Open,
        ClaimState::Withdrawn => ClaimState::Withdrawn,
        ClaimState::Released(release) => ClaimState::Released(release_on(list, release)),
    }
}

// A release, on the list where something of it is to be paid out.
fn release_on(list: ListNo, release: ReleasedClaim) -> ReleasedClaim
    ensures { Released result ≡ state_on list (Released release) }
{
    if release.settlement.paid == 0 || release.list.is_some() {
        return release;
    }
    ReleasedClaim {
        list: Some(list),
        ..release
    }
}
