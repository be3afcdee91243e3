//! The decision on a claim.
ghost use Rattle.std.specs.Prelude.{◌≡◌, IfOk};
ghost use Rattle.clear_book.specs.declared.calls.Command.TheVariants.{Claim as DoClaim};
ghost use Rattle.clear_book.specs.Book.{Book};
ghost use Rattle.clear_book.specs.Own.Claim.{own_claim};
ghost use Rattle.clear_book.specs.Workers.{new_claim};
ghost use Rattle.clear_rules.specs.Decisions.{Obeys, IsJudged, TakesTables};
ghost use Rattle.clear_rules.specs.Views.Claim.{IsClaimView};

use clear_book::calls::HolidayClaim;
use clear_book::numbers::ClaimNo;
use clear_book::outcomes::Reply;
use clear_book::rows::{Change, ClaimRow, ClaimState, Decision};
use clear_book::rules::Rule;
use clear_money::days::Day;

/// What a claim is judged by.
#[derive(Clone, Copy)]
pub struct ClaimView {
    /// Whether the employer is registered.
    pub registered: bool,
    /// Whether a latest report of the employer has a line of the worker, be it of 0 cents.
    pub employed: bool,
    /// What of the worker's entitlement is still to be claimed, in cents.
    pub balance: u64,
    /// The number that the claim is to have: the one behind the last that was given.
    pub next: ClaimNo,
}

/// Decides on a claim on the request's day: `UnknownEmployer`, `NotEmployed`, `OverBalance` with
/// the worker's balance where the cents are above it, in this order.
///
/// An accepted claim is open, made on this day, and replied with its number, the one behind the
/// last that was given. It costs a few steps.
pub fn decide_claim(day: Day, claim: &HolidayClaim, view: &ClaimView) -> Result<Decision, Rule>
    // The answer is the judge's, where the view is the book's.
    ensures judged { (b : Book) → IsClaimView b claim.now view.now
        → IsJudged b day (DoClaim claim.now) result }
    // Where the judge gives the reply, the change takes the tables of a lawful book to those of the
    // next.
    ensures change { (b : Book) → IsClaimView b claim.now view.now
        → IfOk result (TakesTables b day (DoClaim claim.now)) }
    ensures rule { Obeys result (own_claim view.now.registered view.now.employed
        view.now.balance claim.now.cents) }
    ensures made { IfOk result (λ decision.
        decision.change ≡ Change.AddClaim (new_claim view.now.next day claim.now)) }
    ensures reply { IfOk result (λ decision. decision.reply ≡ Reply.Claimed view.now.next) }
{
    if !view.registered {
        return Err(Rule::UnknownEmployer);
    }
    if !view.employed {
        return Err(Rule::NotEmployed);
    }
    if claim.cents.cents() > view.balance {
        return Err(Rule::OverBalance(view.balance));
    }
    let row = ClaimRow {
        claim: view.next,
        employer: claim.employer,
        worker: claim.worker,
        cents: claim.cents,
        made: day,
        state: ClaimState::Open,
    };
    Ok(Decision {
        change: Change::AddClaim(row),
        reply: Reply::Claimed { claim: view.next },
    })
}
