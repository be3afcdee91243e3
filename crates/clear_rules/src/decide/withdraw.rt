//! The decision on a withdrawal.
ghost use Rattle.std.specs.Prelude.{◌≡◌, ℕ, IfOk};
ghost use Rattle.clear_book.specs.declared.calls.Command.TheVariants.{Withdraw as DoWithdraw};
ghost use Rattle.clear_book.specs.Book.{Book};
ghost use Rattle.clear_book.specs.Own.Withdraw.{own_withdraw, withdraw_reply};
ghost use Rattle.clear_rules.specs.Decisions.{Obeys, IsJudged, TakesTables};
ghost use Rattle.clear_rules.specs.Views.Withdraw.{IsWithdrawView, Withdraws};

use clear_book::calls::Withdrawal;
use clear_book::outcomes::Reply;
use clear_book::rows::{Change, ClaimRow, ClaimState, Decision};
use clear_book::rules::Rule;

/// What a withdrawal is judged by.
#[derive(Clone, Copy)]
pub struct WithdrawView {
    /// Whether the employer is registered.
    pub registered: bool,
    /// The claim of the number, if there is one.
    pub claim: Option<ClaimRow>,
}

/// Decides on a withdrawal: `UnknownEmployer`, `UnknownClaim` where there is no claim of that
/// number or it is another employer's, `ClaimNotOpen`, in this order.
///
/// An accepted withdrawal leaves the claim as it was, but that it is withdrawn. It costs a few
/// steps.
pub fn decide_withdraw(withdrawal: &Withdrawal, view: &WithdrawView) -> Result<Decision, Rule>
    // The answer is the judge's, where the view is the book's.
    ensures judged { (b : Book) (day : ℕ) → IsWithdrawView b withdrawal.now view.now
        → IsJudged b day (DoWithdraw withdrawal.now) result }
    // Where the judge gives the reply, the change takes the tables of a lawful book to those of the
    // next.
    ensures change { (b : Book) (day : ℕ) → IsWithdrawView b withdrawal.now view.now
        → IfOk result (TakesTables b day (DoWithdraw withdrawal.now)) }
    ensures rule { Obeys result
        (own_withdraw view.now.registered withdrawal.now.employer view.now.claim) }
    ensures made { IfOk result (λ decision. Withdraws view.now decision.change) }
    ensures reply { IfOk result (λ decision. decision.reply ≡ withdraw_reply) }
{
    if !view.registered {
        return Err(Rule::UnknownEmployer);
    }
    let Some(claim) = view.claim else {
        return Err(Rule::UnknownClaim);
    };
    if claim.employer != withdrawal.employer {
        return Err(Rule::UnknownClaim);
    }
    if !claim.state.is_open() {
        return Err(Rule::ClaimNotOpen);
    }
    let row = ClaimRow {
        state: ClaimState::Withdrawn,
        ..claim
    };
    Ok(Decision {
        change: Change::WithdrawClaim(row),
        reply: Reply::Done,
    })
}
