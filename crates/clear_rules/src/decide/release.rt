//! The decision on a release.
ghost use Rattle.std.specs.Prelude.{◌≡◌, ℕ, IfOk, Some};
ghost use Rattle.clear_book.specs.declared.calls.Command.TheVariants.{Release as DoRelease};
ghost use Rattle.clear_book.specs.Book.{Book};
ghost use Rattle.clear_book.specs.Own.Release.{has_too_many, is_too_many};
ghost use Rattle.clear_rules.specs.Decisions.{Obeys, IsJudged, TakesTables};
ghost use Rattle.clear_rules.specs.Views.Release.{IsReleaseView, Releases, Replies};
ghost use Rattle.clear_rules.specs.Views.Release.{counts_in, release_rule, settlement_in};

use super::settle::settle;
use clear_book::limits::MAX_CREDITS;
use clear_book::numbers::SerialCount;
use clear_book::outcomes::Reply;
use clear_book::rows::{Change, ClaimRow, ClaimState, Decision, ReleasedClaim};
use clear_book::rules::{Limit, Rule};
use clear_money::days::Day;
use clear_money::months::Month;
use clear_values::replies::Settlement;

/// What a firm owes on the request's day, and how many credits it has.
#[derive(Clone, Copy)]
pub struct FirmDebts {
    /// The first month that misses its report, if one does.
    pub first_missing: Option<Month>,
    /// What is in arrears of contributions, in cents.
    pub arrears: u64,
    /// What is in arrears of interest, in cents.
    pub interest_arrears: u64,
    /// The number of its credits for contributions, not their cents; or a number that is no less,
    /// and below 100,000.
    pub contribution_count: u64,
    /// The number of its credits for interest.
    pub interest_count: u64,
}

/// A claim, and what its firm owes.
#[derive(Clone, Copy)]
pub struct OwingClaim {
    pub claim: ClaimRow,
    pub debts: FirmDebts,
}

/// What a release is judged by.
#[derive(Clone, Copy)]
pub struct ReleaseView {
    /// The claim of the number, if there is one.
    pub found: Option<OwingClaim>,
    /// How many serials were given.
    pub serials: SerialCount,
}

/// Decides on the release of a claim on the request's day: `UnknownClaim`, `ClaimNotOpen`,
/// `MissingReport` with the first month that misses its report, `OverLimit` where a set-off above 0
/// would be credit 100,001 of its firm for its purpose, in this order.
///
/// An accepted release settles the claim: its cents first pay what the firm is in arrears of
/// contributions, then what it is in arrears of interest, and the rest is to be paid out, on no
/// list yet. Each set-off above 0 is a credit of the firm with this day, under the next serial,
/// and the reply says the three amounts. It costs a few steps.
pub fn decide_release(day: Day, view: &ReleaseView) -> Result<Decision, Rule>
    // The answer is the judge's, where the view is the book's.
    ensures judged { (b : Book) (claim : ℕ) → IsReleaseView b day claim view.now
        → IsJudged b day (DoRelease claim) result }
    // Where the judge gives the reply, the change takes the tables of a lawful book to those of the
    // next.
    ensures change { (b : Book) (claim : ℕ) → IsReleaseView b day claim view.now
        → IfOk result (TakesTables b day (DoRelease claim)) }
    ensures rule { Obeys result (release_rule view.now.found) }
    ensures made { IfOk result (λ decision. Releases view.now day decision.change) }
    ensures reply { IfOk result (λ decision. Replies view.now decision.reply) }
{
    let Some(found) = view.found else {
        return Err(Rule::UnknownClaim);
    };
    let settlement = settle_claim(&found)?;
    let release = ReleasedClaim {
        day,
        settlement,
        list: None,
    };
    let claim = ClaimRow {
        state: ClaimState::Released(release),
        ..found.claim
    };
    Ok(Decision {
        change: Change::ReleaseClaim {
            claim,
            serial: view.serials.count() + 1,
        },
        reply: Reply::Released(settlement),
    })
}

// How a claim is settled, unless a rule applies.
fn settle_claim(found: &OwingClaim) -> Result<Settlement, Rule>
    ensures rule { Obeys result (release_rule (Some found.now)) }
    ensures value { IfOk result (λ settlement. settlement ≡ settlement_in found.now) }
{
    let claim = &found.claim;
    let debts = &found.debts;
    if !claim.state.is_open() {
        return Err(Rule::ClaimNotOpen);
    }
    if let Some(month) = debts.first_missing {
        return Err(Rule::MissingReport(month));
    }
    let settlement = settle(claim.cents, debts.arrears, debts.interest_arrears);
    if has_too_many(&settlement, debts) {
        return Err(Rule::OverLimit(Limit::Credits));
    }
    Ok(settlement)
}

// Whether a set-off would be one credit too many.
fn has_too_many(settlement: &Settlement, debts: &FirmDebts) -> bool
    ensures { result ≡ has_too_many settlement.now (counts_in debts.now) }
{
    is_too_many(settlement.to_contributions, debts.contribution_count)
        || is_too_many(settlement.to_interest, debts.interest_count)
}

// Whether so many cents that are set off would be one credit too many, where there are so many.
fn is_too_many(cents: u64, count: u64) -> bool
    ensures { result ≡ is_too_many cents count }
{
    cents > 0 && count >= MAX_CREDITS
}
