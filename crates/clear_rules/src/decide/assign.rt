//! The decision on an assignment.
ghost use Rattle.std.specs.Prelude.{◌≡◌, ℕ, IfOk};
ghost use Rattle.clear_book.specs.declared.calls.Command.TheVariants.{Assign as DoAssign};
ghost use Rattle.clear_book.specs.Book.{Book};
ghost use Rattle.clear_book.specs.Own.Assign.{assign_reply};
ghost use Rattle.clear_rules.specs.Decisions.{Obeys, IsJudged, TakesTables};
ghost use Rattle.clear_rules.specs.Views.Assign.{Assigns, IsAssignView, assign_rule};

use clear_book::calls::Assignment;
use clear_book::outcomes::Reply;
use clear_book::rows::{BankRow, Change, Decision};
use clear_book::rules::{Limit, Rule};

/// What an assignment is judged by.
#[derive(Drop)]
pub struct AssignView {
    /// Whether the employer is registered.
    pub registered: bool,
    /// The line of the reference as it stands, if there is one.
    pub line: Option<BankRow>,
    /// Whether the employer has as many credits for the line's purpose as it may have; whatever it
    /// is, where there is no line in suspense.
    pub full: bool,
}

/// Decides on an assignment: `UnknownEmployer`, `NotInSuspense` where no line of the reference is
/// in suspense, `OverLimit` where the line would be credit 100,001 of the employer for its purpose,
/// in this order.
///
/// An accepted assignment leaves the line as it was, with its serial and its value date, but that
/// it is the employer's. The line moves from the view into the change. It costs a few steps.
pub fn decide_assign(assignment: &Assignment, view: AssignView) -> Result<Decision, Rule>
    // The answer is the judge's, where the view is the book's.
    ensures judged { (b : Book) (day : ℕ) → IsAssignView b assignment.now view
        → IsJudged b day (DoAssign assignment.now) result }
    // Where the judge gives the reply, the change takes the tables of a lawful book to those of the
    // next.
    ensures change { (b : Book) (day : ℕ) → IsAssignView b assignment.now view
        → IfOk result (TakesTables b day (DoAssign assignment.now)) }
    ensures rule { Obeys result (assign_rule view) }
    ensures made { IfOk result (λ decision. Assigns assignment.now view decision.change) }
    ensures reply { IfOk result (λ decision. decision.reply ≡ assign_reply) }
{
    let AssignView {
        registered,
        line,
        full,
    } = view;
    if !registered {
        return Err(Rule::UnknownEmployer);
    }
    let Some(line) = line else {
        return Err(Rule::NotInSuspense);
    };
    if line.employer.is_some() {
        return Err(Rule::NotInSuspense);
    }
    if full {
        return Err(Rule::OverLimit(Limit::Credits));
    }
    let row = BankRow {
        employer: Some(assignment.employer),
        ..line
    };
    Ok(Decision {
        change: Change::AssignLine(row),
        reply: Reply::Done,
    })
}
