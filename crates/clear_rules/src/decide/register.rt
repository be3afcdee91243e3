//! The decision on a registration.
ghost use Rattle.std.specs.Prelude.{◌≡◌, IfOk};
ghost use Rattle.clear_book.specs.declared.calls.Command.TheVariants.{Register as DoRegister};
ghost use Rattle.clear_book.specs.Book.{Book};
ghost use Rattle.clear_book.specs.Own.Register.{own_register, register_reply};
ghost use Rattle.clear_rules.specs.Decisions.{Refuses, IsJudged, TakesTables};
ghost use Rattle.clear_rules.specs.Views.Register.{IsRegisterView, registered_row};

use clear_book::calls::Registration;
use clear_book::limits::MAX_EMPLOYERS;
use clear_book::outcomes::Reply;
use clear_book::rows::{Change, Decision, EmployerRow};
use clear_book::rules::{Limit, Rule};
use clear_money::days::Day;

/// What a registration is judged by.
#[derive(Clone, Copy)]
pub struct RegisterView {
    /// Whether the employer is registered already.
    pub registered: bool,
    /// How many employers there are; or a number that is no less, and with the new one within the
    /// limit.
    pub employer_count: u64,
    /// Whether a rate row is in force for the first member month.
    pub has_rate: bool,
}

/// Decides on a registration: `EmployerExists`, `OverLimit` of 10,000 employers, `NoRate`, in this
/// order. `Memory` may stand in place of any answer.
///
/// An accepted registration makes the employer a member from its first month on, without an end. It
/// costs a few steps.
pub fn decide_register(
    day: Day,
    registration: &Registration,
    view: &RegisterView,
) -> Result<Decision, Rule>
    // The answer is the judge's, where the view is the book's, but for want of memory.
    ensures judged { (b : Book) → IsRegisterView b registration.now view.now
        → IsJudged b day (DoRegister registration.now) result }
    // Where the judge gives the reply, the change takes the tables of a lawful book to those of the
    // next.
    ensures change { (b : Book) → IfOk result (TakesTables b day (DoRegister registration.now)) }
    ensures rule { Refuses result
        (own_register view.now.registered view.now.employer_count view.now.has_rate) }
    ensures made { IfOk result (λ decision.
        decision.change ≡ Change.AddEmployer (registered_row registration.now)) }
    ensures reply { IfOk result (λ decision. decision.reply ≡ register_reply) }
{
    if view.registered {
        return Err(Rule::EmployerExists);
    }
    if view.employer_count >= MAX_EMPLOYERS {
        return Err(Rule::OverLimit(Limit::Employers));
    }
    if !view.has_rate {
        return Err(Rule::NoRate);
    }
    let Ok(name) = registration.name.copied() else {
        return Err(Rule::Memory);
    };
    let row = EmployerRow {
        employer: registration.employer,
        name,
        start: registration.start,
        last: None,
    };
    Ok(Decision {
        change: Change::AddEmployer(row),
        reply: Reply::Done,
    })
}
