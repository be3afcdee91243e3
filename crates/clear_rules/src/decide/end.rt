//! The decision on the end of a membership.
ghost use Rattle.std.specs.Prelude.{◌≡◌, ℕ, IfOk};
ghost use Rattle.std.specs.Option.{option_map};
ghost use Rattle.clear_book.specs.declared.calls.Command.TheVariants.{EndMembership as DoEnd};
ghost use Rattle.clear_book.specs.Book.{Book};
ghost use Rattle.clear_book.specs.Own.EndMembership.{end_reply, own_end, reported_rule};
ghost use Rattle.clear_book.specs.Tables.{member_in};
ghost use Rattle.clear_rules.specs.Decisions.{Obeys, IsJudged, TakesTables};
ghost use Rattle.clear_rules.specs.Views.EndMembership.{Ends, IsEndView};

use clear_book::calls::MembershipEnd;
use clear_book::outcomes::Reply;
use clear_book::rows::{Change, Decision, EmployerRow};
use clear_book::rules::Rule;
use clear_money::months::Month;

/// What the end of a membership is judged by.
#[derive(Drop)]
pub struct EndView {
    /// The employer, if it is registered.
    pub member: Option<EmployerRow>,
    /// The greatest month of which it has a report, if there is one.
    pub reported: Option<Month>,
}

/// Decides on the end of a membership: `UnknownEmployer`, `MonthOutside` where the last month lies
/// before the first member month or an end is set already, `EndBeforeReports` with the greatest
/// month that has a report where the last month lies before it, in this order.
///
/// An accepted end leaves the employer as it was, but that its last member month is set; that may
/// lie ahead of the day. The employer's name moves from the view into the new row. It costs a few
/// steps.
pub fn decide_end(end: &MembershipEnd, view: EndView) -> Result<Decision, Rule>
    // The answer is the judge's, where the view is the book's.
    ensures judged { (b : Book) (day : ℕ) → IsEndView b end.now view
        → IsJudged b day (DoEnd end.now) result }
    // Where the judge gives the reply, the change takes the tables of a lawful book to those of the
    // next.
    ensures change { (b : Book) (day : ℕ) → IsEndView b end.now view
        → IfOk result (TakesTables b day (DoEnd end.now)) }
    ensures rule { Obeys result
        (own_end (option_map member_in view.member) view.reported end.now.last) }
    ensures made { IfOk result (λ decision. Ends end.now view decision.change) }
    ensures reply { IfOk result (λ decision. decision.reply ≡ end_reply) }
{
    let EndView { member, reported } = view;
    let Some(member) = member else {
        return Err(Rule::UnknownEmployer);
    };
    if member.last.is_some() || end.last < member.start {
        return Err(Rule::MonthOutside);
    }
    check_reported(reported, end.last)?;
    let row = EmployerRow {
        employer: end.employer,
        name: member.name,
        start: member.start,
        last: Some(end.last),
    };
    Ok(Decision {
        change: Change::EndMembership(row),
        reply: Reply::Done,
    })
}

// `EndBeforeReports` with the greatest month that has a report, where the last one lies before it.
fn check_reported(reported: Option<Month>, last: Month) -> Result<(), Rule>
    ensures { Obeys result (reported_rule reported last) }
{
    match reported {
        Some(month) if last < month => Err(Rule::EndBeforeReports(month)),
        Some(_) => Ok(()),
        None => Ok(()),
    }
}
