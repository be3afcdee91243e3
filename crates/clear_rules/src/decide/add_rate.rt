//! The decision on new rates.
ghost use Rattle.std.specs.Prelude.{◌≡◌, List, IfOk};
ghost use Rattle.clear_money.specs.Rates.{Rate, last_first};
ghost use Rattle.clear_book.specs.declared.calls.Command.TheVariants.{AddRate as DoAddRate};
ghost use Rattle.clear_book.specs.Book.{Book, rates_of};
ghost use Rattle.clear_book.specs.Own.AddRate.{add_rate_reply, own_add_rate};
ghost use Rattle.clear_rules.specs.Decisions.{Obeys, IsJudged, TakesTables};

use clear_book::outcomes::Reply;
use clear_book::rows::{Change, Decision};
use clear_book::rules::Rule;
use clear_money::days::Day;
use clear_money::months::Month;
use clear_money::rates::RateRow;

/// Decides on a row of rates on the request's day, where the last row that stands begins with this
/// month: `RateOrder` where its first month is not after that, or not after the month of the day.
///
/// An accepted row stands behind those that stand, and leaves them as they were. It costs a few
/// steps.
pub fn decide_add_rate(day: Day, row: RateRow, last: Month) -> Result<Decision, Rule>
    // The answer is the judge's, where the month is that of the book's last row.
    ensures judged { (b : Book) → last ≡ last_first (rates_of b)
        → IsJudged b day (DoAddRate row) result }
    // Where the judge gives the reply, the change takes the tables of a lawful book to those of the
    // next.
    ensures change { (b : Book) → IfOk result (TakesTables b day (DoAddRate row)) }
    ensures rule { (rates : List Rate) → last ≡ last_first rates
        → Obeys result (own_add_rate rates day row.first) }
    ensures made { IfOk result (λ decision. decision.change ≡ Change.AddRate row) }
    ensures reply { IfOk result (λ decision. decision.reply ≡ add_rate_reply) }
{
    let first = row.first();
    if first <= last || first.number() <= day.month_number() {
        return Err(Rule::RateOrder);
    }
    Ok(Decision {
        change: Change::AddRate(row),
        reply: Reply::Done,
    })
}
