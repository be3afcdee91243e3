//! The checks that every office makes of a call after access and before the own rules.
ghost use Rattle.clear_book.specs.Checks.{when};
ghost use Rattle.clear_book.specs.Judge.{day_back, is_full};
ghost use Rattle.clear_rules.specs.Decisions.{Obeys};

use clear_book::limits::MAX_ENTRIES;
use clear_book::rules::{Limit, Rule};
use clear_money::days::Day;

/// `DayBack` where the day lies before the ledger day, the day of the last accepted request.
pub fn check_day(ledger: Option<Day>, day: Day) -> Result<(), Rule>
    ensures { Obeys result (day_back ledger day) }
{
    if let Some(ledger) = ledger
        && day < ledger
    {
        return Err(Rule::DayBack(ledger));
    }
    Ok(())
}

/// `OverLimit` where the book holds 50,000,000 accepted requests.
pub fn check_room(entry_count: u64) -> Result<(), Rule>
    ensures { Obeys result (when (is_full entry_count) (Rule.OverLimit Limit.Book)) }
{
    if entry_count >= MAX_ENTRIES {
        return Err(Rule::OverLimit(Limit::Book));
    }
    Ok(())
}
