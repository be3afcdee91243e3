//! Replies as the numbers that they are kept as.
ghost use Rattle.std.specs.Prelude.{◌≡◌, ◌↔◌, Some, IfSome, IsTrue};
ghost use Rattle.clear_values.specs.declared.replies.Reply.{Reply};
ghost use Rattle.clear_values.specs.RowRanges.{IsReply};
ghost use Rattle.clear_schema.specs.Values.{numbers_of};
ghost use Rattle.clear_ledger.specs.Shown.{AreSmall};

use clear_columns::ranges::{is_contribution, is_listed, is_reminded, is_version, settled_cents};
use clear_money::numbers::Amount;
use clear_schema::columns::ReplyNumbers;
use clear_values::limits::MAX_RECORDS;
use clear_values::numbers::{ClaimNo, ListNo, RunNo};
use clear_values::replies::{Reply, Settlement};

/// The numbers of a reply.
pub fn reply_numbers(reply: &Reply) -> ReplyNumbers
    ensures value { result ≡ numbers_of reply.now }
    ensures small { IsReply reply.now → AreSmall result }
{
    match reply {
        Reply::Done => numbers(1, 0, 0),
        Reply::Reported { version, charge } => numbers(2, u64::from(*version), *charge),
        Reply::Imported { new, repeats } => numbers(3, *new, *repeats),
        Reply::Claimed { claim } => numbers(4, u64::from(claim.number()), 0),
        Reply::Released(settlement) => settlement_numbers(*settlement),
        Reply::Listed { list, items, total } => ReplyNumbers {
            kind: 6,
            first: u64::from(list.number()),
            second: *items,
            third: *total,
        },
        Reply::Reminded { run, firms } => numbers(7, u64::from(run.number()), *firms),
    }
}

// A kind and two numbers.
fn numbers(kind: u64, first: u64, second: u64) -> ReplyNumbers
    ensures { result ≡ record { kind = kind; first = first; second = second; third = 0 } }
{
    ReplyNumbers {
        kind,
        first,
        second,
        third: 0,
    }
}

// The numbers of a release.
fn settlement_numbers(settlement: Settlement) -> ReplyNumbers
    ensures { result ≡ numbers_of (Reply.Released settlement) }
{
    ReplyNumbers {
        kind: 5,
        first: settlement.to_contributions,
        second: settlement.to_interest,
        third: settlement.paid,
    }
}

/// The reply in its ranges that has these numbers, if there is one.
pub fn reply_of(numbers: ReplyNumbers) -> Option<Reply>
    ensures some { IfSome result (λ reply. (numbers_of reply ≡ numbers) × IsReply reply) }
    ensures only { (reply : Reply) → numbers_of reply ≡ numbers → IsReply reply
        → result ≡ Some reply }
{
    let reply = match reply_of_kind(numbers) {
        Some(reply) => reply,
        None => return None,
    };
    if reply_numbers(&reply) == numbers && is_reply(&reply) {
        Some(reply)
    } else {
        None
    }
}

// The reply of this kind with the numbers that the kind has.
fn reply_of_kind(numbers: ReplyNumbers) -> Option<Reply>
    ensures { (reply : Reply) → numbers_of reply ≡ numbers → IsReply reply → result ≡ Some reply }
{
    match numbers.kind {
        1 => Some(Reply::Done),
        2 => match u32::try_from(numbers.first) {
            Ok(version) => Some(Reply::Reported {
                version,
                charge: numbers.second,
            }),
            Err(_) => None,
        },
        3 => Some(Reply::Imported {
            new: numbers.first,
            repeats: numbers.second,
        }),
        4 => match ClaimNo::new(numbers.first) {
            Some(claim) => Some(Reply::Claimed { claim }),
            None => None,
        },
        5 => Some(Reply::Released(Settlement {
            to_contributions: numbers.first,
            to_interest: numbers.second,
            paid: numbers.third,
        })),
        6 => match ListNo::new(numbers.first) {
            Some(list) => Some(Reply::Listed {
                list,
                items: numbers.second,
                total: numbers.third,
            }),
            None => None,
        },
        7 => match RunNo::new(numbers.first) {
            Some(run) => Some(Reply::Reminded {
                run,
                firms: numbers.second,
            }),
            None => None,
        },
        _ => None,
    }
}

/// Whether the numbers of a reply are in their ranges.
pub fn is_reply(reply: &Reply) -> bool
    ensures { IsTrue result ↔ IsReply reply.now }
{
    match reply {
        Reply::Done => true,
        Reply::Reported { version, charge } => is_version(*version) && is_contribution(*charge),
        Reply::Imported { new, repeats } => {
            *new <= MAX_RECORDS as u64 && *repeats <= MAX_RECORDS as u64
        }
        Reply::Claimed { claim } => {
            // A proof reads the range of the number from its type.
            let _claim = claim.number();
            true
        }
        Reply::Released(settlement) => match settled_cents(*settlement) {
            Some(cents) => Amount::new(cents).is_some(),
            None => false,
        },
        Reply::Listed { list, items, total } => is_listed(*list, *items, *total),
        Reply::Reminded { run, firms } => is_reminded(*run, *firms),
    }
}
