//! The pieces of the charges and payments that are left of an account, by one pass over two queues.
ghost use Rattle.std.specs.Prelude.{◌≡◌, ◌++◌, ◌+◌, ◌^◌, ◌<◌, ◌≤◌, All, IfErr, IfOk, OnOk};
ghost use Rattle.std.specs.Prelude.{length};
ghost use Rattle.clear_account.specs.Allocation.{piece_of};
ghost use Rattle.clear_account.specs.Suffix.{pieces_behind};
ghost use Rattle.clear_money.specs.Limits.{most_charged, most_credited, most_credits, most_months};

use crate::entries::{AccountFault, Charge, Credit, Piece};
use crate::turns::Turns;
use std::alloc::{AllocError, Global};

/// What each payment pays of each charge, in order of charge, then payment, where `charged` cents
/// of charges and `credited` cents of payments lie before them in their account.
///
/// Adds the turns that it takes. Proved of their count is that it is no less than that of the pieces, and
/// at most one more than that of the charges and payments. A refusal, which is for want of memory alone,
/// may have added some.
pub fn refill(
    alloc: Global,
    charged: u64,
    credited: u64,
    charges: &[Charge],
    credits: &[Credit],
    turns: &mut Turns,
) -> Result<Vec<Piece>, AccountFault>
    requires charged { charged ≤ most_charged }
    requires credited { credited ≤ most_credited }
    requires charges { length charges.now ≤ most_months }
    requires credits { length credits.now ≤ most_credits }
    requires owed { All (λ c. c.cents ≤ Charge.MAX_CENTS) charges.now }
    requires turns { turns.old < 2 ^ 62 }
    ensures right { IfOk result (λ pieces.
        pieces.items ≡ pieces_behind charged credited charges.now credits.now) }
    ensures a_turn_a_piece { IfOk result (λ pieces.
        turns.old + length pieces.items ≤ turns.new) }
    ensures adds { turns.old ≤ turns.new }
    ensures few_turns { turns.new ≤ turns.old + length charges.now + length credits.now + 1 }
    ensures few_pieces { IfOk result (λ pieces. 0 < length charges.now + length credits.now →
        length pieces.items < length charges.now + length credits.now) }
    ensures err { IfErr result (λ fault. fault ≡ AccountFault.Memory) }
{
    Ok(walk(alloc, charged, credited, charges, credits, turns)?)
}

// The charge and the payment at the front of their queues meet; the one that ends first makes room
// for the next.
fn walk(
    alloc: Global,
    charged: u64,
    credited: u64,
    charges: &[Charge],
    credits: &[Credit],
    turns: &mut Turns,
) -> Result<Vec<Piece>, AllocError>
    requires charged { charged ≤ most_charged }
    requires credited { credited ≤ most_credited }
    requires charges { length charges.now ≤ most_months }
    requires credits { length credits.now ≤ most_credits }
    requires owed { All (λ c. c.cents ≤ Charge.MAX_CENTS) charges.now }
    requires turns { turns.old < 2 ^ 62 }
    ensures right { IfOk result (λ pieces.
        pieces.items ≡ pieces_behind charged credited charges.now credits.now) }
    ensures a_turn_a_piece { IfOk result (λ pieces.
        turns.old + length pieces.items ≤ turns.new) }
    ensures adds { turns.old ≤ turns.new }
    ensures few_turns { turns.new ≤ turns.old + length charges.now + length credits.now + 1 }
    ensures few_pieces { IfOk result (λ pieces. 0 < length charges.now + length credits.now →
        length pieces.items < length charges.now + length credits.now) }
{
    let mut pieces = Vec::new(alloc);
    let mut charge_start = charged;
    let mut credit_start = credited;
    let mut i = 0;
    let mut j = 0;
    'queues: while i < charges.len() && j < credits.len() {
        turns.add();
        let charge = &charges[i];
        let credit = &credits[j];
        let charge_end = charge_start + charge.cents;
        let credit_end = credit_start + credit.cents.cents();
        let start = charge_start.max(credit_start);
        let end = charge_end.min(credit_end);
        add_piece(&mut pieces, charge, credit, end.saturating_sub(start))?;
        if charge_end <= credit_end {
            charge_start = charge_end;
            i += 1;
        } else {
            credit_start = credit_end;
            j += 1;
        }
    }
    Ok(pieces)
}

// Adds what a payment pays of a charge, if it is more than 0.
fn add_piece(
    pieces: &mut Vec<Piece>,
    charge: &Charge,
    credit: &Credit,
    cents: u64,
) -> Result<(), AllocError>
    ensures items { OnOk result
        (pieces.new.items ≡ pieces.old.items ++ piece_of charge.now credit.now cents) }
    ensures one { OnOk result (length pieces.new.items ≤ length pieces.old.items + 1) }
{
    if cents > 0 {
        pieces.push(Piece {
            month: charge.month,
            serial: credit.serial,
            cents,
        })?;
    }
    Ok(())
}
