//! Whether plain numbers of a row lie in their ranges.
ghost use Rattle.std.specs.Prelude.{◌≡◌, ◌≤◌, ◌↔◌, ◌^◌, None, length, true, IfSome, IsTrue};
ghost use Rattle.clear_money.specs.Calendar.{months};
ghost use Rattle.clear_values.specs.Limits.{most_base, most_charged, most_claimed, most_employers};
ghost use Rattle.clear_values.specs.Limits.{most_entries, most_gross, most_interest};
ghost use Rattle.clear_values.specs.Limits.{most_versions, most_weight};
ghost use Rattle.clear_values.specs.RowRanges.{IsReply, IsSerial, settled};
ghost use Rattle.clear_values.specs.declared.replies.Reply.{Reply};

use clear_money::months::Month;
use clear_values::limits::{
    MAX_BASE, MAX_CHARGED, MAX_CLAIMED, MAX_EMPLOYERS, MAX_ENTRIES, MAX_GROSS, MAX_INTEREST,
    MAX_SERIALS, MAX_VERSIONS, MAX_WEIGHT,
};
use clear_values::numbers::{ListNo, RunNo};
use clear_values::replies::{Reply, Settlement};

/// Whether a report can have this version, 1 to 10,000.
pub fn is_version(number: u32) -> bool
    ensures { (result ≡ true) ↔ ((1 ≤ number) × (number ≤ most_versions)) }
{
    number >= 1 && number <= MAX_VERSIONS
}

/// Whether a worker's gross amount can be this, at most 10,000,000 cents.
pub fn is_gross(cents: u64) -> bool
    ensures { (result ≡ true) ↔ (cents ≤ most_gross) }
{
    cents <= MAX_GROSS
}

/// Whether the contribution of a month can be this, at most 5,000,000,000 cents.
pub fn is_contribution(cents: u64) -> bool
    ensures { (result ≡ true) ↔ (cents ≤ most_base) }
{
    cents <= MAX_BASE
}

/// Whether the weight of a contribution can be this, at most 12,060,000,000,000 cents.
pub fn is_weight(cents: u64) -> bool
    ensures { (result ≡ true) ↔ (cents ≤ most_weight) }
{
    cents <= MAX_WEIGHT
}

/// Whether a bank line or a release can have this serial, 1 to 500,000,000,000.
pub fn is_serial(number: u64) -> bool
    ensures { (result ≡ true) ↔ IsSerial number }
{
    number >= 1 && number <= MAX_SERIALS
}

// Whether there can be so many firms, at most 10,000.
fn is_firm_count(number: u64) -> bool
    ensures { (result ≡ true) ↔ (number ≤ most_employers) }
{
    number <= MAX_EMPLOYERS
}

/// Whether there can be so many months, at most 2,400.
pub fn is_month_count(number: u32) -> bool
    ensures { (result ≡ true) ↔ (number ≤ length months) }
{
    number <= Month::COUNT as u32
}

/// Whether the contributions of a firm can come to this, at most 12,000,000,000,000 cents.
pub fn is_charged(cents: u64) -> bool
    ensures { (result ≡ true) ↔ (cents ≤ most_charged) }
{
    cents <= MAX_CHARGED
}

/// Whether the interest of a firm can come to this, at most 2,894,400,000,000,000 cents.
pub fn is_interest(cents: u64) -> bool
    ensures { (result ≡ true) ↔ (cents ≤ most_interest) }
{
    cents <= MAX_INTEREST
}

/// Whether so many requests may have been accepted, at most 50,000,000.
pub fn is_entry_count(number: u64) -> bool
    ensures { (result ≡ true) ↔ (number ≤ most_entries) }
{
    number <= MAX_ENTRIES
}

// Whether claims can come to this together, at most 5,000,000,000,000,000,000 cents.
fn is_claimed(cents: u64) -> bool
    ensures { (result ≡ true) ↔ (cents ≤ most_claimed) }
{
    cents <= MAX_CLAIMED
}

/// Whether a payout list can have so many claims and so many cents: 1 to 50,000,000 claims, and at most
/// 5,000,000,000,000,000,000 cents.
pub fn is_listed(list: ListNo, items: u64, total: u64) -> bool
    ensures { IsTrue result ↔ IsReply (Reply.Listed list items total) }
{
    // A proof reads the range of the number from its type.
    let _list = list.number();
    items >= 1 && is_entry_count(items) && is_claimed(total)
}

/// Whether a reminder run can have so many firms: 1 to 10,000.
pub fn is_reminded(run: RunNo, firms: u64) -> bool
    ensures { IsTrue result ↔ IsReply (Reply.Reminded run firms) }
{
    // A proof reads the range of the number from its type.
    let _run = run.number();
    firms >= 1 && is_firm_count(firms)
}

/// The sum of the three amounts of a settlement. None where 64 bits don't hold it.
pub fn settled_cents(settlement: Settlement) -> Option<u64>
    ensures some { IfSome result (λ cents. cents ≡ settled settlement) }
    ensures none { result ≡ None → 2 ^ 64 ≤ settled settlement }
{
    let set_off = settlement
        .to_contributions
        .checked_add(settlement.to_interest)?;
    set_off.checked_add(settlement.paid)
}
