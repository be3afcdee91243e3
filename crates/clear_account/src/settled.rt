//! What an account tells of each of its charges, by one walk along charges and payments.
ghost use Rattle.std.specs.Prelude.{◌≡◌, ◌++◌, ◌+◌, ◌^◌, ◌<◌, ◌≤◌, All, IfOk, OnOk, length, sum_by};
ghost use Rattle.clear_money.specs.Calendar.{day_of_month};
ghost use Rattle.clear_money.specs.Limits.{most_base, most_charged};
ghost use Rattle.clear_account.specs.Account.{IsAccount, charged_up_to, credited_up_to};
ghost use Rattle.clear_account.specs.Settled.{share_at};
ghost use Rattle.clear_account.specs.Walk.{Stands, late_cents, shares_between};

use crate::entries::{Charge, Credit};
use crate::places::credits_ended;
use crate::weights::{common, weigh_part};
use clear_money::days::Day;
use std::alloc::{AllocError, Global};

/// So many cents of the payment at a place, counted from 0 in the account's order.
#[derive(Clone, Copy)]
pub struct Share {
    pub place: usize,
    /// 1 cent or more.
    pub cents: u64,
}

/// What is paid of a charge, whatever the day. Amounts are in cents.
#[derive(Clone, Copy)]
pub struct Paid {
    /// What is open of the charge.
    pub left: u64,
    /// Its weight so far: its shares, each once for each month begun from the due day until it was
    /// paid.
    pub weight: u64,
}

/// A walk along charges and payments, from one charge to the next.
#[derive(Clone, Copy)]
pub struct Walk {
    /// So many cents of charges are walked.
    pub charged: u64,
    /// The place of the payment at which it stands, from 0.
    pub place: usize,
    /// The cents of the payments before that one.
    pub credited: u64,
}

impl Walk {
    ghost use Rattle.std.specs.Prelude.{◌≡◌, ◌+◌, ◌^◌, ◌<◌, ◌≤◌, IfOk, OnOk, length};
    ghost use Rattle.clear_account.specs.Account.{IsAccount, charged_up_to, credited, credited_up_to};
    ghost use Rattle.clear_account.specs.Places.{Ends};
    ghost use Rattle.clear_account.specs.Walk.{Stands, paid_charge};

    /// A walk that begins behind so many cents of charges, at the first payment that ends above them.
    pub fn behind(charged: u64, credits: &[Credit]) -> Walk
        requires { credited credits.now < 2 ^ 64 }
        ensures stands { Stands credits.now result }
        ensures charged { result.charged ≡ charged }
        ensures place { Ends (λ k. k.cents) credits.now charged result.place }
    {
        let paid = credits_ended(credits, charged);
        Walk {
            charged,
            place: paid.count,
            credited: paid.cents,
        }
    }

    /// What is paid of the charge at a place, to which the walk has come. It goes on behind that
    /// charge, and to the payment that ends there or above, or behind all. Takes one step for each payment
    /// up to where the charge ends.
    pub fn find_paid(
        &mut self,
        alloc: Global,
        charges: &[Charge],
        credits: &[Credit],
        place: usize,
    ) -> Result<Paid, AllocError>
        requires account { IsAccount charges.now credits.now }
        requires place { place < length charges.now }
        requires stands { Stands credits.now self.old }
        requires charged { self.old.charged ≡ charged_up_to charges.now place }
        ensures paid { IfOk result (λ paid. paid ≡ paid_charge charges.now credits.now place) }
        ensures stands { Stands credits.now self.new }
        ensures charged { self.new.charged ≡ charged_up_to charges.now (place + 1) }
        ensures reaches { OnOk result (self.new.place < length credits.now →
            self.new.charged ≤ credited_up_to credits.now (self.new.place + 1)) }
    {
        let charge = &charges[place];
        let end = self.charged + charge.cents;
        let shares = find_shares(alloc, credits, end, self)?;
        Ok(Paid {
            left: charge.cents - add_shares(shares.as_slice()),
            weight: weigh_shares(shares.as_slice(), credits, charge.due),
        })
    }
}

// What the payments have in common with the stretch of cents from where the walk stands to an end,
// which it walks on to.
fn find_shares(
    alloc: Global,
    credits: &[Credit],
    end: u64,
    walk: &mut Walk,
) -> Result<Vec<Share>, AllocError>
    requires order { walk.old.charged ≤ end }
    requires small { end ≤ most_charged }
    requires stands { Stands credits.now walk.old }
    ensures shares { IfOk result (λ shares. shares.items
        ≡ shares_between walk.old.charged end credits.now) }
    ensures stands { Stands credits.now walk.new }
    ensures charged { walk.new.charged ≡ end }
    ensures reaches { OnOk result (walk.new.place < length credits.now →
        end ≤ credited_up_to credits.now (walk.new.place + 1)) }
{
    let start = walk.charged;
    walk.charged = end;
    let mut shares = Vec::new(alloc);
    while walk.place < credits.len() {
        let credit = &credits[walk.place];
        let credit_end = walk.credited + credit.cents.cents();
        let cents = common(start, end, walk.credited, credit_end);
        add_share(&mut shares, walk.place, cents)?;
        if end <= credit_end {
            return Ok(shares);
        }
        walk.credited = credit_end;
        walk.place += 1;
    }
    Ok(shares)
}

// Adds so many cents of the payment at a place, if they are more than 0.
fn add_share(shares: &mut Vec<Share>, place: usize, cents: u64) -> Result<(), AllocError>
    ensures { OnOk result (shares.new.items ≡ shares.old.items ++ share_at place cents) }
{
    if cents > 0 {
        shares.push(Share { place, cents })?;
    }
    Ok(())
}

// The shares, in cents.
fn add_shares(shares: &[Share]) -> u64
    requires { sum_by (λ s. s.cents) shares.now < 2 ^ 64 }
    ensures { result ≡ sum_by (λ s. s.cents) shares.now }
{
    shares.iter().map(|s| s.cents).sum()
}

// The shares of a charge, each once for each month begun from the due day until it was paid.
fn weigh_shares(shares: &[Share], credits: &[Credit], due: Day) -> u64
    requires due { day_of_month due ≤ 28 }
    requires places { All (λ s. s.place < length credits.now) shares.now }
    requires cents { sum_by (λ s. s.cents) shares.now ≤ most_base }
    ensures { result ≡ sum_by (λ s. late_cents credits.now due s) shares.now }
{
    let mut weight = 0;
    for share in shares {
        weight += weigh_part(share.cents, due, credits[share.place].day);
    }
    weight
}
