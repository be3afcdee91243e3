//! What a statement tells of a firm beside its charges and months.
ghost use Rattle.std.specs.Prelude.{◌≡◌, ◌++◌, ◌∷◌, [], IfErr, IfOk, OnOk, map};
ghost use Rattle.clear_kept.specs.Owing.{arrears_in};
ghost use Rattle.clear_book.specs.Own.Statement.{whole_payment};

use crate::statement::StatementRecords;
use clear_book::documents::{FirmAccount, Payment};
use clear_book::rows::CreditRow;
use clear_money::days::Day;
use clear_values::causes::Fault;
use std::alloc::{AllocError, Global};

/// What is told of a firm on a day, where this interest, in cents, is in arrears.
pub(crate) fn firm_account(
    records: &StatementRecords,
    day: Day,
    interest: u64,
) -> Result<FirmAccount, AllocError>
    ensures { IfOk result (λ firm. firm ≡ record {
      employer = records.now.member.employer;
      day = day;
      name = records.now.member.name;
      start = records.now.member.start;
      last = records.now.member.last;
      prepaid = records.now.prepaid;
      arrears = arrears_in records.now.charges day;
      interest = interest;
    }) }
{
    Ok(FirmAccount {
        employer: records.member.employer,
        day,
        name: records.member.name.copied()?,
        start: records.member.start,
        last: records.member.last,
        prepaid: records.prepaid,
        arrears: records.charges.arrears(day),
        interest,
    })
}

/// Whole credits.
pub(crate) fn whole_payments(alloc: Global, credits: &[CreditRow]) -> Result<Vec<Payment>, Fault>
    ensures payments { IfOk result (λ payments. payments.items
        ≡ map whole_payment credits.now) }
    ensures fault { IfErr result (λ fault. fault ≡ Fault.Memory) }
{
    let mut payments = Vec::new(alloc);
    for credit in credits {
        add_payment(&mut payments, credit)?;
    }
    Ok(payments)
}

// Adds a whole credit.
fn add_payment(payments: &mut Vec<Payment>, row: &CreditRow) -> Result<(), Fault>
    ensures payment { OnOk result (payments.new.items
        ≡ payments.old.items ++ whole_payment row.now ∷ []) }
    ensures fault { IfErr result (λ fault. fault ≡ Fault.Memory) }
{
    let payment = whole_payment(row)?;
    payments.push(payment)?;
    Ok(())
}

// A whole credit.
fn whole_payment(row: &CreditRow) -> Result<Payment, AllocError>
    ensures { IfOk result (λ payment. payment ≡ whole_payment row.now) }
{
    Ok(Payment {
        day: row.day,
        cents: row.cents.cents(),
        reference: row.reference.copied()?,
    })
}
