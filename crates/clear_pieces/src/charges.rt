//! The rows of a firm's contributions from one on, with what is paid of them.
ghost use Rattle.std.specs.Prelude.{◌≡◌, ◌≤◌, IfErr, IfOk, length, map};
ghost use Rattle.clear_account.specs.Account.{charged_up_to};
ghost use Rattle.clear_pieces.specs.Firm.{kept_as, settled_from};

use crate::firm::FirmAccount;
use clear_account::places::Front;
use clear_kept::rows::WeighedCharge;
use clear_kept::settled::settle_from;
use clear_money::numbers::EmployerNo;
use clear_schema::fault::Fault;
use clear_values::rows::KeptCharge;
use std::alloc::{AllocError, Global};

/// The rows of a firm's contributions behind a front, the months rising, each with what is open of
/// it and with its weight so far.
///
/// It takes one step for each credit up to where the front ends, and then one walk along the
/// contributions and credits behind that.
pub fn charges_to_put(
    alloc: Global,
    firm: &FirmAccount,
    employer: EmployerNo,
    front: Front,
) -> Result<Vec<KeptCharge>, Fault>
    requires within { front.count ≤ length firm.now.account.charges }
    requires front { front.cents ≡ charged_up_to firm.now.account.charges front.count }
    ensures rows { IfOk result (λ rows. rows.items ≡ settled_from employer
        firm.now.account.charges firm.now.account.credits front.count) }
    ensures err { IfErr result (λ fault. fault ≡ Fault.Memory) }
{
    let charges = firm.account.all_charges();
    let credits = firm.account.all_credits();
    let settled = settle_from(alloc, charges, credits, front)?;
    Ok(rows_of(alloc, employer, settled.as_slice())?)
}

// These contributions as rows of a firm.
fn rows_of(
    alloc: Global,
    employer: EmployerNo,
    settled: &[WeighedCharge],
) -> Result<Vec<KeptCharge>, AllocError>
    ensures { IfOk result (λ rows. rows.items ≡ map (kept_as employer) settled.now) }
{
    let mut rows = Vec::new(alloc);
    for charge in settled {
        rows.push(row_of(employer, charge))?;
    }
    Ok(rows)
}

// This contribution as a row of a firm.
fn row_of(employer: EmployerNo, charge: &WeighedCharge) -> KeptCharge
    ensures { result ≡ kept_as employer charge.now }
{
    KeptCharge {
        employer,
        month: charge.month,
        due: charge.due,
        cents: charge.cents,
        left: charge.left,
        weight: charge.weight,
    }
}
