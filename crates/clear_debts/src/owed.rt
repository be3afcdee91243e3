//! What a firm owes, by its rows alone.
ghost use Rattle.std.specs.Prelude.{◌≡◌, IfErr, IfOk};
ghost use Rattle.clear_book.specs.Allocated.{StandsWeighed};
ghost use Rattle.clear_book.specs.Book.{Book};
ghost use Rattle.clear_book.specs.Machine.{IsLawful};
ghost use Rattle.clear_book.specs.Own.Owed.{owed_by};
ghost use Rattle.clear_schema.specs.Frame.{Leaves};
ghost use Rattle.clear_schema.specs.Faults.{IsOfDisk};
ghost use Rattle.clear_debts.specs.Owing.{owed_kept};
ghost use Rattle.clear_debts.specs.Reads.{OfTables};

use crate::owing::find_account;
use clear_book::outcomes::Answer;
use clear_money::days::Day;
use clear_money::numbers::EmployerNo;
use clear_schema::fault::Fault;
use sqlite::{Alter, Transaction};
use std::alloc::Global;

/// What a firm owes on a day, in cents: all its contributions, all its payments of them, what is in
/// arrears, and what is prepaid. It reads what `find_account` reads, and refuses what that refuses.
pub fn owed<S: Alter>(
    alloc: Global,
    tx: &mut Transaction<'_, S>,
    day: Day,
    employer: EmployerNo,
) -> Result<Answer, Fault>
    ensures same_reference { tx.new.conn.ghost_name ≡ tx.old.conn.ghost_name }
    ensures answer { OfTables S.Store tx.old.conn.now tx.new.conn.now (λ t.
        (b : Book) → IsLawful b → StandsWeighed b t
        → IfOk result (λ answer. answer ≡ owed_by b employer day)) }
    // Whatever the tables hold, it is told by what is kept.
    ensures kept { OfTables S.Store tx.old.conn.now tx.new.conn.now (λ t.
        IfOk result (λ answer. answer ≡ owed_kept t employer day)) }
    ensures fault { OfTables S.Store tx.old.conn.now tx.new.conn.now (λ t.
        (b : Book) → IsLawful b → StandsWeighed b t → IfErr result IsOfDisk) }
    ensures leaves { Leaves S.Store tx.old.conn.now tx.new.conn.now result }
{
    let firm = find_account(alloc, tx, employer)?;
    Ok(Answer::Owed {
        charged: firm.charges.charged(),
        credited: firm.credited,
        arrears: firm.charges.arrears(day),
        prepaid: firm.credited.saturating_sub(firm.charges.charged()),
    })
}
