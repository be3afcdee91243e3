//! What a withdrawal is judged by.
ghost use Rattle.std.specs.Prelude.{◌≡◌, ◌∷◌, [], IfErr, IfOk};
ghost use Rattle.clear_book.specs.Book.{Book};
ghost use Rattle.clear_book.specs.Keyed.{find_row};
ghost use Rattle.clear_book.specs.Machine.{IsLawful};
ghost use Rattle.clear_book.specs.Tables.{Stands, claim_key};
ghost use Rattle.clear_rules.specs.Views.Withdraw.{IsWithdrawView};
ghost use Rattle.clear_schema.specs.Frame.{Leaves};
ghost use Rattle.clear_schema.specs.Faults.{IsOfDisk};
ghost use Rattle.clear_debts.specs.Reads.{OfTables};

use crate::member::find_member;
use clear_book::calls::Withdrawal;
use clear_payouts::claims::find_claim;
use clear_rules::decide::withdraw::WithdrawView;
use clear_schema::fault::Fault;
use sqlite::{Alter, Transaction};

/// What a withdrawal is judged by: whether the firm is registered, and the claim of the number, if
/// there is one, whichever firm's it is. It takes one search for each.
pub fn withdraw_view<S: Alter>(
    tx: &mut Transaction<'_, S>,
    withdrawal: &Withdrawal,
) -> Result<WithdrawView, Fault>
    ensures same_reference { tx.new.conn.ghost_name ≡ tx.old.conn.ghost_name }
    ensures claim { OfTables S.Store tx.old.conn.now tx.new.conn.now (λ t.
        IfOk result (λ view. view.claim ≡ find_row claim_key t.claims (withdrawal.now.claim ∷ []))) }
    ensures view { OfTables S.Store tx.old.conn.now tx.new.conn.now (λ t.
        (b : Book) → IsLawful b → Stands b t → IfOk result (IsWithdrawView b withdrawal.now)) }
    ensures fault { OfTables S.Store tx.old.conn.now tx.new.conn.now (λ t.
        (b : Book) → IsLawful b → Stands b t → IfErr result IsOfDisk) }
    ensures leaves { Leaves S.Store tx.old.conn.now tx.new.conn.now result }
{
    let registered = find_member(tx, withdrawal.employer)?.is_some();
    let claim = find_claim(tx, withdrawal.claim)?;
    Ok(WithdrawView { registered, claim })
}
