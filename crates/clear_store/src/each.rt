//! Rows put into a table, one after another.
ghost use Rattle.std.proofs.Common.{ap};
ghost use Rattle.std.proofs.lemmas.Bool.{or_from, or_parts};
ghost use Rattle.std.specs.List.{AllByRecursion};
ghost use Rattle.std.specs.Prelude.{◌≡◌, ◌≤◌, refl, false, is_some};
ghost use Rattle.clear_values.specs.Credits.{credit_key};
ghost use Rattle.clear_values.specs.Keyed.{is_held, replaced_rows, with_rows};
ghost use Rattle.clear_values.specs.Limits.{most_gross};
ghost use Rattle.clear_values.specs.RowRanges.{IsClaimRow, IsPieceRow, IsReminderRow, IsSerial};
ghost use Rattle.clear_values.specs.Tables.{bank_key, charge_key, claim_key, piece_key};
ghost use Rattle.clear_values.specs.Tables.{reminder_key, wage_key, wage_row, wage_rows};
ghost use Rattle.clear_columns.proofs.KeyLemmas.{none_if};
ghost use Rattle.clear_columns.specs.Keys.{are_held};
ghost use Rattle.clear_firms.specs.Amounts.{AreInRange};
ghost use Rattle.clear_ledger.specs.Shown.{is_line_held};
ghost use Rattle.clear_store.specs.Changes.{AreFree, Puts};

use clear_firms::charges::{Charges, settle_charge};
use clear_firms::wages::insert_wage;
use clear_ledger::bank::{Bank, insert_line};
use clear_ledger::credits::{Credits, insert_credit};
use clear_ledger::pieces::{Pieces, insert_piece};
use clear_ledger::reminders::{Reminders, insert_reminder};
use clear_money::months::Month;
use clear_money::numbers::EmployerNo;
use clear_payouts::claims::{Claims, replace_claim};
use clear_schema::fault::Fault;
use clear_values::rows::{
    BankRow, ClaimRow, CreditRow, KeptCharge, PieceRow, ReminderRow, WageRow,
};
use clear_values::texts::WageLine;
use sqlite::{Alter, Transaction};

/// A table, by the statement that puts a row into it: it adds the row, or writes it in the place of the
/// one of its key.
pub(crate) trait PutTable {
    ghost use Rattle.std.specs.Prelude.{◌≡◌, ◌↔◌, List, [], ◌∷◌, Bool, false};
    ghost use Rattle.clear_values.specs.Tables.{Tables};
    ghost use Rattle.clear_schema.specs.Frame.{Writes};

    /// What is put into the table.
    type Row;

    /// Each number of a row lies in its range.
    ghost fits: { Self.Row → Type 0 };

    /// A key that the row adds is held.
    ghost held: { Self → Self.Row → Tables → Bool };

    /// Each key that rows add one after another is free.
    ghost are_free: { Self → List Self.Row → Tables → Type 0 };

    /// The tables with rows that are put one after another.
    ghost with_all: { Self → List Self.Row → Tables → Tables };

    /// Puts one row.
    fn put<S: Alter>(&self, tx: &mut Transaction<'_, S>, row: &Self::Row) -> Result<(), Fault>
        ensures same_reference { tx.new.conn.ghost_name ≡ tx.old.conn.ghost_name }
        ensures writes { Writes S.Store tx.old.conn.now tx.new.conn.now result
            (fits row.now) (held self.now row.now) (with_all self.now (row.now ∷ [])) };

    /// No rows change nothing.
    ghost nothing: { (it : Self) (t : Tables) → (t ≡ with_all it [] t) × are_free it [] t };

    /// The first of some rows is put, and then the others.
    ghost first: { (it : Self) (row : Self.Row) (rows : List Self.Row) (t : Tables)
        → (with_all it rows (with_all it (row ∷ []) t) ≡ with_all it (row ∷ rows) t)
        × (are_free it (row ∷ rows) t
        ↔ ((held it row t ≡ false) × are_free it rows (with_all it (row ∷ []) t))) };
}

/// The lines of a firm's month, each of which is a row of wages.
#[derive(Drop)]
pub(crate) struct MonthLines {
    pub(crate) employer: EmployerNo,
    pub(crate) month: Month,
}

/// Puts rows into a table, one after another.
pub(crate) fn put_each<S: Alter, T: PutTable>(
    tx: &mut Transaction<'_, S>,
    table: &T,
    rows: &[T::Row],
) -> Result<(), Fault>
    ensures same_reference { tx.new.conn.ghost_name ≡ tx.old.conn.ghost_name }
    ensures puts { Puts S.Store tx.old.conn.now tx.new.conn.now result (λ _. Unit {0})
        (T.are_free table.now rows.now) (AllByRecursion T.fits rows.now)
        (T.with_all table.now rows.now) }
{
    for row in rows {
        table.put(tx, row)?;
    }
    Ok(())
}

impl PutTable for Pieces {
    type Row = PieceRow;

    ghost fits = { IsPieceRow };

    ghost held = { λ _ row t. is_held piece_key row t.pieces };

    ghost are_free = { λ _ rows t. AreFree piece_key t.pieces rows };

    ghost with_all = { λ _ rows t. record t { pieces = with_rows piece_key t.pieces rows } };

    fn put<S: Alter>(&self, tx: &mut Transaction<'_, S>, row: &PieceRow) -> Result<(), Fault> {
        insert_piece(tx, row)
    }

    ghost nothing = { λ _ t. (refl, tt) };

    ghost first = { λ _ _ _ _. (refl, (λ f. (ap is_some f.0, f.1), λ f. (none_if _ f.0, f.1))) };
}

impl PutTable for MonthLines {
    type Row = WageLine;

    ghost fits = { λ line. line.gross ≤ most_gross };

    ghost held = { λ it line t. is_held wage_key (wage_row it.employer it.month line) t.wages };

    ghost are_free = { λ it lines t. AreFree wage_key t.wages
        (wage_rows it.employer it.month lines) };

    ghost with_all = { λ it lines t. record t {
      wages = with_rows wage_key t.wages (wage_rows it.employer it.month lines);
    } };

    fn put<S: Alter>(&self, tx: &mut Transaction<'_, S>, line: &WageLine) -> Result<(), Fault> {
        let row = WageRow {
            employer: self.employer,
            month: self.month,
            worker: line.worker,
            gross: line.gross,
        };
        insert_wage(tx, row)
    }

    ghost nothing = { λ _ t. (refl, tt) };

    ghost first = { λ _ _ _ _. (refl, (λ f. (ap is_some f.0, f.1), λ f. (none_if _ f.0, f.1))) };
}

impl PutTable for Charges {
    type Row = KeptCharge;

    ghost fits = { AreInRange };

    ghost held = { λ _ row t. false };

    ghost are_free = { λ _ rows t. Unit {0} };

    ghost with_all = { λ _ rows t. record t { charges = replaced_rows charge_key t.charges rows } };

    fn put<S: Alter>(&self, tx: &mut Transaction<'_, S>, row: &KeptCharge) -> Result<(), Fault> {
        settle_charge(tx, *row)
    }

    ghost nothing = { λ _ t. (refl, tt) };

    ghost first = { λ _ _ _ _. (refl, (λ _. (refl, tt), λ _. tt)) };
}

impl PutTable for Credits {
    type Row = CreditRow;

    ghost fits = { λ row. IsSerial row.serial };

    ghost held = { λ _ row t. is_held credit_key row t.credits };

    ghost are_free = { λ _ rows t. AreFree credit_key t.credits rows };

    ghost with_all = { λ _ rows t. record t { credits = with_rows credit_key t.credits rows } };

    fn put<S: Alter>(&self, tx: &mut Transaction<'_, S>, row: &CreditRow) -> Result<(), Fault> {
        insert_credit(tx, row)
    }

    ghost nothing = { λ _ t. (refl, tt) };

    ghost first = { λ _ _ _ _. (refl, (λ f. (ap is_some f.0, f.1), λ f. (none_if _ f.0, f.1))) };
}

impl PutTable for Reminders {
    type Row = ReminderRow;

    ghost fits = { IsReminderRow };

    ghost held = { λ _ row t. is_held reminder_key row t.reminders };

    ghost are_free = { λ _ rows t. AreFree reminder_key t.reminders rows };

    ghost with_all = { λ _ rows t. record t { reminders = with_rows reminder_key t.reminders rows } };

    fn put<S: Alter>(&self, tx: &mut Transaction<'_, S>, row: &ReminderRow) -> Result<(), Fault> {
        insert_reminder(tx, row)
    }

    ghost nothing = { λ _ t. (refl, tt) };

    ghost first = { λ _ _ _ _. (refl, (λ f. (ap is_some f.0, f.1), λ f. (none_if _ f.0, f.1))) };
}

impl PutTable for Claims {
    type Row = ClaimRow;

    ghost fits = { IsClaimRow };

    ghost held = { λ _ row t. false };

    ghost are_free = { λ _ rows t. Unit {0} };

    ghost with_all = { λ _ rows t. record t { claims = replaced_rows claim_key t.claims rows } };

    fn put<S: Alter>(&self, tx: &mut Transaction<'_, S>, row: &ClaimRow) -> Result<(), Fault> {
        replace_claim(tx, row)
    }

    ghost nothing = { λ _ t. (refl, tt) };

    ghost first = { λ _ _ _ _. (refl, (λ _. (refl, tt), λ _. tt)) };
}

impl PutTable for Bank {
    type Row = BankRow;

    ghost fits = { λ row. IsSerial row.serial };

    ghost held = { λ _ row t. is_line_held row t.bank };

    ghost are_free = { λ _ rows t. are_held is_line_held bank_key rows t.bank ≡ false };

    ghost with_all = { λ _ rows t. record t { bank = with_rows bank_key t.bank rows } };

    fn put<S: Alter>(&self, tx: &mut Transaction<'_, S>, row: &BankRow) -> Result<(), Fault> {
        insert_line(tx, row)
    }

    ghost nothing = { λ _ t. (refl, refl) };

    ghost first = { λ _ row rows t. (refl, (or_parts _ _, λ free. or_from _ _ free.0 free.1)) };
}
