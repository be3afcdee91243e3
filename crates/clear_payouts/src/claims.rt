//! The claims, by their numbers.
ghost use Rattle.std.specs.Borrow.{sem, RestsIfErr};
ghost use Rattle.std.specs.Prelude.{◌≡◌, ◌≢◌, ◌==◌, ◌∷◌, [], false, ℕ, filter, IfErr, IfOk};
ghost use Rattle.sqlite.specs.Values.{bound};
ghost use Rattle.sqlite.specs.contracts.connection.Connection.{the_row};
ghost use Rattle.clear_values.specs.Keyed.{find_row, is_held, replaced, with_row};
ghost use Rattle.clear_values.specs.RowRanges.{IsClaimRow, IsClaimState};
ghost use Rattle.clear_values.specs.Tables.{claim_key};
ghost use Rattle.clear_values.specs.declared.rows.ClaimRow.{ClaimRow as Claim};
ghost use Rattle.clear_columns.specs.Reading.{IsLeftOn, ReadsOn};
ghost use Rattle.clear_values.specs.Payouts.{is_on, is_released_since};
ghost use Rattle.clear_schema.specs.Frame.{Finds, Lists, Writes};
ghost use Rattle.clear_schema.specs.Values.{claim_shown, columns_of};

use crate::states::{is_claim_row, state_columns, state_of};
use clear_columns::columns::{
    amount_at, claim_at, day_at, employer_at, maybe_day_at, maybe_list_at, number_at, worker_at,
};
use clear_columns::parameters::{
    amount, claim_no, day, employer, list_no, maybe_day, maybe_list, worker as person,
};
use clear_columns::queries::{find, list};
use clear_columns::rows::{StoredTable, begin_rows};
use clear_money::days::Day;
use clear_money::numbers::{Amount, WorkerNo};
use clear_schema::columns::StateColumns;
use clear_schema::fault::Fault;
use clear_schema::statement::put;
use clear_schema::values::number;
use clear_values::causes::StoreCause;
use clear_values::numbers::{ClaimNo, ListNo};
use clear_values::replies::Settlement;
use clear_values::rows::{ClaimRow, ClaimState};
use sqlite::{Alter, Connection, Error, Row, Rows, Transaction};
use sqlite_value::value::ValueRef;

/// Adds a claim whose number is free. A release whose three amounts don't come to those of the claim
/// is refused with `Fault::Store(StoreCause::Row)`, and nothing is done.
pub fn insert_claim<S: Alter>(tx: &mut Transaction<'_, S>, row: &ClaimRow) -> Result<(), Fault>
    ensures same_reference { tx.new.conn.ghost_name ≡ tx.old.conn.ghost_name }
    ensures writes { Writes S.Store tx.old.conn.now tx.new.conn.now result (IsClaimRow row.now)
        (λ t. is_held claim_key row.now t.claims)
        (λ t. record t { claims = with_row claim_key t.claims row.now }) }
{
    if !is_claim_row(row) {
        return Err(Fault::Store(StoreCause::Row));
    }
    put(
        tx,
        "INSERT INTO claims (no, employer, worker, cents, state, made, released, \
         to_contributions, to_interest, paid, list) \
         VALUES (?1, ?2, ?3, ?4, ?5, ?6, ?7, ?8, ?9, ?10, ?11)",
        &claim_values(row),
    )
}

/// Writes a claim in the place of the one of its number. Where there is none, nothing is written.
/// A claim is refused as by `insert_claim`.
pub fn replace_claim<S: Alter>(tx: &mut Transaction<'_, S>, row: &ClaimRow) -> Result<(), Fault>
    ensures same_reference { tx.new.conn.ghost_name ≡ tx.old.conn.ghost_name }
    ensures writes { Writes S.Store tx.old.conn.now tx.new.conn.now result (IsClaimRow row.now)
        (λ _. false) (λ t. record t { claims = replaced claim_key row.now t.claims }) }
{
    if !is_claim_row(row) {
        return Err(Fault::Store(StoreCause::Row));
    }
    put(
        tx,
        "UPDATE claims SET employer = ?2, worker = ?3, cents = ?4, state = ?5, made = ?6, \
         released = ?7, to_contributions = ?8, to_interest = ?9, paid = ?10, list = ?11 \
         WHERE no = ?1",
        &claim_values(row),
    )
}

/// The claim of a number.
pub fn find_claim<S: Alter>(
    tx: &mut Transaction<'_, S>,
    claim: ClaimNo,
) -> Result<Option<ClaimRow>, Fault>
    ensures same_reference { tx.new.conn.ghost_name ≡ tx.old.conn.ghost_name }
    ensures looks { Finds S.Store tx.old.conn.now tx.new.conn.now result IsClaimRow
        (λ t. find_row claim_key t.claims (claim ∷ [])) }
{
    find::<S, Claims>(
        tx,
        "SELECT no, employer, worker, cents, state, made, released, to_contributions, \
         to_interest, paid, list FROM claims WHERE no = ?1",
        &[claim_no(claim)],
    )
}

/// The claims for a worker, in the order of their numbers.
pub fn worker_claims<S: Alter>(
    tx: &mut Transaction<'_, S>,
    worker: WorkerNo,
) -> Result<Vec<ClaimRow>, Fault>
    ensures same_reference { tx.new.conn.ghost_name ≡ tx.old.conn.ghost_name }
    ensures looks { Lists S.Store tx.old.conn.now tx.new.conn.now result IsClaimRow
        (λ t. filter (λ row. row.worker == worker) t.claims) }
{
    list::<S, Claims>(
        tx,
        "SELECT no, employer, worker, cents, state, made, released, to_contributions, \
         to_interest, paid, list FROM claims WHERE worker = ?1 ORDER BY no",
        &[person(worker)],
    )
}

/// The claims that were released on a day or later, in the order of their numbers.
pub fn claims_released_since<S: Alter>(
    tx: &mut Transaction<'_, S>,
    since: Day,
) -> Result<Vec<ClaimRow>, Fault>
    ensures same_reference { tx.new.conn.ghost_name ≡ tx.old.conn.ghost_name }
    ensures looks { Lists S.Store tx.old.conn.now tx.new.conn.now result IsClaimRow
        (λ t. filter (λ row. is_released_since since row.state) t.claims) }
{
    list::<S, Claims>(
        tx,
        "SELECT no, employer, worker, cents, state, made, released, to_contributions, \
         to_interest, paid, list FROM claims WHERE released >= ?1 ORDER BY no",
        &[day(since)],
    )
}

/// The claims on a payout list, in the order of their numbers: `next_row` reads one at a time.
pub fn read_listed<S: Alter>(conn: &mut Connection<S>, on: ListNo) -> Result<Rows<'_, S>, Error>
    ensures* refused { sem 𝓛 (RestsIfErr (the_row S.row S.Store) conn.entry
        (λ rows. rows.conn.ghost_name) result (IsLeftOn S.Store conn.old result)) }
    ensures same_reference { IfOk result (λ rows. rows.conn.ghost_name ≡ conn.entry.ghost_name) }
    ensures begun { IfOk result (λ rows. ReadsOn S.Store conn.old rows.conn.now claim_shown
        (λ t. filter (λ row. is_on on row.state) t.claims)) }
{
    begin_rows::<Claims, S>(
        conn,
        "SELECT no, employer, worker, cents, state, made, released, to_contributions, \
         to_interest, paid, list FROM claims WHERE list = ?1 ORDER BY no",
        &[list_no(on)],
    )
}

/// All claims, in the order of their numbers: `next_row` reads one at a time.
pub fn read_claims<S: Alter>(conn: &mut Connection<S>) -> Result<Rows<'_, S>, Error>
    ensures* refused { sem 𝓛 (RestsIfErr (the_row S.row S.Store) conn.entry
        (λ rows. rows.conn.ghost_name) result (IsLeftOn S.Store conn.old result)) }
    ensures same_reference { IfOk result (λ rows. rows.conn.ghost_name ≡ conn.entry.ghost_name) }
    ensures begun { IfOk result (λ rows. ReadsOn S.Store conn.old rows.conn.now claim_shown
        (λ t. t.claims)) }
{
    begin_rows::<Claims, S>(
        conn,
        "SELECT no, employer, worker, cents, state, made, released, to_contributions, \
         to_interest, paid, list FROM claims ORDER BY no",
        &[],
    )
}

/// The table of claims. A row whose columns fit no state of a claim is out of its range.
pub struct Claims;

impl StoredTable for Claims {
    type Row = ClaimRow;

    ghost shown = { claim_shown };

    ghost is_in_range = { IsClaimRow };

    fn read(row: &Row) -> Result<ClaimRow, Fault> {
        let cents = amount_at(row, 3)?;
        let state = read_state(row, cents)?;
        Ok(ClaimRow {
            claim: claim_at(row, 0)?,
            employer: employer_at(row, 1)?,
            worker: worker_at(row, 2)?,
            cents,
            made: day_at(row, 5)?,
            state,
        })
    }
}

// How the claim of these cents that a row shows stands.
fn read_state(row: &Row, cents: Amount) -> Result<ClaimState, Fault>
    ensures read { IfOk result (λ state. (x : Claim) → row.now ≡ claim_shown x
        → state ≡ x.state) }
    ensures good { IfOk result (IsClaimState cents) }
    ensures cause { IfErr result (λ fault. fault ≢ Fault.Store StoreCause.Constraint) }
    ensures range { IfErr result (λ fault. fault ≡ Fault.Store StoreCause.Row
        → (x : Claim) → row.now ≡ claim_shown x → ¬ IsClaimState cents x.state) }
{
    let columns = read_columns(row)?;
    match state_of(cents, &columns) {
        Some(state) => Ok(state),
        None => Err(Fault::Store(StoreCause::Row)),
    }
}

// The columns of a row that tell how its claim stands.
fn read_columns(row: &Row) -> Result<StateColumns, Fault>
    ensures read { IfOk result (λ columns. (x : Claim) → row.now ≡ claim_shown x
        → columns ≡ columns_of x.state) }
    ensures cause { IfErr result (λ fault. fault ≢ Fault.Store StoreCause.Constraint) }
    ensures range { IfErr result (λ fault. fault ≡ Fault.Store StoreCause.Row
        → (x : Claim) → row.now ≡ claim_shown x → (cents : ℕ) → ¬ IsClaimState cents x.state) }
{
    let settlement = read_settlement(row)?;
    Ok(StateColumns {
        code: number_at(row, 4)?,
        released: maybe_day_at(row, 6)?,
        settlement,
        list: maybe_list_at(row, 10)?,
    })
}

// The three amounts of a row.
fn read_settlement(row: &Row) -> Result<Settlement, Fault>
    ensures read { IfOk result (λ settlement. (x : Claim) → row.now ≡ claim_shown x
        → settlement ≡ (columns_of x.state).settlement) }
    ensures cause { IfErr result (λ fault. fault ≢ Fault.Store StoreCause.Constraint) }
    ensures range { IfErr result (λ fault. fault ≡ Fault.Store StoreCause.Row
        → (x : Claim) → row.now ≢ claim_shown x) }
{
    Ok(Settlement {
        to_contributions: number_at(row, 7)?,
        to_interest: number_at(row, 8)?,
        paid: number_at(row, 9)?,
    })
}

// The parameters of a statement that writes a row.
fn claim_values(row: &ClaimRow) -> [ValueRef<'static>; 11]
    requires { IsClaimRow row.now }
    ensures { bound result ≡ claim_shown row.now }
{
    let columns = state_columns(row.state);
    [
        claim_no(row.claim),
        employer(row.employer),
        person(row.worker),
        amount(row.cents),
        number(columns.code),
        day(row.made),
        maybe_day(columns.released),
        number(columns.settlement.to_contributions),
        number(columns.settlement.to_interest),
        number(columns.settlement.paid),
        maybe_list(columns.list),
    ]
}
