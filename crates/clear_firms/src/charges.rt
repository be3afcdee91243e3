//! The table of charges: the contribution for each month's latest report, with what is open of it and
//! its weight so far.
ghost use Rattle.std.specs.Prelude.{◌≡◌, ◌↔◌, ◌==◌, ◌&&◌, [], ◌∷◌, false, filter, nat_lt, true};
ghost use Rattle.sqlite.specs.Values.{bound};
ghost use Rattle.clear_values.specs.Keyed.{find_row, is_held, replaced, with_row};
ghost use Rattle.clear_values.specs.RowRanges.{IsKeptCharge};
ghost use Rattle.clear_values.specs.Tables.{charge_key, corrected};
ghost use Rattle.clear_schema.specs.Frame.{Finds, Lists, Writes};
ghost use Rattle.clear_firms.specs.Amounts.{AreInRange};
ghost use Rattle.clear_schema.specs.Values.{charge_shown};

use crate::parameters::month_values;
use clear_columns::columns::{contribution_at, day_at, employer_at, month_at, weight_at};
use clear_columns::parameters::{day, employer};
use clear_columns::queries::{find, list};
use clear_columns::ranges::{is_contribution, is_weight};
use clear_columns::rows::StoredTable;
use clear_money::months::Month;
use clear_money::numbers::EmployerNo;
use clear_schema::fault::Fault;
use clear_schema::statement::put;
use clear_schema::values::{month, number};
use clear_values::causes::StoreCause;
use clear_values::rows::KeptCharge;
use sqlite::{Alter, Row, Transaction};
use sqlite_value::value::ValueRef;

/// Adds the contribution for the first report of a month. One of which the cents, what is open or the
/// weight are more than a contribution can have is refused with `Fault::Store(StoreCause::Row)`, and
/// nothing is done.
pub fn insert_charge<S: Alter>(tx: &mut Transaction<'_, S>, row: KeptCharge) -> Result<(), Fault>
    ensures same_reference { tx.new.conn.ghost_name ≡ tx.old.conn.ghost_name }
    ensures writes { Writes S.Store tx.old.conn.now tx.new.conn.now result
        (AreInRange row) (λ t. is_held charge_key row t.charges)
        (λ t. record t { charges = with_row charge_key t.charges row }) }
{
    if !are_in_range(&row) {
        return Err(Fault::Store(StoreCause::Row));
    }
    put(
        tx,
        "INSERT INTO charges (employer, month, due, cents, open, weight) \
         VALUES (?1, ?2, ?3, ?4, ?5, ?6)",
        &charge_values(&row),
    )
}

/// Writes the contribution for a later report of a month. Where none is kept of the month, or one of
/// the same cents due on the same day, nothing is written: that one stays with what is paid of it. One
/// that can't be is refused as by `insert_charge`.
pub fn correct_charge<S: Alter>(tx: &mut Transaction<'_, S>, row: KeptCharge) -> Result<(), Fault>
    ensures same_reference { tx.new.conn.ghost_name ≡ tx.old.conn.ghost_name }
    ensures writes { Writes S.Store tx.old.conn.now tx.new.conn.now result
        (AreInRange row) (λ _. false)
        (λ t. record t { charges = corrected row t.charges }) }
{
    if !are_in_range(&row) {
        return Err(Fault::Store(StoreCause::Row));
    }
    put(
        tx,
        "UPDATE charges SET due = ?3, cents = ?4, open = ?5, weight = ?6 \
         WHERE employer = ?1 AND month = ?2 AND (due <> ?3 OR cents <> ?4)",
        &charge_values(&row),
    )
}

/// Writes a contribution in the place of the one of its month, with what is open of it and its weight
/// as they are now. Where none is kept of the month, nothing is written. One that can't be is refused
/// as by `insert_charge`.
pub fn settle_charge<S: Alter>(tx: &mut Transaction<'_, S>, row: KeptCharge) -> Result<(), Fault>
    ensures same_reference { tx.new.conn.ghost_name ≡ tx.old.conn.ghost_name }
    ensures writes { Writes S.Store tx.old.conn.now tx.new.conn.now result
        (AreInRange row) (λ _. false)
        (λ t. record t { charges = replaced charge_key row t.charges }) }
{
    if !are_in_range(&row) {
        return Err(Fault::Store(StoreCause::Row));
    }
    put(
        tx,
        "UPDATE charges SET due = ?3, cents = ?4, open = ?5, weight = ?6 \
         WHERE employer = ?1 AND month = ?2",
        &charge_values(&row),
    )
}

/// The contribution that is kept of a firm's month, if there is one.
pub fn find_charge<S: Alter>(
    tx: &mut Transaction<'_, S>,
    no: EmployerNo,
    at: Month,
) -> Result<Option<KeptCharge>, Fault>
    ensures same_reference { tx.new.conn.ghost_name ≡ tx.old.conn.ghost_name }
    ensures looks { Finds S.Store tx.old.conn.now tx.new.conn.now result IsKeptCharge
        (λ t. find_row charge_key t.charges (no ∷ at ∷ [])) }
{
    find::<S, Charges>(
        tx,
        "SELECT employer, month, due, cents, open, weight FROM charges \
         WHERE employer = ?1 AND month = ?2",
        &month_values(no, at),
    )
}

/// The contributions that are kept of a firm, the months rising.
pub fn charges_of<S: Alter>(
    tx: &mut Transaction<'_, S>,
    no: EmployerNo,
) -> Result<Vec<KeptCharge>, Fault>
    ensures same_reference { tx.new.conn.ghost_name ≡ tx.old.conn.ghost_name }
    ensures looks { Lists S.Store tx.old.conn.now tx.new.conn.now result IsKeptCharge
        (λ t. filter (λ row. row.employer == no) t.charges) }
{
    list::<S, Charges>(
        tx,
        "SELECT employer, month, due, cents, open, weight FROM charges WHERE employer = ?1 \
         ORDER BY employer, month",
        &[employer(no)],
    )
}

/// The contributions of a firm of which a part is open, the months rising.
pub fn open_charges_of<S: Alter>(
    tx: &mut Transaction<'_, S>,
    no: EmployerNo,
) -> Result<Vec<KeptCharge>, Fault>
    ensures same_reference { tx.new.conn.ghost_name ≡ tx.old.conn.ghost_name }
    ensures looks { Lists S.Store tx.old.conn.now tx.new.conn.now result IsKeptCharge
        (λ t. filter (λ row. (row.employer == no) && nat_lt 0 row.left) t.charges) }
{
    list::<S, Charges>(
        tx,
        "SELECT employer, month, due, cents, open, weight FROM charges \
         WHERE employer = ?1 AND open > 0 ORDER BY employer, month",
        &[employer(no)],
    )
}

/// The table of charges.
pub struct Charges;

impl StoredTable for Charges {
    type Row = KeptCharge;

    ghost shown = { charge_shown };

    ghost is_in_range = { IsKeptCharge };

    fn read(row: &Row) -> Result<KeptCharge, Fault> {
        Ok(KeptCharge {
            employer: employer_at(row, 0)?,
            month: month_at(row, 1)?,
            due: day_at(row, 2)?,
            cents: contribution_at(row, 3)?,
            left: contribution_at(row, 4)?,
            weight: weight_at(row, 5)?,
        })
    }
}

// Whether the amounts of a contribution lie in their ranges.
fn are_in_range(row: &KeptCharge) -> bool
    ensures { (result ≡ true) ↔ AreInRange row.now }
{
    is_contribution(row.cents) && is_contribution(row.left) && is_weight(row.weight)
}

// What a statement is given of a row.
fn charge_values(row: &KeptCharge) -> [ValueRef<'static>; 6]
    requires { AreInRange row.now }
    ensures { bound result ≡ charge_shown row.now }
{
    [
        employer(row.employer),
        month(row.month),
        day(row.due),
        number(row.cents),
        number(row.left),
        number(row.weight),
    ]
}
