//! The credits of firms, by firm, purpose, day and serial.
ghost use Rattle.std.specs.Borrow.{sem, RestsIfErr};
ghost use Rattle.std.specs.Prelude.{◌≡◌, ◌<◌, ◌+◌, ◌^◌, ◌++◌, ⊤, count_by, filter, map};
ghost use Rattle.std.specs.Prelude.{IfErr, IfOk};
ghost use Rattle.sqlite.specs.Values.{bound};
ghost use Rattle.sqlite.specs.contracts.connection.Connection.{the_row};
ghost use Rattle.clear_money.specs.Numbers.{IsAmount};
ghost use Rattle.clear_values.specs.Credits.{credit_key};
ghost use Rattle.clear_values.specs.Keyed.{is_held, with_row};
ghost use Rattle.clear_values.specs.Credits.{is_credit_of};
ghost use Rattle.clear_values.specs.RowRanges.{IsCreditRow, IsSerial};
ghost use Rattle.clear_ledger.specs.From.{is_credit_from, is_credit_of_day, is_credit_since};
ghost use Rattle.clear_ledger.specs.Shown.{number_shown};
ghost use Rattle.clear_schema.specs.Values.{credit_shown};
ghost use Rattle.clear_columns.specs.Reading.{IsLeftOn, ReadsOn};
ghost use Rattle.clear_schema.specs.Frame.{Lists, LooksUp, Writes};

use clear_columns::columns::{
    amount_at, credit_reference_at, day_at, employer_at, purpose_at, serial_at,
};
use clear_columns::parameters::{amount, day, employer as firm, purpose as payment};
use clear_columns::queries::{count, list};
use clear_columns::ranges::is_serial;
use clear_columns::rows::{StoredTable, begin_rows};
use clear_money::days::Day;
use clear_money::numbers::{Amount, EmployerNo};
use clear_schema::fault::Fault;
use clear_schema::statement::put;
use clear_schema::values::{number, text};
use clear_values::causes::StoreCause;
use clear_values::lines::Purpose;
use clear_values::rows::CreditRow;
use sqlite::{Alter, Connection, Error, Row, Rows, Transaction};
use sqlite_value::value::ValueRef;

// The credits of a firm for a purpose.
const CREDITS_OF: &str = "SELECT employer, purpose, day, serial, cents, ref FROM credits \
     WHERE employer = ?1 AND purpose = ?2 ORDER BY employer, purpose, day, serial";

/// Adds a credit whose key is free. A serial that no credit can have is refused with
/// `Fault::Store(StoreCause::Row)`, and nothing is done.
pub fn insert_credit<S: Alter>(tx: &mut Transaction<'_, S>, row: &CreditRow) -> Result<(), Fault>
    ensures same_reference { tx.new.conn.ghost_name ≡ tx.old.conn.ghost_name }
    ensures writes { Writes S.Store tx.old.conn.now tx.new.conn.now result
        (IsSerial row.now.serial) (λ t. is_held credit_key row.now t.credits)
        (λ t. record t { credits = with_row credit_key t.credits row.now }) }
{
    if !is_serial(row.serial) {
        return Err(Fault::Store(StoreCause::Row));
    }
    put(
        tx,
        "INSERT INTO credits (employer, purpose, day, serial, cents, ref) \
         VALUES (?1, ?2, ?3, ?4, ?5, ?6)",
        &credit_values(row),
    )
}

/// The credits of a firm for a purpose, by day, and on one day by serial.
pub fn credits_of<S: Alter>(
    tx: &mut Transaction<'_, S>,
    employer: EmployerNo,
    purpose: Purpose,
) -> Result<Vec<CreditRow>, Fault>
    ensures same_reference { tx.new.conn.ghost_name ≡ tx.old.conn.ghost_name }
    ensures looks { Lists S.Store tx.old.conn.now tx.new.conn.now result IsCreditRow
        (λ t. filter (is_credit_of employer purpose) t.credits) }
{
    list::<S, Credits>(tx, CREDITS_OF, &[firm(employer), payment(purpose)])
}

/// The credits of a firm for a purpose from a place on: those of a day and a serial, or of a later
/// one, in the order of `credits_of`. None of that day before the serial is read. The serial is one that
/// a column can hold.
pub fn credits_from<S: Alter>(
    tx: &mut Transaction<'_, S>,
    employer: EmployerNo,
    purpose: Purpose,
    from: Day,
    serial: u64,
) -> Result<Vec<CreditRow>, Fault>
    requires stored { serial < 2 ^ 63 }
    ensures same_reference { tx.new.conn.ghost_name ≡ tx.old.conn.ghost_name }
    ensures looks { Lists S.Store tx.old.conn.now tx.new.conn.now result IsCreditRow
        (λ t. filter (is_credit_from employer purpose from serial) t.credits) }
{
    let first = credits_of_day(tx, employer, purpose, from, serial)?;
    let later = credits_behind(tx, employer, purpose, from)?;
    join(first, later)
}

// Those of a day, from a serial on.
fn credits_of_day<S: Alter>(
    tx: &mut Transaction<'_, S>,
    employer: EmployerNo,
    purpose: Purpose,
    of: Day,
    serial: u64,
) -> Result<Vec<CreditRow>, Fault>
    requires stored { serial < 2 ^ 63 }
    ensures same_reference { tx.new.conn.ghost_name ≡ tx.old.conn.ghost_name }
    ensures looks { Lists S.Store tx.old.conn.now tx.new.conn.now result IsCreditRow
        (λ t. filter (is_credit_of_day employer purpose of serial) t.credits) }
{
    list::<S, Credits>(
        tx,
        "SELECT employer, purpose, day, serial, cents, ref FROM credits WHERE employer = ?1 \
         AND purpose = ?2 AND day = ?3 AND serial >= ?4 ORDER BY employer, purpose, day, serial",
        &[firm(employer), payment(purpose), day(of), number(serial)],
    )
}

// Those behind a day. A search for what is above a day begins with its rows, so the next day is
// sought.
fn credits_behind<S: Alter>(
    tx: &mut Transaction<'_, S>,
    employer: EmployerNo,
    purpose: Purpose,
    before: Day,
) -> Result<Vec<CreditRow>, Fault>
    ensures same_reference { tx.new.conn.ghost_name ≡ tx.old.conn.ghost_name }
    ensures looks { Lists S.Store tx.old.conn.now tx.new.conn.now result IsCreditRow
        (λ t. filter (is_credit_since employer purpose (before + 1)) t.credits) }
{
    let next = number_behind(before);
    list::<S, Credits>(
        tx,
        "SELECT employer, purpose, day, serial, cents, ref FROM credits WHERE employer = ?1 \
         AND purpose = ?2 AND day >= ?3 ORDER BY employer, purpose, day, serial",
        &[firm(employer), payment(purpose), number(next)],
    )
}

// The number of the day behind one.
fn number_behind(day: Day) -> u64
    ensures value { result ≡ day + 1 }
    ensures range { result < 2 ^ 63 }
{
    u64::from(day.number()) + 1
}

// The later credits behind the first.
fn join(mut first: Vec<CreditRow>, mut later: Vec<CreditRow>) -> Result<Vec<CreditRow>, Fault>
    ensures joined { IfOk result (λ all. all.items ≡ first.items ++ later.items) }
    ensures fault { IfErr result (λ fault. fault ≡ Fault.Memory) }
{
    first.append(&mut later)?;
    Ok(first)
}

/// The amounts of a firm's credits for a purpose, in the order of `credits_of`.
pub fn credit_amounts<S: Alter>(
    tx: &mut Transaction<'_, S>,
    employer: EmployerNo,
    purpose: Purpose,
) -> Result<Vec<Amount>, Fault>
    ensures same_reference { tx.new.conn.ghost_name ≡ tx.old.conn.ghost_name }
    ensures looks { Lists S.Store tx.old.conn.now tx.new.conn.now result IsAmount
        (λ t. map (λ row. row.cents) (filter (is_credit_of employer purpose) t.credits)) }
{
    list::<S, CreditAmounts>(
        tx,
        "SELECT cents FROM credits WHERE employer = ?1 AND purpose = ?2 \
         ORDER BY employer, purpose, day, serial",
        &[firm(employer), payment(purpose)],
    )
}

/// How many credits a firm has for a purpose. Of their columns those of the key alone are read.
pub fn credit_count<S: Alter>(
    tx: &mut Transaction<'_, S>,
    employer: EmployerNo,
    purpose: Purpose,
) -> Result<u64, Fault>
    ensures same_reference { tx.new.conn.ghost_name ≡ tx.old.conn.ghost_name }
    ensures looks { LooksUp S.Store tx.old.conn.now tx.new.conn.now result
        (λ t count. count ≡ count_by (is_credit_of employer purpose) t.credits)
        (λ _. ⊤) (λ _. ⊥) }
{
    count(
        tx,
        "SELECT 1 FROM credits WHERE employer = ?1 AND purpose = ?2",
        &[firm(employer), payment(purpose)],
    )
}

/// The credits of a firm for a purpose, in the order of `credits_of`: `next_row` reads one at a
/// time.
pub fn read_credits<S: Alter>(
    conn: &mut Connection<S>,
    employer: EmployerNo,
    purpose: Purpose,
) -> Result<Rows<'_, S>, Error>
    ensures* refused { sem 𝓛 (RestsIfErr (the_row S.row S.Store) conn.entry
        (λ rows. rows.conn.ghost_name) result (IsLeftOn S.Store conn.old result)) }
    ensures same_reference { IfOk result (λ rows. rows.conn.ghost_name ≡ conn.entry.ghost_name) }
    ensures begun { IfOk result (λ rows. ReadsOn S.Store conn.old rows.conn.now credit_shown
        (λ t. filter (is_credit_of employer purpose) t.credits)) }
{
    begin_rows::<Credits, S>(conn, CREDITS_OF, &[firm(employer), payment(purpose)])
}

/// The table of credits.
pub struct Credits;

impl StoredTable for Credits {
    type Row = CreditRow;

    ghost shown = { credit_shown };

    ghost is_in_range = { IsCreditRow };

    fn read(row: &Row) -> Result<CreditRow, Fault> {
        let reference = credit_reference_at(row, 5)?;
        Ok(CreditRow {
            employer: employer_at(row, 0)?,
            purpose: purpose_at(row, 1)?,
            day: day_at(row, 2)?,
            serial: serial_at(row, 3)?,
            cents: amount_at(row, 4)?,
            reference,
        })
    }
}

/// The table of credits, of which a query shows the amounts alone.
pub struct CreditAmounts;

impl StoredTable for CreditAmounts {
    type Row = Amount;

    ghost shown = { number_shown };

    ghost is_in_range = { IsAmount };

    fn read(row: &Row) -> Result<Amount, Fault> {
        amount_at(row, 0)
    }
}

// The parameters of a statement that writes a row.
fn credit_values(row: &CreditRow) -> [ValueRef<'_>; 6]
    requires { IsSerial row.now.serial }
    ensures { bound result ≡ credit_shown row.now }
{
    [
        firm(row.employer),
        payment(row.purpose),
        day(row.day),
        number(row.serial),
        amount(row.cents),
        text(row.reference.as_str()),
    ]
}
