//! The pieces, by firm, month, day and serial: what each credit pays of each contribution.
ghost use Rattle.std.specs.Borrow.{sem, RestsIfErr};
ghost use Rattle.std.specs.Prelude.{◌≡◌, ◌↔◌, ◌==◌, false, true, filter, IfOk};
ghost use Rattle.sqlite.specs.Values.{bound};
ghost use Rattle.sqlite.specs.contracts.connection.Connection.{the_row};
ghost use Rattle.clear_values.specs.Keyed.{is_held, with_row, without_rows};
ghost use Rattle.clear_values.specs.RowRanges.{IsPieceRow, IsSerial};
ghost use Rattle.clear_values.specs.Tables.{is_piece_key_from, piece_key};
ghost use Rattle.clear_columns.specs.Reading.{IsLeftOn, ReadsOn};
ghost use Rattle.clear_schema.specs.Values.{piece_shown};
ghost use Rattle.clear_ledger.specs.Shown.{first_piece_given};
ghost use Rattle.clear_schema.specs.Frame.{Writes};

use clear_columns::columns::{
    contribution_at, credit_reference_at, day_at, employer_at, month_at, serial_at,
};
use clear_columns::parameters::{day, employer as firm};
use clear_columns::ranges::{is_contribution, is_serial};
use clear_columns::rows::{StoredTable, begin_rows};
use clear_money::days::Day;
use clear_money::months::Month;
use clear_money::numbers::EmployerNo;
use clear_schema::fault::Fault;
use clear_schema::statement::put;
use clear_schema::values::{month, number, text};
use clear_values::causes::StoreCause;
use clear_values::rows::PieceRow;
use sqlite::{Alter, Connection, Error, Row, Rows, Transaction};
use sqlite_value::value::ValueRef;

/// A firm's pieces of a month or a later one, whose credit is that of a day and a serial or a later
/// one.
#[derive(Clone, Copy)]
pub struct PieceFrom {
    pub employer: EmployerNo,
    pub month: Month,
    /// The day of the first credit.
    pub day: Day,
    /// The serial of the first credit, 1 to 500,000,000,000.
    pub serial: u64,
}

/// Adds a piece whose firm, month and credit are free. Numbers that no piece can have are refused
/// with `Fault::Store(StoreCause::Row)`, and nothing is done.
pub fn insert_piece<S: Alter>(tx: &mut Transaction<'_, S>, row: &PieceRow) -> Result<(), Fault>
    ensures same_reference { tx.new.conn.ghost_name ≡ tx.old.conn.ghost_name }
    ensures writes { Writes S.Store tx.old.conn.now tx.new.conn.now result
        (IsPieceRow row.now) (λ t. is_held piece_key row.now t.pieces)
        (λ t. record t { pieces = with_row piece_key t.pieces row.now }) }
{
    if !is_piece_row(row) {
        return Err(Fault::Store(StoreCause::Row));
    }
    put(
        tx,
        "INSERT INTO pieces (employer, month, day, serial, cents, ref) \
         VALUES (?1, ?2, ?3, ?4, ?5, ?6)",
        &piece_values(row),
    )
}

/// Takes out these pieces. A serial that no credit can have is refused with
/// `Fault::Store(StoreCause::Row)`, and nothing is done.
pub fn delete_pieces<S: Alter>(tx: &mut Transaction<'_, S>, from: &PieceFrom) -> Result<(), Fault>
    ensures same_reference { tx.new.conn.ghost_name ≡ tx.old.conn.ghost_name }
    ensures writes { Writes S.Store tx.old.conn.now tx.new.conn.now result
        (IsSerial from.now.serial) (λ _. false)
        (λ t. record t {
          pieces = without_rows piece_key
              (is_piece_key_from from.now.employer from.now.month from.now.day from.now.serial)
              t.pieces;
        }) }
{
    if !is_serial(from.serial) {
        return Err(Fault::Store(StoreCause::Row));
    }
    put(
        tx,
        "DELETE FROM pieces WHERE employer = ?1 AND month >= ?2 \
         AND (day > ?3 OR (day = ?3 AND serial >= ?4))",
        &first_values(from),
    )
}

/// The pieces of a firm, by month, then by the day and the serial of their credits: `next_row` reads
/// one at a time.
pub fn read_pieces<S: Alter>(
    conn: &mut Connection<S>,
    employer: EmployerNo,
) -> Result<Rows<'_, S>, Error>
    ensures* refused { sem 𝓛 (RestsIfErr (the_row S.row S.Store) conn.entry
        (λ rows. rows.conn.ghost_name) result (IsLeftOn S.Store conn.old result)) }
    ensures same_reference { IfOk result (λ rows. rows.conn.ghost_name ≡ conn.entry.ghost_name) }
    ensures begun { IfOk result (λ rows. ReadsOn S.Store conn.old rows.conn.now piece_shown
        (λ t. filter (λ row. row.employer == employer) t.pieces)) }
{
    begin_rows::<Pieces, S>(
        conn,
        "SELECT employer, month, day, serial, cents, ref FROM pieces WHERE employer = ?1 \
         ORDER BY employer, month, day, serial",
        &[firm(employer)],
    )
}

/// The table of pieces.
pub struct Pieces;

impl StoredTable for Pieces {
    type Row = PieceRow;

    ghost shown = { piece_shown };

    ghost is_in_range = { IsPieceRow };

    fn read(row: &Row) -> Result<PieceRow, Fault> {
        let reference = credit_reference_at(row, 5)?;
        Ok(PieceRow {
            employer: employer_at(row, 0)?,
            month: month_at(row, 1)?,
            day: day_at(row, 2)?,
            serial: serial_at(row, 3)?,
            cents: contribution_at(row, 4)?,
            reference,
        })
    }
}

// Whether the numbers of a piece are in their ranges.
fn is_piece_row(row: &PieceRow) -> bool
    ensures { (result ≡ true) ↔ IsPieceRow row.now }
{
    // A proof reads the ranges of the other columns from their types.
    let _employer = row.employer.number();
    let _month = row.month.number();
    let _day = row.day.number();
    let _reference = row.reference.as_str();
    is_serial(row.serial) && is_contribution(row.cents)
}

// The parameters of a statement that writes a row.
fn piece_values(row: &PieceRow) -> [ValueRef<'_>; 6]
    requires { IsPieceRow row.now }
    ensures { bound result ≡ piece_shown row.now }
{
    [
        firm(row.employer),
        month(row.month),
        day(row.day),
        number(row.serial),
        number(row.cents),
        text(row.reference.as_str()),
    ]
}

// The parameters of a statement on pieces from one on.
fn first_values(from: &PieceFrom) -> [ValueRef<'static>; 4]
    requires { IsSerial from.now.serial }
    ensures { bound result ≡ first_piece_given from.now }
{
    [
        firm(from.employer),
        month(from.month),
        day(from.day),
        number(from.serial),
    ]
}
