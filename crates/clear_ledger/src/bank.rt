//! The bank lines, by their references.
ghost use Rattle.std.specs.Borrow.{sem, RestsIfErr};
ghost use Rattle.std.specs.Prelude.{◌≡◌, ⊤, count_by, false, filter, IfOk};
ghost use Rattle.sqlite.specs.Values.{bound};
ghost use Rattle.sqlite.specs.contracts.connection.Connection.{the_row};
ghost use Rattle.clear_values.specs.Keyed.{find_row, in_key_order, with_row};
ghost use Rattle.clear_values.specs.Credits.{is_in_suspense};
ghost use Rattle.clear_values.specs.RowRanges.{IsBankRow, IsSerial};
ghost use Rattle.clear_values.specs.Tables.{bank_key, serial_key};
ghost use Rattle.clear_schema.specs.Values.{bank_shown};
ghost use Rattle.clear_ledger.specs.Shown.{for_firm, is_line_held};
ghost use Rattle.clear_columns.specs.Keys.{changed_at};
ghost use Rattle.clear_columns.specs.Reading.{IsLeftOn, ReadsOn};
ghost use Rattle.clear_schema.specs.Frame.{Finds, LooksUp, Writes};

use clear_columns::columns::{
    amount_at, day_at, maybe_employer_at, note_at, purpose_at, reference_at, serial_at,
};
use clear_columns::parameters::{amount, day, maybe_employer, purpose};
use clear_columns::queries::{count, find};
use clear_columns::ranges::is_serial;
use clear_columns::rows::{StoredTable, begin_rows};
use clear_schema::fault::Fault;
use clear_schema::statement::put;
use clear_schema::values::{number, text};
use clear_values::causes::StoreCause;
use clear_values::lines::BankLine;
use clear_values::rows::BankRow;
use clear_values::texts::Reference;
use sqlite::{Alter, Connection, Error, Row, Rows, Transaction};
use sqlite_value::value::ValueRef;

/// Adds a line whose reference and whose serial are free. A serial that no line can have is
/// refused with `Fault::Store(StoreCause::Row)`, and nothing is done.
pub fn insert_line<S: Alter>(tx: &mut Transaction<'_, S>, row: &BankRow) -> Result<(), Fault>
    ensures same_reference { tx.new.conn.ghost_name ≡ tx.old.conn.ghost_name }
    ensures writes { Writes S.Store tx.old.conn.now tx.new.conn.now result
        (IsSerial row.now.serial) (λ t. is_line_held row.now t.bank)
        (λ t. record t { bank = with_row bank_key t.bank row.now }) }
{
    if !is_serial(row.serial) {
        return Err(Fault::Store(StoreCause::Row));
    }
    put(
        tx,
        "INSERT INTO bank (reference, serial, value, named, employer, cents, purpose, note) \
         VALUES (?1, ?2, ?3, ?4, ?5, ?6, ?7, ?8)",
        &line_values(row),
    )
}

/// Writes the firm of this row to the line of its reference, whose other values stay as they are.
/// Where there is no such line, nothing is written.
pub fn assign_line<S: Alter>(tx: &mut Transaction<'_, S>, row: &BankRow) -> Result<(), Fault>
    ensures same_reference { tx.new.conn.ghost_name ≡ tx.old.conn.ghost_name }
    ensures writes { Writes S.Store tx.old.conn.now tx.new.conn.now result (Unit {0}) (λ _. false)
        (λ t. record t {
          bank = changed_at bank_key (bank_key row.now) (for_firm row.now.employer) t.bank;
        }) }
{
    put(
        tx,
        "UPDATE bank SET employer = ?2 WHERE reference = ?1",
        &[
            text(row.line.reference.as_str()),
            maybe_employer(row.employer),
        ],
    )
}

/// The line of a reference.
pub fn find_line<S: Alter>(
    tx: &mut Transaction<'_, S>,
    reference: &Reference,
) -> Result<Option<BankRow>, Fault>
    ensures same_reference { tx.new.conn.ghost_name ≡ tx.old.conn.ghost_name }
    ensures looks { Finds S.Store tx.old.conn.now tx.new.conn.now result IsBankRow
        (λ t. find_row bank_key t.bank reference.now) }
{
    find::<S, Bank>(
        tx,
        "SELECT reference, serial, value, named, employer, cents, purpose, note \
         FROM bank WHERE reference = ?1",
        &[text(reference.as_str())],
    )
}

/// How many lines have no firm. This is one pass over all lines.
pub fn suspense_count<S: Alter>(tx: &mut Transaction<'_, S>) -> Result<u64, Fault>
    ensures same_reference { tx.new.conn.ghost_name ≡ tx.old.conn.ghost_name }
    ensures looks { LooksUp S.Store tx.old.conn.now tx.new.conn.now result
        (λ t count. count ≡ count_by is_in_suspense t.bank) (λ _. ⊤) (λ _. ⊥) }
{
    count(tx, "SELECT 1 FROM bank WHERE employer IS NULL", &[])
}

/// All lines in the order of their references: `next_row` reads one at a time. This is one pass by
/// the key, with a search for the row of each.
pub fn read_lines<S: Alter>(conn: &mut Connection<S>) -> Result<Rows<'_, S>, Error>
    ensures* refused { sem 𝓛 (RestsIfErr (the_row S.row S.Store) conn.entry
        (λ rows. rows.conn.ghost_name) result (IsLeftOn S.Store conn.old result)) }
    ensures same_reference { IfOk result (λ rows. rows.conn.ghost_name ≡ conn.entry.ghost_name) }
    ensures begun { IfOk result (λ rows. ReadsOn S.Store conn.old rows.conn.now bank_shown
        (λ t. t.bank)) }
{
    begin_rows::<Bank, S>(
        conn,
        "SELECT reference, serial, value, named, employer, cents, purpose, note \
         FROM bank ORDER BY reference",
        &[],
    )
}

/// The lines without a firm, in the order of their serials: `next_row` reads one at a time. This is
/// one pass over all lines by the index on their serials, with a search for the row of each.
pub fn read_suspense<S: Alter>(conn: &mut Connection<S>) -> Result<Rows<'_, S>, Error>
    ensures* refused { sem 𝓛 (RestsIfErr (the_row S.row S.Store) conn.entry
        (λ rows. rows.conn.ghost_name) result (IsLeftOn S.Store conn.old result)) }
    ensures same_reference { IfOk result (λ rows. rows.conn.ghost_name ≡ conn.entry.ghost_name) }
    ensures begun { IfOk result (λ rows. ReadsOn S.Store conn.old rows.conn.now bank_shown
        (λ t. in_key_order serial_key (filter is_in_suspense t.bank))) }
{
    begin_rows::<Bank, S>(
        conn,
        "SELECT reference, serial, value, named, employer, cents, purpose, note \
         FROM bank WHERE employer IS NULL ORDER BY serial",
        &[],
    )
}

/// The table of bank lines.
pub struct Bank;

impl StoredTable for Bank {
    type Row = BankRow;

    ghost shown = { bank_shown };

    ghost is_in_range = { IsBankRow };

    fn read(row: &Row) -> Result<BankRow, Fault> {
        // What owns memory is read last: less is to be dropped where a column is at fault.
        Ok(BankRow {
            serial: serial_at(row, 1)?,
            employer: maybe_employer_at(row, 4)?,
            line: BankLine {
                value: day_at(row, 2)?,
                employer: maybe_employer_at(row, 3)?,
                cents: amount_at(row, 5)?,
                purpose: purpose_at(row, 6)?,
                reference: reference_at(row, 0)?,
                note: note_at(row, 7)?,
            },
        })
    }
}

// The parameters of a statement that writes a row.
fn line_values(row: &BankRow) -> [ValueRef<'_>; 8]
    requires { IsSerial row.now.serial }
    ensures { bound result ≡ bank_shown row.now }
{
    [
        text(row.line.reference.as_str()),
        number(row.serial),
        day(row.line.value),
        maybe_employer(row.line.employer),
        maybe_employer(row.employer),
        amount(row.line.cents),
        purpose(row.line.purpose),
        text(row.line.note.as_str()),
    ]
}
