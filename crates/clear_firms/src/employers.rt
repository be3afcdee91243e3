//! The table of employers.
ghost use Rattle.std.specs.Borrow.{sem, RestsIfErr};
ghost use Rattle.std.specs.Prelude.{◌≡◌, [], ◌∷◌, ⊤, false, length, IfOk};
ghost use Rattle.sqlite.specs.Values.{bound};
ghost use Rattle.sqlite.specs.contracts.connection.Connection.{the_row};
ghost use Rattle.clear_values.specs.Keyed.{find_row, is_held, replaced, with_row};
ghost use Rattle.clear_values.specs.RowRanges.{IsEmployerRow};
ghost use Rattle.clear_values.specs.Tables.{employer_key};
ghost use Rattle.clear_schema.specs.Frame.{Finds, Lists, LooksUp, Writes};
ghost use Rattle.clear_columns.specs.Reading.{IsLeftOn, ReadsOn};
ghost use Rattle.clear_schema.specs.Values.{employer_shown};

use clear_columns::columns::{employer_at, maybe_month_at, month_at, name_at};
use clear_columns::parameters::{employer, maybe_month};
use clear_columns::queries::{count, find, list};
use clear_columns::rows::{StoredTable, begin_rows};
use clear_money::numbers::EmployerNo;
use clear_schema::fault::Fault;
use clear_schema::statement::put;
use clear_schema::values::{month, text};
use clear_values::rows::EmployerRow;
use sqlite::{Alter, Connection, Error, Row, Rows, Transaction};
use sqlite_value::value::ValueRef;

// All firms.
const ALL_EMPLOYERS: &str = "SELECT no, name, start, last FROM employers ORDER BY no";

/// Adds a firm whose number is free.
pub fn insert_employer<S: Alter>(
    tx: &mut Transaction<'_, S>,
    row: &EmployerRow,
) -> Result<(), Fault>
    ensures same_reference { tx.new.conn.ghost_name ≡ tx.old.conn.ghost_name }
    ensures writes { Writes S.Store tx.old.conn.now tx.new.conn.now result (Unit {0})
        (λ t. is_held employer_key row.now t.employers)
        (λ t. record t { employers = with_row employer_key t.employers row.now }) }
{
    put(
        tx,
        "INSERT INTO employers (no, name, start, last) VALUES (?1, ?2, ?3, ?4)",
        &employer_values(row),
    )
}

/// Writes a firm in the place of the one of its number. Where there is none, nothing is written.
pub fn replace_employer<S: Alter>(
    tx: &mut Transaction<'_, S>,
    row: &EmployerRow,
) -> Result<(), Fault>
    ensures same_reference { tx.new.conn.ghost_name ≡ tx.old.conn.ghost_name }
    ensures writes { Writes S.Store tx.old.conn.now tx.new.conn.now result (Unit {0}) (λ _. false)
        (λ t. record t { employers = replaced employer_key row.now t.employers }) }
{
    put(
        tx,
        "UPDATE employers SET name = ?2, start = ?3, last = ?4 WHERE no = ?1",
        &employer_values(row),
    )
}

/// The firm of this number, if it is registered.
pub fn find_employer<S: Alter>(
    tx: &mut Transaction<'_, S>,
    no: EmployerNo,
) -> Result<Option<EmployerRow>, Fault>
    ensures same_reference { tx.new.conn.ghost_name ≡ tx.old.conn.ghost_name }
    ensures looks { Finds S.Store tx.old.conn.now tx.new.conn.now result IsEmployerRow
        (λ t. find_row employer_key t.employers (no ∷ [])) }
{
    find::<S, Employers>(
        tx,
        "SELECT no, name, start, last FROM employers WHERE no = ?1",
        &[employer(no)],
    )
}

/// All firms, their numbers rising. This is one pass over all firms, of whom there are at most
/// 10,000.
pub fn all_employers<S: Alter>(tx: &mut Transaction<'_, S>) -> Result<Vec<EmployerRow>, Fault>
    ensures same_reference { tx.new.conn.ghost_name ≡ tx.old.conn.ghost_name }
    ensures looks { Lists S.Store tx.old.conn.now tx.new.conn.now result IsEmployerRow
        (λ t. t.employers) }
{
    list::<S, Employers>(tx, ALL_EMPLOYERS, &[])
}

/// How many firms there are. This is one pass over all firms, of whom nothing is read.
pub fn employer_count<S: Alter>(tx: &mut Transaction<'_, S>) -> Result<u64, Fault>
    ensures same_reference { tx.new.conn.ghost_name ≡ tx.old.conn.ghost_name }
    ensures looks { LooksUp S.Store tx.old.conn.now tx.new.conn.now result
        (λ t count. count ≡ length t.employers) (λ _. ⊤) (λ _. ⊥) }
{
    count(tx, "SELECT 1 FROM employers", &[])
}

/// All firms, their numbers rising: `next_row` reads one at a time.
pub fn read_employers<S: Alter>(conn: &mut Connection<S>) -> Result<Rows<'_, S>, Error>
    ensures* refused { sem 𝓛 (RestsIfErr (the_row S.row S.Store) conn.entry
        (λ rows. rows.conn.ghost_name) result (IsLeftOn S.Store conn.old result)) }
    ensures same_reference { IfOk result (λ rows. rows.conn.ghost_name ≡ conn.entry.ghost_name) }
    ensures begun { IfOk result (λ rows. ReadsOn S.Store conn.old rows.conn.now employer_shown
        (λ t. t.employers)) }
{
    begin_rows::<Employers, S>(conn, ALL_EMPLOYERS, &[])
}

/// The table of employers.
pub struct Employers;

impl StoredTable for Employers {
    type Row = EmployerRow;

    ghost shown = { employer_shown };

    ghost is_in_range = { IsEmployerRow };

    fn read(row: &Row) -> Result<EmployerRow, Fault> {
        Ok(EmployerRow {
            employer: employer_at(row, 0)?,
            start: month_at(row, 2)?,
            last: maybe_month_at(row, 3)?,
            name: name_at(row, 1)?,
        })
    }
}

// What a statement is given of a row.
fn employer_values(row: &EmployerRow) -> [ValueRef<'_>; 4]
    ensures { bound result ≡ employer_shown row.now }
{
    [
        employer(row.employer),
        text(row.name.as_str()),
        month(row.start),
        maybe_month(row.last),
    ]
}
