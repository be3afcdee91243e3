//! The counts of the office: the one row of `meta`.
ghost use Rattle.std.specs.Borrow.{sem, RestsIfErr};
ghost use Rattle.std.specs.Prelude.{◌≡◌, ◌↔◌, [], ◌∷◌, true, false, IfOk};
ghost use Rattle.sqlite.specs.Values.{bound};
ghost use Rattle.sqlite.specs.contracts.connection.Connection.{the_row};
ghost use Rattle.clear_columns.specs.Reading.{IsLeftOn, ReadsOn};
ghost use Rattle.clear_schema.specs.Frame.{LooksUp, Writes};
ghost use Rattle.clear_schema.specs.Values.{counts_of, counts_shown, with_counts};
ghost use Rattle.clear_firms.specs.Counts.{AreCountable, AreCounts};

use clear_columns::columns::{entry_count_at, given_count_at, maybe_day_at, serial_count_at};
use clear_columns::parameters::maybe_day;
use clear_columns::queries::find;
use clear_columns::ranges::is_entry_count;
use clear_columns::rows::{StoredTable, begin_rows};
use clear_schema::counts::Counts;
use clear_schema::fault::Fault;
use clear_schema::statement::put;
use clear_schema::values::number;
use clear_values::causes::StoreCause;
use sqlite::{Alter, Connection, Error, Row, Rows, Transaction};
use sqlite_value::value::ValueRef;

// The counts that stand.
const COUNTS: &str = "SELECT day, entries, serial, claims, lists, runs FROM meta WHERE one = 1";

/// The counts that stand. A day or a count that is out of its range is `Fault::Store(StoreCause::Row)`,
/// and where `meta` has no row, that is `Fault::Store(StoreCause::Other)`.
pub fn find_counts<S: Alter>(tx: &mut Transaction<'_, S>) -> Result<Counts, Fault>
    ensures same_reference { tx.new.conn.ghost_name ≡ tx.old.conn.ghost_name }
    ensures looks { LooksUp S.Store tx.old.conn.now tx.new.conn.now result
        (λ t found. found ≡ counts_of t) AreCounts
        (λ t. ¬ AreCounts (counts_of t)) }
{
    match find::<S, Meta>(tx, COUNTS, &[])? {
        Some(counts) => Ok(counts),
        None => Err(Fault::Store(StoreCause::Other)),
    }
}

/// The counts that stand, as the one row of a query: `next_row` reads it.
pub fn read_counts<S: Alter>(conn: &mut Connection<S>) -> Result<Rows<'_, S>, Error>
    ensures* refused { sem 𝓛 (RestsIfErr (the_row S.row S.Store) conn.entry
        (λ rows. rows.conn.ghost_name) result (IsLeftOn S.Store conn.old result)) }
    ensures same_reference { IfOk result (λ rows. rows.conn.ghost_name ≡ conn.entry.ghost_name) }
    ensures begun { IfOk result (λ rows. ReadsOn S.Store conn.old rows.conn.now counts_shown
        (λ t. counts_of t ∷ [])) }
{
    begin_rows::<Meta, S>(conn, COUNTS, &[])
}

/// The table of the counts, which has one row.
pub struct Meta;

impl StoredTable for Meta {
    type Row = Counts;

    ghost shown = { counts_shown };

    ghost is_in_range = { AreCounts };

    fn read(row: &Row) -> Result<Counts, Fault> {
        Ok(Counts {
            day: maybe_day_at(row, 0)?,
            entries: entry_count_at(row, 1)?,
            serial: serial_count_at(row, 2)?,
            claims: given_count_at(row, 3)?,
            lists: given_count_at(row, 4)?,
            runs: given_count_at(row, 5)?,
        })
    }
}

/// Writes the counts in place of those that stand. More than 50,000,000 entries, claims, lists or
/// runs are refused with `Fault::Store(StoreCause::Row)`, and nothing is done.
pub fn put_counts<S: Alter>(tx: &mut Transaction<'_, S>, counts: &Counts) -> Result<(), Fault>
    ensures same_reference { tx.new.conn.ghost_name ≡ tx.old.conn.ghost_name }
    ensures writes { Writes S.Store tx.old.conn.now tx.new.conn.now result
        (AreCountable counts.now)
        (λ _. false) (λ t. with_counts counts.now t) }
{
    if !are_countable(counts) {
        return Err(Fault::Store(StoreCause::Row));
    }
    put(
        tx,
        "UPDATE meta SET day = ?1, entries = ?2, serial = ?3, claims = ?4, lists = ?5, runs = ?6 \
         WHERE one = 1",
        &counts_values(counts),
    )
}

// Whether no count is above what it may be.
fn are_countable(counts: &Counts) -> bool
    ensures { (result ≡ true) ↔ AreCountable counts.now }
{
    // A proof reads the range of the serials from their type.
    let _serial = counts.serial.count();
    is_entry_count(counts.entries)
        && is_entry_count(u64::from(counts.claims))
        && is_entry_count(u64::from(counts.lists))
        && is_entry_count(u64::from(counts.runs))
}

// What the statement is given of the counts.
fn counts_values(counts: &Counts) -> [ValueRef<'static>; 6]
    requires { AreCountable counts.now }
    ensures { bound result ≡ counts_shown counts.now }
{
    [
        maybe_day(counts.day),
        number(counts.entries),
        number(counts.serial.count()),
        number(u64::from(counts.claims)),
        number(u64::from(counts.lists)),
        number(u64::from(counts.runs)),
    ]
}
