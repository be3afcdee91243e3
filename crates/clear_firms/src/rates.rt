//! The table of rates.
ghost use Rattle.std.specs.List.{last_or};
ghost use Rattle.std.specs.Prelude.{◌≡◌, ◌≢◌, None, filter, nat_le, IfErr, IfOk};
ghost use Rattle.clear_money.specs.Rates.{IsRate};
ghost use Rattle.clear_values.specs.Keyed.{is_held, with_row};
ghost use Rattle.clear_values.specs.Ranges.{AreRates};
ghost use Rattle.clear_schema.specs.Frame.{Finds, Lists, LooksUp, Writes};
ghost use Rattle.clear_schema.specs.Values.{rate_shown};
ghost use Rattle.clear_firms.specs.Shown.{rate_key};

use clear_columns::columns::{month_at, month_day_at, rate_at};
use clear_columns::queries::{find, list};
use clear_columns::rows::StoredTable;
use clear_money::months::Month;
use clear_money::rates::{PushFault, RateRow, RateTable};
use clear_schema::fault::Fault;
use clear_schema::statement::put;
use clear_schema::values::{month, rate_values};
use clear_values::causes::StoreCause;
use sqlite::{Alter, Row, Transaction};
use std::alloc::Global;

/// Adds a row of rates whose first month is that of no other. It stands at its place among them.
pub fn insert_rate<S: Alter>(tx: &mut Transaction<'_, S>, row: &RateRow) -> Result<(), Fault>
    ensures same_reference { tx.new.conn.ghost_name ≡ tx.old.conn.ghost_name }
    ensures writes { Writes S.Store tx.old.conn.now tx.new.conn.now result (Unit {0})
        (λ t. is_held rate_key row.now t.rates)
        (λ t. record t { rates = with_row rate_key t.rates row.now }) }
{
    put(
        tx,
        "INSERT INTO rates (first, contribution, report_day, due_day, interest, entitlement) \
         VALUES (?1, ?2, ?3, ?4, ?5, ?6)",
        &rate_values(row),
    )
}

/// The row with the greatest first month that isn't after a month, if there is one: the row that is in
/// force for it. It is found by a search.
pub fn find_rate<S: Alter>(tx: &mut Transaction<'_, S>, at: Month) -> Result<Option<RateRow>, Fault>
    ensures same_reference { tx.new.conn.ghost_name ≡ tx.old.conn.ghost_name }
    ensures looks { Finds S.Store tx.old.conn.now tx.new.conn.now result IsRate
        (λ t. last_or None (filter (λ rate. nat_le rate.first at) t.rates)) }
{
    find::<S, Rates>(
        tx,
        "SELECT first, contribution, report_day, due_day, interest, entitlement FROM rates \
         WHERE first <= ?1 ORDER BY first DESC LIMIT 1",
        &[month(at)],
    )
}

/// The last row, if there is one: that with the greatest first month. It is found by a search.
pub fn find_last_rate<S: Alter>(tx: &mut Transaction<'_, S>) -> Result<Option<RateRow>, Fault>
    ensures same_reference { tx.new.conn.ghost_name ≡ tx.old.conn.ghost_name }
    ensures looks { Finds S.Store tx.old.conn.now tx.new.conn.now result IsRate
        (λ t. last_or None t.rates) }
{
    find::<S, Rates>(
        tx,
        "SELECT first, contribution, report_day, due_day, interest, entitlement FROM rates \
         ORDER BY first DESC LIMIT 1",
        &[],
    )
}

/// All rates, the first months rising.
pub fn all_rates<S: Alter>(tx: &mut Transaction<'_, S>) -> Result<Vec<RateRow>, Fault>
    ensures same_reference { tx.new.conn.ghost_name ≡ tx.old.conn.ghost_name }
    ensures looks { Lists S.Store tx.old.conn.now tx.new.conn.now result IsRate
        (λ t. t.rates) }
{
    list::<S, Rates>(
        tx,
        "SELECT first, contribution, report_day, due_day, interest, entitlement FROM rates \
         ORDER BY first",
        &[],
    )
}

/// The rates as the table that they are: one row at least, the first months rising. Rows that are no
/// such table are a fault of the row.
pub fn rate_table<S: Alter>(tx: &mut Transaction<'_, S>) -> Result<RateTable, Fault>
    ensures same_reference { tx.new.conn.ghost_name ≡ tx.old.conn.ghost_name }
    ensures looks { LooksUp S.Store tx.old.conn.now tx.new.conn.now result
        (λ t table. table ≡ t.rates) AreRates (λ t. ¬ AreRates t.rates) }
{
    let rows = all_rates(tx)?;
    table_of(*rows.allocator(), rows.as_slice())
}

// The table of these rows.
fn table_of(alloc: Global, rows: &[RateRow]) -> Result<RateTable, Fault>
    ensures made { IfOk result (λ table. table ≡ rows.now) }
    ensures cause { IfErr result (λ fault. fault ≢ Fault.Store StoreCause.Constraint) }
    ensures range { IfErr result (λ fault. fault ≡ Fault.Store StoreCause.Row
        → ¬ AreRates rows.now) }
{
    let (first, rest) = match rows.split_first() {
        Some(parts) => parts,
        None => return Err(Fault::Store(StoreCause::Row)),
    };
    let mut table = RateTable::first(alloc, *first)?;
    for row in rest {
        match table.push(*row) {
            Ok(()) => {}
            Err(PushFault::RateOrder) => return Err(Fault::Store(StoreCause::Row)),
            Err(PushFault::Memory) => return Err(Fault::Memory),
        }
    }
    Ok(table)
}

/// The table of rates.
pub struct Rates;

impl StoredTable for Rates {
    type Row = RateRow;

    ghost shown = { rate_shown };

    ghost is_in_range = { IsRate };

    fn read(row: &Row) -> Result<RateRow, Fault> {
        let first = month_at(row, 0)?;
        let contribution = rate_at(row, 1, RateRow::MAX_SHARE)?;
        let report_day = month_day_at(row, 2)?;
        let due_day = month_day_at(row, 3)?;
        let interest = rate_at(row, 4, RateRow::MAX_INTEREST_RATE)?;
        let entitlement = rate_at(row, 5, RateRow::MAX_SHARE)?;
        match RateRow::new(
            first,
            contribution,
            report_day,
            due_day,
            interest,
            entitlement,
        ) {
            Some(rate) => Ok(rate),
            None => Err(Fault::Store(StoreCause::Row)),
        }
    }
}
