//! Rate files: TOML texts with an array of tables `rate`, a table for each row.
//!
//! A text reads as rows just if it says them, and otherwise its first fault is told. `Memory` may
//! be answered at any time and says nothing of the text, so a body that answers nothing else meets
//! these contracts too: the tests read.
ghost use Rattle.std.specs.Prelude.{◌≡◌, ◌≢◌, ◌++◌, ◌∷◌, [], map, Ok, Err, IfOk, IfErr};
ghost use Rattle.std.specs.Prelude.{OnOk, option_map, codes};
ghost use Rattle.toml.specs.View.{view, items_view, table_view};
ghost use Rattle.clear_money.specs.Rates.{Rate, last_first};
ghost use Rattle.clear_toml.specs.RateFile.{row_alone, row_after, rows_in, rates_in};
ghost use Rattle.clear_toml.specs.RateFile.{rates_of, WrittenRatesAreRead, example_text};
ghost use Rattle.clear_toml.specs.RateFile.{example_rate};
ghost use Rattle.clear_toml.specs.WrittenRate.{has_only, text_of, number_of, written_row};
ghost use Rattle.clear_toml.specs.WrittenRate.{rate_meant, row_view};
ghost use Rattle.clear_toml.specs.declared.rate_file.RateFault.TheVariants.{Text, Field, Range};
ghost use Rattle.clear_toml.specs.declared.rate_file.RateFault.TheVariants.{Order, Empty};

use crate::documents::read_document;
use clear_money::months::Month;
use clear_money::names::is_one_of;
use clear_money::rates::{PushFault, RateRow, RateTable};
use std::alloc::Global;
use toml::{Table, Value};

/// Why a text is no rate file. Rows are counted from 1, and 0 is the top level of the document.
#[derive(Clone, Copy)]
pub enum RateFault {
    /// The bytes are not UTF-8, or no TOML; also where a whole number is outside `i64`.
    Text,
    /// The row is no table of exactly the members `from` (a text), `contribution`, `report_day`,
    /// `due_day`, `interest` and `entitlement` (whole numbers). At row 0 a member other than
    /// `rate`, or a `rate` that is no array.
    Field(usize),
    /// `from` is no month, or a number is outside the range that a rate row allows.
    Range(usize),
    /// The first month is not after that of the row before.
    Order(usize),
    /// There is no row.
    Empty,
    /// An allocation failed, which says nothing of the text.
    Memory,
}

/// The members of a row.
pub const ROW_MEMBERS: [&str; 6] = [
    "from",
    "contribution",
    "report_day",
    "due_day",
    "interest",
    "entitlement",
];

// A row as it is written.
#[derive(Drop)]
struct WrittenRow<'a> {
    from: &'a str,
    contribution_rate: i64,
    report_day: i64,
    due_day: i64,
    interest_rate: i64,
    entitlement_rate: i64,
}

/// Reads a rate file. The first fault, in this order: Text; Field(0); Empty; and then the fault of
/// the first faulty row, where Field comes before Range, and Range before Order.
#[tactic(auto, unfolding(crate::specs::RateFile::rates_of))]
pub fn read_rates(alloc: Global, bytes: &[u8]) -> Result<RateTable, RateFault>
    ensures ok { IfOk result (λ table. rates_of bytes.now ≡ Ok table) }
    ensures fault { IfErr result (λ fault.
        fault ≢ RateFault.Memory → rates_of bytes.now ≡ Err fault) }
{
    let Ok(document) = read_document(alloc, bytes) else {
        return Err(RateFault::Memory);
    };
    let Some(document) = document else {
        return Err(RateFault::Text);
    };
    let rows = rate_rows(&document)?;
    read_rows(alloc, rows)
}

// Whether each member has one of these names.
fn has_only(table: &Table, names: &[&str]) -> bool
    ensures { result ≡ has_only (map (λ name. name.now) names.now) (table_view table.now) }
{
    for (name, _) in table {
        if !is_one_of(name.as_str(), names) {
            return false;
        }
    }
    true
}

// The rows of a document, which may still be none.
#[tactic(auto, unfolding(crate::specs::RateFile::rates_in))]
fn rate_rows(document: &Table) -> Result<&[Value], RateFault>
    ensures ok { IfOk result (λ rows.
        rates_in (table_view document.now) ≡ rows_in (items_view rows.now)) }
    ensures fault { IfErr result (λ fault. rates_in (table_view document.now) ≡ Err fault) }
{
    if !has_only(document, &["rate"]) {
        return Err(RateFault::Field(0));
    }
    let Some(value) = document.get("rate") else {
        return Err(RateFault::Empty);
    };
    let Some(rows) = value.as_array() else {
        return Err(RateFault::Field(0));
    };
    Ok(rows.as_slice())
}

fn read_rows(alloc: Global, rows: &[Value]) -> Result<RateTable, RateFault>
    ensures ok { IfOk result (λ table. rows_in (items_view rows.now) ≡ Ok table) }
    ensures fault { IfErr result (λ fault.
        fault ≢ RateFault.Memory → rows_in (items_view rows.now) ≡ Err fault) }
{
    let [first, rest @ ..] = rows else {
        return Err(RateFault::Empty);
    };
    let Ok(mut table) = RateTable::first(alloc, read_row(1, first)?) else {
        return Err(RateFault::Memory);
    };
    for (i, value) in rest.iter().enumerate() {
        add_row(&mut table, i + 2, value)?;
    }
    Ok(table)
}

// Adds the row of this number behind those before it.
#[tactic(auto, unfolding(crate::specs::RateFile::row_after))]
fn add_row(table: &mut RateTable, number: usize, value: &Value) -> Result<(), RateFault>
    ensures ok { OnOk result ((row : Rate)
        × (row_after (last_first table.old) number (view value.now) ≡ Ok row)
        × (table.new ≡ table.old ++ row ∷ [])) }
    ensures fault { IfErr result (λ fault.
        fault ≢ RateFault.Memory
        → row_after (last_first table.old) number (view value.now) ≡ Err fault) }
{
    let row = read_row(number, value)?;
    match table.push(row) {
        Ok(()) => Ok(()),
        Err(PushFault::RateOrder) => Err(RateFault::Order(number)),
        Err(PushFault::Memory) => Err(RateFault::Memory),
    }
}

#[tactic(auto, unfolding(crate::specs::RateFile::row_alone))]
fn read_row(number: usize, value: &Value) -> Result<RateRow, RateFault>
    ensures { result ≡ row_alone number (view value.now) }
{
    let Some(written) = written_row(value) else {
        return Err(RateFault::Field(number));
    };
    let Some(row) = rate_meant(&written) else {
        return Err(RateFault::Range(number));
    };
    Ok(row)
}

// What a table of exactly the six members says.
#[tactic(auto, unfolding(crate::specs::WrittenRate::written_row))]
fn written_row(value: &Value) -> Option<WrittenRow<'_>>
    ensures { option_map row_view result ≡ written_row (view value.now) }
{
    let table = value.as_table()?;
    if !has_only(table, &ROW_MEMBERS) {
        return None;
    }
    Some(WrittenRow {
        from: text_of(value, "from")?,
        contribution_rate: number_of(value, "contribution")?,
        report_day: number_of(value, "report_day")?,
        due_day: number_of(value, "due_day")?,
        interest_rate: number_of(value, "interest")?,
        entitlement_rate: number_of(value, "entitlement")?,
    })
}

/// The text that a row has under a name. None where it has none, or another value.
pub fn text_of<'a>(row: &'a Value, name: &str) -> Option<&'a str>
    ensures { option_map (λ text. text.now) result ≡ text_of name.now (view row.now) }
{
    row.get(name)?.as_str()
}

/// The whole number that a row has under a name. None where it has none, or another value.
pub fn number_of(row: &Value, name: &str) -> Option<i64>
    ensures { result ≡ number_of name.now (view row.now) }
{
    row.get(name)?.as_integer()
}

// The rates of a written row. None where a part is out of range.
fn rate_meant(row: &WrittenRow) -> Option<RateRow>
    ensures { result ≡ rate_meant (row_view row.now) }
{
    RateRow::new(
        Month::read(row.from.as_bytes())?,
        u16::try_from(row.contribution_rate).ok()?,
        u8::try_from(row.report_day).ok()?,
        u8::try_from(row.due_day).ok()?,
        u16::try_from(row.interest_rate).ok()?,
        u16::try_from(row.entitlement_rate).ok()?,
    )
}

/// A law of the definitions, without effect: rates whose first months rise are read from the
/// document that writes them.
pub fn law_written_rates()
    ensures { WrittenRatesAreRead }
{}

/// A law of the definitions, without effect: what a rate file of one row says, byte for byte, and
/// which fault each of some others has.
pub fn law_rate_files_by_example()
    ensures good { rates_of (example_text (codes "2024-01") (codes "20"))
        ≡ Ok (example_rate 24288 20 ∷ []) }
    ensures no_text { rates_of (255 ∷ []) ≡ Err Text }
    ensures no_toml { rates_of (codes "rate\n") ≡ Err Text }
    ensures empty { rates_of [] ≡ Err Empty }
    ensures no_array { rates_of (codes "rate = 1\n") ≡ Err (Field 0) }
    ensures other_member { rates_of (codes "rates = []\n") ≡ Err (Field 0) }
    ensures no_table { rates_of (codes "rate = [1]\n") ≡ Err (Field 1) }
    ensures no_number { rates_of (example_text (codes "2024-01") (codes "\"20\"")) ≡ Err (Field 1) }
    ensures no_month { rates_of (example_text (codes "2024-13") (codes "20")) ≡ Err (Range 1) }
    ensures due_day { rates_of (example_text (codes "2024-01") (codes "29")) ≡ Err (Range 1) }
    ensures order { rates_of (example_text (codes "2025-01") (codes "20")
        ++ example_text (codes "2024-12") (codes "20")) ≡ Err (Order 2) }
    ensures same_month { rates_of (example_text (codes "2025-01") (codes "20")
        ++ example_text (codes "2025-01") (codes "21")) ≡ Err (Order 2) }
{}
