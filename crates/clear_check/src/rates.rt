//! What is said of a rate file.
ghost use Rattle.std.specs.Prelude.{◌≡◌, ◌≢◌, ◌<◌, length, IfOk, OnOk, is_ok, string_bytes};
ghost use Rattle.clear_toml.specs.RateFile.{rates_of};
ghost use Rattle.clear_check.specs.RateChecks.{SaysRates, TellsRates, first_month, order_line};
ghost use Rattle.clear_check.specs.RateChecks.{place_of, rate_line, rates_text};

mod second_look;

use crate::Checked;
use crate::seen::Seen;
use crate::texts::{joined, plural};
use clear_book::carried::carried_text;
use clear_book::rules::Carried;
use clear_money::months::Month;
use clear_money::rates::{RateRow, RateTable, last_month};
use clear_toml::rate_file::{RateFault, read_rates};
use second_look::look_at;
use std::alloc::{AllocError, Global};

/// What is said of a rate file: its rows, or its first fault.
pub fn check_rates(alloc: Global, bytes: &[u8]) -> Result<Checked, AllocError>
    ensures good { IfOk result (λ checked. checked.good ≡ is_ok (rates_of bytes.now)) }
    ensures says { IfOk result (λ checked.
        SaysRates (rates_of bytes.now) (string_bytes checked.text)) }
    ensures tells { IfOk result (λ checked. TellsRates bytes.now (string_bytes checked.text)) }
{
    match read_rates(alloc, bytes) {
        Ok(table) => Ok(Checked {
            text: rates_text(alloc, &table)?,
            good: true,
        }),
        Err(fault) => {
            let seen = look_at(alloc, bytes, fault)?;
            Ok(Checked {
                text: rate_line(alloc, fault, &seen)?,
                good: false,
            })
        }
    }
}

#[tactic(auto, unfolding(crate::specs::RateChecks::rates_text))]
fn rates_text(alloc: Global, table: &RateTable) -> Result<String, AllocError>
    ensures { IfOk result (λ text. string_bytes text ≡ rates_text table.now) }
{
    let rows = table.as_slice();
    let count = rows.len().to_string(alloc)?;
    let first = carried_text(alloc, Carried::Month(first_month(rows)))?;
    let last = carried_text(alloc, Carried::Month(last_month(rows)))?;
    let parts = [
        count.as_str(),
        " row",
        plural(rows.len()),
        " of rates, the first from ",
        first.as_str(),
        ", the last from ",
        last.as_str(),
        "\n",
    ];
    joined(alloc, &parts)
}

fn first_month(rows: &[RateRow]) -> Month
    requires { 0 < length rows.now }
    ensures { result ≡ first_month rows.now }
{
    rows[0].first()
}

// The line on a fault.
#[tactic(auto, unfolding(crate::specs::RateChecks::rate_line))]
fn rate_line(alloc: Global, fault: RateFault, seen: &Seen) -> Result<String, AllocError>
    ensures known { OnOk result (fault ≢ RateFault.Memory) }
    ensures line { IfOk result (λ line. string_bytes line ≡ rate_line fault seen.now) }
{
    let (here, other) = (seen.here(), seen.other());
    match fault {
        RateFault::Text => joined(alloc, &["no TOML text: ", here, "\n"]),
        RateFault::Field(row) => {
            let place = place_of(alloc, row)?;
            joined(alloc, &[place.as_str(), ": ", here, "\n"])
        }
        RateFault::Range(row) => {
            let place = place_of(alloc, row)?;
            joined(
                alloc,
                &[place.as_str(), ": ", here, "; it can be ", other, "\n"],
            )
        }
        RateFault::Order(row) => order_line(alloc, row, here, other),
        RateFault::Empty => String::from_str(alloc, "no row of rates\n"),
        RateFault::Memory => Err(AllocError),
    }
}

// Where a member stands that is at fault.
fn place_of(alloc: Global, row: usize) -> Result<String, AllocError>
    ensures { IfOk result (λ place. string_bytes place ≡ place_of row) }
{
    if row == 0 {
        return String::from_str(alloc, "top level");
    }
    let row = row.to_string(alloc)?;
    joined(alloc, &["row ", row.as_str()])
}

#[tactic(auto, unfolding(crate::specs::RateChecks::order_line))]
fn order_line(alloc: Global, row: usize, here: &str, other: &str) -> Result<String, AllocError>
    ensures { IfOk result (λ line. string_bytes line ≡ order_line row here.now other.now) }
{
    let before = row.saturating_sub(1).to_string(alloc)?;
    let row = row.to_string(alloc)?;
    let parts = [
        "row ",
        row.as_str(),
        ": from is ",
        here,
        "; it has to be later than that of row ",
        before.as_str(),
        ", ",
        other,
        "\n",
    ];
    joined(alloc, &parts)
}
