//! Values of the office's types on their way into a statement.
ghost use Rattle.std.specs.Prelude.{◌≡◌};
ghost use Rattle.sqlite.specs.Values.{bound_value};
ghost use Rattle.sqlite_value.specs.Value.{owned};
ghost use Rattle.sqlite_value.specs.declared.value.Value.TheVariants.{Blob};
ghost use Rattle.clear_schema.specs.Values as stored;

use clear_money::days::Day;
use clear_money::months::Month;
use clear_money::numbers::{Amount, EmployerNo, WorkerNo};
use clear_schema::values::{month, number, text};
use clear_values::callers::Caller;
use clear_values::lines::Purpose;
use clear_values::numbers::{ClaimNo, ListNo, RequestNo, RunNo};
use sqlite_value::value::ValueRef;

/// The number of a firm.
pub fn employer(value: EmployerNo) -> ValueRef<'static>
    ensures { bound_value (owned result) ≡ stored.number value }
{
    number(u64::from(value.number()))
}

/// The number of a firm, or NULL.
pub fn maybe_employer(value: Option<EmployerNo>) -> ValueRef<'static>
    ensures { bound_value (owned result) ≡ stored.maybe value }
{
    match value {
        Some(firm) => employer(firm),
        None => ValueRef::Null,
    }
}

/// A day.
pub fn day(value: Day) -> ValueRef<'static>
    ensures { bound_value (owned result) ≡ stored.number value }
{
    number(u64::from(value.number()))
}

/// An amount in cents.
pub fn amount(value: Amount) -> ValueRef<'static>
    ensures { bound_value (owned result) ≡ stored.number value }
{
    number(value.cents())
}

/// A purpose: C for contributions, and I for interest.
pub fn purpose(value: Purpose) -> ValueRef<'static>
    ensures { bound_value (owned result) ≡ stored.purpose value }
{
    text(value.letter())
}

/// The number of a worker.
pub fn worker(value: WorkerNo) -> ValueRef<'static>
    ensures { bound_value (owned result) ≡ stored.number value }
{
    number(u64::from(value.number()))
}

/// A month, or NULL.
pub fn maybe_month(value: Option<Month>) -> ValueRef<'static>
    ensures { bound_value (owned result) ≡ stored.maybe_month value }
{
    match value {
        Some(last) => month(last),
        None => ValueRef::Null,
    }
}

/// A day, or NULL.
pub fn maybe_day(value: Option<Day>) -> ValueRef<'static>
    ensures { bound_value (owned result) ≡ stored.maybe value }
{
    match value {
        Some(day) => number(u64::from(day.number())),
        None => ValueRef::Null,
    }
}

/// Who calls: a firm as its number, and a clerk as 0.
pub fn caller(value: Caller) -> ValueRef<'static>
    ensures { bound_value (owned result) ≡ stored.number (stored.caller_number value) }
{
    match value {
        Caller::Firm(firm) => employer(firm),
        Caller::Clerk => number(0),
    }
}

/// The number of a request.
pub fn request_no(value: RequestNo) -> ValueRef<'static>
    ensures { bound_value (owned result) ≡ stored.number value }
{
    number(value.number())
}

/// The number of a claim.
pub fn claim_no(value: ClaimNo) -> ValueRef<'static>
    ensures { bound_value (owned result) ≡ stored.number value }
{
    number(u64::from(value.number()))
}

/// The number of a payout list.
pub fn list_no(value: ListNo) -> ValueRef<'static>
    ensures { bound_value (owned result) ≡ stored.number value }
{
    number(u64::from(value.number()))
}

/// The number of a payout list, or NULL.
pub fn maybe_list(value: Option<ListNo>) -> ValueRef<'static>
    ensures { bound_value (owned result) ≡ stored.maybe value }
{
    match value {
        Some(list) => list_no(list),
        None => ValueRef::Null,
    }
}

/// The number of a reminder run.
pub fn run_no(value: RunNo) -> ValueRef<'static>
    ensures { bound_value (owned result) ≡ stored.number value }
{
    number(u64::from(value.number()))
}

/// Bytes.
pub fn bytes(value: &[u8]) -> ValueRef<'_>
    ensures { bound_value (owned result) ≡ Blob value.now }
{
    ValueRef::Blob(value)
}
