//! Values of the office's types out of the columns of a row.
ghost use Rattle.std.specs.Prelude.{◌≡◌, ◌≢◌, ◌<◌, ◌≤◌, ◌+◌, ◌↔◌, ⊤, ℕ, List, length};
ghost use Rattle.std.specs.Prelude.{IsTrue, IfOk, IfErr, IfSome, IsSome};
ghost use Rattle.sqlite_value.specs.Order.{column};
ghost use Rattle.sqlite_value.specs.declared.value.Value.TheVariants.{Blob, Text};
ghost use Rattle.clear_money.specs.Calendar.{IsDay, IsMonth, months};
ghost use Rattle.clear_money.specs.Numbers.{IsAmount, IsEmployerNo, IsWorkerNo};
ghost use Rattle.clear_money.specs.Rates.{IsDayOfEachMonth};
ghost use Rattle.clear_values.specs.Texts.{is_note, is_reference};
ghost use Rattle.clear_values.specs.Limits.{most_base, most_entries, most_gross};
ghost use Rattle.clear_values.specs.Limits.{most_versions, most_weight};
ghost use Rattle.clear_values.specs.Numbers.{IsClaimNo, IsListNo, IsRunNo, IsSerialCount};
ghost use Rattle.clear_values.specs.RowRanges.{IsSerial};
ghost use Rattle.clear_values.specs.Texts.{IsCreditReference, IsName};
ghost use Rattle.clear_schema.specs.Values as stored;
ghost use Rattle.clear_columns.specs.Columns.{ReadsColumn};

use crate::ranges::{
    is_contribution, is_entry_count, is_gross, is_month_count, is_serial, is_version, is_weight,
};
use clear_money::days::Day;
use clear_money::months::Month;
use clear_money::numbers::{Amount, EmployerNo, WorkerNo};
use clear_money::rates::RateRow;
use clear_schema::fault::Fault;
use clear_schema::values::value_at;
use clear_values::causes::StoreCause;
use clear_values::lines::Purpose;
use clear_values::numbers::{ClaimNo, ListNo, RunNo, SerialCount};
use clear_values::texts::{CreditReference, Name, Note, Reference};
use sqlite::Row;

// The value, if it is in its range.
fn in_range<T: Copy>(value: T, is_right: bool) -> Result<T, Fault>
    ensures right { IfOk result (λ x. (x ≡ value) × IsTrue is_right) }
    ensures wrong { IfErr result (λ f. (f ≡ Fault.Store StoreCause.Row) × ¬ IsTrue is_right) }
{
    is_right
        .then_some(value)
        .ok_or(Fault::Store(StoreCause::Row))
}

/// The whole number in a column.
pub fn number_at(row: &Row, at: usize) -> Result<u64, Fault>
    ensures reads { ReadsColumn row.now at result stored.number (λ _. ⊤) }
{
    value_at(row, at)
}

/// The firm in a column.
pub fn employer_at(row: &Row, at: usize) -> Result<EmployerNo, Fault>
    ensures reads { ReadsColumn row.now at result stored.number IsEmployerNo }
{
    EmployerNo::new(number_at(row, at)?).ok_or(Fault::Store(StoreCause::Row))
}

/// The firm in a column, or none where it is NULL.
pub fn maybe_employer_at(row: &Row, at: usize) -> Result<Option<EmployerNo>, Fault>
    ensures reads { ReadsColumn row.now at result stored.maybe (λ e. IfSome e IsEmployerNo) }
{
    let found: Option<u64> = value_at(row, at)?;
    match found {
        Some(number) => Ok(Some(EmployerNo::new(number).ok_or(Fault::Store(StoreCause::Row))?)),
        None => Ok(None),
    }
}

/// The day in a column.
pub fn day_at(row: &Row, at: usize) -> Result<Day, Fault>
    ensures reads { ReadsColumn row.now at result stored.number IsDay }
{
    Day::new(number_at(row, at)?).ok_or(Fault::Store(StoreCause::Row))
}

/// The amount in a column, 1 to 100,000,000,000 cents.
pub fn amount_at(row: &Row, at: usize) -> Result<Amount, Fault>
    ensures reads { ReadsColumn row.now at result stored.number IsAmount }
{
    Amount::new(number_at(row, at)?).ok_or(Fault::Store(StoreCause::Row))
}

/// The purpose in a column.
pub fn purpose_at(row: &Row, at: usize) -> Result<Purpose, Fault>
    ensures reads { ReadsColumn row.now at result stored.purpose (λ _. ⊤) }
{
    let text: String = value_at(row, at)?;
    match text.as_str().as_bytes() {
        [b'C'] => Ok(Purpose::Contribution),
        [b'I'] => Ok(Purpose::Interest),
        _ => Err(Fault::Store(StoreCause::Row)),
    }
}

/// The reference of a bank line in a column.
pub fn reference_at(row: &Row, at: usize) -> Result<Reference, Fault>
    ensures reads { ReadsColumn row.now at result Text (λ r. IsTrue (is_reference r)) }
{
    let text = value_at(row, at)?;
    Reference::of_text(text).ok_or(Fault::Store(StoreCause::Row))
}

/// The note of a bank line in a column.
pub fn note_at(row: &Row, at: usize) -> Result<Note, Fault>
    ensures reads { ReadsColumn row.now at result Text (λ n. IsTrue (is_note n)) }
{
    let text = value_at(row, at)?;
    Note::of_text(text).ok_or(Fault::Store(StoreCause::Row))
}

/// The reference of a credit in a column.
pub fn credit_reference_at(row: &Row, at: usize) -> Result<CreditReference, Fault>
    ensures reads { ReadsColumn row.now at result Text IsCreditReference }
{
    let text = value_at(row, at)?;
    CreditReference::new(text).ok_or(Fault::Store(StoreCause::Row))
}

/// The number of a worker in a column.
pub fn worker_at(row: &Row, at: usize) -> Result<WorkerNo, Fault>
    ensures reads { ReadsColumn row.now at result stored.number IsWorkerNo }
{
    WorkerNo::new(number_at(row, at)?).ok_or(Fault::Store(StoreCause::Row))
}

/// The month in a column.
pub fn month_at(row: &Row, at: usize) -> Result<Month, Fault>
    ensures reads { ReadsColumn row.now at result stored.month IsMonth }
{
    month_from(number_at(row, at)?).ok_or(Fault::Store(StoreCause::Row))
}

/// The month in a column, or none.
pub fn maybe_month_at(row: &Row, at: usize) -> Result<Option<Month>, Fault>
    ensures reads { ReadsColumn row.now at result stored.maybe_month (λ m. IfSome m IsMonth) }
{
    let found: Option<u64> = value_at(row, at)?;
    match found {
        Some(number) => Ok(Some(month_from(number).ok_or(Fault::Store(StoreCause::Row))?)),
        None => Ok(None),
    }
}

/// The day in a column, or none.
pub fn maybe_day_at(row: &Row, at: usize) -> Result<Option<Day>, Fault>
    ensures reads { ReadsColumn row.now at result stored.maybe (λ d. IfSome d IsDay) }
{
    let found: Option<u64> = value_at(row, at)?;
    match found {
        Some(number) => Ok(Some(Day::new(number).ok_or(Fault::Store(StoreCause::Row))?)),
        None => Ok(None),
    }
}

/// The name in a column.
pub fn name_at(row: &Row, at: usize) -> Result<Name, Fault>
    ensures reads { ReadsColumn row.now at result Text IsName }
{
    Name::new(value_at(row, at)?).ok_or(Fault::Store(StoreCause::Row))
}

/// The version of a report in a column, 1 to 10,000.
pub fn version_at(row: &Row, at: usize) -> Result<u32, Fault>
    ensures reads { ReadsColumn row.now at result stored.number (λ v. (1 ≤ v) × (v ≤ most_versions)) }
{
    let version: u32 = value_at(row, at)?;
    in_range(version, is_version(version))
}

/// The gross amount in a column, in cents, at most 10,000,000.
pub fn gross_at(row: &Row, at: usize) -> Result<u64, Fault>
    ensures reads { ReadsColumn row.now at result stored.number (λ g. g ≤ most_gross) }
{
    let gross: u64 = value_at(row, at)?;
    in_range(gross, is_gross(gross))
}

/// The contribution of a month in a column, or what is open of it, in cents, at most 5,000,000,000.
pub fn contribution_at(row: &Row, at: usize) -> Result<u64, Fault>
    ensures reads { ReadsColumn row.now at result stored.number (λ c. c ≤ most_base) }
{
    let contribution: u64 = value_at(row, at)?;
    in_range(contribution, is_contribution(contribution))
}

/// The weight of a contribution in a column: cents, each once for each month begun until it was paid,
/// at most 12,060,000,000,000.
pub fn weight_at(row: &Row, at: usize) -> Result<u64, Fault>
    ensures reads { ReadsColumn row.now at result stored.number (λ w. w ≤ most_weight) }
{
    let weight: u64 = value_at(row, at)?;
    in_range(weight, is_weight(weight))
}

/// The serial of a bank line or a release in a column, 1 to 500,000,000,000.
pub fn serial_at(row: &Row, at: usize) -> Result<u64, Fault>
    ensures reads { ReadsColumn row.now at result stored.number IsSerial }
{
    let serial: u64 = value_at(row, at)?;
    in_range(serial, is_serial(serial))
}

/// How many requests were accepted, in a column, at most 50,000,000.
pub fn entry_count_at(row: &Row, at: usize) -> Result<u64, Fault>
    ensures reads { ReadsColumn row.now at result stored.number (λ n. n ≤ most_entries) }
{
    let count: u64 = value_at(row, at)?;
    in_range(count, is_entry_count(count))
}

/// How many claims, payout lists or reminder runs were given numbers, in a column, at most
/// 50,000,000.
pub fn given_count_at(row: &Row, at: usize) -> Result<u32, Fault>
    ensures reads { ReadsColumn row.now at result stored.number (λ n. n ≤ most_entries) }
{
    let count: u32 = value_at(row, at)?;
    in_range(count, is_entry_count(u64::from(count)))
}

/// How many serials were given, in a column, at most 500,000,000,000.
pub fn serial_count_at(row: &Row, at: usize) -> Result<SerialCount, Fault>
    ensures reads { ReadsColumn row.now at result stored.number IsSerialCount }
{
    SerialCount::new(number_at(row, at)?).ok_or(Fault::Store(StoreCause::Row))
}

/// The rate in a column, in hundredths of a percent, at most this.
pub fn rate_at(row: &Row, at: usize, most: u16) -> Result<u16, Fault>
    ensures reads { ReadsColumn row.now at result stored.number (λ r. r ≤ most) }
{
    let number: u64 = value_at(row, at)?;
    Ok(in_range(number, number <= u64::from(most))? as u16)
}

/// The day of each month in a column, 1 to 28.
pub fn month_day_at(row: &Row, at: usize) -> Result<u8, Fault>
    ensures reads { ReadsColumn row.now at result stored.number IsDayOfEachMonth }
{
    let number: u64 = value_at(row, at)?;
    Ok(in_range(
        number,
        number >= 1 && number <= u64::from(RateRow::LAST_DAY),
    )? as u8)
}

/// The number of a claim in a column, 1 to 50,000,000.
pub fn claim_at(row: &Row, at: usize) -> Result<ClaimNo, Fault>
    ensures reads { ReadsColumn row.now at result stored.number IsClaimNo }
{
    ClaimNo::new(number_at(row, at)?).ok_or(Fault::Store(StoreCause::Row))
}

/// The number of a payout list in a column, 1 to 50,000,000.
pub fn list_at(row: &Row, at: usize) -> Result<ListNo, Fault>
    ensures reads { ReadsColumn row.now at result stored.number IsListNo }
{
    ListNo::new(number_at(row, at)?).ok_or(Fault::Store(StoreCause::Row))
}

/// The number of a payout list in a column, 1 to 50,000,000, or none where it is NULL.
pub fn maybe_list_at(row: &Row, at: usize) -> Result<Option<ListNo>, Fault>
    ensures reads { ReadsColumn row.now at result stored.maybe (λ n. IfSome n IsListNo) }
{
    let found: Option<u64> = value_at(row, at)?;
    match found {
        Some(number) => {
            let list = ListNo::new(number).ok_or(Fault::Store(StoreCause::Row))?;
            Ok(Some(list))
        }
        None => Ok(None),
    }
}

/// The number of a reminder run in a column, 1 to 50,000,000.
pub fn run_at(row: &Row, at: usize) -> Result<RunNo, Fault>
    ensures reads { ReadsColumn row.now at result stored.number IsRunNo }
{
    RunNo::new(number_at(row, at)?).ok_or(Fault::Store(StoreCause::Row))
}

/// The level of a reminder in a column, 1 to 3.
pub fn level_at(row: &Row, at: usize) -> Result<u8, Fault>
    ensures reads { ReadsColumn row.now at result stored.number (λ l. (1 ≤ l) × (l ≤ 3)) }
{
    let number: u64 = value_at(row, at)?;
    Ok(in_range(number, number >= 1 && number <= 3)? as u8)
}

/// How many months, in a column, at most 2,400.
pub fn month_count_at(row: &Row, at: usize) -> Result<u32, Fault>
    ensures reads { ReadsColumn row.now at result stored.number (λ n. n ≤ length months) }
{
    let count: u32 = value_at(row, at)?;
    in_range(count, is_month_count(count))
}

// The month that is so many after 2000-01. None past 2199-12.
fn month_from(number: u64) -> Option<Month>
    ensures some { IsSome result ↔ IsMonth (Month.FIRST_NUMBER + number) }
    ensures value { IfSome result (λ m. m ≡ Month.FIRST_NUMBER + number) }
{
    if number > u64::from(Month::LAST_NUMBER - Month::FIRST_NUMBER) {
        return None;
    }
    Month::from_number(Month::FIRST_NUMBER + number as u16)
}

/// The bytes in a column.
pub fn bytes_at(row: &Row, at: usize) -> Result<Vec<u8>, Fault>
    ensures read { IfOk result (λ bytes. column row.now at ≡ Blob bytes.items) }
    ensures cause { IfErr result (λ fault. fault ≢ Fault.Store StoreCause.Constraint) }
    ensures other { IfErr result (λ fault. fault ≢ Fault.Store StoreCause.Other) }
    ensures range { IfErr result (λ fault. fault ≡ Fault.Store StoreCause.Row → at < length row.now
        → (bytes : List ℕ) → column row.now at ≢ Blob bytes) }
{
    value_at(row, at)
}
