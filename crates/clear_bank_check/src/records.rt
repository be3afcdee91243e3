//! The records of a bank file, looked at once more.
ghost use Rattle.std.specs.Prelude.{◌≡◌, map, option_map, IfOk};
ghost use Rattle.csv.specs.Records.{fields_of};
ghost use Rattle.clear_bank_check.specs.BankFound.{bytes_in, record_of, records_by};

use clear_bank::fields::BankField;
use clear_values::limits::MAX_RECORDS;
use csv::{ByteRecord, ReaderBuilder};
use std::alloc::{AllocError, Global};

// The records of a file whose fields are parted by this byte, the header being the first. No more of
// them than a file can have and one.
pub(crate) fn read_records(
    alloc: Global,
    bytes: &[u8],
    delimiter: u8,
) -> Result<Vec<ByteRecord>, AllocError>
    ensures { IfOk result (λ rows.
        map fields_of rows.items ≡ records_by delimiter bytes.now) }
{
    let reader = ReaderBuilder::new()
        .has_headers(false)
        .flexible(true)
        .delimiter(delimiter)
        .from_reader(alloc, bytes);
    let mut rows = Vec::new(alloc);
    for row in reader.into_byte_records() {
        let row = match row {
            Ok(row) => row,
            Err(_) => return Err(AllocError),
        };
        if rows.len() > MAX_RECORDS {
            return Ok(rows);
        }
        rows.push(row)?;
    }
    Ok(rows)
}

// The record of a number, counted from 1.
pub(crate) fn record_at(records: &[ByteRecord], line: usize) -> Option<&ByteRecord>
    ensures { option_map (λ row. fields_of row.now) result
        ≡ record_of line (map fields_of records.now) }
{
    if line == 0 {
        return None;
    }
    records.get(line - 1)
}

// What stands in a field of a record; nothing where the record is too short.
pub(crate) fn bytes_in(row: &ByteRecord, field: BankField) -> &[u8]
    ensures { result.now ≡ bytes_in (fields_of row.now) field }
{
    let place = usize::from(field.number()).saturating_sub(1);
    match row.get(place) {
        Some(bytes) => bytes,
        None => b"",
    }
}
