//! A second look at a bank file that isn't taken: what stands at its fault.
//!
//! Which fault is told is the reader's and proved, and so is what stands there: the value of the field, the
//! number of fields, what the header has, or the reference and the record that it stands in already.
ghost use Rattle.std.specs.Prelude.{◌≡◌, map, option_map, IfOk, IfSome};
ghost use Rattle.csv.specs.Records.{fields_of};
ghost use Rattle.clear_bank_check.specs.BankFound.{IsFoundIn, conflict_found, first_with, header_found};
ghost use Rattle.clear_bank_check.specs.BankFound.{name_found, record_found};
ghost use Rattle.clear_check.specs.Shown.{IsShown, alone};

use crate::records::{bytes_in, record_at};
use clear_bank::fault::{BankFault, FIRST_ROW};
use clear_bank::fields::{BankField, RecordFault};
use clear_check::seen::Seen;
use clear_check::texts::{plural, shown};
use csv::ByteRecord;
use std::alloc::{AllocError, Global};

// What stands at a fault.
pub(crate) fn look_at(
    alloc: Global,
    records: &[ByteRecord],
    fault: BankFault,
) -> Result<Seen, AllocError>
    ensures { IfOk result (IsFoundIn (map fields_of records.now) fault) }
{
    match fault {
        BankFault::BadCsv { line: 1, fault } => wrong_header(alloc, records.first(), fault),
        BankFault::BadCsv { line, fault } => wrong_field(alloc, record_at(records, line), fault),
        BankFault::RefConflict { line } => conflict(alloc, records, line),
        BankFault::OverLimit | BankFault::Memory => Seen::nothing(alloc),
    }
}

// What a header has that isn't as it has to be.
fn wrong_header(
    alloc: Global,
    header: Option<&ByteRecord>,
    fault: RecordFault,
) -> Result<Seen, AllocError>
    ensures { IfOk result (IsShown (alone
        (header_found (option_map (λ row. fields_of row.now) header.entry) fault))) }
{
    let Some(header) = header else {
        return Seen::new(alloc, &["the file is empty"], &[]);
    };
    match fault {
        RecordFault::FieldCount => {
            let number = header.len().to_string(alloc)?;
            let here = ["it has ", number.as_str(), " field", plural(header.len())];
            Seen::new(alloc, &here, &[])
        }
        RecordFault::Field(field) => wrong_name(alloc, header, field),
    }
}

// What stands in the place of a field's name.
fn wrong_name(alloc: Global, header: &ByteRecord, field: BankField) -> Result<Seen, AllocError>
    ensures { IfOk result (IsShown (alone (name_found (fields_of header.now) field))) }
{
    let value = bytes_in(header, field);
    if value == field.name().as_bytes() {
        let here = ["it has to stand first, without a quotation mark"];
        return Seen::new(alloc, &here, &[]);
    }
    let number = field.number().to_string(alloc)?;
    let value = shown(alloc, value)?;
    let here = ["its field ", number.as_str(), " is ", value.as_str()];
    Seen::new(alloc, &here, &[])
}

// The value of a field, or the number of fields.
fn wrong_field(
    alloc: Global,
    row: Option<&ByteRecord>,
    fault: RecordFault,
) -> Result<Seen, AllocError>
    ensures { IfOk result (λ seen. IfSome
        (option_map (λ fields. record_found fields fault)
        (option_map (λ row. fields_of row.now) row.entry))
        (λ text. IsShown (alone text) seen)) }
{
    let Some(row) = row else {
        return Seen::nothing(alloc);
    };
    match fault {
        RecordFault::FieldCount => {
            let number = row.len().to_string(alloc)?;
            let here = [number.as_str(), " field", plural(row.len())];
            Seen::new(alloc, &here, &[])
        }
        RecordFault::Field(field) => {
            let value = shown(alloc, bytes_in(row, field))?;
            Seen::new(alloc, &[value.as_str()], &[])
        }
    }
}

// The reference of a record, and the number of the record that it stands in already.
fn conflict(alloc: Global, records: &[ByteRecord], line: usize) -> Result<Seen, AllocError>
    ensures { IfOk result (λ seen. IfSome (conflict_found line (map fields_of records.now))
        (λ told. IsShown told seen)) }
{
    let Some(record) = record_at(records, line) else {
        return Seen::nothing(alloc);
    };
    let reference = bytes_in(record, BankField::Reference);
    let Some((_, rows)) = records.split_first() else {
        return Seen::nothing(alloc);
    };
    let Some(first) = first_with(rows, reference) else {
        return Seen::nothing(alloc);
    };
    let here = shown(alloc, reference)?;
    let other = first.to_string(alloc)?;
    Seen::new(alloc, &[here.as_str()], &[other.as_str()])
}

// The number of the first record that has this reference, of those behind the header.
fn first_with(rows: &[ByteRecord], reference: &[u8]) -> Option<usize>
    ensures { result ≡ first_with reference.now (map fields_of rows.now) }
{
    for (place, row) in rows.iter().enumerate() {
        if bytes_in(row, BankField::Reference) == reference {
            return Some(place + FIRST_ROW);
        }
    }
    None
}
