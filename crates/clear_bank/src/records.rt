//! What the records of a bank file say.
ghost use Rattle.std.specs.Prelude.{◌≡◌, ◌≢◌, ◌<◌, [], ◌∷◌, length, map, MatchOption};
ghost use Rattle.csv.specs.Records.{field_at, fields_of};
ghost use Rattle.clear_bank.specs.Answers.{Gives};
ghost use Rattle.clear_bank.specs.Files.{all_lines, header_fault, line_of, rows_read};

use crate::fault::{BankFault, FIRST_ROW};
use crate::fields::{BankField, RecordFault, read_cents, read_employer, read_purpose, read_value};
use crate::lines::BankLine;
use crate::texts::{Note, Reference};
use csv::ByteRecord;
use std::alloc::Global;

// The fields of a record that has six, as they are written.
#[derive(Clone, Copy)]
struct Row<'a> {
    reference: &'a [u8],
    value: &'a [u8],
    employer: &'a [u8],
    cents: &'a [u8],
    purpose: &'a [u8],
    note: &'a [u8],
}

// None for a record with another number of fields.
fn split(row: &ByteRecord) -> Option<Row<'_>>
    ensures { MatchOption result (length (fields_of row.now) ≢ 6) (λ r. fields_of row.now
        ≡ r.reference.now ∷ r.value.now ∷ r.employer.now ∷ r.cents.now ∷ r.purpose.now
        ∷ r.note.now ∷ []) }
{
    if row.len() != 6 {
        return None;
    }
    Some(Row {
        reference: field(row, 0),
        value: field(row, 1),
        employer: field(row, 2),
        cents: field(row, 3),
        purpose: field(row, 4),
        note: field(row, 5),
    })
}

// The field at a place, counted from 0.
fn field(row: &ByteRecord, place: usize) -> &[u8]
    requires { place < length (fields_of row.now) }
    ensures { field_at (fields_of row.now) place ≡ Some result.now }
{
    match row.get(place) {
        Some(bytes) => bytes,
        None => unreachable!(),
    }
}

// What is wrong with a header: its number of fields, or the first that is not under its name.
pub(crate) fn header_fault(header: &ByteRecord) -> Option<RecordFault>
    ensures { result ≡ header_fault (fields_of header.now) }
{
    let Some(row) = split(header) else {
        return Some(RecordFault::FieldCount);
    };
    if row.reference != BankField::Reference.name().as_bytes() {
        return Some(RecordFault::Field(BankField::Reference));
    }
    if row.value != BankField::ValueDate.name().as_bytes() {
        return Some(RecordFault::Field(BankField::ValueDate));
    }
    if row.employer != BankField::Employer.name().as_bytes() {
        return Some(RecordFault::Field(BankField::Employer));
    }
    if row.cents != BankField::Cents.name().as_bytes() {
        return Some(RecordFault::Field(BankField::Cents));
    }
    if row.purpose != BankField::Purpose.name().as_bytes() {
        return Some(RecordFault::Field(BankField::Purpose));
    }
    if row.note != BankField::Note.name().as_bytes() {
        return Some(RecordFault::Field(BankField::Note));
    }
    None
}

// The lines of the data records, or the first fault.
pub(crate) fn read_lines(alloc: Global, rows: &[ByteRecord]) -> Result<Vec<BankLine>, BankFault>
    ensures { Gives
        (λ lines. lines.items)
        result
        (all_lines (rows_read (map fields_of rows.now))) }
{
    let mut lines = Vec::new(alloc);
    for (place, row) in rows.iter().enumerate() {
        lines.push(read_line(alloc, row, place + FIRST_ROW)?)?;
    }
    Ok(lines)
}

// The line that the record of a number says.
fn read_line(alloc: Global, row: &ByteRecord, number: usize) -> Result<BankLine, BankFault>
    ensures { Gives (λ line. line) result (line_of number (fields_of row.now)) }
{
    let Some(row) = split(row) else {
        return Err(BankFault::BadCsv {
            line: number,
            fault: RecordFault::FieldCount,
        });
    };
    let Some(reference) = Reference::new(alloc, row.reference)? else {
        return Err(bad(number, BankField::Reference));
    };
    let Some(value) = read_value(row.value) else {
        return Err(bad(number, BankField::ValueDate));
    };
    let Some(employer) = read_employer(row.employer) else {
        return Err(bad(number, BankField::Employer));
    };
    let Some(cents) = read_cents(row.cents) else {
        return Err(bad(number, BankField::Cents));
    };
    let Some(purpose) = read_purpose(row.purpose) else {
        return Err(bad(number, BankField::Purpose));
    };
    let Some(note) = Note::new(alloc, row.note)? else {
        return Err(bad(number, BankField::Note));
    };
    Ok(BankLine {
        reference,
        value,
        employer,
        cents,
        purpose,
        note,
    })
}

// A record of a number with a bad field.
fn bad(line: usize, field: BankField) -> BankFault
    ensures { result ≡ BankFault.BadCsv line (RecordFault.Field field) }
{
    BankFault::BadCsv {
        line,
        fault: RecordFault::Field(field),
    }
}
