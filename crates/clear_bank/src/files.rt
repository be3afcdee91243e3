//! Reading a bank file.
ghost use Rattle.std.specs.Prelude.{◌≡◌, map, true};
ghost use Rattle.csv.specs.Reading.{error_kind, stops_reader, strip_bom};
ghost use Rattle.csv.specs.Records.{fields_of};
ghost use Rattle.clear_bank.specs.Answers.{Gives};
ghost use Rattle.clear_bank.specs.Files.{begins_with_r, file_lines, limited_records, record_lines};

use crate::fault::BankFault;
use crate::fields::{BankField, RecordFault};
use crate::lines::BankLine;
use crate::records::{header_fault, read_lines};
use csv::{ByteRecord, Error, ErrorKind, ReaderBuilder};
use std::alloc::Global;

// The fault of a file that doesn't begin with a header.
const NO_HEADER: BankFault = BankFault::BadCsv {
    line: 1,
    fault: RecordFault::Field(BankField::Reference),
};

/// The lines of a file, in order.
///
/// BadCsv of the header's first field if the file, one byte order mark at its beginning aside, does
/// not begin with the letter r. OverLimit if it has more data records than `limit`, whatever they
/// hold. Else BadCsv with the first bad record and what is wrong with it.
pub fn read_file(alloc: Global, bytes: &[u8], limit: usize) -> Result<Vec<BankLine>, BankFault>
    ensures { Gives (λ lines. lines.items) result (file_lines limit bytes.now) }
{
    let text = without_mark(bytes);
    if !starts_with_r(text) {
        return Err(NO_HEADER);
    }
    let records = read_records(alloc, text, limit)?;
    read_table(alloc, records.as_slice())
}

// The lines of records, the first being the header.
fn read_table(alloc: Global, records: &[ByteRecord]) -> Result<Vec<BankLine>, BankFault>
    ensures { Gives (λ lines. lines.items) result (record_lines (map fields_of records.now)) }
{
    let Some((header, rows)) = records.split_first() else {
        return Err(NO_HEADER);
    };
    if let Some(fault) = header_fault(header) {
        return Err(BankFault::BadCsv { line: 1, fault });
    }
    read_lines(alloc, rows)
}

// The records of a text, if they are within the limit.
fn read_records(alloc: Global, text: &[u8], limit: usize) -> Result<Vec<ByteRecord>, BankFault>
    ensures { Gives
        (λ rows. map fields_of rows.items)
        result
        (limited_records limit (strip_bom text.now)) }
{
    let reader = ReaderBuilder::new()
        .has_headers(false)
        .flexible(true)
        .from_reader(alloc, text);
    let mut rows = Vec::new(alloc);
    for row in reader.into_byte_records() {
        let row = match row {
            Ok(row) => row,
            Err(error) => return Err(read_fault(error)),
        };
        if rows.len() > limit {
            return Err(BankFault::OverLimit);
        }
        rows.push(row)?;
    }
    Ok(rows)
}

// Why a reader stopped: over bytes that stand in memory, only for want of memory.
fn read_fault(error: Error) -> BankFault
    requires { stops_reader (error_kind error) ≡ true }
    ensures { result ≡ BankFault.Memory }
{
    match error.into_kind() {
        ErrorKind::OutOfMemory | ErrorKind::Io(_) => BankFault::Memory,
        ErrorKind::Utf8 { .. }
        | ErrorKind::UnequalLengths { .. }
        | ErrorKind::Serialize(_)
        | ErrorKind::Deserialize { .. } => unreachable!(),
    }
}

/// A file without the byte order mark that may stand at its beginning.
pub fn without_mark(bytes: &[u8]) -> &[u8]
    ensures { result.now ≡ strip_bom bytes.now }
{
    match bytes.strip_prefix(b"\xEF\xBB\xBF") {
        Some(text) => text,
        None => bytes,
    }
}

fn starts_with_r(text: &[u8]) -> bool
    ensures { result ≡ begins_with_r text.now }
{
    match text {
        [b'r', ..] => true,
        _ => false,
    }
}
