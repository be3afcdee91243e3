//! What a bank file looks like that isn't taken.
ghost use Rattle.std.specs.Prelude.{◌≡◌, ◌↔◌, ◌==◌, ◌&&◌, not, false, count_by, map, IfOk, IsUtf8};
ghost use Rattle.std.specs.Prelude.{string_bytes};
ghost use Rattle.std.specs.Char.{is_ascii_digit};
ghost use Rattle.std.specs.List.{list_all, list_any, position};
ghost use Rattle.csv.specs.Records.{fields_of};
ghost use Rattle.clear_bank_check.specs.Hints.{AreHints, IsXml, at_fault, fits};
ghost use Rattle.clear_bank_check.specs.Hints.{has_more_semicolons, has_semicolons, header_in};
ghost use Rattle.clear_bank_check.specs.Hints.{hint_lines, in_some_field, is_amount_field};
ghost use Rattle.clear_bank_check.specs.Hints.{is_cut_amount, is_of_amount, is_of_shape};
ghost use Rattle.clear_bank_check.specs.Hints.{is_parted_amount, is_pointed_day, is_spelled};
ghost use Rattle.clear_bank_check.specs.Hints.{is_wrong, when};

use crate::records::{bytes_in, read_records, record_at};
use clear_bank::fault::BankFault;
use clear_bank::fields::{BankField, RecordFault};
use clear_bank::files::without_mark;
use clear_check::texts::joined;
use csv::ByteRecord;
use std::alloc::{AllocError, Global};
use std::str;

/// What a bank file looks like that isn't taken.
#[derive(Clone, Copy)]
pub struct Hints {
    /// It is a statement of the bank in XML, as banks give it.
    pub xml: bool,
    /// Its fields are parted by semicolons.
    pub semicolons: bool,
    /// A day is written as 01.04.2024.
    pub pointed_day: bool,
    /// An amount is written as 15,00 or 15.00.
    pub parted_amount: bool,
    /// Its bytes are no UTF-8.
    pub other_text: bool,
}

// How banks spell a day or an amount.
#[derive(Clone, Copy)]
enum Spelling {
    // As 01.04.2024 or 01.04.24.
    PointedDay,
    // As 15,00 or 15.00.
    PartedAmount,
}

impl Hints {
    /// A line for each that applies.
    #[tactic(auto, unfolding(crate::specs::Hints::hint_lines))]
    pub fn text(self, alloc: Global) -> Result<String, AllocError>
        ensures { IfOk result (λ text. string_bytes text ≡ hint_lines self) }
    {
        let parts = [
            when(
                self.xml,
                "this is a bank's statement in XML: tools/bank-file makes a bank file of it\n",
            ),
            when(
                self.semicolons,
                "this looks like a bank's own export: its fields are parted by ;\n",
            ),
            when(
                self.pointed_day,
                "a day is written YYYY-MM-DD: 2024-04-01 for 01.04.2024\n",
            ),
            when(
                self.parted_amount,
                "cents are whole numbers: 1500 for 15,00 or 15.00\n",
            ),
            when(
                self.other_text,
                "this text is Latin-1, UTF-16 or the like; the office reads UTF-8\n",
            ),
        ];
        joined(alloc, &parts)
    }
}

fn when(applies: bool, line: &'static str) -> &'static str
    ensures { result.now ≡ when applies line.entry.now }
{
    if applies { line } else { "" }
}

// What a file and its record at a fault look like, given the records that commas part. In a bank's own
// export each field counts, and in a file of the office's form only the one at fault.
pub(crate) fn hints_of(
    alloc: Global,
    bytes: &[u8],
    records: &[ByteRecord],
    fault: BankFault,
) -> Result<Hints, AllocError>
    ensures { IfOk result (AreHints bytes.now (map fields_of records.now) fault) }
{
    let xml = is_xml(bytes);
    let semicolons = is_export(bytes, xml);
    let other_text = is_other_text(bytes);
    if semicolons {
        let records = read_records(alloc, bytes, b';')?;
        return Ok(Hints {
            xml,
            semicolons,
            pointed_day: in_some_field(records.as_slice(), Spelling::PointedDay),
            parted_amount: in_some_field(records.as_slice(), Spelling::PartedAmount),
            other_text,
        });
    }
    Ok(Hints {
        xml,
        semicolons,
        pointed_day: at_fault(records, fault, Spelling::PointedDay),
        parted_amount: at_fault(records, fault, Spelling::PartedAmount),
        other_text,
    })
}

fn is_other_text(bytes: &[u8]) -> bool
    ensures { (result ≡ false) ↔ IsUtf8 bytes.now }
{
    str::from_utf8(bytes).is_err()
}

// The first sign, behind a byte order mark and spaces, is that of XML.
fn is_xml(bytes: &[u8]) -> bool
    ensures { IsXml bytes.now result }
{
    without_mark(bytes).trim_ascii_start().starts_with(b"<")
}

// A file that isn't in XML, and whose fields are parted by semicolons.
fn is_export(bytes: &[u8], xml: bool) -> bool
    ensures { result ≡ (not xml && has_semicolons bytes.now) }
{
    if xml { false } else { has_semicolons(bytes) }
}

// In the header, or in the whole file, more semicolons stand than commas.
fn has_semicolons(bytes: &[u8]) -> bool
    ensures { result ≡ has_semicolons bytes.now }
{
    has_more_semicolons(header_in(bytes)) || has_more_semicolons(bytes)
}

// What stands before the first end of a line.
fn header_in(bytes: &[u8]) -> &[u8]
    ensures { result.now ≡ header_in bytes.now }
{
    match line_end(bytes) {
        Some(end) => &bytes[..end],
        None => bytes,
    }
}

// Where the first line ends.
fn line_end(bytes: &[u8]) -> Option<usize>
    ensures { result ≡ position (λ byte. byte == 10) bytes.now }
{
    bytes.iter().position(|byte| *byte == b'\n')
}

fn has_more_semicolons(text: &[u8]) -> bool
    ensures { result ≡ has_more_semicolons text.now }
{
    count_of(text, b';') > count_of(text, b',')
}

// How often a byte stands in a text.
fn count_of(text: &[u8], wanted: u8) -> usize
    ensures { result ≡ count_by (λ byte. byte == wanted) text.now }
{
    text.iter().filter(|byte| **byte == wanted).count()
}

// A field of some record is spelled so.
fn in_some_field(records: &[ByteRecord], spelling: Spelling) -> bool
    ensures { result ≡ in_some_field (is_spelled spelling) (map fields_of records.now) }
{
    for record in records {
        if has_field(record, spelling) {
            return true;
        }
    }
    false
}

fn has_field(row: &ByteRecord, spelling: Spelling) -> bool
    ensures { result ≡ list_any (is_spelled spelling) (fields_of row.now) }
{
    for field in row {
        if is_spelled(field, spelling) {
            return true;
        }
    }
    false
}

fn is_spelled(field: &[u8], spelling: Spelling) -> bool
    ensures { result ≡ is_spelled spelling field.now }
{
    match spelling {
        Spelling::PointedDay => is_pointed_day(field),
        Spelling::PartedAmount => is_amount_field(field),
    }
}

// A day as 01.04.24 is no amount.
fn is_amount_field(field: &[u8]) -> bool
    ensures { result ≡ is_amount_field field.now }
{
    !is_pointed_day(field) && is_parted_amount(field)
}

// The field at a fault is spelled so.
fn at_fault(records: &[ByteRecord], fault: BankFault, spelling: Spelling) -> bool
    ensures { result ≡ at_fault (is_wrong spelling) (map fields_of records.now) fault }
{
    match fault {
        BankFault::BadCsv { line, fault } => match record_at(records, line) {
            Some(record) => is_wrong(record, fault, spelling),
            None => false,
        },
        BankFault::OverLimit | BankFault::RefConflict { .. } | BankFault::Memory => false,
    }
}

// The field in which a record is wrong is spelled so; an amount may also be cut in two.
fn is_wrong(row: &ByteRecord, fault: RecordFault, spelling: Spelling) -> bool
    ensures { result ≡ is_wrong spelling fault (fields_of row.now) }
{
    match (spelling, fault) {
        (Spelling::PointedDay, RecordFault::Field(BankField::ValueDate)) => {
            is_pointed_day(bytes_in(row, BankField::ValueDate))
        }
        (Spelling::PartedAmount, RecordFault::FieldCount) => is_cut_amount(row),
        (Spelling::PartedAmount, RecordFault::Field(BankField::Cents)) => {
            is_parted_amount(bytes_in(row, BankField::Cents))
        }
        _ => false,
    }
}

// An amount without quotation marks is cut into two fields by its comma.
fn is_cut_amount(row: &ByteRecord) -> bool
    ensures { result ≡ is_cut_amount (fields_of row.now) }
{
    let amount = bytes_in(row, BankField::Cents);
    let rest = bytes_in(row, BankField::Purpose);
    row.len() == 7 && are_digits(amount) && is_of_shape(b"00", rest)
}

// A day as 01.04.2024 or 01.04.24.
fn is_pointed_day(text: &[u8]) -> bool
    ensures { result ≡ is_pointed_day text.now }
{
    is_of_shape(b"00.00.0000", text) || is_of_shape(b"00.00.00", text)
}

// An amount with two digits behind a comma or a point.
fn is_parted_amount(text: &[u8]) -> bool
    ensures { result ≡ is_parted_amount text.now }
{
    let (front, back) = text.split_at(text.len().saturating_sub(4));
    are_of_amount(front) && (is_of_shape(b"0,00", back) || is_of_shape(b"0.00", back))
}

// Whether a text is of a shape, in which 0 stands for any digit.
fn is_of_shape(shape: &[u8], text: &[u8]) -> bool
    ensures { result ≡ is_of_shape shape.now text.now }
{
    if shape.len() != text.len() {
        return false;
    }
    for (place, sign) in shape.iter().enumerate() {
        if !fits(*sign, text[place]) {
            return false;
        }
    }
    true
}

fn fits(sign: u8, byte: u8) -> bool
    ensures { result ≡ fits sign byte }
{
    if sign == b'0' {
        byte.is_ascii_digit()
    } else {
        byte == sign
    }
}

fn are_digits(bytes: &[u8]) -> bool
    ensures { result ≡ list_all is_ascii_digit bytes.now }
{
    bytes.iter().all(|byte| byte.is_ascii_digit())
}

fn are_of_amount(bytes: &[u8]) -> bool
    ensures { result ≡ list_all is_of_amount bytes.now }
{
    bytes.iter().all(|byte| is_of_amount(*byte))
}

// A digit, a sign, or what stands between thousands.
fn is_of_amount(byte: u8) -> bool
    ensures { result ≡ is_of_amount byte }
{
    byte.is_ascii_digit() || byte == b'.' || byte == b',' || byte == b'-' || byte == b'+'
}
