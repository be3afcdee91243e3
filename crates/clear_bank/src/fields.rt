//! The fields of a record, and what they say.
ghost use Rattle.std.specs.Prelude.{◌≡◌};
ghost use Rattle.std.specs.Fmt.{decimal};
ghost use Rattle.clear_bank.specs.Fields.{fault_number, field_name, field_number};
ghost use Rattle.clear_bank.specs.Files.{written, value_in, employer_in, cents_in, purpose_in};

use crate::lines::Purpose;
use clear_money::days::Day;
use clear_money::numbers::{Amount, EmployerNo, read_number};

/// A field of a record, in the order of the header.
#[derive(Clone, Copy)]
pub enum BankField {
    Reference,
    ValueDate,
    Employer,
    Cents,
    Purpose,
    Note,
}

impl BankField {
    /// Its place in a record, 1 to 6.
    pub fn number(self) -> u8
        ensures { result ≡ field_number self }
    {
        match self {
            BankField::Reference => 1,
            BankField::ValueDate => 2,
            BankField::Employer => 3,
            BankField::Cents => 4,
            BankField::Purpose => 5,
            BankField::Note => 6,
        }
    }

    /// Its name in the header.
    pub fn name(self) -> &'static str
        ensures { result.now ≡ field_name self }
    {
        match self {
            BankField::Reference => "reference",
            BankField::ValueDate => "value_date",
            BankField::Employer => "employer",
            BankField::Cents => "cents",
            BankField::Purpose => "purpose",
            BankField::Note => "note",
        }
    }
}

/// What is wrong with a record.
#[derive(Clone, Copy)]
pub enum RecordFault {
    /// It hasn't six fields.
    FieldCount,
    /// Its first field that is not as it should be.
    Field(BankField),
}

impl RecordFault {
    /// The number of the field, 1 to 6, and 0 where the record hasn't six.
    pub fn number(self) -> u8
        ensures { result ≡ fault_number self }
    {
        match self {
            RecordFault::FieldCount => 0,
            RecordFault::Field(field) => field.number(),
        }
    }
}

// A value date.
pub(crate) fn read_value(field: &[u8]) -> Option<Day>
    ensures { result ≡ value_in field.now }
{
    Day::read(field)
}

// The firm that a line names; an empty field names none.
pub(crate) fn read_employer(field: &[u8]) -> Option<Option<EmployerNo>>
    ensures { result ≡ employer_in field.now }
{
    if field.is_empty() {
        return Some(None);
    }
    read_employer_no(field).map(Some)
}

fn read_employer_no(field: &[u8]) -> Option<EmployerNo>
    ensures { result ≡ written decimal 1 99_999_999 field.now }
{
    EmployerNo::new(read_number(field)?)
}

// An amount in cents.
pub(crate) fn read_cents(field: &[u8]) -> Option<Amount>
    ensures { result ≡ cents_in field.now }
{
    Amount::new(read_number(field)?)
}

// What a payment is for; an empty field means a contribution.
pub(crate) fn read_purpose(field: &[u8]) -> Option<Purpose>
    ensures { result ≡ purpose_in field.now }
{
    match field {
        b"" | b"C" => Some(Purpose::Contribution),
        b"I" => Some(Purpose::Interest),
        _ => None,
    }
}
