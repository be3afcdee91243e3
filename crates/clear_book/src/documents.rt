//! Documents, which are answers in text, and the values that a statement and a worker's document
//! tell.

use crate::texts::{CreditReference, Name};
use clear_money::days::Day;
use clear_money::months::Month;
use clear_money::numbers::EmployerNo;
use std::marker::Model;

/// A document: a text of lines. A contract sees its bytes.
#[derive(Drop)]
pub struct Document {
    text: String,
}

impl Model for Document {
    ghost use Rattle.std.specs.Prelude.{ℕ, List, string_bytes};

    ghost Value = { List ℕ };

    ghost view = { λ a. string_bytes a.text };
}

impl Document {
    ghost use Rattle.std.specs.Prelude.{◌≡◌, string_bytes};

    /// The document with this text.
    pub fn new(text: String) -> Document
        ensures { result ≡ string_bytes text }
    {
        Document { text }
    }

    /// The text of the document.
    pub fn as_str(&self) -> &str
        ensures { result.now ≡ self.now }
    {
        self.text.as_str()
    }
}

/// What a statement tells of a firm beside its charges, its credits and its months. Amounts are in
/// cents.
#[derive(Drop)]
pub struct FirmAccount {
    pub employer: EmployerNo,
    /// The day of the statement.
    pub day: Day,
    pub name: Name,
    /// The first month of the membership.
    pub start: Month,
    /// The last month of the membership, if it has one.
    pub last: Option<Month>,
    /// What is credited and not yet charged.
    pub prepaid: u64,
    /// The contributions due before the day, less all credits for contributions, at least 0.
    pub arrears: u64,
    /// The interest up to the day, less all credits for interest, at least 0.
    pub interest: u64,
}

/// The charge of a month as it stands on a day. Amounts are in cents.
#[derive(Clone, Copy)]
pub struct ChargeState {
    pub month: Month,
    /// The day on which the charge is due.
    pub due: Day,
    /// The version of the month's report.
    pub version: u32,
    pub contribution: u64,
    /// How much of the contribution is open.
    pub left: u64,
    pub interest: u64,
}

/// A credit, or a part of it.
#[derive(Drop)]
pub struct Payment {
    /// The day of the credit.
    pub day: Day,
    /// So many cents of it.
    pub cents: u64,
    pub reference: CreditReference,
}

/// What a worker has earned with one line of a firm's month. Amounts are in cents.
#[derive(Clone, Copy)]
pub struct EarnedLine {
    pub employer: EmployerNo,
    pub month: Month,
    pub cents: u64,
}
