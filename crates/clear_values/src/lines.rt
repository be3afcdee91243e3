//! The lines of bank files.
ghost use Rattle.std.specs.Prelude.{◌≡◌, IfOk};
ghost use Rattle.clear_values.specs.Lines.{purpose_letter, same_content};

use crate::texts::{Note, Reference};
use clear_money::days::Day;
use clear_money::numbers::{Amount, EmployerNo};
use std::alloc::AllocError;

/// What a payment is for.
#[derive(Clone, Copy, PartialEq, Eq)]
pub enum Purpose {
    Contribution,
    Interest,
}

impl Purpose {
    /// C for contributions, and I for interest.
    pub fn letter(self) -> &'static str
        ensures { result.now ≡ purpose_letter self }
    {
        match self {
            Purpose::Contribution => "C",
            Purpose::Interest => "I",
        }
    }
}

/// A payment that came in at the bank.
#[derive(Drop)]
pub struct BankLine {
    pub reference: Reference,
    /// The value date.
    pub value: Day,
    /// The firm that the line names, if any.
    pub employer: Option<EmployerNo>,
    pub cents: Amount,
    pub purpose: Purpose,
    pub note: Note,
}

impl BankLine {
    /// Whether two lines are equal, their references aside.
    pub fn has_content_of(&self, other: &BankLine) -> bool
        ensures { result ≡ same_content self.now other.now }
    {
        self.value == other.value
            && self.employer == other.employer
            && self.cents == other.cents
            && self.purpose == other.purpose
            && self.note.as_str() == other.note.as_str()
    }

    /// A line that is equal.
    pub fn copied(&self) -> Result<BankLine, AllocError>
        ensures { IfOk result (λ line. line ≡ self.now) }
    {
        Ok(BankLine {
            reference: self.reference.copied()?,
            value: self.value,
            employer: self.employer,
            cents: self.cents,
            purpose: self.purpose,
            note: self.note.copied()?,
        })
    }
}
