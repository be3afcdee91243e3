//! Names, the wage lines of a report, references and notes of bank lines, and references of credits.
ghost use Rattle.std.specs.Prelude.{◌≡◌, ℕ, ◌↔◌, IsTrue, IfOk, IfSome, IsSome, string_bytes, true};
ghost use Rattle.std.specs.Str.{is_utf8};
ghost use Rattle.clear_values.specs.Numbers.{IsClaimNo};
ghost use Rattle.clear_values.specs.Texts.{IsCreditReference, IsName, IsSetOff, is_note};
ghost use Rattle.clear_values.specs.Texts.{is_plain_text, is_reference, set_off_reference};

use crate::limits::{MAX_ENTRIES, MAX_NAME_BYTES};
use crate::numbers::ClaimNo;
use clear_money::bytes::{are_printable, are_visible};
use clear_money::numbers::{WorkerNo, read_number};
use std::alloc::{AllocError, Global};
use std::marker::Model;
use std::str;

/// The name of a firm: 1 to 60 bytes of UTF-8 without control characters. A contract sees its
/// bytes.
#[derive(Drop)]
pub struct Name {
    text: String,
}

impl Model for Name {
    ghost use Rattle.std.specs.Prelude.{ℕ, List, string_bytes};
    ghost use Rattle.clear_values.specs.Texts.{IsName};

    ghost Value = { List ℕ };

    ghost view = { λ a. string_bytes a.text };

    ghost invariant = { λ a. IsName (string_bytes a.text) };
}

impl Name {
    /// None outside the range: an empty or too long text, or one with a byte below 0x20 or 0x7F.
    pub fn new(text: String) -> Option<Name>
        ensures some { IsSome result ↔ IsName (string_bytes text) }
        ensures value { IfSome result (λ name. name ≡ string_bytes text) }
    {
        let bytes = text.as_str().as_bytes();
        if bytes.is_empty() || bytes.len() > MAX_NAME_BYTES || !are_printable(bytes) {
            return None;
        }
        Some(Name { text })
    }

    /// The text of the name.
    pub fn as_str(&self) -> &str
        ensures value { result.now ≡ self.now }
        ensures range { IsName result.now }
    {
        self.text.as_str()
    }

    /// A copy of the name.
    pub fn copied(&self) -> Result<Name, AllocError>
        ensures { IfOk result (λ name. name ≡ self.now) }
    {
        Ok(Name {
            text: self.text.clone()?,
        })
    }
}

/// What a worker earned in a month: the gross amount in cents.
#[derive(Clone, Copy)]
pub struct WageLine {
    pub worker: WorkerNo,
    /// Cents; the rules of a report allow 10,000,000 at most.
    pub gross: u64,
}

/// The lines of a report in the order in which they were given. A contract sees a list.
#[derive(Drop)]
pub struct WageLines {
    lines: Vec<WageLine>,
}

impl Model for WageLines {
    ghost use Rattle.std.specs.Prelude.{List};
    ghost use Rattle.clear_values.specs.declared.texts.WageLine.{WageLine};

    ghost Value = { List WageLine };

    ghost view = { λ a. a.lines.items };
}

impl WageLines {
    /// These lines, whatever they are: a report's rules judge them.
    pub fn new(lines: Vec<WageLine>) -> WageLines
        ensures { result ≡ lines.items }
    {
        WageLines { lines }
    }

    /// The lines in their order.
    pub fn as_slice(&self) -> &[WageLine]
        ensures { result.now ≡ self.now }
    {
        self.lines.as_slice()
    }

    /// A copy of the lines.
    pub fn copied(&self) -> Result<WageLines, AllocError>
        ensures { IfOk result (λ lines. lines ≡ self.now) }
    {
        Ok(WageLines {
            lines: self.lines.clone()?,
        })
    }
}

/// The reference of a bank line: 1 to 35 bytes from 0x21 to 0x7E.
///
/// A contract sees its bytes.
#[derive(Drop)]
pub struct Reference {
    code: String,
}

impl Model for Reference {
    ghost use Rattle.std.specs.Prelude.{ℕ, List, IsTrue, string_bytes};

    ghost Value = { List ℕ };

    ghost use Rattle.clear_values.specs.Texts.{is_reference};

    ghost view = { λ a. string_bytes a.code };

    ghost invariant = { λ a. IsTrue (is_reference (string_bytes a.code)) };
}

impl Reference {
    /// The longest reference in bytes.
    pub const MAX: usize = 35;

    /// None for bytes that are no reference.
    pub fn new(alloc: Global, bytes: &[u8]) -> Result<Option<Reference>, AllocError>
        ensures some { IfOk result (λ r. IsSome r ↔ IsTrue (is_reference bytes.now)) }
        ensures value { IfOk result (λ r. IfSome r (λ t. t ≡ bytes.now)) }
    {
        let Some(text) = reference_text(bytes) else {
            return Ok(None);
        };
        Ok(Some(Reference {
            code: String::from_str(alloc, text)?,
        }))
    }

    /// None for a text that is no reference.
    pub fn of_text(text: String) -> Option<Reference>
        ensures some { IsSome result ↔ IsTrue (is_reference (string_bytes text)) }
        ensures value { IfSome result (λ r. r ≡ string_bytes text) }
    {
        match reference_text(text.as_str().as_bytes()) {
            Some(_) => {}
            None => return None,
        }
        Some(Reference { code: text })
    }

    // Whether the bytes are a reference.
    fn is_one(bytes: &[u8]) -> bool
        ensures { result ≡ is_reference bytes.now }
    {
        reference_text(bytes).is_some()
    }

    /// The text of the reference.
    pub fn as_str(&self) -> &str
        ensures value { result.now ≡ self.now }
        ensures range { IsTrue (is_reference result.now) }
    {
        self.code.as_str()
    }

    /// A reference of the same bytes.
    pub fn copied(&self) -> Result<Reference, AllocError>
        ensures { IfOk result (λ r. r ≡ self.now) }
    {
        Ok(Reference {
            code: self.code.clone()?,
        })
    }
}

/// The note of a bank line: 0 to 140 bytes of UTF-8 without bytes below 0x20 and without 0x7F.
///
/// A contract sees its bytes.
#[derive(Drop)]
pub struct Note {
    text: String,
}

impl Model for Note {
    ghost use Rattle.std.specs.Prelude.{ℕ, List, IsTrue, string_bytes};

    ghost Value = { List ℕ };

    ghost use Rattle.clear_values.specs.Texts.{is_note};

    ghost view = { λ a. string_bytes a.text };

    ghost invariant = { λ a. IsTrue (is_note (string_bytes a.text)) };
}

impl Note {
    /// The longest note in bytes.
    pub const MAX: usize = 140;

    /// None for bytes that are no note.
    pub fn new(alloc: Global, bytes: &[u8]) -> Result<Option<Note>, AllocError>
        ensures some { IfOk result (λ n. IsSome n ↔ IsTrue (is_note bytes.now)) }
        ensures value { IfOk result (λ n. IfSome n (λ t. t ≡ bytes.now)) }
    {
        let Some(text) = note_text(bytes) else {
            return Ok(None);
        };
        Ok(Some(Note {
            text: String::from_str(alloc, text)?,
        }))
    }

    /// None for a text that is no note.
    pub fn of_text(text: String) -> Option<Note>
        ensures some { IsSome result ↔ IsTrue (is_note (string_bytes text)) }
        ensures value { IfSome result (λ n. n ≡ string_bytes text) }
    {
        match note_text(text.as_str().as_bytes()) {
            Some(_) => {}
            None => return None,
        }
        Some(Note { text })
    }

    /// The text of the note.
    pub fn as_str(&self) -> &str
        ensures value { result.now ≡ self.now }
        ensures range { IsTrue (is_note result.now) }
    {
        self.text.as_str()
    }

    /// A note of the same bytes.
    pub fn copied(&self) -> Result<Note, AllocError>
        ensures { IfOk result (λ n. n ≡ self.now) }
    {
        Ok(Note {
            text: self.text.clone()?,
        })
    }
}

/// The reference of a credit: that of its bank line, or `set-off` and the number of the claim whose
/// release it comes from. A contract sees its bytes.
#[derive(Drop)]
pub struct CreditReference {
    text: String,
}

impl Model for CreditReference {
    ghost use Rattle.std.specs.Prelude.{ℕ, List, string_bytes};
    ghost use Rattle.clear_values.specs.Texts.{IsCreditReference};

    ghost Value = { List ℕ };

    ghost view = { λ a. string_bytes a.text };

    ghost invariant = { λ a. IsCreditReference (string_bytes a.text) };
}

impl CreditReference {
    /// None for a text that is neither the reference of a bank line nor that of a set-off.
    pub fn new(text: String) -> Option<CreditReference>
        ensures some { IsSome result ↔ IsCreditReference (string_bytes text) }
        ensures value { IfSome result (λ reference. reference ≡ string_bytes text) }
    {
        let bytes = text.as_str().as_bytes();
        if !Reference::is_one(bytes) && !is_set_off(bytes) {
            return None;
        }
        Some(CreditReference { text })
    }

    /// The reference of a bank line.
    pub fn of_line(alloc: Global, line: &Reference) -> Result<CreditReference, AllocError>
        ensures { IfOk result (λ reference. reference ≡ line.now) }
    {
        Ok(CreditReference {
            text: String::from_str(alloc, line.as_str())?,
        })
    }

    /// The reference of the set-offs of a claim.
    pub fn of_set_off(alloc: Global, claim: ClaimNo) -> Result<CreditReference, AllocError>
        ensures { IfOk result (λ reference. reference ≡ set_off_reference claim) }
    {
        let digits = claim.number().to_string(alloc)?;
        let mut text = String::from_str(alloc, "set-off ")?;
        text.push_str(digits.as_str())?;
        Ok(CreditReference { text })
    }

    /// The text of the reference.
    pub fn as_str(&self) -> &str
        ensures value { result.now ≡ self.now }
        ensures range { IsCreditReference result.now }
    {
        self.text.as_str()
    }

    /// A copy of the reference.
    pub fn copied(&self) -> Result<CreditReference, AllocError>
        ensures { IfOk result (λ reference. reference ≡ self.now) }
    {
        let text = self.text.clone()?;
        Ok(CreditReference { text })
    }
}

// The bytes as text, if they are UTF-8 without bytes below 0x20 and without 0x7F.
fn plain_text(bytes: &[u8]) -> Option<&str>
    ensures some { IsSome result ↔ IsTrue (is_plain_text bytes.now) }
    ensures value { IfSome result (λ t. t.now ≡ bytes.now) }
{
    if !are_printable(bytes) {
        return None;
    }
    utf8_text(bytes)
}

// The bytes as text, if they are a note.
fn note_text(bytes: &[u8]) -> Option<&str>
    ensures some { IsSome result ↔ IsTrue (is_note bytes.now) }
    ensures value { IfSome result (λ t. t.now ≡ bytes.now) }
{
    if bytes.len() > Note::MAX {
        return None;
    }
    plain_text(bytes)
}

// The bytes as text, if they are a reference.
fn reference_text(bytes: &[u8]) -> Option<&str>
    ensures some { IsSome result ↔ IsTrue (is_reference bytes.now) }
    ensures value { IfSome result (λ t. t.now ≡ bytes.now) }
{
    if bytes.is_empty() || bytes.len() > Reference::MAX {
        return None;
    }
    if !are_visible(bytes) {
        return None;
    }
    utf8_text(bytes)
}

// The bytes as text, if they are UTF-8.
fn utf8_text(bytes: &[u8]) -> Option<&str>
    ensures some { IsSome result ↔ IsTrue (is_utf8 bytes.now) }
    ensures value { IfSome result (λ t. t.now ≡ bytes.now) }
{
    match str::from_utf8(bytes) {
        Ok(text) => Some(text),
        Err(_) => None,
    }
}

// Whether the bytes are `set-off ` and the number of a claim.
fn is_set_off(bytes: &[u8]) -> bool
    ensures { (result ≡ true) ↔ IsSetOff bytes.now }
{
    let Some(digits) = bytes.strip_prefix(b"set-off ") else {
        return false;
    };
    match read_number(digits) {
        Some(claim) => is_claim(claim),
        None => false,
    }
}

// Whether a claim can have this number.
fn is_claim(number: u64) -> bool
    ensures { (result ≡ true) ↔ IsClaimNo number }
{
    number >= 1 && number <= MAX_ENTRIES
}
