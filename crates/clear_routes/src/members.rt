//! What single members of a JSON object say. A reader takes the object and the member's name.
ghost use Rattle.std.specs.Prelude.{◌≡◌, option_map, IfOk};
ghost use Rattle.clear_money.specs.Texts.{month_spelled};
ghost use Rattle.serde_json.specs.View.{view, items_view};
ghost use Rattle.clear_routes.specs.Members.{number_at, text_at, array_at, worker_at, name_in};
ghost use Rattle.clear_routes.specs.Members.{reference_in, line_in, lines_in};

use crate::further::least_further;
use crate::object::FromMember;
use crate::within::Within;
use clear_book::texts::{Name, Reference, WageLine, WageLines};
use clear_money::months::Month;
use clear_money::numbers::{Amount, EmployerNo, WorkerNo};
use serde_json::Value;
use std::alloc::{AllocError, Global};

impl FromMember for EmployerNo {
    ghost use Rattle.clear_routes.specs.Members.{employer_at};

    ghost value_at = { employer_at };

    fn from_member(
        _alloc: Global,
        value: &Value,
        name: &str,
    ) -> Result<Option<EmployerNo>, AllocError> {
        let Some(number) = number_at(value, name) else {
            return Ok(None);
        };
        Ok(EmployerNo::new(number))
    }
}

impl FromMember for WorkerNo {
    ghost use Rattle.clear_routes.specs.Members.{worker_at};

    ghost value_at = { worker_at };

    fn from_member(
        _alloc: Global,
        value: &Value,
        name: &str,
    ) -> Result<Option<WorkerNo>, AllocError> {
        Ok(worker_at(value, name))
    }
}

impl FromMember for Amount {
    ghost use Rattle.clear_routes.specs.Members.{amount_at};

    ghost value_at = { amount_at };

    fn from_member(
        _alloc: Global,
        value: &Value,
        name: &str,
    ) -> Result<Option<Amount>, AllocError> {
        let Some(number) = number_at(value, name) else {
            return Ok(None);
        };
        Ok(Amount::new(number))
    }
}

impl<const LOW: u64, const HIGH: u64> FromMember for Within<LOW, HIGH> {
    ghost use Rattle.clear_routes.specs.Members.{within_at};

    ghost value_at = { within_at LOW HIGH };

    fn from_member(
        _alloc: Global,
        value: &Value,
        name: &str,
    ) -> Result<Option<Within<LOW, HIGH>>, AllocError> {
        let Some(number) = number_at(value, name) else {
            return Ok(None);
        };
        Ok(Within::new(number))
    }
}

impl FromMember for Month {
    ghost use Rattle.clear_routes.specs.Members.{month_at};

    ghost value_at = { month_at };

    fn from_member(_alloc: Global, value: &Value, name: &str) -> Result<Option<Month>, AllocError> {
        let Some(text) = text_at(value, name) else {
            return Ok(None);
        };
        Ok(month_in(text))
    }
}

impl FromMember for Name {
    ghost use Rattle.clear_routes.specs.Members.{name_at};

    ghost value_at = { name_at };

    fn from_member(alloc: Global, value: &Value, name: &str) -> Result<Option<Name>, AllocError> {
        let Some(text) = text_at(value, name) else {
            return Ok(None);
        };
        name_in(alloc, text)
    }
}

impl FromMember for Reference {
    ghost use Rattle.clear_routes.specs.Members.{reference_at};

    ghost value_at = { reference_at };

    fn from_member(
        alloc: Global,
        value: &Value,
        name: &str,
    ) -> Result<Option<Reference>, AllocError> {
        let Some(text) = text_at(value, name) else {
            return Ok(None);
        };
        reference_in(alloc, text)
    }
}

impl FromMember for WageLines {
    ghost use Rattle.clear_routes.specs.Members.{lines_at};

    ghost value_at = { lines_at };

    fn from_member(
        alloc: Global,
        value: &Value,
        name: &str,
    ) -> Result<Option<WageLines>, AllocError> {
        let Some(values) = array_at(value, name) else {
            return Ok(None);
        };
        lines_in(alloc, values)
    }
}

// The number of a worker, 1 to 999,999,999.
fn worker_at(value: &Value, name: &str) -> Option<WorkerNo>
    ensures { result ≡ worker_at name.now (view value.now) }
{
    let number = number_at(value, name)?;
    WorkerNo::new(number)
}

fn lines_in(alloc: Global, values: &[Value]) -> Result<Option<WageLines>, AllocError>
    ensures { IfOk result (λ found. found ≡ lines_in (items_view values.now)) }
{
    let mut lines = Vec::new(alloc);
    for value in values {
        let Some(line) = line_in(value) else {
            return Ok(None);
        };
        lines.push(line)?;
    }
    Ok(Some(WageLines::new(lines)))
}

fn line_in(value: &Value) -> Option<WageLine>
    ensures { result ≡ line_in (view value.now) }
{
    let members = value.as_object()?;
    let gross = number_at(value, "gross")?;
    let worker = worker_at(value, "worker")?;
    match least_further(members, &["gross", "worker"]) {
        Some(_name) => None,
        None => Some(WageLine { worker, gross }),
    }
}

fn month_in(text: &str) -> Option<Month>
    ensures { result ≡ month_spelled text.now }
{
    Month::read(text.as_bytes())
}

fn name_in(alloc: Global, text: &str) -> Result<Option<Name>, AllocError>
    ensures { IfOk result (λ found. found ≡ name_in text.now) }
{
    Ok(Name::new(String::from_str(alloc, text)?))
}

fn reference_in(alloc: Global, text: &str) -> Result<Option<Reference>, AllocError>
    ensures { IfOk result (λ found. found ≡ reference_in text.now) }
{
    Reference::new(alloc, text.as_bytes())
}

// The whole number of 64 bits that a member is.
fn number_at(value: &Value, name: &str) -> Option<u64>
    ensures { result ≡ number_at name.now (view value.now) }
{
    let member = value.get(name)?;
    member.as_u64()
}

// The text that a member is.
fn text_at<'a>(value: &'a Value, name: &str) -> Option<&'a str>
    ensures { option_map (λ text. text.now) result ≡ text_at name.now (view value.now) }
{
    let member = value.get(name)?;
    member.as_str()
}

// The array that a member is.
fn array_at<'a>(value: &'a Value, name: &str) -> Option<&'a [Value]>
    ensures { option_map (λ values. items_view values.now) result
        ≡ array_at name.now (view value.now) }
{
    let member = value.get(name)?;
    match member.as_array() {
        Some(values) => Some(values.as_slice()),
        None => None,
    }
}
