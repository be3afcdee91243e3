//! A second look at a caller file that isn't taken: what stands at its first fault.
//!
//! Which fault is told is the reader's and proved, and so is which key it is found at, and why. Where
//! bytes are no document, `no_document` tells it.
ghost use Rattle.std.specs.Prelude.{◌≡◌, ℕ, List, IfOk, IfSome, Some, is_none, is_some};
ghost use Rattle.std.specs.Prelude.{string_bytes};
ghost use Rattle.toml.specs.Data.{Data, Members};
ghost use Rattle.toml.specs.View.{table_view, view};
ghost use Rattle.clear_toml.specs.RateFile.{document_of};
ghost use Rattle.clear_callers.specs.CallerFile.{caller_at};
ghost use Rattle.clear_check.specs.CallerChecks.{IsWrongKey, first_wrong, why_no_key};

use crate::document::no_document;
use crate::seen::Seen;
use crate::texts::{joined, shown};
use clear_callers::caller_file::is_key;
use clear_money::numbers::EmployerNo;
use std::alloc::{AllocError, Global};
use toml::{Table, Value};

// What stands at the first fault.
pub(crate) fn look_at(alloc: Global, bytes: &[u8]) -> Result<Seen, AllocError>
    ensures { (document : Members) (key : List ℕ) (value : Data)
        → document_of bytes.now ≡ Some document → first_wrong document ≡ Some (key, value)
        → IfOk result (IsWrongKey key value) }
{
    match toml::table_from_slice(alloc, bytes) {
        Ok(document) => first_fault(alloc, &document),
        Err(error) if error.is_memory() => Err(AllocError),
        Err(error) => no_document(alloc, bytes, &error),
    }
}

// What stands at the first member that is no key of a caller.
fn first_fault(alloc: Global, document: &Table) -> Result<Seen, AllocError>
    ensures { (key : List ℕ) (value : Data)
        → first_wrong (table_view document.now) ≡ Some (key, value)
        → IfOk result (IsWrongKey key value) }
{
    for (key, value) in document {
        let key = key.as_str().as_bytes();
        if let Some(fault) = entry_fault(alloc, key, value)? {
            let key = shown(alloc, key)?;
            return Seen::new(alloc, &[key.as_str()], &[fault.as_str()]);
        }
    }
    Seen::nothing(alloc)
}

// Why a member is no key of a caller.
fn entry_fault(alloc: Global, key: &[u8], value: &Value) -> Result<Option<String>, AllocError>
    ensures fits { IfOk result (λ fault.
        is_none fault ≡ is_some (caller_at key.now (view value.now))) }
    ensures why { IfOk result (λ fault. IfSome fault (λ text.
        string_bytes text ≡ why_no_key key.now (view value.now))) }
{
    if !is_key(key) {
        let fault = "a key is 1 to 64 visible ASCII characters";
        return Ok(Some(String::from_str(alloc, fault)?));
    }
    let Some(number) = value.as_integer() else {
        return Ok(Some(String::from_str(alloc, "its number is no whole number")?));
    };
    match u64::try_from(number) {
        Ok(0..=EmployerNo::MAX) => Ok(None),
        _ => {
            let number = number.to_string(alloc)?;
            let parts = [
                "its number is ",
                number.as_str(),
                "; 0 is a clerk, 1 to 99999999 a firm",
            ];
            Ok(Some(joined(alloc, &parts)?))
        }
    }
}
