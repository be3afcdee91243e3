//! Caller files: TOML texts in which each member is a key and the number of its caller.
ghost use Rattle.std.specs.Prelude.{◌≡◌, ◌≢◌, OnOk, IfOk, IfErr, map, Some, None, ok_or};
ghost use Rattle.toml.specs.View.{view, table_view};
ghost use Rattle.clear_callers.specs.CallerFile.{caller_at, caller_numbered, Gives, is_key};
ghost use Rattle.clear_callers.specs.CallerFile.{keys_in};
ghost use Rattle.clear_callers.specs.Callers.{key_of, with_key};

use clear_book::calls::Caller;
use clear_money::bytes::are_visible;
use clear_money::numbers::EmployerNo;
use std::alloc::{AllocError, Global};
use std::collections::BTreeMap;
use toml::{Table, Value};

/// Why a text is no caller file.
#[derive(Clone, Copy)]
pub enum DirectoryFault {
    /// The bytes are not UTF-8, or no TOML; also where a key is repeated, or where a whole number
    /// is outside `i64`.
    Text,
    /// A key is not 1 to 64 bytes from 0x21 to 0x7E, or its value is no whole number from 0 to
    /// 99,999,999.
    Entry,
    /// An allocation failed, which says nothing of the text.
    Memory,
}

// The greatest length of a key, in bytes.
const MAX_KEY: usize = 64;

// The keys of a document and their callers.
pub(crate) fn callers_in(
    alloc: Global,
    document: &Table,
) -> Result<BTreeMap<Vec<u8>, Caller>, DirectoryFault>
    ensures { Gives (λ callers. map key_of callers.entries) result
        (ok_or (keys_in (table_view document.now)) DirectoryFault.Entry) }
{
    // No effect at run time: the proof reads from this call that the keys rise.
    let _in_order = document.iter();
    let mut callers = BTreeMap::new(alloc);
    for (name, value) in document {
        add_member(&mut callers, alloc, name.as_str().as_bytes(), value)?;
    }
    Ok(callers)
}

// Adds the key that a member is, and its caller.
fn add_member(
    callers: &mut BTreeMap<Vec<u8>, Caller>,
    alloc: Global,
    key: &[u8],
    value: &Value,
) -> Result<(), DirectoryFault>
    ensures ok { OnOk result ((caller : Caller)
        × (caller_at key.now (view value.now) ≡ Some caller)
        × (map key_of callers.new.entries
        ≡ with_key key.now caller (map key_of callers.old.entries))) }
    ensures fault { IfErr result (λ fault.
        fault ≢ DirectoryFault.Memory
        → (fault ≡ DirectoryFault.Entry) × (caller_at key.now (view value.now) ≡ None)) }
{
    let Some(caller) = caller_at(key, value) else {
        return Err(DirectoryFault::Entry);
    };
    match add_key(callers, alloc, key, caller) {
        Ok(()) => Ok(()),
        Err(_) => Err(DirectoryFault::Memory),
    }
}

// Adds a key and who calls with it.
pub(crate) fn add_key(
    callers: &mut BTreeMap<Vec<u8>, Caller>,
    alloc: Global,
    key: &[u8],
    caller: Caller,
) -> Result<(), AllocError>
    ensures { OnOk result (map key_of callers.new.entries
        ≡ with_key key.now caller (map key_of callers.old.entries)) }
{
    let key = Vec::from_slice(alloc, key)?;
    callers.insert(key, caller)?;
    Ok(())
}

// Who calls with the key of this value. None where a member of a caller file has to be otherwise.
fn caller_at(key: &[u8], value: &Value) -> Option<Caller>
    ensures { result ≡ caller_at key.now (view value.now) }
{
    if !is_key(key) {
        return None;
    }
    let number = value.as_integer()?;
    caller_numbered(number)
}

/// Whether the bytes can be a key: 1 to 64 bytes from 0x21 to 0x7E.
pub fn is_key(key: &[u8]) -> bool
    ensures { result ≡ is_key key.now }
{
    !key.is_empty() && key.len() <= MAX_KEY && are_visible(key)
}

fn caller_numbered(number: i64) -> Option<Caller>
    ensures { result ≡ caller_numbered number }
{
    if number == 0 {
        return Some(Caller::Clerk);
    }
    let Ok(number) = u64::try_from(number) else {
        return None;
    };
    let employer = EmployerNo::new(number)?;
    Some(Caller::Firm(employer))
}
