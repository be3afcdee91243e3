//! What is said of a caller file.
ghost use Rattle.std.specs.Prelude.{◌≡◌, ◌≢◌, List, IfOk, OnOk, Some, Ok, is_ok, count_by};
ghost use Rattle.std.specs.Prelude.{string_bytes};
ghost use Rattle.toml.specs.Data.{as_integer};
ghost use Rattle.toml.specs.View.{table_view, view};
ghost use Rattle.clear_callers.specs.CallerFile.{directory_of, keys_in};
ghost use Rattle.clear_callers.specs.Callers.{KeyOf};
ghost use Rattle.clear_check.specs.CallerChecks.{SaysKeys, TellsWrongKey, caller_line, counts_text};
ghost use Rattle.clear_check.specs.CallerChecks.{is_clerks, is_zero, keys_text};

mod second_look;

use crate::Checked;
use crate::seen::Seen;
use crate::texts::{joined, plural};
use clear_callers::caller_file::DirectoryFault;
use clear_callers::directory::Directory;
use clear_toml::documents::read_document;
use second_look::look_at;
use std::alloc::{AllocError, Global};
use toml::{Table, Value};

/// What is said of a caller file: its keys, or its first fault with the key at which it is.
pub fn check_callers(alloc: Global, bytes: &[u8]) -> Result<Checked, AllocError>
    ensures good { IfOk result (λ checked. checked.good ≡ is_ok (directory_of bytes.now)) }
    ensures says { IfOk result (λ checked.
        SaysKeys (directory_of bytes.now) (string_bytes checked.text)) }
    ensures key { IfOk result (λ checked. TellsWrongKey bytes.now (string_bytes checked.text)) }
{
    match Directory::read(alloc, bytes) {
        Ok(_) => Ok(Checked {
            text: keys_text(alloc, bytes)?,
            good: true,
        }),
        Err(fault) => {
            let seen = look_at(alloc, bytes)?;
            Ok(Checked {
                text: caller_line(alloc, fault, &seen)?,
                good: false,
            })
        }
    }
}

// How many keys a caller file has. They are counted in its document.
fn keys_text(alloc: Global, bytes: &[u8]) -> Result<String, AllocError>
    ensures { (keys : List KeyOf) → directory_of bytes.now ≡ Ok keys
        → IfOk result (λ text. string_bytes text ≡ keys_text keys) }
{
    let Some(document) = read_document(alloc, bytes)? else {
        return Err(AllocError);
    };
    counts_text(alloc, document.len(), count_clerks(&document))
}

// How many keys, and of how many clerks.
#[tactic(auto, unfolding(crate::specs::CallerChecks::counts_text))]
fn counts_text(alloc: Global, keys: usize, clerks: usize) -> Result<String, AllocError>
    ensures { IfOk result (λ text. string_bytes text ≡ counts_text keys clerks) }
{
    let count = keys.to_string(alloc)?;
    let firms = keys.saturating_sub(clerks).to_string(alloc)?;
    let clerks = clerks.to_string(alloc)?;
    let parts = [
        count.as_str(),
        " key",
        plural(keys),
        ", ",
        clerks.as_str(),
        " of clerks, ",
        firms.as_str(),
        " of firms\n",
    ];
    joined(alloc, &parts)
}

// How many keys of a document are of clerks.
fn count_clerks(document: &Table) -> usize
    ensures { (keys : List KeyOf) → keys_in (table_view document.now) ≡ Some keys
        → result ≡ count_by is_clerks keys }
{
    // Its clause bounds what is counted.
    let _most = document.len();
    let mut clerks = 0;
    for (_, value) in document {
        if is_clerk(value) {
            clerks += 1;
        }
    }
    clerks
}

fn is_clerk(number: &Value) -> bool
    ensures { result ≡ is_zero (as_integer (view number.now)) }
{
    match number.as_integer() {
        Some(number) => number == 0,
        None => false,
    }
}

// The line on a fault.
#[tactic(auto, unfolding(crate::specs::CallerChecks::caller_line))]
fn caller_line(alloc: Global, fault: DirectoryFault, seen: &Seen) -> Result<String, AllocError>
    ensures known { OnOk result (fault ≢ DirectoryFault.Memory) }
    ensures line { IfOk result (λ line. string_bytes line ≡ caller_line fault seen.now) }
{
    let (here, other) = (seen.here(), seen.other());
    match fault {
        DirectoryFault::Text => joined(alloc, &["no TOML text: ", here, "\n"]),
        DirectoryFault::Entry => joined(alloc, &["key ", here, ": ", other, "\n"]),
        DirectoryFault::Memory => Err(AllocError),
    }
}
