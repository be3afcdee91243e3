//! Why a path holds no store that can be looked at, in words.
ghost use Rattle.std.specs.Prelude.{◌≡◌, IfOk, string_bytes};
ghost use Rattle.clear_program.specs.Reasons.{fault_reason, hindrance_reason, reason, refused_path};
ghost use Rattle.clear_program.specs.Reasons.{schema_reason};

use clear_book::rules::StoreCause;
use clear_database::store::SCHEMA;
use clear_files::paths::PathKind;
use clear_host::hindrance::Hindrance;
use clear_schema::fault::{Fault, OpenFault};
use std::alloc::{AllocError, Global};

/// Why a path of this kind holds no store, where that is known before it is opened: a missing path
/// and a folder can't be opened, and an empty file has no schema.
pub fn refused_path(kind: PathKind) -> Option<OpenFault>
    ensures { result ≡ refused_path kind }
{
    match kind {
        PathKind::Missing => Some(OpenFault::Failed(Fault::Store(StoreCause::Other))),
        PathKind::Folder => Some(OpenFault::Failed(Fault::Store(StoreCause::Other))),
        PathKind::Empty => Some(OpenFault::WrongVersion(0)),
        PathKind::Filled => None,
    }
}

/// Why a store isn't opened, in words: what stands at its path, else what stood in the way of a
/// connection, else its fault.
#[tactic(auto, unfolding(crate::specs::Reasons::reason))]
pub fn reason(
    alloc: Global,
    kind: PathKind,
    hindrance: Option<Hindrance>,
    fault: &OpenFault,
) -> Result<String, AllocError>
    ensures { IfOk result (λ text. string_bytes text ≡ reason kind hindrance fault.now) }
{
    match kind {
        PathKind::Missing => String::from_str(alloc, "there is nothing at this path\n"),
        PathKind::Folder => String::from_str(alloc, "this is a folder\n"),
        PathKind::Empty => String::from_str(alloc, "this file is empty\n"),
        PathKind::Filled => hindrance_reason(alloc, hindrance, fault),
    }
}

#[tactic(auto, unfolding(crate::specs::Reasons::hindrance_reason))]
fn hindrance_reason(
    alloc: Global,
    hindrance: Option<Hindrance>,
    fault: &OpenFault,
) -> Result<String, AllocError>
    ensures { IfOk result (λ text. string_bytes text ≡ hindrance_reason hindrance fault.now) }
{
    match hindrance {
        Some(Hindrance::NotReachable) => String::from_str(alloc, "this file can't be opened\n"),
        Some(Hindrance::InUse) => String::from_str(alloc, "another process holds this store\n"),
        Some(Hindrance::NoDatabase) => {
            String::from_str(alloc, "this file is no database, or a damaged one\n")
        }
        None => fault_reason(alloc, fault),
    }
}

#[tactic(auto, unfolding(crate::specs::Reasons::fault_reason))]
fn fault_reason(alloc: Global, fault: &OpenFault) -> Result<String, AllocError>
    ensures { IfOk result (λ text. string_bytes text ≡ fault_reason fault.now) }
{
    match fault {
        OpenFault::WrongVersion(0) => String::from_str(
            alloc,
            "this database is no store of this program, or one of schema 0\n",
        ),
        OpenFault::WrongVersion(number) => schema_reason(alloc, *number),
        OpenFault::Failed(Fault::Memory) => String::from_str(alloc, "there was no memory\n"),
        OpenFault::Failed(Fault::Store(_)) => String::from_str(
            alloc,
            "its tables can't be read, or are others than this program's\n",
        ),
    }
}

// The number of another schema.
#[tactic(auto, unfolding(crate::specs::Reasons::schema_reason))]
fn schema_reason(alloc: Global, number: u64) -> Result<String, AllocError>
    ensures { IfOk result (λ text. string_bytes text ≡ schema_reason number) }
{
    let mut text = String::from_str(alloc, "this store has schema ")?;
    text.push_str(number.to_string(alloc)?.as_str())?;
    text.push_str(", and this program's is ")?;
    text.push_str(SCHEMA.to_string(alloc)?.as_str())?;
    text.push_str("\n")?;
    Ok(text)
}
