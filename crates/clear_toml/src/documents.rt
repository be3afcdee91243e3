//! TOML documents.
ghost use Rattle.std.specs.Prelude.{◌≡◌, IfOk, option_map};
ghost use Rattle.toml.specs.View.{table_view};
ghost use Rattle.clear_toml.specs.RateFile.{document_of};

use std::alloc::{AllocError, Global};
use toml::Table;

/// The document that the bytes write. None where they are not UTF-8, or no TOML; also where a whole
/// number is outside `i64`. An `Err` says nothing of the bytes.
pub fn read_document(alloc: Global, bytes: &[u8]) -> Result<Option<Table>, AllocError>
    ensures { IfOk result (λ read. option_map table_view read ≡ document_of bytes.now) }
{
    match toml::table_from_slice(alloc, bytes) {
        Ok(table) => Ok(Some(table)),
        Err(e) if e.is_memory() => Err(AllocError),
        Err(_) => Ok(None),
    }
}
