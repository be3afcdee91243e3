//! Why a file gives nothing.
ghost use Rattle.std.specs.Prelude.{◌≡◌, ◌≢◌};
ghost use Rattle.std.specs.IoError.{error_kind};

use std::io;
use std::io::ErrorKind;

/// Why a file gives nothing.
#[derive(Clone, Copy)]
pub enum FileFault {
    /// It can't be opened or read, is too large, or isn't the file that it should be, or a copy can't
    /// be written, or something stands where it is to be.
    Unusable,
    /// There was no memory.
    Memory,
}

// Want of memory, or any other fault of a file.
pub(crate) fn fault_of(error: &io::Error) -> FileFault
    ensures memory { error_kind error.now ≡ ErrorKind.OutOfMemory → result ≡ FileFault.Memory }
    ensures other { error_kind error.now ≢ ErrorKind.OutOfMemory → result ≡ FileFault.Unusable }
{
    if error.kind() == ErrorKind::OutOfMemory {
        FileFault::Memory
    } else {
        FileFault::Unusable
    }
}
