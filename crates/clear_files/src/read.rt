//! Files that are read whole.
ghost use Rattle.std.specs.Prelude.{◌≡◌, ◌≤◌, ◌++◌, ◌⊎◌, ℕ, true, List, length, IfErr, IfOk, IfSome};
ghost use Rattle.std.specs.Prelude.{OnOk};
ghost use Rattle.std.specs.Io.KnownBytes.{Consumes, IsAtEnd};
ghost use Rattle.clear_toml.specs.RateFile.{rates_of};
ghost use Rattle.clear_book.specs.Ranges.{AreRates};
ghost use Rattle.clear_callers.specs.CallerFile.{directory_of};
ghost use Rattle.clear_wire.specs.Counted.{has_failed, inner};
ghost use Rattle.clear_files.specs.Contents.{BytesSay, BytesSayNothing, IsUnread, SomeFileSays};
ghost use Rattle.clear_files.specs.Contents.{most_file_bytes};

use crate::fault::{FileFault, fault_of};
use clear_book::ranges::rates_in_range;
use clear_callers::caller_file::DirectoryFault;
use clear_callers::directory::Directory;
use clear_money::rates::RateTable;
use clear_toml::rate_file::{RateFault, read_rates};
use clear_wire::counted::Counted;
use std::alloc::{AllocError, Global};
use std::fs::File;
use std::io::Read;

/// The greatest length of a file that is read whole, in bytes.
pub const MAX_FILE: usize = 4_194_304;

// So many bytes one read asks for.
const PIECE: usize = 4_096;

/// The bytes of a file, at most `MAX_FILE`.
pub fn read_file(rt: &HostRuntime, path: &str) -> Result<Vec<u8>, FileFault>
    ensures { IfOk result (λ bytes. length bytes.items ≤ most_file_bytes) }
{
    let file = open_file(rt, path)?;
    read_whole(rt.alloc(), &mut Counted::new(file))
}

/// The rates of a rate file: those that `read_rates_from` reads from its bytes.
pub fn read_rate_file(rt: &HostRuntime, path: &str) -> Result<RateTable, FileFault>
    ensures said { IfOk result (SomeFileSays rates_of) }
    ensures lawful { IfOk result AreRates }
{
    let file = open_file(rt, path)?;
    read_rates_from(rt.alloc(), &mut Counted::new(file))
}

/// The keys of a caller file: those that `read_callers_from` reads from its bytes.
pub fn read_caller_file(rt: &HostRuntime, path: &str) -> Result<Directory, FileFault>
    ensures { IfOk result (SomeFileSays directory_of) }
{
    let file = open_file(rt, path)?;
    read_callers_from(rt.alloc(), &mut Counted::new(file))
}

/// All bytes that a reader has, at most `MAX_FILE`. `Unusable` where there are more, or where a read
/// fails for another cause than memory.
pub fn read_whole<R: Read>(alloc: Global, reader: &mut Counted<R>) -> Result<Vec<u8>, FileFault>
    ensures whole { IfSome (R.remaining (inner reader.old))
        (λ all. IfOk result (λ bytes. bytes.items ≡ all)) }
    ensures few { IfOk result (λ bytes. length bytes.items ≤ most_file_bytes) }
    ensures well { OnOk result (has_failed reader.new ≡ has_failed reader.old) }
    ensures why { IfErr result (λ fault. fault ≡ FileFault.Unusable
        → IsUnread (has_failed reader.new) (R.remaining (inner reader.old))) }
{
    let mut bytes = Vec::new(alloc);
    'reads: while bytes.len() <= MAX_FILE {
        match read_piece(reader, &mut bytes) {
            Ok(0) => return Ok(bytes),
            Ok(_) => {}
            Err(fault) => return Err(fault),
        }
    }
    Err(FileFault::Unusable)
}

// Appends what a reader gives next, and says how many bytes that is; none only at its end.
fn read_piece<R: Read>(reader: &mut Counted<R>, bytes: &mut Vec<u8>) -> Result<usize, FileFault>
    ensures taken { IfOk result (λ count. (taken : List ℕ) × (length taken ≡ count)
        × (bytes.new.items ≡ bytes.old.items ++ taken)
        × Consumes (R.remaining (inner reader.old)) (R.remaining (inner reader.new)) taken) }
    ensures end { IfOk result (λ count. count ≡ 0
        → IsAtEnd (R.remaining (inner reader.new))) }
    ensures well { OnOk result (has_failed reader.new ≡ has_failed reader.old) }
    ensures why { IfErr result (λ fault. fault ≡ FileFault.Unusable
        → has_failed reader.new ≡ true) }
{
    let mut piece = [0u8; PIECE];
    match reader.read(&mut piece) {
        Ok(count) => match bytes.extend_from_slice(&piece[..count]) {
            Ok(()) => Ok(count),
            Err(AllocError) => Err(FileFault::Memory),
        },
        Err(error) => Err(fault_of(&error)),
    }
}

/// The rates that all bytes of a reader say, as a rate file does. `Unusable` also where they say
/// none.
pub fn read_rates_from<R: Read>(
    alloc: Global,
    reader: &mut Counted<R>,
) -> Result<RateTable, FileFault>
    ensures said { IfOk result (BytesSay (R.remaining (inner reader.old)) rates_of) }
    ensures lawful { IfOk result AreRates }
    ensures well { OnOk result (has_failed reader.new ≡ has_failed reader.old) }
    ensures why { IfErr result (λ fault. fault ≡ FileFault.Unusable
        → IsUnread (has_failed reader.new) (R.remaining (inner reader.old))
        ⊎ BytesSayNothing (R.remaining (inner reader.old)) rates_of) }
{
    let bytes = read_whole(alloc, reader)?;
    match read_rates(alloc, bytes.as_slice()) {
        Ok(rates) => {
            // No effect at run time: the proof reads from this call that the rates are lawful.
            rates_in_range(&rates);
            Ok(rates)
        }
        Err(RateFault::Memory) => Err(FileFault::Memory),
        Err(_) => Err(FileFault::Unusable),
    }
}

/// The keys that all bytes of a reader say, as a caller file does. `Unusable` also where they say
/// none.
pub fn read_callers_from<R: Read>(
    alloc: Global,
    reader: &mut Counted<R>,
) -> Result<Directory, FileFault>
    ensures said { IfOk result (BytesSay (R.remaining (inner reader.old)) directory_of) }
    ensures well { OnOk result (has_failed reader.new ≡ has_failed reader.old) }
    ensures why { IfErr result (λ fault. fault ≡ FileFault.Unusable
        → IsUnread (has_failed reader.new) (R.remaining (inner reader.old))
        ⊎ BytesSayNothing (R.remaining (inner reader.old)) directory_of) }
{
    let text = read_whole(alloc, reader)?;
    match Directory::read(alloc, text.as_slice()) {
        Ok(keys) => Ok(keys),
        Err(DirectoryFault::Memory) => Err(FileFault::Memory),
        Err(_) => Err(FileFault::Unusable),
    }
}

fn open_file(rt: &HostRuntime, path: &str) -> Result<File, FileFault> {
    match File::open(rt, path) {
        Ok(file) => Ok(file),
        Err(error) => Err(fault_of(&error)),
    }
}
