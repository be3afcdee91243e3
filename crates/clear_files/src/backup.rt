//! A copy of a store in one file. No contract knows what files hold.
ghost use Rattle.std.specs.Prelude.{◌≡◌, ◌⊎◌, ◌++◌, bit_and, codes, string_bytes, IfOk, OnOk};
ghost use Rattle.std.specs.Prelude.{false, true};
ghost use Rattle.std.specs.Fs.{asks_create_new, asks_write, metadata_mode};
ghost use Rattle.std.specs.IoError.{error_kind};
ghost use Rattle.clear_files.specs.Found.{IsMissing, IsPlainFile};
ghost use Rattle.clear_files.specs.Names.{is_of_another_use, StandsIn};

use crate::fault::{FileFault, fault_of};
use crate::logs::log_path;
use crate::named::{FileId, StoreFile};
use crate::paths::{is_free, is_missing};
use std::alloc::{AllocError, Global};
use std::fs::{File, Metadata, OpenOptions};
use std::io::ErrorKind;
use std::os::unix::fs::{MetadataExt, OpenOptionsExt};
use std::{fs, io};

// The bits of a mode that say what owner, group and others may do.
const RIGHTS: u32 = 0o777;

/// Copies the file of a store into a new file, whole or not at all.
///
/// It is written beside that file, under its name with `.part` behind it, synced, and then renamed;
/// what an earlier copy left there that was killed is removed. The copy has the rights of the file, but
/// none that the process withholds, and is nobody else's. `Unusable` where the file doesn't stand at its
/// path any more, where something stands at the new path, also where it came there meanwhile, or a log
/// or journal of a store that was there, where the new name is that of a log, a journal or a part, or no
/// name of a file for the words that open a store, where under the name with `.part` a link, a folder or
/// the store itself stands, or another copy is written, and where a file can't be read or written; nothing
/// then stands at the new path but what stood there before.
pub fn copy_whole(rt: &HostRuntime, store: &StoreFile<'_>, copy: &str) -> Result<(), FileFault>
    ensures of_its_own { OnOk result (is_of_another_use copy.now ≡ false) }
{
    match copy_by_part(rt, store, copy) {
        Ok(()) => Ok(()),
        Err(error) => Err(fault_of(&error)),
    }
}

fn copy_by_part(rt: &HostRuntime, store: &StoreFile<'_>, copy: &str) -> io::Result<()>
    ensures of_its_own { OnOk result (is_of_another_use copy.now ≡ false) }
{
    let part = part_path(rt.alloc(), copy)?;
    let part_told = fs::symlink_metadata(rt, part.as_str());
    if is_of_another_use(copy) || !is_new(rt, copy)? || !is_writable(&part_told, store) {
        return Err(in_the_way());
    }
    let mut source = File::open(rt, store.path)?;
    let found = source.metadata()?;
    if !store.is_of(&found) {
        return Err(in_the_way());
    }
    let mut target = make_part(rt, part.as_str(), rights_of(&found))?;
    let part_id = FileId::of(&target.metadata()?);
    let written = write_copy(rt, &mut source, &mut target, part.as_str(), &part_id, copy);
    if written.is_err() && stands_at(rt, part.as_str(), &part_id) {
        let _ = fs::remove_file(rt, part.as_str());
    }
    written
}

// A store takes a file of such a name for the log, its index or the journal of the store that it is
// named after, and a copy for its part; what begins so is no file for the words that open a store.
fn is_of_another_use(copy: &str) -> bool
    ensures { result ≡ is_of_another_use copy.now }
{
    let name = copy.as_bytes();
    name.ends_with(b"-wal")
        || name.ends_with(b"-shm")
        || name.ends_with(b"-journal")
        || name.ends_with(b".part")
        || name.starts_with(b"file:")
        || copy == ":memory:"
}

// Nothing stands at the path of the copy, nor beside it what would be taken for the copy's.
fn is_new(rt: &HostRuntime, copy: &str) -> Result<bool, AllocError> {
    let log = log_path(rt.alloc(), copy)?;
    let journal = journal_path(rt.alloc(), copy)?;
    Ok(is_free(rt, copy) && is_free(rt, log.as_str()) && is_free(rt, journal.as_str()))
}

// The path at which a copy is written.
fn part_path(alloc: Global, copy: &str) -> Result<String, AllocError>
    ensures { IfOk result (λ path. string_bytes path ≡ copy.now ++ codes ".part") }
{
    format!(in alloc; "{copy}.part")
}

// The path of the journal that would be taken for a copy's.
fn journal_path(alloc: Global, copy: &str) -> Result<String, AllocError>
    ensures { IfOk result (λ path. string_bytes path ≡ copy.now ++ codes "-journal") }
{
    format!(in alloc; "{copy}-journal")
}

// What owner, group and others may do with a file of which this is told.
fn rights_of(found: &Metadata) -> u32
    ensures { result ≡ bit_and (metadata_mode found.now) 0o777 }
{
    found.mode() & RIGHTS
}

// Whether a part may be made where this was told: nothing stands there, or a file as an earlier copy
// leaves it, not a link, and not the file that is copied.
fn is_writable(told: &io::Result<Metadata>, store: &StoreFile<'_>) -> bool
    ensures free { IsMissing told.now → result ≡ true }
    ensures only { result ≡ true → IsMissing told.now ⊎ IsPlainFile told.now }
{
    match told {
        Ok(found) => found.is_file() && !store.is_of(found),
        Err(_) => is_missing(told),
    }
}

// The file of another name, which is made anew: one that another user made would be theirs.
fn make_part(rt: &HostRuntime, part: &str, rights: u32) -> io::Result<File> {
    if !is_free(rt, part) {
        fs::remove_file(rt, part)?;
    }
    part_options(rights).open(rt, part)
}

// How a part is opened: to write it, and where a file stands already not at all.
fn part_options(rights: u32) -> OpenOptions
    ensures written { asks_write result ≡ true }
    ensures new { asks_create_new result ≡ true }
{
    let mut options = OpenOptions::new();
    options.mode(rights);
    options.write(true);
    options.create_new(true);
    options
}

// Writes the copy, and gives it its name. Meanwhile another copy may have taken the part away and begun
// its own, and a store may have been made at the path of the copy: these are left.
fn write_copy(
    rt: &HostRuntime,
    source: &mut File,
    target: &mut File,
    part: &str,
    part_id: &FileId,
    copy: &str,
) -> io::Result<()> {
    io::copy(source, target)?;
    target.sync_all()?;
    if !stands_at(rt, part, part_id) || !is_new(rt, copy)? {
        return Err(in_the_way());
    }
    fs::rename(rt, part, copy)?;
    // The copy stands. Where its folder can't be synced, the file system keeps the name in its time.
    let _ = sync_folder(rt, folder_of(copy));
    Ok(())
}

// Whether just this file stands at a path, and no link to it.
fn stands_at(rt: &HostRuntime, path: &str, id: &FileId) -> bool {
    id.is_found(&fs::symlink_metadata(rt, path))
}

fn in_the_way() -> io::Error
    ensures { error_kind result ≡ ErrorKind.AlreadyExists }
{
    io::Error::from(ErrorKind::AlreadyExists)
}

fn sync_folder(rt: &HostRuntime, folder: &str) -> io::Result<()> {
    File::open(rt, folder)?.sync_all()
}

/// A law of the definitions, without effect: in which folder a file stands.
pub fn law_folders_by_example()
    ensures here { StandsIn (codes "copy") (codes ".") }
    ensures root { StandsIn (codes "/copy") (codes "/") }
    ensures folder { StandsIn (codes "a/b/copy") (codes "a/b") }
{}

// The folder that the file of a path stands in.
fn folder_of(path: &str) -> &str
    ensures { StandsIn path.now result.now }
{
    match path.rsplit_once('/') {
        Some((before, _name)) if before.is_empty() => "/",
        Some((before, _name)) => before,
        None => ".",
    }
}
