//! Whether the files of a store still stand where they stood. No contract knows what a path names, nor
//! which device and which number there the system tells of a file.
ghost use Rattle.std.specs.Prelude.{◌≡◌, false, IfOk, IfSome, OnErr};

use crate::logs::{log_beside, none_but_memory};
use std::alloc::AllocError;
use std::fs::Metadata;
use std::os::unix::fs::MetadataExt;
use std::{fs, io};

/// Which file it is: the device that it lies on, and its number there.
#[derive(Clone, Copy)]
pub(crate) struct FileId {
    device: u64,
    inode: u64,
}

impl FileId {
    /// That of the file of which this is told.
    pub(crate) fn of(found: &Metadata) -> FileId {
        FileId {
            device: found.dev(),
            inode: found.ino(),
        }
    }

    /// Whether this is told of the same file.
    pub(crate) fn is_of(&self, found: &Metadata) -> bool {
        found.dev() == self.device && found.ino() == self.inode
    }

    /// Whether this file stands where the system was asked; not where it told nothing.
    pub(crate) fn is_found(&self, told: &io::Result<Metadata>) -> bool
        ensures { OnErr told.now (result ≡ false) }
    {
        match told {
            Ok(found) => self.is_of(found),
            Err(_) => false,
        }
    }
}

/// The file of a store: its path, and which file stood there.
#[derive(Clone, Copy)]
pub struct StoreFile<'a> {
    pub path: &'a str,
    id: FileId,
}

impl<'a> StoreFile<'a> {
    /// The file that stands at a path now, through links too. `None` says that it can't be asked for.
    /// Taken before the store is opened, it tells afterwards whether that file is the one that was opened.
    pub fn at(rt: &HostRuntime, path: &'a str) -> Option<StoreFile<'a>>
        ensures { IfSome result (λ file. file.path.now ≡ path.now) }
    {
        match id_at(rt, path) {
            Ok(id) => Some(StoreFile { path, id }),
            Err(_) => None,
        }
    }

    /// Whether its path still names this file: no other, and none that can't be asked for.
    pub fn stands(&self, rt: &HostRuntime) -> bool {
        self.id.is_found(&fs::metadata(rt, self.path))
    }

    /// Whether this is told of this file.
    pub(crate) fn is_of(&self, found: &Metadata) -> bool {
        self.id.is_of(found)
    }
}

/// The two files of a store that is open: the one at its path, and its log.
#[derive(Drop)]
pub struct NamedStore<'a> {
    rt: &'a HostRuntime,
    file: StoreFile<'a>,
    log: String,
    log_id: FileId,
}

impl<'a> NamedStore<'a> {
    /// The file of a store, and the log that stands beside it now, through links too. `None` says that
    /// the log can't be asked for.
    pub fn with_log(
        rt: &'a HostRuntime,
        file: StoreFile<'a>,
    ) -> Result<Option<NamedStore<'a>>, AllocError>
        ensures { IfOk result (λ found. IfSome found (λ store. store.file ≡ file.entry)) }
    {
        let Some(log) = log_beside(rt, file.path)? else {
            return Ok(None);
        };
        match id_at(rt, log.as_str()) {
            Ok(log_id) => Ok(Some(NamedStore {
                rt,
                file,
                log,
                log_id,
            })),
            Err(error) => none_but_memory(&error),
        }
    }

    /// Whether the path still names this file, and this log stands beside it: no others, and none that
    /// can't be asked for.
    pub fn stands(&self) -> bool {
        self.file.stands(self.rt) && self.has_log()
    }

    // A file that was moved, and is found by a link now, has its log at another path.
    fn has_log(&self) -> bool {
        let told = match log_beside(self.rt, self.file.path) {
            Ok(Some(log)) => fs::metadata(self.rt, log.as_str()),
            // There was no memory to ask where it stands.
            Ok(None) | Err(_) => fs::metadata(self.rt, self.log.as_str()),
        };
        self.log_id.is_found(&told)
    }
}

fn id_at(rt: &HostRuntime, path: &str) -> io::Result<FileId> {
    Ok(FileId::of(&fs::metadata(rt, path)?))
}
