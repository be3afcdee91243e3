//! Stores in files, opened with all that was accepted, and closed.
//!
//! To call a function over any store on one in files costs its proof some 20 seconds, and so does a
//! connection on one that is dropped: so there is one such call, of `do_job`, and one such drop, in
//! `why_unopened`.
ghost use Rattle.std.specs.Prelude.{◌≡◌, IfOk, string_bytes};
ghost use Rattle.sqlite.specs.Files.{over_files};
ghost use Rattle.sqlite.specs.Held.{Held};
ghost use Rattle.sqlite_wal.specs.Files.{image_at};
ghost use Rattle.clear_server.specs.Told.{written_by};
ghost use Rattle.clear_work.specs.Looks.{DoesJob};
ghost use Rattle.clear_program.specs.Opening.{Opens, OpensWhole, WorksOn};

use crate::reasons::refused_path;
use clear_book::rules::StoreCause;
use clear_files::logs::is_brought_over;
use clear_files::named::StoreFile;
use clear_files::paths::{PathKind, path_kind};
use clear_host::hindrance::Hindrance;
use clear_host::offices::{NotOpened, Opened};
use clear_host::stores::open_office;
use clear_schema::fault::{Fault, OpenFault};
use clear_wire::counted::Counted;
use clear_work::jobs::{Job, do_job};
use clear_work::stop::Stop;
use clear_work::work::Work;
use sqlite::{Alter, Connection, FileStore};
use sqlite_disk::Start;
use sqlite_std_file::FileFrom;
use std::io::Write;

/// An office that was opened over the whole of its store, and which file that is.
#[derive(Drop)]
pub(crate) struct Whole<'a, S: Alter> {
    pub opened: Opened<S>,
    pub file: StoreFile<'a>,
}

/// Why a store isn't opened, what was seen at its path before, and what stood in the way of a
/// connection, where these say more.
#[derive(Clone, Copy)]
pub(crate) struct Unopened {
    pub kind: PathKind,
    pub fault: OpenFault,
    pub hindrance: Option<Hindrance>,
}

// The file of a store doesn't stand at its path any more.
const GONE: Unopened = Unopened {
    kind: PathKind::Filled,
    fault: OpenFault::Failed(Fault::Store(StoreCause::Other)),
    hindrance: Some(Hindrance::NotReachable),
};

/// Opens the store at a path, with all that was accepted in its own file: where its log is longer
/// than a close leaves it, as a kill does, the store is closed and opened once more. A path that can
/// hold no store is refused before it is opened, so that an empty file stays empty. To open a store reads
/// all of it: one that doesn't stand at its path any more then, as since it was moved away, is refused.
pub(crate) fn open_whole<'a, S: Start>(
    rt: &HostRuntime,
    store: &'a str,
    start: S,
    again: S,
) -> Result<Whole<'a, FileStore<FileFrom<S>>>, Unopened>
    ensures opens { OpensWhole over_files (image_at S.Start) result }
    ensures path { IfOk result (λ whole. whole.file.path.now ≡ store.now) }
{
    let kind = path_kind(rt, store);
    if let Some(fault) = refused_path(kind) {
        return Err(Unopened {
            kind,
            fault,
            hindrance: None,
        });
    }
    let Some(file) = StoreFile::at(rt, store) else {
        return Err(GONE);
    };
    let opened = open_brought_over(rt, store, start, again)?;
    if file.stands(rt) {
        Ok(Whole { opened, file })
    } else {
        close_office(rt, opened);
        Err(GONE)
    }
}

fn open_brought_over<S: Start>(
    rt: &HostRuntime,
    store: &str,
    start: S,
    again: S,
) -> Result<Opened<FileStore<FileFrom<S>>>, Unopened>
    ensures { Opens over_files (image_at S.Start) result }
{
    let opened = open_once(rt, store, start)?;
    if is_brought_over(rt, store) {
        return Ok(opened);
    }
    close_office(rt, opened);
    open_once(rt, store, again)
}

fn open_once<S: Start>(
    rt: &HostRuntime,
    store: &str,
    start: S,
) -> Result<Opened<FileStore<FileFrom<S>>>, Unopened>
    ensures { Opens over_files (image_at S.Start) result }
{
    match open_office(rt, store, start) {
        Ok(opened) => Ok(opened),
        Err(refused) => Err(why_unopened(refused)),
    }
}

/// Why a store isn't opened, at whose path a file was seen. The connection is dropped, if there is one.
pub(crate) fn why_unopened<S: Start>(refused: NotOpened<FileStore<FileFrom<S>>>) -> Unopened
    ensures kind { result.kind ≡ PathKind.Filled }
    ensures fault { result.fault ≡ refused.fault }
    ensures hindrance { result.hindrance ≡ refused.hindrance }
{
    Unopened {
        kind: PathKind::Filled,
        fault: refused.fault,
        hindrance: refused.hindrance,
    }
}

/// Works on a store that was opened, and closes it; or says why it wasn't opened.
pub(crate) fn work_on<S: Start, E: Write>(
    rt: &HostRuntime,
    whole: Result<Whole<'_, FileStore<FileFrom<S>>>, Unopened>,
    work: Work<'_>,
    errors: &mut Counted<E>,
) -> Result<String, Stop>
    ensures { WorksOn over_files string_bytes whole.entry result
        (written_by E.contents errors.old) (written_by E.contents errors.new) work.entry }
{
    match whole {
        Ok(whole) => do_and_close(rt, whole.opened, Job::Work(whole.file, work), errors),
        Err(refused) => Err(Stop::from(refused.fault)),
    }
}

/// Does a job on the store of an opened office, and closes it. It gives what is to be said of it.
pub(crate) fn do_and_close<S: Start, E: Write>(
    rt: &HostRuntime,
    opened: Opened<FileStore<FileFrom<S>>>,
    job: Job<'_>,
    errors: &mut Counted<E>,
) -> Result<String, Stop>
    ensures { (left : Held _) × DoesJob string_bytes over_files result opened.ledger_day
        opened.office left
        (written_by E.contents errors.old) (written_by E.contents errors.new) job.entry }
{
    let done = do_job(rt, opened, job, errors);
    close_store(done.connection);
    done.said
}

/// Closes the store of an office.
pub(crate) fn close_office<S: Start>(rt: &HostRuntime, opened: Opened<FileStore<FileFrom<S>>>) {
    let _ = do_and_close(rt, opened, Job::Nothing, &mut Counted::new(rt.stderr()));
}

/// Closes a store. What was accepted stands in the log too, so a fault of the close, which copies the
/// log into the database's file, isn't told.
pub(crate) fn close_store<S: Start>(connection: Connection<FileStore<FileFrom<S>>>) {
    let _ = connection.close();
}
