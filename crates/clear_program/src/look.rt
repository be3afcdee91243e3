//! A look at a store, and why there is none to look at.
ghost use Rattle.std.specs.Prelude.{◌≤◌, ◌⊎◌, string_bytes, IfErr, IfOk};
ghost use Rattle.sqlite.specs.Files.{over_files};
ghost use Rattle.clear_server.specs.Told.{written_by};
ghost use Rattle.clear_program.specs.Ends.{SaysAll, SaysLook, TellsNoStore, TellsUnopened, TellsWhy};
ghost use Rattle.clear_program.specs.declared.tasks.Task.TheVariants.{Look};

use crate::opening::{Unopened, Whole, do_and_close, open_whole};
use crate::reasons::reason;
use clear_server::told::write_front;
use clear_wire::counted::Counted;
use clear_work::jobs::Job;
use clear_work::says::end_by;
use clear_work::stop::{Stop, tell};
use sqlite::FileStore;
use sqlite_disk::{Start, Unknown};
use sqlite_std_file::FileFrom;
use std::alloc::Global;
use std::io::Write;

/// Says what stands in the store at a path, and changes nothing. Where there is none, or it can't be
/// opened, the line that each command tells is followed by one that says which, in words. It gives
/// the status with which the program ends.
pub(crate) fn look_at<O: Write, E: Write>(
    rt: &HostRuntime,
    store: &str,
    output: &mut Counted<O>,
    errors: &mut Counted<E>,
) -> Result<u8, Stop>
    ensures says { SaysAll
        (written_by O.contents output.old) (written_by O.contents output.new)
        (written_by E.contents errors.old) (written_by E.contents errors.new)
        (Look store.entry) result
        ⊎ TellsNoStore
        (written_by O.contents output.old) (written_by O.contents output.new)
        (written_by E.contents errors.old) (written_by E.contents errors.new) result }
    ensures small { IfOk result (λ status. status ≤ 3) }
{
    let whole = open_whole(rt, store, Unknown, Unknown);
    look_on(rt, whole, output, errors)
}

// Says what stands in a store that was opened, and closes it; or tells why it wasn't opened.
fn look_on<S: Start, O: Write, E: Write>(
    rt: &HostRuntime,
    whole: Result<Whole<'_, FileStore<FileFrom<S>>>, Unopened>,
    output: &mut Counted<O>,
    errors: &mut Counted<E>,
) -> Result<u8, Stop>
    ensures says { IfOk whole.entry (λ it. SaysLook over_files
        (written_by O.contents output.old) (written_by O.contents output.new)
        (written_by E.contents errors.old) (written_by E.contents errors.new)
        it.opened.office.conn result) }
    ensures refused { IfErr whole.entry (λ why. TellsUnopened
        (written_by O.contents output.old) (written_by O.contents output.new)
        (written_by E.contents errors.old) (written_by E.contents errors.new) why result) }
    ensures small { IfOk result (λ status. status ≤ 3) }
{
    match whole {
        Ok(whole) => end_by(output, do_and_close(rt, whole.opened, Job::Look, errors), 0),
        Err(refused) => Ok(tell_why(rt.alloc(), &refused, errors)),
    }
}

// Tells the fault, and on a line of its own what it means.
fn tell_why<E: Write>(alloc: Global, refused: &Unopened, errors: &mut Counted<E>) -> u8
    ensures told { TellsWhy refused.now.kind refused.now.hindrance refused.now.fault
        (written_by E.contents errors.old) (written_by E.contents errors.new) result }
    ensures small { result ≤ 3 }
{
    let status = tell(alloc, errors, &Stop::from(refused.fault));
    if let Ok(text) = reason(alloc, refused.kind, refused.hindrance, &refused.fault) {
        write_front(errors, text.as_bytes());
    }
    status
}
