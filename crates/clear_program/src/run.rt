//! The program as a whole.
ghost use Rattle.std.specs.Prelude.{◌≡◌, ◌≤◌, false, IfOk, map, string_bytes};
ghost use Rattle.clear_wire.specs.Counted.{has_failed, inner, noted_of};
ghost use Rattle.clear_server.specs.Told.{written_by};
ghost use Rattle.clear_program.specs.Ends.{Does, DoesWords, Ends, MaySay, TellsMeanwhile};

use crate::look::look_at;
use crate::make::make_at;
use crate::migrate::migrate_at;
use crate::opening::{open_whole, work_on};
use crate::tasks::{Task, read_task, words_of};
use clear_wire::counted::{Counted, RequestRead};
use clear_work::says::end_by;
use clear_work::stop::{Stop, tell};
use clear_work::stream::serve_in_memory;
use clear_work::work::Work;
use sqlite_disk::Unknown;
use std::io::Write;

// The status of a file that was checked and has a fault.
const BAD_FILE: u8 = 2;

/// Does what the words of the command line ask for, over the standard streams, and gives the status with
/// which the program ends.
pub fn run(rt: &HostRuntime) -> u8
    ensures { result ≤ 3 }
{
    let mut input = Counted::new(rt.stdin());
    let mut output = Counted::new(rt.stdout());
    let mut errors = Counted::new(rt.stderr());
    match words_of(rt) {
        Ok(words) => run_words(rt, words.as_slice(), &mut input, &mut output, &mut errors),
        Err(stop) => tell(rt.alloc(), &mut errors, &stop),
    }
}

/// Does what these words ask for, and gives the status with which the program ends: 0 where all was
/// done, 2 where a checked file has a fault, which is told on the output. Why something was not done is
/// told on `errors`, and its status is given. Neither the input nor the output may have failed before,
/// so that it can be told which of them did.
pub fn run_words<I: RequestRead, O: Write, E: Write>(
    rt: &HostRuntime,
    words: &[String],
    input: &mut Counted<I>,
    output: &mut Counted<O>,
    errors: &mut Counted<E>,
) -> u8
    requires read { has_failed input.old ≡ false }
    requires write { has_failed output.old ≡ false }
    ensures ends { Ends (map string_bytes words.now)
        (I.remaining (inner input.old)) (noted_of input.old) (noted_of input.new)
        (written_by O.contents output.old) (written_by O.contents output.new)
        (written_by E.contents errors.old) (written_by E.contents errors.new) result }
    ensures small { result ≤ 3 }
{
    match do_words(rt, words, input, output, errors) {
        Ok(status) => status,
        Err(stop) => tell(rt.alloc(), errors, &stop),
    }
}

fn do_words<I: RequestRead, O: Write, E: Write>(
    rt: &HostRuntime,
    words: &[String],
    input: &mut Counted<I>,
    output: &mut Counted<O>,
    errors: &mut Counted<E>,
) -> Result<u8, Stop>
    requires read { has_failed input.old ≡ false }
    requires write { has_failed output.old ≡ false }
    ensures does { DoesWords
        (written_by O.contents output.old) (written_by O.contents output.new)
        (written_by E.contents errors.old) (written_by E.contents errors.new)
        (I.remaining (inner input.old)) (noted_of input.old) (noted_of input.new)
        (map string_bytes words.now) result }
    ensures small { IfOk result (λ status. status ≤ 3) }
{
    match read_task(rt, words) {
        Ok(task) => do_task(rt, task, input, output, errors),
        Err(stop) => Err(stop),
    }
}

// Does a task, and says what it has to say.
fn do_task<I: RequestRead, O: Write, E: Write>(
    rt: &HostRuntime,
    task: Task<'_>,
    input: &mut Counted<I>,
    output: &mut Counted<O>,
    errors: &mut Counted<E>,
) -> Result<u8, Stop>
    requires read { has_failed input.old ≡ false }
    requires write { has_failed output.old ≡ false }
    ensures does { Does
        (written_by O.contents output.old) (written_by O.contents output.new)
        (written_by E.contents errors.old) (written_by E.contents errors.new)
        (I.remaining (inner input.old)) (noted_of input.old) (noted_of input.new)
        task.entry result }
    ensures small { IfOk result (λ status. status ≤ 3) }
{
    match task {
        Task::Say(text) => end_by(output, Ok(text), 0),
        Task::Check(checked) => {
            let status = if checked.good { 0 } else { BAD_FILE };
            end_by(output, Ok(checked.text), status)
        }
        Task::Stream {
            rates,
            directory,
            day,
        } => match serve_in_memory(rt.alloc(), &rates, &directory, day, input, output) {
            Ok(()) => Ok(0),
            Err(stop) => Err(stop),
        },
        Task::Look { store } => look_at(rt, store, output, errors),
        Task::Migrate { store } => {
            let said = migrate_at(rt, store, Unknown);
            end_by(output, said, 0)
        }
        Task::Init { store, rates } => {
            let said = make_at(rt, store, &rates, Unknown);
            end_by(output, said, 0)
        }
        Task::OnStore { store, work } => {
            let said = work_at(rt, store, work, errors);
            end_by(output, said, 0)
        }
    }
}

// Opens the store at a path, works on it, and closes it.
fn work_at<E: Write>(
    rt: &HostRuntime,
    store: &str,
    work: Work<'_>,
    errors: &mut Counted<E>,
) -> Result<String, Stop>
    ensures said { MaySay string_bytes (Task.OnStore store.entry work.entry) result }
    ensures told { TellsMeanwhile (Task.OnStore store.entry work.entry)
        (written_by E.contents errors.old) (written_by E.contents errors.new) }
{
    let whole = open_whole(rt, store, Unknown, Unknown);
    work_on(rt, whole, work, errors)
}
