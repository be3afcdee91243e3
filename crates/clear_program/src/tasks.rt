//! What the words of the command line ask for, with what the files say that they name.
ghost use Rattle.std.specs.Prelude.{◌≡◌, ◌≢◌, IfErr, IfOk, map, string_bytes};
ghost use Rattle.std.specs.IoError.{error_kind};
ghost use Rattle.clear_toml.specs.RateFile.{rates_of};
ghost use Rattle.clear_callers.specs.CallerFile.{directory_of};
ghost use Rattle.clear_callers.specs.Callers.{sample_keys};
ghost use Rattle.clear_sample.specs.Samples.{sample_rates};
ghost use Rattle.clear_work.specs.Stops.{IsOfFile, IsOfWords, no_memory};
ghost use Rattle.clear_program.specs.Asked.{IsAsked, IsChecked, IsNotDone, IsOfNamed, IsOfPath};
ghost use Rattle.clear_program.specs.Asked.{IsSampleOr, IsTaskFor};

use clear_bank_check::bank::check_bank;
use clear_book::calls::Command;
use clear_book::files::BankFile;
use clear_book::numbers::RequestNo;
use clear_callers::directory::Directory;
use clear_check::Checked;
use clear_check::callers::check_callers;
use clear_check::rates::check_rates;
use clear_cli::line::read_words;
use clear_cli::words::{FileKind, LineFault, Words};
use clear_files::read::{read_caller_file, read_file, read_rate_file};
use clear_money::days::Day;
use clear_money::numbers::EmployerNo;
use clear_money::rates::RateTable;
use clear_sample::samples::sample_rates;
use clear_work::stop::{NO_MEMORY, Stop};
use clear_work::work::Work;
use std::alloc::{AllocError, Global};
use std::io::ErrorKind;
use std::{env, io};

// The word that names the sample's rates or callers in the place of a file.
const SAMPLE: &str = "sample";

/// What the program is to do.
#[derive(Drop)]
pub enum Task<'a> {
    /// Writes a text.
    Say(String),
    /// Says what a file holds, or its first fault.
    Check(Checked),
    /// Serves the input over a new office in memory.
    Stream {
        rates: RateTable,
        directory: Directory,
        day: Day,
    },
    /// Tells what stands in the store at a path.
    Look {
        store: &'a str,
    },
    /// Says whether the store at a path has this program's schema.
    Migrate {
        store: &'a str,
    },
    /// Makes the store at a path, with these opening rates.
    Init {
        store: &'a str,
        rates: RateTable,
    },
    /// Works on the store at a path.
    OnStore {
        store: &'a str,
        work: Work<'a>,
    },
}

/// The words behind the program's own name. They can't be had where one of them isn't UTF-8, or for
/// want of memory.
pub fn words_of(rt: &HostRuntime) -> Result<Vec<String>, Stop>
    ensures { IfErr result IsOfWords }
{
    let mut given = match env::args(rt) {
        Ok(given) => given,
        Err(error) => return Err(stop_at_words(&error)),
    };
    let _program = given.next();
    match given.collect(rt.alloc()) {
        Ok(words) => Ok(words),
        Err(AllocError) => Err(NO_MEMORY),
    }
}

// Want of memory, or any other fault of the words.
fn stop_at_words(error: &io::Error) -> Stop
    ensures words { IsOfWords result }
    ensures memory { error_kind error.now ≡ ErrorKind.OutOfMemory → result ≡ no_memory }
    ensures other { error_kind error.now ≢ ErrorKind.OutOfMemory → result ≡ Stop.Line }
{
    if error.kind() == ErrorKind::OutOfMemory {
        NO_MEMORY
    } else {
        Stop::Line
    }
}

/// The task that the words name. The files that they name are read, and no store is touched.
///
/// `Stop::Line` where they say nothing and don't ask for help, `Stop::File` where a file that they name can't
/// be used, and want of memory. The sample is no file.
pub fn read_task<'a>(rt: &HostRuntime, words: &'a [String]) -> Result<Task<'a>, Stop>
    ensures asked { IfOk result (λ task. IsAsked (map string_bytes words.now) task) }
    ensures refused { IfErr result (λ why. IsNotDone (map string_bytes words.now) why) }
{
    match read_words(rt.alloc(), words) {
        Ok(words) => prepare(rt, words),
        Err(LineFault::Help(text)) => Ok(Task::Say(text)),
        Err(LineFault::Line) => Err(Stop::Line),
        Err(LineFault::Memory) => Err(NO_MEMORY),
    }
}

// The task for what the words say.
fn prepare<'a>(rt: &HostRuntime, words: Words<'a>) -> Result<Task<'a>, Stop>
    ensures task { IfOk result (λ task. IsTaskFor words.entry task) }
    ensures refused { IfErr result (IsOfNamed words.entry) }
{
    match words {
        Words::Init { store, rates } => init_task(rt, store, rates),
        Words::Stream {
            rates,
            callers,
            day,
        } => stream_task(rt, rates, callers, day),
        Words::Serve {
            store,
            callers,
            day,
            port,
            count,
        } => serve_task(rt, store, callers, day, port, count),
        Words::Import {
            store,
            day,
            number,
            file,
        } => import_task(rt, store, day, number, file),
        Words::Statement {
            store,
            day,
            employer,
        } => Ok(on_store(store, Work::Statement { day, employer })),
        Words::Migrate { store } => Ok(Task::Migrate { store }),
        Words::Look { store } => Ok(Task::Look { store }),
        Words::Check { kind, file } => check_task(rt, kind, file),
        Words::Backup { store, file } => Ok(on_store(store, Work::Backup { copy: file })),
    }
}

// Work on the store at a path.
fn on_store<'a>(store: &'a str, work: Work<'a>) -> Task<'a>
    ensures { result ≡ Task.OnStore store.entry work.entry }
{
    Task::OnStore { store, work }
}

fn init_task<'a>(rt: &HostRuntime, store: &'a str, rates: &'a str) -> Result<Task<'a>, Stop>
    ensures task { IfOk result (λ task. IsTaskFor (Words.Init store.entry rates.entry) task) }
    ensures refused { IfErr result IsOfFile }
{
    let rates = read_rate_file(rt, rates)?;
    Ok(Task::Init { store, rates })
}

fn serve_task<'a>(
    rt: &HostRuntime,
    store: &'a str,
    callers: &'a str,
    day: Day,
    port: u16,
    count: u32,
) -> Result<Task<'a>, Stop>
    ensures task { IfOk result (λ task.
        IsTaskFor (Words.Serve store.entry callers.entry day port count) task) }
    ensures refused { IfErr result IsOfFile }
{
    let directory = read_caller_file(rt, callers)?;
    let work = Work::Serve {
        directory,
        day,
        port,
        count,
    };
    Ok(on_store(store, work))
}

fn import_task<'a>(
    rt: &HostRuntime,
    store: &'a str,
    day: Day,
    number: RequestNo,
    file: &'a str,
) -> Result<Task<'a>, Stop>
    ensures task { IfOk result (λ task.
        IsTaskFor (Words.Import store.entry day number file.entry) task) }
    ensures refused { IfErr result IsOfFile }
{
    let command = Command::ImportBank(BankFile::new(read_file(rt, file)?));
    let work = Work::Import {
        day,
        number,
        command,
    };
    Ok(on_store(store, work))
}

fn stream_task<'a>(
    rt: &HostRuntime,
    rates: &'a str,
    callers: &'a str,
    day: Day,
) -> Result<Task<'a>, Stop>
    ensures task { IfOk result (λ task.
        IsTaskFor (Words.Stream rates.entry callers.entry day) task) }
    ensures refused { IfErr result (IsOfNamed (Words.Stream rates.entry callers.entry day)) }
{
    Ok(Task::Stream {
        rates: rates_or_sample(rt, rates)?,
        directory: callers_or_sample(rt, callers)?,
        day,
    })
}

fn check_task<'a>(rt: &HostRuntime, kind: FileKind, file: &'a str) -> Result<Task<'a>, Stop>
    ensures task { IfOk result (λ task. IsTaskFor (Words.Check kind file.entry) task) }
    ensures refused { IfErr result IsOfFile }
{
    let bytes = read_file(rt, file)?;
    Ok(Task::Check(check_file(rt.alloc(), kind, bytes.as_slice())?))
}

// What is said of the bytes of a file of this kind.
fn check_file(alloc: Global, kind: FileKind, bytes: &[u8]) -> Result<Checked, AllocError>
    ensures { IfOk result (IsChecked kind bytes.now) }
{
    match kind {
        FileKind::Rates => check_rates(alloc, bytes),
        FileKind::Callers => check_callers(alloc, bytes),
        FileKind::Bank => check_bank(alloc, bytes),
    }
}

fn rates_or_sample(rt: &HostRuntime, path: &str) -> Result<RateTable, Stop>
    ensures said { IfOk result (IsSampleOr sample_rates path.now rates_of) }
    ensures refused { IfErr result (IsOfPath path.now) }
{
    if path == SAMPLE {
        Ok(sample_rates(rt.alloc())?)
    } else {
        Ok(read_rate_file(rt, path)?)
    }
}

fn callers_or_sample(rt: &HostRuntime, path: &str) -> Result<Directory, Stop>
    ensures said { IfOk result (IsSampleOr sample_keys path.now directory_of) }
    ensures refused { IfErr result (IsOfPath path.now) }
{
    if path == SAMPLE {
        Ok(Directory::sample(rt.alloc())?)
    } else {
        Ok(read_caller_file(rt, path)?)
    }
}
