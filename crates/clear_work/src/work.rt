//! What is done with an office.
ghost use Rattle.std.specs.Prelude.{◌≡◌, OnErr, OnOk, string_bytes};
ghost use Rattle.clear_book.specs.declared.calls.Call.TheVariants.{Ask, Do};
ghost use Rattle.clear_cli.specs.Ready.{ready_text};
ghost use Rattle.clear_office.specs.Office.{answered, replied};
ghost use Rattle.clear_server.specs.Told.{Writes, written_by};
ghost use Rattle.clear_work.specs.Works.{IsCopied, IsDone, IsSaid, Works, import_said};
ghost use Rattle.clear_work.specs.Works.{serving_said, statement_said};

use crate::stop::{Stop, stop_at_records};
use clear_book::calls::{Caller, Command, Query};
use clear_book::numbers::RequestNo;
use clear_book::outcomes::{Answer, Reply};
use clear_book::rules::{Rule, StoreCause};
use clear_callers::directory::Directory;
use clear_cli::ready::{copied_line, imported_line, ready_text, served_line};
use clear_files::backup::copy_whole;
use clear_files::logs::is_brought_over;
use clear_files::named::{NamedStore, StoreFile};
use clear_host::offices::Opened;
use clear_money::days::Day;
use clear_money::numbers::EmployerNo;
use clear_office::office::Office;
use clear_server::connections::{Ended, serve_connections};
use clear_server::told::write_front;
use clear_wire::counted::Counted;
use sqlite::Alter;
use std::alloc::{AllocError, Global};
use std::io::Write;
use std::net::{Ipv4Addr, TcpListener};

/// What is done with a store that was opened.
#[derive(Drop)]
pub enum Work<'a> {
    /// Serves so many connections on a port of this machine.
    Serve {
        directory: Directory,
        day: Day,
        port: u16,
        count: u32,
    },
    /// Imports a bank file as the clerk, as the request of this number.
    Import {
        day: Day,
        number: RequestNo,
        command: Command,
    },
    /// Tells a firm's statement, as the clerk asks for it.
    Statement {
        day: Day,
        employer: EmployerNo,
    },
    /// Copies it into a new file at a path.
    Backup {
        copy: &'a str,
    },
}

// The store isn't where it was opened.
const STORE_GONE: Stop = Stop::Rule(Rule::Store(StoreCause::Other));

// The store's log has what its file hasn't.
const LOG_LEFT: Stop = Stop::Rule(Rule::Store(StoreCause::Other));

/// Does the work on an office that was just opened over the store in a file, and gives what is to be
/// said of it. That connections are taken, and why one ended early, is told on `errors`.
///
/// An import and a statement are a call of the clerk's: whatever lawful book the office keeps, what is
/// said is the machine's reply or answer, or its rule, and the office then keeps the book that is left.
/// To serve is many calls, each as the machine takes it. A copy leaves the office as it is.
pub fn do_work<S: Alter, E: Write>(
    rt: &HostRuntime,
    opened: &mut Opened<S>,
    file: &StoreFile<'_>,
    work: Work<'_>,
    errors: &mut Counted<E>,
) -> Result<String, Stop>
    ensures works { Works string_bytes S.Store opened.old.office opened.new.office result
        opened.old.ledger_day
        (written_by E.contents errors.old) (written_by E.contents errors.new) work.entry }
    ensures day { opened.new.ledger_day ≡ opened.old.ledger_day }
{
    let alloc = rt.alloc();
    match work {
        Work::Serve {
            directory,
            day,
            port,
            count,
        } => {
            let place = Place { file: *file, port };
            serve_at(rt, opened, &directory, day, &place, count, errors)
        }
        Work::Import {
            day,
            number,
            command,
        } => import(alloc, &mut opened.office, day, number, &command),
        Work::Statement { day, employer } => statement(alloc, &mut opened.office, day, employer),
        Work::Backup { copy } => backup(rt, file, copy, &opened.ledger_day),
    }
}

// Where an office is served: the file of its store, and the port.
#[derive(Clone, Copy)]
struct Place<'a> {
    file: StoreFile<'a>,
    port: u16,
}

fn serve_at<S: Alter, E: Write>(
    rt: &HostRuntime,
    opened: &mut Opened<S>,
    directory: &Directory,
    day: Day,
    place: &Place<'_>,
    count: u32,
    errors: &mut Counted<E>,
) -> Result<String, Stop>
    ensures serves { Works string_bytes S.Store opened.old.office opened.new.office result
        opened.old.ledger_day
        (written_by E.contents errors.old) (written_by E.contents errors.new)
        (Work.Serve directory.now day place.now.port count) }
    ensures day { opened.new.ledger_day ≡ opened.old.ledger_day }
{
    let Some(files) = NamedStore::with_log(rt, place.file)? else {
        return Err(STORE_GONE);
    };
    let Ok(listener) = TcpListener::bind(rt, (Ipv4Addr::LOCALHOST, place.port)) else {
        return Err(Stop::Net);
    };
    tell_ready(rt.alloc(), place.port, day, &opened.ledger_day, errors)?;
    let office = &mut opened.office;
    let ended = serve_connections(rt, &listener, count, office, directory, day, &files, errors);
    say_served(rt.alloc(), count, ended)
}

// What is said of how serving so many connections ended.
fn say_served(alloc: Global, count: u32, ended: Ended) -> Result<String, Stop>
    ensures { IsSaid string_bytes (serving_said count ended) result }
{
    match ended {
        Ended::Served => Ok(served_line(alloc, count)?),
        Ended::StoreGone => Err(STORE_GONE),
        Ended::NoConnections => Err(Stop::Net),
    }
}

// Tells that connections are taken, and what the day means for new requests. What can't be written is
// lost.
fn tell_ready<E: Write>(
    alloc: Global,
    port: u16,
    day: Day,
    ledger_day: &Option<Day>,
    errors: &mut Counted<E>,
) -> Result<(), AllocError>
    ensures told { OnOk result (Writes (ready_text port day ledger_day.now)
        (written_by E.contents errors.old) (written_by E.contents errors.new)) }
    ensures nothing { OnErr result
        (written_by E.contents errors.new ≡ written_by E.contents errors.old) }
{
    let text = ready_text(alloc, port, day, ledger_day)?;
    write_front(errors, text.as_bytes());
    Ok(())
}

fn import<S: Alter>(
    alloc: Global,
    office: &mut Office<S>,
    day: Day,
    number: RequestNo,
    command: &Command,
) -> Result<String, Stop>
    ensures { IsDone string_bytes S.Store office.old office.new result
        (Do Caller.Clerk number day command.now) import_said }
{
    let reply = office.submit(Caller::Clerk, number, day, command);
    say_imported(alloc, reply)
}

// What is said of the reply to an import.
fn say_imported(alloc: Global, reply: Result<Reply, Rule>) -> Result<String, Stop>
    ensures { IsSaid string_bytes (import_said (replied reply)) result }
{
    match reply {
        Ok(Reply::Imported { new, repeats }) => Ok(imported_line(alloc, new, repeats)?),
        Ok(
            Reply::Done
            | Reply::Reported { .. }
            | Reply::Claimed { .. }
            | Reply::Released(_)
            | Reply::Listed { .. }
            | Reply::Reminded { .. },
        ) => Err(stop_at_records()),
        Err(rule) => Err(Stop::Rule(rule)),
    }
}

fn statement<S: Alter>(
    alloc: Global,
    office: &mut Office<S>,
    day: Day,
    employer: EmployerNo,
) -> Result<String, Stop>
    ensures { IsDone string_bytes S.Store office.old office.new result
        (Ask Caller.Clerk day (Query.Statement employer)) statement_said }
{
    let answer = office.ask(Caller::Clerk, day, &Query::Statement { employer });
    say_statement(alloc, answer)
}

// What is said of the answer to a question for a statement.
fn say_statement(alloc: Global, answer: Result<Answer, Rule>) -> Result<String, Stop>
    ensures { IsSaid string_bytes (statement_said (answered answer)) result }
{
    match answer {
        Ok(Answer::Text(document)) => Ok(String::from_str(alloc, document.as_str())?),
        Ok(Answer::Owed { .. }) => Err(stop_at_records()),
        Err(rule) => Err(Stop::Rule(rule)),
    }
}

// Copies the file of a store, which is open and held. Where its log couldn't be brought over,
// as on a full disk, the file alone isn't the store, and nothing is copied.
fn backup(
    rt: &HostRuntime,
    file: &StoreFile<'_>,
    copy: &str,
    ledger_day: &Option<Day>,
) -> Result<String, Stop>
    ensures { IsCopied string_bytes copy.now ledger_day.now result }
{
    if !is_brought_over(rt, file.path) {
        return Err(LOG_LEFT);
    }
    copy_whole(rt, file, copy)?;
    Ok(copied_line(rt.alloc(), ledger_day)?)
}
