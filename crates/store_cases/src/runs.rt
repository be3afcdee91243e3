//! What is done over a new store in two files, of which calls fail. The type of such a store is named
//! here alone: all else goes over any store.
ghost use Rattle.std.specs.Prelude.{◌≡◌, false, IsTrue};

use crate::calls::register;
use crate::disks::Failing;
use clear_book::calls::Call;
use clear_book::outcomes::Outcome;
use clear_callers::directory::Directory;
use clear_database::store::{Refusal, Store};
use clear_disk::database::open_connection;
use clear_disk::files::{FilesRefusal, crash_and_open, store_options};
use clear_money::days::Day;
use clear_money::rates::RateTable;
use clear_office::made::make_office;
use clear_office::office::Office;
use clear_resumed::resumed::{Sent, crash_and_send};
use clear_sample::samples::sample_rates;
use sqlite::{Alter, Connection, Files};
use sqlite_disk::{Crash, Memory};
use std::alloc::Global;

/// Whose keys are taken, the day, the rates with which an office begins, and the clerk's first request.
#[derive(Drop)]
pub(crate) struct Desk {
    pub alloc: Global,
    pub callers: Directory,
    pub day: Day,
    pub rates: RateTable,
    pub first: Call,
}

/// The keys and the rates of the sample, on 2024-04-30.
pub(crate) fn sample_desk(alloc: Global) -> Option<Desk> {
    let day = Day::read(b"2024-04-30")?;
    let first = register(alloc)?;
    match (sample_rates(alloc), Directory::sample(alloc)) {
        (Ok(rates), Ok(callers)) => Some(Desk {
            alloc,
            callers,
            day,
            rates,
            first,
        }),
        _ => None,
    }
}

/// How a run went.
#[derive(Clone, Copy)]
pub(crate) enum Run {
    /// A request met a fault, or there was no office yet.
    Met,
    /// None did.
    Whole,
    /// Something was not as it should be.
    Wrong,
}

/// What is to be done next.
pub(crate) enum Next<S: Alter> {
    /// Nothing more: so the run went.
    Done(Run),
    /// The machine stops, and the store is opened again.
    Reopen(Connection<S>),
    /// The machine stops, an office is opened again, and the first request is sent again.
    Resend(Office<S>),
}

/// What was found after the machine had stopped.
#[derive(Drop)]
pub(crate) enum Found<S: Alter> {
    Store(Store<S>),
    /// A database that is not taken as a store.
    NoStore(Refusal<S>),
    /// An office, and what it answered.
    Sent(Office<S>, Outcome),
}

/// What is done with a new store, whatever keeps it.
pub(crate) trait Case {
    /// Begins with a connection on an empty database.
    fn begin<S: Alter + Drop>(&mut self, desk: &Desk, conn: Connection<S>) -> Next<S>
        requires { conn.in_transaction ≡ false };

    /// Goes on after the machine has stopped.
    fn after<S: Alter + Drop>(&mut self, desk: &Desk, found: Found<S>) -> Run;
}

/// How many calls of the log and of the database file are passed on before one fails, and how many are
/// behind it.
#[derive(Clone, Copy)]
pub(crate) struct Passed {
    pub log: u64,
    pub db: u64,
    pub behind: u64,
}

/// Two files of which no call fails.
pub(crate) const SOUND: Passed = Passed {
    log: u64::MAX,
    db: u64::MAX,
    behind: u64::MAX,
};

/// Runs a case over two new files.
pub(crate) fn run_in_files<C: Case>(desk: &Desk, case: &mut C, passed: Passed) -> Run {
    let files = Files {
        log: Failing::new(Memory::new(desk.alloc), passed.log, passed.behind),
        db: Failing::new(Memory::new(desk.alloc), passed.db, passed.behind),
    };
    if files.may_be_used() {
        run_over(desk, case, files)
    } else {
        Run::Wrong
    }
}

fn run_over<D: Crash + Drop, C: Case>(desk: &Desk, case: &mut C, files: Files<D>) -> Run
    requires log { IsTrue (D.Disk.is_usable files.log) }
    requires db { IsTrue (D.Disk.is_usable files.db) }
{
    let Ok(conn) = open_connection(desk.alloc, files, store_options(7)) else {
        return Run::Met;
    };
    let found = match case.begin(desk, conn) {
        Next::Done(run) => return run,
        Next::Reopen(conn) => match crash_and_open(desk.alloc, conn, store_options(7)) {
            Ok(store) => Found::Store(store),
            Err(FilesRefusal::NotTaken(refusal)) => Found::NoStore(refusal),
            Err(FilesRefusal::Unopened(_)) => return Run::Wrong,
        },
        Next::Resend(office) => {
            match crash_and_send(desk.alloc, office, store_options(7), &desk.first) {
                Ok(Sent { office, outcome }) => Found::Sent(office, outcome),
                Err(FilesRefusal::NotTaken(refusal)) => Found::NoStore(refusal),
                Err(FilesRefusal::Unopened(_)) => return Run::Wrong,
            }
        }
    };
    case.after(desk, found)
}

/// Whether a case is whole where no call fails.
pub(crate) fn is_whole<C: Case>(desk: &Desk, case: &mut C) -> bool {
    matches!(run_in_files(desk, case, SOUND), Run::Whole)
}

/// What is done with an office without requests, whatever keeps its records.
pub(crate) trait Act {
    /// Whether all is as it should be.
    fn is_right<S: Alter>(&mut self, desk: &Desk, office: &mut Office<S>) -> bool;
}

// An act is a case in which the machine goes on.
#[derive(Drop)]
struct Acting<'a, A: Act> {
    act: &'a mut A,
}

impl<A: Act> Case for Acting<'_, A> {
    fn begin<S: Alter + Drop>(&mut self, desk: &Desk, conn: Connection<S>) -> Next<S> {
        let Ok(office) = make_office(desk.alloc, conn, &desk.rates) else {
            return Next::Done(Run::Wrong);
        };
        let mut office = office;
        if self.act.is_right(desk, &mut office) {
            Next::Done(Run::Whole)
        } else {
            Next::Done(Run::Wrong)
        }
    }

    fn after<S: Alter + Drop>(&mut self, _desk: &Desk, _found: Found<S>) -> Run {
        Run::Wrong
    }
}

/// Whether an act is right over two files of which no call fails.
pub(crate) fn is_right<A: Act>(desk: &Desk, act: &mut A) -> bool {
    is_whole(desk, &mut Acting { act })
}
