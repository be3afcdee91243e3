//! A store whose files stop at each of their calls, or of which one call fails: what is found then is what
//! stood before the request in flight or after it, and the same request sent again acts once.
use crate::calls::is_done;
use crate::runs::{Act, Case, Desk, Found, Next, Passed, Run, is_right, run_in_files, sample_desk};
use crate::script::{COUNT, Came, send, told};
use clear_database::store::{Refusal, Store};
use clear_office::made::make_office;
use clear_office::office::Office;
use clear_schema::fault::OpenFault;
use sqlite::{Alter, Connection};
use std::alloc::Global;

// What an office of which nothing fails tells before the first request, and after each.
#[derive(Drop)]
struct Notes {
    told: Vec<Vec<u8>>,
}

impl Notes {
    fn note<S: Alter>(&mut self, desk: &Desk, office: &mut Office<S>) -> bool {
        match told(desk, office) {
            Some(now) => self.told.push(now).is_ok(),
            None => false,
        }
    }
}

impl Act for Notes {
    fn is_right<S: Alter>(&mut self, desk: &Desk, office: &mut Office<S>) -> bool {
        if !self.note(desk, office) {
            return false;
        }
        for place in 0..COUNT {
            if !matches!(send(desk, office, place), Came::Reply) || !self.note(desk, office) {
                return false;
            }
        }
        true
    }
}

// The requests over files of which calls fail: what is told before them and after each, and the place of
// the one in flight as the machine stops, where there is an office.
#[derive(Drop)]
struct Script<'a> {
    told: &'a [Vec<u8>],
    place: Option<usize>,
}

impl Script<'_> {
    // Whether the office tells now what it told after so many requests.
    fn is_after<S: Alter>(&self, desk: &Desk, office: &mut Office<S>, count: usize) -> bool {
        let Some(then) = self.told.get(count) else {
            return false;
        };
        match told(desk, office) {
            Some(now) => now.as_slice() == then.as_slice(),
            None => false,
        }
    }

    // Whether the request of a place has its reply, and the office then tells what it told after it.
    fn takes<S: Alter>(&self, desk: &Desk, office: &mut Office<S>, place: usize) -> bool {
        matches!(send(desk, office, place), Came::Reply)
            && self.is_after(desk, office, place.saturating_add(1))
    }

    // Whether this request and those behind it are taken; this one twice, and then changes nothing.
    fn goes_on<S: Alter>(&self, desk: &Desk, office: &mut Office<S>, place: usize) -> bool {
        if place < COUNT && !self.takes(desk, office, place) {
            return false;
        }
        for next in place..COUNT {
            if !self.takes(desk, office, next) {
                return false;
            }
        }
        true
    }

    // Whether an office is found as it was before the request in flight or after it, and goes on.
    fn resumes<S: Alter>(&self, desk: &Desk, office: &mut Office<S>) -> Run {
        let Some(place) = self.place else {
            return Run::Wrong;
        };
        let is_found = self.is_after(desk, office, place)
            || self.is_after(desk, office, place.saturating_add(1));
        if !is_found || !self.goes_on(desk, office, place) {
            Run::Wrong
        } else if place == COUNT {
            Run::Whole
        } else {
            Run::Met
        }
    }

    // Whether a store that could not be made is found without requests, and goes on.
    fn begins<S: Alter + Drop>(&self, desk: &Desk, store: Store<S>) -> Run {
        if !store.conn.is_autocommit() {
            return Run::Wrong;
        }
        let mut office = Office::open(desk.alloc, store);
        if self.is_after(desk, &mut office, 0) && self.goes_on(desk, &mut office, 0) {
            Run::Met
        } else {
            Run::Wrong
        }
    }
}

// The place of the request that meets a fault, and the number of requests where none does. Behind a fault
// the office has failed.
fn place_of_fault<S: Alter>(desk: &Desk, office: &mut Office<S>) -> Option<usize> {
    for place in 0..COUNT {
        match send(desk, office, place) {
            Came::Reply => {}
            Came::Fault => {
                return if matches!(send(desk, office, place), Came::Failed) {
                    Some(place)
                } else {
                    None
                };
            }
            Came::Failed | Came::Other => return None,
        }
    }
    Some(COUNT)
}

impl Case for Script<'_> {
    fn begin<S: Alter + Drop>(&mut self, desk: &Desk, conn: Connection<S>) -> Next<S> {
        match make_office(desk.alloc, conn, &desk.rates) {
            Ok(office) => {
                let mut office = office;
                self.place = place_of_fault(desk, &mut office);
                if self.place.is_some() {
                    Next::Resend(office)
                } else {
                    Next::Done(Run::Wrong)
                }
            }
            Err(Refusal { connection, .. }) => {
                self.place = None;
                Next::Reopen(connection)
            }
        }
    }

    // Where a store could not be made, none is found, or the one without requests.
    fn after<S: Alter + Drop>(&mut self, desk: &Desk, found: Found<S>) -> Run {
        match found {
            Found::Sent(office, outcome) => {
                let mut office = office;
                if is_done(&outcome) {
                    self.resumes(desk, &mut office)
                } else {
                    Run::Wrong
                }
            }
            Found::Store(store) => self.begins(desk, store),
            Found::NoStore(Refusal { fault, .. }) => {
                if matches!(fault, OpenFault::WrongVersion(0)) && self.place.is_none() {
                    Run::Met
                } else {
                    Run::Wrong
                }
            }
        }
    }
}

// So many calls of one file are passed on before one fails, and so many behind it. Those of the other all
// are.
fn passed_of(is_log: bool, before: u64, behind: u64) -> Passed {
    let (log, db) = if is_log {
        (before, u64::MAX)
    } else {
        (u64::MAX, before)
    };
    Passed { log, db, behind }
}

// Whether all is well where a file stops after 0 calls, 1, 2, .. until a run ends with no stop, and where
// each of these calls fails alone. So many calls are there at least.
fn holds_at_each(desk: &Desk, script: &mut Script<'_>, is_log: bool, least: u64) -> bool {
    for before in 0..100_000 {
        let alone = passed_of(is_log, before, u64::MAX);
        if let Run::Wrong = run_in_files(desk, script, alone) {
            return false;
        }
        match run_in_files(desk, script, passed_of(is_log, before, 0)) {
            Run::Met => {}
            Run::Whole => return before >= least,
            Run::Wrong => return false,
        }
    }
    false
}

fn holds_over(desk: &Desk) -> bool {
    let mut notes = Notes {
        told: Vec::new(desk.alloc),
    };
    if !is_right(desk, &mut notes) {
        return false;
    }
    let mut script = Script {
        told: notes.told.as_slice(),
        place: None,
    };
    holds_at_each(desk, &mut script, true, 50) && holds_at_each(desk, &mut script, false, 10)
}

fn holds(alloc: Global) -> bool {
    match sample_desk(alloc) {
        Some(desk) => holds_over(&desk),
        None => false,
    }
}

#[test]
fn a_request_that_meets_a_fault_acts_once(rt: HostRuntime) {
    assert!(rt; holds(rt.alloc()));
}
