//! Lists of calls that an office takes at once.
use crate::runs::{Act, Desk, is_right};
use clear_book::calls::{Call, Caller, Command, Query, Registration, WageReport};
use clear_book::files::BankFile;
use clear_book::numbers::RequestNo;
use clear_book::outcomes::{Answer, Outcome, Reply};
use clear_book::texts::{Name, WageLine, WageLines};
use clear_money::days::Day;
use clear_money::months::Month;
use clear_money::numbers::{EmployerNo, WorkerNo};
use clear_office::office::Office;
use sqlite::Alter;
use std::alloc::Global;

const FILE: &str = "reference,value_date,employer,cents,purpose,note\n\
    B1,2024-02-25,1001,150000,C,\nB2,2024-04-21,1001,200000,,January rest\n";

fn employer() -> Option<EmployerNo> {
    EmployerNo::new(1001)
}

fn day() -> Option<Day> {
    Day::read(b"2024-04-30")
}

fn command(number: u64, command: Command) -> Option<Call> {
    Some(Call::Do {
        caller: Caller::Clerk,
        number: RequestNo::new(number)?,
        day: day()?,
        command,
    })
}

/// The registration of the first firm, the clerk's first request.
pub(crate) fn register(alloc: Global) -> Option<Call> {
    let employer = employer()?;
    let start = Month::read(b"2024-01")?;
    let text = String::from_str(alloc, "Bau Nord").ok()?;
    let name = Name::new(text)?;
    command(
        1,
        Command::Register(Registration {
            employer,
            name,
            start,
        }),
    )
}

fn report(alloc: Global, number: u64, month: &[u8], gross: u64) -> Option<Call> {
    let employer = employer()?;
    let month = Month::read(month)?;
    let worker = WorkerNo::new(7)?;
    let lines = vec![in alloc; WageLine { worker, gross }].ok()?;
    let report = WageReport {
        employer,
        month,
        lines: WageLines::new(lines),
    };
    command(number, Command::Report(report))
}

fn import(alloc: Global) -> Option<Call> {
    let bytes = Vec::from_slice(alloc, FILE.as_bytes()).ok()?;
    command(4, Command::ImportBank(BankFile::new(bytes)))
}

fn ask() -> Option<Call> {
    let employer = employer()?;
    Some(Call::Ask {
        caller: Caller::Firm(employer),
        day: day()?,
        query: Query::Owed { employer },
    })
}

// A first account, one call after another.
fn first_account(alloc: Global) -> Option<Vec<Call>> {
    let mut calls = Vec::new(alloc);
    let is_full = add(&mut calls, register(alloc))
        && add(&mut calls, report(alloc, 2, b"2024-01", 1_000_000))
        && add(&mut calls, report(alloc, 3, b"2024-02", 500_050))
        && add(&mut calls, import(alloc))
        && add(&mut calls, ask());
    if is_full { Some(calls) } else { None }
}

fn add(calls: &mut Vec<Call>, call: Option<Call>) -> bool {
    match call {
        Some(call) => calls.push(call).is_ok(),
        None => false,
    }
}

// Whether this is what a firm owes that has charges of 300,010 cents and paid 350,000.
fn is_owed(outcome: &Outcome) -> bool {
    match outcome {
        Outcome::Answered(
            Answer::Owed {
                charged,
                credited,
                arrears,
                prepaid,
            },
        ) => *charged == 300_010 && *credited == 350_000 && *arrears == 0 && *prepaid == 49_990,
        _ => false,
    }
}

pub(crate) fn is_done(outcome: &Outcome) -> bool {
    matches!(outcome, Outcome::Replied(Reply::Done))
}

fn is_reported(outcome: &Outcome, cents: u64) -> bool {
    match outcome {
        Outcome::Replied(Reply::Reported { version, charge }) => *version == 1 && *charge == cents,
        _ => false,
    }
}

fn is_imported(outcome: &Outcome) -> bool {
    matches!(
        outcome,
        Outcome::Replied(Reply::Imported { new: 2, repeats: 0 })
    )
}

fn is_first_account(outcomes: &[Outcome]) -> bool {
    match outcomes {
        [registered, january, february, imported, owed] => {
            is_done(registered)
                && is_reported(january, 200_000)
                && is_reported(february, 100_010)
                && is_imported(imported)
                && is_owed(owed)
        }
        _ => false,
    }
}

// Calls that are given at once.
#[derive(Drop)]
struct AtOnce {
    calls: Vec<Call>,
}

impl Act for AtOnce {
    // No calls, and then these, one after another.
    fn is_right<S: Alter>(&mut self, desk: &Desk, office: &mut Office<S>) -> bool {
        let is_empty = match office.run(desk.alloc, &[]) {
            Ok(outcomes) => outcomes.is_empty(),
            Err(_) => false,
        };
        match office.run(desk.alloc, self.calls.as_slice()) {
            Ok(outcomes) => is_empty && is_first_account(outcomes.as_slice()),
            Err(_) => false,
        }
    }
}

/// An office takes calls that are given at once.
pub(crate) fn all_hold(desk: &Desk) -> bool {
    match first_account(desk.alloc) {
        Some(calls) => is_right(desk, &mut AtOnce { calls }),
        None => false,
    }
}
