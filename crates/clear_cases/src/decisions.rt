//! Decisions at the limits that no request file comes to, and the bytes under which commands are
//! kept.
use clear_book::calls::{
    Command, Correction, HolidayClaim, Registration, WageReport, Withdrawal, command_bytes,
};
use clear_book::files::BankFile;
use clear_book::numbers::{ClaimNo, SerialCount};
use clear_book::rows::{ClaimRow, ClaimState, Decision, EmployerRow};
use clear_book::rules::{Limit, Rule};
use clear_book::texts::{Name, WageLine, WageLines};
use clear_money::days::Day;
use clear_money::months::Month;
use clear_money::numbers::{Amount, EmployerNo, WorkerNo};
use clear_rules::decide::correct::decide_correct;
use clear_rules::decide::import::{EmployerCredits, ImportView, decide_import, file_lines};
use clear_rules::decide::register::{RegisterView, decide_register};
use clear_rules::decide::release::{FirmDebts, OwingClaim, ReleaseView, decide_release};
use clear_rules::decide::report::ReportView;
use std::alloc::Global;

// The registration of firm 1001 from January 2024 on.
fn registration(alloc: Global) -> Option<Registration> {
    let text = String::from_str(alloc, "Bau Nord").ok()?;
    Some(Registration {
        employer: EmployerNo::new(1001)?,
        name: Name::new(text)?,
        start: Month::read(b"2024-01")?,
    })
}

// A report of firm 1001 for January 2024, with a line for each worker and gross amount.
fn report(alloc: Global, lines: &[(u64, u64)]) -> Option<WageReport> {
    let mut wages = Vec::new(alloc);
    for (worker, gross) in lines {
        let worker = WorkerNo::new(*worker)?;
        wages
            .push(WageLine {
                worker,
                gross: *gross,
            })
            .ok()?;
    }
    Some(WageReport {
        employer: EmployerNo::new(1001)?,
        month: Month::read(b"2024-01")?,
        lines: WageLines::new(wages),
    })
}

// The day on which all is decided.
fn today() -> Option<Day> {
    Day::read(b"2024-04-30")
}

// What a decision comes to, in a word.
fn told(decided: Result<Decision, Rule>) -> &'static str {
    match decided {
        Ok(_) => "taken",
        Err(Rule::OverLimit(Limit::Employers)) => "employers",
        Err(Rule::OverLimit(Limit::Suspense)) => "suspense",
        Err(Rule::OverLimit(Limit::Credits)) => "credits",
        Err(Rule::OverLimit(Limit::Versions)) => "versions",
        Err(_) => "another rule",
    }
}

// A registration where there are so many employers.
fn registered(alloc: Global, employer_count: u64) -> Option<&'static str> {
    let registration = registration(alloc)?;
    let view = RegisterView {
        registered: false,
        employer_count,
        has_rate: true,
    };
    Some(told(decide_register(today()?, &registration, &view)))
}

// Firm 1001 has so many credits for contributions, and so many lines are in suspense.
fn view(alloc: Global, suspense: u64, contribution_count: u64) -> Option<ImportView> {
    let employer = EmployerCredits {
        employer: EmployerNo::new(1001)?,
        contribution_count,
        interest_count: 0,
    };
    let serials = SerialCount::new(200_000)?;
    let Ok(employers) = vec![in alloc; employer] else {
        return None;
    };
    Some(ImportView {
        known: Vec::new(alloc),
        employers,
        suspense,
        serials,
    })
}

// A line of firm 1001, and one of nobody.
const LINES: &str = "reference,value_date,employer,cents,purpose,note\n\
    B1,2024-04-01,1001,1,,\nB2,2024-04-01,,1,,\n";

// Both lines, where the firm has so many credits and so many lines are in suspense.
fn imported(alloc: Global, suspense: u64, contribution_count: u64) -> Option<&'static str> {
    let bytes = Vec::from_slice(alloc, LINES.as_bytes()).ok()?;
    let file = BankFile::new(bytes);
    let view = view(alloc, suspense, contribution_count)?;
    let lines = file_lines(alloc, &file).ok()?;
    Some(told(decide_import(alloc, today()?, lines.as_slice(), &view)))
}

// The row of firm 1001.
fn employer(alloc: Global) -> Option<EmployerRow> {
    let registration = registration(alloc)?;
    Some(EmployerRow {
        employer: registration.employer,
        name: registration.name,
        start: registration.start,
        last: None,
    })
}

// A correction of this version of a month without lines.
fn corrected(alloc: Global, version: u32) -> Option<&'static str> {
    let report = report(alloc, &[])?;
    let view = ReportView {
        member: Some(employer(alloc)?),
        version: Some(version),
        row: None,
    };
    let correction = Correction { report, version };
    Some(told(decide_correct(alloc, today()?, &correction, &view)))
}

#[test]
fn the_last_ones_are_taken(rt: HostRuntime) {
    let alloc = rt.alloc();
    assert!(rt; registered(alloc, 9_999) == Some("taken"));
    assert!(rt; registered(alloc, 10_000) == Some("employers"));
    assert!(rt; imported(alloc, 99_999, 99_999) == Some("taken"));
    assert!(rt; imported(alloc, 100_000, 100_000) == Some("suspense"));
    assert!(rt; imported(alloc, 99_999, 100_000) == Some("credits"));
    assert!(rt; corrected(alloc, 9_999) == Some("taken"));
    assert!(rt; corrected(alloc, 10_000) == Some("versions"));
}

// The release of an open claim of 100 cents, whose firm owes this and has so many credits.
fn released(
    arrears: u64,
    interest_arrears: u64,
    contribution_count: u64,
    interest_count: u64,
) -> Option<&'static str> {
    let claim = ClaimRow {
        claim: ClaimNo::new(1)?,
        employer: EmployerNo::new(1001)?,
        worker: WorkerNo::new(7)?,
        cents: Amount::new(100)?,
        made: today()?,
        state: ClaimState::Open,
    };
    let debts = FirmDebts {
        first_missing: None,
        arrears,
        interest_arrears,
        contribution_count,
        interest_count,
    };
    let view = ReleaseView {
        found: Some(OwingClaim { claim, debts }),
        serials: SerialCount::new(200_000)?,
    };
    Some(told(decide_release(today()?, &view)))
}

#[test]
fn the_last_set_offs_are_taken(rt: HostRuntime) {
    assert!(rt; released(60, 40, 99_999, 99_999) == Some("taken"));
    assert!(rt; released(60, 40, 100_000, 0) == Some("credits"));
    assert!(rt; released(60, 40, 0, 100_000) == Some("credits"));
    // Nothing is set off for the purpose that has no room.
    assert!(rt; released(0, 40, 100_000, 0) == Some("taken"));
    assert!(rt; released(100, 40, 0, 100_000) == Some("taken"));
}

// Whether a command is kept as this text.
fn is_kept_as(alloc: Global, command: Option<Command>, text: &str) -> bool {
    match command {
        Some(command) => match command_bytes(alloc, &command) {
            Ok(bytes) => bytes.as_slice() == text.as_bytes(),
            Err(_) => false,
        },
        None => false,
    }
}

fn reports(alloc: Global, lines: &[(u64, u64)]) -> Option<Command> {
    Some(Command::Report(report(alloc, lines)?))
}

fn registers(alloc: Global) -> Option<Command> {
    Some(Command::Register(registration(alloc)?))
}

// Version 2 of the month: worker 7 alone.
fn corrects(alloc: Global) -> Option<Command> {
    let report = report(alloc, &[(7, 500_000)])?;
    Some(Command::Correct(Correction { report, version: 1 }))
}

fn imports(alloc: Global, file: &[u8]) -> Option<Command> {
    let bytes = Vec::from_slice(alloc, file).ok()?;
    Some(Command::ImportBank(BankFile::new(bytes)))
}

#[test]
fn commands_are_kept_as_texts(rt: HostRuntime) {
    let alloc = rt.alloc();
    assert!(rt; is_kept_as(alloc, registers(alloc), "employer 1001 2024-01 Bau Nord"));
    let two = reports(alloc, &[(7, 1_000_000), (8, 50_000)]);
    assert!(rt; is_kept_as(alloc, two, "report 1001 2024-01 7:1000000 8:50000"));
    assert!(rt; is_kept_as(alloc, reports(alloc, &[]), "report 1001 2024-01"));
    assert!(rt; is_kept_as(alloc, corrects(alloc), "correct 1001 2024-01 1 7:500000"));
    assert!(rt;
        is_kept_as(
            alloc,
            imports(alloc, b"reference\nB1,2"),
            "bank reference\nB1,2"
        )
    );
}

fn claims() -> Option<Command> {
    Some(Command::Claim(HolidayClaim {
        employer: EmployerNo::new(1001)?,
        worker: WorkerNo::new(7)?,
        cents: Amount::new(10_000)?,
    }))
}

fn withdraws() -> Option<Command> {
    Some(Command::Withdraw(Withdrawal {
        employer: EmployerNo::new(1001)?,
        claim: ClaimNo::new(1)?,
    }))
}

fn releases() -> Option<Command> {
    Some(Command::Release(ClaimNo::new(1)?))
}

#[test]
fn commands_on_claims_are_kept_as_texts(rt: HostRuntime) {
    let alloc = rt.alloc();
    assert!(rt; is_kept_as(alloc, claims(), "claim 1001 7 10000"));
    assert!(rt; is_kept_as(alloc, withdraws(), "withdraw 1001 1"));
    assert!(rt; is_kept_as(alloc, releases(), "release 1"));
    assert!(rt; is_kept_as(alloc, Some(Command::PayoutList), "payout"));
}
