//! Who calls, and what is called for: who may call for it, the bytes under which a command is kept,
//! and the ranges in which the values of a call lie.
ghost use Rattle.std.specs.Prelude.{◌≡◌, ◌++◌, IfOk};
ghost use Rattle.std.specs.List.{AllByRecursion};
ghost use Rattle.clear_money.specs.Texts.{month_text};
ghost use Rattle.clear_book.specs.declared.calls.Command.TheVariants.{AddRate, Assign, Claim};
ghost use Rattle.clear_book.specs.declared.calls.Command.TheVariants.{Correct, EndMembership};
ghost use Rattle.clear_book.specs.declared.calls.Command.TheVariants.{Register, Report, Withdraw};
ghost use Rattle.clear_book.specs.Calls.{command_bytes as kept_bytes, line_text, lines_text};
ghost use Rattle.clear_book.specs.Calls.{numbers_text};
ghost use Rattle.clear_book.specs.Calls.{IsCommand, IsReport, IsWageLine, may_do, may_query};

use crate::files::BankFile;
use crate::numbers::{ClaimNo, ListNo, RequestNo, RunNo};
use crate::texts::{Name, Reference, WageLine, WageLines};
use clear_money::bytes::append_number;
use clear_money::days::Day;
use clear_money::months::Month;
use clear_money::numbers::{Amount, EmployerNo, WorkerNo};
use clear_money::rates::RateRow;
pub use clear_values::callers::Caller;
use clear_values::ranges::rate_in_range;
use std::alloc::{AllocError, Global};

/// A firm joins: it is a member from the month `start` on.
#[derive(Drop)]
pub struct Registration {
    pub employer: EmployerNo,
    pub name: Name,
    pub start: Month,
}

/// A firm leaves: `last` is its last member month, once for good.
#[derive(Clone, Copy)]
pub struct MembershipEnd {
    pub employer: EmployerNo,
    pub last: Month,
}

/// What a firm's workers earned in a month.
#[derive(Drop)]
pub struct WageReport {
    pub employer: EmployerNo,
    pub month: Month,
    pub lines: WageLines,
}

/// What takes the place of a month's report.
#[derive(Drop)]
pub struct Correction {
    pub report: WageReport,
    /// The version that it is to replace.
    pub version: u32,
}

/// A bank line in suspense is given to a firm.
#[derive(Drop)]
pub struct Assignment {
    pub reference: Reference,
    pub employer: EmployerNo,
}

/// A firm claims the holiday pay back that it has advanced to a worker.
#[derive(Clone, Copy)]
pub struct HolidayClaim {
    pub employer: EmployerNo,
    pub worker: WorkerNo,
    pub cents: Amount,
}

/// A firm takes a claim back.
#[derive(Clone, Copy)]
pub struct Withdrawal {
    pub employer: EmployerNo,
    pub claim: ClaimNo,
}

/// What changes the book, if it is accepted.
#[derive(Drop)]
pub enum Command {
    /// The rates from a month on, behind those that stand.
    AddRate(RateRow),
    /// The clerk registers a firm.
    Register(Registration),
    /// The clerk sets the last month of a firm's membership.
    EndMembership(MembershipEnd),
    /// A month's first report.
    Report(WageReport),
    /// A report in the place of a month's latest one.
    Correct(Correction),
    /// The clerk brings in the lines of a bank file.
    ImportBank(BankFile),
    /// The clerk gives a line in suspense to a firm.
    Assign(Assignment),
    /// A firm claims holiday pay that it has advanced.
    Claim(HolidayClaim),
    /// A firm takes a claim back.
    Withdraw(Withdrawal),
    /// The clerk settles a claim.
    Release(ClaimNo),
    /// The clerk puts all that is to be paid out on a list.
    PayoutList,
    /// The clerk reminds each firm to which a reminder is due.
    RemindRun,
}

/// What is only asked.
#[derive(Clone, Copy)]
pub enum Query {
    /// What a firm owes.
    Owed { employer: EmployerNo },
    /// The statement of a firm's account.
    Statement { employer: EmployerNo },
    /// What a worker has earned, what is claimed for it, and its balance.
    Worker { worker: WorkerNo },
    /// The bank lines in suspense.
    Suspense,
    /// A payout list.
    Payout { list: ListNo },
    /// A reminder run.
    Reminder { run: RunNo },
}

/// A command or a query on a day.
#[derive(Drop)]
pub enum Call {
    Do {
        caller: Caller,
        number: RequestNo,
        day: Day,
        command: Command,
    },
    Ask {
        caller: Caller,
        day: Day,
        query: Query,
    },
}

/// Whether the caller may give the command.
pub fn may(caller: Caller, command: &Command) -> bool
    ensures { result ≡ may_do caller command.now }
{
    match caller {
        Caller::Clerk => true,
        Caller::Firm(firm) => match command {
            Command::AddRate(_) => false,
            Command::Register(_) => false,
            Command::EndMembership(_) => false,
            Command::Report(report) => firm == report.employer,
            Command::Correct(correction) => firm == correction.report.employer,
            Command::ImportBank(_) => false,
            Command::Assign(_) => false,
            Command::Claim(claim) => firm == claim.employer,
            Command::Withdraw(withdrawal) => firm == withdrawal.employer,
            Command::Release(_) => false,
            Command::PayoutList => false,
            Command::RemindRun => false,
        },
    }
}

/// Whether the caller may ask the query.
pub fn may_ask(caller: Caller, query: &Query) -> bool
    ensures { result ≡ may_query caller query.now }
{
    match caller {
        Caller::Clerk => true,
        Caller::Firm(firm) => match query {
            Query::Owed { employer } => firm == *employer,
            Query::Statement { employer } => firm == *employer,
            Query::Worker { .. } => false,
            Query::Suspense => false,
            Query::Payout { .. } => false,
            Query::Reminder { .. } => false,
        },
    }
}

/// The bytes under which a command is kept: its word and its values, with a space between them; a
/// name stands last, and so do the bytes of a bank file. Different commands have different bytes.
/// docs/formats.md has the table.
pub fn command_bytes(alloc: Global, command: &Command) -> Result<Vec<u8>, AllocError>
    ensures { IfOk result (λ bytes. bytes.items ≡ kept_bytes command.now) }
{
    let mut out = Vec::new(alloc);
    append_command(&mut out, command)?;
    Ok(out)
}

// Appends the word and the values of a command.
fn append_command(out: &mut Vec<u8>, command: &Command) -> Result<(), AllocError>
    ensures { IfOk result (λ _. out.new.items ≡ out.old.items ++ kept_bytes command.now) }
{
    match command {
        Command::AddRate(row) => append_rate(out, row),
        Command::Register(registration) => append_registration(out, registration),
        Command::EndMembership(end) => append_end(out, end),
        Command::Report(report) => append_report(out, report),
        Command::Correct(correction) => append_correction(out, correction),
        Command::ImportBank(file) => append_part(out, b"bank ", file.as_slice()),
        Command::Assign(assignment) => append_assignment(out, assignment),
        Command::Claim(claim) => append_claim(out, claim),
        Command::Withdraw(withdrawal) => append_withdrawal(out, withdrawal),
        Command::Release(claim) => append_number(out, b"release ", u64::from(claim.number())),
        Command::PayoutList => out.extend_from_slice(b"payout"),
        Command::RemindRun => out.extend_from_slice(b"remind"),
    }
}

// Appends the word and the values of a row of rates.
fn append_rate(out: &mut Vec<u8>, row: &RateRow) -> Result<(), AllocError>
    ensures { IfOk result (λ _. out.new.items ≡ out.old.items ++ kept_bytes (AddRate row.now)) }
{
    append_month(out, b"rate ", row.first())?;
    let numbers = [
        u64::from(row.contribution_rate()),
        u64::from(row.report_day()),
        u64::from(row.due_day()),
        u64::from(row.interest_rate()),
        u64::from(row.entitlement_rate()),
    ];
    append_numbers(out, &numbers)
}

// Appends numbers in decimal, each behind a space.
fn append_numbers(out: &mut Vec<u8>, numbers: &[u64]) -> Result<(), AllocError>
    ensures { IfOk result (λ _. out.new.items ≡ out.old.items ++ numbers_text numbers.now) }
{
    for number in numbers {
        append_number(out, b" ", *number)?;
    }
    Ok(())
}

// Appends the word and the values of a registration.
fn append_registration(out: &mut Vec<u8>, registration: &Registration) -> Result<(), AllocError>
    ensures { IfOk result
        (λ _. out.new.items ≡ out.old.items ++ kept_bytes (Register registration.now)) }
{
    append_number(out, b"employer ", u64::from(registration.employer.number()))?;
    append_month(out, b" ", registration.start)?;
    append_part(out, b" ", registration.name.as_str().as_bytes())
}

// Appends the word and the values of an end.
fn append_end(out: &mut Vec<u8>, end: &MembershipEnd) -> Result<(), AllocError>
    ensures { IfOk result
        (λ _. out.new.items ≡ out.old.items ++ kept_bytes (EndMembership end.now)) }
{
    append_number(out, b"end ", u64::from(end.employer.number()))?;
    append_month(out, b" ", end.last)
}

// Appends the word and the values of a report.
fn append_report(out: &mut Vec<u8>, report: &WageReport) -> Result<(), AllocError>
    ensures { IfOk result (λ _. out.new.items ≡ out.old.items ++ kept_bytes (Report report.now)) }
{
    append_number(out, b"report ", u64::from(report.employer.number()))?;
    append_month(out, b" ", report.month)?;
    append_lines(out, report.lines.as_slice())
}

// Appends the word and the values of a correction.
fn append_correction(out: &mut Vec<u8>, correction: &Correction) -> Result<(), AllocError>
    ensures { IfOk result
        (λ _. out.new.items ≡ out.old.items ++ kept_bytes (Correct correction.now)) }
{
    append_number(
        out,
        b"correct ",
        u64::from(correction.report.employer.number()),
    )?;
    append_month(out, b" ", correction.report.month)?;
    append_number(out, b" ", u64::from(correction.version))?;
    append_lines(out, correction.report.lines.as_slice())
}

// Appends the word and the values of an assignment.
fn append_assignment(out: &mut Vec<u8>, assignment: &Assignment) -> Result<(), AllocError>
    ensures { IfOk result
        (λ _. out.new.items ≡ out.old.items ++ kept_bytes (Assign assignment.now)) }
{
    let reference = assignment.reference.as_str().as_bytes();
    append_part(out, b"assign ", reference)?;
    append_number(out, b" ", u64::from(assignment.employer.number()))
}

// Appends the word and the values of a claim.
fn append_claim(out: &mut Vec<u8>, claim: &HolidayClaim) -> Result<(), AllocError>
    ensures { IfOk result (λ _. out.new.items ≡ out.old.items ++ kept_bytes (Claim claim.now)) }
{
    append_number(out, b"claim ", u64::from(claim.employer.number()))?;
    append_number(out, b" ", u64::from(claim.worker.number()))?;
    append_number(out, b" ", claim.cents.cents())
}

// Appends the word and the values of a withdrawal.
fn append_withdrawal(out: &mut Vec<u8>, withdrawal: &Withdrawal) -> Result<(), AllocError>
    ensures { IfOk result
        (λ _. out.new.items ≡ out.old.items ++ kept_bytes (Withdraw withdrawal.now)) }
{
    append_number(out, b"withdraw ", u64::from(withdrawal.employer.number()))?;
    append_number(out, b" ", u64::from(withdrawal.claim.number()))
}

// Appends two texts.
fn append_part(out: &mut Vec<u8>, before: &[u8], part: &[u8]) -> Result<(), AllocError>
    ensures { IfOk result (λ _. out.new.items ≡ out.old.items ++ before.now ++ part.now) }
{
    out.extend_from_slice(before)?;
    out.extend_from_slice(part)
}

// Appends a text, and a month.
fn append_month(out: &mut Vec<u8>, before: &[u8], month: Month) -> Result<(), AllocError>
    ensures { IfOk result (λ _. out.new.items ≡ out.old.items ++ before.now ++ month_text month) }
{
    let text = month.text();
    out.extend_from_slice(before)?;
    out.extend_from_slice(text.as_slice())
}

// Appends a line of a report, behind a space.
fn append_line(out: &mut Vec<u8>, line: &WageLine) -> Result<(), AllocError>
    ensures { IfOk result (λ _. out.new.items ≡ out.old.items ++ line_text line.now) }
{
    append_number(out, b" ", u64::from(line.worker.number()))?;
    append_number(out, b":", line.gross)
}

// Appends the lines of a report.
fn append_lines(out: &mut Vec<u8>, lines: &[WageLine]) -> Result<(), AllocError>
    ensures { IfOk result (λ _. out.new.items ≡ out.old.items ++ lines_text lines.now) }
{
    for line in lines {
        append_line(out, line)?;
    }
    Ok(())
}

/// The values of the command lie in their ranges, since each is of a type that holds no others. This
/// has no effect: a proof reads from it what the types say.
pub fn command_in_range(command: &Command)
    ensures { IsCommand command.now }
{
    match command {
        Command::AddRate(row) => rate_in_range(row),
        Command::Register(registration) => {
            let _employer = registration.employer.number();
            let _name = registration.name.as_str();
            let _start = registration.start.number();
        }
        Command::EndMembership(end) => {
            let _employer = end.employer.number();
            let _last = end.last.number();
        }
        Command::Report(report) => report_in_range(report),
        Command::Correct(correction) => {
            let _version = correction.version;
            report_in_range(&correction.report);
        }
        Command::ImportBank(_) => {}
        Command::Assign(assignment) => {
            let _reference = assignment.reference.as_str();
            let _employer = assignment.employer.number();
        }
        Command::Claim(claim) => {
            let _employer = claim.employer.number();
            let _worker = claim.worker.number();
            let _cents = claim.cents.cents();
        }
        Command::Withdraw(withdrawal) => {
            let _employer = withdrawal.employer.number();
            let _claim = withdrawal.claim.number();
        }
        Command::Release(claim) => {
            let _claim = claim.number();
        }
        Command::PayoutList => {}
        Command::RemindRun => {}
    }
}

// The values of a report lie in their ranges.
fn report_in_range(report: &WageReport)
    ensures { IsReport report.now }
{
    let _employer = report.employer.number();
    let _month = report.month.number();
    lines_in_range(report.lines.as_slice());
}

// And of its lines.
fn lines_in_range(lines: &[WageLine])
    ensures { AllByRecursion IsWageLine lines.now }
{
    for line in lines {
        line_in_range(line);
    }
}

// And of one line.
fn line_in_range(line: &WageLine)
    ensures { IsWageLine line.now }
{
    let _worker = line.worker.number();
    let _gross = line.gross;
}
