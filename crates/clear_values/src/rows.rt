//! The rows of the tables, and what a decision changes in them.
ghost use Rattle.std.specs.Prelude.{◌≡◌};

use crate::lines::{BankLine, Purpose};
use crate::numbers::{ClaimNo, ListNo, RunNo};
use crate::replies::{Reply, Settlement};
use crate::texts::{CreditReference, Name, WageLines};
use clear_money::days::Day;
use clear_money::months::Month;
use clear_money::numbers::{Amount, EmployerNo, WorkerNo};
use clear_money::rates::RateRow;
use std::marker::Model;

/// A registered employer.
#[derive(Drop)]
pub struct EmployerRow {
    pub employer: EmployerNo,
    pub name: Name,
    /// The first member month.
    pub start: Month,
    /// The last member month, once an end is set.
    pub last: Option<Month>,
}

impl EmployerRow {
    ghost use Rattle.clear_values.specs.Members.{is_member_in};
    ghost use Rattle.clear_values.specs.Tables.{member_in};

    /// Whether the employer is a member in a month.
    pub fn is_member_in(&self, month: Month) -> bool
        ensures { result ≡ is_member_in (member_in self.now) month }
    {
        match self.last {
            Some(last) => self.start <= month && month <= last,
            None => self.start <= month,
        }
    }
}

/// The latest report of an employer's month.
#[derive(Clone, Copy)]
pub struct ReportRow {
    pub employer: EmployerNo,
    pub month: Month,
    /// 1 for the first report, and one more for each correction; at most 10,000.
    pub version: u32,
}

/// A worker's line in the latest report of a month.
#[derive(Clone, Copy)]
pub struct WageRow {
    pub employer: EmployerNo,
    pub month: Month,
    pub worker: WorkerNo,
    /// Cents, at most 10,000,000.
    pub gross: u64,
}

/// The contribution for the latest report of a month, as it is kept.
#[derive(Clone, Copy)]
pub struct KeptCharge {
    pub employer: EmployerNo,
    pub month: Month,
    /// The day on which it is due.
    pub due: Day,
    /// Cents, at most 5,000,000,000.
    pub cents: u64,
    /// What is open of it: its cents less those of its pieces.
    pub left: u64,
    /// Its weight so far: the cents of its pieces, each once for each month begun from the due day
    /// until it was paid; at most 12,060,000,000,000.
    pub weight: u64,
}

/// A bank line that came in, and counts.
#[derive(Drop)]
pub struct BankRow {
    pub line: BankLine,
    /// Its number among all bank lines and releases of the office, 1 to 500,000,000,000.
    pub serial: u64,
    /// The firm that it is for. None while it is in suspense.
    pub employer: Option<EmployerNo>,
}

/// A credit of a firm: a bank line that is for it, or a set-off of a release.
#[derive(Drop)]
pub struct CreditRow {
    pub employer: EmployerNo,
    pub purpose: Purpose,
    /// The day from which it counts as paid: the line's value date, or the day of the release.
    pub day: Day,
    /// The serial of the bank line, or of the release.
    pub serial: u64,
    pub cents: Amount,
    pub reference: CreditReference,
}

/// What a credit pays of the contribution of a month: in a lawful book 1 cent or more, and at most the
/// contribution, which the range of a row doesn't ask for.
#[derive(Drop)]
pub struct PieceRow {
    pub employer: EmployerNo,
    pub month: Month,
    /// The day of the credit.
    pub day: Day,
    /// The serial of the credit.
    pub serial: u64,
    /// Cents, at most 5,000,000,000.
    pub cents: u64,
    /// The reference of the credit.
    pub reference: CreditReference,
}

/// A firm's claim for the holiday pay that it has advanced to a worker.
#[derive(Clone, Copy)]
pub struct ClaimRow {
    pub claim: ClaimNo,
    pub employer: EmployerNo,
    pub worker: WorkerNo,
    pub cents: Amount,
    /// The day on which it was made.
    pub made: Day,
    pub state: ClaimState,
}

/// How a claim stands.
#[derive(Clone, Copy)]
pub enum ClaimState {
    /// Neither withdrawn nor released.
    Open,
    /// Taken back by its firm.
    Withdrawn,
    /// Settled.
    Released(ReleasedClaim),
}

impl ClaimState {
    ghost use Rattle.std.specs.Prelude.{◌≡◌};
    ghost use Rattle.clear_values.specs.Payouts.{is_open, is_payable, is_withdrawn, paid_out};

    /// Whether the claim is neither withdrawn nor released.
    pub fn is_open(&self) -> bool
        ensures { result ≡ is_open self.now }
    {
        match self {
            ClaimState::Open => true,
            ClaimState::Withdrawn => false,
            ClaimState::Released(_) => false,
        }
    }

    /// Whether the claim was taken back by its firm.
    pub fn is_withdrawn(&self) -> bool
        ensures { result ≡ is_withdrawn self.now }
    {
        match self {
            ClaimState::Open => false,
            ClaimState::Withdrawn => true,
            ClaimState::Released(_) => false,
        }
    }

    /// Whether something of the claim is still to be paid out: it is released with something paid, and
    /// on no list yet.
    pub fn is_payable(&self) -> bool
        ensures { result ≡ is_payable self.now }
    {
        match self {
            ClaimState::Open => false,
            ClaimState::Withdrawn => false,
            ClaimState::Released(release) => {
                release.settlement.paid > 0 && release.list.is_none()
            }
        }
    }

    /// What is paid out of the claim, in cents: nothing before it is released.
    pub fn paid_out(&self) -> u64
        ensures { result ≡ paid_out self.now }
    {
        match self {
            ClaimState::Open => 0,
            ClaimState::Withdrawn => 0,
            ClaimState::Released(release) => release.settlement.paid,
        }
    }
}

/// When a claim was released, and how it was settled.
#[derive(Clone, Copy)]
pub struct ReleasedClaim {
    pub day: Day,
    pub settlement: Settlement,
    /// The payout list that it is on, if it is on one.
    pub list: Option<ListNo>,
}

/// A payout list.
#[derive(Clone, Copy)]
pub struct ListRow {
    pub list: ListNo,
    /// The day on which it was made.
    pub day: Day,
    /// How many claims are on it, at least one.
    pub items: u64,
    /// What it pays out, in cents.
    pub total: u64,
}

/// A reminder run.
#[derive(Clone, Copy)]
pub struct RunRow {
    pub run: RunNo,
    /// The day on which it was made.
    pub day: Day,
    /// How many firms were reminded, at least one.
    pub firms: u64,
}

/// A firm's reminder in a run.
#[derive(Clone, Copy)]
pub struct ReminderRow {
    pub run: RunNo,
    pub employer: EmployerNo,
    /// 1 to 3.
    pub level: u8,
    /// How many months had no report, at most 2,400.
    pub missing: u32,
    /// The first of them.
    pub first: Option<Month>,
    /// Cents in arrears.
    pub arrears: u64,
    /// Cents of interest in arrears.
    pub interest: u64,
}

/// Rows of one table, whatever they are. A contract sees a list.
#[derive(Drop)]
pub struct Rows<T> {
    rows: Vec<T>,
}

impl<T> Model for Rows<T> {
    ghost use Rattle.std.specs.Prelude.{List};

    ghost Value = { List T };

    ghost view = { λ a. a.rows.items };
}

impl<T> Rows<T> {
    /// These rows.
    pub fn new(rows: Vec<T>) -> Rows<T>
        ensures { result ≡ rows.items }
    {
        Rows { rows }
    }

    /// The rows in their order.
    pub fn as_slice(&self) -> &[T]
        ensures { result.now ≡ self.now }
    {
        self.rows.as_slice()
    }
}

/// What an accepted command changes.
#[derive(Drop)]
pub enum Change {
    /// A row of rates, behind the last one.
    AddRate(RateRow),
    /// An employer that was not there.
    AddEmployer(EmployerRow),
    /// An employer whose membership ends: its row stands in the place of that of its number.
    EndMembership(EmployerRow),
    /// A first report, with a wage row for each of its lines, and the contribution for it.
    AddReport(ReportRow, WageLines, KeptCharge),
    /// A correction: its row and its wage rows stand in the place of the month's. So does the
    /// contribution for it, unless the month's has the same cents and is due on the same day: that
    /// stays, with what is paid of it. Where none is kept of the month, none is added.
    ReplaceReport(ReportRow, WageLines, KeptCharge),
    /// The new lines of a bank file; each that has a firm is a credit of it.
    AddBankLines(Rows<BankRow>),
    /// A line that goes out of suspense: its row stands in the place of that of its reference, and
    /// it is a credit of its firm.
    AssignLine(BankRow),
    /// A claim that was not there.
    AddClaim(ClaimRow),
    /// A claim that is withdrawn; its row stands in the place of that of its number.
    WithdrawClaim(ClaimRow),
    /// A payout list that was not there, and the claims that go on it: the row of each stands in
    /// the place of that of its number.
    AddList(ListRow, Rows<ClaimRow>),
    /// A reminder run that was not there, and its reminders.
    AddRun(RunRow, Rows<ReminderRow>),
    /// A claim that is released: its row stands in the place of that of its number, and each of
    /// its set-offs above 0 is a credit of its firm with the serial of the release.
    ReleaseClaim { claim: ClaimRow, serial: u64 },
}

/// What is changed, and what is replied.
#[derive(Drop)]
pub struct Decision {
    pub change: Change,
    pub reply: Reply,
}
