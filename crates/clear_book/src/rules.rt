//! The rules by which a call is refused: the number and the name of each, and what it carries.
ghost use Rattle.std.specs.Prelude.{◌≡◌};
ghost use Rattle.clear_bank.specs.Fields.{fault_number};
ghost use Rattle.clear_book.specs.Rules.{entry_of, known, number_of, name_of, carried_by};
ghost use Rattle.clear_book.specs.Rules.{word_of, table_word};

use clear_bank::fields::RecordFault;
use clear_money::days::Day;
use clear_money::months::Month;
use clear_money::numbers::WorkerNo;
pub use clear_values::causes::StoreCause;
use std::alloc::AllocError;

/// What a limit is set on.
#[derive(Clone, Copy)]
pub enum Limit {
    /// 50,000,000 accepted requests.
    Book,
    /// 10,000 employers.
    Employers,
    /// 500 lines in a report.
    Lines,
    /// 10,000,000 cents gross in a line.
    Gross,
    /// 10,000 versions of a month's report.
    Versions,
    /// 10,000 data records in a bank file.
    File,
    /// 100,000 lines in suspense.
    Suspense,
    /// 100,000 credits of a firm for contributions, and as many for interest.
    Credits,
}

/// A table whose rows are judged where an older store is taken over.
#[derive(Clone, Copy)]
pub enum OldTable {
    Bank,
    Rates,
    Charges,
    Pieces,
    Credits,
}

/// The rule by which a call is refused.
#[derive(Clone, Copy)]
pub enum Rule {
    /// The bytes are no head of a request.
    BadHead,
    /// The head or the body of a request is larger than it may be.
    TooLarge,
    /// How long the body of a request is isn't clear.
    BadFraming,
    /// The office has no such path.
    NoRoute,
    /// The path has no such method.
    BadMethod,
    /// The key is missing, stands twice, or is nobody's.
    UnknownKey,
    /// A firm names another firm, or gives what only a clerk may.
    NotYours,
    /// A part of the request is missing, of another kind, out of its range, or too much. Which one
    /// it is stands beside the rule, where the request is refused.
    BadBody,
    /// The caller's number stands with another command.
    NumberReused,
    /// The day lies before the ledger day, which stands here.
    DayBack(Day),
    /// No employer of that number is registered.
    UnknownEmployer,
    /// The employer is registered already.
    EmployerExists,
    /// The month is no member month; of an end, it lies before the first member month, or an end is
    /// set already.
    MonthOutside,
    /// The month lies after the month of the request's day.
    MonthAhead,
    /// The month has a report of this version.
    ReportExists(u32),
    /// The month's report has this version and not the one that the correction names; 0 where there
    /// is none.
    StaleVersion(u32),
    /// The worker stands in an earlier line too.
    WorkerTwice(WorkerNo),
    /// A limit would be passed.
    OverLimit(Limit),
    /// The first month of a rate row is not after that of the last row, or not after the request's
    /// month.
    RateOrder,
    /// A record of a bank file is not as it should be. `line` is its number from 1, the header
    /// being 1.
    BadCsv { line: u64, fault: RecordFault },
    /// The reference of the record of this number stands earlier with another content.
    RefConflict(u64),
    /// The record of this number is new and has a value date after the request's day.
    ValueAhead(u64),
    /// No line in suspense has the reference.
    NotInSuspense,
    /// No latest report of the firm has the worker.
    NotEmployed,
    /// The cents are above the worker's balance, which stands here in cents.
    OverBalance(u64),
    /// There is no claim of that number; of a withdrawal, none of that firm.
    UnknownClaim,
    /// The claim is withdrawn or released already.
    ClaimNotOpen,
    /// The firm has no report of this month, which is the first that is missing.
    MissingReport(Month),
    /// No released claim waits for a list.
    NothingToPay,
    /// No firm is due a reminder.
    NothingToRemind,
    /// The firm has a report of this month, which lies after the end; it is the greatest.
    EndBeforeReports(Month),
    /// The membership would begin before the first rate row.
    NoRate,
    /// There is no list or run of that number.
    UnknownDocument,
    /// There was no memory. Nothing was changed, and the office goes on.
    Memory,
    /// The records could not be read or written. To every further request the office answers `Failed`.
    Store(StoreCause),
    /// The office has failed before.
    Failed,
    /// The store has this schema number, which isn't the program's.
    WrongVersion(u64),
    /// A row of this table of an older store is out of its range.
    BadOldRow(OldTable),
}

/// What a rule carries, as far as it is told.
#[derive(Clone, Copy)]
pub enum Carried {
    Nothing,
    Day(Day),
    Month(Month),
    Number(u64),
    /// A record of a file: `line` is its number from 1, `field` that of its bad field from 1, or 0
    /// where it has another number of fields.
    Field { line: u64, field: u8 },
    Limit(Limit),
    Table(OldTable),
}

/// How a rule is known, and what it carries.
#[derive(Drop)]
struct RuleEntry {
    number: u8,
    name: &'static str,
    carried: Carried,
}

impl From<AllocError> for Rule {
    ghost use Rattle.clear_book.specs.declared.rules.Rule.TheVariants.{Memory};

    ghost from_gives = { λ _ rule. rule ≡ Memory };

    fn from(_error: AllocError) -> Rule {
        Rule::Memory
    }
}

impl Rule {
    /// The number under which the rule is known: 1 to 33, and 40 to 44.
    pub fn number(self) -> u8
        ensures { result ≡ number_of self }
    {
        self.entry().number
    }

    /// The name under which the rule is known.
    pub fn name(self) -> &'static str
        ensures { result.now ≡ name_of self }
    {
        self.entry().name
    }

    /// What is told of the rule besides its name.
    pub fn carried(self) -> Carried
        ensures { result ≡ carried_by self }
    {
        self.entry().carried
    }

    // The one table of all rules.
    fn entry(self) -> RuleEntry
        ensures { known result ≡ entry_of self }
    {
        match self {
            Rule::BadHead => entry(1, "BadHead", Carried::Nothing),
            Rule::TooLarge => entry(2, "TooLarge", Carried::Nothing),
            Rule::BadFraming => entry(3, "BadFraming", Carried::Nothing),
            Rule::NoRoute => entry(4, "NoRoute", Carried::Nothing),
            Rule::BadMethod => entry(5, "BadMethod", Carried::Nothing),
            Rule::UnknownKey => entry(6, "UnknownKey", Carried::Nothing),
            Rule::NotYours => entry(7, "NotYours", Carried::Nothing),
            Rule::BadBody => entry(8, "BadBody", Carried::Nothing),
            Rule::NumberReused => entry(9, "NumberReused", Carried::Nothing),
            Rule::DayBack(day) => entry(10, "DayBack", Carried::Day(day)),
            Rule::UnknownEmployer => entry(11, "UnknownEmployer", Carried::Nothing),
            Rule::EmployerExists => entry(12, "EmployerExists", Carried::Nothing),
            Rule::MonthOutside => entry(13, "MonthOutside", Carried::Nothing),
            Rule::MonthAhead => entry(14, "MonthAhead", Carried::Nothing),
            Rule::ReportExists(version) => numbered(15, "ReportExists", u64::from(version)),
            Rule::StaleVersion(version) => numbered(16, "StaleVersion", u64::from(version)),
            Rule::WorkerTwice(worker) => numbered(17, "WorkerTwice", u64::from(worker.number())),
            Rule::OverLimit(limit) => entry(18, "OverLimit", Carried::Limit(limit)),
            Rule::RateOrder => entry(19, "RateOrder", Carried::Nothing),
            Rule::BadCsv { line, fault } => entry(20, "BadCsv", bad_record(line, fault)),
            Rule::RefConflict(number) => numbered(21, "RefConflict", number),
            Rule::ValueAhead(number) => numbered(22, "ValueAhead", number),
            Rule::NotInSuspense => entry(23, "NotInSuspense", Carried::Nothing),
            Rule::NotEmployed => entry(24, "NotEmployed", Carried::Nothing),
            Rule::OverBalance(number) => numbered(25, "OverBalance", number),
            Rule::UnknownClaim => entry(26, "UnknownClaim", Carried::Nothing),
            Rule::ClaimNotOpen => entry(27, "ClaimNotOpen", Carried::Nothing),
            Rule::MissingReport(month) => entry(28, "MissingReport", Carried::Month(month)),
            Rule::NothingToPay => entry(29, "NothingToPay", Carried::Nothing),
            Rule::NothingToRemind => entry(30, "NothingToRemind", Carried::Nothing),
            Rule::EndBeforeReports(month) => entry(31, "EndBeforeReports", Carried::Month(month)),
            Rule::NoRate => entry(32, "NoRate", Carried::Nothing),
            Rule::UnknownDocument => entry(33, "UnknownDocument", Carried::Nothing),
            Rule::Memory => entry(40, "Memory", Carried::Nothing),
            Rule::Store(_) => entry(41, "Store", Carried::Nothing),
            Rule::Failed => entry(42, "Failed", Carried::Nothing),
            Rule::WrongVersion(number) => numbered(43, "WrongVersion", number),
            Rule::BadOldRow(table) => entry(44, "BadOldRow", Carried::Table(table)),
        }
    }
}

// What is told of a bad record.
fn bad_record(line: u64, fault: RecordFault) -> Carried
    ensures { result ≡ Carried.Field line (fault_number fault) }
{
    Carried::Field {
        line,
        field: fault.number(),
    }
}

// The entry of a rule that carries a number.
fn numbered(number: u8, name: &'static str, carried: u64) -> RuleEntry
    ensures { known result ≡ record {
      number = number;
      name = name.now;
      carried = Carried.Number carried;
    } }
{
    entry(number, name, Carried::Number(carried))
}

// The entry of a rule, and what it carries.
fn entry(number: u8, name: &'static str, carried: Carried) -> RuleEntry
    ensures { known result ≡ record { number = number; name = name.now; carried = carried } }
{
    RuleEntry {
        number,
        name,
        carried,
    }
}

impl Limit {
    /// The word that names the limit.
    pub fn word(self) -> &'static str
        ensures { result.now ≡ word_of self }
    {
        match self {
            Limit::Book => "book",
            Limit::Employers => "employers",
            Limit::Lines => "lines",
            Limit::Gross => "gross",
            Limit::Versions => "versions",
            Limit::File => "file",
            Limit::Suspense => "suspense",
            Limit::Credits => "credits",
        }
    }
}

impl OldTable {
    /// The name of the table.
    pub fn word(self) -> &'static str
        ensures { result.now ≡ table_word self }
    {
        match self {
            OldTable::Bank => "bank",
            OldTable::Rates => "rates",
            OldTable::Charges => "charges",
            OldTable::Pieces => "pieces",
            OldTable::Credits => "credits",
        }
    }
}
