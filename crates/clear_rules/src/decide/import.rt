//! The decision on a bank file.
ghost use Rattle.std.specs.Prelude.{◌≡◌, ◌≤◌, ◌<◌, ◌-◌, ◌∷◌, ℕ, All, Err, IfErr, IfOk, List, OnOk};
ghost use Rattle.std.specs.Prelude.{length};
ghost use Rattle.std.specs.List.{find};
ghost use Rattle.clear_bank.specs.Files.{file_lines};
ghost use Rattle.clear_bank.specs.Newness.{judgement, new_places};
ghost use Rattle.clear_bank.specs.declared.lines.BankLine.{BankLine};
ghost use Rattle.clear_book.specs.declared.calls.Command.TheVariants.{ImportBank as DoImport};
ghost use Rattle.clear_book.specs.declared.rows.BankRow.{BankRow};
ghost use Rattle.clear_book.specs.Book.{Book};
ghost use Rattle.clear_book.specs.Checks.{first_of};
ghost use Rattle.clear_book.specs.Limits.{most_records};
ghost use Rattle.clear_book.specs.Lines.{lines_in, new_lines, rows_from};
ghost use Rattle.clear_book.specs.Own.ImportBank.{ahead_rule, fault_rule, import_reply, is_ahead};
ghost use Rattle.clear_book.specs.Own.ImportBank.{limit_rules, rule_of};
ghost use Rattle.clear_rules.specs.Counts.{is_indexed};
ghost use Rattle.clear_rules.specs.Decisions.{Refuses, Obeys, IsJudged, TakesTables};
ghost use Rattle.clear_rules.specs.Views.ImportBank.{IsImportView, ReadsAs, credits_then};
ghost use Rattle.clear_rules.specs.Views.ImportBank.{import_rule, is_registered_by, rows_viewed};
ghost use Rattle.clear_rules.specs.Views.ImportBank.{suspense_then};

mod counts;

use clear_bank::fault::{BankFault, FIRST_ROW};
use clear_bank::files::read_file;
use clear_bank::lines::BankLine;
use clear_bank::newness::{Judged, judge_file};
use clear_book::files::BankFile;
use clear_book::limits::MAX_RECORDS;
use clear_book::numbers::SerialCount;
use clear_book::outcomes::Reply;
use clear_book::rows::{BankRow, Change, Decision, Rows};
use clear_book::rules::{Limit, Rule};
use clear_money::days::Day;
use clear_money::numbers::EmployerNo;
use counts::{check_limits, employer_of, index_employers};
use std::alloc::{AllocError, Global};
use std::collections::BTreeMap;

/// How many credits a registered employer has.
#[derive(Clone, Copy)]
pub struct EmployerCredits {
    pub employer: EmployerNo,
    /// The number of its credits for contributions, not their cents; or a number that is no less,
    /// and with the file's new lines within the limit.
    pub contribution_count: u64,
    /// The number of its credits for interest; or a number that is no less, and with the file's
    /// new lines within the limit.
    pub interest_count: u64,
}

/// What a bank file is judged by.
#[derive(Drop)]
pub struct ImportView {
    /// The lines seen so far that stand under the references of the file, in any order; others do
    /// no harm.
    pub known: Vec<BankLine>,
    /// The registered ones of the employers that the file names, in any order; others do no harm.
    pub employers: Vec<EmployerCredits>,
    /// How many lines are in suspense; or a number that is no less, and with the file's new lines
    /// within the limit.
    pub suspense: u64,
    /// How many serials were given.
    pub serials: SerialCount,
}

/// The lines of a bank file: `OverLimit` above 10,000 data records, and `BadCsv`, in this order. A
/// file that doesn't begin with the letter r is `BadCsv` of the header before all else. `Memory` may
/// stand in place of any answer. These are the first of the own rules on a bank file.
pub fn file_lines(alloc: Global, file: &BankFile) -> Result<Vec<BankLine>, Rule>
    // A refusal is the judge's, whatever the book and the day, but for want of memory.
    ensures judged { (b : Book) (day : ℕ)
        → IfErr result (λ rule. IsJudged b day (DoImport file.now) (Err rule)) }
    ensures rule { Refuses result (fault_rule (file_lines most_records file.now)) }
    ensures reads { IfOk result (λ lines. ReadsAs file.now lines.items) }
{
    match read_file(alloc, file.as_slice(), MAX_RECORDS) {
        Ok(lines) => Ok(lines),
        Err(fault) => Err(rule_of(fault)),
    }
}

/// Decides on the lines of a bank file on the request's day: `RefConflict`, `ValueAhead`,
/// `OverLimit` above 100,000 lines in suspense, `OverLimit` above 100,000 credits of an employer
/// for one purpose, in this order. The last two are judged on what stands after the file. `Memory`
/// may stand in place of any answer.
///
/// An accepted file adds a row for each of its new lines, and is answered how many there are and
/// how many repeat a line. It costs n log n steps for n lines of the file and of the view.
pub fn decide_import(
    alloc: Global,
    day: Day,
    lines: &[BankLine],
    view: &ImportView,
) -> Result<Decision, Rule>
    // Of a file that reads as these lines, the answer is the judge's, where the view is the book's,
    // but for want of memory.
    ensures judged { (b : Book) (file : List ℕ) → ReadsAs file lines.now
        → IsImportView b file view.now → IsJudged b day (DoImport file) result }
    // Where the judge gives the reply, the change takes the tables of a lawful book to those of the
    // next.
    ensures change { (b : Book) (file : List ℕ) → ReadsAs file lines.now
        → IsImportView b file view.now → IfOk result (TakesTables b day (DoImport file)) }
    ensures rule { (file : List ℕ) → ReadsAs file lines.now
        → Refuses result (import_rule view.now day file) }
    ensures made { (file : List ℕ) → ReadsAs file lines.now → IfOk result (λ decision.
        decision.change ≡ Change.AddBankLines (rows_viewed view.now file)) }
    ensures reply { (file : List ℕ) → ReadsAs file lines.now → IfOk result (λ decision.
        decision.reply ≡ import_reply (rows_viewed view.now file) file) }
    ensures few { (file : List ℕ) → ReadsAs file lines.now
        → OnOk result (length (rows_viewed view.now file) ≤ most_records) }
{
    let brought = import_rows(alloc, day, lines, view)?;
    let new = brought.rows.len() as u64;
    Ok(Decision {
        change: Change::AddBankLines(Rows::new(brought.rows)),
        reply: Reply::Imported {
            new,
            repeats: brought.repeats as u64,
        },
    })
}

// The rows that a file brings, and how many of its lines are repeats.
#[derive(Drop)]
struct NewRows {
    rows: Vec<BankRow>,
    repeats: usize,
}

// What the lines of a file bring, unless a rule applies.
fn import_rows(
    alloc: Global,
    day: Day,
    lines: &[BankLine],
    view: &ImportView,
) -> Result<NewRows, Rule>
    ensures rule { (file : List ℕ) → ReadsAs file lines.now
        → Refuses result (import_rule view.now day file) }
    ensures rows { (file : List ℕ) → ReadsAs file lines.now
        → IfOk result (λ new. new.rows.items ≡ rows_viewed view.now file) }
    ensures repeats { (file : List ℕ) → ReadsAs file lines.now → IfOk result (λ new.
        new.repeats ≡ length (lines_in file) - length new.rows.items) }
    ensures few { (file : List ℕ) → ReadsAs file lines.now
        → IfOk result (λ new. length new.rows.items ≤ most_records) }
{
    let judged = find_new(alloc, lines, view.known.as_slice())?;
    let rows = check_new(alloc, day, lines, judged.new.as_slice(), view)?;
    Ok(NewRows {
        rows,
        repeats: judged.repeats,
    })
}

// The new lines among those of a file.
fn find_new(alloc: Global, lines: &[BankLine], known: &[BankLine]) -> Result<Judged, Rule>
    ensures rule { Refuses result (fault_rule (judgement known.now lines.now)) }
    ensures new { IfOk result (λ judged. judged.new.items ≡ new_places known.now lines.now) }
    ensures repeats { IfOk result (λ judged.
        judged.repeats ≡ length lines.now - length (new_places known.now lines.now)) }
{
    match judge_file(alloc, lines, known) {
        Ok(judged) => Ok(judged),
        Err(fault) => Err(rule_of(fault)),
    }
}

// The rows of the new lines, unless a rule on their values or a limit applies.
fn check_new(
    alloc: Global,
    day: Day,
    lines: &[BankLine],
    places: &[usize],
    view: &ImportView,
) -> Result<Vec<BankRow>, Rule>
    requires { places.now ≡ new_places view.now.known.items lines.now }
    ensures rule { (rows : List BankRow) → rows ≡ rows_from (is_registered_by view.now)
        view.now.serials (new_lines view.now.known.items lines.now)
        → Refuses result (first_of (
        ahead_rule (find (is_ahead day) (new_lines view.now.known.items lines.now))
        ∷ limit_rules (suspense_then view.now rows) (credits_then view.now rows) rows)) }
    ensures rows { IfOk result (λ rows. rows.items ≡ rows_from (is_registered_by view.now)
        view.now.serials (new_lines view.now.known.items lines.now)) }
{
    check_values(day, lines, places)?;
    let index = index_employers(alloc, view.employers.as_slice())?;
    let rows = new_rows(alloc, lines, places, view.serials, &index)?;
    check_limits(alloc, view.suspense, &index, rows.as_slice())?;
    Ok(rows)
}

// The rule on a fault of a bank file.
fn rule_of(fault: BankFault) -> Rule
    ensures { result ≡ rule_of fault }
{
    match fault {
        BankFault::OverLimit => Rule::OverLimit(Limit::File),
        BankFault::BadCsv { line, fault } => Rule::BadCsv {
            line: line as u64,
            fault,
        },
        BankFault::RefConflict { line } => Rule::RefConflict(line as u64),
        BankFault::Memory => Rule::Memory,
    }
}

// No line at these places has a value date after the day.
fn check_values(day: Day, lines: &[BankLine], places: &[usize]) -> Result<(), Rule>
    requires { All (λ place. place < length lines.now) places.now }
    ensures { (known : List BankLine) → places.now ≡ new_places known lines.now
        → Obeys result (ahead_rule (find (is_ahead day) (new_lines known lines.now))) }
{
    for place in places {
        if day < lines[*place].value {
            return Err(Rule::ValueAhead((*place + FIRST_ROW) as u64));
        }
    }
    Ok(())
}

// The rows of the lines at these places.
fn new_rows(
    alloc: Global,
    lines: &[BankLine],
    places: &[usize],
    serials: SerialCount,
    index: &BTreeMap<EmployerNo, EmployerCredits>,
) -> Result<Vec<BankRow>, AllocError>
    requires { All (λ place. place < length lines.now) places.now }
    ensures { (known : List BankLine) → places.now ≡ new_places known lines.now
        → IfOk result (λ rows.
        rows.items ≡ rows_from (is_indexed index.now) serials (new_lines known lines.now)) }
{
    let mut rows = Vec::new(alloc);
    let mut serial = serials.count();
    for place in places {
        serial += 1;
        let line = lines[*place].copied()?;
        let employer = employer_of(index, &line);
        rows.push(BankRow {
            line,
            serial,
            employer,
        })?;
    }
    Ok(rows)
}
