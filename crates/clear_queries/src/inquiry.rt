//! A query inside of its transaction, and behind it a firm's statement and the documents of a payout
//! list, of a reminder run and of the lines in suspense: it is answered by what the store says.
ghost use Rattle.std.specs.Prelude.{◌≡◌, ◌⊎◌, ℕ, false, true, None, IfErr, IfOk, IsTrue};
ghost use Rattle.std.specs.Prelude.{OnErr, OnOk};
ghost use Rattle.sqlite.specs.Held.{state};
ghost use Rattle.sqlite.specs.State.{HasCleanDisk, Survives};
ghost use Rattle.sqlite.specs.Tree.{Trees};
ghost use Rattle.clear_book.specs.declared.calls.Caller.{Caller};
ghost use Rattle.clear_book.specs.declared.calls.Call.TheVariants.{Ask};
ghost use Rattle.clear_book.specs.Calls.{may_query};
ghost use Rattle.clear_book.specs.Judge.{day_back};
ghost use Rattle.clear_book.specs.Tables.{Tables};
ghost use Rattle.clear_schema.specs.Frame.{Leaves};
ghost use Rattle.clear_schema.specs.Held.{HasTables, StandsFor};
ghost use Rattle.clear_database.specs.Still.{Holds, IsStill};
ghost use Rattle.clear_debts.specs.Reads.{LeavesOpen, OfTables};
ghost use Rattle.clear_reading.specs.Reader.{TellsDocument, TellsOnlyWhere};
ghost use Rattle.clear_queries.specs.Findings.{HasRightRows, IsTellable, IsTold, Replies};
ghost use Rattle.clear_queries.specs.Inquiries.{FailsToTell, Refuses, Tells};
ghost use Rattle.clear_queries.specs.Findings.{IsOverRightRows, answer_of, text_of};

use clear_book::calls::Query;
use clear_book::documents::Document;
use clear_book::numbers::{ListNo, RunNo};
use clear_book::outcomes::Answer;
use clear_book::rows::{ListRow, RunRow};
use clear_book::rules::Rule;
use clear_database::body::{Body, Stop, within};
use clear_debts::owed::owed;
use clear_firms::counts::find_counts;
use clear_ledger::runs::find_run;
use clear_money::days::Day;
use clear_money::numbers::{EmployerNo, WorkerNo};
use clear_payouts::lists::find_list;
use clear_reading::firm_head::firm_head;
use clear_reading::lists::tell_list;
use clear_reading::reminders::tell_reminders;
use clear_reading::statement::tell_statement;
use clear_reading::suspense::tell_suspense;
use clear_reading::worker::worker_records;
use clear_records::statement::StatementHead;
use clear_rules::gate::check_day;
use clear_schema::fault::Fault;
use clear_texts::documents::worker_document;
use clear_views::member::find_member;
use sqlite::{Alter, Connection, Transaction};
use std::alloc::Global;

/// A query. Its access has been judged.
#[derive(Clone, Copy)]
struct Inquiry<'a> {
    alloc: Global,
    day: Day,
    query: &'a Query,
}

/// What is found for a query inside of its transaction.
#[derive(Drop)]
pub(crate) enum Finding {
    /// Its answer.
    Answer(Answer),
    /// A document that is told behind the transaction.
    Document(RowDocument),
}

/// A document whose rows are read one at a time, so outside of a transaction.
#[derive(Drop)]
pub(crate) enum RowDocument {
    /// The statement of a firm, with the pieces that pay its charges.
    Statement(StatementHead),
    /// A payout list, with the claims on it.
    List(ListRow),
    /// A reminder run, with its reminders.
    Run(RunRow),
    /// The lines in suspense, on a day.
    Suspense(Day),
}

/// Answers a query whose access was judged before: by one transaction that leaves the records, and behind
/// it, for a statement, for a payout list, for a reminder run and for the lines in suspense, by their rows,
/// one at a time.
///
/// Where the tables are those of a lawful book, the answer is the judge's. `Stop::Refused` then tells the
/// judge's rule, a day before the ledger day first, then the query's own rules. `Stop::Fault` tells what
/// failed of the store or of memory: no key and no row of such tables. After an error the tables are as
/// they were, as far as the connection is still open to show them.
pub fn inquire<S: Alter>(
    alloc: Global,
    conn: &mut Connection<S>,
    day: Day,
    query: &Query,
) -> Result<Answer, Stop<Rule>>
    requires { conn.old.in_transaction ≡ false }
    ensures mode { conn.new.in_transaction ≡ false }
    ensures clean { HasCleanDisk (state S.Store conn.new) → HasCleanDisk (state S.Store conn.old) }
    ensures told { OfTables S.Store conn.old conn.new (λ t.
        IfOk result (λ answer. ((caller : Caller) → may_query caller query.now ≡ true
        → Tells (Ask caller day query.now) t answer) × Holds S.Store conn.new t)) }
    // A statement, which is the firm's on this day, a list, a run and the lines in suspense are told only
    // where their rows are right, whatever else the tables hold.
    ensures only { OfTables S.Store conn.old conn.new (λ t.
        IfOk result (IsOverRightRows day query.now t)) }
    ensures refused { OfTables S.Store conn.old conn.new (λ t.
        IfErr result (λ stop. (why : _) → stop ≡ Stop.Refused why
        → ((caller : Caller) → may_query caller query.now ≡ true
        → Refuses (Ask caller day query.now) t why)
        × Survives (state S.Store conn.old) (state S.Store conn.new) (λ _. ⊥))) }
    ensures failed { OfTables S.Store conn.old conn.new (λ t.
        IfErr result (λ stop. (fault : _) → stop ≡ Stop.Fault fault → FailsToTell t fault)) }
    ensures open { HasCleanDisk (state S.Store conn.new)
        → OnOk result (IsTrue (state S.Store conn.new).is_open) }
    ensures stays { OfTables S.Store conn.old conn.new (λ t.
        IsTrue (state S.Store conn.new).is_open
        → OnErr result (HasTables t (state S.Store conn.new).now
        × HasTables t (state S.Store conn.new).committed)) }
    // A crash leaves what it could leave before, or the tables.
    ensures crash { OfTables S.Store conn.old conn.new (λ t.
        (trees : Trees) → (state S.Store conn.new).may_leave trees
        → (state S.Store conn.old).may_leave trees ⊎ StandsFor t trees) }
{
    // For what it says of an open connection outside of a transaction.
    let _outside = conn.is_autocommit();
    let inquiry = Inquiry { alloc, day, query };
    match within(conn, inquiry)? {
        Finding::Answer(answer) => Ok(answer),
        Finding::Document(document) => tell_document(alloc, conn, &document),
    }
}

// The answer that a document is. It is told only where its rows are right.
fn tell_document<S: Alter>(
    alloc: Global,
    conn: &mut Connection<S>,
    document: &RowDocument,
) -> Result<Answer, Stop<Rule>>
    requires { conn.old.in_transaction ≡ false }
    ensures mode { conn.new.in_transaction ≡ false }
    ensures clean { HasCleanDisk (state S.Store conn.new) → HasCleanDisk (state S.Store conn.old) }
    ensures told { OfTables S.Store conn.old conn.new (λ t.
        IfOk result (λ answer. answer ≡ answer_of t (Finding.Document document.now))) }
    ensures only { OfTables S.Store conn.old conn.new (λ t.
        OnOk result (HasRightRows document.now t)) }
    ensures fault { IfErr result (λ stop. (fault : Fault) × (stop ≡ Stop.Fault fault)) }
    ensures failed { OfTables S.Store conn.old conn.new (λ t.
        IsTold (Finding.Document document.now) t → IfErr result (λ stop. (fault : _)
        → stop ≡ Stop.Fault fault → FailsToTell t fault)) }
    ensures open { HasCleanDisk (state S.Store conn.new)
        → OnOk result (IsTrue (state S.Store conn.new).is_open) }
    ensures still { OfTables S.Store conn.old conn.new (λ t.
        IsTrue (state S.Store conn.new).is_open
        → IsStill (state S.Store conn.old) (state S.Store conn.new)) }
    ensures survives { (t : Tables) → HasTables t (state S.Store conn.old).now
        → Survives (state S.Store conn.old) (state S.Store conn.new) (λ _. ⊥) }
{
    // For what it says of an open connection outside of a transaction.
    let _before = conn.is_autocommit();
    let told = tell_rows(alloc, conn, document);
    let _behind = conn.is_autocommit();
    Ok(Answer::Text(told?))
}

// The document over its rows. It is told only where they are right.
fn tell_rows<S: Alter>(
    alloc: Global,
    conn: &mut Connection<S>,
    document: &RowDocument,
) -> Result<Document, Fault>
    requires { conn.old.in_transaction ≡ false }
    ensures mode { conn.new.in_transaction ≡ false }
    ensures tells { TellsDocument S.Store conn.old conn.new (λ t. text_of t document.now)
        (IsTellable document.now) result }
    ensures only { TellsOnlyWhere S.Store conn.old conn.new (HasRightRows document.now) result }
{
    match document {
        RowDocument::Statement(head) => tell_statement(alloc, conn, head),
        RowDocument::List(list) => tell_list(alloc, conn, list),
        RowDocument::Run(run) => tell_reminders(alloc, conn, run),
        RowDocument::Suspense(day) => tell_suspense(alloc, conn, *day),
    }
}

impl Body for Inquiry<'_> {
    ghost use Rattle.std.specs.Prelude.{◌≡◌, true};
    ghost use Rattle.clear_book.specs.declared.calls.Caller.{Caller};
    ghost use Rattle.clear_book.specs.declared.calls.Call.TheVariants.{Ask};
    ghost use Rattle.clear_book.specs.Calls.{may_query};
    ghost use Rattle.clear_queries.specs.Findings.{FindsStatement, IsTold, TellsOnlyRight, answer_of};
    ghost use Rattle.clear_queries.specs.Inquiries.{Fails, Refuses, Tells};

    type Out = Finding;

    type Refusal = Rule;

    ghost does = { λ self t u found. (u ≡ t) × IsTold found t
        × ((caller : Caller) → may_query caller self.query.now ≡ true
        → Tells (Ask caller self.day self.query.now) t (answer_of t found))
        × TellsOnlyRight self.query.now t found × FindsStatement self.day self.query.now found };

    ghost refuses = { λ self t why. (caller : Caller) → may_query caller self.query.now ≡ true
        → Refuses (Ask caller self.day self.query.now) t why };

    ghost fails = { λ self t fault. Fails t fault };

    fn run<S: Alter>(self, tx: &mut Transaction<'_, S>) -> Result<Finding, Stop<Rule>> {
        let counts = find_counts(tx)?;
        check_day(counts.day, self.day).map_err(Stop::Refused)?;
        tell(self.alloc, tx, self.day, self.query)
    }
}

// What is found for a query, on a day that isn't before the ledger day.
fn tell<S: Alter>(
    alloc: Global,
    tx: &mut Transaction<'_, S>,
    day: Day,
    query: &Query,
) -> Result<Finding, Stop<Rule>>
    ensures same_reference { tx.new.conn.ghost_name ≡ tx.old.conn.ghost_name }
    ensures told { OfTables S.Store tx.old.conn.now tx.new.conn.now (λ t.
        day_back t.day day ≡ None → Replies day query.now t result) }
    ensures leaves { LeavesOpen S.Store tx.old.conn.now tx.new.conn.now result }
{
    match query {
        Query::Owed { employer } => tell_owed(alloc, tx, day, *employer),
        Query::Statement { employer } => look_for_firm(alloc, tx, day, *employer),
        Query::Worker { worker } => tell_worker(alloc, tx, day, *worker),
        Query::Suspense => Ok(Finding::Document(RowDocument::Suspense(day))),
        Query::Payout { list } => look_for_list(tx, *list),
        Query::Reminder { run } => look_for_run(tx, *run),
    }
}

// What a firm owes.
fn tell_owed<S: Alter>(
    alloc: Global,
    tx: &mut Transaction<'_, S>,
    day: Day,
    employer: EmployerNo,
) -> Result<Finding, Stop<Rule>>
    ensures same_reference { tx.new.conn.ghost_name ≡ tx.old.conn.ghost_name }
    ensures told { OfTables S.Store tx.old.conn.now tx.new.conn.now (λ t.
        Replies day (Query.Owed employer) t result) }
    ensures leaves { Leaves S.Store tx.old.conn.now tx.new.conn.now result }
{
    if find_member(tx, employer)?.is_none() {
        return Err(Stop::Refused(Rule::UnknownEmployer));
    }
    let answer = owed(alloc, tx, day, employer)?;
    Ok(Finding::Answer(answer))
}

// The statement of a firm, on a day that isn't before the ledger day.
fn look_for_firm<S: Alter>(
    alloc: Global,
    tx: &mut Transaction<'_, S>,
    day: Day,
    employer: EmployerNo,
) -> Result<Finding, Stop<Rule>>
    ensures same_reference { tx.new.conn.ghost_name ≡ tx.old.conn.ghost_name }
    ensures told { OfTables S.Store tx.old.conn.now tx.new.conn.now (λ t.
        day_back t.day day ≡ None → Replies day (Query.Statement employer) t result) }
    ensures leaves { Leaves S.Store tx.old.conn.now tx.new.conn.now result }
{
    match firm_head(alloc, tx, day, employer)? {
        Some(head) => Ok(Finding::Document(RowDocument::Statement(head))),
        None => Err(Stop::Refused(Rule::UnknownEmployer)),
    }
}

// What is told of a worker, on a day that isn't before the ledger day.
fn tell_worker<S: Alter>(
    alloc: Global,
    tx: &mut Transaction<'_, S>,
    day: Day,
    worker: WorkerNo,
) -> Result<Finding, Stop<Rule>>
    ensures same_reference { tx.new.conn.ghost_name ≡ tx.old.conn.ghost_name }
    ensures told { OfTables S.Store tx.old.conn.now tx.new.conn.now (λ t.
        Replies day (Query.Worker worker) t result) }
    ensures leaves { Leaves S.Store tx.old.conn.now tx.new.conn.now result }
{
    let records = worker_records(tx, worker)?;
    let document = worker_document(alloc, worker, day, &records)?;
    Ok(Finding::Answer(Answer::Text(document)))
}

// The payout list of a number.
fn look_for_list<S: Alter>(tx: &mut Transaction<'_, S>, list: ListNo) -> Result<Finding, Stop<Rule>>
    ensures same_reference { tx.new.conn.ghost_name ≡ tx.old.conn.ghost_name }
    ensures told { OfTables S.Store tx.old.conn.now tx.new.conn.now (λ t.
        (day : ℕ) → Replies day (Query.Payout list) t result) }
    ensures leaves { Leaves S.Store tx.old.conn.now tx.new.conn.now result }
{
    match find_list(tx, list)? {
        Some(row) => Ok(Finding::Document(RowDocument::List(row))),
        None => Err(Stop::Refused(Rule::UnknownDocument)),
    }
}

// The reminder run of a number.
fn look_for_run<S: Alter>(tx: &mut Transaction<'_, S>, run: RunNo) -> Result<Finding, Stop<Rule>>
    ensures same_reference { tx.new.conn.ghost_name ≡ tx.old.conn.ghost_name }
    ensures told { OfTables S.Store tx.old.conn.now tx.new.conn.now (λ t.
        (day : ℕ) → Replies day (Query.Reminder run) t result) }
    ensures leaves { Leaves S.Store tx.old.conn.now tx.new.conn.now result }
{
    match find_run(tx, run)? {
        Some(row) => Ok(Finding::Document(RowDocument::Run(row))),
        None => Err(Stop::Refused(Rule::UnknownDocument)),
    }
}
