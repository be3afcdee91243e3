//! What a firm's statement tells, but for the pieces that pay its charges.
ghost use Rattle.std.specs.Prelude.{◌≡◌, ℕ, IfErr, IfOk, IfSome, None};
ghost use Rattle.clear_book.specs.Allocated.{StandsWeighed};
ghost use Rattle.clear_book.specs.Book.{Book};
ghost use Rattle.clear_book.specs.Judge.{day_back};
ghost use Rattle.clear_book.specs.Machine.{IsLawful};
ghost use Rattle.clear_schema.specs.Frame.{Leaves};
ghost use Rattle.clear_schema.specs.Faults.{IsOfDisk};
ghost use Rattle.clear_records.specs.Records.{AreStatementRecords, IsFor, IsHead};
ghost use Rattle.clear_reading.specs.FirmHead.{AreRead, IsFound};
ghost use Rattle.clear_debts.specs.Reads.{OfTables};

use clear_bank::lines::Purpose;
use clear_book::rows::EmployerRow;
use clear_debts::owing::find_account;
use clear_firms::employers::find_employer;
use clear_firms::rates::rate_table;
use clear_firms::reports::reports_of;
use clear_ledger::credits::credits_of;
use clear_money::days::Day;
use clear_money::numbers::EmployerNo;
use clear_records::statement::{StatementHead, StatementRecords, statement_head};
use clear_schema::fault::Fault;
use sqlite::{Alter, Transaction};
use std::alloc::Global;

/// What the statement of a firm tells on a day, but for the pieces that pay its charges. None where
/// the firm isn't registered.
///
/// It takes one search for the firm, reads the rates, and reads each latest report, each kept
/// contribution and each credit for interest of the firm once; where nothing is open, its credits for
/// contributions, too. What no book holds is refused with `Fault::Store(StoreCause::Row)`.
pub fn firm_head<S: Alter>(
    alloc: Global,
    tx: &mut Transaction<'_, S>,
    day: Day,
    employer: EmployerNo,
) -> Result<Option<StatementHead>, Fault>
    ensures same_reference { tx.new.conn.ghost_name ≡ tx.old.conn.ghost_name }
    ensures head { OfTables S.Store tx.old.conn.now tx.new.conn.now (λ t.
        day_back t.day day ≡ None → (b : Book) → IsLawful b → StandsWeighed b t
        → IfOk result (IsFound b employer (IsHead b employer day))) }
    // Whatever else the tables hold.
    ensures firm { OfTables S.Store tx.old.conn.now tx.new.conn.now (λ t.
        IfOk result (λ head. IfSome head (IsFor employer day))) }
    // On a day that isn't before the ledger day, as it is judged to be before.
    ensures fault { OfTables S.Store tx.old.conn.now tx.new.conn.now (λ t.
        day_back t.day day ≡ None → (b : Book) → IsLawful b → StandsWeighed b t
        → IfErr result IsOfDisk) }
    ensures leaves { Leaves S.Store tx.old.conn.now tx.new.conn.now result }
{
    match find_records(alloc, tx, employer)? {
        Some(records) => Ok(Some(statement_head(alloc, &records, day)?)),
        None => Ok(None),
    }
}

// The records of a firm's statement, which are those of any day. None where the firm isn't
// registered.
fn find_records<S: Alter>(
    alloc: Global,
    tx: &mut Transaction<'_, S>,
    employer: EmployerNo,
) -> Result<Option<StatementRecords>, Fault>
    ensures same_reference { tx.new.conn.ghost_name ≡ tx.old.conn.ghost_name }
    ensures records { OfTables S.Store tx.old.conn.now tx.new.conn.now (λ t.
        (day : ℕ) → day_back t.day day ≡ None → (b : Book) → IsLawful b → StandsWeighed b t
        → IfOk result (IsFound b employer (AreStatementRecords b employer day))) }
    ensures firm { OfTables S.Store tx.old.conn.now tx.new.conn.now (λ t.
        IfOk result (λ found. IfSome found (λ records. records.member.employer ≡ employer))) }
    ensures fault { OfTables S.Store tx.old.conn.now tx.new.conn.now (λ t.
        (b : Book) → IsLawful b → StandsWeighed b t → IfErr result IsOfDisk) }
    ensures leaves { Leaves S.Store tx.old.conn.now tx.new.conn.now result }
{
    let Some(member) = find_employer(tx, employer)? else {
        return Ok(None);
    };
    let records = read_records(alloc, tx, member)?;
    Ok(Some(records))
}

// The records of the statement of this firm.
fn read_records<S: Alter>(
    alloc: Global,
    tx: &mut Transaction<'_, S>,
    member: EmployerRow,
) -> Result<StatementRecords, Fault>
    ensures same_reference { tx.new.conn.ghost_name ≡ tx.old.conn.ghost_name }
    ensures read { OfTables S.Store tx.old.conn.now tx.new.conn.now (λ t.
        (b : Book) → IsLawful b → StandsWeighed b t → IfOk result (AreRead b t member)) }
    ensures member { IfOk result (λ records. records.member ≡ member) }
    ensures fault { OfTables S.Store tx.old.conn.now tx.new.conn.now (λ t.
        (b : Book) → IsLawful b → StandsWeighed b t → IfErr result IsOfDisk) }
    ensures leaves { Leaves S.Store tx.old.conn.now tx.new.conn.now result }
{
    let rates = rate_table(tx)?;
    let reports = reports_of(tx, member.employer)?;
    let account = find_account(alloc, tx, member.employer)?;
    let interest_credits = credits_of(tx, member.employer, Purpose::Interest)?;
    let prepaid = account.credited.saturating_sub(account.charges.charged());
    Ok(StatementRecords {
        member,
        rates,
        reports,
        charges: account.charges,
        interest_credits,
        prepaid,
    })
}
