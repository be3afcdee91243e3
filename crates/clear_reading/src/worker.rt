//! The records of a worker's document.
ghost use Rattle.std.specs.Prelude.{◌≡◌, IfErr, IfOk};
ghost use Rattle.clear_book.specs.Book.{Book};
ghost use Rattle.clear_book.specs.Machine.{IsLawful};
ghost use Rattle.clear_book.specs.Tables.{Stands};
ghost use Rattle.clear_schema.specs.Frame.{Leaves};
ghost use Rattle.clear_schema.specs.Faults.{IsOfDisk};
ghost use Rattle.clear_records.specs.Records.{AreWorkerRecords};
ghost use Rattle.clear_debts.specs.Reads.{OfTables};

use clear_firms::rates::rate_table;
use clear_firms::wages::worker_wages;
use clear_money::numbers::WorkerNo;
use clear_payouts::claims::worker_claims;
use clear_records::worker::WorkerRecords;
use clear_schema::fault::Fault;
use sqlite::{Alter, Transaction};

/// The records of a worker's document: the rates, its lines in the latest reports of all firms, by
/// firm and month, and all claims for it by their numbers, withdrawn ones too.
///
/// It reads the rates, and each of these lines and claims once, whatever else the book holds.
pub fn worker_records<S: Alter>(
    tx: &mut Transaction<'_, S>,
    worker: WorkerNo,
) -> Result<WorkerRecords, Fault>
    ensures same_reference { tx.new.conn.ghost_name ≡ tx.old.conn.ghost_name }
    ensures records { OfTables S.Store tx.old.conn.now tx.new.conn.now (λ t.
        (b : Book) → IsLawful b → Stands b t → IfOk result (AreWorkerRecords b worker)) }
    ensures fault { OfTables S.Store tx.old.conn.now tx.new.conn.now (λ t.
        (b : Book) → IsLawful b → Stands b t → IfErr result IsOfDisk) }
    ensures leaves { Leaves S.Store tx.old.conn.now tx.new.conn.now result }
{
    let rates = rate_table(tx)?;
    let wages = worker_wages(tx, worker)?;
    let claims = worker_claims(tx, worker)?;
    Ok(WorkerRecords {
        rates,
        wages,
        claims,
    })
}
