//! What is claimed for a worker.
ghost use Rattle.std.specs.Prelude.{◌≡◌, ◌<◌, ◌^◌, IfErr, IfOk};
ghost use Rattle.clear_book.specs.RowRanges.{AreInRange};
ghost use Rattle.clear_book.specs.Tables.{table_claimed};
ghost use Rattle.clear_schema.specs.Frame.{Leaves};
ghost use Rattle.clear_schema.specs.Faults.{IsOfDisk};
ghost use Rattle.clear_debts.specs.Reads.{OfTables};

use clear_book::rules::StoreCause;
use clear_money::numbers::WorkerNo;
use clear_payouts::claims::worker_claims;
use clear_records::balance::claimed_cents;
use clear_schema::fault::Fault;
use sqlite::{Alter, Transaction};

/// The claims for a worker that aren't withdrawn, in cents.
pub(super) fn read_claimed<S: Alter>(
    tx: &mut Transaction<'_, S>,
    worker: WorkerNo,
) -> Result<u64, Fault>
    ensures same_reference { tx.new.conn.ghost_name ≡ tx.old.conn.ghost_name }
    ensures claimed { OfTables S.Store tx.old.conn.now tx.new.conn.now (λ t.
        IfOk result (λ cents. cents ≡ table_claimed t worker)) }
    ensures fault { OfTables S.Store tx.old.conn.now tx.new.conn.now (λ t.
        AreInRange t → table_claimed t worker < 2 ^ 64 → IfErr result IsOfDisk) }
    ensures leaves { Leaves S.Store tx.old.conn.now tx.new.conn.now result }
{
    let rows = worker_claims(tx, worker)?;
    match claimed_cents(rows.as_slice()) {
        Some(cents) => Ok(cents),
        None => Err(Fault::Store(StoreCause::Row)),
    }
}
