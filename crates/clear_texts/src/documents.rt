//! The document of a worker, made from its records.
ghost use Rattle.std.specs.Prelude.{◌≡◌, ℕ, IfErr, IfOk};
ghost use Rattle.clear_book.specs.Book.{Book};
ghost use Rattle.clear_book.specs.Documents.Worker.{worker_text};
ghost use Rattle.clear_book.specs.Machine.{IsLawful};
ghost use Rattle.clear_book.specs.Own.Worker.{worker_on};
ghost use Rattle.clear_records.specs.Records.{AreWorkerRecords};

use crate::worker::append_worker;
use clear_book::documents::Document;
use clear_money::days::Day;
use clear_money::numbers::WorkerNo;
use clear_records::worker::{WorkerRecords, worker_account};
use clear_values::causes::Fault;
use std::alloc::Global;

/// What the records of a worker say of it on a day: what it has earned, by firm, then month, the
/// claims for it that aren't withdrawn, and its balance. Records that no book has are refused with
/// `StoreCause::Row` where they have amounts whose sum is 2^64 cents or more, or a line whose gross
/// amount times its entitlement rate, in hundredths of a percent, is as much; else no contract says
/// what is told of such records.
pub fn worker_document(
    alloc: Global,
    worker: WorkerNo,
    day: Day,
    records: &WorkerRecords,
) -> Result<Document, Fault>
    ensures text { (b : Book) → IsLawful b → AreWorkerRecords b worker records.now
        → IfOk result (λ document. document ≡ worker_text (worker_on b day worker)) }
    ensures fault { (b : Book) → IsLawful b → AreWorkerRecords b worker records.now
        → IfErr result (λ fault. fault ≡ Fault.Memory) }
{
    let account = worker_account(alloc, worker, day, records)?;
    let mut text = String::new(alloc);
    append_worker(&mut text, &account)?;
    Ok(Document::new(text))
}
