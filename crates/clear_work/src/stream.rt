//! The requests of a stream, served over a new office in memory.
ghost use Rattle.std.specs.Prelude.{◌≡◌, ℕ, false, IfErr, IfOk, OnOk};
ghost use Rattle.clear_book.specs.Book.{Book};
ghost use Rattle.clear_book.specs.Machine.{IsLawful};
ghost use Rattle.clear_office.specs.Office.{AtOffice, IsHonest, Keeps};
ghost use Rattle.clear_wire.specs.Counted.{has_failed, inner, reads_of};
ghost use Rattle.clear_routes.specs.Reading.{Reads};
ghost use Rattle.clear_http.specs.Served.{IsServed, IsServedPart};
ghost use Rattle.clear_http.specs.declared.serve.Served.{Served};
ghost use Rattle.clear_work.specs.Streams.{AnswersAll, AnswersFront, IsCutShort};

use crate::stop::{NO_MEMORY, Stop};
use clear_callers::directory::Directory;
use clear_http::desk::serve;
use clear_money::days::Day;
use clear_money::rates::RateTable;
use clear_office::office::Office;
use clear_sample::memory::office_in_memory;
use clear_wire::counted::{Counted, RequestRead};
use sqlite::Alter;
use std::alloc::Global;
use std::io::Write;

/// Serves the requests of a reader to its end, over a new office in memory with these opening rates:
/// just the answers of the machine are written, over the book without requests. Nothing is supposed of
/// its store.
///
/// An error tells that there was no memory for the office, or why the stream wasn't served to its end: a
/// front of these answers was written then.
pub fn serve_in_memory<I: RequestRead, O: Write>(
    alloc: Global,
    rates: &RateTable,
    directory: &Directory,
    day: Day,
    reader: &mut Counted<I>,
    writer: &mut Counted<O>,
) -> Result<(), Stop>
    requires read { has_failed reader.old ≡ false }
    requires write { has_failed writer.old ≡ false }
    ensures served { IfOk result (λ _. AnswersAll (Reads directory.now day) rates.now
        (I.remaining (inner reader.old))
        (O.contents (inner writer.old)) (O.contents (inner writer.new))) }
    ensures fault { IfErr result (λ _. AnswersFront (Reads directory.now day) rates.now
        (I.remaining (inner reader.old))
        (O.contents (inner writer.old)) (O.contents (inner writer.new))) }
    ensures well { OnOk result ((has_failed reader.new ≡ false) × (has_failed writer.new ≡ false)) }
    ensures why { IfErr result (IsCutShort (has_failed reader.new) (has_failed writer.new)
        (reads_of reader.old) (reads_of reader.new)) }
{
    match office_in_memory(alloc, rates) {
        Some(office) => serve_new(alloc, office, directory, day, reader, writer),
        None => Err(NO_MEMORY),
    }
}

// Serves the requests of a reader to its end, over an office that is given up then.
fn serve_new<S: Alter + Drop, I: RequestRead, O: Write>(
    alloc: Global,
    office: Office<S>,
    directory: &Directory,
    day: Day,
    reader: &mut Counted<I>,
    writer: &mut Counted<O>,
) -> Result<(), Stop>
    requires read { has_failed reader.old ≡ false }
    requires write { has_failed writer.old ≡ false }
    ensures served { office.failed ≡ false
        → IfOk result (λ _. (then : AtOffice _) × (IsHonest S.Store then
        → (b : Book) → IsLawful b → Keeps S.Store office b
        → (served : Served) × IsServed S.Store (Reads directory.now day) office b
        (I.remaining (inner reader.old))
        (O.contents (inner writer.old)) (O.contents (inner writer.new)) then served)) }
    ensures fault { office.failed ≡ false
        → IfErr result (λ _. (then : AtOffice _) × (IsHonest S.Store then
        → (b : Book) → IsLawful b → Keeps S.Store office b
        → (answered : ℕ) × IsServedPart S.Store (Reads directory.now day) office b
        (I.remaining (inner reader.old))
        (O.contents (inner writer.old)) (O.contents (inner writer.new)) then answered)) }
    ensures well { OnOk result ((has_failed reader.new ≡ false) × (has_failed writer.new ≡ false)) }
    ensures why { IfErr result (IsCutShort (has_failed reader.new) (has_failed writer.new)
        (reads_of reader.old) (reads_of reader.new)) }
{
    let mut office = office;
    match serve(alloc, &mut office, directory, day, reader, writer) {
        Ok(_) => Ok(()),
        Err(stopped) => Err(Stop::from(stopped.fault)),
    }
}
