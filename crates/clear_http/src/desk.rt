//! The desk: an office with the keys of its callers, on one day. It answers the requests of a
//! stream.
ghost use Rattle.std.specs.Prelude.{◌≡◌, ◌≢◌, ◌+◌, ◌≤◌, false, true, IfOk, IfErr};
ghost use Rattle.clear_book.specs.Book.{Book};
ghost use Rattle.clear_book.specs.Machine.{IsLawful};
ghost use Rattle.clear_office.specs.Office.{IsHonest, Keeps};
ghost use Rattle.clear_wire.specs.Counted.{inner, has_failed, reads_of};
ghost use Rattle.clear_wire.specs.Limits.{read_limit};
ghost use Rattle.clear_routes.specs.Reading.{Reads};
ghost use Rattle.clear_answers.specs.Said.{said_of};
ghost use Rattle.clear_http.specs.Desk.{MaySay, MayServe};
ghost use Rattle.clear_http.specs.Guarded.{Guards};
ghost use Rattle.clear_http.specs.Serve.{IsOfReader, Serves, ServesPart, ServesWhole};
ghost use Rattle.clear_http.specs.Serve.{StandsBehind, TellsFailed};
ghost use Rattle.clear_http.specs.Served.{IsServed, IsServedPart};

use crate::serve::{Fault, Responder, ServeFault, Served, serve_stream, tell_failed};
use clear_answers::said::{Refused, Said};
use clear_book::outcomes::Outcome;
use clear_callers::directory::Directory;
use clear_money::days::Day;
use clear_office::office::Office;
use clear_routes::call::find_call;
use clear_routes::routes::Routes;
use clear_wire::counted::{Counted, RequestRead};
use clear_wire::request::Request;
use sqlite::Alter;
use std::alloc::Global;
use std::io::Write;

// The keys of an office's callers, and the day on which it is asked. Who answers is the office.
#[derive(Drop)]
struct Desk<'a> {
    alloc: Global,
    routes: &'a Routes,
    directory: &'a Directory,
    day: Day,
}

impl<S: Alter> Responder<Office<S>> for Desk<'_> {
    ghost use Rattle.clear_http.specs.Desk.{MaySay};

    ghost responds = { λ self. MaySay S.Store self.directory.now self.day };

    fn reply(&self, office: &mut Office<S>, request: &Request) -> Said {
        let call = match find_call(self.alloc, self.routes, self.directory, self.day, request) {
            Ok(call) => call,
            Err(refused) => return Said::No(refused),
        };
        let outcome = office.take(&call);
        said_of(outcome)
    }
}

// What is said of what the office answers a call with.
fn said_of(outcome: Outcome) -> Said
    ensures { result ≡ said_of outcome }
{
    match outcome {
        Outcome::Replied(reply) => Said::Reply(reply),
        Outcome::Answered(answer) => Said::Answer(answer),
        Outcome::Refused(rule) => Said::No(Refused::by(rule)),
    }
}

/// Serves the requests in the bytes of a reader: their answers are written, one after another, up
/// to the end of the stream or the first fault of the store, which ends it.
///
/// Of an office that has failed before nothing is read, and the one answer says so. Neither the reader
/// nor the writer may have failed before, so that it can be told which of them did.
///
/// Whatever lawful book the office keeps, the answers are those of the clearing machine over that
/// book, and the office then keeps the book that it leaves, so far as its disk returned what was
/// written.
///
/// Whatever the records hold, the office changes only by a request in these bytes that reads as a
/// call which access allows, and that has its answer among those written or, after a fault, is the
/// one behind them. Of a reader whose bytes no contract knows, it is some such request. One that
/// reads as a call for which access says no is answered by `NotYours`, or by `Memory`.
///
/// After a fault, what was written is the answers to the first requests, so many as the fault says,
/// and a front of the next one's that isn't all of it. `Read` comes just where a call of this reader
/// failed, `Write` just where one of this writer did, and `Reads` only after 1,000,000 reads of this
/// reader. However it ends, it makes no more reads than these. Behind the last request that was
/// answered, fewer bytes are read than one read asks for, where a further one might come.
pub fn serve<S: Alter, R: RequestRead, W: Write>(
    alloc: Global,
    office: &mut Office<S>,
    directory: &Directory,
    day: Day,
    reader: &mut Counted<R>,
    writer: &mut Counted<W>,
) -> Result<Served, ServeFault>
    requires read { has_failed reader.old ≡ false }
    requires write { has_failed writer.old ≡ false }
    ensures failed { office.old.failed ≡ true
        → (reader.new ≡ reader.old) × (office.new ≡ office.old)
        × TellsFailed (W.contents (inner writer.old)) (W.contents (inner writer.new)) result }
    ensures served { office.old.failed ≡ false
        → IfOk result (λ served. IsHonest S.Store office.new
        → (b : Book) → IsLawful b → Keeps S.Store office.old b
        → IsServed S.Store (Reads directory.now day) office.old b
        (R.remaining (inner reader.old))
        (W.contents (inner writer.old)) (W.contents (inner writer.new))
        office.new served) }
    ensures fault { office.old.failed ≡ false
        → IfErr result (λ fault. IsHonest S.Store office.new
        → (b : Book) → IsLawful b → Keeps S.Store office.old b
        → IsServedPart S.Store (Reads directory.now day) office.old b
        (R.remaining (inner reader.old))
        (W.contents (inner writer.old)) (W.contents (inner writer.new))
        office.new fault.answered) }
    // These hold whatever the records are, also those of no lawful book.
    ensures said { MayServe S.Store directory.now day office.old office.new }
    ensures answers { office.old.failed ≡ false
        → IfOk result (λ served. Serves (MaySay S.Store directory.now day) office.old
        (R.remaining (inner reader.old))
        (W.contents (inner writer.old)) (W.contents (inner writer.new))
        office.new served) }
    ensures answers_fault { office.old.failed ≡ false
        → IfErr result (λ fault. ServesPart (MaySay S.Store directory.now day) office.old
        (R.remaining (inner reader.old))
        (W.contents (inner writer.old)) (W.contents (inner writer.new))
        office.new fault.answered) }
    ensures whole { office.old.failed ≡ false
        → IfErr result (λ fault. IsOfReader fault.fault
        → ServesWhole (MaySay S.Store directory.now day) office.old
        (R.remaining (inner reader.old))
        (W.contents (inner writer.old)) (W.contents (inner writer.new))
        office.new fault.answered) }
    ensures access { office.old.failed ≡ false
        → IfOk result (λ served. Serves (Guards (Reads directory.now day)) false
        (R.remaining (inner reader.old))
        (W.contents (inner writer.old)) (W.contents (inner writer.new))
        office.new.failed served) }
    ensures access_fault { office.old.failed ≡ false
        → IfErr result (λ fault. ServesPart (Guards (Reads directory.now day)) false
        (R.remaining (inner reader.old))
        (W.contents (inner writer.old)) (W.contents (inner writer.new))
        office.new.failed fault.answered) }
    ensures place { office.old.failed ≡ false
        → IfOk result (λ served. StandsBehind served.requests
        (R.remaining (inner reader.old)) (R.remaining (inner reader.new))) }
    ensures read_failed { IfErr result (λ fault. fault.fault ≡ Fault.Read
        → has_failed reader.new ≡ true) }
    ensures write_failed { IfErr result (λ fault. fault.fault ≡ Fault.Write
        → has_failed writer.new ≡ true) }
    ensures too_many_reads { IfErr result (λ fault. fault.fault ≡ Fault.Reads
        → reads_of reader.new ≡ reads_of reader.old + read_limit) }
    ensures few_reads { reads_of reader.new ≤ reads_of reader.old + read_limit }
    ensures reader_well { IfErr result (λ fault. fault.fault ≢ Fault.Read)
        → has_failed reader.new ≡ false }
    ensures writer_well { IfErr result (λ fault. fault.fault ≢ Fault.Write)
        → has_failed writer.new ≡ false }
{
    if office.failed() {
        return tell_failed(writer);
    }
    let routes = match Routes::new(alloc) {
        Ok(routes) => routes,
        Err(_) => {
            return Err(ServeFault {
                fault: Fault::Memory,
                answered: 0,
            });
        }
    };
    let desk = Desk {
        alloc,
        routes: &routes,
        directory,
        day,
    };
    serve_stream(alloc, &desk, office, reader, writer)
}
