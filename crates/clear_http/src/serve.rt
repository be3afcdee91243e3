//! One stream, served: its requests are answered one after another, and the answers are written.
ghost use Rattle.std.specs.Prelude.{◌≡◌, ◌≢◌, ℕ, ◌+◌, ◌<◌, ◌≤◌, ◌++◌, true, false, List, []};
ghost use Rattle.std.specs.Prelude.{length, IfOk, IfErr, IfSome, IfNone, OnOk, OnErr, Err};
ghost use Rattle.std.specs.Io.KnownBytes.{Appends};
ghost use Rattle.clear_answers.specs.Answer.{answer_of};
ghost use Rattle.clear_wire.specs.Counted.{inner, has_failed, reads_of};
ghost use Rattle.clear_wire.specs.Input.{stream, reader_of, unused_of, reads_made, failed_of};
ghost use Rattle.clear_wire.specs.Input.{CountsReads, KeepsBorrow};
ghost use Rattle.clear_wire.specs.Known.{Leads};
ghost use Rattle.clear_wire.specs.Limits.{read_limit};
ghost use Rattle.clear_wire.specs.Request.{next_item};
ghost use Rattle.clear_wire.specs.Parsed.{heading};
ghost use Rattle.clear_wire.specs.Stream.{ended, whole, Next};
ghost use Rattle.clear_http.specs.Serve.{is_bad, is_bare, was_done, ends_stream, left_then};
ghost use Rattle.clear_http.specs.Serve.{AnswersOne, BreaksOff, IsOfReader, Serves, ServesPart};
ghost use Rattle.clear_http.specs.Serve.{ServesWhole};
ghost use Rattle.clear_http.specs.Ahead.{HoldsFew};
ghost use Rattle.clear_http.specs.Serve.{MaySend, StandsBehind, TellsFailed};

use clear_answers::answer::{answer_bytes, failed_text, memory_text};
use clear_answers::said::{Refused, Said};
use clear_book::rules::Rule;
use clear_wire::counted::{Counted, NotedRead, RequestRead};
use clear_wire::input::{Input, ReadFault};
use clear_wire::limits::MAX_REQUESTS;
use clear_wire::request::{Item, Request, read_request};
use std::alloc::Global;
use std::io::Write;

/// Who answers requests from a state, which they may change.
pub trait Responder<T> {
    ghost use Rattle.std.specs.Prelude.{ℕ, List, ◌≡◌, false};
    ghost use Rattle.clear_book.specs.declared.rules.Rule.TheVariants.{Memory as no_memory};
    ghost use Rattle.clear_answers.specs.declared.said.Said.{Said};
    ghost use Rattle.clear_answers.specs.Said.{refused_by};
    ghost use Rattle.clear_wire.specs.Head.{Heading};
    ghost use Rattle.clear_wire.specs.Parsed.{heading};
    ghost use Rattle.clear_http.specs.Serve.{was_done};

    /// What may be said to a request in a state, and what the state is then.
    ghost responds: { Self → T → Heading → List ℕ → Said → T → Type 0 };

    /// Replies to a request. Where nothing was done for it, want of memory may be told in the
    /// reply's place.
    fn reply(&self, state: &mut T, request: &Request) -> Said
        ensures said { responds self.now state.old (heading request.now.head)
            request.now.body.items result state.new }
        ensures memory { was_done result ≡ false
            → responds self.now state.old (heading request.now.head) request.now.body.items
            (refused_by no_memory) state.new };
}

/// Why a stream is not served to its end.
#[derive(Clone, Copy)]
pub enum Fault {
    /// A call of the reader failed.
    Read,
    /// A call of the writer failed.
    Write,
    /// All 1,000,000 reads that a stream may make were made.
    Reads,
    /// There was no memory.
    Memory,
}

/// How many answers were written, and whether a rule ended the stream.
#[derive(Clone, Copy)]
pub struct Served {
    pub requests: u64,
    /// A rule of the stream ended it, or the office had failed before: what came behind isn't read.
    /// Nor is it behind an answer that closes the connection, which this doesn't tell of.
    pub by_rule: bool,
}

/// Why a stream was not served to its end, and how far it was.
#[derive(Clone, Copy)]
pub struct ServeFault {
    pub fault: Fault,
    /// How many answers were written whole.
    pub answered: u64,
}

// How an item is answered, and what follows it: whether its answer has no body, how many requests may
// come, and whether a rule of the stream ended it.
#[derive(Clone, Copy)]
struct Behind {
    bare: bool,
    after: u32,
    by_rule: bool,
}

fn fault_of(fault: ReadFault) -> Fault
    ensures read { result ≡ Fault.Read → fault ≡ ReadFault.Read }
    ensures reads { result ≡ Fault.Reads → fault ≡ ReadFault.Reads }
    ensures memory { result ≡ Fault.Memory → fault ≡ ReadFault.Memory }
    ensures well { result ≢ Fault.Read → fault ≢ ReadFault.Read }
    ensures write { result ≢ Fault.Write }
{
    match fault {
        ReadFault::Read => Fault::Read,
        ReadFault::Reads => Fault::Reads,
        ReadFault::Memory => Fault::Memory,
    }
}

/// Writes all of the text, or a front of it that isn't all where a write fails.
pub fn write_all<W: Write>(writer: &mut Counted<W>, text: &[u8]) -> Result<(), Fault>
    ensures wrote { (part : List ℕ) × (rest : List ℕ) × (text.now ≡ part ++ rest)
        × Appends (W.contents (inner writer.old)) (W.contents (inner writer.new)) part
        × OnOk result (rest ≡ []) × OnErr result (0 < length rest) }
    ensures failed { IfErr result (λ fault.
        (fault ≡ Fault.Write) × (has_failed writer.new ≡ true)) }
    ensures well { OnOk result (has_failed writer.new ≡ has_failed writer.old) }
{
    let mut at = 0;
    'writes: while at < text.len() {
        match writer.write(&text[at..]) {
            Ok(count) => at += count,
            Err(_error) => return Err(Fault::Write),
        }
    }
    Ok(())
}

// Tells that the office has failed before: the one answer to a stream of which nothing is read.
pub(crate) fn tell_failed<W: Write>(writer: &mut Counted<W>) -> Result<Served, ServeFault>
    requires { has_failed writer.old ≡ false }
    ensures told { TellsFailed (W.contents (inner writer.old)) (W.contents (inner writer.new))
        result }
    ensures failed { IfErr result (λ fault.
        (fault.fault ≡ Fault.Write) × (has_failed writer.new ≡ true)) }
    ensures well { IfErr result (λ fault. fault.fault ≢ Fault.Write)
        → has_failed writer.new ≡ false }
{
    match write_all(writer, failed_text()) {
        Ok(()) => Ok(Served {
            requests: 1,
            by_rule: true,
        }),
        Err(fault) => Err(ServeFault { fault, answered: 0 }),
    }
}

// What is said ends the stream: the store has failed.
fn ends_stream(said: &Said) -> bool
    ensures { result ≡ ends_stream said.now }
{
    match said {
        Said::Reply(_) => false,
        Said::Answer(_) => false,
        Said::No(refused) => matches!(refused.rule, Rule::Store(_)),
    }
}

// Something was done for what is said, or may have been.
fn was_done(said: &Said) -> bool
    ensures { result ≡ was_done said.now }
{
    matches!(said, Said::Reply(_)) || ends_stream(said)
}

// How an item is answered to which this is said, and what follows it.
fn what_follows(item: &Item, said: &Said, left: u32) -> Behind
    requires { 0 < left }
    ensures bare { result.bare ≡ is_bare (next_item item.now) }
    ensures after { result.after ≡ left_then left (next_item item.now) said.now }
    ensures by_rule { result.by_rule ≡ is_bad (next_item item.now) }
    ensures falls { result.after < left }
{
    match item {
        Item::Whole(request) => Behind {
            bare: request.head.method.is_head(),
            after: if ends_stream(said) || request.head.closes {
                0
            } else {
                left - 1
            },
            by_rule: false,
        },
        Item::Bad { bare, .. } => Behind {
            bare: *bare,
            after: 0,
            by_rule: true,
        },
        Item::End => Behind {
            bare: false,
            after: 0,
            by_rule: false,
        },
    }
}

// Writes what is said, or the answer for want of memory where nothing was done. The buffer holds
// the answer meanwhile, and nothing of it is read before.
fn write_answer<W: Write>(
    said: &Said,
    close: bool,
    bare: bool,
    buffer: &mut Vec<u8>,
    writer: &mut Counted<W>,
) -> Result<(), Fault>
    ensures wrote { (told : Said) × (part : List ℕ) × (rest : List ℕ) × MaySend said.now told
        × (answer_of told close bare ≡ part ++ rest)
        × Appends (W.contents (inner writer.old)) (W.contents (inner writer.new)) part
        × OnOk result (rest ≡ []) × OnErr result (0 < length rest) }
    ensures failed { result ≡ Err Fault.Write → has_failed writer.new ≡ true }
    ensures well { result ≢ Err Fault.Write → has_failed writer.new ≡ has_failed writer.old }
    ensures only { IfErr result (λ fault. (fault ≢ Fault.Read) × (fault ≢ Fault.Reads)) }
{
    buffer.clear();
    if answer_bytes(said, close, bare, buffer).is_ok() {
        return write_all(writer, buffer.as_slice());
    }
    if was_done(said) {
        return Err(Fault::Memory);
    }
    write_all(writer, memory_text(close, bare))
}

// One turn: what the stream goes on with is read, replied to and answered. Says what follows; none
// where the stream is over.
fn turn<T, H: Responder<T>, R: NotedRead, W: Write>(
    responder: &H,
    state: &mut T,
    input: &mut Input<R>,
    buffer: &mut Vec<u8>,
    writer: &mut Counted<W>,
    left: u32,
) -> Result<Option<Behind>, Fault>
    requires { 0 < left }
    ensures answered { IfOk result (λ next. IfSome next (λ behind.
        AnswersOne (H.responds responder.now) left state.old
        (stream R.remaining input.old) (stream R.remaining input.new)
        (W.contents (inner writer.old)) (W.contents (inner writer.new)) behind state.new)) }
    ensures falls { IfOk result (λ next. IfSome next (λ behind. behind.after < left)) }
    ensures over { IfOk result (λ next. IfNone next (
        Leads (λ bytes rest. Next bytes ended rest)
        (stream R.remaining input.old) (stream R.remaining input.new)
        × (state.new ≡ state.old) × (writer.new ≡ writer.old))) }
    ensures fault { OnErr result (BreaksOff (H.responds responder.now) left state.old
        (stream R.remaining input.old)
        (W.contents (inner writer.old)) (W.contents (inner writer.new)) state.new) }
    ensures unread { IfErr result (λ fault. IsOfReader fault
        → (state.new ≡ state.old) × (writer.new ≡ writer.old)) }
    ensures held { HoldsFew input.old → HoldsFew input.new }
    ensures borrow { KeepsBorrow R.noted input.old input.new }
    ensures counts { CountsReads R.noted input.old input.new }
    ensures read { result ≡ Err Fault.Read → failed_of R.noted input.new ≡ true }
    ensures reads { result ≡ Err Fault.Reads → reads_made input.new ≡ read_limit }
    ensures reader { result ≢ Err Fault.Read
        → failed_of R.noted input.new ≡ failed_of R.noted input.old }
    ensures write { result ≡ Err Fault.Write → has_failed writer.new ≡ true }
    ensures writer { result ≢ Err Fault.Write → has_failed writer.new ≡ has_failed writer.old }
{
    let item = match read_request(input) {
        Ok(item) => item,
        Err(fault) => return Err(fault_of(fault)),
    };
    let said = match &item {
        Item::Whole(request) => responder.reply(state, request),
        Item::Bad { rule, .. } => Said::No(Refused::by_stream(*rule)),
        Item::End => return Ok(None),
    };
    let behind = what_follows(&item, &said, left);
    match write_answer(&said, behind.after == 0, behind.bare, buffer, writer) {
        Ok(()) => Ok(Some(behind)),
        Err(fault) => Err(fault),
    }
}

// Serves what an input has left. All answers are written from one buffer.
fn serve_input<T, H: Responder<T>, R: NotedRead, W: Write>(
    alloc: Global,
    responder: &H,
    state: &mut T,
    input: &mut Input<R>,
    writer: &mut Counted<W>,
) -> Result<Served, ServeFault>
    ensures served { IfOk result (λ served. Serves (H.responds responder.now) state.old
        (stream R.remaining input.old)
        (W.contents (inner writer.old)) (W.contents (inner writer.new))
        state.new served) }
    ensures fault { IfErr result (λ fault. ServesPart (H.responds responder.now) state.old
        (stream R.remaining input.old)
        (W.contents (inner writer.old)) (W.contents (inner writer.new))
        state.new fault.answered) }
    ensures whole { IfErr result (λ fault. IsOfReader fault.fault
        → ServesWhole (H.responds responder.now) state.old
        (stream R.remaining input.old)
        (W.contents (inner writer.old)) (W.contents (inner writer.new))
        state.new fault.answered) }
    ensures place { unused_of input.old ≡ [] → IfOk result (λ served.
        StandsBehind served.requests
        (stream R.remaining input.old) (R.remaining (reader_of input.new))) }
    ensures borrow { KeepsBorrow R.noted input.old input.new }
    ensures counts { CountsReads R.noted input.old input.new }
    ensures read { IfErr result (λ fault. fault.fault ≡ Fault.Read
        → failed_of R.noted input.new ≡ true) }
    ensures reads { IfErr result (λ fault. fault.fault ≡ Fault.Reads
        → reads_made input.new ≡ read_limit) }
    ensures reader { IfErr result (λ fault. fault.fault ≢ Fault.Read)
        → failed_of R.noted input.new ≡ failed_of R.noted input.old }
    ensures write { IfErr result (λ fault. fault.fault ≡ Fault.Write
        → has_failed writer.new ≡ true) }
    ensures writer { IfErr result (λ fault. fault.fault ≢ Fault.Write)
        → has_failed writer.new ≡ has_failed writer.old }
{
    let mut buffer = Vec::new(alloc);
    let mut left = MAX_REQUESTS;
    let mut requests: u64 = 0;
    let mut by_rule = false;
    'turns: while left > 0 {
        match turn(responder, state, input, &mut buffer, writer, left) {
            Ok(Some(behind)) => {
                left = behind.after;
                by_rule = behind.by_rule;
                requests += 1;
            }
            Ok(None) => return Ok(Served { requests, by_rule }),
            Err(fault) => {
                return Err(ServeFault {
                    fault,
                    answered: requests,
                });
            }
        }
    }
    Ok(Served { requests, by_rule })
}

/// Answers the requests in the bytes of a reader, one after another, up to the end of the stream.
///
/// What was written is the answers to the items of the stream, whose bytes alone decide it. After a
/// fault it is those of the first items, so many as the fault says, and a front of the next one's
/// that isn't all of it. `Read` comes just where a call of this reader failed, `Write` just where one
/// of this writer did, and `Reads` only after 1,000,000 reads of this reader. After `Read` and `Reads`
/// no request was taken whose answer wasn't written whole. However it ends, it makes no more reads
/// than these. Behind the last request fewer bytes are read than one read asks for, where a further
/// one might come.
pub fn serve_stream<T, H: Responder<T>, R: RequestRead, W: Write>(
    alloc: Global,
    responder: &H,
    state: &mut T,
    reader: &mut Counted<R>,
    writer: &mut Counted<W>,
) -> Result<Served, ServeFault>
    requires read { has_failed reader.old ≡ false }
    requires write { has_failed writer.old ≡ false }
    ensures served { IfOk result (λ served. Serves (H.responds responder.now) state.old
        (R.remaining (inner reader.old))
        (W.contents (inner writer.old)) (W.contents (inner writer.new))
        state.new served) }
    ensures fault { IfErr result (λ fault. ServesPart (H.responds responder.now) state.old
        (R.remaining (inner reader.old))
        (W.contents (inner writer.old)) (W.contents (inner writer.new))
        state.new fault.answered) }
    ensures whole { IfErr result (λ fault. IsOfReader fault.fault
        → ServesWhole (H.responds responder.now) state.old
        (R.remaining (inner reader.old))
        (W.contents (inner writer.old)) (W.contents (inner writer.new))
        state.new fault.answered) }
    ensures place { IfOk result (λ served. StandsBehind served.requests
        (R.remaining (inner reader.old)) (R.remaining (inner reader.new))) }
    ensures read_failed { IfErr result (λ fault. fault.fault ≡ Fault.Read
        → has_failed reader.new ≡ true) }
    ensures write_failed { IfErr result (λ fault. fault.fault ≡ Fault.Write
        → has_failed writer.new ≡ true) }
    ensures too_many_reads { IfErr result (λ fault. fault.fault ≡ Fault.Reads
        → reads_of reader.new ≡ reads_of reader.old + read_limit) }
    ensures few_reads { reads_of reader.new ≤ reads_of reader.old + read_limit }
    ensures reader_well { IfErr result (λ fault. fault.fault ≢ Fault.Read)
        → has_failed reader.new ≡ false }
    ensures writer_well { IfErr result (λ fault. fault.fault ≢ Fault.Write)
        → has_failed writer.new ≡ false }
{
    let mut input = Input::new(alloc, reader);
    let result = serve_input(alloc, responder, state, &mut input, writer);
    // No effect at run time. The proof reads what the reader is from this use of it.
    let reader = input.into_reader();
    let _ = &*reader;
    result
}
