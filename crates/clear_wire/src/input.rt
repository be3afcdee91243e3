//! A stream of requests over a reader.
ghost use Rattle.std.specs.Prelude.{◌≡◌, ◌≢◌, ℕ, ◌+◌, ◌<◌, ◌≤◌, true, false, Ok, Err, IfOk, OnOk};
ghost use Rattle.std.specs.Prelude.{IsOkAnd, List, [], ◌++◌, length, take, drop, max};
ghost use Rattle.std.specs.Io.KnownBytes.{Keeps, IsAtEnd};
ghost use Rattle.clear_wire.specs.Limits.{body_limit, read_limit};

use crate::counted::NotedRead;
use crate::head::{ParsedHead, RequestHead, parse_head};
use crate::limits::{CHUNK, MAX_HEAD_BYTES, MAX_READS};
use crate::lines::{empty_lines_len, limited_head_len};
use crate::request::{Item, Request};
use crate::rule::{FramingStatus, StreamRule};
use std::alloc::{AllocError, Global};
use std::mem;

/// Why reading stopped before it could say what the stream goes on with.
#[derive(Clone, Copy)]
pub enum ReadFault {
    /// A call of the reader failed.
    Read,
    /// All reads that a stream may make were made.
    Reads,
    /// There was no memory.
    Memory,
}

/// What stands at the front of a stream.
#[derive(Clone, Copy)]
pub(crate) enum Place {
    /// A head of so many bytes, all of which came.
    Head(usize),
    /// The end of the input.
    Nothing,
    /// A part of a head, and then the end of the input.
    Unended,
    /// More bytes than a head may have.
    TooLong,
}

/// A reader, the bytes that came and weren't used yet, how many reads didn't fail, and whether the
/// stream has ended.
#[derive(Drop)]
pub struct Input<R> {
    alloc: Global,
    reader: R,
    unused: Vec<u8>,
    reads: u32,
    ended: bool,
    ghost counted: { reads ≤ read_limit },
}

fn empty_chunk() -> [u8; CHUNK]
    ensures { length result ≡ CHUNK }
{
    [0; CHUNK]
}

/// Drops bytes from the front. Where none stay, or all do, no byte is moved.
fn drop_front(bytes: &mut Vec<u8>, count: usize)
    requires { count ≤ length bytes.old.items }
    ensures { bytes.new.items ≡ drop count bytes.old.items }
{
    if count == bytes.len() {
        bytes.clear();
    } else if count > 0 {
        bytes.drain(..count);
    }
}

/// Takes bytes from the front, without a copy of these.
fn take_front(bytes: &mut Vec<u8>, count: usize) -> Result<Vec<u8>, AllocError>
    requires { count ≤ length bytes.old.items }
    ensures front { IfOk result (λ front. front.items ≡ take count bytes.old.items) }
    ensures rest { OnOk result (bytes.new.items ≡ drop count bytes.old.items) }
{
    let rest = bytes.split_off(count)?;
    Ok(mem::replace(bytes, rest))
}

impl<R> Input<R> {
    ghost use Rattle.clear_wire.specs.Input.{reader_of, unused_of, reads_made, has_ended};

    /// The stream that this reader gives. Nothing is read yet.
    pub fn new(alloc: Global, reader: R) -> Input<R>
        ensures reader { reader_of result ≡ reader }
        ensures unused { unused_of result ≡ [] }
        ensures reads { reads_made result ≡ 0 }
        ensures open { has_ended result ≡ false }
    {
        Input {
            alloc,
            reader,
            unused: Vec::new(alloc),
            reads: 0,
            ended: false,
        }
    }

    /// The reader. Bytes that came and weren't used are lost.
    pub fn into_reader(self) -> R
        ensures reader { result ≡ reader_of self }
        ensures few { reads_made self ≤ read_limit }
    {
        let Input {
            alloc: _,
            reader,
            unused: _,
            reads: _,
            ended: _,
        } = self;
        reader
    }

    /// Whether the stream has ended, so that nothing more is read.
    pub fn has_ended(&self) -> bool
        ensures { result ≡ has_ended self.now }
    {
        self.ended
    }

    /// Notes whether the stream has ended.
    pub(crate) fn set_ended(&mut self, ended: bool)
        ensures ended { has_ended self.new ≡ ended }
        ensures reader { reader_of self.new ≡ reader_of self.old }
        ensures unused { unused_of self.new ≡ unused_of self.old }
        ensures reads { reads_made self.new ≡ reads_made self.old }
    {
        self.ended = ended;
    }
}

impl<R: NotedRead> Input<R> {
    ghost use Rattle.clear_wire.specs.Input.{unread, reader_of, unused_of, reads_made};
    ghost use Rattle.clear_wire.specs.Input.{placed, IsPlacedWithin, head_room};
    ghost use Rattle.clear_wire.specs.Input.{failed_of, NotesFault, CountsReads, KeepsBorrow};
    ghost use Rattle.clear_wire.specs.Parsed.{heading};
    ghost use Rattle.clear_wire.specs.Known.{Leads};
    ghost use Rattle.clear_wire.specs.Lines.{skip_empty_lines};
    ghost use Rattle.clear_wire.specs.Request.{next_item, held_limit};
    ghost use Rattle.clear_wire.specs.Stream.{front, head, taken, left_behind, NextAt};

    /// Reads once. It answers false at the end of the input. No byte is lost, whatever it answers.
    fn read_more(&mut self) -> Result<bool, ReadFault>
        ensures keeps { Keeps (unread R.remaining self.old) (unread R.remaining self.new) }
        ensures end { result ≡ Ok false → IsAtEnd (R.remaining (reader_of self.new)) }
        ensures same { result ≡ Ok false → unused_of self.new ≡ unused_of self.old }
        ensures grows { (more : List ℕ) × (unused_of self.new ≡ unused_of self.old ++ more) }
        ensures few { length (unused_of self.new) ≤ length (unused_of self.old) + CHUNK }
        ensures turn { IfOk result (λ _. reads_made self.new ≡ reads_made self.old + 1) }
        ensures limit { result ≡ Err ReadFault.Reads → reads_made self.new ≡ MAX_READS }
        ensures memory { result ≡ Err ReadFault.Memory → reads_made self.new ≢ MAX_READS }
        ensures spent { reads_made self.old ≡ MAX_READS → result ≡ Err ReadFault.Reads }
        ensures fault { NotesFault R.noted self.old self.new result }
        ensures reads { CountsReads R.noted self.old self.new }
        ensures borrow { KeepsBorrow R.noted self.old self.new }
    {
        if self.reads == MAX_READS {
            return Err(ReadFault::Reads);
        }
        if self.unused.reserve(CHUNK).is_err() {
            return Err(ReadFault::Memory);
        }
        let mut chunk = empty_chunk();
        match self.reader.read_noted(&mut chunk) {
            Ok(count) => {
                self.reads += 1;
                self.unused.extend_from_slice(&chunk[..count]).unwrap();
                Ok(count > 0)
            }
            Err(_) => Err(ReadFault::Read),
        }
    }

    /// Drops the empty lines at the front.
    fn drop_empty_lines(&mut self)
        ensures skips { Leads (λ old new. skip_empty_lines new ≡ skip_empty_lines old)
            (unread R.remaining self.old) (unread R.remaining self.new) }
        ensures none_left { skip_empty_lines (unused_of self.new) ≡ unused_of self.new }
        ensures fewer { length (unused_of self.new) ≤ length (unused_of self.old) }
        ensures reader { reader_of self.new ≡ reader_of self.old }
        ensures reads { reads_made self.new ≡ reads_made self.old }
    {
        let count = empty_lines_len(self.unused.as_slice());
        drop_front(&mut self.unused, count);
    }

    /// Drops the empty lines that came already, and tells the reader that a request is awaited.
    fn begin(&mut self)
        ensures skips { Leads (λ old new. skip_empty_lines new ≡ skip_empty_lines old)
            (unread R.remaining self.old) (unread R.remaining self.new) }
        ensures fewer { length (unused_of self.new) ≤ length (unused_of self.old) }
        ensures made { reads_made self.new ≡ reads_made self.old }
        ensures failed { failed_of R.noted self.new ≡ failed_of R.noted self.old }
        ensures reads { CountsReads R.noted self.old self.new }
        ensures borrow { KeepsBorrow R.noted self.old self.new }
    {
        self.drop_empty_lines();
        let begun = !self.unused.is_empty();
        self.reader.await_noted(begun);
    }

    /// Reads up to the first line that isn't empty, and drops the empty ones before it. It answers
    /// false where the input ends before two bytes of that line came.
    fn skip_lines(&mut self) -> Result<bool, ReadFault>
        ensures skips { IfOk result (λ _.
            Leads (λ old new. skip_empty_lines new ≡ skip_empty_lines old)
            (unread R.remaining self.old) (unread R.remaining self.new)) }
        ensures none_left { IfOk result (λ _.
            skip_empty_lines (unused_of self.new) ≡ unused_of self.new) }
        ensures begun { result ≡ Ok true → 2 ≤ length (unused_of self.new) }
        ensures short { result ≡ Ok false → length (unused_of self.new) < 2 }
        ensures ahead { length (unused_of self.new)
            < max (length (unused_of self.old) + 1) (2 + CHUNK) }
        ensures end { result ≡ Ok false → IsAtEnd (R.remaining (reader_of self.new)) }
        ensures limit { result ≡ Err ReadFault.Reads → reads_made self.new ≡ MAX_READS }
        ensures memory { result ≡ Err ReadFault.Memory → reads_made self.new ≢ MAX_READS }
        ensures spent { reads_made self.old ≡ MAX_READS → unused_of self.old ≡ []
            → result ≡ Err ReadFault.Reads }
        ensures fault { NotesFault R.noted self.old self.new result }
        ensures reads { CountsReads R.noted self.old self.new }
        ensures borrow { KeepsBorrow R.noted self.old self.new }
    {
        self.begin();
        'reads: loop {
            self.drop_empty_lines();
            if self.unused.len() >= 2 {
                return Ok(true);
            }
            if !self.read_more()? {
                return Ok(false);
            }
        }
    }

    /// Finds the end of the head whose first bytes came, reading as far as it needs.
    fn find_end(&mut self) -> Result<Place, ReadFault>
        requires none_left { skip_empty_lines (unused_of self.old) ≡ unused_of self.old }
        requires begun { 2 ≤ length (unused_of self.old) }
        ensures front { IfOk result (λ place. Leads (λ old new. front old ≡ placed place new)
            (unread R.remaining self.old) (unread R.remaining self.new)) }
        ensures within { IfOk result (λ place.
            IsPlacedWithin place (length (unused_of self.new))) }
        ensures ahead { IfOk result (λ place. (2 ≤ head_room place) × (length (unused_of self.new)
            < max (length (unused_of self.old) + 1) (head_room place + CHUNK))) }
        ensures some { IfOk result (λ place. place ≢ Place.Nothing) }
        ensures limit { result ≡ Err ReadFault.Reads → reads_made self.new ≡ MAX_READS }
        ensures memory { result ≡ Err ReadFault.Memory → reads_made self.new ≢ MAX_READS }
        ensures fault { NotesFault R.noted self.old self.new result }
        ensures reads { CountsReads R.noted self.old self.new }
        ensures borrow { KeepsBorrow R.noted self.old self.new }
    {
        // The head ends nowhere before this place.
        let mut searched = 0;
        'reads: loop {
            if let Some(len) = limited_head_len(self.unused.as_slice(), searched) {
                return Ok(Place::Head(len));
            }
            if self.unused.len() >= MAX_HEAD_BYTES {
                return Ok(Place::TooLong);
            }
            searched = self.unused.len() - 2;
            if !self.read_more()? {
                return Ok(Place::Unended);
            }
        }
    }

    /// Finds the head at the front, reading as far as it needs.
    pub(crate) fn find_head(&mut self) -> Result<Place, ReadFault>
        ensures front { IfOk result (λ place. Leads (λ old new. front old ≡ placed place new)
            (unread R.remaining self.old) (unread R.remaining self.new)) }
        ensures within { IfOk result (λ place.
            IsPlacedWithin place (length (unused_of self.new))) }
        ensures ahead { IfOk result (λ place. length (unused_of self.new)
            < max (length (unused_of self.old) + 1) (head_room place + CHUNK)) }
        ensures end { IsOkAnd result (λ place. place ≡ Place.Nothing)
            → IsAtEnd (R.remaining (reader_of self.new)) }
        ensures limit { result ≡ Err ReadFault.Reads → reads_made self.new ≡ MAX_READS }
        ensures memory { result ≡ Err ReadFault.Memory → reads_made self.new ≢ MAX_READS }
        ensures spent { reads_made self.old ≡ MAX_READS → unused_of self.old ≡ []
            → result ≡ Err ReadFault.Reads }
        ensures fault { NotesFault R.noted self.old self.new result }
        ensures reads { CountsReads R.noted self.old self.new }
        ensures borrow { KeepsBorrow R.noted self.old self.new }
    {
        if self.skip_lines()? {
            return self.find_end();
        }
        if self.unused.is_empty() {
            return Ok(Place::Nothing);
        }
        Ok(Place::Unended)
    }

    /// Reads until so many unused bytes are there. It answers false where the input ends before.
    fn fill(&mut self, len: usize) -> Result<bool, ReadFault>
        ensures keeps { Keeps (unread R.remaining self.old) (unread R.remaining self.new) }
        ensures ahead { length (unused_of self.new)
            < max (length (unused_of self.old) + 1) (len + CHUNK) }
        ensures filled { result ≡ Ok true → len ≤ length (unused_of self.new) }
        ensures short { result ≡ Ok false → length (unused_of self.new) < len }
        ensures end { result ≡ Ok false → IsAtEnd (R.remaining (reader_of self.new)) }
        ensures limit { result ≡ Err ReadFault.Reads → reads_made self.new ≡ MAX_READS }
        ensures memory { result ≡ Err ReadFault.Memory → reads_made self.new ≢ MAX_READS }
        ensures spent { reads_made self.old ≡ MAX_READS → length (unused_of self.old) < len
            → result ≡ Err ReadFault.Reads }
        ensures fault { NotesFault R.noted self.old self.new result }
        ensures reads { CountsReads R.noted self.old self.new }
        ensures borrow { KeepsBorrow R.noted self.old self.new }
    {
        'reads: while self.unused.len() < len {
            if !self.read_more()? {
                return Ok(false);
            }
        }
        Ok(true)
    }

    /// Takes the body of a request, whose head is taken already.
    fn take_body(&mut self, head: RequestHead, len: usize) -> Result<Item, ReadFault>
        ensures next { IfOk result (λ item. Leads (λ bytes rest.
            (next_item item, left_behind (next_item item) rest)
            ≡ taken (Ok (heading head, len)) bytes)
            (unread R.remaining self.old) (unread R.remaining self.new)) }
        ensures goes_on { IfOk result (λ item. item ≢ Item.End) }
        ensures ahead { len ≤ body_limit → IfOk result (λ item. length (unused_of self.new)
            < max (length (unused_of self.old) + 1) (held_limit item)) }
        ensures limit { result ≡ Err ReadFault.Reads → reads_made self.new ≡ MAX_READS }
        ensures spent { reads_made self.old ≡ MAX_READS → length (unused_of self.old) < len
            → result ≡ Err ReadFault.Reads }
        ensures fault { NotesFault R.noted self.old self.new result }
        ensures reads { CountsReads R.noted self.old self.new }
        ensures borrow { KeepsBorrow R.noted self.old self.new }
    {
        if !self.fill(len)? {
            return Ok(Item::Bad {
                rule: StreamRule::BadFraming(FramingStatus::BadRequest),
                bare: head.method.is_head(),
            });
        }
        match take_front(&mut self.unused, len) {
            Ok(body) => Ok(Item::Whole(Request { head, body })),
            Err(_) => Err(ReadFault::Memory),
        }
    }

    /// Takes the request whose head has so many bytes.
    pub(crate) fn take_request(&mut self, len: usize) -> Result<Item, ReadFault>
        requires { len ≤ length (unused_of self.old) }
        ensures next { IfOk result (λ item. Leads (λ bytes rest.
            NextAt (head (take len bytes) (drop len bytes)) (next_item item)
            (left_behind (next_item item) rest))
            (unread R.remaining self.old) (unread R.remaining self.new)) }
        ensures goes_on { IfOk result (λ item. item ≢ Item.End) }
        ensures ahead { IfOk result (λ item. length (unused_of self.new) + len
            < max (length (unused_of self.old) + 1) (len + held_limit item)) }
        ensures limit { result ≡ Err ReadFault.Reads → reads_made self.new ≡ MAX_READS }
        ensures fault { NotesFault R.noted self.old self.new result }
        ensures reads { CountsReads R.noted self.old self.new }
        ensures borrow { KeepsBorrow R.noted self.old self.new }
    {
        match parse_head(self.alloc, &self.unused[..len]) {
            Ok(parsed) => {
                drop_front(&mut self.unused, len);
                match parsed {
                    ParsedHead::Asks { head, len } => self.take_body(head, len as usize),
                    ParsedHead::Breaks { rule, bare } => Ok(Item::Bad { rule, bare }),
                }
            }
            Err(_) => Err(ReadFault::Memory),
        }
    }
}
