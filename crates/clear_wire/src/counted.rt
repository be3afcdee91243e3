//! Readers and writers that note whether a call of them has failed, and readers of requests.
ghost use Rattle.std.specs.Prelude.{◌≡◌, ◌<◌, false, length, IfOk, Some};
ghost use Rattle.std.specs.Io.{ReadsAtMost, WritesAtMost};
ghost use Rattle.std.specs.Io.KnownBytes.{Keeps, ReadConsumes, WriteAppends};
ghost use Rattle.clear_wire.specs.Counted.{inner, has_failed, reads_of};
ghost use Rattle.clear_wire.specs.Counted.{Noted, noted_of, Notes, NotesRead};

use std::io;
use std::io::{Read, Stdin, Write};

/// A reader or a writer, whether a call of it has failed, and how many reads of it haven't.
#[derive(Drop)]
pub struct Counted<T> {
    inner: T,
    failed: bool,
    reads: u64,
}

impl<T> Counted<T> {
    /// No call of it was made yet.
    pub fn new(value: T) -> Counted<T>
        ensures inner { inner result ≡ value }
        ensures fresh { has_failed result ≡ false }
        ensures unread { reads_of result ≡ 0 }
    {
        Counted {
            inner: value,
            failed: false,
            reads: 0,
        }
    }

    /// Whether a call of it has failed: it gave an error, or a write took none of some bytes.
    pub fn has_failed(&self) -> bool
        ensures { result ≡ has_failed self.now }
    {
        self.failed
    }

    /// Notes the failure of a call that ended so.
    fn note<A>(&mut self, outcome: io::Result<A>) -> io::Result<A>
        ensures outcome { result ≡ outcome }
        ensures inner { inner self.new ≡ inner self.old }
        ensures noted { Notes (noted_of self.old) (noted_of self.new) result }
    {
        if outcome.is_err() {
            self.failed = true;
        }
        outcome
    }
}

/// A reader of requests, which is told when it has to give one. Few readers need to know.
pub trait RequestRead: Read {
    /// The next request is awaited. Where it has begun, some of its bytes were given already, with
    /// those of the request before it. Nothing is read.
    fn await_request(&mut self, _begun: bool)
        ensures { Self.remaining self.new ≡ Self.remaining self.old }
    {}
}

impl RequestRead for Stdin {}

impl RequestRead for &[u8] {}

impl<R: RequestRead> RequestRead for &mut R {
    fn await_request(&mut self, begun: bool) {
        (**self).await_request(begun);
    }
}

/// A reader whose failures are noted, and whose other reads are counted.
pub trait NotedRead: Read {
    ghost noted: { Self → Noted };

    /// Tells that the next request is awaited, and whether some of its bytes were given already.
    fn await_noted(&mut self, begun: bool)
        ensures bytes { Self.remaining self.new ≡ Self.remaining self.old }
        ensures noted { noted self.new ≡ noted self.old };

    /// Reads as `read` does, and notes an error.
    fn read_noted(&mut self, buf: &mut [u8]) -> io::Result<usize>
        ensures bound { ReadsAtMost result buf.new }
        ensures bytes { ReadConsumes (Self.remaining self.old) (Self.remaining self.new)
            result buf.new }
        ensures noted { NotesRead (noted self.old) (noted self.new) result };
}

impl<R: Read> Read for Counted<R> {
    ghost remaining = { λ c. R.remaining (inner c) };

    /// A read that can't be counted any more fails.
    fn read(&mut self, buf: &mut [u8]) -> io::Result<usize>
        ensures bound { ReadsAtMost result buf.new }
        ensures bytes { ReadConsumes (R.remaining (inner self.old)) (R.remaining (inner self.new))
            result buf.new }
        ensures noted { NotesRead (noted_of self.old) (noted_of self.new) result }
    {
        if self.reads == u64::MAX {
            return self.note(Err(io::ErrorKind::Other.into()));
        }
        let outcome = self.inner.read(buf);
        if outcome.is_ok() {
            self.reads += 1;
        }
        self.note(outcome)
    }
}

impl<R: RequestRead> NotedRead for Counted<R> {
    ghost noted = { noted_of };

    fn await_noted(&mut self, begun: bool) {
        self.inner.await_request(begun);
    }

    fn read_noted(&mut self, buf: &mut [u8]) -> io::Result<usize> {
        self.read(buf)
    }
}

impl<R: NotedRead> NotedRead for &mut R {
    ghost noted = { λ r. record (R.noted r.now) { borrow = Some r.ghost_name } };

    fn await_noted(&mut self, begun: bool) {
        (**self).await_noted(begun);
    }

    fn read_noted(&mut self, buf: &mut [u8]) -> io::Result<usize> {
        (**self).read_noted(buf)
    }
}

impl<W: Write> Write for Counted<W> {
    ghost contents = { λ c. W.contents (inner c) };

    /// A write that takes none of some bytes counts as one that failed.
    fn write(&mut self, buf: &[u8]) -> io::Result<usize>
        ensures bound { WritesAtMost result buf.now }
        ensures bytes { WriteAppends (W.contents (inner self.old)) (W.contents (inner self.new))
            result buf.now }
        ensures some { IfOk result (λ count. 0 < length buf.now → 0 < count) }
        ensures noted { Notes (noted_of self.old) (noted_of self.new) result }
    {
        let outcome = match self.inner.write(buf) {
            Ok(0) if !buf.is_empty() => Err(io::ErrorKind::WriteZero.into()),
            Ok(count) => Ok(count),
            Err(e) => Err(e),
        };
        self.note(outcome)
    }

    fn flush(&mut self) -> io::Result<()>
        ensures bytes { Keeps (W.contents (inner self.old)) (W.contents (inner self.new)) }
        ensures noted { Notes (noted_of self.old) (noted_of self.new) result }
    {
        let outcome = self.inner.flush();
        self.note(outcome)
    }
}
