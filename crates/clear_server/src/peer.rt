//! The peer of a connection: what it sends, within the time that it has for it.

ghost use Rattle.std.specs.Io.{ReadsAtMost};

use clear_wire::counted::RequestRead;
use std::io;
use std::io::{ErrorKind, Read, Write};
use std::net::{Shutdown, TcpListener, TcpStream};
use std::time::{Duration, Instant};

// How many seconds a request may take from its first byte to its last.
const REQUEST_TIME: u64 = 30;

// For so many seconds a peer may send nothing inside a request, or take nothing.
const PATIENCE: u64 = 10;

// How many seconds a connection may stay open without a request.
const IDLE_TIME: u64 = 30;

// So many seconds a new connection has for its first byte, though others wait.
const FIRST_TIME: u64 = 1;

// How many milliseconds pass between two looks for others that wait.
const TURN: u64 = 10;

// How many looks, and tries of one read or of one write, are made at most: after as many the time is
// over, whatever the clock says.
const TURNS: u64 = 1_000 * IDLE_TIME / TURN;

// How many seconds a peer that was answered may go on sending before its connection is closed.
const LAST_TIME: u64 = 2;

/// What a peer sends, within the time that it has for it: 30 seconds from a request's first byte to
/// its last, and 10 for each read. A read that takes longer fails.
///
/// A connection without a request may stay open for 30 seconds, or until another one waits; a new
/// one is left a second for its first byte. Then it ends as at its end of input.
#[derive(Drop)]
pub(crate) struct Peer<'a> {
    rt: &'a HostRuntime,
    stream: &'a TcpStream,
    // Where others wait, if this one is to be ended for them.
    others: Option<&'a TcpListener>,
    // The one for which it was ended.
    next: Option<TcpStream>,
    // A byte has come.
    spoke: bool,
    // No byte of the awaited request has come.
    idle: bool,
    // Since when the rest of that request is read.
    since: Option<Instant>,
}

impl<'a> Peer<'a> {
    /// A peer that has sent nothing so far.
    pub(crate) fn new(
        rt: &'a HostRuntime,
        stream: &'a TcpStream,
        others: Option<&'a TcpListener>,
    ) -> Peer<'a> {
        Peer {
            rt,
            stream,
            others,
            next: None,
            spoke: false,
            idle: true,
            since: None,
        }
    }

    /// The connection for which this one was ended.
    pub(crate) fn into_next(self) -> Option<TcpStream> {
        self.next
    }

    // Reads what begins a request. It answers as at the end of the input where the time is over.
    fn read_first(&mut self, buf: &mut [u8]) -> io::Result<usize>
        ensures { ReadsAtMost result buf.new }
    {
        let start = Instant::now(self.rt)?;
        for _ in 0..TURNS {
            match read_within(self.stream, Duration::from_millis(TURN), buf) {
                Err(error) if has_nothing(&error) => {}
                Ok(count) => {
                    self.spoke = true;
                    self.idle = false;
                    return Ok(count);
                }
                Err(error) => return Err(error),
            }
            if self.is_over(start.elapsed(self.rt)?) {
                break;
            }
        }
        Ok(0)
    }

    // Whether the time is over in which a request may begin, or another connection waits.
    fn is_over(&mut self, idle: Duration) -> bool {
        if idle >= Duration::from_secs(IDLE_TIME) {
            return true;
        }
        if !self.spoke && idle < Duration::from_secs(FIRST_TIME) {
            return false;
        }
        if let Some(listener) = self.others {
            self.next = take_waiting(listener);
        }
        self.next.is_some()
    }

    // Reads what goes on with a request. A read that a stop of the program broke off is made again,
    // in the time that is left.
    fn read_rest(&mut self, buf: &mut [u8]) -> io::Result<usize>
        ensures { ReadsAtMost result buf.new }
    {
        let since = match self.since {
            Some(since) => since,
            None => Instant::now(self.rt)?,
        };
        self.since = Some(since);
        for _ in 0..TURNS {
            let left = Duration::from_secs(REQUEST_TIME).saturating_sub(since.elapsed(self.rt)?);
            match read_within(self.stream, left.min(Duration::from_secs(PATIENCE)), buf) {
                Err(error) if error.kind() == ErrorKind::Interrupted => {}
                read => return read,
            }
        }
        Err(ErrorKind::TimedOut.into())
    }
}

impl Read for Peer<'_> {
    fn read(&mut self, buf: &mut [u8]) -> io::Result<usize> {
        if self.idle {
            return self.read_first(buf);
        }
        self.read_rest(buf)
    }
}

impl RequestRead for Peer<'_> {
    fn await_request(&mut self, begun: bool) {
        self.idle = !begun;
        self.since = None;
    }
}

// Nothing came in the time of a read, or a stop of the program broke it off.
fn has_nothing(error: &io::Error) -> bool {
    matches!(error.kind(), ErrorKind::WouldBlock | ErrorKind::Interrupted)
}

// Reads what comes within a time.
fn read_within(mut stream: &TcpStream, time: Duration, buf: &mut [u8]) -> io::Result<usize>
    ensures { ReadsAtMost result buf.new }
{
    if time.is_zero() {
        return Err(ErrorKind::TimedOut.into());
    }
    stream.set_read_timeout(Some(time))?;
    stream.read(buf)
}

/// What a peer takes. It may take nothing for 10 seconds: then a write fails. A write that a stop of
/// the program broke off, before the peer took a byte of it, is made again.
#[derive(Drop)]
pub(crate) struct Taker<'a> {
    stream: &'a TcpStream,
}

impl<'a> Taker<'a> {
    /// Of a connection, each of whose writes fails from now on where its peer takes nothing in time.
    pub(crate) fn new(stream: &'a TcpStream) -> io::Result<Taker<'a>> {
        stream.set_write_timeout(Some(Duration::from_secs(PATIENCE)))?;
        Ok(Taker { stream })
    }
}

impl Write for Taker<'_> {
    fn write(&mut self, buf: &[u8]) -> io::Result<usize> {
        let mut stream = self.stream;
        for _ in 0..TURNS {
            match stream.write(buf) {
                Err(error) if error.kind() == ErrorKind::Interrupted => {}
                written => return written,
            }
        }
        Err(ErrorKind::TimedOut.into())
    }

    fn flush(&mut self) -> io::Result<()> {
        Ok(())
    }
}

// Takes the connection that waits, if one does.
fn take_waiting(listener: &TcpListener) -> Option<TcpStream> {
    if listener.set_nonblocking(true).is_err() {
        return None;
    }
    let accepted = listener.accept();
    let _ = listener.set_nonblocking(false);
    match accepted {
        Ok((stream, _peer)) => Some(stream),
        Err(_) => None,
    }
}

/// Ends what is sent to a peer that was answered, and reads what it still sends: a connection that
/// is closed over bytes that weren't read is reset, and the peer may lose its answer. Where it has
/// `more` to send, it is left 2 seconds for that.
pub(crate) fn close_after_answer(
    rt: &HostRuntime,
    stream: &TcpStream,
    more: bool,
) -> io::Result<()> {
    stream.shutdown(Shutdown::Write)?;
    let start = Instant::now(rt)?;
    let mut rest = [0u8; 4096];
    for _ in 0..u64::MAX {
        let left = Duration::from_secs(LAST_TIME).saturating_sub(start.elapsed(rt)?);
        let time = if more {
            left
        } else {
            left.min(Duration::from_millis(TURN))
        };
        if read_within(stream, time, &mut rest)? == 0 {
            break;
        }
    }
    Ok(())
}
