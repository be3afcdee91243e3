//! Streams to an office, whose readers and writers fail.
use crate::runs::{Act, Desk, is_right};
use clear_http::desk::serve;
use clear_http::serve::{Fault, ServeFault, Served};
use clear_office::office::Office;
use clear_wire::counted::{Counted, RequestRead};
use sqlite::Alter;
use std::alloc::Global;
use std::io;
use std::io::{Read, Write};

// A firm is registered, reports, and asks what it owes.
const REQUESTS: &str = "POST /employers HTTP/1.1\r\nHost: office\r\nOffice-Key: desk\r\n\
    Request-Number: 1\r\nContent-Length: 53\r\n\r\n\
    {\"employer\":1001,\"name\":\"Bau Nord\",\"start\":\"2024-01\"}\
    POST /employers/1001/reports/2024-01 HTTP/1.1\r\nHost: office\r\n\
    Office-Key: k1001\r\nRequest-Number: 1\r\nContent-Length: 40\r\n\r\n\
    {\"lines\":[{\"gross\":1000000,\"worker\":7}]}\
    GET /employers/1001/owed HTTP/1.1\r\nHost: office\r\nOffice-Key: k1001\r\n\r\n";

const ANSWERS: &str = "HTTP/1.1 200 OK\r\nContent-Type: application/json\r\n\
    Content-Length: 13\r\n\r\n{\"done\":true}\
    HTTP/1.1 200 OK\r\nContent-Type: application/json\r\n\
    Content-Length: 29\r\n\r\n{\"charge\":200000,\"version\":1}\
    HTTP/1.1 200 OK\r\nContent-Type: application/json\r\n\
    Content-Length: 60\r\n\r\n\
    {\"arrears\":200000,\"charged\":200000,\"credited\":0,\"prepaid\":0}";

// The first request, and the head of a second one with a body of a million bytes.
const BEGINNING: &str = "POST /employers HTTP/1.1\r\nHost: office\r\nOffice-Key: desk\r\n\
    Request-Number: 1\r\nContent-Length: 53\r\n\r\n\
    {\"employer\":1001,\"name\":\"Bau Nord\",\"start\":\"2024-01\"}\
    POST /bank HTTP/1.1\r\nHost: office\r\nOffice-Key: desk\r\n\
    Request-Number: 2\r\nContent-Length: 1000000\r\n\r\n";

// A reader that gives at most so many bytes a call, and whose calls fail after so many.
#[derive(Drop)]
struct FailingReader<'a> {
    rest: &'a [u8],
    step: usize,
    left: usize,
}

impl Read for FailingReader<'_> {
    fn read(&mut self, buf: &mut [u8]) -> io::Result<usize> {
        if self.left == 0 {
            return Err(io::ErrorKind::Other.into());
        }
        self.left -= 1;
        let most = self.step.min(buf.len());
        self.rest.read(&mut buf[..most])
    }
}

impl RequestRead for FailingReader<'_> {}

// A writer that takes at most 40 bytes a call, and whose calls fail after so many.
#[derive(Drop)]
struct FailingWriter<'a> {
    taken: &'a mut Vec<u8>,
    left: usize,
}

impl Write for FailingWriter<'_> {
    fn write(&mut self, buf: &[u8]) -> io::Result<usize> {
        if self.left == 0 {
            return Err(io::ErrorKind::Other.into());
        }
        self.left -= 1;
        let most = buf.len().min(40);
        self.taken.write(&buf[..most])
    }

    fn flush(&mut self) -> io::Result<()> {
        Ok(())
    }
}

// A stream: its bytes, how many of them a read gives at most, and after how many calls its reads
// and its writes fail.
#[derive(Clone, Copy)]
struct Stream<'a> {
    bytes: &'a [u8],
    step: usize,
    reads: usize,
    writes: usize,
}

// Serves a stream, and what is written is appended to what was taken.
fn served<S: Alter>(
    desk: &Desk,
    office: &mut Office<S>,
    stream: Stream<'_>,
    taken: &mut Vec<u8>,
) -> Result<Served, ServeFault> {
    let mut reader = Counted::new(FailingReader {
        rest: stream.bytes,
        step: stream.step,
        left: stream.reads,
    });
    let mut writer = Counted::new(FailingWriter {
        taken,
        left: stream.writes,
    });
    serve(
        desk.alloc,
        office,
        &desk.callers,
        desk.day,
        &mut reader,
        &mut writer,
    )
}

/// The answers to the requests of a text, of whose stream nothing fails.
pub(crate) fn answers<S: Alter>(
    desk: &Desk,
    office: &mut Office<S>,
    text: &str,
) -> Option<Vec<u8>> {
    let stream = Stream {
        bytes: text.as_bytes(),
        step: 4096,
        reads: 1000,
        writes: 1000,
    };
    let mut taken = Vec::new(desk.alloc);
    match served(desk, office, stream, &mut taken) {
        Ok(_) => Some(taken),
        Err(_) => None,
    }
}

// A stream that is not served to its end: why, and how many answers are written whole.
#[derive(Drop)]
struct Broken<'a> {
    stream: Stream<'a>,
    fault: Fault,
    answered: u64,
}

fn is_same(fault: Fault, other: Fault) -> bool {
    match (fault, other) {
        (Fault::Read, Fault::Read) => true,
        (Fault::Write, Fault::Write) => true,
        (Fault::Reads, Fault::Reads) => true,
        _ => false,
    }
}

// Whether the requests have all their answers.
fn answers_all<S: Alter>(desk: &Desk, office: &mut Office<S>) -> bool {
    match answers(desk, office, REQUESTS) {
        Some(taken) => taken.as_slice() == ANSWERS.as_bytes(),
        None => false,
    }
}

impl Act for Broken<'_> {
    // A front of all answers is written, so many of them whole. Sent again to the office, all requests
    // have the answers that they would have had.
    fn is_right<S: Alter>(&mut self, desk: &Desk, office: &mut Office<S>) -> bool {
        let mut taken = Vec::new(desk.alloc);
        match served(desk, office, self.stream, &mut taken) {
            Ok(_) => false,
            Err(broken) => {
                is_same(broken.fault, self.fault)
                    && broken.answered == self.answered
                    && ANSWERS.as_bytes().starts_with(taken.as_slice())
                    && answers_all(desk, office)
            }
        }
    }
}

// The requests come in 6 reads, and a seventh finds their end. After so many reads, how many are
// answered: each is before a further read.
const READ: [u64; 7] = [0, 0, 0, 1, 1, 2, 3];

// After so many writes, how many answers are written whole: they have 84, 100 and 131 bytes, 3, 3
// and 4 writes.
const WRITTEN: [u64; 10] = [0, 0, 0, 1, 1, 1, 2, 2, 2, 2];

fn breaks_at_read(desk: &Desk, reads: usize, answered: u64) -> bool {
    let stream = Stream {
        bytes: REQUESTS.as_bytes(),
        step: 64,
        reads,
        writes: 1000,
    };
    is_right(
        desk,
        &mut Broken {
            stream,
            fault: Fault::Read,
            answered,
        },
    )
}

fn breaks_at_write(desk: &Desk, writes: usize, answered: u64) -> bool {
    let stream = Stream {
        bytes: REQUESTS.as_bytes(),
        step: 4096,
        reads: 1000,
        writes,
    };
    is_right(
        desk,
        &mut Broken {
            stream,
            fault: Fault::Write,
            answered,
        },
    )
}

// A body of a million bytes that comes a byte a call uses up the reads, once the request before it is
// answered.
fn uses_up_the_reads(desk: &Desk) -> bool {
    let Ok(bytes) = Vec::from_slice(desk.alloc, BEGINNING.as_bytes()) else {
        return false;
    };
    let mut bytes = bytes;
    if bytes.resize(1_000_200, b'x').is_err() {
        return false;
    }
    let stream = Stream {
        bytes: bytes.as_slice(),
        step: 1,
        reads: 1_000_200,
        writes: 1000,
    };
    is_right(
        desk,
        &mut Broken {
            stream,
            fault: Fault::Reads,
            answered: 1,
        },
    )
}

/// An office goes on after each stream that is broken off.
pub(crate) fn all_hold(desk: &Desk) -> bool {
    for (reads, answered) in READ.iter().enumerate() {
        if !breaks_at_read(desk, reads, *answered) {
            return false;
        }
    }
    for (writes, answered) in WRITTEN.iter().enumerate() {
        if !breaks_at_write(desk, writes, *answered) {
            return false;
        }
    }
    uses_up_the_reads(desk)
}
