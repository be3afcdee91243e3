//! Streams in pieces and at their limits, and readers and writers that fail.
ghost use Rattle.std.specs.Prelude.{◌<◌, Some};

use clear_wire::counted::{Counted, RequestRead};
use clear_wire::input::{Input, ReadFault};
use clear_wire::laws::law_one_cut;
use clear_wire::limits::{MAX_BODY_BYTES, MAX_FIELD_LINES, MAX_HEAD_BYTES};
use clear_wire::method::Method;
use clear_wire::request::{Item, Request, read_request};
use clear_wire::rule::{FramingStatus, StreamRule};
use std::alloc::{AllocError, Global};
use std::io;
use std::io::{ErrorKind, Read, Write};

// Bytes that come in pieces of at most so many, until the reads are used up and one fails.
#[derive(Drop)]
struct Drip<'a> {
    rest: &'a [u8],
    step: usize,
    reads: u32,
    ghost some: { 0 < step },
}

impl Read for Drip<'_> {
    ghost remaining = { λ d. Some d.rest.now };

    fn read(&mut self, buf: &mut [u8]) -> io::Result<usize> {
        if self.reads == 0 {
            return Err(ErrorKind::Other.into());
        }
        self.reads -= 1;
        let most = self.step.min(buf.len());
        self.rest.read(&mut buf[..most])
    }
}

impl RequestRead for Drip<'_> {}

// The head of a request, and then the same byte for ever, one a read.
#[derive(Drop)]
struct Endless<'a> {
    head: &'a [u8],
}

impl Read for Endless<'_> {
    fn read(&mut self, buf: &mut [u8]) -> io::Result<usize> {
        if buf.is_empty() {
            return Ok(0);
        }
        match self.head {
            [first, rest @ ..] => {
                buf[0] = *first;
                self.head = rest;
            }
            [] => buf[0] = b'x',
        }
        Ok(1)
    }
}

impl RequestRead for Endless<'_> {}

// A writer that has no room.
#[derive(Drop)]
struct Full;

impl Write for Full {
    fn write(&mut self, _buf: &[u8]) -> io::Result<usize> {
        Ok(0)
    }

    fn flush(&mut self) -> io::Result<()> {
        Err(ErrorKind::Other.into())
    }
}

// Four requests, and a fifth that states no length.
const STREAM: &[u8] = b"\r\n\nPOST /employers HTTP/1.1\r\nHost: a\r\nOffice-Key: k\r\n\
    Request-Number: 17\r\nContent-Length: 2\r\n\r\n{}\
    GET /owed HTTP/1.1\r\nhost: a\r\noffice-key: a\r\nOFFICE-KEY: b\r\n\
    request-number: \t8 \r\n\r\n\
    HEAD /x HTTP/1.1\nHost:a\n\n\
    \r\nPUT /late HTTP/1.0\r\nContent-Length: 4\r\n\r\nrest\
    POST /late HTTP/1.1\r\nHost: a\r\n\r\nrest";

// What a request of the stream says.
struct Said {
    method: Method,
    target: &'static [u8],
    office_key: Option<&'static [u8]>,
    request_number: Option<&'static [u8]>,
    closes: bool,
    body: &'static [u8],
}

const FIRST: Said = Said {
    method: Method::Post,
    target: b"/employers",
    office_key: Some(b"k"),
    request_number: Some(b"17"),
    closes: false,
    body: b"{}",
};

const SECOND: Said = Said {
    method: Method::Get,
    target: b"/owed",
    office_key: None,
    request_number: Some(b"8"),
    closes: false,
    body: b"",
};

const THIRD: Said = Said {
    method: Method::Head,
    target: b"/x",
    office_key: None,
    request_number: None,
    closes: false,
    body: b"",
};

const FOURTH: Said = Said {
    method: Method::Put,
    target: b"/late",
    office_key: None,
    request_number: None,
    closes: true,
    body: b"rest",
};

fn is_text(found: &Option<Vec<u8>>, text: Option<&[u8]>) -> bool {
    match (found, text) {
        (Some(found), Some(text)) => found.as_slice() == text,
        (None, None) => true,
        _ => false,
    }
}

fn says(request: &Request, said: &Said) -> bool {
    request.head.method == said.method
        && request.head.target.as_slice() == said.target
        && is_text(&request.head.office_key, said.office_key)
        && is_text(&request.head.request_number, said.request_number)
        && request.head.closes == said.closes
        && request.body.as_slice() == said.body
}

// What a stream goes on with, in words.
fn told(next: &Result<Item, ReadFault>) -> &'static str {
    match next {
        Ok(Item::Whole(_)) => "request",
        Ok(Item::End) => "end",
        Ok(Item::Bad { rule, .. }) => named(*rule),
        Err(ReadFault::Read) => "failed read",
        Err(ReadFault::Reads) => "too many reads",
        Err(ReadFault::Memory) => "no memory",
    }
}

fn named(rule: StreamRule) -> &'static str {
    match rule {
        StreamRule::BadHead => "bad head",
        StreamRule::TooLarge => "too large",
        StreamRule::BadFraming(FramingStatus::NotImplemented) => "not implemented",
        StreamRule::BadFraming(FramingStatus::ExpectationFailed) => "expectation failed",
        StreamRule::BadFraming(FramingStatus::LengthRequired) => "length required",
        StreamRule::BadFraming(FramingStatus::BadRequest) => "bad request",
    }
}

fn is_bare(next: &Result<Item, ReadFault>) -> bool {
    matches!(next, Ok(Item::Bad { bare: true, .. }))
}

// The stream above in pieces.
type Pieces = Input<Counted<Drip<'static>>>;

// It comes so many bytes a read, with so many reads before one fails.
fn pieces(alloc: Global, step: usize, reads: u32) -> Pieces
    requires { 0 < step }
{
    Input::new(
        alloc,
        Counted::new(Drip {
            rest: STREAM,
            step,
            reads,
        }),
    )
}

fn goes_on(input: &mut Pieces, said: &Said) -> bool {
    match read_request(input) {
        Ok(Item::Whole(request)) => says(&request, said),
        _ => false,
    }
}

fn ends(input: &mut Pieces, rule: &str) -> bool {
    let next = read_request(input);
    told(&next) == rule
        && !is_bare(&next)
        && input.has_ended()
        && told(&read_request(input)) == "end"
}

// Whether the requests are the same in pieces of so many bytes.
fn comes_whole(alloc: Global, step: usize) -> bool
    requires { 0 < step }
{
    let mut input = pieces(alloc, step, 1000);
    goes_on(&mut input, &FIRST)
        && goes_on(&mut input, &SECOND)
        && goes_on(&mut input, &THIRD)
        && goes_on(&mut input, &FOURTH)
        && ends(&mut input, "length required")
        && !input.into_reader().has_failed()
}

// Whether so many requests come before a read fails.
fn fails_after(alloc: Global, reads: u32, before: u32) -> bool {
    let mut input = pieces(alloc, 60, reads);
    (0..before).all(|_| told(&read_request(&mut input)) == "request")
        && ends(&mut input, "failed read")
        && input.into_reader().has_failed()
}

fn next_from<R: RequestRead>(alloc: Global, reader: &mut Counted<R>) -> Result<Item, ReadFault> {
    let mut input = Input::new(alloc, reader);
    read_request(&mut input)
}

// Whether a body that comes a byte a read uses up the reads, none of which fails.
fn uses_up_the_reads(alloc: Global) -> bool {
    let head = b"POST /bank HTTP/1.1\r\nHost: a\r\nContent-Length: 1000000\r\n\r\n";
    let mut reader = Counted::new(Endless { head });
    let next = next_from(alloc, &mut reader);
    told(&next) == "too many reads" && !reader.has_failed()
}

// Whether a write of nothing succeeds, and one of something fails and is noted.
fn notes_a_failed_write() -> bool {
    let mut writer = Counted::new(Full);
    writer.write(b"").is_ok()
        && !writer.has_failed()
        && writer.write(b"a").is_err()
        && writer.has_failed()
}

fn notes_a_failed_flush() -> bool {
    let mut writer = Counted::new(Full);
    writer.flush().is_err() && writer.has_failed()
}

#[test]
fn a_stream_comes_whole_or_fails(rt: HostRuntime) {
    let alloc = rt.alloc();
    assert!(rt; comes_whole(alloc, 1) && comes_whole(alloc, 7) && comes_whole(alloc, 399));
    assert!(rt; fails_after(alloc, 0, 0) && fails_after(alloc, 1, 0));
    assert!(rt; fails_after(alloc, 2, 1) && fails_after(alloc, 4, 3));
    assert!(rt; uses_up_the_reads(alloc));
    assert!(rt; notes_a_failed_write() && notes_a_failed_flush());
    law_one_cut();
}

// A stream, what it goes on with, and whether that has no body.
const STREAMS: [(&str, &str, bool); 14] = [
    ("\r", "bad head", false),
    ("GET / HTTP/1.1\r\nHost: a\r\n", "bad head", false),
    ("GET / HTTP/2.0\r\nHost: a\r\n\r\n", "bad head", false),
    ("HEAD / HTTP/1.1\r\n\r\n", "bad head", true),
    (
        "GET / HTTP/1.1\r\nHost: a\r\nhost: a\r\n\r\n",
        "bad head",
        false,
    ),
    (
        "PUT / HTTP/1.1\r\nHost: a\r\nExpect: x\r\nTransfer-Encoding: chunked\r\n\r\n",
        "not implemented",
        false,
    ),
    (
        "PUT / HTTP/1.1\r\nHost: a\r\nExpect: 100-continue\r\n\r\n",
        "expectation failed",
        false,
    ),
    (
        "POST / HTTP/1.1\r\nHost: a\r\nContent-Length: 1\r\nContent-Length: 1\r\n\r\nx",
        "bad request",
        false,
    ),
    (
        "POST / HTTP/1.1\r\nHost: a\r\nContent-Length: +1\r\n\r\nx",
        "bad request",
        false,
    ),
    (
        "HEAD / HTTP/1.1\r\nHost: a\r\nContent-Length: 5\r\n\r\nbody",
        "bad request",
        true,
    ),
    (
        "POST / HTTP/1.1\r\nHost: a\r\nContent-Length: 1048577\r\n\r\n",
        "too large",
        false,
    ),
    (
        "GET / HTTP/1.1\r\nHost: a\r\nContent-Length: 99999999999999999999999\r\n\r\n",
        "too large",
        false,
    ),
    ("", "end", false),
    ("\r\n\n", "end", false),
];

// Whether a stream goes on with this.
fn has_next(alloc: Global, bytes: &[u8], word: &str, bare: bool) -> bool {
    let next = next_from(alloc, &mut Counted::new(bytes));
    told(&next) == word && is_bare(&next) == bare
}

// Heads of at least so many bytes, with so many field lines beside `Host` and `X`.
const HEADS: [(usize, usize, &str); 4] = [
    (MAX_HEAD_BYTES, 0, "request"),
    (MAX_HEAD_BYTES + 1, 0, "too large"),
    (0, MAX_FIELD_LINES - 2, "request"),
    (0, MAX_FIELD_LINES - 1, "too large"),
];

fn long_head(alloc: Global, len: usize, lines: usize) -> Result<Vec<u8>, AllocError> {
    let mut bytes = Vec::from_slice(alloc, b"GET / HTTP/1.1\r\nHost: a\r\n")?;
    for _ in 0..lines {
        bytes.extend_from_slice(b"X: y\r\n")?;
    }
    bytes.extend_from_slice(b"X: ")?;
    let fill = len.saturating_sub(bytes.len()).saturating_sub(4);
    bytes.resize(bytes.len().saturating_add(fill), b'y')?;
    bytes.extend_from_slice(b"\r\n\r\n")?;
    Ok(bytes)
}

fn has_limit(alloc: Global, len: usize, lines: usize, word: &str) -> bool {
    match long_head(alloc, len, lines) {
        Ok(bytes) => has_next(alloc, bytes.as_slice(), word, false),
        Err(_) => false,
    }
}

// Whether the input may end within a head of the greatest length.
fn ends_within_a_head(alloc: Global) -> bool {
    match long_head(alloc, MAX_HEAD_BYTES + 1, 0) {
        Ok(bytes) => match bytes.as_slice().get(..MAX_HEAD_BYTES - 1) {
            Some(front) => has_next(alloc, front, "bad head", false),
            None => false,
        },
        Err(_) => false,
    }
}

fn long_body(alloc: Global) -> Result<Vec<u8>, AllocError> {
    let head = b"POST / HTTP/1.1\r\nHost: a\r\nContent-Length: 1048576\r\n\r\n";
    let mut bytes = Vec::from_slice(alloc, head)?;
    bytes.resize(bytes.len().saturating_add(MAX_BODY_BYTES as usize), b'x')?;
    Ok(bytes)
}

fn takes_the_longest_body(alloc: Global) -> bool {
    match long_body(alloc) {
        Ok(bytes) => has_next(alloc, bytes.as_slice(), "request", false),
        Err(_) => false,
    }
}

#[test]
fn a_stream_is_refused_for_its_first_bad_bytes(rt: HostRuntime) {
    let alloc = rt.alloc();
    assert!(rt;
        STREAMS.iter().all(|(bytes, word, bare)| has_next(alloc, bytes.as_bytes(), word, *bare))
    );
    assert!(rt;
        HEADS
            .iter()
            .all(|(len, lines, word)| has_limit(alloc, *len, *lines, word))
    );
    assert!(rt; ends_within_a_head(alloc));
    assert!(rt; takes_the_longest_body(alloc));
}
