//! What the bytes of a head say.
ghost use Rattle.std.specs.Prelude.{◌≡◌, ◌≤◌, length, map, All, IfOk, IfSome, IfNone};
ghost use Rattle.std.specs.Option.{option_map};
ghost use Rattle.httparse.specs.Spans.{IsWithin, IsHeaderWithin, header_bytes, span_bytes};
ghost use Rattle.httparse.specs.Spans.{IsRequestOf, IsRequestWithin};
ghost use Rattle.clear_wire.specs.Fields.{presence_found, only};
ghost use Rattle.clear_wire.specs.Head.{meaning_from, line_count, HasNoHead, Parses};
ghost use Rattle.clear_wire.specs.Parsed.{meaning, body_asked, items_of};

use crate::fields::{Found, find};
use crate::framing::{body_len, closes};
use crate::limits::{MAX_BODY_BYTES, MAX_FIELD_LINES};
use crate::method::Method;
use crate::rule::StreamRule;
use httparse::Status;
use httparse::spans::{EMPTY_HEADER_SPAN, HeaderSpan, RequestSpans, parse_request};
use std::alloc::{AllocError, Global};

/// The first line, the empty one and as many field lines as a head may have.
const MAX_LINES: usize = MAX_FIELD_LINES + 2;

/// What the head of a request says.
#[derive(Drop)]
pub struct RequestHead {
    pub method: Method,
    /// The target's bytes as they came.
    pub target: Vec<u8>,
    /// The value of `Office-Key`, if it stands just once.
    pub office_key: Option<Vec<u8>>,
    /// The value of `Request-Number`, if it stands just once.
    pub request_number: Option<Vec<u8>>,
    /// Whether no request follows: HTTP/1.0, or a field `Connection: close`.
    pub closes: bool,
}

/// What the bytes of a head come to.
#[derive(Drop)]
pub(crate) enum ParsedHead {
    /// A request whose body has so many bytes.
    Asks { head: RequestHead, len: u64 },
    /// The rule that the head breaks. `bare`: it was read whole and its method is `HEAD`.
    Breaks { rule: StreamRule, bare: bool },
}

/// How many lines the bytes end.
fn count_lines(head: &[u8]) -> usize
    ensures { result ≡ line_count head.now }
{
    head.iter().filter(|b| **b == b'\n').count()
}

/// A copy of the value of a field that stands just once.
fn copy_once(alloc: Global, found: Found<'_>) -> Result<Option<Vec<u8>>, AllocError>
    ensures { IfOk result (λ copy.
        option_map items_of copy ≡ only (presence_found found.entry)) }
{
    match found {
        Found::Once(value) => Ok(Some(Vec::from_slice(alloc, value)?)),
        _ => Ok(None),
    }
}

/// What the parts of a head come to.
fn parse_parts(
    alloc: Global,
    head: &[u8],
    spans: &RequestSpans,
    headers: &[HeaderSpan],
) -> Result<ParsedHead, AllocError>
    requires method { IsWithin (length head.now) spans.now.method }
    requires path { IsWithin (length head.now) spans.now.path }
    requires headers { All (IsHeaderWithin (length head.now)) headers.now }
    ensures meaning { IfOk result (λ parsed. meaning parsed
        ≡ meaning_from spans.now.version (span_bytes head.now spans.now.method)
        (span_bytes head.now spans.now.path) (map (header_bytes head.now) headers.now)) }
    ensures small { IfOk result (λ parsed. body_asked parsed ≤ MAX_BODY_BYTES) }
{
    let method = Method::from_name(spans.method.of(head));
    match body_len(spans.version, method, head, headers) {
        Ok(len) => {
            let head = RequestHead {
                method,
                target: Vec::from_slice(alloc, spans.path.of(head))?,
                office_key: copy_once(alloc, find(head, headers, b"office-key"))?,
                request_number: copy_once(alloc, find(head, headers, b"request-number"))?,
                closes: closes(spans.version, head, headers),
            };
            Ok(ParsedHead::Asks { head, len })
        }
        Err(rule) => {
            let bare = method.is_head();
            Ok(ParsedHead::Breaks { rule, bare })
        }
    }
}

/// The parts of a head, if the bytes are one and nothing follows it.
fn parse_whole(head: &[u8], headers: &mut [HeaderSpan]) -> Option<RequestSpans>
    requires room { length headers.old ≡ MAX_FIELD_LINES }
    requires lines { line_count head.now ≤ MAX_LINES }
    ensures found { IfSome result (IsRequestOf head.now headers.new) }
    ensures within { IfSome result (IsRequestWithin head.now headers.new) }
    ensures whole { IfSome result (λ spans. spans.len ≡ length head.now) }
    ensures none { IfNone result (HasNoHead head.now) }
{
    match parse_request(head, headers) {
        Ok(Status::Complete(spans)) => {
            if spans.len == head.len() {
                Some(spans)
            } else {
                None
            }
        }
        Ok(Status::Partial) => None,
        Err(_) => None,
    }
}

/// What the bytes of a head come to, from its first byte to the end of its empty line.
pub(crate) fn parse_head(alloc: Global, head: &[u8]) -> Result<ParsedHead, AllocError>
    ensures parses { IfOk result (λ parsed. Parses head.now (meaning parsed)) }
    ensures small { IfOk result (λ parsed. body_asked parsed ≤ MAX_BODY_BYTES) }
{
    if count_lines(head) > MAX_LINES {
        return Ok(ParsedHead::Breaks {
            rule: StreamRule::TooLarge,
            bare: false,
        });
    }
    let mut headers = [EMPTY_HEADER_SPAN; MAX_FIELD_LINES];
    match parse_whole(head, &mut headers) {
        Some(spans) => parse_parts(alloc, head, &spans, &headers[..spans.headers]),
        None => Ok(ParsedHead::Breaks {
            rule: StreamRule::BadHead,
            bare: false,
        }),
    }
}
