//! How long a request's body is, and whether a further request follows.
ghost use Rattle.std.specs.Prelude.{◌≡◌, ◌≤◌, ◌+◌, min, List, [], ◌∷◌, ◌++◌, length, map, All};
ghost use Rattle.std.specs.Prelude.{if◌then◌else◌, IfOk};
ghost use Rattle.std.specs.List.{list_any};
ghost use Rattle.std.specs.Str.Parse.{digits_value};
ghost use Rattle.httparse.specs.Spans.{IsHeaderWithin, header_bytes};
ghost use Rattle.clear_wire.specs.Fields.{Pair, presence_found};
ghost use Rattle.clear_wire.specs.Framing.{is_number, stated_len, len_by, body_len};
ghost use Rattle.clear_wire.specs.Framing.{is_closing, closes};

use crate::fields::{Found, find, is_same_text};
use crate::limits::MAX_BODY_BYTES;
use crate::method::Method;
use crate::rule::{FramingStatus, StreamRule};
use httparse::spans::HeaderSpan;

/// The number that the digits give. Each one above the limit counts as the first above it.
fn capped_number(text: &[u8]) -> Option<u64>
    ensures { result ≡ (if is_number text.now
        then Some (min (digits_value 10 text.now) (MAX_BODY_BYTES + 1)) else None) }
{
    if text.is_empty() {
        return None;
    }
    let mut number: u64 = 0;
    for byte in text {
        if !byte.is_ascii_digit() {
            return None;
        }
        number = (number * 10 + u64::from(*byte - b'0')).min(MAX_BODY_BYTES + 1);
    }
    Some(number)
}

/// The length that one `Content-Length` states.
fn stated_len(text: &[u8]) -> Result<u64, StreamRule>
    ensures len { result ≡ stated_len text.now }
    ensures small { IfOk result (λ len. len ≤ MAX_BODY_BYTES) }
{
    match capped_number(text) {
        None => Err(StreamRule::BadFraming(FramingStatus::BadRequest)),
        Some(len) if len > MAX_BODY_BYTES => Err(StreamRule::TooLarge),
        Some(len) => Ok(len),
    }
}

/// The length that the `Content-Length` fields give.
fn len_by(method: Method, found: Found<'_>) -> Result<u64, StreamRule>
    ensures len { result ≡ len_by method (presence_found found.entry) }
    ensures small { IfOk result (λ len. len ≤ MAX_BODY_BYTES) }
{
    match found {
        Found::Absent if method.needs_length() => {
            Err(StreamRule::BadFraming(FramingStatus::LengthRequired))
        }
        Found::Absent => Ok(0),
        Found::Once(text) => stated_len(text),
        Found::Several => Err(StreamRule::BadFraming(FramingStatus::BadRequest)),
    }
}

/// The length of the body, or the first rule that the head breaks. `minor` is the 1 of HTTP/1.1.
pub(crate) fn body_len(
    minor: u8,
    method: Method,
    buf: &[u8],
    headers: &[HeaderSpan],
) -> Result<u64, StreamRule>
    requires { All (IsHeaderWithin (length buf.now)) headers.now }
    ensures len { result ≡ body_len minor method (map (header_bytes buf.now) headers.now) }
    ensures small { IfOk result (λ len. len ≤ MAX_BODY_BYTES) }
{
    if minor == 1 && !find(buf, headers, b"host").is_once() {
        return Err(StreamRule::BadHead);
    }
    if !find(buf, headers, b"transfer-encoding").is_absent() {
        return Err(StreamRule::BadFraming(FramingStatus::NotImplemented));
    }
    if !find(buf, headers, b"expect").is_absent() {
        return Err(StreamRule::BadFraming(FramingStatus::ExpectationFailed));
    }
    len_by(method, find(buf, headers, b"content-length"))
}

/// Whether a field closes, where those before it do or don't.
fn add_closing(closes: bool, name: &[u8], value: &[u8]) -> bool
    ensures { (before : List Pair) → closes ≡ list_any is_closing before
        → result ≡ list_any is_closing (before ++ (name.now, value.now) ∷ []) }
{
    closes || is_same_text(name, b"connection") && is_same_text(value, b"close")
}

/// Whether no request follows.
pub(crate) fn closes(minor: u8, buf: &[u8], headers: &[HeaderSpan]) -> bool
    requires { All (IsHeaderWithin (length buf.now)) headers.now }
    ensures { result ≡ closes minor (map (header_bytes buf.now) headers.now) }
{
    let mut closes = false;
    for header in headers {
        closes = add_closing(closes, header.name.of(buf), header.value.of(buf));
    }
    minor == 0 || closes
}
