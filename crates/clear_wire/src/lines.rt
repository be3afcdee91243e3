//! Where a head begins and ends.
ghost use Rattle.std.specs.Prelude.{◌≡◌, ◌≤◌, length, take, drop, IfSome};
ghost use Rattle.clear_wire.specs.Lines.{empty_line_len, skip_empty_lines, head_len};
ghost use Rattle.clear_wire.specs.Lines.{HasNoEndBefore};

use crate::limits::MAX_HEAD_BYTES;

/// How many bytes the empty line at the front has, and 0 where none stands there.
fn empty_line_len(bytes: &[u8]) -> usize
    ensures len { result ≡ empty_line_len bytes.now }
    ensures within { result ≤ length bytes.now }
{
    match bytes {
        [b'\n', ..] => 1,
        [b'\r', b'\n', ..] => 2,
        _ => 0,
    }
}

/// How many bytes the empty lines at the front have together.
pub(crate) fn empty_lines_len(bytes: &[u8]) -> usize
    ensures within { result ≤ length bytes.now }
    ensures skips { drop result bytes.now ≡ skip_empty_lines bytes.now }
{
    let mut at = 0;
    while at < bytes.len() {
        let len = empty_line_len(&bytes[at..]);
        if len == 0 {
            return at;
        }
        at += len;
    }
    at
}

/// How many bytes the head at the front has, if its end is there. The search begins at `from`.
fn head_len(bytes: &[u8], from: usize) -> Option<usize>
    requires within { from ≤ length bytes.now }
    requires none_before { HasNoEndBefore from bytes.now }
    ensures len { result ≡ head_len bytes.now }
    ensures within { IfSome result (λ len. len ≤ length bytes.now) }
{
    for i in from..bytes.len() {
        if bytes[i] == b'\n' {
            let len = empty_line_len(&bytes[i + 1..]);
            if len > 0 {
                return Some(i + 1 + len);
            }
        }
    }
    None
}

/// How many bytes the head at the front has, if its end is among the bytes that a head may have.
/// The search begins at `from`.
pub(crate) fn limited_head_len(bytes: &[u8], from: usize) -> Option<usize>
    requires within { from ≤ length (take MAX_HEAD_BYTES bytes.now) }
    requires none_before { HasNoEndBefore from (take MAX_HEAD_BYTES bytes.now) }
    ensures len { result ≡ head_len (take MAX_HEAD_BYTES bytes.now) }
    ensures within { IfSome result (λ len. len ≤ length bytes.now) }
{
    head_len(&bytes[..MAX_HEAD_BYTES.min(bytes.len())], from)
}
