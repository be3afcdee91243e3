//! A field of a head, found by its name.
ghost use Rattle.std.specs.Prelude.{◌≡◌, List, [], ◌∷◌, ◌++◌, length, map, All};
ghost use Rattle.httparse.specs.Spans.{IsHeaderWithin, header_bytes};
ghost use Rattle.clear_wire.specs.Fields.{Pair, is_same_text, field};
ghost use Rattle.clear_wire.specs.Fields.{presence_found, is_absent, is_once};

use httparse::spans::HeaderSpan;

/// What a head has of a name: no field, one with its value, or several.
#[derive(Clone, Copy)]
pub(crate) enum Found<'a> {
    Absent,
    Once(&'a [u8]),
    Several,
}

impl<'a> Found<'a> {
    /// Whether no field has the name.
    pub(crate) fn is_absent(self) -> bool
        ensures { result ≡ is_absent (presence_found self.entry) }
    {
        matches!(self, Found::Absent)
    }

    /// Whether just one field has the name.
    pub(crate) fn is_once(self) -> bool
        ensures { result ≡ is_once (presence_found self.entry) }
    {
        matches!(self, Found::Once(_))
    }
}

/// Whether the texts are equal, the case of ASCII letters ignored.
pub(crate) fn is_same_text(a: &[u8], b: &[u8]) -> bool
    ensures { result ≡ is_same_text a.now b.now }
{
    a.eq_ignore_ascii_case(b)
}

/// What was found so far, and one more field.
fn add<'a>(found: Found<'a>, name: &[u8], field_name: &[u8], value: &'a [u8]) -> Found<'a>
    ensures { (before : List Pair) → presence_found found.entry ≡ field name.now before
        → presence_found result ≡ field name.now (before ++ (field_name.now, value.now) ∷ []) }
{
    if !is_same_text(field_name, name) {
        return found;
    }
    match found {
        Found::Absent => Found::Once(value),
        _ => Found::Several,
    }
}

/// What a head, whose bytes are `buf`, has of this name. The case of its letters is ignored.
pub(crate) fn find<'a>(buf: &'a [u8], headers: &[HeaderSpan], name: &[u8]) -> Found<'a>
    requires { All (IsHeaderWithin (length buf.now)) headers.now }
    ensures { presence_found result ≡ field name.now (map (header_bytes buf.now) headers.now) }
{
    let mut found = Found::Absent;
    for header in headers {
        found = add(found, name, header.name.of(buf), header.value.of(buf));
    }
    found
}
