//! What lines are made of.
ghost use Rattle.std.specs.Prelude.{◌≡◌, IfOk, map, take, string_bytes};
ghost use Rattle.std.specs.List.{concat};
ghost use Rattle.clear_check.specs.Shown.{plural, shown, shown_byte};

use std::alloc::{AllocError, Global};

// How many bytes of a value are shown.
const MAX_SHOWN: usize = 40;

/// These parts, one after another.
pub fn joined(alloc: Global, parts: &[&str]) -> Result<String, AllocError>
    ensures { IfOk result (λ text. string_bytes text ≡ concat (map (λ part. part.now) parts.now)) }
{
    let mut text = String::new(alloc);
    for part in parts {
        text.push_str(part)?;
    }
    Ok(text)
}

/// What stands behind the word for a thing of which there are so many: nothing for one, else `s`.
pub fn plural(count: usize) -> &'static str
    ensures { result.now ≡ plural count }
{
    if count == 1 { "" } else { "s" }
}

/// A value of a file as it is shown: its first 40 bytes, with a `?` for each that is no plain ASCII
/// text. An empty value is shown as two quotation marks.
pub fn shown(alloc: Global, value: &[u8]) -> Result<String, AllocError>
    ensures { IfOk result (λ text. string_bytes text ≡ shown value.now) }
{
    if value.is_empty() {
        return String::from_str(alloc, "\"\"");
    }
    in_line(alloc, front_of(value))
}

// So much of a value as is shown.
fn front_of(value: &[u8]) -> &[u8]
    ensures { result.now ≡ take 40 value.now }
{
    if value.len() > MAX_SHOWN {
        &value[..MAX_SHOWN]
    } else {
        value
    }
}

// A text as it stands in a line.
pub(crate) fn in_line(alloc: Global, text: &[u8]) -> Result<String, AllocError>
    ensures { IfOk result (λ line. string_bytes line ≡ map shown_byte text.now) }
{
    let mut line = String::new(alloc);
    for byte in text {
        line.push(char::from(shown_byte(*byte)))?;
    }
    Ok(line)
}

fn shown_byte(byte: u8) -> u8
    ensures { result ≡ shown_byte byte }
{
    match byte {
        b' '..=b'~' => byte,
        _ => b'?',
    }
}
