//! Which bytes a text may hold, and numbers in decimal among them.
ghost use Rattle.std.specs.Prelude.{◌≡◌, ◌++◌, IfOk};
ghost use Rattle.std.specs.Fmt.{decimal};
ghost use Rattle.std.specs.List.{list_all};
ghost use Rattle.clear_money.specs.Bytes.{is_printable, is_visible};

use std::alloc::AllocError;

/// Whether each byte is one from 0x21 to 0x7E: no space and no control character.
pub fn are_visible(bytes: &[u8]) -> bool
    ensures { result ≡ list_all is_visible bytes.now }
{
    bytes.iter().all(|byte| *byte >= 0x21 && *byte <= 0x7E)
}

/// Whether each byte is one from 0x20 on, but not 0x7F: no control character.
pub fn are_printable(bytes: &[u8]) -> bool
    ensures { result ≡ list_all is_printable bytes.now }
{
    bytes.iter().all(|byte| *byte >= 0x20 && *byte != 0x7F)
}

/// Appends a text, and a number in decimal.
pub fn append_number(out: &mut Vec<u8>, before: &[u8], number: u64) -> Result<(), AllocError>
    ensures { IfOk result (λ _. out.new.items ≡ out.old.items ++ before.now ++ decimal number) }
{
    let digits = number.to_string(*out.allocator())?;
    out.extend_from_slice(before)?;
    out.extend_from_slice(digits.as_bytes())
}
