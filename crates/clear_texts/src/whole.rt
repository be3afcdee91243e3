//! A document that is appended whole, or not at all.
ghost use Rattle.std.specs.Prelude.{◌≡◌, ◌++◌, IfOk, OnErr, string_bytes};

use std::alloc::AllocError;

/// Appends what was written. Nothing is copied where the text is still empty: it becomes that. A
/// refusal, for want of memory, leaves the text as it was.
pub(crate) fn append_whole(text: &mut String, written: String) -> Result<(), AllocError>
    ensures appended { IfOk result (λ _. string_bytes text.new
        ≡ string_bytes text.old ++ string_bytes written) }
    ensures unchanged { OnErr result (string_bytes text.new ≡ string_bytes text.old) }
{
    if text.is_empty() {
        *text = written;
        return Ok(());
    }
    text.push_str(written.as_str())
}
