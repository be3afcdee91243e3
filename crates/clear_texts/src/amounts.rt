//! Amounts of money as documents write them.
ghost use Rattle.std.specs.Prelude.{◌≡◌, ◌++◌, IfOk, string_bytes};
ghost use Rattle.clear_book.specs.Documents.Amounts.{amount_text, euros_text};

use std::alloc::AllocError;
use std::fmt::Write;

/// Appends a text, and an amount of cents in euros with two digits of cents, right in 14 places. An
/// `Err` may leave a part of it.
pub(crate) fn append_amount(text: &mut String, before: &str, cents: u64) -> Result<(), AllocError>
    ensures { IfOk result (λ _. string_bytes text.new
        ≡ string_bytes text.old ++ before.now ++ amount_text cents) }
{
    text.push_str(before)?;
    write_amount(text, cents)
}

// Eleven places of euros, the point and two digits are the 14 places.
fn write_amount(text: &mut String, cents: u64) -> Result<(), AllocError>
    ensures { IfOk result (λ _. string_bytes text.new
        ≡ string_bytes text.old ++ amount_text cents) }
{
    write!(text, "{:>11}.{:02}", cents / 100, cents % 100)
}

/// Appends a text, and an amount of cents in euros with two digits of cents. An `Err` may leave a
/// part of it.
pub(crate) fn append_euros(text: &mut String, before: &str, cents: u64) -> Result<(), AllocError>
    ensures { IfOk result (λ _. string_bytes text.new
        ≡ string_bytes text.old ++ before.now ++ euros_text cents) }
{
    write!(text, "{before}{}.{:02}", cents / 100, cents % 100)
}
