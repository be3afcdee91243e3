//! What a rule carries, as a text.
ghost use Rattle.std.specs.Prelude.{◌≡◌, ◌++◌, codes, IfOk, string_bytes};
ghost use Rattle.std.specs.Fmt.{decimal};
ghost use Rattle.clear_money.specs.Texts.{day_text, month_text};
ghost use Rattle.clear_book.specs.Rules.{carried_text};

use crate::rules::Carried;
use clear_money::days::Day;
use clear_money::months::Month;
use std::alloc::{AllocError, Global};

/// What a rule carries, as a text: a day, a month, a number in decimal, the number of a record and
/// that of a field as `2:4`, or the word of a limit or of a table. Empty where it carries nothing.
pub fn carried_text(alloc: Global, carried: Carried) -> Result<String, AllocError>
    ensures { IfOk result (λ text. string_bytes text ≡ carried_text carried) }
{
    match carried {
        Carried::Nothing => Ok(String::new(alloc)),
        Carried::Day(day) => day_text(alloc, day),
        Carried::Month(month) => month_text(alloc, month),
        Carried::Number(number) => number.to_string(alloc),
        Carried::Field { line, field } => field_text(alloc, line, field),
        Carried::Limit(limit) => String::from_str(alloc, limit.word()),
        Carried::Table(table) => String::from_str(alloc, table.word()),
    }
}

fn day_text(alloc: Global, day: Day) -> Result<String, AllocError>
    ensures { IfOk result (λ text. string_bytes text ≡ day_text day) }
{
    String::from_utf8_lossy(alloc, day.text().as_slice())
}

fn month_text(alloc: Global, month: Month) -> Result<String, AllocError>
    ensures { IfOk result (λ text. string_bytes text ≡ month_text month) }
{
    String::from_utf8_lossy(alloc, month.text().as_slice())
}

// A record of a file and a field of it.
fn field_text(alloc: Global, line: u64, field: u8) -> Result<String, AllocError>
    ensures { IfOk result (λ text. string_bytes text
        ≡ decimal line ++ codes ":" ++ decimal field) }
{
    let mut text = line.to_string(alloc)?;
    text.push_str(":")?;
    text.push_str(field.to_string(alloc)?.as_str())?;
    Ok(text)
}
