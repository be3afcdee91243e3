//! Rows that a document tells one after another, each in a line.
ghost use Rattle.std.specs.Prelude.{◌≡◌, ◌++◌, List, None, length, string_bytes};
ghost use Rattle.std.specs.Prelude.{IfErr, IfOk};
ghost use Rattle.std.specs.Iterator.{YieldsThen};
ghost use Rattle.std.specs.List.{flat_map};
ghost use Rattle.clear_texts.specs.Rows.{IsCutOff};

use crate::rows::RowSource;
use clear_values::causes::Fault;
use std::alloc::AllocError;

/// A row that is told in a line.
pub(crate) trait LineRow {
    ghost use Rattle.std.specs.Prelude.{◌≡◌, ◌++◌, ℕ, List, IfOk, string_bytes};

    /// Its line.
    ghost line: { Self → List ℕ };

    /// Appends the line. An `Err` may leave a part of it.
    fn append_line(&self, text: &mut String) -> Result<(), AllocError>
        ensures { IfOk result (λ _. string_bytes text.new
            ≡ string_bytes text.old ++ line self.now) };
}

/// Appends the lines of all rows that the source gives up to its end, and tells how many they are.
/// 2^64 - 1 or more find no memory. An `Err` may leave a part.
pub(crate) fn append_lines<T: LineRow + Drop, R: RowSource<Row = T>>(
    text: &mut String,
    rows: &mut R,
) -> Result<u64, Fault>
    ensures written { IfOk result (λ count. (given : List T)
        × YieldsThen R.next_gives rows.old given None rows.new
        × (string_bytes text.new ≡ string_bytes text.old ++ flat_map T.line given)
        × (count ≡ length given)) }
    ensures refused { IfErr result (λ fault.
        IsCutOff R.next_gives R.next_refuses rows.old fault rows.new) }
{
    for count in 0..u64::MAX {
        match rows.next() {
            Ok(Some(row)) => row.append_line(text)?,
            Ok(None) => return Ok(count),
            Err(fault) => return Err(fault),
        }
    }
    Err(Fault::Memory)
}
