//! Which lines of a bank file are new.
ghost use Rattle.std.specs.Prelude.{◌≡◌, List, [], ◌∷◌, ◌++◌, IfOk, OnOk};
ghost use Rattle.std.specs.Option.{option_copied};
ghost use Rattle.clear_bank.specs.Answers.{Gives};
ghost use Rattle.clear_bank.specs.Newness.{judgement, line_under};
ghost use Rattle.clear_values.specs.declared.lines.BankLine.{BankLine};
ghost use Rattle.clear_bank.specs.Index.{Indexes};

use crate::fault::{BankFault, FIRST_ROW};
use crate::lines::BankLine;
use std::alloc::{AllocError, Global};
use std::collections::BTreeMap;

/// What a file adds.
#[derive(Drop)]
pub struct Judged {
    /// The places of the new lines in the file, from 0.
    pub new: Vec<usize>,
    /// How many lines are equal to an earlier one.
    pub repeats: usize,
}

/// Tells the new lines of a file from those that are equal to an earlier line of the file or to a
/// line that is known. RefConflict at the first line whose reference stands earlier with another
/// content.
pub fn judge_file(
    alloc: Global,
    lines: &[BankLine],
    known: &[BankLine],
) -> Result<Judged, BankFault>
    ensures { Gives (λ j. (j.new.items, j.repeats)) result (judgement known.now lines.now) }
{
    let mut index = index_lines(alloc, known)?;
    let mut new = Vec::new(alloc);
    let mut repeats = 0;
    for (place, line) in lines.iter().enumerate() {
        match enter(&mut index, line)? {
            None => new.push(place)?,
            Some(earlier) if earlier.has_content_of(line) => repeats += 1,
            Some(_) => return Err(BankFault::RefConflict {
                line: place + FIRST_ROW,
            }),
        }
    }
    Ok(Judged { new, repeats })
}

// Each line under its reference.
fn index_lines<'a>(
    alloc: Global,
    lines: &'a [BankLine],
) -> Result<BTreeMap<&'a str, &'a BankLine>, AllocError>
    ensures { IfOk result (λ index. Indexes index lines.now) }
{
    let mut index = BTreeMap::new(alloc);
    for line in lines {
        enter(&mut index, line)?;
    }
    Ok(index)
}

// The line that stands under the reference of a line; if there is none, this line stands there
// from now on.
fn enter<'a>(
    index: &mut BTreeMap<&'a str, &'a BankLine>,
    line: &'a BankLine,
) -> Result<Option<&'a BankLine>, AllocError>
    ensures earlier { (before : List BankLine) → Indexes index.old before
        → IfOk result (λ earlier.
        option_copied earlier ≡ line_under line.entry.now.reference before) }
    ensures index { (before : List BankLine) → Indexes index.old before
        → OnOk result (Indexes index.new (before ++ line.entry.now ∷ [])) }
{
    let reference = line.reference.as_str();
    if let Some(earlier) = index.get(reference).copied() {
        return Ok(Some(earlier));
    }
    index.insert(reference, line)?;
    Ok(None)
}
