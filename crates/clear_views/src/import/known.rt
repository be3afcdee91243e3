//! The lines that stand under the references of a file.
use super::each::Asked;
use clear_bank::lines::BankLine;
use clear_ledger::bank::find_line;
use clear_schema::fault::Fault;
use sqlite::{Alter, Transaction};

/// What stands under the reference of a line.
pub(super) struct UnderReference;

impl Asked for UnderReference {
    ghost use Rattle.clear_views.specs.Imports.{line_found};

    type Item = BankLine;

    type Found = BankLine;

    ghost answer = { λ asked. line_found };

    fn ask<S: Alter>(
        &self,
        tx: &mut Transaction<'_, S>,
        line: &BankLine,
    ) -> Result<Option<BankLine>, Fault> {
        match find_line(tx, &line.reference)? {
            Some(row) => Ok(Some(row.line)),
            None => Ok(None),
        }
    }
}
