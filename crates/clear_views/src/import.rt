//! What a bank file is judged by.
ghost use Rattle.std.specs.Prelude.{◌≡◌, ℕ, [], IfErr, IfOk, List};
ghost use Rattle.clear_book.specs.Book.{Book};
ghost use Rattle.clear_book.specs.Lines.{lines_in};
ghost use Rattle.clear_book.specs.Machine.{IsLawful};
ghost use Rattle.clear_book.specs.RowRanges.{AreInRange};
ghost use Rattle.clear_book.specs.Tables.{Stands};
ghost use Rattle.clear_rules.specs.Views.ImportBank.{IsImportView};
ghost use Rattle.clear_schema.specs.Frame.{Leaves};
ghost use Rattle.clear_schema.specs.Faults.{IsOfDisk};
ghost use Rattle.clear_schema.specs.Values.{counts_of};
ghost use Rattle.clear_debts.specs.Reads.{OfTables, Reads};
ghost use Rattle.clear_views.specs.Imports.{IsImportRead};

mod each;
mod firms;
mod known;
mod limits;

use clear_bank::lines::BankLine;
use clear_book::limits::{MAX_CREDITS, MAX_SUSPENSE};
use clear_book::numbers::SerialCount;
use clear_firms::counts::find_counts;
use clear_rules::decide::import::ImportView;
use clear_schema::counts::Counts;
use clear_schema::fault::Fault;
use each::found_each;
use firms::view_firms;
use known::UnderReference;
use limits::{serving, view_suspense};
use sqlite::{Alter, Transaction};
use std::alloc::Global;

/// What the lines of a bank file are judged by, where these counts stand: the lines under their
/// references, the firms that they name, and numbers for the credits of these and for the lines in
/// suspense. While no more than 100,000 serials were given, one for each line of the file among
/// them, the serials serve for these numbers. Where each line names a registered firm, they serve later
/// too for the lines in suspense.
///
/// It costs n log n steps for n lines of the file, and one search for each of its references and
/// for each firm that it names; where the serials don't serve, also one look at the key of each
/// credit of these firms, and, where a line stays without a firm, one pass over all lines.
pub fn import_view<S: Alter>(
    alloc: Global,
    tx: &mut Transaction<'_, S>,
    counts: &Counts,
    lines: &[BankLine],
) -> Result<ImportView, Fault>
    ensures same_reference { tx.new.conn.ghost_name ≡ tx.old.conn.ghost_name }
    ensures view { OfTables S.Store tx.old.conn.now tx.new.conn.now (λ t.
        counts.now ≡ counts_of t → (b : Book) → IsLawful b → Stands b t → (file : List ℕ)
        → lines.now ≡ lines_in file → IfOk result (λ view. IsImportView b file view)) }
    // Whatever the tables hold, the limits are judged by the serials wherever these serve.
    ensures read { OfTables S.Store tx.old.conn.now tx.new.conn.now (λ t.
        IfOk result (IsImportRead t counts.now.serial lines.now)) }
    ensures fault { OfTables S.Store tx.old.conn.now tx.new.conn.now (λ t.
        counts.now ≡ counts_of t → AreInRange t → IfErr result IsOfDisk) }
    ensures leaves { Leaves S.Store tx.old.conn.now tx.new.conn.now result }
{
    read_view(alloc, tx, counts.serial, lines)
}

// What these lines are judged by, where so many serials were given.
fn read_view<S: Alter>(
    alloc: Global,
    tx: &mut Transaction<'_, S>,
    serials: SerialCount,
    lines: &[BankLine],
) -> Result<ImportView, Fault>
    ensures same_reference { tx.new.conn.ghost_name ≡ tx.old.conn.ghost_name }
    ensures reads { Reads S.Store ⊥ tx.old.conn.now tx.new.conn.now result
        (λ t. IsImportRead t serials lines.now) }
{
    if lines.is_empty() {
        read_none(alloc, tx, serials, lines)
    } else {
        read_lines(alloc, tx, serials, lines)
    }
}

// What no lines are judged by: a connection that is shut is told, as by any other read.
fn read_none<S: Alter>(
    alloc: Global,
    tx: &mut Transaction<'_, S>,
    serials: SerialCount,
    lines: &[BankLine],
) -> Result<ImportView, Fault>
    requires { lines.now ≡ [] }
    ensures same_reference { tx.new.conn.ghost_name ≡ tx.old.conn.ghost_name }
    ensures reads { Reads S.Store ⊥ tx.old.conn.now tx.new.conn.now result
        (λ t. IsImportRead t serials lines.now) }
{
    find_counts(tx)?;
    Ok(ImportView {
        known: Vec::new(alloc),
        employers: Vec::new(alloc),
        suspense: MAX_SUSPENSE,
        serials,
    })
}

// What these lines are judged by.
fn read_lines<S: Alter>(
    alloc: Global,
    tx: &mut Transaction<'_, S>,
    serials: SerialCount,
    lines: &[BankLine],
) -> Result<ImportView, Fault>
    ensures same_reference { tx.new.conn.ghost_name ≡ tx.old.conn.ghost_name }
    ensures reads { Reads S.Store (lines.now ≡ []) tx.old.conn.now tx.new.conn.now result
        (λ t. IsImportRead t serials lines.now) }
{
    let known = found_each(alloc, tx, &UnderReference, lines)?;
    let firms = view_firms(alloc, tx, serving(serials, lines, MAX_CREDITS), lines)?;
    let suspense = view_suspense(tx, serials, lines, firms.all)?;
    Ok(ImportView {
        known,
        employers: firms.registered,
        suspense,
        serials,
    })
}
