//! Documents over rows of a table that a query gives one at a time, told outside of a transaction.
ghost use Rattle.std.specs.Prelude.{◌≡◌};
ghost use Rattle.clear_reading.specs.Reader.{AreRightIn, Tells, TellsOnlyOver};

use crate::stored::StoredRows;
use clear_book::documents::Document;
use clear_columns::rows::StoredTable;
use clear_schema::fault::Fault;
use clear_texts::rows::RowSource;
use sqlite::{Alter, Rows};
use std::alloc::Global;
use std::marker::PhantomData;

/// The head of a document over rows of a table.
pub(crate) trait DocumentHead {
    ghost use Rattle.std.specs.Prelude.{◌≡◌, ◌++◌, ℕ, List, None, IfErr, IfOk, string_bytes};
    ghost use Rattle.std.specs.Iterator.{YieldsThen};
    ghost use Rattle.clear_texts.specs.Rows.{IsCutOffUnless};

    /// The table whose rows are told one after another.
    type Table: StoredTable;

    /// The text over rows.
    ghost text_of: { Self → List Self.Table.Row → List ℕ };

    /// Which rows it can be told over, of those in their ranges.
    ghost are_right: { Self → List Self.Table.Row → Type 0 };

    /// Appends the text over the rows that the source gives up to its end, which are right. It is
    /// refused for want of memory, for what the source tells, or for rows that aren't right.
    fn append<R: RowSource<Row = <Self::Table as StoredTable>::Row>>(
        &self,
        alloc: Global,
        rows: &mut R,
        text: &mut String,
    ) -> Result<(), Fault>
        ensures written { IfOk result (λ _. (given : List Self.Table.Row)
            × YieldsThen R.next_gives rows.old given None rows.new
            × are_right self.now given
            × (string_bytes text.new ≡ string_bytes text.old ++ text_of self.now given)) }
        ensures refused { IfErr result (λ fault.
            IsCutOffUnless R.next_gives R.next_refuses (are_right self.now)
            rows.old fault rows.new) };
}

/// The document over what a query for rows of a table still has to give, which is told only where
/// each row is in its ranges, and they are right.
pub(crate) fn tell_rows<D: DocumentHead, S: Alter>(
    alloc: Global,
    head: &D,
    rows: &mut Rows<'_, S>,
) -> Result<Document, Fault>
    ensures same_reference { rows.new.conn.ghost_name ≡ rows.old.conn.ghost_name }
    ensures tells { Tells S.Store D.Table.shown rows.old.conn.now rows.new.conn.now
        (D.text_of head.now) (AreRightIn D.Table.is_in_range (D.are_right head.now)) result }
    ensures only { TellsOnlyOver S.Store D.Table.shown rows.old.conn.now rows.new.conn.now
        (AreRightIn D.Table.is_in_range (D.are_right head.now)) result }
{
    let mut source = StoredRows::<S, D::Table> {
        rows,
        table: PhantomData,
    };
    tell_source(alloc, head, &mut source)
}

// The document over what the reader still has to give.
fn tell_source<D: DocumentHead, S: Alter>(
    alloc: Global,
    head: &D,
    source: &mut StoredRows<'_, '_, S, D::Table>,
) -> Result<Document, Fault>
    ensures same_reference { source.new.rows.ghost_name ≡ source.old.rows.ghost_name }
    ensures same_connection { source.new.rows.now.conn.ghost_name
        ≡ source.old.rows.now.conn.ghost_name }
    ensures tells { Tells S.Store D.Table.shown
        source.old.rows.now.conn.now source.new.rows.now.conn.now
        (D.text_of head.now) (AreRightIn D.Table.is_in_range (D.are_right head.now)) result }
    ensures only { TellsOnlyOver S.Store D.Table.shown
        source.old.rows.now.conn.now source.new.rows.now.conn.now
        (AreRightIn D.Table.is_in_range (D.are_right head.now)) result }
{
    let mut text = String::new(alloc);
    head.append(alloc, source, &mut text)?;
    Ok(Document::new(text))
}
