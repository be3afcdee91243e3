//! What is found for each of some items, one after another.
ghost use Rattle.std.specs.Prelude.{◌≡◌, ◌++◌, [], IfErr, OnOk};
ghost use Rattle.std.specs.List.{cons_option, filter_map};
ghost use Rattle.clear_debts.specs.Reads.{Reads};

use clear_schema::fault::Fault;
use sqlite::{Alter, Transaction};
use std::alloc::Global;

/// What is asked of the tables for an item.
pub(super) trait Asked {
    ghost use Rattle.std.specs.Prelude.{◌≡◌, Option};
    ghost use Rattle.clear_book.specs.Tables.{Tables};
    ghost use Rattle.clear_debts.specs.Reads.{Reads};

    type Item;

    type Found: Drop;

    /// What the tables say of an item.
    ghost answer: { Self → Tables → Self.Item → Option Self.Found };

    /// That, read from the store.
    fn ask<S: Alter>(
        &self,
        tx: &mut Transaction<'_, S>,
        item: &Self::Item,
    ) -> Result<Option<Self::Found>, Fault>
        ensures same_reference { tx.new.conn.ghost_name ≡ tx.old.conn.ghost_name }
        ensures reads { Reads S.Store ⊥ tx.old.conn.now tx.new.conn.now result
            (λ t found. found ≡ answer self.now t item.now) };
}

/// What is found for each of these items, in order.
pub(super) fn found_each<A: Asked, S: Alter>(
    alloc: Global,
    tx: &mut Transaction<'_, S>,
    asked: &A,
    items: &[A::Item],
) -> Result<Vec<A::Found>, Fault>
    ensures same_reference { tx.new.conn.ghost_name ≡ tx.old.conn.ghost_name }
    ensures reads { Reads S.Store (items.now ≡ []) tx.old.conn.now tx.new.conn.now result
        (λ t found. found.items ≡ filter_map (A.answer asked.now t) items.now) }
{
    let mut all = Vec::new(alloc);
    for item in items {
        let found = asked.ask(tx, item)?;
        push_found(&mut all, found)?;
    }
    Ok(all)
}

// Adds what was found, if it was.
fn push_found<T: Drop>(items: &mut Vec<T>, item: Option<T>) -> Result<(), Fault>
    ensures added { OnOk result (items.new.items ≡ items.old.items ++ cons_option item []) }
    ensures memory { IfErr result (λ fault. fault ≡ Fault.Memory) }
{
    if let Some(item) = item {
        items.push(item)?;
    }
    Ok(())
}
