//! Laws: what follows from the definitions alone. A law has no parameters and no effect; its
//! contract is the law.
ghost use Rattle.std.specs.Prelude.{◌≡◌, ℕ, [], ◌∷◌};
ghost use Rattle.sqlite.specs.Effect.{Database, IsDatabase};
ghost use Rattle.clear_values.specs.Tables.{Tables};
ghost use Rattle.clear_schema.specs.Held.{HasOtherLayout, HasTables, IsStore, TellsSchema};
ghost use Rattle.clear_database.specs.Later.{later_layout, later_schema, more_layout};
ghost use Rattle.clear_schema.specs.Schema.{Layout};
ghost use Rattle.clear_schema.specs.Values.{meta_shown, numbered_row};
ghost use Rattle.clear_schema.specs.declared.counts.Counts.{Counts};

/// A store of any layout tells the number of its schema, and so does any database of a schema with a
/// table and an index more than ours.
pub fn law_tells_schema()
    ensures ours { (layout : Layout) (t : Tables) (db : Database) → IsStore layout t db
        → TellsSchema layout.number db }
    ensures later { (number : ℕ) (counts : Counts) (db : Database) → db.schema ≡ later_schema
        → db.trees 0 ≡ numbered_row (meta_shown number) counts ∷ [] → IsDatabase db
        → TellsSchema number db }
{}

/// A store of a later layout is no store of this program: it tells another number, or, where it has
/// kept ours, another layout.
pub fn law_later_layout()
    ensures number { (t : Tables) (db : Database) → IsStore later_layout t db
        → TellsSchema 2 db }
    ensures layout { (t : Tables) (db : Database) → IsStore more_layout t db → HasOtherLayout db }
    ensures ours { (t : Tables) (db : Database) → HasTables t db → ¬ HasOtherLayout db }
{}
