//! The table that tells the number of a schema, in whichever schema it stands.
ghost use Rattle.std.specs.Prelude.{◌↔◌, IsTrue};
ghost use Rattle.clear_schema.specs.Held.{HasMeta};

use clear_rows::laid::Row;
use clear_schema::layout::META;
use sqlite_schema::schema::Schema;

/// Whether it is the first table of a database, whatever other tables and indexes there are.
pub fn has_meta(schema: &Schema) -> bool
    ensures { IsTrue result ↔ HasMeta schema.now }
{
    match schema.tables.as_slice() {
        [first, ..] => META.is(first),
        [] => false,
    }
}
