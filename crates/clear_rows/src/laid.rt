//! Rows that say what the parts of a database's schema are, and whether they are those.
ghost use Rattle.std.specs.Prelude.{◌≡◌, ◌↔◌, [], IsTrue, map};
ghost use Rattle.sqlite_value.specs.Keys.{plain};
ghost use Rattle.clear_rows.specs.Layouts.{HasKeys, IsBare, IsTable, column_of, index_of};
ghost use Rattle.clear_rows.specs.Layouts.{key_of, table_of};
ghost use Rattle.clear_rows.specs.Parts.{column};
ghost use Rattle.clear_rows.specs.declared.laid.KeyLayout.{KeyLayout};

use sqlite_items::Items;
use sqlite_schema::code::Terms;
use sqlite_schema::schema::{Column, Index, Kind, Table};
use sqlite_value::keys::{Collation, Order};
use sqlite_value::value::{Bytes, Value};

/// A column: its kind, whether NULL may stand in it, and its name.
pub enum ColumnLayout {
    Int(&'static str),
    MaybeInt(&'static str),
    Text(&'static str),
    Blob(&'static str),
}

/// A key of a table: the places of the columns whose values stand together in one row at most.
///
/// In each list of places the number of a row has place 0, whatever column it stands in, and column
/// `i`, counted from 0, has place `i + 1`.
pub struct KeyLayout(pub &'static [usize]);

/// A table, and the tree in which its rows are kept.
pub struct TableLayout {
    pub name: &'static str,
    /// The number of its tree in the database.
    pub tree: u32,
    /// The column, counted from 0, in which the number of a row stands, if there is one.
    pub key: Option<usize>,
    /// The places of its primary key.
    pub primary: &'static [usize],
    /// Its keys.
    pub uniques: &'static [KeyLayout],
    /// Its columns, in their order.
    pub columns: &'static [ColumnLayout],
}

/// An index, in a tree of its own.
pub struct IndexLayout {
    pub name: &'static str,
    /// The number of its tree in the database.
    pub tree: u32,
    /// The number of the table's tree.
    pub table: u32,
    /// The places of its columns.
    pub columns: &'static [usize],
    /// Whether its columns stand together in one row at most.
    pub is_unique: bool,
}

/// A row of a layout, which says what a part of a schema is.
pub trait Row {
    /// The part.
    type Part;

    /// What it is.
    ghost says: { Self → Self.Part };

    /// Whether a part of a schema is this.
    fn is(&self, part: &Self::Part) -> bool
        ensures { IsTrue result ↔ (part.now ≡ says self.now) };
}

impl Row for ColumnLayout {
    type Part = Column;

    ghost says = { column_of };

    fn is(&self, part: &Column) -> bool {
        match self {
            ColumnLayout::Int(name) => is_column(part, name, Kind::Integer, true),
            ColumnLayout::MaybeInt(name) => is_column(part, name, Kind::Integer, false),
            ColumnLayout::Text(name) => is_column(part, name, Kind::Text, true),
            ColumnLayout::Blob(name) => is_column(part, name, Kind::Blob, true),
        }
    }
}

impl Row for KeyLayout {
    type Part = Items<usize>;

    ghost says = { key_of };

    fn is(&self, part: &Items<usize>) -> bool {
        are_places(part, self.0)
    }
}

impl Row for TableLayout {
    type Part = Table;

    ghost says = { table_of };

    fn is(&self, part: &Table) -> bool {
        is_table(part, self)
    }
}

impl Row for IndexLayout {
    type Part = Index;

    ghost says = { index_of };

    fn is(&self, part: &Index) -> bool {
        is_text(&part.name, self.name)
            && part.tree == self.tree
            && part.table == self.table
            && are_places(&part.columns, self.columns)
            && part.order.digits == 0
            && part.is_unique == self.is_unique
    }
}

/// Whether the parts are those that the rows say, one by one.
pub fn are<R: Row>(rows: &[R], parts: &[R::Part]) -> bool
    ensures { IsTrue result ↔ (parts.now ≡ map R.says rows.now) }
{
    let mut rows = rows;
    let mut parts = parts;
    while let [row, more @ ..] = rows {
        let [part, others @ ..] = parts else {
            return false;
        };
        if !row.is(part) {
            return false;
        }
        rows = more;
        parts = others;
    }
    parts.is_empty()
}

// Whether there is an order for each key, and each is that of the bytes.
fn are_plain(orders: &[Order], keys: &[KeyLayout]) -> bool
    ensures { IsTrue result ↔ (orders.now ≡ map (λ (key : KeyLayout). plain) keys.now) }
{
    let mut orders = orders;
    let mut keys = keys;
    while let [_, more @ ..] = keys {
        let [order, others @ ..] = orders else {
            return false;
        };
        if order.digits != 0 {
            return false;
        }
        keys = more;
        orders = others;
    }
    orders.is_empty()
}

// Whether a table is that of the row.
fn is_table(table: &Table, layout: &TableLayout) -> bool
    ensures { IsTrue result ↔ IsTable layout.now table.now }
{
    is_text(&table.name, layout.name)
        && table.tree == layout.tree
        && are(layout.columns, table.columns.as_slice())
        && has_keys(table, layout)
        && is_bare(table)
}

// Whether a table has these keys, each in the order of its bytes.
fn has_keys(table: &Table, layout: &TableLayout) -> bool
    ensures { IsTrue result ↔ HasKeys layout.now table.now }
{
    table.key == layout.key
        && are_places(&table.primary, layout.primary)
        && are(layout.uniques, table.uniques.as_slice())
        && are_plain(table.orders.as_slice(), layout.uniques)
}

// Whether a table has no rule but its keys and no value that is computed.
fn is_bare(table: &Table) -> bool
    ensures { IsTrue result ↔ IsBare table.now }
{
    has_none(&table.checks)
        && table.references.is_empty()
        && table.computed.is_empty()
        && table.stamps.places.is_empty()
        && has_none(&table.stamps.terms)
        && table.stamps.formats.is_empty()
        && !table.is_counted
}

// Whether there are no expressions.
fn has_none(terms: &Terms) -> bool
    ensures { IsTrue result ↔ (terms.now ≡ []) }
{
    terms.roots.is_empty()
}

// Whether a column has this name and kind, and NULL may stand in it or not.
fn is_column(part: &Column, name: &str, kind: Kind, not_null: bool) -> bool
    ensures { IsTrue result ↔ (part.now ≡ column name.now kind not_null) }
{
    is_text(&part.name, name)
        && is_kind(part.kind, kind)
        && part.is_strict
        && part.not_null == not_null
        && matches!(part.default, Value::Null)
        && matches!(part.collation, Collation::Binary)
}

// Whether the kind is that one.
fn is_kind(kind: Kind, wanted: Kind) -> bool
    ensures { IsTrue result ↔ (kind ≡ wanted) }
{
    kind == wanted
}

// Whether the bytes are the text.
fn is_text(bytes: &Bytes, text: &str) -> bool
    ensures { IsTrue result ↔ (bytes.now ≡ text.now) }
{
    bytes.as_slice() == text.as_bytes()
}

// Whether the places are those.
fn are_places(places: &Items<usize>, wanted: &[usize]) -> bool
    ensures { IsTrue result ↔ (places.now ≡ wanted.now) }
{
    places.as_slice() == wanted
}
