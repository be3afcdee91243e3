//! The layout of this program's stores, and whether a database has it.
ghost use Rattle.std.specs.Prelude.{◌≡◌, ◌↔◌, IsTrue};
ghost use Rattle.clear_schema.specs.Schema.{all_indexes, all_tables, store_schema};

use clear_rows::laid::ColumnLayout::{Blob, Int, MaybeInt, Text};
use clear_rows::laid::{IndexLayout, KeyLayout, TableLayout, are};
use sqlite_schema::schema::Schema;

/// The table that tells the number of the schema, in this one and in each later one.
pub const META: TableLayout = TableLayout {
    name: "meta",
    tree: 0,
    key: Some(0),
    primary: &[0],
    uniques: &[],
    columns: &[
        MaybeInt("one"),
        Int("schema"),
        MaybeInt("day"),
        Int("entries"),
        Int("serial"),
        Int("claims"),
        Int("lists"),
        Int("runs"),
    ],
};

// The tables, in the order in which they are made.
const TABLES: &'static [TableLayout] = &[
    META,
    TableLayout {
        name: "rates",
        tree: 1,
        key: Some(0),
        primary: &[0],
        uniques: &[],
        columns: &[
            MaybeInt("first"),
            Int("contribution"),
            Int("report_day"),
            Int("due_day"),
            Int("interest"),
            Int("entitlement"),
        ],
    },
    TableLayout {
        name: "employers",
        tree: 2,
        key: Some(0),
        primary: &[0],
        uniques: &[],
        columns: &[MaybeInt("no"), Text("name"), Int("start"), MaybeInt("last")],
    },
    TableLayout {
        name: "reports",
        tree: 3,
        key: None,
        primary: &[1, 2],
        uniques: &[KeyLayout(&[1, 2])],
        columns: &[Int("employer"), Int("month"), Int("version")],
    },
    TableLayout {
        name: "wages",
        tree: 5,
        key: None,
        primary: &[1, 2, 3],
        uniques: &[KeyLayout(&[1, 2, 3])],
        columns: &[Int("employer"), Int("month"), Int("worker"), Int("gross")],
    },
    TableLayout {
        name: "bank",
        tree: 7,
        key: None,
        primary: &[1],
        uniques: &[KeyLayout(&[1]), KeyLayout(&[2])],
        columns: &[
            Text("reference"),
            Int("serial"),
            Int("value"),
            MaybeInt("named"),
            MaybeInt("employer"),
            Int("cents"),
            Text("purpose"),
            Text("note"),
        ],
    },
    TableLayout {
        name: "credits",
        tree: 10,
        key: None,
        primary: &[1, 2, 3, 4],
        uniques: &[KeyLayout(&[1, 2, 3, 4])],
        columns: &[
            Int("employer"),
            Text("purpose"),
            Int("day"),
            Int("serial"),
            Int("cents"),
            Text("ref"),
        ],
    },
    TableLayout {
        name: "claims",
        tree: 12,
        key: Some(0),
        primary: &[0],
        uniques: &[],
        columns: &[
            MaybeInt("no"),
            Int("employer"),
            Int("worker"),
            Int("cents"),
            Int("state"),
            Int("made"),
            MaybeInt("released"),
            Int("to_contributions"),
            Int("to_interest"),
            Int("paid"),
            MaybeInt("list"),
        ],
    },
    TableLayout {
        name: "lists",
        tree: 13,
        key: Some(0),
        primary: &[0],
        uniques: &[],
        columns: &[MaybeInt("no"), Int("day"), Int("items"), Int("total")],
    },
    TableLayout {
        name: "runs",
        tree: 14,
        key: Some(0),
        primary: &[0],
        uniques: &[],
        columns: &[MaybeInt("no"), Int("day"), Int("firms")],
    },
    TableLayout {
        name: "reminders",
        tree: 15,
        key: None,
        primary: &[1, 2],
        uniques: &[KeyLayout(&[1, 2])],
        columns: &[
            Int("run"),
            Int("employer"),
            Int("level"),
            Int("missing"),
            MaybeInt("first"),
            Int("arrears"),
            Int("interest"),
        ],
    },
    TableLayout {
        name: "requests",
        tree: 17,
        key: None,
        primary: &[1, 2],
        uniques: &[KeyLayout(&[1, 2])],
        columns: &[
            Int("caller"),
            Int("number"),
            Int("day"),
            Blob("command"),
            Int("kind"),
            Int("a"),
            Int("b"),
            Int("c"),
        ],
    },
    TableLayout {
        name: "charges",
        tree: 19,
        key: None,
        primary: &[1, 2],
        uniques: &[KeyLayout(&[1, 2])],
        columns: &[
            Int("employer"),
            Int("month"),
            Int("due"),
            Int("cents"),
            Int("open"),
            Int("weight"),
        ],
    },
    TableLayout {
        name: "pieces",
        tree: 21,
        key: None,
        primary: &[1, 2, 3, 4],
        uniques: &[KeyLayout(&[1, 2, 3, 4])],
        columns: &[
            Int("employer"),
            Int("month"),
            Int("day"),
            Int("serial"),
            Int("cents"),
            Text("ref"),
        ],
    },
];

// The indexes that keep the keys, and those that find wages, claims and reminders.
const INDEXES: &'static [IndexLayout] = &[
    IndexLayout {
        name: "sqlite_autoindex_reports_1",
        tree: 4,
        table: 3,
        columns: &[1, 2],
        is_unique: true,
    },
    IndexLayout {
        name: "sqlite_autoindex_wages_1",
        tree: 6,
        table: 5,
        columns: &[1, 2, 3],
        is_unique: true,
    },
    IndexLayout {
        name: "sqlite_autoindex_bank_1",
        tree: 8,
        table: 7,
        columns: &[1],
        is_unique: true,
    },
    IndexLayout {
        name: "sqlite_autoindex_bank_2",
        tree: 9,
        table: 7,
        columns: &[2],
        is_unique: true,
    },
    IndexLayout {
        name: "sqlite_autoindex_credits_1",
        tree: 11,
        table: 10,
        columns: &[1, 2, 3, 4],
        is_unique: true,
    },
    IndexLayout {
        name: "sqlite_autoindex_reminders_1",
        tree: 16,
        table: 15,
        columns: &[1, 2],
        is_unique: true,
    },
    IndexLayout {
        name: "sqlite_autoindex_requests_1",
        tree: 18,
        table: 17,
        columns: &[1, 2],
        is_unique: true,
    },
    IndexLayout {
        name: "sqlite_autoindex_charges_1",
        tree: 20,
        table: 19,
        columns: &[1, 2],
        is_unique: true,
    },
    IndexLayout {
        name: "sqlite_autoindex_pieces_1",
        tree: 22,
        table: 21,
        columns: &[1, 2, 3, 4],
        is_unique: true,
    },
    IndexLayout {
        name: "wages_by_worker",
        tree: 23,
        table: 5,
        columns: &[3, 1, 2],
        is_unique: false,
    },
    IndexLayout {
        name: "claims_by_worker",
        tree: 24,
        table: 12,
        columns: &[3, 0],
        is_unique: false,
    },
    IndexLayout {
        name: "claims_by_release",
        tree: 25,
        table: 12,
        columns: &[7],
        is_unique: false,
    },
    IndexLayout {
        name: "claims_by_list",
        tree: 26,
        table: 12,
        columns: &[11],
        is_unique: false,
    },
    IndexLayout {
        name: "reminders_by_employer",
        tree: 27,
        table: 15,
        columns: &[2, 1],
        is_unique: false,
    },
];

/// Whether the tables and indexes of a database are just those of this program's stores, each in its
/// place.
pub fn has_this_layout(schema: &Schema) -> bool
    ensures { IsTrue result ↔ (schema.now ≡ store_schema) }
{
    has_tables(schema) && has_indexes(schema) && schema.views.is_empty()
}

// Whether the tables of a database are those.
fn has_tables(schema: &Schema) -> bool
    ensures { IsTrue result ↔ (schema.now.tables ≡ all_tables) }
{
    are(TABLES, schema.tables.as_slice())
}

// Whether its indexes are those.
fn has_indexes(schema: &Schema) -> bool
    ensures { IsTrue result ↔ (schema.now.indexes ≡ all_indexes) }
{
    are(INDEXES, schema.indexes.as_slice())
}
