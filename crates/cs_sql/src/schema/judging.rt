//! Whether a schema is a store's, field by field.

ghost use Rattle.std.specs.Prelude.{◌≡◌, ◌↔◌, [], ◌∷◌, Some, None, IsTrue};
ghost use Rattle.sqlite_value.specs.Keys.{plain};
ghost use Rattle.cs_sql.specs.schema.Schemas.{IsBare, IsKeyed, IsNamed, IsNumbered, column_as, index_as, placed_table, placed_at, meta_at, log_at, rows_index, meta_index, pending_index, no_schema, front_schema, store_schema, front_parts, store_parts};
ghost use Rattle.cs_sql.specs.schema.Judged.{IsJudged};

use sqlite_items::Items;
use sqlite_schema::code::Terms;
use sqlite_schema::schema::{Column, Index, Kind, Schema, Stamps, Table};
use sqlite_value::keys::{Collation, Order};
use sqlite_value::value::Value;

/// What a schema is to a store.
#[derive(Clone, Copy, Debug, PartialEq, Eq)]
pub enum Judged {
    /// Of a database without a table.
    Fresh,
    /// A store's.
    Ours,
    /// A store's but for the table `pending`, as stores were before pending changes were kept by place.
    Front,
    /// Another's.
    Foreign,
}

fn is_null(value: &Value) -> bool
    ensures { IsTrue result ↔ (value.now ≡ Value.Null) }
{
    matches!(value, Value::Null)
}

fn is_column(column: &Column, name: &[u8], kind: Kind, not_null: bool) -> bool
    ensures { IsTrue result ↔ (column.now ≡ column_as name.now kind not_null) }
{
    column.name.as_slice() == name
        && column.kind == kind
        && column.is_strict
        && column.not_null == not_null
        && is_null(&column.default)
        && column.collation == Collation::Binary
}

fn has_none(terms: &Terms) -> bool
    ensures { IsTrue result ↔ (terms.now ≡ []) }
{
    terms.roots.is_empty()
}

fn is_unstamped(stamps: &Stamps) -> bool
    ensures { IsTrue result ↔ (stamps.now ≡ record { places = []; terms = []; formats = [] }) }
{
    stamps.places.is_empty() && has_none(&stamps.terms) && stamps.formats.is_empty()
}

/// Whether the table has nothing but columns and keys.
fn is_bare(table: &Table) -> bool
    ensures { IsTrue result ↔ IsBare table.now }
{
    has_none(&table.checks)
        && table.references.is_empty()
        && table.computed.is_empty()
        && is_unstamped(&table.stamps)
        && !table.is_counted
}

/// Whether the table has this name and this tree, and nothing but columns and keys.
fn is_named(table: &Table, name: &[u8], tree: u32) -> bool
    ensures { IsTrue result ↔ IsNamed table.now name.now tree }
{
    table.name.as_slice() == name && table.tree == tree && is_bare(table)
}

fn is_only(uniques: &[Items<usize>], places: &[usize]) -> bool
    ensures { IsTrue result ↔ (uniques.now ≡ places.now ∷ []) }
{
    match uniques {
        [unique] => unique.as_slice() == places,
        _ => false,
    }
}

fn is_plain(orders: &[Order]) -> bool
    ensures { IsTrue result ↔ (orders.now ≡ plain ∷ []) }
{
    match orders {
        [order] => order.digits == 0,
        _ => false,
    }
}

/// Whether the table has one key of these places, which isn't its rowid.
fn is_keyed(table: &Table, places: &[usize]) -> bool
    ensures { IsTrue result ↔ IsKeyed table.now places.now }
{
    table.key.is_none()
        && table.primary.as_slice() == places
        && is_only(table.uniques.as_slice(), places)
        && is_plain(table.orders.as_slice())
}

fn are_placed(columns: &[Column]) -> bool
    ensures { IsTrue result ↔ (columns.now ≡ (placed_table []).columns) }
{
    match columns {
        [tab, key, body] => {
            is_column(tab, b"tab", Kind::Integer, true)
                && is_column(key, b"key", Kind::Blob, true)
                && is_column(body, b"body", Kind::Blob, true)
        }
        _ => false,
    }
}

/// Whether the table has bytes at places, under this name.
fn is_placed(table: &Table, name: &[u8], tree: u32) -> bool
    ensures { IsTrue result ↔ (table.now ≡ placed_at name.now tree) }
{
    is_named(table, name, tree) && is_keyed(table, &[1, 2]) && are_placed(table.columns.as_slice())
}

fn are_values(columns: &[Column]) -> bool
    ensures { IsTrue result ↔ (columns.now ≡ meta_at.columns) }
{
    match columns {
        [name, body] => {
            is_column(name, b"name", Kind::Text, true) && is_column(body, b"body", Kind::Blob, true)
        }
        _ => false,
    }
}

fn is_meta(table: &Table) -> bool
    ensures { IsTrue result ↔ (table.now ≡ meta_at) }
{
    is_named(table, b"meta", 2) && is_keyed(table, &[1]) && are_values(table.columns.as_slice())
}

fn are_entries(columns: &[Column]) -> bool
    ensures { IsTrue result ↔ (columns.now ≡ log_at.columns) }
{
    match columns {
        [version, origin, number, body] => {
            is_column(version, b"version", Kind::Integer, false)
                && is_column(origin, b"origin", Kind::Integer, true)
                && is_column(number, b"number", Kind::Integer, true)
                && is_column(body, b"body", Kind::Blob, true)
        }
        _ => false,
    }
}

/// Whether the table's only key is its rowid, which the first column stands for.
fn is_numbered(table: &Table) -> bool
    ensures { IsTrue result ↔ IsNumbered table.now }
{
    table.key == Some(0)
        && table.primary.as_slice() == [0usize].as_slice()
        && table.uniques.is_empty()
        && table.orders.is_empty()
}

fn is_log(table: &Table) -> bool
    ensures { IsTrue result ↔ (table.now ≡ log_at) }
{
    is_named(table, b"log", 4) && is_numbered(table) && are_entries(table.columns.as_slice())
}

/// Whether it is the index of a table's only UNIQUE.
fn is_index(index: &Index, name: &[u8], tree: u32, table: u32, columns: &[usize]) -> bool
    ensures { IsTrue result ↔ (index.now ≡ index_as name.now tree table columns.now) }
{
    index.name.as_slice() == name
        && index.tree == tree
        && index.table == table
        && index.columns.as_slice() == columns
        && index.order.digits == 0
        && index.is_unique
}

fn are_front(tables: &[Table]) -> bool
    ensures { IsTrue result ↔ (tables.now ≡ front_schema.tables) }
{
    match tables {
        [rows, meta, log] => is_placed(rows, b"rows", 0) && is_meta(meta) && is_log(log),
        _ => false,
    }
}

fn are_tables(tables: &[Table]) -> bool
    ensures { IsTrue result ↔ (tables.now ≡ store_schema.tables) }
{
    match tables {
        [rows, meta, log, pending] => {
            is_placed(rows, b"rows", 0)
                && is_meta(meta)
                && is_log(log)
                && is_placed(pending, b"pending", 5)
        }
        _ => false,
    }
}

fn are_front_indexes(indexes: &[Index]) -> bool
    ensures { IsTrue result ↔ (indexes.now ≡ rows_index ∷ meta_index ∷ []) }
{
    match indexes {
        [rows, meta] => {
            is_index(rows, b"sqlite_autoindex_rows_1", 1, 0, &[1, 2])
                && is_index(meta, b"sqlite_autoindex_meta_1", 3, 2, &[1])
        }
        _ => false,
    }
}

fn are_indexes(indexes: &[Index]) -> bool
    ensures { IsTrue result ↔ (indexes.now ≡ rows_index ∷ meta_index ∷ pending_index ∷ []) }
{
    match indexes {
        [rows, meta, pending] => {
            is_index(rows, b"sqlite_autoindex_rows_1", 1, 0, &[1, 2])
                && is_index(meta, b"sqlite_autoindex_meta_1", 3, 2, &[1])
                && is_index(pending, b"sqlite_autoindex_pending_1", 6, 5, &[1, 2])
        }
        _ => false,
    }
}

/// Whether the schema has no table, no index and no view.
fn is_fresh(schema: &Schema) -> bool
    ensures { IsTrue result ↔ (schema.now ≡ no_schema) }
{
    schema.tables.is_empty() && schema.indexes.is_empty() && schema.views.is_empty()
}

/// Whether the schema has a store's tables but for `pending`, and nothing else.
fn is_front(schema: &Schema) -> bool
    ensures { IsTrue result ↔ (schema.now ≡ front_parts) }
{
    schema.views.is_empty()
        && are_front(schema.tables.as_slice())
        && are_front_indexes(schema.indexes.as_slice())
}

/// Whether the schema has a store's tables, and nothing else.
fn is_ours(schema: &Schema) -> bool
    ensures { IsTrue result ↔ (schema.now ≡ store_parts) }
{
    schema.views.is_empty()
        && are_tables(schema.tables.as_slice())
        && are_indexes(schema.indexes.as_slice())
}

/// What the schema is to a store.
pub fn judge(schema: &Schema) -> Judged
    ensures { IsJudged schema.now result }
{
    if is_ours(schema) {
        Judged::Ours
    } else if is_fresh(schema) {
        Judged::Fresh
    } else if is_front(schema) {
        Judged::Front
    } else {
        Judged::Foreign
    }
}
