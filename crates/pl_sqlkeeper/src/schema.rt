//! The schema of a database, as this crate makes it.

ghost use Rattle.std.specs.Prelude.{◌≡◌, ◌↔◌, ◌∷◌, [], codes, IsTrue};
ghost use Rattle.sqlite_value.specs.Keys.{plain};
ghost use Rattle.pl_sqlkeeper.specs.Schema.{blank_schema, bytes_column, kept_index, kept_schema};
ghost use Rattle.pl_sqlkeeper.specs.Schema.{kept_table, no_stamps};

use sqlite_items::Items;
use sqlite_schema::code::Terms;
use sqlite_schema::schema::{Column, Index, Kind, Schema, Stamps, Table};
use sqlite_value::keys::{Collation, Order};
use sqlite_value::value::{Bytes, Value};

/// Whether a schema lists nothing: no table, index, view or trigger.
pub(crate) fn is_blank(schema: &Schema) -> bool
    ensures { IsTrue result ↔ (schema.now ≡ blank_schema) }
{
    schema.tables.is_empty() && schema.indexes.is_empty() && schema.views.is_empty()
}

/// Whether a schema is the one that the table's text makes of a blank one, and nothing else.
pub(crate) fn is_ours(schema: &Schema) -> bool
    ensures { IsTrue result ↔ (schema.now ≡ kept_schema) }
{
    let ([table], [index]) = (schema.tables.as_slice(), schema.indexes.as_slice()) else {
        return false;
    };
    is_our_table(table) && is_our_index(index) && schema.views.is_empty()
}

/// Whether a table is the one that the table's text makes.
fn is_our_table(table: &Table) -> bool
    ensures { IsTrue result ↔ (table.now ≡ kept_table) }
{
    has_text(&table.name, "pallwethig_rows_1")
        && table.tree == 0
        && are_our_columns(&table.columns)
        && table.key.is_none()
        && is_first_place(&table.primary)
        && are_our_keys(&table.uniques)
        && are_plain(&table.orders)
        && has_no_terms(&table.checks)
        && table.references.is_empty()
        && table.computed.is_empty()
        && has_no_stamps(&table.stamps)
        && !table.is_counted
}

/// Whether columns are those of a place and of a body.
fn are_our_columns(columns: &Items<Column>) -> bool
    ensures { IsTrue result ↔
        columns.now ≡ bytes_column (codes "place") ∷ bytes_column (codes "body") ∷ [] }
{
    let [place, body] = columns.as_slice() else {
        return false;
    };
    is_our_column(place, "place") && is_our_column(body, "body")
}

/// Whether a column has this name, takes bytes alone, and must have a value.
fn is_our_column(column: &Column, name: &str) -> bool
    ensures { IsTrue result ↔ (column.now ≡ bytes_column name.now) }
{
    let Column {
        name: found,
        kind: Kind::Blob,
        is_strict: true,
        not_null: true,
        default: Value::Null,
        collation: Collation::Binary,
    } = column
    else {
        return false;
    };
    has_text(found, name)
}

/// Whether there is one key, of the first column alone.
fn are_our_keys(keys: &Items<Items<usize>>) -> bool
    ensures { IsTrue result ↔ (keys.now ≡ (1 ∷ []) ∷ []) }
{
    let [key] = keys.as_slice() else {
        return false;
    };
    is_first_place(key)
}

/// Whether places of a row are the first column's alone.
fn is_first_place(places: &Items<usize>) -> bool
    ensures { IsTrue result ↔ (places.now ≡ 1 ∷ []) }
{
    matches!(places.as_slice(), [1])
}

/// Whether there is one order, the plain one.
fn are_plain(orders: &Items<Order>) -> bool
    ensures { IsTrue result ↔ (orders.now ≡ plain ∷ []) }
{
    let [order] = orders.as_slice() else {
        return false;
    };
    order.digits == 0
}

/// Whether there are no expressions.
fn has_no_terms(terms: &Terms) -> bool
    ensures { IsTrue result ↔ (terms.now ≡ []) }
{
    terms.roots.is_empty()
}

/// Whether no default reads the time.
fn has_no_stamps(stamps: &Stamps) -> bool
    ensures { IsTrue result ↔ (stamps.now ≡ no_stamps) }
{
    stamps.places.is_empty() && has_no_terms(&stamps.terms) && stamps.formats.is_empty()
}

/// Whether an index is the one that the database keeps for the table's key.
fn is_our_index(index: &Index) -> bool
    ensures { IsTrue result ↔ (index.now ≡ kept_index) }
{
    has_text(&index.name, "sqlite_autoindex_pallwethig_rows_1_1")
        && index.tree == 1
        && index.table == 0
        && is_first_place(&index.columns)
        && index.order.digits == 0
        && index.is_unique
}

/// Whether bytes are those of a text.
fn has_text(bytes: &Bytes, text: &str) -> bool
    ensures { IsTrue result ↔ (bytes.now ≡ text.now) }
{
    bytes.as_slice() == text.as_bytes()
}
