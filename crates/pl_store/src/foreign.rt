//! Why a database isn't the service's, by its schema.

ghost use Rattle.std.specs.Prelude.{◌≡◌};
ghost use Rattle.std.specs.List.{list_all, list_any};
ghost use Rattle.pl_store.specs.Foreign.{foreign_cause, is_alone};
ghost use Rattle.pl_store.specs.Foreign.{is_kept_by_itself, is_rows, is_version};

use crate::refusal::Refusal;
use sqlite_schema::schema::{Index, Schema, Table, View};

/// Whether a name is that of the service's table.
fn is_rows(name: &[u8]) -> bool
    ensures { result ≡ is_rows name.now }
{
    name == "pallwethig_rows_1".as_bytes()
}

/// Whether a name is one of a table of a version of the service.
fn is_version(name: &[u8]) -> bool
    ensures { result ≡ is_version name.now }
{
    name.starts_with("pallwethig_rows_".as_bytes())
}

/// Whether an index is one that the database keeps for a key.
fn is_kept_by_itself(index: &Index) -> bool
    ensures { result ≡ is_kept_by_itself index.now }
{
    index
        .name
        .as_slice()
        .starts_with("sqlite_autoindex_".as_bytes())
}

/// Whether a table has the name of the service's.
fn has_table(tables: &[Table]) -> bool
    ensures { result ≡ list_any (λ table. is_rows table.name) tables.now }
{
    tables.iter().any(|table| is_rows(table.name.as_slice()))
}

/// Whether what is kept as it is has the name of the service's table.
fn has_kept(views: &[View]) -> bool
    ensures { result ≡ list_any (λ view. is_rows view.name) views.now }
{
    views.iter().any(|view| is_rows(view.name.as_slice()))
}

/// Whether a table has a name of a version.
fn has_version_table(tables: &[Table]) -> bool
    ensures { result ≡ list_any (λ table. is_version table.name) tables.now }
{
    tables.iter().any(|table| is_version(table.name.as_slice()))
}

/// Whether what is kept as it is has a name of a version.
fn has_version_kept(views: &[View]) -> bool
    ensures { result ≡ list_any (λ view. is_version view.name) views.now }
{
    views.iter().any(|view| is_version(view.name.as_slice()))
}

/// Whether the database keeps each of these indexes for a key.
fn are_kept(indexes: &[Index]) -> bool
    ensures { result ≡ list_all is_kept_by_itself indexes.now }
{
    indexes.iter().all(|index| is_kept_by_itself(index))
}

/// Whether a schema lists one table, and nothing but indexes that the database keeps for its keys.
fn is_alone(schema: &Schema) -> bool
    ensures { result ≡ is_alone schema.now }
{
    schema.tables.len() == 1 && schema.views.is_empty() && are_kept(schema.indexes.as_slice())
}

/// Why a database with this schema, which isn't the service's, is refused. A table has the name of
/// the service's, and is alone, or something stands beside it; or there is one of another version;
/// or the database is another program's.
pub(crate) fn foreign_cause(schema: &Schema) -> Refusal
    ensures { result ≡ foreign_cause schema.now }
{
    if has_table(schema.tables.as_slice()) || has_kept(schema.views.as_slice()) {
        if is_alone(schema) {
            return Refusal::OtherColumns;
        }
        return Refusal::More;
    }
    if has_version_table(schema.tables.as_slice()) || has_version_kept(schema.views.as_slice()) {
        return Refusal::OtherVersion;
    }
    Refusal::OtherDatabase
}
