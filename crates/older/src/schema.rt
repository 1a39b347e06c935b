//! Recognises the tables of an older schema.

ghost use Rattle.std.specs.Prelude.{◌≡◌, Decides, MatchOption};
ghost use Rattle.tables.specs.Schema.{meta_table, access_table};
ghost use Rattle.older.specs.Schemas.{shelf_table, keyless_table, body_table, schema_1, schema_2, schema_of};

use sqlite_schema::schema::{Index, Kind, Schema, Table};
use tables::schema::{
    are_indexes, are_name_indexes, are_place_columns, has_first_key, has_no_terms, has_version_key,
    is_access_table, is_bare, is_column, is_meta_table, is_piece_table, is_position, is_reference,
    is_version_index, is_version_table,
};

/// An older schema, by its number.
#[derive(Clone, Copy, Debug, PartialEq, Eq)]
pub enum Format {
    One,
    Two,
}

fn is_shelf_table(table: &Table) -> bool
    ensures { Decides result (table.now ≡ shelf_table) }
{
    let is_shaped = match table.columns.as_slice() {
        [name] => is_column(name, "name", Kind::Text, true),
        _ => false,
    };
    is_shaped
        && is_bare(table, "shelf", 2)
        && table.key.is_none()
        && is_position(table.primary.as_slice(), 1)
        && has_first_key(table.uniques.as_slice(), table.orders.as_slice())
        && has_no_terms(&table.checks)
        && table.references.is_empty()
}

fn are_first_indexes(indexes: &[Index]) -> bool
    ensures { Decides result (indexes.now ≡ schema_1.indexes) }
{
    match indexes {
        [meta, shelf, access, version] => {
            are_name_indexes(meta, shelf, access) && is_version_index(version)
        }
        _ => false,
    }
}

/// Reports whether this is the table of versions of schema 1, which have no order keys.
fn is_keyless_table(table: &Table) -> bool
    ensures { Decides result (table.now ≡ keyless_table) }
{
    let is_shaped = match table.columns.as_slice() {
        [id, shelf, path, version, time, gomod] => {
            are_place_columns(id, shelf, path, version)
                && is_column(time, "time", Kind::Text, false)
                && is_column(gomod, "mod", Kind::Blob, true)
        }
        _ => false,
    };
    is_shaped
        && is_bare(table, "version", 6)
        && table.key == Some(0)
        && is_position(table.primary.as_slice(), 0)
        && has_version_key(table.uniques.as_slice(), table.orders.as_slice())
        && has_no_terms(&table.checks)
        && is_reference(table.references.as_slice(), 2, "shelf", "name")
}

fn is_body_table(table: &Table) -> bool
    ensures { Decides result (table.now ≡ body_table) }
{
    let is_shaped = match table.columns.as_slice() {
        [id, zip] => {
            is_column(id, "id", Kind::Integer, false) && is_column(zip, "zip", Kind::Blob, true)
        }
        _ => false,
    };
    is_shaped
        && is_bare(table, "body", 8)
        && table.key == Some(0)
        && is_position(table.primary.as_slice(), 0)
        && table.uniques.is_empty()
        && table.orders.is_empty()
        && has_no_terms(&table.checks)
        && is_reference(table.references.as_slice(), 0, "version", "id")
}

/// Reports whether these are the tables that both formats have.
fn are_named_tables(meta: &Table, shelf: &Table, access: &Table) -> bool
    ensures { Decides result ((meta.now ≡ meta_table) × (shelf.now ≡ shelf_table) × (access.now ≡ access_table)) }
{
    is_meta_table(meta) && is_shelf_table(shelf) && is_access_table(access)
}

fn is_schema_1(schema: &Schema) -> bool
    ensures { Decides result (schema.now ≡ schema_1) }
{
    let has_tables = match schema.tables.as_slice() {
        [meta, shelf, access, version, body] => {
            are_named_tables(meta, shelf, access)
                && is_keyless_table(version)
                && is_body_table(body)
        }
        _ => false,
    };
    has_tables && are_first_indexes(schema.indexes.as_slice()) && schema.views.is_empty()
}

fn is_schema_2(schema: &Schema) -> bool
    ensures { Decides result (schema.now ≡ schema_2) }
{
    let has_tables = match schema.tables.as_slice() {
        [meta, shelf, access, version, piece] => {
            are_named_tables(meta, shelf, access)
                && is_version_table(version)
                && is_piece_table(piece)
        }
        _ => false,
    };
    has_tables && are_indexes(schema.indexes.as_slice()) && schema.views.is_empty()
}

/// Returns the format whose tables, and no others, the schema has, or None if it is that of neither format.
pub fn format_of(schema: &Schema) -> Option<Format>
    ensures { MatchOption result
        ((format : Format) → schema.now ≡ schema_of format → ⊥)
        (λ format. schema.now ≡ schema_of format) }
{
    if is_schema_2(schema) {
        return Some(Format::Two);
    }
    if is_schema_1(schema) {
        return Some(Format::One);
    }
    None
}
