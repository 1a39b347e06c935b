//! Whether the tables are those of the schema.

ghost use Rattle.std.specs.Prelude.{◌≡◌, ℕ, suc, Some, Decides, ◌∷◌, [], bytes_eq, codes};
ghost use Rattle.sqlite_value.specs.Keys.{plain};
ghost use Rattle.sqlite.specs.Kind.TheVariants.{Integer, Text, Blob};
ghost use Rattle.sqlite_schema.specs.Code.{term_to, terms_in};
ghost use Rattle.sqlite_sql.specs.Term.{op2, lit, col};
ghost use Rattle.sqlite_sql.specs.declared.ops.BinaryOp.TheVariants.{Compare};
ghost use Rattle.sqlite_sql.specs.declared.ops.CompareOp.TheVariants.{Eq};
ghost use Rattle.sqlite_value.specs.declared.keys.Collation.TheVariants.{Binary};
ghost use Rattle.sqlite_value.specs.declared.value.Value.TheVariants.{Int};
ghost use Rattle.tables.specs.Schema.{store_schema, no_schema, is_flag, meta_table, shelf_table};
ghost use Rattle.tables.specs.Schema.{access_table, version_table};
ghost use Rattle.tables.specs.Schema.{version_columns, piece_table, is_from_zero, no_stamps, IsBare};
ghost use Rattle.tables.specs.Schema.{column_of, given, optional};
ghost use Rattle.tables.specs.Schema.{refers, unique_index, meta_index, shelf_index, access_index};
ghost use Rattle.tables.specs.Schema.{version_index, piece_index};

use sqlite_items::Items;
use sqlite_schema::code::{Op, Terms};
use sqlite_schema::schema::{Action, Column, Index, Kind, Reference, Schema, Stamps, Table};
use sqlite_sql::ops::{BinaryOp, CompareOp};
use sqlite_value::keys::{Collation, Order};
use sqlite_value::value::{Bytes, Value};

/// Whether the name has the bytes of the text.
fn is_named(name: &Bytes, text: &str) -> bool
    ensures { Decides result (name.now ≡ text.now) }
{
    name.as_slice() == text.as_bytes()
}

/// Whether this is a column of a STRICT table with this name, type and NOT NULL rule, no default, and binary collation.
pub fn is_column(column: &Column, name: &str, kind: Kind, not_null: bool) -> bool
    ensures { Decides result (column.now ≡ column_of name.now kind not_null) }
{
    is_named(&column.name, name)
        && column.kind == kind
        && column.is_strict
        && column.not_null == not_null
        && matches!(column.default, Value::Null)
        && column.collation == Collation::Binary
}

/// Whether these positions are just this one.
pub fn is_position(positions: &[usize], position: usize) -> bool
    ensures { Decides result (positions.now ≡ position ∷ []) }
{
    match positions {
        [only] => *only == position,
        _ => false,
    }
}

/// Reports whether there are no terms.
pub fn has_no_terms(terms: &Terms) -> bool
    ensures { Decides result (terms.now ≡ []) }
{
    terms.roots.is_empty()
}

/// Whether no default reads the time.
fn has_no_stamps(stamps: &Stamps) -> bool
    ensures { Decides result (stamps.now ≡ no_stamps) }
{
    stamps.places.is_empty() && has_no_terms(&stamps.terms) && stamps.formats.is_empty()
}

/// Whether there is one unique key, over the first column alone, in plain order.
pub fn has_first_key(uniques: &[Items<usize>], orders: &[Order]) -> bool
    ensures { Decides result ((uniques.now ≡ (1 ∷ []) ∷ []) × (orders.now ≡ plain ∷ [])) }
{
    match (uniques, orders) {
        ([unique], [order]) => is_position(unique.as_slice(), 1) && *order == Order::PLAIN,
        _ => false,
    }
}

/// Whether the table has this name and this tree, and counts, computes and stamps nothing.
pub fn is_bare(table: &Table, name: &str, tree: u32) -> bool
    ensures { Decides result (IsBare table.now name.now tree) }
{
    is_named(&table.name, name)
        && table.tree == tree
        && table.computed.is_empty()
        && has_no_stamps(&table.stamps)
        && !table.is_counted
}

fn is_shelf_table(table: &Table) -> bool
    ensures { Decides result (table.now ≡ shelf_table) }
{
    let is_shaped = match table.columns.as_slice() {
        [name, parent] => {
            is_column(name, "name", Kind::Text, true)
                && is_column(parent, "parent", Kind::Text, false)
        }
        _ => false,
    };
    is_shaped
        && is_bare(table, "shelf", 2)
        && table.key.is_none()
        && is_position(table.primary.as_slice(), 1)
        && has_first_key(table.uniques.as_slice(), table.orders.as_slice())
        && has_no_terms(&table.checks)
        && is_reference(table.references.as_slice(), 2, "shelf", "name")
}

/// Whether there is one reference, from the column at this position to this column of this table, with no action and
/// not deferred.
pub fn is_reference(references: &[Reference], position: usize, parent: &str, column: &str) -> bool
    ensures { Decides result (references.now ≡ refers position parent.now column.now ∷ []) }
{
    let [reference] = references else {
        return false;
    };
    let [parent_column] = reference.parent_columns.as_slice() else {
        return false;
    };
    is_position(reference.columns.as_slice(), position)
        && is_named(&reference.parent, parent)
        && is_named(parent_column, column)
        && reference.on_delete == Action::NoAction
        && reference.on_update == Action::NoAction
        && !reference.is_deferred
}

/// Reports whether this is the table `meta` of schema 3, which is that of schemas 1 and 2 too.
pub fn is_meta_table(table: &Table) -> bool
    ensures { Decides result (table.now ≡ meta_table) }
{
    let is_shaped = match table.columns.as_slice() {
        [name, value] => {
            is_column(name, "name", Kind::Text, true)
                && is_column(value, "value", Kind::Integer, true)
        }
        _ => false,
    };
    is_shaped
        && is_bare(table, "meta", 0)
        && table.key.is_none()
        && is_position(table.primary.as_slice(), 1)
        && has_first_key(table.uniques.as_slice(), table.orders.as_slice())
        && has_no_terms(&table.checks)
        && table.references.is_empty()
}

/// Whether there is one unique key, over the second, third and fourth columns, in plain order.
pub fn has_version_key(uniques: &[Items<usize>], orders: &[Order]) -> bool
    ensures { Decides result ((uniques.now ≡ (2 ∷ 3 ∷ 4 ∷ []) ∷ []) × (orders.now ≡ plain ∷ [])) }
{
    match (uniques, orders) {
        ([unique], [order]) => { matches!(unique.as_slice(), [2, 3, 4]) && *order == Order::PLAIN }
        _ => false,
    }
}

/// Reports whether these are the columns for the number of a version and its place, the same in every schema.
pub fn are_place_columns(id: &Column, shelf: &Column, path: &Column, version: &Column) -> bool
    ensures { Decides result ((id.now ≡ optional (codes "id") Integer) × (shelf.now ≡ given (codes "shelf") Text)
        × (path.now ≡ given (codes "path") Text) × (version.now ≡ given (codes "version") Text)) }
{
    is_column(id, "id", Kind::Integer, false)
        && is_column(shelf, "shelf", Kind::Text, true)
        && is_column(path, "path", Kind::Text, true)
        && is_column(version, "version", Kind::Text, true)
}

/// Whether these are the columns for the time of a version, its go.mod, its `order_key` and its `rank_key`.
fn are_other_columns(time: &Column, gomod: &Column, order: &Column, rank: &Column) -> bool
    ensures { Decides result ((time.now ≡ optional (codes "time") Text) × (gomod.now ≡ given (codes "mod") Blob)
        × (order.now ≡ given (codes "order_key") Blob) × (rank.now ≡ given (codes "rank_key") Blob)) }
{
    is_column(time, "time", Kind::Text, false)
        && is_column(gomod, "mod", Kind::Blob, true)
        && is_column(order, "order_key", Kind::Blob, true)
        && is_column(rank, "rank_key", Kind::Blob, true)
}

fn are_version_columns(columns: &[Column]) -> bool
    ensures { Decides result (columns.now ≡ version_columns) }
{
    match columns {
        [id, shelf, path, version, time, gomod, order, rank] => {
            are_place_columns(id, shelf, path, version)
                && are_other_columns(time, gomod, order, rank)
        }
        _ => false,
    }
}

/// Reports whether this is the table `version` of schema 3, which is that of schema 2 too.
pub fn is_version_table(table: &Table) -> bool
    ensures { Decides result (table.now ≡ version_table) }
{
    are_version_columns(table.columns.as_slice())
        && is_bare(table, "version", 6)
        && table.key == Some(0)
        && is_position(table.primary.as_slice(), 0)
        && has_version_key(table.uniques.as_slice(), table.orders.as_slice())
        && has_no_terms(&table.checks)
        && is_reference(table.references.as_slice(), 2, "shelf", "name")
}

/// Whether this is a unique index with this name, tree, table and columns, in plain order.
fn is_index(index: &Index, name: &str, tree: u32, table: u32, columns: &[usize]) -> bool
    ensures { Decides result (index.now ≡ unique_index name.now tree table columns.now) }
{
    is_named(&index.name, name)
        && index.tree == tree
        && index.table == table
        && index.columns.as_slice() == columns
        && index.order == Order::PLAIN
        && index.is_unique
}

/// Whether the node at this index is `publish = VALUE`.
fn is_equation(nodes: &[Op], at: usize, value: i64) -> bool
    ensures { (depth : ℕ) → Decides result
        (term_to nodes.now (suc (suc depth)) at ≡ op2 (Compare Eq Binary) (col 1 3) (lit (Int value))) }
{
    let Some(Op::Binary(BinaryOp::Compare(CompareOp::Eq, Collation::Binary), left, right)) =
        nodes.get(at) else {
        return false;
    };
    matches!(nodes.get(*left), Some(Op::Column(1, 3)))
        && matches!(nodes.get(*right), Some(Op::Literal(Value::Int(n))) if *n == value)
}

/// Whether the node at this index is `publish = 0 OR publish = 1`.
fn is_either(nodes: &[Op], at: usize) -> bool
    ensures { (depth : ℕ) → Decides result (term_to nodes.now (suc (suc (suc depth))) at ≡ is_flag) }
{
    match nodes.get(at) {
        Some(Op::Binary(BinaryOp::Or, left, right)) => {
            is_equation(nodes, *left, 0) && is_equation(nodes, *right, 1)
        }
        _ => false,
    }
}

fn is_flag_among(nodes: &[Op], roots: &[usize]) -> bool
    ensures { Decides result (terms_in nodes.now roots.now ≡ is_flag ∷ []) }
{
    match roots {
        [root] => nodes.len() > 2 && is_either(nodes, *root),
        _ => false,
    }
}

fn is_flag_check(terms: &Terms) -> bool
    ensures { Decides result (terms.now ≡ is_flag ∷ []) }
{
    is_flag_among(terms.nodes.as_slice(), terms.roots.as_slice())
}

/// Reports whether this is the table `access` of schema 3, which is that of schemas 1 and 2 too.
pub fn is_access_table(table: &Table) -> bool
    ensures { Decides result (table.now ≡ access_table) }
{
    let is_shaped = match table.columns.as_slice() {
        [token, shelf, publish] => {
            is_column(token, "token", Kind::Text, true)
                && is_column(shelf, "shelf", Kind::Text, true)
                && is_column(publish, "publish", Kind::Integer, true)
        }
        _ => false,
    };
    is_shaped
        && is_bare(table, "access", 4)
        && table.key.is_none()
        && is_position(table.primary.as_slice(), 1)
        && has_first_key(table.uniques.as_slice(), table.orders.as_slice())
        && is_flag_check(&table.checks)
        && is_reference(table.references.as_slice(), 2, "shelf", "name")
}

/// Whether the node at this index is `number >= 0`.
fn is_lower_bound(nodes: &[Op], at: usize) -> bool
    ensures { (depth : ℕ) → Decides result (term_to nodes.now (suc (suc depth)) at ≡ is_from_zero) }
{
    let Some(Op::Binary(BinaryOp::Compare(CompareOp::Ge, Collation::Binary), left, right)) =
        nodes.get(at) else {
        return false;
    };
    matches!(nodes.get(*left), Some(Op::Column(1, 2)))
        && matches!(nodes.get(*right), Some(Op::Literal(Value::Int(0))))
}

fn is_bound_among(nodes: &[Op], roots: &[usize]) -> bool
    ensures { Decides result (terms_in nodes.now roots.now ≡ is_from_zero ∷ []) }
{
    match roots {
        [root] => nodes.len() > 1 && is_lower_bound(nodes, *root),
        _ => false,
    }
}

fn is_bound_check(terms: &Terms) -> bool
    ensures { Decides result (terms.now ≡ is_from_zero ∷ []) }
{
    is_bound_among(terms.nodes.as_slice(), terms.roots.as_slice())
}

/// Whether there is one unique key, over the first and second columns, in plain order.
fn has_piece_key(uniques: &[Items<usize>], orders: &[Order]) -> bool
    ensures { Decides result ((uniques.now ≡ (1 ∷ 2 ∷ []) ∷ []) × (orders.now ≡ plain ∷ [])) }
{
    match (uniques, orders) {
        ([unique], [order]) => matches!(unique.as_slice(), [1, 2]) && *order == Order::PLAIN,
        _ => false,
    }
}

/// Reports whether this is the table `piece` of schema 3, which is that of schema 2 too.
pub fn is_piece_table(table: &Table) -> bool
    ensures { Decides result (table.now ≡ piece_table) }
{
    let is_shaped = match table.columns.as_slice() {
        [version, number, bytes] => {
            is_column(version, "version", Kind::Integer, true)
                && is_column(number, "number", Kind::Integer, true)
                && is_column(bytes, "bytes", Kind::Blob, true)
        }
        _ => false,
    };
    is_shaped
        && is_bare(table, "piece", 8)
        && table.key.is_none()
        && matches!(table.primary.as_slice(), [1, 2])
        && has_piece_key(table.uniques.as_slice(), table.orders.as_slice())
        && is_bound_check(&table.checks)
        && is_reference(table.references.as_slice(), 1, "version", "id")
}

/// Reports whether these are the indexes of `meta`, `shelf` and `access`, the same in every schema.
pub fn are_name_indexes(meta: &Index, shelf: &Index, access: &Index) -> bool
    ensures { Decides result ((meta.now ≡ meta_index) × (shelf.now ≡ shelf_index) × (access.now ≡ access_index)) }
{
    is_index(meta, "sqlite_autoindex_meta_1", 1, 0, &[1])
        && is_index(shelf, "sqlite_autoindex_shelf_1", 3, 2, &[1])
        && is_index(access, "sqlite_autoindex_access_1", 5, 4, &[1])
}

/// Reports whether this is the index of `version`, the same in every schema.
pub fn is_version_index(version: &Index) -> bool
    ensures { Decides result (version.now ≡ version_index) }
{
    is_index(version, "sqlite_autoindex_version_1", 7, 6, &[2, 3, 4])
}

fn are_place_indexes(version: &Index, piece: &Index) -> bool
    ensures { Decides result ((version.now ≡ version_index) × (piece.now ≡ piece_index)) }
{
    is_version_index(version) && is_index(piece, "sqlite_autoindex_piece_1", 9, 8, &[1, 2])
}

/// Reports whether these are the indexes of schema 3, which are those of schema 2 too.
pub fn are_indexes(indexes: &[Index]) -> bool
    ensures { Decides result (indexes.now ≡ store_schema.indexes) }
{
    match indexes {
        [meta, shelf, access, version, piece] => {
            are_name_indexes(meta, shelf, access) && are_place_indexes(version, piece)
        }
        _ => false,
    }
}

/// Whether the connection has the tables of schema 3 and nothing else.
pub(crate) fn is_store_schema(schema: &Schema) -> bool
    ensures { Decides result (schema.now ≡ store_schema) }
{
    let has_tables = match schema.tables.as_slice() {
        [meta, shelf, access, version, piece] => {
            is_meta_table(meta)
                && is_shelf_table(shelf)
                && is_access_table(access)
                && is_version_table(version)
                && is_piece_table(piece)
        }
        _ => false,
    };
    has_tables && are_indexes(schema.indexes.as_slice()) && schema.views.is_empty()
}

/// Whether the connection has no table, no index and no view.
pub fn is_no_schema(schema: &Schema) -> bool
    ensures { Decides result (schema.now ≡ no_schema) }
{
    schema.tables.is_empty() && schema.indexes.is_empty() && schema.views.is_empty()
}
