//! Whether the rows of the tables stand for a world.

ghost use Rattle.std.specs.Prelude.{◌≡◌, ◌≤◌, ◌⊎◌, option_copied, pos, map, length, true, false, IfOk};
ghost use Rattle.std.specs.Prelude.{IfErr, IfSome, OnOk, IsTrue, Decides, MatchOption, IsUtf8, Some};
ghost use Rattle.std.specs.List.{list_all};
ghost use Rattle.std.specs.FinSet as set;
ghost use Rattle.world.specs.Lines.{in_order};
ghost use Rattle.modver.specs.Keys.{order_key_of, rank_key_of};
ghost use Rattle.modver.specs.Time.{IsTime};
ghost use Rattle.sqlite.specs.declared.types.Value.TheVariants.{Int, Text as StoredText, Blob};
ghost use Rattle.sqlite.specs.Order.{Row as Shown, column};
ghost use Rattle.sqlite.specs.Values.{or_null};
ghost use Rattle.sqlite.specs.Held.{state};
ghost use Rattle.sqlite.specs.State.{IsUnchanged};
ghost use Rattle.sqlite_trees.specs.View.{doubt};
ghost use Rattle.tables.specs.Means.{IsSettled, StandsForSome, StandsForNone};
ghost use Rattle.tables.specs.Calls.{Honestly, FailsWithReason};
ghost use Rattle.tables.specs.Causes.{HasReason};
ghost use Rattle.tables.specs.Walks.{Tests, MayFollow, run_with};
ghost use Rattle.tables.specs.Fit.{IsSchemaRow, IsShelfName, MayHaveParent, IsShelfRow, top_put, parent_put, are_whole};
ghost use Rattle.tables.specs.Fit.{IsKeyRow, IsNumberRow, IsEntryRow, ShowsAt, entry_width, key_in, number_in};
ghost use Rattle.tables.specs.Fit.{place_in, is_on, IsMetaFit, AreShelvesFit, AreKeysFit, AreNumbersFit, AreEntriesFit};
ghost use Rattle.tables.specs.Fit.{AreFit, meta_shown, shelf_shown, name_shown, number_shown, entry_shown};

use crate::columns::{blob_at, int_at, is_blob_at, text_at};
use crate::pieces::are_pieces_fit;
use crate::schema::is_store_schema;
use crate::walk::{RowTest, rows_pass};
use modver::{TimeText, Version, order_key, rank_key, read_time};
use sqlite::types::ValueRef;
use sqlite::{Alter, Connection, Error, ErrorCode, Row};
use std::alloc::{AllocError, Global};
use text::Text;
use world::entry::{EntryRef, MAX_VERSIONS, Place};
use world::entry_test::fitting_version;
use world::names::{COMMON, is_key, is_team_name};
use world::text_set::TextSet;

/// Returns the time that the bytes are, or None if they are no well-formed time.
fn time_of(bytes: &[u8]) -> Option<TimeText>
    ensures { MatchOption result (IsTime bytes.now → ⊥) (λ t. t ≡ bytes.now) }
{
    match std::str::from_utf8(bytes) {
        Ok(text) => read_time(text).ok(),
        Err(_) => None,
    }
}

/// Returns the time of a column, or Some(None) if the column is NULL, or None if it is neither a time nor NULL.
/// Fails only if the row has no such column.
pub fn time_at(row: &Row, at: usize) -> Result<Option<Option<TimeText>>, Error>
    ensures found { IfOk result (λ found. MatchOption found
        ((t : _) → column row.now at ≡ or_null StoredText t → IfSome t IsTime → ⊥)
        (λ t. column row.now at ≡ or_null StoredText t)) }
    ensures past { IfErr result (λ _. length row.now ≤ at) }
{
    match row.get_ref(at)? {
        ValueRef::Null => Ok(Some(None)),
        ValueRef::Text(bytes) => match time_of(bytes) {
            Some(time) => Ok(Some(Some(time))),
            None => Ok(None),
        },
        _ => Ok(None),
    }
}

/// Whether a column is the number of the schema, 3. Fails only if the row has no such column.
fn is_schema_at(row: &Row, at: usize) -> Result<bool, Error>
    ensures found { IfOk result (λ b. Decides b (column row.now at ≡ Int (pos 3))) }
    ensures past { IfErr result (λ _. length row.now ≤ at) }
{
    Ok(matches!(row.get_ref(at)?, ValueRef::Int(3)))
}

/// A walk over the rows of `meta`: each names schema 3.
#[derive(Drop)]
struct MetaRows {
    has_row: bool,
}

impl RowTest for MetaRows {
    ghost width = { 2 };

    ghost Fits = { λ _ row. IsSchemaRow row };

    ghost Keeps = { λ _ _ next. next.has_row ≡ true };

    fn passes(&mut self, row: &Row) -> Result<bool, Error> {
        if text_at(row, 0)? != Some("schema") || !is_schema_at(row, 1)? {
            return Ok(false);
        }
        self.has_row = true;
        Ok(true)
    }
}

/// Returns the text of a column, or Some(None) if the column is NULL, or None if it is neither UTF-8 text nor NULL.
/// Fails only if the row has no such column.
fn parent_at(row: &Row, at: usize) -> Result<Option<Option<&str>>, Error>
    ensures found { IfOk result (λ found. MatchOption found
        ((t : _) → column row.now at ≡ or_null StoredText t → IfSome t IsUtf8 → ⊥)
        (λ t. column row.now at ≡ or_null StoredText (option_copied t))) }
    ensures past { IfErr result (λ _. length row.now ≤ at) }
{
    match row.get_ref(at)? {
        ValueRef::Null => Ok(Some(None)),
        ValueRef::Text(bytes) => match std::str::from_utf8(bytes) {
            Ok(text) => Ok(Some(Some(text))),
            Err(_) => Ok(None),
        },
        _ => Ok(None),
    }
}

/// Whether a shelf may have this name.
fn is_shelf_name(name: &str) -> bool
    ensures { Decides result (IsShelfName name.now) }
{
    name == COMMON || is_team_name(name)
}

/// Whether a shelf may have this name and this parent.
fn may_have_parent(name: &str, parent: Option<&str>) -> bool
    ensures { Decides result (MayHaveParent name.now (option_copied parent.entry)) }
{
    match parent {
        None => is_shelf_name(name),
        Some(parent) => is_team_name(name) && is_shelf_name(parent),
    }
}

/// A walk over the rows of `shelf` by name: each is `common`, a group or a team, and no name comes twice.
#[derive(Drop)]
struct ShelfRows {
    alloc: Global,
    last: Option<Text>,
    /// The shelves without a parent.
    tops: TextSet,
    /// The parents that were named.
    parents: TextSet,
}

impl ShelfRows {
    /// Notes a shelf and its parent. Fails only if memory runs out.
    fn note(&mut self, name: &str, parent: Option<&str>) -> Result<(), AllocError>
        ensures { OnOk result ((self.new.last ≡ Some name.now)
            × ((self.new.tops ≡ top_put (or_null StoredText (option_copied parent.entry)) name.now self.old.tops)
            × (self.new.parents ≡ parent_put (or_null StoredText (option_copied parent.entry)) self.old.parents))) }
    {
        match parent {
            None => self.tops.insert(String::from_str(self.alloc, name)?)?,
            Some(parent) => self.parents.insert(String::from_str(self.alloc, parent)?)?,
        }
        self.last = Some(Text::copy_of(self.alloc, name)?);
        Ok(())
    }

    /// Whether `common` is among the shelves without a parent, and each named parent is too.
    fn are_whole(&self) -> bool
        ensures { result ≡ are_whole self.now.tops self.now.parents }
    {
        self.tops.contains(COMMON) && are_among(&self.parents, &self.tops)
    }
}

/// Whether each text of the first set is in the second.
fn are_among(texts: &TextSet, others: &TextSet) -> bool
    ensures { result ≡ list_all (λ t. set.contains others.now t) (in_order texts.now) }
{
    for text in texts.iter() {
        if !others.contains(text.as_str()) {
            return false;
        }
    }
    true
}

impl RowTest for ShelfRows {
    ghost width = { 2 };

    ghost Fits = { λ rows row. IsShelfRow row × (rows.last ≡ Some (key_in row) → ⊥) };

    ghost Keeps = { λ rows row next. (next.last ≡ Some (key_in row))
        × ((next.tops ≡ top_put (column row 1) (key_in row) rows.tops)
        × (next.parents ≡ parent_put (column row 1) rows.parents)) };

    fn passes(&mut self, row: &Row) -> Result<bool, Error> {
        let Some(name) = text_at(row, 0)? else {
            return Ok(false);
        };
        let Some(parent) = parent_at(row, 1)? else {
            return Ok(false);
        };
        if !may_have_parent(name, parent) || is_last(&self.last, name) {
            return Ok(false);
        }
        self.note(name, parent)?;
        Ok(true)
    }
}

/// A walk over the rows of `access` by key: each key is well formed, and none comes twice.
#[derive(Drop)]
struct KeyRows {
    alloc: Global,
    last: Option<Text>,
}

impl RowTest for KeyRows {
    ghost width = { 1 };

    ghost Fits = { λ rows row. IsKeyRow row × (rows.last ≡ Some (key_in row) → ⊥) };

    ghost Keeps = { λ _ row next. next.last ≡ Some (key_in row) };

    fn passes(&mut self, row: &Row) -> Result<bool, Error> {
        let Some(key) = text_at(row, 0)? else {
            return Ok(false);
        };
        if !is_key(key) || is_last(&self.last, key) {
            return Ok(false);
        }
        self.last = Some(Text::copy_of(self.alloc, key)?);
        Ok(true)
    }
}

/// Whether the last text is this one.
fn is_last(last: &Option<Text>, text: &str) -> bool
    ensures { Decides result (last.now ≡ Some text.now) }
{
    match last {
        Some(last) => last.as_str() == text,
        None => false,
    }
}

/// A walk over the rows of `access` by number: each row has a number, and none comes twice.
/// `key-revoke` deletes by number, and no clause of `sqlite` says that numbers differ.
#[derive(Drop)]
struct NumberRows {
    last: Option<i64>,
}

impl RowTest for NumberRows {
    ghost width = { 1 };

    ghost Fits = { λ rows row. IsNumberRow row × (rows.last ≡ Some (number_in row) → ⊥) };

    ghost Keeps = { λ _ row next. next.last ≡ Some (number_in row) };

    fn passes(&mut self, row: &Row) -> Result<bool, Error> {
        let Some(number) = int_at(row, 0)? else {
            return Ok(false);
        };
        if self.last == Some(number) {
            return Ok(false);
        }
        self.last = Some(number);
        Ok(true)
    }
}

/// A walk over the rows of `version` by place: each entry may stand at its place and has the `order_key` and the
/// `rank_key` of its version, no place comes twice, and no shelf has too many versions of a path.
#[derive(Drop)]
struct EntryRows {
    alloc: Global,
    last: Option<Place>,
    many: u64,
}

impl RowTest for EntryRows {
    ghost width = { entry_width };

    ghost Fits = { λ rows row. IsEntryRow row × MayFollow rows.last rows.many (place_in row) };

    ghost Keeps = { λ rows row next. (next.last ≡ Some (place_in row))
        × (next.many ≡ run_with rows.last rows.many (place_in row)) };

    fn passes(&mut self, row: &Row) -> Result<bool, Error> {
        let Some(place) = entry_place(self.alloc, row)? else {
            return Ok(false);
        };
        let Some(many) = run_up_to(&self.last, self.many, &place) else {
            return Ok(false);
        };
        self.last = Some(place);
        self.many = many;
        Ok(true)
    }
}

/// Returns the place of the entry in a row, or None if the entry may not stand there or does not have the `order_key`
/// and the `rank_key` of its version. For a row of full width it fails only if memory runs out.
fn entry_place(alloc: Global, row: &Row) -> Result<Option<Place>, Error>
    ensures found { IfOk result (λ found. MatchOption found
        (IsEntryRow row.now → ⊥)
        (λ q. (q ≡ place_in row.now) × IsEntryRow row.now)) }
    ensures memory { entry_width ≤ length row.now → IfErr result (λ e. e ≡ Error.SqliteFailure ErrorCode.OutOfMemory) }
{
    let Some(shelf) = text_at(row, 0)? else {
        return Ok(None);
    };
    let Some(path) = text_at(row, 1)? else {
        return Ok(None);
    };
    let Some(version) = text_at(row, 2)? else {
        return Ok(None);
    };
    if !shows_entry(alloc, row, path, version)? {
        return Ok(None);
    }
    Ok(Some(Place::new(alloc, shelf, path, version)?))
}

/// Whether the last columns of a row are the `order_key` and the `rank_key` of a version. It makes both again and
/// compares them, so opening a store changes no row. For a row of full width it fails only if memory runs out.
fn shows_keys(alloc: Global, row: &Row, version: &Version) -> Result<bool, Error>
    ensures verdict { IfOk result (λ shows. Decides shows
        ((column row.now 5 ≡ Blob (order_key_of version.now)) × (column row.now 6 ≡ Blob (rank_key_of version.now)))) }
    ensures memory { entry_width ≤ length row.now → IfErr result (λ e. e ≡ Error.SqliteFailure ErrorCode.OutOfMemory) }
{
    let order = order_key(alloc, version)?;
    let rank = rank_key(alloc, version)?;
    Ok(is_blob_at(row, 5, &order)? && is_blob_at(row, 6, &rank)?)
}

/// Whether the other columns of a row show an entry that may stand at a path and a version, and the `order_key` and
/// `rank_key` of the version. They show no byte of the zip. For a row of full width it fails only if memory runs out.
fn shows_entry(alloc: Global, row: &Row, path: &str, version: &str) -> Result<bool, Error>
    ensures verdict { IfOk result (λ may. Decides may (ShowsAt row.now path.now version.now)) }
    ensures memory { entry_width ≤ length row.now → IfErr result (λ e. e ≡ Error.SqliteFailure ErrorCode.OutOfMemory) }
{
    let Some(gomod) = blob_at(row, 4)? else {
        return Ok(false);
    };
    let Some(time) = time_at(row, 3)? else {
        return Ok(false);
    };
    let entry = EntryRef {
        gomod,
        zip: &[],
        time,
    };
    match fitting_version(alloc, path, version, &entry)? {
        Some(version) => shows_keys(alloc, row, &version),
        None => Ok(false),
    }
}

/// Returns how many versions of the path on its shelf have come with this place, or None if the place may not follow
/// the last.
pub fn run_up_to(last: &Option<Place>, many: u64, place: &Place) -> Option<u64>
    ensures { MatchOption result
        (MayFollow last.now many place.now → ⊥)
        (λ n. MayFollow last.now many place.now × (n ≡ run_with last.now many place.now)) }
{
    let Some(last) = last else {
        return Some(1);
    };
    if *last == *place {
        return None;
    }
    if place.shelf != last.shelf || place.path != last.path {
        return Some(1);
    }
    if many < MAX_VERSIONS {
        Some(many + 1)
    } else {
        None
    }
}

/// Whether `meta` names schema 3 and nothing else. Fails as [`stand_for_world`] does.
fn is_meta_fit<S: Alter>(conn: &mut Connection<S>) -> Result<bool, Error>
    ensures tests { Tests (state S.Store conn.old) (state S.Store conn.new) result
        (λ db. IsMetaFit (map meta_shown (db 0))) }
    ensures cause { FailsWithReason (state S.Store conn.old) (state S.Store conn.new) result }
{
    let mut rows = MetaRows { has_row: false };
    if !rows_pass(conn, "SELECT name, value FROM meta", &mut rows)? {
        return Ok(false);
    }
    Ok(rows.has_row)
}

/// Whether each shelf has a valid name that comes once, `common` is there without a parent, and no parent has one.
/// Fails as [`stand_for_world`] does.
fn are_shelves_fit<S: Alter>(alloc: Global, conn: &mut Connection<S>) -> Result<bool, Error>
    ensures tests { Tests (state S.Store conn.old) (state S.Store conn.new) result
        (λ db. AreShelvesFit (map shelf_shown (db 2))) }
    ensures cause { FailsWithReason (state S.Store conn.old) (state S.Store conn.new) result }
{
    let mut rows = ShelfRows {
        alloc,
        last: None,
        tops: TextSet::new(alloc),
        parents: TextSet::new(alloc),
    };
    if !rows_pass(
        conn,
        "SELECT name, parent FROM shelf ORDER BY name",
        &mut rows,
    )? {
        return Ok(false);
    }
    Ok(rows.are_whole())
}

/// Whether each key is well formed and comes once. Fails as [`stand_for_world`] does.
fn are_keys_fit<S: Alter>(alloc: Global, conn: &mut Connection<S>) -> Result<bool, Error>
    ensures tests { Tests (state S.Store conn.old) (state S.Store conn.new) result
        (λ db. AreKeysFit (map name_shown (db 4))) }
    ensures cause { FailsWithReason (state S.Store conn.old) (state S.Store conn.new) result }
{
    let mut rows = KeyRows { alloc, last: None };
    rows_pass(conn, "SELECT token FROM access ORDER BY token", &mut rows)
}

/// Whether each key has a number of its own. Fails as [`stand_for_world`] does.
fn are_numbers_fit<S: Alter>(conn: &mut Connection<S>) -> Result<bool, Error>
    ensures tests { Tests (state S.Store conn.old) (state S.Store conn.new) result
        (λ db. AreNumbersFit (map number_shown (db 4))) }
    ensures cause { FailsWithReason (state S.Store conn.old) (state S.Store conn.new) result }
{
    let mut rows = NumberRows { last: None };
    rows_pass(conn, "SELECT rowid FROM access ORDER BY rowid", &mut rows)
}

/// Whether each version is an entry that may stand at its place, with the `order_key` and the `rank_key` of its
/// version, each place comes once, and no shelf has too many versions of a path. Fails as [`stand_for_world`] does.
fn are_entries_fit<S: Alter>(alloc: Global, conn: &mut Connection<S>) -> Result<bool, Error>
    ensures tests { Tests (state S.Store conn.old) (state S.Store conn.new) result
        (λ db. AreEntriesFit (map entry_shown (db 6))) }
    ensures cause { FailsWithReason (state S.Store conn.old) (state S.Store conn.new) result }
{
    let mut rows = EntryRows {
        alloc,
        last: None,
        many: 0,
    };
    rows_pass(
        conn,
        "SELECT shelf, path, version, time, mod, order_key, rank_key FROM version ORDER BY shelf, path, version",
        &mut rows,
    )
}

/// Whether the rows of all tables are such that the tables stand for a world. Fails as [`stand_for_world`] does.
fn are_fit<S: Alter>(alloc: Global, conn: &mut Connection<S>) -> Result<bool, Error>
    ensures tests { Tests (state S.Store conn.old) (state S.Store conn.new) result AreFit }
    ensures cause { FailsWithReason (state S.Store conn.old) (state S.Store conn.new) result }
{
    if !is_meta_fit(conn)? {
        return Ok(false);
    }
    if !are_shelves_fit(alloc, conn)? {
        return Ok(false);
    }
    if !are_keys_fit(alloc, conn)? {
        return Ok(false);
    }
    if !are_numbers_fit(conn)? {
        return Ok(false);
    }
    if !are_entries_fit(alloc, conn)? {
        return Ok(false);
    }
    are_pieces_fit(conn)
}

/// Whether the tables are those of the schema and stand for a world. Writes nothing.
///
/// It fails only if memory runs out, the connection is closed or limited in its steps, the disk fails, or a table has
/// 2^64 rows, one for each rowid.
pub fn stand_for_world<S: Alter>(alloc: Global, conn: &mut Connection<S>) -> Result<bool, Error>
    ensures clean { doubt (state S.Store conn.old).is_clean ≤ doubt (state S.Store conn.new).is_clean }
    ensures found { Honestly (state S.Store conn.old) (state S.Store conn.new) (λ old new.
        IfOk result (λ b. IsTrue b → IsUnchanged old new × StandsForSome old.now)) }
    ensures none { Honestly (state S.Store conn.old) (state S.Store conn.new) (λ old _.
        IfOk result (λ b. b ≡ false → StandsForNone old.now)) }
    ensures same { Honestly (state S.Store conn.old) (state S.Store conn.new) (λ old new.
        IsSettled old → IsTrue new.is_open → new.now ≡ old.now) }
    ensures left { Honestly (state S.Store conn.old) (state S.Store conn.new) (λ old new.
        (db : _) → new.may_leave db → old.may_leave db) }
    ensures cause { Honestly (state S.Store conn.old) (state S.Store conn.new) (λ old new.
        IfErr result (HasReason old new)) }
    // It leaves the connection in no transaction if it was in none, and leaves its step limit as it was.
    ensures mode { Honestly (state S.Store conn.old) (state S.Store conn.new) (λ old new.
        old.in_transaction ≡ false → new.in_transaction ≡ false) }
    ensures limit { Honestly (state S.Store conn.old) (state S.Store conn.new) (λ old new.
        new.step_limit ≡ old.step_limit) }
{
    if !is_store_schema(conn.schema()) {
        return Ok(false);
    }
    are_fit(alloc, conn)
}
