//! Finds, counts and adds entries in SQL tables.

ghost use Rattle.std.specs.Prelude.{◌≡◌, ◌≤◌, [], ◌∷◌, map as each, pos, true, string_bytes, option_map};
ghost use Rattle.std.specs.Prelude.{IfOk, OnOk, is_ok, IsTrue};
ghost use Rattle.std.specs.FinMap as map;
ghost use Rattle.sqlite.specs.declared.types.Value.TheVariants.{Int, Text as StoredText, Blob};
ghost use Rattle.sqlite.specs.Order.{column};
ghost use Rattle.sqlite.specs.Values.{or_null};
ghost use Rattle.sqlite.specs.Held.{state};
ghost use Rattle.sqlite_trees.specs.View.{doubt};
ghost use Rattle.modver.specs.SemanticVersion.{version_text};
ghost use Rattle.world.specs.World.{place, first_on, count, with_entry};
ghost use Rattle.outline.specs.Seen.{seen_heading};
ghost use Rattle.tables.specs.Means.{StandsFor};
ghost use Rattle.statements.specs.Counted.{versions_in};
ghost use Rattle.statements.specs.Calls.{InEachWorld, IsOpenIfHonest, Spares, ChangesAt};
ghost use Rattle.tables.specs.Calls.{Honestly};
ghost use Rattle.statements.specs.Reading.{HasRow};

use crate::keyed::KeyedVersion;
use crate::numbers::chosen_number;
use crate::pieces::find_zip;
use crate::query::find_row;
use crate::rows::put_entry;
use crate::transaction::commit_if;
use modver::{TimeText, Version, read_time};
use outline::seen::SeenHeading;
use sqlite::{Alter, Connection, Error, ErrorCode, Row, params};
use std::alloc::Global;
use text::Text;
use world::bytes::Bytes;
use world::entry::{Entry, EntryRef, Heading, Seen};

/// What a row of `version` shows: its number, its shelf, and the go.mod and time of the entry.
#[derive(Drop)]
pub(crate) struct VersionRow {
    pub(crate) id: i64,
    pub(crate) shelf: Text,
    pub(crate) heading: Heading,
}

/// Returns the time that a text writes, or None for None. Fails with `DatabaseCorrupt` if the text writes no time.
fn time_of(text: Option<String>) -> Result<Option<TimeText>, Error>
    ensures { IfOk result (λ time. time ≡ option_map string_bytes text) }
{
    let Some(text) = text else {
        return Ok(None);
    };
    match read_time(text.as_str()) {
        Ok(time) => Ok(Some(time)),
        Err(_) => Err(Error::SqliteFailure(ErrorCode::DatabaseCorrupt)),
    }
}

/// Returns the time in column 2 of a row, or None for NULL. Fails with `DatabaseCorrupt` if the text writes no time.
fn read_time_column(row: &Row) -> Result<Option<TimeText>, Error>
    ensures { IfOk result (λ time. column row.now 2 ≡ or_null StoredText time) }
{
    let time: Option<String> = row.get(2)?;
    time_of(time)
}

fn read_version(row: &Row) -> Result<VersionRow, Error>
    ensures { IfOk result (λ v. (column row.now 0 ≡ Int v.id) × (column row.now 1 ≡ StoredText v.shelf)
        × (column row.now 2 ≡ or_null StoredText v.heading.time) × (column row.now 3 ≡ Blob v.heading.gomod)) }
{
    let id: i64 = row.get(0)?;
    let shelf: String = row.get(1)?;
    let time = read_time_column(row)?;
    let gomod: Vec<u8> = row.get(3)?;
    Ok(VersionRow {
        id,
        shelf: Text::new(shelf),
        heading: Heading {
            gomod: Bytes::new(gomod),
            time,
        },
    })
}

/// Returns the row of a version on a shelf, or None if the shelf does not have it.
fn row_at<S: Alter>(
    conn: &mut Connection<S>,
    shelf: &str,
    path: &str,
    version: &str,
) -> Result<Option<VersionRow>, Error>
    ensures spares { Spares (state S.Store conn.old) (state S.Store conn.new) }
    ensures same { InEachWorld (state S.Store conn.old) (state S.Store conn.new) (λ old new _.
        OnOk result (new.now ≡ old.now)) }
    ensures answer { InEachWorld (state S.Store conn.old) (state S.Store conn.new) (λ old new w.
        IfOk result (λ found. IsTrue old.is_open × IsTrue new.is_open
        × HasRow old.now.trees (first_on w (shelf.now ∷ []) path.now version.now) found)) }
{
    match find_row(
        conn,
        "SELECT id, shelf, time, mod FROM version WHERE shelf = ?1 AND path = ?2 AND version = ?3",
        params![shelf, path, version],
    )? {
        Some(row) => Ok(Some(read_version(&row)?)),
        None => Ok(None),
    }
}

/// Returns the row of a version on the first of these shelves that has it, or None if none has.
pub(crate) fn row_seen<S: Alter>(
    conn: &mut Connection<S>,
    shelves: &[&str],
    path: &str,
    version: &str,
) -> Result<Option<VersionRow>, Error>
    ensures spares { Spares (state S.Store conn.old) (state S.Store conn.new) }
    ensures same { InEachWorld (state S.Store conn.old) (state S.Store conn.new) (λ old new _.
        OnOk result (new.now ≡ old.now)) }
    ensures answer { InEachWorld (state S.Store conn.old) (state S.Store conn.new) (λ old new w.
        IfOk result (λ found. HasRow old.now.trees
        (first_on w (each (λ shelf. shelf.now) shelves.now) path.now version.now) found)) }
{
    for shelf in shelves {
        if let Some(row) = row_at(conn, shelf, path, version)? {
            return Ok(Some(row));
        }
    }
    Ok(None)
}

/// Returns the entry of a version on the first of these shelves that has it, with the name of that shelf, or None if
/// none has.
pub fn find_entry<S: Alter>(
    alloc: Global,
    conn: &mut Connection<S>,
    shelves: &[&str],
    path: &str,
    version: &str,
) -> Result<Option<Seen>, Error>
    ensures spares { Spares (state S.Store conn.old) (state S.Store conn.new) }
    ensures answer { InEachWorld (state S.Store conn.old) (state S.Store conn.new) (λ _ _ w.
        IfOk result (λ found. found ≡ first_on w (each (λ shelf. shelf.now) shelves.now) path.now version.now)) }
{
    let Some(row) = row_seen(conn, shelves, path, version)? else {
        return Ok(None);
    };
    let zip = find_zip(alloc, conn, row.id)?;
    Ok(Some(Seen {
        shelf: row.shelf,
        entry: Entry {
            gomod: row.heading.gomod,
            zip,
            time: row.heading.time,
        },
    }))
}

/// Returns what is seen of a version on the first of these shelves that has it, without its zip, or None if none has.
/// It does not read the zip: up to 16 MiB of rows would push out the pages that the database keeps in memory.
pub fn find_seen<S: Alter>(
    conn: &mut Connection<S>,
    shelves: &[&str],
    path: &str,
    version: &str,
) -> Result<Option<SeenHeading>, Error>
    ensures spares { Spares (state S.Store conn.old) (state S.Store conn.new) }
    ensures answer { InEachWorld (state S.Store conn.old) (state S.Store conn.new) (λ _ _ w.
        IfOk result (λ found. found
        ≡ seen_heading (first_on w (each (λ shelf. shelf.now) shelves.now) path.now version.now))) }
{
    match row_seen(conn, shelves, path, version)? {
        Some(row) => Ok(Some(SeenHeading {
            shelf: row.shelf,
            heading: row.heading,
        })),
        None => Ok(None),
    }
}

fn read_count(row: &Row) -> Result<u64, Error>
    ensures { IfOk result (λ n. column row.now 0 ≡ Int (pos n)) }
{
    let count: i64 = row.get(0)?;
    match u64::try_from(count) {
        Ok(count) => Ok(count),
        Err(_) => Err(Error::SqliteFailure(ErrorCode::DatabaseCorrupt)),
    }
}

/// Returns how many versions of a path a shelf has.
pub fn count_entries<S: Alter>(
    conn: &mut Connection<S>,
    shelf: &str,
    path: &str,
) -> Result<u64, Error>
    ensures spares { Spares (state S.Store conn.old) (state S.Store conn.new) }
    ensures answer { Honestly (state S.Store conn.old) (state S.Store conn.new) (λ old _.
        (w : _) → StandsFor old w → IfOk result (λ n. n ≡ count w shelf.now path.now)) }
{
    match find_row(
        conn,
        "SELECT count(*) FROM version WHERE shelf = ?1 AND path = ?2",
        params![shelf, path],
    )? {
        Some(row) => read_count(&row),
        None => Err(Error::SqliteFailure(ErrorCode::DatabaseCorrupt)),
    }
}

/// Returns how many versions all shelves have, or 2^63 - 1 if there are more.
pub fn count_versions<S: Alter>(conn: &mut Connection<S>) -> Result<u64, Error>
    ensures spares { Spares (state S.Store conn.old) (state S.Store conn.new) }
    ensures answer { Honestly (state S.Store conn.old) (state S.Store conn.new) (λ old _.
        (w : _) → StandsFor old w → IfOk result (λ n. n ≡ versions_in w)) }
{
    match find_row(conn, "SELECT count(*) FROM version", &[])? {
        Some(row) => read_count(&row),
        None => Err(Error::SqliteFailure(ErrorCode::DatabaseCorrupt)),
    }
}

/// Stores an entry at a place that has none, with all its rows or none of them. Fails with `TransactionState` inside a
/// transaction.
fn insert_entry<S: Alter>(
    conn: &mut Connection<S>,
    number: Option<i64>,
    shelf: &str,
    path: &str,
    version: &KeyedVersion,
    entry: &EntryRef,
) -> Result<(), Error>
    ensures clean { doubt (state S.Store conn.old).is_clean ≤ doubt (state S.Store conn.new).is_clean }
    ensures changes { IsOpenIfHonest (state S.Store conn.old) → (w : _)
        → map.get w.entries (place shelf.now path.now version.now) ≡ None
        → ChangesAt (state S.Store conn.old) (state S.Store conn.new) (is_ok result) w
        (with_entry w (place shelf.now path.now version.now) entry.now) }
{
    if !conn.is_autocommit() {
        return Err(Error::SqliteFailure(ErrorCode::TransactionState));
    }
    let mut tx = conn.transaction();
    let written = put_entry(&mut tx, number, shelf, path, version, entry);
    commit_if(tx, written.is_ok())?;
    written
}

/// Stores an entry at a place that has none. Fails with `TransactionState` inside a transaction. It makes the order
/// keys of the version before its first statement, so if memory for them runs out, nothing has begun.
pub fn add_entry<S: Alter>(
    alloc: Global,
    conn: &mut Connection<S>,
    shelf: &str,
    path: &str,
    version: &Version,
    entry: &EntryRef,
) -> Result<(), Error>
    ensures clean { doubt (state S.Store conn.old).is_clean ≤ doubt (state S.Store conn.new).is_clean }
    ensures changes { InEachWorld (state S.Store conn.old) (state S.Store conn.new) (λ old new w.
        map.get w.entries (place shelf.now path.now (version_text version.now)) ≡ None
        → ChangesAt old new (is_ok result) w
        (with_entry w (place shelf.now path.now (version_text version.now)) entry.now)) }
{
    let keyed = KeyedVersion::of(alloc, version)?;
    // This fails on a closed connection, so the next line finds the tables.
    let number = chosen_number(conn)?;
    insert_entry(conn, number, shelf, path, &keyed, entry)
}
