//! Lists the versions of a path, and the paths, that shelves have in SQL tables.

ghost use Rattle.std.specs.Prelude.{◌≡◌, false, map as each, IfOk, OnOk, IsTrue};
ghost use Rattle.std.specs.FinMap as map;
ghost use Rattle.std.specs.FinSet as set;
ghost use Rattle.sqlite.specs.Given.{IsPlain};
ghost use Rattle.sqlite.specs.Held.{state};
ghost use Rattle.sqlite.specs.Listing.{understood, reads_listing};
ghost use Rattle.sqlite.specs.Values.{bound};
ghost use Rattle.tables.specs.Schema.{store_schema};
ghost use Rattle.world.specs.Lines.{in_order};
ghost use Rattle.world.specs.Versions.{named, by_precedence};
ghost use Rattle.world.specs.Visible.{versions_among, versions_on, paths_among, paths_on};
ghost use Rattle.statements.specs.Calls.{InEachWorld, Spares};
ghost use Rattle.statements.specs.Lists.{AddsAnswer};

use sqlite::types::ValueRef;
use sqlite::{Alter, Connection, Error, ErrorCode, params};
use std::alloc::Global;
use world::text_set::TextSet;
use world::version_list::Versions;
use world::versions::ascending;

/// Adds the first value of each row of the answer to a query to a set of texts, one row at a time: a shelf may have
/// many rows, and none stays in memory.
pub(crate) fn add_texts<S: Alter>(
    conn: &mut Connection<S>,
    sql: &str,
    params: &[ValueRef<'_>],
    texts: &mut TextSet,
) -> Result<(), Error>
    requires plain { IsPlain (understood store_schema sql.now) }
    requires tables { reads_listing store_schema sql.now ≡ false }
    ensures spares { Spares (state S.Store conn.old) (state S.Store conn.new) }
    ensures adds { InEachWorld (state S.Store conn.old) (state S.Store conn.new) (λ old _ _.
        OnOk result (IsTrue old.is_open × AddsAnswer sql.now (bound params.now) old.now texts.old texts.new)) }
{
    // This fails on a closed connection, so the query finds the tables.
    conn.prepare(sql)?;
    let mut rows = conn.query(sql, params)?;
    for _ in 0..u64::MAX {
        let Some(row) = rows.next()? else {
            return Ok(());
        };
        let text: String = row.get(0)?;
        texts.insert(text)?;
    }
    Err(Error::SqliteFailure(ErrorCode::TooBig))
}

/// Adds the versions of a path that one shelf has to a set.
fn add_versions<S: Alter>(
    conn: &mut Connection<S>,
    shelf: &str,
    path: &str,
    texts: &mut TextSet,
) -> Result<(), Error>
    ensures spares { Spares (state S.Store conn.old) (state S.Store conn.new) }
    ensures adds { InEachWorld (state S.Store conn.old) (state S.Store conn.new) (λ _ _ w.
        OnOk result (texts.new ≡ set.union (versions_among shelf.now path.now (map.entries w.entries)) texts.old)) }
{
    add_texts(
        conn,
        "SELECT version FROM version WHERE shelf = ?1 AND path = ?2",
        params![shelf, path],
        texts,
    )
}

/// Adds the paths that one shelf has to a set.
fn add_paths<S: Alter>(
    conn: &mut Connection<S>,
    shelf: &str,
    texts: &mut TextSet,
) -> Result<(), Error>
    ensures spares { Spares (state S.Store conn.old) (state S.Store conn.new) }
    ensures adds { InEachWorld (state S.Store conn.old) (state S.Store conn.new) (λ _ _ w.
        OnOk result (texts.new ≡ set.union (paths_among shelf.now (map.entries w.entries)) texts.old)) }
{
    add_texts(
        conn,
        "SELECT path FROM version WHERE shelf = ?1",
        params![shelf],
        texts,
    )
}

/// Returns the versions of a path that these shelves have, in ascending precedence.
/// It reads texts from the index alone. Ordering by `rank_key` would read whole rows, and so every go.mod of the path.
pub fn find_versions<S: Alter>(
    alloc: Global,
    conn: &mut Connection<S>,
    shelves: &[&str],
    path: &str,
) -> Result<Versions, Error>
    ensures spares { Spares (state S.Store conn.old) (state S.Store conn.new) }
    ensures answer { InEachWorld (state S.Store conn.old) (state S.Store conn.new) (λ _ _ w.
        IfOk result (λ versions. versions ≡ in_order (by_precedence (named (in_order
        (versions_on w (each (λ shelf. shelf.now) shelves.now) path.now)))))) }
{
    let mut texts = TextSet::new(alloc);
    for shelf in shelves {
        add_versions(conn, shelf, path, &mut texts)?;
    }
    Ok(ascending(alloc, &texts)?)
}

/// Returns the paths that these shelves have.
pub fn find_paths<S: Alter>(
    alloc: Global,
    conn: &mut Connection<S>,
    shelves: &[&str],
) -> Result<TextSet, Error>
    ensures spares { Spares (state S.Store conn.old) (state S.Store conn.new) }
    ensures answer { InEachWorld (state S.Store conn.old) (state S.Store conn.new) (λ _ _ w.
        IfOk result (λ texts. texts ≡ paths_on w (each (λ shelf. shelf.now) shelves.now))) }
{
    let mut texts = TextSet::new(alloc);
    for shelf in shelves {
        add_paths(conn, shelf, &mut texts)?;
    }
    Ok(texts)
}
