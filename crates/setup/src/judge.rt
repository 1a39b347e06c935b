//! Judges whether shelves may be copied into a fresh store: the wanted teams exist, and the fresh store has only
//! `common`.

ghost use Rattle.std.specs.Prelude.{◌≡◌, map as each, Decides, IfOk, IsTrue};
ghost use Rattle.sqlite.specs.Held.{state};
ghost use Rattle.sqlite.specs.State.{HasCleanDisk};
ghost use Rattle.world.specs.World.{IsWorld, only_common};
ghost use Rattle.tables.specs.Means.{StandsFor};
ghost use Rattle.statements.specs.Calls.{InEachWorld, Spares};
ghost use Rattle.setup.specs.Extracted.{HasOtherShelf, HasKey, HasEntry};
ghost use Rattle.setup.specs.Parts.{IsJudged, is_fit};

use crate::choice::list_teams;
use sqlite::{Alter, Connection, Error, params};
use statements::extract_rows::CopyError;
use statements::query::find_row;
use statements::shelf_list::ShelfList;
use std::alloc::Global;
use world::names::COMMON;

/// The verdict on a copy.
#[derive(Drop)]
pub enum Judged {
    /// These shelves and `common` are to be written.
    Fit(ShelfList),
    /// No team is named, or a name is not a team's.
    NoTeam,
    /// The fresh store has more than `common`.
    NotEmpty,
}

/// Reports whether there is a shelf other than `common`.
fn has_other_shelf<F: Alter>(conn: &mut Connection<F>) -> Result<bool, Error>
    ensures spares { Spares (state F.Store conn.old) (state F.Store conn.new) }
    ensures answer { InEachWorld (state F.Store conn.old) (state F.Store conn.new) (λ _ new x.
        IfOk result (λ found. IsTrue new.is_open × Decides found (HasOtherShelf x))) }
{
    let found = find_row(
        conn,
        "SELECT name FROM shelf WHERE name <> ?1",
        params![COMMON],
    )?;
    Ok(found.is_some())
}

/// Reports whether there is a key.
fn has_key<F: Alter>(conn: &mut Connection<F>) -> Result<bool, Error>
    ensures spares { Spares (state F.Store conn.old) (state F.Store conn.new) }
    ensures answer { InEachWorld (state F.Store conn.old) (state F.Store conn.new) (λ _ new x.
        IfOk result (λ found. IsTrue new.is_open × Decides found (HasKey x))) }
{
    let found = find_row(conn, "SELECT token FROM access", &[])?;
    Ok(found.is_some())
}

/// Reports whether there is an entry.
fn has_entry<F: Alter>(conn: &mut Connection<F>) -> Result<bool, Error>
    ensures spares { Spares (state F.Store conn.old) (state F.Store conn.new) }
    ensures answer { InEachWorld (state F.Store conn.old) (state F.Store conn.new) (λ _ new x.
        IfOk result (λ found. IsTrue new.is_open × Decides found (HasEntry x))) }
{
    let found = find_row(conn, "SELECT path FROM version", &[])?;
    Ok(found.is_some())
}

/// Reports whether a store has only `common`.
pub fn is_blank<F: Alter>(conn: &mut Connection<F>) -> Result<bool, Error>
    ensures spares { Spares (state F.Store conn.old) (state F.Store conn.new) }
    ensures answer { InEachWorld (state F.Store conn.old) (state F.Store conn.new) (λ _ new x.
        IsWorld x → IfOk result (λ blank. IsTrue new.is_open × Decides blank (x ≡ only_common))) }
{
    if has_other_shelf(conn)? {
        return Ok(false);
    }
    if has_key(conn)? {
        return Ok(false);
    }
    let found = has_entry(conn)?;
    Ok(!found)
}

/// Returns the verdict on a copy, `NoTeam` before `NotEmpty`. Fails with `Source` or `Fresh`, by the store that failed.
pub(crate) fn judge<S: Alter, F: Alter>(
    alloc: Global,
    source: &mut Connection<S>,
    teams: &[&str],
    fresh: &mut Connection<F>,
) -> Result<Judged, CopyError>
    ensures spares { Spares (state S.Store source.old) (state S.Store source.new) }
    ensures spares_too { Spares (state F.Store fresh.old) (state F.Store fresh.new) }
    ensures ready { InEachWorld (state S.Store source.old) (state S.Store source.new) (λ _ new _.
        IfOk result (λ judged. IsTrue (is_fit judged) → IsTrue new.is_open)) }
    ensures verdict { HasCleanDisk (state S.Store source.new) → HasCleanDisk (state F.Store fresh.new)
        → (w x : _) → StandsFor (state S.Store source.old) w → StandsFor (state F.Store fresh.old) x
        → IfOk result (λ judged. IsJudged w x (each (λ team. team.now) teams.now) judged
        × (IsTrue (is_fit judged) → IsTrue (state F.Store fresh.new).is_open)) }
{
    let Some(shelves) = list_teams(alloc, source, teams)? else {
        return Ok(Judged::NoTeam);
    };
    match is_blank(fresh) {
        Ok(true) => Ok(Judged::Fit(shelves)),
        Ok(false) => Ok(Judged::NotEmpty),
        Err(error) => Err(CopyError::Fresh(error)),
    }
}
