//! Shelves and keys in SQL tables.

ghost use Rattle.std.specs.Prelude.{◌≡◌, ◌≤◌, pos, true, false, not, None, option_copied, IfOk, OnOk, is_ok, IsTrue};
ghost use Rattle.std.specs.Ordering.{int_eq};
ghost use Rattle.std.specs.FinMap as map;
ghost use Rattle.sqlite.specs.declared.types.Value.TheVariants.{Int, Text as StoredText};
ghost use Rattle.sqlite.specs.Order.{column};
ghost use Rattle.sqlite.specs.Values.{or_null};
ghost use Rattle.sqlite.specs.Held.{state};
ghost use Rattle.sqlite_trees.specs.View.{doubt};
ghost use Rattle.world.specs.World.{is_key, is_team_name, with_key, with_shelf};
ghost use Rattle.world.specs.Registry.{is_group, key_added, team_added, group_added};
ghost use Rattle.tables.specs.Means.{may_publish};
ghost use Rattle.statements.specs.Calls.{InEachWorld, IsOpenIfHonest, Spares, ChangesAt, Changes};
ghost use Rattle.statements.specs.Views.{with_key_added, with_team_added, with_group_added};

use crate::query::find_row;
use sqlite::{Alter, Connection, Error, Row, params};
use text::Text;
use world::entry::{Holder, Right};
use world::names::COMMON;
use world::registry::RegistryReply;

fn may_publish(right: Right) -> bool
    ensures { result ≡ may_publish right }
{
    match right {
        Right::Reads => false,
        Right::Publishes => true,
    }
}

/// Returns the shelf and the right that a row of `access` shows.
fn read_holder(row: &Row) -> Result<Holder, Error>
    ensures { IfOk result (λ h. (column row.now 0 ≡ StoredText h.shelf)
        × ((n : _) × (column row.now 1 ≡ Int n) × (may_publish h.right ≡ not (int_eq n (pos 0))))) }
{
    let shelf: String = row.get(0)?;
    let publishes: bool = row.get(1)?;
    let right = if publishes {
        Right::Publishes
    } else {
        Right::Reads
    };
    Ok(Holder {
        shelf: Text::new(shelf),
        right,
    })
}

/// Returns the shelf and the right of a key, or None if there is no such key.
pub fn find_key<S: Alter>(conn: &mut Connection<S>, token: &str) -> Result<Option<Holder>, Error>
    ensures spares { Spares (state S.Store conn.old) (state S.Store conn.new) }
    ensures answer { InEachWorld (state S.Store conn.old) (state S.Store conn.new) (λ old new w.
        IfOk result (λ found. IsTrue old.is_open × IsTrue new.is_open × (found ≡ map.get w.keys token.now))) }
{
    match find_row(
        conn,
        "SELECT shelf, publish FROM access WHERE token = ?1",
        params![token],
    )? {
        Some(row) => Ok(Some(read_holder(&row)?)),
        None => Ok(None),
    }
}

/// Returns the parent that a row of `shelf` shows, or None for NULL.
pub(crate) fn read_parent(row: &Row) -> Result<Option<Text>, Error>
    ensures { IfOk result (λ parent. column row.now 0 ≡ or_null StoredText parent) }
{
    let parent: Option<String> = row.get(0)?;
    match parent {
        Some(parent) => Ok(Some(Text::new(parent))),
        None => Ok(None),
    }
}

/// Returns the parent of a shelf, or None if no shelf has this name. The parent of `common` and of a group is None.
pub fn find_shelf<S: Alter>(
    conn: &mut Connection<S>,
    name: &str,
) -> Result<Option<Option<Text>>, Error>
    ensures spares { Spares (state S.Store conn.old) (state S.Store conn.new) }
    ensures answer { InEachWorld (state S.Store conn.old) (state S.Store conn.new) (λ old new w.
        IfOk result (λ found. IsTrue old.is_open × IsTrue new.is_open × (found ≡ map.get w.shelves name.now))) }
    ensures same { InEachWorld (state S.Store conn.old) (state S.Store conn.new) (λ old new _.
        OnOk result (new.now ≡ old.now)) }
{
    match find_row(
        conn,
        "SELECT parent FROM shelf WHERE name = ?1",
        params![name],
    )? {
        Some(row) => Ok(Some(read_parent(&row)?)),
        None => Ok(None),
    }
}

/// Reports whether this is the name of a group.
fn is_group<S: Alter>(conn: &mut Connection<S>, name: &str) -> Result<bool, Error>
    ensures spares { Spares (state S.Store conn.old) (state S.Store conn.new) }
    ensures answer { InEachWorld (state S.Store conn.old) (state S.Store conn.new) (λ _ new w.
        IfOk result (λ found. IsTrue new.is_open × (found ≡ is_group w name.now))) }
{
    match find_shelf(conn, name)? {
        Some(None) => Ok(name != COMMON),
        _ => Ok(false),
    }
}

/// Writes the row of a key that does not exist.
fn insert_key<S: Alter>(
    conn: &mut Connection<S>,
    token: &str,
    shelf: &str,
    right: Right,
) -> Result<(), Error>
    ensures clean { doubt (state S.Store conn.old).is_clean ≤ doubt (state S.Store conn.new).is_clean }
    ensures changes { IsOpenIfHonest (state S.Store conn.old) → (w : _)
        → map.get w.keys token.now ≡ None
        → ChangesAt (state S.Store conn.old) (state S.Store conn.new) (is_ok result) w
        (with_key w token.now (record { shelf = shelf.now; right = right })) }
{
    let publishes = may_publish(right);
    match conn.execute(
        "INSERT INTO access (token, shelf, publish) VALUES (?1, ?2, ?3)",
        params![token, shelf, publishes],
    ) {
        Ok(_) => Ok(()),
        Err(error) => Err(error),
    }
}

/// Returns the outcome of adding a well-formed key: `NoTeam` if there is no such shelf, `Taken` if the key exists,
/// otherwise `Done`.
fn judge_key<S: Alter>(
    conn: &mut Connection<S>,
    shelf: &str,
    token: &str,
) -> Result<RegistryReply, Error>
    requires { is_key token.now ≡ true }
    ensures spares { Spares (state S.Store conn.old) (state S.Store conn.new) }
    ensures answer { InEachWorld (state S.Store conn.old) (state S.Store conn.new) (λ _ new w.
        IfOk result (λ r. IsTrue new.is_open × (r ≡ key_added w shelf.now token.now))) }
{
    if find_shelf(conn, shelf)?.is_none() {
        return Ok(RegistryReply::NoTeam);
    }
    if find_key(conn, token)?.is_some() {
        return Ok(RegistryReply::Taken);
    }
    Ok(RegistryReply::Done)
}

/// Adds a well-formed key to a shelf and returns `Done`, or returns `NoTeam` if there is no such shelf, or `Taken` if
/// the key exists.
pub fn add_key<S: Alter>(
    conn: &mut Connection<S>,
    shelf: &str,
    token: &str,
    right: Right,
) -> Result<RegistryReply, Error>
    requires { is_key token.now ≡ true }
    ensures changes { Changes (state S.Store conn.old) (state S.Store conn.new) (is_ok result)
        (with_key_added shelf.now token.now right) }
    ensures answer { InEachWorld (state S.Store conn.old) (state S.Store conn.new) (λ _ _ w.
        IfOk result (λ r. r ≡ key_added w shelf.now token.now)) }
{
    let registered = judge_key(conn, shelf, token)?;
    if registered == RegistryReply::Done {
        insert_key(conn, token, shelf, right)?;
    }
    Ok(registered)
}

/// Writes the row of a shelf that does not exist.
fn insert_shelf<S: Alter>(
    conn: &mut Connection<S>,
    name: &str,
    parent: Option<&str>,
) -> Result<(), Error>
    ensures clean { doubt (state S.Store conn.old).is_clean ≤ doubt (state S.Store conn.new).is_clean }
    ensures changes { IsOpenIfHonest (state S.Store conn.old) → (w : _)
        → map.get w.shelves name.now ≡ None
        → ChangesAt (state S.Store conn.old) (state S.Store conn.new) (is_ok result) w
        (with_shelf w name.now (option_copied parent.entry)) }
{
    match conn.execute(
        "INSERT INTO shelf (name, parent) VALUES (?1, ?2)",
        params![name, parent],
    ) {
        Ok(_) => Ok(()),
        Err(error) => Err(error),
    }
}

/// Returns the outcome of adding a team with a valid name: `Taken` if the name is taken, `NoGroup` if a group is named
/// and there is no such group, otherwise `Done`.
fn judge_team<S: Alter>(
    conn: &mut Connection<S>,
    name: &str,
    group: Option<&str>,
) -> Result<RegistryReply, Error>
    requires { is_team_name name.now ≡ true }
    ensures spares { Spares (state S.Store conn.old) (state S.Store conn.new) }
    ensures answer { InEachWorld (state S.Store conn.old) (state S.Store conn.new) (λ _ new w.
        IfOk result (λ r. IsTrue new.is_open × (r ≡ team_added w name.now (option_copied group.entry)))) }
{
    if find_shelf(conn, name)?.is_some() {
        return Ok(RegistryReply::Taken);
    }
    let Some(group) = group else {
        return Ok(RegistryReply::Done);
    };
    if !is_group(conn, group)? {
        return Ok(RegistryReply::NoGroup);
    }
    Ok(RegistryReply::Done)
}

/// Adds a team with a valid name, as a member of a group or of none, and returns `Done`, or returns `Taken` if the name
/// is taken, or `NoGroup` if there is no such group.
pub fn add_team<S: Alter>(
    conn: &mut Connection<S>,
    name: &str,
    group: Option<&str>,
) -> Result<RegistryReply, Error>
    requires { is_team_name name.now ≡ true }
    ensures changes { Changes (state S.Store conn.old) (state S.Store conn.new) (is_ok result)
        (with_team_added name.now (option_copied group.entry)) }
    ensures answer { InEachWorld (state S.Store conn.old) (state S.Store conn.new) (λ _ _ w.
        IfOk result (λ r. r ≡ team_added w name.now (option_copied group.entry))) }
{
    let registered = judge_team(conn, name, group)?;
    if registered == RegistryReply::Done {
        insert_shelf(conn, name, Some(group.unwrap_or(COMMON)))?;
    }
    Ok(registered)
}

/// Returns the outcome of adding a group with a valid name: `Taken` if the name is taken, otherwise `Done`.
fn judge_group<S: Alter>(conn: &mut Connection<S>, name: &str) -> Result<RegistryReply, Error>
    requires { is_team_name name.now ≡ true }
    ensures spares { Spares (state S.Store conn.old) (state S.Store conn.new) }
    ensures answer { InEachWorld (state S.Store conn.old) (state S.Store conn.new) (λ _ new w.
        IfOk result (λ r. IsTrue new.is_open × (r ≡ group_added w name.now))) }
{
    if find_shelf(conn, name)?.is_some() {
        return Ok(RegistryReply::Taken);
    }
    Ok(RegistryReply::Done)
}

/// Adds a group with a valid name and returns `Done`, or returns `Taken` if the name is taken.
pub fn add_group<S: Alter>(conn: &mut Connection<S>, name: &str) -> Result<RegistryReply, Error>
    requires { is_team_name name.now ≡ true }
    ensures changes { Changes (state S.Store conn.old) (state S.Store conn.new) (is_ok result)
        (with_group_added name.now) }
    ensures answer { InEachWorld (state S.Store conn.old) (state S.Store conn.new) (λ _ _ w.
        IfOk result (λ r. r ≡ group_added w name.now)) }
{
    let registered = judge_group(conn, name)?;
    if registered == RegistryReply::Done {
        insert_shelf(conn, name, None)?;
    }
    Ok(registered)
}
