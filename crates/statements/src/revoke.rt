//! Revokes keys in SQL tables.

ghost use Rattle.std.specs.Prelude.{◌≡◌, ◌≤◌, IfOk, is_ok};
ghost use Rattle.sqlite.specs.Held.{state};
ghost use Rattle.sqlite_trees.specs.View.{doubt};
ghost use Rattle.world.specs.World.{without_key, without_keys_on};
ghost use Rattle.world.specs.Registry.{key_revoked, keys_revoked};
ghost use Rattle.statements.specs.Calls.{InEachWorld, IsOpenIfHonest, ChangesAt, Changes};
ghost use Rattle.statements.specs.Views.{with_key_revoked, with_keys_revoked};

use crate::registry::{find_key, find_shelf};
use sqlite::{Alter, Connection, Error, params};
use world::registry::RegistryReply;

/// Deletes the row of a key.
fn delete_key<S: Alter>(conn: &mut Connection<S>, token: &str) -> Result<(), Error>
    ensures clean { doubt (state S.Store conn.old).is_clean ≤ doubt (state S.Store conn.new).is_clean }
    ensures changes { IsOpenIfHonest (state S.Store conn.old) → (w : _)
        → ChangesAt (state S.Store conn.old) (state S.Store conn.new) (is_ok result) w (without_key w token.now) }
{
    match conn.execute("DELETE FROM access WHERE token = ?1", params![token]) {
        Ok(_) => Ok(()),
        Err(error) => Err(error),
    }
}

/// Revokes a key and returns `Done`, or returns `NoKey` if there is no such key.
pub fn revoke_key<S: Alter>(conn: &mut Connection<S>, token: &str) -> Result<RegistryReply, Error>
    ensures changes { Changes (state S.Store conn.old) (state S.Store conn.new) (is_ok result)
        (with_key_revoked token.now) }
    ensures answer { InEachWorld (state S.Store conn.old) (state S.Store conn.new) (λ _ _ w.
        IfOk result (λ r. r ≡ key_revoked w token.now)) }
{
    if find_key(conn, token)?.is_none() {
        return Ok(RegistryReply::NoKey);
    }
    delete_key(conn, token)?;
    Ok(RegistryReply::Done)
}

/// Deletes the rows of all keys of a shelf.
fn delete_keys<S: Alter>(conn: &mut Connection<S>, shelf: &str) -> Result<(), Error>
    ensures clean { doubt (state S.Store conn.old).is_clean ≤ doubt (state S.Store conn.new).is_clean }
    ensures changes { IsOpenIfHonest (state S.Store conn.old) → (w : _)
        → ChangesAt (state S.Store conn.old) (state S.Store conn.new) (is_ok result) w (without_keys_on w shelf.now) }
{
    match conn.execute("DELETE FROM access WHERE shelf = ?1", params![shelf]) {
        Ok(_) => Ok(()),
        Err(error) => Err(error),
    }
}

/// Revokes all keys of a shelf and returns `Done`, also if the shelf has no key, or returns `NoTeam` if there is no
/// such shelf.
pub fn revoke_keys<S: Alter>(conn: &mut Connection<S>, shelf: &str) -> Result<RegistryReply, Error>
    ensures changes { Changes (state S.Store conn.old) (state S.Store conn.new) (is_ok result)
        (with_keys_revoked shelf.now) }
    ensures answer { InEachWorld (state S.Store conn.old) (state S.Store conn.new) (λ _ _ w.
        IfOk result (λ r. r ≡ keys_revoked w shelf.now)) }
{
    if find_shelf(conn, shelf)?.is_none() {
        return Ok(RegistryReply::NoTeam);
    }
    delete_keys(conn, shelf)?;
    Ok(RegistryReply::Done)
}
