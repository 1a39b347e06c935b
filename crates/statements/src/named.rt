//! Lists all keys and the names of all shelves in SQL tables.

ghost use Rattle.std.specs.Prelude.{◌≡◌, IfOk};
ghost use Rattle.sqlite.specs.Held.{state};
ghost use Rattle.statements.specs.Calls.{InEachWorld, Spares};
ghost use Rattle.keyring.specs.Named.{keys_in, shelves_in};

use crate::visible::add_texts;
use sqlite::{Alter, Connection, Error};
use std::alloc::Global;
use world::text_set::TextSet;

/// Returns all keys.
pub fn find_keys<S: Alter>(alloc: Global, conn: &mut Connection<S>) -> Result<TextSet, Error>
    ensures spares { Spares (state S.Store conn.old) (state S.Store conn.new) }
    ensures answer { InEachWorld (state S.Store conn.old) (state S.Store conn.new) (λ _ _ w.
        IfOk result (λ keys. keys ≡ keys_in w)) }
{
    let mut keys = TextSet::new(alloc);
    add_texts(conn, "SELECT token FROM access", &[], &mut keys)?;
    Ok(keys)
}

/// Returns the names of all shelves.
pub fn find_shelf_names<S: Alter>(alloc: Global, conn: &mut Connection<S>) -> Result<TextSet, Error>
    ensures spares { Spares (state S.Store conn.old) (state S.Store conn.new) }
    ensures answer { InEachWorld (state S.Store conn.old) (state S.Store conn.new) (λ _ _ w.
        IfOk result (λ names. names ≡ shelves_in w)) }
{
    let mut names = TextSet::new(alloc);
    add_texts(conn, "SELECT name FROM shelf", &[], &mut names)?;
    Ok(names)
}
