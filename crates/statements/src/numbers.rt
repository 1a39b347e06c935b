//! Chooses the number of a new row of `version`.
//!
//! sqlite chooses one past the highest. If a row has the last number there is none past it, so this module chooses one
//! below the lowest. The numbers mean nothing, and any number that sqlite takes is lawful.

ghost use Rattle.std.specs.Prelude.{◌≡◌, false, Decides, IfOk, OnOk, IsTrue, MatchOption};
ghost use Rattle.sqlite.specs.Held.{state};
ghost use Rattle.sqlite.specs.Given.{IsPlain};
ghost use Rattle.sqlite.specs.Listing.{understood, reads_listing};
ghost use Rattle.sqlite.specs.Values.{bound};
ghost use Rattle.tables.specs.Schema.{store_schema, version_table};
ghost use Rattle.statements.specs.Calls.{InEachWorld, Spares};
ghost use Rattle.statements.specs.Numbers.{last, HasNumber, IsBelowEach, IsChosen, LacksOrHasFirst, ShowsNumber};

use crate::query::find_row;
use sqlite::types::ValueRef;
use sqlite::{Alter, Connection, Error, params};

/// Returns the number in the first row of the answer to a query, or None if the answer is empty.
fn find_number<S: Alter>(
    conn: &mut Connection<S>,
    sql: &str,
    params: &[ValueRef<'_>],
) -> Result<Option<i64>, Error>
    requires plain { IsPlain (understood store_schema sql.now) }
    requires tables { reads_listing store_schema sql.now ≡ false }
    ensures spares { Spares (state S.Store conn.old) (state S.Store conn.new) }
    ensures number { InEachWorld (state S.Store conn.old) (state S.Store conn.new) (λ old new _.
        IfOk result (λ found. IsTrue old.is_open × IsTrue new.is_open
        × ShowsNumber sql.now (bound params.now) old.now found)) }
    ensures same { InEachWorld (state S.Store conn.old) (state S.Store conn.new) (λ old new _.
        OnOk result (new.now ≡ old.now)) }
{
    match find_row(conn, sql, params)? {
        Some(row) => Ok(Some(row.get(0)?)),
        None => Ok(None),
    }
}

/// Reports whether a row has the last number, `i64::MAX`.
fn has_last<S: Alter>(conn: &mut Connection<S>) -> Result<bool, Error>
    ensures spares { Spares (state S.Store conn.old) (state S.Store conn.new) }
    ensures answer { InEachWorld (state S.Store conn.old) (state S.Store conn.new) (λ old new _.
        IfOk result (λ has. IsTrue old.is_open × IsTrue new.is_open
        × Decides has (HasNumber (old.now.trees version_table.tree) last))) }
    ensures same { InEachWorld (state S.Store conn.old) (state S.Store conn.new) (λ old new _.
        OnOk result (new.now ≡ old.now)) }
{
    let found = find_number(
        conn,
        "SELECT id FROM version WHERE id = ?1",
        params![i64::MAX],
    )?;
    Ok(found.is_some())
}

/// Returns one less than the lowest number, or None if there is no row or one has the first number, `i64::MIN`.
/// Looking for the first gap would make each publish cost more than the one before. Tables with both the first and the
/// last number, which only another program makes, answer each publish with 503.
fn number_below_all<S: Alter>(conn: &mut Connection<S>) -> Result<Option<i64>, Error>
    ensures spares { Spares (state S.Store conn.old) (state S.Store conn.new) }
    ensures answer { InEachWorld (state S.Store conn.old) (state S.Store conn.new) (λ old new _.
        IfOk result (λ number. IsTrue new.is_open × MatchOption number
        (LacksOrHasFirst (old.now.trees version_table.tree))
        (IsBelowEach (old.now.trees version_table.tree)))) }
{
    match find_number(conn, "SELECT id FROM version ORDER BY id", params![])? {
        Some(lowest) => Ok(lowest.checked_sub(1)),
        None => Ok(None),
    }
}

/// Returns the number to give a new row, or None to leave it to sqlite.
pub(crate) fn chosen_number<S: Alter>(conn: &mut Connection<S>) -> Result<Option<i64>, Error>
    ensures spares { Spares (state S.Store conn.old) (state S.Store conn.new) }
    ensures answer { InEachWorld (state S.Store conn.old) (state S.Store conn.new) (λ old new _.
        IfOk result (λ number. IsTrue new.is_open × IsChosen (old.now.trees version_table.tree) number)) }
{
    if has_last(conn)? {
        number_below_all(conn)
    } else {
        Ok(None)
    }
}
