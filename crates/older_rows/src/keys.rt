//! Tests the rows of `access` and puts them in.

ghost use Rattle.std.specs.Prelude.{◌≡◌, IfOk, IfSome, IsTrue};
ghost use Rattle.sqlite.specs.Held.{state};
ghost use Rattle.older_rows.specs.Causes.{FailsAs};
ghost use Rattle.older_rows.specs.Visits.{Moves, is_done};
ghost use Rattle.statements.specs.Extract.{ShowsKey};
ghost use Rattle.older_rows.specs.Registry.{ShowsRight, IsGoodKey, IsKeyRow, PutsKeys};

use crate::walk::{Visit, visit_rows};
use older::schema::Format;
use sqlite::types::ValueRef;
use sqlite::{Alter, Connection, Error, Row, Transaction};
use statements::extract_rows::{CopyError, Keys, RowSink};
use statements::meter::Unmetered;
use tables::columns::text_at;
use world::entry::Right;
use world::names::is_key;

/// Returns the right in a column, or None if the column is neither 0 nor 1.
fn right_at(row: &Row, at: usize) -> Result<Option<Right>, Error>
    ensures { IfOk result (λ found. IfSome found (λ right. ShowsRight row.now at right)) }
{
    match row.get_ref(at)? {
        ValueRef::Int(0) => Ok(Some(Right::Reads)),
        ValueRef::Int(1) => Ok(Some(Right::Publishes)),
        _ => Ok(None),
    }
}

/// Returns the key that a row shows, with its shelf and its right. Returns None if a column is not of its type.
fn key_at(row: &Row) -> Result<Option<(&str, &str, Right)>, Error>
    ensures { IfOk result (λ found. IfSome found (λ key.
        ShowsKey row.now (key.0.now, record { shelf = key.1.now; right = key.2 }))) }
{
    let Some(token) = text_at(row, 0)? else {
        return Ok(None);
    };
    let Some(shelf) = text_at(row, 1)? else {
        return Ok(None);
    };
    let Some(right) = right_at(row, 2)? else {
        return Ok(None);
    };
    Ok(Some((token, shelf, right)))
}

/// Reports whether a row shows a well-formed key, a shelf, and 0 or 1.
fn shows_key(row: &Row) -> Result<bool, Error>
    ensures { IfOk result (λ shows. IsTrue shows → IsGoodKey row.now) }
{
    let Some(key) = key_at(row)? else {
        return Ok(false);
    };
    Ok(is_key(key.0))
}

/// Visits the rows of `access` and refuses a key that is not well-formed. The fresh store refuses a key that comes
/// twice or has no shelf.
#[derive(Drop)]
struct KeyRows;

impl Visit for KeyRows {
    ghost Puts = { λ _ row db _ after. IsKeyRow row db after };

    fn visit<F: Alter>(&mut self, tx: &mut Transaction<'_, F>, row: &Row) -> Result<bool, Error> {
        if !shows_key(row)? {
            return Ok(false);
        }
        Keys.put(tx, row)?;
        Ok(true)
    }
}

/// Puts in each key with its shelf and its right. Returns false if one is not well-formed.
/// Fails with `Source` or `Fresh`, by the store that failed.
pub(crate) fn put_keys<S: Alter, F: Alter>(
    source: &mut Connection<S>,
    format: Format,
    tx: &mut Transaction<'_, F>,
) -> Result<bool, CopyError>
    ensures same_reference { tx.new.conn.ghost_name ≡ tx.old.conn.ghost_name }
    ensures moves { Moves format PutsKeys (state S.Store source.old) (state S.Store source.new)
        (state F.Store tx.old.conn.now) (state F.Store tx.new.conn.now) (is_done result) }
    ensures cause { FailsAs format (state S.Store source.old) (state S.Store source.new) result }
{
    visit_rows(
        source,
        format,
        "SELECT token, shelf, publish FROM access",
        tx,
        &mut KeyRows,
        &Unmetered,
    )
}
