//! The zip of a version in pieces, a row of `piece` for each, which are written, read, and compared with other bytes.
//! All pieces have one size, but the last may be shorter.

ghost use Rattle.std.specs.Prelude.{◌≡◌, ◌≤◌, [], ◌∷◌, pos, bytes_eq, IfOk, OnOk, is_ok, IsTrue};
ghost use Rattle.sqlite.specs.declared.types.Value.TheVariants.{Int, Blob};
ghost use Rattle.sqlite.specs.Order.{column};
ghost use Rattle.sqlite.specs.Held.{state};
ghost use Rattle.statements.specs.Calls.{InEachWorld, Spares};
ghost use Rattle.tables.specs.Calls.{Honestly};
ghost use Rattle.statements.specs.Reading.{IsZip, ShowsPiece};
ghost use Rattle.statements.specs.Rows.{Filling, GoesOn, PutsPiece};
ghost use Rattle.statements.specs.Added.{AddsZip};

use crate::query::find_row;
use sqlite::types::ValueRef;
use sqlite::{Alter, Connection, Error, ErrorCode, Row, Transaction, params};
use std::alloc::Global;
use tables::pieces::PIECE_SIZE;
use world::bytes::Bytes;
use world::entry::MAX_ZIP;

/// Returns the row of piece `number` of the zip of version `id`, or None if there is no such row.
pub(crate) fn find_piece<S: Alter>(
    conn: &mut Connection<S>,
    id: i64,
    number: u32,
) -> Result<Option<Row>, Error>
    ensures spares { Spares (state S.Store conn.old) (state S.Store conn.new) }
    ensures answer { InEachWorld (state S.Store conn.old) (state S.Store conn.new) (λ old new _.
        IfOk result (λ found. IsTrue new.is_open × ShowsPiece old.now.trees id number found)) }
    ensures same { InEachWorld (state S.Store conn.old) (state S.Store conn.new) (λ old new _.
        OnOk result (new.now ≡ old.now)) }
{
    find_row(
        conn,
        "SELECT bytes FROM piece WHERE version = ?1 AND number = ?2",
        params![id, number],
    )
}

/// Borrows the bytes in a column of a row. Fails with `DatabaseCorrupt` if the column is not a BLOB.
pub(crate) fn lent_bytes(row: &Row, at: usize) -> Result<&[u8], Error>
    ensures { IfOk result (λ bytes. column row.now at ≡ Blob bytes.now) }
{
    match row.get_ref(at)? {
        ValueRef::Blob(bytes) => Ok(bytes),
        _ => Err(Error::SqliteFailure(ErrorCode::DatabaseCorrupt)),
    }
}

/// Returns how many bytes to reserve for the zip of version `id`, computed from the number of its last piece.
/// It is a hint: a longer zip makes the buffer grow.
fn find_room<S: Alter>(conn: &mut Connection<S>, id: i64) -> Result<usize, Error>
    ensures spares { Spares (state S.Store conn.old) (state S.Store conn.new) }
    ensures same { InEachWorld (state S.Store conn.old) (state S.Store conn.new) (λ old new _.
        OnOk result (new.now ≡ old.now)) }
{
    match find_row(
        conn,
        "SELECT number FROM piece WHERE version = ?1 ORDER BY number DESC",
        params![id],
    )? {
        Some(row) => {
            let last: u32 = row.get(0)?;
            Ok(((last as usize + 1) * PIECE_SIZE).min(MAX_ZIP))
        }
        None => Ok(0),
    }
}

/// Returns the bytes that a row shows as the piece of this number. Fails with `DatabaseCorrupt` if it has another
/// number.
fn piece_in(row: &Row, number: u32) -> Result<&[u8], Error>
    ensures { IfOk result (λ bytes. (column row.now 0 ≡ Int (pos number)) × (column row.now 1 ≡ Blob bytes.now)) }
{
    let found: u32 = row.get(0)?;
    if found != number {
        return Err(Error::SqliteFailure(ErrorCode::DatabaseCorrupt));
    }
    lent_bytes(row, 1)
}

/// Returns the zip of version `id`: its pieces one after another, read in one walk over their rows. It checks the
/// number of each row and does not rely on the statement for the order: a row out of order fails the call with
/// `DatabaseCorrupt`. The index has this order, so the database sorts nothing.
pub(crate) fn find_zip<S: Alter>(
    alloc: Global,
    conn: &mut Connection<S>,
    id: i64,
) -> Result<Bytes, Error>
    ensures spares { Spares (state S.Store conn.old) (state S.Store conn.new) }
    ensures answer { InEachWorld (state S.Store conn.old) (state S.Store conn.new) (λ old new _.
        IfOk result (λ found. IsTrue new.is_open × ((zip : _) → IsZip old.now.trees id zip → found ≡ zip))) }
{
    let room = find_room(conn, id)?;
    let mut zip = Vec::with_capacity(alloc, room)?;
    let sql = "SELECT number, bytes FROM piece WHERE version = ?1 ORDER BY version, number";
    // This fails on a closed connection, so the query finds the tables.
    conn.prepare(sql)?;
    let mut rows = conn.query(sql, params![id])?;
    for number in 0..u32::MAX {
        let Some(row) = rows.next()? else {
            return Ok(Bytes::new(zip));
        };
        zip.extend_from_slice(piece_in(row, number)?)?;
    }
    Err(Error::SqliteFailure(ErrorCode::TooBig))
}

/// Reports whether these bytes are the zip of version `id`. It compares each piece with the bytes in its row, and
/// stops at the first piece that differs. The connection keeps the compiled look-up.
pub(crate) fn is_same_zip<S: Alter>(
    conn: &mut Connection<S>,
    id: i64,
    zip: &[u8],
) -> Result<bool, Error>
    ensures spares { Spares (state S.Store conn.old) (state S.Store conn.new) }
    ensures answer { InEachWorld (state S.Store conn.old) (state S.Store conn.new) (λ old new _.
        IfOk result (λ same. IsTrue new.is_open
        × ((there : _) → IsZip old.now.trees id there → same ≡ bytes_eq there zip.now))) }
{
    let mut rest = zip;
    for number in 0..u32::MAX {
        let Some(row) = find_piece(conn, id, number)? else {
            return Ok(rest.is_empty());
        };
        match rest.strip_prefix(lent_bytes(&row, 0)?) {
            Some(later) => rest = later,
            None => return Ok(false),
        }
    }
    Err(Error::SqliteFailure(ErrorCode::TooBig))
}

/// Writes the row of one piece.
pub(crate) fn insert_piece<S: Alter>(
    tx: &mut Transaction<'_, S>,
    id: i64,
    number: i64,
    bytes: &[u8],
) -> Result<(), Error>
    ensures same_reference { tx.new.conn.ghost_name ≡ tx.old.conn.ghost_name }
    ensures goes_on { GoesOn (state S.Store tx.old.conn.now) (state S.Store tx.new.conn.now) (is_ok result) }
    ensures puts { Honestly (state S.Store tx.old.conn.now) (state S.Store tx.new.conn.now) (λ old new.
        Filling old → OnOk result (PutsPiece (Int id ∷ Int number ∷ Blob bytes.now ∷ [])
        old.now.trees new.now.trees × Filling new)) }
{
    tx.execute(
        "INSERT INTO piece (version, number, bytes) VALUES (?1, ?2, ?3)",
        params![id, number, bytes],
    )?;
    Ok(())
}

/// Writes the rows of a zip, a row for each piece. Fails with the error of the connection, or with `TooBig` if the zip
/// has 2^32 - 1 pieces or more.
pub fn insert_zip<S: Alter>(tx: &mut Transaction<'_, S>, id: i64, zip: &[u8]) -> Result<(), Error>
    ensures same_reference { tx.new.conn.ghost_name ≡ tx.old.conn.ghost_name }
    ensures goes_on { GoesOn (state S.Store tx.old.conn.now) (state S.Store tx.new.conn.now) (is_ok result) }
    ensures adds { Honestly (state S.Store tx.old.conn.now) (state S.Store tx.new.conn.now) (λ old new.
        Filling old → OnOk result (AddsZip id zip.now old.now.trees new.now.trees × Filling new)) }
{
    let mut rest = zip;
    for number in 0..u32::MAX {
        if rest.is_empty() {
            return Ok(());
        }
        let (piece, later) = rest.split_at(rest.len().min(PIECE_SIZE));
        insert_piece(tx, id, i64::from(number), piece)?;
        rest = later;
    }
    Err(Error::SqliteFailure(ErrorCode::TooBig))
}
