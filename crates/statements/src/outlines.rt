//! Reads how long the files of an entry are. Of a zip it reads one piece.

ghost use Rattle.std.specs.Prelude.{◌≡◌, ◌≤◌, ℕ, List, length, map as each, pos, IfOk, IfSome, OnOk, IsTrue};
ghost use Rattle.sqlite.specs.declared.types.Value.TheVariants.{Int, Blob};
ghost use Rattle.sqlite.specs.Order.{column};
ghost use Rattle.sqlite.specs.Held.{state};
ghost use Rattle.world.specs.World.{first_on};
ghost use Rattle.outline.specs.Outline.{in_outline};
ghost use Rattle.tables.specs.Pieces.{piece_size};
ghost use Rattle.statements.specs.Calls.{InEachWorld, Spares};
ghost use Rattle.statements.specs.Outlines.{IsFound, EndsWith};
ghost use Rattle.statements.specs.Reading.{IsZip};

use crate::entries::{VersionRow, row_seen};
use crate::pieces::{find_piece, lent_bytes};
use crate::query::find_row;
use outline::outlines::Outline;
use sqlite::{Alter, Connection, Error, ErrorCode, Row, params};
use tables::pieces::PIECE_SIZE;

/// A piece of a zip: its number, and how many bytes it has.
#[derive(Clone, Copy)]
pub(crate) struct Piece {
    pub(crate) number: u32,
    pub(crate) size: usize,
}

/// Returns the piece that a row shows. Fails with `DatabaseCorrupt` if the row has more bytes than a piece can have.
fn read_piece(row: &Row) -> Result<Piece, Error>
    ensures number { IfOk result (λ it. column row.now 0 ≡ Int (pos it.number)) }
    ensures size { IfOk result (λ it. (bytes : List ℕ) → column row.now 1 ≡ Blob bytes → it.size ≡ length bytes) }
    ensures at_most { IfOk result (λ it. it.size ≤ piece_size) }
{
    let number: u32 = row.get(0)?;
    let size = lent_bytes(row, 1)?.len();
    if size > PIECE_SIZE {
        return Err(Error::SqliteFailure(ErrorCode::DatabaseCorrupt));
    }
    Ok(Piece { number, size })
}

/// Returns the last piece of the zip of version `id`, or None if the zip is empty. The contract says only that it is a
/// piece of the zip. `ends_with` shows that it is the last, not the order of the statement.
fn find_last<S: Alter>(conn: &mut Connection<S>, id: i64) -> Result<Option<Piece>, Error>
    ensures spares { Spares (state S.Store conn.old) (state S.Store conn.new) }
    ensures same { InEachWorld (state S.Store conn.old) (state S.Store conn.new) (λ old new _.
        OnOk result (new.now ≡ old.now)) }
    ensures answer { InEachWorld (state S.Store conn.old) (state S.Store conn.new) (λ old new _.
        IfOk result (λ found. (zip : List ℕ) → IsZip old.now.trees id zip → IsFound zip found)) }
    ensures at_most { IfOk result (λ found. IfSome found (λ it. it.size ≤ piece_size)) }
{
    match find_row(
        conn,
        "SELECT number, bytes FROM piece WHERE version = ?1 ORDER BY number DESC",
        params![id],
    )? {
        Some(row) => Ok(Some(read_piece(&row)?)),
        None => Ok(None),
    }
}

/// Reports whether a piece is the last of the zip of version `id`. A piece that is not full is the last. After a full
/// one it looks for another.
fn ends_with<S: Alter>(conn: &mut Connection<S>, id: i64, last: Piece) -> Result<bool, Error>
    ensures spares { Spares (state S.Store conn.old) (state S.Store conn.new) }
    ensures answer { InEachWorld (state S.Store conn.old) (state S.Store conn.new) (λ old new _.
        IfOk result (λ ends. IsTrue ends → (zip : List ℕ) → IsZip old.now.trees id zip → EndsWith zip last)) }
{
    if last.size < PIECE_SIZE {
        return Ok(true);
    }
    match last.number.checked_add(1) {
        Some(next) => Ok(find_piece(conn, id, next)?.is_none()),
        None => Ok(false),
    }
}

/// Returns how many bytes the zip of version `id` has. It reads the last piece only, and fails with `DatabaseCorrupt`
/// if another piece follows it.
fn find_zip_length<S: Alter>(conn: &mut Connection<S>, id: i64) -> Result<usize, Error>
    ensures spares { Spares (state S.Store conn.old) (state S.Store conn.new) }
    ensures answer { InEachWorld (state S.Store conn.old) (state S.Store conn.new) (λ old new _.
        IfOk result (λ bytes. (zip : List ℕ) → IsZip old.now.trees id zip → bytes ≡ length zip)) }
{
    let Some(last) = find_last(conn, id)? else {
        return Ok(0);
    };
    if !ends_with(conn, id, last)? {
        return Err(Error::SqliteFailure(ErrorCode::DatabaseCorrupt));
    }
    Ok(last.number as usize * PIECE_SIZE + last.size)
}

/// Returns the outline of the entry of a version on the first of these shelves that has it, or None if none has.
pub fn find_outline<S: Alter>(
    conn: &mut Connection<S>,
    shelves: &[&str],
    path: &str,
    version: &str,
) -> Result<Option<Outline>, Error>
    ensures spares { Spares (state S.Store conn.old) (state S.Store conn.new) }
    ensures answer { InEachWorld (state S.Store conn.old) (state S.Store conn.new) (λ _ _ w.
        IfOk result (λ found. found
        ≡ in_outline (first_on w (each (λ shelf. shelf.now) shelves.now) path.now version.now))) }
{
    let Some(row) = row_seen(conn, shelves, path, version)? else {
        return Ok(None);
    };
    let zip_bytes = find_zip_length(conn, row.id)?;
    let VersionRow { shelf, heading, .. } = row;
    Ok(Some(Outline {
        shelf,
        time: heading.time,
        gomod_bytes: heading.gomod.as_slice().len(),
        zip_bytes,
    }))
}
