//! Copies the pieces of a zip from one store into another.
ghost use Rattle.std.specs.Prelude.{◌≡◌, ◌∷◌, [], ◌+◌, ◌<◌, length, pos, IfOk, OnOk, IsTrue, is_ok};
ghost use Rattle.sqlite.specs.Held.{state};
ghost use Rattle.sqlite.specs.Order.{column};
ghost use Rattle.sqlite.specs.declared.types.Value.TheVariants.{Int, Blob};
ghost use Rattle.tables.specs.Calls.{Honestly};
ghost use Rattle.tables.specs.Pieces.{piece_size};
ghost use Rattle.statements.specs.Calls.{InEachWorld, Spares};
ghost use Rattle.statements.specs.Rows.{Filling, GoesOn, PutsPiece};
ghost use Rattle.slices.specs.Slices.{ShowsPieceRow, CopiesPiecesFrom};

use crate::pace::Pace;
use sqlite::types::ValueRef;
use sqlite::{Alter, Connection, Error, ErrorCode, Row, Transaction, params};
use statements::extract_rows::{CopyError, Pieces, RowSink};
use statements::meter::len_at;
use statements::query::find_row;
use tables::pieces::PIECE_SIZE;

/// Returns the row of the piece with this number of the version with the number `id`, or None if there is no such row.
fn find_piece<S: Alter>(
    conn: &mut Connection<S>,
    id: i64,
    number: u32,
) -> Result<Option<Row>, Error>
    ensures spares { Spares (state S.Store conn.old) (state S.Store conn.new) }
    ensures same { InEachWorld (state S.Store conn.old) (state S.Store conn.new) (λ old new _.
        OnOk result (new.now ≡ old.now)) }
    ensures answer { InEachWorld (state S.Store conn.old) (state S.Store conn.new) (λ old new _.
        IfOk result (λ found. IsTrue new.is_open × ShowsPieceRow old.now.trees id number found)) }
{
    find_row(
        conn,
        "SELECT version, number, bytes FROM piece WHERE version = ?1 AND number = ?2",
        params![id, number],
    )
}

/// Writes the row of a piece of the version with the number `id`. Fails with `DatabaseCorrupt` if the row is that of
/// another version, and otherwise as [`RowSink::put`] does.
fn put_piece<F: Alter>(tx: &mut Transaction<'_, F>, id: i64, row: &Row) -> Result<(), Error>
    ensures same_reference { tx.new.conn.ghost_name ≡ tx.old.conn.ghost_name }
    ensures goes_on { GoesOn (state F.Store tx.old.conn.now) (state F.Store tx.new.conn.now) (is_ok result) }
    ensures puts { Honestly (state F.Store tx.old.conn.now) (state F.Store tx.new.conn.now) (λ old new. Filling old
        → OnOk result (PutsPiece (Int id ∷ column row.now 1 ∷ column row.now 2 ∷ []) old.now.trees new.now.trees
        × Filling new)) }
{
    let of: i64 = row.get(0)?;
    if of != id {
        return Err(Error::SqliteFailure(ErrorCode::DatabaseCorrupt));
    }
    Pieces.put(tx, row)
}

/// Whether the row shows a piece that is shorter than others, so that it is the last of its zip.
fn is_short(row: &Row) -> bool
    ensures { (bytes : _) → column row.now 2 ≡ Blob bytes → IsTrue result → length bytes < piece_size }
{
    match row.get_ref(2) {
        Ok(ValueRef::Blob(bytes)) => bytes.len() < PIECE_SIZE,
        _ => false,
    }
}

/// Copies the pieces of the zip of the version with the number `id`, from the piece `first` on, up to where the pace
/// says, but at least one, inside a transaction. Returns the number of the piece that comes next, or None if there is
/// none. Fails with `Source` or `Fresh`, by the store that failed.
pub(crate) fn copy_pieces<S: Alter, F: Alter, P: Pace>(
    source: &mut Connection<S>,
    id: i64,
    first: u32,
    tx: &mut Transaction<'_, F>,
    pace: &mut P,
) -> Result<Option<u32>, CopyError>
    ensures reads { Spares (state S.Store source.old) (state S.Store source.new) }
    ensures open { InEachWorld (state S.Store source.old) (state S.Store source.new) (λ old new _.
        IsTrue old.is_open → OnOk result (IsTrue new.is_open)) }
    ensures same_reference { tx.new.conn.ghost_name ≡ tx.old.conn.ghost_name }
    ensures goes_on { GoesOn (state F.Store tx.old.conn.now) (state F.Store tx.new.conn.now) (is_ok result) }
    ensures copies { CopiesPiecesFrom (state S.Store source.old) (state S.Store source.new)
        (state F.Store tx.old.conn.now) (state F.Store tx.new.conn.now) id first result }
{
    for number in first..u32::MAX {
        let Some(row) = find_piece(source, id, number)? else {
            return Ok(None);
        };
        match put_piece(tx, id, &row) {
            Ok(()) => pace.note(len_at(&row, 2)),
            Err(error) => return Err(CopyError::Fresh(error)),
        }
        if is_short(&row) {
            return Ok(None);
        }
        // At least one piece is copied, so the walk goes on even if the row of the version took the time of a slice.
        if pace.is_spent() {
            return Ok(Some(number + 1));
        }
    }
    Err(CopyError::Source(Error::SqliteFailure(ErrorCode::TooBig)))
}
