//! Zips in pieces, and whether the rows of `piece` are the pieces of zips.

ghost use Rattle.std.specs.Prelude.{◌≡◌, ◌≤◌, ◌<◌, ℕ, pos, map, length, IfOk, IfErr, Decides, MatchOption, Some};
ghost use Rattle.sqlite.specs.declared.types.Value.TheVariants.{Int};
ghost use Rattle.sqlite.specs.Order.{column};
ghost use Rattle.sqlite.specs.Held.{state};
ghost use Rattle.tables.specs.Calls.{FailsWithReason};
ghost use Rattle.tables.specs.Walks.{Tests, MayGoOn};
ghost use Rattle.tables.specs.Pieces.{piece_limit};
ghost use Rattle.tables.specs.Fit.{IsPieceRow, ArePiecesFit, piece_in, piece_shown, piece_width};

use crate::columns::{blob_at, int_at};
use crate::walk::{RowTest, rows_pass};
use sqlite::{Alter, Connection, Error, Row};

/// A piece of a zip has this many bytes. The last piece may have fewer, but has at least one.
pub const PIECE_SIZE: usize = 65_536;

/// A zip has at most this many pieces.
/// They hold exactly the longest zip, so an entry is tested without its zip.
const MAX_PIECES: u64 = 256;

/// What a walk keeps of the last row of `piece`.
#[derive(Clone, Copy)]
pub struct LastPiece {
    version: i64,
    number: u64,
    is_full: bool,
}

/// A walk over the rows of `piece` by version and number: the pieces of a version are numbered from 0 without gaps, and
/// each but the last is full. The walk keeps no bytes, so opening a store puts no zip together. The foreign key says
/// that each piece has a version.
#[derive(Drop)]
struct PieceRows {
    last: Option<LastPiece>,
}

impl RowTest for PieceRows {
    ghost width = { piece_width };

    ghost Fits = { λ rows row. IsPieceRow row × MayGoOn rows.last (piece_in row) };

    ghost Keeps = { λ _ row next. next.last ≡ Some (piece_in row) };

    fn passes(&mut self, row: &Row) -> Result<bool, Error> {
        let Some(piece) = piece_at(row)? else {
            return Ok(false);
        };
        if !may_go_on(self.last, piece) {
            return Ok(false);
        }
        self.last = Some(piece);
        Ok(true)
    }
}

/// Returns the number of a piece in a column, or None if the column holds no integer from 0 to 255.
/// Fails only if the row has no such column.
fn number_at(row: &Row, at: usize) -> Result<Option<u64>, Error>
    ensures found { IfOk result (λ found. MatchOption found
        ((n : ℕ) → column row.now at ≡ Int (pos n) → n < piece_limit → ⊥)
        (λ n. (column row.now at ≡ Int (pos n)) × (n < piece_limit))) }
    ensures past { IfErr result (λ _. length row.now ≤ at) }
{
    let Some(number) = int_at(row, at)? else {
        return Ok(None);
    };
    match u64::try_from(number) {
        Ok(number) if number < MAX_PIECES => Ok(Some(number)),
        _ => Ok(None),
    }
}

/// Returns what a walk keeps of the piece in a row, or None if the row holds no piece. Fails only if the row is too
/// short.
pub fn piece_at(row: &Row) -> Result<Option<LastPiece>, Error>
    ensures found { IfOk result (λ found. MatchOption found
        (IsPieceRow row.now → ⊥)
        (λ p. (p ≡ piece_in row.now) × IsPieceRow row.now)) }
    ensures past { IfErr result (λ _. length row.now < piece_width) }
{
    let Some(version) = int_at(row, 0)? else {
        return Ok(None);
    };
    let Some(number) = number_at(row, 1)? else {
        return Ok(None);
    };
    let Some(bytes) = blob_at(row, 2)? else {
        return Ok(None);
    };
    if bytes.is_empty() || bytes.len() > PIECE_SIZE {
        return Ok(None);
    }
    Ok(Some(LastPiece {
        version,
        number,
        is_full: bytes.len() == PIECE_SIZE,
    }))
}

/// Whether a piece may follow the last one, if there is one.
pub fn may_go_on(last: Option<LastPiece>, piece: LastPiece) -> bool
    ensures { Decides result (MayGoOn last piece) }
{
    let Some(last) = last else {
        return piece.number == 0;
    };
    if last.version != piece.version {
        return piece.number == 0;
    }
    last.is_full && piece.number > 0 && last.number == piece.number - 1
}

/// Whether the rows of `piece` are the pieces of zips. Fails only if memory runs out, the connection is closed or
/// limited in its steps, the disk fails, or a table has a row for each rowid.
pub(crate) fn are_pieces_fit<S: Alter>(conn: &mut Connection<S>) -> Result<bool, Error>
    ensures tests { Tests (state S.Store conn.old) (state S.Store conn.new) result
        (λ db. ArePiecesFit (map piece_shown (db 8))) }
    ensures cause { FailsWithReason (state S.Store conn.old) (state S.Store conn.new) result }
{
    let mut rows = PieceRows { last: None };
    rows_pass(
        conn,
        "SELECT version, number, bytes FROM piece ORDER BY version, number",
        &mut rows,
    )
}
