//! Tests the rows of `piece` of schema 2 and puts them in.

ghost use Rattle.std.specs.Prelude.{◌≡◌, Some};
ghost use Rattle.sqlite.specs.Held.{state};
ghost use Rattle.tables.specs.Fit.{IsPieceRow, piece_in};
ghost use Rattle.tables.specs.Walks.{MayGoOn};
ghost use Rattle.statements.specs.Rows.{PutsPiece};
ghost use Rattle.older_rows.specs.Causes.{FailsAs};
ghost use Rattle.older_rows.specs.Visits.{Moves, is_done};
ghost use Rattle.older_rows.specs.Entered.{PutsZips};

use crate::walk::{RowMeter, Visit, visit_rows};
use older::schema::Format;
use sqlite::{Alter, Connection, Error, Row, Transaction};
use statements::extract_rows::{CopyError, Pieces, RowSink};
use statements::meter::{Meter, is_zero_at, len_at};
use tables::pieces::{LastPiece, may_go_on, piece_at};

/// Visits the rows of `piece` in the order of their versions and numbers. The pieces of a version must be numbered from
/// 0 without gaps, and each but the last must be full. The fresh store refuses a piece that has no version.
#[derive(Drop)]
struct ZipRows {
    last: Option<LastPiece>,
}

impl Visit for ZipRows {
    ghost Puts = { λ so_far row db next after. IsPieceRow row × (MayGoOn so_far.last (piece_in row)
        × ((next.last ≡ Some (piece_in row)) × PutsPiece row db after)) };

    fn visit<F: Alter>(&mut self, tx: &mut Transaction<'_, F>, row: &Row) -> Result<bool, Error> {
        let Some(piece) = piece_at(row)? else {
            return Ok(false);
        };
        if !may_go_on(self.last, piece) {
            return Ok(false);
        }
        Pieces.put(tx, row)?;
        self.last = Some(piece);
        Ok(true)
    }
}

/// Has a meter hear of the pieces of zips.
#[derive(Drop)]
struct ZipMeter<'m, M: Meter> {
    meter: &'m M,
}

impl<'m, M: Meter> RowMeter for ZipMeter<'m, M> {
    fn note_row(&self, row: &Row) {
        self.meter.note_zip(is_zero_at(row, 1), len_at(row, 2));
    }
}

/// Puts in the pieces of schema 2. Returns false if they are not the pieces of zips.
fn put_pieces<S: Alter, F: Alter, M: Meter>(
    source: &mut Connection<S>,
    tx: &mut Transaction<'_, F>,
    meter: &M,
) -> Result<bool, CopyError>
    ensures same_reference { tx.new.conn.ghost_name ≡ tx.old.conn.ghost_name }
    ensures moves { Moves Format.Two (PutsZips Format.Two) (state S.Store source.old) (state S.Store source.new)
        (state F.Store tx.old.conn.now) (state F.Store tx.new.conn.now) (is_done result) }
    ensures cause { FailsAs Format.Two (state S.Store source.old) (state S.Store source.new) result }
{
    visit_rows(
        source,
        Format::Two,
        "SELECT version, number, bytes FROM piece ORDER BY version, number",
        tx,
        &mut ZipRows { last: None },
        &ZipMeter { meter },
    )
}

/// Puts in the zips. Returns false if their pieces are not those of zips. In schema 1 the zips came with their
/// versions. Fails with `Source` or `Fresh`, by the store that failed.
pub(crate) fn put_zips<S: Alter, F: Alter, M: Meter>(
    source: &mut Connection<S>,
    format: Format,
    tx: &mut Transaction<'_, F>,
    meter: &M,
) -> Result<bool, CopyError>
    ensures same_reference { tx.new.conn.ghost_name ≡ tx.old.conn.ghost_name }
    ensures moves { Moves format (PutsZips format) (state S.Store source.old) (state S.Store source.new)
        (state F.Store tx.old.conn.now) (state F.Store tx.new.conn.now) (is_done result) }
    ensures cause { FailsAs format (state S.Store source.old) (state S.Store source.new) result }
{
    match format {
        Format::One => Ok(true),
        Format::Two => put_pieces(source, tx, meter),
    }
}
