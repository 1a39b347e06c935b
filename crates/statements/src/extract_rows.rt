//! Copies rows of one store into a second one, one at a time, inside a transaction of the second.

ghost use Rattle.std.specs.Prelude.{◌≡◌, ⊤, false, OnOk, is_ok};
ghost use Rattle.sqlite.specs.Effect.{Reads};
ghost use Rattle.sqlite.specs.Given.{IsPlain};
ghost use Rattle.sqlite.specs.Held.{state};
ghost use Rattle.sqlite.specs.Listing.{understood, reads_listing};
ghost use Rattle.sqlite.specs.Order.{Row as Shown};
ghost use Rattle.sqlite.specs.State.{HasCleanDisk, IsUnchanged};
ghost use Rattle.sqlite.specs.Values.{bound};
ghost use Rattle.sqlite.proofs.Callers.{command_of};
ghost use Rattle.sqlite.specs.Tree.{Trees};
ghost use Rattle.tables.specs.Schema.{store_schema};
ghost use Rattle.tables.specs.Means.{Means};
ghost use Rattle.tables.specs.Walks.{Looks, Pass};
ghost use Rattle.tables.specs.Calls.{Honestly};
ghost use Rattle.statements.specs.Rows.{Filling, GoesOn, PutsPiece, PutsVersion};
ghost use Rattle.statements.specs.Extract.{Copies, OfWorlds, AllFit, IsKeyShown, PutsKey};
ghost use Rattle.statements.specs.Extract.{CopiesKeys, IsVersionShown, CopiesVersions, CopiesPieces};

use crate::meter::{Meter, is_zero_at, len_at};
use crate::pieces::{insert_piece, lent_bytes};
use sqlite::types::ValueRef;
use sqlite::{Alter, Connection, Error, ErrorCode, Row, Transaction, params};

/// Why a copy failed: an error of the store that it reads, or of the store that it writes.
#[derive(Debug, Drop)]
pub enum CopyError {
    /// An error of the store that the rows come from.
    Source(Error),
    /// An error of the store that the rows go to.
    Fresh(Error),
}

/// An error that `?` passes on counts as the source's. A call on the fresh store wraps its error in `Fresh` itself.
impl From<Error> for CopyError {
    fn from(error: Error) -> CopyError {
        CopyError::Source(error)
    }
}

/// Takes the rows that a query shows, one at a time.
pub trait RowSink {
    /// Which rows `Puts` speaks of.
    ghost Fits: { Shown → Type 0 };

    /// How a row changes the tables: the row, the tables before, and the tables after.
    ghost Puts: { Shown → Trees → Trees → Type 0 };

    /// Writes a row with the values of this one into a transaction. Fails with the error of the connection, or if a
    /// value of the row is missing or not of the type that the table needs.
    fn put<F: Alter>(&self, tx: &mut Transaction<'_, F>, row: &Row) -> Result<(), Error>
        ensures same_reference { tx.new.conn.ghost_name ≡ tx.old.conn.ghost_name }
        ensures goes_on { GoesOn (state F.Store tx.old.conn.now) (state F.Store tx.new.conn.now) (is_ok result) }
        ensures puts { Honestly (state F.Store tx.old.conn.now) (state F.Store tx.new.conn.now) (λ old new.
            Fits row.now → Filling old → OnOk result (Puts row.now old.now.trees new.now.trees × Filling new)) };
}

/// Gives each row that a query shows to the sink, while the query is read, so only one row is in memory. Fails with
/// `Source` if the query fails or shows 2^128 - 1 rows, and with `Fresh` if the sink fails. The rows come in no order,
/// because sorting would gather them all. A second row for a key or a place fails in the fresh tables.
pub(crate) fn hand_on<S: Alter, F: Alter, T: RowSink>(
    source: &mut Connection<S>,
    sql: &str,
    params: &[ValueRef<'_>],
    tx: &mut Transaction<'_, F>,
    sink: &T,
) -> Result<(), CopyError>
    requires plain { IsPlain (understood store_schema sql.now) }
    requires tables { reads_listing store_schema sql.now ≡ false }
    requires fits { AllFit T.Fits sql.now (bound params.now) }
    ensures looks { Looks (state S.Store source.old) (state S.Store source.new) }
    ensures same { Honestly (state S.Store source.old) (state S.Store source.new) (λ old new.
        old.now.schema ≡ store_schema → OnOk result (IsUnchanged old new)) }
    ensures same_reference { tx.new.conn.ghost_name ≡ tx.old.conn.ghost_name }
    ensures goes_on { GoesOn (state F.Store tx.old.conn.now) (state F.Store tx.new.conn.now) (is_ok result) }
    ensures puts { HasCleanDisk (state S.Store source.new) → HasCleanDisk (state F.Store tx.new.conn.now)
        → (state S.Store source.old).now.schema ≡ store_schema
        → (w : _) → Means (state S.Store source.old).now.trees w → Filling (state F.Store tx.old.conn.now)
        → OnOk result (Filling (state F.Store tx.new.conn.now) × ((rows : _)
        × Reads (command_of (understood store_schema sql.now)) (state S.Store source.old).now (bound params.now) rows
        × Pass (λ _ row. T.Fits row) (λ db row after. T.Puts row db after)
        (state F.Store tx.old.conn.now).now.trees rows (state F.Store tx.new.conn.now).now.trees)) }
{
    let mut rows = source.query(sql, params)?;
    'rows: for _turn in 0..u128::MAX {
        let Some(row) = rows.next()? else {
            return Ok(());
        };
        match sink.put(tx, row) {
            Ok(()) => {}
            Err(error) => return Err(CopyError::Fresh(error)),
        }
    }
    // A query shows this many rows only if a table has a row for each rowid.
    Err(CopyError::Source(Error::SqliteFailure(ErrorCode::TooBig)))
}

/// Writes the rows of keys into `access` unchanged.
pub struct Keys;

impl RowSink for Keys {
    ghost Fits = { IsKeyShown };

    ghost Puts = { PutsKey };

    fn put<F: Alter>(&self, tx: &mut Transaction<'_, F>, row: &Row) -> Result<(), Error> {
        let values = [row.get_ref(0)?, row.get_ref(1)?, row.get_ref(2)?];
        tx.execute(
            "INSERT INTO access (token, shelf, publish) VALUES (?1, ?2, ?3)",
            &values,
        )?;
        Ok(())
    }
}

/// Copies the keys of one shelf into another store, inside a transaction of that store. Fails with `Source` or `Fresh`,
/// by the store that failed.
pub fn copy_keys<S: Alter, F: Alter>(
    source: &mut Connection<S>,
    tx: &mut Transaction<'_, F>,
    shelf: &str,
) -> Result<(), CopyError>
    ensures same_reference { tx.new.conn.ghost_name ≡ tx.old.conn.ghost_name }
    ensures copies { Copies (OfWorlds (CopiesKeys shelf.now)) (state S.Store source.old) (state S.Store source.new)
        (state F.Store tx.old.conn.now) (state F.Store tx.new.conn.now) (is_ok result) }
{
    hand_on(
        source,
        "SELECT token, shelf, publish FROM access WHERE shelf = ?1",
        params![shelf],
        tx,
        &Keys,
    )
}

/// Writes the rows of versions into `version` unchanged, with their numbers and order keys.
struct Versions;

impl RowSink for Versions {
    ghost Fits = { IsVersionShown };

    ghost Puts = { PutsVersion };

    fn put<F: Alter>(&self, tx: &mut Transaction<'_, F>, row: &Row) -> Result<(), Error> {
        let id: i64 = row.get(0)?;
        let values = [
            ValueRef::Int(id),
            row.get_ref(1)?,
            row.get_ref(2)?,
            row.get_ref(3)?,
            row.get_ref(4)?,
            row.get_ref(5)?,
            row.get_ref(6)?,
            row.get_ref(7)?,
        ];
        tx.execute(
            "INSERT INTO version (id, shelf, path, version, time, mod, order_key, rank_key) \
                VALUES (?1, ?2, ?3, ?4, ?5, ?6, ?7, ?8)",
            &values,
        )?;
        Ok(())
    }
}

/// Writes rows as [`Versions`] does, and has a meter hear of each.
#[derive(Drop)]
struct MeteredVersions<'m, M: Meter> {
    meter: &'m M,
}

impl<'m, M: Meter> RowSink for MeteredVersions<'m, M> {
    ghost Fits = { IsVersionShown };

    ghost Puts = { PutsVersion };

    fn put<F: Alter>(&self, tx: &mut Transaction<'_, F>, row: &Row) -> Result<(), Error> {
        let put = Versions.put(tx, row);
        if put.is_ok() {
            self.meter.note_version(len_at(row, 5));
        }
        put
    }
}

/// Copies the rows of the versions on one shelf into another store, inside a transaction of that store, and has a meter
/// hear of each. Fails with `Source` or `Fresh`, by the store that failed.
pub fn copy_versions<S: Alter, F: Alter, M: Meter>(
    source: &mut Connection<S>,
    tx: &mut Transaction<'_, F>,
    shelf: &str,
    meter: &M,
) -> Result<(), CopyError>
    ensures same_reference { tx.new.conn.ghost_name ≡ tx.old.conn.ghost_name }
    ensures copies { Copies (CopiesVersions shelf.now) (state S.Store source.old) (state S.Store source.new)
        (state F.Store tx.old.conn.now) (state F.Store tx.new.conn.now) (is_ok result) }
{
    hand_on(
        source,
        "SELECT id, shelf, path, version, time, mod, order_key, rank_key FROM version WHERE shelf = ?1",
        params![shelf],
        tx,
        &MeteredVersions { meter },
    )
}

/// Writes the rows of pieces into `piece` unchanged.
pub struct Pieces;

impl RowSink for Pieces {
    ghost Fits = { λ _. ⊤ };

    ghost Puts = { PutsPiece };

    fn put<F: Alter>(&self, tx: &mut Transaction<'_, F>, row: &Row) -> Result<(), Error> {
        let version: i64 = row.get(0)?;
        let number: i64 = row.get(1)?;
        insert_piece(tx, version, number, lent_bytes(row, 2)?)
    }
}

/// Writes rows as [`Pieces`] does, and has a meter hear of each.
#[derive(Drop)]
struct MeteredPieces<'m, M: Meter> {
    meter: &'m M,
}

impl<'m, M: Meter> RowSink for MeteredPieces<'m, M> {
    ghost Fits = { λ _. ⊤ };

    ghost Puts = { PutsPiece };

    fn put<F: Alter>(&self, tx: &mut Transaction<'_, F>, row: &Row) -> Result<(), Error> {
        let put = Pieces.put(tx, row);
        if put.is_ok() {
            self.meter.note_zip(is_zero_at(row, 1), len_at(row, 2));
        }
        put
    }
}

/// Copies the rows of the zips on one shelf into another store, inside a transaction of that store, and has a meter
/// hear of each. Fails with `Source` or `Fresh`, by the store that failed. The query joins `version`, whose index finds
/// the shelf, with `piece`, whose index finds the pieces of a version.
pub fn copy_pieces<S: Alter, F: Alter, M: Meter>(
    source: &mut Connection<S>,
    tx: &mut Transaction<'_, F>,
    shelf: &str,
    meter: &M,
) -> Result<(), CopyError>
    ensures same_reference { tx.new.conn.ghost_name ≡ tx.old.conn.ghost_name }
    ensures copies { Copies (CopiesPieces shelf.now) (state S.Store source.old) (state S.Store source.new)
        (state F.Store tx.old.conn.now) (state F.Store tx.new.conn.now) (is_ok result) }
{
    hand_on(
        source,
        "SELECT p.version, p.number, p.bytes FROM version AS v JOIN piece AS p ON p.version = v.id WHERE v.shelf = ?1",
        params![shelf],
        tx,
        &MeteredPieces { meter },
    )
}
