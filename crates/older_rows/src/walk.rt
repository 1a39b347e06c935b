//! Puts rows of an older store into a fresh one, one after another.

ghost use Rattle.std.specs.Prelude.{◌≡◌, ◌≤◌, false, IfOk, is_ok, IsTrue};
ghost use Rattle.sqlite.specs.Given.{IsPlain};
ghost use Rattle.sqlite.specs.Held.{state};
ghost use Rattle.sqlite.specs.Listing.{understood, reads_listing};
ghost use Rattle.sqlite.specs.Order.{Row as Shown};
ghost use Rattle.sqlite.specs.State.{HasCleanDisk, Survives};
ghost use Rattle.sqlite.specs.Tree.{Trees};
ghost use Rattle.sqlite_trees.specs.View.{doubt};
ghost use Rattle.tables.specs.Calls.{Honestly};
ghost use Rattle.older.specs.Schemas.{schema_of};
ghost use Rattle.statements.specs.Extract.{IsReadBy};
ghost use Rattle.statements.specs.Rows.{Filling, GoesOn};
ghost use Rattle.older_rows.specs.Causes.{IsWalkableAs, FailsAs};
ghost use Rattle.older_rows.specs.Visits.{IsFilledBy};

use older::schema::Format;
use sqlite::{Alter, Connection, Error, ErrorCode, Row, Transaction};
use statements::extract_rows::CopyError;
use statements::meter::Unmetered;

/// Visits the rows of a table, and may note something of those before.
pub(crate) trait Visit {
    /// How a row changes the visitor, and the fresh tables.
    ghost Puts: { Self → Shown → Trees → Self → Trees → Type 0 };

    /// Tests a row and puts it into the fresh tables. Returns false if no world has such a row.
    fn visit<F: Alter>(&mut self, tx: &mut Transaction<'_, F>, row: &Row) -> Result<bool, Error>
        ensures same_reference { tx.new.conn.ghost_name ≡ tx.old.conn.ghost_name }
        ensures goes_on { GoesOn (state F.Store tx.old.conn.now) (state F.Store tx.new.conn.now) (is_ok result) }
        ensures puts { Honestly (state F.Store tx.old.conn.now) (state F.Store tx.new.conn.now) (λ old new.
            Filling old → IfOk result (λ fits. IsTrue fits
            → Puts self.old row.now old.now.trees self.new new.now.trees × Filling new)) };
}

/// Hears of the rows of a table that were put in. No clause depends on it.
pub(crate) trait RowMeter {
    /// Hears that a row was put in.
    fn note_row(&self, row: &Row);
}

impl RowMeter for Unmetered {
    fn note_row(&self, _row: &Row) {}
}

/// Visits each row that a query shows of the tables of a format, while the query is read, so only one row is in memory.
/// Returns true after the last row, and false at the first row that the visitor refuses. Fails with `Source` if the
/// older store does, and with `Fresh` if the fresh one does. A meter hears of each row that was put in.
pub(crate) fn visit_rows<S: Alter, F: Alter, V: Visit, M: RowMeter>(
    source: &mut Connection<S>,
    format: Format,
    sql: &str,
    tx: &mut Transaction<'_, F>,
    visitor: &mut V,
    meter: &M,
) -> Result<bool, CopyError>
    requires plain { IsPlain (understood (schema_of format) sql.now) }
    requires tables { reads_listing (schema_of format) sql.now ≡ false }
    requires walkable { IsWalkableAs format sql.now }
    ensures clean { doubt (state S.Store source.old).is_clean ≤ doubt (state S.Store source.new).is_clean }
    ensures reads { (state S.Store source.old).now.schema ≡ schema_of format
        → IsReadBy (state S.Store source.old) (state S.Store source.new) (is_ok result) }
    ensures survives { (state S.Store source.old).now.schema ≡ schema_of format
        → Survives (state S.Store source.old) (state S.Store source.new) (λ _. ⊥) }
    ensures same_reference { tx.new.conn.ghost_name ≡ tx.old.conn.ghost_name }
    ensures goes_on { GoesOn (state F.Store tx.old.conn.now) (state F.Store tx.new.conn.now) (is_ok result) }
    ensures puts { HasCleanDisk (state S.Store source.new) → HasCleanDisk (state F.Store tx.new.conn.now)
        → (state S.Store source.old).now.schema ≡ schema_of format → Filling (state F.Store tx.old.conn.now)
        → IfOk result (λ all. IsTrue all → IsFilledBy format sql.now
        (λ so_far row db next after. V.Puts so_far row db next after) (state S.Store source.old)
        visitor.old (state F.Store tx.old.conn.now) visitor.new (state F.Store tx.new.conn.now)) }
    ensures cause { FailsAs format (state S.Store source.old) (state S.Store source.new) result }
{
    let mut rows = match source.query(sql, &[]) {
        Ok(rows) => rows,
        Err(error) => return Err(CopyError::Source(error)),
    };
    'rows: for _turn in 0..u128::MAX {
        let row = match rows.next() {
            Ok(Some(row)) => row,
            Ok(None) => return Ok(true),
            Err(error) => return Err(CopyError::Source(error)),
        };
        match visitor.visit(tx, row) {
            Ok(true) => meter.note_row(row),
            Ok(false) => return Ok(false),
            Err(error) => return Err(CopyError::Fresh(error)),
        }
    }
    // A query shows this many rows only if a table has a row for each rowid.
    Err(CopyError::Source(Error::SqliteFailure(ErrorCode::TooBig)))
}
