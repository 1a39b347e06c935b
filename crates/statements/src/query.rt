//! Reads the rows that a query shows.

ghost use Rattle.std.specs.Prelude.{◌≡◌, false, IfOk, OnOk, IsTrue};
ghost use Rattle.sqlite.specs.Effect.{Reads};
ghost use Rattle.sqlite.specs.Given.{IsPlain};
ghost use Rattle.sqlite.specs.Held.{state};
ghost use Rattle.sqlite.specs.Listing.{understood, reads_listing};
ghost use Rattle.sqlite.specs.Values.{bound};
ghost use Rattle.sqlite.proofs.Callers.{command_of};
ghost use Rattle.tables.specs.Schema.{store_schema};
ghost use Rattle.statements.specs.Calls.{InEachWorld, Spares, Selects};

use sqlite::types::ValueRef;
use sqlite::{Alter, Connection, Error, Row};

/// Returns the first row of the answer to a query, or None if the answer is empty.
pub fn find_row<S: Alter>(
    conn: &mut Connection<S>,
    sql: &str,
    params: &[ValueRef<'_>],
) -> Result<Option<Row>, Error>
    requires plain { IsPlain (understood store_schema sql.now) }
    requires tables { reads_listing store_schema sql.now ≡ false }
    ensures spares { Spares (state S.Store conn.old) (state S.Store conn.new) }
    ensures row { InEachWorld (state S.Store conn.old) (state S.Store conn.new) (λ old new w.
        IfOk result (λ found. IsTrue old.is_open × IsTrue new.is_open
        × Selects sql.now (bound params.now) old.now found)) }
    ensures same { InEachWorld (state S.Store conn.old) (state S.Store conn.new) (λ old new _.
        OnOk result (new.now ≡ old.now)) }
{
    // This fails on a closed connection, so the next line finds the tables.
    conn.prepare(sql)?;
    match conn.query_row(sql, params) {
        Ok(row) => Ok(Some(row)),
        Err(Error::QueryReturnedNoRows) => Ok(None),
        Err(error) => Err(error),
    }
}

/// Returns all rows of the answer to a query.
pub fn find_rows<S: Alter>(
    conn: &mut Connection<S>,
    sql: &str,
    params: &[ValueRef<'_>],
) -> Result<Vec<Row>, Error>
    requires plain { IsPlain (understood store_schema sql.now) }
    requires tables { reads_listing store_schema sql.now ≡ false }
    ensures spares { Spares (state S.Store conn.old) (state S.Store conn.new) }
    ensures rows { InEachWorld (state S.Store conn.old) (state S.Store conn.new) (λ old _ w.
        IfOk result (λ rows. IsTrue old.is_open
        × Reads (command_of (understood store_schema sql.now)) old.now (bound params.now) rows.items)) }
    ensures open { InEachWorld (state S.Store conn.old) (state S.Store conn.new) (λ _ new w.
        OnOk result (IsTrue new.is_open)) }
{
    // This fails on a closed connection, so the next line finds the tables.
    conn.prepare(sql)?;
    conn.query_all(sql, params)
}
