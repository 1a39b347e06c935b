//! Tests of the rows of a query, one after the other.

ghost use Rattle.std.specs.Prelude.{◌≡◌, ◌⊎◌, length, false, ℕ, IfOk, IfErr, OnOk, MatchBool};
ghost use Rattle.sqlite.specs.Held.{state};
ghost use Rattle.sqlite.specs.Order.{Row as Shown};
ghost use Rattle.sqlite.specs.State.{IsUnchanged};
ghost use Rattle.sqlite.specs.Given.{IsPlain};
ghost use Rattle.sqlite.specs.Listing.{understood, reads_listing};
ghost use Rattle.tables.specs.Schema.{store_schema};
ghost use Rattle.tables.specs.Calls.{HonestlyOver};
ghost use Rattle.tables.specs.Causes.{IsExcused};
ghost use Rattle.tables.specs.Walks.{Looks, Walks, IsWalkable, ShowsTooMany};

use sqlite::{Alter, Connection, Error, ErrorCode, Row};

/// A test of rows that come one after the other, which remembers something of the rows before.
pub(crate) trait RowTest {
    /// How many values a row has.
    ghost width: { ℕ };

    /// What a row must be, given what the test remembers of the rows before.
    ghost Fits: { Self → Shown → Type 0 };

    /// What the test remembers once a row has passed.
    ghost Keeps: { Self → Shown → Self → Type 0 };

    /// Whether the row passes. For a row of this width it fails only if memory runs out.
    fn passes(&mut self, row: &Row) -> Result<bool, Error>
        ensures verdict { IfOk result (λ passes. MatchBool passes
            (Fits self.old row.now × Keeps self.old row.now self.new)
            (Fits self.old row.now → ⊥)) }
        ensures memory { length row.now ≡ width → IfErr result (λ e. e ≡ Error.SqliteFailure ErrorCode.OutOfMemory) };
}

/// Whether each row of a query passes. Fails only if memory runs out, the connection is closed or limited in its steps,
/// the disk fails, or the query shows 2^128 - 1 rows or more, which a query of one table does only if the table has a
/// row for each rowid. Each table is read in one walk, ordered by what must not repeat, so nothing is quadratic. No
/// clause of `sqlite` bounds the rows of a table, so the walk has a bound of its own.
pub(crate) fn rows_pass<S: Alter, T: RowTest>(
    conn: &mut Connection<S>,
    sql: &str,
    test: &mut T,
) -> Result<bool, Error>
    requires plain { IsPlain (understood store_schema sql.now) }
    requires tables { reads_listing store_schema sql.now ≡ false }
    requires walkable { IsWalkable sql.now T.width }
    ensures looks { Looks (state S.Store conn.old) (state S.Store conn.new) }
    ensures same { HonestlyOver store_schema (state S.Store conn.old) (state S.Store conn.new) (λ old new.
        OnOk result (IsUnchanged old new)) }
    ensures answer { HonestlyOver store_schema (state S.Store conn.old) (state S.Store conn.new) (λ old _.
        IfOk result (Walks T.Fits T.Keeps sql.now old.now test.old test.new)) }
    ensures cause { HonestlyOver store_schema (state S.Store conn.old) (state S.Store conn.new) (λ old new.
        IfErr result (λ e. IsExcused old new e ⊎ ShowsTooMany sql.now old.now)) }
{
    let mut rows = conn.query(sql, &[])?;
    'rows: for _turn in 0..u128::MAX {
        let Some(row) = rows.next()? else {
            return Ok(true);
        };
        if !test.passes(row)? {
            return Ok(false);
        }
    }
    // A query of one table shows this many rows only if the table has a row for each rowid.
    Err(Error::SqliteFailure(ErrorCode::TooBig))
}
