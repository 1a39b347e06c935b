//! Reads a row of `version` from one store, and writes it into another.
ghost use Rattle.std.specs.Prelude.{◌≡◌, IfOk, IfSome, OnOk, IsTrue, is_ok};
ghost use Rattle.sqlite.specs.Held.{state};
ghost use Rattle.sqlite.specs.Order.{column};
ghost use Rattle.sqlite.specs.declared.types.Value.TheVariants.{Int, Text as StoredText};
ghost use Rattle.tables.specs.Calls.{Honestly};
ghost use Rattle.statements.specs.Calls.{InEachWorld, Spares};
ghost use Rattle.statements.specs.Extract.{IsVersionShown};
ghost use Rattle.statements.specs.Rows.{Filling, GoesOn, PutsVersion};
ghost use Rattle.slices.specs.Slices.{IsVersionIn};

use sqlite::types::ValueRef;
use sqlite::{Alter, Connection, Error, Row, Transaction, params};
use statements::query::find_row;
use text::Text;
use world::entry::Place;

/// A row of `version`, with its number and its place.
#[derive(Drop)]
pub(crate) struct Version {
    pub(crate) id: i64,
    pub(crate) place: Place,
    pub(crate) row: Row,
}

fn read_version(row: Row) -> Result<Version, Error>
    ensures { IfOk result (λ v. (v.row ≡ row) × (column row 0 ≡ Int v.id) × (column row 1 ≡ StoredText v.place.shelf)
        × (column row 2 ≡ StoredText v.place.path) × (column row 3 ≡ StoredText v.place.version)) }
{
    let id: i64 = row.get(0)?;
    let shelf: String = row.get(1)?;
    let path: String = row.get(2)?;
    let version: String = row.get(3)?;
    Ok(Version {
        id,
        place: Place {
            shelf: Text::new(shelf),
            path: Text::new(path),
            version: Text::new(version),
        },
        row,
    })
}

/// Returns the row of `version` with the lowest number from this one on, or None if there is none. The table is in the
/// order of its numbers, so the database reads one row and sorts nothing.
pub(crate) fn find_version<S: Alter>(
    conn: &mut Connection<S>,
    from: i64,
) -> Result<Option<Version>, Error>
    ensures spares { Spares (state S.Store conn.old) (state S.Store conn.new) }
    ensures same { InEachWorld (state S.Store conn.old) (state S.Store conn.new) (λ old new _.
        OnOk result (new.now ≡ old.now)) }
    ensures answer { InEachWorld (state S.Store conn.old) (state S.Store conn.new) (λ old new w.
        IfOk result (λ found. IsTrue new.is_open × IfSome found (IsVersionIn old.now.trees w))) }
{
    match find_row(
        conn,
        "SELECT id, shelf, path, version, time, mod, order_key, rank_key FROM version WHERE id >= ?1 ORDER BY id",
        params![from],
    )? {
        Some(row) => Ok(Some(read_version(row)?)),
        None => Ok(None),
    }
}

/// Writes the row of a version unchanged, with its number and order keys.
pub(crate) fn put_version<F: Alter>(
    tx: &mut Transaction<'_, F>,
    version: &Version,
) -> Result<(), Error>
    ensures same_reference { tx.new.conn.ghost_name ≡ tx.old.conn.ghost_name }
    ensures goes_on { GoesOn (state F.Store tx.old.conn.now) (state F.Store tx.new.conn.now) (is_ok result) }
    ensures puts { Honestly (state F.Store tx.old.conn.now) (state F.Store tx.new.conn.now) (λ old new.
        IsVersionShown version.now.row → Filling old
        → OnOk result (PutsVersion version.now.row old.now.trees new.now.trees × Filling new)) }
{
    let row = &version.row;
    let id: i64 = row.get(0)?;
    let values = [
        ValueRef::Int(id),
        row.get_ref(1)?,
        row.get_ref(2)?,
        row.get_ref(3)?,
        row.get_ref(4)?,
        row.get_ref(5)?,
        row.get_ref(6)?,
        row.get_ref(7)?,
    ];
    tx.execute(
        "INSERT INTO version (id, shelf, path, version, time, mod, order_key, rank_key) \
            VALUES (?1, ?2, ?3, ?4, ?5, ?6, ?7, ?8)",
        &values,
    )?;
    Ok(())
}
