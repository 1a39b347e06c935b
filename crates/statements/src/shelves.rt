//! Lists all shelves in SQL tables.

ghost use Rattle.std.specs.Prelude.{◌≡◌, IfOk, IsTrue};
ghost use Rattle.sqlite.specs.Held.{state};
ghost use Rattle.statements.specs.Calls.{InEachWorld, Spares};
ghost use Rattle.statements.specs.Shelves.{AreAllShelves, ListsRows, ShowsShelf};

use crate::query::find_rows;
use crate::registry::read_parent;
use crate::shelf_list::{Shelf, ShelfList};
use sqlite::{Alter, Connection, Error, Row};
use std::alloc::Global;
use text::Text;

/// Returns the shelf that a row shows, with its name and its parent.
fn read_shelf(row: &Row) -> Result<Shelf, Error>
    ensures { IfOk result (λ shelf. ShowsShelf row.now shelf) }
{
    let parent = read_parent(row)?;
    let name: String = row.get(1)?;
    Ok(Shelf {
        name: Text::new(name),
        parent,
    })
}

/// Returns the shelves that rows show, each once and without `common`.
fn list_rows(alloc: Global, rows: &[Row]) -> Result<ShelfList, Error>
    ensures { IfOk result (λ list. ListsRows rows.now list) }
{
    let mut list = ShelfList::new(alloc)?;
    for row in rows {
        list = list.with(alloc, read_shelf(row)?)?;
    }
    Ok(list)
}

/// Returns all shelves other than `common`, each after its parent.
pub fn find_shelves<S: Alter>(alloc: Global, conn: &mut Connection<S>) -> Result<ShelfList, Error>
    ensures spares { Spares (state S.Store conn.old) (state S.Store conn.new) }
    ensures answer { InEachWorld (state S.Store conn.old) (state S.Store conn.new) (λ _ new w.
        IfOk result (λ list. IsTrue new.is_open × AreAllShelves w list)) }
{
    // NULL sorts before each text, so a shelf without a parent comes before each that has one.
    let rows = find_rows(conn, "SELECT parent, name FROM shelf ORDER BY parent", &[])?;
    list_rows(alloc, rows.as_slice())
}
