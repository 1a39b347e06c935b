//! Compares the bytes of a given entry with those in the tables. The stored zip is compared piece by piece and never
//! joined in memory.

ghost use Rattle.std.specs.Prelude.{◌≡◌, map as each, option_map, IfOk};
ghost use Rattle.sqlite.specs.Held.{state};
ghost use Rattle.world.specs.Standing.{standing_to};
ghost use Rattle.world.specs.World.{first_on};
ghost use Rattle.statements.specs.Calls.{InEachWorld, Spares};
ghost use Rattle.statements.specs.Reading.{same_heading};

use crate::entries::row_seen;
use crate::pieces::is_same_zip;
use sqlite::{Alter, Connection, Error};
use world::entry::{EntryRef, Heading};
use world::standing::{Standing, is_same_time};

/// Reports whether an entry has the go.mod and the time of a heading.
fn is_same_heading(heading: &Heading, entry: &EntryRef) -> bool
    ensures { result ≡ same_heading heading.now entry.now }
{
    heading.gomod.as_slice() == entry.gomod && is_same_time(heading.time, entry.time)
}

/// Returns how an entry compares with that of the version on the first of these shelves that has it: `Same` or `Other`,
/// or `Absent` if none has it.
pub fn find_standing<S: Alter>(
    conn: &mut Connection<S>,
    shelves: &[&str],
    path: &str,
    version: &str,
    entry: &EntryRef,
) -> Result<Standing, Error>
    ensures spares { Spares (state S.Store conn.old) (state S.Store conn.new) }
    ensures answer { InEachWorld (state S.Store conn.old) (state S.Store conn.new) (λ _ _ w.
        IfOk result (λ found. found ≡ standing_to (option_map (λ seen. seen.entry)
        (first_on w (each (λ shelf. shelf.now) shelves.now) path.now version.now)) entry.now)) }
{
    let Some(row) = row_seen(conn, shelves, path, version)? else {
        return Ok(Standing::Absent);
    };
    if !is_same_heading(&row.heading, entry) {
        return Ok(Standing::Other);
    }
    if is_same_zip(conn, row.id, entry.zip)? {
        Ok(Standing::Same)
    } else {
        Ok(Standing::Other)
    }
}
