//! Writes rows inside a transaction that others begin and end.

ghost use Rattle.std.specs.Prelude.{◌≡◌, option_copied, IfOk, IfSome, OnOk, is_ok};
ghost use Rattle.sqlite.specs.declared.types.Value.TheVariants.{Text};
ghost use Rattle.sqlite.specs.Held.{state};
ghost use Rattle.sqlite.specs.Values.{or_null};
ghost use Rattle.world.specs.World.{place};
ghost use Rattle.tables.specs.Calls.{Honestly};
ghost use Rattle.tables.specs.Inserted.{Inserted};
ghost use Rattle.tables.specs.Schema.{version_table};
ghost use Rattle.statements.specs.Added.{HasAdded, version_row};
ghost use Rattle.statements.specs.Extract.{PutsShelf};
ghost use Rattle.statements.specs.Rows.{Filling, GoesOn};

use crate::keyed::KeyedVersion;
use crate::pieces::insert_zip;
use modver::TimeText;
use sqlite::{Alter, Error, Transaction, params};
use world::entry::EntryRef;

/// Writes the row of a shelf that does not exist, with its parent.
pub fn put_shelf<F: Alter>(
    tx: &mut Transaction<'_, F>,
    name: &str,
    parent: Option<&str>,
) -> Result<(), Error>
    ensures same_reference { tx.new.conn.ghost_name ≡ tx.old.conn.ghost_name }
    ensures goes_on { GoesOn (state F.Store tx.old.conn.now) (state F.Store tx.new.conn.now) (is_ok result) }
    ensures puts { Honestly (state F.Store tx.old.conn.now) (state F.Store tx.new.conn.now) (λ old new. Filling old
        → OnOk result (PutsShelf name.now (option_copied parent.entry) old.now.trees new.now.trees × Filling new)) }
{
    tx.execute(
        "INSERT INTO shelf (name, parent) VALUES (?1, ?2)",
        params![name, parent],
    )?;
    Ok(())
}

/// Returns the text of a time, or None for None.
fn time_text(time: &Option<TimeText>) -> Option<&str>
    ensures { or_null (λ text. Text text.now) result ≡ or_null Text time.now }
{
    match time {
        Some(time) => Some(time.as_str()),
        None => None,
    }
}

/// Writes the row of a version and returns its number: the given one, or one that sqlite chooses.
fn put_version<'p, S: Alter>(
    tx: &mut Transaction<'_, S>,
    number: Option<i64>,
    shelf: &'p str,
    path: &'p str,
    version: &'p KeyedVersion<'p>,
    entry: &'p EntryRef<'p>,
) -> Result<i64, Error>
    ensures same_reference { tx.new.conn.ghost_name ≡ tx.old.conn.ghost_name }
    ensures goes_on { GoesOn (state S.Store tx.old.conn.now) (state S.Store tx.new.conn.now) (is_ok result) }
    ensures puts { Honestly (state S.Store tx.old.conn.now) (state S.Store tx.new.conn.now) (λ old new.
        Filling old → IfOk result (λ id. IfSome number (λ given. id ≡ given)
        × Inserted old.now.trees new.now.trees version_table
        (version_row id (place shelf.now path.now version.now) entry.now) × Filling new)) }
{
    let time = time_text(&entry.time);
    tx.execute(
        "INSERT INTO version (id, shelf, path, version, time, mod, order_key, rank_key) \
            VALUES (?1, ?2, ?3, ?4, ?5, ?6, ?7, ?8)",
        params![
            number,
            shelf,
            path,
            version.as_str(),
            time,
            entry.gomod,
            version.order(),
            version.rank()
        ],
    )?;
    Ok(tx.last_insert_rowid())
}

/// Writes the rows of an entry: the row of its version, then the rows of its zip. The contracts say which rows were
/// added, not what the tables mean before the commit. The foreign key and the free number show that no row of `piece`
/// had this version before.
pub fn put_entry<'p, S: Alter>(
    tx: &mut Transaction<'_, S>,
    number: Option<i64>,
    shelf: &'p str,
    path: &'p str,
    version: &'p KeyedVersion<'p>,
    entry: &'p EntryRef<'p>,
) -> Result<(), Error>
    ensures same_reference { tx.new.conn.ghost_name ≡ tx.old.conn.ghost_name }
    ensures goes_on { GoesOn (state S.Store tx.old.conn.now) (state S.Store tx.new.conn.now) (is_ok result) }
    ensures added { Honestly (state S.Store tx.old.conn.now) (state S.Store tx.new.conn.now) (λ old new.
        Filling old → OnOk result (HasAdded number old.now.trees new.now.trees
        (place shelf.now path.now version.now) entry.now × Filling new)) }
{
    let id = put_version(tx, number, shelf, path, version, entry)?;
    insert_zip(tx, id, entry.zip)
}
