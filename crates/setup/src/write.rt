//! Writes some shelves of a store into a fresh one, in one transaction.

ghost use Rattle.std.specs.Prelude.{◌≡◌, ◌≤◌, ◌∷◌, is_ok};
ghost use Rattle.sqlite.specs.Held.{state};
ghost use Rattle.sqlite.specs.State.{HasCleanDisk};
ghost use Rattle.sqlite_trees.specs.View.{doubt};
ghost use Rattle.world.specs.World.{IsWorld, common, only_common};
ghost use Rattle.tables.specs.Means.{Stands};
ghost use Rattle.statements.specs.Calls.{IsOpenIfHonest, Spares, ChangesAt};
ghost use Rattle.statements.specs.Extract.{IsReady, Copies, PutsShelf, Along};
ghost use Rattle.statements.specs.Shelves.{names_of, AreShelves};
ghost use Rattle.setup.specs.Parts.{part_of, Puts, PutsRegistry, PutsShelves, CopiesRows, MakesPart, MakesRegistry};

use sqlite::{Alter, Connection, Error, ErrorCode, Transaction};
use statements::extract_rows::{CopyError, copy_keys, copy_pieces, copy_versions};
use statements::meter::{Meter, Unmetered};
use statements::rows::put_shelf;
use statements::shelf_list::{Shelf, ShelfList};
use statements::transaction::commit_if;
use world::names::COMMON;

/// A kind of rows that a shelf has.
#[derive(Clone, Copy, Drop)]
enum Rows {
    /// Its keys.
    Keys,
    /// The versions of its entries.
    Versions,
    /// The pieces of their zips.
    Pieces,
}

/// Writes the row of a shelf of a list.
fn put_listed<F: Alter>(tx: &mut Transaction<'_, F>, shelf: &Shelf) -> Result<(), Error>
    ensures same_reference { tx.new.conn.ghost_name ≡ tx.old.conn.ghost_name }
    ensures puts { Puts (PutsShelf shelf.now.name shelf.now.parent)
        (state F.Store tx.old.conn.now) (state F.Store tx.new.conn.now) (is_ok result) }
{
    match &shelf.parent {
        None => put_shelf(tx, shelf.name.as_str(), None),
        Some(parent) => put_shelf(tx, shelf.name.as_str(), Some(parent.as_str())),
    }
}

/// Writes the rows of shelves that do not exist, one after another.
fn put_shelves<F: Alter>(tx: &mut Transaction<'_, F>, shelves: &[Shelf]) -> Result<(), Error>
    ensures same_reference { tx.new.conn.ghost_name ≡ tx.old.conn.ghost_name }
    ensures puts { Puts (PutsShelves shelves.now) (state F.Store tx.old.conn.now)
        (state F.Store tx.new.conn.now) (is_ok result) }
{
    for shelf in shelves {
        put_listed(tx, shelf)?;
    }
    Ok(())
}

/// Copies the rows of one kind of a shelf, and has a meter hear of those of versions and zips.
fn copy_rows<S: Alter, F: Alter, M: Meter>(
    source: &mut Connection<S>,
    rows: Rows,
    shelf: &str,
    tx: &mut Transaction<'_, F>,
    meter: &M,
) -> Result<(), CopyError>
    ensures same_reference { tx.new.conn.ghost_name ≡ tx.old.conn.ghost_name }
    ensures copies { Copies (CopiesRows rows shelf.now) (state S.Store source.old) (state S.Store source.new)
        (state F.Store tx.old.conn.now) (state F.Store tx.new.conn.now) (is_ok result) }
{
    match rows {
        Rows::Keys => copy_keys(source, tx, shelf),
        Rows::Versions => copy_versions(source, tx, shelf, meter),
        Rows::Pieces => copy_pieces(source, tx, shelf, meter),
    }
}

/// Copies the rows of one kind of `common`, and then of each of these shelves in turn.
fn copy_along<S: Alter, F: Alter, M: Meter>(
    source: &mut Connection<S>,
    rows: Rows,
    shelves: &[Shelf],
    tx: &mut Transaction<'_, F>,
    meter: &M,
) -> Result<(), CopyError>
    ensures same_reference { tx.new.conn.ghost_name ≡ tx.old.conn.ghost_name }
    ensures copies { Copies (Along (CopiesRows rows) (common ∷ names_of shelves.now))
        (state S.Store source.old) (state S.Store source.new)
        (state F.Store tx.old.conn.now) (state F.Store tx.new.conn.now) (is_ok result) }
{
    copy_rows(source, rows, COMMON, tx, meter)?;
    for shelf in shelves {
        copy_rows(source, rows, shelf.name.as_str(), tx, meter)?;
    }
    Ok(())
}

/// Writes the rows of these shelves, each after its parent, into a store that has only `common`, and copies the keys of
/// `common` and of these shelves.
pub(crate) fn write_registry<S: Alter, F: Alter>(
    source: &mut Connection<S>,
    shelves: &ShelfList,
    tx: &mut Transaction<'_, F>,
) -> Result<(), CopyError>
    ensures same_reference { tx.new.conn.ghost_name ≡ tx.old.conn.ghost_name }
    ensures rows { Copies (PutsRegistry shelves.now)
        (state S.Store source.old) (state S.Store source.new)
        (state F.Store tx.old.conn.now) (state F.Store tx.new.conn.now) (is_ok result) }
    ensures fills { Copies (MakesRegistry shelves.now)
        (state S.Store source.old) (state S.Store source.new)
        (state F.Store tx.old.conn.now) (state F.Store tx.new.conn.now) (is_ok result) }
{
    let shelves = shelves.as_slice();
    match put_shelves(tx, shelves) {
        Ok(()) => {}
        Err(error) => return Err(CopyError::Fresh(error)),
    }
    copy_along(source, Rows::Keys, shelves, tx, &Unmetered)
}

/// Fills a store that has only `common`: writes the rows of these shelves, each after its parent, and copies the keys,
/// the versions and the zips of `common` and of these shelves.
fn fill<S: Alter, F: Alter, M: Meter>(
    source: &mut Connection<S>,
    shelves: &ShelfList,
    tx: &mut Transaction<'_, F>,
    meter: &M,
) -> Result<(), CopyError>
    ensures same_reference { tx.new.conn.ghost_name ≡ tx.old.conn.ghost_name }
    ensures fills { Copies (MakesPart shelves.now)
        (state S.Store source.old) (state S.Store source.new)
        (state F.Store tx.old.conn.now) (state F.Store tx.new.conn.now) (is_ok result) }
{
    write_registry(source, shelves, tx)?;
    let shelves = shelves.as_slice();
    copy_along(source, Rows::Versions, shelves, tx, meter)?;
    copy_along(source, Rows::Pieces, shelves, tx, meter)
}

/// Writes these shelves and `common` into a store that has only `common`, all or nothing, and has a meter hear of the
/// rows of versions and zips. Fails with `Source` or `Fresh`, by the store that failed.
pub(crate) fn write_part<S: Alter, F: Alter, M: Meter>(
    source: &mut Connection<S>,
    shelves: &ShelfList,
    fresh: &mut Connection<F>,
    meter: &M,
) -> Result<(), CopyError>
    ensures clean { doubt (state S.Store source.old).is_clean ≤ doubt (state S.Store source.new).is_clean }
    ensures clean_too { doubt (state F.Store fresh.old).is_clean ≤ doubt (state F.Store fresh.new).is_clean }
    ensures reads { IsReady (state S.Store source.old) → Spares (state S.Store source.old) (state S.Store source.new) }
    ensures changes { IsReady (state S.Store source.old)
        → IsOpenIfHonest (state F.Store fresh.old) → HasCleanDisk (state S.Store source.new)
        → (w : _) → Stands (state S.Store source.old) w → IsWorld w → AreShelves w shelves.now
        → ChangesAt (state F.Store fresh.old) (state F.Store fresh.new)
        (is_ok result) only_common (part_of w (common ∷ names_of shelves.now)) }
{
    if !fresh.is_autocommit() {
        return Err(CopyError::Fresh(Error::SqliteFailure(ErrorCode::TransactionState)));
    }
    let mut tx = fresh.transaction();
    let written = fill(source, shelves, &mut tx, meter);
    match commit_if(tx, written.is_ok()) {
        Ok(()) => written,
        Err(error) => Err(CopyError::Fresh(error)),
    }
}
