//! `inventory`: what a shelf sees, as CSV. (RFC 4180.)
ghost use Rattle.std.specs.Prelude.{◌≡◌, [], ◌∷◌, Some, IfOk, OnOk};
ghost use Rattle.std.specs.FinMap as map;
ghost use Rattle.world.specs.Store.{Reads};
ghost use Rattle.commands.specs.Inventory as spec;
ghost use Rattle.commands.specs.Lines.{IsBetweenLines, text_in};
ghost use Rattle.keyring.specs.Reading.{Adds};
ghost use Rattle.commands.specs.Rows.{IsWhole};

use crate::inventory_text::{headed, text_of, write_row};
use csv::Writer;
use modpath::ModulePath;
use modver::{TimeText, Version};
use outline::outlines::{Outline, Outlines};
use std::alloc::{AllocError, Global};
use text::Text;
use world::bytes::Bytes;
use world::forms::path_of;
use world::registry::StoreFault;

/// A version that a shelf sees, with the shelf that has it.
#[derive(Drop)]
pub struct InventoryRow {
    pub path: Text,
    pub version: Version,
    pub shelf: Text,
    pub time: Option<TimeText>,
    /// How many bytes its go.mod has.
    pub gomod_bytes: usize,
    /// How many bytes its zip has.
    pub zip_bytes: usize,
}

/// Why there is no inventory. The store is unchanged.
#[derive(Clone, Copy, Debug, Drop, PartialEq, Eq)]
pub enum InventoryFault {
    /// There is no such key.
    NoKey,
    /// A device failed.
    Device,
    /// Memory ran out.
    Memory,
}

/// Returns the inventory of a key: CSV with exactly one row for each version that its shelf sees, the paths by their
/// bytes, the versions of each by precedence, pseudo-versions among the others. (RFC 4180; SemVer 2.0.0, section 11.)
///
/// Fails with `NoKey` if there is no such key, `Device` if a disk failed, and `Memory` if memory ran out.
pub fn inventory<S: Outlines>(
    alloc: Global,
    shelves: &mut S,
    key: &str,
) -> Result<Bytes, InventoryFault>
    ensures told { spec.Inventories (S.shown shelves.old) (S.shown shelves.new) key.now result }
    ensures whole { IfOk result (λ text. IsWhole (S.shown shelves.old) (S.shown shelves.new) key.now text) }
{
    match inventory_of(alloc, shelves, key) {
        Ok(Some(text)) => Ok(text),
        Ok(None) => Err(InventoryFault::NoKey),
        Err(StoreFault::Device) => Err(InventoryFault::Device),
        Err(StoreFault::Memory) => Err(InventoryFault::Memory),
    }
}

/// Returns the inventory of a key, or None if there is no such key. Fails if the store meets a fault.
fn inventory_of<S: Outlines>(
    alloc: Global,
    shelves: &mut S,
    key: &str,
) -> Result<Option<Bytes>, StoreFault>
    ensures { Reads (S.shown shelves.old) (S.shown shelves.new) result
        (λ w. spec.inventory_of w (map.get w.keys key.now)) }
{
    let Some(holder) = shelves.key(key)? else {
        return Ok(None);
    };
    Ok(Some(inventory_on(alloc, shelves, holder.shelf.as_str())?))
}

/// Returns the inventory of a shelf, in one walk over the paths. Only the text and the list of paths are held in
/// memory. Fails if the store meets a fault or memory runs out, as do the functions below.
fn inventory_on<S: Outlines>(
    alloc: Global,
    shelves: &mut S,
    shelf: &str,
) -> Result<Bytes, StoreFault>
    ensures { Reads (S.shown shelves.old) (S.shown shelves.new) result (λ w. spec.inventory_of_shelf w shelf.now) }
{
    let mut lines = headed(alloc)?;
    add_paths(alloc, shelves, shelf, &mut lines)?;
    Ok(text_of(lines)?)
}

/// Adds the lines of all versions that a shelf sees: the paths by their bytes, the versions of each by precedence.
fn add_paths<S: Outlines>(
    alloc: Global,
    shelves: &mut S,
    shelf: &str,
    lines: &mut Writer<Vec<u8>>,
) -> Result<(), StoreFault>
    requires { IsBetweenLines lines.old }
    ensures { Adds (S.shown shelves.old) (S.shown shelves.new) (text_in lines.old) (text_in lines.new) result
        (λ w. spec.lines_of (spec.rows_seen w shelf.now)) }
{
    let paths = shelves.paths(shelf)?;
    for text in paths.iter() {
        add_text(alloc, shelves, shelf, text.as_str(), lines)?;
    }
    Ok(())
}

/// Adds the lines of the path that a text is, or none if it is no path.
fn add_text<S: Outlines>(
    alloc: Global,
    shelves: &mut S,
    shelf: &str,
    text: &str,
    lines: &mut Writer<Vec<u8>>,
) -> Result<(), StoreFault>
    requires between { IsBetweenLines lines.old }
    ensures between { OnOk result (IsBetweenLines lines.new) }
    ensures adds { Adds (S.shown shelves.old) (S.shown shelves.new) (text_in lines.old) (text_in lines.new) result
        (λ w. spec.lines_of (spec.rows_of_text w shelf.now text.now)) }
{
    let Some(path) = path_of(alloc, text)? else {
        return Ok(());
    };
    add_path(alloc, shelves, shelf, &path, lines)
}

/// Adds the lines of a path, its versions by precedence.
fn add_path<S: Outlines>(
    alloc: Global,
    shelves: &mut S,
    shelf: &str,
    path: &ModulePath,
    lines: &mut Writer<Vec<u8>>,
) -> Result<(), StoreFault>
    requires between { IsBetweenLines lines.old }
    ensures between { OnOk result (IsBetweenLines lines.new) }
    ensures adds { Adds (S.shown shelves.old) (S.shown shelves.new) (text_in lines.old) (text_in lines.new) result
        (λ w. spec.lines_of (spec.rows_of_path w shelf.now path.now)) }
{
    let versions = shelves.versions(shelf, path)?;
    for version in versions.as_slice() {
        add_version(alloc, shelves, shelf, path, version, lines)?;
    }
    Ok(())
}

/// Adds the line of a version, if the shelf sees it.
fn add_version<S: Outlines>(
    alloc: Global,
    shelves: &mut S,
    shelf: &str,
    path: &ModulePath,
    version: &Version,
    lines: &mut Writer<Vec<u8>>,
) -> Result<(), StoreFault>
    requires between { IsBetweenLines lines.old }
    ensures between { OnOk result (IsBetweenLines lines.new) }
    ensures adds { Adds (S.shown shelves.old) (S.shown shelves.new) (text_in lines.old) (text_in lines.new) result
        (λ w. spec.lines_of (spec.row_at w shelf.now path.now version.now)) }
{
    let Some(outline) = shelves.outline(shelf, path, version)? else {
        return Ok(());
    };
    let row = row_of(alloc, path, version, outline)?;
    Ok(write_row(alloc, lines, &row)?)
}

/// Returns the row of a version with this outline. Fails only if memory runs out.
fn row_of(
    alloc: Global,
    path: &ModulePath,
    version: &Version,
    outline: Outline,
) -> Result<InventoryRow, AllocError>
    ensures { IfOk result (λ row. row ∷ [] ≡ spec.outlined path.now version.now (Some outline)) }
{
    let path = Text::copy_of(alloc, path.as_str())?;
    let version = version.copy(alloc)?;
    Ok(InventoryRow {
        path,
        version,
        shelf: outline.shelf,
        time: outline.time,
        gomod_bytes: outline.gomod_bytes,
        zip_bytes: outline.zip_bytes,
    })
}
