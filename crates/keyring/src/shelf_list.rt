//! The list of shelves: which there are, and whose group each belongs to.
ghost use Rattle.std.specs.Prelude.{◌≡◌, ◌++◌, OnOk};
ghost use Rattle.std.specs.FinMap as map;
ghost use Rattle.world.specs.Store.{Reads};
ghost use Rattle.keyring.specs.Reading.{Adds};
ghost use Rattle.keyring.specs.ShelfList as spec;

use crate::Keyring;
use std::alloc::{AllocError, Global};
use text::Text;
use world::bytes::Bytes;
use world::names::COMMON;
use world::registry::StoreFault;

/// Returns a line for each shelf, in byte order: `common common`, `NAME group` for a group, `NAME team GROUP` for a
/// team of a group, and `NAME team` for one of none. Fails if the store meets a fault or memory runs out.
pub fn list_shelves<S: Keyring>(alloc: Global, shelves: &mut S) -> Result<Bytes, StoreFault>
    ensures { Reads (S.shown shelves.old) (S.shown shelves.new) result spec.shelf_text }
{
    let mut text = Vec::new(alloc);
    add_shelves(alloc, shelves, &mut text)?;
    Ok(Bytes::new(text))
}

/// Adds the lines of all shelves, in byte order.
fn add_shelves<S: Keyring>(
    alloc: Global,
    shelves: &mut S,
    text: &mut Vec<u8>,
) -> Result<(), StoreFault>
    ensures { Adds (S.shown shelves.old) (S.shown shelves.new) text.old.items text.new.items result spec.shelf_text }
{
    let names = shelves.shelves()?;
    for name in names.iter() {
        add_shelf(alloc, shelves, name.as_str(), text)?;
    }
    Ok(())
}

/// Adds the line of a shelf, if there is such a shelf.
fn add_shelf<S: Keyring>(
    alloc: Global,
    shelves: &mut S,
    name: &str,
    text: &mut Vec<u8>,
) -> Result<(), StoreFault>
    ensures { Adds (S.shown shelves.old) (S.shown shelves.new) text.old.items text.new.items result
        (λ w. spec.line_in name.now (map.get w.shelves name.now)) }
{
    let Some(parent) = shelves.parent(alloc, name)? else {
        return Ok(());
    };
    Ok(write_line(name, &parent, text)?)
}

/// Adds the line of a shelf with this parent. Fails only if memory runs out.
fn write_line(name: &str, parent: &Option<Text>, text: &mut Vec<u8>) -> Result<(), AllocError>
    ensures { OnOk result (text.new.items ≡ text.old.items ++ spec.shelf_line name.now parent.now) }
{
    text.extend_from_slice(name.as_bytes())?;
    text.push(b' ')?;
    write_kind(name, parent, text)?;
    text.push(b'\n')?;
    Ok(())
}

/// Adds what kind of shelf it is, by its name and its parent. Fails only if memory runs out.
fn write_kind(name: &str, parent: &Option<Text>, text: &mut Vec<u8>) -> Result<(), AllocError>
    ensures { OnOk result (text.new.items ≡ text.old.items ++ spec.kind name.now parent.now) }
{
    let Some(parent) = parent else {
        return text.extend_from_slice(if name == COMMON { b"common" } else { b"group" });
    };
    text.extend_from_slice(b"team")?;
    if parent.as_str() == COMMON {
        return Ok(());
    }
    text.push(b' ')?;
    text.extend_from_slice(parent.as_str().as_bytes())
}
