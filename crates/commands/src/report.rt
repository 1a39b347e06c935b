//! Printing what a command reads from a store.
ghost use Rattle.std.specs.Prelude.{◌≡◌, [], IfErr, OnOk, Ok};
ghost use Rattle.commands.specs.Printed.{FailsByOutput, HasCause, HasFailed};
ghost use Rattle.commands.specs.Report as spec;

use crate::inventory::{InventoryFault, inventory};
use crate::printing::print_one;
use crate::refusal::CommandRefusal;
use crate::requirements::requirements;
use catalog::PrintError;
use control::read_list;
use histories::Tell;
use keyring::Keyring;
use orders::Listing;
use outline::outlines::Outlines;
use std::alloc::Global;
use world::bytes::Bytes;
use world::registry::StoreFault;
use world::shelves::Shelves;

/// Prints the inventory of a key, and returns true. `NoKey` if there is no such key, `Device` or `Memory` if the store
/// meets a fault: then nothing is printed. `Io` if the output fails: then a beginning of the inventory is printed, or
/// all of it.
pub fn print_inventory<S: Outlines, O: Tell>(
    alloc: Global,
    shelves: &mut S,
    key: &str,
    output: &mut O,
) -> Result<bool, CommandRefusal>
    ensures prints { spec.PrintsInventory (S.shown shelves.old) (S.shown shelves.new) key.now
        (O.contents output.old) (O.contents output.new) result }
    // It ends with `Io` only if a call of the output failed.
    ensures cause { FailsByOutput (O.writes output.old) (O.writes output.new) result }
    // What was printed is flushed.
    ensures flushed { OnOk result ((O.writes output.new).unflushed ≡ []) }
{
    let told = inventory(alloc, shelves, key);
    print(inventory_ending(told), output)
}

/// Prints the catalog of a key, path by path, and returns true. `NoKey` if there is no such key: then nothing is
/// printed. `Device` or `Memory` if the store meets a fault: then a beginning of the lines is printed, and not all of
/// them, unless there are none. `Io` if the output fails: then a beginning is printed, or all of them.
pub fn print_catalog<S: Outlines + Keyring, O: Tell>(
    alloc: Global,
    shelves: &mut S,
    key: &str,
    output: &mut O,
) -> Result<bool, CommandRefusal>
    ensures prints { spec.PrintsCatalogOf (S.shown shelves.old) (S.shown shelves.new) key.now
        (O.contents output.old) (O.contents output.new) result }
    // It ends with `Io` only if a call of the output failed.
    ensures cause { FailsByOutput (O.writes output.old) (O.writes output.new) result }
    // What was printed is flushed.
    ensures flushed { OnOk result ((O.writes output.new).unflushed ≡ []) }
{
    match catalog::print_catalog(alloc, shelves, key, output) {
        Ok(true) => Ok(true),
        Ok(false) => Err(CommandRefusal::NoKey),
        Err(PrintError::Device) => Err(CommandRefusal::Device),
        Err(PrintError::Memory) => Err(CommandRefusal::Memory),
        Err(PrintError::Output) => Err(CommandRefusal::Io),
    }
}

/// Prints what the go.mod of a version requires, and returns true. `NotFound` if the path or the version is invalid,
/// there is no such key or its shelf does not see the version, `Device` or `Memory` if the store meets a fault: then
/// nothing is printed. `Io` if the output fails: then a beginning of the lines is printed, or all of them.
pub fn print_requirements<S: Shelves, O: Tell>(
    alloc: Global,
    shelves: &mut S,
    version: &Named,
    output: &mut O,
) -> Result<bool, CommandRefusal>
    ensures prints { spec.PrintsRequirements (S.shown shelves.old) (S.shown shelves.new) version.now
        (O.contents output.old) (O.contents output.new) result }
    // It ends with `Io` only if a call of the output failed.
    ensures cause { FailsByOutput (O.writes output.old) (O.writes output.new) result }
    // What was printed is flushed.
    ensures flushed { OnOk result ((O.writes output.new).unflushed ≡ []) }
{
    let told = requirements(alloc, shelves, version.key, version.path, version.version);
    print(requirements_ending(told), output)
}

/// Prints a list, in byte order, and returns true. `Device` or `Memory` if the store meets a fault: then nothing is
/// printed. `Io` if the output fails: then a beginning of the lines is printed, or all of them.
pub fn print_list<S: Keyring, O: Tell>(
    alloc: Global,
    shelves: &mut S,
    listing: Listing,
    output: &mut O,
) -> Result<bool, CommandRefusal>
    ensures prints { spec.PrintsList (S.shown shelves.old) (S.shown shelves.new) listing
        (O.contents output.old) (O.contents output.new) result }
    // It ends with `Io` only if a call of the output failed.
    ensures cause { FailsByOutput (O.writes output.old) (O.writes output.new) result }
    // What was printed is flushed.
    ensures flushed { OnOk result ((O.writes output.new).unflushed ≡ []) }
{
    let told = read_list(alloc, shelves, listing);
    print(list_ending(told), output)
}

/// A version, in the words of a command line.
#[derive(Clone, Copy, Drop)]
pub struct Named<'a> {
    pub key: &'a str,
    pub path: &'a str,
    pub version: &'a str,
}

/// Returns the inventory, or the refusal if there is none.
fn inventory_ending(told: Result<Bytes, InventoryFault>) -> Result<Bytes, CommandRefusal>
    ensures { result ≡ spec.inventory_ending told }
{
    match told {
        Ok(text) => Ok(text),
        Err(InventoryFault::NoKey) => Err(CommandRefusal::NoKey),
        Err(InventoryFault::Device) => Err(CommandRefusal::Device),
        Err(InventoryFault::Memory) => Err(CommandRefusal::Memory),
    }
}

/// Returns the lines of what a version requires, or the refusal if there are none.
fn requirements_ending(told: Result<Option<Bytes>, StoreFault>) -> Result<Bytes, CommandRefusal>
    ensures { result ≡ spec.requirements_ending told }
{
    match told {
        Ok(Some(lines)) => Ok(lines),
        Ok(None) => Err(CommandRefusal::NotFound),
        Err(StoreFault::Device) => Err(CommandRefusal::Device),
        Err(StoreFault::Memory) => Err(CommandRefusal::Memory),
    }
}

/// Returns a list, or the refusal if there is none.
fn list_ending(told: Result<Bytes, StoreFault>) -> Result<Bytes, CommandRefusal>
    ensures { result ≡ spec.list_ending told }
{
    match told {
        Ok(text) => Ok(text),
        Err(StoreFault::Device) => Err(CommandRefusal::Device),
        Err(StoreFault::Memory) => Err(CommandRefusal::Memory),
    }
}

/// Prints a text and returns true, or fails with the refusal if there is none. `Io` if the output fails.
pub(crate) fn print<O: Tell>(
    told: Result<Bytes, CommandRefusal>,
    output: &mut O,
) -> Result<bool, CommandRefusal>
    ensures prints { spec.Prints (O.contents output.old) (O.contents output.new) result told }
    ensures cause { HasCause (O.writes output.old) (O.writes output.new) result told }
    ensures flushed { OnOk result ((O.writes output.new).unflushed ≡ []) }
{
    let text = match told {
        Ok(text) => text,
        Err(refusal) => return Err(refusal),
    };
    print_text(text.as_slice(), output)
}

/// Prints a text and returns true. `Io` if the output fails: then a beginning of the text is printed, or all of it.
pub(crate) fn print_text<O: Tell>(text: &[u8], output: &mut O) -> Result<bool, CommandRefusal>
    ensures prints { spec.Prints (O.contents output.old) (O.contents output.new) result (Ok text.now) }
    ensures cause { IfErr result (λ _. HasFailed (O.writes output.old) (O.writes output.new)) }
    ensures flushed { OnOk result ((O.writes output.new).unflushed ≡ []) }
{
    match print_one(text, output) {
        Ok(()) => Ok(true),
        Err(_) => Err(CommandRefusal::Io),
    }
}
