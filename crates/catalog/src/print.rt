//! A catalog that is printed without turns.
ghost use Rattle.std.specs.Prelude.{◌≡◌, [], true, IfOk};
ghost use Rattle.catalog.specs.Printing as spec;

use crate::between::CatalogEnd;
use crate::turns::NoTurns;
use crate::walk::print_lines;
use histories::Tell;
use keyring::Keyring;
use outline::outlines::Outlines;
use std::alloc::Global;

/// Why not all of a catalog was printed.
#[derive(Clone, Copy, Debug, Drop, PartialEq, Eq)]
pub enum PrintError {
    /// A device failed.
    Device,
    /// Memory ran out.
    Memory,
    /// The output failed.
    Output,
}

/// Prints the catalog of a key, and returns true: exactly one line for each version that its shelf sees, the paths by
/// their bytes, the versions of each by precedence. (SemVer 2.0.0, section 11.) Returns false if there is no such key.
/// `Device` or `Memory` if the store meets a fault or memory runs out: then a beginning of the lines is printed, and
/// not all of them, unless there are none. `Output` if the output fails: then a beginning is printed, or all of them.
/// It takes the memory of the list of paths, of what one path says and of a line.
pub fn print_catalog<S: Outlines + Keyring, O: Tell>(
    alloc: Global,
    shelves: &mut S,
    key: &str,
    output: &mut O,
) -> Result<bool, PrintError>
    ensures prints { spec.PrintsCatalog (S.shown shelves.old) (S.shown shelves.new) key.now
        (O.contents output.old) (O.contents output.new) result }
    ensures fails { spec.FailsBy (O.writes output.old) (O.writes output.new) result }
    // What was printed is flushed.
    ensures flushed { IfOk result (λ is. is ≡ true → (O.writes output.new).unflushed ≡ []) }
{
    match print_lines(alloc, shelves, key, output, &mut NoTurns) {
        Ok(has_key) => Ok(has_key),
        Err(CatalogEnd::PrintError(why)) => Err(why),
        Err(CatalogEnd::Ended) => unreachable!(),
    }
}
