//! A catalog that is printed a line at a time, while others have turns with the store.
ghost use Rattle.std.specs.Prelude.{◌≡◌, [], true, IfOk, IsErrOf};
ghost use Rattle.catalog.specs.Meanwhile as spec;

use crate::print::PrintError;
use crate::turns::TurnsBetween;
use crate::walk::print_lines;
use histories::ResetDeadline;
use interleave::between::Between;
use interleave::definite::Definite;
use keyring::Keyring;
use outline::outlines::Outlines;
use std::alloc::Global;

/// Why not all of a catalog was printed.
#[derive(Clone, Copy, Debug, Drop, PartialEq, Eq)]
pub enum CatalogEnd {
    /// It failed as one without turns.
    PrintError(PrintError),
    /// A turn ended it.
    Ended,
}

/// Prints the catalog of a key as the store is at the call, and returns true: exactly one line for each version that
/// the shelf of the key sees then, as `print_catalog` does. After each line `between` takes a turn, and the time of the
/// output begins anew. What a turn publishes, adds or takes away changes no line. Returns false if there is no such
/// key. If it fails or is ended, a beginning of the lines is printed.
pub fn print_between<S: Outlines + Keyring + Definite, O: ResetDeadline, B: Between<S>>(
    alloc: Global,
    shelves: &mut S,
    key: &str,
    output: &mut O,
    between: &mut B,
) -> Result<bool, CatalogEnd>
    // The catalog is of the world that the store stood for at first.
    ensures prints { spec.PrintsCatalogOn (S.shown shelves.old) (S.shown shelves.new) key.now
        (O.contents output.old) (O.contents output.new) result }
    // The store was read and had turns.
    ensures went { B.went between.old between.new shelves.old shelves.new }
    ensures ended { IsErrOf result CatalogEnd.Ended → B.ended between.new }
    ensures fails { spec.FailsOn (O.writes output.old) (O.writes output.new) result }
    // What was printed is flushed.
    ensures flushed { IfOk result (λ is. is ≡ true → (O.writes output.new).unflushed ≡ []) }
{
    let mut turns = TurnsBetween { between };
    print_lines(alloc, shelves, key, output, &mut turns)
}
