//! Laws of a store, which follow from the definitions alone.

ghost use Rattle.sqlite.specs.Held.{state};
ghost use Rattle.store.specs.Restart.{IsThereAfterRestart};

use sqlite::Alter;

/// Restates `leaves`, of which the clauses of `Shelves` speak, in the words of `SqlShelves::open_from`, and adds no
/// other fact: if a crash leaves only one world, as it does once a change has returned Ok, then files that hold a
/// database that the crash may leave hold that world, so a store opened over them begins at it.
pub fn restart<S: Alter>()
    ensures { (conn : _) → IsThereAfterRestart (state S.Store conn) }
{}
