//! Ends a transaction.

ghost use Rattle.std.specs.Prelude.{◌≡◌, false, IfErr, OnOk, IsTrue};
ghost use Rattle.sqlite.specs.Held.{state};
ghost use Rattle.sqlite.specs.State.{HasCleanDisk, IsRolledBack, Shows, Survives};
ghost use Rattle.sqlite.specs.Steps.{FailsToCommit};

use sqlite::{Alter, Error, Transaction};

/// Commits a transaction if all its rows were written, and rolls it back otherwise. Fails if the commit fails, which
/// also undoes the transaction. A crash meanwhile leaves what it could leave before, or all that was written.
pub fn commit_if<S: Alter>(tx: Transaction<'_, S>, is_whole: bool) -> Result<(), Error>
    ensures committed { HasCleanDisk (state S.Store tx.exit.0.now) → IsTrue is_whole
        → OnOk result (Shows (state S.Store tx.entry.conn.now) (state S.Store tx.exit.0.now)
        (state S.Store tx.entry.conn.now).now (state S.Store tx.entry.conn.now).now false) }
    ensures failed { HasCleanDisk (state S.Store tx.exit.0.now) → IsTrue is_whole
        → IfErr result (FailsToCommit (state S.Store tx.entry.conn.now) (state S.Store tx.exit.0.now)) }
    ensures undone { HasCleanDisk (state S.Store tx.exit.0.now) → is_whole ≡ false
        → IsRolledBack (state S.Store tx.entry.conn.now) (state S.Store tx.exit.0.now) }
    ensures whole_survives { IsTrue is_whole → Survives (state S.Store tx.entry.conn.now) (state S.Store tx.exit.0.now)
        (λ db. db ≡ (state S.Store tx.entry.conn.now).now.trees) }
    ensures unfinished_is_lost { is_whole ≡ false
        → Survives (state S.Store tx.entry.conn.now) (state S.Store tx.exit.0.now) (λ _. ⊥) }
{
    if !is_whole {
        tx.rollback();
        return Ok(());
    }
    tx.commit()
}
