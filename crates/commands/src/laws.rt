//! What holds of every inventory, of every import, and of every order that is sent.
ghost use Rattle.control.specs.Health.{IsPinged};
ghost use Rattle.control.specs.Hearing.{UsesRoomIf};
ghost use Rattle.control.specs.declared.tally.Tally.{Tally};
ghost use Rattle.commands.specs.Controlled.{EndsAsOnTheStore, RevokesAsOnTheStore};
ghost use Rattle.commands.specs.Rows.{RowsAreWhole};
ghost use Rattle.commands.specs.Repetition.{RepeatedImportChangesNothing};

use control::CopyOrders;
use world::shelves::Shelves;

/// A list that was imported whole changes nothing when it is imported again, with the same files and by a key that may
/// then publish to the same shelf: each row is answered `200 already published`, or 503.
pub fn repetition()
    ensures { RepeatedImportChangesNothing }
{}

/// Each path and version that a shelf sees in a world has exactly one row in an inventory, with what the shelf sees of
/// it, and each row is of a version that the shelf sees.
pub fn rows_are_whole()
    ensures { RowsAreWhole }
{}

/// A command with `--control`, whose line a `serve` carried out and whose outcome came, ends as the same command does
/// on the store of a file: by the machine's reply to its order in the world that the store stood for, and the store
/// stands for the world after it; or by a fault of the store, which changes nothing.
pub fn orders_end_as_on_the_store<S: Shelves, K: CopyOrders<S>>()
    ensures { (old new : S) (copies copies_new : K) (tally : Tally) → EndsAsOnTheStore (K.made old new)
        (IsPinged tally (S.shown old).failures (S.shown new).failures (K.counted old new))
        (λ heard. K.rests copies copies_new × UsesRoomIf (S.shown old) (S.shown new) (K.deeds copies)
        (K.deeds copies_new) heard) (K.meanwhile copies copies_new old new) (S.shown old) (S.shown new) }
{}

/// `key-revoke --fingerprint` with `--control`, whose line a `serve` carried out and whose outcome came, ends as it
/// does on the store of a file: the key that has the fingerprint, or the SHA-256, in the world that the store stood for
/// is revoked, or it ends with `no-key` if no key has it or several have; or by a fault of the store, which changes
/// nothing.
pub fn revocations_end_as_on_the_store<S: Shelves, K: CopyOrders<S>>()
    ensures { (old new : S) (copies copies_new : K) (tally : Tally) → RevokesAsOnTheStore (K.made old new)
        (IsPinged tally (S.shown old).failures (S.shown new).failures (K.counted old new))
        (λ heard. K.rests copies copies_new × UsesRoomIf (S.shown old) (S.shown new) (K.deeds copies)
        (K.deeds copies_new) heard) (K.meanwhile copies copies_new old new) (S.shown old) (S.shown new) }
{}
