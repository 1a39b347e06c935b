//! What notices show, and what the callers of one run learn about each other.
ghost use Rattle.control.specs.Isolated.{TasksAreAnsweredAlike};
ghost use Rattle.control.specs.Notices.{NoneIsRefusal, ShowsNoneAfterFault, ShowsOnlyShelves};

use world::shelves::Shelves;

/// What `serve` writes on standard error while it serves has no line that begins with `goshelf:`, as a refusal's does.
pub fn no_notice_is_a_refusal()
    ensures { NoneIsRefusal }
{}

/// The notice of an order shows of its names only those of shelves that are in the world after it, and of its key only
/// the fingerprint: other names that no shelf has, and another key with that fingerprint, make the same line. After a
/// fault it shows no name.
pub fn notice_names_only_shelves()
    ensures replied { ShowsOnlyShelves }
    ensures faults { ShowsNoneAfterFault }
{}

/// Isolation also holds between two calls of [`serve_both`](crate::serve_both), over any two stores whose worlds agree
/// on the registry and on what a shelf sees, on honest disks: if the second goes through the tasks of the first without
/// the messages of other teams, it writes the same bytes for each remaining message, and the same line for each
/// registry command. The messages that a call answered 503 and the commands that met a fault are left out of it. The
/// worlds after both agree again.
pub fn isolation_of_tasks<S: Shelves, T: Shelves>()
    ensures { (old new : S) (old_too new_too : T)
        → TasksAreAnsweredAlike (S.shown old) (S.shown new) (T.shown old_too) (T.shown new_too) }
{}
