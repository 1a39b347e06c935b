//! How an entry that is handed in compares with what is there already.
ghost use Rattle.std.specs.Prelude.{◌≡◌, Some};
ghost use Rattle.world.specs.Standing as spec;

use crate::entry::EntryRef;
use modver::TimeText;

/// How an entry that is handed in compares with what a shelf sees of its version.
#[derive(Clone, Copy, Debug, PartialEq, Eq)]
pub enum Standing {
    /// The shelf sees no entry.
    Absent,
    /// The shelf sees an entry with the same go.mod, the same zip and the same time.
    Same,
    /// The shelf sees an entry that differs in at least one of these.
    Other,
}

/// Returns `Same` if the two entries have the same files and the same time, otherwise `Other`. Allocates nothing.
pub fn standing_to(there: &EntryRef, entry: &EntryRef) -> Standing
    ensures { result ≡ spec.standing_to (Some there.now) entry.now }
{
    if is_same(there, entry) {
        Standing::Same
    } else {
        Standing::Other
    }
}

fn is_same(left: &EntryRef, right: &EntryRef) -> bool
    ensures { result ≡ spec.same_entry left.now right.now }
{
    left.gomod == right.gomod && left.zip == right.zip && is_same_time(left.time, right.time)
}

/// Whether both are None or the same text. Allocates nothing.
pub fn is_same_time(left: Option<TimeText>, right: Option<TimeText>) -> bool
    ensures { result ≡ spec.same_time left right }
{
    match (left, right) {
        (None, None) => true,
        (Some(left), Some(right)) => left.as_str() == right.as_str(),
        _ => false,
    }
}
