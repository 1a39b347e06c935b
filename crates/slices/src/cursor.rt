//! Where the walk over the versions of a store is.
ghost use Rattle.std.specs.Prelude.{◌≡◌, ◌↔◌, IsTrue, None, Some, pos, negsuc};

use world::entry::Place;

/// A version of which some pieces are still to be copied.
#[derive(Drop)]
pub struct Part {
    pub place: Place,
    /// The number of the piece that comes next.
    pub next: u32,
}

/// Where the walk over the versions of a store is.
#[derive(Drop)]
pub struct Cursor {
    /// The number from which the walk goes on, or None after the last that a row can have. If a part of a version was
    /// copied, it is the number of that version.
    pub from: Option<i64>,
    /// How many entries are left, the one with a part included.
    pub left: u64,
    /// The version of which a part was copied, if there is one.
    pub part: Option<Part>,
}

impl Cursor {
    /// Returns where a walk begins that is to copy this many entries: before the least number that a row can have.
    pub fn new(entries: u64) -> Cursor
        ensures from { result.from ≡ Some (negsuc 9223372036854775807) }
        ensures left { result.left ≡ entries }
        ensures part { result.part ≡ None }
    {
        Cursor {
            from: Some(i64::MIN),
            left: entries,
            part: None,
        }
    }

    /// Whether all entries were copied.
    pub fn is_done(&self) -> bool
        ensures { IsTrue result ↔ (self.now.left ≡ 0) × (self.now.part ≡ None) }
    {
        self.left == 0 && self.part.is_none()
    }
}
