//! Notes at which paths a shelf looked for a version in vain.

ghost use Rattle.std.specs.Prelude.{◌<◌};

use crate::recent::hash_of;

/// How many notes there are, of eight bytes each.
const NOTES: usize = 1_024;

/// A note is the hash of a shelf and of a path at which it looked for a version in vain. A new note replaces one at its
/// place. The notes only decide when the store looks up which versions a shelf sees, so no contract speaks of them.
#[derive(Drop)]
pub struct Missed {
    hashes: [u64; NOTES],
}

impl Missed {
    /// Returns no notes.
    pub fn new() -> Missed {
        Missed { hashes: [0; NOTES] }
    }

    /// Notes that a shelf looked for a version of a path in vain.
    pub fn note(&mut self, shelf: &str, path: &str) {
        let hash = hash_of(&[shelf, path]);
        self.hashes[place_of(hash)] = hash;
    }

    /// Removes the note of a shelf and a path, and reports whether there was one.
    pub fn take(&mut self, shelf: &str, path: &str) -> bool {
        let hash = hash_of(&[shelf, path]);
        let place = place_of(hash);
        if self.hashes[place] != hash {
            return false;
        }
        self.hashes[place] = 0;
        true
    }
}

/// Returns the place of the note of a hash.
fn place_of(hash: u64) -> usize
    ensures { result < 1024 }
{
    (hash % NOTES as u64) as usize
}
