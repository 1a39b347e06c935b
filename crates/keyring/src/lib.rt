//! Who has keys: which keys and which shelves a store has, and the lists of both.
//!
//! The trait `world::shelves::Shelves` answers of a key or a shelf that its caller names. The trait [`Keyring`] names
//! them all, so that an operator can see who has keys. No request of a peer calls it.
//!
//! - [`key_list`]: a line for each key, which shows the digest of the key in its place.
//! - [`shelf_list`]: a line for each shelf.
//! - [`revoke`]: takes a key away by its fingerprint or its SHA-256.
//! - [`made`]: makes a key of random bytes.
#![tactic(auto)]

pub mod key_list;
pub mod made;
pub mod revoke;
pub mod shelf_list;

use std::alloc::Global;
use text::Text;
use world::registry::StoreFault;
use world::shelves::Shelves;
use world::text_set::TextSet;

/// A store that names its keys and its shelves. A call fails with `Device` if a device failed, and with `Memory` if
/// memory ran out.
pub trait Keyring: Shelves {
    ghost use Rattle.std.specs.FinMap as map;
    ghost use Rattle.world.specs.Store.{Reads};
    ghost use Rattle.keyring.specs.Named.{keys_in, shelves_in};

    /// Returns all keys.
    fn keys(&mut self) -> Result<TextSet, StoreFault>
        ensures reads { Reads (Self.shown self.old) (Self.shown self.new) result keys_in };

    /// Returns the names of all shelves.
    fn shelves(&mut self) -> Result<TextSet, StoreFault>
        ensures reads { Reads (Self.shown self.old) (Self.shown self.new) result shelves_in };

    /// Returns the parent of a shelf, or None if no shelf has this name. The parent of `common` and of a group is None.
    /// A store that holds its texts in memory copies the parent by `alloc`.
    fn parent(&mut self, alloc: Global, shelf: &str) -> Result<Option<Option<Text>>, StoreFault>
        ensures reads { Reads (Self.shown self.old) (Self.shown self.new) result
            (λ w. map.get w.shelves shelf.now) };
}
