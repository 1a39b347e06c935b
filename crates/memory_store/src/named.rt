//! Which keys and which shelves a store in memory has.
ghost use Rattle.std.specs.Prelude.{◌≡◌, IfOk};

use crate::map_shelves::MapShelves;
use keyring::Keyring;
use std::alloc::{AllocError, Global};
use text::Text;
use world::registry::StoreFault;
use world::text_set::TextSet;

impl Keyring for MapShelves {
    fn keys(&mut self) -> Result<TextSet, StoreFault> {
        Ok(self.all_keys()?)
    }

    fn shelves(&mut self) -> Result<TextSet, StoreFault> {
        Ok(self.all_shelves()?)
    }

    fn parent(&mut self, alloc: Global, shelf: &str) -> Result<Option<Option<Text>>, StoreFault> {
        match MapShelves::parent(self, shelf) {
            None => Ok(None),
            Some(parent) => Ok(Some(copy_of(alloc, parent)?)),
        }
    }
}

/// Returns a copy of a parent. Fails only if memory runs out.
fn copy_of(alloc: Global, parent: &Option<Text>) -> Result<Option<Text>, AllocError>
    ensures { IfOk result (λ copy. copy ≡ parent.now) }
{
    match parent {
        None => Ok(None),
        Some(parent) => Ok(Some(Text::copy_of(alloc, parent.as_str())?)),
    }
}
