//! Which keys and which shelves a store has, asked of the tables. Nothing is kept.

use crate::store::{SqlShelves, counted};
use keyring::Keyring;
use sqlite::Alter;
use statements::named::{find_keys, find_shelf_names};
use statements::registry::find_shelf;
use std::alloc::Global;
use text::Text;
use world::registry::StoreFault;
use world::text_set::TextSet;

impl<S: Alter> Keyring for SqlShelves<S> {
    fn keys(&mut self) -> Result<TextSet, StoreFault> {
        let keys = find_keys(self.alloc, &mut self.conn);
        counted(&mut self.failures, keys)
    }

    fn shelves(&mut self) -> Result<TextSet, StoreFault> {
        let names = find_shelf_names(self.alloc, &mut self.conn);
        counted(&mut self.failures, names)
    }

    fn parent(&mut self, _alloc: Global, shelf: &str) -> Result<Option<Option<Text>>, StoreFault> {
        let found = find_shelf(&mut self.conn, shelf);
        counted(&mut self.failures, found)
    }
}
