//! How long the files of the entries of a store in memory are.
use crate::map_shelves::MapShelves;
use modpath::ModulePath;
use modver::Version;
use outline::outlines::{Outline, Outlines};
use world::registry::StoreFault;
use world::shelves::Shelves;

impl Outlines for MapShelves {
    fn outline(
        &mut self,
        shelf: &str,
        path: &ModulePath,
        version: &Version,
    ) -> Result<Option<Outline>, StoreFault> {
        match self.entry(shelf, path, version)? {
            None => Ok(None),
            Some(seen) => Ok(Some(Outline::of(seen))),
        }
    }
}
