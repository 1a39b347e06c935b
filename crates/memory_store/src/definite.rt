//! A store in memory stands for one world.
use crate::map_shelves::MapShelves;
use interleave::definite::Definite;
use world::registry::StoreFault;

impl Definite for MapShelves {
    fn settle(&mut self) -> Result<(), StoreFault> {
        Ok(())
    }
}
