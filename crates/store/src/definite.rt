//! Whether a store stands for one world.
use crate::store::{SqlShelves, counted};
use interleave::definite::Definite;
use sqlite::Alter;
use statements::registry::find_shelf;
use world::names::COMMON;
use world::registry::StoreFault;

impl<S: Alter> Definite for SqlShelves<S> {
    /// Asks the tables for a shelf, which only an open connection answers, and that stands for one world.
    fn settle(&mut self) -> Result<(), StoreFault> {
        counted(&mut self.failures, find_shelf(&mut self.conn, COMMON))?;
        Ok(())
    }
}
