//! Shelves to answer from.
use memory_store::map_shelves::MapShelves;
use std::alloc::Global;
use world::entry::Right;
use world::registry::StoreFault;
use world::shelves::Shelves;

/// Adds the teams alpha and beta and the keys of the tests, and returns the shelves.
fn registered<S: Shelves + Drop>(mut shelves: S) -> Result<S, StoreFault> {
    shelves.team_add("alpha", None)?;
    shelves.team_add("beta", None)?;
    shelves.key_add("alpha", "alphakey00000001", Right::Publishes)?;
    shelves.key_add("alpha", "alphareader00001", Right::Reads)?;
    shelves.key_add("beta", "betakey000000001", Right::Publishes)?;
    shelves.key_add("common", "commonkey0000001", Right::Publishes)?;
    Ok(shelves)
}

/// Returns shelves in maps: `common`, alpha and beta, with their keys.
pub fn shelves(alloc: Global) -> Result<MapShelves, StoreFault> {
    registered(MapShelves::new(alloc)?)
}
