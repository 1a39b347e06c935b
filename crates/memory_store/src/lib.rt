//! A store in memory: [`map_shelves::MapShelves`] keeps shelves in ordered maps.
//!
//! It implements the trait of a store, `world::shelves::Shelves`, and both traits over it,
//! `outline::outlines::Outlines` and `keyring::Keyring`. Nothing of it is left when the program ends.
//!
//! - [`map_shelves`]: the store, which contracts see as its world.
//! - [`outlines`], [`named`]: the two traits over that of a store.
#![tactic(auto)]

mod definite;
mod entry_map;
pub mod map_shelves;
pub mod named;
pub mod outlines;
