//! The rows of a store of an older schema, each tested and put into a fresh store of today's schema.
//!
//! [`write::write_world`] puts them in, all in one transaction. It reads a table once, `version` and `piece` in the
//! order of their index. It tests each row and puts it into the fresh store at once, so only one entry is in memory. A
//! row that no world has ends the call, and the transaction is rolled back.
//!
//! `fill` makes these calls, one after another:
//!
//! | call | the rows |
//! |---|---|
//! | `meta::names_schema` | the number of the schema, for which nothing is written |
//! | `shelves::put_shelves` | `common`, and teams without a group |
//! | `keys::put_keys` | keys with their shelves and rights |
//! | `entries::put_entries` | versions; those of schema 1 with computed order keys, and their zips in pieces |
//! | `pieces::put_zips` | the zips of schema 2, in pieces |
#![tactic(auto)]

mod entries;
mod fill;
mod keys;
mod meta;
mod pieces;
mod shelves;
mod walk;
pub mod write;
