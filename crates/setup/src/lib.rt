//! Sets up a store on a connection: finds or makes its tables, or fills them with shelves of another store.
//!
//! The crate `store` builds the calls of a store on those here. They use connections, and nothing that a store keeps.
//!
//! | call | what it calls |
//! |---|---|
//! | `adopt::open_tables` | `tables::fit::stand_for_world`, or `tables::create::create` if there are no tables |
//! | `judge::is_blank` | `statements::query::find_row` for a shelf other than `common`, a key and an entry |
//! | `copy::copy_teams` | `find_shelf`, `is_blank`; in one transaction, `extract_rows` |
//! | `copy::copy_registry` | `find_shelves`, and `put_shelf` and `extract_rows::copy_keys` of `statements` |
//!
//! What contracts say of values holds if the disk has returned what was written.
#![tactic(auto)]

pub mod adopt;
pub mod choice;
pub mod copy;
pub mod judge;
pub mod refusal;
mod write;
