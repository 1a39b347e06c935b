//! Team shelves as rows of SQL tables, behind the traits `world::shelves::Shelves`, `outline::outlines::Outlines` and
//! `keyring::Keyring`.
//!
//! The crate `tables` defines the tables and the world that they stand for; the crate `statements` reads and changes
//! them; the crate `setup` finds or makes them, and copies shelves; the crate `kept` keeps what was found. A store
//! opens over these tables if they stand for a world, or over no tables at all. It refuses everything else: a
//! connection that then stays open shows what it showed, and files that come back hold the database that they held, or
//! the tables of a new store where they had none.
//!
//! A change is one transaction. So a crash leaves the world before it or the world after it, and once the change has
//! returned Ok, only the world after it.
//!
//! | call | what it calls |
//! |---|---|
//! | `adopt` | `setup::adopt::open_tables` |
//! | `key` | `statements::registry::find_key`; then kept until a key is revoked |
//! | `entry` | what `heading` is made of, and the kept zip; without one, `find_entry`, whose zip is then kept |
//! | `heading` | `statements::entries::find_seen`, along the chain; kept until a version or a team is added |
//! | `outline` | `statements::outlines::find_outline`, along the chain |
//! | `compare` | `statements::compare::find_standing`, along the chain |
//! | `versions` | `statements::visible::find_versions`, along the chain; kept until a team or one of them is added |
//! | `latest` | `versions`, and `heading` of the highest; kept with the versions |
//! | `paths` | `statements::visible::find_paths`, along the chain |
//! | `count` | `statements::entries::count_entries`; then kept |
//! | `versions_kept` | `statements::entries::count_versions`; then kept |
//! | `insert` | `statements::entries::add_entry` |
//! | `team_add`, `group_add`, `key_add` | `add_team`, `add_group`, `add_key` of `statements::registry` |
//! | `key_revoke`, `keys_revoke` | `statements::revoke::revoke_key`, `revoke_keys` |
//! | `extract_teams` | `setup::copy::copy_teams`, which writes in one transaction |
//! | `copy_between` | `setup::copy::copy_registry`, then `slices::slice::copy_slice` repeatedly, in one transaction |
//! | `keys`, `shelves` | `statements::named::find_keys`, `find_shelf_names` |
//! | `parent` | `statements::registry::find_shelf` |
//! | `migrate` | `older::schema::format_of`; in one transaction, `older_rows::write::write_world` into a fresh store |
//!
//! The chain of a shelf is its own shelf, its group if it has one, and `common`. `statements::registry::find_shelf`
//! finds the group once, and the store keeps it, because it never changes.
//!
//! What contracts say of values holds if the disk has returned what was written. A fault is `Memory` if memory ran out,
//! and otherwise `Device`, which is counted.
#![tactic(auto)]

pub mod between;
mod chain;
mod counting;
mod definite;
mod extract;
pub mod file_name;
pub mod files;
pub mod laws;
mod look;
pub mod migrate;
mod named;
pub mod open;
pub mod open_older;
mod seen;
pub mod store;
