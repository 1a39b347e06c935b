//! The SQL statements that read and change the tables of a store.
//!
//! The crate `tables` defines the tables and the world that they stand for; the crate `store` builds a store on the
//! calls here. Each call uses a `Connection`, or a `Transaction` of one, and nothing else. Its contract says what
//! becomes of the world that the tables stand for, and what a crash may leave.
//!
//! Each change of a store is one transaction. So a crash leaves the world before it or the world after it, and once the
//! change has returned Ok, only the world after it.
//!
//! | call | its statements |
//! |---|---|
//! | `registry::find_key` | read the row of `access` that has the key |
//! | `registry::find_shelf` | read the row of `shelf` that has the name |
//! | `shelves::find_shelves` | read all rows of `shelf` |
//! | `named::find_keys` | read the token of each row of `access` |
//! | `named::find_shelf_names` | read the name of each row of `shelf` |
//! | `entries::find_seen` | read the row of `version` on each shelf, up to the first that has one; none of `piece` |
//! | `outlines::find_outline` | those of `find_seen`, read the last row of `piece`, and one more after a full one |
//! | `entries::find_entry` | those of `find_seen`, then read the last row of `piece`, then all in order |
//! | `compare::find_standing` | those of `find_seen`; if equal, read rows of `piece`, up to the first that differs |
//! | `visible::find_versions`, `find_paths` | read rows of `version` on each shelf in turn |
//! | `entries::count_entries` | count the rows of `version` that the path has on the shelf |
//! | `entries::count_versions` | count the rows of `version` |
//! | `entries::add_entry` | choose a number (module `numbers`), then write the rows in one transaction |
//! | `registry::add_team` | those of `find_shelf` for the name and for a named group, then write a row of `shelf` |
//! | `registry::add_group` | that of `find_shelf`, then write a row of `shelf` |
//! | `registry::add_key` | those of `find_shelf` and `find_key`, then write a row of `access` |
//! | `revoke::revoke_key` | that of `find_key`, then delete the row of `access` |
//! | `revoke::revoke_keys` | that of `find_shelf`, then delete all rows of `access` that the shelf has |
//! | `transaction::commit_if` | the end of a transaction |
//! | `rows::put_shelf` | write a row of `shelf` |
//! | `rows::put_entry` | write the rows of an entry |
//! | `pieces::insert_zip` | write a row of `piece` for each piece of the zip |
//! | `extract_rows::copy_keys`, `copy_versions`, `copy_pieces` | read the rows of a shelf and write each into another |
//! | `extract_rows::RowSink::put` | write a row with the values of a row of another store |
//! | `meter::Meter` | none: it hears of the rows of versions and zips that were copied |
//!
//! The rows of an entry are a row of `version`, with the order keys of the version, and a row of `piece` for each piece
//! of the zip.
//!
//! What contracts say of values holds if the disk has returned what was written. A call fails with the error of
//! `sqlite` if the disk fails, memory runs out, the connection is closed or limited in its steps, or a row holds a
//! value that no store writes, and with `TooBig` if there are as many rows or pieces as its loop counts.
#![tactic(auto)]

pub mod compare;
pub mod entries;
pub mod extract_rows;
pub mod keyed;
pub mod meter;
pub mod named;
mod numbers;
pub mod outlines;
pub mod pieces;
pub mod query;
pub mod registry;
pub mod revoke;
pub mod rows;
pub mod shelf_list;
pub mod shelves;
pub mod transaction;
pub mod visible;
