//! The SQL tables that keep a world: what their rows mean, and whether given tables stand for a world.
//!
//! There are five STRICT tables, in schema 3:
//!
//! | table | a row is | columns |
//! |---|---|---|
//! | `meta` | the number of the schema, 3, under the name `schema` | `name`, `value` |
//! | `shelf` | a shelf and its parent, null for a group and `common`; `common` is always there | `name`, `parent` |
//! | `access` | a key, the shelf that it belongs to and whether it may publish | `token`, `shelf`, `publish` |
//! | `version` | a version on a shelf | `id`, `shelf`, `path`, `version`, `time`, `mod`, `order_key`, `rank_key` |
//! | `piece` | 65,536 bytes of the zip of the `version` with this `id`, or fewer | `version`, `number`, `bytes` |
//!
//! Tables stand for at most one world: each row of `shelf` is a shelf, each row of `access` a key, and each row of
//! `version` an entry, whose zip is the bytes of its rows of `piece`, joined in the order of their numbers 0, 1, 2 and
//! so on. Each shelf, key, entry and piece has one row. The numbers of the rows of `version`, and the order of rows,
//! mean nothing. The order of the bytes in `order_key` is precedence, and of those in `rank_key` it is rank.
//!
//! | call | what it does |
//! |---|---|
//! | `create` | in one transaction makes the five tables, with the rows for schema 3 and for `common` |
//! | `stand_for_world` | reads each row of each table once, in walks that remember the row before |
//!
//! What contracts say of values holds as long as the disk returns what was written.
#![tactic(auto)]

pub mod columns;
pub mod create;
pub mod fit;
pub mod laws;
pub mod pieces;
pub mod schema;
mod walk;
