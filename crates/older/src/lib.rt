//! The tables of a store of an older schema, and the world that they stand for.
//!
//! Schemas 1 and 2 have no groups, so a row of `shelf` has only a name. Schema 1 keeps a zip as one row of `body`, and
//! a version without its order keys:
//!
//! | table | a row is | columns |
//! |---|---|---|
//! | `shelf` | a shelf; each but `common` is a team without a group | `name` |
//! | `version`, schema 1 | a version on a shelf | `id`, `shelf`, `path`, `version`, `time`, `mod` |
//! | `body`, schema 1 | the zip of the version whose `id` it has | `id`, `zip` |
//!
//! The other tables are those of the crate `tables`; only the number in `meta` differs.
#![tactic(auto)]

pub mod laws;
pub mod schema;
