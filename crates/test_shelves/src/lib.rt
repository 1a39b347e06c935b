//! The worked examples of shelves in memory, and of streams and connections that fail or take time.
//!
//! | module | its rows show |
//! |---|---|
//! | `maps` | the scripts of `test_support`: calls of shelves |
//! | `kept_counts`, `version_sets` | what shelves in memory keep |
//! | `answers`, `sweeps` | a first message behind which nothing is read, and readers and writers that fail |
//! | `connections` | two connections of this process to itself |
//! | `in_time` | a peer's time |
//!
//! Each table is a text whose lines are rows. The scripts are those of `test_support`, which `test_stores` also runs on
//! tables. What the running program shows stands in `tests/`: decisions on publishes, streams that are cut, and the
//! connections of `serve`.
#![tactic(auto)]

#[cfg(test)]
mod answers;
#[cfg(test)]
mod connections;
#[cfg(test)]
mod in_time;
#[cfg(test)]
mod kept_counts;
#[cfg(test)]
mod maps;
#[cfg(test)]
mod shelves;
#[cfg(test)]
mod sweeps;
#[cfg(test)]
mod version_sets;
