//! The shelves, their entries and their keys, and the trait of a store that keeps them.
//!
//! There is the shelf `common`, and one shelf for each group and for each team. A team may be a member of one group,
//! and stays in it. An entry stands at a shelf, a module path and a version. It holds the go.mod and the zip as they
//! were received, and a time if it has one. A key belongs to one shelf, and may read, or read and publish. Of each
//! version a shelf sees its own entry if there is one, otherwise that of its group if the shelf has a group and the
//! group has an entry, otherwise that of `common`.
//!
//! | on the shelves | `gamma`, of the group `platform`, sees | `platform` sees | `alpha`, of no group, sees |
//! |---|---|---|---|
//! | nothing of `example.com/y` `v1.0.0` | nothing | nothing | nothing |
//! | `gamma` has it with the zip `m` | `m` | nothing | nothing |
//! | `platform` has it too, with the zip `h` | `m` | `h` | nothing |
//! | `common` has it too, with the zip `c` | `m` | `h` | `c` |
//!
//! This crate knows nothing of requests: the crate `machine` answers them over any [`shelves::Shelves`]. A contract
//! says what a call does in each world that the store stands for, and what a crash may leave.
//!
//! - [`entry`]: what stands on a shelf, and what a key holds.
//! - [`names`]: the rules of team names and keys. [`forms`]: the path and the version that a text names.
//! - [`reading`]: what a go.mod says. [`entry_test`]: the checks that an entry must pass, both for a publish and for a
//!   store that takes over tables.
//! - [`standing`]: how an entry that is handed in compares with what is there.
//! - [`versions`]: the order of versions, and the choice of the latest.
//! - [`registry`]: the outcome of a registry command, and why a store fails.
//! - [`shelves`]: the trait of a store.
//! - [`counts`]: counts of versions that a store keeps so that it need not find them again.
//! - [`laws`]: what holds of worlds, for instance that the test of an entry is exact.
//!
//! Contracts see the types of [`bytes`], [`version_list`], [`text_set`] and [`text_map`] as lists, sets and maps.
#![tactic(auto)]

pub mod bytes;
pub mod counts;
pub mod entry;
pub mod entry_test;
pub mod forms;
pub mod laws;
pub mod names;
pub mod reading;
pub mod registry;
pub mod shelves;
pub mod standing;
pub mod text_map;
pub mod text_set;
pub mod version_list;
mod version_set;
pub mod versions;
