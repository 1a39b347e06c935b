//! What a shelf sees, as lines: a JSON object for each version. (RFC 8259.)
//!
//! A line has the names of `go list -m -json` and `go mod download -json`. The lines of a path are those of its
//! versions by precedence, pseudo-versions too. A version is marked as retracted and as latest by one go.mod: that of
//! the highest version by rank which the shelf sees. No zip is read. [`print_catalog`] and [`between::print_between`]
//! print the lines of one path after those of another, in one walk, without turns of others and with them.
#![tactic(auto)]

pub mod between;
pub mod laws;
mod line;
mod path;
mod print;
mod sight;
mod turns;
mod walk;

pub use crate::print::{PrintError, print_catalog};
