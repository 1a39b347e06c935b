//! What a shelf sees of a version: without its zip, or with how long its files are in the place of their bytes.
//!
//! A list of versions names the lengths of go.mod files and zips, and a zip may have 16 MiB. The trait
//! [`outlines::Outlines`] asks a store for the lengths, so that a store in a file can tell them without reading its
//! zips.
#![tactic(auto)]

pub mod outlines;
pub mod seen;
