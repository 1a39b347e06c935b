//! Copies the entries of a store into another one a slice at a time, while versions come into the first.
//!
//! A copy is of the world at one moment. Its shelves and keys are put into the fresh store first. Then
//! [`slice::copy_slice`] walks over the rows of `version` by their numbers, and puts each entry that was there at that
//! moment into the transaction of the fresh store, up to where its pace says. Between two slices versions may be
//! published: `interleave::newcomers::Newcomers` has their places, and the walk passes over them.
//!
//! The walk counts the entries that are left, and it is done once none is. Each entry that it put in was there at the
//! moment, and no place comes twice, so no entry is missing then, in whatever order the rows came. A walk that ends
//! before that fails.
//!
//! What contracts say of values holds if the disks have returned what was written.
#![tactic(auto)]

pub mod cursor;
pub mod laws;
pub mod pace;
mod pieces;
pub mod slice;
mod versions;
