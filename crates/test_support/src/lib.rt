//! What the tests share: scripts of calls, and requests, one row a line, which any store must answer alike; and a
//! reader and a writer that fail.
//!
//! It has no contracts and no tests of its own: if it misreads a row, tests of `test_shelves` and `test_stores` fail.
#![tactic(auto)]

pub mod calls;
pub mod doubles;
pub mod requests;
pub mod rows;
