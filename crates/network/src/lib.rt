//! Connections to servers, with a history of them.
//!
//! Code over [`servers::Servers`] that has no handle of the system connects to nothing but what the history has, and
//! nothing passes over a connection but what the history has of it. Only clauses read the history: it takes no memory
//! and no time.
#![tactic(auto)]

pub mod deed;
pub mod memory;
pub mod servers;
pub mod system;
