//! Files whose stores are opened and closed, with a history of that, and why one is not opened.
//!
//! Code over [`files::StoreFiles`] that has no handle of the system does nothing to a file but what the history has, in
//! its order. Only clauses read the history: it takes no memory and no time.
#![tactic(auto)]

pub mod files;
pub mod memory;
pub mod record;
pub mod refusal;
