//! What happens to a store while it is copied: the versions that are published since the copy began, the trait
//! [`between::Between`] of what is served between two slices of it, and the store that is lent for that and notes what
//! is published, [`insert_tracker::InsertTracker`].
#![tactic(auto)]

pub mod between;
pub mod definite;
pub mod insert_tracker;
pub mod newcomers;
