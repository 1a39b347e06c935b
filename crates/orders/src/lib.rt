//! The orders of operators and their outcomes, as lines. The server reads an order and writes an outcome; a command
//! writes an order and reads an outcome. Both directions stand here, so a format has one home.
//!
//! | what | where |
//! |---|---|
//! | a registry command, a list | [`RegistryCommand`], [`Listing`] |
//! | an order, whether it has a line, and its line | [`Order`], [`Order::has_line`], [`Order::write`] |
//! | the order of a line | [`read_order`] |
//! | the outcome of an order, its line, and the outcome of a line | [`Outcome`], [`Outcome::line`], [`read_outcome`] |
#![tactic(auto)]

mod command;
pub mod laws;
mod line;
mod listing;
mod order;
mod outcome;
mod read;
mod words;
mod write;

pub use command::RegistryCommand;
pub use listing::Listing;
pub use order::{LONGEST_LINE, Order};
pub use outcome::{Outcome, read_outcome};
pub use read::read_order;
pub use write::WriteError;
