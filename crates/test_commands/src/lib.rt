//! Imports whose list cannot be read on, or whose lines cannot be printed, and files in memory.
//!
//! Each table is a text whose lines are rows.
#![tactic(auto)]

#[cfg(test)]
mod broken_off;
#[cfg(test)]
mod in_memory;
#[cfg(test)]
mod progress;
