//! The worked examples of stores over tables in memory: scripts of calls, connections that no store adopts, and an
//! extract for no team. What the running program shows stands in `tests/`: the worked rows, files whose tables are
//! adopted or refused, and parts and copies.
//!
//! What makes a store also closes it, since a function that drops a store has to prove the dropping of all its parts,
//! at each of its exits.
#![tactic(auto)]

#[cfg(test)]
mod in_memory;
#[cfg(test)]
mod stores;
#[cfg(test)]
mod unadopted;
