//! Commands over a file whose store is in memory: what each opens, what it does there, and that the store is closed.
#![tactic(auto)]

#[cfg(test)]
mod host;
#[cfg(test)]
mod no_older;
#[cfg(test)]
mod runs;
