//! Worked rows for the formats below the shelves: module paths, versions, go.mod files, the latest version, go.sum
//! lines, and the messages and replies of HTTP/1.1.
//!
//! Each table is one text whose lines are rows, and one test of `rows` reads them all. Expected values are those of the
//! public standards, worked out by hand or made by another program. What the running program shows stands in `tests/`:
//! the other replies, and what whole go.mod files require and retract.
//!
//! | module | calls of | its rows show |
//! |---|---|---|
//! | `module_paths` | `modpath` | module paths, loose paths, their suffixes and faults; escaped forms |
//! | `versions` | `modver` | versions, their classes and faults; times; copies; the paths that a version fits |
//! | `orders` | `modver` | precedence and rank, each list compared with each of its versions; keys byte by byte |
//! | `tokens` | `modlex` | tokens of texts and lines, their values, and faults |
//! | `gomod_faults` | `gomod` | what can be read as a go.mod, what is bare, and the first fault of the others |
//! | `latest_versions` | `latest` | the highest version, and the latest |
//! | `hashes` | `gosum` | hashes and go.sum lines |
//! | `targets` | `wire`, `text` | what requests ask for |
//! | `messages` | `framing`, by `wire` | messages and the ends of streams, however they are cut; lengths |
//! | `replies` | `wire` | replies and lines that the program does not write |
#![tactic(auto)]

#[cfg(test)]
mod gomod_faults;
#[cfg(test)]
mod hashes;
#[cfg(test)]
mod latest_versions;
#[cfg(test)]
mod messages;
#[cfg(test)]
mod module_paths;
#[cfg(test)]
mod orders;
#[cfg(test)]
mod replies;
#[cfg(test)]
mod rows;
#[cfg(test)]
mod targets;
#[cfg(test)]
mod tokens;
#[cfg(test)]
mod versions;
