//! The worked rows of stops and faults: stores over files in memory whose calls fail, what the stores answer meanwhile,
//! and what the files hold afterwards.
//!
//! | module | what it holds |
//! |---|---|
//! | `stops` | changes that a stop breaks off, and the worlds that the files may hold afterwards |
//! | `sweep` | requests that a store answers while a file fails |
//! | `jobs` | what is done with a store, as one type |
//! | `open`, `files` | the store in two files that stop at some call: opened and closed at one spot |
//! | `steps`, `import`, `requests`, `worlds` | what a job does, over any shelves |
//!
//! One spot and one type of file keep the check short: each further one would be proved again, in a minute and with 2
//! GiB.
#![tactic(auto)]

#[cfg(test)]
mod files;
#[cfg(test)]
mod import;
#[cfg(test)]
mod jobs;
#[cfg(test)]
mod open;
#[cfg(test)]
mod requests;
#[cfg(test)]
mod steps;
#[cfg(test)]
mod stops;
#[cfg(test)]
mod sweep;
#[cfg(test)]
mod worlds;
