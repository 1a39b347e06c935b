//! The machine that answers requests for module versions over any store of shelves.
//!
//! The crate `world` says what shelves, entries and keys are, and what a shelf sees. An entry is never changed and
//! never removed. Each key may read; one that may also publish does so to its own shelf.
//!
//! A publish passes these tests in order. The first that fails decides the answer:
//!
//! | test | answer | status |
//! |---|---|---|
//! | path and version are well formed, and the key is known | [`reply::Decision::NotFound`] | 404 |
//! | the key may publish | [`reply::Decision::Forbidden`] | 403 |
//! | the body splits into a go.mod and a zip | [`reply::Decision::BadLength`] | 400 |
//! | the go.mod has at most 1,048,576 bytes, the zip at most 16,777,216 | [`reply::Decision::TooLarge`] | 413 |
//! | the version fits the path | [`reply::ContentRefusal::MajorMismatch`] | 422 |
//! | at most one time is given, and it is well formed | [`reply::ContentRefusal::BadTime`] | 422 |
//! | with a pseudo-version, a given time is that of the stamp | [`reply::ContentRefusal::TimeMismatch`] | 422 |
//! | the go.mod reads | [`reply::ContentRefusal::BadGoMod`], with the faulty line | 422 |
//! | the go.mod names the path | [`reply::ContentRefusal::ModulePath`] | 422 |
//! | with `+incompatible`, `module` is the only directive | [`reply::ContentRefusal::IncompatibleGoMod`] | 422 |
//! | the shelf sees no entry of the version with these files and this time | [`reply::Decision::Same`] | 200 |
//! | the shelf sees no other entry of the version | [`reply::Decision::Conflict`] | 409 |
//! | the shelf has fewer than 4,096 versions of the path | [`reply::Decision::Full`] | 507 |
//! | none failed, and the store took it | [`reply::Decision::Published`] | 201 |
//!
//! The time of a pseudo-version is that of its stamp, given or not; any other version has the time that was given, or
//! none. The list of a path has its releases and pre-releases by precedence. Its latest version is the highest by rank
//! that the go.mod of the highest does not retract.
//!
//! An example with keys of the teams alpha and beta and of `common`, all of which may publish; the requests come in
//! this order:
//!
//! | request | answer |
//! |---|---|
//! | alpha publishes `example.com/y` `v1.0.0` with the zip `a` | Published |
//! | alpha publishes it with the zip `a`; with the zip `b` | Same; Conflict |
//! | beta asks for its zip | not found |
//! | `common` publishes it with the zip `c` | Published |
//! | alpha asks for its zip; beta does | `a`; `c` |
//! | beta publishes it with the zip `a` | Conflict |
//!
//! The trait `Shelves` of the crate `world` says what a store must do. [`step::step`] answers one request over any
//! store, and [`run::run`] a list of requests and registry commands. [`laws`] says what holds of every list: for
//! instance, that a shelf learns nothing of the requests of others, and that what was served once is served for good.
#![tactic(auto)]

pub mod decide;
mod judge;
pub mod laws;
mod listed;
mod noted;
mod queries;
pub mod reply;
pub mod request;
pub mod run;
pub mod step;
pub mod traced_shelves;
pub mod traced_store;
