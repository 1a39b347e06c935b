//! Jobs to do with a store. One type describes them all, so that the store in a file is passed to only one function.
use crate::import::imported;
use crate::requests::answered;
use crate::steps::{done, set_up};
use crate::worlds::told_by;
use memory_store::map_shelves::MapShelves;
use sqlite::{Alter, Connection};
use statements::meter::Unmetered;
use std::alloc::Global;
use std::test::Fail;
use store::store::SqlShelves;
use world::shelves::Shelves;

/// The kind of a job.
#[derive(Clone, Copy, Drop, PartialEq, Eq)]
pub enum JobKind {
    /// Does the steps. Each step has a bit.
    Steps,
    /// Imports the rows of a list. Each row has a bit.
    Import,
    /// Extracts alpha's part of a store in memory on which the steps of `SETUP` were done.
    Extract,
    /// Answers the requests, if any bit is chosen, and notes each row that is answered wrong.
    Sweep,
    /// Writes down the world.
    Look,
}

/// A job to do with a store.
#[derive(Drop)]
pub struct Job<'a> {
    pub kind: JobKind,
    /// The steps or the requests, one a line.
    pub rows: &'a str,
    /// The output: the world for `Look`, the rows that were answered wrong for `Sweep`.
    pub told: String,
}

impl<'a> Job<'a> {
    pub fn new(alloc: Global, kind: JobKind, rows: &'a str) -> Job<'a> {
        Job {
            kind,
            rows,
            told: String::new(alloc),
        }
    }
}

/// Does the pieces of a job whose bits are chosen, and returns the bits of those that were acknowledged.
pub fn do_job<S: Alter>(
    alloc: Global,
    shelves: &mut SqlShelves<S>,
    job: &mut Job,
    chosen: u8,
) -> Result<u8, Fail> {
    if job.kind == JobKind::Extract && chosen != 0 {
        return take_part(alloc, shelves);
    }
    do_on_shelves(alloc, shelves, job, chosen)
}

/// Extracts alpha's part of a store in memory, and returns 1 if that is done.
fn take_part<S: Alter>(alloc: Global, fresh: &mut SqlShelves<S>) -> Result<u8, Fail> {
    match SqlShelves::adopt(alloc, Connection::open_in_memory(alloc)?) {
        Ok(mut whole) => {
            let done = extracted(alloc, &mut whole, fresh);
            whole.close();
            done
        }
        Err(_) => Err(Fail::new("no store in memory")),
    }
}

/// Does the steps of `SETUP` on a store, extracts alpha's part of it, and returns 1 if that is done.
fn extracted<T: Alter, S: Alter>(
    alloc: Global,
    whole: &mut SqlShelves<T>,
    fresh: &mut SqlShelves<S>,
) -> Result<u8, Fail> {
    set_up(alloc, whole)?;
    Ok(u8::from(whole.extract_teams(&["alpha"], fresh, &Unmetered).is_ok()))
}

/// Does a job that any shelves can do, and returns the bits of the pieces that were acknowledged.
fn do_on_shelves<S: Shelves>(
    alloc: Global,
    shelves: &mut S,
    job: &mut Job,
    chosen: u8,
) -> Result<u8, Fail> {
    match job.kind {
        JobKind::Steps => done(alloc, shelves, job.rows, chosen),
        JobKind::Import => imported(alloc, shelves, chosen),
        JobKind::Sweep if chosen != 0 => answered(
            alloc,
            shelves,
            MapShelves::new(alloc)?,
            job.rows,
            &mut job.told,
        ),
        JobKind::Look => told_by(alloc, shelves, &mut job.told),
        _ => Ok(0),
    }
}
