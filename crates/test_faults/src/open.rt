//! Stores over two files in memory, for which the machine stops at some call.
//!
//! Every store is opened and closed at one spot, [`on_files`], and is closed rather than dropped: a function that drops
//! a store has to prove the dropping of all its fields, at each of its exits.
use crate::files::{Calls, Counted};
use crate::jobs::{Job, do_job};
use sqlite::{Alter, Connection, Files, Leftover, Options};
use sqlite_disk::{Crash, Disk, Fuse, Memory};
use std::alloc::Global;
use std::test::Fail;
use store::store::SqlShelves;
use store_files::refusal::StoreRefusal;

/// Opens the tables of a connection, does a job with their store, and closes it. Returns the connection, and the bits
/// that were acknowledged: none if the device keeps the store from opening.
fn on_tables<S: Alter>(
    alloc: Global,
    conn: Connection<S>,
    job: &mut Job,
    chosen: u8,
) -> (Connection<S>, Result<u8, Fail>) {
    match SqlShelves::adopt(alloc, conn) {
        Ok(mut shelves) => {
            let told = do_job(alloc, &mut shelves, job, chosen);
            (shelves.close(), told)
        }
        Err((StoreRefusal::Device, conn)) => (conn, Ok(0)),
        Err((_, conn)) => (conn, Err(Fail::new("the tables are refused"))),
    }
}

/// Opens the store in two files, does a job with it, and closes it. Returns the files, and the bits that were
/// acknowledged: none if the device keeps the store from opening. The log is copied into the database once it has a few
/// pages, so both files are written.
fn on_files<D: Disk + Drop>(
    alloc: Global,
    files: Files<D>,
    job: &mut Job,
    chosen: u8,
) -> (Files<D>, Result<u8, Fail>) {
    if !files.may_be_used() {
        return (files, Ok(0));
    }
    let mut options = Options::new(7);
    options.cache_pages = 40;
    options.checkpoint_frames = 6;
    match Connection::open_files(alloc, files, options) {
        Ok(conn) => {
            let (conn, told) = on_tables(alloc, conn, job, chosen);
            (Leftover::Store(conn.into_store()).into_files(), told)
        }
        Err((_, left)) => (left.into_files(), Ok(0)),
    }
}

/// After how many calls of each of two files the machine stops.
#[derive(Clone, Copy, Drop)]
pub struct Stops {
    pub log: u64,
    pub db: u64,
}

/// The machine never stops.
pub const NO_STOP: Stops = Stops {
    log: u64::MAX,
    db: u64::MAX,
};

/// Returns a stop after this many calls of the log, or of the database file.
pub fn stop_at(calls: u64, of_log: bool) -> Stops {
    let mut stops = NO_STOP;
    if of_log {
        stops.log = calls;
    } else {
        stops.db = calls;
    }
    stops
}

/// Two files that a job finds.
#[derive(Clone, Copy, Drop)]
pub struct Found<'a> {
    pub log: &'a Memory,
    pub db: &'a Memory,
}

/// What a file may hold once the machine has stopped.
#[derive(Drop)]
pub struct Halted {
    /// What was written.
    pub written: Memory,
    /// What was synced.
    pub synced: Memory,
    /// The calls that were made of it.
    pub calls: Calls,
}

/// What a job leaves in the files, and the bits that were acknowledged.
#[derive(Drop)]
pub struct Left {
    pub log: Halted,
    pub db: Halted,
    pub acknowledged: u8,
    /// Whether a call came after the stop.
    pub is_stopped: bool,
}

impl Left {
    /// Returns the files that were written.
    pub fn written(&self) -> Found<'_> {
        Found {
            log: &self.log.written,
            db: &self.db.written,
        }
    }
}

/// Returns a file that holds what another holds.
fn copy_of(alloc: Global, file: &Memory) -> Result<Memory, Fail> {
    let mut copy = Memory::new(alloc);
    copy.write_at(0, file.bytes())?;
    copy.sync()?;
    Ok(copy)
}

/// Returns a copy of a file whose machine stops after this many calls.
fn stopping(alloc: Global, file: &Memory, calls: u64) -> Result<Counted<Fuse<Memory>>, Fail> {
    Ok(Counted {
        file: Fuse::new(copy_of(alloc, file)?, calls),
        calls: Calls::new(alloc),
    })
}

/// Stops the machine of a file, and returns what the file may hold then.
fn stopped(alloc: Global, stopping: Counted<Fuse<Memory>>) -> Result<Halted, Fail> {
    let mut file = stopping.file;
    let calls = stopping.calls;
    let written = copy_of(alloc, file.inner())?;
    file.crash();
    Ok(Halted {
        written,
        synced: copy_of(alloc, file.inner())?,
        calls,
    })
}

/// Does a job with the store in copies of two files, whose machine stops, and returns what it leaves.
pub fn left_by(
    alloc: Global,
    found: Found,
    job: &mut Job,
    chosen: u8,
    stops: Stops,
) -> Result<Left, Fail> {
    let files = Files {
        log: stopping(alloc, found.log, stops.log)?,
        db: stopping(alloc, found.db, stops.db)?,
    };
    let (files, told) = on_files(alloc, files, job, chosen);
    let is_stopped = files.log.calls.count > stops.log || files.db.calls.count > stops.db;
    Ok(Left {
        acknowledged: told?,
        log: stopped(alloc, files.log)?,
        db: stopped(alloc, files.db)?,
        is_stopped,
    })
}
