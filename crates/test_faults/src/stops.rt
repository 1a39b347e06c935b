//! Changes that a stop breaks off at each call of a file, and the worlds that the files hold afterwards.
use crate::jobs::{Job, JobKind};
use crate::open::{Found, Halted, Left, NO_STOP, left_by, stop_at};
use crate::steps::{ALL, SETUP};
use sqlite_disk::Memory;
use std::alloc::Global;
use std::test::Fail;

/// Returns what the steps of [`SETUP`] leave in files that hold nothing.
pub fn prepared(alloc: Global) -> Result<Left, Fail> {
    let none = Memory::new(alloc);
    let found = Found {
        log: &none,
        db: &none,
    };
    let mut setup = Job::new(alloc, JobKind::Steps, SETUP);
    let left = left_by(alloc, found, &mut setup, ALL, NO_STOP)?;
    if left.acknowledged != ALL {
        return Err(Fail::new("the steps before are not done"));
    }
    Ok(left)
}

/// Returns the world of the store in two files, or the empty text if it cannot be opened.
fn world_of(alloc: Global, found: Found) -> Result<String, Fail> {
    let mut look = Job::new(alloc, JobKind::Look, "");
    left_by(alloc, found, &mut look, 0, NO_STOP)?;
    Ok(look.told)
}

/// Returns the world that each choice of the steps of a job makes, in the order of the bits.
fn worlds_of(alloc: Global, found: Found, job: &mut Job, all: u8) -> Result<Vec<String>, Fail> {
    let mut worlds = Vec::new(alloc);
    for chosen in 0..all.saturating_add(1) {
        let left = left_by(alloc, found, job, chosen, NO_STOP)?;
        worlds.push(world_of(alloc, left.written())?)?;
    }
    Ok(worlds)
}

/// Reports whether this is the world of a choice that has all acknowledged steps.
fn is_among(worlds: &[String], acknowledged: u8, world: &str) -> bool {
    let mut chosen = 0u8;
    for one in worlds.iter() {
        if chosen & acknowledged == acknowledged && one.as_str() == world {
            return true;
        }
        chosen = chosen.saturating_add(1);
    }
    false
}

/// Returns what was written, or what was synced if the rest is lost.
fn held(file: &Halted, is_lost: bool) -> &Memory {
    if is_lost { &file.synced } else { &file.written }
}

/// Reports whether a file that is to lose what was not synced has nothing to lose, because all was synced.
fn loses_nothing(file: &Halted, is_lost: bool) -> bool {
    is_lost && file.written.bytes() == file.synced.bytes()
}

/// Reports whether the files that a job leaves hold a world that they may hold, whether the log has lost what was not
/// synced, or the database file, or both, or none.
fn is_right(alloc: Global, left: &Left, worlds: &[String]) -> Result<bool, Fail> {
    for losses in 0..4u8 {
        let (log_lost, db_lost) = (losses & 1 != 0, losses & 2 != 0);
        if loses_nothing(&left.log, log_lost) || loses_nothing(&left.db, db_lost) {
            continue;
        }
        let found = Found {
            log: held(&left.log, log_lost),
            db: held(&left.db, db_lost),
        };
        let world = world_of(alloc, found)?;
        if !is_among(worlds, left.acknowledged, world.as_str()) {
            return Ok(false);
        }
    }
    Ok(true)
}

/// Reports whether the world of no step and the world of all steps differ.
fn are_apart(worlds: &[String]) -> bool {
    match (worlds.first(), worlds.last()) {
        (Some(before), Some(after)) => before.as_str() != after.as_str(),
        _ => false,
    }
}

/// Stops a job at each of these calls of the log, or of the database file. Returns the empty text if each stop left a
/// world that it may leave, and otherwise what was wrong.
fn wrong_stop(
    alloc: Global,
    found: Found,
    job: &mut Job,
    all: u8,
    worlds: &[String],
    calls: &[u64],
    of_log: bool,
) -> Result<&'static str, Fail> {
    for calls in calls.iter() {
        let left = left_by(alloc, found, job, all, stop_at(*calls, of_log))?;
        if !is_right(alloc, &left, worlds)? {
            return Ok("a stop left another world");
        }
    }
    Ok("")
}

/// Stops a job at each call that changes or syncs the log, and at each of the database file; a stop at a call that
/// reads leaves what a stop at the next of these leaves. Returns the empty text if each stop left a world that it may
/// leave, and the run without a stop did all and changed the world; otherwise what was wrong.
fn wrong_stops(alloc: Global, found: Found, job: &mut Job, all: u8) -> Result<&'static str, Fail> {
    let worlds = worlds_of(alloc, found, job, all)?;
    if !are_apart(worlds.as_slice()) {
        return Ok("the world stays as it was");
    }
    let whole = left_by(alloc, found, job, all, NO_STOP)?;
    if whole.acknowledged != all || !is_right(alloc, &whole, worlds.as_slice())? {
        return Ok("not all was done");
    }
    let of_log = whole.log.calls.writes.as_slice();
    let wrong = wrong_stop(alloc, found, job, all, worlds.as_slice(), of_log, true)?;
    if wrong != "" {
        return Ok(wrong);
    }
    let of_db = whole.db.calls.writes.as_slice();
    wrong_stop(alloc, found, job, all, worlds.as_slice(), of_db, false)
}

/// Stops a job on files that hold what the steps of [`SETUP`] make. Returns the empty text, or what was wrong.
fn wrong_job(alloc: Global, kind: JobKind, steps: &str, all: u8) -> Result<&'static str, Fail> {
    let before = prepared(alloc)?;
    let mut job = Job::new(alloc, kind, steps);
    wrong_stops(alloc, before.written(), &mut job, all)
}

/// Stops an extract into files that hold nothing. Returns the empty text, or what was wrong.
fn wrong_extract(alloc: Global) -> Result<&'static str, Fail> {
    let none = Memory::new(alloc);
    let found = Found {
        log: &none,
        db: &none,
    };
    let mut job = Job::new(alloc, JobKind::Extract, "");
    wrong_stops(alloc, found, &mut job, 1)
}

const PUBLISH: &str =
    "PUT A example.com/lib/@v/v1.1.0 | 201 Created | plain | published; | module example.com/lib; | zip";

#[test]
fn a_stopped_publish_leaves_all_or_nothing(rt: HostRuntime) -> Result<(), Fail> {
    assert_eq!(rt; wrong_job(rt.alloc(), JobKind::Steps, PUBLISH, 1)?, "");
    Ok(())
}

const COMMANDS: &str = "\
team-add|gamma|platform = Done
group-add|tools = Done
key-add|beta|gammakey00000001 = Done
";

#[test]
fn a_stopped_command_leaves_all_or_nothing(rt: HostRuntime) -> Result<(), Fail> {
    assert_eq!(rt; wrong_job(rt.alloc(), JobKind::Steps, COMMANDS, 7)?, "");
    Ok(())
}

#[test]
fn a_stopped_revocation_leaves_all_or_nothing(rt: HostRuntime) -> Result<(), Fail> {
    let steps = "key-revoke|alphakey00000001 = Done";
    assert_eq!(rt; wrong_job(rt.alloc(), JobKind::Steps, steps, 1)?, "");
    Ok(())
}

const REVOCATION: &str = "\
key-add|alpha|alphareader00001 = Done
keys-revoke|alpha = Done
";

#[test]
fn a_stopped_revocation_of_all_keys_leaves_all_or_nothing(rt: HostRuntime) -> Result<(), Fail> {
    assert_eq!(rt; wrong_job(rt.alloc(), JobKind::Steps, REVOCATION, 3)?, "");
    Ok(())
}

#[test]
fn a_stopped_import_keeps_the_rows_that_were_told(rt: HostRuntime) -> Result<(), Fail> {
    assert_eq!(rt; wrong_job(rt.alloc(), JobKind::Import, "", 3)?, "");
    Ok(())
}

#[test]
fn a_stopped_extract_leaves_all_or_nothing(rt: HostRuntime) -> Result<(), Fail> {
    assert_eq!(rt; wrong_extract(rt.alloc())?, "");
    Ok(())
}
