//! Requests that a store answers while calls of its files fail. Each gets the 503, or the reply of shelves in maps that
//! took only the requests that the store did not answer with the 503.
use crate::jobs::{Job, JobKind};
use crate::open::{Left, NO_STOP, left_by, stop_at};
use crate::stops::prepared;
use std::alloc::Global;
use std::test::Fail;

/// Requests, with the reply that each gets if no call fails: `tests/test_worked_rows.py` shows these.
const REQUESTS: &str = "\
PUT A example.com/lib/@v/v1.1.0 | 201 Created | plain | published; | module example.com/lib; | zip
GET A example.com/lib/@v/v1.1.0.zip | 200 OK | zip | zip
GET B example.com/lib/@v/v1.1.0.zip | 404 Not Found | plain | not found;
PUT C example.com/new/@v/v1.0.0 | 201 Created | plain | published; | module example.com/new; | zip
PUT A example.com/lib/@v/v1.1.0 | 200 OK | plain | already published; | module example.com/lib; | zip
PUT B example.com/lib/@v/v1.0.0 | 201 Created | plain | published; | module example.com/lib; | other
GET A example.com/new/@v/list | 200 OK | plain | v1.0.0;
GET A -/modules | 200 OK | plain | example.com/lib;example.com/new;example.com/x;
";

/// The most calls that a run makes of a file.
const MOST: u64 = 2000;

/// How many requests there are.
const COUNT: u8 = 8;

/// Lets a file fail from one call on, for each call after the opening until none fails. Returns the empty text if each
/// request was answered right and the last run answered all, and otherwise what was wrong.
fn wrong_of(alloc: Global, of_log: bool) -> Result<String, Fail> {
    let before = prepared(alloc)?;
    let mut sweep = Job::new(alloc, JobKind::Sweep, REQUESTS);
    let opened = left_by(alloc, before.written(), &mut sweep, 0, NO_STOP)?;
    for calls in calls_of(&opened, of_log)..MOST {
        let left = left_by(
            alloc,
            before.written(),
            &mut sweep,
            1,
            stop_at(calls, of_log),
        )?;
        if !left.is_stopped && left.acknowledged != COUNT {
            sweep.told.push_str("not all are answered")?;
        }
        if !left.is_stopped || !sweep.told.is_empty() {
            return Ok(sweep.told);
        }
    }
    Err(Fail::new("each run met a fault"))
}

/// Returns how many calls of the log, or of the database file, were made.
fn calls_of(left: &Left, of_log: bool) -> u64 {
    if of_log {
        left.log.calls.count
    } else {
        left.db.calls.count
    }
}

#[test]
fn a_log_that_fails_is_told_and_counted(rt: HostRuntime) -> Result<(), Fail> {
    assert_eq!(rt; wrong_of(rt.alloc(), true)?.as_str(), "");
    Ok(())
}

#[test]
fn a_database_file_that_fails_is_told_and_counted(rt: HostRuntime) -> Result<(), Fail> {
    assert_eq!(rt; wrong_of(rt.alloc(), false)?.as_str(), "");
    Ok(())
}
