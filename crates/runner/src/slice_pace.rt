//! How long a slice of a copy takes, and when the log of the copy is written to the disk.

ghost use Rattle.std.specs.Prelude.{◌≡◌, ◌≤◌};
ghost use Rattle.runner.specs.Settled.{Begins, Counts, last_settled};

use crate::file_checks::FileChecks;
use histories::ClockFace;
use slices::pace::Pace;
use std::time::{Duration, Instant};

/// The most milliseconds of a slice.
const MILLIS: u64 = 5;

/// The bytes of a slice. The last piece or go.mod in it may exceed them.
const BYTES: usize = 1 << 20;

/// What a row counts for beside the bytes that are noted: a page, since the pages of its table and of the indexes go to
/// the log whole, and are several where rows lie apart. With less, waiting callers would wait longer for the disk.
const ROW: usize = 4_096;

/// After how many bytes the log of the copy is first written to the disk, so that the commit has little to wait for.
const FIRST_SETTLED: usize = 4 << 20;

/// After how many bytes it is written at the latest.
const LAST_SETTLED: usize = 64 << 20;

/// The most milliseconds that this may take before the next time is put off.
const SLOW_MILLIS: u64 = 20;

/// Ends a slice after 5 ms or 1 MiB, whichever comes first. If the clock can't be read, only bytes count.
///
/// The log is written to the disk as it grows. Where that takes more than 20 ms, the next time comes after twice as
/// many bytes: on a slow disk or a busy one, waiting callers wait for it only a few times.
#[derive(Drop)]
pub(crate) struct SlicePace<'a, C: ClockFace, L: FileChecks> {
    clock: &'a C,
    checks: &'a L,
    /// The file that is copied to.
    to: &'a str,
    begun: Option<Instant>,
    bytes: usize,
    /// The bytes that were copied since the log was last written to the disk, and how many there may be.
    unsettled: usize,
    settled_at: usize,
}

impl<'a, C: ClockFace, L: FileChecks> SlicePace<'a, C, L> {
    /// Returns the pace of a copy to this file, of which nothing is copied yet.
    pub(crate) fn new(clock: &'a C, checks: &'a L, to: &'a str) -> SlicePace<'a, C, L>
        ensures file { (result.checks.now ≡ checks.now) × (result.to.now ≡ to.now) }
        ensures unsettled { result.unsettled ≡ 0 }
        ensures latest { result.settled_at ≤ last_settled }
    {
        SlicePace {
            clock,
            checks,
            to,
            begun: None,
            bytes: 0,
            unsettled: 0,
            settled_at: FIRST_SETTLED,
        }
    }

    /// Writes the log to the disk, and puts the next time off if that took long. False if the disk failed.
    fn settle(&mut self) -> bool
        ensures said { L.synced self.old.checks.now self.old.to.now result }
        ensures settled { self.new.unsettled ≡ 0 }
        ensures latest { self.old.settled_at ≤ last_settled → self.new.settled_at ≤ last_settled }
        ensures file { (self.new.checks.now ≡ self.old.checks.now) × (self.new.to.now ≡ self.old.to.now) }
    {
        let is_written = self.checks.sync_log(self.to);
        self.unsettled = 0;
        if self.has_taken(SLOW_MILLIS) {
            self.settled_at = self.settled_at.saturating_mul(2).min(LAST_SETTLED);
        }
        is_written
    }

    /// Whether this many milliseconds have passed since the slice began.
    fn has_taken(&self, millis: u64) -> bool {
        let Some(begun) = self.begun else {
            return false;
        };
        match self.clock.now() {
            Ok(now) => now.duration_since(begun) >= Duration::from_millis(millis),
            Err(_) => false,
        }
    }
}

impl<'a, C: ClockFace, L: FileChecks> Pace for SlicePace<'a, C, L> {
    fn begin(&mut self) -> bool
        ensures begins { Begins (L.synced self.old.checks.now self.old.to.now)
            self.old.unsettled self.old.settled_at self.new.unsettled result }
        ensures latest { self.old.settled_at ≤ last_settled → self.new.settled_at ≤ last_settled }
        ensures file { (self.new.checks.now ≡ self.old.checks.now) × (self.new.to.now ≡ self.old.to.now) }
    {
        self.begun = self.clock.now().ok();
        self.bytes = 0;
        self.unsettled < self.settled_at || self.settle()
    }

    fn note(&mut self, bytes: usize)
        ensures counts { Counts self.old.unsettled bytes self.new.unsettled }
        ensures latest { self.new.settled_at ≡ self.old.settled_at }
        ensures file { (self.new.checks.now ≡ self.old.checks.now) × (self.new.to.now ≡ self.old.to.now) }
    {
        let bytes = bytes.saturating_add(ROW);
        self.bytes = self.bytes.saturating_add(bytes);
        self.unsettled = self.unsettled.saturating_add(bytes);
    }

    fn is_spent(&mut self) -> bool
        ensures unsettled { self.new.unsettled ≡ self.old.unsettled }
        ensures latest { self.new.settled_at ≡ self.old.settled_at }
        ensures file { (self.new.checks.now ≡ self.old.checks.now) × (self.new.to.now ≡ self.old.to.now) }
    {
        self.bytes >= BYTES || self.has_taken(MILLIS)
    }
}
