//! How long a stream may take.
ghost use Rattle.std.specs.Prelude.{◌≡◌, ◌+◌, ◌-◌, ◌^◌, ◌<◌, ◌≤◌, min, IfOk, IfErr, IfSome};
ghost use Rattle.std.specs.Prelude.{MatchOption, Some, None};
ghost use Rattle.std.specs.Duration.{as_nanos};
ghost use Rattle.std.specs.Time.{instant_nanos};

use std::io::{self, ErrorKind};
use std::marker::PhantomData;
use std::time::{Duration, Instant};

/// How much time there is for reads or for writes.
pub trait Deadline {
    ghost use Rattle.std.specs.Prelude.{ℕ, ◌≤◌};

    /// The nanoseconds from the first of them, once so many bytes were moved.
    ghost allowed: { ℕ → ℕ };

    /// Returns the time from the first of them, once so many bytes were moved.
    fn time_for(moved: u64) -> Duration
        ensures { as_nanos result ≡ allowed moved };

    /// More bytes take no time away.
    ghost grows: { (few many : ℕ) → few ≤ many → allowed few ≤ allowed many };
}

/// A time that begins when it is first asked for.
#[derive(Drop)]
pub(crate) struct Watch<P: Deadline> {
    pub(crate) first: Option<Instant>,
    pub(crate) moved: u64,
    deadline: PhantomData<P>,
}

impl<P: Deadline> Watch<P> {
    /// Returns a time that has not begun.
    pub(crate) fn new() -> Watch<P>
        ensures first { result.first ≡ None }
        ensures moved { result.moved ≡ 0 }
    {
        Watch {
            first: None,
            moved: 0,
            deadline: PhantomData,
        }
    }

    /// Returns what is left by this reading of the clock, and begins the time if it has not begun. Fails if nothing is
    /// left.
    pub(crate) fn left(&mut self, now: Instant) -> io::Result<Duration>
        ensures begins { MatchOption self.old.first (self.new.first ≡ Some now) (λ first. self.new.first ≡ Some first) }
        ensures moved { self.new.moved ≡ self.old.moved }
        ensures some { IfOk result (λ left. 0 < as_nanos left) }
        ensures within { IfOk result (λ left. IfSome self.new.first (λ first.
            (instant_nanos now - instant_nanos first) + as_nanos left ≡ P.allowed self.old.moved)) }
        ensures over { IfErr result (λ _. IfSome self.new.first (λ first.
            P.allowed self.old.moved ≤ instant_nanos now - instant_nanos first)) }
    {
        let first = *self.first.get_or_insert(now);
        let time = P::time_for(self.moved);
        match time.checked_sub(now.duration_since(first)) {
            Some(left) if !left.is_zero() => Ok(left),
            _ => Err(io::Error::from(ErrorKind::TimedOut)),
        }
    }

    /// Adds to the bytes that were moved, up to `u64::MAX`.
    pub(crate) fn count(&mut self, bytes: usize)
        ensures first { self.new.first ≡ self.old.first }
        ensures moved { self.new.moved ≡ min (self.old.moved + bytes) (2 ^ 64 - 1) }
    {
        self.moved = self.moved.saturating_add(bytes as u64);
    }
}
