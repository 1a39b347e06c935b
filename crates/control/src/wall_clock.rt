//! What shows the time.
use modver::TimeText;

/// What shows the time, and keeps account of what it showed.
pub trait WallClock {
    ghost use Rattle.std.specs.Prelude.{ℕ, List, Option};
    ghost use Rattle.control.specs.WallClock.{Shows};

    /// What it showed so far, the oldest first: a time, or none where it could not be read.
    ghost shown: { Self → List (Option (List ℕ)) };

    /// Returns the time in UTC, to the second. None if it can't be read.
    fn time_now(&mut self) -> Option<TimeText>
        ensures { Shows (shown self.old) (shown self.new) result };
}
