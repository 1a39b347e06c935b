//! How far a server has come.
ghost use Rattle.std.specs.Prelude.{◌≡◌, ◌≤◌, ◌+◌, ◌-◌, ◌||◌, [], false, IsTrue};
ghost use Rattle.control.specs.Health.{AreBelow, tally_of, with_one};
ghost use Rattle.control.specs.Progress.{IsGoing, IsOver};

use crate::tally::Tally;
use engine::Io;
use modver::TimeText;

/// How far a server has come.
#[derive(Clone, Copy, Drop)]
pub(crate) struct Progress {
    /// How the connections so far were answered.
    pub(crate) tally: Tally,
    /// The connections that are left.
    pub(crate) left: u32,
    /// The callers who came, and the connections that could not be taken.
    pub(crate) taken: u64,
    /// Whether an operator was told that the server ends.
    pub(crate) stops: bool,
    ghost room: { AreBelow (4_294_967_296 - left) tally },
    ghost fits: { taken ≤ 18_446_744_073_709_551_615 },
}

impl Progress {
    /// The progress of a server that begins.
    pub(crate) fn new(since: TimeText, connections: u32) -> Progress
        ensures tally { result.tally ≡ tally_of since [] }
        ensures left { result.left ≡ connections }
        ensures taken { result.taken ≡ 0 }
        ensures stops { result.stops ≡ false }
    {
        Progress {
            tally: Tally::new(since),
            left: connections,
            taken: 0,
            stops: false,
        }
    }

    /// Whether no caller is to be taken any more.
    pub(crate) fn is_over(&self) -> bool
        ensures goes { result ≡ false → IsGoing self.now.stops self.now.left self.now.taken }
        ensures over { IsTrue result → IsOver self.now.stops self.now.left self.now.taken }
    {
        self.stops || self.left == 0 || self.taken == u64::MAX
    }

    /// Counts a connection by what became of it.
    pub(crate) fn count_peer(&mut self, answered: Result<Option<u16>, Io>)
        requires { IsGoing self.old.stops self.old.left self.old.taken }
        ensures tally { self.new.tally ≡ with_one self.old.tally answered }
        ensures left { self.old.left ≡ self.new.left + 1 }
        ensures taken { self.new.taken ≡ self.old.taken + 1 }
        ensures stops { self.new.stops ≡ self.old.stops }
    {
        let mut tally = self.tally;
        tally.count(answered);
        *self = Progress {
            tally,
            left: self.left - 1,
            taken: self.taken + 1,
            stops: self.stops,
        };
    }

    /// Counts a connection that could not be taken.
    pub(crate) fn count_untaken(&mut self)
        requires { IsGoing self.old.stops self.old.left self.old.taken }
        ensures tally { self.new.tally ≡ self.old.tally }
        ensures left { self.old.left ≡ self.new.left + 1 }
        ensures taken { self.new.taken ≡ self.old.taken + 1 }
        ensures stops { self.new.stops ≡ self.old.stops }
    {
        *self = Progress {
            tally: self.tally,
            left: self.left - 1,
            taken: self.taken + 1,
            stops: self.stops,
        };
    }

    /// Counts an operator.
    pub(crate) fn count_operator(&mut self)
        requires { IsGoing self.old.stops self.old.left self.old.taken }
        ensures tally { self.new.tally ≡ self.old.tally }
        ensures left { self.new.left ≡ self.old.left }
        ensures taken { self.new.taken ≡ self.old.taken + 1 }
        ensures stops { self.new.stops ≡ self.old.stops }
    {
        self.taken += 1;
    }

    /// Notes whether an operator was told that the server ends.
    pub(crate) fn end_if(&mut self, stops: bool)
        ensures tally { self.new.tally ≡ self.old.tally }
        ensures left { self.new.left ≡ self.old.left }
        ensures taken { self.new.taken ≡ self.old.taken }
        ensures stops { self.new.stops ≡ (self.old.stops || stops) }
    {
        self.stops = self.stops || stops;
    }
}
