//! How many calls failed, and why.
ghost use Rattle.std.specs.Prelude.{◌≡◌, ◌+◌};
ghost use Rattle.std.specs.IoError.{error_kind};
ghost use Rattle.histories.specs.Counted.{times};
ghost use Rattle.histories.specs.Failure.{broken_by, failure_of, late_by};

use crate::count::Count;
use crate::failure::Failure;
use std::io;

/// How many calls failed, and how many of these were late or broken. It takes no memory.
#[derive(Drop)]
pub(crate) struct Failures {
    all: Count,
    late: Count,
    broken: Count,
}

impl Failures {
    /// Returns the counts where no call failed.
    pub(crate) fn new() -> Failures
        ensures all { times result.all ≡ 0 }
        ensures late { times result.late ≡ 0 }
        ensures broken { times result.broken ≡ 0 }
    {
        Failures {
            all: Count::new(),
            late: Count::new(),
            broken: Count::new(),
        }
    }

    /// Counts a call that failed with this error.
    pub(crate) fn note(&mut self, error: &io::Error)
        ensures all { times self.new.all ≡ times self.old.all + 1 }
        ensures late { times self.new.late ≡ times self.old.late + late_by (failure_of (error_kind error.now)) }
        ensures broken { times self.new.broken
            ≡ times self.old.broken + broken_by (failure_of (error_kind error.now)) }
    {
        self.all.one_more();
        match Failure::of(error) {
            Failure::Late => self.late.one_more(),
            Failure::Interrupted => {}
            Failure::Broken => self.broken.one_more(),
        }
    }
}
