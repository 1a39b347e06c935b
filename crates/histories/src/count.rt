//! A count that only proofs read.
ghost use Rattle.std.specs.Prelude.{◌≡◌, ◌+◌};
ghost use Rattle.histories.specs.Counted.{times};

use crate::record::Record;

/// How often something happened. It takes no memory, and its methods do nothing at run time.
#[derive(Drop)]
pub struct Count {
    noted: Record,
}

impl Count {
    /// Returns the count of what never happened.
    pub fn new() -> Count
        ensures { times result ≡ 0 }
    {
        Count {
            noted: Record::new(),
        }
    }

    /// Counts once more.
    pub fn one_more(&mut self)
        ensures { times self.new ≡ times self.old + 1 }
    {
        self.noted.note(b".");
    }
}
