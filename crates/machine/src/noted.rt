//! A list of calls that only clauses read.
ghost use Rattle.std.specs.Prelude.{◌≡◌, List, [], ◌∷◌, ◌++◌};
ghost use Rattle.std.specs.Borrow.{ftrue};
ghost use Rattle.machine.specs.Calls.{Call, call_by};

use crate::traced_shelves::Outcome;
use std::marker::{Model, PhantomData};

/// The calls that were made to a store, the oldest first. It takes no memory, and its methods do nothing at run time.
#[derive(Drop)]
pub struct Noted {
    marker: PhantomData<u8>,
    pub ghost calls: { List Call },
}

impl Model for Noted {
    ghost also_owns = { λ _. ftrue };
}

impl Noted {
    /// Returns the list of no call.
    pub(crate) fn new() -> Noted
        ensures { result.calls ≡ [] }
    {
        Noted {
            marker: PhantomData,
        }
    }

    /// Adds a call: with which key or of which shelf, at which path and version, and its outcome.
    pub(crate) fn note(&mut self, _of: &[u8], _path: &[u8], _version: &[u8], _outcome: &Outcome)
        ensures { self.new.calls ≡ self.old.calls ++ call_by _of.now _path.now _version.now _outcome.now ∷ [] }
    {}
}
