//! A list of calls that only proofs read.
ghost use Rattle.std.specs.Prelude.{◌≡◌, List, [], ◌++◌};
ghost use Rattle.std.specs.Borrow.{ftrue};
ghost use Rattle.histories.specs.declared.call.Call.{Call};

use crate::call::Call;
use std::marker::{Model, PhantomData};

/// The calls that were made, the last of them first. It takes no memory, and its methods do nothing at run time.
#[derive(Drop)]
pub struct Calls {
    marker: PhantomData<u8>,
    pub ghost calls: { List Call },
}

impl Model for Calls {
    ghost also_owns = { λ _. ftrue };
}

impl Calls {
    /// Returns the list of no calls.
    pub(crate) fn new() -> Calls
        ensures { result.calls ≡ [] }
    {
        Calls {
            marker: PhantomData,
        }
    }

    /// Notes that these calls came, the last of them first.
    pub(crate) fn note(&mut self, _calls: &[Call])
        ensures { self.new.calls ≡ _calls.now ++ self.old.calls }
    {}
}
