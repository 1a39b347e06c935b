//! A list of bytes that only proofs read.
ghost use Rattle.std.specs.Prelude.{◌≡◌, ℕ, List, [], ◌++◌};
ghost use Rattle.std.specs.Borrow.{ftrue};

use std::marker::{Model, PhantomData};

/// The bytes that passed. It takes no memory, and its methods do nothing at run time.
#[derive(Drop)]
pub struct Record {
    marker: PhantomData<u8>,
    pub ghost bytes: { List ℕ },
}

impl Model for Record {
    ghost also_owns = { λ _. ftrue };
}

impl Record {
    /// Returns the record of no bytes.
    pub(crate) fn new() -> Record
        ensures { result.bytes ≡ [] }
    {
        Record {
            marker: PhantomData,
        }
    }

    /// Notes that these bytes passed after those before.
    pub(crate) fn note(&mut self, _bytes: &[u8])
        ensures { self.new.bytes ≡ self.old.bytes ++ _bytes.now }
    {}
}
