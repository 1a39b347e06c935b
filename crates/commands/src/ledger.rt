//! A list of what was given, which only proofs read.
ghost use Rattle.std.specs.Prelude.{◌≡◌, ℕ, List, [], ◌∷◌, ◌++◌};
ghost use Rattle.std.specs.Borrow.{ftrue};

use std::marker::{Model, PhantomData};

/// What something gave, as bytes, the oldest first. It takes no memory, and its methods do nothing at run time.
#[derive(Drop)]
pub struct Ledger {
    marker: PhantomData<u8>,
    pub ghost entries: { List (List ℕ) },
}

impl Model for Ledger {
    ghost also_owns = { λ _. ftrue };
}

impl Ledger {
    /// Returns the ledger of no entries.
    pub fn new() -> Ledger
        ensures { result.entries ≡ [] }
    {
        Ledger {
            marker: PhantomData,
        }
    }

    /// Notes that this was given after what was given before.
    pub fn note(&mut self, _entry: &[u8])
        ensures { self.new.entries ≡ self.old.entries ++ _entry.now ∷ [] }
    {}
}
