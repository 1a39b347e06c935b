//! A list of deeds that only clauses read.
ghost use Rattle.std.specs.Prelude.{◌≡◌, ℕ, List, [], ◌∷◌, ◌++◌};
ghost use Rattle.std.specs.Borrow.{ftrue};

use std::marker::{Model, PhantomData};

/// What was done to files, each deed with the name of its file, the oldest first. It takes no memory, and its methods
/// do nothing at run time.
#[derive(Drop)]
pub struct Record<D> {
    marker: PhantomData<D>,
    pub ghost deeds: { List (List ℕ × D) },
}

impl<D> Model for Record<D> {
    ghost also_owns = { λ _. ftrue };
}

impl<D> Record<D> {
    /// Returns a record of no deed.
    pub fn new() -> Record<D>
        ensures { result.deeds ≡ [] }
    {
        Record {
            marker: PhantomData,
        }
    }

    /// Adds a deed with the name of its file.
    pub fn note(&mut self, _name: &[u8], _deed: &D)
        ensures { self.new.deeds ≡ self.old.deeds ++ (_name.now, _deed.now) ∷ [] }
    {}
}
