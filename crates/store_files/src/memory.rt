//! Two files in memory.
ghost use Rattle.std.specs.Prelude.{◌≡◌, [], ◌∷◌, ◌++◌};
ghost use Rattle.store_files.specs.declared.files.Deed.TheVariants.{Closed};

use crate::files::{Deed, OpenFile, StoreFiles, Use};
use crate::record::Record;
use crate::refusal::StoreRefusal;

/// Two files in memory. One has a store, which is there or open. The other has bytes, and is no store.
#[derive(Drop)]
pub struct MemoryStoreFiles<'a, S> {
    name: &'a str,
    other: &'a str,
    held: Option<S>,
    noted: Record<Deed<S>>,
}

impl<'a, S: Drop> MemoryStoreFiles<'a, S> {
    /// Returns a file of this name with a store, and another file that has bytes. Nothing was done to either.
    pub fn new(name: &'a str, other: &'a str, store: S) -> MemoryStoreFiles<'a, S>
        ensures { ⟦<MemoryStoreFiles<'a, S> as StoreFiles<S, S>>⟧.history result ≡ [] }
    {
        MemoryStoreFiles {
            name,
            other,
            held: Some(store),
            noted: Record::new(),
        }
    }
}

impl<'a, S: Drop> StoreFiles<S, S> for MemoryStoreFiles<'a, S> {
    ghost history = { λ f. f.noted.deeds };

    ghost begins = { λ _. Unit {0} };

    ghost left = { λ s. s };

    fn holds_bytes(&mut self, name: &str) -> bool {
        let holds = name == self.other;
        self.noted.note(name.as_bytes(), &Deed::Looked(holds));
        holds
    }

    /// Fails with `Device` if there is no such file, or it is open.
    fn open<'n>(&mut self, name: &'n str, purpose: Use) -> Result<OpenFile<'n, S>, StoreRefusal> {
        if name == self.name {
            if let Some(store) = self.held.take() {
                self.noted.note(name.as_bytes(), &Deed::Opened(purpose));
                return Ok(OpenFile { store, name });
            }
        }
        let refusal = StoreRefusal::Device;
        self.noted.note(name.as_bytes(), &Deed::Refused(refusal));
        Err(refusal)
    }

    fn close<'n>(&mut self, file: OpenFile<'n, S>)
        ensures { self.new.noted.deeds
            ≡ self.old.noted.deeds ++ (file.entry.name.now, Closed file.entry.store) ∷ [] }
    {
        let deed = Deed::Closed(file.store);
        self.noted.note(file.name.as_bytes(), &deed);
        if let Deed::Closed(store) = deed {
            self.held = Some(store);
        }
    }
}
