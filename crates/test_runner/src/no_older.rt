//! A system with no older store.
ghost use Rattle.std.specs.Prelude.{◌≡◌, [], ◌∷◌, ◌++◌};
ghost use Rattle.store_files.specs.declared.files.Deed.TheVariants.{Closed};

use memory_store::map_shelves::MapShelves;
use runner::older_files::OlderFiles;
use runner::temporary_files::TemporaryFiles;
use store_files::files::{Deed, OpenFile, StoreFiles, Use};
use store_files::record::Record;
use store_files::refusal::StoreRefusal;

/// Files of which none holds an older store.
#[derive(Drop)]
pub struct NoOlderFiles {
    pub noted: Record<Deed<MapShelves>>,
}

impl StoreFiles<MapShelves, MapShelves> for NoOlderFiles {
    ghost history = { λ f. f.noted.deeds };

    ghost begins = { λ _. Unit {0} };

    ghost left = { λ s. s };

    fn holds_bytes(&mut self, name: &str) -> bool {
        self.noted.note(name.as_bytes(), &Deed::Looked(false));
        false
    }

    fn open<'n>(
        &mut self,
        name: &'n str,
        _purpose: Use,
    ) -> Result<OpenFile<'n, MapShelves>, StoreRefusal> {
        self.noted
            .note(name.as_bytes(), &Deed::Refused(StoreRefusal::Device));
        Err(StoreRefusal::Device)
    }

    fn close<'n>(&mut self, file: OpenFile<'n, MapShelves>)
        ensures { self.new.noted.deeds
            ≡ self.old.noted.deeds ++ (file.entry.name.now, Closed file.entry.store) ∷ [] }
    {
        self.noted
            .note(file.name.as_bytes(), &Deed::Closed(file.store));
    }
}

impl OlderFiles<MapShelves> for NoOlderFiles {
    fn copy(&mut self, from: &str, _beside: &str) -> Result<TemporaryFiles, StoreRefusal> {
        self.noted
            .note(from.as_bytes(), &Deed::Refused(StoreRefusal::Device));
        Err(StoreRefusal::Device)
    }

    fn open_unnamed<'n>(
        &mut self,
        copy: &'n TemporaryFiles,
    ) -> Result<OpenFile<'n, MapShelves>, StoreRefusal> {
        let refusal = StoreRefusal::Device;
        self.noted
            .note(copy.path.as_bytes(), &Deed::RefusedUnnamed(refusal));
        self.noted.note(copy.log.as_bytes(), &Deed::Unlinked);
        Err(refusal)
    }
}
