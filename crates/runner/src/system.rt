//! The files of the system. That these lines do what they note, and no more, is read and not proved.
ghost use Rattle.std.specs.Prelude.{◌≡◌, [], ◌∷◌, ◌++◌, IfErr, IfOk};
ghost use Rattle.runner.specs.Migrate.{IsOlder};
ghost use Rattle.sqlite.specs.Held.{state};
ghost use Rattle.sqlite_wal.specs.Files.{image_at};
ghost use Rattle.store_files.specs.Refusal.{IsOfOpening};
ghost use Rattle.store_files.specs.declared.files.Deed.TheVariants.{Closed};

use crate::copies::CopyTargets;
use crate::found::{AsFound, ClosedFile, Found, FoundTables, OpenedStore};
use crate::old_file::copy_of;
use crate::older_files::OlderFiles;
use crate::open::open_for;
use crate::opening::show_opening;
use crate::reserve::SystemReserve;
use crate::temporary_files::TemporaryFiles;
use commands::files::{holds_bytes, size_of_file};
use commands::progress::StderrLine;
use control::BegunCopy;
use sqlite::Start;
use sqlite_trees::store::Store;
use std::rt::HostRuntime;
use store::files::PageRoom;
use store::open_older::open_older;
use store_files::files::{Deed, OpenFile, StoreFiles, Use};
use store_files::record::Record;
use store_files::refusal::StoreRefusal;
use world::shelves::Shelves;

/// The files of the system with the stores in them.
#[derive(Drop)]
pub struct SystemStoreFiles<'a> {
    rt: &'a HostRuntime,
    room: PageRoom,
    noted: Record<Deed<ClosedFile>>,
}

impl<'a> SystemStoreFiles<'a> {
    /// Returns the files of the system, to which nothing was done. Each is opened with this room in memory.
    pub fn new(rt: &'a HostRuntime, room: PageRoom) -> SystemStoreFiles<'a>
        ensures { result.noted.deeds ≡ [] }
    {
        SystemStoreFiles {
            rt,
            room,
            noted: Record::new(),
        }
    }
}

impl<'a> StoreFiles<OpenedStore, ClosedFile> for SystemStoreFiles<'a> {
    ghost use Rattle.sqlite_wal.specs.Files.{image_at};
    ghost use Rattle.runner.specs.Opened.{HasBegun};

    ghost history = { λ f. f.noted.deeds };

    ghost begins = { λ s. HasBegun ⟦<Found as Shelves>⟧.shown (image_at ⟦<AsFound as Start>⟧) s.shelves };

    ghost left = { λ s. record { connection = s.shelves.conn } };

    fn holds_bytes(&mut self, name: &str) -> bool {
        let holds = holds_bytes(self.rt, name);
        self.noted.note(name.as_bytes(), &Deed::Looked(holds));
        holds
    }

    fn open<'n>(
        &mut self,
        name: &'n str,
        purpose: Use,
    ) -> Result<OpenFile<'n, OpenedStore>, StoreRefusal> {
        let line = StderrLine::on_stderr(self.rt, "open");
        show_opening(self.rt.alloc(), &line, size_of_file(self.rt, name));
        let opened = open_for(self.rt, name, AsFound, purpose, self.room);
        line.clear();
        match opened {
            Ok(shelves) => {
                self.noted.note(name.as_bytes(), &Deed::Opened(purpose));
                Ok(OpenFile {
                    store: OpenedStore { shelves },
                    name,
                })
            }
            Err(refusal) => {
                self.noted.note(name.as_bytes(), &Deed::Refused(refusal));
                Err(refusal)
            }
        }
    }

    /// The connection is noted as it is dropped, so no statement runs after the note.
    fn close<'n>(&mut self, file: OpenFile<'n, OpenedStore>)
        ensures { self.new.noted.deeds ≡ self.old.noted.deeds
            ++ (file.entry.name.now, Closed (record { connection = file.entry.store.shelves.conn })) ∷ [] }
    {
        let OpenedStore { shelves } = file.store;
        let connection = shelves.close();
        self.noted.note(
            file.name.as_bytes(),
            &Deed::Closed(ClosedFile { connection }),
        );
    }
}

impl<'a> CopyTargets for SystemStoreFiles<'a> {
    fn afresh(&self, _begun: BegunCopy<'_, SystemReserve<'_>>) -> SystemStoreFiles<'a> {
        SystemStoreFiles::new(self.rt, self.room)
    }
}

/// The files of the system with the older stores in them.
#[derive(Drop)]
pub struct SystemOlderFiles<'a> {
    rt: &'a HostRuntime,
    noted: Record<Deed<ClosedFile>>,
}

impl<'a> SystemOlderFiles<'a> {
    /// Returns the files of the system, to which nothing was done.
    pub fn new(rt: &'a HostRuntime) -> SystemOlderFiles<'a>
        ensures { result.noted.deeds ≡ [] }
    {
        SystemOlderFiles {
            rt,
            noted: Record::new(),
        }
    }
}

impl<'a> StoreFiles<ClosedFile, ClosedFile> for SystemOlderFiles<'a> {
    ghost use Rattle.sqlite.specs.Held.{state};
    ghost use Rattle.sqlite_wal.specs.Files.{image_at};
    ghost use Rattle.runner.specs.Migrate.{IsOlder};

    ghost history = { λ f. f.noted.deeds };

    ghost begins = { λ c. IsOlder (state ⟦<FoundTables as Store>⟧) (image_at ⟦<AsFound as Start>⟧) c.connection };

    ghost left = { λ c. c };

    fn holds_bytes(&mut self, name: &str) -> bool {
        let holds = holds_bytes(self.rt, name);
        self.noted.note(name.as_bytes(), &Deed::Looked(holds));
        holds
    }

    fn open<'n>(
        &mut self,
        name: &'n str,
        purpose: Use,
    ) -> Result<OpenFile<'n, ClosedFile>, StoreRefusal> {
        match older_at(self.rt, name) {
            Ok(store) => {
                self.noted.note(name.as_bytes(), &Deed::Opened(purpose));
                Ok(OpenFile { store, name })
            }
            Err(refusal) => {
                self.noted.note(name.as_bytes(), &Deed::Refused(refusal));
                Err(refusal)
            }
        }
    }

    fn close<'n>(&mut self, file: OpenFile<'n, ClosedFile>)
        ensures { self.new.noted.deeds
            ≡ self.old.noted.deeds ++ (file.entry.name.now, Closed file.entry.store) ∷ [] }
    {
        self.noted
            .note(file.name.as_bytes(), &Deed::Closed(file.store));
    }
}

impl<'a> OlderFiles<ClosedFile> for SystemOlderFiles<'a> {
    fn copy(&mut self, from: &str, beside: &str) -> Result<TemporaryFiles, StoreRefusal> {
        match copy_of(self.rt, from, beside) {
            Ok(copy) => {
                self.noted.note(from.as_bytes(), &Deed::Copied);
                self.noted.note(beside.as_bytes(), &Deed::Joined);
                self.noted.note(copy.path.as_bytes(), &Deed::Made);
                self.noted.note(copy.log.as_bytes(), &Deed::Made);
                Ok(copy)
            }
            Err(refusal) => {
                self.noted.note(from.as_bytes(), &Deed::Refused(refusal));
                Err(refusal)
            }
        }
    }

    fn open_unnamed<'n>(
        &mut self,
        copy: &'n TemporaryFiles,
    ) -> Result<OpenFile<'n, ClosedFile>, StoreRefusal> {
        let opened = older_at(self.rt, copy.path.as_str());
        copy.unlink(self.rt);
        match opened {
            Ok(store) => {
                self.noted.note(copy.path.as_bytes(), &Deed::OpenedUnnamed);
                self.noted.note(copy.log.as_bytes(), &Deed::Unlinked);
                Ok(OpenFile {
                    store,
                    name: copy.path.as_str(),
                })
            }
            Err(refusal) => {
                self.noted
                    .note(copy.path.as_bytes(), &Deed::RefusedUnnamed(refusal));
                self.noted.note(copy.log.as_bytes(), &Deed::Unlinked);
                Err(refusal)
            }
        }
    }
}

/// Opens the older store of a file. Fails as [`open_older`] does.
fn older_at(rt: &HostRuntime, name: &str) -> Result<ClosedFile, StoreRefusal>
    ensures begun { IfOk result (λ c. IsOlder (state ⟦<FoundTables as Store>⟧) (image_at ⟦<AsFound as Start>⟧)
        c.connection) }
    ensures opening { IfErr result IsOfOpening }
{
    match open_older(rt, name, AsFound) {
        Ok(connection) => Ok(ClosedFile { connection }),
        Err((refusal, _)) => Err(refusal),
    }
}
