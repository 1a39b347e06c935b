//! The store that a peer is answered from.
ghost use Rattle.std.specs.Prelude.{◌≡◌, true, Err};
ghost use Rattle.std.specs.FinMap as map;
ghost use Rattle.std.specs.Option.{ForSome};
ghost use Rattle.control.specs.Noted.{CountsIf, CountsOrNotes, CountsUnheld, CountsUnmet, NotesFault, noted_line};
ghost use Rattle.control.specs.Notices.{IsLineAbout, IsOfFault};
ghost use Rattle.control.specs.Traffic.{was_found, was_published};
ghost use Rattle.control.specs.declared.store_call.StoreCall.TheVariants as errand;
ghost use Rattle.modver.specs.SemanticVersion.{version_text};
ghost use Rattle.world.specs.Latest.{latest_of};
ghost use Rattle.world.specs.Standing.{standing};
ghost use Rattle.world.specs.Store.{DoesWhere, IsRoomFor, Reads};
ghost use Rattle.world.specs.Versions.{versions_of};
ghost use Rattle.world.specs.Visible.{paths_seen};
ghost use Rattle.world.specs.World.{count, heading, place, view, with_entry};

use crate::notice::{Noted, met};
use crate::store_call::StoreCall;
use crate::traffic::{Traffic, Transfer};
use modpath::ModulePath;
use modver::Version;
use std::alloc::Global;
use std::marker::{Brand, PhantomData};
use world::entry::{EntryRef, Heading, Holder, Right, Seen};
use world::registry::{RegistryReply, StoreFault};
use world::shelves::Shelves;
use world::standing::Standing;
use world::text_set::TextSet;
use world::version_list::Versions;

/// The moment at which a peer came. Only proofs read it, and the caller picks it.
pub(crate) trait Arrival {
    ghost use Rattle.std.specs.Prelude.{ℕ, Bool};
    ghost use Rattle.world.specs.World.{World};
    ghost use Rattle.control.specs.declared.traffic.Traffic.{Traffic};

    /// The name of the loan.
    ghost name: { ℕ };

    /// The worlds that the store stood for.
    ghost was: { World → Type 0 };

    /// Whether publishes were held back.
    ghost held: { Bool };

    /// The counts of the shelves.
    ghost before: { Traffic };
}

impl Arrival for Brand {
    ghost use Rattle.std.specs.Prelude.{false};
    ghost use Rattle.std.specs.FinMap as map;

    ghost name = { 0 };

    ghost was = { λ _. Unit {0} };

    ghost held = { false };

    ghost before = { record { shelves = map.empty } };
}

/// A store that is lent for the answer to a peer. It answers as the store inside does, notes the last fault that it
/// met, and counts the publishes and fetches of each shelf.
#[derive(Drop)]
pub(crate) struct PeerStore<'a, M: Arrival, S: Shelves> {
    alloc: Global,
    pub(crate) inner: &'a mut S,
    pub(crate) notice: Option<Noted>,
    pub(crate) traffic: Traffic,
    /// Whether each publish is refused that would store a version.
    pub(crate) is_held: bool,
    arrival: PhantomData<M>,
    ghost same: { inner.ghost_name ≡ M.name },
    ghost hold: { is_held ≡ M.held },
    ghost of_fault: { ForSome notice (λ noted. IsLineAbout IsOfFault (noted_line noted)) },
}

impl<'a, M: Arrival, S: Shelves> PeerStore<'a, M, S> {
    /// Returns the store, with what was counted so far and nothing noted.
    pub(crate) fn new(
        alloc: Global,
        inner: &'a mut S,
        traffic: Traffic,
        is_held: bool,
    ) -> PeerStore<'a, M, S>
        requires name { inner.ghost_name ≡ M.name }
        requires held { M.held ≡ is_held }
        ensures same { result.inner.ghost_name ≡ inner.entry.ghost_name }
        ensures value { result.inner.now ≡ inner.old }
        ensures counts { result.traffic ≡ traffic }
    {
        PeerStore {
            alloc,
            inner,
            notice: None,
            traffic,
            is_held,
            arrival: PhantomData,
        }
    }

    /// Notes the fault of a call, if it met one.
    fn note_fault<T>(&mut self, errand: &StoreCall, told: &Result<T, StoreFault>)
        ensures same { self.new.inner ≡ self.old.inner }
        ensures counts { self.new.traffic ≡ self.old.traffic }
        ensures noted { NotesFault errand.now told.now self.old.notice self.new.notice }
    {
        if let Err(fault) = told {
            self.notice = Some(met(self.alloc, errand, *fault));
        }
    }

    /// Counts one transfer of a shelf. If memory runs out for the counts of the shelf, that is noted.
    fn count_one(&mut self, shelf: &str, transfer: Transfer)
        ensures same { self.new.inner ≡ self.old.inner }
        ensures counts { CountsOrNotes transfer shelf.now self.old.traffic self.new.traffic
            self.old.notice self.new.notice }
    {
        match self.traffic.count(self.alloc, shelf, transfer) {
            Ok(()) => {}
            Err(why) => self.notice = Some(Err(why)),
        }
    }

    /// Counts a fetch of a shelf if its zip was found.
    fn count_fetch(&mut self, shelf: &str, told: &Result<Option<Seen>, StoreFault>)
        ensures same { self.new.inner ≡ self.old.inner }
        ensures counts { CountsIf (was_found told.now) Transfer.Fetch shelf.now self.old.traffic self.new.traffic
            self.old.notice self.new.notice }
    {
        if let Ok(Some(_)) = told {
            self.count_one(shelf, Transfer::Fetch);
        }
    }

    /// Counts a publish to a shelf if the store kept it.
    fn count_publish(&mut self, shelf: &str, told: &Result<(), StoreFault>)
        ensures same { self.new.inner ≡ self.old.inner }
        ensures counts { CountsIf (was_published told.now) Transfer.Publish shelf.now
            self.old.traffic self.new.traffic self.old.notice self.new.notice }
    {
        if let Ok(()) = told {
            self.count_one(shelf, Transfer::Publish);
        }
    }
}

/// Of each world that it stands for, it is said that what was published is counted.
impl<'a, M: Arrival, S: Shelves> Shelves for PeerStore<'a, M, S> {
    ghost use Rattle.interleave.specs.Noted.{with_said};
    ghost use Rattle.control.specs.Counted.{HasCounted};

    ghost shown = { λ p. with_said (S.shown p.inner.now)
        (HasCounted M.was M.held M.before p.traffic p.notice) };

    fn failures(&self) -> u64 {
        self.inner.failures()
    }

    fn key(&mut self, key: &str) -> Result<Option<Holder>, StoreFault>
        ensures reads { Reads (⟦<PeerStore<'a, M, S> as Shelves>⟧.shown self.old)
            (⟦<PeerStore<'a, M, S> as Shelves>⟧.shown self.new) result
            (λ w. map.get w.keys key.now) }
        ensures counts { self.new.traffic ≡ self.old.traffic }
        ensures noted { NotesFault errand.Key result self.old.notice self.new.notice }
    {
        let told = self.inner.key(key);
        self.note_fault(&StoreCall::Key, &told);
        told
    }

    fn entry(
        &mut self,
        shelf: &str,
        path: &ModulePath,
        version: &Version,
    ) -> Result<Option<Seen>, StoreFault>
        ensures reads { Reads (⟦<PeerStore<'a, M, S> as Shelves>⟧.shown self.old)
            (⟦<PeerStore<'a, M, S> as Shelves>⟧.shown self.new) result
            (λ w. view w shelf.now path.now (version_text version.now)) }
        ensures counts { CountsUnmet (was_found result) (errand.FetchVersion path.entry version.entry) result
            Transfer.Fetch shelf.now self.old.traffic self.new.traffic self.old.notice self.new.notice }
    {
        let told = self.inner.entry(shelf, path, version);
        self.note_fault(&StoreCall::FetchVersion { path, version }, &told);
        self.count_fetch(shelf, &told);
        told
    }

    fn heading(
        &mut self,
        shelf: &str,
        path: &ModulePath,
        version: &Version,
    ) -> Result<Option<Heading>, StoreFault>
        ensures reads { Reads (⟦<PeerStore<'a, M, S> as Shelves>⟧.shown self.old)
            (⟦<PeerStore<'a, M, S> as Shelves>⟧.shown self.new) result
            (λ w. heading w shelf.now path.now (version_text version.now)) }
        ensures counts { self.new.traffic ≡ self.old.traffic }
        ensures noted { NotesFault (errand.FetchVersion path.entry version.entry) result
            self.old.notice self.new.notice }
    {
        let told = self.inner.heading(shelf, path, version);
        self.note_fault(&StoreCall::FetchVersion { path, version }, &told);
        told
    }

    fn compare(
        &mut self,
        shelf: &str,
        path: &ModulePath,
        version: &Version,
        entry: &EntryRef,
    ) -> Result<Standing, StoreFault>
        ensures reads { Reads (⟦<PeerStore<'a, M, S> as Shelves>⟧.shown self.old)
            (⟦<PeerStore<'a, M, S> as Shelves>⟧.shown self.new) result
            (λ w. standing w shelf.now path.now (version_text version.now) entry.now) }
        ensures counts { self.new.traffic ≡ self.old.traffic }
        ensures noted { NotesFault (errand.PublishVersion path.entry version.entry) result
            self.old.notice self.new.notice }
    {
        let told = self.inner.compare(shelf, path, version, entry);
        self.note_fault(&StoreCall::PublishVersion { path, version }, &told);
        told
    }

    fn versions(&mut self, shelf: &str, path: &ModulePath) -> Result<Versions, StoreFault>
        ensures reads { Reads (⟦<PeerStore<'a, M, S> as Shelves>⟧.shown self.old)
            (⟦<PeerStore<'a, M, S> as Shelves>⟧.shown self.new) result
            (λ w. versions_of w shelf.now path.now) }
        ensures counts { self.new.traffic ≡ self.old.traffic }
        ensures noted { NotesFault (errand.Fetch path.entry) result self.old.notice self.new.notice }
    {
        let told = self.inner.versions(shelf, path);
        self.note_fault(&StoreCall::Fetch { path }, &told);
        told
    }

    fn latest(&mut self, shelf: &str, path: &ModulePath) -> Result<Option<Version>, StoreFault>
        ensures reads { Reads (⟦<PeerStore<'a, M, S> as Shelves>⟧.shown self.old)
            (⟦<PeerStore<'a, M, S> as Shelves>⟧.shown self.new) result
            (λ w. latest_of w shelf.now path.now) }
        ensures counts { self.new.traffic ≡ self.old.traffic }
        ensures noted { NotesFault (errand.Fetch path.entry) result self.old.notice self.new.notice }
    {
        let told = self.inner.latest(shelf, path);
        self.note_fault(&StoreCall::Fetch { path }, &told);
        told
    }

    fn paths(&mut self, shelf: &str) -> Result<TextSet, StoreFault>
        ensures reads { Reads (⟦<PeerStore<'a, M, S> as Shelves>⟧.shown self.old)
            (⟦<PeerStore<'a, M, S> as Shelves>⟧.shown self.new) result
            (λ w. paths_seen w shelf.now) }
        ensures counts { self.new.traffic ≡ self.old.traffic }
        ensures noted { NotesFault errand.Modules result self.old.notice self.new.notice }
    {
        let told = self.inner.paths(shelf);
        self.note_fault(&StoreCall::Modules, &told);
        told
    }

    fn count(&mut self, shelf: &str, path: &ModulePath) -> Result<u64, StoreFault>
        ensures reads { Reads (⟦<PeerStore<'a, M, S> as Shelves>⟧.shown self.old)
            (⟦<PeerStore<'a, M, S> as Shelves>⟧.shown self.new) result
            (λ w. count w shelf.now path.now) }
        ensures counts { self.new.traffic ≡ self.old.traffic }
        ensures noted { NotesFault (errand.Publish path.entry) result self.old.notice self.new.notice }
    {
        let told = self.inner.count(shelf, path);
        self.note_fault(&StoreCall::Publish { path }, &told);
        told
    }

    fn insert(
        &mut self,
        shelf: &str,
        path: &ModulePath,
        version: &Version,
        entry: &EntryRef,
    ) -> Result<(), StoreFault>
        ensures does { DoesWhere (λ w. IsRoomFor w (place shelf.now path.now (version_text version.now)) entry.now)
            (⟦<PeerStore<'a, M, S> as Shelves>⟧.shown self.old)
            (⟦<PeerStore<'a, M, S> as Shelves>⟧.shown self.new) result (λ _. tt)
            (λ w. with_entry w (place shelf.now path.now (version_text version.now)) entry.now) }
        ensures counts { CountsUnheld self.old.is_held (errand.PublishVersion path.entry version.entry) result
            shelf.now self.old.traffic self.new.traffic self.old.notice self.new.notice }
        // A publish that is held back reaches no store.
        ensures held { self.old.is_held ≡ true
            → (result ≡ Err StoreFault.Memory) × (self.new.inner ≡ self.old.inner) }
    {
        if self.is_held {
            // No disk failed, so this is not `Device`.
            return Err(StoreFault::Memory);
        }
        let told = self.inner.insert(shelf, path, version, entry);
        self.note_fault(&StoreCall::PublishVersion { path, version }, &told);
        self.count_publish(shelf, &told);
        told
    }

    fn team_add(&mut self, name: &str, group: Option<&str>) -> Result<RegistryReply, StoreFault> {
        self.inner.team_add(name, group)
    }

    fn group_add(&mut self, name: &str) -> Result<RegistryReply, StoreFault> {
        self.inner.group_add(name)
    }

    fn key_add(
        &mut self,
        shelf: &str,
        key: &str,
        right: Right,
    ) -> Result<RegistryReply, StoreFault> {
        self.inner.key_add(shelf, key, right)
    }

    fn key_revoke(&mut self, key: &str) -> Result<RegistryReply, StoreFault> {
        self.inner.key_revoke(key)
    }

    fn keys_revoke(&mut self, shelf: &str) -> Result<RegistryReply, StoreFault> {
        self.inner.keys_revoke(shelf)
    }

    ghost sound = { λ p w stands. S.sound p.inner.now w stands.0 };

    ghost wider = { λ p. S.wider p.inner.now };
}
