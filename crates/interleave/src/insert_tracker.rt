//! A store that is lent for a turn between two slices of its copy.
ghost use Rattle.std.specs.Prelude.{◌≡◌, false};
ghost use Rattle.modver.specs.SemanticVersion.{version_text};
ghost use Rattle.world.specs.World.{place};
ghost use Rattle.interleave.specs.Noted.{NotesPlace};

use crate::newcomers::Newcomers;
use keyring::Keyring;
use modpath::ModulePath;
use modver::Version;
use std::alloc::Global;
use std::marker::{Brand, PhantomData};
use text::Text;
use world::entry::{EntryRef, Heading, Holder, Place, Right, Seen};
use world::registry::{RegistryReply, StoreFault};
use world::shelves::Shelves;
use world::standing::Standing;
use world::text_set::TextSet;
use world::version_list::Versions;

/// The moment at which a store was lent. Only proofs read it, and the caller picks it.
pub trait Moment {
    ghost use Rattle.std.specs.Prelude.{ℕ};
    ghost use Rattle.std.specs.FinSet as set;
    ghost use Rattle.world.specs.World.{World, place_cmp};

    /// The name of the loan.
    ghost name: { ℕ };

    /// The worlds that the store stood for.
    ghost was: { World → Type 0 };

    /// The newcomers before it.
    ghost before: { set.FinSet place_cmp };
}

impl Moment for Brand {
    ghost use Rattle.std.specs.FinSet as set;

    ghost name = { 0 };

    ghost was = { λ _. Unit {0} };

    ghost before = { set.empty };
}

/// A store that is lent, which notes the places of the versions that may have been published in it.
#[derive(Drop)]
pub struct InsertTracker<'a, M: Moment, S: Shelves> {
    alloc: Global,
    /// The store.
    pub inner: &'a mut S,
    /// The newcomers since a moment.
    pub news: Newcomers,
    /// Whether a place was not noted, because memory ran out for it.
    pub lost: bool,
    moment: PhantomData<M>,
    ghost same: { inner.ghost_name ≡ M.name },
}

impl<'a, M: Moment, S: Shelves> InsertTracker<'a, M, S> {
    /// Returns the store, with the newcomers so far.
    pub fn new(alloc: Global, inner: &'a mut S, news: Newcomers) -> InsertTracker<'a, M, S>
        requires { inner.ghost_name ≡ M.name }
        ensures same { result.inner.ghost_name ≡ inner.entry.ghost_name }
        ensures value { result.inner.now ≡ inner.old }
        ensures news { result.news ≡ news }
        ensures lost { result.lost ≡ false }
    {
        InsertTracker {
            alloc,
            inner,
            news,
            lost: false,
            moment: PhantomData,
        }
    }

    /// Notes a place, or that it was not noted.
    fn note(&mut self, shelf: &str, path: &ModulePath, version: &Version)
        ensures same { self.new.inner ≡ self.old.inner }
        ensures notes { NotesPlace self.old.news self.new.news self.old.lost self.new.lost
            (place shelf.now path.now (version_text version.now)) }
    {
        let noted = match Place::new(self.alloc, shelf, path.as_str(), version.as_str()) {
            Ok(place) => self.news.note(place).is_ok(),
            Err(_) => false,
        };
        if !noted {
            self.lost = true;
        }
    }
}

impl<'a, M: Moment, S: Shelves> Shelves for InsertTracker<'a, M, S> {
    ghost use Rattle.interleave.specs.Noted.{IsNoted, with_said};

    ghost shown = { λ n. with_said (S.shown n.inner.now) (IsNoted n.lost M.was M.before n.news) };

    fn failures(&self) -> u64 {
        self.inner.failures()
    }

    fn key(&mut self, key: &str) -> Result<Option<Holder>, StoreFault> {
        self.inner.key(key)
    }

    fn entry(
        &mut self,
        shelf: &str,
        path: &ModulePath,
        version: &Version,
    ) -> Result<Option<Seen>, StoreFault> {
        self.inner.entry(shelf, path, version)
    }

    fn heading(
        &mut self,
        shelf: &str,
        path: &ModulePath,
        version: &Version,
    ) -> Result<Option<Heading>, StoreFault> {
        self.inner.heading(shelf, path, version)
    }

    fn compare(
        &mut self,
        shelf: &str,
        path: &ModulePath,
        version: &Version,
        entry: &EntryRef,
    ) -> Result<Standing, StoreFault> {
        self.inner.compare(shelf, path, version, entry)
    }

    fn versions(&mut self, shelf: &str, path: &ModulePath) -> Result<Versions, StoreFault> {
        self.inner.versions(shelf, path)
    }

    fn latest(&mut self, shelf: &str, path: &ModulePath) -> Result<Option<Version>, StoreFault> {
        self.inner.latest(shelf, path)
    }

    fn paths(&mut self, shelf: &str) -> Result<TextSet, StoreFault> {
        self.inner.paths(shelf)
    }

    fn count(&mut self, shelf: &str, path: &ModulePath) -> Result<u64, StoreFault> {
        self.inner.count(shelf, path)
    }

    fn insert(
        &mut self,
        shelf: &str,
        path: &ModulePath,
        version: &Version,
        entry: &EntryRef,
    ) -> Result<(), StoreFault> {
        self.note(shelf, path, version);
        self.inner.insert(shelf, path, version, entry)
    }

    fn team_add(&mut self, name: &str, group: Option<&str>) -> Result<RegistryReply, StoreFault> {
        self.inner.team_add(name, group)
    }

    fn group_add(&mut self, name: &str) -> Result<RegistryReply, StoreFault> {
        self.inner.group_add(name)
    }

    fn key_add(
        &mut self,
        shelf: &str,
        key: &str,
        right: Right,
    ) -> Result<RegistryReply, StoreFault> {
        self.inner.key_add(shelf, key, right)
    }

    fn key_revoke(&mut self, key: &str) -> Result<RegistryReply, StoreFault> {
        self.inner.key_revoke(key)
    }

    fn keys_revoke(&mut self, shelf: &str) -> Result<RegistryReply, StoreFault> {
        self.inner.keys_revoke(shelf)
    }

    ghost sound = { λ n w stands. S.sound n.inner.now w stands.0 };

    ghost wider = { λ n. S.wider n.inner.now };
}

impl<'a, M: Moment, S: Keyring> Keyring for InsertTracker<'a, M, S> {
    fn keys(&mut self) -> Result<TextSet, StoreFault> {
        self.inner.keys()
    }

    fn shelves(&mut self) -> Result<TextSet, StoreFault> {
        self.inner.shelves()
    }

    fn parent(&mut self, alloc: Global, shelf: &str) -> Result<Option<Option<Text>>, StoreFault> {
        self.inner.parent(alloc, shelf)
    }
}
