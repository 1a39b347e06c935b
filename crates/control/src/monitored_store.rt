//! A store that is served, with what has to be said of it.
ghost use Rattle.std.specs.Prelude.{◌≡◌, None};
ghost use Rattle.std.specs.FinMap as map;
ghost use Rattle.std.specs.Option.{ForSome};
ghost use Rattle.control.specs.Metrics.{TellsKept};
ghost use Rattle.control.specs.Noted.{noted_line};
ghost use Rattle.control.specs.Notices.{IsLineAbout, IsOfFault};

use crate::health::Metrics;
use crate::notice::Noted;
use crate::traffic::Traffic;
use interleave::between::CopyProgress;
use keyring::Keyring;
use modpath::ModulePath;
use modver::{TimeText, Version};
use std::alloc::Global;
use std::marker::{Brand, PhantomData};
use text::Text;
use world::entry::{EntryRef, Heading, Holder, Right, Seen};
use world::registry::{RegistryReply, StoreFault};
use world::shelves::Shelves;
use world::standing::Standing;
use world::text_set::TextSet;
use world::version_list::Versions;

/// The loan of a store. Only proofs read its name, and the caller picks it.
pub(crate) trait Loan {
    ghost use Rattle.std.specs.Prelude.{ℕ};

    /// This loan.
    ghost name: { ℕ };
}

impl Loan for Brand {
    ghost name = { 0 };
}

/// A store that is lent, with what is noted of the last fault that it met for a peer, and the publishes and fetches of
/// each shelf. It does as the store inside does: `PeerStore`, which peers are answered from, notes and counts.
#[derive(Drop)]
pub(crate) struct MonitoredStore<'a, N: Loan, S: Shelves> {
    pub(crate) inner: &'a mut S,
    pub(crate) notice: Option<Noted>,
    pub(crate) traffic: Traffic,
    /// When the last copy was made, if one was and the time could be read then.
    pub(crate) copied: Option<TimeText>,
    /// Whether each publish is refused that would store a version.
    pub(crate) is_held: bool,
    loan: PhantomData<N>,
    ghost same: { inner.ghost_name ≡ N.name },
    ghost of_fault: { ForSome notice (λ noted. IsLineAbout IsOfFault (noted_line noted)) },
}

impl<'a, N: Loan, S: Shelves> MonitoredStore<'a, N, S> {
    /// Returns the store, of which nothing has to be said and nothing is counted so far.
    pub(crate) fn new(alloc: Global, inner: &'a mut S) -> MonitoredStore<'a, N, S>
        requires { inner.ghost_name ≡ N.name }
        ensures same { result.inner.ghost_name ≡ inner.entry.ghost_name }
        ensures value { result.inner.now ≡ inner.old }
        ensures counts { result.traffic.shelves ≡ map.empty }
        ensures copied { result.copied ≡ None }
        ensures unnoted { result.notice ≡ None }
    {
        MonitoredStore {
            inner,
            notice: None,
            traffic: Traffic::new(alloc),
            copied: None,
            is_held: false,
            loan: PhantomData,
        }
    }

    /// Returns the store inside.
    pub(crate) fn into_inner(self) -> &'a mut S
        ensures same { result.ghost_name ≡ self.entry.inner.ghost_name }
        ensures value { result.now ≡ self.entry.inner.now }
    {
        self.inner
    }

    /// Returns what is noted, if something is, and forgets it.
    pub(crate) fn take(&mut self) -> Option<Noted>
        ensures same { self.new.inner ≡ self.old.inner }
        ensures counts { self.new.traffic ≡ self.old.traffic }
        ensures held { self.new.is_held ≡ self.old.is_held }
        ensures value { result ≡ self.old.notice }
        ensures forgets { self.new.notice ≡ None }
    {
        self.notice.take()
    }

    /// Notes when a copy was made, if the time could be read.
    pub(crate) fn note_time(&mut self, time: Option<TimeText>)
        ensures same { self.new.inner ≡ self.old.inner }
        ensures time { self.new.copied ≡ time }
        ensures noted { self.new.notice ≡ self.old.notice }
    {
        self.copied = time;
    }

    /// Returns the figures with these sizes, how far a copy is, and with what is kept here.
    pub(crate) fn figures_with<'s>(
        &'s self,
        sizes: Metrics<'s>,
        copying: Option<CopyProgress>,
    ) -> Metrics<'s>
        ensures { TellsKept (λ known. known ≡ sizes.entry) self.now.traffic self.now.copied copying result }
    {
        Metrics {
            bytes: sizes.bytes,
            log: sizes.log,
            copied: self.copied,
            copying,
            traffic: Some(&self.traffic),
        }
    }
}

impl<'a, N: Loan, S: Shelves> Shelves for MonitoredStore<'a, N, S> {
    ghost shown = { λ w. S.shown w.inner.now };

    fn failures(&self) -> u64 {
        self.inner.failures()
    }

    fn key(&mut self, key: &str) -> Result<Option<Holder>, StoreFault> {
        self.inner.key(key)
    }

    fn entry(
        &mut self,
        shelf: &str,
        path: &ModulePath,
        version: &Version,
    ) -> Result<Option<Seen>, StoreFault> {
        self.inner.entry(shelf, path, version)
    }

    fn heading(
        &mut self,
        shelf: &str,
        path: &ModulePath,
        version: &Version,
    ) -> Result<Option<Heading>, StoreFault> {
        self.inner.heading(shelf, path, version)
    }

    fn compare(
        &mut self,
        shelf: &str,
        path: &ModulePath,
        version: &Version,
        entry: &EntryRef,
    ) -> Result<Standing, StoreFault> {
        self.inner.compare(shelf, path, version, entry)
    }

    fn versions(&mut self, shelf: &str, path: &ModulePath) -> Result<Versions, StoreFault> {
        self.inner.versions(shelf, path)
    }

    fn latest(&mut self, shelf: &str, path: &ModulePath) -> Result<Option<Version>, StoreFault> {
        self.inner.latest(shelf, path)
    }

    fn paths(&mut self, shelf: &str) -> Result<TextSet, StoreFault> {
        self.inner.paths(shelf)
    }

    fn count(&mut self, shelf: &str, path: &ModulePath) -> Result<u64, StoreFault> {
        self.inner.count(shelf, path)
    }

    fn insert(
        &mut self,
        shelf: &str,
        path: &ModulePath,
        version: &Version,
        entry: &EntryRef,
    ) -> Result<(), StoreFault> {
        self.inner.insert(shelf, path, version, entry)
    }

    fn team_add(&mut self, name: &str, group: Option<&str>) -> Result<RegistryReply, StoreFault> {
        self.inner.team_add(name, group)
    }

    fn group_add(&mut self, name: &str) -> Result<RegistryReply, StoreFault> {
        self.inner.group_add(name)
    }

    fn key_add(
        &mut self,
        shelf: &str,
        key: &str,
        right: Right,
    ) -> Result<RegistryReply, StoreFault> {
        self.inner.key_add(shelf, key, right)
    }

    fn key_revoke(&mut self, key: &str) -> Result<RegistryReply, StoreFault> {
        self.inner.key_revoke(key)
    }

    fn keys_revoke(&mut self, shelf: &str) -> Result<RegistryReply, StoreFault> {
        self.inner.keys_revoke(shelf)
    }

    ghost sound = { λ w. S.sound w.inner.now };

    ghost wider = { λ w. S.wider w.inner.now };
}

impl<'a, N: Loan, S: Keyring> Keyring for MonitoredStore<'a, N, S> {
    fn keys(&mut self) -> Result<TextSet, StoreFault> {
        self.inner.keys()
    }

    fn shelves(&mut self) -> Result<TextSet, StoreFault> {
        self.inner.shelves()
    }

    fn parent(&mut self, alloc: Global, shelf: &str) -> Result<Option<Option<Text>>, StoreFault> {
        self.inner.parent(alloc, shelf)
    }
}
