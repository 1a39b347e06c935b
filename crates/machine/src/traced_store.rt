//! Any store, lent to the machine with an account of what it is asked.
ghost use Rattle.std.specs.Prelude.{◌≡◌, []};
ghost use Rattle.machine.specs.Calls.{fault_of};

use crate::noted::Noted;
use crate::traced_shelves::{Method, Outcome, TracedShelves};
use modpath::ModulePath;
use modver::Version;
use world::entry::{EntryRef, Heading, Holder, Seen};
use world::registry::StoreFault;
use world::shelves::Shelves;
use world::standing::Standing;
use world::text_set::TextSet;
use world::version_list::Versions;

/// A store that is lent, with an account of what it was asked since. The account takes no memory and no time: only
/// proofs read it. Nobody else can write it, or use the store inside.
#[derive(Drop)]
pub struct TracedStore<'a, S: Shelves> {
    inner: &'a mut S,
    noted: Noted,
}

impl<'a, S: Shelves> TracedStore<'a, S> {
    /// Returns a store that was asked nothing so far.
    pub fn new(inner: &'a mut S) -> TracedStore<'a, S>
        ensures same_store { result.inner.ghost_name ≡ inner.entry.ghost_name }
        ensures value { result.inner.now ≡ inner.old }
        ensures calls { result.noted.calls ≡ [] }
    {
        TracedStore {
            inner,
            noted: Noted::new(),
        }
    }
}

/// Returns the fault of a call, or None if it met none.
fn fault_in<T>(told: &Result<T, StoreFault>) -> Option<StoreFault>
    ensures { result ≡ fault_of told.now }
{
    match told {
        Ok(_) => None,
        Err(fault) => Some(*fault),
    }
}

/// Returns the outcome of a call of this method.
fn outcome<T>(method: Method, told: &Result<T, StoreFault>) -> Outcome
    ensures method { result.method ≡ method }
    ensures fault { result.fault ≡ fault_of told.now }
{
    Outcome {
        method,
        fault: fault_in(told),
    }
}

impl<'a, S: Shelves> TracedShelves for TracedStore<'a, S> {
    ghost shown = { λ a. S.shown a.inner.now };

    ghost history = { λ a. record { calls = a.noted.calls; source = a.inner.ghost_name } };

    fn key(&mut self, key: &str) -> Result<Option<Holder>, StoreFault> {
        let told = self.inner.key(key);
        self.noted
            .note(key.as_bytes(), b"", b"", &outcome(Method::Key, &told));
        told
    }

    fn entry(
        &mut self,
        shelf: &str,
        path: &ModulePath,
        version: &Version,
    ) -> Result<Option<Seen>, StoreFault> {
        let told = self.inner.entry(shelf, path, version);
        self.noted.note(
            shelf.as_bytes(),
            path.as_str().as_bytes(),
            version.as_str().as_bytes(),
            &outcome(Method::Entry, &told),
        );
        told
    }

    fn heading(
        &mut self,
        shelf: &str,
        path: &ModulePath,
        version: &Version,
    ) -> Result<Option<Heading>, StoreFault> {
        let told = self.inner.heading(shelf, path, version);
        self.noted.note(
            shelf.as_bytes(),
            path.as_str().as_bytes(),
            version.as_str().as_bytes(),
            &outcome(Method::Heading, &told),
        );
        told
    }

    fn compare(
        &mut self,
        shelf: &str,
        path: &ModulePath,
        version: &Version,
        entry: &EntryRef,
    ) -> Result<Standing, StoreFault> {
        let told = self.inner.compare(shelf, path, version, entry);
        self.noted.note(
            shelf.as_bytes(),
            path.as_str().as_bytes(),
            version.as_str().as_bytes(),
            &outcome(Method::Compare, &told),
        );
        told
    }

    fn versions(&mut self, shelf: &str, path: &ModulePath) -> Result<Versions, StoreFault> {
        let told = self.inner.versions(shelf, path);
        self.noted.note(
            shelf.as_bytes(),
            path.as_str().as_bytes(),
            b"",
            &outcome(Method::Versions, &told),
        );
        told
    }

    fn latest(&mut self, shelf: &str, path: &ModulePath) -> Result<Option<Version>, StoreFault> {
        let told = self.inner.latest(shelf, path);
        self.noted.note(
            shelf.as_bytes(),
            path.as_str().as_bytes(),
            b"",
            &outcome(Method::Latest, &told),
        );
        told
    }

    fn paths(&mut self, shelf: &str) -> Result<TextSet, StoreFault> {
        let told = self.inner.paths(shelf);
        self.noted
            .note(shelf.as_bytes(), b"", b"", &outcome(Method::Paths, &told));
        told
    }

    fn count(&mut self, shelf: &str, path: &ModulePath) -> Result<u64, StoreFault> {
        let told = self.inner.count(shelf, path);
        self.noted.note(
            shelf.as_bytes(),
            path.as_str().as_bytes(),
            b"",
            &outcome(Method::Count, &told),
        );
        told
    }

    fn insert(
        &mut self,
        shelf: &str,
        path: &ModulePath,
        version: &Version,
        entry: &EntryRef,
    ) -> Result<(), StoreFault> {
        let told = self.inner.insert(shelf, path, version, entry);
        self.noted.note(
            shelf.as_bytes(),
            path.as_str().as_bytes(),
            version.as_str().as_bytes(),
            &outcome(Method::Insert, &told),
        );
        told
    }

    ghost sound = { λ a. S.sound a.inner.now };

    ghost wider = { λ a. S.wider a.inner.now };
}
