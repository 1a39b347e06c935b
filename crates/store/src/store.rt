//! Shelves as rows of SQL tables, with what is kept of them in memory: a store of `world`, which also shows outlines.

ghost use Rattle.std.specs.Prelude.{◌≡◌, ◌≤◌, ◌⊎◌, IfOk, IfErr, IsTrue};
ghost use Rattle.sqlite.specs.Held.{state};
ghost use Rattle.sqlite_trees.specs.View.{doubt};
ghost use Rattle.world.specs.Store.{GrewOrFull, Reads};
ghost use Rattle.world.specs.Versions.{versions_of};
ghost use Rattle.world.specs.World.{group_of, view};
ghost use Rattle.store.specs.Counted.{IsCounted, counting};
ghost use Rattle.store.specs.Restart.{LeavesCommitted};
ghost use Rattle.store.specs.Shown.{shown_with};
ghost use Rattle.cache.specs.Caches.{IsNothing, WeighsAtMost};
ghost use Rattle.outline.specs.Seen.{seen_heading};
ghost use Rattle.tables.specs.Calls.{Honestly};
ghost use Rattle.tables.specs.Causes.{IsHindered, IsVast};
ghost use Rattle.setup.specs.Opened.{Opens, IsBad, LeavesFirst};
ghost use Rattle.store_files.specs.Refusal.{IsOfOpening};

use crate::chain::Chain;
use crate::seen::{heading_in, with_zip};
use cache::absences::Absences;
use cache::caches::Caches;
use cache::groups::{copied, group_in};
use cache::headings::Headings;
use cache::keys::Keys;
use cache::lists::Lists;
use cache::total::raised;
use modpath::ModulePath;
use modver::Version;
use outline::outlines::{Outline, Outlines};
use outline::seen::SeenHeading;
use setup::adopt::open_tables;
use sqlite::{Alter, Connection, Error, ErrorCode};
use statements::compare::find_standing;
use statements::entries::{add_entry, count_entries, find_entry, find_seen};
use statements::outlines::find_outline;
use statements::registry::{add_group, add_key, add_team, find_key, find_shelf};
use statements::revoke::{revoke_key, revoke_keys};
use statements::visible::{find_paths, find_versions};
use std::alloc::Global;
use store_files::refusal::StoreRefusal;
use text::Text;
use world::entry::{EntryRef, Heading, Holder, Right, Seen};
use world::names::{is_key, is_team_name};
use world::reading::gomod_in;
use world::registry::{RegistryReply, StoreFault};
use world::shelves::Shelves;
use world::standing::Standing;
use world::text_set::TextSet;
use world::version_list::Versions;
use world::versions::{highest, latest_left};

/// Shelves whose entries and keys are rows of SQL tables. Once a fault has closed the connection, a call still returns
/// what is kept, and fails with `Device` if it needs the tables. The store then stands for every world that agrees
/// with what is kept.
#[derive(Drop)]
pub struct SqlShelves<S: Alter> {
    pub(crate) conn: Connection<S>,
    pub(crate) kept: Caches,
    pub(crate) failures: u64,
    pub(crate) alloc: Global,
}

/// Returns the fault for an error: `Memory` if memory ran out, and otherwise `Device`, which it counts.
pub(crate) fn fault(failures: &mut u64, error: Error) -> StoreFault
    ensures no_fewer { failures.old ≤ failures.new }
    ensures device { result ≡ StoreFault.Device → GrewOrFull failures.old failures.new }
    ensures counts { failures.new ≡ counting result failures.old }
    ensures memory { error ≡ Error.SqliteFailure ErrorCode.OutOfMemory → result ≡ StoreFault.Memory }
{
    match error {
        Error::SqliteFailure(ErrorCode::OutOfMemory) => StoreFault::Memory,
        _ => {
            *failures = failures.saturating_add(1);
            StoreFault::Device
        }
    }
}

/// Returns the answer, or the fault for an error as [`fault`] does.
pub(crate) fn counted<T>(failures: &mut u64, given: Result<T, Error>) -> Result<T, StoreFault>
    ensures { IsCounted failures.old failures.new given result }
{
    match given {
        Ok(answer) => Ok(answer),
        Err(error) => Err(fault(failures, error)),
    }
}

impl<S: Alter> Shelves for SqlShelves<S> {
    ghost use Rattle.std.proofs.Common.{inl, inr};

    ghost shown = { λ s. shown_with (state S.Store s.conn) s.kept s.failures };

    ghost sound = { λ s w stands. stands.0.1 };

    ghost wider = { λ s w x only db may. let it = only db may in
        (it.0, it.1, inl (elim it.2 [ inl e ↦ e | inr e ↦ e ])) };

    fn failures(&self) -> u64 {
        self.failures
    }

    fn key(&mut self, key: &str) -> Result<Option<Holder>, StoreFault> {
        if let Some(holder) = self.kept.keys.holder(self.alloc, key) {
            return Ok(Some(holder));
        }
        let found = counted(&mut self.failures, find_key(&mut self.conn, key))?;
        self.kept.keys.keep_holder(self.alloc, key, found.as_ref());
        Ok(found)
    }

    fn entry(
        &mut self,
        shelf: &str,
        path: &ModulePath,
        version: &Version,
    ) -> Result<Option<Seen>, StoreFault> {
        let Some(seen) = self.seen(shelf, path.as_str(), version.as_str())? else {
            return Ok(None);
        };
        if let Some(zip) = self
            .kept
            .zips
            .zip(seen.shelf.as_str(), path.as_str(), version.as_str())
        {
            return Ok(Some(with_zip(seen, zip)));
        }
        let found = self.find(shelf, path.as_str(), version.as_str())?;
        let seen = self
            .kept
            .zips
            .keep_seen(self.alloc, path.as_str(), version.as_str(), found);
        Ok(seen)
    }

    fn heading(
        &mut self,
        shelf: &str,
        path: &ModulePath,
        version: &Version,
    ) -> Result<Option<Heading>, StoreFault> {
        let seen = self.seen(shelf, path.as_str(), version.as_str())?;
        Ok(heading_in(seen))
    }

    fn compare(
        &mut self,
        shelf: &str,
        path: &ModulePath,
        version: &Version,
        entry: &EntryRef,
    ) -> Result<Standing, StoreFault> {
        let group = self.group_of(shelf)?;
        let chain = Chain::new(shelf, group.as_ref());
        let (shelves, path, version) = (chain.as_slice(), path.as_str(), version.as_str());
        let standing = find_standing(&mut self.conn, shelves, path, version, entry);
        counted(&mut self.failures, standing)
    }

    fn versions(&mut self, shelf: &str, path: &ModulePath) -> Result<Versions, StoreFault> {
        if let Some(versions) = self.kept.versions(self.alloc, shelf, path.as_str()) {
            return Ok(versions);
        }
        let found = self.take_versions(shelf, path.as_str())?;
        self.kept
            .keep_versions(self.alloc, shelf, path.as_str(), found.as_slice());
        Ok(found)
    }

    fn latest(&mut self, shelf: &str, path: &ModulePath) -> Result<Option<Version>, StoreFault> {
        if let Some(latest) = self.kept.latest(self.alloc, shelf, path.as_str()) {
            return Ok(latest);
        }
        let versions = self.take_versions(shelf, path.as_str())?;
        let Some(newest) = highest(versions.as_slice()) else {
            self.kept
                .keep_versions(self.alloc, shelf, path.as_str(), versions.as_slice());
            return Ok(None);
        };
        let heading = self.heading(shelf, path, newest)?;
        let gomod = gomod_in(self.alloc, heading)?;
        let latest = latest_left(self.alloc, versions.as_slice(), gomod)?;
        self.kept
            .lists
            .keep_with_latest(self.alloc, shelf, path.as_str(), versions, &latest);
        Ok(latest)
    }

    fn paths(&mut self, shelf: &str) -> Result<TextSet, StoreFault> {
        let group = self.group_of(shelf)?;
        let chain = Chain::new(shelf, group.as_ref());
        let paths = find_paths(self.alloc, &mut self.conn, chain.as_slice());
        counted(&mut self.failures, paths)
    }

    fn count(&mut self, shelf: &str, path: &ModulePath) -> Result<u64, StoreFault> {
        if let Some(count) = self.kept.counts.get(shelf, path.as_str()) {
            return Ok(count);
        }
        let count = count_entries(&mut self.conn, shelf, path.as_str());
        let count = counted(&mut self.failures, count)?;
        self.kept
            .counts
            .keep(self.alloc, shelf, path.as_str(), count);
        Ok(count)
    }

    fn insert(
        &mut self,
        shelf: &str,
        path: &ModulePath,
        version: &Version,
        entry: &EntryRef,
    ) -> Result<(), StoreFault> {
        let path = path.as_str();
        let added = add_entry(self.alloc, &mut self.conn, shelf, path, version, entry);
        counted(&mut self.failures, added)?;
        self.kept.counts.raise(self.alloc, shelf, path);
        self.kept.total = raised(self.kept.total);
        self.kept.lists.forget(self.alloc, path);
        self.kept.absences.forget(path);
        self.kept.headings = Headings::no_headings(); // The entry can hide another from its shelf.
        Ok(())
    }

    fn team_add(&mut self, name: &str, group: Option<&str>) -> Result<RegistryReply, StoreFault> {
        if !is_team_name(name) {
            return Ok(RegistryReply::Name);
        }
        // What was asked of this name before lacks what the group of the team has.
        self.kept.lists = Lists::no_lists();
        self.kept.absences = Absences::new(self.alloc);
        self.kept.headings = Headings::no_headings();
        counted(&mut self.failures, add_team(&mut self.conn, name, group))
    }

    fn group_add(&mut self, name: &str) -> Result<RegistryReply, StoreFault> {
        if !is_team_name(name) {
            return Ok(RegistryReply::Name);
        }
        counted(&mut self.failures, add_group(&mut self.conn, name))
    }

    fn key_add(
        &mut self,
        shelf: &str,
        key: &str,
        right: Right,
    ) -> Result<RegistryReply, StoreFault> {
        if !is_key(key) {
            return Ok(RegistryReply::Name);
        }
        counted(
            &mut self.failures,
            add_key(&mut self.conn, shelf, key, right),
        )
    }

    fn key_revoke(&mut self, key: &str) -> Result<RegistryReply, StoreFault> {
        self.kept.keys = Keys::no_keys(); // The key can be among them.
        counted(&mut self.failures, revoke_key(&mut self.conn, key))
    }

    fn keys_revoke(&mut self, shelf: &str) -> Result<RegistryReply, StoreFault> {
        self.kept.keys = Keys::no_keys(); // Keys of the shelf can be among them.
        counted(&mut self.failures, revoke_keys(&mut self.conn, shelf))
    }
}

impl<S: Alter> Outlines for SqlShelves<S> {
    fn outline(
        &mut self,
        shelf: &str,
        path: &ModulePath,
        version: &Version,
    ) -> Result<Option<Outline>, StoreFault> {
        let group = self.group_of(shelf)?;
        let chain = Chain::new(shelf, group.as_ref());
        let (shelves, path, version) = (chain.as_slice(), path.as_str(), version.as_str());
        let found = find_outline(&mut self.conn, shelves, path, version);
        counted(&mut self.failures, found)
    }
}

impl<S: Alter> SqlShelves<S> {
    /// Returns a store over a connection. The store begins at the world that the tables stand for; if there are no
    /// tables, it makes them, with only the shelf `common`.
    ///
    /// Fails with `BadSchema` if the tables are not those of the schema or stand for no world, with `Memory` if memory
    /// ran out, and with `Device` if the disk failed, the connection is closed, in a transaction or limited in its
    /// steps, or a table has 2^64 rows, one for each rowid. The connection then comes back. If it is still open, it
    /// shows the tables that it showed before. A crash leaves what it left before or, if there were no tables, tables
    /// with only `common`.
    pub fn adopt(
        alloc: Global,
        mut conn: Connection<S>,
    ) -> Result<SqlShelves<S>, (StoreRefusal, Connection<S>)>
        ensures clean { IfOk result (λ s. doubt (state S.Store conn).is_clean ≤ doubt (state S.Store s.conn).is_clean) }
        ensures was_clean { IfErr result (λ e.
            doubt (state S.Store conn).is_clean ≤ doubt (state S.Store e.1).is_clean) }
        ensures opens { IfOk result (λ s. Honestly (state S.Store conn) (state S.Store s.conn) Opens) }
        ensures none_kept { IfOk result (λ s. IsNothing s.kept) }
        ensures refused { IfErr result (λ e. IsOfOpening e.0) }
        ensures none_failed { IfOk result (λ s. s.failures ≡ 0) }
        // A refused connection that is still open shows what it showed, and a crash leaves what it left before or the
        // new tables.
        ensures same { IfErr result (λ e. Honestly (state S.Store conn) (state S.Store e.1) (λ old new.
            IsTrue new.is_open → new.now ≡ old.now)) }
        ensures crash { IfErr result (λ e. Honestly (state S.Store conn) (state S.Store e.1) LeavesFirst) }
        ensures left { IfErr result (λ e. Honestly (state S.Store conn) (state S.Store e.1) LeavesCommitted) }
        ensures bad { IfErr result (λ e. Honestly (state S.Store conn) (state S.Store e.1) (λ old _.
            e.0 ≡ StoreRefusal.BadSchema → IsBad old.now)) }
        // A refused connection is in a transaction exactly if it came in one, and its steps are limited as before.
        ensures mode { IfErr result (λ e. Honestly (state S.Store conn) (state S.Store e.1) (λ old new.
            new.in_transaction ≡ old.in_transaction)) }
        ensures limit { IfErr result (λ e. Honestly (state S.Store conn) (state S.Store e.1) (λ old new.
            new.step_limit ≡ old.step_limit)) }
        // `Device` has one of these causes.
        ensures device { IfErr result (λ e. Honestly (state S.Store conn) (state S.Store e.1) (λ old new.
            e.0 ≡ StoreRefusal.Device → IsTrue old.in_transaction ⊎ (IsHindered old new ⊎ IsVast old.now))) }
    {
        match open_tables(alloc, &mut conn) {
            Ok(()) => Ok(SqlShelves {
                conn,
                kept: Caches::new(alloc),
                failures: 0,
                alloc,
            }),
            Err(refusal) => Err((refusal, conn)),
        }
    }

    /// Shows that what the store keeps weighs at most the figures of its kinds, whatever it was asked.
    pub fn bounds(&self)
        ensures { WeighsAtMost self.now.kept }
    {
        self.kept.bounds();
    }

    /// Returns the group of a shelf, or None if it has none or does not exist. Copies the kept name if there is one,
    /// and queries the tables otherwise. Fails with `Memory` if memory ran out, and otherwise with `Device`.
    fn group_of(&mut self, shelf: &str) -> Result<Option<Text>, StoreFault>
        ensures reads { Reads (shown_with (state S.Store self.old.conn) self.old.kept self.old.failures)
            (shown_with (state S.Store self.new.conn) self.new.kept self.new.failures) result
            (λ w. group_of w shelf.now) }
    {
        if let Some(group) = self.kept.groups.get(shelf) {
            return Ok(copied(self.alloc, group.as_ref())?);
        }
        let found = counted(&mut self.failures, find_shelf(&mut self.conn, shelf))?;
        let Some(parent) = found else {
            return Ok(None);
        };
        let group = group_in(parent);
        self.kept.groups.keep(self.alloc, shelf, group.as_ref());
        Ok(group)
    }

    /// Returns what a shelf sees of a version without its zip, with the shelf that its entry stands on, or None. Copies
    /// the kept heading if there is one, returns None if what is kept of the path lacks the version, and queries
    /// the tables otherwise. Fails as `group_of` does.
    fn seen(
        &mut self,
        shelf: &str,
        path: &str,
        version: &str,
    ) -> Result<Option<SeenHeading>, StoreFault>
        ensures reads { Reads (shown_with (state S.Store self.old.conn) self.old.kept self.old.failures)
            (shown_with (state S.Store self.new.conn) self.new.kept self.new.failures) result
            (λ w. seen_heading (view w shelf.now path.now version.now)) }
    {
        if let Some(seen) = self.kept.headings.seen(self.alloc, shelf, path, version) {
            return Ok(Some(seen));
        }
        self.keep_if_missed(shelf, path)?;
        if self.kept.lacks(shelf, path, version) {
            return Ok(None);
        }
        self.find_heading(shelf, path, version)
    }

    /// Keeps which versions of a path a shelf sees, if it looked for one in vain before. The first such look does not
    /// do it, so a path that is asked for once costs one look along the chain. Fails as `group_of` does.
    fn keep_if_missed(&mut self, shelf: &str, path: &str) -> Result<(), StoreFault>
        ensures reads { Reads (shown_with (state S.Store self.old.conn) self.old.kept self.old.failures)
            (shown_with (state S.Store self.new.conn) self.new.kept self.new.failures) result (λ _. tt) }
    {
        if !self.kept.wants_versions(shelf, path) {
            return Ok(());
        }
        let versions = self.take_versions(shelf, path)?;
        self.kept
            .keep_versions(self.alloc, shelf, path, versions.as_slice());
        Ok(())
    }

    /// Returns what a shelf sees of a version without its zip, with the shelf that its entry stands on, or None. Keeps
    /// what it sees, or notes that it looked in vain. Always queries the tables. Fails as `group_of` does.
    fn find_heading(
        &mut self,
        shelf: &str,
        path: &str,
        version: &str,
    ) -> Result<Option<SeenHeading>, StoreFault>
        ensures reads { Reads (shown_with (state S.Store self.old.conn) self.old.kept self.old.failures)
            (shown_with (state S.Store self.new.conn) self.new.kept self.new.failures) result
            (λ w. seen_heading (view w shelf.now path.now version.now)) }
    {
        let group = self.group_of(shelf)?;
        let chain = Chain::new(shelf, group.as_ref());
        let seen = find_seen(&mut self.conn, chain.as_slice(), path, version);
        let seen = counted(&mut self.failures, seen)?;
        self.kept
            .keep_seen(self.alloc, shelf, path, version, seen.as_ref());
        Ok(seen)
    }

    /// Returns what a shelf sees of a version, or None. Always queries the tables. Fails as `group_of` does.
    fn find(&mut self, shelf: &str, path: &str, version: &str) -> Result<Option<Seen>, StoreFault>
        ensures reads { Reads (shown_with (state S.Store self.old.conn) self.old.kept self.old.failures)
            (shown_with (state S.Store self.new.conn) self.new.kept self.new.failures) result
            (λ w. view w shelf.now path.now version.now) }
    {
        let group = self.group_of(shelf)?;
        let chain = Chain::new(shelf, group.as_ref());
        let found = find_entry(self.alloc, &mut self.conn, chain.as_slice(), path, version);
        counted(&mut self.failures, found)
    }

    /// Returns the versions of a path that a shelf sees, in ascending precedence. Takes the kept list if there
    /// is one, so the caller keeps it again, and queries the tables otherwise. Fails as `group_of` does.
    fn take_versions(&mut self, shelf: &str, path: &str) -> Result<Versions, StoreFault>
        ensures reads { Reads (shown_with (state S.Store self.old.conn) self.old.kept self.old.failures)
            (shown_with (state S.Store self.new.conn) self.new.kept self.new.failures) result
            (λ w. versions_of w shelf.now path.now) }
    {
        if let Some(versions) = self.kept.lists.take_versions(shelf, path) {
            return Ok(versions);
        }
        let group = self.group_of(shelf)?;
        let chain = Chain::new(shelf, group.as_ref());
        let versions = find_versions(self.alloc, &mut self.conn, chain.as_slice(), path);
        counted(&mut self.failures, versions)
    }
}
