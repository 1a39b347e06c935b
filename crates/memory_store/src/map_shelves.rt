//! A store in memory.
ghost use Rattle.std.specs.Prelude.{◌≡◌, ◌++◌, option_copied, unwrap_or, IfOk, IsOk, OnOk, OnErr};
ghost use Rattle.std.specs.FinMap as map;
ghost use Rattle.std.specs.FinSet as set;
ghost use Rattle.modver.specs.SemanticVersion.{version_text};
ghost use Rattle.world.specs.Latest.{latest_of};
ghost use Rattle.world.specs.Lines.{in_order};
ghost use Rattle.world.specs.Registry.{is_group, lacks_group};
ghost use Rattle.world.specs.Standing.{standing};
ghost use Rattle.world.specs.Versions.{by_precedence, named_on, versions_of};
ghost use Rattle.world.specs.Visible.{paths_on};
ghost use Rattle.world.specs.World.{IsWorld, common, only_common, place, group_of, above};
ghost use Rattle.world.specs.World.{seen_at, first_on, view, heading, count, with_shelf};

use crate::entry_map::EntryMap;
use modpath::ModulePath;
use modver::Version;
use std::alloc::{AllocError, Global};
use std::marker::Model;
use text::Text;
use world::entry::{Entry, EntryRef, Heading, Holder, Right, Seen, SeenRef};
use world::names::{COMMON, is_key, is_team_name};
use world::reading::gomod_in;
use world::registry::{RegistryReply, StoreFault};
use world::shelves::Shelves;
use world::standing::{Standing, standing_to};
use world::text_map::TextMap;
use world::text_set::TextSet;
use world::version_list::Versions;
use world::versions::{highest, latest_left, sorted};

/// Shelves in ordered maps. Contracts see the world.
#[derive(Drop)]
pub struct MapShelves {
    alloc: Global,
    keys: TextMap<Holder>,
    shelves: TextMap<Option<Text>>,
    entries: EntryMap,
}

impl Model for MapShelves {
    ghost use Rattle.world.specs.World.{World};
    ghost use Rattle.world.specs.Code.{world_code};

    ghost Value = { World };

    ghost coded = { world_code };

    ghost view = { λ m. record { keys = m.keys; shelves = m.shelves; entries = m.entries } };
}

impl MapShelves {
    /// Returns a store with the shelf `common` and nothing else. Fails only if memory runs out.
    pub fn new(alloc: Global) -> Result<MapShelves, AllocError>
        ensures { IfOk result (λ m. m ≡ only_common) }
    {
        let mut shelves = TextMap::new(alloc);
        shelves.insert(String::from_str(alloc, COMMON)?, None)?;
        Ok(MapShelves {
            alloc,
            keys: TextMap::new(alloc),
            shelves,
            entries: EntryMap::new(alloc),
        })
    }

    /// Returns all keys. Fails only if memory runs out.
    pub fn all_keys(&self) -> Result<TextSet, AllocError>
        ensures { IfOk result (λ keys. keys ≡ set.from_list (map.keys self.now.keys)) }
    {
        let mut keys = TextSet::new(self.alloc);
        self.keys.add_keys(self.alloc, &mut keys)?;
        Ok(keys)
    }

    /// Returns the names of all shelves. Fails only if memory runs out.
    pub fn all_shelves(&self) -> Result<TextSet, AllocError>
        ensures { IfOk result (λ names. names ≡ set.from_list (map.keys self.now.shelves)) }
    {
        let mut names = TextSet::new(self.alloc);
        self.shelves.add_keys(self.alloc, &mut names)?;
        Ok(names)
    }

    /// Returns the parent of a shelf, or None if no shelf has this name. The parent of `common` and of a group is None.
    pub fn parent(&self, shelf: &str) -> Option<&Option<Text>>
        ensures { option_copied result ≡ map.get self.now.shelves shelf.now }
    {
        self.shelves.get(shelf)
    }

    /// Returns the group of a shelf, or None if it has none.
    fn group_of(&self, shelf: &str) -> Option<&str>
        ensures { option_copied result ≡ group_of self.now shelf.now }
    {
        let Some(Some(parent)) = self.shelves.get(shelf) else {
            return None;
        };
        if parent.as_str() == COMMON {
            return None;
        }
        Some(parent.as_str())
    }

    /// Returns the entry of a version that stands on a shelf, or None if there is none.
    fn seen_on<'a>(
        &'a self,
        shelf: &'a str,
        path: &ModulePath,
        version: &Version,
    ) -> Option<SeenRef<'a>>
        ensures { result
            ≡ seen_at (map.get self.now.entries (place shelf.now path.now (version_text version.now))) shelf.now }
    {
        let entry = self.entries.get(shelf, path.as_str(), version.as_str())?;
        Some(SeenRef { shelf, entry })
    }

    /// Returns the entry of a version that a shelf of this group, or of no group, sees above itself, or None if there
    /// is none.
    fn seen_above<'a>(
        &'a self,
        group: Option<&'a str>,
        path: &ModulePath,
        version: &Version,
    ) -> Option<SeenRef<'a>>
        ensures { result ≡ first_on self.now (above (option_copied group.entry)) path.now (version_text version.now) }
    {
        let Some(group) = group else {
            return self.seen_on(COMMON, path, version);
        };
        match self.seen_on(group, path, version) {
            Some(seen) => Some(seen),
            None => self.seen_on(COMMON, path, version),
        }
    }

    /// Returns the entry of a version that a shelf sees, or None if it sees none.
    fn seen<'a>(
        &'a self,
        shelf: &'a str,
        path: &ModulePath,
        version: &Version,
    ) -> Option<SeenRef<'a>>
        ensures { result ≡ view self.now shelf.now path.now (version_text version.now) }
    {
        match self.seen_on(shelf, path, version) {
            Some(own) => Some(own),
            None => self.seen_above(self.group_of(shelf), path, version),
        }
    }

    /// Appends to `versions` those of a path that stand on the shelves above a shelf of this group, or of no group.
    /// Fails only if memory runs out.
    fn add_versions_above(
        &self,
        group: Option<&str>,
        path: &str,
        versions: &mut Vec<Version>,
    ) -> Result<(), AllocError>
        ensures { OnOk result (versions.new.items
            ≡ versions.old.items ++ named_on self.now (above (option_copied group.entry)) path.now) }
    {
        let Some(group) = group else {
            return self
                .entries
                .add_versions(self.alloc, COMMON, path, versions);
        };
        self.entries
            .add_versions(self.alloc, group, path, versions)?;
        self.entries
            .add_versions(self.alloc, COMMON, path, versions)
    }

    /// Returns the versions of a path that a shelf sees, in no particular order; a version that stands on several of
    /// the shelves that it sees occurs as often. Fails only if memory runs out.
    fn versions_seen(&self, shelf: &str, path: &str) -> Result<Vec<Version>, AllocError>
        ensures { IfOk result (λ vs. in_order (by_precedence vs.items) ≡ versions_of self.now shelf.now path.now) }
    {
        let mut versions = Vec::new(self.alloc);
        self.entries
            .add_versions(self.alloc, shelf, path, &mut versions)?;
        self.add_versions_above(self.group_of(shelf), path, &mut versions)?;
        Ok(versions)
    }

    /// Puts the paths on the shelves above a shelf of this group, or of no group, into a set. Fails only if memory runs
    /// out.
    fn add_paths_above(&self, group: Option<&str>, paths: &mut TextSet) -> Result<(), AllocError>
        ensures { OnOk result
            (paths.new ≡ set.union paths.old (paths_on self.now (above (option_copied group.entry)))) }
    {
        let Some(group) = group else {
            return self.entries.add_paths(self.alloc, COMMON, paths);
        };
        self.entries.add_paths(self.alloc, group, paths)?;
        self.entries.add_paths(self.alloc, COMMON, paths)
    }

    /// Returns the versions of a path that a shelf sees, in ascending precedence. Fails only if memory runs out.
    fn sorted_versions(&self, shelf: &str, path: &str) -> Result<Versions, AllocError>
        ensures { IfOk result (λ vs. vs ≡ versions_of self.now shelf.now path.now) }
    {
        sorted(self.alloc, self.versions_seen(shelf, path)?)
    }

    /// Returns a copy of what a shelf sees of a version without its zip, or None if it sees no entry. Fails only if
    /// memory runs out.
    fn heading_seen(
        &self,
        shelf: &str,
        path: &ModulePath,
        version: &Version,
    ) -> Result<Option<Heading>, AllocError>
        ensures { IfOk result (λ h. h ≡ heading self.now shelf.now path.now (version_text version.now)) }
    {
        match self.seen(shelf, path, version) {
            None => Ok(None),
            Some(seen) => Ok(Some(seen.entry.heading(self.alloc)?)),
        }
    }

    /// Returns the latest of the versions of a path that a shelf sees, which are given, or None if there is none.
    /// Fails only if memory runs out.
    fn latest_among(
        &self,
        shelf: &str,
        path: &ModulePath,
        versions: &[Version],
    ) -> Result<Option<Version>, AllocError>
        requires { versions.now ≡ versions_of self.now shelf.now path.now }
        ensures { IfOk result (λ v. IsWorld self.now → v ≡ latest_of self.now shelf.now path.now) }
    {
        let Some(newest) = highest(versions) else {
            return Ok(None);
        };
        let heading = self.heading_seen(shelf, path, newest)?;
        let gomod = gomod_in(self.alloc, heading)?;
        latest_left(self.alloc, versions, gomod)
    }
}

impl MapShelves {
    /// Whether the name is that of a group.
    fn is_group(&self, name: &str) -> bool
        ensures { result ≡ is_group self.now name.now }
    {
        match self.shelves.get(name) {
            Some(None) => name != COMMON,
            _ => false,
        }
    }

    /// Whether a group is named and does not exist.
    fn lacks_group(&self, group: Option<&str>) -> bool
        ensures { result ≡ lacks_group self.now (option_copied group.entry) }
    {
        match group {
            None => false,
            Some(group) => !self.is_group(group),
        }
    }

    /// Adds a shelf that does not exist yet. Fails only if memory runs out, and then adds nothing.
    fn add_shelf(&mut self, name: &str, parent: Option<Text>) -> Result<(), AllocError>
        ensures ok { OnOk result (self.new ≡ with_shelf self.old name.now parent) }
        ensures err { OnErr result (self.new ≡ self.old) }
    {
        self.shelves
            .insert(String::from_str(self.alloc, name)?, parent)
    }
}

/// Returns the parent of a team of this group, or of no group.
fn parent_of(group: Option<&str>) -> &str
    ensures { result.now ≡ unwrap_or (option_copied group.entry) common }
{
    match group {
        None => COMMON,
        Some(group) => group,
    }
}

impl Shelves for MapShelves {
    ghost use Rattle.std.proofs.Common.{inl, inr};
    ghost use Rattle.memory_store.specs.InMemory.{in_memory};
    ghost use Rattle.world.specs.Registry.{key_revoked, after_key_revoke, keys_revoked, after_keys_revoke};
    ghost use Rattle.world.specs.Store.{Does, Reads};

    ghost shown = { in_memory };

    ghost sound = { λ m w stands. stands.1 };

    ghost wider = { λ m w x left. inl (elim left [ inl e ↦ e | inr e ↦ e ]) };

    fn failures(&self) -> u64 {
        0
    }

    fn key(&mut self, key: &str) -> Result<Option<Holder>, StoreFault> {
        match self.keys.get(key) {
            None => Ok(None),
            Some(holder) => Ok(Some(holder.copy(self.alloc)?)),
        }
    }

    fn entry(
        &mut self,
        shelf: &str,
        path: &ModulePath,
        version: &Version,
    ) -> Result<Option<Seen>, StoreFault> {
        match self.seen(shelf, path, version) {
            None => Ok(None),
            Some(seen) => Ok(Some(seen.copy(self.alloc)?)),
        }
    }

    fn heading(
        &mut self,
        shelf: &str,
        path: &ModulePath,
        version: &Version,
    ) -> Result<Option<Heading>, StoreFault> {
        Ok(self.heading_seen(shelf, path, version)?)
    }

    /// Returns how an entry that is handed in compares with what the shelf sees of the version. Never fails, and
    /// allocates nothing.
    fn compare(
        &mut self,
        shelf: &str,
        path: &ModulePath,
        version: &Version,
        entry: &EntryRef,
    ) -> Result<Standing, StoreFault>
        ensures reads { Reads (in_memory self.old) (in_memory self.new) result
            (λ w. standing w shelf.now path.now (version_text version.now) entry.now) }
        ensures answers { IsOk result }
    {
        match self.seen(shelf, path, version) {
            None => Ok(Standing::Absent),
            Some(seen) => Ok(standing_to(&seen.entry.as_ref(), entry)),
        }
    }

    fn versions(&mut self, shelf: &str, path: &ModulePath) -> Result<Versions, StoreFault> {
        Ok(self.sorted_versions(shelf, path.as_str())?)
    }

    fn latest(&mut self, shelf: &str, path: &ModulePath) -> Result<Option<Version>, StoreFault> {
        let versions = self.sorted_versions(shelf, path.as_str())?;
        Ok(self.latest_among(shelf, path, versions.as_slice())?)
    }

    fn paths(&mut self, shelf: &str) -> Result<TextSet, StoreFault> {
        let mut paths = TextSet::new(self.alloc);
        self.entries.add_paths(self.alloc, shelf, &mut paths)?;
        self.add_paths_above(self.group_of(shelf), &mut paths)?;
        Ok(paths)
    }

    /// Returns how many versions of the path stand on the shelf. Never fails, and allocates nothing.
    fn count(&mut self, shelf: &str, path: &ModulePath) -> Result<u64, StoreFault>
        ensures reads { Reads (in_memory self.old) (in_memory self.new) result (λ w. count w shelf.now path.now) }
        ensures answers { IsOk result }
    {
        Ok(self.entries.count(shelf, path.as_str()) as u64)
    }

    fn insert(
        &mut self,
        shelf: &str,
        path: &ModulePath,
        version: &Version,
        entry: &EntryRef,
    ) -> Result<(), StoreFault> {
        let entry = Entry::copy_of(self.alloc, entry)?;
        let (path, version) = (path.as_str(), version.as_str());
        self.entries
            .insert(self.alloc, shelf, path, version, entry)?;
        Ok(())
    }

    fn team_add(&mut self, name: &str, group: Option<&str>) -> Result<RegistryReply, StoreFault> {
        if !is_team_name(name) {
            return Ok(RegistryReply::Name);
        }
        if self.shelves.contains_key(name) {
            return Ok(RegistryReply::Taken);
        }
        if self.lacks_group(group) {
            return Ok(RegistryReply::NoGroup);
        }
        let parent = Text::copy_of(self.alloc, parent_of(group))?;
        self.add_shelf(name, Some(parent))?;
        Ok(RegistryReply::Done)
    }

    fn group_add(&mut self, name: &str) -> Result<RegistryReply, StoreFault> {
        if !is_team_name(name) {
            return Ok(RegistryReply::Name);
        }
        if self.shelves.contains_key(name) {
            return Ok(RegistryReply::Taken);
        }
        self.add_shelf(name, None)?;
        Ok(RegistryReply::Done)
    }

    fn key_add(
        &mut self,
        shelf: &str,
        key: &str,
        right: Right,
    ) -> Result<RegistryReply, StoreFault> {
        if !is_key(key) {
            return Ok(RegistryReply::Name);
        }
        if !self.shelves.contains_key(shelf) {
            return Ok(RegistryReply::NoTeam);
        }
        if self.keys.contains_key(key) {
            return Ok(RegistryReply::Taken);
        }
        let holder = Holder::new(self.alloc, shelf, right)?;
        let key = String::from_str(self.alloc, key)?;
        self.keys.insert(key, holder)?;
        Ok(RegistryReply::Done)
    }

    /// Takes a key away. Returns `Done`, or `NoKey` if there is no such key. Never fails, and allocates nothing.
    fn key_revoke(&mut self, key: &str) -> Result<RegistryReply, StoreFault>
        ensures does { Does (in_memory self.old) (in_memory self.new) result
            (λ w. key_revoked w key.now) (λ w. after_key_revoke w key.now (key_revoked w key.now)) }
        ensures answers { IsOk result }
    {
        if !self.keys.contains_key(key) {
            return Ok(RegistryReply::NoKey);
        }
        self.keys.remove(key);
        Ok(RegistryReply::Done)
    }

    /// Takes all keys of a shelf away. Returns `Done`, also if the shelf has no key, or `NoTeam` if there is no such
    /// shelf. Never fails, and allocates nothing.
    fn keys_revoke(&mut self, shelf: &str) -> Result<RegistryReply, StoreFault>
        ensures does { Does (in_memory self.old) (in_memory self.new) result (λ w. keys_revoked w shelf.now)
            (λ w. after_keys_revoke w shelf.now (keys_revoked w shelf.now)) }
        ensures answers { IsOk result }
    {
        if !self.shelves.contains_key(shelf) {
            return Ok(RegistryReply::NoTeam);
        }
        self.keys.remove_held_on(shelf);
        Ok(RegistryReply::Done)
    }
}
