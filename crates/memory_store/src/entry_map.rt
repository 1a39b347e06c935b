//! Entries by their places.
ghost use Rattle.std.specs.Prelude.{◌≡◌, ◌&&◌, ◌++◌, OnOk, OnErr, option_copied, bytes_eq};
ghost use Rattle.std.specs.FinMap as map;
ghost use Rattle.std.specs.FinSet as set;
ghost use Rattle.world.specs.Lines.{in_order};
ghost use Rattle.world.specs.Versions.{named};
ghost use Rattle.world.specs.Visible.{versions_among, paths_among};
ghost use Rattle.world.specs.World.{place};

use modver::Version;
use std::alloc::{AllocError, Global};
use std::marker::Model;
use world::entry::Entry;
use world::text_map::TextMap;
use world::text_set::TextSet;
use world::versions::add_named;

/// Entries by shelf, then by path, then by version, which contracts see as a finite map from places.
/// The maps are nested, so a lookup needs no owned text and a count is a length.
#[derive(Drop)]
pub struct EntryMap {
    shelves: TextMap<TextMap<TextMap<Entry>>>,
}

impl Model for EntryMap {
    ghost use Rattle.std.specs.FinMap as map;
    ghost use Rattle.world.specs.World.{place_cmp};
    ghost use Rattle.world.specs.declared.entry.Entry.{Entry};
    ghost use Rattle.world.specs.Code.{place_code, entry_code};

    ghost Value = { map.FinMap place_cmp Entry };

    ghost coded = { map.code place_code entry_code };

    ghost use Rattle.memory_store.specs.NestedMaps.{by_place, EachHasVersion};

    ghost view = { λ m. by_place m.shelves };

    ghost invariant = { λ m. EachHasVersion m.shelves };
}

impl EntryMap {
    /// Returns the empty map.
    pub fn new(alloc: Global) -> EntryMap
        ensures { result ≡ map.empty }
    {
        EntryMap {
            shelves: TextMap::new(alloc),
        }
    }

    /// Returns the entry at a place, or None if there is none.
    pub fn get(&self, shelf: &str, path: &str, version: &str) -> Option<&Entry>
        ensures { option_copied result ≡ map.get self.now (place shelf.now path.now version.now) }
    {
        self.shelves.get(shelf)?.get_under(path, version)
    }

    /// Returns how many versions of a path stand on a shelf.
    pub fn count(&self, shelf: &str, path: &str) -> usize
        ensures { result
            ≡ map.len (map.retain_keys self.now (λ q. bytes_eq q.shelf shelf.now && bytes_eq q.path path.now)) }
    {
        match self.shelves.get_under(shelf, path) {
            None => 0,
            Some(versions) => versions.len(),
        }
    }

    /// Appends the versions of a path on a shelf to `versions`. Fails only if memory runs out.
    pub fn add_versions(
        &self,
        alloc: Global,
        shelf: &str,
        path: &str,
        versions: &mut Vec<Version>,
    ) -> Result<(), AllocError>
        ensures { OnOk result (versions.new.items
            ≡ versions.old.items ++ named (in_order (versions_among shelf.now path.now (map.entries self.now)))) }
    {
        match self.shelves.get_under(shelf, path) {
            None => Ok(()),
            Some(found) => add_named(alloc, found, versions),
        }
    }

    /// Puts the paths on a shelf into a set. Fails only if memory runs out.
    pub fn add_paths(
        &self,
        alloc: Global,
        shelf: &str,
        paths: &mut TextSet,
    ) -> Result<(), AllocError>
        ensures { OnOk result (paths.new ≡ set.union paths.old (paths_among shelf.now (map.entries self.now))) }
    {
        match self.shelves.get(shelf) {
            None => Ok(()),
            Some(found) => found.add_keys(alloc, paths),
        }
    }

    /// Puts an entry at a place. Fails only if memory runs out, and then leaves the map as it was.
    pub fn insert(
        &mut self,
        alloc: Global,
        shelf: &str,
        path: &str,
        version: &str,
        entry: Entry,
    ) -> Result<(), AllocError>
        ensures ok { OnOk result (self.new ≡ map.insert self.old (place shelf.now path.now version.now) entry) }
        ensures err { OnErr result (self.new ≡ self.old) }
    {
        if let Some(paths) = self.shelves.get_mut(shelf) {
            return paths.insert_under(alloc, path, version, entry);
        }
        let mut paths = TextMap::new(alloc);
        paths.insert_under(alloc, path, version, entry)?;
        self.shelves.insert(String::from_str(alloc, shelf)?, paths)
    }
}
