//! Keeps the paths at which shelves see no version.

ghost use Rattle.std.specs.Prelude.{◌≡◌, ◌≤◌, ◌⊎◌, [], OnOk};
ghost use Rattle.std.specs.FinMap as map;
ghost use Rattle.std.specs.FinSet as set;
ghost use Rattle.world.specs.World.{World, place, with_entry};
ghost use Rattle.world.specs.FinMaps.{by_text};
ghost use Rattle.world.specs.Versions.{versions_of};
ghost use Rattle.cache.specs.Absences.{shelves_at, AreAbsent, HasPairs};
ghost use Rattle.cache.specs.Weights.{most_absences};

use std::alloc::{AllocError, Global};
use std::collections::BTreeMap;
use std::marker::Model;
use world::text_set::TextSet;

/// The most pairs of a path and a shelf that are kept.
/// The figure bounds the memory, not the answers: where one more has no room, all are forgotten and found again.
const MOST_ABSENCES: usize = 16_384;

/// Kept paths with the shelves that see no version of them, most of them paths of public modules. A publish forgets
/// its path without going over the others. Contracts see a map from paths to sets of shelves.
#[derive(Drop)]
pub struct Absences {
    paths: BTreeMap<String, TextSet>,
    number: usize,
}

impl Model for Absences {
    ghost use Rattle.std.specs.Prelude.{◌≤◌};
    ghost use Rattle.std.specs.FinMap as map;
    ghost use Rattle.std.specs.FinSet as set;
    ghost use Rattle.world.specs.Code.{text_code};
    ghost use Rattle.world.specs.FinMaps.{by_text};
    ghost use Rattle.cache.specs.Absences.{Lacking, HasPairs};
    ghost use Rattle.cache.specs.Weights.{most_absences};

    ghost Value = { Lacking };

    ghost coded = { map.code text_code (set.code text_code) };

    ghost view = { λ a. by_text a.paths.entries };

    ghost invariant = { λ a. HasPairs (by_text a.paths.entries) a.number × (a.number ≤ most_absences) };
}

impl Absences {
    /// Returns an empty one, which takes no memory.
    pub fn new(alloc: Global) -> Absences
        ensures { result ≡ map.empty }
    {
        Absences {
            paths: BTreeMap::new(alloc),
            number: 0,
        }
    }

    /// Reports whether it is kept that a shelf sees no version of a path.
    pub fn has(&self, shelf: &str, path: &str) -> bool
        ensures { result ≡ set.contains (shelves_at self.now path.now) shelf.now }
    {
        match self.paths.get(path) {
            Some(shelves) => shelves.contains(shelf),
            None => false,
        }
    }

    /// Returns how many pairs there are at most.
    pub(crate) fn number(&self) -> usize
        ensures has { HasPairs self.now result }
        ensures at_most { result ≤ most_absences }
    {
        self.number
    }

    /// Keeps that a shelf sees no version of a path. If memory runs out, it forgets all that is kept.
    pub fn keep(&mut self, alloc: Global, shelf: &str, path: &str)
        ensures { (w : World) → AreAbsent w self.old → versions_of w shelf.now path.now ≡ [] → AreAbsent w self.new }
    {
        self.make_room(alloc);
        self.add(alloc, shelf, path);
    }

    /// Forgets a path, which gets a version.
    pub fn forget(&mut self, path: &str)
        ensures { (w : World) (s v : _) (e : _) → AreAbsent w self.old
            → AreAbsent (with_entry w (place s path.now v) e) self.new }
    {
        self.remove(path);
    }

    /// Takes a path out, with all of its shelves.
    fn remove(&mut self, path: &str)
        ensures { self.new ≡ map.remove self.old path.now }
    {
        drop(self.paths.remove(path));
    }

    /// Forgets all that is kept if one more pair has no room.
    fn make_room(&mut self, alloc: Global)
        ensures { (self.new ≡ self.old) ⊎ (self.new ≡ map.empty) }
    {
        if self.number >= MOST_ABSENCES {
            *self = Absences::new(alloc);
        }
    }

    /// Keeps that a shelf sees no version of a path, if there is room. If memory runs out, it forgets all that is
    /// kept.
    fn add(&mut self, alloc: Global, shelf: &str, path: &str)
        ensures { (w : World) → AreAbsent w self.old → versions_of w shelf.now path.now ≡ [] → AreAbsent w self.new }
    {
        if self.number >= MOST_ABSENCES {
            return;
        }
        if put(alloc, &mut self.paths, path, shelf).is_err() {
            *self = Absences::new(alloc);
            return;
        }
        self.number += 1;
    }
}

/// Takes the shelves of a path out of the map and returns them, or none if it has none.
fn take_shelves(alloc: Global, paths: &mut BTreeMap<String, TextSet>, path: &str) -> TextSet
    ensures shelves { result ≡ shelves_at (by_text paths.old.entries) path.now }
    ensures rest { by_text paths.new.entries ≡ map.remove (by_text paths.old.entries) path.now }
{
    match paths.remove(path) {
        Some(shelves) => shelves,
        None => TextSet::new(alloc),
    }
}

/// Puts a shelf to those of a path. Fails if memory runs out.
fn put(
    alloc: Global,
    paths: &mut BTreeMap<String, TextSet>,
    path: &str,
    shelf: &str,
) -> Result<(), AllocError>
    ensures { OnOk result (by_text paths.new.entries ≡ map.insert (map.remove (by_text paths.old.entries) path.now)
        path.now (set.insert (shelves_at (by_text paths.old.entries) path.now) shelf.now)) }
{
    let mut shelves = take_shelves(alloc, paths, path);
    shelves.insert(String::from_str(alloc, shelf)?)?;
    paths.insert(String::from_str(alloc, path)?, shelves)?;
    Ok(())
}
