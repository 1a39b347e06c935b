//! Counts of versions that a store keeps.
ghost use Rattle.std.specs.Prelude.{◌≡◌, ◌⊎◌, None};
ghost use Rattle.std.specs.FinMap as map;
ghost use Rattle.world.specs.World.{World, place, count, with_entry};
ghost use Rattle.world.specs.FinMaps.{get_under, put_under};
ghost use Rattle.world.specs.Counts.{AreCounts};

use crate::text_map::TextMap;
use std::alloc::Global;
use std::marker::Model;

/// How many versions of some paths stand on some shelves, so that a store need not count them again: with a kept count
/// a publish costs as much however many versions its path has. Contracts see a map by shelf and path.
#[derive(Drop)]
pub struct Counts {
    shelves: TextMap<TextMap<u64>>,
}

impl Model for Counts {
    ghost use Rattle.std.specs.Coded.{coded_ℕ};
    ghost use Rattle.std.specs.FinMap as map;
    ghost use Rattle.world.specs.Code.{text_code};
    ghost use Rattle.world.specs.Counts.{Tally};

    ghost Value = { Tally };

    ghost coded = { map.code text_code (map.code text_code coded_ℕ) };

    ghost view = { λ c. c.shelves };
}

impl Counts {
    /// Returns an empty `Counts`. Allocates nothing.
    pub fn new(alloc: Global) -> Counts
        ensures { result ≡ map.empty }
    {
        Counts {
            shelves: TextMap::new(alloc),
        }
    }

    /// Returns the count of a path on a shelf, or None if it is not kept.
    pub fn get(&self, shelf: &str, path: &str) -> Option<u64>
        ensures { result ≡ get_under self.now shelf.now path.now }
    {
        self.shelves.get_under(shelf, path).copied()
    }

    /// Keeps the count of a path on a shelf. If memory runs out, it forgets all counts instead.
    pub fn keep(&mut self, alloc: Global, shelf: &str, path: &str, number: u64)
        ensures kept { (self.new ≡ put_under self.old shelf.now path.now number) ⊎ (self.new ≡ map.empty) }
        ensures counts { (w : World) → AreCounts w self.old
            → number ≡ count w shelf.now path.now → AreCounts w self.new }
    {
        if self
            .shelves
            .insert_under(alloc, shelf, path, number)
            .is_err()
        {
            self.shelves = TextMap::new(alloc);
        }
    }

    /// Counts one more version of a path on a shelf if that count is kept. If memory runs out or the count cannot grow,
    /// it forgets all counts instead.
    pub fn raise(&mut self, alloc: Global, shelf: &str, path: &str)
        ensures { (w : World) (v : _) (e : _) → map.get w.entries (place shelf.now path.now v) ≡ None
            → AreCounts w self.old → AreCounts (with_entry w (place shelf.now path.now v) e) self.new }
    {
        let Some(number) = self.get(shelf, path) else {
            return;
        };
        match number.checked_add(1) {
            Some(more) => self.keep(alloc, shelf, path, more),
            None => self.shelves = TextMap::new(alloc),
        }
    }
}
