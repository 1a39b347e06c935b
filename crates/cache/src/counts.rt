//! Bounds how many counts of versions are kept.

ghost use Rattle.std.specs.Prelude.{◌≡◌, ◌≤◌, None};
ghost use Rattle.std.specs.FinMap as map;
ghost use Rattle.world.specs.World.{World, place, count, with_entry};
ghost use Rattle.world.specs.FinMaps.{get_under};
ghost use Rattle.world.specs.Counts.{AreCounts};
ghost use Rattle.cache.specs.Counts.{HasAtMost};
ghost use Rattle.cache.specs.Weights.{most_counts};

use std::alloc::Global;
use std::marker::Model;
use world::counts::Counts;

/// The most counts that are kept. Each takes about 200 bytes.
/// The figure bounds the memory, not the answers: where one more has no room, all are forgotten and counted again.
const MOST_COUNTS: usize = 16_384;

/// Kept counts of versions, as those of `world::counts`, and how many they are at most.
#[derive(Drop)]
pub struct KeptCounts {
    counts: Counts,
    number: usize,
}

impl Model for KeptCounts {
    ghost use Rattle.std.specs.Prelude.{◌≤◌};
    ghost use Rattle.std.specs.Coded.{coded_ℕ};
    ghost use Rattle.std.specs.FinMap as map;
    ghost use Rattle.world.specs.Code.{text_code};
    ghost use Rattle.world.specs.Counts.{Tally};
    ghost use Rattle.cache.specs.Counts.{HasAtMost};
    ghost use Rattle.cache.specs.Weights.{most_counts};

    ghost Value = { Tally };

    ghost coded = { map.code text_code (map.code text_code coded_ℕ) };

    ghost view = { λ c. c.counts };

    ghost invariant = { λ c. HasAtMost c.counts c.number × (c.number ≤ most_counts) };
}

impl KeptCounts {
    /// Returns an empty one, which takes no memory.
    pub fn new(alloc: Global) -> KeptCounts
        ensures { result ≡ map.empty }
    {
        KeptCounts {
            counts: Counts::new(alloc),
            number: 0,
        }
    }

    /// Returns the count of a path on a shelf, or None if it is not kept.
    pub fn get(&self, shelf: &str, path: &str) -> Option<u64>
        ensures { result ≡ get_under self.now shelf.now path.now }
    {
        self.counts.get(shelf, path)
    }

    /// Returns how many counts there are at most.
    pub(crate) fn number(&self) -> usize
        ensures has { HasAtMost self.now result }
        ensures at_most { result ≤ most_counts }
    {
        self.number
    }

    /// Keeps the count of a path on a shelf. If memory runs out, it forgets all counts instead.
    pub fn keep(&mut self, alloc: Global, shelf: &str, path: &str, number: u64)
        ensures counts { (w : World) → AreCounts w self.old
            → number ≡ count w shelf.now path.now → AreCounts w self.new }
    {
        if self.number >= MOST_COUNTS {
            self.counts = Counts::new(alloc);
            self.number = 0;
        }
        self.number += 1;
        self.counts.keep(alloc, shelf, path, number);
    }

    /// Counts one more version of a path on a shelf if that count is kept. If memory runs out or the count cannot
    /// grow, it forgets all counts instead.
    pub fn raise(&mut self, alloc: Global, shelf: &str, path: &str)
        ensures { (w : World) (v : _) (e : _) → map.get w.entries (place shelf.now path.now v) ≡ None
            → AreCounts w self.old → AreCounts (with_entry w (place shelf.now path.now v) e) self.new }
    {
        let Some(number) = self.get(shelf, path) else {
            return;
        };
        match number.checked_add(1) {
            Some(more) => self.counts.keep(alloc, shelf, path, more),
            None => *self = KeptCounts::new(alloc),
        }
    }
}
