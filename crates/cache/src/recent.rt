//! Kept values, of which those that were asked for longest ago make room for new ones.

ghost use Rattle.std.specs.Prelude.{◌≡◌, ◌≤◌, ◌⊎◌, [], IfOk, IfSome};
ghost use Rattle.std.specs.Option.{option_map_or};
ghost use Rattle.cache.specs.Recent.{Holds, weighed_in};

use lru::LruCache;
use std::alloc::{AllocError, Global};
use std::hash::{FoldHasher, Hasher};
use std::marker::Model;

/// A kind of values that are kept. What a value weighs stands for the memory that it takes.
pub trait Weighed {
    ghost use Rattle.std.specs.Prelude.{ℕ, ◌≤◌};

    /// What a value weighs.
    ghost weighs: { Self → ℕ };

    ghost MOST: { ℕ };

    /// The most that all kept values of the kind weigh together. The figure bounds the memory, not the answers: what
    /// is not kept is queried each time.
    const MOST: usize;

    /// Returns at least what a value weighs, or more than `MOST`.
    fn weight(&self) -> usize
        ensures { result ≤ MOST → weighs self.now ≤ result };
}

/// Values with their weights, the one that was asked for last first. It drops nothing by itself.
type Cache<V> = LruCache<u64, (usize, V)>;

/// Values under hashes, which together weigh at most the figure of their kind. To make room for a new value, it drops
/// those that were asked for longest ago. Contracts see each value with its hash and its noted weight.
#[derive(Drop)]
pub struct Recent<V: Weighed> {
    pub(crate) cache: Option<Cache<V>>,
    weight: usize,
}

impl<V: Weighed> Model for Recent<V> {
    ghost use Rattle.std.specs.Prelude.{ℕ, List, []};
    ghost use Rattle.std.specs.Coded.{coded_list, coded×, coded_ℕ};
    ghost use Rattle.std.specs.Option.{option_map_or};
    ghost use Rattle.cache.specs.Recent.{Fits};

    ghost Value = { List (ℕ × (ℕ × V)) };

    ghost coded = { coded_list (coded× coded_ℕ (coded× coded_ℕ V.code)) };

    ghost view = { λ r. option_map_or (λ cache. cache.entries) r.cache [] };

    ghost invariant = { λ r. Fits V.weighs V.MOST (option_map_or (λ cache. cache.entries) r.cache []) r.weight };
}

impl<V: Weighed> Recent<V> {
    /// Returns an empty one. It takes no memory.
    pub(crate) fn new() -> Recent<V>
        ensures { result ≡ [] }
    {
        Recent {
            cache: None,
            weight: 0,
        }
    }

    /// Returns at least what the values weigh together, and at most the figure of their kind.
    pub(crate) fn weight(&self) -> usize
        ensures at_least { weighed_in V.weighs self.now ≤ result }
        ensures at_most { result ≤ V.MOST }
    {
        self.weight
    }

    /// Returns the value under a hash, or None if there is none.
    pub(crate) fn get(&self, hash: u64) -> Option<&V>
        ensures { IfSome result (λ value. Holds self.now value.now) }
    {
        let held = self.cache.as_ref()?.peek(&hash)?;
        Some(&held.1)
    }

    /// Makes the value under a hash, if there is one, the one that was asked for last.
    pub(crate) fn promote(&mut self, hash: u64)
        ensures { (v : _) → Holds self.new v → Holds self.old v }
    {
        let Some(cache) = &mut self.cache else {
            return;
        };
        cache.promote(&hash);
    }

    /// Returns the value under a hash and keeps it no longer, or returns None if there is none.
    pub(crate) fn take(&mut self, hash: u64) -> Option<V>
        ensures others { (v : _) → Holds self.new v → Holds self.old v }
        ensures taken { IfSome result (Holds self.old) }
    {
        let Some(cache) = &mut self.cache else {
            return None;
        };
        let (_, (weight, value)) = cache.pop_entry(&hash)?;
        self.weight = self.weight.saturating_sub(weight);
        Some(value)
    }
}

impl<V: Weighed + Drop> Recent<V> {
    /// Keeps a value under a hash, instead of the one that was there. If memory runs out, the value is not kept. A
    /// value that alone weighs more than all may changes nothing.
    pub(crate) fn keep(&mut self, alloc: Global, hash: u64, value: V)
        ensures { (v : _) → Holds self.new v → Holds self.old v ⊎ (v ≡ value) }
    {
        let weight = value.weight();
        if weight > V::MOST {
            return;
        }
        self.drop_one(hash);
        self.make_room(weight);
        self.put(alloc, hash, value);
    }

    /// Drops the value under a hash, if there is one.
    pub(crate) fn drop_one(&mut self, hash: u64)
        ensures { (v : _) → Holds self.new v → Holds self.old v }
    {
        drop(self.take(hash));
    }

    /// Drops the values that were asked for longest ago, until one of this weight has room.
    fn make_room(&mut self, weight: usize)
        ensures { (v : _) → Holds self.new v → Holds self.old v }
    {
        for _ in 0..self.len() {
            if weight <= V::MOST - self.weight {
                return;
            }
            self.drop_last();
        }
    }

    /// Returns how many values there are.
    fn len(&self) -> usize {
        match &self.cache {
            Some(cache) => cache.len(),
            None => 0,
        }
    }

    /// Drops the value that was asked for longest ago, if there is one.
    fn drop_last(&mut self)
        ensures { (v : _) → Holds self.new v → Holds self.old v }
    {
        let Some(cache) = &mut self.cache else {
            return;
        };
        if let Some((_, (weight, value))) = cache.pop_lru() {
            self.weight = self.weight.saturating_sub(weight);
            drop(value);
        }
    }

    /// Adds a value, if it has room and there is memory.
    fn put(&mut self, alloc: Global, hash: u64, value: V)
        ensures { (v : _) → Holds self.new v → Holds self.old v ⊎ (v ≡ value) }
    {
        let weight = value.weight();
        if weight > V::MOST - self.weight {
            return;
        }
        let Ok(mut cache) = cache_or_new(alloc, self.cache.take()) else {
            return;
        };
        let Ok(_) = cache.put(hash, (weight, value)) else {
            self.cache = Some(cache);
            return;
        };
        self.weight += weight;
        self.cache = Some(cache);
    }
}

/// Returns the cache, or an empty one if there is none. Fails if memory runs out.
fn cache_or_new<V>(alloc: Global, cache: Option<Cache<V>>) -> Result<Cache<V>, AllocError>
    ensures { IfOk result (λ made. made.entries ≡ option_map_or (λ old. old.entries) cache []) }
{
    match cache {
        Some(cache) => Ok(cache),
        None => LruCache::unbounded(alloc),
    }
}

/// Returns the hash under which a value with these names is kept. Values with the same hash replace each other, so
/// each value holds its names, and a lookup compares them.
pub(crate) fn hash_of(names: &[&str]) -> u64 {
    let mut hasher = FoldHasher::default();
    for name in names {
        hasher.write(name.as_bytes());
    }
    hasher.finish()
}
