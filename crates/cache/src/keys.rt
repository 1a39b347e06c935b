//! Keeps what keys hold.

ghost use Rattle.std.specs.Prelude.{◌≡◌, [], Some, bytes_eq, IfOk, IfSome, IsTrue, option_copied};
ghost use Rattle.std.specs.FinMap as map;
ghost use Rattle.world.specs.World.{World};
ghost use Rattle.cache.specs.Keys.{AreKeys};
ghost use Rattle.cache.specs.Recent.{Holds};

use crate::recent::{Recent, Weighed, hash_of};
use std::alloc::{AllocError, Global};
use text::Text;
use world::entry::Holder;

/// A key with what it holds.
#[derive(Drop)]
pub struct KeptKey {
    pub(crate) key: Text,
    pub(crate) holder: Holder,
}

impl Weighed for KeptKey {
    ghost use Rattle.cache.specs.Weights.{key_weight, most_keys};

    ghost weighs = { key_weight };

    ghost MOST = { most_keys };

    /// A key weighs one and takes about 300 bytes.
    const MOST: usize = 8_192;

    fn weight(&self) -> usize {
        1
    }
}

/// Kept keys. The key that was used longest ago makes room for a new one.
pub type Keys = Recent<KeptKey>;

impl Recent<KeptKey> {
    /// Returns an empty one, which takes no memory.
    pub fn no_keys() -> Keys
        ensures { result ≡ [] }
    {
        Recent::new()
    }

    /// Returns a copy of what a key holds, or None if it is not kept or memory runs out.
    pub fn holder(&mut self, alloc: Global, key: &str) -> Option<Holder>
        ensures others { (it : _) → Holds self.new it → Holds self.old it }
        ensures found { IfSome result
            (λ holder. (w : World) → AreKeys w self.old → map.get w.keys key.now ≡ Some holder) }
    {
        self.promote(hash_of(&[key]));
        let kept = self.kept_key(key)?;
        match kept.holder.copy(alloc) {
            Ok(copy) => Some(copy),
            Err(_) => None,
        }
    }

    /// Keeps a copy of what a key holds, if the key exists. If memory runs out, it is not kept.
    pub fn keep_holder(&mut self, alloc: Global, key: &str, holder: Option<&Holder>)
        ensures { (w : World) → AreKeys w self.old
            → map.get w.keys key.now ≡ option_copied holder.entry → AreKeys w self.new }
    {
        let Some(holder) = holder else {
            return;
        };
        if let Ok(kept) = KeptKey::copy_of(alloc, key, holder) {
            self.keep(alloc, hash_of(&[key]), kept);
        }
    }

    /// Returns the key with what it holds, or None if it is not kept.
    fn kept_key(&self, key: &str) -> Option<&KeptKey>
        ensures held { IfSome result (λ it. Holds self.now it.now) }
        ensures name { IfSome result (λ it. IsTrue (bytes_eq it.now.key key.now)) }
    {
        let kept = self.get(hash_of(&[key]))?;
        if kept.key.as_str() == key {
            Some(kept)
        } else {
            None
        }
    }
}

impl KeptKey {
    /// Returns a key with a copy of what it holds. Fails if memory runs out.
    fn copy_of(alloc: Global, key: &str, holder: &Holder) -> Result<KeptKey, AllocError>
        ensures { IfOk result (λ it. it ≡ record { key = key.now; holder = holder.now }) }
    {
        Ok(KeptKey {
            key: Text::copy_of(alloc, key)?,
            holder: holder.copy(alloc)?,
        })
    }
}
