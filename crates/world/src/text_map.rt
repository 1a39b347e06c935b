//! An ordered map from texts.
ghost use Rattle.std.specs.Prelude.{◌≡◌, ℕ, List, OnOk, OnErr, option_copied, is_some, not, map as each, string_bytes};
ghost use Rattle.std.specs.FinMap as map;
ghost use Rattle.std.specs.Option.{option_copied_mut};
ghost use Rattle.std.specs.Borrow.{sem};
ghost use Rattle.world.specs.World.{is_held_on, text_cmp};
ghost use Rattle.world.specs.MapsLend.{LendsValue};
ghost use Rattle.world.specs.FinMaps.{get_under, put_under, with_texts};

use crate::entry::Holder;
use crate::text_set::TextSet;
use std::alloc::{AllocError, Global};
use std::collections::BTreeMap;
use std::collections::btree_map::Keys;
use std::marker::Model;

/// An ordered map from texts, which contracts see as a finite map from their bytes.
#[derive(Drop)]
pub struct TextMap<V> {
    tree: BTreeMap<String, V>,
}

impl<V> Model for TextMap<V> {
    ghost use Rattle.std.specs.FinMap as map;
    ghost use Rattle.std.specs.Coded.{coded_list, coded_ℕ};
    ghost use Rattle.world.specs.World.{text_cmp};
    ghost use Rattle.world.specs.FinMaps.{by_text};

    ghost Value = { map.FinMap text_cmp V };

    ghost coded = { map.code (coded_list coded_ℕ) V.code };

    ghost view = { λ m. by_text m.tree.entries };
}

impl<V> TextMap<V> {
    /// Returns the empty map.
    pub fn new(alloc: Global) -> TextMap<V>
        ensures { result ≡ map.empty }
    {
        TextMap {
            tree: BTreeMap::new(alloc),
        }
    }

    /// Returns the value at the text, or None if there is none.
    pub fn get(&self, key: &str) -> Option<&V>
        ensures { option_copied result ≡ map.get self.now key.now }
    {
        self.tree.get(key)
    }

    /// Whether the map has a value at the text.
    pub fn contains_key(&self, key: &str) -> bool
        ensures { result ≡ map.contains_key self.now key.now }
    {
        self.tree.contains_key(key)
    }

    /// Returns how many texts the map has.
    pub fn len(&self) -> usize
        ensures { result ≡ map.len self.now }
    {
        self.tree.len()
    }

    /// Returns the texts in order. Allocates nothing.
    pub fn keys(&self) -> Keys<'_, String, V>
        ensures { each string_bytes result ≡ map.keys self.now }
    {
        self.tree.keys()
    }

    /// Puts the texts of the map into a set. Fails only if memory runs out.
    pub fn add_keys(&self, alloc: Global, texts: &mut TextSet) -> Result<(), AllocError>
        ensures { OnOk result (texts.new ≡ with_texts texts.old (map.keys self.now)) }
    {
        for key in self.keys() {
            texts.insert(String::from_str(alloc, key.as_str())?)?;
        }
        Ok(())
    }
}

impl<V> TextMap<V> {
    /// Returns the value at the text, to be changed in place, or None if there is none.
    pub fn get_mut(&mut self, key: &str) -> Option<&mut V>
        ensures* lends { sem 𝓛 (LendsValue V.row self.entry key.now result) }
        ensures value { option_copied_mut result ≡ map.get self.old key.now }
    {
        self.tree.get_mut(key)
    }
}

impl<V: Drop> TextMap<V> {
    /// Puts a value at the text. Fails only if memory runs out, and then leaves the map as it was.
    pub fn insert(&mut self, key: String, value: V) -> Result<(), AllocError>
        ensures ok { OnOk result (self.new ≡ map.insert self.old (string_bytes key) value) }
        ensures err { OnErr result (self.new ≡ self.old) }
    {
        self.tree.insert(key, value)?;
        Ok(())
    }

    /// Removes and returns the value at the text, or returns None if there is none.
    pub fn remove(&mut self, key: &str) -> Option<V>
        ensures value { result ≡ map.get self.old key.now }
        ensures rest { self.new ≡ map.remove self.old key.now }
    {
        self.tree.remove(key)
    }
}

impl TextMap<Holder> {
    /// Removes the holders on a shelf. Allocates nothing.
    pub fn remove_held_on(&mut self, shelf: &str)
        ensures { self.new ≡ map.retain_keys self.old (λ k. not (is_held_on shelf.now (map.get self.old k))) }
    {
        self.tree.retain(|_, holder| holder.shelf.as_str() != shelf);
    }
}

impl<V> TextMap<TextMap<V>> {
    /// Returns the value at the second text of the map at the first one, or None if there is none.
    pub fn get_under(&self, first: &str, second: &str) -> Option<&V>
        ensures { option_copied result ≡ get_under self.now first.now second.now }
    {
        self.get(first)?.get(second)
    }
}

impl<V: Drop> TextMap<TextMap<V>> {
    /// Puts a value at the second text into the map at the first one, and makes that map if there is none.
    /// Fails only if memory runs out, and then leaves the maps as they were.
    pub fn insert_under(
        &mut self,
        alloc: Global,
        first: &str,
        second: &str,
        value: V,
    ) -> Result<(), AllocError>
        ensures ok { OnOk result (self.new ≡ put_under self.old first.now second.now value) }
        ensures err { OnErr result (self.new ≡ self.old) }
    {
        let key = String::from_str(alloc, second)?;
        if let Some(inner) = self.get_mut(first) {
            return inner.insert(key, value);
        }
        let mut inner = TextMap::new(alloc);
        inner.insert(key, value)?;
        self.insert(String::from_str(alloc, first)?, inner)
    }
}
