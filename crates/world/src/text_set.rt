//! An ordered set of texts.
ghost use Rattle.std.specs.Prelude.{◌≡◌, ◌↔◌, IsTrue, IfOk, OnOk, OnErr, map as each, string_bytes};
ghost use Rattle.std.specs.FinSet as set;
ghost use Rattle.world.specs.Lines.{in_order, lines_of};

use crate::bytes::Bytes;
use std::alloc::{AllocError, Global};
use std::collections::BTreeSet;
use std::collections::btree_set::Iter;
use std::marker::Model;

/// An ordered set of texts, which contracts see as a finite set of their bytes.
#[derive(Drop)]
pub struct TextSet {
    tree: BTreeSet<String>,
}

impl Model for TextSet {
    ghost use Rattle.std.specs.FinSet as set;
    ghost use Rattle.std.specs.Coded.{coded_list, coded_ℕ};
    ghost use Rattle.world.specs.World.{text_cmp};
    ghost use Rattle.world.specs.FinMaps.{texts};

    ghost Value = { set.FinSet text_cmp };

    ghost coded = { set.code (coded_list coded_ℕ) };

    ghost view = { λ s. texts s.tree.keys };
}

impl TextSet {
    /// Returns the empty set. Allocates nothing.
    pub fn new(alloc: Global) -> TextSet
        ensures { result ≡ set.empty }
    {
        TextSet {
            tree: BTreeSet::new(alloc),
        }
    }

    /// Whether the set has no text.
    pub fn is_empty(&self) -> bool
        ensures { IsTrue result ↔ (self.now ≡ set.empty) }
    {
        self.tree.is_empty()
    }

    /// Whether the set has the text.
    pub fn contains(&self, text: &str) -> bool
        ensures { result ≡ set.contains self.now text.now }
    {
        self.tree.contains(text)
    }

    /// Puts a text into the set. Fails only if memory runs out, and then leaves the set as it was.
    pub fn insert(&mut self, text: String) -> Result<(), AllocError>
        ensures ok { OnOk result (self.new ≡ set.insert self.old (string_bytes text)) }
        ensures err { OnErr result (self.new ≡ self.old) }
    {
        self.tree.insert(text)?;
        Ok(())
    }

    /// Returns the texts in order. Allocates nothing.
    pub fn iter(&self) -> Iter<'_, String>
        ensures { each string_bytes result ≡ in_order self.now }
    {
        self.tree.iter()
    }

    /// Returns the texts in order, each ended by a newline. Fails only if memory runs out.
    pub fn lines(&self, alloc: Global) -> Result<Bytes, AllocError>
        ensures { IfOk result (λ b. b ≡ lines_of (in_order self.now)) }
    {
        let mut lines = Vec::new(alloc);
        for text in self.iter() {
            lines.extend_from_slice(text.as_bytes())?;
            lines.push(b'\n')?;
        }
        Ok(Bytes::new(lines))
    }
}
