//! Keeps what shelves see of versions.

ghost use Rattle.std.specs.Prelude.{◌≡◌, [], Some, IfOk, IfSome, IsTrue, option_copied};
ghost use Rattle.world.specs.World.{World, view};
ghost use Rattle.outline.specs.Seen.{seen_heading};
ghost use Rattle.cache.specs.Headings.{is_of, AreHeadings};
ghost use Rattle.cache.specs.Recent.{Holds};

use crate::recent::{Recent, Weighed, hash_of};
use outline::seen::SeenHeading;
use std::alloc::{AllocError, Global};
use text::Text;

/// What a heading weighs in addition to its go.mod: its names, its time and its position among the others.
/// So there are at most 16,384 headings.
const HEADING_WEIGHT: usize = 512;

/// What a shelf sees of a version.
#[derive(Drop)]
pub struct KeptHeading {
    pub(crate) shelf: Text,
    pub(crate) path: Text,
    pub(crate) version: Text,
    pub(crate) seen: SeenHeading,
}

impl KeptHeading {
    /// Reports whether it is what a shelf sees of a version.
    fn is_of(&self, shelf: &str, path: &str, version: &str) -> bool
        ensures { result ≡ is_of shelf.now path.now version.now self.now }
    {
        self.shelf.as_str() == shelf
            && self.path.as_str() == path
            && self.version.as_str() == version
    }

    /// Returns what a shelf sees of a version, with a copy of it. Fails if memory runs out.
    fn copy_of(
        alloc: Global,
        shelf: &str,
        path: &str,
        version: &str,
        seen: &SeenHeading,
    ) -> Result<KeptHeading, AllocError>
        ensures { IfOk result (λ it. it
            ≡ record { shelf = shelf.now; path = path.now; version = version.now; seen = seen.now }) }
    {
        Ok(KeptHeading {
            shelf: Text::copy_of(alloc, shelf)?,
            path: Text::copy_of(alloc, path)?,
            version: Text::copy_of(alloc, version)?,
            seen: seen.copy(alloc)?,
        })
    }
}

impl Weighed for KeptHeading {
    ghost use Rattle.cache.specs.Weights.{heading_weight, most_headings};

    ghost weighs = { heading_weight };

    ghost MOST = { most_headings };

    /// 8 MiB. A byte of a go.mod weighs one.
    const MOST: usize = 8_388_608;

    fn weight(&self) -> usize {
        self.seen
            .heading
            .gomod
            .as_slice()
            .len()
            .saturating_add(HEADING_WEIGHT)
    }
}

/// Kept headings. Those that were asked for longest ago make room for new ones. A publish or a new team can change what
/// a shelf sees of a version, so each drops all of them.
pub type Headings = Recent<KeptHeading>;

impl Recent<KeptHeading> {
    /// Returns an empty one, which takes no memory.
    pub fn no_headings() -> Headings
        ensures { result ≡ [] }
    {
        Recent::new()
    }

    /// Returns a copy of what a shelf sees of a version, or None if it is not kept or memory runs out.
    pub fn seen(
        &mut self,
        alloc: Global,
        shelf: &str,
        path: &str,
        version: &str,
    ) -> Option<SeenHeading>
        ensures others { (it : _) → Holds self.new it → Holds self.old it }
        ensures found { IfSome result (λ seen. (w : World) → AreHeadings w self.old
            → Some seen ≡ seen_heading (view w shelf.now path.now version.now)) }
    {
        self.promote(hash_of(&[shelf, path, version]));
        let kept = self.kept_heading(shelf, path, version)?;
        match kept.seen.copy(alloc) {
            Ok(copy) => Some(copy),
            Err(_) => None,
        }
    }

    /// Keeps a copy of what a shelf sees of a version, if it sees anything. If memory runs out, it is not kept.
    pub fn keep_seen(
        &mut self,
        alloc: Global,
        shelf: &str,
        path: &str,
        version: &str,
        seen: Option<&SeenHeading>,
    )
        ensures { (w : World) → AreHeadings w self.old
            → option_copied seen.entry ≡ seen_heading (view w shelf.now path.now version.now) → AreHeadings w self.new }
    {
        let Some(seen) = seen else {
            return;
        };
        if let Ok(kept) = KeptHeading::copy_of(alloc, shelf, path, version, seen) {
            self.keep(alloc, hash_of(&[shelf, path, version]), kept);
        }
    }

    /// Returns what a shelf sees of a version, or None if it is not kept.
    fn kept_heading(&self, shelf: &str, path: &str, version: &str) -> Option<&KeptHeading>
        ensures held { IfSome result (λ it. Holds self.now it.now) }
        ensures names { IfSome result (λ it. IsTrue (is_of shelf.now path.now version.now it.now)) }
    {
        let kept = self.get(hash_of(&[shelf, path, version]))?;
        if kept.is_of(shelf, path, version) {
            Some(kept)
        } else {
            None
        }
    }
}
