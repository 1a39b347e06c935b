//! What a store keeps from call to call.

ghost use Rattle.std.specs.Prelude.{◌≡◌, [], None, option_copied, IfSome, IsTrue};
ghost use Rattle.world.specs.World.{World, IsWorld, view};
ghost use Rattle.world.specs.Latest.{latest_of};
ghost use Rattle.world.specs.Versions.{versions_of};
ghost use Rattle.outline.specs.Seen.{seen_heading};
ghost use Rattle.cache.specs.Caches.{AreKept, IsNothing, WeighsAtMost};

use crate::absences::Absences;
use crate::counts::KeptCounts;
use crate::groups::Groups;
use crate::headings::Headings;
use crate::keys::Keys;
use crate::lists::Lists;
use crate::missed::Missed;
use crate::zips::Zips;
use modver::Version;
use outline::seen::SeenHeading;
use std::alloc::Global;
use world::version_list::Versions;

/// What was found since a store was opened. Nobody else writes, so it stays right.
/// The counts are of the paths that were published to since then. No table has a column for them.
#[derive(Drop)]
pub struct Caches {
    pub counts: KeptCounts,
    /// How many versions all shelves have, if they were counted.
    pub total: Option<u64>,
    pub lists: Lists,
    pub groups: Groups,
    pub zips: Zips,
    pub headings: Headings,
    pub keys: Keys,
    pub absences: Absences,
    pub(crate) missed: Missed,
}

impl Caches {
    /// Returns an empty one, which takes no memory.
    pub fn new(alloc: Global) -> Caches
        ensures { IsNothing result }
    {
        Caches {
            counts: KeptCounts::new(alloc),
            total: None,
            lists: Lists::no_lists(),
            groups: Groups::new(alloc),
            zips: Zips::no_zips(),
            headings: Headings::no_headings(),
            keys: Keys::no_keys(),
            absences: Absences::new(alloc),
            missed: Missed::new(),
        }
    }

    /// Returns a copy of the versions of a path that a shelf sees, or None if they are not kept or memory runs out.
    pub fn versions(&mut self, alloc: Global, shelf: &str, path: &str) -> Option<Versions>
        ensures others { (w : World) → AreKept w self.old → AreKept w self.new }
        ensures found { IfSome result (λ versions. (w : World) → AreKept w self.old
            → versions ≡ versions_of w shelf.now path.now) }
    {
        if self.absences.has(shelf, path) {
            return Some(no_versions(alloc));
        }
        self.lists.versions(alloc, shelf, path)
    }

    /// Returns a copy of the latest version of a path that a shelf sees, or None if it is not kept or memory runs
    /// out.
    pub fn latest(&mut self, alloc: Global, shelf: &str, path: &str) -> Option<Option<Version>>
        ensures others { (w : World) → AreKept w self.old → AreKept w self.new }
        ensures found { IfSome result (λ latest. (w : World) → AreKept w self.old
            → latest ≡ latest_of w shelf.now path.now) }
    {
        if self.absences.has(shelf, path) {
            return Some(None);
        }
        self.lists.latest(alloc, shelf, path)
    }

    /// Keeps a copy of the versions of a path that a shelf sees, or that it sees none. If memory runs out, less is
    /// kept.
    pub fn keep_versions(&mut self, alloc: Global, shelf: &str, path: &str, versions: &[Version])
        ensures { (w : World) → AreKept w self.old
            → versions.now ≡ versions_of w shelf.now path.now → AreKept w self.new }
    {
        if versions.is_empty() {
            self.absences.keep(alloc, shelf, path);
        } else {
            self.lists.keep_copy(alloc, shelf, path, versions);
        }
    }

    /// Reports whether what is kept shows that a shelf does not see a version.
    pub fn lacks(&mut self, shelf: &str, path: &str, version: &str) -> bool
        ensures others { (w : World) → AreKept w self.old → AreKept w self.new }
        ensures found { IsTrue result → (w : World) → IsWorld w → AreKept w self.old
            → view w shelf.now path.now version.now ≡ None }
    {
        if self.absences.has(shelf, path) {
            return true;
        }
        self.lists.lacks(shelf, path, version)
    }

    /// Reports whether a shelf looked for a version of a path in vain before, and the versions that it sees are not
    /// kept. It says so once for each such look.
    pub fn wants_versions(&mut self, shelf: &str, path: &str) -> bool
        ensures { (w : World) → AreKept w self.old → AreKept w self.new }
    {
        self.missed.take(shelf, path) && !self.lists.has(shelf, path)
    }

    /// Keeps a copy of what a shelf sees of a version, or notes that it sees nothing. If memory runs out, it is not
    /// kept.
    pub fn keep_seen(
        &mut self,
        alloc: Global,
        shelf: &str,
        path: &str,
        version: &str,
        seen: Option<&SeenHeading>,
    )
        ensures { (w : World) → AreKept w self.old
            → option_copied seen.entry ≡ seen_heading (view w shelf.now path.now version.now) → AreKept w self.new }
    {
        if seen.is_none() {
            self.missed.note(shelf, path);
        } else {
            self.headings.keep_seen(alloc, shelf, path, version, seen);
        }
    }

    /// Shows that what is kept weighs at most the figures of its kinds, whatever was kept before.
    pub fn bounds(&self)
        ensures { WeighsAtMost self.now }
    {
        let _ = (self.lists.weight(), self.zips.weight());
        let _ = (self.headings.weight(), self.keys.weight());
        let _ = (self.groups.len(), self.counts.number());
        let _ = self.absences.number();
    }
}

/// Returns no versions. Allocates nothing.
fn no_versions(alloc: Global) -> Versions
    ensures { result ≡ [] }
{
    Versions::new(Vec::new(alloc))
}
