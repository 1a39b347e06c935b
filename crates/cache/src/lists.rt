//! Keeps lists of versions, each with its latest version.

ghost use Rattle.std.specs.Prelude.{◌≡◌, ◌⊎◌, [], false, bytes_eq, Contains, None, option_copied, IfOk, IfSome, IsTrue};
ghost use Rattle.modver.specs.SemanticVersion.{version_text};
ghost use Rattle.world.specs.World.{World, IsWorld, place, view, with_entry};
ghost use Rattle.world.specs.Latest.{latest_of};
ghost use Rattle.world.specs.Versions.{versions_of};
ghost use Rattle.cache.specs.Lists.{is_of, AreLists};
ghost use Rattle.cache.specs.Recent.{Holds};

use crate::recent::{Recent, Weighed, hash_of};
use modver::Version;
use std::alloc::{AllocError, Global};
use text::Text;
use world::version_list::Versions;

/// What a list weighs in addition to its versions: its names, its latest version and its position among the others.
/// So there are at most 7,281 lists. A publish goes over them all.
const LIST_WEIGHT: usize = 8;

/// The most versions of a list that is searched for one. To search a longer list may take longer than the tables do.
const SHORT: usize = 512;

/// The versions of a path that a shelf sees, and the latest of them once that was asked for.
#[derive(Drop)]
pub struct KeptList {
    pub(crate) shelf: Text,
    pub(crate) path: Text,
    pub(crate) versions: Versions,
    pub(crate) latest: Option<Option<Version>>,
}

impl KeptList {
    /// Returns the list of a shelf and a path. Fails if memory runs out.
    fn new(
        alloc: Global,
        shelf: &str,
        path: &str,
        versions: Versions,
        latest: Option<Option<Version>>,
    ) -> Result<KeptList, AllocError>
        ensures { IfOk result (λ list. list
            ≡ record { shelf = shelf.now; path = path.now; versions = versions; latest = latest }) }
    {
        Ok(KeptList {
            shelf: Text::copy_of(alloc, shelf)?,
            path: Text::copy_of(alloc, path)?,
            versions,
            latest,
        })
    }

    /// Reports whether it is the list of a shelf and a path.
    fn is_of(&self, shelf: &str, path: &str) -> bool
        ensures { result ≡ is_of shelf.now path.now self.now }
    {
        self.shelf.as_str() == shelf && self.path.as_str() == path
    }

    /// Reports whether the list is short, and does not have a version.
    fn lacks(&self, version: &str) -> bool
        ensures { IsTrue result → (v : _) → Contains self.now.versions v
            → bytes_eq (version_text v) version.now ≡ false }
    {
        self.versions.as_slice().len() <= SHORT && !self.has(version)
    }

    /// Reports whether the list has a version.
    fn has(&self, version: &str) -> bool
        ensures { result ≡ false → (v : _) → Contains self.now.versions v
            → bytes_eq (version_text v) version.now ≡ false }
    {
        self.versions
            .as_slice()
            .iter()
            .any(|it| it.as_str() == version)
    }
}

impl Weighed for KeptList {
    ghost use Rattle.cache.specs.Weights.{list_weight, most_lists};

    ghost weighs = { list_weight };

    ghost MOST = { most_lists };

    /// A version weighs one and takes about 200 bytes.
    const MOST: usize = 65_536;

    fn weight(&self) -> usize {
        self.versions.as_slice().len().saturating_add(LIST_WEIGHT)
    }
}

/// Kept lists of the versions of paths that a shelf sees, in ascending precedence, and the latest of them. The lists
/// that were asked for longest ago make room for new ones.
pub type Lists = Recent<KeptList>;

impl Recent<KeptList> {
    /// Returns an empty one, which takes no memory.
    pub fn no_lists() -> Lists
        ensures { result ≡ [] }
    {
        Recent::new()
    }

    /// Reports whether the versions of a path that a shelf sees are kept and few, and this is none of them.
    pub fn lacks(&mut self, shelf: &str, path: &str, version: &str) -> bool
        ensures others { (list : _) → Holds self.new list → Holds self.old list }
        ensures found { IsTrue result → (w : World) → IsWorld w → AreLists w self.old
            → view w shelf.now path.now version.now ≡ None }
    {
        self.promote(hash_of(&[shelf, path]));
        let Some(list) = self.list(shelf, path) else {
            return false;
        };
        list.lacks(version)
    }

    /// Reports whether the versions of a path that a shelf sees are kept.
    pub fn has(&self, shelf: &str, path: &str) -> bool {
        self.list(shelf, path).is_some()
    }

    /// Returns a copy of the versions of a path that a shelf sees, or None if they are not kept or memory runs out.
    pub fn versions(&mut self, alloc: Global, shelf: &str, path: &str) -> Option<Versions>
        ensures others { (list : _) → Holds self.new list → Holds self.old list }
        ensures found { IfSome result (λ versions. (w : World) → AreLists w self.old
            → versions ≡ versions_of w shelf.now path.now) }
    {
        self.promote(hash_of(&[shelf, path]));
        let list = self.list(shelf, path)?;
        match copied(alloc, list.versions.as_slice()) {
            Ok(copy) => Some(copy),
            Err(_) => None,
        }
    }

    /// Returns a copy of the latest version of a path that a shelf sees, or None if it is not kept or memory runs
    /// out.
    pub fn latest(&mut self, alloc: Global, shelf: &str, path: &str) -> Option<Option<Version>>
        ensures others { (list : _) → Holds self.new list → Holds self.old list }
        ensures found { IfSome result (λ latest. (w : World) → AreLists w self.old
            → latest ≡ latest_of w shelf.now path.now) }
    {
        self.promote(hash_of(&[shelf, path]));
        let latest = self.list(shelf, path)?.latest.as_ref()?;
        match copy_of(alloc, latest.as_ref()) {
            Ok(copy) => Some(copy),
            Err(_) => None,
        }
    }

    /// Returns the kept versions of a path that a shelf sees, and keeps them no longer. Returns None if they are not
    /// kept.
    pub fn take_versions(&mut self, shelf: &str, path: &str) -> Option<Versions>
        ensures others { (list : _) → Holds self.new list → Holds self.old list }
        ensures taken { IfSome result (λ versions. (w : World) → AreLists w self.old
            → versions ≡ versions_of w shelf.now path.now) }
    {
        let list = self.take(hash_of(&[shelf, path]))?;
        if list.is_of(shelf, path) {
            Some(list.versions)
        } else {
            None
        }
    }

    /// Keeps a copy of the versions of a path that a shelf sees. If memory runs out, they are not kept.
    pub fn keep_copy(&mut self, alloc: Global, shelf: &str, path: &str, versions: &[Version])
        ensures { (w : World) → AreLists w self.old
            → versions.now ≡ versions_of w shelf.now path.now → AreLists w self.new }
    {
        if let Ok(copies) = copied(alloc, versions) {
            self.keep_list(alloc, shelf, path, copies, None);
        }
    }

    /// Keeps the versions of a path that a shelf sees, and a copy of the latest of them. If memory runs out, they are
    /// not kept.
    pub fn keep_with_latest(
        &mut self,
        alloc: Global,
        shelf: &str,
        path: &str,
        versions: Versions,
        latest: &Option<Version>,
    )
        ensures { (w : World) → AreLists w self.old → versions ≡ versions_of w shelf.now path.now
            → latest.now ≡ latest_of w shelf.now path.now → AreLists w self.new }
    {
        if let Ok(latest) = copy_of(alloc, latest.as_ref()) {
            self.keep_list(alloc, shelf, path, versions, Some(latest));
        }
    }

    /// Forgets the lists of a path, which gets one more version. It forgets those of all shelves, because every shelf
    /// sees what is stored on `common`. If there is no memory to note which they are, it forgets all lists.
    pub fn forget(&mut self, alloc: Global, path: &str)
        ensures { (w : World) (s v : _) (e : _) → AreLists w self.old
            → AreLists (with_entry w (place s path.now v) e) self.new }
    {
        self.drop_on(alloc, path);
        // A list of the path is left only if there was no memory for the hashes.
        if self.has_path(path) {
            *self = Lists::no_lists();
        }
    }
}

impl Recent<KeptList> {
    /// Returns the list of a shelf and a path, or None if it is not kept.
    fn list(&self, shelf: &str, path: &str) -> Option<&KeptList>
        ensures held { IfSome result (λ list. Holds self.now list.now) }
        ensures names { IfSome result (λ list. IsTrue (is_of shelf.now path.now list.now)) }
    {
        let list = self.get(hash_of(&[shelf, path]))?;
        if list.is_of(shelf, path) {
            Some(list)
        } else {
            None
        }
    }

    /// Keeps a list that is not empty: `absences` has the paths of empty ones. If memory runs out, it is not kept.
    fn keep_list(
        &mut self,
        alloc: Global,
        shelf: &str,
        path: &str,
        versions: Versions,
        latest: Option<Option<Version>>,
    )
        ensures { (list : _) → Holds self.new list → Holds self.old list
            ⊎ (list ≡ record { shelf = shelf.now; path = path.now; versions = versions; latest = latest }) }
    {
        if versions.as_slice().is_empty() {
            return;
        }
        if let Ok(list) = KeptList::new(alloc, shelf, path, versions, latest) {
            self.keep(alloc, hash_of(&[shelf, path]), list);
        }
    }

    /// Drops the lists of a path, if there is memory to note which they are.
    fn drop_on(&mut self, alloc: Global, path: &str)
        ensures { (list : _) → Holds self.new list → Holds self.old list }
    {
        let Ok(hashes) = self.hashes_on(alloc, path) else {
            return;
        };
        self.drop_all(hashes.as_slice());
    }

    /// Drops the lists under these hashes.
    fn drop_all(&mut self, hashes: &[u64])
        ensures { (list : _) → Holds self.new list → Holds self.old list }
    {
        for hash in hashes {
            self.drop_one(*hash);
        }
    }

    /// Returns the hashes of the lists of a path. Fails if memory runs out.
    fn hashes_on(&self, alloc: Global, path: &str) -> Result<Vec<u64>, AllocError> {
        let mut hashes = Vec::new(alloc);
        let Some(cache) = &self.cache else {
            return Ok(hashes);
        };
        for (hash, held) in cache {
            if held.1.path.as_str() == path {
                hashes.push(*hash)?;
            }
        }
        Ok(hashes)
    }

    /// Reports whether a list of a path is kept.
    fn has_path(&self, path: &str) -> bool
        ensures { result ≡ false → (list : _) → Holds self.now list → bytes_eq list.path path.now ≡ false }
    {
        let Some(cache) = &self.cache else {
            return false;
        };
        cache.iter().any(|(_, held)| held.1.path.as_str() == path)
    }
}

/// Returns a copy of the versions. Fails if memory runs out.
fn copied(alloc: Global, versions: &[Version]) -> Result<Versions, AllocError>
    ensures { IfOk result (λ copy. copy ≡ versions.now) }
{
    let mut copies = Vec::with_capacity(alloc, versions.len())?;
    for version in versions {
        copies.push(version.copy(alloc)?)?;
    }
    Ok(Versions::new(copies))
}

/// Returns a copy of a version, or None for None. Fails if memory runs out.
fn copy_of(alloc: Global, version: Option<&Version>) -> Result<Option<Version>, AllocError>
    ensures { IfOk result (λ copy. copy ≡ option_copied version.entry) }
{
    match version {
        None => Ok(None),
        Some(version) => Ok(Some(version.copy(alloc)?)),
    }
}
