//! Keeps zips.

ghost use Rattle.std.specs.Prelude.{◌≡◌, [], IfSome, IsTrue};
ghost use Rattle.world.specs.World.{World, place};
ghost use Rattle.cache.specs.Recent.{Holds};
ghost use Rattle.cache.specs.Zips.{is_at, IsZipAt, IsSeenAt, AreZips};

use crate::recent::{Recent, Weighed, hash_of};
use std::alloc::Global;
use world::bytes::Bytes;
use world::entry::{Entry, MAX_ZIP, Place, Seen};

/// What a zip weighs beside its memory: the names of its place, and its position among the others.
const ZIP_WEIGHT: usize = 512;

/// The zip of an entry, with the place of the entry.
#[derive(Drop)]
pub struct KeptZip {
    pub(crate) place: Place,
    pub(crate) zip: Bytes,
}

impl KeptZip {
    /// Reports whether it is the zip of the entry at a place.
    fn is_at(&self, shelf: &str, path: &str, version: &str) -> bool
        ensures { result ≡ is_at (place shelf.now path.now version.now) self.now }
    {
        self.place.shelf.as_str() == shelf
            && self.place.path.as_str() == path
            && self.place.version.as_str() == version
    }

    /// Returns the zip of the entry at a place without copying it, or None if memory runs out or the zip cannot be
    /// shared.
    fn of(alloc: Global, shelf: &str, path: &str, version: &str, zip: &Bytes) -> Option<KeptZip>
        ensures { IfSome result (λ it. it ≡ record { place = place shelf.now path.now version.now; zip = zip.now }) }
    {
        let zip = zip.again()?;
        match Place::new(alloc, shelf, path, version) {
            Ok(place) => Some(KeptZip { place, zip }),
            Err(_) => None,
        }
    }
}

impl Weighed for KeptZip {
    ghost use Rattle.cache.specs.Weights.{zip_weight, most_zips};

    ghost weighs = { zip_weight };

    ghost MOST = { most_zips };

    /// 32 MiB, so that two of the largest are kept. A byte of their memory weighs one.
    const MOST: usize = 2 * (MAX_ZIP + ZIP_WEIGHT);

    fn weight(&self) -> usize {
        self.zip.capacity().saturating_add(ZIP_WEIGHT)
    }
}

/// Kept zips of entries. An entry never changes, so a kept zip is never wrong. The zips that were asked for longest ago
/// make room for new ones. A zip is found by the place of its entry, so all shelves that see the entry share the zip.
pub type Zips = Recent<KeptZip>;

impl Recent<KeptZip> {
    /// Returns an empty one, which takes no memory.
    pub fn no_zips() -> Zips
        ensures { result ≡ [] }
    {
        Recent::new()
    }

    /// Returns the zip of the entry at a place, which shares its memory with the kept one, or None if it is not kept.
    pub fn zip(&mut self, shelf: &str, path: &str, version: &str) -> Option<Bytes>
        ensures others { (it : _) → Holds self.new it → Holds self.old it }
        ensures found { IfSome result (λ zip. (w : World) → AreZips w self.old
            → IsZipAt w (place shelf.now path.now version.now) zip) }
    {
        self.promote(hash_of(&[shelf, path, version]));
        let kept = self.kept_zip(shelf, path, version)?;
        kept.zip.again()
    }

    /// Keeps the zip of what is seen of a version, if anything is, and returns what is seen, whose zip then shares its
    /// memory with the kept one. If memory runs out, it is not kept.
    pub fn keep_seen(
        &mut self,
        alloc: Global,
        path: &str,
        version: &str,
        seen: Option<Seen>,
    ) -> Option<Seen>
        ensures zips { (w : World) → AreZips w self.old → IsSeenAt w path.now version.now seen → AreZips w self.new }
        ensures same { result ≡ seen }
    {
        let Seen { shelf, entry } = seen?;
        let zip = self.keep_shared(alloc, shelf.as_str(), path, version, entry.zip);
        Some(Seen {
            shelf,
            entry: Entry {
                gomod: entry.gomod,
                zip,
                time: entry.time,
            },
        })
    }

    /// Keeps the zip of the entry at a place, and returns the zip, which then shares its memory with the kept one.
    fn keep_shared(
        &mut self,
        alloc: Global,
        shelf: &str,
        path: &str,
        version: &str,
        zip: Bytes,
    ) -> Bytes
        ensures zips { (w : World) → AreZips w self.old → IsZipAt w (place shelf.now path.now version.now) zip
            → AreZips w self.new }
        ensures same { result ≡ zip }
    {
        let zip = zip.shared(alloc);
        if let Some(kept) = KeptZip::of(alloc, shelf, path, version, &zip) {
            self.keep(alloc, hash_of(&[shelf, path, version]), kept);
        }
        zip
    }

    /// Returns the zip of the entry at a place, or None if it is not kept.
    fn kept_zip(&self, shelf: &str, path: &str, version: &str) -> Option<&KeptZip>
        ensures held { IfSome result (λ it. Holds self.now it.now) }
        ensures place { IfSome result (λ it. IsTrue (is_at (place shelf.now path.now version.now) it.now)) }
    {
        let kept = self.get(hash_of(&[shelf, path, version]))?;
        if kept.is_at(shelf, path, version) {
            Some(kept)
        } else {
            None
        }
    }
}
