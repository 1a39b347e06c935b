//! The places that were published since a moment.
ghost use Rattle.std.specs.Prelude.{◌≡◌, ◌↔◌, ◌&&◌, IsTrue, OnOk, OnErr, bytes_eq};
ghost use Rattle.std.specs.FinSet as set;
ghost use Rattle.interleave.specs.Interleave.{IsNamed};

use std::alloc::{AllocError, Global};
use std::collections::BTreeSet;
use std::marker::Model;
use world::entry::Place;

/// The places that were published since a moment, which contracts see as a finite set.
#[derive(Drop)]
pub struct Newcomers {
    places: BTreeSet<Place>,
}

impl Model for Newcomers {
    ghost use Rattle.std.specs.FinSet as set;
    ghost use Rattle.world.specs.World.{place_cmp};
    ghost use Rattle.world.specs.Code.{place_code};

    ghost Value = { set.FinSet place_cmp };

    ghost coded = { set.code place_code };

    ghost view = { λ n. set.from_list n.places.keys };
}

impl Newcomers {
    /// Returns the set of no place. Allocates nothing.
    pub fn new(alloc: Global) -> Newcomers
        ensures { result ≡ set.empty }
    {
        Newcomers {
            places: BTreeSet::new(alloc),
        }
    }

    /// Whether the place is among them.
    pub fn has(&self, place: &Place) -> bool
        ensures { result ≡ set.contains self.now place.now }
    {
        self.places.contains(place)
    }

    /// Whether one of them has this path and this version, on whichever shelf.
    pub fn names(&self, path: &str, version: &str) -> bool
        ensures { IsTrue result ↔ IsNamed self.now path.now version.now }
    {
        for place in self.places.iter() {
            if is_of(place, path, version) {
                return true;
            }
        }
        false
    }

    /// Adds a place. Fails only if memory runs out, and then leaves the set as it was.
    pub fn note(&mut self, place: Place) -> Result<(), AllocError>
        ensures ok { OnOk result (self.new ≡ set.insert self.old place) }
        ensures err { OnErr result (self.new ≡ self.old) }
    {
        self.places.insert(place)?;
        Ok(())
    }
}

/// Whether a place has this path and this version.
fn is_of(place: &Place, path: &str, version: &str) -> bool
    ensures { result ≡ (bytes_eq place.now.path path.now && bytes_eq place.now.version version.now) }
{
    place.path.as_str() == path && place.version.as_str() == version
}
