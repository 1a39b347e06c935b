//! A store that tells how long the files of its entries are.
ghost use Rattle.std.specs.Prelude.{◌≡◌};
ghost use Rattle.outline.specs.Outline.{outline_of};

use modpath::ModulePath;
use modver::{TimeText, Version};
use text::Text;
use world::entry::Seen;
use world::registry::StoreFault;
use world::shelves::Shelves;

/// What is seen of a version, with the lengths of its files in the place of their bytes.
#[derive(Drop)]
pub struct Outline {
    /// The shelf that its entry stands on.
    pub shelf: Text,
    pub time: Option<TimeText>,
    /// How many bytes its go.mod has.
    pub gomod_bytes: usize,
    /// How many bytes its zip has.
    pub zip_bytes: usize,
}

impl Outline {
    /// Returns the outline of an entry. Allocates nothing.
    pub fn of(seen: Seen) -> Outline
        ensures { result ≡ outline_of seen }
    {
        let Seen { shelf, entry } = seen;
        Outline {
            shelf,
            time: entry.time,
            gomod_bytes: entry.gomod.as_slice().len(),
            zip_bytes: entry.zip.as_slice().len(),
        }
    }
}

/// A store of shelves that tells outlines.
pub trait Outlines: Shelves {
    ghost use Rattle.modver.specs.SemanticVersion.{version_text};
    ghost use Rattle.world.specs.Store.{Reads};
    ghost use Rattle.outline.specs.Outline.{outline};

    /// Returns the outline of what the shelf sees of the version, or None if it sees no entry. Fails with `Device` if a
    /// device failed, and with `Memory` if memory ran out.
    fn outline(
        &mut self,
        shelf: &str,
        path: &ModulePath,
        version: &Version,
    ) -> Result<Option<Outline>, StoreFault>
        ensures reads { Reads (Self.shown self.old) (Self.shown self.new) result
            (λ w. outline w shelf.now path.now (version_text version.now)) };
}
