//! What a shelf sees of a version without its zip.
ghost use Rattle.std.specs.Prelude.{◌≡◌, IfOk};

use std::alloc::{AllocError, Global};
use text::Text;
use world::bytes::Bytes;
use world::entry::Heading;

/// What is seen of a version without its zip, with the shelf that its entry stands on.
#[derive(Drop)]
pub struct SeenHeading {
    pub shelf: Text,
    pub heading: Heading,
}

impl SeenHeading {
    /// Returns a copy. Fails if memory runs out.
    pub fn copy(&self, alloc: Global) -> Result<SeenHeading, AllocError>
        ensures { IfOk result (λ copy. copy ≡ self.now) }
    {
        Ok(SeenHeading {
            shelf: Text::copy_of(alloc, self.shelf.as_str())?,
            heading: Heading {
                gomod: Bytes::copy_of(alloc, self.heading.gomod.as_slice())?,
                time: self.heading.time,
            },
        })
    }
}
