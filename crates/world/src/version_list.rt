//! A list of versions.
ghost use Rattle.std.specs.Prelude.{◌≡◌, IfOk, map as each};
ghost use Rattle.modver.specs.SemanticVersion.{version_text};
ghost use Rattle.world.specs.Lines.{lines_of};

use crate::bytes::Bytes;
use modver::Version;
use std::alloc::{AllocError, Global};
use std::marker::Model;

/// A vector of versions, which contracts see as a list.
#[derive(Drop)]
pub struct Versions {
    list: Vec<Version>,
}

impl Model for Versions {
    ghost use Rattle.std.specs.Prelude.{List};
    ghost use Rattle.modver.specs.SemanticVersion.{SemanticVersion};

    ghost Value = { List SemanticVersion };

    ghost view = { λ v. v.list.items };
}

impl Versions {
    /// Returns the versions of a vector. Allocates nothing.
    pub fn new(list: Vec<Version>) -> Versions
        ensures { result ≡ list.items }
    {
        Versions { list }
    }

    /// Returns the versions in order.
    pub fn as_slice(&self) -> &[Version]
        ensures { result.now ≡ self.now }
    {
        self.list.as_slice()
    }

    /// Returns the vector of the versions. Allocates nothing.
    pub fn into_vec(self) -> Vec<Version>
        ensures { result.items ≡ self }
    {
        self.list
    }

    /// Returns the texts of the versions in order, each ended by a newline. Fails only if memory runs out.
    pub fn lines(&self, alloc: Global) -> Result<Bytes, AllocError>
        ensures { IfOk result (λ b. b ≡ lines_of (each version_text self.now)) }
    {
        let mut lines = Vec::new(alloc);
        for version in self.as_slice() {
            lines.extend_from_slice(version.as_str().as_bytes())?;
            lines.push(b'\n')?;
        }
        Ok(Bytes::new(lines))
    }
}
