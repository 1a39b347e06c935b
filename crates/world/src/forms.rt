//! The path and the version that a text names.
ghost use Rattle.std.specs.Prelude.{◌≡◌, IfOk};
ghost use Rattle.modver.specs.Reading.{version_of};
ghost use Rattle.world.specs.Forms.{path_of};

use modpath::{ModulePath, PathError};
use modver::{Version, VersionFault};
use std::alloc::{AllocError, Global};

/// Returns the module path that a text is, or None if it is no module path. Fails only if memory runs out.
pub fn path_of(alloc: Global, text: &str) -> Result<Option<ModulePath>, AllocError>
    ensures { IfOk result (λ p. p ≡ path_of text.now) }
{
    match ModulePath::parse(alloc, text) {
        Ok(path) => Ok(Some(path)),
        Err(PathError::Memory) => Err(AllocError),
        Err(PathError::Fault(_)) => Ok(None),
    }
}

/// Returns the version that a text names, or None if it names no version. Fails only if memory runs out.
pub fn version_of(alloc: Global, text: &str) -> Result<Option<Version>, AllocError>
    ensures { IfOk result (λ v. v ≡ version_of text.now) }
{
    match Version::parse(alloc, text) {
        Ok(version) => Ok(Some(version)),
        Err(VersionFault::Memory) => Err(AllocError),
        Err(_) => Ok(None),
    }
}
