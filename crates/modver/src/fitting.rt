//! Which versions a path may have. (Go Modules Reference, "Major version suffixes".)

ghost use Rattle.std.specs.Prelude.{◌≡◌};
ghost use Rattle.modpath.specs.Path.{suffix_of};
ghost use Rattle.modver.specs.Fits as fit;

use crate::bound::Bound;
use crate::version::Version;
use modpath::{LoosePath, ModulePath, Suffix, loose_suffix, suffix};

/// Whether a module path may have a version. It takes no memory. (Go Modules Reference, "Major
/// version suffixes" and "+incompatible versions".)
pub fn fits(path: &ModulePath, version: &Version) -> bool
    ensures { result ≡ fit.fits (suffix_of path.now) version.now }
{
    fits_suffix(suffix(path), version.bound())
}

/// Whether a loose path may have a version, by the same rules. It takes no memory.
pub fn fits_loose(path: &LoosePath, version: &Version) -> bool
    ensures { result ≡ fit.fits (suffix_of path.now) version.now }
{
    fits_suffix(loose_suffix(path), version.bound())
}

/// Whether a version is a pre-release of v0.0.0, as the old pseudo-versions of paths with `.v1` are.
fn is_zero_pre_release(version: &Bound) -> bool
    ensures { result ≡ fit.is_zero_pre_release version.now }
{
    version.major() == 0 && version.minor() == 0 && version.patch() == 0 && version.is_pre_release()
}

/// Whether a path with this suffix may have a version, by the same rules. It takes no memory.
pub fn fits_suffix(suffix: Suffix, version: &Bound) -> bool
    ensures { result ≡ fit.fits suffix version.now }
{
    match suffix {
        Suffix::None => {
            if version.is_marked() {
                2 <= version.major()
            } else {
                version.major() < 2
            }
        }
        Suffix::Slash(n) => version.major() == n && !version.is_marked(),
        Suffix::Dot(n) => {
            (version.major() == n || n == 1 && is_zero_pre_release(version)) && !version.is_marked()
        }
    }
}
