//! The versions that the list of a path has.
ghost use Rattle.std.specs.Prelude.{◌≡◌};
ghost use Rattle.modver.specs.Class.{class_of};
ghost use Rattle.machine.specs.Listed as spec;

use modver::{Class, Version, class};
use world::version_list::Versions;

/// Returns the releases and pre-releases of a list. Allocates nothing.
pub fn listed(versions: Versions) -> Versions
    ensures { result ≡ spec.listed versions }
{
    let mut list = versions.into_vec();
    list.retain(is_listed);
    Versions::new(list)
}

fn is_listed(version: &Version) -> bool
    ensures { result ≡ spec.is_listed (class_of version.now) }
{
    match class(version) {
        Class::Pseudo(_) => false,
        _ => true,
    }
}
