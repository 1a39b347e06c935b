//! The versions that texts name: their precedence, and the highest of them by rank.
ghost use Rattle.std.specs.Prelude.{◌≡◌, ◌++◌, ℕ, List, IfOk, OnOk, option_copied};
ghost use Rattle.std.specs.FinMap as map;
ghost use Rattle.world.specs.Latest as spec;
ghost use Rattle.world.specs.Latest.{AllOf};
ghost use Rattle.world.specs.Lines.{in_order};
ghost use Rattle.world.specs.Versions.{named, by_precedence};

use crate::forms::version_of;
use crate::text_map::TextMap;
use crate::text_set::TextSet;
use crate::version_list::Versions;
use crate::version_set::VersionSet;
use gomod::GoMod;
use latest::{latest_of, top};
use modver::Version;
use std::alloc::{AllocError, Global};

/// Returns the versions that the texts name, in the order of the texts. Fails only if memory runs out.
fn named(alloc: Global, texts: &TextSet) -> Result<Vec<Version>, AllocError>
    ensures { IfOk result (λ vs. vs.items ≡ named (in_order texts.now)) }
{
    let mut versions = Vec::new(alloc);
    for text in texts.iter() {
        if let Some(version) = version_of(alloc, text.as_str())? {
            versions.push(version)?;
        }
    }
    Ok(versions)
}

/// Appends the versions that the texts of a map name to `versions`, in the order of the texts. Fails only if memory
/// runs out.
pub fn add_named<V>(
    alloc: Global,
    texts: &TextMap<V>,
    versions: &mut Vec<Version>,
) -> Result<(), AllocError>
    ensures { OnOk result (versions.new.items ≡ versions.old.items ++ named (map.keys texts.now)) }
{
    for key in texts.keys() {
        if let Some(version) = version_of(alloc, key.as_str())? {
            versions.push(version)?;
        }
    }
    Ok(())
}

/// Returns the versions of a list in a set ordered by precedence. Fails only if memory runs out.
fn by_precedence(alloc: Global, mut versions: Vec<Version>) -> Result<VersionSet, AllocError>
    ensures { IfOk result (λ s. s ≡ by_precedence versions.items) }
{
    let mut set = VersionSet::new(alloc);
    while let Some(version) = versions.pop() {
        set.insert(version)?;
    }
    Ok(set)
}

/// Returns the versions of a list in ascending precedence, each once. Fails only if memory runs out. (SemVer 2.0.0,
/// section 11.)
pub fn sorted(alloc: Global, versions: Vec<Version>) -> Result<Versions, AllocError>
    ensures { IfOk result (λ vs. vs ≡ in_order (by_precedence versions.items)) }
{
    by_precedence(alloc, versions)?.into_list(alloc)
}

/// Returns the versions that the texts name, in ascending precedence, each once. Fails only if memory runs out.
/// (SemVer 2.0.0, section 11.)
pub fn ascending(alloc: Global, texts: &TextSet) -> Result<Versions, AllocError>
    ensures { IfOk result (λ vs. vs ≡ in_order (by_precedence (named (in_order texts.now)))) }
{
    sorted(alloc, named(alloc, texts)?)
}

/// Returns the highest by rank of some versions of one path, or None if there are none. Allocates nothing.
pub fn highest(versions: &[Version]) -> Option<&Version>
    ensures { (path : List ℕ) → AllOf path versions.now → option_copied result ≡ spec.highest versions.now }
{
    let index = top(versions)?;
    versions.get(index)
}

/// Returns the highest by rank of those versions of one path that the go.mod does not retract, or None if there are
/// none. Fails only if memory runs out.
fn highest_left<'a>(
    alloc: Global,
    versions: &'a [Version],
    gomod: &GoMod,
) -> Result<Option<&'a Version>, AllocError>
    ensures { IfOk result (λ found. (path : List ℕ) → AllOf path versions.now
        → option_copied found ≡ spec.highest (spec.unretracted gomod.now versions.now)) }
{
    match latest_of(alloc, versions, gomod)? {
        Some(index) => Ok(versions.get(index)),
        None => Ok(None),
    }
}

/// Returns the highest by rank of those versions of one path that the go.mod does not retract, or None if there are
/// none or there is no go.mod. Fails only if memory runs out.
pub fn latest_left(
    alloc: Global,
    versions: &[Version],
    gomod: Option<GoMod>,
) -> Result<Option<Version>, AllocError>
    ensures { IfOk result (λ v. (path : List ℕ) → AllOf path versions.now → v ≡ spec.highest_left gomod versions.now) }
{
    let Some(gomod) = gomod else {
        return Ok(None);
    };
    match highest_left(alloc, versions, &gomod)? {
        None => Ok(None),
        Some(version) => Ok(Some(version.copy(alloc)?)),
    }
}
