//! What an entry must pass to stand at a path and a version: one table of checks, which a publish and a store that
//! takes over tables share.
ghost use Rattle.std.specs.Prelude.{◌≡◌, IfOk};
ghost use Rattle.world.specs.EntryTest as spec;

use crate::entry::{EntryRef, MAX_GOMOD, MAX_ZIP};
use crate::forms::{path_of, version_of};
use crate::reading::Reading;
use gomod::GoMod;
use modpath::ModulePath;
use modver::{Class, TimeText, Version, class, fits};
use std::alloc::{AllocError, Global};

/// Why an entry may not stand at a path and a version, in the order of the checks.
#[derive(Clone, Copy, Debug, PartialEq, Eq)]
pub enum Misfit {
    /// The go.mod or the zip has more bytes than its limit.
    TooLarge,
    /// The version does not fit the path. (Go Modules Reference, "Major version suffixes".)
    Version,
    /// The version is a pseudo-version, and the entry does not have the time of its stamp.
    Time,
    /// The go.mod does not read. The number of the faulty line, or 0 if the fault has none.
    GoMod(usize),
    /// The go.mod names another path.
    ModulePath,
    /// The version is marked `+incompatible`, and the go.mod has more than its module directive.
    NotBare,
}

/// Returns the first check of an entry that fails, apart from those of its go.mod, or None if all pass. Allocates
/// nothing.
pub fn own_misfit(path: &ModulePath, version: &Version, entry: &EntryRef) -> Option<Misfit>
    ensures { result ≡ spec.own_misfit path.now version.now entry.now }
{
    if !is_small(entry) {
        return Some(Misfit::TooLarge);
    }
    if !fits(path, version) {
        return Some(Misfit::Version);
    }
    if !is_time_of(class(version), entry.time) {
        return Some(Misfit::Time);
    }
    None
}

/// Returns the first check of a go.mod, as it was read, that fails, or None if all pass. Allocates nothing.
pub fn module_misfit(path: &ModulePath, version: &Version, gomod: &Reading) -> Option<Misfit>
    ensures { result ≡ spec.module_misfit path.now version.now.marked gomod.now }
{
    match gomod {
        Reading::Fault(line) => Some(Misfit::GoMod(*line)),
        Reading::Module(says) => misfit_of(path, version, says),
    }
}

/// Returns the first check that fails of a go.mod that reads, or None if all pass.
fn misfit_of(path: &ModulePath, version: &Version, says: &GoMod) -> Option<Misfit>
    ensures { result ≡ spec.module_misfit path.now version.now.marked (Reading.Module says.now) }
{
    if says.module().as_str() != path.as_str() {
        return Some(Misfit::ModulePath);
    }
    if version.is_marked() && !says.is_bare() {
        return Some(Misfit::NotBare);
    }
    None
}

/// Returns the version that a text names, if an entry may stand at it and at the path that another text is, and None
/// otherwise: if one of the texts is malformed, or a check of the entry fails. Fails only if memory runs out.
/// (Go Modules Reference, "Module paths", "Versions" and "go.mod files".)
pub fn fitting_version(
    alloc: Global,
    path: &str,
    version: &str,
    entry: &EntryRef,
) -> Result<Option<Version>, AllocError>
    ensures { IfOk result (λ v. v ≡ spec.fitting_version path.now version.now entry.now) }
{
    let Some(path) = path_of(alloc, path)? else {
        return Ok(None);
    };
    let Some(version) = version_of(alloc, version)? else {
        return Ok(None);
    };
    if own_misfit(&path, &version, entry).is_some() {
        return Ok(None);
    }
    let gomod = Reading::of(alloc, entry.gomod)?;
    if module_misfit(&path, &version, &gomod).is_some() {
        return Ok(None);
    }
    Ok(Some(version))
}

fn is_small(entry: &EntryRef) -> bool
    ensures { result ≡ spec.is_small entry.now }
{
    entry.gomod.len() <= MAX_GOMOD && entry.zip.len() <= MAX_ZIP
}

/// Whether this may be the time of an entry whose version has this class. A `TimeText` holds only well-formed times, so
/// only a pseudo-version needs a comparison.
fn is_time_of(class: Class, time: Option<TimeText>) -> bool
    ensures { result ≡ spec.is_time_of class time }
{
    let Some(time) = time else {
        return !matches!(class, Class::Pseudo(_));
    };
    let text = time.as_str();
    match class {
        Class::Pseudo(stamp) => text == stamp.as_str(),
        _ => true,
    }
}
