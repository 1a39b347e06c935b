//! What a shelf saw before some versions came to the store. One of them may hide an older one from the shelf, so what
//! the shelf saw of that is looked up on each shelf that it sees. A call fails if the store meets a fault or memory
//! runs out.
ghost use Rattle.std.specs.Prelude.{◌≡◌, [], ◌∷◌, ◌++◌, OnOk};
ghost use Rattle.std.specs.FinMap as map;
ghost use Rattle.modver.specs.SemanticVersion.{version_text};
ghost use Rattle.keyring.specs.Reading.{Adds};
ghost use Rattle.world.specs.Store.{Reads};
ghost use Rattle.outline.specs.Outline.{outline};
ghost use Rattle.world.specs.Versions.{versions_of};
ghost use Rattle.world.specs.World.{group_of, heading, place, seen_at, view};
ghost use Rattle.catalog.specs.Sight as spec;

use interleave::newcomers::Newcomers;
use keyring::Keyring;
use modpath::ModulePath;
use modver::Version;
use outline::outlines::{Outline, Outlines};
use std::alloc::{AllocError, Global};
use text::Text;
use world::entry::{Heading, Place};
use world::names::COMMON;
use world::registry::StoreFault;
use world::version_list::Versions;
use world::versions::sorted;

/// What a line needs of a version.
#[derive(Drop)]
pub(crate) struct Sighting {
    /// Its go.mod and its time.
    pub(crate) heading: Heading,
    /// Whose it is, and how long its zip is.
    pub(crate) outline: Outline,
}

/// Returns the versions of the path that the shelf saw before the newcomers, each once, in ascending precedence.
pub(crate) fn versions_before<S: Outlines + Keyring>(
    alloc: Global,
    news: &Newcomers,
    shelves: &mut S,
    shelf: &str,
    path: &ModulePath,
) -> Result<Versions, StoreFault>
    ensures { Reads (S.shown shelves.old) (S.shown shelves.new) result
        (λ w. versions_of (spec.without w news.now) shelf.now path.now) }
{
    let seen = shelves.versions(shelf, path)?;
    let mut kept = Vec::new(alloc);
    keep_all(
        alloc,
        news,
        shelves,
        shelf,
        path,
        seen.as_slice(),
        &mut kept,
    )?;
    Ok(sorted(alloc, kept)?)
}

/// Returns what the shelf saw of the version before the newcomers, without its zip, or None if it saw no entry.
pub(crate) fn heading_before<S: Outlines + Keyring>(
    alloc: Global,
    news: &Newcomers,
    shelves: &mut S,
    shelf: &str,
    path: &ModulePath,
    version: &Version,
) -> Result<Option<Heading>, StoreFault>
    ensures { Reads (S.shown shelves.old) (S.shown shelves.new) result
        (λ w. heading (spec.without w news.now) shelf.now path.now (version_text version.now)) }
{
    if !news.names(path.as_str(), version.as_str()) {
        return shelves.heading(shelf, path, version);
    }
    match behind(alloc, news, shelves, shelf, path, version)? {
        Some(it) => Ok(Some(it.heading)),
        None => Ok(None),
    }
}

/// Returns the outline of what the shelf saw of the version before the newcomers, or None if it saw no entry.
pub(crate) fn outline_before<S: Outlines + Keyring>(
    alloc: Global,
    news: &Newcomers,
    shelves: &mut S,
    shelf: &str,
    path: &ModulePath,
    version: &Version,
) -> Result<Option<Outline>, StoreFault>
    ensures { Reads (S.shown shelves.old) (S.shown shelves.new) result
        (λ w. outline (spec.without w news.now) shelf.now path.now (version_text version.now)) }
{
    if !news.names(path.as_str(), version.as_str()) {
        return shelves.outline(shelf, path, version);
    }
    match behind(alloc, news, shelves, shelf, path, version)? {
        Some(it) => Ok(Some(it.outline)),
        None => Ok(None),
    }
}

/// Adds those of the versions that are not newcomers, or of which the shelf saw another entry.
fn keep_all<S: Outlines + Keyring>(
    alloc: Global,
    news: &Newcomers,
    shelves: &mut S,
    shelf: &str,
    path: &ModulePath,
    versions: &[Version],
    kept: &mut Vec<Version>,
) -> Result<(), StoreFault>
    ensures { Adds (S.shown shelves.old) (S.shown shelves.new) kept.old.items kept.new.items result
        (λ w. spec.all_kept w news.now shelf.now path.now versions.now) }
{
    for version in versions {
        keep(alloc, news, shelves, shelf, path, version, kept)?;
    }
    Ok(())
}

/// Adds a version, unless a newcomer names it and the shelf saw nothing of it.
fn keep<S: Outlines + Keyring>(
    alloc: Global,
    news: &Newcomers,
    shelves: &mut S,
    shelf: &str,
    path: &ModulePath,
    version: &Version,
    kept: &mut Vec<Version>,
) -> Result<(), StoreFault>
    ensures { Adds (S.shown shelves.old) (S.shown shelves.new) kept.old.items kept.new.items result
        (λ w. spec.kept w news.now shelf.now path.now version.now) }
{
    if is_gone(alloc, news, shelves, shelf, path, version)? {
        return Ok(());
    }
    Ok(put(kept, version.copy(alloc)?)?)
}

/// Puts a version behind others. Fails only if memory runs out.
fn put(kept: &mut Vec<Version>, version: Version) -> Result<(), AllocError>
    ensures { OnOk result (kept.new.items ≡ kept.old.items ++ version ∷ []) }
{
    kept.push(version)?;
    Ok(())
}

/// Whether a newcomer names the version, and the shelf saw nothing of it.
fn is_gone<S: Outlines + Keyring>(
    alloc: Global,
    news: &Newcomers,
    shelves: &mut S,
    shelf: &str,
    path: &ModulePath,
    version: &Version,
) -> Result<bool, StoreFault>
    ensures { Reads (S.shown shelves.old) (S.shown shelves.new) result
        (λ w. spec.is_gone w news.now shelf.now path.now (version_text version.now)) }
{
    if !news.names(path.as_str(), version.as_str()) {
        return Ok(false);
    }
    Ok(behind(alloc, news, shelves, shelf, path, version)?.is_none())
}

/// Returns what the shelf saw of a version before the newcomers: the entry of the nearest shelf of its chain that has
/// one which is none of them.
fn behind<S: Outlines + Keyring>(
    alloc: Global,
    news: &Newcomers,
    shelves: &mut S,
    shelf: &str,
    path: &ModulePath,
    version: &Version,
) -> Result<Option<Sighting>, StoreFault>
    ensures { Reads (S.shown shelves.old) (S.shown shelves.new) result
        (λ w. spec.sighting (view (spec.without w news.now) shelf.now path.now (version_text version.now))) }
{
    if let Some(own) = own(alloc, news, shelves, shelf, path, version)? {
        return Ok(Some(own));
    }
    if let Some(group) = group(alloc, shelves, shelf)? {
        if let Some(own) = own(alloc, news, shelves, group.as_str(), path, version)? {
            return Ok(Some(own));
        }
    }
    own(alloc, news, shelves, COMMON, path, version)
}

/// Returns the entry of a version that stands on this shelf, unless it is a newcomer.
fn own<S: Outlines>(
    alloc: Global,
    news: &Newcomers,
    shelves: &mut S,
    owner: &str,
    path: &ModulePath,
    version: &Version,
) -> Result<Option<Sighting>, StoreFault>
    ensures { Reads (S.shown shelves.old) (S.shown shelves.new) result
        (λ w. spec.sighting (seen_at (map.get (spec.without w news.now).entries
        (place owner.now path.now (version_text version.now))) owner.now)) }
{
    let Some(it) = seen_by(shelves, owner, path, version)? else {
        return Ok(None);
    };
    let is_own = it.outline.shelf.as_str() == owner;
    if !is_own {
        return Ok(None);
    }
    let place = Place::new(alloc, owner, path.as_str(), version.as_str())?;
    if news.has(&place) {
        return Ok(None);
    }
    Ok(Some(it))
}

/// Returns what a shelf sees of a version.
fn seen_by<S: Outlines>(
    shelves: &mut S,
    shelf: &str,
    path: &ModulePath,
    version: &Version,
) -> Result<Option<Sighting>, StoreFault>
    ensures { Reads (S.shown shelves.old) (S.shown shelves.new) result
        (λ w. spec.sighting (view w shelf.now path.now (version_text version.now))) }
{
    let Some(heading) = shelves.heading(shelf, path, version)? else {
        return Ok(None);
    };
    let Some(outline) = shelves.outline(shelf, path, version)? else {
        return Ok(None);
    };
    Ok(Some(Sighting { heading, outline }))
}

/// Returns the group of a shelf, or None if it has none.
fn group<S: Keyring>(
    alloc: Global,
    shelves: &mut S,
    shelf: &str,
) -> Result<Option<Text>, StoreFault>
    ensures { Reads (S.shown shelves.old) (S.shown shelves.new) result (λ w. group_of w shelf.now) }
{
    let Some(Some(parent)) = shelves.parent(alloc, shelf)? else {
        return Ok(None);
    };
    if parent.as_str() == COMMON {
        return Ok(None);
    }
    Ok(Some(parent))
}
