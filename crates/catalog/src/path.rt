//! What a path says, and the line of a version, read from a store. A call fails if the store meets a fault or memory
//! runs out.
ghost use Rattle.std.specs.Prelude.{◌≡◌, ◌++◌, List, Option, Some, IfOk, OnOk, map, option_copied, slice_get};
ghost use Rattle.gomod.specs.Module.{GoModule};
ghost use Rattle.modver.specs.SemanticVersion.{SemanticVersion};
ghost use Rattle.keyring.specs.Reading.{Adds};
ghost use Rattle.world.specs.Store.{Reads};
ghost use Rattle.catalog.specs.Catalog as spec;
ghost use Rattle.catalog.specs.Line.{rest};
ghost use Rattle.catalog.specs.Sight.{facts_in, facts_of, without};

use crate::line::{Marks, home, push_gomod, push_marks, push_names, push_sums, push_time};
use crate::sight::{heading_before, outline_before, versions_before};
use gomod::GoMod;
use interleave::newcomers::Newcomers;
use keyring::Keyring;
use modpath::ModulePath;
use modver::Version;
use outline::outlines::{Outline, Outlines};
use std::alloc::{AllocError, Global};
use world::entry::Heading;
use world::reading::gomod_in;
use world::registry::StoreFault;
use world::version_list::Versions;
use world::versions::{highest, latest_left};

/// What a path says.
#[derive(Drop)]
pub(crate) struct Account {
    /// Its versions that the shelf sees, by precedence.
    pub(crate) versions: Versions,
    /// The go.mod by which `@latest` goes, if there is one.
    ruling: Option<GoMod>,
    /// For each version, whether this go.mod retracts it.
    retracted: Vec<bool>,
    /// The version that `@latest` answers with, if there is one.
    latest: Option<Version>,
}

/// Returns what a path said before the newcomers.
pub(crate) fn account_of<S: Outlines + Keyring>(
    alloc: Global,
    news: &Newcomers,
    shelves: &mut S,
    shelf: &str,
    path: &ModulePath,
) -> Result<Account, StoreFault>
    ensures reads { Reads (S.shown shelves.old) (S.shown shelves.new) (facts_in result)
        (λ w. facts_of (without w news.now) shelf.now path.now) }
    ensures flags { IfOk result (λ account. account.retracted.items
        ≡ map (spec.is_retracted_by account.ruling) account.versions) }
{
    let versions = versions_before(alloc, news, shelves, shelf, path)?;
    let top = highest(versions.as_slice());
    let first = ruling(alloc, news, shelves, shelf, path, top)?;
    let latest = latest_left(alloc, versions.as_slice(), first)?;
    let ruling = ruling(alloc, news, shelves, shelf, path, top)?;
    let retracted = retracted(alloc, &ruling, versions.as_slice())?;
    Ok(Account {
        versions,
        ruling,
        retracted,
        latest,
    })
}

/// Returns what the go.mod of the highest version of a path said before the newcomers, or None if it had no version.
fn ruling<S: Outlines + Keyring>(
    alloc: Global,
    news: &Newcomers,
    shelves: &mut S,
    shelf: &str,
    path: &ModulePath,
    top: Option<&Version>,
) -> Result<Option<GoMod>, StoreFault>
    ensures { Reads (S.shown shelves.old) (S.shown shelves.new) result
        (λ w. spec.ruling_at (without w news.now) shelf.now path.now (option_copied top.entry)) }
{
    let Some(top) = top else {
        return Ok(None);
    };
    let heading = heading_before(alloc, news, shelves, shelf, path, top)?;
    Ok(gomod_in(alloc, heading)?)
}

/// Returns for each version whether a go.mod retracts it. Fails only if memory runs out.
fn retracted(
    alloc: Global,
    ruling: &Option<GoMod>,
    versions: &[Version],
) -> Result<Vec<bool>, AllocError>
    ensures { IfOk result (λ flags. flags.items ≡ map (spec.is_retracted_by ruling.now) versions.now) }
{
    match ruling {
        Some(gomod) => gomod.retracted(alloc, versions),
        None => versions.iter().map(|_| false).collect(alloc),
    }
}

/// Returns what a path says of its version at an index.
pub(crate) fn marks(account: &Account, index: usize, version: &Version) -> Marks
    ensures { (m : Option GoModule) (vs : List SemanticVersion)
        → account.now.retracted.items ≡ map (spec.is_retracted_by m) vs → slice_get vs index ≡ Some version.now
        → result ≡ spec.marks_of m account.now.latest version.now }
{
    Marks {
        is_retracted: account.retracted.get(index) == Some(&true),
        is_latest: is_that(&account.latest, version),
    }
}

/// Whether a version is the latest.
fn is_that(latest: &Option<Version>, version: &Version) -> bool
    ensures { result ≡ spec.is_that latest.now version.now }
{
    match latest {
        Some(latest) => latest.as_str() == version.as_str(),
        None => false,
    }
}

/// Adds the line of a version, if the shelf saw it before the newcomers.
pub(crate) fn add_version<S: Outlines + Keyring>(
    alloc: Global,
    news: &Newcomers,
    shelves: &mut S,
    shelf: &str,
    path: &ModulePath,
    version: &Version,
    marks: Marks,
    lines: &mut Vec<u8>,
) -> Result<(), StoreFault>
    ensures { Adds (S.shown shelves.old) (S.shown shelves.new) lines.old.items lines.new.items result
        (λ w. spec.line_at (without w news.now) shelf.now path.now version.now marks) }
{
    let Some(heading) = heading_before(alloc, news, shelves, shelf, path, version)? else {
        return Ok(());
    };
    let Some(outline) = outline_before(alloc, news, shelves, shelf, path, version)? else {
        return Ok(());
    };
    push_names(lines, path, version)?;
    Ok(push_rest(alloc, lines, shelf, marks, &heading, &outline)?)
}

/// Appends what follows the path and the version in a line. Fails only if memory runs out.
fn push_rest(
    alloc: Global,
    line: &mut Vec<u8>,
    shelf: &str,
    marks: Marks,
    heading: &Heading,
    outline: &Outline,
) -> Result<(), AllocError>
    ensures { OnOk result (line.new.items ≡ line.old.items ++ rest shelf.now marks heading.now outline.now) }
{
    let gomod = heading.gomod.as_slice();
    push_time(line, &heading.time)?;
    push_marks(line, marks)?;
    push_gomod(alloc, line, gomod)?;
    push_sums(
        alloc,
        line,
        home(shelf, outline.shelf.as_str()),
        gomod,
        outline.zip_bytes,
    )
}
