//! What a GET asks for, by the rest of its target.
ghost use Rattle.std.specs.Prelude.{◌≡◌, None, Some, IfOk, MatchOption};
ghost use Rattle.std.specs.Cow.{cow_slice_items};
ghost use Rattle.percent_encoding.specs.Percent.{percent_decode as percent_decoded};
ghost use Rattle.wire.specs.Resource as spec;

use crate::module_version::{ModuleVersion, cut, read_module_version, read_path, read_version};
use crate::resource::Resource;
use crate::routes::Area;
use framing::Memory;
use modpath::ModulePath;
use modver::Version;
use percent_encoding::percent_decode;
use std::alloc::Global;
use std::borrow::CowSlice;

/// A file of a version; the ending of a name says which.
#[derive(Clone, Copy, Drop)]
pub(crate) enum VersionFile {
    Info,
    GoMod,
    Zip,
}

/// Returns a rest, percent-decoded once. A rest without an escape is borrowed. It fails only if memory runs out.
pub(crate) fn decoded(alloc: Global, rest: &str) -> Result<CowSlice<'_, u8, Global>, Memory>
    ensures { IfOk result (λ text. cow_slice_items text ≡ percent_decoded rest.now) }
{
    Ok(percent_decode(rest.as_bytes()).into_cow(alloc)?)
}

/// Returns what a GET asks for in an area, or `None` if the rest is unreadable. It fails only if memory runs out.
pub(crate) fn read_resource(
    alloc: Global,
    area: Area,
    rest: &str,
) -> Result<Option<Resource>, Memory>
    ensures { IfOk result (λ found. found ≡ spec.resource_in area rest.now) }
{
    let text = decoded(alloc, rest)?;
    match area {
        Area::Shelf => read_own(alloc, text.as_slice()),
        Area::Path => read_asked(alloc, text.as_slice()),
    }
}

/// Returns what a text asks of the shelf itself, or `None` if it is unreadable. It fails only if memory runs out.
fn read_own(alloc: Global, text: &[u8]) -> Result<Option<Resource>, Memory>
    ensures { IfOk result (λ found. found ≡ spec.own_of text.now) }
{
    if text == b"modules".as_slice() {
        return Ok(Some(Resource::Modules));
    }
    match text.strip_prefix(b"gosum/") {
        Some(named) => read_summed(alloc, named),
        None => Ok(None),
    }
}

/// Returns the resource for the go.sum line of the version that a text names, or `None` if it names none. It fails only
/// if memory runs out.
fn read_summed(alloc: Global, text: &[u8]) -> Result<Option<Resource>, Memory>
    ensures { IfOk result (λ found. found ≡ spec.summed_of text.now) }
{
    match read_module_version(alloc, text)? {
        Some(ModuleVersion { path, version }) => Ok(Some(Resource::GoSum { path, version })),
        None => Ok(None),
    }
}

/// Returns what a text asks of a module path, or `None` if it is unreadable. It fails only if memory runs out.
#[tactic(auto, unfolding(crate::specs::Resource::asked_of))]
fn read_asked(alloc: Global, text: &[u8]) -> Result<Option<Resource>, Memory>
    ensures { IfOk result (λ found. found ≡ spec.asked_of text.now) }
{
    let Some((path, asked)) = cut(text) else {
        return Ok(None);
    };
    let Some(path) = read_path(alloc, path)? else {
        return Ok(None);
    };
    match asked {
        b"latest" => Ok(Some(Resource::Latest { path })),
        b"v/list" => Ok(Some(Resource::List { path })),
        _ => read_of_version(alloc, path, asked),
    }
}

/// Returns what is asked of a version of the path, or `None` if `asked` is unreadable. It fails only if memory runs
/// out.
fn read_of_version(
    alloc: Global,
    path: ModulePath,
    asked: &[u8],
) -> Result<Option<Resource>, Memory>
    ensures { IfOk result (λ found. found ≡ spec.of_version path asked.now) }
{
    let Some((name, file)) = split_file(asked) else {
        return Ok(None);
    };
    let Some(version) = read_version(alloc, name)? else {
        return Ok(None);
    };
    Ok(Some(resource_for(file, path, version)))
}

/// Returns the name after `v/` without its last ending, and the file with this ending, or `None` for any other
/// text.
fn split_file(asked: &[u8]) -> Option<(&[u8], VersionFile)>
    ensures { let split = spec.split_file asked.now in
        MatchOption result (split ≡ None) (λ found. split ≡ Some (found.0.now, found.1)) }
{
    let name = asked.strip_prefix(b"v/")?;
    if let Some(version) = name.strip_suffix(b".info") {
        return Some((version, VersionFile::Info));
    }
    if let Some(version) = name.strip_suffix(b".mod") {
        return Some((version, VersionFile::GoMod));
    }
    let version = name.strip_suffix(b".zip")?;
    Some((version, VersionFile::Zip))
}

/// Returns the resource for a file of a version.
fn resource_for(file: VersionFile, path: ModulePath, version: Version) -> Resource
    ensures { result ≡ spec.resource_for file path version }
{
    match file {
        VersionFile::Info => Resource::Info { path, version },
        VersionFile::GoMod => Resource::GoMod { path, version },
        VersionFile::Zip => Resource::Zip { path, version },
    }
}
