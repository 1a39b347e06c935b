//! `requires`: what the go.mod of a version requires. (Go Modules Reference, "require directive".)
ghost use Rattle.std.specs.Prelude.{◌≡◌, IfOk};
ghost use Rattle.std.specs.FinMap as map;
ghost use Rattle.modver.specs.Reading.{version_of};
ghost use Rattle.world.specs.Forms.{path_of};
ghost use Rattle.world.specs.Store.{Reads};
ghost use Rattle.commands.specs.Requirements as spec;

use gomod::Requirement;
use modpath::ModulePath;
use modver::Version;
use std::alloc::{AllocError, Global};
use world::bytes::Bytes;
use world::entry::Heading;
use world::forms::{path_of, version_of};
use world::reading::Reading;
use world::registry::StoreFault;
use world::shelves::Shelves;

/// Returns what the go.mod of a version requires, a line `path version` each, in its order; or None if the path or the
/// version is invalid, there is no such key, or its shelf does not see the version. Fails if the store meets a fault or
/// memory runs out.
pub fn requirements<S: Shelves>(
    alloc: Global,
    shelves: &mut S,
    key: &str,
    path: &str,
    version: &str,
) -> Result<Option<Bytes>, StoreFault>
    ensures { Reads (S.shown shelves.old) (S.shown shelves.new) result
        (λ w. spec.required_by w (map.get w.keys key.now) (path_of path.now) (version_of version.now)) }
{
    let Some(path) = path_of(alloc, path)? else {
        return Ok(None);
    };
    let Some(version) = version_of(alloc, version)? else {
        return Ok(None);
    };
    let Some(holder) = shelves.key(key)? else {
        return Ok(None);
    };
    required_on(alloc, shelves, holder.shelf.as_str(), &path, &version)
}

/// Returns what the go.mod of a version requires, or None if the shelf does not see the version. Fails if the store
/// meets a fault or memory runs out.
fn required_on<S: Shelves>(
    alloc: Global,
    shelves: &mut S,
    shelf: &str,
    path: &ModulePath,
    version: &Version,
) -> Result<Option<Bytes>, StoreFault>
    ensures { Reads (S.shown shelves.old) (S.shown shelves.new) result
        (λ w. spec.required_on w shelf.now path.now version.now) }
{
    let heading = shelves.heading(shelf, path, version)?;
    Ok(required_in(alloc, heading)?)
}

/// Returns what the go.mod of a heading requires, or None without a heading. Fails only if memory runs out.
fn required_in(alloc: Global, heading: Option<Heading>) -> Result<Option<Bytes>, AllocError>
    ensures { IfOk result (λ lines. lines ≡ spec.required_in heading) }
{
    let Some(heading) = heading else {
        return Ok(None);
    };
    match Reading::of(alloc, heading.gomod.as_slice())? {
        Reading::Module(module) => Ok(Some(lines_of(alloc, module.required())?)),
        Reading::Fault(_) => Ok(None),
    }
}

/// Returns a line `path version` for each requirement. Fails only if memory runs out.
fn lines_of(alloc: Global, required: &[Requirement]) -> Result<Bytes, AllocError>
    ensures { IfOk result (λ lines. lines ≡ spec.lines_of required.now) }
{
    let mut lines = Vec::new(alloc);
    for requirement in required {
        lines.extend_from_slice(requirement.path.as_str().as_bytes())?;
        lines.push(b' ')?;
        lines.extend_from_slice(requirement.version.as_str().as_bytes())?;
        lines.push(b'\n')?;
    }
    Ok(Bytes::new(lines))
}
