//! Reads targets.
ghost use Rattle.std.specs.Prelude.{◌≡◌, IfOk};
ghost use Rattle.wire.specs.Resource.{resource_in};
ghost use Rattle.wire.specs.Route.{routed_of};
ghost use Rattle.wire.specs.Target.{asked_or, get_of, module_version_in, put_of, target_of, ReadsTarget};

use crate::module_version::{ModuleVersion, read_module_version};
use crate::resource::Target;
use crate::resources::{decoded, read_resource};
use crate::routes::{Area, RouteTable, Routed};
use framing::Memory;
use std::alloc::Global;
use text::Text;

/// Returns what a message with this method and this target asks for; both are compared byte for byte. A target that is
/// not UTF-8, or decodes to bytes that are not, is unreadable. It fails with `Memory`, which says nothing about the
/// target, if there is no room for what the target names or for the routes.
pub fn target(table: &mut RouteTable, method: &[u8], target: &[u8]) -> Result<Target, Memory>
    ensures value { IfOk result (λ asked. asked ≡ target_of method.now target.now) }
    ensures reads { IfOk result (ReadsTarget method.now target.now) }
{
    read_target(table, method, target)
}

/// Computes what a message asks for. It fails only if memory runs out.
fn read_target(table: &mut RouteTable, method: &[u8], target: &[u8]) -> Result<Target, Memory>
    ensures { IfOk result (λ asked. asked ≡ target_of method.now target.now) }
{
    match str::from_utf8(target) {
        Ok(text) => read_text(table, method, text),
        Err(_) => Ok(Target::Unreadable),
    }
}

/// Returns what a message with this method asks for by a target that is text. It fails only if memory runs out.
/// Methods are compared as text: `http::Method` allocates for more than 15 bytes, so a 404 could become a 503.
fn read_text(table: &mut RouteTable, method: &[u8], text: &str) -> Result<Target, Memory>
    ensures { IfOk result (λ asked. asked ≡ asked_or method.now (routed_of text.now)) }
{
    let Some(route) = table.route_of(text)? else {
        return Ok(Target::Unreadable);
    };
    let alloc = table.allocator();
    match method {
        b"GET" => get(alloc, route),
        b"PUT" => put(alloc, route),
        _ => Ok(Target::Unreadable),
    }
}

/// Returns what a GET asks for by its route. It fails only if memory runs out.
fn get(alloc: Global, route: Routed<'_>) -> Result<Target, Memory>
    ensures { IfOk result (λ asked.
        asked ≡ get_of route.entry.key.now (resource_in route.entry.area route.entry.rest.now)) }
{
    match read_resource(alloc, route.area, route.rest)? {
        Some(resource) => Ok(Target::Get {
            key: Text::new(String::from_str(alloc, route.key)?),
            resource,
        }),
        None => Ok(Target::Unreadable),
    }
}

/// Returns what a PUT asks for by its route: a publish to a module path. It fails only if memory runs out.
fn put(alloc: Global, route: Routed<'_>) -> Result<Target, Memory>
    ensures { IfOk result (λ asked.
        asked ≡ put_of route.entry.key.now (module_version_in route.entry.area route.entry.rest.now)) }
{
    let Area::Path = route.area else {
        return Ok(Target::Unreadable);
    };
    match read_module_version(alloc, decoded(alloc, route.rest)?.as_slice())? {
        Some(ModuleVersion { path, version }) => Ok(Target::Put {
            key: Text::new(String::from_str(alloc, route.key)?),
            path,
            version,
        }),
        None => Ok(Target::Unreadable),
    }
}
