//! The routes of targets.
ghost use Rattle.std.specs.Prelude.{◌≡◌, None, Some, IfOk, IfErr, MatchOption};
ghost use Rattle.std.specs.Option.{ForSome};
ghost use Rattle.wire.specs.Route as spec;

use framing::Memory;
use matchit::{InsertError, Router};
use std::alloc::Global;

/// What the rest of a target asks about.
#[derive(Clone, Copy, Drop)]
pub(crate) enum Area {
    /// The shelf itself: the rest follows a plain `-/`.
    Shelf,
    /// A module path.
    Path,
}

/// A target, split by its route.
#[derive(Clone, Copy, Drop)]
pub(crate) struct Routed<'t> {
    pub(crate) area: Area,
    pub(crate) key: &'t str,
    pub(crate) rest: &'t str,
}

/// The router of targets. The first target makes it, and later ones reuse it. If memory ran out, the next target makes
/// it again.
#[derive(Drop)]
pub struct RouteTable {
    alloc: Global,
    router: Option<Router<Area>>,
    ghost both: { ForSome router (λ router. router ≡ spec.routes) },
}

/// Returns the router of both routes. They do not conflict, so it fails only if memory runs out.
fn both_routes(alloc: Global) -> Result<Router<Area>, InsertError>
    ensures ok { IfOk result (λ routes. routes ≡ spec.routes) }
    ensures memory { IfErr result (λ e. e ≡ InsertError.OutOfMemory) }
{
    let mut routes = Router::new(alloc);
    routes.insert("/k/{key}/-/{*rest}", Area::Shelf)?;
    routes.insert("/k/{key}/{*rest}", Area::Path)?;
    Ok(routes)
}

impl RouteTable {
    /// Returns a table whose router is still to be made. It takes no memory yet.
    pub fn new(alloc: Global) -> RouteTable {
        RouteTable {
            alloc,
            router: None,
        }
    }

    /// The allocator of the router.
    pub(crate) fn allocator(&self) -> Global {
        self.alloc
    }

    /// Returns a target, split by its route, or `None` if it has no route. It fails only if memory runs out.
    /// The key is all bytes up to the next slash, unchanged. No world has a malformed key, so it is an unknown key.
    pub(crate) fn route_of<'t>(&mut self, target: &'t str) -> Result<Option<Routed<'t>>, Memory>
        ensures { IfOk result (λ found. MatchOption found (spec.routed_of target.now ≡ None)
            (λ r. spec.routed_of target.now ≡ Some (r.area, r.key.now, r.rest.now))) }
    {
        let router = match self.router.take() {
            Some(router) => router,
            None => made_router(self.alloc)?,
        };
        let found = split(&router, target);
        self.router = Some(router);
        Ok(found)
    }
}

/// Returns the router of both routes. It fails only if memory runs out.
fn made_router(alloc: Global) -> Result<Router<Area>, Memory>
    ensures { IfOk result (λ routes. routes ≡ spec.routes) }
{
    match both_routes(alloc) {
        Ok(routes) => Ok(routes),
        Err(_) => Err(Memory),
    }
}

/// Returns the area, the key and the rest of a target, or `None` if it has no route.
fn split<'t>(routes: &Router<Area>, target: &'t str) -> Option<Routed<'t>>
    requires { routes.now ≡ spec.routes }
    ensures { MatchOption result (spec.routed_of target.now ≡ None)
        (λ r. spec.routed_of target.now ≡ Some (r.area, r.key.now, r.rest.now)) }
{
    let Ok(found) = routes.at(target) else {
        return None;
    };
    let area = *found.value;
    let mut params = found.params.iter();
    let Some((_, key)) = params.next() else {
        return None;
    };
    let Some((_, rest)) = params.next() else {
        return None;
    };
    Some(Routed { area, key, rest })
}
