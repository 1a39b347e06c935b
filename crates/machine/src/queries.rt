//! Answers to GETs over any store. (Go Modules Reference, "GOPROXY protocol".)
ghost use Rattle.std.specs.Prelude.{◌≡◌, [], ◌∷◌};
ghost use Rattle.std.specs.FinMap as map;
ghost use Rattle.machine.specs.Machine as spec;
ghost use Rattle.machine.specs.Machine.{keyed_reply, query_reply};
ghost use Rattle.machine.specs.Calls.{fault_of, heading_of, of_key};
ghost use Rattle.machine.specs.Needs.{Told, Meets, MeetsIn, keyed_needs, query_needs};
ghost use Rattle.world.specs.Store.{Reads};

use crate::listed::listed;
use crate::reply::Reply;
use crate::request::Query;
use crate::traced_shelves::TracedShelves;
use modpath::ModulePath;
use modver::Version;
use std::alloc::Global;
use world::entry::{Heading, Seen};
use world::registry::StoreFault;
use world::version_list::Versions;

/// Returns the reply to a GET with a key: `NotFound` if the key is unknown or its shelf does not see what is asked for.
/// Each key may read, so its right is not asked.
/// Fails with `Device` if a device failed, and with `Memory` if memory ran out.
pub fn answer_query<S: TracedShelves>(
    alloc: Global,
    shelves: &mut S,
    key: &str,
    query: &Query,
) -> Result<Reply, StoreFault>
    ensures reads { Reads (S.shown shelves.old) (S.shown shelves.new) result
        (λ w. keyed_reply w (map.get w.keys key.now) query.now) }
    // It asks for the key, and then only what the query needs of the shelf of that key.
    ensures needs { MeetsIn (S.shown shelves.old) (S.shown shelves.new) (S.history shelves.old) (S.history shelves.new)
        (λ w. Told (of_key key.now) ∷ keyed_needs w (map.get w.keys key.now) query.now) (fault_of result) }
    ensures same { (S.history shelves.new).source ≡ (S.history shelves.old).source }
{
    let Some(holder) = shelves.key(key)? else {
        return Ok(Reply::NotFound);
    };
    answer_from(alloc, shelves, holder.shelf.as_str(), query)
}

/// Returns the reply to a GET by a key of a shelf. Fails only if the store fails or memory runs out.
fn answer_from<S: TracedShelves>(
    alloc: Global,
    shelves: &mut S,
    shelf: &str,
    query: &Query,
) -> Result<Reply, StoreFault>
    ensures reads { Reads (S.shown shelves.old) (S.shown shelves.new) result (λ w. query_reply w shelf.now query.now) }
    ensures needs { MeetsIn (S.shown shelves.old) (S.shown shelves.new) (S.history shelves.old) (S.history shelves.new)
        (λ w. query_needs w shelf.now query.now) (fault_of result) }
    ensures same { (S.history shelves.new).source ≡ (S.history shelves.old).source }
{
    match query {
        Query::GoMod { path, version } => Ok(gomod_reply(shelves.heading(shelf, path, version)?)),
        Query::Zip { path, version } => Ok(zip_reply(shelves.entry(shelf, path, version)?)),
        Query::Info { path, version } => answer_info(shelves, shelf, path, version.copy(alloc)?),
        Query::List { path } => Ok(list_reply(shelves.versions(shelf, path)?)),
        Query::Latest { path } => answer_latest(shelves, shelf, path),
        Query::Modules => Ok(Reply::Paths(shelves.paths(shelf)?)),
    }
}

/// Returns the reply to a GET of the name and the time of a version. Fails only if the store fails.
fn answer_info<S: TracedShelves>(
    shelves: &mut S,
    shelf: &str,
    path: &ModulePath,
    version: Version,
) -> Result<Reply, StoreFault>
    ensures reads { Reads (S.shown shelves.old) (S.shown shelves.new) result
        (λ w. query_reply w shelf.now (Query.Info path.now version)) }
    ensures needs { Meets (S.history shelves.old) (S.history shelves.new)
        (Told (heading_of shelf.now path.now version) ∷ []) (fault_of result) }
    ensures same { (S.history shelves.new).source ≡ (S.history shelves.old).source }
{
    let heading = shelves.heading(shelf, path, &version)?;
    Ok(info_reply(version, heading))
}

fn info_reply(version: Version, heading: Option<Heading>) -> Reply
    ensures { result ≡ spec.info_reply version heading }
{
    match heading {
        None => Reply::NotFound,
        Some(heading) => Reply::Info {
            version,
            time: heading.time,
        },
    }
}

fn gomod_reply(heading: Option<Heading>) -> Reply
    ensures { result ≡ spec.gomod_reply heading }
{
    match heading {
        None => Reply::NotFound,
        Some(heading) => Reply::GoMod(heading.gomod),
    }
}

fn zip_reply(seen: Option<Seen>) -> Reply
    ensures { result ≡ spec.zip_reply seen }
{
    match seen {
        None => Reply::NotFound,
        Some(seen) => {
            let entry = seen.entry;
            Reply::Zip(entry.zip)
        }
    }
}

/// Returns the reply with the releases and pre-releases among the versions of a path, or `NotFound` if it has no
/// version.
fn list_reply(versions: Versions) -> Reply
    ensures { result ≡ spec.list_reply versions }
{
    if versions.as_slice().is_empty() {
        return Reply::NotFound;
    }
    Reply::Versions(listed(versions))
}

/// Returns the reply to a GET of the latest version of a path. Fails only if the store fails.
fn answer_latest<S: TracedShelves>(
    shelves: &mut S,
    shelf: &str,
    path: &ModulePath,
) -> Result<Reply, StoreFault>
    ensures reads { Reads (S.shown shelves.old) (S.shown shelves.new) result
        (λ w. query_reply w shelf.now (Query.Latest path.now)) }
    ensures needs { MeetsIn (S.shown shelves.old) (S.shown shelves.new) (S.history shelves.old) (S.history shelves.new)
        (λ w. query_needs w shelf.now (Query.Latest path.now)) (fault_of result) }
    ensures same { (S.history shelves.new).source ≡ (S.history shelves.old).source }
{
    let Some(version) = shelves.latest(shelf, path)? else {
        return Ok(Reply::NotFound);
    };
    answer_info(shelves, shelf, path, version)
}
