//! The lists that an operator gets: of keys, and of shelves.
ghost use Rattle.std.specs.Prelude.{◌≡◌, IfOk};
ghost use Rattle.control.specs.Listing as spec;

use crate::control_reply::ControlReply;
use keyring::Keyring;
use keyring::key_list::list_keys;
use keyring::shelf_list::list_shelves;
use orders::{Listing, Outcome};
use std::alloc::{AllocError, Global};
use world::bytes::Bytes;
use world::registry::StoreFault;

/// The line that ends a list. Each line of a list has a space, so none is this one.
const LAST_LINE: &[u8] = b"done\n";

/// Reads a list of the store, and returns what the operator gets: the list and its last line. Returns `Outcome::Failed`
/// if the store meets a fault or memory runs out.
pub(crate) fn list<S: Keyring>(alloc: Global, shelves: &mut S, listing: Listing) -> ControlReply
    ensures { spec.Lists (S.shown shelves.old) (S.shown shelves.new) listing result }
{
    match read_list(alloc, shelves, listing) {
        Ok(text) => tell(alloc, text.as_slice()),
        Err(fault) => ControlReply::Outcome(Outcome::Failed(fault)),
    }
}

/// Returns a list of the store, as an operator gets it and a command prints it. Fails if the store meets a fault or
/// memory runs out.
pub fn read_list<S: Keyring>(
    alloc: Global,
    shelves: &mut S,
    listing: Listing,
) -> Result<Bytes, StoreFault>
    ensures { spec.ReadsList (S.shown shelves.old) (S.shown shelves.new) listing result }
{
    match listing {
        Listing::Keys => list_keys(alloc, shelves),
        Listing::Shelves => list_shelves(alloc, shelves),
    }
}

/// Returns a list with its last line, or `Outcome::Failed(StoreFault::Memory)` if memory runs out for it.
fn tell(alloc: Global, text: &[u8]) -> ControlReply
    ensures { spec.IsReplyFor text.now result }
{
    match whole(alloc, text) {
        Ok(reply) => ControlReply::List(reply),
        Err(_) => ControlReply::Outcome(Outcome::Failed(StoreFault::Memory)),
    }
}

/// Returns a list with its last line. Fails only if memory runs out.
fn whole(alloc: Global, text: &[u8]) -> Result<Bytes, AllocError>
    ensures { IfOk result (λ reply. reply ≡ spec.whole text.now) }
{
    let mut reply = Vec::from_slice(alloc, text)?;
    reply.extend_from_slice(LAST_LINE)?;
    Ok(Bytes::new(reply))
}
