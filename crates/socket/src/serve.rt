//! Serving one connection after another.
ghost use Rattle.std.specs.Prelude.{◌≡◌};
ghost use Rattle.socket.specs.Connections.{GoesThroughMost, both};
ghost use Rattle.socket.specs.History.{written_whole};
ghost use Rattle.socket.specs.Serving.{AnswersEach, AnswersNext};

use crate::callers::Callers;
use crate::connection::Peer;
use engine::Io;
use std::alloc::Global;
use wire::RouteTable;
use world::shelves::Shelves;

/// Takes connections of peers, where no operator comes in, one after another, answers on each the first message that
/// comes over it, and ends it; the store goes through at most as many messages as there are connections. It waits for
/// each connection however long that takes, and returns after the last of them.
///
/// It never fails. A connection that fails counts and is reported to nobody: if its message was not read whole, it
/// changed nothing; if its reply failed, what the message did stays. An accept that fails counts too, so a server
/// without descriptors ends.
pub fn serve_on<P: Peer + Drop, O, L: Callers<P, O>, S: Shelves>(
    alloc: Global,
    callers: &mut L,
    shelves: &mut S,
    connections: u32,
)
    ensures most { GoesThroughMost (S.shown shelves.old) (S.shown shelves.new) connections }
    // As many connections are taken, or could not be. Each message is answered on the connection that it came over, and
    // at most one on each, which is then left with the status of the reply, if it was written whole, and ended by that.
    // If none is, or its reply is not written whole, a call of that connection failed.
    ensures each { AnswersEach (both P.came P.reads) (both P.written P.writes) L.known
        (both L.waiting L.history callers.old) (both L.waiting L.history callers.new)
        (S.shown shelves.old) (S.shown shelves.new) connections }
{
    let mut routes = RouteTable::new(alloc);
    for _ in 0..connections {
        serve_next(alloc, &mut routes, callers, shelves);
    }
}

/// Takes the next connection, answers the first message that comes over it, and ends it.
fn serve_next<P: Peer + Drop, O, L: Callers<P, O>, S: Shelves>(
    alloc: Global,
    routes: &mut RouteTable,
    callers: &mut L,
    shelves: &mut S,
)
    ensures { AnswersNext (both P.came P.reads) (both P.written P.writes) L.known
        (both L.waiting L.history callers.old) (both L.waiting L.history callers.new)
        (S.shown shelves.old) (S.shown shelves.new) }
{
    match callers.next_peer() {
        Ok(peer) => {
            let after = peer.answer(alloc, routes, shelves);
            callers.end_peer(after.peer, written_status(after.status));
        }
        Err(_) => {}
    }
}

/// The status that was written, if one was written whole.
pub fn written_status(status: Result<Option<u16>, Io>) -> Option<u16>
    ensures { result ≡ written_whole status }
{
    match status {
        Ok(status) => status,
        Err(_) => None,
    }
}
