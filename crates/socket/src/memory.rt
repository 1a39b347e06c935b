//! Callers in memory.
ghost use Rattle.std.specs.Prelude.{◌≡◌, [], ◌∷◌, ◌++◌, Some, MatchResult};
ghost use Rattle.socket.specs.Connections.{Come};
ghost use Rattle.socket.specs.History.{EndsOperator, EndsPeer, callers_in};
ghost use Rattle.socket.specs.declared.callers.Caller.TheVariants.{Peer as OfPeer};

use crate::callers::{Caller, Callers};
use crate::deed::{Deed, ListenOn, Search, note_left, note_peer, note_taken};
use crate::entrances::Entrances;
use std::collections::LinkedList;
use std::io::{self, ErrorKind};
use store_files::record::Record;

/// Peers and operators who come in one after another, all operators before the peers, and then nobody. One socket is
/// there already, so it can't be made.
#[derive(Drop)]
pub struct MemoryEntrances<'a, P, O> {
    taken_path: &'a str,
    operators: LinkedList<O>,
    peers: LinkedList<P>,
    noted: Record<Deed<Caller<P, O>>>,
}

impl<'a, P: Drop, O: Drop> MemoryEntrances<'a, P, O> {
    /// Returns entrances where these callers come in, and at which nothing was done. No socket is made at this path.
    pub fn new(
        taken_path: &'a str,
        operators: LinkedList<O>,
        peers: LinkedList<P>,
    ) -> MemoryEntrances<'a, P, O>
        ensures { ⟦<MemoryEntrances<'a, P, O> as Callers<P, O>>⟧.history result ≡ [] }
    {
        MemoryEntrances {
            taken_path,
            operators,
            peers,
            noted: Record::new(),
        }
    }

    /// Returns the next peer where no operator waits. Fails if there is none.
    fn pop_peer(&mut self) -> io::Result<P>
        ensures comes { MatchResult result
            (λ peer. Come (Some (callers_in self.old.operators self.old.peers))
            (Some (callers_in self.new.operators self.new.peers)) (OfPeer peer ∷ []))
            (λ _. Come (Some (callers_in self.old.operators self.old.peers))
            (Some (callers_in self.new.operators self.new.peers)) []) }
        ensures same { self.new.noted ≡ self.old.noted }
    {
        if !self.operators.is_empty() {
            return Err(io::Error::from(ErrorKind::WouldBlock));
        }
        match self.peers.pop_front() {
            Some(peer) => Ok(peer),
            None => Err(io::Error::from(ErrorKind::WouldBlock)),
        }
    }

    /// Returns the next caller. Fails if there is none.
    fn pop(&mut self) -> io::Result<Caller<P, O>>
        ensures comes { MatchResult result
            (λ caller. Come (Some (callers_in self.old.operators self.old.peers))
            (Some (callers_in self.new.operators self.new.peers)) (caller ∷ []))
            (λ _. Come (Some (callers_in self.old.operators self.old.peers))
            (Some (callers_in self.new.operators self.new.peers)) []) }
        ensures same { self.new.noted ≡ self.old.noted }
    {
        match self.operators.pop_front() {
            Some(operator) => Ok(Caller::Operator(operator)),
            None => match self.pop_peer() {
                Ok(peer) => Ok(Caller::Peer(peer)),
                Err(error) => Err(error),
            },
        }
    }
}

impl<'a, P: Drop, O: Drop> Callers<P, O> for MemoryEntrances<'a, P, O> {
    ghost use Rattle.std.specs.Prelude.{◌≡◌, false, Some};
    ghost use Rattle.socket.specs.History.{callers_in};

    ghost waiting = { λ e. Some (callers_in e.operators e.peers) };

    ghost history = { λ e. e.noted.deeds };

    /// A connection is ended as it was left.
    ghost known = { record { is_new = λ _. Unit {0}; is_ended = λ peer status gone. gone ≡ peer } };

    ghost left = { λ _. false };

    fn next(&mut self) -> io::Result<Caller<P, O>> {
        let next = self.pop();
        note_taken(&mut self.noted, Search::Waiting, next)
    }

    fn next_peer(&mut self) -> io::Result<P> {
        let next = self.pop_peer();
        note_peer(&mut self.noted, next)
    }

    fn next_waiting(&mut self) -> Option<io::Result<Caller<P, O>>> {
        if self.operators.is_empty() && self.peers.is_empty() {
            return None;
        }
        let next = self.pop();
        Some(note_taken(&mut self.noted, Search::AtOnce, next))
    }

    fn end_peer(&mut self, peer: P, status: Option<u16>)
        ensures { EndsPeer (λ peer status gone. gone ≡ peer)
            (Some (callers_in self.old.operators self.old.peers), self.old.noted.deeds)
            (Some (callers_in self.new.operators self.new.peers), self.new.noted.deeds) peer status }
    {
        let left = note_left(&mut self.noted, Caller::Peer(peer), status);
        let ended = Deed::Ended(left);
        self.noted.note(b"", &ended);
    }

    fn end_operator(&mut self, operator: O)
        ensures { EndsOperator (Some (callers_in self.old.operators self.old.peers), self.old.noted.deeds)
            (Some (callers_in self.new.operators self.new.peers), self.new.noted.deeds) operator }
    {
        let left = note_left(&mut self.noted, Caller::Operator(operator), None);
        let ended = Deed::Ended(left);
        self.noted.note(b"", &ended);
    }

    fn watch_operator(&mut self) {
        self.noted.note(b"", &Deed::Watched);
    }

    /// Nobody leaves.
    fn has_left(&self) -> bool {
        false
    }
}

impl<'a, P: Drop, O: Drop> Entrances<P, O> for MemoryEntrances<'a, P, O> {
    /// In the place of port 0 it chooses 8080.
    fn listen(&mut self, entrance: ListenOn) -> io::Result<ListenOn> {
        let bound = match entrance {
            ListenOn::Port(0) => ListenOn::Port(8080),
            other => other,
        };
        self.noted.note(b"", &Deed::Listens(bound));
        Ok(bound)
    }

    fn make_socket(&mut self, path: &str) -> io::Result<()> {
        if path == self.taken_path {
            self.noted.note(path.as_bytes(), &Deed::Unmade);
            return Err(io::Error::from(ErrorKind::AddrInUse));
        }
        self.noted.note(path.as_bytes(), &Deed::Made);
        Ok(())
    }

    fn remove_socket(&mut self, path: &str) {
        self.noted.note(path.as_bytes(), &Deed::Removed);
    }

    fn close(&mut self) {
        self.noted.note(b"", &Deed::Closed);
    }
}
