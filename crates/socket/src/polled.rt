//! Where callers come in, by polls of listeners.
ghost use Rattle.std.specs.Prelude.{◌≡◌, [], ◌∷◌, false, None, IfErr, IfOk, IfSome, IsTrue, MatchOption};
ghost use Rattle.socket.specs.History.{Does, EndsOperator, EndsPeer, IsUnheard, TakesNext, TakesPeer};
ghost use Rattle.socket.specs.Listening.{AcceptsAt, FindsNobody, HangsUp, IsFailed, IsGone, IsKept, IsKept-prop, Looks};
ghost use Rattle.socket.specs.Listening.{PollsOnly, TriesOnce, WaitsAsDue, awaited_as, door_of, is_refused, made_by};
ghost use Rattle.socket.specs.Connections.{both};
ghost use Rattle.socket.specs.Rest.{IsEndedAfter};
ghost use Rattle.socket.specs.declared.deed.Deed.TheVariants.{Removed};
ghost use Rattle.socket.specs.declared.deed.Search.TheVariants.{AtOnce, Waiting};
ghost use Rattle.socket.specs.declared.listener_call.Listener.TheVariants.{Operators, Peers};
ghost use Rattle.socket.specs.declared.listener_call.ListenerCall.TheVariants as call;

use crate::callers::{Caller, Callers};
use crate::connection::Peer;
use crate::deed::{ListenOn, Search};
use crate::entrances::Entrances;
use crate::listener_call::Listener;
use crate::listeners::Listeners;
use crate::socket_file::SocketFile;
use std::io::{self, ErrorKind};
use std::marker::PhantomData;
use std::time::Duration;

/// Where callers come in, by polls of listeners. What was done there is what the listeners were asked.
///
/// No caller need be `Drop`, so each that is taken is handed on or hung up on.
#[derive(Drop)]
pub struct PolledEntrances<P: Peer, O: Peer, L: Listeners<P, O>> {
    listeners: L,
    /// Whether a peer may wait to be taken.
    peer_waits: bool,
    /// Whether an operator may.
    operator_waits: bool,
    /// Whether the operator who is watched was seen to close its connection.
    left: bool,
    /// The socket of operators, once it is made.
    made: Option<SocketFile>,
    callers: PhantomData<Caller<P, O>>,
    ghost kept: { IsKept (L.calls listeners) peer_waits operator_waits left made } by { IsKept-prop
        (L.calls listeners) peer_waits operator_waits left made },
}

impl<P: Peer, O: Peer, L: Listeners<P, O>> PolledEntrances<P, O, L> {
    /// Returns the entrances of listeners of which nothing was asked.
    pub(crate) fn over(listeners: L) -> PolledEntrances<P, O, L>
        requires { L.calls listeners ≡ [] }
        ensures { result.listeners ≡ listeners }
    {
        PolledEntrances {
            listeners,
            peer_waits: false,
            operator_waits: false,
            left: false,
            made: None,
            callers: PhantomData,
        }
    }

    /// How long the next poll waits: not at all if somebody is known to wait, or if it is to name only those who have
    /// connected already, and otherwise as long as it takes.
    fn longest(&self, search: Search) -> Option<Duration>
        ensures { WaitsAsDue search result (L.calls self.now.listeners) }
    {
        if search == Search::Waiting && !self.peer_waits && !self.operator_waits {
            None
        } else {
            Some(Duration::ZERO)
        }
    }

    /// Polls the listeners once, and keeps who was named. Fails if the poll does.
    fn look(&mut self, search: Search) -> io::Result<()>
        ensures { Looks search (L.calls self.old.listeners) (L.calls self.new.listeners) result }
    {
        let longest = self.longest(search);
        let seen = self.listeners.look(search, longest)?;
        self.peer_waits |= seen.peer;
        self.operator_waits |= seen.operator;
        self.left |= seen.left;
        Ok(())
    }

    /// Returns an operator who is known to wait, or None if there is none. Fails if the accept does.
    ///
    /// The system names a listener when somebody connects, and once more when it is watched anew, if somebody still
    /// waits. So the listener of a taken caller is watched anew: that takes a tenth of the time of an accept that
    /// finds nobody.
    fn accept_operator(&mut self) -> io::Result<Option<Caller<P, O>>>
        ensures accepts { AcceptsAt Operators (L.calls self.old.listeners) (L.calls self.new.listeners) result }
        ensures fresh { IfOk result (λ found. IfSome found (λ caller.
            IsUnheard (both P.came P.read_calls) (both P.written P.write_calls)
            (both O.came O.read_calls) (both O.written O.write_calls) caller)) }
    {
        if !self.operator_waits {
            return Ok(None);
        }
        match self.listeners.accept_at(Listener::Operators)? {
            Some(caller) => {
                self.operator_waits = !self.listeners.watch_anew(Listener::Operators);
                Ok(Some(caller))
            }
            None => {
                self.operator_waits = false;
                Ok(None)
            }
        }
    }

    /// Returns a peer who is known to wait where no operator is, or None if there is none. Fails if the accept does.
    fn accept_peer(&mut self) -> io::Result<Option<Caller<P, O>>>
        requires { self.old.operator_waits ≡ false }
        ensures accepts { AcceptsAt Peers (L.calls self.old.listeners) (L.calls self.new.listeners) result }
        ensures fresh { IfOk result (λ found. IfSome found (λ caller.
            IsUnheard (both P.came P.read_calls) (both P.written P.write_calls)
            (both O.came O.read_calls) (both O.written O.write_calls) caller)) }
    {
        if !self.peer_waits {
            return Ok(None);
        }
        match self.listeners.accept_at(Listener::Peers)? {
            Some(caller) => {
                self.peer_waits = !self.listeners.watch_anew(Listener::Peers);
                Ok(Some(caller))
            }
            None => {
                self.peer_waits = false;
                Ok(None)
            }
        }
    }

    /// Polls the listeners once, and returns a caller who has connected, an operator before a peer, or None if there is
    /// none. Fails if a call does.
    fn try_once(&mut self, search: Search) -> io::Result<Option<Caller<P, O>>>
        ensures tries { TriesOnce search (L.calls self.old.listeners) (L.calls self.new.listeners) result }
        ensures polls { PollsOnly search (L.calls self.old.listeners) (L.calls self.new.listeners) }
        ensures fresh { IfOk result (λ found. IfSome found (λ caller.
            IsUnheard (both P.came P.read_calls) (both P.written P.write_calls)
            (both O.came O.read_calls) (both O.written O.write_calls) caller)) }
    {
        self.look(search)?;
        match self.accept_operator()? {
            Some(operator) => Ok(Some(operator)),
            None => self.accept_peer(),
        }
    }
}

/// Ends the connection of a peer in order if a reply was written whole, which had this status, and returns the caller.
fn end_after_reply<P: Peer, O>(caller: Caller<P, O>, status: Option<u16>) -> Caller<P, O>
    ensures { IsGone (IsEndedAfter (both P.came P.reads) P.written P.read_calls P.write_calls)
        caller status result }
{
    match caller {
        Caller::Peer(peer) => match status {
            Some(status) => Caller::Peer(peer.end(status)),
            None => Caller::Peer(peer),
        },
        Caller::Operator(operator) => Caller::Operator(operator),
    }
}

/// The callers who connect are not known.
impl<P: Peer, O: Peer, L: Listeners<P, O>> Callers<P, O> for PolledEntrances<P, O, L> {
    ghost use Rattle.std.specs.Prelude.{None};
    ghost use Rattle.socket.specs.Connections.{both};
    ghost use Rattle.socket.specs.History.{IsUnheard};
    ghost use Rattle.socket.specs.Listening.{deeds_of, saw_leave};
    ghost use Rattle.socket.specs.Rest.{IsEndedAfter};

    ghost waiting = { λ _. None };

    /// It is what the listeners were asked.
    ghost history = { λ e. deeds_of (L.calls e.listeners) };

    ghost left = { λ e. saw_leave (L.calls e.listeners) };

    /// Nothing has passed over a new connection. After a reply that was written whole, a connection is ended in order.
    ghost known = { record {
      is_new = λ caller. IsUnheard (both P.came P.read_calls) (both P.written P.write_calls)
          (both O.came O.read_calls) (both O.written O.write_calls) caller;
      is_ended = IsEndedAfter (both P.came P.reads) P.written P.read_calls P.write_calls;
    } };

    /// Takes an operator before a peer.
    fn next(&mut self) -> io::Result<Caller<P, O>>
        ensures takes { TakesNext Waiting
            (door_of (L.calls self.old.listeners)) (door_of (L.calls self.new.listeners)) result }
        ensures fresh { IfOk result (λ caller. IsUnheard (both P.came P.read_calls) (both P.written P.write_calls)
            (both O.came O.read_calls) (both O.written O.write_calls) caller) }
        // It fails only if a poll or an accept did, or after 2^64 - 1 polls.
        ensures cause { IfErr result (λ _. IsFailed (L.calls self.old.listeners) (L.calls self.new.listeners)) }
        // Each of its polls waits as long as it takes, unless somebody is known to wait.
        ensures polls { PollsOnly Waiting (L.calls self.old.listeners) (L.calls self.new.listeners) }
    {
        for _ in 0..u64::MAX {
            if let Some(caller) = self.try_once(Search::Waiting)? {
                return Ok(caller);
            }
        }
        self.listeners.give_up();
        Err(io::Error::from(ErrorKind::Other))
    }

    fn next_peer(&mut self) -> io::Result<P>
        ensures takes { TakesPeer (door_of (L.calls self.old.listeners)) (door_of (L.calls self.new.listeners)) result }
        ensures fresh { IfOk result (λ peer. IsUnheard (both P.came P.read_calls) (both P.written P.write_calls)
            (both O.came O.read_calls) (both O.written O.write_calls) (Caller.Peer peer)) }
        // The system was asked for a peer, once.
        ensures asks { L.calls self.new.listeners ≡ ([], awaited_as result) ∷ L.calls self.old.listeners }
    {
        self.listeners.wait_for_peer()
    }

    /// Takes an operator before a peer.
    fn next_waiting(&mut self) -> Option<io::Result<Caller<P, O>>>
        ensures takes { MatchOption result
            (((door_of (L.calls self.new.listeners)).0 ≡ (door_of (L.calls self.old.listeners)).0)
            × ((door_of (L.calls self.new.listeners)).1 ≡ (door_of (L.calls self.old.listeners)).1))
            (λ next. TakesNext AtOnce
            (door_of (L.calls self.old.listeners)) (door_of (L.calls self.new.listeners)) next) }
        ensures fresh { IfSome result (λ next. IfOk next (λ caller.
            IsUnheard (both P.came P.read_calls) (both P.written P.write_calls)
            (both O.came O.read_calls) (both O.written O.write_calls) caller)) }
        // It finds nobody only by a poll after which nobody is known to wait. It fails only if a poll or an accept did.
        ensures cause { MatchOption result
            (FindsNobody (L.calls self.old.listeners) (L.calls self.new.listeners))
            (λ next. IfErr next (λ _. IsTrue (is_refused (L.calls self.new.listeners)))) }
        // None of its polls waits.
        ensures polls { PollsOnly AtOnce (L.calls self.old.listeners) (L.calls self.new.listeners) }
    {
        match self.try_once(Search::AtOnce) {
            Ok(Some(caller)) => Some(Ok(caller)),
            Ok(None) => None,
            Err(error) => Some(Err(error)),
        }
    }

    fn end_peer(&mut self, peer: P, status: Option<u16>)
        ensures ends { EndsPeer (IsEndedAfter (both P.came P.reads) P.written P.read_calls P.write_calls)
            (door_of (L.calls self.old.listeners)) (door_of (L.calls self.new.listeners)) peer status }
        // Its connection was closed, and nothing more was written to it.
        ensures closes { HangsUp (IsEndedAfter (both P.came P.reads) P.written P.read_calls P.write_calls)
            (L.calls self.old.listeners) (L.calls self.new.listeners) (Caller.Peer peer) status }
    {
        let left = self.listeners.leave(Caller::Peer(peer), status);
        let gone = end_after_reply(left, status);
        self.listeners.hang_up(gone);
    }

    fn end_operator(&mut self, operator: O)
        ensures ends { EndsOperator (door_of (L.calls self.old.listeners)) (door_of (L.calls self.new.listeners))
            operator }
        ensures closes { HangsUp (IsEndedAfter (both P.came P.reads) P.written P.read_calls P.write_calls)
            (L.calls self.old.listeners) (L.calls self.new.listeners) (Caller.Operator operator) None }
    {
        let left = self.listeners.leave(Caller::Operator(operator), None);
        self.listeners.hang_up(left);
    }

    /// If the system refuses to watch it, nobody is seen to leave.
    fn watch_operator(&mut self) {
        self.listeners.watch_operator();
        self.left = false;
    }

    fn has_left(&self) -> bool {
        self.left
    }
}

impl<P: Peer, O: Peer, L: Listeners<P, O>> Entrances<P, O> for PolledEntrances<P, O, L> {
    fn listen(&mut self, entrance: ListenOn) -> io::Result<ListenOn> {
        self.listeners.listen(entrance)
    }

    fn make_socket(&mut self, path: &str) -> io::Result<()> {
        self.made = Some(self.listeners.make_socket(path)?);
        Ok(())
    }

    fn remove_socket(&mut self, path: &str)
        ensures removed { Does (door_of (L.calls self.old.listeners)) (door_of (L.calls self.new.listeners))
            path.now Removed }
        // The file that was made last is removed, and no other.
        ensures file { L.calls self.new.listeners
            ≡ (path.now, call.Removed (made_by (L.calls self.old.listeners))) ∷ L.calls self.old.listeners }
    {
        self.listeners.remove_socket(path, self.made);
    }

    fn close(&mut self) {
        self.listeners.close();
    }
}
