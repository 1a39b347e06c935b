//! What was asked of the system where callers come in.
ghost use Rattle.std.specs.Prelude.{◌≡◌, [], ◌∷◌, reverse};

use crate::callers::Caller;
use crate::deed::{ListenOn, Search};
use crate::socket_file::SocketFile;
use std::time::Duration;
use store_files::record::Record;

/// Where one of the two kinds of callers connects.
#[derive(Clone, Copy, Debug, Drop, PartialEq, Eq)]
pub enum Listener {
    /// The port or standard input, for peers.
    Peers,
    /// The Unix socket, for operators.
    Operators,
}

/// What one poll named.
#[derive(Clone, Copy, Debug, Drop, PartialEq, Eq)]
pub struct Ready {
    /// Whether a peer has connected.
    pub peer: bool,
    /// Whether an operator has connected.
    pub operator: bool,
    /// Whether the operator who is watched has closed its connection.
    pub left: bool,
}

impl Ready {
    /// Returns what a poll names that ends with nobody.
    pub(crate) fn nobody() -> Ready {
        Ready {
            peer: false,
            operator: false,
            left: false,
        }
    }
}

/// A step of one connection.
#[derive(Clone, Copy, Debug, Drop, PartialEq, Eq)]
pub enum Stage {
    /// It was accepted after a poll.
    Accepted,
    /// It was waited for and accepted, in one step.
    Awaited,
    /// It is left: nothing more is written to it. This is the status of the reply that was written whole, if one was.
    Left(Option<u16>),
    /// It was closed.
    HungUp,
}

/// A call of the listeners. Only what was done to the socket of operators has a name: its path.
#[derive(Drop)]
pub enum ListenerCall<C> {
    /// Peers come in here from then on; a port that the system chose is named.
    Bound(ListenOn),
    /// Peers were to come in here, and do not.
    Unbound(ListenOn),
    /// The socket was made, and this is its file.
    Made(SocketFile),
    /// The socket was to be made, and was not.
    Unmade,
    /// The name of the socket was taken away, if it was still that of this file.
    Removed(Option<SocketFile>),
    /// For a caller who is looked for so, a poll waited at most so long, and named these.
    Polled(Search, Option<Duration>, Ready),
    /// For a caller who is looked for so, a poll was to wait at most so long, and failed.
    Unpolled(Search, Option<Duration>),
    /// An accept found nobody here.
    Nobody(Listener),
    /// An accept failed.
    Unaccepted,
    /// A peer was to be waited for and accepted in one step, and that failed.
    Unawaited,
    /// Nothing was asked: after the most polls, nobody is waited for any more.
    GivenUp,
    /// This listener is watched anew, or can't be: whether the next poll names it if somebody waits there.
    Watched(Listener, bool),
    /// The operator who was taken last is watched.
    WatchedOperator,
    /// What was done with the connection of this one, as it was then.
    Connection(Stage, C),
    /// Nobody comes in any more.
    Closed,
}

/// The calls so far. It takes no memory, and its methods do nothing at run time but to return what they note.
#[derive(Drop)]
pub(crate) struct CallLog<C> {
    pub(crate) noted: Record<ListenerCall<C>>,
}

impl<C> CallLog<C> {
    /// Returns a log of no call.
    pub(crate) fn new() -> CallLog<C>
        ensures { reverse result.noted.deeds ≡ [] }
    {
        CallLog {
            noted: Record::new(),
        }
    }

    /// Adds a call, with the path of the socket that it is about.
    pub(crate) fn note(&mut self, path: &[u8], call: &ListenerCall<C>)
        ensures { reverse self.new.noted.deeds ≡ (path.now, call.now) ∷ reverse self.old.noted.deeds }
    {
        self.noted.note(path, call);
    }
}

impl<C: Drop> CallLog<C> {
    /// Adds a step of a connection, and returns its caller.
    pub(crate) fn note_step(&mut self, step: Stage, caller: C) -> C
        ensures same { result ≡ caller }
        ensures noted { reverse self.new.noted.deeds
            ≡ ([], ListenerCall.Connection step caller) ∷ reverse self.old.noted.deeds }
    {
        let call = ListenerCall::Connection(step, caller);
        self.note(b"", &call);
        match call {
            ListenerCall::Connection(_, caller) => caller,
            ListenerCall::Bound(_)
            | ListenerCall::Unbound(_)
            | ListenerCall::Made(_)
            | ListenerCall::Unmade
            | ListenerCall::Removed(_)
            | ListenerCall::Polled(_, _, _)
            | ListenerCall::Unpolled(_, _)
            | ListenerCall::Nobody(_)
            | ListenerCall::Unaccepted
            | ListenerCall::Unawaited
            | ListenerCall::GivenUp
            | ListenerCall::Watched(_, _)
            | ListenerCall::WatchedOperator
            | ListenerCall::Closed => unreachable!(),
        }
    }
}

impl<P: Drop, O: Drop> CallLog<Caller<P, O>> {
    /// Adds a step of the connection of a peer, and returns the peer.
    pub(crate) fn note_peer(&mut self, step: Stage, peer: P) -> P
        ensures same { result ≡ peer }
        ensures noted { reverse self.new.noted.deeds
            ≡ ([], ListenerCall.Connection step (Caller.Peer peer)) ∷ reverse self.old.noted.deeds }
    {
        match self.note_step(step, Caller::Peer(peer)) {
            Caller::Peer(peer) => peer,
            Caller::Operator(_operator) => unreachable!(),
        }
    }
}
