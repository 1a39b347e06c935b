//! The port, standard input and the Unix socket of the system, where callers come in.
ghost use Rattle.std.specs.Prelude.{◌≡◌, [], ◌∷◌, IfOk, IfSome, reverse};
ghost use Rattle.socket.specs.Connections.{both};
ghost use Rattle.socket.specs.History.{IsBoundFor, IsUnheard};
ghost use Rattle.socket.specs.Listening.{IsAt};

use crate::callers::{Caller, Callers};
use crate::connection::Peer;
use crate::deed::{ListenOn, Search};
use crate::listener_call::{CallLog, Listener, ListenerCall, Ready, Stage};
use crate::listeners::Listeners;
use crate::listening::{listener_at, next_stream};
use crate::polled::PolledEntrances;
use crate::socket_file::{SocketFile, operators_at, remove_socket};
use crate::sockets::{Sockets, SystemCaller, SystemOperator, SystemPeer};
use histories::over_tcp;
use std::io::{self, ErrorKind};
use std::mem;
use std::net::TcpListener;
use std::os::unix::net::UnixListener;
use std::rt::HostRuntime;
use std::time::Duration;

/// Where callers of the system come in.
pub type SystemEntrances<'a> = PolledEntrances<
    SystemPeer<'a>,
    SystemOperator<'a>,
    SystemListeners<'a>,
>;

impl<'a> PolledEntrances<SystemPeer<'a>, SystemOperator<'a>, SystemListeners<'a>> {
    /// Returns entrances of which none is open, and at which nothing was done.
    pub fn new(rt: &'a HostRuntime) -> SystemEntrances<'a>
        ensures { ⟦<SystemEntrances<'a> as Callers<SystemPeer<'a>, SystemOperator<'a>>>⟧.history result ≡ [] }
    {
        PolledEntrances::over(SystemListeners::new(rt))
    }
}

/// The listeners of the system. That this module, `listening`, `sockets` and `socket_file` ask the system for what is
/// noted, and for nothing else, is read and not proved.
#[derive(Drop)]
pub struct SystemListeners<'a> {
    rt: &'a HostRuntime,
    open: Open,
    log: CallLog<SystemCaller<'a>>,
}

impl<'a> SystemListeners<'a> {
    /// Returns listeners of which none is open, and of which nothing was asked.
    fn new(rt: &'a HostRuntime) -> SystemListeners<'a>
        ensures { ⟦<SystemListeners<'a> as Listeners<SystemPeer<'a>, SystemOperator<'a>>>⟧.calls result ≡ [] }
    {
        SystemListeners {
            rt,
            open: Open::Nowhere,
            log: CallLog::new(),
        }
    }

    /// Lets peers in, beside the operators if their socket was made. Fails as `Listeners::listen` does.
    fn open_to_peers(&mut self, entrance: ListenOn) -> io::Result<ListenOn>
        ensures bound { IfOk result (λ bound. IsBoundFor entrance bound) }
        ensures same { self.new.log ≡ self.old.log }
    {
        let (peers, bound) = listener_at(self.rt, entrance)?;
        self.open = match mem::replace(&mut self.open, Open::Nowhere) {
            Open::ToOperators(operators) => {
                Open::ToBoth(Sockets::new(self.rt, peers, operators)?)
            }
            _ => Open::ToPeers(peers),
        };
        Ok(bound)
    }
}

/// Who may come in, and where.
#[derive(Drop)]
enum Open {
    /// Nobody.
    Nowhere,
    /// Operators, once peers may too.
    ToOperators(UnixListener),
    /// Peers alone.
    ToPeers(TcpListener),
    /// Both.
    ToBoth(Sockets),
}

impl Open {
    /// Polls both listeners, and waits at most so long. Fails if the system does. Where not both may come in, it names
    /// nobody, or fails if it would wait as long as it takes.
    fn look(&mut self, longest: Option<Duration>) -> io::Result<Ready> {
        match self {
            Open::ToBoth(sockets) => sockets.look(longest),
            _ => match longest {
                Some(_) => Ok(Ready::nobody()),
                None => Err(io::Error::from(ErrorKind::NotConnected)),
            },
        }
    }

    /// Returns a caller who has connected to a listener, or None if there is none. Finds none where not both may come
    /// in. Fails if the system does.
    fn accept_at<'h>(
        &mut self,
        rt: &'h HostRuntime,
        at: Listener,
    ) -> io::Result<Option<SystemCaller<'h>>>
        ensures at { IfOk result (λ found. IfSome found (λ caller. IsAt at caller)) }
        ensures fresh { IfOk result (λ found. IfSome found (λ caller. IsUnheard
            (both ⟦<SystemPeer<'h> as Peer>⟧.came ⟦<SystemPeer<'h> as Peer>⟧.read_calls)
            (both ⟦<SystemPeer<'h> as Peer>⟧.written ⟦<SystemPeer<'h> as Peer>⟧.write_calls)
            (both ⟦<SystemOperator<'h> as Peer>⟧.came ⟦<SystemOperator<'h> as Peer>⟧.read_calls)
            (both ⟦<SystemOperator<'h> as Peer>⟧.written ⟦<SystemOperator<'h> as Peer>⟧.write_calls) caller)) }
    {
        match self {
            Open::ToBoth(sockets) => match at {
                Listener::Peers => sockets.accept_peer(rt),
                Listener::Operators => sockets.accept_operator(rt),
            },
            _ => Ok(None),
        }
    }

    /// Waits for the next peer. Fails if the system does, and where others may come in.
    fn wait_for_peer<'h>(&mut self, rt: &'h HostRuntime) -> io::Result<SystemPeer<'h>>
        ensures { IfOk result (λ peer. IsUnheard
            (both ⟦<SystemPeer<'h> as Peer>⟧.came ⟦<SystemPeer<'h> as Peer>⟧.read_calls)
            (both ⟦<SystemPeer<'h> as Peer>⟧.written ⟦<SystemPeer<'h> as Peer>⟧.write_calls)
            (both ⟦<SystemOperator<'h> as Peer>⟧.came ⟦<SystemOperator<'h> as Peer>⟧.read_calls)
            (both ⟦<SystemOperator<'h> as Peer>⟧.written ⟦<SystemOperator<'h> as Peer>⟧.write_calls)
            (Caller.Peer peer)) }
    {
        match self {
            Open::ToPeers(peers) => over_tcp(next_stream(rt, peers)?, rt),
            _ => Err(io::Error::from(ErrorKind::NotConnected)),
        }
    }
}

impl<'a> Listeners<SystemPeer<'a>, SystemOperator<'a>> for SystemListeners<'a> {
    ghost use Rattle.std.specs.Prelude.{reverse};

    ghost calls = { λ s. reverse s.log.noted.deeds };

    fn listen(&mut self, entrance: ListenOn) -> io::Result<ListenOn> {
        match self.open_to_peers(entrance) {
            Ok(bound) => {
                self.log.note(b"", &ListenerCall::Bound(bound));
                Ok(bound)
            }
            Err(error) => {
                self.log.note(b"", &ListenerCall::Unbound(entrance));
                Err(error)
            }
        }
    }

    fn make_socket(&mut self, path: &str) -> io::Result<SocketFile> {
        match operators_at(self.rt, path) {
            Ok((operators, made)) => {
                self.open = Open::ToOperators(operators);
                self.log.note(path.as_bytes(), &ListenerCall::Made(made));
                Ok(made)
            }
            Err(error) => {
                self.log.note(path.as_bytes(), &ListenerCall::Unmade);
                Err(error)
            }
        }
    }

    fn remove_socket(&mut self, path: &str, made: Option<SocketFile>) {
        self.log.note(path.as_bytes(), &ListenerCall::Removed(made));
        if let Some(made) = made {
            remove_socket(self.rt, path, made);
        }
    }

    fn look(&mut self, search: Search, longest: Option<Duration>) -> io::Result<Ready> {
        match self.open.look(longest) {
            Ok(seen) => {
                self.log
                    .note(b"", &ListenerCall::Polled(search, longest, seen));
                Ok(seen)
            }
            Err(error) => {
                self.log.note(b"", &ListenerCall::Unpolled(search, longest));
                Err(error)
            }
        }
    }

    fn accept_at(&mut self, at: Listener) -> io::Result<Option<SystemCaller<'a>>> {
        match self.open.accept_at(self.rt, at) {
            Ok(Some(caller)) => Ok(Some(self.log.note_step(Stage::Accepted, caller))),
            Ok(None) => {
                self.log.note(b"", &ListenerCall::Nobody(at));
                Ok(None)
            }
            Err(error) => {
                self.log.note(b"", &ListenerCall::Unaccepted);
                Err(error)
            }
        }
    }

    fn watch_anew(&mut self, at: Listener) -> bool {
        let named = match &self.open {
            Open::ToBoth(sockets) => sockets.watch_anew(at),
            _ => false,
        };
        self.log.note(b"", &ListenerCall::Watched(at, named));
        named
    }

    fn watch_operator(&mut self) {
        self.log.note(b"", &ListenerCall::WatchedOperator);
        if let Open::ToBoth(sockets) = &self.open {
            sockets.watch_operator();
        }
    }

    fn wait_for_peer(&mut self) -> io::Result<SystemPeer<'a>> {
        match self.open.wait_for_peer(self.rt) {
            Ok(peer) => Ok(self.log.note_peer(Stage::Awaited, peer)),
            Err(error) => {
                self.log.note(b"", &ListenerCall::Unawaited);
                Err(error)
            }
        }
    }

    fn give_up(&mut self) {
        self.log.note(b"", &ListenerCall::GivenUp);
    }

    fn leave(&mut self, caller: SystemCaller<'a>, status: Option<u16>) -> SystemCaller<'a>
        ensures same { result ≡ caller.entry }
        ensures noted { reverse self.new.log.noted.deeds
            ≡ ([], ListenerCall.Connection (Stage.Left status) caller.entry) ∷ reverse self.old.log.noted.deeds }
    {
        self.log.note_step(Stage::Left(status), caller)
    }

    fn hang_up(&mut self, caller: SystemCaller<'a>)
        ensures { reverse self.new.log.noted.deeds
            ≡ ([], ListenerCall.Connection Stage.HungUp caller.entry) ∷ reverse self.old.log.noted.deeds }
    {
        let _gone = self.log.note_step(Stage::HungUp, caller);
    }

    fn close(&mut self) {
        self.log.note(b"", &ListenerCall::Closed);
        self.open = Open::Nowhere;
    }
}
