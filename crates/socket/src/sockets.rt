//! A port for peers and a socket for operators, which one thread waits on.
ghost use Rattle.std.specs.Prelude.{IfOk, IfSome};
ghost use Rattle.socket.specs.Connections.{both};
ghost use Rattle.socket.specs.History.{IsUnheard};
ghost use Rattle.socket.specs.Listening.{IsAt};
ghost use Rattle.socket.specs.declared.listener_call.Listener.TheVariants.{Operators, Peers};

use crate::callers::Caller;
use crate::connection::Peer;
use crate::listener_call::{Listener, Ready};
use histories::{Connection, Socket, over_tcp, over_unix};
use mio::unix::SourceFd;
use mio::{Events, Interest, Poll, Token};
use std::alloc::Global;
use std::io::{self, ErrorKind};
use std::net::{TcpListener, TcpStream};
use std::os::fd::AsRawFd;
use std::os::unix::net::{UnixListener, UnixStream};
use std::rt::HostRuntime;
use std::time::Duration;

/// A peer of a port, whose time is told by the clock of the system.
pub type SystemPeer<'h> = Connection<
    Socket<'h, TcpStream, HostRuntime>,
    Socket<'h, TcpStream, HostRuntime>,
>;

/// An operator of a Unix socket, whose time is too.
pub type SystemOperator<'h> = Connection<
    Socket<'h, UnixStream, HostRuntime>,
    Socket<'h, UnixStream, HostRuntime>,
>;

/// A peer of a port, or an operator of a Unix socket.
pub type SystemCaller<'h> = Caller<SystemPeer<'h>, SystemOperator<'h>>;

const PEERS: Token = Token(0);

const OPERATORS: Token = Token(1);

/// The operator who is watched.
const OPERATOR: Token = Token(2);

/// Both of them, with the poll that watches them.
#[derive(Drop)]
pub(crate) struct Sockets {
    poll: Poll,
    events: Events<Global>,
    peers: TcpListener,
    operators: UnixListener,
    /// The descriptor of the operator who was taken last, or -1 before the first.
    taken: i32,
}

impl Sockets {
    /// Returns both, and waits on them from then on. Fails if the system refuses to watch one of them, or if memory
    /// runs out.
    pub(crate) fn new(
        rt: &HostRuntime,
        peers: TcpListener,
        operators: UnixListener,
    ) -> io::Result<Sockets> {
        peers.set_nonblocking(true)?;
        operators.set_nonblocking(true)?;
        let poll = Poll::new(rt)?;
        let events = Events::with_capacity(rt.alloc(), 3)?;
        watch(&poll, peers.as_raw_fd(), PEERS)?;
        watch(&poll, operators.as_raw_fd(), OPERATORS)?;
        Ok(Sockets {
            poll,
            events,
            peers,
            operators,
            taken: -1,
        })
    }

    /// Returns which listeners somebody has connected to, and whether the operator who is watched has left. Waits for
    /// that at most so long, or as long as it takes. Fails if the system does.
    pub(crate) fn look(&mut self, longest: Option<Duration>) -> io::Result<Ready> {
        self.poll.poll(&mut self.events, longest)?;
        let mut seen = Ready::nobody();
        for event in self.events.iter() {
            let token = event.token();
            if token == OPERATORS {
                seen.operator = true;
            } else if token == OPERATOR {
                seen.left |= event.is_write_closed();
            } else {
                seen.peer = true;
            }
        }
        Ok(seen)
    }

    /// Returns an operator who has connected, or None if there is none. Fails if the system does.
    pub(crate) fn accept_operator<'h>(
        &mut self,
        rt: &'h HostRuntime,
    ) -> io::Result<Option<SystemCaller<'h>>>
        ensures at { IfOk result (λ found. IfSome found (λ caller. IsAt Operators caller)) }
        ensures fresh { IfOk result (λ found. IfSome found (λ caller. IsUnheard
            (both ⟦<SystemPeer<'h> as Peer>⟧.came ⟦<SystemPeer<'h> as Peer>⟧.read_calls)
            (both ⟦<SystemPeer<'h> as Peer>⟧.written ⟦<SystemPeer<'h> as Peer>⟧.write_calls)
            (both ⟦<SystemOperator<'h> as Peer>⟧.came ⟦<SystemOperator<'h> as Peer>⟧.read_calls)
            (both ⟦<SystemOperator<'h> as Peer>⟧.written ⟦<SystemOperator<'h> as Peer>⟧.write_calls) caller)) }
    {
        match self.operators.accept() {
            Ok((stream, _)) => {
                self.taken = stream.as_raw_fd();
                Ok(Some(Caller::Operator(over_unix(stream, rt)?)))
            }
            Err(e) if e.kind() == ErrorKind::WouldBlock => Ok(None),
            Err(e) => Err(e),
        }
    }

    /// Returns a peer who has connected, or None if there is none. Fails if the system does.
    pub(crate) fn accept_peer<'h>(
        &mut self,
        rt: &'h HostRuntime,
    ) -> io::Result<Option<SystemCaller<'h>>>
        ensures at { IfOk result (λ found. IfSome found (λ caller. IsAt Peers caller)) }
        ensures fresh { IfOk result (λ found. IfSome found (λ caller. IsUnheard
            (both ⟦<SystemPeer<'h> as Peer>⟧.came ⟦<SystemPeer<'h> as Peer>⟧.read_calls)
            (both ⟦<SystemPeer<'h> as Peer>⟧.written ⟦<SystemPeer<'h> as Peer>⟧.write_calls)
            (both ⟦<SystemOperator<'h> as Peer>⟧.came ⟦<SystemOperator<'h> as Peer>⟧.read_calls)
            (both ⟦<SystemOperator<'h> as Peer>⟧.written ⟦<SystemOperator<'h> as Peer>⟧.write_calls) caller)) }
    {
        match self.peers.accept() {
            Ok((stream, _)) => Ok(Some(Caller::Peer(over_tcp(stream, rt)?))),
            Err(e) if e.kind() == ErrorKind::WouldBlock => Ok(None),
            Err(e) => Err(e),
        }
    }

    /// Has the poll name a listener again if somebody waits there, and returns whether it will.
    pub(crate) fn watch_anew(&self, at: Listener) -> bool {
        let (fd, token) = match at {
            Listener::Peers => (self.peers.as_raw_fd(), PEERS),
            Listener::Operators => (self.operators.as_raw_fd(), OPERATORS),
        };
        self.poll
            .registry()
            .reregister(&mut SourceFd(&fd), token, Interest::READABLE)
            .is_ok()
    }

    /// Watches the operator who was taken last. If the system refuses that, it is not seen to leave.
    pub(crate) fn watch_operator(&self) {
        let _ = watch(&self.poll, self.taken, OPERATOR);
    }
}

fn watch(poll: &Poll, fd: i32, token: Token) -> io::Result<()> {
    poll.registry()
        .register(&mut SourceFd(&fd), token, Interest::READABLE)
}
