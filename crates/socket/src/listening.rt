//! Listening for peers.
ghost use Rattle.std.specs.Prelude.{IfOk};
ghost use Rattle.socket.specs.History.{IsBoundFor};

use crate::deed::ListenOn;
use mio::unix::SourceFd;
use mio::{Events, Interest, Poll, Token};
use std::io::{self, ErrorKind};
use std::net::{Ipv4Addr, TcpListener, TcpStream};
use std::os::fd::{AsFd, AsRawFd, OwnedFd};
use std::rt::HostRuntime;
use std::time::Duration;

/// Returns a listener for the peers of an entrance, and the entrance with the port that is bound. A port of 127.0.0.1
/// is bound, and the system chooses one in the place of 0; only that one is asked of the system. Fails if the system
/// does, or if standard input is no TCP socket that listens.
pub(crate) fn listener_at(
    rt: &HostRuntime,
    entrance: ListenOn,
) -> io::Result<(TcpListener, ListenOn)>
    ensures { IfOk result (λ found. IsBoundFor entrance found.1) }
{
    match entrance {
        ListenOn::Port(port) => {
            let listener = TcpListener::bind(rt, (Ipv4Addr::LOCALHOST, port))?;
            let bound = match port {
                0 => listener.local_addr()?.port(),
                named => named,
            };
            Ok((listener, ListenOn::Port(bound)))
        }
        ListenOn::Input => Ok((input_listener(rt)?, ListenOn::Input)),
    }
}

/// The listener that standard input is. It fails if that is no TCP socket that listens.
fn input_listener(rt: &HostRuntime) -> io::Result<TcpListener> {
    let input = rt.stdin();
    let stream = TcpStream::from(input.as_fd().try_clone_to_owned()?);
    if stream.peer_addr().is_ok() || may_be_written(rt, &stream)? {
        return Err(io::Error::from(ErrorKind::InvalidInput));
    }
    let listener = TcpListener::from(OwnedFd::from(stream));
    let _address = listener.local_addr()?;
    Ok(listener)
}

/// Waits for the next connection of a listener, and returns it. Fails if the system does.
///
/// Whether an accept waits is shared by all processes that have the socket. If this one does not, because another
/// process has it so or took the connection, the listener is polled.
pub(crate) fn next_stream(rt: &HostRuntime, peers: &TcpListener) -> io::Result<TcpStream> {
    for _ in 0..u64::MAX {
        match TcpListener::accept(peers) {
            Ok((stream, _)) => return Ok(stream),
            Err(error) if error.kind() == ErrorKind::WouldBlock => {
                let _waited = is_ready(rt, peers.as_raw_fd(), Interest::READABLE, None)?;
            }
            Err(error) => return Err(error),
        }
    }
    Err(io::Error::from(ErrorKind::Other))
}

/// Polls a socket once, and returns whether it was named. Waits for that at most so long, or as long as it takes.
/// Fails if the system does.
fn is_ready(
    rt: &HostRuntime,
    fd: i32,
    interest: Interest,
    longest: Option<Duration>,
) -> io::Result<bool> {
    let mut poll = Poll::new(rt)?;
    let mut events = Events::with_capacity(rt.alloc(), 1)?;
    poll.registry()
        .register(&mut SourceFd(&fd), Token(0), interest)?;
    poll.poll(&mut events, longest)?;
    Ok(events.iter().next().is_some())
}

/// Whether a socket may be written to. Of sockets that have no peer, all may but those that listen. Fails if the
/// system does.
fn may_be_written(rt: &HostRuntime, stream: &TcpStream) -> io::Result<bool> {
    is_ready(
        rt,
        stream.as_raw_fd(),
        Interest::WRITABLE,
        Some(Duration::ZERO),
    )
}
