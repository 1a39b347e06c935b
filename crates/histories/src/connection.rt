//! A connection whose two directions keep account of their bytes.
ghost use Rattle.std.specs.Prelude.{◌≡◌, [], Some, IfOk};
ghost use Rattle.histories.specs.Account.{IsUnused, new_account};

use crate::clock_face::ClockFace;
use crate::hearing::{Hear, Hearing};
use crate::socket::Socket;
use crate::telling::Telling;
use crate::wait::HasCalls;
use std::io::{self, Read, Write};
use std::net::TcpStream;
use std::os::unix::net::UnixStream;

/// What a caller is read from, and what it is written to.
#[derive(Drop)]
pub struct Connection<R: Read, W> {
    pub reader: Hearing<R>,
    pub writer: Telling<W>,
}

impl<R: Read, W: Write> Connection<R, W> {
    /// Returns a connection over which nothing has passed.
    pub fn new(reader: R, writer: W) -> Connection<R, W>
        ensures came { ⟦<Hearing<R> as Hear>⟧.account result.reader ≡ new_account (R.remaining reader) }
        ensures told { ⟦<Telling<W> as Write>⟧.contents result.writer ≡ Some [] }
        // Nothing was asked that bears on how long either is waited for.
        ensures read_calls { ⟦<Hearing<R> as HasCalls>⟧.calls result.reader ≡ [] }
        ensures write_calls { ⟦<Telling<W> as HasCalls>⟧.calls result.writer ≡ [] }
    {
        Connection {
            reader: Hearing::new(reader),
            writer: Telling::new(writer),
        }
    }
}

/// Returns a connection over a socket, over which nothing has passed. Fails if the system gives no second handle of the
/// socket.
pub fn over_tcp<'h, C: ClockFace>(
    stream: TcpStream,
    clock: &'h C,
) -> io::Result<Connection<Socket<'h, TcpStream, C>, Socket<'h, TcpStream, C>>>
    ensures unused { IfOk result (λ c. IsUnused
        (⟦<Hearing<Socket<'h, TcpStream, C>> as Hear>⟧.account c.reader)
        (⟦<Telling<Socket<'h, TcpStream, C>> as Write>⟧.contents c.writer)) }
    // Nothing was asked that bears on how long either is waited for.
    ensures read_calls { IfOk result (λ c. ⟦<Hearing<Socket<'h, TcpStream, C>> as HasCalls>⟧.calls c.reader ≡ []) }
    ensures write_calls { IfOk result (λ c. ⟦<Telling<Socket<'h, TcpStream, C>> as HasCalls>⟧.calls c.writer ≡ []) }
{
    let writer = stream.try_clone()?;
    Ok(Connection::new(Socket::new(stream, clock), Socket::new(writer, clock)))
}

/// Returns a connection over a Unix socket, over which nothing has passed. Fails if the system gives no second handle
/// of the socket.
pub fn over_unix<'h, C: ClockFace>(
    stream: UnixStream,
    clock: &'h C,
) -> io::Result<Connection<Socket<'h, UnixStream, C>, Socket<'h, UnixStream, C>>>
    ensures unused { IfOk result (λ c. IsUnused
        (⟦<Hearing<Socket<'h, UnixStream, C>> as Hear>⟧.account c.reader)
        (⟦<Telling<Socket<'h, UnixStream, C>> as Write>⟧.contents c.writer)) }
    // Nothing was asked that bears on how long either is waited for.
    ensures read_calls { IfOk result (λ c. ⟦<Hearing<Socket<'h, UnixStream, C>> as HasCalls>⟧.calls c.reader ≡ []) }
    ensures write_calls { IfOk result (λ c. ⟦<Telling<Socket<'h, UnixStream, C>> as HasCalls>⟧.calls c.writer ≡ []) }
{
    let writer = stream.try_clone()?;
    Ok(Connection::new(Socket::new(stream, clock), Socket::new(writer, clock)))
}
