//! The waits of the system's streams.

use std::io;
use std::net::{Shutdown, TcpStream};
use std::os::unix::net::UnixStream;
use std::time::Duration;

/// A stream of the system, whose waits it bounds.
pub trait WaitBounds {
    /// Makes every later read fail that waits longer than this. Fails if the bound can't be set.
    fn bound_reads(&self, longest: Duration) -> io::Result<()>;

    /// Makes every later write that waits longer than this fail, or return what it wrote until then. Fails if the bound
    /// can't be set.
    fn bound_writes(&self, longest: Duration) -> io::Result<()>;

    /// Makes every later read and every later write fail that would wait. Fails if the system refuses that.
    fn stop_waiting(&self) -> io::Result<()>;

    /// Makes every later write fail, and the other side read an end. Fails if the system refuses that.
    fn shut(&self) -> io::Result<()>;
}

/// A peer's connection.
impl WaitBounds for TcpStream {
    fn bound_reads(&self, longest: Duration) -> io::Result<()> {
        self.set_read_timeout(Some(longest))
    }

    fn bound_writes(&self, longest: Duration) -> io::Result<()> {
        self.set_write_timeout(Some(longest))
    }

    fn stop_waiting(&self) -> io::Result<()> {
        self.set_nonblocking(true)
    }

    fn shut(&self) -> io::Result<()> {
        self.shutdown(Shutdown::Write)
    }
}

/// An operator's connection.
impl WaitBounds for UnixStream {
    fn bound_reads(&self, longest: Duration) -> io::Result<()> {
        self.set_read_timeout(Some(longest))
    }

    fn bound_writes(&self, longest: Duration) -> io::Result<()> {
        self.set_write_timeout(Some(longest))
    }

    fn stop_waiting(&self) -> io::Result<()> {
        self.set_nonblocking(true)
    }

    fn shut(&self) -> io::Result<()> {
        self.shutdown(Shutdown::Write)
    }
}
