//! A clock that can only be read.
use std::io;
use std::rt::HostRuntime;
use std::time::Instant;

/// The face of a clock. Nobody can sleep by it, as by the `Clock` of std.
pub trait ClockFace {
    /// Returns the time that it shows. Fails if it can't be read.
    fn now(&self) -> io::Result<Instant>;
}

/// The clock of the system.
impl ClockFace for HostRuntime {
    fn now(&self) -> io::Result<Instant> {
        Instant::now(self)
    }
}
