//! Why a read failed.
ghost use Rattle.std.specs.Prelude.{◌≡◌};
ghost use Rattle.std.specs.IoError.{error_kind};
ghost use Rattle.histories.specs.Failure.{failure_of};

use std::io::{self, ErrorKind};

/// Why a read failed.
#[derive(Clone, Copy, Debug, Drop, PartialEq, Eq)]
pub enum Failure {
    /// Nothing came in time.
    Late,
    /// It was interrupted.
    Interrupted,
    /// For any other reason.
    Broken,
}

impl Failure {
    /// Returns why a read failed, by its error.
    pub fn of(error: &io::Error) -> Failure
        ensures { result ≡ failure_of (error_kind error.now) }
    {
        match error.kind() {
            ErrorKind::WouldBlock | ErrorKind::TimedOut => Failure::Late,
            ErrorKind::Interrupted => Failure::Interrupted,
            _ => Failure::Broken,
        }
    }
}
