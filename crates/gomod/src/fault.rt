//! Why a go.mod file cannot be read.

ghost use Rattle.std.specs.Prelude.{◌≡◌};
ghost use Rattle.gomod.specs.Faults.{faulty_line};

use std::alloc::{AllocError, AllocFailed};
use thiserror::Error;

/// Why a go.mod file cannot be read. A number is that of the line, counted from 1.
#[derive(Clone, Copy, Debug, Error, PartialEq, Eq)]
pub enum GoModFault {
    /// The bytes are not UTF-8.
    #[error("the file is not UTF-8")]
    Utf8,
    /// The line cannot be split into tokens.
    #[error("line {0} cannot be split into tokens")]
    Lex(usize),
    /// The grammar does not allow the line where it is, or it is the last line and a block is open after it.
    #[error("line {0} does not have the form of a directive")]
    Grammar(usize),
    /// A word is not the module path, the loose path or the file path that its position demands.
    #[error("line {0} has a malformed path")]
    Path(usize),
    /// A word is not a canonical version, or is one that its path may not have.
    #[error("line {0} has a malformed version, or one that does not fit its path")]
    Version(usize),
    /// The word of a go directive is not a Go version.
    #[error("line {0} has a malformed Go version")]
    GoVersion(usize),
    /// There is no module directive.
    #[error("there is no module directive")]
    NoModule,
    /// The line is a second directive of a keyword that a file may have once.
    #[error("line {0} repeats a directive that a file may have once")]
    Twice(usize),
    /// The low version of the interval is above its high one.
    #[error("line {0} has an interval whose versions are reversed")]
    Interval(usize),
    /// The line is outside a block and begins with a name that is not a keyword.
    #[error("line {0} begins with an unknown directive")]
    Unknown(usize),
    /// Memory ran out.
    #[error("out of memory")]
    Memory,
}

impl GoModFault {
    /// Returns the line number of the fault, or 0 if it has none.
    pub fn line(&self) -> usize
        ensures { result ≡ faulty_line self.now }
    {
        match *self {
            GoModFault::Lex(line)
            | GoModFault::Grammar(line)
            | GoModFault::Path(line)
            | GoModFault::Version(line)
            | GoModFault::GoVersion(line)
            | GoModFault::Twice(line)
            | GoModFault::Interval(line)
            | GoModFault::Unknown(line) => line,
            GoModFault::Utf8 | GoModFault::NoModule | GoModFault::Memory => 0,
        }
    }
}

impl From<AllocError> for GoModFault {
    ghost use Rattle.gomod.specs.declared.fault.GoModFault.TheVariants.{Memory};

    ghost from_gives = { λ _ e. e ≡ Memory };

    fn from(_: AllocError) -> Self {
        GoModFault::Memory
    }
}

impl<T: Drop> From<AllocFailed<T>> for GoModFault {
    ghost use Rattle.gomod.specs.declared.fault.GoModFault.TheVariants.{Memory};

    ghost from_gives = { λ _ e. e ≡ Memory };

    fn from(_: AllocFailed<T>) -> Self {
        GoModFault::Memory
    }
}
