//! How a run ends: its exit status, and the line that says why a command was refused.
ghost use Rattle.std.specs.Prelude.{◌≡◌, ◌++◌};
ghost use Rattle.engine.specs.Causes.{FailsWith};
ghost use Rattle.engine.specs.Written.{Writes};
ghost use Rattle.socket.specs.Connections.{both};
ghost use Rattle.commands.specs.Exit as spec;
ghost use Rattle.commands.specs.Printed.{PrintsUnlessFailed};

use crate::refusal::CommandRefusal;
use engine::Io;
use engine::write::{write_both, write_bytes};
use histories::Tell;

/// How a run ended.
#[derive(Clone, Copy, Debug, Drop, PartialEq, Eq)]
pub enum Exit {
    /// The command is done.
    Done,
    /// A publish or a row of an import was not accepted, or the rest of the list can't be read. The output says why.
    NotAccepted,
    /// The command was refused.
    Refused(CommandRefusal),
    /// The words of the command line are no command that the program has.
    BadUsage,
}

impl Exit {
    /// Returns how a run ends by the result of its command.
    pub fn of_command(told: Result<bool, CommandRefusal>) -> Exit
        ensures { result ≡ spec.exit_of told }
    {
        match told {
            Ok(true) => Exit::Done,
            Ok(false) => Exit::NotAccepted,
            Err(refusal) => Exit::Refused(refusal),
        }
    }

    /// Returns the exit status: 0 done, 1 refused or not accepted, 2 bad usage.
    pub fn status(self) -> u8
        ensures { result ≡ spec.status_of self }
    {
        match self {
            Exit::Done => 0,
            Exit::NotAccepted | Exit::Refused(_) => 1,
            Exit::BadUsage => 2,
        }
    }

    /// Writes the line that says why the command was refused, if it was. If a write fails, a beginning of the line is
    /// written and the rest is dropped, because the exit status still says that the command failed.
    pub fn tell<E: Tell>(self, errors: &mut E)
        ensures { spec.Says (both E.contents E.writes errors.old) (both E.contents E.writes errors.new) self }
    {
        if let Exit::Refused(refusal) = self {
            let _ = write_line(refusal, errors);
        }
    }
}

/// Writes one text after another to the errors. If a write fails, a beginning of both is written and the rest is
/// dropped.
pub fn write_warning<E: Tell>(first: &[u8], second: &[u8], errors: &mut E)
    ensures { PrintsUnlessFailed (both E.contents E.writes errors.old) (both E.contents E.writes errors.new)
        (first.now ++ second.now) }
{
    let _ = write_both(errors, first, second);
}

/// Writes the line `goshelf: <word>`. `Io::Write` if a write fails: then a beginning of it is written, and not all.
fn write_line<E: Tell>(refusal: CommandRefusal, errors: &mut E) -> Result<(), Io>
    ensures bytes { Writes (E.contents errors.old) (E.contents errors.new) (spec.refusal_line refusal) result }
    ensures fails { FailsWith (E.writes errors.old).failed (E.writes errors.new).failed result }
{
    write_bytes(errors, b"goshelf: ")?;
    write_both(errors, refusal.word().as_bytes(), b"\n")
}
