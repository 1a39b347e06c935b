//! The lines that an import prints.
ghost use Rattle.std.specs.Prelude.{◌≡◌, [], codes, OnOk};
ghost use Rattle.engine.specs.Causes.{FailsWith};
ghost use Rattle.commands.specs.ImportLine as spec;
ghost use Rattle.commands.specs.Printed.{PrintsText};

use crate::printing::print_both;
use crate::publish::is_accepted;
use engine::Io;
use engine::write::write_both;
use histories::Tell;
use itoa::Buffer;
use wire::fixed_line;
use wire::reply::Fixed;

/// The outcome of a row.
#[derive(Clone, Copy, Drop)]
pub enum RowOutcome {
    /// A file could not be read, and nothing was stored.
    NoFile,
    /// Its publish got this answer.
    Answered(Fixed),
}

impl RowOutcome {
    /// Whether it is the answer 200 or 201.
    pub fn accepts(self) -> bool
        ensures { result ≡ spec.accepts_outcome self }
    {
        match self {
            RowOutcome::NoFile => false,
            RowOutcome::Answered(answer) => is_accepted(answer.status().as_u16()),
        }
    }
}

/// Prints the line of a row: its number, a space, and the answer or `no file`. `Io::Write` if the output fails.
pub fn print_outcome<O: Tell>(number: u64, outcome: RowOutcome, output: &mut O) -> Result<(), Io>
    ensures prints { PrintsText (O.contents output.old) (O.contents output.new)
        (spec.numbered number (spec.outcome_text outcome)) result }
    // It fails only if a call of the output failed.
    ensures fails { FailsWith (O.writes output.old).failed (O.writes output.new).failed result }
    // What was printed is flushed.
    ensures flushed { OnOk result ((O.writes output.new).unflushed ≡ []) }
{
    match outcome {
        RowOutcome::NoFile => print_numbered(number, b"no file", output),
        RowOutcome::Answered(answer) => {
            let mut text = [0; 40];
            let len = fixed_line(answer, &mut text);
            print_numbered(number, &text[..len], output)
        }
    }
}

/// Prints the line of a bad row. `Io::Write` if the output fails.
pub fn print_bad_row<O: Tell>(number: u64, output: &mut O) -> Result<(), Io>
    ensures prints { PrintsText (O.contents output.old) (O.contents output.new)
        (spec.numbered number (codes "bad row")) result }
    // It fails only if a call of the output failed.
    ensures fails { FailsWith (O.writes output.old).failed (O.writes output.new).failed result }
    // What was printed is flushed.
    ensures flushed { OnOk result ((O.writes output.new).unflushed ≡ []) }
{
    print_numbered(number, b"bad row", output)
}

/// Prints a line: a number, a space and a text. `Io::Write` if the output fails: then a beginning of it is printed, or
/// all.
fn print_numbered<O: Tell>(number: u64, text: &[u8], output: &mut O) -> Result<(), Io>
    ensures prints { PrintsText (O.contents output.old) (O.contents output.new) (spec.numbered number text.now) result }
    ensures fails { FailsWith (O.writes output.old).failed (O.writes output.new).failed result }
    ensures flushed { OnOk result ((O.writes output.new).unflushed ≡ []) }
{
    let mut digits = Buffer::new();
    write_both(output, digits.format(number).as_bytes(), b" ")?;
    print_both(text, b"\n", output)
}
