//! Printing: a text is written whole and then flushed, or the output fails.
ghost use Rattle.std.specs.Prelude.{◌≡◌, ◌++◌, [], IfErr, OnOk};
ghost use Rattle.std.specs.Io.KnownBytes.{Keeps};
ghost use Rattle.engine.specs.Causes.{FailsWith};
ghost use Rattle.commands.specs.Printed.{PrintsText};

use engine::Io;
use engine::write::{write_both, write_bytes};
use histories::Tell;

/// Prints a text. `Io::Write` if the output fails: then a beginning of the text is printed, or all of it.
pub(crate) fn print_one<O: Tell>(text: &[u8], output: &mut O) -> Result<(), Io>
    ensures prints { PrintsText (O.contents output.old) (O.contents output.new) text.now result }
    // It fails only if a call of the output failed.
    ensures fails { FailsWith (O.writes output.old).failed (O.writes output.new).failed result }
    // What was printed is flushed.
    ensures flushed { OnOk result ((O.writes output.new).unflushed ≡ []) }
{
    write_bytes(output, text)?;
    flush(output)
}

/// Prints one text after another. `Io::Write` if the output fails: then a beginning of both is printed, or all.
pub(crate) fn print_both<O: Tell>(first: &[u8], second: &[u8], output: &mut O) -> Result<(), Io>
    ensures prints { PrintsText (O.contents output.old) (O.contents output.new) (first.now ++ second.now) result }
    // It fails only if a call of the output failed.
    ensures fails { FailsWith (O.writes output.old).failed (O.writes output.new).failed result }
    // What was printed is flushed.
    ensures flushed { OnOk result ((O.writes output.new).unflushed ≡ []) }
{
    write_both(output, first, second)?;
    flush(output)
}

/// Flushes what was printed. `Io::Write` if the flush fails.
pub(crate) fn flush<O: Tell>(output: &mut O) -> Result<(), Io>
    ensures bytes { Keeps (O.contents output.old) (O.contents output.new) }
    ensures which { IfErr result (λ e. e ≡ Io.Write) }
    ensures fails { FailsWith (O.writes output.old).failed (O.writes output.new).failed result }
    ensures flushed { OnOk result ((O.writes output.new).unflushed ≡ []) }
{
    match output.settle() {
        Ok(()) => Ok(()),
        Err(_) => Err(Io::Write),
    }
}
