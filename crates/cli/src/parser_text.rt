//! Printing the text of the parser.
ghost use Rattle.std.specs.Prelude.{◌≡◌, [], OnOk};
ghost use Rattle.cli.specs.Run.{FailsAtOnce};

use engine::Io;
use histories::Tell;
use std::fmt::{self, Write};

/// The most bytes of a stretch.
const STRETCH: usize = 4096;

/// A stretch of a text: what stands behind its first bytes, as far as there is room.
#[derive(Drop)]
struct Stretch {
    /// How many bytes still come before it.
    before: usize,
    bytes: [u8; STRETCH],
    len: usize,
}

impl Stretch {
    /// Returns the stretch behind so many bytes of a text.
    fn of(text: &clap::Error, before: usize) -> Stretch {
        let mut stretch = Stretch {
            before,
            bytes: [0; STRETCH],
            len: 0,
        };
        let _ = write!(stretch, "{text}");
        stretch
    }

    fn as_slice(&self) -> &[u8] {
        &self.bytes[..self.len.min(STRETCH)]
    }
}

impl fmt::Write for Stretch {
    fn write_str(&mut self, text: &str) -> fmt::Result {
        for byte in text.as_bytes() {
            if self.before > 0 {
                self.before -= 1;
            } else if self.len < STRETCH {
                self.bytes[self.len] = *byte;
                self.len += 1;
            }
        }
        Ok(())
    }
}

/// Prints the parser's text and flushes it. It copies the text a stretch at a time, which takes no memory, because no
/// clause of `write!` says why that fails. `Io::Write` if a call of the output fails: then a beginning of the text is
/// printed, or all of it.
pub(crate) fn print_text<O: Tell>(text: &clap::Error, output: &mut O) -> Result<(), Io>
    ensures calls { FailsAtOnce (O.writes output.old) (O.writes output.new) result }
    // What was printed is flushed.
    ensures flushed { OnOk result ((O.writes output.new).unflushed ≡ []) }
{
    let mut before: usize = 0;
    for _ in 0..u64::MAX {
        let stretch = Stretch::of(text, before);
        let bytes = stretch.as_slice();
        if bytes.is_empty() {
            return flush(output);
        }
        print(bytes, output)?;
        before = before.saturating_add(bytes.len());
    }
    flush(output)
}

/// Prints some bytes. `Io::Write` if a call of the output fails: then a beginning of them is printed, and not all. It
/// makes no call again: none is interrupted, because the program handles no signal.
fn print<O: Tell>(bytes: &[u8], output: &mut O) -> Result<(), Io>
    ensures calls { FailsAtOnce (O.writes output.old) (O.writes output.new) result }
{
    let mut rest = bytes;
    while !rest.is_empty() {
        match output.tell(rest) {
            Ok(0) | Err(_) => return Err(Io::Write),
            Ok(n) => rest = &rest[n..],
        }
    }
    Ok(())
}

/// Flushes what was printed. `Io::Write` if the flush fails.
fn flush<O: Tell>(output: &mut O) -> Result<(), Io>
    ensures calls { FailsAtOnce (O.writes output.old) (O.writes output.new) result }
    ensures flushed { OnOk result ((O.writes output.new).unflushed ≡ []) }
{
    match output.settle() {
        Ok(()) => Ok(()),
        Err(_) => Err(Io::Write),
    }
}
