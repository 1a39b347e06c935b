//! How a stream is called: as any stream is, or so that it notes each call.
ghost use Rattle.histories.specs.Asked.{AsksFor, Passes};
ghost use Rattle.histories.specs.declared.ask.Ask.TheVariants as ask;

use crate::wait::{BoundRead, BoundWrite};
use std::io::{self, Read, Write};

/// A way to read.
pub(crate) trait ReadWay<R: Read> {
    ghost use Rattle.std.specs.declared.io.Error.{Error};
    ghost use Rattle.std.specs.Prelude.{ℕ, List, Result};
    ghost use Rattle.std.specs.Io.{ReadsAtMost};
    ghost use Rattle.std.specs.Io.KnownBytes.{ReadConsumes};

    /// What else is known of a read: of the reader before it and after it, its result and the buffer.
    ghost went: { R → R → Result ℕ Error → List ℕ → Type 0 };

    /// Reads some bytes, as `Read::read` does.
    fn read(reader: &mut R, buf: &mut [u8]) -> io::Result<usize>
        ensures bound { ReadsAtMost result buf.new }
        ensures bytes { ReadConsumes (R.remaining reader.old) (R.remaining reader.new) result buf.new }
        ensures went { went reader.old reader.new result buf.new };
}

/// A way to write and to flush.
pub(crate) trait WriteWay<W: Write> {
    ghost use Rattle.std.specs.declared.io.Error.{Error};
    ghost use Rattle.std.specs.Prelude.{ℕ, List, Result};
    ghost use Rattle.std.specs.Io.{WritesAtMost};
    ghost use Rattle.std.specs.Io.KnownBytes.{Keeps, WriteAppends};

    /// What else is known of a write: of the writer before it and after it, its result and the buffer.
    ghost went: { W → W → Result ℕ Error → List ℕ → Type 0 };

    /// What else is known of a flush.
    ghost flushed: { W → W → Result (Unit {0}) Error → Type 0 };

    /// Writes some bytes, as `Write::write` does.
    fn write(writer: &mut W, buf: &[u8]) -> io::Result<usize>
        ensures bound { WritesAtMost result buf.now }
        ensures bytes { WriteAppends (W.contents writer.old) (W.contents writer.new) result buf.now }
        ensures went { went writer.old writer.new result buf.now };

    /// Flushes it, as `Write::flush` does.
    fn flush(writer: &mut W) -> io::Result<()>
        ensures bytes { Keeps (W.contents writer.old) (W.contents writer.new) }
        ensures flushed { flushed writer.old writer.new result };
}

/// The way of any stream. Nothing else is known of its calls.
pub(crate) struct Plainly;

impl<R: Read> ReadWay<R> for Plainly {
    ghost went = { λ _ _ _ _. Unit {0} };

    fn read(reader: &mut R, buf: &mut [u8]) -> io::Result<usize> {
        reader.read(buf)
    }
}

impl<W: Write> WriteWay<W> for Plainly {
    ghost went = { λ _ _ _ _. Unit {0} };

    ghost flushed = { λ _ _ _. Unit {0} };

    fn write(writer: &mut W, buf: &[u8]) -> io::Result<usize> {
        writer.write(buf)
    }

    fn flush(writer: &mut W) -> io::Result<()> {
        writer.flush()
    }
}

/// The way of a stream that notes what it is asked: it is asked once for each call.
pub(crate) struct Once;

impl<R: BoundRead> ReadWay<R> for Once {
    ghost went = { λ old new result buf.
        AsksFor ask.Reads (R.asked old) (R.asked new) result × Passes (R.gave old) (R.gave new) result buf };

    fn read(reader: &mut R, buf: &mut [u8]) -> io::Result<usize> {
        reader.read_once(buf)
    }
}

impl<W: BoundWrite> WriteWay<W> for Once {
    ghost went = { λ old new result buf.
        AsksFor ask.Writes (W.asked old) (W.asked new) result × Passes (W.took old) (W.took new) result buf };

    ghost flushed = { λ old new result. AsksFor ask.Flushes (W.asked old) (W.asked new) result };

    fn write(writer: &mut W, buf: &[u8]) -> io::Result<usize> {
        writer.write_once(buf)
    }

    fn flush(writer: &mut W) -> io::Result<()> {
        writer.flush_once()
    }
}
