//! What can be asked of a stream besides its bytes.

use std::io::{self, Read, Write};
use std::time::{Duration, Instant};

/// A reader that has a clock, and whose waits can be bounded.
pub trait BoundRead: Read {
    ghost use Rattle.std.specs.Prelude.{◌≡◌, ℕ, List};
    ghost use Rattle.std.specs.Io.{ReadsAtMost};
    ghost use Rattle.std.specs.Io.KnownBytes.{ReadConsumes};
    ghost use Rattle.histories.specs.Asked.{AsksFor, LooksAt, Passes};
    ghost use Rattle.histories.specs.declared.ask.Ask.{Ask};
    ghost use Rattle.histories.specs.declared.ask.Ask.TheVariants as ask;

    /// What it was asked so far and what it refused, the last first.
    ghost asked: { Self → List Ask };

    /// The bytes that it gave so far.
    ghost gave: { Self → List ℕ };

    /// Reads some bytes, as `Read::read` does. Asks for that once.
    fn read_once(&mut self, buf: &mut [u8]) -> io::Result<usize>
        ensures asked { AsksFor ask.Reads (asked self.old) (asked self.new) result }
        ensures gave { Passes (gave self.old) (gave self.new) result buf.new }
        ensures bound { ReadsAtMost result buf.new }
        ensures bytes { ReadConsumes (Self.remaining self.old) (Self.remaining self.new) result buf.new };

    /// Reads its clock. Fails if that can't be read.
    fn look(&mut self) -> io::Result<Instant>
        ensures asked { LooksAt (asked self.old) (asked self.new) result }
        ensures bytes { Self.remaining self.new ≡ Self.remaining self.old };

    /// Makes every later read fail that waits longer than this. Fails if the bound can't be set.
    fn bound_reads(&mut self, longest: Duration) -> io::Result<()>
        ensures asked { AsksFor (ask.BoundReads longest) (asked self.old) (asked self.new) result }
        ensures bytes { Self.remaining self.new ≡ Self.remaining self.old };

    /// Makes every later read fail that would wait. Fails if the system refuses that.
    fn stop_waiting(&mut self) -> io::Result<()>
        ensures asked { AsksFor ask.StopWaiting (asked self.old) (asked self.new) result }
        ensures bytes { Self.remaining self.new ≡ Self.remaining self.old };
}

/// A writer that has a clock, whose waits can be bounded, and that can be shut.
pub trait BoundWrite: Write {
    ghost use Rattle.std.specs.Prelude.{◌≡◌, ℕ, List};
    ghost use Rattle.std.specs.Io.{WritesAtMost};
    ghost use Rattle.std.specs.Io.KnownBytes.{Keeps, WriteAppends};
    ghost use Rattle.histories.specs.Asked.{AsksFor, LooksAt, Passes};
    ghost use Rattle.histories.specs.declared.ask.Ask.{Ask};
    ghost use Rattle.histories.specs.declared.ask.Ask.TheVariants as ask;

    /// What it was asked so far and what it refused, the last first.
    ghost asked: { Self → List Ask };

    /// The bytes that it took so far.
    ghost took: { Self → List ℕ };

    /// Writes some bytes, as `Write::write` does. Asks for that once.
    fn write_once(&mut self, buf: &[u8]) -> io::Result<usize>
        ensures asked { AsksFor ask.Writes (asked self.old) (asked self.new) result }
        ensures took { Passes (took self.old) (took self.new) result buf.now }
        ensures bound { WritesAtMost result buf.now }
        ensures bytes { WriteAppends (Self.contents self.old) (Self.contents self.new) result buf.now };

    /// Flushes it, as `Write::flush` does. Asks for that once.
    fn flush_once(&mut self) -> io::Result<()>
        ensures asked { AsksFor ask.Flushes (asked self.old) (asked self.new) result }
        ensures bytes { Keeps (Self.contents self.old) (Self.contents self.new) };

    /// Reads its clock. Fails if that can't be read.
    fn look(&mut self) -> io::Result<Instant>
        ensures asked { LooksAt (asked self.old) (asked self.new) result }
        ensures bytes { Self.contents self.new ≡ Self.contents self.old };

    /// Makes every later write that waits longer than this fail, or return what it wrote until then. Fails if the bound
    /// can't be set.
    fn bound_writes(&mut self, longest: Duration) -> io::Result<()>
        ensures asked { AsksFor (ask.BoundWrites longest) (asked self.old) (asked self.new) result }
        ensures bytes { Self.contents self.new ≡ Self.contents self.old };

    /// Makes every later write fail, and the other side read an end. Fails if the system refuses that.
    fn shut(&mut self) -> io::Result<()>
        ensures asked { AsksFor ask.Shut (asked self.old) (asked self.new) result }
        ensures bytes { Self.contents self.new ≡ Self.contents self.old };
}

/// One side of a connection, with an account of the calls that bear on how long it is waited for.
pub trait HasCalls {
    ghost use Rattle.std.specs.Prelude.{List};
    ghost use Rattle.histories.specs.declared.call.Call.{Call};

    /// These calls so far, the last of them first.
    ghost calls: { Self → List Call };
}
