//! A writer that keeps account of what it took.
ghost use Rattle.std.specs.Prelude.{◌≡◌, ◌+◌, [], ◌∷◌, Some, MatchResult};
ghost use Rattle.std.specs.Io.{WritesAtMost};
ghost use Rattle.std.specs.Io.KnownBytes.{Keeps, WriteAppends};
ghost use Rattle.histories.specs.Asked.{AsksFor, LooksAt, Passes};
ghost use Rattle.histories.specs.Calls.{CallsFlush, CallsWrite, Writes, no_writes};
ghost use Rattle.histories.specs.Counted.{times};
ghost use Rattle.histories.specs.declared.ask.Ask.TheVariants as ask;
ghost use Rattle.histories.specs.declared.call.Call.TheVariants as call;

use crate::call::Call;
use crate::calls::Calls;
use crate::count::Count;
use crate::record::Record;
use crate::wait::{BoundWrite, HasCalls};
use crate::way::{Once, Plainly, WriteWay};
use std::io::{self, Write};
use std::time::{Duration, Instant};

/// A writer that keeps account of the calls to it.
pub trait Tell: Write {
    /// The calls to write to it and to flush it so far.
    ghost writes: { Self → Writes };

    /// Writes some bytes, as `Write::write` does, and notes the call.
    fn tell(&mut self, buf: &[u8]) -> io::Result<usize>
        ensures bound { WritesAtMost result buf.now }
        ensures bytes { WriteAppends (Self.contents self.old) (Self.contents self.new) result buf.now }
        ensures calls { CallsWrite (writes self.old) (writes self.new) result buf.now };

    /// Flushes it, as `Write::flush` does, and notes the call.
    fn settle(&mut self) -> io::Result<()>
        ensures bytes { Keeps (Self.contents self.old) (Self.contents self.new) }
        ensures calls { CallsFlush (writes self.old) (writes self.new) result };
}

/// A writer whose writes may have a limited time, which can begin anew.
pub trait ResetDeadline: Tell {
    /// Begins a stretch of writes, which has its own time.
    fn restart(&mut self)
        ensures bytes { Self.contents self.new ≡ Self.contents self.old }
        ensures writes { Self.writes self.new ≡ Self.writes self.old };
}

/// Any writer, with an account of what it took, which is its `contents`.
#[derive(Drop)]
pub struct Telling<W> {
    inner: W,
    noted: Record,
    unflushed: Record,
    failed: Count,
    calls: Calls,
}

impl<W: Write> Telling<W> {
    /// Returns a writer that took nothing so far.
    pub fn new(inner: W) -> Telling<W>
        ensures bytes { ⟦<Telling<W> as Write>⟧.contents result ≡ Some [] }
        ensures writes { ⟦<Telling<W> as Tell>⟧.writes result ≡ no_writes }
        ensures inner { result.inner ≡ inner }
        ensures calls { result.calls.calls ≡ [] }
    {
        Telling {
            inner,
            noted: Record::new(),
            unflushed: Record::new(),
            failed: Count::new(),
            calls: Calls::new(),
        }
    }
}

impl<W: Write> Telling<W> {
    /// Notes a call that was refused before it came to the writer, as one that failed.
    pub(crate) fn refuse(&mut self)
        ensures same { self.new ≡ record self.old { failed = self.new.failed; calls = self.new.calls } }
        ensures failed { times self.new.failed ≡ times self.old.failed + 1 }
        ensures noted { self.new.calls.calls ≡ call.Refused ∷ self.old.calls.calls }
    {
        self.failed.one_more();
        self.calls.note(&[Call::Refused]);
    }
}

impl<W: Write> Telling<W> {
    /// Writes some bytes in this way, and notes the call.
    fn tell_by<V: WriteWay<W>>(&mut self, buf: &[u8]) -> io::Result<usize>
        ensures bound { WritesAtMost result buf.now }
        ensures bytes { WriteAppends (Some self.old.noted.bytes) (Some self.new.noted.bytes) result buf.now }
        ensures calls { CallsWrite (⟦<Telling<W> as Tell>⟧.writes self.old) (⟦<Telling<W> as Tell>⟧.writes self.new)
            result buf.now }
        ensures passed { WriteAppends (W.contents self.old.inner) (W.contents self.new.inner) result buf.now }
        ensures noted { MatchResult result
            (λ n. self.new.calls.calls ≡ call.Moves n ∷ call.Begins ∷ self.old.calls.calls)
            (λ _. self.new.calls.calls ≡ call.Begins ∷ self.old.calls.calls) }
        // The writer inside was written to so.
        ensures went { V.went self.old.inner self.new.inner result buf.now }
    {
        self.calls.note(&[Call::Begins]);
        match V::write(&mut self.inner, buf) {
            Ok(n) => {
                self.calls.note(&[Call::Moves(n)]);
                self.noted.note(&buf[..n]);
                self.unflushed.note(&buf[..n]);
                if n == 0 && !buf.is_empty() {
                    self.failed.one_more();
                }
                Ok(n)
            }
            Err(e) => {
                self.failed.one_more();
                Err(e)
            }
        }
    }

    /// Flushes it in this way, and notes the call.
    fn settle_by<V: WriteWay<W>>(&mut self) -> io::Result<()>
        ensures bytes { self.new.noted ≡ self.old.noted }
        ensures waits { self.new.calls ≡ self.old.calls }
        ensures calls { CallsFlush (⟦<Telling<W> as Tell>⟧.writes self.old) (⟦<Telling<W> as Tell>⟧.writes self.new)
            result }
        ensures passed { Keeps (W.contents self.old.inner) (W.contents self.new.inner) }
        // The writer inside was flushed so.
        ensures flushed { V.flushed self.old.inner self.new.inner result }
    {
        match V::flush(&mut self.inner) {
            Ok(()) => {
                self.unflushed = Record::new();
                Ok(())
            }
            Err(e) => {
                self.failed.one_more();
                Err(e)
            }
        }
    }
}

impl<W: Write> Write for Telling<W> {
    ghost contents = { λ t. Some t.noted.bytes };

    fn write(&mut self, buf: &[u8]) -> io::Result<usize> {
        self.tell(buf)
    }

    fn flush(&mut self) -> io::Result<()> {
        self.settle()
    }
}

impl<W: Write> Tell for Telling<W> {
    ghost writes = { λ t. record { unflushed = t.unflushed.bytes; failed = times t.failed } };

    fn tell(&mut self, buf: &[u8]) -> io::Result<usize>
        ensures bound { WritesAtMost result buf.now }
        ensures bytes { WriteAppends (Some self.old.noted.bytes) (Some self.new.noted.bytes) result buf.now }
        ensures calls { CallsWrite (record { unflushed = self.old.unflushed.bytes; failed = times self.old.failed })
            (record { unflushed = self.new.unflushed.bytes; failed = times self.new.failed }) result buf.now }
        // What is noted is what the writer inside took.
        ensures passed { WriteAppends (W.contents self.old.inner) (W.contents self.new.inner) result buf.now }
        // The account of calls has the write, and the bytes that it took.
        ensures noted { MatchResult result
            (λ n. self.new.calls.calls ≡ call.Moves n ∷ call.Begins ∷ self.old.calls.calls)
            (λ _. self.new.calls.calls ≡ call.Begins ∷ self.old.calls.calls) }
    {
        self.tell_by::<Plainly>(buf)
    }

    fn settle(&mut self) -> io::Result<()>
        ensures bytes { self.new.noted ≡ self.old.noted }
        ensures waits { self.new.calls ≡ self.old.calls }
        ensures calls { CallsFlush (record { unflushed = self.old.unflushed.bytes; failed = times self.old.failed })
            (record { unflushed = self.new.unflushed.bytes; failed = times self.new.failed }) result }
        ensures passed { Keeps (W.contents self.old.inner) (W.contents self.new.inner) }
    {
        self.settle_by::<Plainly>()
    }
}

/// Its writes have no limit.
impl<W: Write> ResetDeadline for Telling<W> {
    fn restart(&mut self) {}
}

impl<W: Write> HasCalls for Telling<W> {
    ghost calls = { λ t. t.calls.calls };
}

impl<W: BoundWrite> Telling<W> {
    /// Writes some bytes, as `tell` does, and asks the writer for that once.
    pub(crate) fn tell_once(&mut self, buf: &[u8]) -> io::Result<usize>
        ensures bound { WritesAtMost result buf.now }
        ensures bytes { WriteAppends (Some self.old.noted.bytes) (Some self.new.noted.bytes) result buf.now }
        ensures calls { CallsWrite (⟦<Telling<W> as Tell>⟧.writes self.old) (⟦<Telling<W> as Tell>⟧.writes self.new)
            result buf.now }
        ensures passed { WriteAppends (W.contents self.old.inner) (W.contents self.new.inner) result buf.now }
        ensures noted { MatchResult result
            (λ n. self.new.calls.calls ≡ call.Moves n ∷ call.Begins ∷ self.old.calls.calls)
            (λ _. self.new.calls.calls ≡ call.Begins ∷ self.old.calls.calls) }
        // The writer inside was asked for this write, and took what is noted.
        ensures asked { AsksFor ask.Writes (W.asked self.old.inner) (W.asked self.new.inner) result }
        ensures took { Passes (W.took self.old.inner) (W.took self.new.inner) result buf.now }
    {
        self.tell_by::<Once>(buf)
    }

    /// Flushes it, as `settle` does, and asks the writer for that once.
    pub(crate) fn settle_once(&mut self) -> io::Result<()>
        ensures bytes { self.new.noted ≡ self.old.noted }
        ensures waits { self.new.calls ≡ self.old.calls }
        ensures calls { CallsFlush (⟦<Telling<W> as Tell>⟧.writes self.old) (⟦<Telling<W> as Tell>⟧.writes self.new)
            result }
        ensures passed { Keeps (W.contents self.old.inner) (W.contents self.new.inner) }
        // The writer inside was asked for this flush.
        ensures asked { AsksFor ask.Flushes (W.asked self.old.inner) (W.asked self.new.inner) result }
    {
        self.settle_by::<Once>()
    }

    /// Reads the clock of the writer, and notes what it shows, or that it can't be read. Fails if it can't.
    pub(crate) fn look(&mut self) -> io::Result<Instant>
        ensures same { self.new ≡ record self.old { inner = self.new.inner; calls = self.new.calls } }
        ensures passed { W.contents self.new.inner ≡ W.contents self.old.inner }
        // What is noted is what the clock of the writer inside showed.
        ensures asked { LooksAt (W.asked self.old.inner) (W.asked self.new.inner) result }
        ensures noted { MatchResult result (λ now. self.new.calls.calls ≡ call.Shows now ∷ self.old.calls.calls)
            (λ _. self.new.calls.calls ≡ call.Unshown ∷ self.old.calls.calls) }
    {
        match self.inner.look() {
            Ok(now) => {
                self.calls.note(&[Call::Shows(now)]);
                Ok(now)
            }
            Err(e) => {
                self.calls.note(&[Call::Unshown]);
                Err(e)
            }
        }
    }

    /// Makes every later write that waits longer than this fail, or return what it wrote until then, and notes that, or
    /// that the bound can't be set. Fails if it can't.
    pub(crate) fn bound(&mut self, longest: Duration) -> io::Result<()>
        ensures same { self.new ≡ record self.old { inner = self.new.inner; calls = self.new.calls } }
        ensures passed { W.contents self.new.inner ≡ W.contents self.old.inner }
        // What is noted is what the writer inside was asked.
        ensures asked { AsksFor (ask.BoundWrites longest) (W.asked self.old.inner) (W.asked self.new.inner) result }
        ensures noted { MatchResult result (λ _. self.new.calls.calls ≡ call.Bounds longest ∷ self.old.calls.calls)
            (λ _. self.new.calls.calls ≡ call.Unbound longest ∷ self.old.calls.calls) }
    {
        match self.inner.bound_writes(longest) {
            Ok(()) => {
                self.calls.note(&[Call::Bounds(longest)]);
                Ok(())
            }
            Err(e) => {
                self.calls.note(&[Call::Unbound(longest)]);
                Err(e)
            }
        }
    }

    /// Makes every later write fail, and the other side read an end, and notes that it was asked to. Fails if the
    /// system refuses that.
    pub fn shut(&mut self) -> io::Result<()>
        ensures same { self.new ≡ record self.old { inner = self.new.inner; calls = self.new.calls } }
        ensures passed { W.contents self.new.inner ≡ W.contents self.old.inner }
        ensures asked { AsksFor ask.Shut (W.asked self.old.inner) (W.asked self.new.inner) result }
        ensures noted { self.new.calls.calls ≡ call.Shuts ∷ self.old.calls.calls }
    {
        self.calls.note(&[Call::Shuts]);
        self.inner.shut()
    }
}
