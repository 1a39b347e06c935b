//! A writer that has a limited time.
ghost use Rattle.std.specs.Prelude.{◌≡◌, true, List, IfErr, OnOk};
ghost use Rattle.std.specs.Io.{WritesAtMost};
ghost use Rattle.std.specs.Io.KnownBytes.{WriteAppends};
ghost use Rattle.histories.specs.Calls.{CallsWrite};
ghost use Rattle.histories.specs.Timing.{IsLate, IsReady, KeepsTime, Since, StaysSince};
ghost use Rattle.histories.specs.declared.call.Call.{Call};

use crate::deadline::{Deadline, Watch};
use crate::start::Start;
use crate::telling::{Tell, Telling};
use crate::wait::{BoundWrite, HasCalls};
use std::io::{self, Write};
use std::marker::PhantomData;

/// A writer that has a limited time, which begins at the first write. A write that begins after it fails, and none
/// waits longer than what is left. A flush has no bound.
#[derive(Drop)]
pub struct DeadlineWriter<P: Deadline, K: Start, W> {
    inner: Telling<W>,
    watch: Watch<P>,
    start: PhantomData<K>,
    ghost since: { ∥ Since P.allowed K.calls watch.first watch.moved true inner.calls.calls ∥₁ },
}

impl<P: Deadline, K: Start, W: BoundWrite + Drop> DeadlineWriter<P, K, W> {
    /// Returns the writer with a time that has not begun.
    pub fn new(inner: Telling<W>) -> DeadlineWriter<P, K, W>
        requires { ⟦<Telling<W> as HasCalls>⟧.calls inner ≡ K.calls }
        ensures { result.inner ≡ inner }
    {
        DeadlineWriter {
            inner,
            watch: Watch::new(),
            start: PhantomData,
        }
    }

    /// Returns the writer alone.
    pub fn into_inner(self) -> Telling<W>
        ensures same { result ≡ self.inner }
        ensures kept { KeepsTime P.allowed K.calls (⟦<Telling<W> as HasCalls>⟧.calls result) }
    {
        self.inner
    }
}

/// Writes some bytes in the time that is watched, and counts them. A call that fails before it comes to the writer is
/// noted as one that failed.
pub(crate) fn tell_in_time<P: Deadline, W: BoundWrite + Drop>(
    inner: &mut Telling<W>,
    watch: &mut Watch<P>,
    buf: &[u8],
) -> io::Result<usize>
    ensures bound { WritesAtMost result buf.now }
    ensures bytes { WriteAppends (⟦<Telling<W> as Write>⟧.contents inner.old)
        (⟦<Telling<W> as Write>⟧.contents inner.new) result buf.now }
    ensures calls { CallsWrite (⟦<Telling<W> as Tell>⟧.writes inner.old) (⟦<Telling<W> as Tell>⟧.writes inner.new)
        result buf.now }
    ensures since { StaysSince P.allowed watch.old.first watch.new.first watch.old.moved watch.new.moved
        inner.old.calls.calls inner.new.calls.calls }
{
    if let Err(e) = bound(inner, watch) {
        inner.refuse();
        return Err(e);
    }
    let n = inner.tell_once(buf)?;
    watch.count(n);
    Ok(n)
}

/// Bounds the next write by what is left of the time. Fails if none is left, or if the clock can't be read or the
/// bound can't be set.
fn bound<P: Deadline, W: BoundWrite + Drop>(
    inner: &mut Telling<W>,
    watch: &mut Watch<P>,
) -> io::Result<()>
    ensures contents { ⟦<Telling<W> as Write>⟧.contents inner.new ≡ ⟦<Telling<W> as Write>⟧.contents inner.old }
    ensures writes { ⟦<Telling<W> as Tell>⟧.writes inner.new ≡ ⟦<Telling<W> as Tell>⟧.writes inner.old }
    ensures ready { (start : List Call)
        → ∥ Since P.allowed start watch.old.first watch.old.moved true inner.old.calls.calls ∥₁
        → OnOk result (IsReady P.allowed start watch.new.first watch.new.moved true inner.new.calls.calls) }
    ensures late { (start : List Call)
        → ∥ Since P.allowed start watch.old.first watch.old.moved true inner.old.calls.calls ∥₁
        → IfErr result (λ _. IsLate P.allowed start watch.new.first watch.new.moved true inner.new.calls.calls) }
{
    let now = inner.look()?;
    let left = watch.left(now)?;
    inner.bound(left)
}

impl<P: Deadline, K: Start, W: BoundWrite + Drop> Write for DeadlineWriter<P, K, W> {
    ghost contents = { λ t. ⟦<Telling<W> as Write>⟧.contents t.inner };

    fn write(&mut self, buf: &[u8]) -> io::Result<usize> {
        self.tell(buf)
    }

    fn flush(&mut self) -> io::Result<()> {
        self.settle()
    }
}

impl<P: Deadline, K: Start, W: BoundWrite + Drop> Tell for DeadlineWriter<P, K, W> {
    /// A call that failed before it came to the writer failed too.
    ghost writes = { λ t. ⟦<Telling<W> as Tell>⟧.writes t.inner };

    fn tell(&mut self, buf: &[u8]) -> io::Result<usize> {
        tell_in_time(&mut self.inner, &mut self.watch, buf)
    }

    fn settle(&mut self) -> io::Result<()> {
        self.inner.settle_once()
    }
}
