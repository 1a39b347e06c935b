//! A writer that has a limited time for each stretch of its writes.
ghost use Rattle.std.specs.Prelude.{◌≡◌};
ghost use Rattle.histories.specs.Timing.{KeepsEach, SinceLast};

use crate::deadline::{Deadline, Watch};
use crate::deadline_writer::tell_in_time;
use crate::start::Start;
use crate::telling::{ResetDeadline, Tell, Telling};
use crate::wait::{BoundWrite, HasCalls};
use std::io::{self, Write};
use std::marker::PhantomData;

/// A writer that has a limited time for a stretch of writes, which begins at the first of them. A write that begins
/// after it fails, and none waits longer than what is left. A flush has no bound.
#[derive(Drop)]
pub struct RollingDeadlineWriter<P: Deadline, K: Start, W> {
    inner: Telling<W>,
    watch: Watch<P>,
    start: PhantomData<K>,
    ghost since: { SinceLast P.allowed K.calls watch.first watch.moved inner.calls.calls },
}

impl<P: Deadline, K: Start, W: BoundWrite + Drop> RollingDeadlineWriter<P, K, W> {
    /// Returns the writer with a time that has not begun.
    pub fn new(inner: Telling<W>) -> RollingDeadlineWriter<P, K, W>
        requires { ⟦<Telling<W> as HasCalls>⟧.calls inner ≡ K.calls }
        ensures { result.inner ≡ inner }
    {
        RollingDeadlineWriter {
            inner,
            watch: Watch::new(),
            start: PhantomData,
        }
    }

    /// Returns the writer alone.
    pub fn into_inner(self) -> Telling<W>
        ensures same { result ≡ self.inner }
        ensures kept { KeepsEach P.allowed K.calls (⟦<Telling<W> as HasCalls>⟧.calls result) }
    {
        self.inner
    }
}

impl<P: Deadline, K: Start, W: BoundWrite + Drop> Write for RollingDeadlineWriter<P, K, W> {
    ghost contents = { λ t. ⟦<Telling<W> as Write>⟧.contents t.inner };

    fn write(&mut self, buf: &[u8]) -> io::Result<usize> {
        self.tell(buf)
    }

    fn flush(&mut self) -> io::Result<()> {
        self.settle()
    }
}

impl<P: Deadline, K: Start, W: BoundWrite + Drop> Tell for RollingDeadlineWriter<P, K, W> {
    /// A call that failed before it came to the writer failed too.
    ghost writes = { λ t. ⟦<Telling<W> as Tell>⟧.writes t.inner };

    fn tell(&mut self, buf: &[u8]) -> io::Result<usize> {
        tell_in_time(&mut self.inner, &mut self.watch, buf)
    }

    fn settle(&mut self) -> io::Result<()> {
        self.inner.settle_once()
    }
}

impl<P: Deadline, K: Start, W: BoundWrite + Drop> ResetDeadline for RollingDeadlineWriter<P, K, W> {
    /// The time of the stretch begins at the next write.
    fn restart(&mut self) {
        self.watch = Watch::new();
    }
}
