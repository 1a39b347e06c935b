//! A reader that has a limited time.
ghost use Rattle.std.specs.Prelude.{◌≡◌, ◌+◌, ◌∷◌, false, refl, true, IfErr, MatchResult, OnOk};
ghost use Rattle.histories.specs.Stopping.{WaitsIf, WaitsSince};
ghost use Rattle.histories.specs.Timing.{IsLate, IsReady, KeepsTime, Since};
ghost use Rattle.histories.specs.declared.ask.Ask.TheVariants as ask;

use crate::deadline::{Deadline, Watch};
use crate::hearing::{Hear, Hearing};
use crate::start::Start;
use crate::wait::{BoundRead, HasCalls};
use std::io::{self, Read};
use std::marker::PhantomData;

/// A reader that has a limited time, which begins at the first read. A read that begins after it fails, and none waits
/// longer than what is left, or none waits at all.
#[derive(Drop)]
pub struct DeadlineReader<P: Deadline, K: Start, R: BoundRead> {
    inner: Hearing<R>,
    watch: Watch<P>,
    waits: bool,
    start: PhantomData<K>,
    ghost since: { ∥ Since P.allowed K.calls watch.first watch.moved waits inner.calls.calls ∥₁ },
    ghost stops: { ∥ WaitsSince K.may_wait K.calls inner.calls.calls ∥₁ },
}

impl<P: Deadline, K: Start, R: BoundRead + Drop> DeadlineReader<P, K, R> {
    /// Returns the reader with a time that has not begun, whose reads may wait.
    pub fn new(inner: Hearing<R>) -> DeadlineReader<P, K, R>
        requires calls { ⟦<Hearing<R> as HasCalls>⟧.calls inner ≡ K.calls }
        requires waits { K.may_wait ≡ true }
        ensures { result.inner ≡ inner }
    {
        DeadlineReader {
            inner,
            watch: Watch::new(),
            waits: true,
            start: PhantomData,
        }
    }

    /// Returns the reader with a time that has not begun, whose reads fail where they would wait; or the reader alone,
    /// if the system refuses that.
    pub fn at_once(inner: Hearing<R>) -> Result<DeadlineReader<P, K, R>, Hearing<R>>
        requires calls { ⟦<Hearing<R> as HasCalls>⟧.calls inner ≡ K.calls }
        requires waits { K.may_wait ≡ false }
        ensures account { MatchResult result
            (λ reader. ⟦<Hearing<R> as Hear>⟧.account reader.inner ≡ ⟦<Hearing<R> as Hear>⟧.account inner)
            (λ reader. ⟦<Hearing<R> as Hear>⟧.account reader ≡ ⟦<Hearing<R> as Hear>⟧.account inner) }
        // That the system refuses it counts as a call that failed.
        ensures reads { MatchResult result
            (λ reader. ⟦<Hearing<R> as Hear>⟧.reads reader.inner ≡ ⟦<Hearing<R> as Hear>⟧.reads inner)
            (λ reader. (⟦<Hearing<R> as Hear>⟧.reads reader).failed
            ≡ (⟦<Hearing<R> as Hear>⟧.reads inner).failed + 1) }
        // The system is asked for it, once.
        ensures asked { MatchResult result
            (λ reader. R.asked reader.inner.inner ≡ ask.StopWaiting ∷ R.asked inner.inner)
            (λ reader. R.asked reader.inner ≡ ask.Refused ∷ ask.StopWaiting ∷ R.asked inner.inner) }
        ensures refused { IfErr result (λ reader. ⟦<Hearing<R> as HasCalls>⟧.calls reader ≡ K.calls) }
    {
        let mut inner = inner;
        match inner.stop_waiting() {
            Ok(()) => Ok(DeadlineReader {
                inner,
                watch: Watch::new(),
                waits: false,
                start: PhantomData,
            }),
            Err(_) => Err(inner),
        }
    }

    /// Returns the reader alone.
    pub fn into_inner(self) -> Hearing<R>
        ensures same { result ≡ self.inner }
        ensures kept { KeepsTime P.allowed K.calls (⟦<Hearing<R> as HasCalls>⟧.calls result) }
        ensures waits { WaitsIf K.may_wait K.calls (⟦<Hearing<R> as HasCalls>⟧.calls result) }
    {
        self.inner
    }

    /// Bounds the next read by what is left of the time. Fails if none is left, or if the clock can't be read or the
    /// bound can't be set.
    fn bound(&mut self) -> io::Result<()>
        ensures account { ⟦<Hearing<R> as Hear>⟧.account self.new.inner
            ≡ ⟦<Hearing<R> as Hear>⟧.account self.old.inner }
        ensures reads { ⟦<Hearing<R> as Hear>⟧.reads self.new.inner ≡ ⟦<Hearing<R> as Hear>⟧.reads self.old.inner }
        ensures ready { OnOk result (IsReady P.allowed K.calls
            self.new.watch.first self.new.watch.moved self.new.waits self.new.inner.calls.calls) }
        ensures late { IfErr result (λ _. IsLate P.allowed K.calls
            self.new.watch.first self.new.watch.moved self.new.waits self.new.inner.calls.calls) }
    {
        let now = self.inner.look()?;
        let left = self.watch.left(now)?;
        if self.waits {
            self.inner.bound(left)
        } else {
            Ok(())
        }
    }
}

impl<P: Deadline, K: Start, R: BoundRead + Drop> Read for DeadlineReader<P, K, R> {
    ghost remaining = { λ h. R.remaining h.inner.inner };

    fn read(&mut self, buf: &mut [u8]) -> io::Result<usize> {
        self.hear(buf)
    }
}

impl<P: Deadline, K: Start, R: BoundRead + Drop> Hear for DeadlineReader<P, K, R> {
    ghost account = { λ h. ⟦<Hearing<R> as Hear>⟧.account h.inner };

    /// A call that failed before it came to the reader failed too.
    ghost reads = { λ h. ⟦<Hearing<R> as Hear>⟧.reads h.inner };

    fn hear(&mut self, buf: &mut [u8]) -> io::Result<usize> {
        if let Err(e) = self.bound() {
            self.inner.refuse(&e);
            return Err(e);
        }
        let n = self.inner.hear_once(buf)?;
        self.watch.count(n);
        Ok(n)
    }

    ghost left_is = { λ _. refl };

    ghost sound = { λ h. h.inner.ended };
}
