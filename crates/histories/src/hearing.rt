//! A reader that keeps account of what it gave.
ghost use Rattle.std.specs.Prelude.{◌≡◌, ◌+◌, [], ◌∷◌, refl, false, Ok, IsTrue, MatchResult};
ghost use Rattle.std.specs.Io.KnownBytes.{IsAtEnd};
ghost use Rattle.histories.specs.End.{ended-prop};
ghost use Rattle.std.specs.Io.{ReadsAtMost};
ghost use Rattle.histories.specs.Account.{Account, GivesTo, IsSound, new_account};
ghost use Rattle.histories.specs.Asked.{AsksFor, LooksAt, Passes};
ghost use Rattle.histories.specs.Calls.{BeginsNone, CallsRead, FailsOnce, Reads, no_reads};
ghost use Rattle.std.specs.IoError.{error_kind};
ghost use Rattle.histories.specs.Counted.{times};
ghost use Rattle.histories.specs.Failure.{failure_of};
ghost use Rattle.histories.specs.declared.ask.Ask.TheVariants as ask;
ghost use Rattle.histories.specs.declared.call.Call.TheVariants as call;

use crate::call::Call;
use crate::calls::Calls;
use crate::count::Count;
use crate::failures::Failures;
use crate::record::Record;
use crate::wait::{BoundRead, HasCalls};
use crate::way::{Once, Plainly, ReadWay};
use std::io::{self, Read};
use std::time::{Duration, Instant};

/// A reader that keeps account of what it gave.
pub trait Hear: Read {
    /// What it gave so far, whether it said that there are no more bytes, and those that it still has, if they are
    /// known.
    ghost account: { Self → Account };

    /// The calls to read from it so far.
    ghost reads: { Self → Reads };

    /// Reads some bytes, as `Read::read` does, and notes them.
    fn hear(&mut self, buf: &mut [u8]) -> io::Result<usize>
        ensures bound { ReadsAtMost result buf.new }
        ensures gives { GivesTo (account self.old) (account self.new) result buf.new }
        ensures calls { CallsRead (reads self.old) (reads self.new) result buf.new };

    /// The account agrees with `Read` on what is left.
    ghost left_is: { (s : Self) → (account s).left ≡ Self.remaining s };

    /// A reader that said that there are no more bytes has none.
    ghost sound: { (s : Self) → IsSound (account s) };
}

/// Any reader, with an account of what it gave. It hears no more once a read gave nothing.
#[derive(Drop)]
pub struct Hearing<R: Read> {
    inner: R,
    noted: Record,
    begun: Count,
    last: Record,
    failures: Failures,
    calls: Calls,
    is_over: bool,
    ghost ended: { IsTrue is_over → IsAtEnd (R.remaining inner) } by { ended-prop is_over (R.remaining inner) },
}

impl<R: Read> Hearing<R> {
    /// Returns a reader that gave nothing so far.
    pub fn new(inner: R) -> Hearing<R>
        ensures came { ⟦<Hearing<R> as Hear>⟧.account result ≡ new_account (R.remaining inner) }
        ensures reads { ⟦<Hearing<R> as Hear>⟧.reads result ≡ no_reads }
        ensures calls { result.calls.calls ≡ [] }
    {
        Hearing {
            inner,
            noted: Record::new(),
            begun: Count::new(),
            last: Record::new(),
            failures: Failures::new(),
            calls: Calls::new(),
            is_over: false,
        }
    }
}

impl<R: Read> Hearing<R> {
    /// Notes a call that was refused with an error before it came to the reader, as one that failed.
    pub(crate) fn refuse(&mut self, error: &io::Error)
        ensures account { ⟦<Hearing<R> as Hear>⟧.account self.new ≡ ⟦<Hearing<R> as Hear>⟧.account self.old }
        ensures begins { BeginsNone (⟦<Hearing<R> as Hear>⟧.reads self.old) (⟦<Hearing<R> as Hear>⟧.reads self.new) }
        ensures fails { FailsOnce (failure_of (error_kind error.now))
            (⟦<Hearing<R> as Hear>⟧.reads self.old) (⟦<Hearing<R> as Hear>⟧.reads self.new) }
        ensures noted { self.new.calls.calls ≡ call.Refused ∷ self.old.calls.calls }
    {
        self.failures.note(error);
        self.calls.note(&[Call::Refused]);
    }
}

impl<R: Read> Hearing<R> {
    /// Reads some bytes in this way, and notes them.
    fn hear_by<V: ReadWay<R>>(&mut self, buf: &mut [u8]) -> io::Result<usize>
        ensures bound { ReadsAtMost result buf.new }
        ensures gives { GivesTo (⟦<Hearing<R> as Hear>⟧.account self.old) (⟦<Hearing<R> as Hear>⟧.account self.new)
            result buf.new }
        ensures calls { CallsRead (⟦<Hearing<R> as Hear>⟧.reads self.old) (⟦<Hearing<R> as Hear>⟧.reads self.new)
            result buf.new }
        // The account of calls has the read, and the bytes that it gave.
        ensures noted { MatchResult result
            (λ n. self.new.calls.calls ≡ call.Moves n ∷ call.Begins ∷ self.old.calls.calls)
            (λ _. self.new.calls.calls ≡ call.Begins ∷ self.old.calls.calls) }
        // The reader inside was read from, unless it had said that there are no more bytes.
        ensures went { self.old.is_over ≡ false → V.went self.old.inner self.new.inner result buf.new }
        ensures over { IsTrue self.old.is_over → (self.new.inner ≡ self.old.inner) × (result ≡ Ok 0) }
    {
        self.begun.one_more();
        self.calls.note(&[Call::Begins]);
        self.last = Record::new();
        if self.is_over {
            self.calls.note(&[Call::Moves(0)]);
            return Ok(0);
        }
        match V::read(&mut self.inner, buf) {
            Ok(n) => {
                self.calls.note(&[Call::Moves(n)]);
                self.noted.note(&buf[..n]);
                self.last.note(&buf[..n]);
                self.is_over = n == 0 && !buf.is_empty();
                Ok(n)
            }
            Err(e) => {
                self.failures.note(&e);
                Err(e)
            }
        }
    }
}

impl<R: Read> Read for Hearing<R> {
    ghost remaining = { λ h. R.remaining h.inner };

    fn read(&mut self, buf: &mut [u8]) -> io::Result<usize> {
        self.hear(buf)
    }
}

impl<R: Read> Hear for Hearing<R> {
    ghost account = { λ h. record { heard = h.noted.bytes; is_over = h.is_over; left = R.remaining h.inner } };

    ghost reads = { λ h. record {
      begun = times h.begun;
      last = h.last.bytes;
      failed = times h.failures.all;
      late = times h.failures.late;
      broken = times h.failures.broken;
    } };

    fn hear(&mut self, buf: &mut [u8]) -> io::Result<usize>
        ensures bound { ReadsAtMost result buf.new }
        ensures gives { GivesTo
            (record { heard = self.old.noted.bytes; is_over = self.old.is_over; left = R.remaining self.old.inner })
            (record { heard = self.new.noted.bytes; is_over = self.new.is_over; left = R.remaining self.new.inner })
            result buf.new }
        ensures calls { CallsRead
            (record {
              begun = times self.old.begun;
              last = self.old.last.bytes;
              failed = times self.old.failures.all;
              late = times self.old.failures.late;
              broken = times self.old.failures.broken;
            })
            (record {
              begun = times self.new.begun;
              last = self.new.last.bytes;
              failed = times self.new.failures.all;
              late = times self.new.failures.late;
              broken = times self.new.failures.broken;
            })
            result buf.new }
        // The account of calls has the read, and the bytes that it gave.
        ensures noted { MatchResult result
            (λ n. self.new.calls.calls ≡ call.Moves n ∷ call.Begins ∷ self.old.calls.calls)
            (λ _. self.new.calls.calls ≡ call.Begins ∷ self.old.calls.calls) }
    {
        self.hear_by::<Plainly>(buf)
    }

    ghost left_is = { λ _. refl };

    ghost sound = { λ h. h.ended };
}

impl<R: Read> HasCalls for Hearing<R> {
    ghost calls = { λ h. h.calls.calls };
}

impl<R: BoundRead> Hearing<R> {
    /// Reads some bytes, as `hear` does, and asks the reader for them once.
    pub(crate) fn hear_once(&mut self, buf: &mut [u8]) -> io::Result<usize>
        ensures bound { ReadsAtMost result buf.new }
        ensures gives { GivesTo (⟦<Hearing<R> as Hear>⟧.account self.old) (⟦<Hearing<R> as Hear>⟧.account self.new)
            result buf.new }
        ensures calls { CallsRead (⟦<Hearing<R> as Hear>⟧.reads self.old) (⟦<Hearing<R> as Hear>⟧.reads self.new)
            result buf.new }
        ensures noted { MatchResult result
            (λ n. self.new.calls.calls ≡ call.Moves n ∷ call.Begins ∷ self.old.calls.calls)
            (λ _. self.new.calls.calls ≡ call.Begins ∷ self.old.calls.calls) }
        // The reader inside was asked for this read, and gave what is noted.
        ensures asked { self.old.is_over ≡ false
            → AsksFor ask.Reads (R.asked self.old.inner) (R.asked self.new.inner) result }
        ensures gave { self.old.is_over ≡ false
            → Passes (R.gave self.old.inner) (R.gave self.new.inner) result buf.new }
        // It was asked nothing if it had said that there are no more bytes.
        ensures over { IsTrue self.old.is_over → (self.new.inner ≡ self.old.inner) × (result ≡ Ok 0) }
    {
        self.hear_by::<Once>(buf)
    }

    /// Reads the clock of the reader, and notes what it shows, or that it can't be read. Fails if it can't.
    pub(crate) fn look(&mut self) -> io::Result<Instant>
        ensures account { ⟦<Hearing<R> as Hear>⟧.account self.new ≡ ⟦<Hearing<R> as Hear>⟧.account self.old }
        ensures reads { ⟦<Hearing<R> as Hear>⟧.reads self.new ≡ ⟦<Hearing<R> as Hear>⟧.reads self.old }
        // What is noted is what the clock of the reader inside showed.
        ensures asked { LooksAt (R.asked self.old.inner) (R.asked self.new.inner) result }
        ensures noted { MatchResult result (λ now. self.new.calls.calls ≡ call.Shows now ∷ self.old.calls.calls)
            (λ _. self.new.calls.calls ≡ call.Unshown ∷ self.old.calls.calls) }
    {
        match self.inner.look() {
            Ok(now) => {
                self.calls.note(&[Call::Shows(now)]);
                Ok(now)
            }
            Err(e) => {
                self.calls.note(&[Call::Unshown]);
                Err(e)
            }
        }
    }

    /// Makes every later read fail that waits longer than this, and notes that, or that the bound can't be set. Fails
    /// if it can't.
    pub(crate) fn bound(&mut self, longest: Duration) -> io::Result<()>
        ensures account { ⟦<Hearing<R> as Hear>⟧.account self.new ≡ ⟦<Hearing<R> as Hear>⟧.account self.old }
        ensures reads { ⟦<Hearing<R> as Hear>⟧.reads self.new ≡ ⟦<Hearing<R> as Hear>⟧.reads self.old }
        // What is noted is what the reader inside was asked.
        ensures asked { AsksFor (ask.BoundReads longest) (R.asked self.old.inner) (R.asked self.new.inner) result }
        ensures noted { MatchResult result (λ _. self.new.calls.calls ≡ call.Bounds longest ∷ self.old.calls.calls)
            (λ _. self.new.calls.calls ≡ call.Unbound longest ∷ self.old.calls.calls) }
    {
        match self.inner.bound_reads(longest) {
            Ok(()) => {
                self.calls.note(&[Call::Bounds(longest)]);
                Ok(())
            }
            Err(e) => {
                self.calls.note(&[Call::Unbound(longest)]);
                Err(e)
            }
        }
    }

    /// Makes every later read fail that would wait, and notes that. Fails if the system refuses that, which counts as a
    /// call that failed.
    pub(crate) fn stop_waiting(&mut self) -> io::Result<()>
        ensures account { ⟦<Hearing<R> as Hear>⟧.account self.new ≡ ⟦<Hearing<R> as Hear>⟧.account self.old }
        ensures reads { MatchResult result
            (λ _. ⟦<Hearing<R> as Hear>⟧.reads self.new ≡ ⟦<Hearing<R> as Hear>⟧.reads self.old)
            (λ e. BeginsNone (⟦<Hearing<R> as Hear>⟧.reads self.old) (⟦<Hearing<R> as Hear>⟧.reads self.new)
            × FailsOnce (failure_of (error_kind e))
            (⟦<Hearing<R> as Hear>⟧.reads self.old) (⟦<Hearing<R> as Hear>⟧.reads self.new)) }
        // What is noted is what the reader inside was asked.
        ensures asked { AsksFor ask.StopWaiting (R.asked self.old.inner) (R.asked self.new.inner) result }
        ensures noted { MatchResult result (λ _. self.new.calls.calls ≡ call.Stops ∷ self.old.calls.calls)
            (λ _. self.new.calls ≡ self.old.calls) }
    {
        match self.inner.stop_waiting() {
            Ok(()) => {
                self.calls.note(&[Call::Stops]);
                Ok(())
            }
            Err(e) => {
                self.failures.note(&e);
                Err(e)
            }
        }
    }
}
