//! A turn between two slices of a copy, or two lines of a catalog: those who wait are served.
ghost use Rattle.std.specs.Prelude.{◌≡◌, ◌⊎◌, IfOk, IsErrOf, OnOk, true, false};
ghost use Rattle.socket.specs.Connections.{both};
ghost use Rattle.socket.specs.History.{Door, TakesNext};
ghost use Rattle.interleave.specs.Interleave.{Notes};
ghost use Rattle.world.specs.World.{World};
ghost use Rattle.control.specs.Metrics.{NotesTime};
ghost use Rattle.control.specs.Notices.{WritesNotices};
ghost use Rattle.control.specs.Progress.{IsGoing};
ghost use Rattle.control.specs.Reserve.{lent};
ghost use Rattle.control.specs.Serving.{ObeysMeanwhile, Serves};
ghost use Rattle.socket.specs.declared.callers.Caller.{Caller};
ghost use Rattle.socket.specs.declared.deed.Search.TheVariants.{AtOnce};

use crate::busy_copies::obey_with;
use crate::copies::{BegunCopy, CatalogRefusal, Copies, CopyOrders, CopyRefusal};
use crate::health::Metrics;
use crate::monitored_store::{Loan, MonitoredStore};
use crate::obeying::note_told;
use crate::operator::Operator;
use crate::reserve::Reserve;
use crate::serving::{Server, is_stopping};
use crate::wall_clock::WallClock;
use histories::{ClockFace, ResetDeadline, Tell};
use interleave::between::{Between, CopyProgress, TurnEnd};
use interleave::insert_tracker::{InsertTracker, Moment};
use interleave::newcomers::Newcomers;
use keyring::Keyring;
use socket::{Caller, Callers, Peer};
use std::alloc::Global;
use std::marker::Brand;
use std::{io, mem};
use world::registry::StoreFault;
use world::shelves::Shelves;

/// The most callers who are served between two slices. More of them wait for the next slice.
const MOST_SERVED: u32 = 16;

/// A store after a turn, and whether the place of a version was lost in it.
#[derive(Drop)]
struct AfterTurn<'a, S> {
    shelves: &'a mut S,
    lost: bool,
}

/// What a server does in a turn.
impl<
    'x,
    C: ClockFace,
    P: Peer + Drop,
    O: Operator + Drop,
    L: Callers<P, O>,
    K,
    V,
    D: WallClock + Drop,
    E: Tell,
> Server<'x, C, P, O, L, K, V, D, E> {
    /// Carries out the order of an operator who came while a copy is made, and ends its connection, ignoring failures.
    fn obey_meanwhile<'b, N: Loan, M: Moment, S: Keyring>(
        &mut self,
        operator: O,
        watched: &mut MonitoredStore<'_, N, InsertTracker<'b, M, S>>,
    )
    where
        K: Copies<S, V>,
        V: Reserve<S>,
        requires { IsGoing self.old.progress.stops self.old.progress.left self.old.progress.taken }
        ensures obeys { ObeysMeanwhile (both O.came O.reads) (both O.written O.writes)
            ⟦<InsertTracker<'b, M, S> as Shelves>⟧.shown
            (λ old new making. K.made old.inner.now new.inner.now making)
            (λ old new n. K.counted old.inner.now new.inner.now n)
            operator self.old.how_far
            (both L.waiting L.history self.old.callers.now) (both L.waiting L.history self.new.callers.now)
            self.old.progress self.new.progress (both E.contents E.writes self.old.errors.now, self.old.faults)
            (both E.contents E.writes self.new.errors.now, self.new.faults)
            (lent V.deeds self.old.reserve self.old.room) (lent V.deeds self.new.reserve self.new.room)
            watched.old.inner.now watched.new.inner.now }
        ensures same { self.new.callers.ghost_name ≡ self.old.callers.ghost_name }
        ensures same_errors { self.new.errors.ghost_name ≡ self.old.errors.ghost_name }
        ensures notes { WritesNotices (E.contents self.old.errors.now) (E.contents self.new.errors.now) }
    {
        self.progress.count_operator();
        let tally = self.progress.tally;
        let (after, copies) = obey_with(
            self.alloc,
            operator,
            &tally,
            watched,
            self.copies,
            self.how_far,
            self.reserve,
        );
        let _reserve = copies.reserve;
        let noted = note_told(self.alloc, after.noted, &after.told);
        self.progress.end_if(is_stopping(after.told));
        self.tell(noted);
        self.callers.end_operator(after.operator);
    }

    /// Serves a caller who was taken while a copy is made, or counts a connection that could not be taken.
    fn serve_next<'b, N: Loan, M: Moment, S: Keyring>(
        &mut self,
        next: io::Result<Caller<P, O>>,
        watched: &mut MonitoredStore<'_, N, InsertTracker<'b, M, S>>,
    )
    where
        K: Copies<S, V>,
        V: Reserve<S>,
        requires { IsGoing self.old.progress.stops self.old.progress.left self.old.progress.taken }
        ensures serves { (door : Door (Caller P O))
            → TakesNext AtOnce door (both L.waiting L.history self.old.callers.now) next
            → IfOk next (λ caller. L.known.is_new caller)
            → Serves (both O.came O.reads) (both O.written O.writes)
            (both P.came P.reads) (both P.written P.writes) L.known ⟦<InsertTracker<'b, M, S> as Shelves>⟧.shown
            (λ old new making. K.made old.inner.now new.inner.now making)
            (λ old new n. K.counted old.inner.now new.inner.now n) true
            door (both L.waiting L.history self.new.callers.now) self.old.progress self.new.progress
            (both E.contents E.writes self.old.errors.now, self.old.faults)
            (both E.contents E.writes self.new.errors.now, self.new.faults)
            (lent V.deeds self.old.reserve self.old.room) (lent V.deeds self.new.reserve self.new.room)
            watched.old.inner.now watched.new.inner.now }
        ensures same { self.new.callers.ghost_name ≡ self.old.callers.ghost_name }
        ensures same_errors { self.new.errors.ghost_name ≡ self.old.errors.ghost_name }
        ensures notes { WritesNotices (E.contents self.old.errors.now) (E.contents self.new.errors.now) }
    {
        match next {
            Ok(Caller::Operator(operator)) => self.obey_meanwhile(operator, watched),
            Ok(Caller::Peer(peer)) => self.answer(peer, watched),
            Err(_) => self.progress.count_untaken(),
        }
    }

    /// Serves those who wait, at most `MOST_SERVED` of them, while a copy of the store is made.
    fn serve_waiting<'b, N: Loan, M: Moment, S: Keyring>(
        &mut self,
        watched: &mut MonitoredStore<'_, N, InsertTracker<'b, M, S>>,
    )
    where
        K: Copies<S, V>,
        V: Reserve<S>,
        ensures serves { Serves (both O.came O.reads) (both O.written O.writes)
            (both P.came P.reads) (both P.written P.writes) L.known ⟦<InsertTracker<'b, M, S> as Shelves>⟧.shown
            (λ old new making. K.made old.inner.now new.inner.now making)
            (λ old new n. K.counted old.inner.now new.inner.now n) true
            (both L.waiting L.history self.old.callers.now) (both L.waiting L.history self.new.callers.now)
            self.old.progress self.new.progress (both E.contents E.writes self.old.errors.now, self.old.faults)
            (both E.contents E.writes self.new.errors.now, self.new.faults)
            (lent V.deeds self.old.reserve self.old.room) (lent V.deeds self.new.reserve self.new.room)
            watched.old.inner.now watched.new.inner.now }
        ensures same { self.new.callers.ghost_name ≡ self.old.callers.ghost_name }
        ensures same_errors { self.new.errors.ghost_name ≡ self.old.errors.ghost_name }
        ensures notes { WritesNotices (E.contents self.old.errors.now) (E.contents self.new.errors.now) }
    {
        for _ in 0..MOST_SERVED {
            if self.progress.is_over() {
                return;
            }
            match self.callers.next_waiting() {
                Some(next) => self.serve_next(next, watched),
                None => return,
            }
        }
    }

    /// Serves as `serve_waiting` does, with the counts of shelves that the server has, and returns the loan of the
    /// store.
    fn serve_watched<'a, 'b, N: Loan, M: Moment, S: Keyring>(
        &mut self,
        noting: &'a mut InsertTracker<'b, M, S>,
    ) -> &'a mut InsertTracker<'b, M, S>
    where
        K: Copies<S, V>,
        V: Reserve<S>,
        requires { noting.ghost_name ≡ N.name }
        ensures same_store { result.ghost_name ≡ noting.entry.ghost_name }
        ensures serves { Serves (both O.came O.reads) (both O.written O.writes)
            (both P.came P.reads) (both P.written P.writes) L.known ⟦<InsertTracker<'b, M, S> as Shelves>⟧.shown
            (λ old new making. K.made old.inner.now new.inner.now making)
            (λ old new n. K.counted old.inner.now new.inner.now n) true
            (both L.waiting L.history self.old.callers.now) (both L.waiting L.history self.new.callers.now)
            self.old.progress self.new.progress (both E.contents E.writes self.old.errors.now, self.old.faults)
            (both E.contents E.writes self.new.errors.now, self.new.faults)
            (lent V.deeds self.old.reserve self.old.room) (lent V.deeds self.new.reserve self.new.room)
            noting.old result.now }
        ensures same { self.new.callers.ghost_name ≡ self.old.callers.ghost_name }
        ensures same_errors { self.new.errors.ghost_name ≡ self.old.errors.ghost_name }
        ensures notes { WritesNotices (E.contents self.old.errors.now) (E.contents self.new.errors.now) }
    {
        let mut watched: MonitoredStore<'a, N, InsertTracker<'b, M, S>> = MonitoredStore::new(
            self.alloc, noting,
        );
        watched.copied = self.copied;
        mem::swap(&mut watched.traffic, &mut self.traffic);
        self.serve_waiting(&mut watched);
        mem::swap(&mut watched.traffic, &mut self.traffic);
        watched.into_inner()
    }

    /// Serves those who wait with a store that notes what they publish, and returns its loan.
    fn take_turn<'a, M: Moment, S: Keyring>(
        &mut self,
        shelves: &'a mut S,
        news: &mut Newcomers,
    ) -> AfterTurn<'a, S>
    where
        K: Copies<S, V>,
        V: Reserve<S>,
        requires name { shelves.ghost_name ≡ M.name }
        requires was { (w : World) → (S.shown shelves.old).stands w → M.was w }
        requires stood { (w : World) → M.was w → (S.shown shelves.old).stands w }
        requires before { M.before ≡ news.old }
        ensures same_store { result.shelves.ghost_name ≡ shelves.entry.ghost_name }
        ensures serves { Serves (both O.came O.reads) (both O.written O.writes)
            (both P.came P.reads) (both P.written P.writes) L.known S.shown K.made K.counted true
            (both L.waiting L.history self.old.callers.now) (both L.waiting L.history self.new.callers.now)
            self.old.progress self.new.progress (both E.contents E.writes self.old.errors.now, self.old.faults)
            (both E.contents E.writes self.new.errors.now, self.new.faults)
            (lent V.deeds self.old.reserve self.old.room) (lent V.deeds self.new.reserve self.new.room)
            shelves.old result.shelves.now }
        ensures newcomers { result.lost ≡ false
            → Notes (S.shown shelves.old) (S.shown result.shelves.now) news.old news.new }
        ensures same { self.new.callers.ghost_name ≡ self.old.callers.ghost_name }
        ensures same_errors { self.new.errors.ghost_name ≡ self.old.errors.ghost_name }
        ensures notes { WritesNotices (E.contents self.old.errors.now) (E.contents self.new.errors.now) }
    {
        let before = mem::replace(news, Newcomers::new(self.alloc));
        let mut noting: InsertTracker<'a, M, S> = InsertTracker::new(self.alloc, shelves, before);
        let _lent = self.serve_watched::<Brand, M, S>(&mut noting);
        let InsertTracker {
            inner,
            news: now,
            lost,
            ..
        } = noting;
        *news = now;
        AfterTurn {
            shelves: inner,
            lost,
        }
    }
}

/// A turn serves those who wait.
impl<
    'x,
    C: ClockFace,
    P: Peer + Drop,
    O: Operator + Drop,
    L: Callers<P, O>,
    S: Keyring,
    K: Copies<S, V>,
    V: Reserve<S>,
    D: WallClock + Drop,
    E: Tell,
> Between<S> for Server<'x, C, P, O, L, K, V, D, E> {
    ghost use Rattle.socket.specs.Connections.{both};
    ghost use Rattle.control.specs.Reserve.{lent};
    ghost use Rattle.control.specs.Serving.{TakesTurns, no_fewer_turns, then_turns, turns_rest};

    ghost went = { λ old new s t. TakesTurns (both O.came O.reads) (both O.written O.writes)
        (both P.came P.reads) (both P.written P.writes) L.known S.shown K.made K.counted
        (record {
          door = both L.waiting L.history old.callers.now;
          progress = old.progress;
          log = (both E.contents E.writes old.errors.now, old.faults);
          lent = (old.callers.ghost_name, old.errors.ghost_name);
          room = lent V.deeds old.reserve old.room;
          store = s;
        })
        (record {
          door = both L.waiting L.history new.callers.now;
          progress = new.progress;
          log = (both E.contents E.writes new.errors.now, new.faults);
          lent = (new.callers.ghost_name, new.errors.ghost_name);
          room = lent V.deeds new.reserve new.room;
          store = t;
        }) };

    /// The one who ordered it has left, or an operator was told that the server ends.
    ghost ended = { λ s. (L.left s.callers.now ≡ true) ⊎ (s.progress.stops ≡ true) };

    /// Serves at most `MOST_SERVED` callers.
    fn turn(&mut self, shelves: &mut S, news: &mut Newcomers) -> Result<(), TurnEnd>
        ensures went { ⟦<Server<'x, C, P, O, L, K, V, D, E> as Between<S>>⟧.went self.old self.new
            shelves.old shelves.new }
        ensures honest { (S.shown shelves.new).is_honest → (S.shown shelves.old).is_honest }
        ensures notes { OnOk result (Notes (S.shown shelves.old) (S.shown shelves.new) news.old news.new) }
        ensures cause { IsErrOf result TurnEnd.Ended
            → (L.left self.new.callers.now ≡ true) ⊎ (self.new.progress.stops ≡ true) }
        ensures stays { OnOk result (L.left self.new.callers.now ≡ false) }
        ensures goes { OnOk result (self.new.progress.stops ≡ false) }
    {
        let after = self.take_turn::<Brand, S>(shelves, news);
        if after.lost {
            return Err(TurnEnd::Memory);
        }
        if self.progress.stops || self.callers.has_left() {
            return Err(TurnEnd::Ended);
        }
        Ok(())
    }

    fn note_how_far(&mut self, how_far: CopyProgress)
        ensures same { (s : S) → ⟦<Server<'x, C, P, O, L, K, V, D, E> as Between<S>>⟧.went self.old self.new s s }
        ensures noted { self.new.how_far ≡ Some how_far }
    {
        self.how_far = Some(how_far);
    }

    ghost rests = { λ b s t read. turns_rest _ _ _ _ _ _ _ _ _ t read };

    ghost goes_on = { λ a b c r s t one two. then_turns _ _ _ _ _ _ _ _ _ _ _ one two };

    ghost no_fewer = { λ a b s t turns. no_fewer_turns _ _ _ _ _ _ _ _ _ _ turns };
}

/// Its copies are made with turns of it.
impl<
    'x,
    'a,
    C: ClockFace,
    P: Peer + Drop,
    O: Operator + Drop,
    L: Callers<P, O>,
    N: Loan,
    S: Keyring,
    K: Copies<S, V>,
    V: Reserve<S>,
    D: WallClock + Drop,
    E: Tell,
> CopyOrders<MonitoredStore<'a, N, S>> for Server<'x, C, P, O, L, K, V, D, E> {
    ghost use Rattle.std.specs.Prelude.{◌≡◌, None};
    ghost use Rattle.std.proofs.Common.{refl};
    ghost use Rattle.socket.specs.Connections.{both};
    ghost use Rattle.control.specs.Copying.{ToPath};
    ghost use Rattle.control.specs.Metrics.{TellsKept};
    ghost use Rattle.control.specs.Reserve.{lent};
    ghost use Rattle.control.specs.Serving.{MakesWatched};

    ghost made = { λ old new making. K.made old.inner.now new.inner.now making };

    ghost counted = { λ old new n. K.counted old.inner.now new.inner.now n };

    /// No copy is being made.
    ghost figured = { λ _ w f. TellsKept (K.figured w.inner.now) w.traffic w.copied None f };

    /// The one who ordered it is watched first. It ends early only if that one left since then, or an operator was told
    /// that the server ends.
    ghost meanwhile = { λ old new s t making. MakesWatched (both O.came O.reads) (both O.written O.writes)
        (both P.came P.reads) (both P.written P.writes) L.known S.shown K.made K.counted
        (both L.waiting L.history) L.left old.callers.now
        (record {
          door = both L.waiting L.history old.callers.now;
          progress = old.progress;
          log = (both E.contents E.writes old.errors.now, old.faults);
          lent = (old.callers.ghost_name, old.errors.ghost_name);
          room = lent V.deeds old.reserve old.room;
          store = s.inner.now;
        })
        (record {
          door = both L.waiting L.history new.callers.now;
          progress = new.progress;
          log = (both E.contents E.writes new.errors.now, new.faults);
          lent = (new.callers.ghost_name, new.errors.ghost_name);
          room = lent V.deeds new.reserve new.room;
          store = t.inner.now;
        })
        (⟦<Server<'x, C, P, O, L, K, V, D, E> as Between<S>>⟧.ended new) making };

    ghost deeds = { λ s. V.deeds s.reserve.now };

    /// Whoever calls, how far it has come, what it told, and its reserve and how much there was of it are the same.
    ghost rests = { λ a b. (b.callers ≡ a.callers) × (b.progress ≡ a.progress) × (b.errors ≡ a.errors)
        × (b.faults ≡ a.faults) × (b.reserve.ghost_name ≡ a.reserve.ghost_name) × (b.room ≡ a.room) };

    /// Also notes that the copy is begun, and when it was made, if it was.
    fn copy_to(
        &mut self,
        shelves: &mut MonitoredStore<'a, N, S>,
        path: &str,
    ) -> Result<(), CopyRefusal>
        ensures meanwhile { ⟦<Server<'x, C, P, O, L, K, V, D, E> as CopyOrders<MonitoredStore<'a, N, S>>>⟧.meanwhile
            self.old self.new shelves.old shelves.new (ToPath path.now result) }
        ensures came { K.made shelves.old.inner.now shelves.new.inner.now (ToPath path.now result) }
        ensures time { NotesTime (D.shown self.new.calendar) shelves.old.copied shelves.new.copied result }
    {
        let copies = self.copies;
        self.callers.watch_operator();
        self.copied = shelves.copied;
        self.how_far = Some(CopyProgress { done: 0, all: 0 });
        mem::swap(&mut self.traffic, &mut shelves.traffic);
        let begun = BegunCopy::new(path, self.reserve);
        let told = copies.copy(shelves.inner, begun, self);
        mem::swap(&mut self.traffic, &mut shelves.traffic);
        if let Err(why) = told {
            return Err(why);
        }
        shelves.note_time(self.calendar.time_now());
        Ok(())
    }

    fn catalog_to<U: ResetDeadline>(
        &mut self,
        alloc: Global,
        shelves: &mut MonitoredStore<'a, N, S>,
        key: &str,
        output: &mut U,
    ) -> Result<(), CatalogRefusal> {
        let copies = self.copies;
        self.callers.watch_operator();
        self.copied = shelves.copied;
        self.how_far = None;
        mem::swap(&mut self.traffic, &mut shelves.traffic);
        let told = copies.catalog(alloc, shelves.inner, key, output, self);
        mem::swap(&mut self.traffic, &mut shelves.traffic);
        told
    }

    fn versions(&self, shelves: &mut MonitoredStore<'a, N, S>) -> Result<u64, StoreFault> {
        self.copies.versions(shelves.inner)
    }

    fn figures<'s>(&self, shelves: &'s MonitoredStore<'a, N, S>) -> Metrics<'s> {
        shelves.figures_with(self.copies.figures(shelves.inner), None)
    }

    fn give_up_room(&mut self) -> bool {
        <V as Reserve<S>>::give_up_room(self.reserve)
    }

    ghost is_same = { λ s. (refl, refl, refl, refl, refl, refl) };
}
