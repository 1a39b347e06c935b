//! One caller after another.
ghost use Rattle.std.specs.Prelude.{◌≡◌, ◌≤◌, ◌+◌, false};
ghost use Rattle.socket.specs.Connections.{both};
ghost use Rattle.socket.specs.History.{Door, Takes};
ghost use Rattle.control.specs.Notices.{WritesNotices};
ghost use Rattle.control.specs.Progress.{IsGoing, IsOver};
ghost use Rattle.control.specs.Reserve.{lent};
ghost use Rattle.control.specs.Serving.{Serves};
ghost use Rattle.control.specs.Tasks.{GoesOn};
ghost use Rattle.control.specs.Traces.{TracesEach};
ghost use Rattle.control.specs.Visits.{EndsEach, ReadsEach, ServesEach};
ghost use Rattle.socket.specs.declared.callers.Caller.{Caller};
ghost use Rattle.socket.specs.declared.callers.Caller.TheVariants.{Operator};
ghost use Rattle.socket.specs.declared.deed.Search.TheVariants.{Waiting};

use crate::copies::Copies;
use crate::monitored_store::{Loan, MonitoredStore};
use crate::obeying::note_told;
use crate::operator::Operator;
use crate::reserve::{Reserve, Room};
use crate::serving::{Server, is_stopping};
use crate::wall_clock::WallClock;
use histories::{ClockFace, Tell};
use keyring::Keyring;
use modver::TimeText;
use socket::{Caller, Callers, Peer};
use std::alloc::Global;
use std::marker::Brand;
use world::shelves::Shelves;

/// Takes `connections` connections of peers, one after another, and answers the first message on each. Between them it
/// carries out the orders of operators, who do not count; `copies` makes their copies, `calendar` shows when each was
/// made, and `reserve` keeps room for them, of which there was so much when it was last looked for. While a copy is
/// made, those who connect are served. A ping gets the counts of the connections since the server began, which was at
/// `since`. It waits for the next caller as long as that takes. It returns after the last peer, or once `Stopping` was
/// written to an operator.
///
/// What came of each order, and which faults the store met, is written to `errors`; if that fails, nothing else
/// changes.
///
/// A connection counts even if it fails. One that can't be taken counts too, even an operator's, so a server without
/// descriptors ends.
pub fn serve_both<
    C: ClockFace,
    P: Peer + Drop,
    O: Operator + Drop,
    L: Callers<P, O>,
    S: Keyring,
    K: Copies<S, V>,
    V: Reserve<S>,
    D: WallClock + Drop,
    E: Tell,
>(
    alloc: Global,
    clock: &C,
    callers: &mut L,
    shelves: &mut S,
    copies: &K,
    reserve: &mut V,
    room: Room,
    calendar: D,
    since: TimeText,
    connections: u32,
    errors: &mut E,
)
    // One run of the machine: its events are the messages, at most one on each connection, and the registry commands.
    ensures goes { GoesOn (S.shown shelves.old) (S.shown shelves.new) connections }
    // Each message is answered on the connection that it came over, and the outcome of each order is told on its own.
    // If none is, or it is not written whole, a call of that connection failed. Each caller who was taken is left, a
    // peer with the status of its reply if that was written whole, and its connection is ended by that.
    ensures each { ServesEach (both O.came O.reads) (both O.written O.writes)
        (both P.came P.reads) (both P.written P.writes) L.known
        (both L.waiting L.history callers.old) (both L.waiting L.history callers.new)
        (S.shown shelves.old) (S.shown shelves.new) connections }
    // Each copy is made of the machine's world at its moment, between two of its events. Each ping is told the versions
    // that were counted so, and the counts of the connections that were taken before it.
    ensures reads { ReadsEach (both O.came O.reads) (both O.written O.writes)
        (both P.came P.reads) (both P.written P.writes) S.shown K.made K.counted L.known
        (both L.waiting L.history callers.old) (both L.waiting L.history callers.new)
        shelves.old shelves.new since connections }
    // It ends once an operator was told so, and not before, unless its connections are used up.
    ensures ends { EndsEach (both O.came O.reads) (both O.written O.writes)
        (both P.came P.reads) (both P.written P.writes) S.shown K.made K.counted L.known
        (both L.waiting L.history callers.old) (both L.waiting L.history callers.new)
        shelves.old shelves.new since connections }
    // Only notices are written to `errors`.
    ensures notes { WritesNotices (E.contents errors.old) (E.contents errors.new) }
    // The lines are those of the callers, one after another: for each order one of its own, that of its notice or one
    // which says that memory ran out for it, and for each peer at most one of a fault, which was not told in the minute
    // before. Each caller has at most one on the room for orders. They are whole, unless a write or a flush failed.
    //
    // A registry command that the disk refused is tried again with the room that is kept for that, if there is some.
    // No other order, and nothing else that is done, gives it up. Each time that the room is then looked for, a line is
    // written if there is more or less of it than the last time.
    ensures traces { TracesEach (both O.came O.reads) (both O.written O.writes)
        (both P.came P.reads) (both P.written P.writes) S.shown K.made K.counted L.known
        (both L.waiting L.history callers.old) (both L.waiting L.history callers.new)
        shelves.old shelves.new since connections
        (both E.contents E.writes errors.old) (both E.contents E.writes errors.new) room
        (V.deeds reserve.old) (V.deeds reserve.new) }
{
    let _lent = serve_lent::<C, P, O, L, S, K, V, D, E, Brand>(
        alloc,
        clock,
        callers,
        shelves,
        copies,
        reserve,
        room,
        calendar,
        since,
        connections,
        errors,
    );
}

/// What was lent to a server.
#[derive(Drop)]
struct Loans<'a, L, S, E, V> {
    callers: &'a mut L,
    shelves: &'a mut S,
    errors: &'a mut E,
    reserve: &'a mut V,
}

/// Serves as `serve_both` does, and returns the loans.
fn serve_lent<
    'a,
    C: ClockFace,
    P: Peer + Drop,
    O: Operator + Drop,
    L: Callers<P, O>,
    S: Keyring,
    K: Copies<S, V>,
    V: Reserve<S>,
    D: WallClock + Drop,
    E: Tell,
    N: Loan,
>(
    alloc: Global,
    clock: &'a C,
    callers: &'a mut L,
    shelves: &'a mut S,
    copies: &'a K,
    reserve: &'a mut V,
    room: Room,
    calendar: D,
    since: TimeText,
    connections: u32,
    errors: &'a mut E,
) -> Loans<'a, L, S, E, V>
    requires { shelves.ghost_name ≡ N.name }
    ensures same { result.shelves.ghost_name ≡ shelves.entry.ghost_name }
    ensures same_callers { result.callers.ghost_name ≡ callers.entry.ghost_name }
    ensures same_errors { result.errors.ghost_name ≡ errors.entry.ghost_name }
    ensures same_reserve { result.reserve.ghost_name ≡ reserve.entry.ghost_name }
    ensures goes { GoesOn (S.shown shelves.old) (S.shown result.shelves.now) connections }
    ensures each { ServesEach (both O.came O.reads) (both O.written O.writes)
        (both P.came P.reads) (both P.written P.writes) L.known
        (both L.waiting L.history callers.old) (both L.waiting L.history result.callers.now)
        (S.shown shelves.old) (S.shown result.shelves.now) connections }
    ensures reads { ReadsEach (both O.came O.reads) (both O.written O.writes)
        (both P.came P.reads) (both P.written P.writes) S.shown K.made K.counted L.known
        (both L.waiting L.history callers.old) (both L.waiting L.history result.callers.now)
        shelves.old result.shelves.now since connections }
    ensures ends { EndsEach (both O.came O.reads) (both O.written O.writes)
        (both P.came P.reads) (both P.written P.writes) S.shown K.made K.counted L.known
        (both L.waiting L.history callers.old) (both L.waiting L.history result.callers.now)
        shelves.old result.shelves.now since connections }
    ensures notes { WritesNotices (E.contents errors.old) (E.contents result.errors.now) }
    ensures traces { TracesEach (both O.came O.reads) (both O.written O.writes)
        (both P.came P.reads) (both P.written P.writes) S.shown K.made K.counted L.known
        (both L.waiting L.history callers.old) (both L.waiting L.history result.callers.now)
        shelves.old result.shelves.now since connections
        (both E.contents E.writes errors.old) (both E.contents E.writes result.errors.now) room
        (V.deeds reserve.old) (V.deeds result.reserve.now) }
{
    let mut server = Server::new(
        alloc,
        clock,
        callers,
        copies,
        reserve,
        room,
        calendar,
        errors,
        since,
        connections,
    );
    let mut watched: MonitoredStore<'a, N, S> = MonitoredStore::new(alloc, shelves);
    server.serve_each(&mut watched);
    let (callers, errors, reserve) = server.into_parts();
    Loans {
        callers,
        shelves: watched.into_inner(),
        errors,
        reserve,
    }
}

/// What a server does from its first caller to its last.
impl<
    'x,
    C: ClockFace,
    P: Peer + Drop,
    O: Operator + Drop,
    L: Callers<P, O>,
    K,
    V,
    D: WallClock + Drop,
    E: Tell,
> Server<'x, C, P, O, L, K, V, D, E> {
    /// Serves callers, one after another, until no more are to be taken.
    fn serve_each<N: Loan, S: Keyring>(&mut self, watched: &mut MonitoredStore<'_, N, S>)
    where
        K: Copies<S, V>,
        V: Reserve<S>,
        requires { self.old.progress.taken ≡ 0 }
        ensures serves { Serves (both O.came O.reads) (both O.written O.writes)
            (both P.came P.reads) (both P.written P.writes) L.known S.shown K.made K.counted false
            (both L.waiting L.history self.old.callers.now) (both L.waiting L.history self.new.callers.now)
            self.old.progress self.new.progress (both E.contents E.writes self.old.errors.now, self.old.faults)
            (both E.contents E.writes self.new.errors.now, self.new.faults)
            (lent V.deeds self.old.reserve self.old.room) (lent V.deeds self.new.reserve self.new.room)
            watched.old.inner.now watched.new.inner.now }
        ensures over { IsOver self.new.progress.stops self.new.progress.left self.new.progress.taken }
        ensures same { self.new.callers.ghost_name ≡ self.old.callers.ghost_name }
        ensures same_errors { self.new.errors.ghost_name ≡ self.old.errors.ghost_name }
        ensures notes { WritesNotices (E.contents self.old.errors.now) (E.contents self.new.errors.now) }
    {
        for _ in 0..u64::MAX {
            if self.progress.is_over() {
                return;
            }
            match self.callers.next() {
                Ok(Caller::Operator(operator)) => self.obey_on(operator, watched),
                Ok(Caller::Peer(peer)) => self.answer(peer, watched),
                Err(_) => self.progress.count_untaken(),
            }
        }
    }

    /// Carries out the order of an operator, and ends its connection. While a copy is made for it, others are served.
    /// Ignores failures of the connection.
    fn obey_on<N: Loan, S: Keyring>(&mut self, operator: O, watched: &mut MonitoredStore<'_, N, S>)
    where
        K: Copies<S, V>,
        V: Reserve<S>,
        requires { IsGoing self.old.progress.stops self.old.progress.left self.old.progress.taken }
        ensures serves { (door : Door (Caller P O))
            → Takes Waiting door (both L.waiting L.history self.old.callers.now) (Operator operator)
            → L.known.is_new (Operator operator)
            → Serves (both O.came O.reads) (both O.written O.writes)
            (both P.came P.reads) (both P.written P.writes) L.known S.shown K.made K.counted false
            door (both L.waiting L.history self.new.callers.now) self.old.progress self.new.progress
            (both E.contents E.writes self.old.errors.now, self.old.faults)
            (both E.contents E.writes self.new.errors.now, self.new.faults)
            (lent V.deeds self.old.reserve self.old.room) (lent V.deeds self.new.reserve self.new.room)
            watched.old.inner.now watched.new.inner.now }
        ensures taken { self.old.progress.taken + 1 ≤ self.new.progress.taken }
        ensures same { self.new.callers.ghost_name ≡ self.old.callers.ghost_name }
        ensures same_errors { self.new.errors.ghost_name ≡ self.old.errors.ghost_name }
        ensures notes { WritesNotices (E.contents self.old.errors.now) (E.contents self.new.errors.now) }
    {
        self.progress.count_operator();
        let (alloc, tally) = (self.alloc, self.progress.tally);
        let after = operator.obeyed(alloc, &tally, watched, self);
        let noted = note_told(alloc, after.noted, &after.told);
        self.progress.end_if(is_stopping(after.told));
        self.tell(noted);
        self.callers.end_operator(after.operator);
    }
}
