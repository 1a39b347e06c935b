//! A server: it takes callers, answers peers and carries out the orders of operators.
ghost use Rattle.std.specs.Prelude.{◌≡◌, ◌↔◌, [], false, IsTrue, None, Ok};
ghost use Rattle.socket.specs.Connections.{AnswersOne, both};
ghost use Rattle.std.specs.Option.{ForSome};
ghost use Rattle.world.specs.World.{World};
ghost use Rattle.control.specs.Counted.{CountsPublishes, HoldsBack, NotesAndTells};
ghost use Rattle.control.specs.Health.{tally_of};
ghost use Rattle.control.specs.Finds.{WritesAndDoes};
ghost use Rattle.control.specs.Noted.{AreUnheld, LooksOnce, LooksUnlessWhole, NotesAndLooks, TellsPeer, noted_line};
ghost use Rattle.control.specs.Notices.{IsLineAbout, IsOfFault, WritesLines, WritesNotices};
ghost use Rattle.control.specs.Progress.{IsGoing};
ghost use Rattle.control.specs.Reserve.{lent};

use crate::control_reply::ControlReply;
use crate::faults::RecentFaults;
use crate::monitored_store::{Loan, MonitoredStore};
use crate::notice::{Noted, reserved};
use crate::operator::Operator;
use crate::peer_store::{Arrival, PeerStore};
use crate::progress::Progress;
use crate::reserve::{KeepsRoom, Room};
use crate::telling::{tell, tell_if, tell_next};
use crate::traffic::Traffic;
use crate::wall_clock::WallClock;
use engine::Io;
use histories::{ClockFace, Tell};
use interleave::between::CopyProgress;
use modver::TimeText;
use orders::Outcome;
use socket::{After, Callers, Peer, written_status};
use std::alloc::Global;
use std::marker::{Brand, PhantomData};
use std::mem;
use wire::RouteTable;
use world::shelves::Shelves;

/// What serves callers. It holds no store.
#[derive(Drop)]
pub(crate) struct Server<'x, C, P, O, L, K, V, D, E> {
    pub(crate) alloc: Global,
    pub(crate) clock: &'x C,
    pub(crate) callers: &'x mut L,
    /// What makes copies.
    pub(crate) copies: &'x K,
    /// What keeps room on the disk for orders.
    pub(crate) reserve: &'x mut V,
    /// What shows when a copy was made.
    pub(crate) calendar: D,
    pub(crate) errors: &'x mut E,
    routes: RouteTable,
    faults: RecentFaults,
    pub(crate) progress: Progress,
    /// The counts of the shelves while a copy is made; the store that is watched has them otherwise.
    pub(crate) traffic: Traffic,
    /// When the last copy was made, for those who ask while the next one is.
    pub(crate) copied: Option<TimeText>,
    /// How far the copy is that is being made, for those who ask then; none while a catalog is printed.
    pub(crate) how_far: Option<CopyProgress>,
    /// How much there was of the room that is kept on the disk for orders, when it was last looked for.
    pub(crate) room: Room,
    peers: PhantomData<P>,
    operators: PhantomData<O>,
}

impl<
    'x,
    C: ClockFace,
    P: Peer + Drop,
    O: Operator + Drop,
    L: Callers<P, O>,
    K,
    V: KeepsRoom,
    D: WallClock + Drop,
    E: Tell,
> Server<'x, C, P, O, L, K, V, D, E> {
    ghost use Rattle.control.specs.Serving.{ServesPeer};

    /// Returns a server that begins. There is so much of the room that `reserve` keeps.
    pub(crate) fn new(
        alloc: Global,
        clock: &'x C,
        callers: &'x mut L,
        copies: &'x K,
        reserve: &'x mut V,
        room: Room,
        calendar: D,
        errors: &'x mut E,
        since: TimeText,
        connections: u32,
    ) -> Server<'x, C, P, O, L, K, V, D, E>
        ensures callers { result.callers ≡ callers.entry }
        ensures copies { result.copies.now ≡ copies.now }
        ensures errors { result.errors ≡ errors.entry }
        ensures faults { result.faults.told.items ≡ [] }
        ensures reserve { result.reserve ≡ reserve.entry }
        ensures room { result.room ≡ room }
        ensures tally { result.progress.tally ≡ tally_of since [] }
        ensures left { result.progress.left ≡ connections }
        ensures taken { result.progress.taken ≡ 0 }
        ensures stops { result.progress.stops ≡ false }
    {
        Server {
            alloc,
            clock,
            callers,
            copies,
            reserve,
            calendar,
            errors,
            routes: RouteTable::new(alloc),
            faults: RecentFaults::new(alloc),
            progress: Progress::new(since, connections),
            traffic: Traffic::new(alloc),
            copied: None,
            how_far: None,
            room,
            peers: PhantomData,
            operators: PhantomData,
        }
    }

    /// Returns the callers, what notices are written to, and what keeps room.
    pub(crate) fn into_parts(self) -> (&'x mut L, &'x mut E, &'x mut V)
        ensures same { result.0.ghost_name ≡ self.entry.callers.ghost_name }
        ensures same_errors { result.1.ghost_name ≡ self.entry.errors.ghost_name }
        ensures same_reserve { result.2.ghost_name ≡ self.entry.reserve.ghost_name }
        ensures callers { result.0.now ≡ self.entry.callers.now }
        ensures errors { result.1.now ≡ self.entry.errors.now }
        ensures reserve { result.2.now ≡ self.entry.reserve.now }
    {
        (self.callers, self.errors, self.reserve)
    }

    /// Answers a peer, ends its connection and counts it. While not all of the room is there that an order needed, no
    /// version is published.
    pub(crate) fn answer<N: Loan, S: Shelves>(
        &mut self,
        peer: P,
        watched: &mut MonitoredStore<'_, N, S>,
    )
        requires { IsGoing self.old.progress.stops self.old.progress.left self.old.progress.taken }
        ensures serves { ServesPeer (both P.came P.reads) (both P.written P.writes) L.known peer
            (both L.waiting L.history self.old.callers.now) (both L.waiting L.history self.new.callers.now)
            self.old.progress self.new.progress (S.shown watched.old.inner.now) (S.shown watched.new.inner.now) }
        ensures same { self.new.callers.ghost_name ≡ self.old.callers.ghost_name }
        ensures notes { WritesNotices (E.contents self.old.errors.now) (E.contents self.new.errors.now) }
        // At most one line of the room on the disk, of what was found of it if not all had been there, and then at most
        // one of a fault, which is then remembered.
        ensures tells { WritesAndDoes (TellsPeer self.old.faults self.new.faults)
            (both E.contents E.writes self.old.errors.now) (both E.contents E.writes self.new.errors.now)
            (lent V.deeds self.old.reserve self.old.room) (lent V.deeds self.new.reserve self.new.room) }
        // What the peer published is counted, unless there is trouble of which a line is written.
        ensures counts { NotesAndTells (S.shown watched.old.inner.now) (S.shown watched.new.inner.now)
            watched.old.traffic watched.new.traffic self.old.room self.new.room self.old.faults self.new.faults
            (both E.contents E.writes self.old.errors.now) (both E.contents E.writes self.new.errors.now) }
        // Publishes are held back exactly if not all of the room is there that an order needed.
        ensures short { IsTrue watched.new.is_held ↔ (self.new.room ≡ Room.Short) }
        ensures held { HoldsBack watched.new.is_held
            (S.shown watched.old.inner.now) (S.shown watched.new.inner.now) }
        ensures same_errors { self.new.errors.ghost_name ≡ self.old.errors.ghost_name }
    {
        self.keep_room_unless_whole();
        watched.is_held = self.room == Room::Short;
        let after = self.answer_on(peer, watched);
        let answered = after.status;
        self.callers.end_peer(after.peer, written_status(answered));
        self.progress.count_peer(answered);
        self.tell_of(watched);
    }

    /// Answers the first message of a peer, as `Peer::answer` does.
    fn answer_on<N: Loan, S: Shelves>(
        &mut self,
        peer: P,
        watched: &mut MonitoredStore<'_, N, S>,
    ) -> After<P>
        // Publishes are held back exactly if not all of the room is there that an order needed.
        requires short { IsTrue watched.old.is_held ↔ (self.old.room ≡ Room.Short) }
        ensures same { self.new.callers ≡ self.old.callers }
        ensures progress { self.new.progress ≡ self.old.progress }
        ensures room { self.new.room ≡ self.old.room }
        ensures faults { self.new.faults ≡ self.old.faults }
        ensures errors { self.new.errors ≡ self.old.errors }
        ensures reserve { self.new.reserve ≡ self.old.reserve }
        ensures answers { AnswersOne (both P.came P.reads) (both P.written P.writes) peer result.peer
            (S.shown watched.old.inner.now) (S.shown watched.new.inner.now) result.status }
        // What is published is counted, unless a fault is noted or that memory ran out, and nothing else is.
        ensures counts { CountsPublishes (S.shown watched.old.inner.now) (S.shown watched.new.inner.now)
            watched.old.traffic watched.new.traffic watched.new.notice }
        // While publishes are held back, nothing is published.
        ensures held { HoldsBack watched.old.is_held
            (S.shown watched.old.inner.now) (S.shown watched.new.inner.now) }
        ensures same_held { watched.new.is_held ≡ watched.old.is_held }
    {
        let traffic = mem::replace(&mut watched.traffic, Traffic::new(self.alloc));
        let AnsweredPeer {
            after,
            notice,
            traffic,
            is_held,
            shelves: _lent,
        } = answer_lent::<P, Brand, S>(
            self.alloc,
            &mut self.routes,
            peer,
            watched.inner,
            traffic,
            watched.is_held,
        );
        watched.notice = notice;
        watched.traffic = traffic;
        watched.is_held = is_held;
        after
    }

    /// Writes what is noted of an order, if something is, and then what has to be said of the room on the disk.
    pub(crate) fn tell(&mut self, noted: Option<Noted>)
        ensures same { self.new.callers ≡ self.old.callers }
        ensures progress { self.new.progress ≡ self.old.progress }
        ensures faults { self.new.faults ≡ self.old.faults }
        ensures notes { WritesNotices (E.contents self.old.errors.now) (E.contents self.new.errors.now) }
        ensures tells { WritesAndDoes (NotesAndLooks noted)
            (both E.contents E.writes self.old.errors.now) (both E.contents E.writes self.new.errors.now)
            (lent V.deeds self.old.reserve self.old.room) (lent V.deeds self.new.reserve self.new.room) }
        ensures same_errors { self.new.errors.ghost_name ≡ self.old.errors.ghost_name }
    {
        tell_if(noted, self.errors);
        self.keep_room_and_tell();
    }

    /// Has as much room kept as the disk has, and writes whether that is all of it, if that changed.
    fn keep_room_and_tell(&mut self)
        ensures same { self.new.callers ≡ self.old.callers }
        ensures faults { self.new.faults ≡ self.old.faults }
        ensures progress { self.new.progress ≡ self.old.progress }
        ensures notes { WritesNotices (E.contents self.old.errors.now) (E.contents self.new.errors.now) }
        ensures tells { WritesAndDoes LooksOnce
            (both E.contents E.writes self.old.errors.now) (both E.contents E.writes self.new.errors.now)
            (lent V.deeds self.old.reserve self.old.room) (lent V.deeds self.new.reserve self.new.room) }
        ensures same_errors { self.new.errors.ghost_name ≡ self.old.errors.ghost_name }
    {
        let room = self.reserve.keep_room();
        if room == self.room {
            return;
        }
        self.room = room;
        tell(reserved(self.alloc, room.is_whole()), self.errors);
    }

    /// Does so unless all of it was there when it was last looked for.
    fn keep_room_unless_whole(&mut self)
        ensures same { self.new.callers ≡ self.old.callers }
        ensures faults { self.new.faults ≡ self.old.faults }
        ensures progress { self.new.progress ≡ self.old.progress }
        ensures notes { WritesNotices (E.contents self.old.errors.now) (E.contents self.new.errors.now) }
        ensures tells { WritesAndDoes LooksUnlessWhole
            (both E.contents E.writes self.old.errors.now) (both E.contents E.writes self.new.errors.now)
            (lent V.deeds self.old.reserve self.old.room) (lent V.deeds self.new.reserve self.new.room) }
        ensures same_errors { self.new.errors.ghost_name ≡ self.old.errors.ghost_name }
    {
        if self.room == Room::Whole {
            return;
        }
        self.keep_room_and_tell();
    }

    /// Writes what has to be said of the store.
    fn tell_of<N: Loan, S: Shelves>(&mut self, watched: &mut MonitoredStore<'_, N, S>)
        ensures same { self.new.callers ≡ self.old.callers }
        ensures progress { self.new.progress ≡ self.old.progress }
        ensures room { self.new.room ≡ self.old.room }
        ensures store { watched.new.inner ≡ watched.old.inner }
        ensures counts { watched.new.traffic ≡ watched.old.traffic }
        ensures held { watched.new.is_held ≡ watched.old.is_held }
        ensures forgets { watched.new.notice ≡ None }
        ensures notes { WritesNotices (E.contents self.old.errors.now) (E.contents self.new.errors.now) }
        ensures tells { WritesLines (AreUnheld self.old.faults self.new.faults watched.old.notice)
            (both E.contents E.writes self.old.errors.now) (both E.contents E.writes self.new.errors.now) }
        ensures same_errors { self.new.errors.ghost_name ≡ self.old.errors.ghost_name }
        ensures reserve { self.new.reserve ≡ self.old.reserve }
    {
        tell_next(
            self.alloc,
            self.clock,
            watched,
            &mut self.faults,
            self.errors,
        );
    }
}

/// A peer after it was answered, with what was noted and counted then, and the store that was lent.
#[derive(Drop)]
struct AnsweredPeer<'a, P, S> {
    after: After<P>,
    notice: Option<Noted>,
    traffic: Traffic,
    /// Whether publishes were held back.
    is_held: bool,
    shelves: &'a mut S,
}

/// Answers the first message of a peer from a store that notes and counts, and returns the loan too.
fn answer_lent<'a, P: Peer + Drop, M: Arrival, S: Shelves>(
    alloc: Global,
    routes: &mut RouteTable,
    peer: P,
    shelves: &'a mut S,
    traffic: Traffic,
    is_held: bool,
) -> AnsweredPeer<'a, P, S>
    requires name { shelves.ghost_name ≡ M.name }
    requires was { (w : World) → (S.shown shelves.old).stands w → M.was w }
    requires stood { (w : World) → M.was w → (S.shown shelves.old).stands w }
    requires before { M.before ≡ traffic }
    requires held { M.held ≡ is_held }
    ensures same { result.shelves.ghost_name ≡ shelves.entry.ghost_name }
    ensures answers { AnswersOne (both P.came P.reads) (both P.written P.writes) peer result.after.peer
        (S.shown shelves.old) (S.shown result.shelves.now) result.after.status }
    ensures counts { CountsPublishes (S.shown shelves.old) (S.shown result.shelves.now)
        traffic result.traffic result.notice }
    ensures held { HoldsBack is_held (S.shown shelves.old) (S.shown result.shelves.now) }
    ensures same_held { result.is_held ≡ is_held }
    ensures of_fault { ForSome result.notice (λ noted. IsLineAbout IsOfFault (noted_line noted)) }
{
    let mut lent: PeerStore<'a, M, S> = PeerStore::new(alloc, shelves, traffic, is_held);
    let after = peer.answer(alloc, routes, &mut lent);
    let PeerStore {
        inner,
        notice,
        traffic,
        is_held,
        ..
    } = lent;
    AnsweredPeer {
        after,
        notice,
        traffic,
        is_held,
        shelves: inner,
    }
}

/// Whether `Stopping` was written to an operator.
pub(crate) fn is_stopping(told: Result<ControlReply, Io>) -> bool
    ensures { IsTrue result ↔ (told ≡ Ok (ControlReply.Outcome Outcome.Stopping)) }
{
    matches!(told, Ok(ControlReply::Outcome(Outcome::Stopping)))
}
