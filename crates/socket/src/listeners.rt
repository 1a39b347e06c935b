//! The listeners of peers and operators.
use crate::callers::Caller;
use crate::connection::Peer;
use crate::deed::{ListenOn, Search};
use crate::listener_call::{Listener, Ready};
use crate::socket_file::SocketFile;
use std::io;
use std::time::Duration;

/// The listeners of peers and operators, and the connections that they accept.
///
/// Each method asks the system for one thing, and notes what it asked and what came of it. `give_up` and `leave` ask
/// for nothing.
pub trait Listeners<P: Peer, O: Peer> {
    ghost use Rattle.std.specs.Prelude.{◌≡◌, [], ◌∷◌, List, IfOk, IfSome};
    ghost use Rattle.socket.specs.Connections.{both};
    ghost use Rattle.socket.specs.History.{IsBoundFor, IsUnheard};
    ghost use Rattle.socket.specs.Listening.{Asked, IsAt, accepted_at, awaited_as, bound_at, made_as, polled_for};
    ghost use Rattle.socket.specs.declared.callers.Caller.{Caller};
    ghost use Rattle.socket.specs.declared.callers.Caller.TheVariants.{Peer as OfPeer};
    ghost use Rattle.socket.specs.declared.listener_call.ListenerCall.TheVariants as call;
    ghost use Rattle.socket.specs.declared.listener_call.Stage.TheVariants.{HungUp, Left};

    /// The calls so far, the last of them first.
    ghost calls: { Self → List (Asked (Caller P O)) };

    /// Lets peers in from here on, beside the operators if their socket was made, and returns where; in the place of
    /// port 0 the port that the system chose. Fails if it can't be listened at.
    fn listen(&mut self, entrance: ListenOn) -> io::Result<ListenOn>
        ensures bound { IfOk result (λ bound. IsBoundFor entrance bound) }
        ensures noted { calls self.new ≡ ([], bound_at entrance result) ∷ calls self.old };

    /// Makes the socket with this file name, where operators come in once peers do, and returns its file. Fails if
    /// somebody listens there, if the name is that of another file, or if the system refuses the socket.
    fn make_socket(&mut self, path: &str) -> io::Result<SocketFile>
        ensures { calls self.new ≡ (path.now, made_as result) ∷ calls self.old };

    /// Takes the name of a socket away, if it is still that of this file. Errors are ignored.
    fn remove_socket(&mut self, path: &str, made: Option<SocketFile>)
        ensures { calls self.new ≡ (path.now, call.Removed made) ∷ calls self.old };

    /// Returns who has connected since the last poll, and whether the operator who is watched has left. Waits for that
    /// at most so long, or as long as it takes. Where operators do not come in it names nobody, and fails if it would
    /// wait as long as it takes. Fails if the system does. How the next caller is looked for is only noted.
    fn look(&mut self, search: Search, longest: Option<Duration>) -> io::Result<Ready>
        ensures { calls self.new ≡ ([], polled_for search longest result) ∷ calls self.old };

    /// Returns a caller who has connected to this listener, or None if there is none, and waits for none. Fails if the
    /// connection can't be taken.
    fn accept_at(&mut self, at: Listener) -> io::Result<Option<Caller<P, O>>>
        ensures at { IfOk result (λ found. IfSome found (λ caller. IsAt at caller)) }
        ensures fresh { IfOk result (λ found. IfSome found (λ caller.
            IsUnheard (both P.came P.read_calls) (both P.written P.write_calls)
            (both O.came O.read_calls) (both O.written O.write_calls) caller)) }
        ensures noted { calls self.new ≡ ([], accepted_at at result) ∷ calls self.old };

    /// Has the next poll name this listener if somebody waits there, and returns whether it will.
    fn watch_anew(&mut self, at: Listener) -> bool
        ensures { calls self.new ≡ ([], call.Watched at result) ∷ calls self.old };

    /// Watches the operator who was taken last, so that a poll says when it leaves. If the system refuses that, none
    /// does.
    fn watch_operator(&mut self)
        ensures { calls self.new ≡ ([], call.WatchedOperator) ∷ calls self.old };

    /// Waits for the next peer, and returns it. Fails if its connection can't be taken, and where operators come in
    /// too.
    fn wait_for_peer(&mut self) -> io::Result<P>
        ensures fresh { IfOk result (λ peer. IsUnheard (both P.came P.read_calls) (both P.written P.write_calls)
            (both O.came O.read_calls) (both O.written O.write_calls) (OfPeer peer)) }
        ensures noted { calls self.new ≡ ([], awaited_as result) ∷ calls self.old };

    /// Notes that nobody is waited for any more, after the most polls.
    fn give_up(&mut self)
        ensures { calls self.new ≡ ([], call.GivenUp) ∷ calls self.old };

    /// Notes that a caller is left, to whom nothing more is written, with the status of the reply that was written
    /// whole, if one was. Returns the caller.
    fn leave(&mut self, caller: Caller<P, O>, status: Option<u16>) -> Caller<P, O>
        ensures same { result ≡ caller }
        ensures noted { calls self.new ≡ ([], call.Connection (Left status) caller) ∷ calls self.old };

    /// Closes the connection of a caller.
    fn hang_up(&mut self, caller: Caller<P, O>)
        ensures { calls self.new ≡ ([], call.Connection HungUp caller) ∷ calls self.old };

    /// Closes both listeners.
    fn close(&mut self)
        ensures { calls self.new ≡ ([], call.Closed) ∷ calls self.old };
}
