//! Callers: peers, who send requests, and operators, who send orders.
use std::io;

/// A caller who has connected.
#[derive(Drop)]
pub enum Caller<P, O> {
    /// It sends a request.
    Peer(P),
    /// It sends an order.
    Operator(O),
}

/// A source of peers and operators.
///
/// Each connection is noted when it is taken, when it is left and when it is ended, with all that passed over it.
pub trait Callers<P, O> {
    ghost use Rattle.std.specs.Prelude.{◌≡◌, [], Bool, false, List, Option, IfOk, IfSome, MatchOption};
    ghost use Rattle.socket.specs.Connections.{both};
    ghost use Rattle.socket.specs.History.{Does, Done, EndsOperator, EndsPeer, Known, TakesNext, TakesPeer};
    ghost use Rattle.socket.specs.declared.callers.Caller.{Caller};
    ghost use Rattle.socket.specs.declared.callers.Caller.TheVariants.{Peer};
    ghost use Rattle.socket.specs.declared.deed.Deed.TheVariants.{Watched};
    ghost use Rattle.socket.specs.declared.deed.Search.TheVariants.{AtOnce, Waiting};

    /// The callers who connect from here on, in their order, if they are known.
    ghost waiting: { Self → Option (List (Caller P O)) };

    /// What was done so far, the oldest first.
    ghost history: { Self → List (Done (Caller P O)) };

    /// What is known of a caller who was just taken, and of a peer whose connection was ended.
    ghost known: { Known P O };

    /// Whether the operator who is watched was seen to leave since it is watched.
    ghost left: { Self → Bool };

    /// Waits for the next connection, however long that takes, and returns its caller. Fails if the connection can't be
    /// taken.
    fn next(&mut self) -> io::Result<Caller<P, O>>
        ensures takes { TakesNext Waiting (both waiting history self.old) (both waiting history self.new) result }
        ensures fresh { IfOk result (λ caller. known.is_new caller) };

    /// Waits for the next peer where no operator comes in, however long that takes, and returns it. Fails if its
    /// connection can't be taken.
    fn next_peer(&mut self) -> io::Result<P>
        ensures takes { TakesPeer (both waiting history self.old) (both waiting history self.new) result }
        ensures fresh { IfOk result (λ peer. known.is_new (Peer peer)) };

    /// Returns the caller of a connection that waits to be taken, or None if there is none, and waits for none. Fails
    /// if the connection can't be taken.
    fn next_waiting(&mut self) -> Option<io::Result<Caller<P, O>>>
        ensures takes { MatchOption result
            ((waiting self.new ≡ waiting self.old) × (history self.new ≡ history self.old))
            (λ next. TakesNext AtOnce (both waiting history self.old) (both waiting history self.new) next) }
        ensures fresh { IfSome result (λ next. IfOk next (λ caller. known.is_new caller)) };

    /// Notes that a peer is left, after a reply that was written whole and had this status or after none, and ends its
    /// connection.
    fn end_peer(&mut self, peer: P, status: Option<u16>)
        ensures { EndsPeer known.is_ended (both waiting history self.old) (both waiting history self.new) peer status };

    /// Ends the connection of an operator as it is left.
    fn end_operator(&mut self, operator: O)
        ensures { EndsOperator (both waiting history self.old) (both waiting history self.new) operator };

    /// Watches the operator who was taken last, and no other any more, so that `has_left` can tell of it.
    fn watch_operator(&mut self)
        ensures noted { Does (both waiting history self.old) (both waiting history self.new) [] Watched }
        ensures here { left self.new ≡ false };

    /// Whether the operator who is watched was seen to close its connection.
    fn has_left(&self) -> bool
        ensures { result ≡ left self.now };
}
