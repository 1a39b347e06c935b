//! Where callers come in.
ghost use Rattle.std.specs.Prelude.{[], IfOk, MatchResult};
ghost use Rattle.socket.specs.Connections.{both};
ghost use Rattle.socket.specs.History.{Does, IsBoundFor};
ghost use Rattle.socket.specs.declared.deed.Deed.TheVariants.{Closed, Deaf, Listens, Made, Removed, Unmade};

use crate::callers::Callers;
use crate::deed::ListenOn;
use std::io;

/// Where callers come in: a port or standard input for peers, and a socket for operators.
///
/// What is opened there and closed is noted in the history of the callers. So code that has no handle of the system
/// listens nowhere else.
pub trait Entrances<P, O>: Callers<P, O> {
    /// Lets peers in from here on, and returns where; in the place of port 0 the port that the system chose. Fails if
    /// it can't be listened at.
    fn listen(&mut self, entrance: ListenOn) -> io::Result<ListenOn>
        ensures bound { IfOk result (λ bound. IsBoundFor entrance bound) }
        ensures noted { MatchResult result
            (λ bound. Does (both Self.waiting Self.history self.old) (both Self.waiting Self.history self.new)
            [] (Listens bound))
            (λ _. Does (both Self.waiting Self.history self.old) (both Self.waiting Self.history self.new)
            [] (Deaf entrance)) };

    /// Makes the socket with this file name, where operators come in from here on. Fails if somebody listens there, if
    /// the name is that of another file, or if the system refuses the socket.
    fn make_socket(&mut self, path: &str) -> io::Result<()>
        ensures { MatchResult result
            (λ _. Does (both Self.waiting Self.history self.old) (both Self.waiting Self.history self.new)
            path.now Made)
            (λ _. Does (both Self.waiting Self.history self.old) (both Self.waiting Self.history self.new)
            path.now Unmade) };

    /// Takes the name of the socket away. Errors are ignored.
    fn remove_socket(&mut self, path: &str)
        ensures { Does (both Self.waiting Self.history self.old) (both Self.waiting Self.history self.new)
            path.now Removed };

    /// Lets nobody in any more.
    fn close(&mut self)
        ensures { Does (both Self.waiting Self.history self.old) (both Self.waiting Self.history self.new)
            [] Closed };
}
