//! What is asked of servers.
use histories::{Hear, Tell};
use std::io;

/// How long a read from a server waits.
#[derive(Clone, Copy, Debug, Drop, PartialEq, Eq)]
pub enum Wait {
    /// At most a second.
    Second,
    /// At most a minute. One connection of a peer holds the server at most half as long.
    Minute,
    /// As long as it takes.
    Unbounded,
}

/// A connection to a server, with both its ends.
#[derive(Drop)]
pub struct Link<R, W> {
    pub reader: R,
    pub writer: W,
}

/// Servers that listen at paths.
///
/// Each connection is noted when it is made, and when it is ended, with all that passed over it.
pub trait Servers<R: Hear, W: Tell> {
    ghost use Rattle.std.specs.Prelude.{◌≡◌, List, [], ◌∷◌, ◌++◌, IfOk, IfErr};
    ghost use Rattle.histories.specs.Account.{IsUnused};
    ghost use Rattle.histories.specs.Calls.{no_reads, no_writes};
    ghost use Rattle.network.specs.History.{Done};
    ghost use Rattle.network.specs.declared.deed.Deed.TheVariants.{Connected, Unconnected, Ended};
    ghost use Rattle.network.specs.declared.servers.Link.{Link};

    /// What was done so far, the oldest first.
    ghost history: { Self → List (Done (Link R W)) };

    /// Connects to the server that listens at a path. Each read from it waits so long. Fails if nobody listens there,
    /// or if the system refuses the connection.
    fn connect(&mut self, path: &str, wait: Wait) -> io::Result<Link<R, W>>
        ensures connected { IfOk result (λ _. history self.new ≡ history self.old ++ (path.now, Connected wait) ∷ []) }
        // Nothing has passed over it.
        ensures fresh { IfOk result (λ link. IsUnused (R.account link.reader) (W.contents link.writer)) }
        ensures uncalled { IfOk result (λ link.
            (R.reads link.reader ≡ no_reads) × (W.writes link.writer ≡ no_writes)) }
        ensures unconnected { IfErr result (λ _.
            history self.new ≡ history self.old ++ (path.now, Unconnected) ∷ []) };

    /// Ends a connection.
    fn end(&mut self, link: Link<R, W>)
        ensures { history self.new ≡ history self.old ++ ([], Ended link) ∷ [] };
}
