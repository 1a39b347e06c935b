//! What is done where connections come in.
ghost use Rattle.std.specs.Prelude.{◌≡◌, [], ◌∷◌, ◌++◌};
ghost use Rattle.socket.specs.History.{took, took_peer};
ghost use Rattle.socket.specs.declared.deed.Deed.TheVariants.{Left};

use crate::callers::Caller;
use std::io;
use store_files::record::Record;

/// Where the connections of peers come in.
#[derive(Clone, Copy, Debug, Drop, PartialEq, Eq)]
pub enum ListenOn {
    /// A port of 127.0.0.1; the system chooses one in the place of 0.
    Port(u16),
    /// Standard input, which is a socket that listens already.
    Input,
}

/// How the next caller is looked for.
#[derive(Clone, Copy, Debug, Drop, PartialEq, Eq)]
pub enum Search {
    /// Whoever comes next is waited for, however long that takes.
    Waiting,
    /// Nobody is waited for: only who has connected already is found.
    AtOnce,
}

/// What was done where connections come in. Only what was done to the socket of operators has a name: its path.
#[derive(Drop)]
pub enum Deed<C> {
    /// Peers come in here from then on; a port that the system chose is named.
    Listens(ListenOn),
    /// Peers were to come in here, and do not.
    Deaf(ListenOn),
    /// The socket was made, and operators come in there from then on.
    Made,
    /// The socket was to be made, and was not.
    Unmade,
    /// The name of the socket was taken away.
    Removed,
    /// Nobody comes in any more.
    Closed,
    /// This one was looked for so and taken, as it came.
    Taken(Search, C),
    /// A connection was looked for so, and could not be taken.
    Untaken(Search),
    /// That of a peer was to be taken where no operator comes in, and was not.
    UntakenPeer,
    /// This one was left, as it was then, after a reply that was written whole and had this status, or after none.
    Left(C, Option<u16>),
    /// The operator who was taken last is watched from then on, and no other.
    Watched,
    /// The connection of this one was ended, as it was then.
    Ended(C),
}

/// Notes that a connection was looked for so and taken, or was not, and returns the result.
pub fn note_taken<C: Drop>(
    noted: &mut Record<Deed<C>>,
    search: Search,
    next: io::Result<C>,
) -> io::Result<C>
    ensures same { result ≡ next }
    ensures noted { noted.new.deeds ≡ noted.old.deeds ++ took search next ∷ [] }
{
    match next {
        Ok(caller) => {
            let deed = Deed::Taken(search, caller);
            noted.note(b"", &deed);
            match deed {
                Deed::Taken(_, caller) => Ok(caller),
                Deed::Left(_caller, _) | Deed::Ended(_caller) => unreachable!(),
                Deed::Listens(_)
                | Deed::Deaf(_)
                | Deed::Made
                | Deed::Unmade
                | Deed::Removed
                | Deed::Closed
                | Deed::Untaken(_)
                | Deed::UntakenPeer
                | Deed::Watched => unreachable!(),
            }
        }
        Err(error) => {
            noted.note(b"", &Deed::Untaken(search));
            Err(error)
        }
    }
}

/// Notes that the connection of a peer was taken where no operator comes in, or was not, and returns the result.
pub fn note_peer<P: Drop, O: Drop>(
    noted: &mut Record<Deed<Caller<P, O>>>,
    next: io::Result<P>,
) -> io::Result<P>
    ensures same { result ≡ next }
    ensures noted { noted.new.deeds ≡ noted.old.deeds ++ took_peer next ∷ [] }
{
    match next {
        Ok(peer) => {
            let deed = Deed::Taken(Search::Waiting, Caller::Peer(peer));
            noted.note(b"", &deed);
            match deed {
                Deed::Taken(_, Caller::Peer(peer)) => Ok(peer),
                Deed::Taken(_, Caller::Operator(_operator)) => unreachable!(),
                Deed::Left(_caller, _) | Deed::Ended(_caller) => unreachable!(),
                Deed::Listens(_)
                | Deed::Deaf(_)
                | Deed::Made
                | Deed::Unmade
                | Deed::Removed
                | Deed::Closed
                | Deed::Untaken(_)
                | Deed::UntakenPeer
                | Deed::Watched => unreachable!(),
            }
        }
        Err(error) => {
            noted.note(b"", &Deed::UntakenPeer);
            Err(error)
        }
    }
}

/// Notes that a caller is left, after a reply with this status or after none, and returns it.
pub fn note_left<C: Drop>(noted: &mut Record<Deed<C>>, caller: C, status: Option<u16>) -> C
    ensures same { result ≡ caller }
    ensures noted { noted.new.deeds ≡ noted.old.deeds ++ ([], Left caller status) ∷ [] }
{
    let deed = Deed::Left(caller, status);
    noted.note(b"", &deed);
    match deed {
        Deed::Left(caller, _) => caller,
        Deed::Taken(_, _caller) | Deed::Ended(_caller) => unreachable!(),
        Deed::Listens(_)
        | Deed::Deaf(_)
        | Deed::Made
        | Deed::Unmade
        | Deed::Removed
        | Deed::Closed
        | Deed::Untaken(_)
        | Deed::UntakenPeer
        | Deed::Watched => unreachable!(),
    }
}
