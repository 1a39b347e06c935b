//! The servers that the system connects to.
ghost use Rattle.std.specs.Prelude.{◌≡◌, [], ◌∷◌, ◌++◌, IfOk};
ghost use Rattle.histories.specs.Account.{IsUnused};
ghost use Rattle.histories.specs.Calls.{no_reads, no_writes};
ghost use Rattle.network.specs.Waits.{Lasts};
ghost use Rattle.network.specs.declared.deed.Deed.TheVariants.{Ended};

use crate::deed::Deed;
use crate::servers::{Link, Servers, Wait};
use histories::{Hear, Hearing, Tell, Telling};
use std::io::{self, Write};
use std::os::unix::net::UnixStream;
use std::rt::HostRuntime;
use std::time::Duration;
use store_files::record::Record;

/// A connection to a server of the system.
pub type SystemLink = Link<Hearing<UnixStream>, Telling<UnixStream>>;

/// The servers that listen at Unix sockets. That this module connects to the path that it notes, with the wait that it
/// notes, that both ends are of that connection, and that an end closes it, is read and not proved.
#[derive(Drop)]
pub struct SystemServers<'a> {
    rt: &'a HostRuntime,
    noted: Record<Deed<SystemLink>>,
}

impl<'a> SystemServers<'a> {
    /// Returns the servers of the system, to none of which anything has connected.
    pub fn new(rt: &'a HostRuntime) -> SystemServers<'a>
        ensures { ⟦<SystemServers<'a> as Servers<Hearing<UnixStream>, Telling<UnixStream>>>⟧.history result ≡ [] }
    {
        SystemServers {
            rt,
            noted: Record::new(),
        }
    }
}

impl<'a> Servers<Hearing<UnixStream>, Telling<UnixStream>> for SystemServers<'a> {
    ghost history = { λ s. s.noted.deeds };

    fn connect(&mut self, path: &str, wait: Wait) -> io::Result<SystemLink> {
        match link_to(self.rt, path, wait) {
            Ok(link) => {
                self.noted.note(path.as_bytes(), &Deed::Connected(wait));
                Ok(link)
            }
            Err(error) => {
                self.noted.note(path.as_bytes(), &Deed::Unconnected);
                Err(error)
            }
        }
    }

    fn end(&mut self, link: SystemLink)
        ensures { self.new.noted.deeds ≡ self.old.noted.deeds ++ ([], Ended link) ∷ [] }
    {
        self.noted.note(b"", &Deed::Ended(link));
    }
}

/// Connects to the server that listens at a path, and returns both ends of the connection, over which nothing has
/// passed. Fails if nobody listens there, or if the system refuses the connection, its wait or a second handle of it.
fn link_to(rt: &HostRuntime, path: &str, wait: Wait) -> io::Result<SystemLink>
    ensures fresh { IfOk result (λ link. IsUnused (⟦<Hearing<UnixStream> as Hear>⟧.account link.reader)
        (⟦<Telling<UnixStream> as Write>⟧.contents link.writer)) }
    ensures uncalled { IfOk result (λ link. (⟦<Hearing<UnixStream> as Hear>⟧.reads link.reader ≡ no_reads)
        × (⟦<Telling<UnixStream> as Tell>⟧.writes link.writer ≡ no_writes)) }
{
    let stream = UnixStream::connect(rt, path)?;
    stream.set_read_timeout(longest(wait))?;
    let writer = stream.try_clone()?;
    Ok(Link {
        reader: Hearing::new(stream),
        writer: Telling::new(writer),
    })
}

/// Returns the longest time of a wait, or None if it has none.
fn longest(wait: Wait) -> Option<Duration>
    ensures { Lasts wait result }
{
    match wait {
        Wait::Second => Some(Duration::from_secs(1)),
        Wait::Minute => Some(Duration::from_secs(60)),
        Wait::Unbounded => None,
    }
}
