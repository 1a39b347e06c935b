//! One server in memory.
ghost use Rattle.std.specs.Prelude.{◌≡◌, [], ◌∷◌, ◌++◌};
ghost use Rattle.network.specs.declared.deed.Deed.TheVariants.{Ended};

use crate::deed::Deed;
use crate::servers::{Link, Servers, Wait};
use histories::{Hearing, Telling};
use std::alloc::Global;
use std::io::{self, ErrorKind};
use store_files::record::Record;

/// One server in memory. It listens at a path, and sends the same bytes to everyone.
#[derive(Drop)]
pub struct MemoryServers<'a> {
    alloc: Global,
    path: &'a str,
    reply: &'a [u8],
    noted: Record<Deed<Link<Hearing<&'a [u8]>, Telling<Vec<u8>>>>>,
}

impl<'a> MemoryServers<'a> {
    /// Returns a server to which nobody has connected.
    pub fn new(alloc: Global, path: &'a str, reply: &'a [u8]) -> MemoryServers<'a>
        ensures { ⟦<MemoryServers<'a> as Servers<Hearing<&'a [u8]>, Telling<Vec<u8>>>>⟧.history result ≡ [] }
    {
        MemoryServers {
            alloc,
            path,
            reply,
            noted: Record::new(),
        }
    }
}

impl<'a> Servers<Hearing<&'a [u8]>, Telling<Vec<u8>>> for MemoryServers<'a> {
    ghost history = { λ s. s.noted.deeds };

    fn connect(
        &mut self,
        path: &str,
        wait: Wait,
    ) -> io::Result<Link<Hearing<&'a [u8]>, Telling<Vec<u8>>>> {
        if path == self.path {
            self.noted.note(path.as_bytes(), &Deed::Connected(wait));
            return Ok(Link {
                reader: Hearing::new(self.reply),
                writer: Telling::new(Vec::new(self.alloc)),
            });
        }
        self.noted.note(path.as_bytes(), &Deed::Unconnected);
        Err(io::Error::from(ErrorKind::NotFound))
    }

    fn end(&mut self, link: Link<Hearing<&'a [u8]>, Telling<Vec<u8>>>)
        ensures { self.new.noted.deeds ≡ self.old.noted.deeds ++ ([], Ended link.entry) ∷ [] }
    {
        self.noted.note(b"", &Deed::Ended(link));
    }
}
