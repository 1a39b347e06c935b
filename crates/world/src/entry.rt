//! What stands on a shelf, and what a key holds.
ghost use Rattle.std.specs.Prelude.{◌≡◌, IfOk};
ghost use Rattle.world.specs.World.{place, heading_of};

use crate::bytes::Bytes;
use modver::TimeText;
use std::alloc::{AllocError, Global};
use std::marker::Model;
use text::Text;

/// A go.mod has at most this many bytes.
pub const MAX_GOMOD: usize = 1_048_576;

/// A zip has at most this many bytes.
pub const MAX_ZIP: usize = 16_777_216;

/// A shelf has at most this many versions of one path.
pub const MAX_VERSIONS: u64 = 4_096;

/// Where an entry stands: a shelf, and the texts of a path and a version.
#[derive(PartialEq, Eq, PartialOrd, Ord, Drop)]
pub struct Place {
    pub shelf: Text,
    pub path: Text,
    pub version: Text,
}

/// A published version.
#[derive(Drop)]
pub struct Entry {
    pub gomod: Bytes,
    pub zip: Bytes,
    pub time: Option<TimeText>,
}

/// What a published version shows without its zip: its go.mod and its time.
#[derive(Drop)]
pub struct Heading {
    pub gomod: Bytes,
    pub time: Option<TimeText>,
}

/// An entry with the shelf that it stands on.
#[derive(Drop)]
pub struct Seen {
    pub shelf: Text,
    pub entry: Entry,
}

/// A borrowed entry with the shelf that it stands on.
#[derive(Drop)]
pub struct SeenRef<'a> {
    pub shelf: &'a str,
    pub entry: &'a Entry,
}

impl<'a> Model for SeenRef<'a> {
    ghost use Rattle.world.specs.declared.entry.Seen.{Seen};

    ghost Value = { Seen };

    ghost view = { λ s. record { shelf = s.shelf.now; entry = s.entry.now } };
}

/// An entry whose files are borrowed.
#[derive(Drop)]
pub struct EntryRef<'a> {
    pub gomod: &'a [u8],
    pub zip: &'a [u8],
    pub time: Option<TimeText>,
}

impl<'a> Model for EntryRef<'a> {
    ghost use Rattle.world.specs.declared.entry.Entry.{Entry};

    ghost Value = { Entry };

    ghost view = { λ e. record { gomod = e.gomod.now; zip = e.zip.now; time = e.time } };
}

/// What a key may do.
#[derive(Clone, Copy, Debug, PartialEq, Eq)]
pub enum Right {
    /// It may read.
    Reads,
    /// It may read, and publish to its own shelf.
    Publishes,
}

/// The shelf that a key belongs to, and what the key may do.
#[derive(Drop)]
pub struct Holder {
    pub shelf: Text,
    pub right: Right,
}

impl Place {
    /// Returns the place of a shelf, a path and a version. Fails only if memory runs out.
    pub fn new(alloc: Global, shelf: &str, path: &str, version: &str) -> Result<Place, AllocError>
        ensures { IfOk result (λ q. q ≡ place shelf.now path.now version.now) }
    {
        let shelf = Text::copy_of(alloc, shelf)?;
        let path = Text::copy_of(alloc, path)?;
        let version = Text::copy_of(alloc, version)?;
        Ok(Place {
            shelf,
            path,
            version,
        })
    }
}

impl<'a> SeenRef<'a> {
    /// Returns a copy of the shelf and the entry. Fails only if memory runs out.
    pub fn copy(&self, alloc: Global) -> Result<Seen, AllocError>
        ensures { IfOk result (λ s. s ≡ self.now) }
    {
        let shelf = Text::copy_of(alloc, self.shelf)?;
        let entry = Entry::copy_of(alloc, &self.entry.as_ref())?;
        Ok(Seen { shelf, entry })
    }
}

impl Entry {
    /// Returns an entry with copies of the borrowed files. Fails only if memory runs out.
    pub fn copy_of(alloc: Global, entry: &EntryRef) -> Result<Entry, AllocError>
        ensures { IfOk result (λ e. e ≡ entry.now) }
    {
        let gomod = Bytes::copy_of(alloc, entry.gomod)?;
        let zip = Bytes::copy_of(alloc, entry.zip)?;
        Ok(Entry {
            gomod,
            zip,
            time: entry.time,
        })
    }

    /// Returns a copy of the entry without its zip. Fails only if memory runs out.
    pub fn heading(&self, alloc: Global) -> Result<Heading, AllocError>
        ensures { IfOk result (λ h. h ≡ heading_of self.now) }
    {
        let gomod = Bytes::copy_of(alloc, self.gomod.as_slice())?;
        Ok(Heading {
            gomod,
            time: self.time,
        })
    }

    /// Returns the entry with its files borrowed.
    pub fn as_ref(&self) -> EntryRef
        ensures { result ≡ self.now }
    {
        EntryRef {
            gomod: self.gomod.as_slice(),
            zip: self.zip.as_slice(),
            time: self.time,
        }
    }
}

impl Holder {
    /// Returns the holder with a copy of the shelf's name and this right. Fails only if memory runs out.
    pub fn new(alloc: Global, shelf: &str, right: Right) -> Result<Holder, AllocError>
        ensures { IfOk result (λ h. h ≡ record { shelf = shelf.now; right = right }) }
    {
        let shelf = Text::copy_of(alloc, shelf)?;
        Ok(Holder { shelf, right })
    }

    /// Returns a copy of the holder. Fails only if memory runs out.
    pub fn copy(&self, alloc: Global) -> Result<Holder, AllocError>
        ensures { IfOk result (λ h. h ≡ self.now) }
    {
        Holder::new(alloc, self.shelf.as_str(), self.right)
    }
}
