//! Requests, and the commands of the registry.
ghost use Rattle.std.specs.Prelude.{◌≡◌};
ghost use Rattle.modver.specs.Class.{class_of};
ghost use Rattle.machine.specs.Machine.{offered, entry_time};

use modpath::ModulePath;
use modver::{Class, TimeText, Version, class};
use text::Text;
use world::bytes::Bytes;
use world::entry::{EntryRef, Right};

/// What a GET asks of the machine (Go Modules Reference, "GOPROXY protocol"). `wire::Resource` is what a target names:
/// it also has the go.sum line, which `engine` makes from the go.mod.
#[derive(Drop)]
pub enum Query {
    /// The go.mod of a version.
    GoMod { path: ModulePath, version: Version },
    /// The zip of a version.
    Zip { path: ModulePath, version: Version },
    /// The name and the time of a version.
    Info { path: ModulePath, version: Version },
    /// The releases and pre-releases of a path.
    List { path: ModulePath },
    /// The name and the time of the latest version of a path.
    Latest { path: ModulePath },
    /// The paths that the shelf sees.
    Modules,
}

/// What a PUT says about the time of its version.
#[derive(Clone, Copy, Drop)]
pub enum GivenTime {
    /// No time is given.
    Absent,
    /// One well-formed time is given.
    At(TimeText),
    /// A malformed time is given, or more than one time.
    Malformed,
}

/// The files of a publish.
#[derive(Drop)]
pub struct Body {
    pub gomod: Bytes,
    pub zip: Bytes,
}

/// What a PUT hands in.
#[derive(Drop)]
pub struct Publish {
    pub path: ModulePath,
    pub version: Version,
    /// None if no length was given that splits the body into a go.mod and a zip.
    pub body: Option<Body>,
    pub time: GivenTime,
}

/// A request.
#[derive(Drop)]
pub enum Request {
    /// Neither a readable GET nor a readable PUT.
    Unreadable,
    Get { key: Text, query: Query },
    Put { key: Text, publish: Publish },
}

/// A request or a registry command.
#[derive(Drop)]
pub enum Event {
    Requested(Request),
    /// Adds a team with a shelf of its own, as a member of a group if one is named.
    TeamAdd {
        name: Text,
        group: Option<Text>,
    },
    /// Adds a group with a shelf of its own.
    GroupAdd {
        name: Text,
    },
    /// Adds a key to a shelf.
    KeyAdd {
        shelf: Text,
        key: Text,
        right: Right,
    },
    /// Takes a key away.
    KeyRevoke {
        key: Text,
    },
    /// Takes all keys of a shelf away.
    KeysRevoke {
        shelf: Text,
    },
}

impl Publish {
    /// Returns the entry that the publish hands in, or None if its body does not split into two files.
    pub fn entry(&self) -> Option<EntryRef>
        ensures { result ≡ offered self.now }
    {
        match &self.body {
            Some(body) => Some(EntryRef {
                gomod: body.gomod.as_slice(),
                zip: body.zip.as_slice(),
                time: self.entry_time(),
            }),
            None => None,
        }
    }

    /// Returns the time of the entry: the given one, otherwise the stamp's for a pseudo-version, otherwise None.
    pub fn entry_time(&self) -> Option<TimeText>
        ensures { result ≡ entry_time (class_of self.now.version) self.now.time }
    {
        match (class(&self.version), self.time) {
            (_, GivenTime::At(time)) => Some(time),
            (Class::Pseudo(time), _) => Some(time),
            _ => None,
        }
    }
}
