//! What commands do on an open store, whichever it is. `act_on` has no runtime of the system: it reaches what it is
//! handed, and the histories of that say all that it did there. `act_alone`, which does each action but `serve`, has
//! none of what `serve` needs besides: no clock, no copies, and no writer of errors.
ghost use Rattle.std.specs.Prelude.{◌≡◌, [], OnOk};
ghost use Rattle.commands.specs.Action as spec;
ghost use Rattle.socket.specs.Connections.{both};

use crate::answer::answer_input;
use crate::import_file::import_file;
use crate::import_progress::ImportProgress;
use crate::new_key::add_new;
use crate::publish::{Files, Words, publish};
use crate::random_bytes::RandomBytes;
use crate::refusal::CommandRefusal;
use crate::registry::{register, revoke_by_fingerprint};
use crate::report::{Named, print_catalog, print_inventory, print_list, print_requirements};
use crate::serve::serve;
use crate::sources::Sources;
use control::{Copies, Operator, Reserve, WallClock};
use histories::{ClockFace, Hear, Tell};
use keyring::Keyring;
use orders::{Listing, RegistryCommand};
use outline::outlines::Outlines;
use socket::{Entrances, ListenOn, Peer};
use std::alloc::Global;
use world::entry::Right;

/// What a command does on an open store.
#[derive(Clone, Copy, Drop)]
pub enum Action<'a> {
    /// Nothing: opening the store makes it.
    Open,
    /// `team-add`, `group-add`, `key-add` or `key-revoke`: carries out a registry command.
    Register {
        command: RegistryCommand<'a>,
    },
    /// `key-add --new`: makes a key, adds it to a shelf, and prints it.
    AddNew {
        shelf: &'a str,
        right: Right,
    },
    /// `key-revoke --fingerprint X`: revokes the key that has a fingerprint or a SHA-256.
    RevokeByFingerprint {
        fingerprint: &'a str,
    },
    /// `publish`: publishes a version from files.
    Publish {
        words: Words<'a>,
        files: Files<'a>,
    },
    /// `import`: publishes each row of a list in a file.
    Import {
        key: &'a str,
        list: &'a str,
    },
    /// `inventory`: prints what the shelf of a key sees.
    Inventory {
        key: &'a str,
    },
    /// `catalog`: prints what the shelf of a key sees, as lines of JSON.
    Catalog {
        key: &'a str,
    },
    /// `requires`: prints what the go.mod of a version requires.
    Requires {
        version: Named<'a>,
    },
    /// A list, such as `key-list`: prints its lines.
    List {
        listing: Listing,
    },
    /// `answer --db F`: answers the requests on the input.
    Answer,
    /// `serve`: answers one request on each of this many connections, and between them carries out the orders that come
    /// over the socket `control`, if it is named.
    Serve {
        entrance: ListenOn,
        connections: u32,
        control: Option<&'a str>,
    },
}

/// What an action reaches outside of its store and its streams.
#[derive(Drop)]
pub struct Outside<N, F, B> {
    /// Where callers come in.
    pub entrances: N,
    /// The files that are read.
    pub files: F,
    /// What gives the random bytes of a key.
    pub random: B,
}

/// Does one action on a store and returns whether it was accepted; only a publish and an import can be done and not
/// accepted. `copies` makes the copies that are ordered while the store is served, and counts its versions for a ping.
///
/// It has no handle of the system, so what it reaches is what it is handed. `serve` lets callers in by the entrances of
/// `outside`, and writes notices to `errors`; no other action opens those, or writes there. A publish and an import
/// read by the files of `outside`, and no other action does. A key is made of what its `random` gives, and no other
/// action draws from it. By `clock` the same fault is noted once a minute, `calendar` shows when a `serve` began,
/// `copied` when a copy was made, and `reserve` keeps room for the orders to it. `progress` shows how far an import is.
/// Fails as the function of the action does.
pub fn act_on<
    C: ClockFace,
    D: WallClock + Drop,
    B: RandomBytes,
    S: Outlines + Keyring,
    K: Copies<S, V>,
    V: Reserve<S>,
    P: Peer + Drop,
    Q: Operator + Drop,
    N: Entrances<P, Q>,
    F: Sources,
    I: Hear,
    O: Tell,
    E: Tell,
>(
    alloc: Global,
    clock: &C,
    calendar: &mut D,
    copied: D,
    progress: &ImportProgress<'_>,
    shelves: &mut S,
    copies: &K,
    reserve: &mut V,
    outside: &mut Outside<N, F, B>,
    action: &Action,
    input: &mut I,
    output: &mut O,
    errors: &mut E,
) -> Result<bool, CommandRefusal>
    requires unshown { D.shown calendar.old ≡ [] }
    ensures acts { spec.Acts
        (record {
          heeded = both Q.came Q.reads;
          told = both Q.written Q.writes;
          heard = both P.came P.reads;
          written = both P.written P.writes;
          known = N.known;
          door = spec.of_entrances (both N.waiting N.history);
          read = spec.of_files F.history;
          drawn = spec.of_random B.drawn;
        })
        S.shown K.made K.counted
        (record {
          store = shelves.old;
          outside = outside.old;
          came = I.account input.old;
          written = O.contents output.old;
        })
        (record {
          store = shelves.new;
          outside = outside.new;
          came = I.account input.new;
          written = O.contents output.new;
        })
        result action.now }
    // A `serve` that fails after it let peers in does so because a call of the output failed, and each order has a line
    // of its own in `errors`, unless a call to write or to flush failed there. The notices of its beginning and its end
    // name the file that `copies` serves. Only the orders of a `serve` use the reserve and begin copies.
    ensures serves { spec.ServesFor
        (record {
          heeded = both Q.came Q.reads;
          told = both Q.written Q.writes;
          heard = both P.came P.reads;
          written = both P.written P.writes;
          known = N.known;
          door = spec.of_entrances (both N.waiting N.history);
          read = spec.of_files F.history;
          drawn = spec.of_random B.drawn;
        })
        S.shown K.made K.counted
        (record {
          store = shelves.old;
          outside = outside.old;
          came = I.account input.old;
          written = O.contents output.old;
        })
        (record {
          store = shelves.new;
          outside = outside.new;
          came = I.account input.new;
          written = O.contents output.new;
        })
        (D.shown calendar.new) (O.writes output.old) (O.writes output.new)
        (both E.contents E.writes errors.old) (both E.contents E.writes errors.new) (K.name copies.now)
        (V.deeds reserve.old) (V.deeds reserve.new) result action.now }
    // Only `serve` writes to `errors`, and only notices.
    ensures notes { spec.WritesErrors action.now (E.contents errors.old) (E.contents errors.new) }
    // If the making of a key fails, nothing is printed, unless a call of the output failed.
    ensures whole { spec.PrintsKeyFor action.now (O.contents output.old) (O.contents output.new)
        (O.writes output.old) (O.writes output.new) result }
    // What was printed is flushed.
    ensures flushed { (O.writes output.old).unflushed ≡ [] → OnOk result ((O.writes output.new).unflushed ≡ []) }
    // It fails with `Io` only because a call of its streams failed, no key could be made, or a file could not be read.
    ensures cause { spec.CauseOf S.shown
        (record {
          store = shelves.old;
          outside = outside.old;
          came = I.account input.old;
          written = O.contents output.old;
        })
        (record {
          store = shelves.new;
          outside = outside.new;
          came = I.account input.new;
          written = O.contents output.new;
        })
        (record {
          reads = I.reads input.old;
          writes = O.writes output.old;
          drawn = B.drawn outside.old.random;
          files = F.history outside.old.files;
        })
        (record {
          reads = I.reads input.new;
          writes = O.writes output.new;
          drawn = B.drawn outside.new.random;
          files = F.history outside.new.files;
        })
        result action.now }
{
    match action {
        Action::Serve {
            entrance,
            connections,
            control,
        } => acceptance(serve(
            alloc,
            clock,
            calendar,
            copied,
            shelves,
            copies,
            reserve,
            &mut outside.entrances,
            *entrance,
            *connections,
            *control,
            output,
            errors,
        )),
        _ => act_alone(alloc, progress, shelves, outside, action, input, output),
    }
}

/// Does an action that is no `serve`, and returns whether it was accepted. Fails as the function of the action does.
fn act_alone<
    B: RandomBytes,
    S: Outlines + Keyring,
    P: Peer + Drop,
    Q: Operator + Drop,
    N: Entrances<P, Q>,
    F: Sources,
    I: Hear,
    O: Tell,
>(
    alloc: Global,
    progress: &ImportProgress<'_>,
    shelves: &mut S,
    outside: &mut Outside<N, F, B>,
    action: &Action,
    input: &mut I,
    output: &mut O,
) -> Result<bool, CommandRefusal>
    requires no_serve { spec.IsNoServe action.now }
    ensures acts { spec.ActsAlone
        (record {
          heeded = both Q.came Q.reads;
          told = both Q.written Q.writes;
          heard = both P.came P.reads;
          written = both P.written P.writes;
          known = N.known;
          door = spec.of_entrances (both N.waiting N.history);
          read = spec.of_files F.history;
          drawn = spec.of_random B.drawn;
        })
        S.shown
        (record {
          store = shelves.old;
          outside = outside.old;
          came = I.account input.old;
          written = O.contents output.old;
        })
        (record {
          store = shelves.new;
          outside = outside.new;
          came = I.account input.new;
          written = O.contents output.new;
        })
        result action.now }
    ensures whole { spec.PrintsKeyFor action.now (O.contents output.old) (O.contents output.new)
        (O.writes output.old) (O.writes output.new) result }
    ensures flushed { (O.writes output.old).unflushed ≡ [] → OnOk result ((O.writes output.new).unflushed ≡ []) }
    ensures cause { spec.CauseOf S.shown
        (record {
          store = shelves.old;
          outside = outside.old;
          came = I.account input.old;
          written = O.contents output.old;
        })
        (record {
          store = shelves.new;
          outside = outside.new;
          came = I.account input.new;
          written = O.contents output.new;
        })
        (record {
          reads = I.reads input.old;
          writes = O.writes output.old;
          drawn = B.drawn outside.old.random;
          files = F.history outside.old.files;
        })
        (record {
          reads = I.reads input.new;
          writes = O.writes output.new;
          drawn = B.drawn outside.new.random;
          files = F.history outside.new.files;
        })
        result action.now }
{
    match action {
        Action::Open => Ok(true),
        Action::Register { command } => acceptance(register(shelves, command)),
        Action::AddNew { shelf, right } => {
            let random = &mut outside.random;
            acceptance(add_new(alloc, random, shelves, shelf, *right, output))
        }
        Action::RevokeByFingerprint { fingerprint } => {
            acceptance(revoke_by_fingerprint(alloc, shelves, fingerprint))
        }
        Action::Publish { words, files } => {
            publish(alloc, shelves, words, &mut outside.files, files, output)
        }
        Action::Import { key, list } => import_file(
            alloc,
            shelves,
            key,
            list,
            &mut outside.files,
            progress,
            output,
        ),
        Action::Inventory { key } => print_inventory(alloc, shelves, key, output),
        Action::Catalog { key } => print_catalog(alloc, shelves, key, output),
        Action::Requires { version } => print_requirements(alloc, shelves, version, output),
        Action::List { listing } => print_list(alloc, shelves, *listing, output),
        Action::Answer => acceptance(answer_input(alloc, shelves, input, output)),
        Action::Serve { .. } => unreachable!(),
    }
}

/// Returns true for a command that is accepted once it is done, or its refusal.
pub fn acceptance(ended: Result<(), CommandRefusal>) -> Result<bool, CommandRefusal>
    ensures { result ≡ spec.acceptance ended }
{
    ended?;
    Ok(true)
}
