//! `serve`: one request on each of some connections, and the orders of operators between them.
//!
//! It is code over [`Entrances`], and has no handle of the system. So it listens where the history of the callers has
//! it, and nowhere else, and takes nobody else.
ghost use Rattle.std.specs.Prelude.{◌≡◌, [], option_copied, OnOk};
ghost use Rattle.control.specs.Copying.{GoesOnRead};
ghost use Rattle.control.specs.Notices.{WritesLines, WritesNotices};
ghost use Rattle.control.specs.Reserve.{is_whole};
ghost use Rattle.engine.specs.Causes.{FailsWith};
ghost use Rattle.socket.specs.Connections.{both};
ghost use Rattle.commands.specs.Printed.{PrintsText};
ghost use Rattle.commands.specs.Serve.{AnswersIfOpen, AreOfRoom, Listens, ListensAs, ListensToBoth, ListensToNobody};
ghost use Rattle.commands.specs.Serve.{Opens, ServesIfOpen, TellsEach, line_of, port_line};

use crate::printing::{print_both, print_one};
use crate::refusal::CommandRefusal;
use control::{
    Copies, Operator, Reserve, Room, WallClock, ended, opened, reserved, serve_both, tell,
};
use engine::Io;
use engine::write::write_bytes;
use histories::{ClockFace, Tell};
use itoa::Buffer;
use keyring::Keyring;
use modver::TimeText;
use socket::{Entrances, ListenOn, Peer, serve_on};
use std::alloc::Global;

/// Lets peers in, prints the line of where, and serves the connections that come in: the store goes through at most as
/// many requests as there are connections. If a socket `control` is named, it is made first, and the orders of
/// operators who connect to it are carried out between them, copies by `copies`, and do not count; a ping reports the
/// versions that `copies` counts, and when the server began: the time that `calendar` shows before the socket is made.
/// `copied` shows when a copy was made, and `reserve` keeps room for orders from then on. Notices, which have no key,
/// are then written to `errors`; if that fails, nothing else changes. At the end nobody is let in any more, and the
/// name of the socket is gone.
///
/// `Io` if the entrance or the socket can't be opened, the clock can't be read for the start time, the output fails, or
/// memory runs out before it serves: then nothing of the line is printed, a beginning or all of it, nobody is taken,
/// and the store stays as it was. A connection that fails only counts.
pub fn serve<
    C: ClockFace,
    D: WallClock + Drop,
    S: Keyring,
    K: Copies<S, V>,
    V: Reserve<S>,
    P: Peer + Drop,
    Q: Operator + Drop,
    N: Entrances<P, Q>,
    O: Tell,
    E: Tell,
>(
    alloc: Global,
    clock: &C,
    calendar: &mut D,
    copied: D,
    shelves: &mut S,
    copies: &K,
    reserve: &mut V,
    entrances: &mut N,
    entrance: ListenOn,
    connections: u32,
    control: Option<&str>,
    output: &mut O,
    errors: &mut E,
) -> Result<(), CommandRefusal>
    ensures serves { ListensAs (both Q.came Q.reads) (both Q.written Q.writes)
        (both P.came P.reads) (both P.written P.writes) N.known S.shown K.made K.counted shelves.old shelves.new
        entrance connections (O.contents output.old) (O.contents output.new) (O.writes output.old) (O.writes output.new)
        (both E.contents E.writes errors.old) (both E.contents E.writes errors.new) (K.name copies.now)
        (D.shown calendar.old) (D.shown calendar.new) (V.deeds reserve.old) (V.deeds reserve.new)
        (both N.waiting N.history entrances.old) (both N.waiting N.history entrances.new)
        result (option_copied control.entry) }
    // What was printed is flushed.
    ensures flushed { OnOk result ((O.writes output.new).unflushed ≡ []) }
    // Only notices are written to `errors`.
    ensures notes { WritesNotices (E.contents errors.old) (E.contents errors.new) }
{
    match control {
        None => {
            let told = answer_peers(alloc, shelves, entrances, entrance, connections, output);
            entrances.close();
            told
        }
        Some(path) => serve_operators(
            alloc,
            clock,
            calendar,
            copied,
            shelves,
            copies,
            reserve,
            entrances,
            entrance,
            connections,
            path,
            output,
            errors,
        ),
    }
}

/// Lets peers in, and answers them.
fn answer_peers<S: Keyring, P: Peer + Drop, Q, N: Entrances<P, Q>, O: Tell>(
    alloc: Global,
    shelves: &mut S,
    entrances: &mut N,
    entrance: ListenOn,
    connections: u32,
    output: &mut O,
) -> Result<(), CommandRefusal>
    ensures serves { AnswersIfOpen (both P.came P.reads) (both P.written P.writes) N.known S.shown
        shelves.old shelves.new entrance connections (O.contents output.old) (O.contents output.new)
        (O.writes output.old) (O.writes output.new)
        (both N.waiting N.history entrances.old) (both N.waiting N.history entrances.new) result }
    ensures flushed { OnOk result ((O.writes output.new).unflushed ≡ []) }
{
    let Ok(()) = listen(entrances, entrance, output) else {
        return Err(CommandRefusal::Io);
    };
    serve_on(alloc, entrances, shelves, connections);
    Ok(())
}

/// Serves the connections of peers, and the operators of a socket, which is made first and removed at the end.
fn serve_operators<
    C: ClockFace,
    D: WallClock + Drop,
    S: Keyring,
    K: Copies<S, V>,
    V: Reserve<S>,
    P: Peer + Drop,
    Q: Operator + Drop,
    N: Entrances<P, Q>,
    O: Tell,
    E: Tell,
>(
    alloc: Global,
    clock: &C,
    calendar: &mut D,
    copied: D,
    shelves: &mut S,
    copies: &K,
    reserve: &mut V,
    entrances: &mut N,
    entrance: ListenOn,
    connections: u32,
    path: &str,
    output: &mut O,
    errors: &mut E,
) -> Result<(), CommandRefusal>
    ensures serves { ListensAs (both Q.came Q.reads) (both Q.written Q.writes)
        (both P.came P.reads) (both P.written P.writes) N.known S.shown K.made K.counted shelves.old shelves.new
        entrance connections (O.contents output.old) (O.contents output.new) (O.writes output.old) (O.writes output.new)
        (both E.contents E.writes errors.old) (both E.contents E.writes errors.new) (K.name copies.now)
        (D.shown calendar.old) (D.shown calendar.new) (V.deeds reserve.old) (V.deeds reserve.new)
        (both N.waiting N.history entrances.old) (both N.waiting N.history entrances.new)
        result (Some path.now) }
    ensures flushed { OnOk result ((O.writes output.new).unflushed ≡ []) }
    ensures notes { WritesNotices (E.contents errors.old) (E.contents errors.new) }
{
    let Some(since) = calendar.time_now() else {
        return Err(CommandRefusal::Io);
    };
    let Ok(()) = entrances.make_socket(path) else {
        return Err(CommandRefusal::Io);
    };
    let room = reserve.make_room();
    let told = serve_callers(
        alloc,
        clock,
        copied,
        shelves,
        copies,
        reserve,
        room,
        since,
        entrances,
        entrance,
        connections,
        output,
        errors,
    );
    // the name goes first: a server that finds nobody at a socket takes its name away
    entrances.remove_socket(path);
    entrances.close();
    told
}

/// Lets peers in, and serves both.
fn serve_callers<
    C: ClockFace,
    D: WallClock + Drop,
    S: Keyring,
    K: Copies<S, V>,
    V: Reserve<S>,
    P: Peer + Drop,
    Q: Operator + Drop,
    N: Entrances<P, Q>,
    O: Tell,
    E: Tell,
>(
    alloc: Global,
    clock: &C,
    copied: D,
    shelves: &mut S,
    copies: &K,
    reserve: &mut V,
    room: Room,
    since: TimeText,
    entrances: &mut N,
    entrance: ListenOn,
    connections: u32,
    output: &mut O,
    errors: &mut E,
) -> Result<(), CommandRefusal>
    ensures serves { ServesIfOpen (both Q.came Q.reads) (both Q.written Q.writes)
        (both P.came P.reads) (both P.written P.writes) N.known S.shown K.made K.counted shelves.old shelves.new
        entrance connections (O.contents output.old) (O.contents output.new)
        (O.writes output.old) (O.writes output.new)
        (both E.contents E.writes errors.old) (both E.contents E.writes errors.new) (K.name copies.now) since room
        (V.deeds reserve.old) (V.deeds reserve.new)
        (both N.waiting N.history entrances.old) (both N.waiting N.history entrances.new) result }
    ensures flushed { OnOk result ((O.writes output.new).unflushed ≡ []) }
    ensures notes { WritesNotices (E.contents errors.old) (E.contents errors.new) }
{
    let Ok(()) = listen(entrances, entrance, output) else {
        return Err(CommandRefusal::Io);
    };
    serve_told(
        alloc,
        clock,
        copied,
        shelves,
        copies,
        reserve,
        room,
        since,
        entrances,
        connections,
        errors,
    );
    Ok(())
}

/// Serves the callers who come in. Before that it writes notices of what was opened, and of the reserve if it lacks
/// room, and after it one of the end.
fn serve_told<
    C: ClockFace,
    D: WallClock + Drop,
    S: Keyring,
    K: Copies<S, V>,
    V: Reserve<S>,
    P: Peer + Drop,
    Q: Operator + Drop,
    N: Entrances<P, Q>,
    E: Tell,
>(
    alloc: Global,
    clock: &C,
    copied: D,
    shelves: &mut S,
    copies: &K,
    reserve: &mut V,
    room: Room,
    since: TimeText,
    entrances: &mut N,
    connections: u32,
    errors: &mut E,
)
    ensures each { TellsEach (both Q.came Q.reads) (both Q.written Q.writes)
        (both P.came P.reads) (both P.written P.writes) N.known S.shown K.made K.counted shelves.old shelves.new
        connections (both E.contents E.writes errors.old) (both E.contents E.writes errors.new) (K.name copies.now)
        since room
        (V.deeds reserve.old) (V.deeds reserve.new)
        (both N.waiting N.history entrances.old) (both N.waiting N.history entrances.new) }
    ensures goes { GoesOnRead S.shown K.made K.counted shelves.old shelves.new since connections }
    ensures notes { WritesNotices (E.contents errors.old) (E.contents errors.new) }
{
    let versions = copies.versions(shelves);
    tell(opened(alloc, copies.served(), versions), errors);
    tell_room(alloc, room, errors);
    serve_both(
        alloc,
        clock,
        entrances,
        shelves,
        copies,
        reserve,
        room,
        copied,
        since,
        connections,
        errors,
    );
    tell(ended(alloc, copies.served()), errors);
}

/// Writes a notice if not all of the reserve, the room on the disk for orders, is there.
fn tell_room<E: Tell>(alloc: Global, room: Room, errors: &mut E)
    ensures notes { WritesNotices (E.contents errors.old) (E.contents errors.new) }
    // Its line says so, and is flushed, unless a call to write or to flush failed.
    ensures tells { WritesLines (AreOfRoom (is_whole room))
        (both E.contents E.writes errors.old) (both E.contents E.writes errors.new) }
{
    if room.is_whole() {
        return;
    }
    tell(reserved(alloc, false), errors);
}

/// Lets peers in, and prints where. If the output fails, a beginning of the line is printed, or all of it.
fn listen<P, Q, N: Entrances<P, Q>, O: Tell>(
    entrances: &mut N,
    entrance: ListenOn,
    output: &mut O,
) -> Result<(), CommandRefusal>
    ensures opens { Opens (both N.waiting N.history entrances.old) (both N.waiting N.history entrances.new)
        entrance (O.contents output.old) (O.contents output.new) (O.writes output.old) (O.writes output.new) result }
    ensures flushed { OnOk result ((O.writes output.new).unflushed ≡ []) }
{
    let Ok(bound) = entrances.listen(entrance) else {
        return Err(CommandRefusal::Io);
    };
    match announce(bound, output) {
        Ok(()) => Ok(()),
        Err(_) => Err(CommandRefusal::Io),
    }
}

/// Prints the line of where peers come in.
fn announce<O: Tell>(bound: ListenOn, output: &mut O) -> Result<(), Io>
    ensures prints { PrintsText (O.contents output.old) (O.contents output.new) (line_of bound) result }
    // It fails only if a call of the output failed.
    ensures fails { FailsWith (O.writes output.old).failed (O.writes output.new).failed result }
    ensures flushed { OnOk result ((O.writes output.new).unflushed ≡ []) }
{
    match bound {
        ListenOn::Port(port) => print_port(port, output),
        ListenOn::Input => print_one(b"listening on standard input\n", output),
    }
}

/// Prints the line with the port.
fn print_port<O: Tell>(port: u16, output: &mut O) -> Result<(), Io>
    ensures prints { PrintsText (O.contents output.old) (O.contents output.new) (port_line port) result }
    ensures fails { FailsWith (O.writes output.old).failed (O.writes output.new).failed result }
    ensures flushed { OnOk result ((O.writes output.new).unflushed ≡ []) }
{
    let mut digits = Buffer::new();
    write_bytes(output, b"listening on 127.0.0.1:")?;
    print_both(digits.format(port).as_bytes(), b"\n", output)
}
