//! One connection.
ghost use Rattle.std.specs.Prelude.{◌≡◌, [], None, true, IfOk, IfErr};
ghost use Rattle.engine.specs.Causes.{AsksWhileUnfinished, IsCaused};
ghost use Rattle.engine.specs.First.{ServesFirst, ServesHeard};
ghost use Rattle.engine.specs.Isolated.{AnswersByItsShelf, AnswersHeardByItsShelf};
ghost use Rattle.histories.specs.Stopping.{WaitsIf};
ghost use Rattle.histories.specs.Timing.{KeepsTime};
ghost use Rattle.socket.specs.Pace.{time_for_message};

use crate::pace::ForMessage;
use crate::rest::drop_rest;
use engine::{Io, answer_one};
use histories::{
    BoundRead, BoundWrite, Connection, DeadlineReader, DeadlineWriter, HasCalls, Hear, Hearing,
    Start, Tell, Telling,
};
use std::alloc::Global;
use std::io::{Read, Write};
use std::marker::Brand;
use wire::RouteTable;
use world::shelves::Shelves;

/// The two ends of a connection, and the result of answering its first message.
#[derive(Drop)]
pub struct Answered<R, W> {
    /// What the message was read from, at the byte after the last that was read.
    pub reader: R,
    /// What the reply was written to.
    pub writer: W,
    /// The status that was written, or `None` if the peer sent nothing; `Io::Read` or `Io::Write` if a read or a write
    /// failed or its time was over.
    pub status: Result<Option<u16>, Io>,
}

/// Answers the first message of a peer (RFC 9112, in the profile of the crate `framing`) as `engine::answer_one` does,
/// and returns both ends with the result. All reads together have 5 seconds and one more for each 1,048,576 bytes read,
/// and so have all writes for the bytes written; the time of each begins at the first of them. Each wait is bounded by
/// what is left. A read or a write fails if no time is left, the clock can't be read, or its wait can't be bounded. The
/// caller lends the router, so that one serves all connections.
///
/// `Io::Read`: a read failed, nothing was done, and nothing is written. `Io::Write`: a write or the flush failed; a
/// beginning of the reply is written or all of it, and the shelves are as after the message.
pub fn answer_in_time<R: BoundRead + Drop, W: BoundWrite + Drop, S: Shelves>(
    alloc: Global,
    routes: &mut RouteTable,
    reader: Hearing<R>,
    writer: Telling<W>,
    shelves: &mut S,
) -> Answered<Hearing<R>, Telling<W>>
    ensures heard { ServesHeard (S.shown shelves.old) (S.shown shelves.new)
        (⟦<Hearing<R> as Hear>⟧.account reader) (⟦<Hearing<R> as Hear>⟧.account result.reader)
        (⟦<Telling<W> as Write>⟧.contents writer) (⟦<Telling<W> as Write>⟧.contents result.writer) result.status }
    // So it is for a reader whose bytes are known before they are read.
    ensures serves { ServesFirst (S.shown shelves.old) (S.shown shelves.new)
        (⟦<Hearing<R> as Read>⟧.remaining reader) (⟦<Hearing<R> as Read>⟧.remaining result.reader)
        (⟦<Telling<W> as Write>⟧.contents writer) (⟦<Telling<W> as Write>⟧.contents result.writer) result.status }
    // An empty input and a failed read leave the shelves untouched.
    ensures empty { IfOk result.status (λ status. status ≡ None → shelves.new ≡ shelves.old) }
    ensures unread { IfErr result.status (λ e. e ≡ Io.Read → shelves.new ≡ shelves.old) }
    // No read began once the bytes that came say what is to be answered.
    ensures asks { AsksWhileUnfinished []
        (⟦<Hearing<R> as Hear>⟧.account reader) (⟦<Hearing<R> as Hear>⟧.account result.reader)
        (⟦<Hearing<R> as Hear>⟧.reads reader) (⟦<Hearing<R> as Hear>⟧.reads result.reader) }
    // It fails only if a call of the reader or of the writer failed or was refused, or if no read is left.
    ensures cause { IfErr result.status (IsCaused
        (⟦<Hearing<R> as Hear>⟧.reads reader) (⟦<Hearing<R> as Hear>⟧.reads result.reader)
        (⟦<Telling<W> as Tell>⟧.writes writer) (⟦<Telling<W> as Tell>⟧.writes result.writer)) }
    // What was written is flushed.
    ensures flushed { IfOk result.status (λ _. (⟦<Telling<W> as Tell>⟧.writes result.writer).unflushed ≡ []) }
    // No read, and no write, began after its time, waited longer than what was left of it, or was refused in it. No
    // write began after the writing side was shut.
    ensures reads_in_time { KeepsTime time_for_message
        (⟦<Hearing<R> as HasCalls>⟧.calls reader) (⟦<Hearing<R> as HasCalls>⟧.calls result.reader) }
    ensures writes_in_time { KeepsTime time_for_message
        (⟦<Telling<W> as HasCalls>⟧.calls writer) (⟦<Telling<W> as HasCalls>⟧.calls result.writer) }
    // No wait of a read was ruled out.
    ensures waits { WaitsIf true
        (⟦<Hearing<R> as HasCalls>⟧.calls reader) (⟦<Hearing<R> as HasCalls>⟧.calls result.reader) }
    // The answer does not depend on the shelves that the caller does not see.
    ensures isolated_heard { AnswersHeardByItsShelf (S.shown shelves.old) (S.shown shelves.new)
        (⟦<Hearing<R> as Hear>⟧.account reader) (⟦<Hearing<R> as Hear>⟧.account result.reader)
        (⟦<Telling<W> as Write>⟧.contents writer) (⟦<Telling<W> as Write>⟧.contents result.writer) result.status }
    // So it is for a reader whose bytes are known before they are read.
    ensures isolated { AnswersByItsShelf (S.shown shelves.old) (S.shown shelves.new)
        (⟦<Hearing<R> as Read>⟧.remaining reader)
        (⟦<Telling<W> as Write>⟧.contents writer) (⟦<Telling<W> as Write>⟧.contents result.writer) result.status }
{
    answer_since::<Brand, Brand, R, W, S>(alloc, routes, reader, writer, shelves)
}

/// Answers as `answer_in_time` does.
fn answer_since<K: Start, J: Start, R: BoundRead + Drop, W: BoundWrite + Drop, S: Shelves>(
    alloc: Global,
    routes: &mut RouteTable,
    reader: Hearing<R>,
    writer: Telling<W>,
    shelves: &mut S,
) -> Answered<Hearing<R>, Telling<W>>
    requires reads { ⟦<Hearing<R> as HasCalls>⟧.calls reader ≡ K.calls }
    requires writes { ⟦<Telling<W> as HasCalls>⟧.calls writer ≡ J.calls }
    requires may_wait { K.may_wait ≡ true }
    ensures heard { ServesHeard (S.shown shelves.old) (S.shown shelves.new)
        (⟦<Hearing<R> as Hear>⟧.account reader) (⟦<Hearing<R> as Hear>⟧.account result.reader)
        (⟦<Telling<W> as Write>⟧.contents writer) (⟦<Telling<W> as Write>⟧.contents result.writer) result.status }
    ensures empty { IfOk result.status (λ status. status ≡ None → shelves.new ≡ shelves.old) }
    ensures unread { IfErr result.status (λ e. e ≡ Io.Read → shelves.new ≡ shelves.old) }
    ensures asks { AsksWhileUnfinished []
        (⟦<Hearing<R> as Hear>⟧.account reader) (⟦<Hearing<R> as Hear>⟧.account result.reader)
        (⟦<Hearing<R> as Hear>⟧.reads reader) (⟦<Hearing<R> as Hear>⟧.reads result.reader) }
    ensures cause { IfErr result.status (IsCaused
        (⟦<Hearing<R> as Hear>⟧.reads reader) (⟦<Hearing<R> as Hear>⟧.reads result.reader)
        (⟦<Telling<W> as Tell>⟧.writes writer) (⟦<Telling<W> as Tell>⟧.writes result.writer)) }
    ensures flushed { IfOk result.status (λ _. (⟦<Telling<W> as Tell>⟧.writes result.writer).unflushed ≡ []) }
    ensures reads_in_time { KeepsTime time_for_message K.calls (⟦<Hearing<R> as HasCalls>⟧.calls result.reader) }
    ensures writes_in_time { KeepsTime time_for_message J.calls (⟦<Telling<W> as HasCalls>⟧.calls result.writer) }
    ensures waits { WaitsIf true K.calls (⟦<Hearing<R> as HasCalls>⟧.calls result.reader) }
{
    let mut request: DeadlineReader<ForMessage, K, R> = DeadlineReader::new(reader);
    let mut reply: DeadlineWriter<ForMessage, J, W> = DeadlineWriter::new(writer);
    let status = answer_one(alloc, routes, &mut request, &mut reply, shelves);
    Answered {
        reader: request.into_inner(),
        writer: reply.into_inner(),
        status,
    }
}

/// A peer after it was answered, and the result.
#[derive(Drop)]
pub struct After<P> {
    pub peer: P,
    pub status: Result<Option<u16>, Io>,
}

/// A connected peer.
pub trait Peer {
    ghost use Rattle.std.specs.Prelude.{ℕ, List, [], ◌∷◌, Option, true, ◌≡◌, IfOk, IfErr};
    ghost use Rattle.histories.specs.Account.{Account};
    ghost use Rattle.histories.specs.Calls.{Reads, Writes};
    ghost use Rattle.histories.specs.Stopping.{WaitsIf};
    ghost use Rattle.histories.specs.Timing.{KeepsTime};
    ghost use Rattle.histories.specs.declared.call.Call.{Call};
    ghost use Rattle.histories.specs.declared.call.Call.TheVariants as call;
    ghost use Rattle.engine.specs.Causes.{AsksWhileUnfinished, IsCaused};
    ghost use Rattle.engine.specs.First.{ServesHeard};
    ghost use Rattle.socket.specs.Connections.{both};
    ghost use Rattle.socket.specs.Pace.{time_for_message, time_for_rest};
    ghost use Rattle.socket.specs.Rest.{DropsRest, leaves_rest};

    /// The bytes that came from it so far.
    ghost came: { Self → Account };

    /// The bytes that it was sent, if they are known.
    ghost written: { Self → Option (List ℕ) };

    /// The calls to read from it so far.
    ghost reads: { Self → Reads };

    /// The calls to write to it and to flush it so far.
    ghost writes: { Self → Writes };

    /// The calls that bear on how long a read from it waits, the last of them first.
    ghost read_calls: { Self → List Call };

    /// The calls that bear on how long a write to it waits, the last of them first.
    ghost write_calls: { Self → List Call };

    /// Answers its first message, and returns and fails as `engine::answer_one` does. The caller lends the router.
    fn answer<S: Shelves>(
        self,
        alloc: Global,
        routes: &mut RouteTable,
        shelves: &mut S,
    ) -> After<Self>
    where
        Self: Sized,
        ensures serves { ServesHeard (S.shown shelves.old) (S.shown shelves.new)
            (came self) (came result.peer) (written self) (written result.peer) result.status }
        // No read began once the bytes that came say what is to be answered.
        ensures asks { AsksWhileUnfinished [] (came self) (came result.peer) (reads self) (reads result.peer) }
        // It fails only if a call to read or to write failed or was refused, or if no read is left.
        ensures cause { IfErr result.status (IsCaused
            (reads self) (reads result.peer) (writes self) (writes result.peer)) }
        // What was written is flushed.
        ensures flushed { IfOk result.status (λ _. (writes result.peer).unflushed ≡ []) }
        // No read, and no write, began after its time, waited longer than what was left of it, or was refused in it. No
        // write began after the writing side was shut.
        ensures reads_in_time { KeepsTime time_for_message (read_calls self) (read_calls result.peer) }
        ensures writes_in_time { KeepsTime time_for_message (write_calls self) (write_calls result.peer) }
        // No wait of a read was ruled out.
        ensures waits { WaitsIf true (read_calls self) (read_calls result.peer) };

    /// Ends the connection after a reply with this status.
    fn end(self, status: u16) -> Self
    where
        Self: Sized,
        ensures written { written result ≡ written self }
        // What still comes is read and dropped.
        ensures drops { DropsRest (both came reads self) (both came reads result) }
        // So it is of what is still read. No write begins, and the system is asked once to shut the
        // writing side.
        ensures reads_in_time { KeepsTime time_for_rest (read_calls self) (read_calls result) }
        // Reads wait only for what a peer still sends whose message may be only partly read.
        ensures waits { WaitsIf (leaves_rest status) (read_calls self) (read_calls result) }
        ensures shuts { write_calls result ≡ call.Shuts ∷ write_calls self };
}

impl<R: BoundRead + Drop, W: BoundWrite + Drop> Peer for Connection<R, W> {
    ghost came = { λ p. ⟦<Hearing<R> as Hear>⟧.account p.reader };

    ghost written = { λ p. ⟦<Telling<W> as Write>⟧.contents p.writer };

    ghost reads = { λ p. ⟦<Hearing<R> as Hear>⟧.reads p.reader };

    ghost writes = { λ p. ⟦<Telling<W> as Tell>⟧.writes p.writer };

    ghost read_calls = { λ p. ⟦<Hearing<R> as HasCalls>⟧.calls p.reader };

    ghost write_calls = { λ p. ⟦<Telling<W> as HasCalls>⟧.calls p.writer };

    fn answer<S: Shelves>(
        self,
        alloc: Global,
        routes: &mut RouteTable,
        shelves: &mut S,
    ) -> After<Connection<R, W>> {
        let Connection { reader, writer } = self;
        let answered = answer_in_time(alloc, routes, reader, writer, shelves);
        After {
            peer: Connection {
                reader: answered.reader,
                writer: answered.writer,
            },
            status: answered.status,
        }
    }

    /// Shuts the writing side, and drops what the peer sent after its message. Errors are ignored: the reply is
    /// written.
    fn end(self, status: u16) -> Connection<R, W> {
        let Connection { reader, mut writer } = self;
        let _ = writer.shut();
        Connection {
            reader: drop_rest(reader, status),
            writer,
        }
    }
}
