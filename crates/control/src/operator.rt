//! Operators, who send orders.
ghost use Rattle.std.specs.Prelude.{◌≡◌, ◌⊎◌, ℕ, List, [], true, IfOk, IfErr, MatchResult};
ghost use Rattle.std.specs.Io.KnownBytes.{Appends};
ghost use Rattle.engine.specs.Causes.{FailsWith, IsCausedIn};
ghost use Rattle.histories.specs.Account.{Account};
ghost use Rattle.histories.specs.Stopping.{WaitsIf};
ghost use Rattle.histories.specs.Timing.{KeepsEach, KeepsTime};
ghost use Rattle.control.specs.Health.{IsPinged};
ghost use Rattle.control.specs.Hearing.{ObeysBy, WritesSome};
ghost use Rattle.orders.specs.Order.{IsLineOf, Catalog, longest_copy};
ghost use Rattle.control.specs.Line.{AsksWhileOpen, ReadsLine, most_tries};
ghost use Rattle.control.specs.Pace.{WritesInTime, time_for_order};
ghost use Rattle.control.specs.Pinging.{TellsPing};
ghost use Rattle.control.specs.ControlReply.{bytes_told};

use crate::control_reply::ControlReply;
use crate::copies::CopyOrders;
use crate::line::{ReadError, read_line};
use crate::notice::Noted;
use crate::obeying::{Done, answer, print_for, tell};
use crate::patience::ForOrder;
use crate::tally::Tally;
use engine::Io;
use histories::{
    BoundRead, BoundWrite, Connection, DeadlineReader, DeadlineWriter, HasCalls, Hear, Hearing,
    RollingDeadlineWriter, Start, Tell, Telling,
};
use keyring::Keyring;
use orders::{Order, Outcome, read_order};
use std::alloc::Global;
use std::io::Write;
use std::marker::Brand;
use world::registry::StoreFault;

/// An operator after its order was carried out, the result, and what is noted of what was done.
#[derive(Drop)]
pub struct Obeyed<O> {
    pub operator: O,
    pub told: Result<ControlReply, Io>,
    pub noted: Option<Noted>,
}

/// An operator who has connected.
pub trait Operator {
    ghost use Rattle.std.specs.Prelude.{ℕ, ◌≡◌, List, [], Option, true, IfOk, IfErr};
    ghost use Rattle.histories.specs.Account.{Account};
    ghost use Rattle.histories.specs.Calls.{Reads, Writes};
    ghost use Rattle.histories.specs.Stopping.{WaitsIf};
    ghost use Rattle.histories.specs.Timing.{KeepsTime};
    ghost use Rattle.histories.specs.declared.call.Call.{Call};
    ghost use Rattle.engine.specs.Causes.{IsCausedIn};
    ghost use Rattle.control.specs.Health.{IsPinged};
    ghost use Rattle.control.specs.Hearing.{ObeysBy};
    ghost use Rattle.control.specs.Line.{AsksWhileOpen, most_tries};
    ghost use Rattle.control.specs.Pace.{WritesInTime, time_for_order};
    ghost use Rattle.control.specs.Pinging.{TellsPing};
    ghost use Rattle.orders.specs.Order.{longest_copy};

    /// The bytes that came from it so far.
    ghost came: { Self → Account };

    /// The bytes that were sent to it, if they are known.
    ghost written: { Self → Option (List ℕ) };

    /// The calls to read from it so far.
    ghost reads: { Self → Reads };

    /// The calls to write to it and to flush it so far.
    ghost writes: { Self → Writes };

    /// The calls that bear on how long a read from it waits, the last of them first.
    ghost read_calls: { Self → List Call };

    /// The calls that bear on how long a write to it waits, the last of them first.
    ghost write_calls: { Self → List Call };

    /// Reads its line, does what that orders, writes what came of it, flushes that, and returns it, with what is noted
    /// of what was done; `copies` makes copies.
    ///
    /// `Outcome::Stopping`: the server is to end. `ControlReply::Health`: the line is a ping, which gets the tally, the
    /// failures of the store, and the versions and the figures that `copies` has of it. `ControlReply::List`: the line
    /// asks for a list. `Outcome::Failed` with `StoreFault::Memory` also means that memory ran out for the line, and
    /// that nothing was done.
    ///
    /// `Io::Read`: nothing was done, and nothing written. `Io::Write`: a write or the flush failed; a beginning of the
    /// line was written or all of it, and the shelves are as after the order.
    fn obeyed<S: Keyring, K: CopyOrders<S>>(
        self,
        alloc: Global,
        tally: &Tally,
        shelves: &mut S,
        copies: &mut K,
    ) -> Obeyed<Self>
    where
        Self: Sized,
        ensures obeys { ObeysBy S.shown K.made K.counted K.meanwhile K.rests K.deeds tally.now copies.old copies.new
            shelves.old shelves.new (came self) (came result.operator) (written self) (written result.operator)
            result.told result.noted }
        // A ping is told what `copies` knows of the store, and nothing else.
        ensures figures { IfOk result.told (TellsPing (K.figured copies.old shelves.new) (IsPinged tally.now
            (S.shown shelves.old).failures (S.shown shelves.new).failures (K.counted shelves.old shelves.new))) }
        // It fails only if a call to read or to write failed or was refused, or if no read is left.
        ensures cause { IfErr result.told (IsCausedIn most_tries
            (reads self) (reads result.operator) (writes self) (writes result.operator)) }
        // No read began once a line had ended, or more bytes had come than a line may have.
        ensures asks { AsksWhileOpen longest_copy (came self) (came result.operator)
            (reads self) (reads result.operator) }
        // What was written is flushed.
        ensures flushed { IfOk result.told (λ _. (writes result.operator).unflushed ≡ []) }
        // No read, and no write, began after its time, waited longer than what was left of it, or was refused in it;
        // each line of a catalog has its own time. No write began after the writing side was shut.
        ensures reads_in_time { KeepsTime time_for_order (read_calls self) (read_calls result.operator) }
        ensures writes_in_time { WritesInTime (came self) (came result.operator)
            (write_calls self) (write_calls result.operator) }
        // No wait of a read was ruled out.
        ensures waits { WaitsIf true (read_calls self) (read_calls result.operator) };
}

impl<R: BoundRead + Drop, W: BoundWrite + Drop> Operator for Connection<R, W> {
    ghost came = { λ o. ⟦<Hearing<R> as Hear>⟧.account o.reader };

    ghost written = { λ o. ⟦<Telling<W> as Write>⟧.contents o.writer };

    ghost reads = { λ o. ⟦<Hearing<R> as Hear>⟧.reads o.reader };

    ghost writes = { λ o. ⟦<Telling<W> as Tell>⟧.writes o.writer };

    ghost read_calls = { λ o. ⟦<Hearing<R> as HasCalls>⟧.calls o.reader };

    ghost write_calls = { λ o. ⟦<Telling<W> as HasCalls>⟧.calls o.writer };

    /// All reads of the line together have 2 seconds, and so have all writes of the outcome.
    fn obeyed<S: Keyring, K: CopyOrders<S>>(
        self,
        alloc: Global,
        tally: &Tally,
        shelves: &mut S,
        copies: &mut K,
    ) -> Obeyed<Connection<R, W>> {
        obey_since::<Brand, Brand, R, W, S, K>(alloc, self, tally, shelves, copies)
    }
}

/// Carries out the order of an operator, as `Operator::obeyed` does. All reads of the line together have 2 seconds, and
/// so have all writes of the outcome.
fn obey_since<
    I: Start,
    J: Start,
    R: BoundRead + Drop,
    W: BoundWrite + Drop,
    S: Keyring,
    K: CopyOrders<S>,
>(
    alloc: Global,
    operator: Connection<R, W>,
    tally: &Tally,
    shelves: &mut S,
    copies: &mut K,
) -> Obeyed<Connection<R, W>>
    requires reads { ⟦<Hearing<R> as HasCalls>⟧.calls operator.reader ≡ I.calls }
    requires writes { ⟦<Telling<W> as HasCalls>⟧.calls operator.writer ≡ J.calls }
    requires may_wait { I.may_wait ≡ true }
    ensures obeys { ObeysBy S.shown K.made K.counted K.meanwhile K.rests K.deeds tally.now copies.old copies.new
        shelves.old shelves.new
        (⟦<Hearing<R> as Hear>⟧.account operator.reader) (⟦<Hearing<R> as Hear>⟧.account result.operator.reader)
        (⟦<Telling<W> as Write>⟧.contents operator.writer) (⟦<Telling<W> as Write>⟧.contents result.operator.writer)
        result.told result.noted }
    ensures figures { IfOk result.told (TellsPing (K.figured copies.old shelves.new) (IsPinged tally.now
        (S.shown shelves.old).failures (S.shown shelves.new).failures (K.counted shelves.old shelves.new))) }
    ensures cause { IfErr result.told (IsCausedIn most_tries
        (⟦<Hearing<R> as Hear>⟧.reads operator.reader) (⟦<Hearing<R> as Hear>⟧.reads result.operator.reader)
        (⟦<Telling<W> as Tell>⟧.writes operator.writer) (⟦<Telling<W> as Tell>⟧.writes result.operator.writer)) }
    ensures asks { AsksWhileOpen longest_copy
        (⟦<Hearing<R> as Hear>⟧.account operator.reader) (⟦<Hearing<R> as Hear>⟧.account result.operator.reader)
        (⟦<Hearing<R> as Hear>⟧.reads operator.reader) (⟦<Hearing<R> as Hear>⟧.reads result.operator.reader) }
    ensures flushed { IfOk result.told (λ _. (⟦<Telling<W> as Tell>⟧.writes result.operator.writer).unflushed ≡ []) }
    ensures reads_in_time { KeepsTime time_for_order I.calls
        (⟦<Hearing<R> as HasCalls>⟧.calls result.operator.reader) }
    ensures writes_in_time { WritesInTime
        (⟦<Hearing<R> as Hear>⟧.account operator.reader) (⟦<Hearing<R> as Hear>⟧.account result.operator.reader)
        J.calls (⟦<Telling<W> as HasCalls>⟧.calls result.operator.writer) }
    ensures waits { WaitsIf true I.calls (⟦<Hearing<R> as HasCalls>⟧.calls result.operator.reader) }
{
    let Connection { reader, writer } = operator;
    let mut line: DeadlineReader<ForOrder, I, R> = DeadlineReader::new(reader);
    let got = read_line(alloc, &mut line);
    let reader = line.into_inner();
    let (writer, done) = match got {
        Ok(got) => answer_since::<J, W, S, K>(alloc, writer, &got, tally, shelves, copies),
        Err(ReadError::Io) => {
            let told = Err(Io::Read);
            (writer, Done { told, noted: None })
        }
        Err(ReadError::Memory) => {
            let told = ControlReply::Outcome(Outcome::Failed(StoreFault::Memory));
            let (writer, told) = tell_since::<J, W>(writer, told);
            (writer, Done { told, noted: None })
        }
    };
    Obeyed {
        operator: Connection { reader, writer },
        told: done.told,
        noted: done.noted,
    }
}

/// Does what a line orders, and writes what came of it. All writes together have 2 seconds; where the line asks for a
/// catalog, each of its lines has.
fn answer_since<J: Start, W: BoundWrite + Drop, S: Keyring, K: CopyOrders<S>>(
    alloc: Global,
    writer: Telling<W>,
    got: &[u8],
    tally: &Tally,
    shelves: &mut S,
    copies: &mut K,
) -> (Telling<W>, Done<Result<ControlReply, Io>>)
    requires { ⟦<Telling<W> as HasCalls>⟧.calls writer ≡ J.calls }
    ensures obeys { (came came_new : Account) → ReadsLine came came_new got.now
        → ObeysBy S.shown K.made K.counted K.meanwhile K.rests K.deeds tally.now copies.old copies.new
        shelves.old shelves.new came came_new
        (⟦<Telling<W> as Write>⟧.contents writer) (⟦<Telling<W> as Write>⟧.contents result.0)
        result.1.told result.1.noted }
    ensures figures { IfOk result.1.told (TellsPing (K.figured copies.old shelves.new) (IsPinged tally.now
        (S.shown shelves.old).failures (S.shown shelves.new).failures (K.counted shelves.old shelves.new))) }
    // It fails only if a write or the flush failed.
    ensures which { IfErr result.1.told (λ e. e ≡ Io.Write) }
    ensures fails { FailsWith (⟦<Telling<W> as Tell>⟧.writes writer).failed
        (⟦<Telling<W> as Tell>⟧.writes result.0).failed result.1.told }
    ensures flushed { IfOk result.1.told (λ _. (⟦<Telling<W> as Tell>⟧.writes result.0).unflushed ≡ []) }
    ensures in_time { KeepsTime time_for_order J.calls (⟦<Telling<W> as HasCalls>⟧.calls result.0)
        ⊎ ((key : List ℕ) × IsLineOf got.now (Catalog key)
        × KeepsEach time_for_order J.calls (⟦<Telling<W> as HasCalls>⟧.calls result.0)) }
{
    let order = read_order(got);
    if let Some(Order::Catalog(key)) = order {
        let mut output: RollingDeadlineWriter<ForOrder, J, W> = RollingDeadlineWriter::new(writer);
        let told = print_for(alloc, key, &mut output, shelves, copies);
        return (output.into_inner(), told);
    }
    let mut outcome: DeadlineWriter<ForOrder, J, W> = DeadlineWriter::new(writer);
    let told = answer(alloc, order, &mut outcome, tally, shelves, copies);
    (outcome.into_inner(), told)
}

/// Writes what an operator gets, and returns it. All writes together have 2 seconds.
fn tell_since<J: Start, W: BoundWrite + Drop>(
    writer: Telling<W>,
    told: ControlReply,
) -> (Telling<W>, Result<ControlReply, Io>)
    requires { ⟦<Telling<W> as HasCalls>⟧.calls writer ≡ J.calls }
    ensures same { IfOk result.1 (λ said. said ≡ told) }
    ensures tells { MatchResult result.1
        (λ _. Appends (⟦<Telling<W> as Write>⟧.contents writer) (⟦<Telling<W> as Write>⟧.contents result.0)
        (bytes_told told))
        (λ e. (e ≡ Io.Write) × WritesSome (⟦<Telling<W> as Write>⟧.contents writer)
        (⟦<Telling<W> as Write>⟧.contents result.0) (bytes_told told)) }
    ensures fails { FailsWith (⟦<Telling<W> as Tell>⟧.writes writer).failed
        (⟦<Telling<W> as Tell>⟧.writes result.0).failed result.1 }
    ensures flushed { IfOk result.1 (λ _. (⟦<Telling<W> as Tell>⟧.writes result.0).unflushed ≡ []) }
    ensures in_time { KeepsTime time_for_order J.calls (⟦<Telling<W> as HasCalls>⟧.calls result.0) }
{
    let mut outcome: DeadlineWriter<ForOrder, J, W> = DeadlineWriter::new(writer);
    let told = tell(&mut outcome, told);
    (outcome.into_inner(), told)
}
