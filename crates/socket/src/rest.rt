//! Dropping what a peer sends after its message.
ghost use Rattle.std.specs.Prelude.{◌≡◌, ℕ, List, Some, true};
ghost use Rattle.wire.specs.Reply.{fixed_status};
ghost use Rattle.wire.specs.declared.reply.Fixed.{Fixed};
ghost use Rattle.engine.specs.Served.{IsClosing};
ghost use Rattle.histories.specs.Stopping.{WaitsIf};
ghost use Rattle.histories.specs.Timing.{KeepsTime};
ghost use Rattle.socket.specs.Pace.{time_for_rest};
ghost use Rattle.socket.specs.Rest.{DropsRest, leaves_rest};

use crate::bounds::MOST_DROPPED;
use crate::pace::ForRest;
use histories::{BoundRead, DeadlineReader, HasCalls, Hear, Hearing, Start};
use std::marker::Brand;

/// Whether a message that got this status may be only partly read: 400, 413 and 503 also close a stream.
#[tactic(auto, using(crate::proofs::RestLemmas::closing_leaves))]
fn leaves_a_rest(status: u16) -> bool
    ensures exact { result ≡ leaves_rest status }
    ensures closing { (rest : List ℕ) (reply : Fixed) → IsClosing rest (Some reply) → status ≡ fixed_status reply
        → result ≡ true }
{
    status == 400 || status == 413 || status == 503
}

/// Drops what the peer sent after the message that was answered with this status; also what it still sends if its
/// message may be only partly read. Ends early if a call of the system fails, or if a read would wait that may not.
pub(crate) fn drop_rest<R: BoundRead + Drop>(reader: Hearing<R>, status: u16) -> Hearing<R>
    ensures in_time { KeepsTime time_for_rest
        (⟦<Hearing<R> as HasCalls>⟧.calls reader) (⟦<Hearing<R> as HasCalls>⟧.calls result) }
    ensures drops { DropsRest
        (⟦<Hearing<R> as Hear>⟧.account reader, ⟦<Hearing<R> as Hear>⟧.reads reader)
        (⟦<Hearing<R> as Hear>⟧.account result, ⟦<Hearing<R> as Hear>⟧.reads result) }
    // Reads wait only for what a peer still sends whose message may be only partly read.
    ensures waits { WaitsIf (leaves_rest status)
        (⟦<Hearing<R> as HasCalls>⟧.calls reader) (⟦<Hearing<R> as HasCalls>⟧.calls result) }
{
    drop_rest_since::<Brand, R>(reader, status)
}

/// Drops as `drop_rest` does.
fn drop_rest_since<K: Start, R: BoundRead + Drop>(reader: Hearing<R>, status: u16) -> Hearing<R>
    requires calls { ⟦<Hearing<R> as HasCalls>⟧.calls reader ≡ K.calls }
    requires waits { K.may_wait ≡ leaves_rest status }
    ensures in_time { KeepsTime time_for_rest K.calls (⟦<Hearing<R> as HasCalls>⟧.calls result) }
    ensures drops { DropsRest
        (⟦<Hearing<R> as Hear>⟧.account reader, ⟦<Hearing<R> as Hear>⟧.reads reader)
        (⟦<Hearing<R> as Hear>⟧.account result, ⟦<Hearing<R> as Hear>⟧.reads result) }
    ensures waits { WaitsIf (leaves_rest status) K.calls (⟦<Hearing<R> as HasCalls>⟧.calls result) }
{
    if leaves_a_rest(status) {
        let mut rest: DeadlineReader<ForRest, K, R> = DeadlineReader::new(reader);
        skip(&mut rest);
        return rest.into_inner();
    }
    let here: Result<DeadlineReader<ForRest, K, R>, Hearing<R>> = DeadlineReader::at_once(reader);
    match here {
        Ok(mut here) => {
            skip(&mut here);
            here.into_inner()
        }
        Err(reader) => reader,
    }
}

/// Reads and drops the bytes of a reader, at most `MOST_DROPPED`, until there are no more or a read fails.
fn skip<R: Hear>(reader: &mut R)
    ensures { DropsRest (R.account reader.old, R.reads reader.old) (R.account reader.new, R.reads reader.new) }
{
    let mut chunk = [0; 16_384];
    let mut left = MOST_DROPPED;
    while left > 0 {
        let room = chunk.len().min(left);
        match reader.hear(&mut chunk[..room]) {
            Ok(0) | Err(_) => return,
            Ok(n) => left -= n,
        }
    }
}
