//! The operator's side.
ghost use Rattle.std.specs.Prelude.{◌≡◌, ◌<◌, ◌≤◌, [], false, IfOk, MatchOption, length, take, vec_capacity, vec_len};
ghost use Rattle.orders.specs.Order.{Ping, ordered};
ghost use Rattle.control.specs.Asking as spec;
ghost use Rattle.control.specs.Line.{reply_room};
ghost use Rattle.control.specs.Listing.{AreLines};

use crate::health_text::is_health;
use crate::line::{Extent, REPLY_ROOM, ReadError, read_reply};
use engine::write::write_bytes;
use histories::{Hear, Tell};
use orders::{Order, Outcome, WriteError, read_outcome};
use std::alloc::{AllocError, Global};
use world::bytes::Bytes;
use world::registry::RegistryReply;

/// Why nothing is known of what came of an order.
#[derive(Clone, Copy, Debug, Drop, PartialEq, Eq)]
pub enum SendError {
    /// A name, the key or the path in the order has a space or the end of a line, or makes its line too long. Nothing
    /// was sent.
    Words,
    /// Memory ran out for the line, or for the room of its reply. Nothing was sent.
    Memory,
    /// A write failed, so that the line was not sent whole, or a read did, once it was. Whether the order was carried
    /// out is not known.
    Io,
    /// The line was sent, and what came is no reply to it.
    NoReply,
    /// The line was sent, and memory ran out for what came: a health, a list or a catalog, whose length has no bound.
    ReplyMemory,
}

impl From<WriteError> for SendError {
    ghost use Rattle.control.specs.Asking.{untold_for};

    ghost from_gives = { λ why untold. untold ≡ untold_for why };

    fn from(why: WriteError) -> SendError {
        match why {
            WriteError::Words => SendError::Words,
            WriteError::Memory => SendError::Memory,
        }
    }
}

impl From<AllocError> for SendError {
    ghost use Rattle.control.specs.declared.client.SendError.TheVariants.{Memory};

    ghost from_gives = { λ _ untold. untold ≡ Memory };

    fn from(_error: AllocError) -> SendError {
        SendError::Memory
    }
}

/// What came of an order.
#[derive(Drop)]
pub enum OrderReply {
    /// An outcome.
    Outcome(Outcome),
    /// The lines of a health, or those of a list or a catalog without the last one, which says that they are all.
    Text(Bytes),
}

/// Sends an order, and returns what came of it. A late read of the reply is the last.
pub fn send<R: Hear, W: Tell>(
    alloc: Global,
    reader: &mut R,
    writer: &mut W,
    order: &Order,
) -> Result<OrderReply, SendError>
    ensures { spec.OrderGets false (R.account reader.old) (R.account reader.new)
        (R.reads reader.old) (R.reads reader.new)
        (W.contents writer.old) (W.contents writer.new) (W.writes writer.old).failed (W.writes writer.new).failed
        (ordered order.now) result }
{
    let mut got = send_order(alloc, writer, order)?;
    let read = read_reply(reader, &mut got, extent_of(order));
    reply_to(order, got, read)
}

/// Sends the line of an order, of which the reply is still to be read, and returns room for the line of an outcome.
/// Fails with `Words` or `Memory` if nothing was sent, and with `Io` if the line was not sent whole.
pub fn send_order<W: Tell>(
    alloc: Global,
    writer: &mut W,
    order: &Order,
) -> Result<Vec<u8>, SendError>
    ensures sent { spec.IsSent (W.contents writer.old) (W.contents writer.new)
        (W.writes writer.old).failed (W.writes writer.new).failed (ordered order.now) result }
    ensures empty { IfOk result (λ room. (room.items ≡ []) × (vec_len room ≡ 0)) }
    ensures room { IfOk result (λ room. vec_capacity room ≡ reply_room) }
{
    let room = Vec::with_capacity(alloc, REPLY_ROOM)?;
    let line = order.write(alloc)?;
    match write_bytes(writer, line.as_bytes()) {
        Ok(()) => Ok(room),
        Err(_) => Err(SendError::Io),
    }
}

/// How much is read of the reply to an order.
fn extent_of(order: &Order) -> Extent
    ensures { result ≡ spec.extent_of (ordered order.now) }
{
    match order {
        Order::Ping | Order::List(_) | Order::Catalog(_) => Extent::Stream,
        Order::Stop | Order::Copy(_) | Order::RevokeByFingerprint(_) | Order::Registry(_) => {
            Extent::Line
        }
    }
}

/// Returns what came of an order by the bytes that were read, or why nothing is known of it.
pub fn reply_to(
    order: &Order,
    got: Vec<u8>,
    read: Result<(), ReadError>,
) -> Result<OrderReply, SendError>
    ensures { spec.RepliesBy (ordered order.now) got.items read result }
{
    match read {
        Ok(()) => match reply_in(order, got) {
            Some(reply) => Ok(reply),
            None => Err(SendError::NoReply),
        },
        Err(ReadError::Io) => Err(SendError::Io),
        Err(ReadError::Memory) => Err(SendError::ReplyMemory),
    }
}

/// Returns what the bytes tell of an order, or None if they are no reply to it.
fn reply_in(order: &Order, got: Vec<u8>) -> Option<OrderReply>
    ensures { spec.ReadsAs (ordered order.now) got.items result }
{
    match order {
        Order::Ping => health_in(got),
        Order::List(_) => listed_in(got, false),
        Order::Catalog(_) => listed_in(got, true),
        Order::Stop | Order::Copy(_) | Order::RevokeByFingerprint(_) | Order::Registry(_) => {
            outcome_in(&got)
        }
    }
}

/// Returns the outcome whose line the bytes are, or None if they are that of none.
fn outcome_in(got: &[u8]) -> Option<OrderReply>
    ensures { MatchOption result (spec.IsNoOutcomeIn got.now) (λ reply. spec.IsOutcomeIn reply got.now) }
{
    match read_outcome(got) {
        Some(outcome) => Some(OrderReply::Outcome(outcome)),
        None => None,
    }
}

/// Returns the lines of a health, or an outcome, if the bytes are these. Otherwise None.
fn health_in(got: Vec<u8>) -> Option<OrderReply>
    ensures { spec.ReadsAs Ping got.items result }
{
    if let Some(outcome) = read_outcome(&got) {
        return Some(OrderReply::Outcome(outcome));
    }
    if is_health(&got) {
        Some(OrderReply::Text(Bytes::new(got)))
    } else {
        None
    }
}

/// Returns the lines that the bytes are up to their last line, if that is `done`, or the outcome that is their last
/// line, if nothing is before it or the lines may be cut. Otherwise None.
fn listed_in(mut got: Vec<u8>, may_be_cut: bool) -> Option<OrderReply>
    ensures { MatchOption result (spec.IsNoList may_be_cut got.items)
        (λ reply. spec.IsListed may_be_cut reply got.items) }
{
    let at = last_line_at(&got);
    let Some(outcome) = read_outcome(&got[at..]) else {
        return None;
    };
    if is_done(outcome) {
        got.truncate(at);
        return Some(OrderReply::Text(Bytes::new(got)));
    }
    if may_be_cut {
        return Some(OrderReply::Outcome(outcome));
    }
    if at == 0 {
        Some(OrderReply::Outcome(outcome))
    } else {
        None
    }
}

/// Whether an outcome says that all was done.
fn is_done(outcome: Outcome) -> bool
    ensures { result ≡ spec.is_done outcome }
{
    match outcome {
        Outcome::RegistryReply(RegistryReply::Done) => true,
        Outcome::RegistryReply(
            RegistryReply::Name
            | RegistryReply::Taken
            | RegistryReply::NoTeam
            | RegistryReply::NoKey
            | RegistryReply::NoGroup,
        )
        | Outcome::Failed(_)
        | Outcome::NotEmpty
        | Outcome::Busy
        | Outcome::Ended
        | Outcome::Stopping
        | Outcome::Bad => false,
    }
}

/// Returns where the last line of a text begins, with its end or without.
fn last_line_at(text: &[u8]) -> usize
    ensures bound { result ≤ length text.now }
    ensures within { 0 < length text.now → result < length text.now }
    ensures lines { AreLines (take result text.now) }
    ensures last { spec.IsLastFrom result text.now }
{
    let mut at = text.len().saturating_sub(1);
    while at > 0 {
        if text[at - 1] == b'\n' {
            return at;
        }
        at -= 1;
    }
    0
}
