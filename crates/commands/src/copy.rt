//! Waiting for the copy that a running `serve` was ordered to make.
ghost use Rattle.std.specs.Prelude.{◌≡◌, ◌≤◌, true, IfErr, OnOk, vec_capacity, vec_len};
ghost use Rattle.orders.specs.Order.{ordered};
ghost use Rattle.control.specs.Asking.{OrderGets, extent_of};
ghost use Rattle.control.specs.Line.{HearsReply, LacksRoom, ReadsReply};
ghost use Rattle.control.specs.declared.line.Extent.TheVariants.{Line};
ghost use Rattle.commands.specs.Connection.{IsAll, PingsBetween, pings_after};

use crate::copy_progress::copy_progress;
use crate::progress::{Progress, StderrLine};
use control::{
    Came, Extent, OrderReply, ReadError, SendError, hear_on, reply_to, send, send_order,
};
use histories::{Hear, Tell};
use network::servers::{Servers, Wait};
use orders::Order;
use std::alloc::Global;

/// Sends the order of a copy, and returns the reply, however long that takes. Each time that a read is late, and if
/// there is a line, it may ask the server that listens at `control` how far the copy is, and show that.
pub(crate) fn order_copy<R: Hear, W: Tell, V: Servers<R, W>>(
    alloc: Global,
    servers: &mut V,
    control: &str,
    line: &Option<StderrLine<'_>>,
    reader: &mut R,
    writer: &mut W,
    order: &Order,
) -> Result<OrderReply, SendError>
    ensures gets { extent_of (ordered order.now) ≡ Line → OrderGets true
        (R.account reader.old) (R.account reader.new) (R.reads reader.old) (R.reads reader.new)
        (W.contents writer.old) (W.contents writer.new) (W.writes writer.old).failed (W.writes writer.new).failed
        (ordered order.now) result }
    ensures between { PingsBetween
        (λ link passed. IsAll (R.account link.reader) (R.reads link.reader)
        (W.contents link.writer) (W.writes link.writer).failed passed)
        (V.history servers.old) (V.history servers.new) control.now
        (R.reads reader.old).failed (R.reads reader.new).failed }
{
    let mut got = match send_order(alloc, writer, order) {
        Ok(room) => room,
        Err(why) => return Err(why),
    };
    let read = await_line(alloc, servers, control, line, reader, &mut got);
    if let Some(line) = line {
        line.clear();
    }
    reply_to(order, got, read)
}

/// Reads the line of an outcome. Each time that a read is late or interrupted, it shows how far the copy is. Fails with
/// `Io` if a read breaks or `u64::MAX` reads are not enough, and with `Memory` if memory runs out.
fn await_line<R: Hear, W: Tell, V: Servers<R, W>>(
    alloc: Global,
    servers: &mut V,
    control: &str,
    line: &Option<StderrLine<'_>>,
    reader: &mut R,
    got: &mut Vec<u8>,
) -> Result<(), ReadError>
    ensures reads { OnOk result (ReadsReply Line
        (R.account reader.old) (R.account reader.new) got.old.items got.new.items) }
    // It fails with `Io` just if a read broke, or all that there are began or failed.
    ensures hears { HearsReply true (R.reads reader.old) (R.reads reader.new) result }
    ensures memory { IfErr result (λ why. why ≡ ReadError.Memory
        → LacksRoom Line (vec_capacity got.old) (vec_len got.old)) }
    ensures between { PingsBetween
        (λ link passed. IsAll (R.account link.reader) (R.reads link.reader)
        (W.contents link.writer) (W.writes link.writer).failed passed)
        (V.history servers.old) (V.history servers.new) control.now
        (R.reads reader.old).failed (R.reads reader.new).failed }
{
    for _ in 0..u64::MAX {
        match hear_on(reader, got, Extent::Line)? {
            Came::All => return Ok(()),
            came => show(alloc, servers, control, line, came),
        }
    }
    Err(ReadError::Io)
}

/// Shows how far the copy is, if nothing came, there is a line, a second has passed since the last one, and the server
/// answers.
fn show<R: Hear, W: Tell, V: Servers<R, W>>(
    alloc: Global,
    servers: &mut V,
    control: &str,
    line: &Option<StderrLine<'_>>,
    came: Came,
)
    ensures { PingsBetween
        (λ link passed. IsAll (R.account link.reader) (R.reads link.reader)
        (W.contents link.writer) (W.writes link.writer).failed passed)
        (V.history servers.old) (V.history servers.new) control.now 0 (pings_after came) }
{
    let (Some(line), Came::Interrupted | Came::Late) = (line, came) else {
        return;
    };
    if line.is_due() {
        if let Some(progress) = how_far(alloc, servers, control) {
            line.draw(&progress);
        }
    }
}

/// Asks the server how far the copy is. None if it does not answer in time, or does not say.
fn how_far<R: Hear, W: Tell, V: Servers<R, W>>(
    alloc: Global,
    servers: &mut V,
    control: &str,
) -> Option<Progress>
    ensures { PingsBetween
        (λ link passed. IsAll (R.account link.reader) (R.reads link.reader)
        (W.contents link.writer) (W.writes link.writer).failed passed)
        (V.history servers.old) (V.history servers.new) control.now 0 1 }
{
    match servers.connect(control, Wait::Second) {
        Ok(mut link) => {
            let told = send(alloc, &mut link.reader, &mut link.writer, &Order::Ping);
            servers.end(link);
            progress_of(told)
        }
        Err(_) => None,
    }
}

/// Returns how far a copy is, by the reply to a ping. None if that does not say.
fn progress_of(told: Result<OrderReply, SendError>) -> Option<Progress> {
    match told {
        Ok(OrderReply::Text(health)) => match str::from_utf8(health.as_slice()) {
            Ok(health) => copy_progress(health),
            Err(_) => None,
        },
        _ => None,
    }
}
