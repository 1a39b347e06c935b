//! A command that a running `serve` carries out: it connects once, sends its order, and ends as the reply says.
ghost use Rattle.std.specs.Prelude.{◌≡◌, ◌⊎◌, [], IfErr, MatchResult, OnOk};
ghost use Rattle.orders.specs.Order.{ordered};
ghost use Rattle.control.specs.Asking.{OrderGets};
ghost use Rattle.network.specs.History.{Fails};
ghost use Rattle.commands.specs.Connection.{Exchanges, IsAll, IsWaitFor, Meets, PingsIf, reads_on};
ghost use Rattle.commands.specs.Order as spec;
ghost use Rattle.commands.specs.Printed.{HasFailed};
ghost use Rattle.commands.specs.SentOrder.{Ends, IsFlushed};
ghost use Rattle.commands.specs.declared.refusal.CommandRefusal.TheVariants.{Device};

use crate::copy::order_copy;
use crate::order::{sendable, unsayable};
use crate::progress::StderrLine;
use crate::refusal::CommandRefusal;
use crate::sent_order::{ending, show};
use control::{OrderReply, SendError, send};
use histories::{Hear, Tell};
use network::servers::{Servers, Wait};
use orders::{Order, RegistryCommand};
use std::alloc::Global;
use world::bytes::Bytes;

/// Sends an order to the `serve` that listens at a socket, prints what it asks for, and returns true. It ends as the
/// same command does on the store of a file. An order that no line can carry ends as it would in any world, whether
/// somebody listens or not.
///
/// Fails with the refusals of that command. With `Device` also if nobody listens there or the system refuses the
/// connection. With `Memory` also if memory runs out here: for the line or its outcome, and then nothing is sent; or
/// for a health, a list or a catalog that came. With `Io` if a call of the connection failed, or what came is no reply
/// to the order, which may have been carried out then; or if the output failed: then a beginning of the text is
/// printed, or all of it. For a copy, if there is a line, it asks the server from time to time how far that is, over
/// other connections, and shows it.
pub fn send_at<R: Hear, W: Tell, V: Servers<R, W>, O: Tell>(
    alloc: Global,
    servers: &mut V,
    control: &str,
    order: &Order,
    line: Option<StderrLine<'_>>,
    output: &mut O,
) -> Result<bool, CommandRefusal>
    ensures sends { spec.SendsThere
        (λ link passed. IsAll (R.account link.reader) (R.reads link.reader)
        (W.contents link.writer) (W.writes link.writer).failed passed)
        (V.history servers.old) (V.history servers.new) control.now order.now
        (O.contents output.old) (O.contents output.new) result }
    // It fails only because of what came of the order, or because a call of the output failed.
    ensures cause { spec.FailsThere
        (λ link passed. IsAll (R.account link.reader) (R.reads link.reader)
        (W.contents link.writer) (W.writes link.writer).failed passed)
        (V.history servers.old) (V.history servers.new) control.now order.now
        (O.writes output.old) (O.writes output.new) result }
    // It prints all, or nothing, unless a call of the output failed.
    ensures whole { IfErr result (λ _. (O.contents output.new ≡ O.contents output.old)
        ⊎ HasFailed (O.writes output.old) (O.writes output.new)) }
    // What was printed is flushed.
    ensures flushed { OnOk result (IsFlushed (O.writes output.old) (O.writes output.new)) }
{
    let ended = ask_at(alloc, servers, control, order, line);
    show(ended, output)
}

/// Sends a registry command to the `serve` that listens at a socket. Fails as `send_at` does.
pub(crate) fn order_at<R: Hear, W: Tell, V: Servers<R, W>>(
    alloc: Global,
    servers: &mut V,
    path: &str,
    command: &RegistryCommand,
) -> Result<(), CommandRefusal>
    ensures { spec.OrdersAt
        (λ link passed. IsAll (R.account link.reader) (R.reads link.reader)
        (W.contents link.writer) (W.writes link.writer).failed passed)
        path.now (V.history servers.old) (V.history servers.new) command.now result }
{
    match ask_at(alloc, servers, path, &Order::Registry(*command), None) {
        Ok(_) => Ok(()),
        Err(refusal) => Err(refusal),
    }
}

/// Sends an order to the `serve` that listens at a socket, and returns what is to be printed, if something is. Fails as
/// `send_at` does before it prints.
fn ask_at<R: Hear, W: Tell, V: Servers<R, W>>(
    alloc: Global,
    servers: &mut V,
    control: &str,
    order: &Order,
    line: Option<StderrLine<'_>>,
) -> Result<Option<Bytes>, CommandRefusal>
    ensures { spec.SendsFor
        (λ link passed. IsAll (R.account link.reader) (R.reads link.reader)
        (W.contents link.writer) (W.writes link.writer).failed passed)
        (V.history servers.old) (V.history servers.new) control.now order.now result }
{
    let sent = sendable(order);
    if !sent.has_line() {
        return Err(unsayable(&sent));
    }
    match exchange_at(alloc, servers, control, &sent, line) {
        Ok(told) => ending(&sent, told),
        Err(refusal) => Err(refusal),
    }
}

/// Connects to the server, sends the order, and returns the reply. `Device` if it can't connect.
fn exchange_at<R: Hear, W: Tell, V: Servers<R, W>>(
    alloc: Global,
    servers: &mut V,
    control: &str,
    order: &Order,
    line: Option<StderrLine<'_>>,
) -> Result<Result<OrderReply, SendError>, CommandRefusal>
    ensures { MatchResult result
        (λ told. Meets (λ link passed. IsAll (R.account link.reader) (R.reads link.reader)
        (W.contents link.writer) (W.writes link.writer).failed passed)
        (V.history servers.old) (V.history servers.new) control.now (ordered order.now)
        (λ passed. Exchanges (ordered order.now) passed told))
        (λ refusal. (refusal ≡ Device) × Fails (V.history servers.old) (V.history servers.new) control.now) }
{
    match servers.connect(control, wait_for(order, &line)) {
        Ok(mut link) => {
            let told = exchange(
                alloc,
                servers,
                control,
                &line,
                &mut link.reader,
                &mut link.writer,
                order,
            );
            servers.end(link);
            Ok(told)
        }
        Err(_) => Err(CommandRefusal::Device),
    }
}

/// How long each read of a reply waits: for a copy or a catalog as long as it takes, but a second if the progress of
/// the copy is shown.
fn wait_for(order: &Order, line: &Option<StderrLine<'_>>) -> Wait
    ensures { IsWaitFor (ordered order.now) result }
{
    match (order, line) {
        (Order::Copy(_), Some(_)) => Wait::Second,
        (Order::Copy(_) | Order::Catalog(_), _) => Wait::Unbounded,
        _ => Wait::Minute,
    }
}

/// Sends the order over a connection, and returns the reply. While a copy is made, it may ask the server that listens
/// at `control` how far that is, and show it.
fn exchange<R: Hear, W: Tell, V: Servers<R, W>>(
    alloc: Global,
    servers: &mut V,
    control: &str,
    line: &Option<StderrLine<'_>>,
    reader: &mut R,
    writer: &mut W,
    order: &Order,
) -> Result<OrderReply, SendError>
    ensures gets { OrderGets (reads_on (ordered order.now))
        (R.account reader.old) (R.account reader.new) (R.reads reader.old) (R.reads reader.new)
        (W.contents writer.old) (W.contents writer.new) (W.writes writer.old).failed (W.writes writer.new).failed
        (ordered order.now) result }
    ensures between { PingsIf
        (λ link passed. IsAll (R.account link.reader) (R.reads link.reader)
        (W.contents link.writer) (W.writes link.writer).failed passed)
        (V.history servers.old) (V.history servers.new) control.now
        (R.reads reader.old).failed (R.reads reader.new).failed (ordered order.now) }
{
    match order {
        Order::Copy(_) => order_copy(alloc, servers, control, line, reader, writer, order),
        _ => send(alloc, reader, writer, order),
    }
}
