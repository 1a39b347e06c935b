//! A key that is made, added and printed.
ghost use Rattle.std.specs.Prelude.{◌≡◌, [], IfErr, OnOk};
ghost use Rattle.network.specs.declared.servers.Link.{Link};
ghost use Rattle.commands.specs.Connection.{IsAll};
ghost use Rattle.commands.specs.Ending.{Registers};
ghost use Rattle.commands.specs.NewKey as spec;
ghost use Rattle.commands.specs.Order.{OrdersAt};
ghost use Rattle.commands.specs.Printed.{FailsUnprinted, HasFailed};

use crate::printing::print_both;
use crate::random_bytes::{RandomBytes, SystemRandomBytes};
use crate::refusal::CommandRefusal;
use crate::registry::register;
use crate::remote::order_at;
use histories::{Hear, Tell};
use keyring::made::key_of;
use network::servers::Servers;
use orders::RegistryCommand;
use std::alloc::Global;
use std::rt::HostRuntime;
use text::Text;
use world::entry::Right;
use world::shelves::Shelves;

/// Makes a key of random bytes, adds it to a shelf, as `key-add` adds one that is named, and then prints it on a line.
/// Fails as `key-add` does, and with `Io` if there are no random bytes or they make no key: then no key is added or
/// printed. If the output fails, the key is revoked, and it fails with `Io`; if that can't be done, it fails with the
/// reason, `Device` or `Memory`, and the key stays.
pub fn add_new<B: RandomBytes, S: Shelves, O: Tell>(
    alloc: Global,
    random: &mut B,
    shelves: &mut S,
    shelf: &str,
    right: Right,
    output: &mut O,
) -> Result<(), CommandRefusal>
    ensures adds { spec.AddsNew S.shown (B.drawn random.old) (B.drawn random.new) shelves.old shelves.new
        shelf.entry right (O.contents output.old) (O.contents output.new) result }
    // It ends with `Io` only if there are no random bytes, they make no key, or a call of the output failed.
    ensures cause { spec.HasCause result (spec.HasNoKey (B.drawn random.old) (B.drawn random.new)
        (O.writes output.old) (O.writes output.new)) }
    // If it fails, it printed nothing, unless a call of the output failed.
    ensures whole { FailsUnprinted (O.contents output.old) (O.contents output.new)
        (O.writes output.old) (O.writes output.new) result }
    // What was printed is flushed.
    ensures flushed { OnOk result ((O.writes output.new).unflushed ≡ []) }
{
    let key = drawn_key(alloc, random)?;
    add_key(shelves, shelf, right, key.as_str(), output)
}

/// Makes a key of the system's randomness, orders the `serve` that listens at a socket to add it to a shelf, and then
/// prints it on a line. Fails as `order_new` does.
pub fn order_new_at<R: Hear, W: Tell, V: Servers<R, W>, O: Tell>(
    rt: &HostRuntime,
    servers: &mut V,
    path: &str,
    shelf: &str,
    right: Right,
    output: &mut O,
) -> Result<(), CommandRefusal>
    ensures orders { spec.OrdersNew
        (λ link passed. IsAll (R.account link.reader) (R.reads link.reader)
        (W.contents link.writer) (W.writes link.writer).failed passed)
        path.now (V.history servers.old) (V.history servers.new) shelf.entry right
        (O.contents output.old) (O.contents output.new) result }
    // It ends with `Io` as `order_new` does.
    ensures cause { spec.HasCause result (spec.HasNoNewKey
        (λ link passed. IsAll (R.account link.reader) (R.reads link.reader)
        (W.contents link.writer) (W.writes link.writer).failed passed)
        path.now shelf.entry right (V.history servers.old) (V.history servers.new)
        (O.writes output.old) (O.writes output.new)) }
    // If it fails, it printed nothing, unless a call of the output failed.
    ensures whole { FailsUnprinted (O.contents output.old) (O.contents output.new)
        (O.writes output.old) (O.writes output.new) result }
    // What was printed is flushed.
    ensures flushed { OnOk result ((O.writes output.new).unflushed ≡ []) }
{
    order_new(
        rt.alloc(),
        &mut SystemRandomBytes::new(rt),
        servers,
        path,
        shelf,
        right,
        output,
    )
}

/// Makes a key of random bytes, orders the `serve` that listens at a socket to add it to a shelf, and then prints it on
/// a line. Fails as `order_at` does, and with `Io` or `Memory` if there are no random bytes, they make no key, or
/// memory runs out for it: then no key is printed, and none is added, but perhaps after `Io` of the order. If the
/// output fails, the server is ordered to revoke the key, and it fails with `Io`; if that order fails, it fails as that
/// does, and the key may stay.
pub fn order_new<B: RandomBytes, R: Hear, W: Tell, V: Servers<R, W>, O: Tell>(
    alloc: Global,
    random: &mut B,
    servers: &mut V,
    path: &str,
    shelf: &str,
    right: Right,
    output: &mut O,
) -> Result<(), CommandRefusal>
    ensures orders { spec.OrdersDrawn
        (λ (link : Link R W) passed. IsAll (R.account link.reader) (R.reads link.reader)
        (W.contents link.writer) (W.writes link.writer).failed passed)
        path.now (V.history servers.old) (V.history servers.new) (B.drawn random.old) (B.drawn random.new)
        shelf.entry right (O.contents output.old) (O.contents output.new) result }
    // It ends with `Io` only if there are no random bytes, they make no key, a call of the output failed, or the order
    // to add the key ended so and no other followed.
    ensures cause { spec.HasCause result (spec.HasNoKeyOrOrder
        (λ (link : Link R W) passed. IsAll (R.account link.reader) (R.reads link.reader)
        (W.contents link.writer) (W.writes link.writer).failed passed)
        path.now shelf.entry right (V.history servers.old) (V.history servers.new)
        (B.drawn random.old) (B.drawn random.new) (O.writes output.old) (O.writes output.new)) }
    // If it fails, it printed nothing, unless a call of the output failed.
    ensures whole { FailsUnprinted (O.contents output.old) (O.contents output.new)
        (O.writes output.old) (O.writes output.new) result }
    // What was printed is flushed.
    ensures flushed { OnOk result ((O.writes output.new).unflushed ≡ []) }
{
    let key = drawn_key(alloc, random)?;
    order_key(alloc, servers, path, shelf, right, key.as_str(), output)
}

/// Returns a key that is made of random bytes. `Io` if there are none or they make no key, and `Memory` if memory runs
/// out.
fn drawn_key<B: RandomBytes>(alloc: Global, random: &mut B) -> Result<Text, CommandRefusal>
    ensures { spec.DrawsKey (B.drawn random.old) (B.drawn random.new) result }
{
    match random.draw() {
        Ok(bytes) => made_key(alloc, &bytes),
        Err(_) => Err(CommandRefusal::Io),
    }
}

/// Adds a key to a shelf, and prints it on a line. A key that can't be printed is revoked. Fails as `add_new` does.
fn add_key<S: Shelves, O: Tell>(
    shelves: &mut S,
    shelf: &str,
    right: Right,
    key: &str,
    output: &mut O,
) -> Result<(), CommandRefusal>
    ensures adds { spec.AddsKey (λ old new order ended. Registers (S.shown old) (S.shown new) order ended)
        shelf.entry right key.entry shelves.old shelves.new (O.contents output.old) (O.contents output.new) result }
    ensures cause { spec.HasCause result (HasFailed (O.writes output.old) (O.writes output.new)) }
    ensures whole { FailsUnprinted (O.contents output.old) (O.contents output.new)
        (O.writes output.old) (O.writes output.new) result }
    ensures flushed { OnOk result ((O.writes output.new).unflushed ≡ []) }
{
    if let Err(refusal) = register(shelves, &RegistryCommand::KeyAdd { shelf, key, right }) {
        return Err(refusal);
    }
    match print_both(key.as_bytes(), b"\n", output) {
        Ok(()) => Ok(()),
        Err(_) => Err(unprinted(register(shelves, &RegistryCommand::KeyRevoke { key }))),
    }
}

/// Orders a `serve` to add a key to a shelf, and prints it on a line. A key that can't be printed is to be revoked.
/// Fails as `order_new` does.
fn order_key<R: Hear, W: Tell, V: Servers<R, W>, O: Tell>(
    alloc: Global,
    servers: &mut V,
    path: &str,
    shelf: &str,
    right: Right,
    key: &str,
    output: &mut O,
) -> Result<(), CommandRefusal>
    ensures orders { spec.AddsKey (OrdersAt
        (λ (link : Link R W) passed. IsAll (R.account link.reader) (R.reads link.reader)
        (W.contents link.writer) (W.writes link.writer).failed passed)
        path.now) shelf.entry right key.entry (V.history servers.old) (V.history servers.new)
        (O.contents output.old) (O.contents output.new) result }
    ensures cause { spec.HasCause result (spec.FailsOr (spec.EndsWithIo (OrdersAt
        (λ (link : Link R W) passed. IsAll (R.account link.reader) (R.reads link.reader)
        (W.contents link.writer) (W.writes link.writer).failed passed)
        path.now) shelf.entry right (V.history servers.old) (V.history servers.new))
        (O.writes output.old) (O.writes output.new)) }
    ensures whole { FailsUnprinted (O.contents output.old) (O.contents output.new)
        (O.writes output.old) (O.writes output.new) result }
    ensures flushed { OnOk result ((O.writes output.new).unflushed ≡ []) }
{
    if let Err(refusal) = order_at(
        alloc,
        servers,
        path,
        &RegistryCommand::KeyAdd { shelf, key, right },
    ) {
        return Err(refusal);
    }
    match print_both(key.as_bytes(), b"\n", output) {
        Ok(()) => Ok(()),
        Err(_) => Err(unprinted(order_at(
            alloc,
            servers,
            path,
            &RegistryCommand::KeyRevoke { key },
        ))),
    }
}

/// Returns how a command ends whose key can't be printed, by how the revocation of the key ended: `Io` if it is
/// revoked, and otherwise why it is not.
fn unprinted(revoked: Result<(), CommandRefusal>) -> CommandRefusal
    ensures { result ≡ spec.unprinted revoked }
{
    match revoked {
        Ok(()) => CommandRefusal::Io,
        Err(refusal) => refusal,
    }
}

/// Returns the key that the bytes make. `Memory` if memory runs out, and `Io` if they make none.
fn made_key(alloc: Global, bytes: &[u8]) -> Result<Text, CommandRefusal>
    ensures { spec.MakesKey bytes.now result }
{
    match key_of(alloc, bytes) {
        Ok(Some(key)) => Ok(key),
        Ok(None) => Err(CommandRefusal::Io),
        Err(_) => Err(CommandRefusal::Memory),
    }
}
