//! What is done for an order of an operator.
ghost use Rattle.std.specs.Prelude.{ℕ, ◌≡◌, List, [], None, IfOk, IfErr, MatchResult, OnOk};
ghost use Rattle.std.specs.Io.KnownBytes.{Appends};
ghost use Rattle.histories.specs.Account.{Account};
ghost use Rattle.engine.specs.Causes.{FailsWith};
ghost use Rattle.orders.specs.Order.{IsLineOf, Catalog};
ghost use Rattle.control.specs.Health.{IsPinged};
ghost use Rattle.control.specs.Hearing.{HandlesBy, IsAnsweredAtOnce, IsOrderIn, ObeysBy, TellsLine, WritesSome};
ghost use Rattle.control.specs.Hearing as spec;
ghost use Rattle.control.specs.Noted.{NotesTold};
ghost use Rattle.control.specs.Line.{ReadsLine};
ghost use Rattle.control.specs.Pinging.{TellsPing};
ghost use Rattle.control.specs.ControlReply.{IsOutcome, bytes_told};

use crate::carry::carry_out_in;
use crate::control_reply::ControlReply;
use crate::copies::{CatalogRefusal, CopyOrders};
use crate::listing::list;
use crate::naming::revoke_by_fingerprint;
use crate::notice::{Noted, answered, catalogued, copied, ordered};
use crate::outcome::{outcome_of, outcome_of_catalog, outcome_of_copy};
use crate::pinging::ping;
use crate::tally::Tally;
use engine::Io;
use engine::write::write_bytes;
use histories::{ResetDeadline, Tell};
use keyring::Keyring;
use orders::{Order, Outcome};
use std::alloc::Global;
use world::shelves::Shelves;

/// What an operator gets or was told, and what is noted of what was done for it.
#[derive(Drop)]
pub(crate) struct Done<T> {
    pub(crate) told: T,
    pub(crate) noted: Option<Noted>,
}

/// Prints the catalog of a key, writes what came of that, flushes it, and returns it.
pub(crate) fn print_for<W: ResetDeadline, S: Shelves, K: CopyOrders<S>>(
    alloc: Global,
    key: &str,
    writer: &mut W,
    shelves: &mut S,
    copies: &mut K,
) -> Done<Result<ControlReply, Io>>
    ensures obeys { (tally : Tally) (got : List ℕ) (came came_new : Account)
        → ReadsLine came came_new got → IsLineOf got (Catalog key.now)
        → ObeysBy S.shown K.made K.counted K.meanwhile K.rests K.deeds tally copies.old copies.new
        shelves.old shelves.new came came_new (W.contents writer.old) (W.contents writer.new)
        result.told result.noted }
    ensures outcome { IfOk result.told IsOutcome }
    // It fails only if a write or the flush failed.
    ensures which { IfErr result.told (λ e. e ≡ Io.Write) }
    ensures fails { FailsWith (W.writes writer.old).failed (W.writes writer.new).failed result.told }
    ensures flushed { IfOk result.told (λ _. (W.writes writer.new).unflushed ≡ []) }
{
    let told = copies.catalog_to(alloc, shelves, key, writer);
    if told == Err(CatalogRefusal::Output) {
        let cut = catalogued(alloc, key, Err(CatalogRefusal::Output));
        return Done {
            told: Err(Io::Write),
            noted: Some(cut),
        };
    }
    writer.restart();
    let said = tell(writer, ControlReply::Outcome(outcome_of_catalog(told)));
    let noted = catalogued(alloc, key, ended_for(&said, told));
    Done {
        told: said,
        noted: Some(noted),
    }
}

/// Returns how a catalog ended for an operator who was told this: the output failed if it was not told how it ended.
fn ended_for(
    said: &Result<ControlReply, Io>,
    told: Result<(), CatalogRefusal>,
) -> Result<(), CatalogRefusal>
    ensures { result ≡ spec.ended_for said.now told }
{
    match said {
        Ok(_) => told,
        Err(_) => Err(CatalogRefusal::Output),
    }
}

/// Does what an order asks for, or nothing if the line is no order, writes what came of it, flushes that, and returns
/// it. A catalog is not answered here but by [`print_for`].
pub(crate) fn answer<W: Tell, S: Keyring, K: CopyOrders<S>>(
    alloc: Global,
    order: Option<Order>,
    writer: &mut W,
    tally: &Tally,
    shelves: &mut S,
    copies: &mut K,
) -> Done<Result<ControlReply, Io>>
    requires { IsAnsweredAtOnce order }
    ensures obeys { (got : List ℕ) (came came_new : Account) → IsOrderIn got order.entry → ReadsLine came came_new got
        → ObeysBy S.shown K.made K.counted K.meanwhile K.rests K.deeds tally.now copies.old copies.new
        shelves.old shelves.new came came_new (W.contents writer.old) (W.contents writer.new)
        result.told result.noted }
    ensures figures { IfOk result.told (TellsPing (K.figured copies.old shelves.new) (IsPinged tally.now
        (S.shown shelves.old).failures (S.shown shelves.new).failures (K.counted shelves.old shelves.new))) }
    // It fails only if a write or the flush failed.
    ensures which { IfErr result.told (λ e. e ≡ Io.Write) }
    ensures fails { FailsWith (W.writes writer.old).failed (W.writes writer.new).failed result.told }
    ensures flushed { IfOk result.told (λ _. (W.writes writer.new).unflushed ≡ []) }
{
    let handled = handle(alloc, order, tally, shelves, copies);
    Done {
        told: tell(writer, handled.told),
        noted: handled.noted,
    }
}

/// Returns what is noted of an order: what was done, and the outcome that the operator was told if nothing was. A list
/// and the line of a ping are not noted: they change nothing.
pub(crate) fn note_told(
    alloc: Global,
    done: Option<Noted>,
    told: &Result<ControlReply, Io>,
) -> Option<Noted>
    ensures { NotesTold done told.now result }
{
    match done {
        Some(done) => Some(done),
        None => outcome_told(alloc, told),
    }
}

/// Returns what is noted of an order that did nothing: the outcome that the operator was told, if it was.
fn outcome_told(alloc: Global, told: &Result<ControlReply, Io>) -> Option<Noted>
    ensures { NotesTold None told.now result }
{
    match told {
        Ok(ControlReply::Outcome(outcome)) => Some(answered(alloc, *outcome)),
        Ok(ControlReply::Health(_)) => None,
        Ok(ControlReply::List(_)) => None,
        Err(_) => None,
    }
}

/// Writes what an operator gets, flushes it, and returns it.
pub(crate) fn tell<W: Tell>(writer: &mut W, told: ControlReply) -> Result<ControlReply, Io>
    ensures same { IfOk result (λ said. said ≡ told) }
    ensures tells { MatchResult result
        (λ _. Appends (W.contents writer.old) (W.contents writer.new) (bytes_told told))
        (λ e. (e ≡ Io.Write) × WritesSome (W.contents writer.old) (W.contents writer.new) (bytes_told told)) }
    ensures fails { FailsWith (W.writes writer.old).failed (W.writes writer.new).failed result }
    ensures flushed { IfOk result (λ _. (W.writes writer.new).unflushed ≡ []) }
{
    tell_line(writer, told.bytes())?;
    Ok(told)
}

/// Writes a line and flushes it. `Io::Write` if a write or the flush fails: then a beginning of the line was written,
/// or all of it.
fn tell_line<W: Tell>(writer: &mut W, line: &[u8]) -> Result<(), Io>
    ensures tells { TellsLine (W.contents writer.old) (W.contents writer.new) line.now result }
    ensures fails { FailsWith (W.writes writer.old).failed (W.writes writer.new).failed result }
    ensures flushed { OnOk result ((W.writes writer.new).unflushed ≡ []) }
{
    write_bytes(writer, line)?;
    match writer.settle() {
        Ok(()) => Ok(()),
        Err(_) => Err(Io::Write),
    }
}

/// Does what an order asks for, and returns what the operator gets, `Outcome::Bad` if the line is no order, and what is
/// noted of it.
fn handle<S: Keyring, K: CopyOrders<S>>(
    alloc: Global,
    order: Option<Order>,
    tally: &Tally,
    shelves: &mut S,
    copies: &mut K,
) -> Done<ControlReply>
    requires { IsAnsweredAtOnce order }
    ensures heeds { (got : List ℕ) → IsOrderIn got order.entry
        → HandlesBy S.shown K.made K.counted K.meanwhile K.rests K.deeds tally.now copies.old copies.new
        shelves.old shelves.new got [] result.told result.noted }
    ensures figures { TellsPing (K.figured copies.old shelves.new) (IsPinged tally.now (S.shown shelves.old).failures
        (S.shown shelves.new).failures (K.counted shelves.old shelves.new)) result.told }
{
    match order {
        Some(Order::Stop) => reply(ControlReply::Outcome(Outcome::Stopping), None),
        Some(Order::Ping) => reply(ping(alloc, tally, shelves, copies), None),
        Some(Order::Copy(path)) => {
            let told = copies.copy_to(shelves, path);
            reply_outcome(outcome_of_copy(told), Some(copied(alloc, path, told)))
        }
        Some(Order::List(listing)) => reply(list(alloc, shelves, listing), None),
        Some(Order::RevokeByFingerprint(fingerprint)) => {
            let done = revoke_by_fingerprint(alloc, shelves, copies, fingerprint);
            reply_outcome(done.told, done.noted)
        }
        Some(Order::Registry(command)) => {
            let told = carry_out_in(shelves, copies, &command);
            reply_outcome(outcome_of(told), Some(ordered(alloc, &command, told)))
        }
        Some(Order::Catalog(_)) => unreachable!(),
        None => reply(ControlReply::Outcome(Outcome::Bad), None),
    }
}

/// Returns what an operator gets, with what is noted.
fn reply(told: ControlReply, noted: Option<Noted>) -> Done<ControlReply>
    ensures told { result.told ≡ told }
    ensures noted { result.noted ≡ noted }
{
    Done { told, noted }
}

/// Returns that an operator gets an outcome, with what is noted.
fn reply_outcome(outcome: Outcome, noted: Option<Noted>) -> Done<ControlReply>
    ensures told { result.told ≡ ControlReply.Outcome outcome }
    ensures noted { result.noted ≡ noted }
{
    reply(ControlReply::Outcome(outcome), noted)
}
