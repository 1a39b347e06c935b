//! How a command ends that sends an order to a running `serve`.
ghost use Rattle.std.specs.Prelude.{◌≡◌, ◌⊎◌, IfErr, OnOk};
ghost use Rattle.orders.specs.Order.{ordered};
ghost use Rattle.commands.specs.Printed.{HasFailed};
ghost use Rattle.commands.specs.SentOrder as spec;

use crate::order::unsayable;
use crate::refusal::{CommandRefusal, ending as registry_ending};
use crate::report::print_text;
use control::{OrderReply, SendError};
use histories::Tell;
use orders::{Order, Outcome};
use world::bytes::Bytes;
use world::registry::RegistryReply;

/// Returns how a command ends by the reply to its order: with a text to print, with nothing, or refused.
pub(crate) fn ending(
    order: &Order,
    told: Result<OrderReply, SendError>,
) -> Result<Option<Bytes>, CommandRefusal>
    ensures { result ≡ spec.ending_of (ordered order.now) told }
{
    match told {
        Ok(OrderReply::Text(text)) => Ok(Some(text)),
        Ok(OrderReply::Outcome(outcome)) => match order_ending(order, outcome) {
            Ok(()) => Ok(None),
            Err(refusal) => Err(refusal),
        },
        Err(why) => Err(untold_ending(unsayable(order), why)),
    }
}

/// Returns how a command ends by the outcome of its order: with `Io` if the order cannot have it.
fn order_ending(order: &Order, outcome: Outcome) -> Result<(), CommandRefusal>
    ensures { result ≡ spec.order_ending (ordered order.now) outcome }
{
    if may_have(order, outcome) {
        outcome_ending(outcome)
    } else {
        Err(CommandRefusal::Io)
    }
}

/// Whether an order may have an outcome. Where it asks for a text, `done` only ends that.
fn may_have(order: &Order, outcome: Outcome) -> bool
    ensures { result ≡ spec.may_have (ordered order.now) outcome }
{
    match outcome {
        Outcome::Failed(_) => true,
        Outcome::RegistryReply(RegistryReply::NoKey) => {
            matches!(
                order,
                Order::Registry(_) | Order::RevokeByFingerprint(_) | Order::Catalog(_)
            )
        }
        Outcome::RegistryReply(RegistryReply::Done) => {
            matches!(
                order,
                Order::Registry(_) | Order::RevokeByFingerprint(_) | Order::Copy(_)
            )
        }
        Outcome::RegistryReply(_) => {
            matches!(order, Order::Registry(_) | Order::RevokeByFingerprint(_))
        }
        Outcome::NotEmpty => matches!(order, Order::Copy(_)),
        Outcome::Busy | Outcome::Ended => matches!(order, Order::Copy(_) | Order::Catalog(_)),
        Outcome::Stopping => matches!(order, Order::Stop),
        Outcome::Bad => false,
    }
}

/// Returns how a command ends by an outcome of its order.
fn outcome_ending(outcome: Outcome) -> Result<(), CommandRefusal>
    ensures { result ≡ spec.outcome_ending outcome }
{
    match outcome {
        Outcome::RegistryReply(reply) => registry_ending(Ok(reply)),
        Outcome::Failed(fault) => registry_ending(Err(fault)),
        Outcome::NotEmpty => Err(CommandRefusal::NotEmpty),
        Outcome::Busy => Err(CommandRefusal::Busy),
        Outcome::Ended => Err(CommandRefusal::Ended),
        Outcome::Stopping => Ok(()),
        Outcome::Bad => Err(CommandRefusal::Io),
    }
}

/// Returns why a command is refused that got no reply to its order: `unsayable` if no line can carry the order,
/// `Memory` if memory ran out before anything was sent or for the reply, and otherwise `Io`.
fn untold_ending(unsayable: CommandRefusal, why: SendError) -> CommandRefusal
    ensures { result ≡ spec.untold_ending unsayable why }
{
    match why {
        SendError::Words => unsayable,
        SendError::Memory | SendError::ReplyMemory => CommandRefusal::Memory,
        SendError::Io | SendError::NoReply => CommandRefusal::Io,
    }
}

/// Prints the text with which a command ends, if there is one, and returns true, or fails with its refusal. `Io` if the
/// output fails.
pub(crate) fn show<O: Tell>(
    ended: Result<Option<Bytes>, CommandRefusal>,
    output: &mut O,
) -> Result<bool, CommandRefusal>
    ensures shows { spec.Shows (O.contents output.old) (O.contents output.new) result ended }
    ensures cause { spec.FailsFor (O.writes output.old) (O.writes output.new) result ended }
    ensures whole { IfErr result (λ _. (O.contents output.new ≡ O.contents output.old)
        ⊎ HasFailed (O.writes output.old) (O.writes output.new)) }
    ensures flushed { OnOk result (spec.IsFlushed (O.writes output.old) (O.writes output.new)) }
{
    match ended {
        Ok(Some(text)) => print_text(text.as_slice(), output),
        Ok(None) => Ok(true),
        Err(refusal) => Err(refusal),
    }
}
