//! What is sent for an order, and how an order ends that no line can carry.
ghost use Rattle.std.specs.Prelude.{◌≡◌, option_copied};
ghost use Rattle.orders.specs.Order.{ordered};
ghost use Rattle.commands.specs.Order as spec;
ghost use Rattle.commands.specs.SentOrder.{refusal_by, unsaid};

use crate::refusal::CommandRefusal;
use orders::{Order, RegistryCommand};
use world::names::{is_key, is_team_name};

/// What is sent for a group whose name breaks the rule: no group has this name either.
const NO_NAME: &str = "?";

/// Returns the order to send for another: one that is equivalent in every world.
pub(crate) fn sendable<'a>(order: &Order<'a>) -> Order<'a>
    ensures { spec.IsAlike order.now result }
{
    match order {
        Order::Registry(command) => Order::Registry(with_sendable_group(command)),
        other => *other,
    }
}

/// Returns the registry command to send for another: one that is equivalent in every world, and whose group can stand
/// in a line. No refusal is right in every world for a team of a group that no line can carry: if the team is there it
/// is `Taken`, otherwise `NoGroup`.
fn with_sendable_group<'a>(command: &RegistryCommand<'a>) -> RegistryCommand<'a>
    ensures { spec.IsSentFor command.now result }
{
    match command {
        RegistryCommand::TeamAdd { name, group } => RegistryCommand::TeamAdd {
            name,
            group: group_to_send(*group),
        },
        other => *other,
    }
}

/// The group that is sent for another: `NO_NAME` for one whose name breaks the rule.
fn group_to_send<'a>(group: Option<&'a str>) -> Option<&'a str>
    ensures { option_copied result ≡ spec.group_sent (option_copied group.entry) }
{
    match group {
        Some(name) => Some(if is_team_name(name) { name } else { NO_NAME }),
        None => None,
    }
}

/// Why an order is refused that no line can carry: a name, the key or the path in it breaks its rule, so no shelf has
/// that name, and none the key. A team's group is never the reason, since the one that is sent can stand in a line.
pub(crate) fn unsayable(order: &Order) -> CommandRefusal
    ensures { result ≡ unsaid (ordered order.now) }
{
    match order {
        Order::Registry(RegistryCommand::TeamAdd { .. } | RegistryCommand::GroupAdd { .. })
        | Order::Copy(_) => CommandRefusal::Name,
        Order::Registry(RegistryCommand::KeyAdd { key, .. }) => {
            refused_unless(is_key(key), CommandRefusal::NoTeam)
        }
        Order::Registry(RegistryCommand::KeysRevoke { .. }) => CommandRefusal::NoTeam,
        Order::Registry(RegistryCommand::KeyRevoke { .. })
        | Order::Catalog(_)
        | Order::RevokeByFingerprint(_) => CommandRefusal::NoKey,
        // (these have a line)
        Order::Stop | Order::Ping | Order::List(_) => CommandRefusal::Io,
    }
}

/// Returns `refusal` if the name is valid, otherwise `Name`.
fn refused_unless(keeps: bool, refusal: CommandRefusal) -> CommandRefusal
    ensures { result ≡ refusal_by keeps refusal }
{
    if keeps { refusal } else { CommandRefusal::Name }
}
