//! Carrying a registry command out.
ghost use Rattle.machine.specs.Machine.{after};
ghost use Rattle.world.specs.Store.{Does};
ghost use Rattle.control.specs.RegistryCommand.{event_of, outcome_in};
ghost use Rattle.control.specs.Reserve.{UsesRoom};

use crate::copies::CopyOrders;
use orders::RegistryCommand;
use world::registry::{RegistryReply, StoreFault};
use world::shelves::Shelves;

/// Carries out a registry command and returns the machine's reply: exactly the command's event happens. Fails if the
/// store meets a fault, and then no event happens.
pub fn carry_out<S: Shelves>(
    shelves: &mut S,
    command: &RegistryCommand,
) -> Result<RegistryReply, StoreFault>
    ensures does { Does (S.shown shelves.old) (S.shown shelves.new) result
        (λ w. outcome_in w command.now) (λ w. after w (event_of command.now)) }
{
    match command {
        RegistryCommand::TeamAdd { name, group } => shelves.team_add(name, *group),
        RegistryCommand::GroupAdd { name } => shelves.group_add(name),
        RegistryCommand::KeyAdd { shelf, key, right } => shelves.key_add(shelf, key, *right),
        RegistryCommand::KeyRevoke { key } => shelves.key_revoke(key),
        RegistryCommand::KeysRevoke { shelf } => shelves.keys_revoke(shelf),
    }
}

/// Carries out a registry command as [`carry_out`] does, once more if the disk failed and `copies` had room to give up.
/// It is one event, however often it is tried. Fails if the store meets a fault: with
/// `Device` only if no room was given up, or if the disk failed again with it.
pub fn carry_out_in<S: Shelves, K: CopyOrders<S>>(
    shelves: &mut S,
    copies: &mut K,
    command: &RegistryCommand,
) -> Result<RegistryReply, StoreFault>
    ensures does { Does (S.shown shelves.old) (S.shown shelves.new) result
        (λ w. outcome_in w command.now) (λ w. after w (event_of command.now)) }
    ensures room { UsesRoom (S.shown shelves.old) (S.shown shelves.new)
        (K.deeds copies.old) (K.deeds copies.new) result }
    ensures rests { K.rests copies.old copies.new }
{
    let first = carry_out(shelves, command);
    let Err(StoreFault::Device) = first else {
        return first;
    };
    if !copies.give_up_room() {
        return first;
    }
    carry_out(shelves, command)
}
