//! The registry commands: teams, groups and keys.
ghost use Rattle.commands.specs.Ending.{Registers, RevokesNamed};

use crate::refusal::{CommandRefusal, ending};
use control::carry_out;
use keyring::Keyring;
use keyring::revoke::revoke_with;
use orders::RegistryCommand;
use std::alloc::Global;
use world::shelves::Shelves;

/// Carries out a registry command as the machine does. Adding a team fails with `Name`, `Taken` or `NoGroup`, a group
/// with `Name` or `Taken`, and a key with `Name`, `NoTeam` or `Taken`; revoking a key fails with `NoKey`, and all keys
/// of a shelf with `NoTeam`; and each with a fault of the store. A command that fails changes nothing.
pub fn register<S: Shelves>(
    shelves: &mut S,
    command: &RegistryCommand,
) -> Result<(), CommandRefusal>
    ensures { Registers (S.shown shelves.old) (S.shown shelves.new) command.now result }
{
    let told = carry_out(shelves, command);
    ending(told)
}

/// Revokes the key that has a fingerprint or a SHA-256. Fails with `NoKey` if no key has it or several have, and with a
/// fault of the store, and then changes nothing.
pub fn revoke_by_fingerprint<S: Keyring>(
    alloc: Global,
    shelves: &mut S,
    fingerprint: &str,
) -> Result<(), CommandRefusal>
    ensures { RevokesNamed (S.shown shelves.old) (S.shown shelves.new) fingerprint.now result }
{
    let told = revoke_with(alloc, shelves, fingerprint);
    ending(told)
}
