//! A key that an operator names by its fingerprint or its SHA-256, since whoever revokes a key need not have it.
ghost use Rattle.control.specs.Naming.{RevokesNamed};

use crate::carry::carry_out_in;
use crate::copies::CopyOrders;
use crate::notice::ordered;
use crate::obeying::Done;
use crate::outcome::outcome_of;
use keyring::Keyring;
use keyring::revoke::key_with;
use orders::{Outcome, RegistryCommand};
use std::alloc::Global;
use world::registry::RegistryReply;

/// Looks up the key that has a fingerprint or a SHA-256, carries out the registry command that revokes it, with the
/// room that `copies` has if the disk is full, and returns the outcome: that of `RegistryReply::NoKey` if no key has it
/// or several have, and `Outcome::Failed` if the store meets a fault or memory runs out. A registry command is noted.
pub(crate) fn revoke_by_fingerprint<S: Keyring, K: CopyOrders<S>>(
    alloc: Global,
    shelves: &mut S,
    copies: &mut K,
    fingerprint: &str,
) -> Done<Outcome>
    ensures revokes { RevokesNamed (S.shown shelves.old) (S.shown shelves.new)
        (K.deeds copies.old) (K.deeds copies.new) fingerprint.now result.told result.noted }
    ensures rests { K.rests copies.old copies.new }
{
    match key_with(alloc, shelves, fingerprint) {
        Ok(Some(key)) => {
            let key = key.as_str();
            let told = carry_out_in(shelves, copies, &RegistryCommand::KeyRevoke { key });
            Done {
                told: outcome_of(told),
                noted: Some(ordered(alloc, &RegistryCommand::KeyRevoke { key }, told)),
            }
        }
        Ok(None) => Done {
            told: Outcome::RegistryReply(RegistryReply::NoKey),
            noted: None,
        },
        Err(fault) => Done {
            told: Outcome::Failed(fault),
            noted: None,
        },
    }
}
