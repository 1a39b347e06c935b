//! Keys that are revoked by their fingerprint or their SHA-256, since whoever revokes one need not have it.
ghost use Rattle.std.specs.Prelude.{◌≡◌, IfOk, map as each};
ghost use Rattle.world.specs.Store.{Does, Reads};
ghost use Rattle.keyring.specs.Named.{keys_in};
ghost use Rattle.keyring.specs.Revoke as spec;

use crate::Keyring;
use crate::key_list::{fingerprint, hex_digest};
use std::alloc::{AllocError, Global};
use text::Text;
use world::registry::{RegistryReply, StoreFault};
use world::text_set::TextSet;

/// Takes away the key that has a fingerprint, or a SHA-256. Returns `Done`, or `NoKey` if no key has it or several
/// have. Fails if the store meets a fault or memory runs out, and then changes nothing.
pub fn revoke_with<S: Keyring>(
    alloc: Global,
    shelves: &mut S,
    fingerprint: &str,
) -> Result<RegistryReply, StoreFault>
    ensures does { Does (S.shown shelves.old) (S.shown shelves.new) result
        (λ w. spec.revoked_with w fingerprint.now) (λ w. spec.after_revoke_with w fingerprint.now) }
{
    match key_with(alloc, shelves, fingerprint)? {
        Some(key) => shelves.key_revoke(key.as_str()),
        None => Ok(RegistryReply::NoKey),
    }
}

/// Returns the key that has a fingerprint, or a SHA-256, or None if no key has it or several have. Fails if the store
/// meets a fault or memory runs out.
pub fn key_with<S: Keyring>(
    alloc: Global,
    shelves: &mut S,
    fingerprint: &str,
) -> Result<Option<Text>, StoreFault>
    ensures { Reads (S.shown shelves.old) (S.shown shelves.new) result
        (λ w. spec.only_with (keys_in w) fingerprint.now) }
{
    let keys = shelves.keys()?;
    Ok(only_with(alloc, &keys, fingerprint)?)
}

/// Returns the one key of these that has a fingerprint, or a SHA-256, or None if none has it or several have. Fails
/// only if memory runs out.
fn only_with(alloc: Global, keys: &TextSet, fingerprint: &str) -> Result<Option<Text>, AllocError>
    ensures { IfOk result (λ key. key ≡ spec.only_with keys.now fingerprint.now) }
{
    let found = all_with(alloc, keys, fingerprint)?;
    match found.as_slice() {
        [key] => Ok(Some(Text::copy_of(alloc, key)?)),
        _ => Ok(None),
    }
}

/// Returns the keys of these that have a fingerprint, or a SHA-256. Fails only if memory runs out.
fn all_with<'a>(alloc: Global, keys: &'a TextSet, wanted: &str) -> Result<Vec<&'a str>, AllocError>
    ensures { IfOk result (λ found. each (λ key. key.now) found.items ≡ spec.all_with keys.now wanted.now) }
{
    let mut found = Vec::new(alloc);
    for key in keys.iter() {
        if has(alloc, key.as_str(), wanted)? {
            found.push(key.as_str())?;
        }
    }
    Ok(found)
}

/// Whether a key has this fingerprint, or this SHA-256. Fails only if memory runs out.
fn has(alloc: Global, key: &str, wanted: &str) -> Result<bool, AllocError>
    ensures { IfOk result (λ is. is ≡ spec.has key.now wanted.now) }
{
    let fingerprint = fingerprint(alloc, key)?;
    let digest = hex_digest(alloc, key)?;
    Ok(fingerprint.as_str() == wanted || digest.as_str() == wanted)
}
