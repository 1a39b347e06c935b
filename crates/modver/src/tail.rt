//! The end of the key of order of a version, which comes from its pre-release, and what a bound keeps of it in memory.

ghost use Rattle.std.specs.Prelude.{get_or, ◌≡◌, ◌<◌, ◌≤◌, ◌++◌, length, OnOk};
ghost use Rattle.modver.specs.Keys.{AreBytes, head_of, identifier_key, padded, pre_release_key};
ghost use Rattle.modver.specs.Parts.{identifiers_of};
ghost use Rattle.modver.specs.SemanticVersion.{is_numeric};

use std::alloc::AllocError;

/// What a bound keeps in memory of a version with the mark, or of one whose key ends in more than 8 bytes.
#[derive(Drop)]
pub(crate) struct Tail {
    /// The end of the key of order, whose bytes compare as the identifiers do, in less time.
    pub(crate) key: Vec<u8>,
    pub(crate) marked: bool,
}

/// The head of a release, whose key of order ends in `03` alone.
pub(crate) const RELEASE_HEAD: u64 = 3 << 56;

/// Returns the first 8 bytes of a key as a number, whose highest byte is the first. Bytes that the key lacks are 0.
pub(crate) fn head_of(key: &[u8]) -> u64
    ensures value { result ≡ head_of key.now }
    ensures bytes { AreBytes (padded 8 key.now) }
{
    u64::from_be_bytes([
        byte_at(key, 0),
        byte_at(key, 1),
        byte_at(key, 2),
        byte_at(key, 3),
        byte_at(key, 4),
        byte_at(key, 5),
        byte_at(key, 6),
        byte_at(key, 7),
    ])
}

/// Returns a byte of a key, or 0 if the key is shorter.
fn byte_at(key: &[u8], index: usize) -> u8
    ensures value { result ≡ get_or key.now index 0 }
    ensures bound { get_or key.now index 0 < 256 }
{
    match key.get(index) {
        Some(byte) => *byte,
        None => 0,
    }
}

/// Appends the identifiers of a pre-release and their end to a key, or the `03` of a release if there are none.
pub(crate) fn push_pre_release(key: &mut Vec<u8>, pre_release: &[u8]) -> Result<(), AllocError>
    requires { length pre_release.now ≤ 128 }
    ensures { OnOk result (key.new.items ≡ key.old.items ++ pre_release_key (identifiers_of pre_release.now)) }
{
    if pre_release.is_empty() {
        key.push(3)?;
        return Ok(());
    }
    for identifier in pre_release.split(|byte| *byte == b'.') {
        push_identifier(key, identifier)?;
    }
    key.push(0)?;
    Ok(())
}

/// Appends an identifier to a key.
/// The number of its digits fits a byte, because a version has at most 128 bytes.
fn push_identifier(key: &mut Vec<u8>, identifier: &[u8]) -> Result<(), AllocError>
    requires { length identifier.now < 256 }
    ensures { OnOk result (key.new.items ≡ key.old.items ++ identifier_key identifier.now) }
{
    if is_numeric(identifier) {
        key.push(1)?;
        key.push(identifier.len() as u8)?;
        key.extend_from_slice(identifier)?;
        Ok(())
    } else {
        key.push(2)?;
        key.extend_from_slice(identifier)?;
        key.push(0)?;
        Ok(())
    }
}

/// Whether an identifier has only digits.
fn is_numeric(identifier: &[u8]) -> bool
    ensures { result ≡ is_numeric identifier.now }
{
    identifier.iter().all(|byte| byte.is_ascii_digit())
}
