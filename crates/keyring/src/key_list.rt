//! The list of keys: whose each is, and what it may do. It shows no key, but its fingerprint and its SHA-256: either
//! names it.
ghost use Rattle.std.specs.Prelude.{◌≡◌, [], ◌∷◌, ◌++◌, IfOk, OnOk, string_bytes};
ghost use Rattle.std.specs.FinMap as map;
ghost use Rattle.keyring.specs.KeyList as spec;
ghost use Rattle.keyring.specs.Reading.{Adds};

use crate::Keyring;
use sha2::{Digest, Sha256};
use std::alloc::{AllocError, Global};
use text::Text;
use world::bytes::Bytes;
use world::entry::{Holder, Right};
use world::registry::StoreFault;

/// How many bytes of the SHA-256 of a key are in its fingerprint, which has two digits for each.
const FINGERPRINT_BYTES: usize = 8;

/// Returns a line `SHELF read FINGERPRINT SHA256` or `SHELF publish FINGERPRINT SHA256` for each key, in byte order.
/// Only the lines are held in memory. Fails if the store meets a fault or memory runs out.
pub fn list_keys<S: Keyring>(alloc: Global, shelves: &mut S) -> Result<Bytes, StoreFault>
    ensures { spec.ListsKeys (S.shown shelves.old) (S.shown shelves.new) result }
{
    let mut lines = Vec::new(alloc);
    add_keys(alloc, shelves, &mut lines)?;
    Ok(sorted_text(alloc, lines)?)
}

/// Returns the first 16 hexadecimal digits of the SHA-256 of a key. (FIPS 180-4.) Fails only if memory runs out.
pub fn fingerprint(alloc: Global, key: &str) -> Result<String, AllocError>
    ensures value { IfOk result (λ text. string_bytes text ≡ spec.fingerprint key.now) }
{
    let digest = Sha256::digest(key.as_bytes());
    hex::encode(alloc, &digest.as_slice()[..FINGERPRINT_BYTES])
}

/// Returns the 64 hexadecimal digits of the SHA-256 of a key. Fails only if memory runs out.
pub fn hex_digest(alloc: Global, key: &str) -> Result<String, AllocError>
    ensures value { IfOk result (λ text. string_bytes text ≡ spec.hex_digest key.now) }
{
    let digest = Sha256::digest(key.as_bytes());
    hex::encode(alloc, digest.as_slice())
}

/// Adds the lines of all keys.
fn add_keys<S: Keyring>(
    alloc: Global,
    shelves: &mut S,
    lines: &mut Vec<Text>,
) -> Result<(), StoreFault>
    ensures { Adds (S.shown shelves.old) (S.shown shelves.new) lines.old.items lines.new.items result spec.key_lines }
{
    let keys = shelves.keys()?;
    for key in keys.iter() {
        add_key(alloc, shelves, key.as_str(), lines)?;
    }
    Ok(())
}

/// Adds the line of a key, if there is such a key.
fn add_key<S: Keyring>(
    alloc: Global,
    shelves: &mut S,
    key: &str,
    lines: &mut Vec<Text>,
) -> Result<(), StoreFault>
    ensures { Adds (S.shown shelves.old) (S.shown shelves.new) lines.old.items lines.new.items result
        (λ w. spec.lines_of key.now (map.get w.keys key.now)) }
{
    let Some(holder) = shelves.key(key)? else {
        return Ok(());
    };
    let line = key_line(alloc, key, &holder)?;
    Ok(put(lines, line)?)
}

/// Puts a line behind others. Fails only if memory runs out.
fn put(lines: &mut Vec<Text>, line: Text) -> Result<(), AllocError>
    ensures { OnOk result (lines.new.items ≡ lines.old.items ++ line ∷ []) }
{
    lines.push(line)?;
    Ok(())
}

/// Returns the line of a key, with its end. Fails only if memory runs out.
fn key_line(alloc: Global, key: &str, holder: &Holder) -> Result<Text, AllocError>
    ensures value { IfOk result (λ line. line ≡ spec.key_line key.now holder.now) }
{
    let fingerprint = fingerprint(alloc, key)?;
    let digest = hex_digest(alloc, key)?;
    let mut line = String::from_str(alloc, holder.shelf.as_str())?;
    line.push_str(" ")?;
    line.push_str(right_word(holder.right))?;
    line.push_str(" ")?;
    line.push_str(fingerprint.as_str())?;
    line.push_str(" ")?;
    line.push_str(digest.as_str())?;
    line.push_str("\n")?;
    Ok(Text::new(line))
}

/// Returns the word of a right.
fn right_word(right: Right) -> &'static str
    ensures { result.now ≡ spec.right_word right }
{
    match right {
        Right::Reads => "read",
        Right::Publishes => "publish",
    }
}

/// Returns the lines in byte order, one after another. Fails only if memory runs out.
fn sorted_text(alloc: Global, lines: Vec<Text>) -> Result<Bytes, AllocError>
    ensures { IfOk result (λ text. spec.IsInOrder lines.items text) }
{
    let mut lines = lines;
    lines.sort()?;
    text_of(alloc, lines.as_slice())
}

/// Returns the lines, one after another. Fails only if memory runs out.
fn text_of(alloc: Global, lines: &[Text]) -> Result<Bytes, AllocError>
    ensures { IfOk result (λ text. text ≡ spec.text_of lines.now) }
{
    let mut text = Vec::new(alloc);
    for line in lines {
        text.extend_from_slice(line.as_str().as_bytes())?;
    }
    Ok(Bytes::new(text))
}
