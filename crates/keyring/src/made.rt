//! Keys that are made of random bytes.
ghost use Rattle.std.specs.Prelude.{◌≡◌, ◌<◌, IfOk};
ghost use Rattle.keyring.specs.Made as spec;

use std::alloc::{AllocError, Global};
use text::Text;

/// How many letters a key has that is made.
const KEY_LETTERS: usize = 26;

/// How many bytes give a letter: seven for each of the 36. The four others give none, since some letters would come
/// more often than others.
const BYTES: u8 = 252;

/// Returns the key that random bytes make: 26 of `a-z0-9`. None if they make fewer. Fails only if memory runs out.
pub fn key_of(alloc: Global, bytes: &[u8]) -> Result<Option<Text>, AllocError>
    ensures { IfOk result (λ key. key ≡ spec.key_of bytes.now) }
{
    let mut letters = letters_of(alloc, bytes)?;
    if letters.len() < KEY_LETTERS {
        return Ok(None);
    }
    letters.truncate(KEY_LETTERS);
    match String::from_utf8(letters) {
        Ok(key) => Ok(Some(Text::new(key))),
        Err(_) => Ok(None),
    }
}

/// Returns the letters that bytes give. Fails only if memory runs out.
fn letters_of(alloc: Global, bytes: &[u8]) -> Result<Vec<u8>, AllocError>
    ensures { IfOk result (λ letters. letters.items ≡ spec.letters_of bytes.now) }
{
    let mut letters = Vec::new(alloc);
    for byte in bytes {
        if *byte < BYTES {
            letters.push(letter(*byte % 36))?;
        }
    }
    Ok(letters)
}

/// Returns the letter of this number: `a` to `z`, and then `0` to `9`.
fn letter(number: u8) -> u8
    requires { number < 36 }
    ensures { result ≡ spec.letter number }
{
    if number < 26 {
        b'a' + number
    } else {
        b'0' + (number - 26)
    }
}
