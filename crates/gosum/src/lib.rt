//! The `h1` hash of a go.mod and its go.sum line. (Go Modules Reference, "go.sum files".)
//!
//! The hash of a go.mod is that of a folder with this one file. The SHA-256 of the bytes in lower-case hexadecimal,
//! two spaces, `go.mod` and a newline make one line of 73 bytes. The hash is `h1:` and the SHA-256 of that line in
//! padded base64, 47 bytes.
//!
//! | go.mod | hash |
//! |---|---|
//! | `module example.com/lib` and a newline | `h1:4OAnUP7RpKJ0hg7ydNi+A/luktLxx7xSrw0c+FeAtlc=` |
#![tactic(auto)]

ghost use Rattle.std.specs.Prelude.{◌≡◌, IfOk, string_bytes};
ghost use Rattle.modver.specs.SemanticVersion.{version_text};
ghost use Rattle.gosum.specs.Sum.{file_line, hash_of, go_sum_line};

use base64::engine::general_purpose::STANDARD;
use modpath::ModulePath;
use modver::Version;
use sha2::{Digest, Sha256};
use std::alloc::{AllocError, Global};

/// Returns the `h1` hash of a go.mod: 47 bytes of ASCII. It fails only if memory runs out.
pub fn h1_of_mod(alloc: Global, gomod: &[u8]) -> Result<String, AllocError>
    ensures value { IfOk result (λ hash. string_bytes hash ≡ hash_of gomod.now) }
{
    let line = file_line(alloc, gomod)?;
    let digest = Sha256::digest(line.as_bytes());
    let mut hash = String::from_str(alloc, "h1:")?;
    STANDARD.encode_string(digest.as_slice(), &mut hash)?;
    Ok(hash)
}

/// Returns the line whose SHA-256 makes the hash. It fails only if memory runs out.
fn file_line(alloc: Global, gomod: &[u8]) -> Result<String, AllocError>
    ensures { IfOk result (λ line. string_bytes line ≡ file_line gomod.now) }
{
    let digest = Sha256::digest(gomod);
    let mut line = hex::encode(alloc, digest.as_slice())?;
    line.push_str("  go.mod\n")?;
    Ok(line)
}

/// Returns the go.sum line of the go.mod of a version, without a newline: the path, a space, the version,
/// `/go.mod`, a space and the hash. It fails only if memory runs out.
pub fn sum_line(
    alloc: Global,
    path: &ModulePath,
    version: &Version,
    gomod: &[u8],
) -> Result<String, AllocError>
    ensures value { IfOk result (λ line.
        string_bytes line ≡ go_sum_line path.now (version_text version.now) gomod.now) }
{
    let hash = h1_of_mod(alloc, gomod)?;
    let mut line = String::from_str(alloc, path.as_str())?;
    line.push_str(" ")?;
    line.push_str(version.as_str())?;
    line.push_str("/go.mod ")?;
    line.push_str(hash.as_str())?;
    Ok(line)
}
