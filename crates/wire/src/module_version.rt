//! Module paths and versions in targets: in their escaped forms, before and after `/@`.
ghost use Rattle.std.specs.Prelude.{◌≡◌, None, Some, IfOk, MatchOption, option_map};
ghost use Rattle.std.specs.Cow.{cow_str_bytes};
ghost use Rattle.std.specs.List.{list_all};
ghost use Rattle.wire.specs.ModuleVersion.{around, cut_of, module_version_of, path_of, plain_of};
ghost use Rattle.wire.specs.ModuleVersion.{stands_for_itself, version_from};

use framing::Memory;
use modpath::{EscapeFault, ModulePath, PathError, unescape};
use modver::{Version, VersionFault};
use std::alloc::Global;
use std::borrow::CowStr;

/// A module path and a version of it.
#[derive(Drop)]
pub(crate) struct ModuleVersion {
    pub(crate) path: ModulePath,
    pub(crate) version: Version,
}

/// Returns the texts before and after the first `byte` in a text, or `None` if there is none.
#[tactic(auto, unfolding(crate::specs::ModuleVersion::around))]
fn split_at_byte(text: &[u8], byte: u8) -> Option<(&[u8], &[u8])>
    ensures { MatchOption result (around byte text.now ≡ None)
        (λ halves. around byte text.now ≡ Some (halves.0.now, halves.1.now)) }
{
    let at = text.iter().position(|b| *b == byte)?;
    Some((&text[..at], &text[at + 1..]))
}

/// Returns the texts before and after `/@`, or `None` if the text has no `@` or no slash directly before the first one.
/// It cuts at the first `@`, because no module path contains one.
#[tactic(auto, unfolding(crate::specs::ModuleVersion::cut_of))]
pub(crate) fn cut(text: &[u8]) -> Option<(&[u8], &[u8])>
    ensures { MatchOption result (cut_of text.now ≡ None)
        (λ halves. cut_of text.now ≡ Some (halves.0.now, halves.1.now)) }
{
    let (front, back) = split_at_byte(text, b'@')?;
    let path = front.strip_suffix(b"/")?;
    Some((path, back))
}

/// Returns the module path before `/@v/` and the version after it, or `None` if the text does not have this form. It
/// fails only if memory runs out.
#[tactic(auto, unfolding(crate::specs::ModuleVersion::module_version_of))]
pub(crate) fn read_module_version(
    alloc: Global,
    text: &[u8],
) -> Result<Option<ModuleVersion>, Memory>
    ensures { IfOk result (λ found. found ≡ module_version_of text.now) }
{
    let Some((path, asked)) = cut(text) else {
        return Ok(None);
    };
    let Some(version) = asked.strip_prefix(b"v/") else {
        return Ok(None);
    };
    let Some(path) = read_path(alloc, path)? else {
        return Ok(None);
    };
    let Some(version) = read_version(alloc, version)? else {
        return Ok(None);
    };
    Ok(Some(ModuleVersion { path, version }))
}

/// Returns the module path whose escaped form the bytes are, or `None` if there is none. It fails only if memory runs
/// out.
pub(crate) fn read_path(alloc: Global, bytes: &[u8]) -> Result<Option<ModulePath>, Memory>
    ensures { IfOk result (λ found. found ≡ path_of bytes.now) }
{
    let Some(plain) = read_plain(alloc, bytes)? else {
        return Ok(None);
    };
    match ModulePath::parse(alloc, plain.as_str()) {
        Ok(path) => Ok(Some(path)),
        Err(PathError::Memory) => Err(Memory),
        Err(PathError::Fault(_)) => Ok(None),
    }
}

/// Returns the version whose escaped form the bytes are, or `None` if there is none. It fails only if memory runs out.
pub(crate) fn read_version(alloc: Global, bytes: &[u8]) -> Result<Option<Version>, Memory>
    ensures { IfOk result (λ found. found ≡ version_from bytes.now) }
{
    let Some(plain) = read_plain(alloc, bytes)? else {
        return Ok(None);
    };
    match Version::parse(alloc, plain.as_str()) {
        Ok(version) => Ok(Some(version)),
        Err(VersionFault::Form) => Ok(None),
        Err(VersionFault::Build) => Ok(None),
        Err(VersionFault::TooLong) => Ok(None),
        Err(VersionFault::Memory) => Err(Memory),
    }
}

/// Returns the text whose escaped form the bytes are, or `None` if there is none. If each byte is its own escaped form,
/// the text is borrowed; otherwise it is a new string. It fails only if memory runs out.
fn read_plain(alloc: Global, bytes: &[u8]) -> Result<Option<CowStr<'_>>, Memory>
    ensures { IfOk result (λ found. option_map cow_str_bytes found ≡ plain_of bytes.now) }
{
    let Ok(text) = str::from_utf8(bytes) else {
        return Ok(None);
    };
    if stand_for_themselves(bytes) {
        return Ok(Some(CowStr::Borrowed(text)));
    }
    match unescape(alloc, text) {
        Ok(plain) => Ok(Some(CowStr::Owned(plain))),
        Err(EscapeFault::Upper) => Ok(None),
        Err(EscapeFault::Bang) => Ok(None),
        Err(EscapeFault::Memory) => Err(Memory),
    }
}

/// Whether each byte is its own escaped form: none is a `!` or an upper-case letter.
fn stand_for_themselves(bytes: &[u8]) -> bool
    ensures { result ≡ list_all stands_for_itself bytes.now }
{
    bytes.iter().all(|b| *b != b'!' && !b.is_ascii_uppercase())
}
