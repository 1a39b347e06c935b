//! The line of a version. Calls here fail only if memory runs out. (RFC 8259.)
//!
//! No text in a line needs an escape: paths, versions, times, Go versions and hashes have no quotation mark, no
//! backslash and no control character. So each line is JSON ([`crate::laws::lines_are_json`]).
ghost use Rattle.std.specs.Prelude.{◌≡◌, ◌++◌, Some, codes, decimal, option_copied, OnOk};
ghost use Rattle.gosum.specs.Sum.{hash_of};
ghost use Rattle.catalog.specs.Line as spec;

use gomod::{GoMod, Requirement};
use gosum::h1_of_mod;
use itoa::Buffer;
use modpath::ModulePath;
use modver::{TimeText, Version};
use std::alloc::{AllocError, Global};
use text::Text;
use world::names::COMMON;
use world::reading::Reading;

/// What the path of a version says of it.
#[derive(Clone, Copy, Drop)]
pub(crate) struct Marks {
    /// The go.mod by which `@latest` goes retracts it.
    pub(crate) is_retracted: bool,
    /// `@latest` answers with it.
    pub(crate) is_latest: bool,
}

/// Appends a text.
pub(crate) fn push(line: &mut Vec<u8>, text: &str) -> Result<(), AllocError>
    ensures { OnOk result (line.new.items ≡ line.old.items ++ text.now) }
{
    line.extend_from_slice(text.as_bytes())?;
    Ok(())
}

/// Appends a member behind others: a name and a text.
fn push_text(line: &mut Vec<u8>, name: &str, text: &str) -> Result<(), AllocError>
    ensures { OnOk result (line.new.items ≡ line.old.items ++ spec.text_member name.now text.now) }
{
    push(line, ",\"")?;
    push(line, name)?;
    push(line, "\":\"")?;
    push(line, text)?;
    push(line, "\"")
}

/// Appends a member that is true, or nothing.
fn push_flag(line: &mut Vec<u8>, name: &str, flag: bool) -> Result<(), AllocError>
    ensures { OnOk result (line.new.items ≡ line.old.items ++ spec.flag_member name.now flag) }
{
    if !flag {
        return Ok(());
    }
    push(line, ",\"")?;
    push(line, name)?;
    push(line, "\":true")
}

/// Appends the path and the version.
pub(crate) fn push_names(
    line: &mut Vec<u8>,
    path: &ModulePath,
    version: &Version,
) -> Result<(), AllocError>
    ensures { OnOk result (line.new.items ≡ line.old.items ++ spec.names path.now version.now) }
{
    push(line, "{\"Path\":\"")?;
    push(line, path.as_str())?;
    push(line, "\"")?;
    push_text(line, "Version", version.as_str())
}

/// Appends the time, if there is one.
pub(crate) fn push_time(line: &mut Vec<u8>, time: &Option<TimeText>) -> Result<(), AllocError>
    ensures { OnOk result (line.new.items ≡ line.old.items ++ spec.maybe_member (codes "Time") time.now) }
{
    match time {
        Some(time) => push_text(line, "Time", time.as_str()),
        None => Ok(()),
    }
}

/// Appends what the path says of the version.
pub(crate) fn push_marks(line: &mut Vec<u8>, marks: Marks) -> Result<(), AllocError>
    ensures { OnOk result (line.new.items ≡ line.old.items ++ spec.marks_text marks) }
{
    push_flag(line, "Retracted", marks.is_retracted)?;
    push_flag(line, "Latest", marks.is_latest)
}

/// Appends what the go.mod says: nothing that it names or requires if it does not read.
pub(crate) fn push_gomod(alloc: Global, line: &mut Vec<u8>, gomod: &[u8]) -> Result<(), AllocError>
    ensures { OnOk result (line.new.items ≡ line.old.items ++ spec.gomod_text gomod.now) }
{
    match Reading::of(alloc, gomod)? {
        Reading::Module(module) => push_module(line, &module),
        Reading::Fault(_) => push(line, ",\"Require\":[]"),
    }
}

/// Appends the Go version of a go.mod, and what it requires, in its order.
fn push_module(line: &mut Vec<u8>, gomod: &GoMod) -> Result<(), AllocError>
    ensures { OnOk result (line.new.items ≡ line.old.items ++ spec.module_text (Some gomod.now)) }
{
    push_go_version(line, gomod.go_version())?;
    push(line, ",\"Require\":[")?;
    push_requirements(line, gomod.required())?;
    push(line, "]")
}

/// Appends the Go version, if there is one.
fn push_go_version(line: &mut Vec<u8>, version: Option<&Text>) -> Result<(), AllocError>
    ensures { OnOk result (line.new.items
        ≡ line.old.items ++ spec.maybe_member (codes "GoVersion") (option_copied version.entry)) }
{
    match version {
        Some(version) => push_text(line, "GoVersion", version.as_str()),
        None => Ok(()),
    }
}

/// Appends requirements, with a comma between two.
fn push_requirements(line: &mut Vec<u8>, required: &[Requirement]) -> Result<(), AllocError>
    ensures { OnOk result (line.new.items ≡ line.old.items ++ spec.requirements required.now) }
{
    let Some((first, others)) = required.split_first() else {
        return Ok(());
    };
    push_requirement(line, first)?;
    push_more(line, others)
}

/// Appends requirements behind another.
fn push_more(line: &mut Vec<u8>, others: &[Requirement]) -> Result<(), AllocError>
    ensures { OnOk result (line.new.items ≡ line.old.items ++ spec.more_requirements others.now) }
{
    for requirement in others {
        push_next(line, requirement)?;
    }
    Ok(())
}

/// Appends a requirement behind another.
fn push_next(line: &mut Vec<u8>, requirement: &Requirement) -> Result<(), AllocError>
    ensures { OnOk result (line.new.items ≡ line.old.items ++ (codes "," ++ spec.requirement requirement.now)) }
{
    push(line, ",")?;
    push_requirement(line, requirement)
}

/// Appends a requirement.
fn push_requirement(line: &mut Vec<u8>, requirement: &Requirement) -> Result<(), AllocError>
    ensures { OnOk result (line.new.items ≡ line.old.items ++ spec.requirement requirement.now) }
{
    push(line, "{\"Path\":\"")?;
    push(line, requirement.path.as_str())?;
    push(line, "\",\"Version\":\"")?;
    push(line, requirement.version.as_str())?;
    push(line, "\"}")
}

/// Returns the word for whose version it is: the shelf's own, its group's or that of common.
pub(crate) fn home(shelf: &str, owner: &str) -> &'static str
    ensures { result.now ≡ spec.home shelf.now owner.now }
{
    if owner == shelf {
        "own"
    } else if owner == COMMON {
        "common"
    } else {
        "group"
    }
}

/// Appends whose version it is, the hash of its go.mod, the length of its zip, and the end of the line.
pub(crate) fn push_sums(
    alloc: Global,
    line: &mut Vec<u8>,
    owner: &str,
    gomod: &[u8],
    zip_bytes: usize,
) -> Result<(), AllocError>
    ensures { OnOk result (line.new.items ≡ line.old.items ++ spec.sums owner.now gomod.now zip_bytes) }
{
    push_text(line, "Shelf", owner)?;
    push_hash(alloc, line, gomod)?;
    push_length(line, zip_bytes)
}

/// Appends the hash of a go.mod.
fn push_hash(alloc: Global, line: &mut Vec<u8>, gomod: &[u8]) -> Result<(), AllocError>
    ensures { OnOk result (line.new.items
        ≡ line.old.items ++ spec.text_member (codes "GoModSum") (hash_of gomod.now)) }
{
    let hash = h1_of_mod(alloc, gomod)?;
    push_text(line, "GoModSum", hash.as_str())
}

/// Appends the length of a zip, and the end of the line.
fn push_length(line: &mut Vec<u8>, zip_bytes: usize) -> Result<(), AllocError>
    ensures { OnOk result (line.new.items
        ≡ line.old.items ++ (codes ",\"ZipSize\":" ++ (decimal zip_bytes ++ codes "}\n"))) }
{
    let mut digits = Buffer::new();
    push(line, ",\"ZipSize\":")?;
    push(line, digits.format(zip_bytes))?;
    push(line, "}\n")
}
