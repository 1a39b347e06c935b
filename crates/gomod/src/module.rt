//! What a go.mod file says.

ghost use Rattle.std.specs.Prelude.{◌≡◌, ◌↔◌, ◌&&◌, IfOk, IsTrue, IsUtf8, Err, map, option_copied};
ghost use Rattle.gomod.specs.Keywords.{profile_in_force};
ghost use Rattle.gomod.specs.Reading.{Gives, first_unfit, file_says, interval_of, text_says, reading};
ghost use Rattle.std.specs.List.{list_any};
ghost use Rattle.gomod.specs.Module.{IsRetracted, covers, go_version, is_retracted};
ghost use Rattle.gomod.specs.State.{state_of};
ghost use Rattle.modver.specs.Fits.{fits};

use super::coverage::{ascend, coverage};
use super::entries::{Requirement, Retraction};
use super::fault::GoModFault;
use super::reader::{Reader, read_line};
use modlex::cut_line;
use modpath::{ModulePath, Suffix, suffix};
use modver::{Bound, Version, fits_suffix};
use std::alloc::{AllocError, Global};
use std::marker::Model;
use text::Text;

/// What a go.mod file says. (Go Modules Reference, "go.mod files".)
#[derive(Drop)]
pub struct GoMod {
    path: ModulePath,
    go: Vec<Text>,
    required: Vec<Requirement>,
    retractions: Vec<Retraction>,
    bare: bool,
}

impl Model for GoMod {
    ghost use Rattle.std.specs.Prelude.{map};
    ghost use Rattle.gomod.specs.Module.{GoModule};
    ghost use Rattle.gomod.specs.Reading.{interval_of};

    ghost Value = { GoModule };

    ghost view = { λ m. record {
      path = m.path;
      go = m.go.items;
      required = m.required.items;
      retractions = map interval_of m.retractions.items;
      bare = m.bare;
    } };
}

impl GoMod {
    /// Reads a go.mod file. It fails with the first fault of the file, or with [`GoModFault::Memory`] if
    /// memory runs out, which cannot happen for bytes that are not UTF-8.
    #[tactic(auto, unfolding(crate::specs::Reading::reading))]
    pub fn read(alloc: Global, bytes: &[u8]) -> Result<GoMod, GoModFault>
        ensures value { Gives (λ m. m) result (reading profile_in_force bytes.now) }
        ensures memory { result ≡ Err GoModFault.Memory → IsUtf8 bytes.now }
    {
        let Ok(text) = str::from_utf8(bytes) else {
            return Err(GoModFault::Utf8);
        };
        read_text(alloc, text)
    }

    /// The module's path.
    pub fn module(&self) -> &ModulePath
        ensures { result.now ≡ self.now.path }
    {
        &self.path
    }

    /// The Go version that the file names, or `None` if it has no `go` directive. (Go Modules Reference, "go
    /// directive".)
    pub fn go_version(&self) -> Option<&Text>
        ensures { option_copied result ≡ go_version self.now }
    {
        self.go.first()
    }

    /// What the module requires, in the order of the file.
    /// The name is not `requires`, which is a keyword of the language.
    pub fn required(&self) -> &[Requirement]
        ensures { result.now ≡ self.now.required }
    {
        &self.required
    }

    /// Whether the module retracts a version. It takes no memory, and may compare the version with each
    /// retraction. For many versions that ascend by precedence, [`GoMod::retracted`] is faster.
    pub fn retracts(&self, version: &Version) -> bool
        ensures value { result ≡ is_retracted self.now version.now }
        ensures retracted { IsTrue result ↔ IsRetracted self.now version.now }
    {
        some_has(&self.retractions, version.bound())
    }

    /// Returns for each version whether the module retracts it. It fails only if memory runs out.
    /// If the versions ascend by precedence, it compares each retraction with few of them.
    pub fn retracted(&self, alloc: Global, versions: &[Version]) -> Result<Vec<bool>, AllocError>
        ensures { IfOk result (λ flags. flags.items ≡ map (is_retracted self.now) versions.now) }
    {
        if ascend(versions) {
            return coverage(alloc, &self.retractions, versions);
        }
        versions
            .iter()
            .map(|version| self.retracts(version))
            .collect(alloc)
    }

    /// Whether the module directive is the only directive.
    /// A block counts as a directive even if it is empty.
    pub fn is_bare(&self) -> bool
        ensures { result ≡ self.now.bare }
    {
        self.bare
    }
}

/// Whether a retraction contains a version.
fn some_has(retractions: &[Retraction], version: &Bound) -> bool
    ensures { result ≡ list_any (λ r. covers version.now (interval_of r)) retractions.now }
{
    retractions
        .iter()
        .any(|retraction| retraction.versions.has(version))
}

impl Retraction {
    /// Whether a path with this suffix may have the versions.
    fn fits(&self, suffix: Suffix) -> bool
        ensures { result ≡ (fits suffix self.now.versions.low && fits suffix self.now.versions.high) }
    {
        fits_suffix(suffix, &self.versions.low)
            && (self.versions.is_one() || fits_suffix(suffix, self.versions.high()))
    }
}

/// Returns the line of the first retraction with a version that the path may not have, or `None` if
/// there is no such retraction. It reads the suffix of the path once, because a file can have many
/// retractions.
#[tactic(auto, unfolding(crate::specs::Paths::fits_path))]
fn first_unfit(path: &ModulePath, retractions: &[Retraction]) -> Option<usize>
    ensures { result ≡ first_unfit path.now retractions.now }
{
    let suffix = suffix(path);
    for retraction in retractions {
        if !retraction.fits(suffix) {
            return Some(retraction.line);
        }
    }
    None
}

/// Returns what all lines say, the last of which has the number `last`. It fails with the first of:
/// [`GoModFault::Grammar`] if a block is open, [`GoModFault::NoModule`], [`GoModFault::Version`] of a
/// retraction that does not fit the path.
#[tactic(auto, unfolding(crate::specs::Reading::file_says))]
fn finish(reader: Reader, last: usize) -> Result<GoMod, GoModFault>
    ensures { Gives (λ m. m) result (file_says last (state_of reader)) }
{
    let Reader {
        block,
        module,
        go,
        once_only: _,
        required,
        retractions,
        bare,
    } = reader;
    if block.is_some() {
        return Err(GoModFault::Grammar(last));
    }
    let Some(path) = module else {
        return Err(GoModFault::NoModule);
    };
    if let Some(line) = first_unfit(&path, retractions.as_slice()) {
        return Err(GoModFault::Version(line));
    }
    Ok(GoMod {
        path,
        go,
        required,
        retractions,
        bare,
    })
}

fn read_text(alloc: Global, text: &str) -> Result<GoMod, GoModFault>
    ensures { Gives (λ m. m) result (text_says profile_in_force text.now) }
{
    let mut reader = Reader::new(alloc);
    let mut tokens = Vec::new(alloc);
    let mut line = 1;
    let mut rest = text;
    'lines: while let Some((first, behind)) = cut_line(rest) {
        read_line(&mut reader, &mut tokens, alloc, line, first)?;
        line += 1;
        rest = behind;
    }
    read_line(&mut reader, &mut tokens, alloc, line, rest)?;
    finish(reader, line)
}
