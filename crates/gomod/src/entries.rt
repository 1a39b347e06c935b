//! The entries of directives: their forms, and the values of their words. Each function for an entry fails with
//! [`GoModFault::Grammar`] for another form, otherwise with the fault of the leftmost wrong word, or with
//! [`GoModFault::Memory`] if memory runs out.

ghost use Rattle.std.specs.Prelude.{◌≡◌, ℕ, List};
ghost use Rattle.modlex.specs.Symbols.{symbol, symbols};
ghost use Rattle.modpath.specs.Path.{suffix_of};
ghost use Rattle.gomod.specs.Paths.{is_path, is_loose_path, is_below};
ghost use Rattle.gomod.specs.Reading.{Gives, path_word, version_fault, version_word, fitting_word};
ghost use Rattle.gomod.specs.Reading.{module_entry, go_entry};
ghost use Rattle.gomod.specs.Reading.{word_entry, pair, pair_entry, old_path, old_version, new_file};
ghost use Rattle.gomod.specs.Reading.{new_version, replace_three};
ghost use Rattle.gomod.specs.Reading.{replace_four, replace_five, replace_entry, are_interval_kinds};
ghost use Rattle.gomod.specs.Reading.{interval, retract_entry};

use super::fault::GoModFault;
use super::go_version::{is_file_path, is_go_version};
use super::interval::Interval;
use modlex::{Token, TokenKind};
use modpath::{LoosePath, ModulePath, PathError, Suffix, loose_suffix, suffix};
use modver::{Bound, Version, VersionFault, compare_bounds, fits_suffix};
use std::alloc::Global;
use text::Text;

/// A version of a module that another module requires. (Go Modules Reference, "require directive".)
#[derive(Drop)]
pub struct Requirement {
    pub path: LoosePath,
    pub version: Version,
}

/// The versions that a module retracts on one line. (Go Modules Reference, "retract directive".)
/// A go.mod of 1,048,576 bytes can hold nearly 150,000 of them.
/// Contracts of `GoMod` see the versions without the line, which only faults need.
#[derive(Drop)]
pub(crate) struct Retraction {
    pub(crate) line: usize,
    pub(crate) versions: Interval,
}

#[tactic(auto, unfolding(crate::specs::Paths::is_path))]
fn module_path(alloc: Global, line: usize, word: &Token) -> Result<ModulePath, GoModFault>
    ensures { Gives (λ p. p) result (path_word line is_path (symbol word.now)) }
{
    let text = word.value(alloc)?;
    match ModulePath::parse(alloc, text.as_str()) {
        Ok(path) => Ok(path),
        Err(PathError::Fault(_)) => Err(GoModFault::Path(line)),
        Err(PathError::Memory) => Err(GoModFault::Memory),
    }
}

#[tactic(auto, unfolding(crate::specs::Paths::is_loose_path))]
fn loose_path(alloc: Global, line: usize, word: &Token) -> Result<LoosePath, GoModFault>
    ensures { Gives (λ p. p) result (path_word line is_loose_path (symbol word.now)) }
{
    let text = word.value(alloc)?;
    match LoosePath::parse(alloc, text.as_str()) {
        Ok(path) => Ok(path),
        Err(PathError::Fault(_)) => Err(GoModFault::Path(line)),
        Err(PathError::Memory) => Err(GoModFault::Memory),
    }
}

fn version(alloc: Global, line: usize, word: &Token) -> Result<Version, GoModFault>
    ensures { Gives (λ v. v) result (version_word line (symbol word.now)) }
{
    let text = word.value(alloc)?;
    match Version::parse(alloc, text.as_str()) {
        Ok(version) => Ok(version),
        Err(fault) => Err(version_fault(line, fault)),
    }
}

fn bound(alloc: Global, line: usize, word: &Token) -> Result<Bound, GoModFault>
    ensures { Gives (λ v. v) result (version_word line (symbol word.now)) }
{
    let text = word.value(alloc)?;
    match Bound::parse(alloc, text.as_str()) {
        Ok(bound) => Ok(bound),
        Err(fault) => Err(version_fault(line, fault)),
    }
}

/// The fault of a line for the fault of a word that is not a version.
fn version_fault(line: usize, fault: VersionFault) -> GoModFault
    ensures { result ≡ version_fault line fault }
{
    match fault {
        VersionFault::Memory => GoModFault::Memory,
        VersionFault::Form | VersionFault::Build | VersionFault::TooLong => {
            GoModFault::Version(line)
        }
    }
}

/// Whether one version is below another by precedence.
#[tactic(auto, unfolding(crate::specs::Paths::is_below))]
pub(crate) fn is_below(left: &Bound, right: &Bound) -> bool
    ensures { result ≡ is_below left.now right.now }
{
    compare_bounds(left, right).is_lt()
}

/// Returns the version that `word` names. It fails with [`GoModFault::Version`] if `word` is not a
/// version or a path with this suffix may not have it, and with [`GoModFault::Memory`] if memory runs out.
#[tactic(auto, unfolding(crate::specs::Reading::fitting_word, crate::specs::Paths::fits_path))]
fn fitting(alloc: Global, line: usize, suffix: Suffix, word: &Token) -> Result<Version, GoModFault>
    ensures { (path : List ℕ) → suffix ≡ suffix_of path
        → Gives (λ v. v) result (fitting_word line path (symbol word.now)) }
{
    let version = version(alloc, line, word)?;
    if fits_suffix(suffix, version.bound()) {
        Ok(version)
    } else {
        Err(GoModFault::Version(line))
    }
}

/// Reads an entry of `module`: a module path.
#[tactic(auto, unfolding(crate::specs::Reading::module_entry))]
pub(crate) fn module_entry(
    alloc: Global,
    line: usize,
    tokens: &[Token],
) -> Result<ModulePath, GoModFault>
    ensures { Gives (λ p. p) result (module_entry line (symbols tokens.now)) }
{
    match tokens {
        [word] if word.is_word() => module_path(alloc, line, word),
        _ => Err(GoModFault::Grammar(line)),
    }
}

/// Reads an entry of `go`: a Go version.
#[tactic(auto, unfolding(crate::specs::Reading::go_entry))]
pub(crate) fn go_entry(alloc: Global, line: usize, tokens: &[Token]) -> Result<Text, GoModFault>
    ensures { Gives (λ v. v) result (go_entry line (symbols tokens.now)) }
{
    match tokens {
        [word] if word.is_word() => {
            let text = word.value(alloc)?;
            if is_go_version(text.as_bytes()) {
                Ok(Text::copy_of(alloc, text.as_str())?)
            } else {
                Err(GoModFault::GoVersion(line))
            }
        }
        _ => Err(GoModFault::Grammar(line)),
    }
}

/// Checks an entry of `toolchain`, `tool`, `godebug` or `ignore`: one word, which may be any word.
/// The word may be empty, a string, or one that the go command refuses.
#[tactic(auto, unfolding(crate::specs::Reading::word_entry))]
pub(crate) fn word_entry(line: usize, tokens: &[Token]) -> Result<(), GoModFault>
    ensures { result ≡ word_entry line (symbols tokens.now) }
{
    match tokens {
        [word] if word.is_word() => Ok(()),
        _ => Err(GoModFault::Grammar(line)),
    }
}

#[tactic(auto, unfolding(crate::specs::Reading::pair))]
fn pair(
    alloc: Global,
    line: usize,
    first: &Token,
    second: &Token,
) -> Result<Requirement, GoModFault>
    ensures { Gives (λ r. r) result (pair line (symbol first.now) (symbol second.now)) }
{
    let path = loose_path(alloc, line, first)?;
    let version = fitting(alloc, line, loose_suffix(&path), second)?;
    Ok(Requirement { path, version })
}

/// Reads an entry of `require` or `exclude`: a loose path, and a version that it may have.
#[tactic(auto, unfolding(crate::specs::Reading::pair_entry))]
pub(crate) fn pair_entry(
    alloc: Global,
    line: usize,
    tokens: &[Token],
) -> Result<Requirement, GoModFault>
    ensures { Gives (λ r. r) result (pair_entry line (symbols tokens.now)) }
{
    match tokens {
        [first, second] if first.is_word() && second.is_word() => pair(alloc, line, first, second),
        _ => Err(GoModFault::Grammar(line)),
    }
}

#[tactic(auto, unfolding(crate::specs::Reading::old_path))]
fn old_path(alloc: Global, line: usize, path: &Token) -> Result<(), GoModFault>
    ensures { Gives (λ o. o) result (old_path line (symbol path.now)) }
{
    loose_path(alloc, line, path)?;
    Ok(())
}

#[tactic(auto, unfolding(crate::specs::Reading::old_version))]
fn old_version(alloc: Global, line: usize, path: &Token, word: &Token) -> Result<(), GoModFault>
    ensures { Gives (λ o. o) result (old_version line (symbol path.now) (symbol word.now)) }
{
    pair(alloc, line, path, word)?;
    Ok(())
}

#[tactic(auto, unfolding(crate::specs::Reading::new_version))]
fn new_version(alloc: Global, line: usize, path: &Token, word: &Token) -> Result<(), GoModFault>
    ensures { Gives (λ o. o) result (new_version line (symbol path.now) (symbol word.now)) }
{
    let path = module_path(alloc, line, path)?;
    fitting(alloc, line, suffix(&path), word)?;
    Ok(())
}

#[tactic(auto, unfolding(crate::specs::Reading::new_file))]
fn new_file(alloc: Global, line: usize, word: &Token) -> Result<(), GoModFault>
    ensures { Gives (λ o. o) result (new_file line (symbol word.now)) }
{
    let text = word.value(alloc)?;
    if is_file_path(text.as_bytes()) {
        Ok(())
    } else {
        Err(GoModFault::Path(line))
    }
}

/// Checks a replacement of three tokens: a path, an arrow and a file path.
#[tactic(auto, unfolding(crate::specs::Reading::replace_three))]
fn replace_three(
    alloc: Global,
    line: usize,
    path: &Token,
    arrow: &Token,
    file: &Token,
) -> Result<(), GoModFault>
    ensures { Gives (λ o. o) result
        (replace_three line (symbol path.now) (symbol arrow.now) (symbol file.now)) }
{
    if path.is_word() && arrow.is_arrow() && file.is_word() {
        old_path(alloc, line, path)?;
        return new_file(alloc, line, file);
    }
    Err(GoModFault::Grammar(line))
}

/// Checks a replacement of four tokens: a path, an arrow, a path and a version; or a path, a version,
/// an arrow and a file path.
#[tactic(auto, unfolding(crate::specs::Reading::replace_four))]
fn replace_four(
    alloc: Global,
    line: usize,
    path: &Token,
    second: &Token,
    third: &Token,
    last: &Token,
) -> Result<(), GoModFault>
    ensures { Gives (λ o. o) result
        (replace_four line (symbol path.now) (symbol second.now) (symbol third.now) (symbol last.now)) }
{
    if path.is_word() && second.is_arrow() && third.is_word() && last.is_word() {
        old_path(alloc, line, path)?;
        return new_version(alloc, line, third, last);
    }
    if path.is_word() && second.is_word() && third.is_arrow() && last.is_word() {
        old_version(alloc, line, path, second)?;
        return new_file(alloc, line, last);
    }
    Err(GoModFault::Grammar(line))
}

/// Checks a replacement of five tokens: a path, a version, an arrow, a path and a version.
#[tactic(auto, unfolding(crate::specs::Reading::replace_five))]
fn replace_five(
    alloc: Global,
    line: usize,
    path: &Token,
    version: &Token,
    arrow: &Token,
    target: &Token,
    fitting: &Token,
) -> Result<(), GoModFault>
    ensures { Gives (λ o. o) result
        (replace_five line (symbol path.now) (symbol version.now)
        (symbol arrow.now) (symbol target.now) (symbol fitting.now)) }
{
    if path.is_word()
        && version.is_word()
        && arrow.is_arrow()
        && target.is_word()
        && fitting.is_word()
    {
        old_version(alloc, line, path, version)?;
        return new_version(alloc, line, target, fitting);
    }
    Err(GoModFault::Grammar(line))
}

/// Checks an entry of `replace`: a loose path and perhaps a version of it, an arrow, and a file path or
/// a module path with a version.
#[tactic(auto, unfolding(crate::specs::Reading::replace_entry))]
pub(crate) fn replace_entry(alloc: Global, line: usize, tokens: &[Token]) -> Result<(), GoModFault>
    ensures { Gives (λ o. o) result (replace_entry line (symbols tokens.now)) }
{
    match tokens {
        [path, arrow, file] => replace_three(alloc, line, path, arrow, file),
        [path, second, third, last] => replace_four(alloc, line, path, second, third, last),
        [path, version, arrow, target, fitting] => {
            replace_five(alloc, line, path, version, arrow, target, fitting)
        }
        _ => Err(GoModFault::Grammar(line)),
    }
}

fn is_interval(left: &Token, first: &Token, comma: &Token, second: &Token, right: &Token) -> bool
    ensures { result ≡ are_interval_kinds left.now.kind first.now.kind comma.now.kind second.now.kind right.now.kind }
{
    matches!(
        (left.kind, comma.kind, right.kind),
        (
            TokenKind::BracketLeft,
            TokenKind::Comma,
            TokenKind::BracketRight
        )
    ) && first.is_word()
        && second.is_word()
}

#[tactic(auto, unfolding(crate::specs::Reading::interval))]
fn interval(
    alloc: Global,
    line: usize,
    first: &Token,
    second: &Token,
) -> Result<Retraction, GoModFault>
    ensures { Gives (λ r. r) result (interval line (symbol first.now) (symbol second.now)) }
{
    let low = bound(alloc, line, first)?;
    let high = bound(alloc, line, second)?;
    if is_below(&high, &low) {
        Err(GoModFault::Interval(line))
    } else {
        let versions = Interval::between(alloc, low, high)?;
        Ok(Retraction { line, versions })
    }
}

/// Reads an entry of `retract`: a version, or a closed interval of versions. After the faults of the words,
/// it fails with [`GoModFault::Interval`] if the first version is above the second.
#[tactic(auto, unfolding(crate::specs::Reading::retract_entry))]
pub(crate) fn retract_entry(
    alloc: Global,
    line: usize,
    tokens: &[Token],
) -> Result<Retraction, GoModFault>
    ensures { Gives (λ r. r) result (retract_entry line (symbols tokens.now)) }
{
    match tokens {
        [only] if only.is_word() => {
            let versions = Interval::one(bound(alloc, line, only)?);
            Ok(Retraction { line, versions })
        }
        [left, first, comma, second, right] if is_interval(left, first, comma, second, right) => {
            interval(alloc, line, first, second)
        }
        _ => Err(GoModFault::Grammar(line)),
    }
}
