//! Which version of a path is the latest. (Go Modules Reference, "GOPROXY protocol", on `@latest`.)
//!
//! Rank puts releases above pre-releases above pseudo-versions. The go.mod of the highest version of a path
//! retracts versions by closed intervals, which may contain the highest version itself. The latest version is
//! the highest one that this go.mod does not retract.
//!
//! | versions | the highest retracts | latest |
//! |---|---|---|
//! | `v1.0.0`, `v1.1.0` | `[v1.0.5, v1.1.0]` | `v1.0.0` |
//! | `v1.1.0`, `v1.2.0-rc.1` | nothing: the highest is `v1.1.0` | `v1.1.0` |
//! | `v1.0.0` | `v1.0.0` | none |
#![tactic(auto)]

pub mod laws;

ghost use Rattle.std.specs.Prelude.{◌≡◌, ◌<◌, ◌+◌, IfOk, List, Option, Some, length, slice_get};
ghost use Rattle.gomod.specs.Module.{GoModule};
ghost use Rattle.latest.specs.Latest.{CountsBy, IsBest, NamesTop, among, counting, counts, is_higher, unretracted};
ghost use Rattle.modver.specs.SemanticVersion.{SemanticVersion};

use gomod::GoMod;
use modver::{Version, rank_compare};
use std::alloc::{AllocError, Global};
use std::cmp::Ordering;

/// Returns the index of the highest version by rank, or `None` if there are no versions. It takes no memory.
pub fn top(versions: &[Version]) -> Option<usize>
    ensures { NamesTop versions.now (among versions.now) result }
{
    top_of(versions, Counting::All)
}

/// Returns the index of the highest version by rank that a go.mod does not retract, or `None` if it retracts every
/// version. It takes no memory. It may compare each version with each retraction, where [`latest_of`] compares few.
pub fn latest(versions: &[Version], gomod: &GoMod) -> Option<usize>
    ensures { NamesTop versions.now (unretracted versions.now gomod.now) result }
{
    top_of(versions, Counting::NotRetractedBy(gomod))
}

/// Returns the index of the highest version by rank that a go.mod does not retract, or `None` if it retracts every
/// version. It fails only if memory runs out. If the versions ascend by precedence, it compares each retraction with
/// few of them.
pub fn latest_of(
    alloc: Global,
    versions: &[Version],
    gomod: &GoMod,
) -> Result<Option<usize>, AllocError>
    ensures { IfOk result (λ index. NamesTop versions.now (unretracted versions.now gomod.now) index) }
{
    let retracted = gomod.retracted(alloc, versions)?;
    Ok(top_of(versions, Counting::Unflagged(&retracted)))
}

/// Which versions of a list count.
#[derive(Clone, Copy, Drop)]
enum Counting<'a> {
    All,
    /// Those that a go.mod does not retract.
    NotRetractedBy(&'a GoMod),
    /// Those whose flags are false. The flags are in the order of the versions.
    Unflagged(&'a [bool]),
}

/// Whether the version at an index counts.
fn counts(which: Counting, version: &Version, index: usize) -> bool
    ensures { (vs : List SemanticVersion) (m : Option GoModule) → CountsBy vs m which.entry
        → slice_get vs index ≡ Some version.now → result ≡ counts m version.now }
{
    match which {
        Counting::All => true,
        Counting::NotRetractedBy(gomod) => !gomod.retracts(version),
        Counting::Unflagged(flags) => flags.get(index) == Some(&false),
    }
}

/// Returns the index of the highest version that counts, or `None` if none does.
fn top_of(versions: &[Version], which: Counting) -> Option<usize>
    ensures { (m : Option GoModule) → CountsBy versions.now m which.entry
        → NamesTop versions.now (counting versions.now m) result }
{
    let mut highest = None;
    for index in 0..versions.len() {
        highest = better(versions, which, index, highest);
    }
    highest
}

/// Returns the index of the highest version that counts among those up to `index`, from the index of the highest before
/// `index`. A version that is not above that one is not compared with the retractions.
fn better(
    versions: &[Version],
    which: Counting,
    index: usize,
    highest: Option<usize>,
) -> Option<usize>
    requires { index < length versions.now }
    ensures { (m : Option GoModule) → CountsBy versions.now m which.entry
        → IsBest versions.now m index highest → IsBest versions.now m (index + 1) result }
{
    let version = &versions[index];
    if !is_higher(versions, version, highest) {
        return highest;
    }
    if !counts(which, version, index) {
        return highest;
    }
    Some(index)
}

/// Whether a version is above the one at an index, or there is no version at the index.
fn is_higher(versions: &[Version], version: &Version, highest: Option<usize>) -> bool
    ensures { result ≡ is_higher versions.now version.now highest }
{
    match highest {
        None => true,
        Some(index) => match versions.get(index) {
            None => true,
            Some(other) => rank_compare(version, other) == Ordering::Greater,
        },
    }
}
