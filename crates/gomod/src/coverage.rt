//! Which of some versions retractions contain.

ghost use Rattle.std.specs.Prelude.{◌≡◌, ◌↔◌, ◌++◌, ◌∷◌, [], IfOk, IsTrue, List, length, map};
ghost use Rattle.gomod.specs.Module.{Interval};
ghost use Rattle.gomod.specs.Coverage.{Ascends, Reaches, covered};
ghost use Rattle.gomod.specs.Reading.{interval_of};

use super::entries::{Retraction, is_below};
use super::interval::Interval;
use modver::Version;
use std::alloc::{AllocError, Global};

/// Returns for each version whether a retraction contains it. The versions ascend by precedence. It fails only
/// if memory runs out. A file can have far more retractions than its path has versions, so the retractions are
/// read once, in the order of the file, and each is searched among the versions.
pub(crate) fn coverage(
    alloc: Global,
    retractions: &[Retraction],
    versions: &[Version],
) -> Result<Vec<bool>, AllocError>
    requires { Ascends versions.now }
    ensures { IfOk result (λ v. v.items ≡ covered versions.now (map interval_of retractions.now)) }
{
    let mut flags = vec![in alloc; false; versions.len()]?;
    for retraction in retractions {
        cover(&mut flags, versions, &retraction.versions);
    }
    Ok(flags)
}

/// Whether no version is below the one before it.
pub(crate) fn ascend(versions: &[Version]) -> bool
    ensures { IsTrue result ↔ Ascends versions.now }
{
    versions.is_sorted_by(|left, right| !is_below(right.bound(), left.bound()))
}

/// Sets the flags of the versions that an interval contains, which are side by side.
fn cover(flags: &mut [bool], versions: &[Version], interval: &Interval)
    requires ascend { Ascends versions.now }
    requires len { length flags.old ≡ length versions.now }
    ensures { (done : List Interval) → flags.old ≡ covered versions.now done
        → flags.new ≡ covered versions.now (done ++ interval.now ∷ []) }
{
    let first = versions.partition_point(|version| is_below(version.bound(), &interval.low));
    let end = first + reached(&versions[first..], interval);
    flags[first..end].fill(true);
}

/// Returns how many versions an interval reaches. They are before the others. Most intervals reach at most one.
fn reached(versions: &[Version], interval: &Interval) -> usize
    requires { Ascends versions.now }
    ensures { Reaches interval.now versions.now result }
{
    let near = versions.len().min(2);
    let few = versions[..near].partition_point(|version| interval.reaches(version.bound()));
    if few < near {
        return few;
    }
    versions.partition_point(|version| interval.reaches(version.bound()))
}
