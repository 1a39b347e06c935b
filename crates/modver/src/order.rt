//! The orders of versions.

ghost use Rattle.std.specs.Prelude.{◌≡◌};
ghost use Rattle.modver.specs.Precedence.{precedence};
ghost use Rattle.modver.specs.Rank.{rank_cmp, rank_of, time_cmp, time_of};

use crate::bound::Bound;
use crate::pseudo::class;
use crate::version::{Class, Version};
use std::cmp::Ordering;

/// Compares two versions by precedence, in which the mark does not count. It takes no memory. (SemVer
/// 2.0.0, section 11.)
pub fn compare(left: &Version, right: &Version) -> Ordering
    ensures { result ≡ precedence left.now right.now }
{
    compare_bounds(left.bound(), right.bound())
}

/// Compares two versions without their texts by precedence. It takes no memory.
pub fn compare_bounds(left: &Bound, right: &Bound) -> Ordering
    ensures { result ≡ precedence left.now right.now }
{
    let by_numbers = left
        .major()
        .cmp(&right.major())
        .then(left.minor().cmp(&right.minor()))
        .then(left.patch().cmp(&right.patch()));
    match by_numbers {
        Ordering::Equal => left.compare_pre_releases(right),
        other => other,
    }
}

/// Returns 3 for a release, 2 for a pre-release and 1 for a pseudo-version.
pub(crate) fn class_rank(class: &Class) -> u8
    ensures { result ≡ rank_of class.now }
{
    match class {
        Class::Release => 3,
        Class::Pre => 2,
        Class::Pseudo(_) => 1,
    }
}

/// Compares the times of two pseudo-versions. Returns `Equal` if either class is not a pseudo-version.
fn compare_times(left: &Class, right: &Class) -> Ordering
    ensures { result ≡ time_cmp (time_of left.now) (time_of right.now) }
{
    match (left, right) {
        (Class::Pseudo(left), Class::Pseudo(right)) => left.as_str().cmp(right.as_str()),
        _ => Ordering::Equal,
    }
}

/// Compares two versions by rank, the order that chooses the latest version: releases above
/// pre-releases above pseudo-versions, pseudo-versions by stamp, and then by precedence. It takes no
/// memory. (Go Modules Reference, "GOPROXY protocol", `@latest`.)
#[tactic(auto, using(crate::proofs::StampOrder::rank_by))]
pub fn rank_compare(left: &Version, right: &Version) -> Ordering
    ensures { result ≡ rank_cmp left.now right.now }
{
    let left_class = class(left);
    let right_class = class(right);
    let by_class = class_rank(&left_class).cmp(&class_rank(&right_class));
    let by_time = compare_times(&left_class, &right_class);
    by_class.then(by_time.then(compare(left, right)))
}
