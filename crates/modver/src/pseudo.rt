//! Pseudo-versions, and the class of a version. (Go Modules Reference, "Pseudo-versions".)

ghost use Rattle.std.specs.Prelude.{◌≡◌, ◌∷◌, [], ◌++◌, MatchOption, option_map, reverse, ℕ};
ghost use Rattle.modver.specs.Class.{class_of, may_precede, stamp_from, stamp_of_identifier};
ghost use Rattle.modver.specs.Parts.{between_dots, identifiers_of};
ghost use Rattle.modver.specs.Time.{time_of_stamp};

use crate::time::{TimeText, fits_form};
use crate::version::{Class, Version};

/// Returns the texts before and after the last dot, or `None` if there is no dot.
fn cut_last(text: &[u8]) -> Option<(&[u8], &[u8])>
    ensures { MatchOption result
        (between_dots text.now ≡ text.now ∷ [])
        (λ p. between_dots text.now ≡ between_dots p.0.now ++ p.1.now ∷ []) }
{
    for at in (0..text.len()).rev() {
        if text[at] == b'.' {
            return Some((&text[..at], &text[at + 1..]));
        }
    }
    None
}

/// Returns the time of a stamped identifier, or `None` for any other identifier.
fn time_of_identifier(identifier: &[u8]) -> Option<TimeText>
    ensures { result ≡ option_map time_of_stamp (stamp_of_identifier identifier.now) }
{
    if !fits_form(b"dddddddddddddd-hhhhhhhhhhhh", identifier) {
        return None;
    }
    TimeText::of_stamp(&identifier[..14])
}

/// Whether `front`, the text before the last dot of a pre-release, may precede the stamped identifier
/// of a pseudo-version.
fn is_base(front: &[u8], patch: u64) -> bool
    ensures { (minor : ℕ) → result ≡ may_precede minor patch (reverse (between_dots front.now)) }
{
    match cut_last(front) {
        None => front == b"0".as_slice() && 1 <= patch,
        Some((_, before)) => before == b"0".as_slice(),
    }
}

/// Returns the time of a pseudo-version's stamp, by its pre-release, minor and patch, or `None` for any other version.
fn pseudo_time(pre_release: &[u8], minor: u64, patch: u64) -> Option<TimeText>
    ensures { result ≡ option_map time_of_stamp
        (stamp_from minor patch (reverse (identifiers_of pre_release.now))) }
{
    match cut_last(pre_release) {
        None => {
            if minor == 0 && patch == 0 {
                time_of_identifier(pre_release)
            } else {
                None
            }
        }
        Some((front, last)) => {
            if is_base(front, patch) {
                time_of_identifier(last)
            } else {
                None
            }
        }
    }
}

/// Returns the class of a version, and with it the time of a pseudo-version's stamp. It takes no
/// memory. (Go Modules Reference, "Pseudo-versions".)
pub fn class(version: &Version) -> Class
    ensures { result ≡ class_of version.now }
{
    let pre_release = version.pre_release();
    if pre_release.is_empty() {
        return Class::Release;
    }
    match pseudo_time(pre_release, version.minor(), version.patch()) {
        Some(time) => Class::Pseudo(time),
        None => Class::Pre,
    }
}
