//! Versions without their text, which are what the ends of an interval need.

ghost use Rattle.std.specs.Prelude.{◌≡◌, ◌≤◌, ◌⊎◌, IfErr, IfOk, length};
ghost use Rattle.semver.specs.Identifiers.{parts_of, pre_text};
ghost use Rattle.semver.specs.Parse.{memory_error};
ghost use Rattle.modver.specs.Bounds.{HasKey, mark_in, tails_cmp};
ghost use Rattle.modver.specs.Fits.{has_identifiers};
ghost use Rattle.modver.specs.Parts.{version_of_parts};
ghost use Rattle.modver.specs.Precedence.{pre_release_cmp};
ghost use Rattle.modver.specs.Reading.{IsCanonical, IsFault, IsHeld, is_mark};
ghost use Rattle.modver.specs.SemanticVersion.{IsVersion};
ghost use Rattle.modver.specs.declared.version.VersionFault.TheVariants as fault;

use crate::tail::{RELEASE_HEAD, Tail, head_of, push_pre_release};
use crate::version::VersionFault;
use std::alloc::{AllocError, Global};
use std::cmp::Ordering;
use std::marker::Model;
use std::rc::Rc;

/// A version without its text. Contracts see its numbers, its pre-release identifiers and its mark.
/// The ends of intervals are of this type, because they are compared and never written. Most take no
/// memory of their own, and copies share the memory of the original.
#[derive(Drop)]
pub struct Bound {
    major: u64,
    minor: u64,
    patch: u64,
    /// The first 8 bytes of the end of the key of order. Most comparisons of pre-releases read nothing else.
    head: u64,
    /// `None` if there is no mark and the head has the whole end of the key, as for a release or `v0.0.0-aBc`.
    tail: Option<Rc<Tail>>,
}

impl Model for Bound {
    ghost use Rattle.modver.specs.SemanticVersion.{SemanticVersion};

    ghost Value = { SemanticVersion };

    ghost use Rattle.modver.specs.Bounds.{IsBound, version_in};

    ghost view = { version_in };

    ghost invariant = { IsBound };
}

impl Bound {
    /// Returns the version whose canonical text is `text`. It fails as [`Version::parse`](crate::Version::parse) does.
    pub fn parse(alloc: Global, text: &str) -> Result<Bound, VersionFault>
        ensures ok { IfOk result (IsCanonical text.now) }
        ensures err { IfErr result (λ e. IsFault text.now e ⊎ ((e ≡ fault.Memory) × IsHeld text.now)) }
    {
        if text.len() > 128 {
            return Err(VersionFault::TooLong);
        }
        let Some(rest) = text.strip_prefix('v') else {
            return Err(VersionFault::Form);
        };
        let parts = match semver::Version::parse(alloc, rest) {
            Ok(parts) => parts,
            Err(error) => return Err(fault_of(error)),
        };
        if is_mark(parts.build.as_str()) {
            match Bound::of(alloc, parts) {
                Ok(bound) => Ok(bound),
                Err(_) => Err(VersionFault::Memory),
            }
        } else {
            Err(VersionFault::Build)
        }
    }

    /// Returns the version of the parts that `semver` read. It fails only if memory runs out.
    fn of(alloc: Global, parts: semver::Version) -> Result<Bound, AllocError>
        requires valid { IsVersion (version_of_parts (parts_of parts)) }
        requires short { length (pre_text parts.pre) ≤ 128 }
        ensures { IfOk result (λ b. b ≡ version_of_parts (parts_of parts)) }
    {
        let semver::Version {
            major,
            minor,
            patch,
            pre,
            build,
        } = parts;
        let marked = !build.is_empty();
        if pre.is_empty() && !marked {
            return Ok(Bound {
                major,
                minor,
                patch,
                head: RELEASE_HEAD,
                tail: None,
            });
        }
        // Room for the key of one identifier.
        let mut key = Vec::with_capacity(alloc, pre.as_str().len() + 3)?;
        push_pre_release(&mut key, pre.as_str().as_bytes())?;
        let head = head_of(key.as_slice());
        let tail = tail_of(alloc, key, marked)?;
        Ok(Bound {
            major,
            minor,
            patch,
            head,
            tail,
        })
    }

    /// Returns a copy. It fails only if memory runs out, which `Clone` has no way to report.
    pub fn copy(&self, alloc: Global) -> Result<Bound, AllocError>
        ensures { IfOk result (λ b. b ≡ self.now) }
    {
        let tail = match &self.tail {
            Some(tail) => Some(tail.clone()?),
            None => None,
        };
        Ok(Bound {
            major: self.major,
            minor: self.minor,
            patch: self.patch,
            head: self.head,
            tail,
        })
    }

    pub(crate) fn is_marked(&self) -> bool
        ensures { result ≡ self.now.marked }
    {
        match &self.tail {
            Some(tail) => tail.marked,
            None => false,
        }
    }

    pub(crate) fn major(&self) -> u64
        ensures { result ≡ self.now.major }
    {
        self.major
    }

    pub(crate) fn minor(&self) -> u64
        ensures { result ≡ self.now.minor }
    {
        self.minor
    }

    pub(crate) fn patch(&self) -> u64
        ensures { result ≡ self.now.patch }
    {
        self.patch
    }

    /// Whether there are pre-release identifiers.
    pub(crate) fn is_pre_release(&self) -> bool
        ensures { result ≡ has_identifiers self.now.identifiers }
    {
        self.head != RELEASE_HEAD
    }

    /// Compares the pre-releases.
    pub(crate) fn compare_pre_releases(&self, other: &Bound) -> Ordering
        ensures { result ≡ pre_release_cmp self.now.identifiers other.now.identifiers }
    {
        match self.head.cmp(&other.head) {
            Ordering::Equal => compare_tails(&self.tail, &other.tail),
            decided => decided,
        }
    }
}

/// Compares the keys of two bounds whose heads are equal. No key begins another, so the keys are equal if a head has
/// one of them whole.
fn compare_tails(left: &Option<Rc<Tail>>, right: &Option<Rc<Tail>>) -> Ordering
    ensures { result ≡ tails_cmp left.now right.now }
{
    match (left, right) {
        (Some(left), Some(right)) => left.key.as_slice().cmp(right.key.as_slice()),
        _ => Ordering::Equal,
    }
}

/// Returns the tail of a version with this key and mark, or `None` if a head says as much. It fails only if memory runs
/// out.
fn tail_of(alloc: Global, key: Vec<u8>, marked: bool) -> Result<Option<Rc<Tail>>, AllocError>
    ensures key { IfOk result (λ tail. HasKey tail key.items) }
    ensures mark { IfOk result (λ tail. mark_in tail ≡ marked) }
{
    if key.len() <= 8 && !marked {
        Ok(None)
    } else {
        Ok(Some(Rc::new(alloc, Tail { key, marked })?))
    }
}

/// Returns `Memory` if memory ran out, and otherwise `Form`.
fn fault_of(error: semver::Error) -> VersionFault
    ensures { ((result ≡ fault.Memory) × (error ≡ memory_error))
        ⊎ ((result ≡ fault.Form) × (error ≡ memory_error → ⊥)) }
{
    if error == semver::Error::from(AllocError) {
        VersionFault::Memory
    } else {
        VersionFault::Form
    }
}

/// Whether a version may have the build metadata `build`: nothing, or the mark.
fn is_mark(build: &str) -> bool
    ensures { result ≡ is_mark build.now }
{
    build.is_empty() || build == "incompatible"
}
