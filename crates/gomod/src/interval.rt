//! Versions from a low one to a high one.

ghost use Rattle.std.specs.Prelude.{◌≡◌, IfOk, IsTrue, not};
ghost use Rattle.gomod.specs.Module.{covers};
ghost use Rattle.gomod.specs.Paths.{is_below as lies_below};

use super::entries::is_below;
use modver::Bound;
use std::alloc::{AllocError, Global};
use std::marker::Model;

/// All versions from a low one to a high one, which may be equal.
#[derive(Drop)]
pub(crate) struct Interval {
    pub(crate) low: Bound,
    /// The high one. `None` means that it is the low one, as in most retractions, so the field is a pointer.
    other_high: Option<Box<Bound>>,
}

impl Model for Interval {
    ghost use Rattle.std.specs.Prelude.{Option, Some, None};
    ghost use Rattle.gomod.specs.Module.{Interval};

    ghost Value = { Interval };

    ghost view = { λ i. record { low = i.low; high = elim i.other_high [ None ↦ i.low | Some b ↦ b.value ] } };
}

impl Interval {
    /// Returns the interval of one version.
    pub(crate) fn one(version: Bound) -> Interval
        ensures { result ≡ record { low = version; high = version } }
    {
        Interval {
            low: version,
            other_high: None,
        }
    }

    /// Returns the interval from a version to another. It fails only if memory runs out.
    pub(crate) fn between(alloc: Global, low: Bound, high: Bound) -> Result<Interval, AllocError>
        ensures { IfOk result (λ i. i ≡ record { low = low; high = high }) }
    {
        let other_high = Some(Box::new(alloc, high)?);
        Ok(Interval { low, other_high })
    }

    /// Whether it is known to have one version alone.
    pub(crate) fn is_one(&self) -> bool
        ensures { IsTrue result → self.now.high ≡ self.now.low }
    {
        self.other_high.is_none()
    }

    pub(crate) fn high(&self) -> &Bound
        ensures { result.now ≡ self.now.high }
    {
        match &self.other_high {
            Some(high) => &**high,
            None => &self.low,
        }
    }

    /// Whether a version is not above the high one.
    pub(crate) fn reaches(&self, version: &Bound) -> bool
        ensures { result ≡ not (lies_below self.now.high version.now) }
    {
        !is_below(self.high(), version)
    }

    /// Whether the interval contains a version.
    pub(crate) fn has(&self, version: &Bound) -> bool
        ensures { result ≡ covers version.now self.now }
    {
        !is_below(version, &self.low) && self.reaches(version)
    }
}
