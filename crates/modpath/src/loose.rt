//! Loose paths.

ghost use Rattle.std.specs.Prelude.{◌≡◌, IfErr, IfOk};
ghost use Rattle.modpath.specs.Path as Spec;

use crate::major::{Suffix, suffix_of};
use crate::path::{PathError, check_loose};
use std::alloc::Global;
use std::marker::Model;

/// A loose path: a text that [`check_loose`] passes, of 1 to 255 bytes.
///
/// The paths that a go.mod requires, excludes or replaces are of this kind.
#[derive(Drop)]
pub struct LoosePath {
    text: String,
}

impl Model for LoosePath {
    ghost use Rattle.std.specs.Prelude.{List, ℕ, string_bytes};
    ghost use Rattle.modpath.specs.Path.{IsLoosePath};

    ghost Value = { List ℕ };

    ghost view = { λ p. string_bytes p.text };

    ghost invariant = { λ p. IsLoosePath (string_bytes p.text) };
}

impl LoosePath {
    /// Returns `text` as a loose path.
    ///
    /// It fails with the fault that [`check_loose`] finds. If `text` is a loose path but memory runs
    /// out, it fails with [`PathError::Memory`].
    pub fn parse(alloc: Global, text: &str) -> Result<LoosePath, PathError>
        ensures ok { IfOk result (λ p. (p ≡ text.now) × Spec.IsLoosePath text.now) }
        ensures err { IfErr result (Spec.IsFaultOf (Spec.loose_check text.now)) }
    {
        if let Err(fault) = check_loose(text) {
            return Err(PathError::Fault(fault));
        }
        match String::from_str(alloc, text) {
            Ok(text) => Ok(LoosePath { text }),
            Err(_) => Err(PathError::Memory),
        }
    }

    /// The text of the path. It takes no memory.
    pub fn as_str(&self) -> &str
        ensures value { result.now ≡ self.now }
        ensures valid { Spec.IsLoosePath self.now }
    {
        self.text.as_str()
    }
}

/// Returns the major version suffix of a loose path, [`Suffix::None`] if it has none.
///
/// It takes no memory. (Go Modules Reference, "Major version suffixes".)
#[tactic(auto, unfolding(crate::specs::Path::suffix_of))]
pub fn loose_suffix(path: &LoosePath) -> Suffix
    ensures { result ≡ Spec.suffix_of path.now }
{
    suffix_of(path.text.as_bytes()).unwrap_or(Suffix::None)
}
