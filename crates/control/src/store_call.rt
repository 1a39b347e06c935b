//! What a store was asked for a request.
ghost use Rattle.std.specs.Prelude.{◌≡◌, ◌++◌, codes, string_bytes, IfOk};
ghost use Rattle.control.specs.Notices as spec;
ghost use Rattle.modver.specs.SemanticVersion.{version_text};

use crate::plain::plain;
use modpath::ModulePath;
use modver::Version;
use std::alloc::{AllocError, Global};

/// What a store was asked for a request. The key is not in it.
#[derive(Clone, Copy, Drop)]
pub enum StoreCall<'a> {
    /// To look a key up.
    Key,
    /// What it has of a path.
    Fetch {
        path: &'a ModulePath,
    },
    /// A version, or a part of it.
    FetchVersion {
        path: &'a ModulePath,
        version: &'a Version,
    },
    /// How many versions of a path there are, for a publish.
    Publish {
        path: &'a ModulePath,
    },
    /// To compare or to store a version.
    PublishVersion {
        path: &'a ModulePath,
        version: &'a Version,
    },
    /// All paths.
    Modules,
}

impl<'a> StoreCall<'a> {
    /// Returns the words that tell it. Fails only if memory runs out.
    pub(crate) fn words(&self, alloc: Global) -> Result<String, AllocError>
        ensures { IfOk result (λ words. string_bytes words ≡ spec.errand_words self.now) }
    {
        match self {
            StoreCall::Key => String::from_str(alloc, "key"),
            StoreCall::Fetch { path } => path_words(alloc, "fetch ", path),
            StoreCall::FetchVersion { path, version } => version_words(
                alloc, "fetch ", path, version,
            ),
            StoreCall::Publish { path } => path_words(alloc, "publish ", path),
            StoreCall::PublishVersion { path, version } => {
                version_words(alloc, "publish ", path, version)
            }
            StoreCall::Modules => String::from_str(alloc, "fetch of all paths"),
        }
    }
}

/// Returns both texts, one after another. Fails only if memory runs out.
pub(crate) fn two(alloc: Global, first: &str, second: &str) -> Result<String, AllocError>
    ensures { IfOk result (λ text. string_bytes text ≡ first.now ++ second.now) }
{
    let mut text = String::from_str(alloc, first)?;
    text.push_str(second)?;
    Ok(text)
}

/// Returns a verb and a module path. Fails only if memory runs out.
fn path_words(alloc: Global, verb: &str, path: &ModulePath) -> Result<String, AllocError>
    ensures { IfOk result (λ words. string_bytes words ≡ spec.path_words verb.now path.now) }
{
    two(alloc, verb, plain(path.as_str()))
}

/// Returns a verb, a module path and a version of it. Fails only if memory runs out.
fn version_words(
    alloc: Global,
    verb: &str,
    path: &ModulePath,
    version: &Version,
) -> Result<String, AllocError>
    ensures { IfOk result (λ words. string_bytes words
        ≡ spec.version_words verb.now path.now (version_text version.now)) }
{
    let mut words = path_words(alloc, verb, path)?;
    words.push_str(" ")?;
    words.push_str(plain(version.as_str()))?;
    Ok(words)
}
