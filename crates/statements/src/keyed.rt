//! A version with its order keys, as a row of `version` holds them.

ghost use Rattle.std.specs.Prelude.{◌≡◌, IfOk};
ghost use Rattle.modver.specs.SemanticVersion.{version_text};
ghost use Rattle.tables.specs.VersionKeys.{order_key_at, rank_key_at};

use modver::{Version, order_key, rank_key};
use std::alloc::{AllocError, Global};
use std::marker::Model;

/// The text of a version and its order keys. Contracts see the text.
/// The row holds the keys so that the database can order by precedence and by rank.
#[derive(Drop)]
pub struct KeyedVersion<'v> {
    text: &'v str,
    order: Vec<u8>,
    rank: Vec<u8>,
}

impl<'v> Model for KeyedVersion<'v> {
    ghost use Rattle.std.specs.Prelude.{◌≡◌, List, ℕ};
    ghost use Rattle.tables.specs.VersionKeys.{order_key_at, rank_key_at};

    ghost Value = { List ℕ };

    ghost view = { λ v. v.text.now };

    ghost invariant = { λ v. (v.order.items ≡ order_key_at v.text.now) × (v.rank.items ≡ rank_key_at v.text.now) };
}

impl<'v> KeyedVersion<'v> {
    /// Returns a version with its order keys. Fails if memory for the keys runs out.
    pub fn of(alloc: Global, version: &'v Version) -> Result<KeyedVersion<'v>, AllocError>
        ensures { IfOk result (λ keyed. keyed ≡ version_text version.now) }
    {
        let order = order_key(alloc, version)?;
        let rank = rank_key(alloc, version)?;
        Ok(KeyedVersion {
            text: version.as_str(),
            order,
            rank,
        })
    }

    /// The text of the version.
    pub fn as_str(&self) -> &str
        ensures { result.now ≡ self.now }
    {
        self.text
    }

    /// Its key for ordering by precedence.
    pub fn order(&self) -> &[u8]
        ensures { result.now ≡ order_key_at self.now }
    {
        self.order.as_slice()
    }

    /// Its key for ordering by rank.
    pub fn rank(&self) -> &[u8]
        ensures { result.now ≡ rank_key_at self.now }
    {
        self.rank.as_slice()
    }
}
