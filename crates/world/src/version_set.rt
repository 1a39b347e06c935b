//! A set of versions in order of precedence.
ghost use Rattle.std.specs.Prelude.{◌≡◌, IfOk, OnOk, OnErr};
ghost use Rattle.std.specs.FinSet as set;
ghost use Rattle.world.specs.Lines.{in_order};

use crate::version_list::Versions;
use modver::{Version, compare};
use std::alloc::{AllocError, Global};
use std::cmp::Ordering;
use std::collections::BTreeSet;
use std::marker::Model;

/// A version that is compared by precedence, and by its text where the precedence is equal. (SemVer 2.0.0, section 11.)
#[derive(Drop)]
struct Ranked {
    version: Version,
}

impl Model for Ranked {
    ghost use Rattle.modver.specs.SemanticVersion.{SemanticVersion};

    ghost Value = { SemanticVersion };

    ghost view = { λ r. r.version };
}

impl PartialEq for Ranked {
    ghost use Rattle.std.specs.Cmp.{eq_by_cmp_equiv, partial_equiv_from_equiv};
    ghost use Rattle.std.specs.Ordering.{eq_by_cmp};
    ghost use Rattle.world.specs.Versions.{version_cmp, versions_total};

    ghost eq = { eq_by_cmp version_cmp };

    ghost laws = { partial_equiv_from_equiv (eq_by_cmp_equiv versions_total) };

    fn eq(&self, other: &Ranked) -> bool {
        self.cmp(other) == Ordering::Equal
    }
}

impl Eq for Ranked {
    ghost use Rattle.std.specs.Cmp.{eq_by_cmp_equiv};
    ghost use Rattle.world.specs.Versions.{versions_total};

    ghost laws = { eq_by_cmp_equiv versions_total };
}

impl PartialOrd for Ranked {
    ghost use Rattle.std.specs.Cmp.{partial_order_from_total};
    ghost use Rattle.std.specs.Ordering.{as_partial_cmp};
    ghost use Rattle.world.specs.Versions.{version_cmp, versions_total};

    ghost partial_cmp = { as_partial_cmp version_cmp };

    ghost laws = { partial_order_from_total versions_total };

    fn partial_cmp(&self, other: &Ranked) -> Option<Ordering> {
        Some(self.cmp(other))
    }
}

impl Ord for Ranked {
    ghost use Rattle.std.proofs.Common.{rules};
    ghost use Rattle.std.specs.Cmp.Rules.{comparing};
    ghost use Rattle.world.specs.Versions.{version_cmp, versions_total};

    ghost cmp = { version_cmp };

    ghost total = { versions_total };

    ghost matches_partial_cmp = { Prim.search (comparing, rules) };

    ghost matches_eq = { Prim.search (comparing, rules) };

    fn cmp(&self, other: &Ranked) -> Ordering {
        let by_text = self.version.as_str().cmp(other.version.as_str());
        compare(&self.version, &other.version).then(by_text)
    }
}

/// A set of versions, which contracts see as a finite set in the order of precedence.
#[derive(Drop)]
pub struct VersionSet {
    tree: BTreeSet<Ranked>,
}

impl Model for VersionSet {
    ghost use Rattle.std.specs.FinSet as set;
    ghost use Rattle.world.specs.Code.{version_code};
    ghost use Rattle.world.specs.Versions.{version_cmp};

    ghost Value = { set.FinSet version_cmp };

    ghost coded = { set.code version_code };

    ghost view = { λ s. set.from_list s.tree.keys };
}

impl VersionSet {
    /// Returns the empty set. Allocates nothing.
    pub fn new(alloc: Global) -> VersionSet
        ensures { result ≡ set.empty }
    {
        VersionSet {
            tree: BTreeSet::new(alloc),
        }
    }

    /// Puts a version into the set. Fails only if memory runs out, and then leaves the set as it was.
    pub fn insert(&mut self, version: Version) -> Result<(), AllocError>
        ensures ok { OnOk result (self.new ≡ set.insert self.old version) }
        ensures err { OnErr result (self.new ≡ self.old) }
    {
        self.tree.insert(Ranked { version })?;
        Ok(())
    }

    /// Returns the versions in the order of the set. Fails only if memory runs out.
    pub fn into_list(self, alloc: Global) -> Result<Versions, AllocError>
        ensures { IfOk result (λ vs. vs ≡ in_order self) }
    {
        let mut list = Vec::new(alloc);
        for ranked in self.tree {
            list.push(ranked.version)?;
        }
        Ok(Versions::new(list))
    }
}
