//! Keeps the groups of shelves.

ghost use Rattle.std.specs.Prelude.{◌≡◌, ◌≤◌, ◌<◌, ◌⊎◌, Some, option_copied, IfOk, OnOk};
ghost use Rattle.std.specs.FinMap as map;
ghost use Rattle.world.specs.World.{World, group_in};
ghost use Rattle.world.specs.FinMaps.{by_text};
ghost use Rattle.cache.specs.Groups.{IsGroupOf, AreGroups};
ghost use Rattle.cache.specs.Weights.{most_groups};

use std::alloc::{AllocError, Global};
use std::collections::BTreeMap;
use std::marker::Model;
use text::Text;
use world::names::COMMON;

/// The most shelves whose groups are kept. Each takes about 200 bytes.
/// The figure bounds the memory, not the answers: where one more has no room, all are forgotten and found again.
const MOST_GROUPS: usize = 8_192;

/// Kept groups of shelves, so that a store need not query the tables again. A shelf without a group is kept with
/// None. A shelf's group never changes, so a kept one is never wrong. Contracts see a map from shelves to their
/// groups.
#[derive(Drop)]
pub struct Groups {
    shelves: BTreeMap<String, Option<Text>>,
}

impl Model for Groups {
    ghost use Rattle.std.specs.Prelude.{◌≤◌};
    ghost use Rattle.std.specs.Coded.{coded_option};
    ghost use Rattle.std.specs.FinMap as map;
    ghost use Rattle.world.specs.Code.{text_code};
    ghost use Rattle.world.specs.FinMaps.{by_text};
    ghost use Rattle.cache.specs.Groups.{Grouping};
    ghost use Rattle.cache.specs.Weights.{most_groups};

    ghost Value = { Grouping };

    ghost coded = { map.code text_code (coded_option text_code) };

    ghost view = { λ g. by_text g.shelves.entries };

    ghost invariant = { λ g. map.len (by_text g.shelves.entries) ≤ most_groups };
}

impl Groups {
    /// Returns an empty one, which takes no memory.
    pub fn new(alloc: Global) -> Groups
        ensures { result ≡ map.empty }
    {
        Groups {
            shelves: BTreeMap::new(alloc),
        }
    }

    /// Returns the group of a shelf, or None if it is not kept.
    pub fn get(&self, shelf: &str) -> Option<&Option<Text>>
        ensures { option_copied result ≡ map.get self.now shelf.now }
    {
        self.shelves.get(shelf)
    }

    /// Returns how many shelves are kept.
    pub(crate) fn len(&self) -> usize
        ensures len { result ≡ map.len self.now }
        ensures at_most { result ≤ most_groups }
    {
        self.shelves.len()
    }

    /// Keeps the group of a shelf that exists. If memory runs out, it forgets all groups.
    pub fn keep(&mut self, alloc: Global, shelf: &str, group: Option<&Text>)
        ensures { (w : World) → AreGroups w self.old → IsGroupOf w shelf.now (option_copied group.entry)
            → AreGroups w self.new }
    {
        self.make_room(alloc);
        if add(alloc, &mut self.shelves, shelf, group).is_err() {
            *self = Groups::new(alloc);
        }
    }

    /// Forgets all groups if one more has no room.
    fn make_room(&mut self, alloc: Global)
        ensures fewer { (self.new ≡ self.old) ⊎ (self.new ≡ map.empty) }
        ensures room { map.len self.new < most_groups }
    {
        if self.len() >= MOST_GROUPS {
            *self = Groups::new(alloc);
        }
    }
}

/// Adds the group of a shelf. Fails if memory runs out.
fn add(
    alloc: Global,
    shelves: &mut BTreeMap<String, Option<Text>>,
    shelf: &str,
    group: Option<&Text>,
) -> Result<(), AllocError>
    ensures { OnOk result (by_text shelves.new.entries
        ≡ map.insert (by_text shelves.old.entries) shelf.now (option_copied group.entry)) }
{
    let group = copied(alloc, group)?;
    shelves.insert(String::from_str(alloc, shelf)?, group)?;
    Ok(())
}

/// Returns a copy of the name of a group, or None for None. Fails if memory runs out.
pub fn copied(alloc: Global, group: Option<&Text>) -> Result<Option<Text>, AllocError>
    ensures { IfOk result (λ copy. copy ≡ option_copied group.entry) }
{
    match group {
        None => Ok(None),
        Some(group) => Ok(Some(Text::copy_of(alloc, group.as_str())?)),
    }
}

/// Returns the group of a shelf that has this parent, or None if the parent is `common` or there is none.
pub fn group_in(parent: Option<Text>) -> Option<Text>
    ensures { result ≡ group_in (Some parent) }
{
    let parent = parent?;
    if parent.as_str() == COMMON {
        return None;
    }
    Some(parent)
}
