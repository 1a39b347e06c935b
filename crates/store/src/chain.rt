//! The shelves that a shelf sees.

ghost use Rattle.std.specs.Prelude.{◌≡◌, ◌∷◌, map, option_copied};
ghost use Rattle.world.specs.World.{above};

use std::marker::Model;
use text::Text;
use world::names::COMMON;

/// The shelves that a shelf sees, the nearest first: its own, its group if it has one, and `common`. Contracts see
/// their names.
#[derive(Drop)]
pub(crate) struct Chain<'a> {
    shelves: [&'a str; 3],
    len: usize,
}

impl<'a> Model for Chain<'a> {
    ghost use Rattle.std.specs.Prelude.{ℕ, ◌≤◌, List, map, take};

    ghost Value = { List (List ℕ) };

    ghost view = { λ c. map (λ shelf. shelf.now) (take c.len c.shelves) };

    ghost invariant = { λ c. c.len ≤ 3 };
}

impl<'a> Chain<'a> {
    /// Returns the chain of a shelf in this group, or in none.
    pub(crate) fn new(shelf: &'a str, group: Option<&'a Text>) -> Chain<'a>
        ensures { result ≡ shelf.now ∷ above (option_copied group.entry) }
    {
        match group {
            None => Chain {
                shelves: [shelf, COMMON, COMMON],
                len: 2,
            },
            Some(group) => Chain {
                shelves: [shelf, group.as_str(), COMMON],
                len: 3,
            },
        }
    }

    /// Returns the names of its shelves.
    pub(crate) fn as_slice(&self) -> &[&'a str]
        ensures { map (λ shelf. shelf.now) result.now ≡ self.now }
    {
        &self.shelves[..self.len]
    }
}
