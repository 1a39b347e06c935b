//! Lists of shelves to copy from one store into another.

ghost use Rattle.std.specs.Prelude.{◌≡◌, ◌∷◌, [], map as each, IfOk};
ghost use Rattle.world.specs.World.{common};
ghost use Rattle.statements.specs.Shelves.{added, AreNew};

use std::alloc::{AllocError, Global};
use std::marker::Model;
use text::Text;
use world::names::COMMON;
use world::text_set::TextSet;

/// A shelf other than `common`.
#[derive(Drop)]
pub struct Shelf {
    /// Its name.
    pub name: Text,
    /// Its parent: a team's group, or `common` for a team without one. A group has none.
    pub parent: Option<Text>,
}

/// Shelves other than `common`, no two of one name. Contracts see the list of them.
#[derive(Drop)]
pub struct ShelfList {
    shelves: Vec<Shelf>,
    /// Their names, and `common`.
    names: TextSet,
}

impl Model for ShelfList {
    ghost use Rattle.std.specs.Prelude.{◌≡◌, List, ℕ, [], ◌∷◌, map as each};
    ghost use Rattle.std.specs.FinSet as set;
    ghost use Rattle.world.specs.World.{common, is_among};
    ghost use Rattle.statements.specs.declared.shelf_list.Shelf.{Shelf};
    ghost use Rattle.statements.specs.Shelves.{AreNew, behind};

    ghost Value = { List Shelf };

    ghost view = { λ l. l.shelves.items };

    ghost invariant = { λ l. AreNew (common ∷ []) (each (λ shelf. shelf.name) l.shelves.items)
        × ((s : _) → set.contains l.names s
        ≡ is_among (behind (common ∷ []) (each (λ shelf. shelf.name) l.shelves.items)) s) };
}

impl ShelfList {
    /// Returns an empty list. Fails if memory runs out.
    pub fn new(alloc: Global) -> Result<ShelfList, AllocError>
        ensures { IfOk result (λ list. list ≡ []) }
    {
        let mut names = TextSet::new(alloc);
        names.insert(String::from_str(alloc, COMMON)?)?;
        Ok(ShelfList {
            shelves: Vec::new(alloc),
            names,
        })
    }

    /// Returns the list with a shelf added at its end, or as it is if the name is `common` or already in the list.
    /// Fails if memory runs out.
    pub fn with(mut self, alloc: Global, shelf: Shelf) -> Result<ShelfList, AllocError>
        ensures { IfOk result (λ list. list ≡ added self shelf) }
    {
        if self.names.contains(shelf.name.as_str()) {
            return Ok(self);
        }
        let name = String::from_str(alloc, shelf.name.as_str())?;
        self.names.insert(name)?;
        self.shelves.push(shelf)?;
        Ok(self)
    }

    /// The shelves of the list.
    pub fn as_slice(&self) -> &[Shelf]
        ensures same { result.now ≡ self.now }
        ensures apart { AreNew (common ∷ []) (each (λ shelf. shelf.name) result.now) }
    {
        self.shelves.as_slice()
    }
}
