//! Room on the disk of a store that is served, which is kept so that an order can be carried out once the disk is full.
ghost use Rattle.std.specs.Prelude.{◌≡◌};
ghost use Rattle.control.specs.Reserve as spec;

use world::shelves::Shelves;

/// How much there is of the room that is kept on a disk.
#[derive(Clone, Copy, Debug, Drop, PartialEq, Eq)]
pub enum Room {
    /// All of it.
    Whole,
    /// Not all of it, since an order needed it.
    Short,
    /// None is kept.
    Missing,
}

impl Room {
    /// Returns whether all of it is there.
    pub fn is_whole(self) -> bool
        ensures { result ≡ spec.is_whole self }
    {
        matches!(self, Room::Whole)
    }
}

/// What keeps room on the disk of a served store, so that an order can be carried out once the disk is full. It also
/// notes the copies of the store that are begun.
pub trait KeepsRoom {
    ghost use Rattle.std.specs.Prelude.{◌≡◌, ◌++◌, List, [], ◌∷◌};
    ghost use Rattle.control.specs.Reserve.{DiskDeed, Made, Renewed, BeganCopy};

    /// What was done with the room so far, and the copies that were begun, the oldest first.
    ghost deeds: { Self → List DiskDeed };

    /// Has room kept from now on, and returns how much of it there is.
    fn make_room(&mut self) -> Room
        ensures noted { deeds self.new ≡ deeds self.old ++ Made result ∷ [] };

    /// Takes as much of the room again as the disk has, and returns how much that is.
    fn keep_room(&mut self) -> Room
        ensures noted { deeds self.new ≡ deeds self.old ++ Renewed result ∷ [] };

    /// Notes that a copy to a file with this path is begun.
    fn note_copy(&mut self, path: &str)
        ensures noted { deeds self.new ≡ deeds self.old ++ BeganCopy path.now ∷ [] };
}

/// Room that is kept on the disk of a store, and can be given up for an order.
pub trait Reserve<S: Shelves>: KeepsRoom {
    ghost use Rattle.std.specs.Prelude.{◌≡◌, ◌++◌, [], ◌∷◌, true};
    ghost use Rattle.control.specs.Reserve.{GaveUp, LeavesOthers};

    /// Gives the room up, and returns whether there was some. Only a store that can be asked again has some.
    fn give_up_room(&mut self) -> bool
        ensures noted { Self.deeds self.new ≡ Self.deeds self.old ++ GaveUp result ∷ [] }
        ensures others { result ≡ true → (s : S) → LeavesOthers (S.shown s) };
}
