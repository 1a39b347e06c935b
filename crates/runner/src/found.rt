//! The stores of files as they are found. These types have no parameter.

use sqlite::{Connection, FileFrom, FileStore, Start};
use store::open::FileShelves;

/// What the files of stores held. Clauses say no more about them than about `Unknown` of `sqlite`. A command opens more
/// than one by it, so it is `Copy`, which `Unknown` is not.
#[derive(Clone, Copy, Drop)]
pub struct AsFound;

impl Start for AsFound {
    ghost use Rattle.std.specs.Prelude.{true, []};

    ghost log = { [] };

    ghost db = { [] };

    ghost is_mixing = { true };

    fn mixes() -> bool {
        true
    }
}

/// The shelves of files as they are found.
pub type Found = FileShelves<AsFound>;

/// The tables of files as they are found.
pub type FoundTables = FileStore<FileFrom<AsFound>>;

/// The open store of a file.
pub struct OpenedStore {
    pub shelves: Found,
}

/// What remains of a closed store; also an open older store.
#[derive(Drop)]
pub struct ClosedFile {
    pub connection: Connection<FoundTables>,
}
