//! What reads a store that is served: copies of it, the catalogs of its keys, and how much it keeps.
ghost use Rattle.std.specs.Prelude.{◌≡◌, ◌++◌, [], ◌∷◌};
ghost use Rattle.control.specs.Reserve.{BeganCopy};

use crate::health::Metrics;
use crate::reserve::KeepsRoom;
use histories::ResetDeadline;
use interleave::between::Between;
use std::alloc::Global;
use std::marker::PhantomData;
use world::registry::StoreFault;
use world::shelves::Shelves;

/// Why a copy was not made.
#[derive(Clone, Copy, Debug, Drop, PartialEq, Eq)]
pub enum CopyRefusal {
    /// The file has more than an empty store, it is that of the served store, or a log stands alone beside it.
    NotEmpty,
    /// A disk failed, the file can't be opened, or SQLite has a use for it beside a database.
    Device,
    /// Memory ran out.
    Memory,
    /// Another copy is being made, or a catalog is printed.
    Busy,
    /// The server ends, or the operator has left.
    Ended,
}

/// Why not all of a catalog was printed.
#[derive(Clone, Copy, Debug, Drop, PartialEq, Eq)]
pub enum CatalogRefusal {
    /// There is no such key.
    NoKey,
    /// A disk failed, or after a fault of one it is not known what the store holds.
    Device,
    /// Memory ran out.
    Memory,
    /// A copy is being made, or another catalog is printed.
    Busy,
    /// The server ends, or the operator has left.
    Ended,
    /// The output failed: the operator took no line in the time of one, or has left.
    Output,
}

/// A copy that is begun, to the file of a path, and noted by a `V`. [`Copies::copy`] takes one for each copy. It is
/// noted as it is made, and nothing else makes one.
#[derive(Drop)]
pub struct BegunCopy<'p, V> {
    path: &'p str,
    notes: PhantomData<V>,
}

impl<'p, V: KeepsRoom> BegunCopy<'p, V> {
    /// Notes that a copy to this path is begun, and returns it.
    pub(crate) fn new(path: &'p str, reserve: &mut V) -> BegunCopy<'p, V>
        ensures path { result.path.now ≡ path.now }
        ensures noted { V.deeds reserve.new ≡ V.deeds reserve.old ++ BeganCopy path.now ∷ [] }
    {
        reserve.note_copy(path);
        BegunCopy {
            path,
            notes: PhantomData,
        }
    }
}

impl<'p, V> BegunCopy<'p, V> {
    /// Returns the path of its file.
    pub fn path(&self) -> &'p str
        ensures { result.now ≡ self.now.path.now }
    {
        self.path
    }
}

/// What copies a store while it is served, prints the catalogs of its keys, and counts what it keeps. A `V` notes each
/// copy.
pub trait Copies<S: Shelves, V> {
    ghost use Rattle.std.specs.Prelude.{ℕ, ◌≡◌, ◌≢◌, ◌<◌, ◌≤◌, List, [], Err, IfErr, IfOk, IsErrOf};
    ghost use Rattle.std.specs.Io.KnownBytes.{Appends};
    ghost use Rattle.control.specs.Copying.{IsOnlyRead, Making, OfKey, ToPath};
    ghost use Rattle.control.specs.declared.copies.CatalogRefusal.TheVariants as catalog;
    ghost use Rattle.control.specs.declared.copies.CopyRefusal.TheVariants.{Busy, Ended};
    ghost use Rattle.control.specs.declared.health.Metrics.{Metrics};
    ghost use Rattle.world.specs.Store.{HasCause};

    /// What is made of the served store: relates it before and after that, and what was made.
    ghost made: { S → S → Making → Type 0 };

    /// What a count says, by the served store before and after it, and the number.
    ghost counted: { S → S → ℕ → Type 0 };

    /// What is known of the figures of a served store, by the store.
    ghost figured: { S → Metrics → Type 0 };

    /// The name of the file of the served store.
    ghost name: { Self → List ℕ };

    /// Returns the name of the file of the served store, for those who read it.
    fn served(&self) -> &str
        ensures { result.now ≡ name self.now };

    /// Makes the store of a file one of the served store as it is at this moment; the file has the path of the copy
    /// that is begun. It copies a slice at a time, and has `between` take a turn after each slice. Beside these turns,
    /// the served store is only read.
    ///
    /// Fails with `NotEmpty` if the file has more than an empty store, is that of the served store, or is missing or
    /// empty while a log stands beside it; with `Device` if it can't be opened, SQLite has a use for it beside a
    /// database, or a disk failed; with `Memory` if memory ran out; and with `Ended` if `between` ended it.
    fn copy<B: Between<S>>(
        &self,
        shelves: &mut S,
        begun: BegunCopy<'_, V>,
        between: &mut B,
    ) -> Result<(), CopyRefusal>
        ensures turns { (mid : S) × B.went between.old between.new shelves.old mid
            × IsOnlyRead (S.shown mid) (S.shown shelves.new) }
        ensures came { made shelves.old shelves.new (ToPath begun.entry.path.now result) }
        // It is begun, so none that is being made is why it fails.
        ensures begun { IfErr result (λ why. why ≢ Busy) }
        ensures ended { IsErrOf result Ended → B.ended between.new };

    /// Prints the catalog of a key, as the served store is at this moment, a line at a time, and has `between` take a
    /// turn after each line. Beside these turns, the served store is only read.
    ///
    /// Fails with `NoKey` if there is no such key; with `Device` if a disk failed; with `Memory` if memory ran out;
    /// with `Ended` if `between` ended it; and with `Output` if the output failed. Then a beginning of the lines is
    /// printed.
    fn catalog<O: ResetDeadline, B: Between<S>>(
        &self,
        alloc: Global,
        shelves: &mut S,
        key: &str,
        output: &mut O,
        between: &mut B,
    ) -> Result<(), CatalogRefusal>
        ensures turns { (mid : S) × B.went between.old between.new shelves.old mid
            × IsOnlyRead (S.shown mid) (S.shown shelves.new) }
        ensures came { (printed : List ℕ) × Appends (O.contents output.old) (O.contents output.new) printed
            × made shelves.old shelves.new (OfKey key.now printed result) }
        ensures fewer { (O.writes output.old).failed ≤ (O.writes output.new).failed }
        ensures output { result ≡ Err catalog.Output → (O.writes output.old).failed < (O.writes output.new).failed }
        // It is begun, so none that is being printed is why it fails.
        ensures begun { IfErr result (λ why. why ≢ catalog.Busy) }
        ensures ended { IsErrOf result catalog.Ended → B.ended between.new };

    /// Returns how many versions the served store keeps at this moment. The served store is only read. Fails with
    /// `Device` if a disk failed, and with `Memory` if memory ran out.
    fn versions(&self, shelves: &mut S) -> Result<u64, StoreFault>
        ensures reads { IsOnlyRead (S.shown shelves.old) (S.shown shelves.new) }
        ensures cause { HasCause (S.shown shelves.old) (S.shown shelves.new) result }
        ensures counted { IfOk result (λ n. counted shelves.old shelves.new n) };

    /// Returns what is known of the served store beside its versions. Does not open its file.
    fn figures<'s>(&self, shelves: &'s S) -> Metrics<'s>
        ensures { figured shelves.now result };

    // An order that comes while a copy is made or a catalog is printed does nothing.
    ghost busy: { (s : S) (path : List ℕ) → made s s (ToPath path (Err Busy)) };

    ghost no_catalog: { (s : S) (key : List ℕ) → made s s (OfKey key [] (Err catalog.Busy)) };
}

/// What carries out the orders to copy a store and to print a catalog, counts what it keeps, and has the room that is
/// kept on its disk for the other orders.
pub trait CopyOrders<S: Shelves> {
    ghost use Rattle.std.specs.Prelude.{ℕ, ◌≡◌, ◌<◌, ◌≤◌, ◌++◌, true, List, [], ◌∷◌, Err, IfOk};
    ghost use Rattle.std.specs.Io.KnownBytes.{Appends};
    ghost use Rattle.control.specs.Copying.{IsOnlyRead, Making, OfKey, ToPath};
    ghost use Rattle.control.specs.Reserve.{DiskDeed, GaveUp, LeavesOthers};
    ghost use Rattle.control.specs.declared.copies.CatalogRefusal.TheVariants as catalog;
    ghost use Rattle.control.specs.declared.health.Metrics.{Metrics};
    ghost use Rattle.world.specs.Store.{HasCause};

    /// What is made of the store: relates it before and after that, and what was made.
    ghost made: { S → S → Making → Type 0 };

    /// What a count says, by the store before and after it, and the number.
    ghost counted: { S → S → ℕ → Type 0 };

    /// What is known of the figures of a store, by this value and the store.
    ghost figured: { Self → S → Metrics → Type 0 };

    /// What happens while an order to copy or to print a catalog is carried out: relates this value before and after
    /// it to the store before and after it, and to what was made.
    ghost meanwhile: { Self → Self → S → S → Making → Type 0 };

    /// What was done so far with the room that is kept on the disk of the store, and the copies that were begun, the
    /// oldest first.
    ghost deeds: { Self → List DiskDeed };

    /// What else stays while another order uses that room: relates this value before and after it.
    ghost rests: { Self → Self → Type 0 };

    /// Makes the store of a file, with this path, one of the store as it is at this moment. Fails as `Copies::copy`
    /// does, and with `Busy` if another copy is being made or a catalog is printed.
    fn copy_to(&mut self, shelves: &mut S, path: &str) -> Result<(), CopyRefusal>
        ensures meanwhile { meanwhile self.old self.new shelves.old shelves.new (ToPath path.now result) }
        ensures came { made shelves.old shelves.new (ToPath path.now result) };

    /// Prints the catalog of a key, as the store is at this moment. Fails as `Copies::catalog` does, and with `Busy` if
    /// a copy is being made or another catalog is printed.
    fn catalog_to<O: ResetDeadline>(
        &mut self,
        alloc: Global,
        shelves: &mut S,
        key: &str,
        output: &mut O,
    ) -> Result<(), CatalogRefusal>
        ensures meanwhile { (printed : List ℕ)
            → meanwhile self.old self.new shelves.old shelves.new (OfKey key.now printed result) }
        ensures came { (printed : List ℕ) × Appends (O.contents output.old) (O.contents output.new) printed
            × made shelves.old shelves.new (OfKey key.now printed result) }
        ensures fewer { (O.writes output.old).failed ≤ (O.writes output.new).failed }
        ensures output { result ≡ Err catalog.Output → (O.writes output.old).failed < (O.writes output.new).failed };

    /// Returns how many versions the store keeps at this moment. The store is only read. Fails with `Device` if a disk
    /// failed, and with `Memory` if memory ran out.
    fn versions(&self, shelves: &mut S) -> Result<u64, StoreFault>
        ensures reads { IsOnlyRead (S.shown shelves.old) (S.shown shelves.new) }
        ensures cause { HasCause (S.shown shelves.old) (S.shown shelves.new) result }
        ensures counted { IfOk result (λ n. counted shelves.old shelves.new n) };

    /// Returns what is known of the store beside its versions. Does not open its file.
    fn figures<'s>(&self, shelves: &'s S) -> Metrics<'s>
        ensures { figured self.now shelves.now result };

    /// Gives up the room that is kept on the disk of the store, and returns whether there was some. Only a store that
    /// can be asked again has some.
    fn give_up_room(&mut self) -> bool
        ensures noted { deeds self.new ≡ deeds self.old ++ GaveUp result ∷ [] }
        ensures rests { rests self.old self.new }
        ensures others { result ≡ true → (s : S) → LeavesOthers (S.shown s) };

    // Where nothing was done, all stays.
    ghost is_same: { (k : Self) → rests k k };
}
