//! What is done between two slices of a copy, or two lines of a catalog.
use crate::newcomers::Newcomers;
use world::shelves::Shelves;

/// How many entries of a store were copied, and how many it had when the copy was ordered.
#[derive(Clone, Copy, Drop, PartialEq, Eq)]
pub struct CopyProgress {
    pub done: u64,
    pub all: u64,
}

/// Why a copy can't go on after a turn.
#[derive(Clone, Copy, Debug, Drop, PartialEq, Eq)]
pub enum TurnEnd {
    /// It was ended.
    Ended,
    /// Memory ran out for the place of a version.
    Memory,
}

/// What is done with the served store between two slices of a copy of it.
pub trait Between<S: Shelves> {
    ghost use Rattle.std.specs.Prelude.{◌≤◌, IsErrOf, OnOk};
    ghost use Rattle.interleave.specs.Interleave.{IsAsItWas, Notes};
    ghost use Rattle.interleave.specs.declared.between.TurnEnd.TheVariants.{Ended};

    /// What turns do, one after another, with reads of the store between them: relates this value before and after them
    /// to the store before and after them.
    ghost went: { Self → Self → S → S → Type 0 };

    /// Why it ends a copy: what is so of this value when it does.
    ghost ended: { Self → Type 0 };

    /// Takes a turn with the store, and notes the place of each version that it publishes. Fails if the copy can't go
    /// on: with `Memory` if a place was not noted, and with `Ended` if the copy is ended.
    fn turn(&mut self, shelves: &mut S, news: &mut Newcomers) -> Result<(), TurnEnd>
        ensures went { went self.old self.new shelves.old shelves.new }
        ensures honest { (S.shown shelves.new).is_honest → (S.shown shelves.old).is_honest }
        ensures notes { OnOk result (Notes (S.shown shelves.old) (S.shown shelves.new) news.old news.new) }
        ensures cause { IsErrOf result Ended → ended self.new };

    /// Notes how far a copy has come. It is no turn.
    fn note_how_far(&mut self, how_far: CopyProgress)
        ensures same { (s : S) → went self.old self.new s s };

    // No turn is needed to read the store.
    ghost rests: { (b : Self) (s t : S) → IsAsItWas (S.shown s) (S.shown t) → went b b s t };

    // Turns that follow turns are turns.
    ghost goes_on: { (a b c : Self) (r s t : S) → went a b r s → went b c s t → went a c r t };

    // No turn lowers the count of failures.
    ghost no_fewer: { (a b : Self) (s t : S) → went a b s t → (S.shown s).failures ≤ (S.shown t).failures };
}
