//! What is done with the store between two lines of a catalog: nothing, or turns of others.
ghost use Rattle.std.specs.Prelude.{List, ℕ, IsErrOf};
ghost use Rattle.catalog.specs.Meanwhile as spec;

use crate::between::CatalogEnd;
use crate::print::PrintError;
use crate::walk::unread;
use histories::{ResetDeadline, Tell};
use interleave::between::{Between, TurnEnd};
use interleave::definite::Definite;
use interleave::newcomers::Newcomers;
use world::shelves::Shelves;

/// What is done between two lines.
pub(crate) trait Turns<S: Shelves, O: Tell> {
    ghost use Rattle.std.specs.Prelude.{◌≡◌, List, ℕ, IsErrOf, OnErr};
    ghost use Rattle.interleave.specs.Interleave.{IsAsItWas};
    ghost use Rattle.catalog.specs.Meanwhile.{IsNotOutput, StaysOn, past};
    ghost use Rattle.catalog.specs.declared.between.CatalogEnd.TheVariants.{Ended};

    /// What turns do, one after another, with reads of the store between them: relates this value before and after them
    /// to the store before and after them.
    ghost went: { Self → Self → S → S → Type 0 };

    /// Why it ends a catalog: what is so of this value when it does.
    ghost ended: { Self → Type 0 };

    /// Whether a turn may end or fail.
    ghost halts: { Type 0 };

    /// Has a turn taken with the store, and notes the place of each version that the turn publishes. Fails with `Ended`
    /// if the turn ends the catalog, and with `Device` or `Memory` if the store meets a fault or memory runs out.
    fn take(&mut self, shelves: &mut S, news: &mut Newcomers) -> Result<(), CatalogEnd>
        ensures stays { (s : List ℕ) → StaysOn (past (S.shown shelves.old) news.old s)
            (past (S.shown shelves.new) news.new s) result }
        ensures went { went self.old self.new shelves.old shelves.new }
        ensures ended { IsErrOf result Ended → ended self.new }
        ensures halts { OnErr result halts }
        ensures output { IsNotOutput result };

    /// Begins the time that the output has for the next line.
    fn restart(&self, output: &mut O)
        ensures bytes { O.contents output.new ≡ O.contents output.old }
        ensures writes { O.writes output.new ≡ O.writes output.old };

    // No turn is needed to read the store.
    ghost rests: { (b : Self) (s t : S) → IsAsItWas (S.shown s) (S.shown t) → went b b s t };

    // Turns that follow turns are turns.
    ghost goes_on: { (a b c : Self) (r s t : S) → went a b r s → went b c s t → went a c r t };
}

/// No turns: nobody else has the store.
#[derive(Drop)]
pub(crate) struct NoTurns;

impl<S: Shelves, O: Tell> Turns<S, O> for NoTurns {
    ghost use Rattle.interleave.specs.Interleave.{IsAsItWas};
    ghost use Rattle.interleave.proofs.MeanwhileLemmas.{as_it_was_then};

    ghost went = { λ a b s t. IsAsItWas (S.shown s) (S.shown t) };

    ghost ended = { λ a. ⊥ };

    ghost halts = { ⊥ };

    fn take(&mut self, _shelves: &mut S, _news: &mut Newcomers) -> Result<(), CatalogEnd> {
        Ok(())
    }

    fn restart(&self, _output: &mut O) {}

    ghost rests = { λ b s t read. read };

    ghost goes_on = { λ a b c r s t one two. as_it_was_then _ _ _ one two };
}

/// The turns that others take, as between two slices of a copy.
#[derive(Drop)]
pub(crate) struct TurnsBetween<'a, B> {
    pub(crate) between: &'a mut B,
}

impl<'a, S: Definite, O: ResetDeadline, B: Between<S>> Turns<S, O> for TurnsBetween<'a, B> {
    ghost use Rattle.std.specs.Prelude.{◌≡◌};
    ghost use Rattle.std.proofs.Common.{◌∙◌, refl};

    ghost went = { λ a b s t.
        (b.between.ghost_name ≡ a.between.ghost_name) × B.went a.between.now b.between.now s t };

    ghost ended = { λ a. B.ended a.between.now };

    ghost halts = { Unit {0} };

    fn take(&mut self, shelves: &mut S, news: &mut Newcomers) -> Result<(), CatalogEnd> {
        take_turn(shelves, news, self.between)
    }

    fn restart(&self, output: &mut O) {
        output.restart();
    }

    ghost rests = { λ b s t read. (refl, B.rests b.between.now s t read) };

    ghost goes_on = { λ a b c r s t one two. (
      two.0 ∙ one.0,
      B.goes_on a.between.now b.between.now c.between.now r s t one.1 two.1,
    ) };
}

/// Has a turn taken.
fn take_turn<S: Definite, B: Between<S>>(
    shelves: &mut S,
    news: &mut Newcomers,
    between: &mut B,
) -> Result<(), CatalogEnd>
    ensures stays { (s : List ℕ) → spec.StaysOn (spec.past (S.shown shelves.old) news.old s)
        (spec.past (S.shown shelves.new) news.new s) result }
    ensures went { B.went between.old between.new shelves.old shelves.new }
    ensures ended { IsErrOf result CatalogEnd.Ended → B.ended between.new }
    ensures output { spec.IsNotOutput result }
{
    match shelves.settle() {
        Ok(()) => match between.turn(shelves, news) {
            Ok(()) => Ok(()),
            Err(TurnEnd::Ended) => Err(CatalogEnd::Ended),
            Err(TurnEnd::Memory) => Err(CatalogEnd::PrintError(PrintError::Memory)),
        },
        Err(fault) => Err(unread(fault)),
    }
}
