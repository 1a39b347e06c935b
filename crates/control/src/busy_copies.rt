//! What an operator finds who orders something while a copy is made or a catalog is printed.
ghost use Rattle.std.specs.Prelude.{◌≡◌, IfErr, IfOk};
ghost use Rattle.engine.specs.Causes.{IsCausedIn};
ghost use Rattle.interleave.specs.Noted.{IsNoted, with_said};
ghost use Rattle.world.specs.Store.{HasCause};
ghost use Rattle.control.specs.Copying.{IsOnlyRead};
ghost use Rattle.control.specs.Health.{IsPinged};
ghost use Rattle.control.specs.Hearing.{ObeysBy};
ghost use Rattle.control.specs.Line.{most_tries};
ghost use Rattle.control.specs.Pinging.{TellsPing};

use crate::copies::{CatalogRefusal, Copies, CopyOrders, CopyRefusal};
use crate::health::Metrics;
use crate::monitored_store::{Loan, MonitoredStore};
use crate::operator::{Obeyed, Operator};
use crate::reserve::Reserve;
use crate::tally::Tally;
use histories::ResetDeadline;
use interleave::between::CopyProgress;
use interleave::insert_tracker::{InsertTracker, Moment};
use keyring::Keyring;
use std::alloc::Global;
use world::registry::StoreFault;
use world::shelves::Shelves;

/// What an operator finds who orders something while a copy is made or a catalog is printed.
#[derive(Drop)]
pub(crate) struct BusyCopies<'b, K, V> {
    copies: &'b K,
    /// The reserve of the server.
    pub(crate) reserve: &'b mut V,
    /// How far that one is, unless it is a catalog that is printed.
    how_far: Option<CopyProgress>,
}

impl<'a, 'b, 'c, N: Loan, M: Moment, S: Shelves, K: Copies<S, V>, V: Reserve<S>> CopyOrders<
    MonitoredStore<'a, N, InsertTracker<'c, M, S>>,
> for BusyCopies<'b, K, V> {
    ghost use Rattle.std.specs.Prelude.{◌≡◌, Some};
    ghost use Rattle.std.proofs.Common.{refl};
    ghost use Rattle.interleave.specs.Noted.{IsNoted, with_said};
    ghost use Rattle.control.specs.Copying.{IsBusy, IsOnlyRead};
    ghost use Rattle.control.specs.Metrics.{TellsKept};

    ghost made = { λ old new making. K.made old.inner.now.inner.now new.inner.now.inner.now making };

    ghost counted = { λ old new n. K.counted old.inner.now.inner.now new.inner.now.inner.now n };

    /// They tell how far the copy is, or of none while a catalog is printed.
    ghost figured = { λ b w f. TellsKept (K.figured w.inner.now.inner.now) w.traffic w.copied b.how_far f };

    /// The store is only read, and nothing is made of it, since that which is being made is not over.
    ghost meanwhile = { λ b c old new making. (c ≡ b) × IsOnlyRead
        (with_said (S.shown old.inner.now.inner.now)
        (IsNoted old.inner.now.lost M.was M.before old.inner.now.news))
        (with_said (S.shown new.inner.now.inner.now)
        (IsNoted new.inner.now.lost M.was M.before new.inner.now.news)) × IsBusy making };

    ghost deeds = { λ b. V.deeds b.reserve.now };

    /// The reserve is the same one.
    ghost rests = { λ b c. c.reserve.ghost_name ≡ b.reserve.ghost_name };

    /// Makes no copy, and fails with `Busy`.
    fn copy_to(
        &mut self,
        _shelves: &mut MonitoredStore<'a, N, InsertTracker<'c, M, S>>,
        _path: &str,
    ) -> Result<(), CopyRefusal> {
        Err(CopyRefusal::Busy)
    }

    /// Prints nothing, and fails with `Busy`.
    fn catalog_to<O: ResetDeadline>(
        &mut self,
        _alloc: Global,
        _shelves: &mut MonitoredStore<'a, N, InsertTracker<'c, M, S>>,
        _key: &str,
        _output: &mut O,
    ) -> Result<(), CatalogRefusal> {
        Err(CatalogRefusal::Busy)
    }

    fn versions(
        &self,
        shelves: &mut MonitoredStore<'a, N, InsertTracker<'c, M, S>>,
    ) -> Result<u64, StoreFault> {
        count_in::<M, S, K, V>(self.copies, shelves.inner)
    }

    fn figures<'s>(
        &self,
        shelves: &'s MonitoredStore<'a, N, InsertTracker<'c, M, S>>,
    ) -> Metrics<'s> {
        shelves.figures_with(
            figures_in::<M, S, K, V>(self.copies, shelves.inner),
            self.how_far,
        )
    }

    fn give_up_room(&mut self) -> bool {
        <V as Reserve<S>>::give_up_room(self.reserve)
    }

    ghost is_same = { λ b. refl };
}

/// Returns how many versions the store keeps. Fails as `Copies::versions` does.
fn count_in<M: Moment, S: Shelves, K: Copies<S, V>, V>(
    copies: &K,
    noting: &mut InsertTracker<'_, M, S>,
) -> Result<u64, StoreFault>
    ensures reads { IsOnlyRead
        (with_said (S.shown noting.old.inner.now) (IsNoted noting.old.lost M.was M.before noting.old.news))
        (with_said (S.shown noting.new.inner.now) (IsNoted noting.new.lost M.was M.before noting.new.news)) }
    ensures cause { HasCause
        (with_said (S.shown noting.old.inner.now) (IsNoted noting.old.lost M.was M.before noting.old.news))
        (with_said (S.shown noting.new.inner.now) (IsNoted noting.new.lost M.was M.before noting.new.news)) result }
    ensures counted { IfOk result (λ n. K.counted noting.old.inner.now noting.new.inner.now n) }
{
    copies.versions(noting.inner)
}

/// Returns what is known of the store beside its versions.
fn figures_in<'s, M: Moment, S: Shelves, K: Copies<S, V>, V>(
    copies: &K,
    noting: &'s InsertTracker<'_, M, S>,
) -> Metrics<'s>
    ensures { K.figured noting.now.inner.now result }
{
    copies.figures(noting.inner)
}

/// Carries out the order of an operator who came while a copy is made, as `Operator::obeyed` does, and returns what it
/// found, with the same reserve.
pub(crate) fn obey_with<
    'a,
    'b,
    'c,
    O: Operator + Drop,
    N: Loan,
    M: Moment,
    S: Keyring,
    K: Copies<S, V>,
    V: Reserve<S>,
>(
    alloc: Global,
    operator: O,
    tally: &Tally,
    watched: &mut MonitoredStore<'a, N, InsertTracker<'c, M, S>>,
    copies: &'b K,
    how_far: Option<CopyProgress>,
    reserve: &'b mut V,
) -> (Obeyed<O>, BusyCopies<'b, K, V>)
    ensures same { result.1.reserve.ghost_name ≡ reserve.entry.ghost_name }
    ensures obeys { ObeysBy ⟦<MonitoredStore<'a, N, InsertTracker<'c, M, S>> as Shelves>⟧.shown
        ⟦<BusyCopies<'b, K, V> as CopyOrders<MonitoredStore<'a, N, InsertTracker<'c, M, S>>>>⟧.made
        ⟦<BusyCopies<'b, K, V> as CopyOrders<MonitoredStore<'a, N, InsertTracker<'c, M, S>>>>⟧.counted
        ⟦<BusyCopies<'b, K, V> as CopyOrders<MonitoredStore<'a, N, InsertTracker<'c, M, S>>>>⟧.meanwhile
        ⟦<BusyCopies<'b, K, V> as CopyOrders<MonitoredStore<'a, N, InsertTracker<'c, M, S>>>>⟧.rests
        ⟦<BusyCopies<'b, K, V> as CopyOrders<MonitoredStore<'a, N, InsertTracker<'c, M, S>>>>⟧.deeds
        tally.now (record { copies = copies.entry; reserve = reserve.entry; how_far = how_far }) result.1
        watched.old watched.new
        (O.came operator) (O.came result.0.operator) (O.written operator) (O.written result.0.operator)
        result.0.told result.0.noted }
    ensures figures { IfOk result.0.told (TellsPing
        (⟦<BusyCopies<'b, K, V> as CopyOrders<MonitoredStore<'a, N, InsertTracker<'c, M, S>>>>⟧.figured
        (record { copies = copies.entry; reserve = reserve.entry; how_far = how_far }) watched.new)
        (IsPinged tally.now (⟦<MonitoredStore<'a, N, InsertTracker<'c, M, S>> as Shelves>⟧.shown watched.old).failures
        (⟦<MonitoredStore<'a, N, InsertTracker<'c, M, S>> as Shelves>⟧.shown watched.new).failures
        (⟦<BusyCopies<'b, K, V> as CopyOrders<MonitoredStore<'a, N, InsertTracker<'c, M, S>>>>⟧.counted
        watched.old watched.new))) }
    ensures cause { IfErr result.0.told (IsCausedIn most_tries
        (O.reads operator) (O.reads result.0.operator) (O.writes operator) (O.writes result.0.operator)) }
{
    let mut copies = BusyCopies {
        copies,
        reserve,
        how_far,
    };
    let after = operator.obeyed(alloc, tally, watched, &mut copies);
    (after, copies)
}
