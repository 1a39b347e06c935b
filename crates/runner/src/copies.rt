//! Copies of the store of a file while it is served, catalogs of it, counts of its versions, and its sizes. Nothing
//! here has a handle of the system, and only a copy that is begun gives files by which a store can be opened. So a
//! catalog, a count and a ping open none.

ghost use Rattle.std.specs.Prelude.{◌≡◌, ◌≢◌, ◌⊎◌, [], Err, IfErr, IfOk, IsErrOf};
ghost use Rattle.control.specs.Copying.{IsOnlyRead, ToPath};
ghost use Rattle.control.specs.declared.copies.CatalogRefusal.TheVariants as catalog;
ghost use Rattle.control.specs.declared.copies.CopyRefusal.TheVariants.{Busy};
ghost use Rattle.runner.specs.Copies as spec;
ghost use Rattle.runner.specs.Copies.{CopiesInto, CopiesTo, CountsIn, Makes};
ghost use Rattle.runner.specs.Opened.{MeetsLoneLog};
ghost use Rattle.world.specs.Store.{HasCause};

use crate::file_checks::{FileChecks, target_refusal};
use crate::found::{ClosedFile, Found, OpenedStore};
use crate::reserve::SystemReserve;
use crate::slice_pace::SlicePace;
use catalog::PrintError;
use catalog::between::{CatalogEnd, print_between};
use control::{BegunCopy, CatalogRefusal, Copies, CopyRefusal, Metrics};
use histories::{ClockFace, ResetDeadline};
use interleave::between::Between;
use slices::pace::Pace;
use sqlite::Alter;
use std::alloc::Global;
use store::between::CopyEnd;
use store::store::SqlShelves;
use store_files::files::{StoreFiles, Use};
use store_files::refusal::StoreRefusal;
use world::registry::StoreFault;
use world::shelves::Shelves;

/// Files by which copies open their stores.
pub(crate) trait CopyTargets: StoreFiles<OpenedStore, ClosedFile> + Drop {
    /// Returns such files for a copy that is begun, to which nothing was done.
    fn afresh(&self, begun: BegunCopy<'_, SystemReserve<'_>>) -> Self
        ensures { Self.history result ≡ [] };
}

/// The sizes of a file and its log, as the system reports them. None of these calls opens a file.
pub(crate) trait FileSizes {
    ghost use Rattle.std.specs.Prelude.{ℕ, List, Option};

    /// The size that is reported of the file of this name.
    ghost sized: { Self → List ℕ → Option ℕ → Type 0 };

    /// The size that is reported of the log of the store at this path.
    ghost log_sized: { Self → List ℕ → Option ℕ → Type 0 };

    /// Returns how many bytes a file has. None if the system reports nothing, or for a folder or a device.
    fn size(&self, name: &str) -> Option<u64>
        ensures { sized self.now name.now result };

    /// Returns how many bytes the log of the store at a path has. None if the system reports nothing, or memory runs
    /// out for its name.
    fn log_size(&self, path: &str) -> Option<u64>
        ensures { log_sized self.now path.now result };
}

/// Copies the served store of a file into other files, prints catalogs of it, and looks at the sizes of the file and
/// its log.
#[derive(Drop)]
pub(crate) struct FileCopies<'a, C, L, G> {
    pub clock: &'a C,
    pub checks: L,
    /// The file of the served store.
    pub db: &'a str,
    /// Each copy that is begun has such files, and opens its store by them.
    pub targets: G,
}

impl<'a, S, C, L, G> Copies<SqlShelves<S>, SystemReserve<'a>> for FileCopies<'a, C, L, G>
where
    S: Alter,
    C: ClockFace,
    L: FileChecks + FileSizes,
    G: CopyTargets,
{
    ghost use Rattle.std.specs.Prelude.{◌≡◌, None};
    ghost use Rattle.std.proofs.Common.{inr, refl};
    ghost use Rattle.runner.specs.Copies.{CountsIn, Makes};
    ghost use Rattle.runner.specs.declared.found.OpenedStore.{OpenedStore};

    ghost made = { Makes ⟦<SqlShelves<S> as Shelves>⟧.shown
        (λ (s : OpenedStore). ⟦<Found as Shelves>⟧.shown s.shelves) G.begins G.left G.history };

    ghost counted = { CountsIn ⟦<SqlShelves<S> as Shelves>⟧.shown };

    /// It keeps no time of a copy, does not know of one that is being made, and counts no shelf.
    ghost figured = { λ _ f. (f.copied ≡ None) × (f.copying ≡ None) × (f.traffic ≡ None) };

    ghost name = { λ c. c.db.now };

    fn served(&self) -> &str {
        self.db
    }

    fn copy<B: Between<SqlShelves<S>>>(
        &self,
        shelves: &mut SqlShelves<S>,
        begun: BegunCopy<'_, SystemReserve<'a>>,
        between: &mut B,
    ) -> Result<(), CopyRefusal>
        ensures turns { (mid : _) × B.went between.old between.new shelves.old mid
            × IsOnlyRead (⟦<SqlShelves<S> as Shelves>⟧.shown mid) (⟦<SqlShelves<S> as Shelves>⟧.shown shelves.new) }
        ensures came { Makes ⟦<SqlShelves<S> as Shelves>⟧.shown
            (λ (s : OpenedStore). ⟦<Found as Shelves>⟧.shown s.shelves) G.begins G.left G.history
            shelves.old shelves.new (ToPath begun.entry.path.now result) }
        ensures begun { IfErr result (λ why. why ≢ CopyRefusal.Busy) }
        ensures ended { IsErrOf result CopyRefusal.Ended → B.ended between.new }
    {
        let path = begun.path();
        let mut targets = self.targets.afresh(begun);
        copy_to(
            self.clock,
            &self.checks,
            &mut targets,
            self.db,
            shelves,
            path,
            between,
        )
    }

    fn catalog<O: ResetDeadline, B: Between<SqlShelves<S>>>(
        &self,
        alloc: Global,
        shelves: &mut SqlShelves<S>,
        key: &str,
        output: &mut O,
        between: &mut B,
    ) -> Result<(), CatalogRefusal> {
        catalogued(print_between(alloc, shelves, key, output, between))
    }

    fn versions(&self, shelves: &mut SqlShelves<S>) -> Result<u64, StoreFault> {
        count_in(shelves)
    }

    fn figures<'s>(&self, _shelves: &'s SqlShelves<S>) -> Metrics<'s>
        ensures figured { (result.copied ≡ None) × (result.copying ≡ None) × (result.traffic ≡ None) }
        // The sizes are those that are reported of the file of the served store and of its log.
        ensures size { L.sized self.now.checks self.now.db.now result.bytes }
        ensures log { L.log_sized self.now.checks self.now.db.now result.log }
    {
        Metrics {
            bytes: self.checks.size(self.db),
            log: self.checks.log_size(self.db),
            copied: None,
            copying: None,
            traffic: None,
        }
    }

    ghost busy = { λ s path. inr (record { same = refl; tells = refl }) };

    ghost no_catalog = { λ s key. inr (refl, refl, refl) };
}

/// Opens the store of a file and makes it a copy of a served store, whose file is at `db`. It does not open the served
/// file again: for that, for a link to it, and for a name beside which a log stands alone, it fails with `NotEmpty`. If
/// SQLite has a use for the file, it fails with `Device`, and otherwise as `Copies::copy` does. The clock says when a
/// slice of the copy is to end.
fn copy_to<C, L, S, G, B>(
    clock: &C,
    checks: &L,
    targets: &mut G,
    db: &str,
    source: &mut SqlShelves<S>,
    to: &str,
    between: &mut B,
) -> Result<(), CopyRefusal>
where
    C: ClockFace,
    L: FileChecks,
    S: Alter,
    G: StoreFiles<OpenedStore, ClosedFile>,
    B: Between<SqlShelves<S>>,
    ensures turns { (mid : _) × B.went between.old between.new source.old mid × IsOnlyRead
        (⟦<SqlShelves<S> as Shelves>⟧.shown mid) (⟦<SqlShelves<S> as Shelves>⟧.shown source.new) }
    ensures came { CopiesTo ⟦<SqlShelves<S> as Shelves>⟧.shown (λ s. ⟦<Found as Shelves>⟧.shown s.shelves)
        (record { begins = G.begins; left = G.left; before = G.history targets.old; after = G.history targets.new })
        source.old source.new to.now result }
    ensures begun { IfErr result (λ why. why ≢ Busy) }
    ensures ended { IsErrOf result CopyRefusal.Ended → B.ended between.new }
    // No store was to be opened at a name that was not tested.
    ensures tested { (G.history targets.new ≡ G.history targets.old)
        ⊎ (L.free checks.now db.now to.now × L.apart checks.now db.now to.now) }
    // If the file was refused with `Device`, this says whether a log stands alone there.
    ensures lone { MeetsLoneLog (L.lone_log checks.now to.now) (G.history targets.old) (G.history targets.new) to.now
        (Err CopyRefusal.NotEmpty) (Err CopyRefusal.Device) result }
{
    if let Err(refusal) = checks.check_name(db, to) {
        return Err(copy_refusal(refusal));
    }
    if checks.is_same(db, to) {
        return Err(CopyRefusal::NotEmpty);
    }
    let mut fresh = match targets.open(to, Use::Writing) {
        Ok(file) => file,
        Err(unopened) => return Err(copy_refusal(target_refusal(checks, to, unopened))),
    };
    let mut pace = SlicePace::new(clock, checks, to);
    let told = copy_into(&mut pace, source, &mut fresh.store, between);
    targets.close(fresh);
    told
}

/// Makes an open store a copy of the served one, a slice at a time, and has `between` take a turn after each slice.
/// Fails with `NotEmpty` if it has more than an empty store, `Device` if a disk fails, `Memory` if memory runs out, and
/// `Ended` if `between` ended the copy.
fn copy_into<P: Pace, S: Alter, B: Between<SqlShelves<S>>>(
    pace: &mut P,
    source: &mut SqlShelves<S>,
    fresh: &mut OpenedStore,
    between: &mut B,
) -> Result<(), CopyRefusal>
    ensures turns { (mid : _) × B.went between.old between.new source.old mid × IsOnlyRead
        (⟦<SqlShelves<S> as Shelves>⟧.shown mid) (⟦<SqlShelves<S> as Shelves>⟧.shown source.new) }
    ensures came { CopiesInto ⟦<SqlShelves<S> as Shelves>⟧.shown (λ s. ⟦<Found as Shelves>⟧.shown s.shelves)
        source.old source.new fresh.old fresh.new result }
    ensures begun { IfErr result (λ why. why ≢ Busy) }
    ensures ended { IsErrOf result CopyRefusal.Ended → B.ended between.new }
{
    copied(source.copy_between(&mut fresh.shelves, pace, between))
}

/// Returns the result of a copy, by that of the store.
fn copied(told: Result<(), CopyEnd>) -> Result<(), CopyRefusal>
    ensures value { result ≡ spec.copied told }
    ensures begun { IfErr result (λ why. why ≢ Busy) }
    ensures ended { IsErrOf result CopyRefusal.Ended → told ≡ Err CopyEnd.Ended }
{
    match told {
        Ok(()) => Ok(()),
        Err(CopyEnd::Refused(refusal)) => Err(copy_refusal(refusal)),
        Err(CopyEnd::Ended) => Err(CopyRefusal::Ended),
    }
}

/// Returns why no copy was made, by why the store was not opened or copied.
fn copy_refusal(refusal: StoreRefusal) -> CopyRefusal
    ensures value { result ≡ spec.copy_refusal refusal }
    ensures begun { result ≢ Busy }
    ensures goes_on { result ≢ CopyRefusal.Ended }
{
    match refusal {
        StoreRefusal::Device => CopyRefusal::Device,
        StoreRefusal::Memory => CopyRefusal::Memory,
        StoreRefusal::BadSchema => CopyRefusal::NotEmpty,
        StoreRefusal::NotEmpty => CopyRefusal::NotEmpty,
        StoreRefusal::NoTeam => CopyRefusal::Device,
    }
}

/// Returns how many versions the served store has. Fails if the store meets a fault or memory runs out.
fn count_in<S: Alter>(served: &mut SqlShelves<S>) -> Result<u64, StoreFault>
    ensures reads { IsOnlyRead
        (⟦<SqlShelves<S> as Shelves>⟧.shown served.old) (⟦<SqlShelves<S> as Shelves>⟧.shown served.new) }
    ensures cause { HasCause
        (⟦<SqlShelves<S> as Shelves>⟧.shown served.old) (⟦<SqlShelves<S> as Shelves>⟧.shown served.new) result }
    ensures counted { IfOk result (λ n. CountsIn ⟦<SqlShelves<S> as Shelves>⟧.shown served.old served.new n) }
{
    served.versions_kept()
}

/// Returns the result of a catalog, by how its printing ended.
fn catalogued(end: Result<bool, CatalogEnd>) -> Result<(), CatalogRefusal>
    ensures value { result ≡ spec.catalogued end }
    ensures begun { IfErr result (λ why. why ≢ catalog.Busy) }
    ensures ended { IsErrOf result CatalogRefusal.Ended → end ≡ Err CatalogEnd.Ended }
{
    match end {
        Ok(true) => Ok(()),
        Ok(false) => Err(CatalogRefusal::NoKey),
        Err(CatalogEnd::PrintError(PrintError::Device)) => Err(CatalogRefusal::Device),
        Err(CatalogEnd::PrintError(PrintError::Memory)) => Err(CatalogRefusal::Memory),
        Err(CatalogEnd::PrintError(PrintError::Output)) => Err(CatalogRefusal::Output),
        Err(CatalogEnd::Ended) => Err(CatalogRefusal::Ended),
    }
}
