//! Migrating the store of a file of an older schema into the store of another file.
ghost use Rattle.std.specs.Prelude.{◌≡◌, ◌≢◌, ◌⊎◌, false, Err};
ghost use Rattle.runner.specs.Migrate.{MigratesCopy, MigratesEmpty, MigratesFile, MigratesTo};
ghost use Rattle.runner.specs.Opened.{MeetsLoneLog};
ghost use Rattle.sqlite.specs.Held.{state};
ghost use Rattle.store.specs.Migrated.{HasCauseInOne, Migrates};

use crate::copy_line::CopyLine;
use crate::file_checks::{FileChecks, target_refusal};
use crate::found::{ClosedFile, Found, FoundTables, OpenedStore};
use crate::older_files::OlderFiles;
use crate::temporary_files::TemporaryFiles;
use commands::refusal::CommandRefusal;
use file_action::refusal::new_store_refusal;
use sqlite::{Alter, Connection, MemStore};
use sqlite_trees::store::Store;
use std::alloc::Global;
use store::files::names_no_file;
use store::migrate::migrate;
use store_files::files::{StoreFiles, Use};
use store_files::refusal::StoreRefusal;
use world::shelves::Shelves;

/// An older store that is open: that of a file, or one with no tables in memory.
pub(crate) trait OlderStore {
    ghost use Rattle.sqlite.specs.State.{State};
    ghost use Rattle.runner.specs.Migrate.{MigratesInto};

    /// Its tables.
    ghost state_of: { Self → State };

    /// Puts what it has into an open store. Fails with the refusals of the store.
    fn migrate_into(
        &mut self,
        fresh: &mut OpenedStore,
        line: &CopyLine<'_>,
    ) -> Result<(), CommandRefusal>
        ensures { MigratesInto state_of (λ s. ⟦<Found as Shelves>⟧.shown s.shelves)
            self.old self.new fresh.old fresh.new result };
}

impl OlderStore for ClosedFile {
    ghost use Rattle.sqlite.specs.Held.{state};

    ghost state_of = { λ c. state ⟦<FoundTables as Store>⟧ c.connection };

    fn migrate_into(
        &mut self,
        fresh: &mut OpenedStore,
        line: &CopyLine<'_>,
    ) -> Result<(), CommandRefusal> {
        migrate_from(&mut self.connection, fresh, line)?;
        Ok(())
    }
}

impl OlderStore for Connection<MemStore> {
    ghost use Rattle.sqlite.specs.Held.{state};
    ghost use Rattle.sqlite.specs.Steps.{over_memory};

    ghost state_of = { state over_memory };

    fn migrate_into(
        &mut self,
        fresh: &mut OpenedStore,
        line: &CopyLine<'_>,
    ) -> Result<(), CommandRefusal> {
        migrate_from(self, fresh, line)?;
        Ok(())
    }
}

/// Puts what an older store has into that of a file. It is generic over the tables of the first, because a call at
/// those of files for both takes the checker too many steps.
fn migrate_from<S: Alter>(
    old: &mut Connection<S>,
    fresh: &mut OpenedStore,
    line: &CopyLine<'_>,
) -> Result<(), StoreRefusal>
    ensures migrates { Migrates (state S.Store old.old) (state S.Store old.new)
        (⟦<Found as Shelves>⟧.shown fresh.old.shelves) (⟦<Found as Shelves>⟧.shown fresh.new.shelves) result }
    ensures cause { HasCauseInOne (state S.Store old.old) (state S.Store old.new)
        fresh.old.shelves.failures fresh.new.shelves.failures result }
{
    migrate(old, &mut fresh.shelves, line)
}

/// Copies the older store in one file into the store of another. The older file and its log are only read. Fails with
/// the refusals of the store, and with `NotEmpty` if both names lead to one file, which stays as it was, or a log
/// stands alone beside the other.
///
/// It opens the older store before the other, and judges its tables after it opened the other. What it opens is a copy.
/// An older file that has no bytes, or is missing, has no tables: it is neither opened nor made. On a terminal it shows
/// how far it is.
pub(crate) fn migrate_file<L, Q, G>(
    alloc: Global,
    checks: &L,
    older: &mut Q,
    targets: &mut G,
    from: &str,
    to: &str,
) -> Result<(), CommandRefusal>
where
    L: FileChecks,
    Q: OlderFiles<ClosedFile>,
    G: StoreFiles<OpenedStore, ClosedFile>,
    ensures migrates { MigratesFile ⟦<ClosedFile as OlderStore>⟧.state_of (λ s. ⟦<Found as Shelves>⟧.shown s.shelves)
        (record { begins = Q.begins; left = Q.left; before = Q.history older.old; after = Q.history older.new })
        (record { begins = G.begins; left = G.left; before = G.history targets.old; after = G.history targets.new })
        from.now to.now result }
    // No store was to be opened at a name that was not tested.
    ensures tested { (G.history targets.new ≡ G.history targets.old)
        ⊎ (L.free checks.now from.now to.now × ((from.now ≢ to.now) × L.apart checks.now from.now to.now)) }
    // If the file was refused with `Device`, this says whether a log stands alone there.
    ensures lone { MeetsLoneLog (L.lone_log checks.now to.now) (G.history targets.old) (G.history targets.new) to.now
        (Err CommandRefusal.NotEmpty) (Err CommandRefusal.Device) result }
{
    checks.check_name(from, to)?;
    if names_no_file(from) {
        return Err(StoreRefusal::Device.into());
    }
    if checks.is_missing_or_empty(from) {
        return migrate_nothing(alloc, checks, targets, from, to);
    }
    let copy = match older.copy(from, to) {
        Ok(copy) => copy,
        // no copy can be made beside it, because it is the new store
        Err(_) if is_one_file(checks, from, to) => return Err(CommandRefusal::NotEmpty),
        Err(unread) => return Err(unread.into()),
    };
    migrate_copy(checks, older, targets, &copy, from, to)
}

/// Migrates a copy of the older file at `from`, as `migrate_file` does. The copy loses its names as soon as it is open.
fn migrate_copy<L, Q, G>(
    checks: &L,
    older: &mut Q,
    targets: &mut G,
    copy: &TemporaryFiles,
    from: &str,
    to: &str,
) -> Result<(), CommandRefusal>
where
    L: FileChecks,
    Q: OlderFiles<ClosedFile>,
    G: StoreFiles<OpenedStore, ClosedFile>,
    ensures migrates { MigratesCopy ⟦<ClosedFile as OlderStore>⟧.state_of (λ s. ⟦<Found as Shelves>⟧.shown s.shelves)
        (record { begins = Q.begins; left = Q.left; before = Q.history older.old; after = Q.history older.new })
        (record { begins = G.begins; left = G.left; before = G.history targets.old; after = G.history targets.new })
        copy.now.path.bytes.items copy.now.log.bytes.items to.now result }
    ensures tested { (G.history targets.new ≡ G.history targets.old)
        ⊎ ((from.now ≢ to.now) × L.apart checks.now from.now to.now) }
    // If the file was refused with `Device`, this says whether a log stands alone there.
    ensures lone { MeetsLoneLog (L.lone_log checks.now to.now) (G.history targets.old) (G.history targets.new) to.now
        (Err CommandRefusal.NotEmpty) (Err CommandRefusal.Device) result }
{
    let mut old = older.open_unnamed(copy)?;
    let told = migrate_to(checks, targets, from, &mut old.store, to);
    older.close(old);
    told
}

/// Whether both names are equal or lead to one file.
fn is_one_file<L: FileChecks>(checks: &L, path: &str, other: &str) -> bool
    ensures { result ≡ false → (path.now ≢ other.now) × L.apart checks.now path.now other.now }
{
    path == other || checks.is_same(path, other)
}

/// Opens the store of a file, and then fails: with `NotEmpty` if it has more than `common`, and otherwise because there
/// are no older tables.
fn migrate_nothing<L, G>(
    alloc: Global,
    checks: &L,
    targets: &mut G,
    from: &str,
    to: &str,
) -> Result<(), CommandRefusal>
where
    L: FileChecks,
    G: StoreFiles<OpenedStore, ClosedFile>,
    ensures migrates { MigratesEmpty (λ s. ⟦<Found as Shelves>⟧.shown s.shelves)
        (record { begins = G.begins; left = G.left; before = G.history targets.old; after = G.history targets.new })
        to.now result }
    ensures tested { (G.history targets.new ≡ G.history targets.old)
        ⊎ ((from.now ≢ to.now) × L.apart checks.now from.now to.now) }
    // If the file was refused with `Device`, this says whether a log stands alone there.
    ensures lone { MeetsLoneLog (L.lone_log checks.now to.now) (G.history targets.old) (G.history targets.new) to.now
        (Err CommandRefusal.NotEmpty) (Err CommandRefusal.Device) result }
{
    let Ok(mut none) = Connection::open_in_memory(alloc) else {
        return Err(StoreRefusal::Memory.into());
    };
    migrate_to(checks, targets, from, &mut none, to)
}

/// Opens the store of a file and puts what an open older store has, whose file is at `from`, into it. Fails with the
/// refusals of the store, and with `NotEmpty` if both names lead to one file.
fn migrate_to<L, O, G>(
    checks: &L,
    targets: &mut G,
    from: &str,
    old: &mut O,
    to: &str,
) -> Result<(), CommandRefusal>
where
    L: FileChecks,
    O: OlderStore,
    G: StoreFiles<OpenedStore, ClosedFile>,
    ensures migrates { MigratesTo O.state_of (λ s. ⟦<Found as Shelves>⟧.shown s.shelves)
        (record { begins = G.begins; left = G.left; before = G.history targets.old; after = G.history targets.new })
        to.now old.old old.new result }
    ensures tested { (G.history targets.new ≡ G.history targets.old)
        ⊎ ((from.now ≢ to.now) × L.apart checks.now from.now to.now) }
    // If the file was refused with `Device`, this says whether a log stands alone there.
    ensures lone { MeetsLoneLog (L.lone_log checks.now to.now) (G.history targets.old) (G.history targets.new) to.now
        (Err CommandRefusal.NotEmpty) (Err CommandRefusal.Device) result }
{
    if is_one_file(checks, from, to) {
        return Err(CommandRefusal::NotEmpty);
    }
    let mut fresh = match targets.open(to, Use::Writing) {
        Ok(file) => file,
        Err(unopened) => {
            return Err(new_store_refusal(target_refusal(checks, to, unopened).into()));
        }
    };
    let line = CopyLine::new(checks.line("migrate 2/2"));
    let told = old.migrate_into(&mut fresh.store, &line);
    line.clear();
    targets.close(fresh);
    told
}
