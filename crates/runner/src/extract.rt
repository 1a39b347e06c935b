//! Extracting the part of some teams from the store of one file into that of another.

ghost use Rattle.std.specs.Prelude.{◌≡◌, ◌⊎◌, Err, map as each};
ghost use Rattle.runner.specs.Extract.{ExtractsFile, ExtractsPart, Fills};
ghost use Rattle.runner.specs.Opened.{MeetsLoneLog};
ghost use Rattle.store.specs.Extracted.{HasCauseInEither};
ghost use Rattle.store.specs.Parts.{ExtractsTeams};

use crate::copy_line::CopyLine;
use crate::file_checks::{FileChecks, target_refusal};
use crate::found::{ClosedFile, Found, OpenedStore};
use commands::refusal::CommandRefusal;
use file_action::refusal::new_store_refusal;
use sqlite::Alter;
use store::store::SqlShelves;
use store_files::files::{StoreFiles, Use};
use store_files::refusal::StoreRefusal;
use world::shelves::Shelves;

/// Puts some teams' part of the store of one file into the store of another. Fails with the refusals of the store; with
/// `NotEmpty` if both paths lead to one file, which stays empty if it was, or a log stands alone beside the second; and
/// with `Device` if SQLite has a use for the second file. On a terminal it shows how far it is.
///
/// If the first file is empty, it compares the files before it opens either. Otherwise it compares them after it opened
/// the first, because opening the second would meet the first one's lock and fail with `Device`. If a file with bytes
/// has two names, it fails with `Device`, because sqlite refuses hard links.
pub(crate) fn extract_file<L, F, G>(
    checks: &L,
    files: &mut F,
    targets: &mut G,
    db: &str,
    teams: &[&str],
    to: &str,
) -> Result<(), CommandRefusal>
where
    L: FileChecks,
    F: StoreFiles<OpenedStore, ClosedFile>,
    G: StoreFiles<OpenedStore, ClosedFile>,
    ensures extracts { ExtractsFile (λ s. ⟦<Found as Shelves>⟧.shown s.shelves)
        (λ s. ⟦<Found as Shelves>⟧.shown s.shelves)
        (record { begins = F.begins; left = F.left; before = F.history files.old; after = F.history files.new })
        (record { begins = G.begins; left = G.left; before = G.history targets.old; after = G.history targets.new })
        db.now (each (λ team. team.now) teams.now) to.now result }
    // No store was to be opened at a name that was not tested.
    ensures tested { (G.history targets.new ≡ G.history targets.old)
        ⊎ (L.free checks.now db.now to.now × L.apart checks.now db.now to.now) }
    // If the file was refused with `Device`, this says whether a log stands alone there.
    ensures lone { MeetsLoneLog (L.lone_log checks.now to.now) (G.history targets.old) (G.history targets.new) to.now
        (Err CommandRefusal.NotEmpty) (Err CommandRefusal.Device) result }
{
    checks.check_name(db, to)?;
    if checks.is_empty(db) && checks.is_same(db, to) {
        return Err(CommandRefusal::NotEmpty);
    }
    let mut source = files.open(db, Use::Writing)?;
    let told = extract_to(checks, targets, db, &mut source.store, teams, to);
    files.close(source);
    told
}

/// Opens the store of a file and puts some teams' part of an open store into it. It does not open the file of the open
/// store again, which is at `db`: it fails with `NotEmpty`.
fn extract_to<L, G>(
    checks: &L,
    targets: &mut G,
    db: &str,
    source: &mut OpenedStore,
    teams: &[&str],
    to: &str,
) -> Result<(), CommandRefusal>
where
    L: FileChecks,
    G: StoreFiles<OpenedStore, ClosedFile>,
    ensures fills { Fills (λ s. ⟦<Found as Shelves>⟧.shown s.shelves) (λ s. ⟦<Found as Shelves>⟧.shown s.shelves)
        (record { begins = G.begins; left = G.left; before = G.history targets.old; after = G.history targets.new })
        (each (λ team. team.now) teams.now) to.now source.old source.new result }
    ensures tested { (G.history targets.new ≡ G.history targets.old) ⊎ L.apart checks.now db.now to.now }
    // If the file was refused with `Device`, this says whether a log stands alone there.
    ensures lone { MeetsLoneLog (L.lone_log checks.now to.now) (G.history targets.old) (G.history targets.new) to.now
        (Err CommandRefusal.NotEmpty) (Err CommandRefusal.Device) result }
{
    if checks.is_same(db, to) {
        return Err(CommandRefusal::NotEmpty);
    }
    let mut fresh = match targets.open(to, Use::Writing) {
        Ok(file) => file,
        Err(unopened) => {
            return Err(new_store_refusal(target_refusal(checks, to, unopened).into()));
        }
    };
    let line = CopyLine::new(checks.line("extract"));
    let told = extract_part(source, teams, &mut fresh.store, &line);
    line.clear();
    targets.close(fresh);
    told
}

/// Puts some teams' part of one open store into another. Fails with the refusals of the store.
fn extract_part(
    source: &mut OpenedStore,
    teams: &[&str],
    fresh: &mut OpenedStore,
    line: &CopyLine<'_>,
) -> Result<(), CommandRefusal>
    ensures { ExtractsPart (λ s. ⟦<Found as Shelves>⟧.shown s.shelves) (λ s. ⟦<Found as Shelves>⟧.shown s.shelves)
        source.old source.new fresh.old fresh.new (each (λ team. team.now) teams.now) result }
{
    extract_teams(&mut source.shelves, teams, fresh, line)?;
    Ok(())
}

/// Puts some teams' part of an open store into that of a file. It is generic over the tables of the first, because a
/// call at those of files for both takes the checker too many steps.
fn extract_teams<S: Alter>(
    source: &mut SqlShelves<S>,
    teams: &[&str],
    fresh: &mut OpenedStore,
    line: &CopyLine<'_>,
) -> Result<(), StoreRefusal>
    ensures extracts { ExtractsTeams (each (λ team. team.now) teams.now)
        (⟦<SqlShelves<S> as Shelves>⟧.shown source.old) (⟦<SqlShelves<S> as Shelves>⟧.shown source.new)
        (⟦<Found as Shelves>⟧.shown fresh.old.shelves) (⟦<Found as Shelves>⟧.shown fresh.new.shelves) result }
    ensures cause { HasCauseInEither source.old.failures source.new.failures
        fresh.old.shelves.failures fresh.new.shelves.failures result }
{
    source.extract_teams(teams, &mut fresh.shelves, line)
}
