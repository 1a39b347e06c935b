//! Copies the shelves of a store that some teams see into a fresh store.

ghost use Rattle.std.specs.Prelude.{◌≡◌, ◌≢◌, map as each};
ghost use Rattle.sqlite.specs.Held.{state};
ghost use Rattle.setup.specs.Extracted.{HasCauseInEither};
ghost use Rattle.setup.specs.Parts.{ExtractsTeams};
ghost use Rattle.store.specs.Shown.{shown_of, shown_with};

use crate::store::{SqlShelves, fault};
use cache::caches::Caches;
use setup::copy::copy_teams;
use setup::judge::Judged;
use sqlite::Alter;
use statements::extract_rows::CopyError;
use statements::meter::Meter;
use store_files::refusal::StoreRefusal;
use world::registry::StoreFault;

/// Returns the refusal for a fault of a store.
pub(crate) fn refusal_of(fault: StoreFault) -> StoreRefusal
    ensures device { result ≡ StoreRefusal.Device → fault ≡ StoreFault.Device }
    ensures told { fault ≡ StoreFault.Device → result ≡ StoreRefusal.Device }
    ensures named { (result ≢ StoreRefusal.BadSchema) × (result ≢ StoreRefusal.NotEmpty)
        × (result ≢ StoreRefusal.NoTeam) }
{
    match fault {
        StoreFault::Device => StoreRefusal::Device,
        StoreFault::Memory => StoreRefusal::Memory,
    }
}

impl<S: Alter> SqlShelves<S> {
    /// Copies the part of some teams into the fresh store: the shelves that any of them sees, all their entries, and
    /// their keys with their rights. The names of the shelves are read first, then the rows one at a time, and all are
    /// written in one transaction. Naming a team twice changes nothing. A meter hears of the rows of versions and zips.
    ///
    /// Fails with `NoTeam` if no team is named or a name is not a team's (`common` and groups are no teams), otherwise
    /// with `NotEmpty` if the fresh store has another shelf, a key or an entry; with `Device` if a disk failed and with
    /// `Memory` if memory ran out. Then both stores are as they were; the source always is. After Ok, a crash leaves
    /// only the part in the fresh store, wherever an earlier fault had left that; after `NoTeam` and `NotEmpty`,
    /// nothing that it did not leave before; after another failure, as `AfterFill` says, it may leave the part too.
    pub fn extract_teams<F: Alter, M: Meter>(
        &mut self,
        teams: &[&str],
        fresh: &mut SqlShelves<F>,
        meter: &M,
    ) -> Result<(), StoreRefusal>
        ensures extracts { ExtractsTeams (each (λ team. team.now) teams.now)
            (shown_with (state S.Store self.old.conn) self.old.kept self.old.failures)
            (shown_with (state S.Store self.new.conn) self.new.kept self.new.failures)
            (shown_with (state F.Store fresh.old.conn) fresh.old.kept fresh.old.failures)
            (shown_with (state F.Store fresh.new.conn) fresh.new.kept fresh.new.failures) result }
        ensures cause { HasCauseInEither self.old.failures self.new.failures
            fresh.old.failures fresh.new.failures result }
    {
        fresh.kept = Caches::new(fresh.alloc);
        self.extract_rows(teams, fresh, meter)
    }

    /// Copies the part of some teams into the tables of the fresh store, and leaves what both stores keep as it is.
    /// Fails as `extract_teams` does.
    fn extract_rows<F: Alter, M: Meter>(
        &mut self,
        teams: &[&str],
        fresh: &mut SqlShelves<F>,
        meter: &M,
    ) -> Result<(), StoreRefusal>
        ensures extracts { ExtractsTeams (each (λ team. team.now) teams.now)
            (shown_of (state S.Store self.old.conn)) (shown_of (state S.Store self.new.conn))
            (shown_of (state F.Store fresh.old.conn)) (shown_of (state F.Store fresh.new.conn)) result }
        ensures same { (self.new.kept ≡ self.old.kept) × (fresh.new.kept ≡ fresh.old.kept) }
        ensures cause { HasCauseInEither self.old.failures self.new.failures
            fresh.old.failures fresh.new.failures result }
    {
        match copy_teams(self.alloc, &mut self.conn, teams, &mut fresh.conn, meter) {
            Ok(Judged::Fit(_)) => Ok(()),
            Ok(Judged::NoTeam) => Err(StoreRefusal::NoTeam),
            Ok(Judged::NotEmpty) => Err(StoreRefusal::NotEmpty),
            Err(CopyError::Source(error)) => Err(refusal_of(fault(&mut self.failures, error))),
            Err(CopyError::Fresh(error)) => Err(refusal_of(fault(&mut fresh.failures, error))),
        }
    }
}
