//! Migrates a store of an older schema into one of today's.

ghost use Rattle.sqlite.specs.Held.{state};
ghost use Rattle.store.specs.Shown.{shown_with};
ghost use Rattle.store.specs.Migrated.{Migrates, HasCauseInOne};

use crate::extract::refusal_of;
use crate::store::{SqlShelves, fault};
use cache::caches::Caches;
use older::schema::format_of;
use older_rows::write::write_world;
use setup::judge::is_blank;
use setup::refusal::open_refusal;
use sqlite::{Alter, Connection, Error, ErrorCode};
use statements::extract_rows::CopyError;
use statements::meter::Meter;
use store_files::refusal::StoreRefusal;

/// Copies all that a store of schema 1 or 2 has into the fresh store: each shelf but `common` becomes a team without a
/// group. The older store is only read, a row at a time, and all rows are written in one transaction. A meter hears of
/// the rows of versions and zips.
///
/// Fails with `NotEmpty` if the fresh store has another shelf, a key or an entry, otherwise with `BadSchema` if the
/// tables of the older store are those of no older schema or stand for no world; with `Device` if a disk failed and
/// with `Memory` if memory ran out. Then both stores are as they were. After Ok, a crash leaves only the older world in
/// the fresh store, wherever an earlier fault had left that; after `NotEmpty`, nothing that it did not leave before;
/// after another failure, as `AfterFill` says, it may leave the older world too.
pub fn migrate<S: Alter, F: Alter, M: Meter>(
    old: &mut Connection<S>,
    fresh: &mut SqlShelves<F>,
    meter: &M,
) -> Result<(), StoreRefusal>
    ensures migrates { Migrates (state S.Store old.old) (state S.Store old.new)
        (shown_with (state F.Store fresh.old.conn) fresh.old.kept fresh.old.failures)
        (shown_with (state F.Store fresh.new.conn) fresh.new.kept fresh.new.failures) result }
    ensures cause { HasCauseInOne
        (state S.Store old.old) (state S.Store old.new) fresh.old.failures fresh.new.failures result }
{
    fresh.kept = Caches::new(fresh.alloc);
    match is_blank(&mut fresh.conn) {
        Ok(true) => {}
        Ok(false) => return Err(StoreRefusal::NotEmpty),
        Err(error) => return Err(refusal_of(fault(&mut fresh.failures, error))),
    }
    let Some(format) = format_of(old.schema()) else {
        return Err(StoreRefusal::BadSchema);
    };
    match write_world(fresh.alloc, old, format, &mut fresh.conn, meter) {
        Ok(true) => Ok(()),
        Ok(false) => Err(StoreRefusal::BadSchema),
        Err(CopyError::Source(error)) => Err(open_refusal(error)),
        // Rows that no store of today's schema may have, such as a key that comes twice.
        Err(CopyError::Fresh(Error::SqliteFailure(ErrorCode::ConstraintViolation(_)))) => {
            Err(StoreRefusal::BadSchema)
        }
        Err(CopyError::Fresh(error)) => Err(refusal_of(fault(&mut fresh.failures, error))),
    }
}
