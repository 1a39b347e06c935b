//! Fills a fresh store with the rows of an older one.

ghost use Rattle.std.specs.Prelude.{◌≡◌};
ghost use Rattle.sqlite.specs.Held.{state};
ghost use Rattle.older_rows.specs.Causes.{FailsAs};
ghost use Rattle.older_rows.specs.Visits.{Moves, is_done};
ghost use Rattle.older_rows.specs.Filled.{Fills};

use crate::entries::put_entries;
use crate::keys::put_keys;
use crate::meta::names_schema;
use crate::pieces::put_zips;
use crate::shelves::put_shelves;
use older::schema::Format;
use sqlite::{Alter, Connection, Transaction};
use statements::extract_rows::CopyError;
use statements::meter::Meter;
use std::alloc::Global;

/// Fills a store that has only `common` with all that an older one has: its shelves, its keys, its versions and its
/// zips. Returns false if the older tables stand for no world. A meter hears of the rows of versions and zips.
pub(crate) fn fill<S: Alter, F: Alter, M: Meter>(
    alloc: Global,
    source: &mut Connection<S>,
    format: Format,
    tx: &mut Transaction<'_, F>,
    meter: &M,
) -> Result<bool, CopyError>
    ensures same_reference { tx.new.conn.ghost_name ≡ tx.old.conn.ghost_name }
    ensures moves { Moves format (Fills format) (state S.Store source.old) (state S.Store source.new)
        (state F.Store tx.old.conn.now) (state F.Store tx.new.conn.now) (is_done result) }
    ensures cause { FailsAs format (state S.Store source.old) (state S.Store source.new) result }
{
    if !names_schema(source, format, tx)? {
        return Ok(false);
    }
    if !put_shelves(alloc, source, format, tx)? {
        return Ok(false);
    }
    if !put_keys(source, format, tx)? {
        return Ok(false);
    }
    if !put_entries(alloc, source, format, tx, meter)? {
        return Ok(false);
    }
    put_zips(source, format, tx, meter)
}
