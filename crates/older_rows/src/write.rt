//! Writes the world of an older store into a fresh one in one transaction.

ghost use Rattle.std.specs.Prelude.{◌≡◌};
ghost use Rattle.sqlite.specs.Held.{state};
ghost use Rattle.older_rows.specs.Causes.{FailsAs};
ghost use Rattle.older_rows.specs.Visits.{is_done};
ghost use Rattle.older_rows.specs.Filled.{Migrates};

use crate::fill::fill;
use older::schema::Format;
use sqlite::{Alter, Connection, Error, ErrorCode};
use statements::extract_rows::CopyError;
use statements::meter::Meter;
use statements::transaction::commit_if;
use std::alloc::Global;

/// Reports whether all rows were put in.
fn is_whole(filled: &Result<bool, CopyError>) -> bool
    ensures value { result ≡ is_done filled.now }
{
    matches!(filled, Ok(true))
}

/// Writes all that an older store has into a fresh one that has only `common`, in one transaction. Returns false, and
/// writes nothing, if the older tables stand for no world. A meter hears of the rows of versions and zips. Fails with
/// `Source` or `Fresh`, by the store that failed.
pub fn write_world<S: Alter, F: Alter, M: Meter>(
    alloc: Global,
    source: &mut Connection<S>,
    format: Format,
    fresh: &mut Connection<F>,
    meter: &M,
) -> Result<bool, CopyError>
    ensures migrates { Migrates format (state S.Store source.old) (state S.Store source.new)
        (state F.Store fresh.old) (state F.Store fresh.new) (is_done result) }
    ensures cause { FailsAs format (state S.Store source.old) (state S.Store source.new) result }
{
    if !fresh.is_autocommit() {
        return Err(CopyError::Fresh(Error::SqliteFailure(ErrorCode::TransactionState)));
    }
    let mut tx = fresh.transaction();
    let filled = fill(alloc, source, format, &mut tx, meter);
    match commit_if(tx, is_whole(&filled)) {
        Ok(()) => filled,
        Err(error) => Err(CopyError::Fresh(error)),
    }
}
