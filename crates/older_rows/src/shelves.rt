//! Tests the rows of `shelf` and puts them in.

ghost use Rattle.std.specs.Prelude.{◌≡◌, ◌⊎◌, true};
ghost use Rattle.sqlite.specs.Held.{state};
ghost use Rattle.older_rows.specs.Causes.{FailsAs};
ghost use Rattle.older_rows.specs.Visits.{Moves, is_done};
ghost use Rattle.older_rows.specs.Registry.{IsCommonRow, IsTeamRow, PutsShelves};

use crate::walk::{Visit, visit_rows};
use older::schema::Format;
use sqlite::{Alter, Connection, Error, Row, Transaction};
use statements::extract_rows::CopyError;
use statements::meter::Unmetered;
use statements::rows::put_shelf;
use std::alloc::Global;
use tables::columns::text_at;
use world::names::{COMMON, is_team_name};
use world::text_set::TextSet;

/// Visits the rows of `shelf` and refuses one that is neither `common` nor a team that has not come before.
#[derive(Drop)]
struct ShelfRows {
    alloc: Global,
    has_common: bool,
    /// The teams that have come so far.
    names: TextSet,
}

impl Visit for ShelfRows {
    ghost Puts = { λ so_far row db next after.
        (IsCommonRow row db after × ((next.names ≡ so_far.names) × (next.has_common ≡ true)))
        ⊎ (IsTeamRow so_far.names row db after next.names × (next.has_common ≡ so_far.has_common)) };

    fn visit<F: Alter>(&mut self, tx: &mut Transaction<'_, F>, row: &Row) -> Result<bool, Error> {
        let Some(name) = text_at(row, 0)? else {
            return Ok(false);
        };
        if name == COMMON {
            self.has_common = true;
            return Ok(true);
        }
        if !is_team_name(name) || self.names.contains(name) {
            return Ok(false);
        }
        put_shelf(tx, name, Some(COMMON))?;
        self.names.insert(String::from_str(self.alloc, name)?)?;
        Ok(true)
    }
}

/// Makes each shelf but `common` a team without a group. Returns false if one may not stand, or `common` is not there.
/// Fails with `Source` or `Fresh`, by the store that failed.
pub(crate) fn put_shelves<S: Alter, F: Alter>(
    alloc: Global,
    source: &mut Connection<S>,
    format: Format,
    tx: &mut Transaction<'_, F>,
) -> Result<bool, CopyError>
    ensures same_reference { tx.new.conn.ghost_name ≡ tx.old.conn.ghost_name }
    ensures moves { Moves format PutsShelves (state S.Store source.old) (state S.Store source.new)
        (state F.Store tx.old.conn.now) (state F.Store tx.new.conn.now) (is_done result) }
    ensures cause { FailsAs format (state S.Store source.old) (state S.Store source.new) result }
{
    let mut rows = ShelfRows {
        alloc,
        has_common: false,
        names: TextSet::new(alloc),
    };
    if !visit_rows(
        source,
        format,
        "SELECT name FROM shelf",
        tx,
        &mut rows,
        &Unmetered,
    )? {
        return Ok(false);
    }
    Ok(rows.has_common)
}
