//! Tests the rows of `meta`, which name the schema.

ghost use Rattle.std.specs.Prelude.{◌≡◌, true};
ghost use Rattle.sqlite.specs.Held.{state};
ghost use Rattle.older_rows.specs.Causes.{FailsAs};
ghost use Rattle.older_rows.specs.Visits.{Moves, is_done};
ghost use Rattle.older_rows.specs.Registry.{NamesSchema, IsNamed};
ghost use Rattle.older.specs.Schemas.{number_of};

use crate::walk::{Visit, visit_rows};
use older::schema::Format;
use sqlite::{Alter, Connection, Error, Row, Transaction};
use statements::extract_rows::CopyError;
use statements::meter::Unmetered;
use tables::columns::{int_at, text_at};

/// Visits the rows of `meta` and refuses one that does not name this schema. It puts none into the fresh store, which
/// has a row of its own.
#[derive(Drop)]
struct MetaRows {
    number: i64,
    has_row: bool,
}

impl Visit for MetaRows {
    ghost Puts = { λ so_far row db next after. NamesSchema so_far.number row
        × ((next.number ≡ so_far.number) × ((next.has_row ≡ true) × (after ≡ db))) };

    fn visit<F: Alter>(&mut self, _tx: &mut Transaction<'_, F>, row: &Row) -> Result<bool, Error> {
        if text_at(row, 0)? != Some("schema") || int_at(row, 1)? != Some(self.number) {
            return Ok(false);
        }
        self.has_row = true;
        Ok(true)
    }
}

fn number_of(format: Format) -> i64
    ensures { result ≡ number_of format }
{
    match format {
        Format::One => 1,
        Format::Two => 2,
    }
}

/// Reports whether `meta` names the format and nothing else. Fails with `Source` if the older store does.
pub(crate) fn names_schema<S: Alter, F: Alter>(
    source: &mut Connection<S>,
    format: Format,
    tx: &mut Transaction<'_, F>,
) -> Result<bool, CopyError>
    ensures same_reference { tx.new.conn.ghost_name ≡ tx.old.conn.ghost_name }
    ensures moves { Moves format (IsNamed format) (state S.Store source.old) (state S.Store source.new)
        (state F.Store tx.old.conn.now) (state F.Store tx.new.conn.now) (is_done result) }
    ensures cause { FailsAs format (state S.Store source.old) (state S.Store source.new) result }
{
    let mut rows = MetaRows {
        number: number_of(format),
        has_row: false,
    };
    if !visit_rows(
        source,
        format,
        "SELECT name, value FROM meta",
        tx,
        &mut rows,
        &Unmetered,
    )? {
        return Ok(false);
    }
    Ok(rows.has_row)
}
