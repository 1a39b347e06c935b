//! Copies the shelves that some teams see into a fresh store, with keys and entries, or all shelves with their keys.

ghost use Rattle.std.specs.Prelude.{◌≡◌, map as each, ◌≤◌, false, IfOk, OnOk, is_ok};
ghost use Rattle.sqlite.specs.Held.{state};
ghost use Rattle.sqlite.specs.State.{HasCleanDisk};
ghost use Rattle.sqlite_trees.specs.View.{doubt};
ghost use Rattle.world.specs.World.{only_common};
ghost use Rattle.tables.specs.Means.{StandsFor};
ghost use Rattle.statements.specs.Calls.{Spares, ChangesAt};
ghost use Rattle.statements.specs.Rows.{GoesOn, Writing};
ghost use Rattle.setup.specs.Extracted.{InEachTwo};
ghost use Rattle.setup.specs.Parts.{IsJudged, is_fit, is_written, part_of_teams, registry_of};

use crate::judge::{Judged, judge};
use crate::write::{write_part, write_registry};
use sqlite::{Alter, Connection, Transaction};
use statements::extract_rows::CopyError;
use statements::meter::Meter;
use statements::shelves::find_shelves;
use std::alloc::Global;

/// Copies the shelves that some teams see into a fresh store, with their keys and entries, if each name is a team's and
/// the store has only `common`, and returns the verdict. A meter hears of the rows of versions and zips. Fails with
/// `Source` or `Fresh`, by the store that failed.
pub fn copy_teams<S: Alter, F: Alter, M: Meter>(
    alloc: Global,
    source: &mut Connection<S>,
    teams: &[&str],
    fresh: &mut Connection<F>,
    meter: &M,
) -> Result<Judged, CopyError>
    ensures reads { Spares (state S.Store source.old) (state S.Store source.new) }
    ensures clean { doubt (state F.Store fresh.old).is_clean ≤ doubt (state F.Store fresh.new).is_clean }
    ensures spares { IfOk result (λ judged. is_fit judged ≡ false
        → Spares (state F.Store fresh.old) (state F.Store fresh.new)) }
    ensures verdict { InEachTwo (state S.Store source.old) (state S.Store source.new)
        (state F.Store fresh.old) (state F.Store fresh.new)
        (λ w x. IfOk result (IsJudged w x (each (λ team. team.now) teams.now))) }
    ensures changes { InEachTwo (state S.Store source.old) (state S.Store source.new)
        (state F.Store fresh.old) (state F.Store fresh.new)
        (λ w x. ChangesAt (state F.Store fresh.old) (state F.Store fresh.new)
        (is_written result) x (part_of_teams (each (λ team. team.now) teams.now) w)) }
{
    let judged = judge(alloc, source, teams, fresh)?;
    match judged {
        Judged::Fit(shelves) => {
            write_part(source, &shelves, fresh, meter)?;
            Ok(Judged::Fit(shelves))
        }
        Judged::NoTeam => Ok(Judged::NoTeam),
        Judged::NotEmpty => Ok(Judged::NotEmpty),
    }
}

/// Writes all shelves and keys of a store into one that has only `common`, inside a transaction of it. Fails with
/// `Source` or `Fresh`, by the store that failed.
pub fn copy_registry<S: Alter, F: Alter>(
    alloc: Global,
    source: &mut Connection<S>,
    tx: &mut Transaction<'_, F>,
) -> Result<(), CopyError>
    ensures reads { Spares (state S.Store source.old) (state S.Store source.new) }
    ensures same_reference { tx.new.conn.ghost_name ≡ tx.old.conn.ghost_name }
    ensures goes_on { GoesOn (state F.Store tx.old.conn.now) (state F.Store tx.new.conn.now) (is_ok result) }
    ensures copies { HasCleanDisk (state S.Store source.new) → HasCleanDisk (state F.Store tx.new.conn.now)
        → (w : _) → StandsFor (state S.Store source.old) w → Writing (state F.Store tx.old.conn.now) only_common
        → OnOk result (Writing (state F.Store tx.new.conn.now) (registry_of w)) }
{
    let shelves = find_shelves(alloc, source)?;
    write_registry(source, &shelves, tx)
}
