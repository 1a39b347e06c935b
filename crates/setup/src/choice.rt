//! Finds the shelves of a store that some teams see.

ghost use Rattle.std.specs.Prelude.{◌≡◌, map as each, IfOk, IsSome, IsTrue};
ghost use Rattle.sqlite.specs.Held.{state};
ghost use Rattle.world.specs.World.{IsWorld};
ghost use Rattle.statements.specs.Calls.{InEachWorld, Spares};
ghost use Rattle.setup.specs.Parts.{with_parent_and_team, AddsTeam, ListsTeams};

use sqlite::{Alter, Connection, Error};
use statements::registry::find_shelf;
use statements::shelf_list::{Shelf, ShelfList};
use std::alloc::{AllocError, Global};
use text::Text;

/// Returns the list with the parent of a team and then the team added. Fails if memory runs out.
fn with_parent_and_team(
    alloc: Global,
    list: ShelfList,
    parent: Text,
    team: &str,
) -> Result<ShelfList, AllocError>
    ensures { IfOk result (λ longer. longer ≡ with_parent_and_team list parent team.now) }
{
    let above = Shelf {
        name: Text::copy_of(alloc, parent.as_str())?,
        parent: None,
    };
    let team = Shelf {
        name: Text::copy_of(alloc, team)?,
        parent: Some(parent),
    };
    let list = list.with(alloc, above)?;
    list.with(alloc, team)
}

/// Returns the list with the parent of a team and then the team added, or None if no team has the name.
fn add_team<S: Alter>(
    alloc: Global,
    source: &mut Connection<S>,
    list: ShelfList,
    team: &str,
) -> Result<Option<ShelfList>, Error>
    ensures spares { Spares (state S.Store source.old) (state S.Store source.new) }
    ensures answer { InEachWorld (state S.Store source.old) (state S.Store source.new) (λ _ new w.
        IfOk result (λ longer. IsTrue new.is_open × AddsTeam w team.now list longer)) }
{
    match find_shelf(source, team)? {
        Some(Some(parent)) => Ok(Some(with_parent_and_team(alloc, list, parent, team)?)),
        Some(None) => Ok(None),
        None => Ok(None),
    }
}

/// Returns the shelves other than `common` that these teams see, or None if no team is named or a name is not a team's.
pub(crate) fn list_teams<S: Alter>(
    alloc: Global,
    source: &mut Connection<S>,
    teams: &[&str],
) -> Result<Option<ShelfList>, Error>
    ensures spares { Spares (state S.Store source.old) (state S.Store source.new) }
    ensures answer { InEachWorld (state S.Store source.old) (state S.Store source.new) (λ _ new w.
        IfOk result (λ list. (IsSome list → IsTrue new.is_open)
        × (IsWorld w → ListsTeams w (each (λ team. team.now) teams.now) list))) }
{
    if teams.is_empty() {
        return Ok(None);
    }
    let mut list = ShelfList::new(alloc)?;
    for team in teams {
        let Some(longer) = add_team(alloc, source, list, team)? else {
            return Ok(None);
        };
        list = longer;
    }
    Ok(Some(list))
}
