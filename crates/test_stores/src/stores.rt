//! Runs scripts on stores in memory.
use sqlite::{Alter, Connection, MemStore};
use statements::meter::Unmetered;
use std::alloc::Global;
use std::test::Fail;
use store::store::SqlShelves;
use store_files::refusal::StoreRefusal;
use test_support::calls::wrong_row;

/// Opens a new store in memory.
fn open_memory(alloc: Global) -> Result<SqlShelves<MemStore>, Fail> {
    match SqlShelves::adopt(alloc, Connection::open_in_memory(alloc)?) {
        Ok(shelves) => Ok(shelves),
        Err(_) => Err(Fail::new("no store in memory")),
    }
}

/// Runs a script on a new store in memory.
fn wrong_row_in_memory<'a>(alloc: Global, script: &'a str) -> Result<&'a str, Fail> {
    let mut shelves = open_memory(alloc)?;
    let wrong = wrong_row(alloc, &mut shelves, script);
    shelves.close();
    wrong
}

/// Runs scripts, with `====` between them, each on a new store in memory, and returns the first row that is answered
/// otherwise, or the empty text.
pub fn wrong_row_of_all<'a>(alloc: Global, scripts: &'a str) -> Result<&'a str, Fail> {
    for script in scripts.split("====\n") {
        let wrong = wrong_row_in_memory(alloc, script)?;
        if wrong != "" {
            return Ok(wrong);
        }
    }
    Ok("")
}

/// Makes the part of these teams.
fn made<S: Alter>(
    whole: &mut SqlShelves<S>,
    part: &mut SqlShelves<S>,
    teams: &[&str],
) -> Result<(), StoreRefusal> {
    whole.extract_teams(teams, part, &Unmetered)
}

/// Reports whether no part of these teams is made of a store, since a name is that of no team.
fn names_no_team_of(
    alloc: Global,
    whole: &mut SqlShelves<MemStore>,
    teams: &[&str],
) -> Result<bool, Fail> {
    let mut part = open_memory(alloc)?;
    let told = made(whole, &mut part, teams);
    part.close();
    Ok(matches!(told, Err(StoreRefusal::NoTeam)))
}

/// Reports whether no part of these teams is made of a new store, since a name is that of no team.
pub fn names_no_team(alloc: Global, teams: &[&str]) -> Result<bool, Fail> {
    let mut whole = open_memory(alloc)?;
    let told = names_no_team_of(alloc, &mut whole, teams);
    whole.close();
    told
}
