//! Shelves in memory, for one run of the program.
ghost use Rattle.std.specs.Prelude.{◌≡◌, ◌⊎◌, [], true, None, Err, OnOk, OnErr, IfOk, IfErr};
ghost use Rattle.world.specs.World.{only_common, with_team, is_team_name, is_key};
ghost use Rattle.commands.specs.Opening.{AnsweredFor, AreNames, Breaks, ServedFrom, opening};

use crate::refusal::CommandRefusal;
use engine::answer_all;
use histories::{Hear, Tell};
use memory_store::map_shelves::MapShelves;
use std::alloc::Global;
use world::entry::Right;
use world::names::{is_key, is_team_name};
use world::shelves::Shelves;

/// Adds the first team. `Memory` if memory runs out.
fn add_first_team(shelves: &mut MapShelves, team: &str) -> Result<(), CommandRefusal>
    requires begins { shelves.old ≡ only_common }
    requires named { is_team_name team.now ≡ true }
    ensures ok { OnOk result (shelves.new ≡ with_team only_common team.now None) }
    ensures err { IfErr result (λ e. e ≡ CommandRefusal.Memory) }
{
    match shelves.team_add(team, None) {
        Ok(_) => Ok(()),
        Err(_) => Err(CommandRefusal::Memory),
    }
}

/// Adds the publishing key of the first team. `Memory` if memory runs out.
fn add_first_key(shelves: &mut MapShelves, team: &str, key: &str) -> Result<(), CommandRefusal>
    requires begins { shelves.old ≡ with_team only_common team.now None }
    requires team_named { is_team_name team.now ≡ true }
    requires named { is_key key.now ≡ true }
    ensures ok { OnOk result (shelves.new ≡ opening team.now key.now) }
    ensures err { IfErr result (λ e. e ≡ CommandRefusal.Memory) }
{
    match shelves.key_add(team, key, Right::Publishes) {
        Ok(_) => Ok(()),
        Err(_) => Err(CommandRefusal::Memory),
    }
}

/// Returns shelves in memory that have `common`, the team and its publishing key. `Name` if the team or the key breaks
/// its rule, and otherwise `Memory` if memory runs out.
pub fn shelves_with(alloc: Global, team: &str, key: &str) -> Result<MapShelves, CommandRefusal>
    ensures ok { IfOk result (λ shelves. (shelves ≡ opening team.now key.now) × AreNames team.now key.now) }
    ensures err { IfErr result (λ e. ((e ≡ CommandRefusal.Memory) × AreNames team.now key.now)
        ⊎ ((e ≡ CommandRefusal.Name) × (¬ AreNames team.now key.now))) }
{
    if !is_team_name(team) || !is_key(key) {
        return Err(CommandRefusal::Name);
    }
    let Ok(mut shelves) = MapShelves::new(alloc) else {
        return Err(CommandRefusal::Memory);
    };
    add_first_team(&mut shelves, team)?;
    add_first_key(&mut shelves, team, key)?;
    Ok(shelves)
}

/// Answers the requests of the input from shelves in memory that begin with `common`, the team and its publishing key.
/// `Name` if the team or the key breaks its rule, and `Memory` if memory runs out before the first read: then nothing
/// is read. `Io` if the input or the output fails.
pub fn answer_in_memory<I: Hear, O: Tell>(
    alloc: Global,
    team: &str,
    key: &str,
    input: &mut I,
    output: &mut O,
) -> Result<(), CommandRefusal>
    ensures answers { AnsweredFor team.now key.now
        (I.account input.old) (I.account input.new) (O.contents output.old) (O.contents output.new) result }
    // It ends with `Io` only if a call of the input or of the output failed, or if no read is left.
    ensures cause { IfErr result (λ e. e ≡ CommandRefusal.Io → Breaks (λ failure. ServedFrom (opening team.now key.now)
        (I.account input.old) (I.account input.new) (O.contents output.old) (O.contents output.new) (Err failure))
        (I.reads input.old) (I.reads input.new) (O.writes output.old) (O.writes output.new)) }
    // What was written is flushed.
    ensures flushed { OnOk result ((O.writes output.new).unflushed ≡ []) }
{
    let mut shelves = match shelves_with(alloc, team, key) {
        Ok(shelves) => shelves,
        Err(refusal) => return Err(refusal),
    };
    match answer_all(alloc, input, output, &mut shelves) {
        Ok(()) => Ok(()),
        Err(_) => Err(CommandRefusal::Io),
    }
}
