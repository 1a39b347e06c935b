//! Lists of events over any store.
ghost use Rattle.std.specs.Prelude.{◌≡◌, ◌≤◌, [], ◌∷◌, IfOk, OnErr, option_copied};
ghost use Rattle.machine.specs.Machine.{reply_to, after, MetDevice};
ghost use Rattle.machine.specs.Runs.{Runs};
ghost use Rattle.world.specs.Store.{Does, GrewOrFull};

use crate::reply::{Answer, Reply};
use crate::request::Event;
use crate::step::step;
use std::alloc::{AllocError, Global};
use text::Text;
use world::registry::StoreFault;
use world::shelves::Shelves;

/// Carries out one event and returns the reply. Fails with `Device` if a device failed, and with `Memory` if memory ran
/// out.
pub fn apply<S: Shelves>(alloc: Global, shelves: &mut S, event: &Event) -> Result<Reply, StoreFault>
    ensures does { Does (S.shown shelves.old) (S.shown shelves.new) result
        (λ w. reply_to w event.now) (λ w. after w event.now) }
{
    match event {
        Event::Requested(request) => step(alloc, shelves, request),
        Event::TeamAdd { name, group } => Ok(Reply::Registry(shelves.team_add(
            name.as_str(),
            named(group),
        )?)),
        Event::GroupAdd { name } => Ok(Reply::Registry(shelves.group_add(name.as_str())?)),
        Event::KeyRevoke { key } => { Ok(Reply::Registry(shelves.key_revoke(key.as_str())?)) }
        Event::KeysRevoke { shelf } => { Ok(Reply::Registry(shelves.keys_revoke(shelf.as_str())?)) }
        Event::KeyAdd { shelf, key, right } => Ok(Reply::Registry(shelves.key_add(
            shelf.as_str(),
            key.as_str(),
            *right,
        )?)),
    }
}

/// Returns the name, or None if there is none.
fn named(name: &Option<Text>) -> Option<&str>
    ensures { option_copied result ≡ name.now }
{
    match name {
        Some(name) => Some(name.as_str()),
        None => None,
    }
}

/// Carries out one event and returns its reply or its fault.
fn answer<S: Shelves>(alloc: Global, shelves: &mut S, event: &Event) -> Answer
    ensures runs { Runs (S.shown shelves.old) (S.shown shelves.new) (event.now ∷ []) (result ∷ []) }
    ensures no_fewer { (S.shown shelves.old).failures ≤ (S.shown shelves.new).failures }
    ensures device { result ≡ Answer.Failed StoreFault.Device
        → GrewOrFull (S.shown shelves.old).failures (S.shown shelves.new).failures }
{
    match apply(alloc, shelves, event) {
        Ok(reply) => Answer::Replied(reply),
        Err(fault) => Answer::Failed(fault),
    }
}

/// Carries out the events one after the other and returns their answers. Fails only if there is no memory for the
/// answers, and then does nothing.
pub fn run<S: Shelves>(
    alloc: Global,
    shelves: &mut S,
    events: &[Event],
) -> Result<Vec<Answer>, AllocError>
    ensures runs { IfOk result (λ answers. Runs (S.shown shelves.old) (S.shown shelves.new) events.now answers.items) }
    // The count of failures never falls. An answer reports a failed device only if the count grew or cannot grow.
    ensures no_fewer { (S.shown shelves.old).failures ≤ (S.shown shelves.new).failures }
    ensures device { IfOk result
        (λ answers. MetDevice answers.items
        → GrewOrFull (S.shown shelves.old).failures (S.shown shelves.new).failures) }
    ensures err { OnErr result (shelves.new ≡ shelves.old) }
{
    let mut answers = Vec::with_capacity(alloc, events.len())?;
    for event in events {
        let answer = answer(alloc, shelves, event);
        answers.push(answer)?;
    }
    Ok(answers)
}
