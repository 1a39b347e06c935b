//! The machine over any store.
ghost use Rattle.std.specs.Prelude.{◌≡◌, ◌∷◌, Some};
ghost use Rattle.std.specs.FinMap as map;
ghost use Rattle.machine.specs.Machine.{request_reply, after_request, offered};
ghost use Rattle.machine.specs.Calls.{fault_of, of_key};
ghost use Rattle.machine.specs.Needs.{Told, Meets, MeetsIn, needs, publish_needs, store_needs};
ghost use Rattle.machine.specs.Publishing.{AnswersPut, PublishesTo, CarriesOut, StoresFor};
ghost use Rattle.world.specs.Store.{Does};

use crate::judge::{checked, judge_by_shelf};
use crate::queries::answer_query;
use crate::reply::{Decision, Reply};
use crate::request::{Publish, Request};
use crate::traced_shelves::TracedShelves;
use crate::traced_store::TracedStore;
use std::alloc::Global;
use world::entry::{EntryRef, Holder};
use world::registry::StoreFault;
use world::shelves::Shelves;

/// Answers a request and returns the reply. Fails with `Device` if a device failed, and with `Memory` if memory ran
/// out.
pub fn step<S: Shelves>(
    alloc: Global,
    shelves: &mut S,
    request: &Request,
) -> Result<Reply, StoreFault>
    ensures does { Does (S.shown shelves.old) (S.shown shelves.new) result
        (λ w. request_reply w request.now) (λ w. after_request w request.now) }
{
    let mut lent = TracedStore::new(shelves);
    step_over(alloc, &mut lent, request)
}

/// Answers a request as [`step`] does, over a store that keeps account of what it is asked.
pub fn step_over<S: TracedShelves>(
    alloc: Global,
    shelves: &mut S,
    request: &Request,
) -> Result<Reply, StoreFault>
    ensures does { Does (S.shown shelves.old) (S.shown shelves.new) result
        (λ w. request_reply w request.now) (λ w. after_request w request.now) }
    // It asks the store for what the request needs, in that order and no more, and fails only by a refused need.
    ensures needs { MeetsIn (S.shown shelves.old) (S.shown shelves.new) (S.history shelves.old) (S.history shelves.new)
        (λ w. needs w request.now) (fault_of result) }
    ensures same { (S.history shelves.new).source ≡ (S.history shelves.old).source }
{
    match request {
        Request::Unreadable => Ok(Reply::NotFound),
        Request::Get { key, query } => answer_query(alloc, shelves, key.as_str(), query),
        Request::Put { key, publish } => Ok(Reply::Decided(answer_publish(
            alloc,
            shelves,
            key.as_str(),
            publish,
        )?)),
    }
}

/// Decides a PUT, stores what it publishes, and returns the decision. Fails only if the store fails or memory runs out.
fn answer_publish<S: TracedShelves>(
    alloc: Global,
    shelves: &mut S,
    key: &str,
    publish: &Publish,
) -> Result<Decision, StoreFault>
    ensures does { AnswersPut (S.shown shelves.old) (S.shown shelves.new) result key.now publish.now }
    ensures needs { MeetsIn (S.shown shelves.old) (S.shown shelves.new) (S.history shelves.old) (S.history shelves.new)
        (λ w. Told (of_key key.now) ∷ publish_needs w (map.get w.keys key.now) publish.now) (fault_of result) }
    ensures same { (S.history shelves.new).source ≡ (S.history shelves.old).source }
{
    let Some(holder) = shelves.key(key)? else {
        return Ok(Decision::NotFound);
    };
    publish_to(alloc, shelves, &holder, publish)
}

/// Decides a PUT by the holder of a key, stores what it publishes, and returns the decision. Fails only if the store
/// fails or memory runs out.
fn publish_to<S: TracedShelves>(
    alloc: Global,
    shelves: &mut S,
    holder: &Holder,
    publish: &Publish,
) -> Result<Decision, StoreFault>
    ensures does { PublishesTo (S.shown shelves.old) (S.shown shelves.new) result holder.now publish.now }
    ensures needs { MeetsIn (S.shown shelves.old) (S.shown shelves.new) (S.history shelves.old) (S.history shelves.new)
        (λ w. publish_needs w (Some holder.now) publish.now) (fault_of result) }
    ensures same { (S.history shelves.new).source ≡ (S.history shelves.old).source }
{
    let entry = match checked(alloc, publish, holder.right)? {
        Ok(entry) => entry,
        Err(refused) => return Ok(refused),
    };
    let decision = judge_by_shelf(shelves, holder.shelf.as_str(), publish, &entry)?;
    carry_out(shelves, holder, publish, &entry, decision)?;
    Ok(decision)
}

/// Stores the entry of the publish if the decision is `Published`, and does nothing otherwise. Fails only if the store
/// fails.
fn carry_out<S: TracedShelves>(
    shelves: &mut S,
    holder: &Holder,
    publish: &Publish,
    entry: &EntryRef,
    decision: Decision,
) -> Result<(), StoreFault>
    requires { offered publish.now ≡ Some entry.now }
    ensures does { CarriesOut (S.shown shelves.old) (S.shown shelves.new) result holder.now publish.now decision }
    ensures needs { Meets (S.history shelves.old) (S.history shelves.new)
        (store_needs holder.now publish.now decision) (fault_of result) }
    ensures same { (S.history shelves.new).source ≡ (S.history shelves.old).source }
{
    if decision == Decision::Published {
        return store(shelves, holder, publish, entry);
    }
    Ok(())
}

/// Stores the entry of a publish that passed the checks. Fails only if the store fails.
fn store<S: TracedShelves>(
    shelves: &mut S,
    holder: &Holder,
    publish: &Publish,
    entry: &EntryRef,
) -> Result<(), StoreFault>
    requires { offered publish.now ≡ Some entry.now }
    ensures does { StoresFor (S.shown shelves.old) (S.shown shelves.new) result holder.now publish.now }
    ensures needs { Meets (S.history shelves.old) (S.history shelves.new)
        (store_needs holder.now publish.now Decision.Published) (fault_of result) }
    ensures same { (S.history shelves.new).source ≡ (S.history shelves.old).source }
{
    let shelf = holder.shelf.as_str();
    shelves.insert(shelf, &publish.path, &publish.version, entry)
}
