//! The checks of a publish with a known key, over any store.
ghost use Rattle.std.specs.Prelude.{◌≡◌, [], ◌∷◌, IfOk, None, OnErr, Some};
ghost use Rattle.std.specs.Result.{result_err};
ghost use Rattle.modver.specs.SemanticVersion.{version_text};
ghost use Rattle.machine.specs.Machine as spec;
ghost use Rattle.machine.specs.Machine.{decided_by_shelf, offered};
ghost use Rattle.machine.specs.Calls.{fault_of, comparison, count_of};
ghost use Rattle.machine.specs.Needs.{Told, Meets};
ghost use Rattle.world.specs.Standing.{standing};
ghost use Rattle.world.specs.Store.{Reads};
ghost use Rattle.world.specs.World.{count};

use crate::decide::{allowed_entry, decide_by_shelf, gomod_refusal};
use crate::reply::Decision;
use crate::request::Publish;
use crate::traced_shelves::TracedShelves;
use std::alloc::{AllocError, Global};
use world::entry::{EntryRef, Right};
use world::reading::Reading;
use world::registry::StoreFault;

/// Returns the entry that a publish by a key with this right hands in, or the answer of the first check of the publish,
/// or of its go.mod, that fails. Fails only if memory runs out.
pub fn checked(
    alloc: Global,
    publish: &Publish,
    right: Right,
) -> Result<Result<EntryRef, Decision>, AllocError>
    ensures refusal { IfOk result (λ r. result_err r ≡ spec.own_refusal publish.now right) }
    ensures entry { IfOk result (λ r. IfOk r (λ e. offered publish.now ≡ Some e)) }
    // It reads no go.mod of a publish that is refused by itself.
    ensures room { OnErr result (spec.first_failing (spec.request_checks publish.now (Some right)) ≡ None) }
{
    let entry = match allowed_entry(publish, right) {
        Ok(entry) => entry,
        Err(refused) => return Ok(Err(refused)),
    };
    let gomod = Reading::of(alloc, entry.gomod)?;
    match gomod_refusal(publish, &gomod) {
        Some(refused) => Ok(Err(refused)),
        None => Ok(Ok(entry)),
    }
}

/// Returns the outcome of the checks of an entry against what stands. Fails only if the store fails. It copies no file,
/// so repeating a publish takes no more memory than the first one did.
pub fn judge_by_shelf<S: TracedShelves>(
    shelves: &mut S,
    shelf: &str,
    publish: &Publish,
    entry: &EntryRef,
) -> Result<Decision, StoreFault>
    ensures reads { Reads (S.shown shelves.old) (S.shown shelves.new) result (λ w. decided_by_shelf
        (standing w shelf.now publish.now.path (version_text publish.now.version) entry.now)
        (count w shelf.now publish.now.path)) }
    ensures needs { Meets (S.history shelves.old) (S.history shelves.new)
        (Told (comparison shelf.now publish.now.path publish.now.version)
        ∷ Told (count_of shelf.now publish.now.path) ∷ []) (fault_of result) }
    ensures same { (S.history shelves.new).source ≡ (S.history shelves.old).source }
{
    let standing = shelves.compare(shelf, &publish.path, &publish.version, entry)?;
    let count = shelves.count(shelf, &publish.path)?;
    Ok(decide_by_shelf(standing, count))
}
