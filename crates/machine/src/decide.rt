//! The checks of a publish.
ghost use Rattle.std.specs.Prelude.{◌≡◌, IfOk, Some, true};
ghost use Rattle.std.specs.Result.{result_err};
ghost use Rattle.machine.specs.Machine as spec;

use crate::reply::{ContentRefusal, Decision};
use crate::request::{GivenTime, Publish};
use world::entry::{EntryRef, MAX_VERSIONS, Right};
use world::entry_test::{Misfit, module_misfit, own_misfit};
use world::reading::Reading;
use world::standing::Standing;

/// Returns the answer of the first check of the go.mod that fails, or None if all pass. Allocates nothing.
pub fn gomod_refusal(publish: &Publish, gomod: &Reading) -> Option<Decision>
    ensures { result ≡ spec.first_failing (spec.gomod_checks publish.now (Some gomod.now)) }
{
    let misfit = module_misfit(&publish.path, &publish.version, gomod)?;
    Some(decision_of(misfit))
}

/// Returns the answer to an entry that may not stand.
fn decision_of(misfit: Misfit) -> Decision
    ensures { result ≡ spec.decision_of misfit }
{
    match misfit {
        Misfit::TooLarge => Decision::TooLarge,
        Misfit::Version => Decision::Refused(ContentRefusal::MajorMismatch),
        Misfit::Time => Decision::Refused(ContentRefusal::TimeMismatch),
        Misfit::GoMod(line) => Decision::Refused(ContentRefusal::BadGoMod(line)),
        Misfit::ModulePath => Decision::Refused(ContentRefusal::ModulePath),
        Misfit::NotBare => Decision::Refused(ContentRefusal::IncompatibleGoMod),
    }
}

/// Returns the entry that a publish by a key with this right hands in. Fails with the answer of the first check of the
/// publish alone that fails. Allocates nothing. None of these checks looks at a store, so a publish by a reader reads
/// no entry and no count.
pub fn allowed_entry(publish: &Publish, right: Right) -> Result<EntryRef, Decision>
    ensures refusal { result_err result ≡ spec.first_failing (spec.request_checks publish.now (Some right)) }
    ensures entry { IfOk result (λ e. spec.offered publish.now ≡ Some e) }
{
    well_formed(publish);
    if !may_publish(right) {
        return Err(Decision::Forbidden);
    }
    fitting_entry(publish)
}

/// Whether a key with this right may publish.
fn may_publish(right: Right) -> bool
    ensures { result ≡ spec.may_publish (Some right) }
{
    right == Right::Publishes
}

/// Returns the entry that a publish hands in. Fails with the answer of the first check of the entry and of the given
/// time that fails.
fn fitting_entry(publish: &Publish) -> Result<EntryRef, Decision>
    ensures refusal { result_err result ≡ spec.first_failing (spec.entry_checks publish.now) }
    ensures entry { IfOk result (λ e. spec.offered publish.now ≡ Some e) }
{
    let Some(entry) = publish.entry() else {
        return Err(Decision::BadLength);
    };
    // An entry whose given time is malformed has the time of its stamp, or none, so no check of its time fails.
    let is_bad = is_bad_time(publish.time);
    if let Some(misfit) = own_misfit(&publish.path, &publish.version, &entry) {
        return Err(decision_of(misfit));
    }
    if is_bad {
        return Err(Decision::Refused(ContentRefusal::BadTime));
    }
    Ok(entry)
}

/// Whether something is given that is no single well-formed time. A `TimeText` is always well formed; the definition
/// checks it anyway, so that the laws over raw events need no premise.
fn is_bad_time(given: GivenTime) -> bool
    ensures exact { result ≡ spec.is_bad_time given }
    ensures malformed { result ≡ true → given ≡ GivenTime.Malformed }
{
    match given {
        GivenTime::Absent => false,
        GivenTime::Malformed => true,
        GivenTime::At(time) => {
            let _time = time.as_str();
            false
        }
    }
}

/// Proves that the path and the version are well formed, as their types promise. The definition checks them anyway, so
/// that the laws over raw events need no premise.
#[tactic(auto, unfolding(modver::specs::SemanticVersion::has_text))]
fn well_formed(publish: &Publish)
    ensures { spec.is_readable publish.now ≡ true }
{
    let _path = publish.path.as_str();
    let _version = publish.version.as_str();
}

/// Returns the outcome of the checks against what stands, from how the entry compares with what the shelf sees and how
/// many versions of the path stand on the shelf. Allocates nothing.
pub fn decide_by_shelf(standing: Standing, count: u64) -> Decision
    ensures { result ≡ spec.decided_by_shelf standing count }
{
    match standing {
        Standing::Same => Decision::Same,
        Standing::Other => Decision::Conflict,
        Standing::Absent if count >= MAX_VERSIONS => Decision::Full,
        Standing::Absent => Decision::Published,
    }
}
