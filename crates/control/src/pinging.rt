//! What a ping gets.
ghost use Rattle.std.specs.Prelude.{◌≡◌};
ghost use Rattle.control.specs.Health.{IsPinged};
ghost use Rattle.control.specs.Pinging.{Pings, IsLineFor, TellsPing};

use crate::control_reply::ControlReply;
use crate::copies::CopyOrders;
use crate::health::Health;
use crate::tally::Tally;
use orders::Outcome;
use std::alloc::Global;
use world::registry::StoreFault;
use world::shelves::Shelves;

/// Counts the versions that the store keeps, and returns what a ping gets: the lines of the health, with the tally, the
/// failures of the store, and the figures that `copies` has of it. Returns `Outcome::Failed` if the count fails or
/// memory runs out for the lines.
pub(crate) fn ping<S: Shelves, K: CopyOrders<S>>(
    alloc: Global,
    tally: &Tally,
    shelves: &mut S,
    copies: &K,
) -> ControlReply
    ensures pings { Pings S.shown K.counted tally.now shelves.old shelves.new result }
    ensures figures { TellsPing (K.figured copies.now shelves.new) (IsPinged tally.now (S.shown shelves.old).failures
        (S.shown shelves.new).failures (K.counted shelves.old shelves.new)) result }
{
    match copies.versions(shelves) {
        Ok(versions) => tell(
            alloc,
            &Health {
                tally: *tally,
                store_failures: shelves.failures(),
                versions,
                figures: copies.figures(shelves),
            },
        ),
        Err(fault) => ControlReply::Outcome(Outcome::Failed(fault)),
    }
}

/// Returns the lines of a health, or `Outcome::Failed(StoreFault::Memory)` if memory runs out for them.
fn tell(alloc: Global, health: &Health) -> ControlReply
    ensures { IsLineFor health.now result }
{
    match health.line(alloc) {
        Ok(line) => ControlReply::Health(line),
        Err(_) => ControlReply::Outcome(Outcome::Failed(StoreFault::Memory)),
    }
}
