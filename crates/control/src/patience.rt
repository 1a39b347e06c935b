//! How long an operator may take.
ghost use Rattle.control.specs.Pace.{order_grows, time_for_order};

use histories::Deadline;
use std::time::Duration;

/// The seconds for all reads of an operator's line, and again for all writes of the outcome. Peers wait meanwhile.
const PATIENCE: u64 = 2;

/// The time for all reads of an operator's line, and again for all writes of the outcome.
#[derive(Drop)]
pub(crate) struct ForOrder;

impl Deadline for ForOrder {
    ghost allowed = { time_for_order };

    fn time_for(_moved: u64) -> Duration {
        Duration::from_secs(PATIENCE)
    }

    ghost grows = { order_grows };
}
