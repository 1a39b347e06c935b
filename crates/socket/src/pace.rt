//! How long a peer may take.
ghost use Rattle.socket.specs.Pace as spec;

use crate::bounds::{BYTES_A_SECOND, PATIENCE, REST_PATIENCE};
use histories::Deadline;
use std::time::Duration;

/// The time for all reads of a message, and again for all writes of a reply.
#[derive(Drop)]
pub(crate) struct ForMessage;

impl Deadline for ForMessage {
    ghost allowed = { spec.time_for_message };

    fn time_for(moved: u64) -> Duration {
        Duration::from_secs(PATIENCE + moved / BYTES_A_SECOND)
    }

    ghost grows = { spec.message_grows };
}

/// The time for what a peer still sends after its message.
#[derive(Drop)]
pub(crate) struct ForRest;

impl Deadline for ForRest {
    ghost allowed = { spec.time_for_rest };

    fn time_for(_moved: u64) -> Duration {
        Duration::from_secs(REST_PATIENCE)
    }

    ghost grows = { spec.rest_grows };
}
