//! What a stream may be asked.

use std::time::{Duration, Instant};

/// Something that a stream was asked, or its refusal, or what its clock showed.
#[derive(Clone, Copy)]
pub enum Ask {
    /// It was read from, once.
    Reads,
    /// It was written to, once.
    Writes,
    /// It was flushed, once.
    Flushes,
    /// Each later read fails that waits longer than this.
    BoundReads(Duration),
    /// Each later write that waits longer than this fails, or returns what it wrote until then.
    BoundWrites(Duration),
    /// Each later read and each later write fails that would wait.
    StopWaiting,
    /// Each later write fails, and the other side reads an end.
    Shut,
    /// The system refused what it was asked before this, or that failed.
    Refused,
    /// The clock of the stream was read, and showed this.
    Shows(Instant),
    /// That clock could not be read.
    Unshown,
}
