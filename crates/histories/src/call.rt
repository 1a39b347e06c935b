//! What bears on how long a stream is waited for.

use std::time::{Duration, Instant};

/// A call that bears on how long a reader or a writer is waited for.
#[derive(Clone, Copy)]
pub enum Call {
    /// The clock was read, and showed this.
    Shows(Instant),
    /// The clock could not be read.
    Unshown,
    /// Each later wait was bounded by this.
    Bounds(Duration),
    /// They could not be bounded by this.
    Unbound(Duration),
    /// Each later wait was ruled out.
    Stops,
    /// A read or a write began.
    Begins,
    /// It moved this many bytes.
    Moves(usize),
    /// A read or a write was refused before it began.
    Refused,
    /// The system was asked to shut the writing side, and did so or refused.
    Shuts,
}
