//! How long a slice may take.

/// Says when a slice is to end. No clause depends on it.
pub trait Pace {
    /// Begins a slice. False if what was copied before can't be kept, because a disk failed: then the copy fails.
    fn begin(&mut self) -> bool;

    /// Notes that a row with this many bytes was copied.
    fn note(&mut self, bytes: usize);

    /// Whether the slice is to end before the next row.
    fn is_spent(&mut self) -> bool;
}
