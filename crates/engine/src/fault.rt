//! Failures of the reader and the writer.

/// Which side of a stream failed.
#[derive(Clone, Copy, Debug, Drop, PartialEq, Eq)]
pub enum Io {
    /// The reader failed, was interrupted too often, or was read `u64::MAX` times. The unfinished message has done
    /// nothing.
    Read,
    /// The writer failed, took nothing, or was interrupted too often. The shelves are as after the last message that
    /// was read.
    Write,
}
