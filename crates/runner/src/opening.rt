//! Showing on a terminal that a large store is opened.

use commands::progress::StderrLine;
use std::alloc::Global;

/// The least bytes of a file whose opening is shown. An opening reads the whole file, which takes a second or more for
/// one of some hundred MiB.
const LARGE: u64 = 128 << 20;

/// The bytes of a MiB.
const MIB: u64 = 1 << 20;

/// Shows on a line that a file of this size is opened, if it is large. Shows nothing if the size is not known, or if
/// memory runs out.
pub(crate) fn show_opening(alloc: Global, line: &StderrLine<'_>, size: Option<u64>) {
    match size {
        Some(bytes) if bytes >= LARGE => {
            if let Ok(text) = format!(in alloc; "opening a store of {} MiB", bytes / MIB) {
                line.put(text.as_str());
            }
        }
        _ => {}
    }
}
