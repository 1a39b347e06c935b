//! How far an import is, shown while its rows are done.

use crate::progress::{Progress, StderrLine};
use machine::request::Body;
use std::cell::Cell;
use std::io::IsTerminal;
use std::rt::HostRuntime;

/// How far an import is, with a line on the terminal that says how many rows of a list were done.
#[derive(Drop)]
pub struct ImportProgress<'a> {
    /// None if no line is shown.
    line: Option<StderrLine<'a>>,
    /// How many rows the list has, or 0 if that is not known.
    rows: Cell<u64>,
    /// The bytes of the files that were read.
    bytes: Cell<u64>,
}

impl<'a> ImportProgress<'a> {
    /// Returns how far an import is that begins, to be shown on this line if there is one.
    pub fn new(line: Option<StderrLine<'a>>) -> ImportProgress<'a> {
        ImportProgress {
            line,
            rows: Cell::new(0),
            bytes: Cell::new(0),
        }
    }

    /// Returns how far an import is that begins, to be shown on standard error if that is a terminal. It is not shown
    /// if standard output is a terminal too, since a line for each row comes there.
    pub fn on_stderr(rt: &'a HostRuntime) -> ImportProgress<'a> {
        let line = StderrLine::on_stderr(rt, "import");
        let is_shown = line.is_shown() && !rt.stdout().is_terminal();
        ImportProgress::new(if is_shown { Some(line) } else { None })
    }

    /// Counts the rows of a list that was read, which are its lines behind the header.
    pub(crate) fn begin(&self, list: &[u8]) {
        if self.line.is_some() {
            self.rows.set(ends_in(list).saturating_sub(1));
        }
    }

    /// Hears that the files of a row were read.
    pub(crate) fn body_read(&self, body: &Body) {
        let read = self
            .bytes
            .get()
            .saturating_add(body.gomod.as_slice().len() as u64)
            .saturating_add(body.zip.as_slice().len() as u64);
        self.bytes.set(read);
    }

    /// Hears that the row of this number was done.
    pub(crate) fn row_done(&self, number: u64) {
        if let Some(line) = &self.line {
            line.draw_if_due(&Progress {
                done: number,
                all: self.rows.get(),
                bytes: self.bytes.get(),
            });
        }
    }

    /// Erases the line.
    pub(crate) fn clear(&self) {
        if let Some(line) = &self.line {
            line.clear();
        }
    }
}

/// Returns how many of these bytes end a line.
fn ends_in(bytes: &[u8]) -> u64 {
    let mut ends: u64 = 0;
    for byte in bytes {
        if *byte == b'\n' {
            ends = ends.saturating_add(1);
        }
    }
    ends
}
