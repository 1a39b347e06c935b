//! Showing on a terminal how far a copy of rows or of files is.

use commands::progress::{Progress, StderrLine};
use statements::meter::Meter;
use std::cell::Cell;
use std::fs::File;
use std::io::{self, Read};
use std::rt::HostRuntime;

/// The rows that were copied so far, with a line that shows how far that is.
#[derive(Drop)]
pub(crate) struct CopyLine<'a> {
    /// None if no line is shown.
    line: Option<StderrLine<'a>>,
    /// How many versions were copied. Their zips follow after all versions.
    versions: Cell<u64>,
    /// How many of their zips were begun.
    zips: Cell<u64>,
    bytes: Cell<u64>,
}

impl<'a> CopyLine<'a> {
    /// Returns the line of a copy that has nothing yet.
    pub(crate) fn new(line: Option<StderrLine<'a>>) -> CopyLine<'a> {
        CopyLine {
            line,
            versions: Cell::new(0),
            zips: Cell::new(0),
            bytes: Cell::new(0),
        }
    }

    /// Notes bytes that were copied, and shows how far the copy is.
    fn note(&self, bytes: usize) {
        let Some(line) = &self.line else {
            return;
        };
        self.bytes
            .set(self.bytes.get().saturating_add(bytes as u64));
        line.draw_if_due(&Progress {
            done: self.zips.get(),
            all: self.versions.get(),
            bytes: self.bytes.get(),
        });
    }

    /// Takes the line away.
    pub(crate) fn clear(&self) {
        if let Some(line) = &self.line {
            line.clear();
        }
    }
}

impl<'a> Meter for CopyLine<'a> {
    fn note_version(&self, bytes: usize) {
        self.versions.set(self.versions.get().saturating_add(1));
        self.note(bytes);
    }

    fn note_zip(&self, is_first: bool, bytes: usize) {
        if is_first {
            self.zips.set(self.zips.get().saturating_add(1));
        }
        self.note(bytes);
    }
}

/// The bytes of some files that were read so far, with a line that shows how far that is.
#[derive(Drop)]
pub(crate) struct FilesLine<'a> {
    line: StderrLine<'a>,
    /// How many bytes the files have.
    all: u64,
    bytes: Cell<u64>,
}

impl<'a> FilesLine<'a> {
    /// Returns the line of files with this many bytes, of which none was read yet.
    pub(crate) fn new(rt: &'a HostRuntime, verb: &'a str, all: u64) -> FilesLine<'a> {
        FilesLine {
            line: StderrLine::on_stderr(rt, verb),
            all,
            bytes: Cell::new(0),
        }
    }

    /// Notes bytes that were read, and shows how far that is.
    fn note(&self, bytes: usize) {
        let bytes = self.bytes.get().saturating_add(bytes as u64);
        self.bytes.set(bytes);
        self.line.draw_if_due(&Progress {
            done: bytes,
            all: self.all,
            bytes,
        });
    }

    /// Takes the line away.
    pub(crate) fn clear(&self) {
        self.line.clear();
    }
}

/// A file that is read under a line.
#[derive(Drop)]
pub(crate) struct ShownFile<'f> {
    pub file: &'f File,
    pub line: &'f FilesLine<'f>,
}

impl<'f> Read for ShownFile<'f> {
    fn read(&mut self, buf: &mut [u8]) -> io::Result<usize> {
        let mut file = self.file;
        let got = file.read(buf)?;
        self.line.note(got);
        Ok(got)
    }
}
