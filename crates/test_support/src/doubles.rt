//! A reader and a writer that fail.
use std::alloc::Global;
use std::cell::Cell;
use std::io;
use std::io::{Error, ErrorKind, Read, Write};

/// Gives its bytes in pieces. The read after `reads` others fails, and the reads after it give the rest.
#[derive(Drop)]
pub struct Source<'a> {
    pub rest: &'a [u8],
    pub piece: usize,
    pub reads: usize,
    /// Where it keeps how many bytes are left.
    pub left: Option<&'a Cell<usize>>,
}

impl<'a> Source<'a> {
    /// Returns a reader that does not fail.
    pub fn new(rest: &'a [u8], piece: usize) -> Source<'a> {
        Source {
            rest,
            piece,
            reads: usize::MAX,
            left: None,
        }
    }
}

impl<'a> Read for Source<'a> {
    fn read(&mut self, buf: &mut [u8]) -> io::Result<usize> {
        if self.reads == 0 {
            self.reads = usize::MAX;
            return Err(Error::from(ErrorKind::ConnectionReset));
        }
        self.reads -= 1;
        let n = self.rest.len().min(self.piece).min(buf.len());
        buf[..n].copy_from_slice(&self.rest[..n]);
        self.rest = &self.rest[n..];
        if let Some(left) = self.left {
            left.set(self.rest.len());
        }
        Ok(n)
    }
}

/// Takes bytes in pieces, counts the writes, and interrupts every other one. It fails once it has no room, and on a
/// flush unless `flushes`.
#[derive(Drop)]
pub struct Sink {
    pub taken: Vec<u8>,
    pub piece: usize,
    pub room: usize,
    pub flushes: bool,
    /// Whether the next write is interrupted.
    pub interrupts: bool,
    /// How many writes took bytes.
    pub writes: u64,
    /// Whether nothing was taken since the last flush.
    pub is_flushed: bool,
}

impl Sink {
    /// Returns a writer that takes `room` bytes, in pieces of 7.
    pub fn new(alloc: Global, room: usize) -> Sink {
        Sink {
            taken: Vec::new(alloc),
            piece: 7,
            room,
            flushes: true,
            interrupts: true,
            writes: 0,
            is_flushed: true,
        }
    }
}

impl Write for Sink {
    fn write(&mut self, buf: &[u8]) -> io::Result<usize> {
        if self.interrupts {
            self.interrupts = false;
            return Err(Error::from(ErrorKind::Interrupted));
        }
        let n = buf.len().min(self.piece).min(self.room);
        if n == 0 {
            return Err(Error::from(ErrorKind::BrokenPipe));
        }
        self.taken.extend_from_slice(&buf[..n])?;
        self.room -= n;
        self.writes = self.writes.saturating_add(1);
        self.interrupts = true;
        self.is_flushed = false;
        Ok(n)
    }

    fn flush(&mut self) -> io::Result<()> {
        if self.flushes {
            self.is_flushed = true;
            Ok(())
        } else {
            Err(Error::from(ErrorKind::BrokenPipe))
        }
    }
}
