//! Handles of streams with a clock, whose waits the system bounds.
ghost use Rattle.std.specs.Prelude.{◌≡◌, []};
ghost use Rattle.histories.specs.Asked.{AsksFor, LooksAt};

mod wait_bounds;

use crate::ask::Ask;
use crate::asks::Asks;
use crate::clock_face::ClockFace;
use crate::record::Record;
use crate::wait::{BoundRead, BoundWrite};
use std::io::{self, Read, Write};
use std::time::{Duration, Instant};
pub use wait_bounds::WaitBounds;

/// One handle of a stream, with the clock that its time is told by. It keeps account of what the clock showed, of what
/// the stream was asked, and of the bytes that passed. The account takes no memory.
#[derive(Drop)]
pub struct Socket<'h, S, C: ClockFace> {
    stream: S,
    clock: &'h C,
    asked: Asks,
    gave: Record,
    took: Record,
}

impl<'h, S, C: ClockFace> Socket<'h, S, C> {
    /// Returns the handle, of which nothing was asked.
    pub fn new(stream: S, clock: &'h C) -> Socket<'h, S, C>
        ensures same { result.stream ≡ stream }
        ensures asked { result.asked.asks ≡ [] }
        ensures gave { result.gave.bytes ≡ [] }
        ensures took { result.took.bytes ≡ [] }
    {
        Socket {
            stream,
            clock,
            asked: Asks::new(),
            gave: Record::new(),
            took: Record::new(),
        }
    }

    /// Notes what the stream was asked, and what came of it, and returns that.
    fn note(&mut self, ask: Ask, done: io::Result<()>) -> io::Result<()>
        ensures result { result ≡ done }
        ensures same { self.new ≡ record self.old { asked = self.new.asked } }
        ensures asked { AsksFor ask self.old.asked.asks self.new.asked.asks result }
    {
        self.asked.note(&[ask]);
        if done.is_err() {
            self.asked.note(&[Ask::Refused]);
        }
        done
    }

    /// Reads the clock, and notes what it shows, or that it can't be read. Fails if it can't.
    fn read_clock(&mut self) -> io::Result<Instant>
        ensures same { self.new ≡ record self.old { asked = self.new.asked } }
        ensures asked { LooksAt self.old.asked.asks self.new.asked.asks result }
    {
        match self.clock.now() {
            Ok(now) => {
                self.asked.note(&[Ask::Shows(now)]);
                Ok(now)
            }
            Err(e) => {
                self.asked.note(&[Ask::Unshown]);
                Err(e)
            }
        }
    }
}

impl<'h, S: Read + WaitBounds, C: ClockFace> Read for Socket<'h, S, C> {
    ghost remaining = { λ s. S.remaining s.stream };

    fn read(&mut self, buf: &mut [u8]) -> io::Result<usize> {
        self.read_once(buf)
    }
}

impl<'h, S: Read + WaitBounds, C: ClockFace> BoundRead for Socket<'h, S, C> {
    ghost asked = { λ s. s.asked.asks };

    ghost gave = { λ s. s.gave.bytes };

    fn read_once(&mut self, buf: &mut [u8]) -> io::Result<usize> {
        self.asked.note(&[Ask::Reads]);
        match self.stream.read(buf) {
            Ok(n) => {
                self.gave.note(&buf[..n]);
                Ok(n)
            }
            Err(e) => {
                self.asked.note(&[Ask::Refused]);
                Err(e)
            }
        }
    }

    fn look(&mut self) -> io::Result<Instant> {
        self.read_clock()
    }

    fn bound_reads(&mut self, longest: Duration) -> io::Result<()> {
        let done = self.stream.bound_reads(longest);
        self.note(Ask::BoundReads(longest), done)
    }

    fn stop_waiting(&mut self) -> io::Result<()> {
        let done = self.stream.stop_waiting();
        self.note(Ask::StopWaiting, done)
    }
}

impl<'h, S: Write + WaitBounds, C: ClockFace> Write for Socket<'h, S, C> {
    ghost contents = { λ s. S.contents s.stream };

    fn write(&mut self, buf: &[u8]) -> io::Result<usize> {
        self.write_once(buf)
    }

    fn flush(&mut self) -> io::Result<()> {
        self.flush_once()
    }
}

impl<'h, S: Write + WaitBounds, C: ClockFace> BoundWrite for Socket<'h, S, C> {
    ghost asked = { λ s. s.asked.asks };

    ghost took = { λ s. s.took.bytes };

    fn write_once(&mut self, buf: &[u8]) -> io::Result<usize> {
        self.asked.note(&[Ask::Writes]);
        match self.stream.write(buf) {
            Ok(n) => {
                self.took.note(&buf[..n]);
                Ok(n)
            }
            Err(e) => {
                self.asked.note(&[Ask::Refused]);
                Err(e)
            }
        }
    }

    fn flush_once(&mut self) -> io::Result<()> {
        let done = self.stream.flush();
        self.note(Ask::Flushes, done)
    }

    fn look(&mut self) -> io::Result<Instant> {
        self.read_clock()
    }

    fn bound_writes(&mut self, longest: Duration) -> io::Result<()> {
        let done = self.stream.bound_writes(longest);
        self.note(Ask::BoundWrites(longest), done)
    }

    fn shut(&mut self) -> io::Result<()> {
        let done = self.stream.shut();
        self.note(Ask::Shut, done)
    }
}
