//! A peer's time, measured by a clock of the test.
use crate::connections::{PUBLISHED, PUT};
use crate::shelves::shelves;
use engine::Io;
use histories::{BoundRead, BoundWrite, ClockFace, Hearing, Socket, Telling, WaitBounds};
use socket::answer_in_time;
use std::alloc::Global;
use std::cell::Cell;
use std::io::{self, Read, Write};
use std::test::Fail;
use std::time::{Clock, Duration, Instant};
use test_support::doubles::Sink;
use wire::RouteTable;
use world::shelves::Shelves;

/// A clock that goes on by `step` milliseconds each time it is read.
#[derive(Drop)]
struct Steps {
    now: Cell<u64>,
    step: u64,
}

impl Clock for Steps {
    fn monotonic(&self) -> io::Result<Duration> {
        let now = self.now.get();
        self.now.set(now.saturating_add(self.step));
        Ok(Duration::from_millis(now))
    }

    fn since_1970(&self) -> io::Result<Duration> {
        self.monotonic()
    }
}

impl ClockFace for Steps {
    fn now(&self) -> io::Result<Instant> {
        Instant::now(self)
    }
}

/// Returns a clock that starts at some time.
fn clock(step: u64) -> Steps {
    Steps {
        now: Cell::new(3_000),
        step,
    }
}

/// A stream that never waits. It keeps how long its last call might have waited.
#[derive(Drop)]
struct Bounded<'a, T> {
    inner: T,
    longest: &'a Cell<Duration>,
}

impl<'a, T: Read> Read for Bounded<'a, T> {
    fn read(&mut self, buf: &mut [u8]) -> io::Result<usize> {
        self.inner.read(buf)
    }
}

impl<'a, T: Write> Write for Bounded<'a, T> {
    fn write(&mut self, buf: &[u8]) -> io::Result<usize> {
        self.inner.write(buf)
    }

    fn flush(&mut self) -> io::Result<()> {
        self.inner.flush()
    }
}

impl<'a, T> WaitBounds for Bounded<'a, T> {
    fn bound_reads(&self, longest: Duration) -> io::Result<()> {
        self.longest.set(longest);
        Ok(())
    }

    fn bound_writes(&self, longest: Duration) -> io::Result<()> {
        self.longest.set(longest);
        Ok(())
    }

    fn stop_waiting(&self) -> io::Result<()> {
        Ok(())
    }

    fn shut(&self) -> io::Result<()> {
        Ok(())
    }
}

/// How long the last read and the last write might have waited.
#[derive(Drop)]
struct Waits {
    read: Cell<Duration>,
    write: Cell<Duration>,
}

/// Returns the waits before any call.
fn no_waits() -> Waits {
    Waits {
        read: Cell::new(Duration::ZERO),
        write: Cell::new(Duration::ZERO),
    }
}

/// Answers a message from shelves, and returns the status. Then drops the shelves.
fn timed_from<S: Shelves + Drop, R: BoundRead + Drop, W: BoundWrite + Drop>(
    alloc: Global,
    mut shelves: S,
    reader: R,
    writer: W,
) -> Result<Option<u16>, Io> {
    let answered = answer_in_time(
        alloc,
        &mut RouteTable::new(alloc),
        Hearing::new(reader),
        Telling::new(writer),
        &mut shelves,
    );
    answered.status
}

/// Answers the message in these bytes, which are given in two reads or more, measured by a clock with this step, and
/// returns the status.
fn answer_timed<W: Write + Drop>(
    alloc: Global,
    waits: &Waits,
    step: u64,
    first: &[u8],
    last: &[u8],
    writer: W,
) -> Result<Result<Option<u16>, Io>, Fail> {
    let clock = clock(step);
    let reader = Bounded {
        inner: first.chain(last),
        longest: &waits.read,
    };
    let writer = Bounded {
        inner: writer,
        longest: &waits.write,
    };
    Ok(timed_from(
        alloc,
        shelves(alloc)?,
        Socket::new(reader, &clock),
        Socket::new(writer, &clock),
    ))
}

#[test]
fn a_request_that_comes_in_time_is_answered(rt: HostRuntime) -> Result<(), Fail> {
    let (first, last) = PUT.split_at(20);
    let waits = no_waits();
    let mut written = Vec::new(rt.alloc());
    let status = answer_timed(rt.alloc(), &waits, 4_999, first, last, &mut written)?;
    assert!(rt; status == Ok(Some(201)));
    assert!(rt; written.as_slice() == PUBLISHED.as_bytes());
    // The second read began a millisecond before the end, and the first write starts a time of its own.
    assert!(rt; waits.read.get().as_millis() == 1);
    assert!(rt; waits.write.get().as_millis() == 5_000);
    Ok(())
}

#[test]
fn a_read_that_begins_too_late_fails(rt: HostRuntime) -> Result<(), Fail> {
    let (first, last) = PUT.split_at(20);
    let waits = no_waits();
    let mut written = Vec::new(rt.alloc());
    let status = answer_timed(rt.alloc(), &waits, 5_000, first, last, &mut written)?;
    assert!(rt; status == Err(Io::Read));
    assert!(rt; written.is_empty());
    Ok(())
}

#[test]
fn a_write_that_begins_too_late_fails(rt: HostRuntime) -> Result<(), Fail> {
    // The reply has 114 bytes, and the sink takes 7 of them at each second call: the last of 34 calls begins after 33
    // steps.
    let mut sink = Sink::new(rt.alloc(), usize::MAX);
    let waits = no_waits();
    let status = answer_timed(rt.alloc(), &waits, 151, PUT, b"", &mut sink)?;
    assert!(rt; status == Ok(Some(201)));
    assert!(rt; waits.write.get().as_millis() == 17);
    let mut sink = Sink::new(rt.alloc(), usize::MAX);
    let status = answer_timed(rt.alloc(), &waits, 152, PUT, b"", &mut sink)?;
    assert!(rt; status == Err(Io::Write));
    assert!(rt; sink.taken.len() == 112);
    Ok(())
}

/// The head of a publish whose zip has 1,114,112 bytes, and its go.mod.
const LARGE: &[u8] =
    b"PUT /k/alphakey00000001/example.com/lib/@v/v1.0.0 HTTP/1.1\r\nMod-Length: 23\r\nContent-Length: 1114135\r\n\r\n\
      module example.com/lib\n";

#[test]
fn bytes_that_are_moved_give_more_time(rt: HostRuntime) -> Result<(), Fail> {
    let zip = vec![in rt.alloc(); b'z'; 1_114_112]?;
    // There is one read for the head and the go.mod, and there are 17 of 65,536 bytes. The last begins after 17 steps,
    // when more than 1,048,576 bytes have come, so 6 s are allowed. For the one before it, 5 s are allowed.
    let waits = no_waits();
    let status = answer_timed(rt.alloc(), &waits, 312, LARGE, &zip, Vec::new(rt.alloc()))?;
    assert!(rt; status == Ok(Some(201)));
    let status = answer_timed(rt.alloc(), &waits, 313, LARGE, &zip, Vec::new(rt.alloc()))?;
    assert!(rt; status == Err(Io::Read));
    Ok(())
}
