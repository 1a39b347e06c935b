//! The framer, which splits bytes that come in any pieces into messages.
ghost use Rattle.std.specs.Prelude.{◌≡◌, ℕ, ◌+◌, ◌≤◌, ◌<◌, List, [], ◌++◌, length, drop};
ghost use Rattle.std.specs.Prelude.{vec_len, None, IfOk, OnOk, OnErr, IfSome, IsTrue, ◌↔◌};
ghost use Rattle.framing.specs.Framing.{Answers, IsBad, IsUnfinished, HasMessage, GivesBody, TakesOff};

use crate::cut::bodiless_of;
use crate::head::{Front, HEADER_LIMIT, front_of};
use crate::head_front::Scan;
use crate::message::{Memory, Message};
use httparse::spans::EMPTY_HEADER_SPAN;
use std::alloc::Global;
use std::marker::Model;
use std::mem;

/// Why a stream cannot go on, and the status of the reply that ends it.
#[derive(Clone, Copy, Debug, Drop, PartialEq, Eq)]
pub enum Bad {
    /// 400: however the bytes go on, they begin with neither a message nor a good head of too large a body.
    BadRequest,
    /// 413: they begin with a good head whose body is too large.
    TooLarge,
}

/// What [`Framer::next`] finds at the front of the bytes that it holds.
#[derive(Debug, Drop)]
pub enum Next {
    /// A message, which is removed from the bytes.
    Message(Message),
    /// The bytes do not begin with a whole message, but may be the beginning of one.
    NeedMore,
    /// The stream cannot go on, now or later.
    Bad(Bad),
}

/// A body of fewer bytes is copied when it is returned.
const LARGE: usize = 4_096;

/// Takes the bytes of a stream in any pieces, and returns its messages. How the bytes are cut does not matter, and the
/// work is linear in them: it moves a bounded number of bytes for each byte that it returns, and it reads a head again
/// only until the head is whole. Once the head is whole, the framer makes room for all of the message, and it returns a
/// large body in the buffer in which it collected it.
#[derive(Drop)]
pub struct Framer {
    /// The bytes that were fed, without a front that was dropped.
    bytes: Vec<u8>,
    /// The bytes before this index were returned.
    start: usize,
    /// The length of the message that has begun if its head is whole, and otherwise 0.
    wanted: usize,
    /// The scan of a head that is not whole.
    scan: Option<Scan>,
    failure: Option<Bad>,
}

impl Model for Framer {
    ghost use Rattle.std.specs.Prelude.{◌≤◌, length, drop};
    ghost use Rattle.std.specs.Option.{ForSome};
    ghost use Rattle.framing.specs.Framing.{Framing, IsBad, Awaits};
    ghost use Rattle.framing.specs.HeadFront.{HoldsScan};

    ghost Value = { Framing };

    ghost view = { λ f. record { held = drop f.start f.bytes.items; failure = f.failure } };

    ghost invariant = { λ f. (f.start ≤ length f.bytes.items) × ForSome f.failure (IsBad (drop f.start f.bytes.items))
        × Awaits (drop f.start f.bytes.items) f.wanted × HoldsScan (drop f.start f.bytes.items) f.scan };
}

/// Removes the first `n` bytes.
fn remove_front(bytes: &mut Vec<u8>, n: usize)
    requires { n ≤ vec_len bytes.old }
    ensures { bytes.new.items ≡ drop n bytes.old.items }
{
    bytes.rotate_left(n);
    bytes.truncate(bytes.len() - n);
}

impl Framer {
    /// Returns a framer that holds nothing. It takes no memory yet.
    pub fn new(alloc: Global) -> Framer
        ensures { result ≡ record { held = []; failure = None } }
    {
        Framer {
            bytes: Vec::new(alloc),
            start: 0,
            wanted: 0,
            scan: None,
            failure: None,
        }
    }

    /// Adds the next bytes of the stream. It fails with `Memory` if there is no room for them, and then changes
    /// nothing.
    pub fn feed(&mut self, bytes: &[u8]) -> Result<(), Memory>
        ensures ok { OnOk result (self.new ≡ record self.old { held = self.old.held ++ bytes.now }) }
        ensures err { OnErr result (self.new ≡ self.old) }
    {
        self.drop_used();
        self.make_room()?;
        self.bytes.extend_from_slice(bytes)?;
        Ok(())
    }

    /// Makes room for all that is missing of the message that has begun. It fails only if memory runs out.
    /// A peer that announces a long body gets address space for it, and uses as much memory as it sends.
    fn make_room(&mut self) -> Result<(), Memory>
        ensures { self.new ≡ self.old }
    {
        let missing = self.missing();
        self.bytes.reserve_exact(missing)?;
        Ok(())
    }

    /// Returns how many bytes of the message that has begun are still to come, or 0 if no head is whole. Until that
    /// many have come, the message is not whole.
    pub fn missing(&self) -> usize
        ensures { (bytes : List ℕ) → length bytes < result → IsUnfinished (self.now.held ++ bytes) }
    {
        self.wanted.saturating_sub(self.bytes.len() - self.start)
    }

    /// Drops the bytes that were returned once they are at least as many as the rest. So it rotates at most two bytes
    /// for each byte that was returned.
    fn drop_used(&mut self)
        ensures { self.new ≡ self.old }
    {
        if self.start >= self.bytes.len() - self.start {
            remove_front(&mut self.bytes, self.start);
            self.start = 0;
        }
    }

    /// Removes and returns the next message of the stream, or returns [`Next::NeedMore`] if it is not whole, or
    /// [`Next::Bad`] if the stream cannot go on, and then again at every later call. It fails with `Memory` if there is
    /// no room for a whole message, and then changes nothing.
    pub fn next(&mut self) -> Result<Next, Memory>
        ensures answer { IfOk result (λ next. Answers self.old next self.new) }
        ensures again { IfSome self.old.failure (λ bad. result ≡ Ok (Next.Bad bad)) }
        ensures err { OnErr result (self.new ≡ self.old) }
        ensures whole { OnErr result (HasMessage self.old.held) }
    {
        if let Some(bad) = self.failure {
            return Ok(Next::Bad(bad));
        }
        let held = &self.bytes[self.start..];
        if held.len() < self.wanted {
            return Ok(Next::NeedMore);
        }
        if self.stays_open() {
            return Ok(Next::NeedMore);
        }
        let held = &self.bytes[self.start..];
        let mut headers = [EMPTY_HEADER_SPAN; HEADER_LIMIT];
        match front_of(held, &mut headers) {
            Front::Unfinished => {
                self.scan = Scan::of(held);
                Ok(Next::NeedMore)
            }
            Front::Failed(bad) => Ok(self.fail(bad)),
            Front::Begun(head) => {
                let len = head.spans.len + head.body;
                if held.len() < len {
                    self.wanted = len;
                    return Ok(Next::NeedMore);
                }
                let message = bodiless_of(*self.bytes.allocator(), held, &headers, head)?;
                let body = self.take_body(head.spans.len, head.body)?;
                Ok(Next::Message(Message { body, ..message }))
            }
        }
    }

    /// Whether the bytes that came since the last scan plainly continue a head and do not complete it. The bytes before
    /// them are not scanned again, so a head that comes byte by byte is parsed about once a line. Parsing only when the
    /// bytes have doubled would delay the 400 of a head that cannot go on.
    fn stays_open(&mut self) -> bool
        ensures same { self.new ≡ self.old }
        ensures open { IsTrue result → IsUnfinished self.old.held }
    {
        let Some(scan) = self.scan else {
            return false;
        };
        let Some(scan) = scan.advance(&self.bytes[self.start..]) else {
            return false;
        };
        self.scan = Some(scan);
        true
    }

    /// Removes a head and a body, and returns the body: in a copy, or in the buffer itself if the body is large and at
    /// least half of what the buffer holds. It fails with `Memory` if there is no room for the copy, or for the bytes
    /// after the body, and then changes nothing.
    fn take_body(&mut self, head: usize, body: usize) -> Result<Vec<u8>, Memory>
        requires whole { head + body ≤ length self.old.held }
        requires sound { self.old.failure ≡ None }
        ensures body { GivesBody self.old head body result }
        ensures rest { TakesOff self.old (head + body) result self.new }
    {
        if body < LARGE || body < self.bytes.len() - body {
            return self.copy_body(head, body);
        }
        self.give_body(head, body)
    }

    /// Removes a head and a body, and returns a copy of the body. It fails only if memory runs out, and then changes
    /// nothing.
    fn copy_body(&mut self, head: usize, body: usize) -> Result<Vec<u8>, Memory>
        requires whole { head + body ≤ length self.old.held }
        requires sound { self.old.failure ≡ None }
        ensures body { GivesBody self.old head body result }
        ensures rest { TakesOff self.old (head + body) result self.new }
    {
        let from = self.start + head;
        let copy = Vec::from_slice(*self.bytes.allocator(), &self.bytes[from..from + body])?;
        self.start += head + body;
        self.wanted = 0;
        self.scan = None;
        Ok(copy)
    }

    /// Removes a head and a body, and returns the body in the buffer; the bytes after it are copied. It fails only if
    /// memory runs out, and then changes nothing.
    fn give_body(&mut self, head: usize, body: usize) -> Result<Vec<u8>, Memory>
        requires whole { head + body ≤ length self.old.held }
        requires sound { self.old.failure ≡ None }
        ensures body { GivesBody self.old head body result }
        ensures rest { TakesOff self.old (head + body) result self.new }
    {
        let from = self.start + head;
        let rest = Vec::from_slice(*self.bytes.allocator(), &self.bytes[from + body..])?;
        let mut taken = mem::replace(&mut self.bytes, rest);
        taken.truncate(from + body);
        remove_front(&mut taken, from);
        self.start = 0;
        self.wanted = 0;
        self.scan = None;
        Ok(taken)
    }

    /// Records that the stream cannot go on, and returns the answer.
    fn fail(&mut self, bad: Bad) -> Next
        requires { IsBad self.old.held bad }
        ensures failed { self.new ≡ record self.old { failure = Some bad } }
        ensures answer { result ≡ Next.Bad bad }
    {
        self.failure = Some(bad);
        Next::Bad(bad)
    }

    /// Whether no byte is left after the messages that were returned. A lone CR LF at the end of a stream is a rest
    /// like any other, and gets a 400.
    pub fn is_empty(&self) -> bool
        ensures { IsTrue result ↔ (self.now.held ≡ []) }
    {
        self.start == self.bytes.len()
    }
}
