//! Answering a stream of messages, one after another.
ghost use Rattle.std.specs.Prelude.{◌≡◌, ◌<◌, ◌≤◌, ◌-◌, ◌^◌, [], None, IfOk, IfErr, OnOk};
ghost use Rattle.std.specs.Io.KnownBytes.{Keeps};
ghost use Rattle.engine.specs.Causes.{AsksWhileUnfinished, FailsWith, IsCausedIn, Spends};
ghost use Rattle.engine.specs.Reply.{page_bytes, page_status};
ghost use Rattle.engine.specs.Served.{closing_bytes};
ghost use Rattle.engine.specs.Session.{AnswersNext, EndsBy, IsAnswered, IsClosed, handled_status, work};
ghost use Rattle.engine.specs.Written.{Writes};

use crate::fault::Io;
use crate::next::{MessageOrEnd, next_message};
use crate::page::{Page, page_of_answer};
use crate::request::message_request;
use crate::write::{flush, write_fixed, write_page};
use histories::{Hear, Tell};
use machine::step::step;
use std::alloc::Global;
use wire::reply::Fixed;
use wire::{Framer, RouteTable};
use world::shelves::Shelves;

/// What was done with what came next on a stream.
#[derive(Clone, Copy, Drop)]
pub(crate) enum Handled {
    /// A message was answered, with this status.
    Answered(u16),
    /// The stream was closed: by this reply, or by nothing at a good end.
    Closed(Option<Fixed>),
}

impl Handled {
    /// Returns the status that was written, or None if nothing was.
    fn status(self) -> Option<u16>
        ensures { result ≡ handled_status self }
    {
        match self {
            Handled::Answered(status) => Some(status),
            Handled::Closed(Some(closing)) => Some(closing.status().as_u16()),
            Handled::Closed(None) => None,
        }
    }
}

/// Writes the reply to a message, and returns its status as `Handled::Answered`. `Io::Write` if a write fails.
fn answer_with<W: Tell>(alloc: Global, writer: &mut W, page: Page) -> Result<Handled, Io>
    ensures bytes { Writes (W.contents writer.old) (W.contents writer.new) (page_bytes page) result }
    ensures handled { IfOk result (λ handled. handled ≡ Handled.Answered (page_status page)) }
    ensures fails { FailsWith (W.writes writer.old).failed (W.writes writer.new).failed result }
{
    let status = write_page(alloc, writer, &page)?;
    Ok(Handled::Answered(status.as_u16()))
}

/// Closes a stream by a fixed reply or by nothing. `Io::Write` if a write fails.
fn close_by<W: Tell>(writer: &mut W, closing: Option<Fixed>) -> Result<Handled, Io>
    ensures bytes { Writes (W.contents writer.old) (W.contents writer.new) (closing_bytes closing) result }
    ensures handled { IfOk result (λ handled. handled ≡ Handled.Closed closing) }
    ensures fails { FailsWith (W.writes writer.old).failed (W.writes writer.new).failed result }
{
    if let Some(closing) = closing {
        write_fixed(writer, closing)?;
    }
    Ok(Handled::Closed(closing))
}

/// Flushes what was written and returns its status, or None if nothing was. `Io::Write` if the flush fails. If
/// answering failed, it returns that error and does not flush.
pub(crate) fn finish<W: Tell>(
    writer: &mut W,
    handled: Result<Handled, Io>,
) -> Result<Option<u16>, Io>
    ensures bytes { Keeps (W.contents writer.old) (W.contents writer.new) }
    ensures ends { EndsBy handled result }
    // What was written is flushed.
    ensures flushed { OnOk result ((W.writes writer.new).unflushed ≡ []) }
    ensures fails { IfOk handled (λ _. FailsWith (W.writes writer.old).failed (W.writes writer.new).failed result) }
    ensures later { (W.writes writer.old).failed ≤ (W.writes writer.new).failed }
{
    let handled = handled?;
    flush(writer)?;
    Ok(handled.status())
}

/// A stream of messages that is being answered. It holds the bytes that were read after the answered messages.
#[derive(Drop)]
pub(crate) struct Session {
    pub(crate) alloc: Global,
    pub(crate) framer: Framer,
    /// How many reads are left. A stream that needs more than `u64::MAX` reads fails with `Io::Read`.
    pub(crate) reads: u64,
}

impl Session {
    /// Returns a session at the beginning of a stream, with all its reads left.
    pub(crate) fn new(alloc: Global) -> Session
        ensures framer { result.framer ≡ record { held = []; failure = None } }
        ensures reads { result.reads ≡ 2 ^ 64 - 1 }
    {
        Session {
            alloc,
            framer: Framer::new(alloc),
            reads: u64::MAX,
        }
    }

    /// Answers the next message of the stream, or closes the stream if none comes. It reads at most 4,096 bytes after
    /// that message, or after the point at which the stream can't go on. It does not flush. The caller lends the
    /// router, so that it makes one for many streams.
    ///
    /// `Io::Read`: a read failed, nothing was done, and nothing is written. `Io::Write`: a write failed; a beginning of
    /// the text is written, and the shelves are as after the message.
    pub(crate) fn answer_next<R: Hear, W: Tell, S: Shelves>(
        &mut self,
        routes: &mut RouteTable,
        reader: &mut R,
        writer: &mut W,
        shelves: &mut S,
    ) -> Result<Handled, Io>
        requires { self.old.framer.failure ≡ None }
        ensures answers { AnswersNext (S.shown shelves.old) (S.shown shelves.new)
            (R.account reader.old) (R.account reader.new) (W.contents writer.old) (W.contents writer.new)
            self.old.framer self.new.framer result }
        // No read began once the bytes that came say what is to be answered.
        ensures asks { AsksWhileUnfinished self.old.framer.held (R.account reader.old) (R.account reader.new)
            (R.reads reader.old) (R.reads reader.new) }
        // It fails only if a call of the reader or of the writer failed, or if no read is left.
        ensures cause { IfErr result (IsCausedIn self.old.reads (R.reads reader.old) (R.reads reader.new)
            (W.writes writer.old) (W.writes writer.new)) }
        ensures spent { IfOk result
            (λ _. Spends self.old.reads self.new.reads (R.reads reader.old) (R.reads reader.new)) }
        ensures later_reads { (R.reads reader.old).failed ≤ (R.reads reader.new).failed }
        ensures later_writes { (W.writes writer.old).failed ≤ (W.writes writer.new).failed }
        // If the stream was closed, or a read failed, it leaves the shelves untouched.
        ensures empty { IfOk result (λ handled. IsClosed handled → shelves.new ≡ shelves.old) }
        ensures unread { IfErr result (λ e. e ≡ Io.Read → shelves.new ≡ shelves.old) }
        ensures falls { IfOk result (λ handled. IsAnswered handled
            → work self.new.reads self.new.framer.held < work self.old.reads self.old.framer.held) }
    {
        match next_message(reader, &mut self.framer, &mut self.reads)? {
            MessageOrEnd::Message(message) => {
                let Ok(asked) = message_request(routes, message) else {
                    return answer_with(self.alloc, writer, Page::Fixed(Fixed::Unavailable));
                };
                let answer = step(self.alloc, shelves, &asked.request);
                let page = page_of_answer(self.alloc, &asked, answer);
                answer_with(self.alloc, writer, page)
            }
            MessageOrEnd::End(closing) => close_by(writer, closing),
        }
    }
}
