//! Answering the messages of a stream.
ghost use Rattle.std.specs.Prelude.{◌≡◌, [], None, IfOk, IfErr, OnOk};
ghost use Rattle.engine.specs.Causes.{AsksWhileUnfinished, IsCaused};
ghost use Rattle.engine.specs.First.{ServesFirst, ServesHeard};
ghost use Rattle.engine.specs.Isolated.{AnswersByItsShelf, AnswersHeardByItsShelf};
ghost use Rattle.engine.specs.Served.{Serves, ServesAllHeard};

use crate::fault::Io;
use crate::session::{Handled, Session, finish};
use crate::write::flush;
use histories::{Hear, Tell};
use std::alloc::Global;
use wire::RouteTable;
use world::shelves::Shelves;

/// Answers as `answer_all` does.
fn answer_each<R: Hear, W: Tell, S: Shelves>(
    alloc: Global,
    reader: &mut R,
    writer: &mut W,
    shelves: &mut S,
) -> Result<(), Io>
    ensures heard { ServesAllHeard (S.shown shelves.old) (S.shown shelves.new)
        (R.account reader.old) (R.account reader.new) (W.contents writer.old) (W.contents writer.new) result }
    ensures cause { IfErr result
        (IsCaused (R.reads reader.old) (R.reads reader.new) (W.writes writer.old) (W.writes writer.new)) }
    ensures flushed { OnOk result ((W.writes writer.new).unflushed ≡ []) }
{
    let mut routes = RouteTable::new(alloc);
    let mut session = Session::new(alloc);
    loop {
        if let Handled::Closed(_) = session.answer_next(&mut routes, reader, writer, shelves)? {
            return flush(writer);
        }
    }
}

/// Answers all messages of a stream, one after another, and closes it: with nothing at a good end, a 413 for a body
/// that is too large, a 400 for any other rest, or one 503 in place of all that is left if memory runs out.
///
/// `Io::Read`: a read failed, and each message that was read whole is answered. `Io::Write`: a write or the flush
/// failed; all texts but the last are written, with a beginning of the last or all of it, and the shelves are as after
/// the last message.
pub fn answer_all<R: Hear, W: Tell, S: Shelves>(
    alloc: Global,
    reader: &mut R,
    writer: &mut W,
    shelves: &mut S,
) -> Result<(), Io>
    ensures heard { ServesAllHeard (S.shown shelves.old) (S.shown shelves.new)
        (R.account reader.old) (R.account reader.new) (W.contents writer.old) (W.contents writer.new) result }
    // So it is for a reader whose bytes are known before they are read.
    ensures known { Serves (S.shown shelves.old) (S.shown shelves.new)
        (R.remaining reader.old) (R.remaining reader.new) (W.contents writer.old) (W.contents writer.new) result }
    // It fails only if a call of the reader or of the writer failed, or if no read is left.
    ensures cause { IfErr result
        (IsCaused (R.reads reader.old) (R.reads reader.new) (W.writes writer.old) (W.writes writer.new)) }
    // What was written is flushed.
    ensures flushed { OnOk result ((W.writes writer.new).unflushed ≡ []) }
{
    answer_each(alloc, reader, writer, shelves)
}

/// Answers the first message of a stream and returns the status that it wrote, or None exactly for an empty input. It
/// reads at most 4,096 bytes after the first message, or after the point at which the stream can't go on. The caller
/// lends the router, so that it makes one for many streams.
///
/// `Io::Read`: a read failed, nothing was done, and nothing is written. `Io::Write`: a write or the flush failed; a
/// beginning of the text is written or all of it, and the shelves are as after the message.
pub fn answer_one<R: Hear, W: Tell, S: Shelves>(
    alloc: Global,
    routes: &mut RouteTable,
    reader: &mut R,
    writer: &mut W,
    shelves: &mut S,
) -> Result<Option<u16>, Io>
    ensures heard { ServesHeard (S.shown shelves.old) (S.shown shelves.new)
        (R.account reader.old) (R.account reader.new) (W.contents writer.old) (W.contents writer.new) result }
    // So it is for a reader whose bytes are known before they are read.
    ensures serves { ServesFirst (S.shown shelves.old) (S.shown shelves.new)
        (R.remaining reader.old) (R.remaining reader.new) (W.contents writer.old) (W.contents writer.new) result }
    // An empty input and a failed read leave the shelves untouched.
    ensures empty { IfOk result (λ status. status ≡ None → shelves.new ≡ shelves.old) }
    ensures unread { IfErr result (λ e. e ≡ Io.Read → shelves.new ≡ shelves.old) }
    // No read began once the bytes that came say what is to be answered.
    ensures asks { AsksWhileUnfinished [] (R.account reader.old) (R.account reader.new)
        (R.reads reader.old) (R.reads reader.new) }
    // It fails only if a call of the reader or of the writer failed, or if no read is left.
    ensures cause { IfErr result
        (IsCaused (R.reads reader.old) (R.reads reader.new) (W.writes writer.old) (W.writes writer.new)) }
    // What was written is flushed.
    ensures flushed { OnOk result ((W.writes writer.new).unflushed ≡ []) }
    // The answer does not depend on the shelves that the caller does not see.
    ensures isolated_heard { AnswersHeardByItsShelf (S.shown shelves.old) (S.shown shelves.new)
        (R.account reader.old) (R.account reader.new) (W.contents writer.old) (W.contents writer.new) result }
    // So it is for a reader whose bytes are known before they are read.
    ensures isolated { AnswersByItsShelf (S.shown shelves.old) (S.shown shelves.new)
        (R.remaining reader.old) (W.contents writer.old) (W.contents writer.new) result }
{
    let mut session = Session::new(alloc);
    let handled = session.answer_next(routes, reader, writer, shelves);
    finish(writer, handled)
}
