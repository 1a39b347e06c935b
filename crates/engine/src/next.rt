//! Taking the next message of a stream.
ghost use Rattle.std.specs.Prelude.{◌≡◌, ◌≤◌, None, IfOk, IfErr};
ghost use Rattle.engine.specs.Causes.{AsksWhileUnfinished, IsUnreadable, Spends};
ghost use Rattle.engine.specs.Session.{Comes, Takes};

use crate::fault::Io;
use crate::read::{AfterRead, read_more};
use histories::Hear;
use wire::reply::Fixed;
use wire::{Bad, Framer, Message, Next};

/// What comes next on a stream.
#[derive(Drop)]
pub(crate) enum MessageOrEnd {
    Message(Message),
    /// No message: this reply closes the stream, or nothing does at a good end.
    End(Option<Fixed>),
}

/// Returns the next message if the framer holds a whole one, what closes the stream if it can't go on or memory runs
/// out, and None if more bytes are needed. It does not ask an empty framer, because every stream begins with one.
fn take(framer: &mut Framer) -> Option<MessageOrEnd>
    requires { framer.old.failure ≡ None }
    ensures { Takes framer.old result framer.new }
{
    if framer.is_empty() {
        return None;
    }
    match framer.next() {
        Ok(Next::Message(message)) => Some(MessageOrEnd::Message(message)),
        Ok(Next::NeedMore) => None,
        Ok(Next::Bad(Bad::BadRequest)) => Some(MessageOrEnd::End(Some(Fixed::BadRequest))),
        Ok(Next::Bad(Bad::TooLarge)) => Some(MessageOrEnd::End(Some(Fixed::TooLarge))),
        Err(_) => Some(MessageOrEnd::End(Some(Fixed::Unavailable))),
    }
}

/// Reads until the next message of a stream is whole and returns it, or returns what closes the stream. `Io::Read` if a
/// read fails, or if no read is left.
pub(crate) fn next_message<R: Hear>(
    reader: &mut R,
    framer: &mut Framer,
    reads: &mut u64,
) -> Result<MessageOrEnd, Io>
    requires { framer.old.failure ≡ None }
    ensures comes { Comes framer.old framer.new reads.old reads.new
        (R.account reader.old) (R.account reader.new) result }
    ensures asks { AsksWhileUnfinished framer.old.held (R.account reader.old) (R.account reader.new)
        (R.reads reader.old) (R.reads reader.new) }
    ensures spent { IfOk result (λ _. Spends reads.old reads.new (R.reads reader.old) (R.reads reader.new)) }
    ensures later { (R.reads reader.old).failed ≤ (R.reads reader.new).failed }
    ensures cause { IfErr result (λ _. IsUnreadable reads.old (R.reads reader.old) (R.reads reader.new)) }
{
    loop {
        if let Some(next) = take(framer) {
            return Ok(next);
        }
        if *reads == 0 {
            return Err(Io::Read);
        }
        *reads -= 1;
        if let AfterRead::Ends(closing) = read_more(reader, framer)? {
            return Ok(MessageOrEnd::End(closing));
        }
    }
}
