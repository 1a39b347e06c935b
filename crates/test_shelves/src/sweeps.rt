//! Readers and writers that fail at each of their calls in turn, and a flush that fails: what was written, and what the
//! shelves have afterwards.
//!
//! This is shown over shelves in maps only, because none of it depends on where the shelves are kept.
use crate::shelves::shelves;
use engine::{Io, answer_all};
use histories::{Hearing, Telling};
use std::alloc::Global;
use std::cell::Cell;
use std::test::Fail;
use test_support::doubles::{Sink, Source};
use world::shelves::Shelves;

/// A run, one step a line: a message, its reply, and how the reply to `LIST` ends after the step. `^` is CR LF, and `$`
/// is LF.
const STEPS: &str = "\
PUT /k/alphakey00000001/example.com/s/@v/v1.0.0 HTTP/1.1^Mod-Length: 21^Content-Length: 21^^module example.com/s$ | \
    HTTP/1.1 201 Created^Content-Type: text/plain; charset=utf-8^Content-Length: 10^Connection: close^^published$ | \
    ^^v1.0.0$
PUT /k/alphakey00000001/example.com/s/@v/v1.0.0 HTTP/1.1^Mod-Length: 21^Content-Length: 22^^module example.com/s$Z | \
    HTTP/1.1 409 Conflict^Content-Type: text/plain; charset=utf-8^Content-Length: 9^Connection: close^^conflict$ | \
    ^^v1.0.0$
PUT /k/alphareader00001/example.com/s/@v/v1.1.0 HTTP/1.1^Mod-Length: 21^Content-Length: 21^^module example.com/s$ | \
    HTTP/1.1 403 Forbidden^Content-Type: text/plain; charset=utf-8^Content-Length: 10^Connection: close^^forbidden$ | \
    ^^v1.0.0$
PUT /k/commonkey0000001/example.com/s/@v/v1.1.0 HTTP/1.1^Mod-Length: 21^Content-Length: 22^^module example.com/s$c | \
    HTTP/1.1 201 Created^Content-Type: text/plain; charset=utf-8^Content-Length: 10^Connection: close^^published$ | \
    ^^v1.0.0$v1.1.0$
GET /k/alphakey00000001/example.com/s/@v/v1.1.0.zip HTTP/1.1^^ | HTTP/1.1 200 OK^Content-Type: application/zip^\
    Content-Length: 1^Connection: close^^c | ^^v1.0.0$v1.1.0$
GET /k/nosuchkey0000001/example.com/s/@v/v1.1.0.zip HTTP/1.1^^ | HTTP/1.1 404 Not Found^Content-Type: text/plain; \
    charset=utf-8^Content-Length: 10^Connection: close^^not found$ | ^^v1.0.0$v1.1.0$
PUT /k/alphakey00000001/example.com/s/@v/v1.2.0 HTTP/1.1^Mod-Length: 21^Content-Length: 21^^module example.com/s$ | \
    HTTP/1.1 201 Created^Content-Type: text/plain; charset=utf-8^Content-Length: 10^Connection: close^^published$ | \
    ^^v1.0.0$v1.1.0$v1.2.0$
GET /k/alphakey00000001/example.com/s/@latest HTTP/1.1^^ | HTTP/1.1 200 OK^Content-Type: application/json^\
    Content-Length: 20^Connection: close^^{\"Version\":\"v1.2.0\"} | ^^v1.0.0$v1.1.0$v1.2.0$
";

/// The request that shows what the shelves have.
const LIST: &[u8] = b"GET /k/alphakey00000001/example.com/s/@v/list HTTP/1.1\r\n\r\n";

/// How the reply to `LIST` ends while the shelves have no entry.
const NOTHING: &str = "^^not found$";

/// Returns the bytes that a text writes with `^` and `$`.
fn expanded(alloc: Global, text: &str) -> Result<String, Fail> {
    let text = text.replace(alloc, "^", "\r\n")?;
    Ok(text.replace(alloc, "$", "\n")?)
}

/// Returns the bytes of a column of a step.
fn column(alloc: Global, step: &str, at: usize) -> Result<String, Fail> {
    expanded(alloc, step.split(" | ").nth(at).ok_or("no column")?)
}

/// Returns the bytes of one column of all steps.
fn whole(alloc: Global, at: usize) -> Result<String, Fail> {
    let mut text = String::new(alloc);
    for step in STEPS.lines() {
        text.push_str(column(alloc, step, at)?.as_str())?;
    }
    Ok(text)
}

/// Answers a stream from shelves, then asks them for the list, and returns how the stream ended.
fn answer_and_list<S: Shelves + Drop>(
    alloc: Global,
    mut shelves: S,
    reader: Source,
    writer: &mut Sink,
    listed: &mut Sink,
) -> Result<(), Io> {
    let mut output = Telling::new(writer);
    let told = answer_all(alloc, &mut Hearing::new(reader), &mut output, &mut shelves);
    let mut list = Hearing::new(Source::new(LIST, 4096));
    answer_all(alloc, &mut list, &mut Telling::new(listed), &mut shelves)?;
    told
}

/// Reports whether a reader that fails ends the run with `Io::Read`, after these bytes were written, and the list then
/// ends so.
fn fails_with(alloc: Global, reader: Source, written: &str, list: &str) -> Result<bool, Fail> {
    let mut writer = Sink::new(alloc, usize::MAX);
    let mut listed = Sink::new(alloc, usize::MAX);
    let told = answer_and_list(alloc, shelves(alloc)?, reader, &mut writer, &mut listed);
    Ok(
        told == Err(Io::Read)
            && writer.taken.as_slice() == written.as_bytes()
            && listed.taken.ends_with(list.as_bytes()),
    )
}

/// Returns a reader that fails after this many reads of such pieces. It keeps in `left` how many bytes are left.
fn failing<'a>(stream: &'a [u8], piece: usize, reads: usize, left: &'a Cell<usize>) -> Source<'a> {
    let left = Some(left);
    Source {
        rest: stream,
        piece,
        reads,
        left,
    }
}

/// Reports whether, with a reader that fails after this many reads of such pieces, just the whole messages are
/// answered.
fn is_read_up_to(alloc: Global, stream: &[u8], piece: usize, reads: usize) -> Result<bool, Fail> {
    let given = reads.saturating_mul(piece).min(stream.len());
    let mut end: usize = 0;
    let mut written = String::new(alloc);
    let mut list = expanded(alloc, NOTHING)?;
    for step in STEPS.lines() {
        end = end.saturating_add(column(alloc, step, 0)?.len());
        if end <= given {
            written.push_str(column(alloc, step, 1)?.as_str())?;
            list = column(alloc, step, 2)?;
        }
    }
    let left = Cell::new(stream.len());
    let reader = failing(stream, piece, reads, &left);
    let is_so = fails_with(alloc, reader, written.as_str(), list.as_str())?;
    Ok(is_so && left.get() == stream.len().saturating_sub(given))
}

/// Returns the first number of reads in such pieces after which a failure leaves other than the whole messages
/// answered.
fn wrong_read(alloc: Global, piece: usize) -> Result<Option<usize>, Fail> {
    let stream = whole(alloc, 0)?;
    for reads in 0..stream.len().saturating_add(1) {
        if !is_read_up_to(alloc, stream.as_bytes(), piece, reads)? {
            return Ok(Some(reads));
        }
        if reads.saturating_mul(piece) >= stream.len() {
            return Ok(None);
        }
    }
    Ok(Some(stream.len()))
}

#[test]
fn a_read_that_fails_leaves_whole_messages_answered(rt: HostRuntime) -> Result<(), Fail> {
    assert!(rt; wrong_read(rt.alloc(), 1)?.is_none());
    assert!(rt; wrong_read(rt.alloc(), 50)?.is_none());
    assert!(rt; wrong_read(rt.alloc(), 119)?.is_none());
    assert!(rt; wrong_read(rt.alloc(), 65_536)?.is_none());
    Ok(())
}

/// Reports whether a writer that takes such pieces and fails once it has `room` bytes ends the stream with `Io::Write`,
/// with the first of these answers written, and the list then ends so.
fn is_written_up_to(
    alloc: Global,
    piece: usize,
    room: usize,
    answers: &[u8],
    list: &str,
) -> Result<bool, Fail> {
    let stream = whole(alloc, 0)?;
    let reader = Source::new(stream.as_bytes(), 4096);
    let mut writer = Sink::new(alloc, room);
    writer.piece = piece;
    let mut listed = Sink::new(alloc, usize::MAX);
    let told = answer_and_list(alloc, shelves(alloc)?, reader, &mut writer, &mut listed);
    Ok(
        told == Err(Io::Write)
            && writer.taken.len() == room
            && answers.starts_with(writer.taken.as_slice())
            && listed.taken.ends_with(list.as_bytes()),
    )
}

/// Returns the first position at which a write that fails does not leave a beginning of the replies and the message
/// done whose reply it cut.
fn wrong_write(alloc: Global, piece: usize) -> Result<Option<usize>, Fail> {
    let answers = whole(alloc, 1)?;
    let mut room: usize = 0;
    for step in STEPS.lines() {
        let end = room.saturating_add(column(alloc, step, 1)?.len());
        let list = column(alloc, step, 2)?;
        for at in room..end {
            if !is_written_up_to(alloc, piece, at, answers.as_bytes(), list.as_str())? {
                return Ok(Some(at));
            }
        }
        room = end;
    }
    Ok(None)
}

#[test]
fn a_write_that_fails_leaves_what_the_message_did(rt: HostRuntime) -> Result<(), Fail> {
    assert!(rt; wrong_write(rt.alloc(), 1)?.is_none());
    assert!(rt; wrong_write(rt.alloc(), 50)?.is_none());
    assert!(rt; wrong_write(rt.alloc(), usize::MAX)?.is_none());
    Ok(())
}

#[test]
fn a_flush_that_fails_leaves_all_written(rt: HostRuntime) -> Result<(), Fail> {
    let stream = whole(rt.alloc(), 0)?;
    let mut writer = Sink::new(rt.alloc(), usize::MAX);
    writer.flushes = false;
    let mut listed = Sink::new(rt.alloc(), usize::MAX);
    let reader = Source::new(stream.as_bytes(), 50);
    let told = answer_and_list(
        rt.alloc(),
        shelves(rt.alloc())?,
        reader,
        &mut writer,
        &mut listed,
    );
    assert!(rt; told == Err(Io::Write));
    assert!(rt; writer.taken.as_slice() == whole(rt.alloc(), 1)?.as_bytes());
    Ok(())
}
