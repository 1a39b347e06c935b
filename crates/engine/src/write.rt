//! Writing whole texts.
ghost use Rattle.std.specs.Prelude.{◌≡◌, ◌≢◌, ◌<◌, ◌≤◌, ◌++◌, ℕ, [], length, take, IfOk, IfErr, OnOk, OnErr};
ghost use Rattle.std.specs.Io.KnownBytes.{Appends, Keeps};
ghost use Rattle.wire.specs.Reply.{fixed_bytes, fixed_status, reply_bytes};
ghost use Rattle.engine.specs.Reply.{page_bytes, page_status};
ghost use Rattle.engine.specs.Causes.{FailsWith};
ghost use Rattle.engine.specs.Written.{Writes};

use crate::fault::Io;
use crate::page::Page;
use crate::read::TRIES;
use histories::Tell;
use std::alloc::{AllocError, Global};
use std::io::ErrorKind;
use wire::reply::{Fixed, MediaType, StatusCode};
use wire::{encode_head, fixed};

/// The most bytes of a body that is written with its head.
/// One write keeps a socket from sending the head alone and waiting. Without memory to join them there are two.
const JOINED_LIMIT: usize = 65_536;

/// Writes some of the bytes and returns how many. `Io::Write` if the writer fails or takes nothing, or if it is
/// interrupted at each of `TRIES` calls.
fn write_some<W: Tell>(writer: &mut W, bytes: &[u8]) -> Result<usize, Io>
    ensures some { IfOk result (λ n. 0 < n) }
    ensures within { IfOk result (λ n. n ≤ length bytes.now) }
    ensures ok { IfOk result (λ n. Appends (W.contents writer.old) (W.contents writer.new) (take n bytes.now)) }
    ensures err { OnErr result (Keeps (W.contents writer.old) (W.contents writer.new)) }
    ensures which { IfErr result (λ e. e ≡ Io.Write) }
    ensures fails { 0 < length bytes.now → FailsWith (W.writes writer.old).failed (W.writes writer.new).failed result }
{
    for _ in 0..TRIES {
        match writer.tell(bytes) {
            Ok(0) => return Err(Io::Write),
            Ok(n) => return Ok(n),
            Err(e) if e.kind() == ErrorKind::Interrupted => {}
            Err(_) => return Err(Io::Write),
        }
    }
    Err(Io::Write)
}

/// Writes all the bytes. `Io::Write` if a write fails: then a beginning of them is written, and not all.
pub fn write_bytes<W: Tell>(writer: &mut W, bytes: &[u8]) -> Result<(), Io>
    ensures bytes { Writes (W.contents writer.old) (W.contents writer.new) bytes.now result }
    ensures fails { FailsWith (W.writes writer.old).failed (W.writes writer.new).failed result }
{
    let mut rest = bytes;
    while !rest.is_empty() {
        let n = write_some(writer, rest)?;
        rest = &rest[n..];
    }
    Ok(())
}

/// Writes one text after another. `Io::Write` if a write fails: then a beginning of both is written, and not all.
pub fn write_both<W: Tell>(writer: &mut W, first: &[u8], second: &[u8]) -> Result<(), Io>
    ensures bytes { Writes (W.contents writer.old) (W.contents writer.new) (first.now ++ second.now) result }
    ensures fails { FailsWith (W.writes writer.old).failed (W.writes writer.new).failed result }
{
    write_bytes(writer, first)?;
    write_bytes(writer, second)
}

/// Returns the first text with the second after it. Fails only if memory runs out.
fn joined(alloc: Global, first: &[u8], second: &[u8]) -> Result<Vec<u8>, AllocError>
    ensures { IfOk result (λ text. text.items ≡ first.now ++ second.now) }
{
    let mut text = Vec::with_capacity(alloc, first.len() + second.len())?;
    text.extend_from_slice(first)?;
    text.extend_from_slice(second)?;
    Ok(text)
}

/// Writes a head and then a body: in one write if the body is short and there is memory to join them. `Io::Write` if a
/// write fails.
fn write_joined<W: Tell>(alloc: Global, writer: &mut W, head: &[u8], body: &[u8]) -> Result<(), Io>
    ensures bytes { Writes (W.contents writer.old) (W.contents writer.new) (head.now ++ body.now) result }
    ensures fails { FailsWith (W.writes writer.old).failed (W.writes writer.new).failed result }
{
    if body.len() <= JOINED_LIMIT {
        if let Ok(text) = joined(alloc, head, body) {
            return write_bytes(writer, &text);
        }
    }
    write_both(writer, head, body)
}

/// Writes a fixed reply, without taking memory, and returns its status. `Io::Write` if a write fails.
pub(crate) fn write_fixed<W: Tell>(writer: &mut W, answer: Fixed) -> Result<StatusCode, Io>
    ensures bytes { Writes (W.contents writer.old) (W.contents writer.new) (fixed_bytes answer) result }
    ensures status { IfOk result (λ status. status ≡ fixed_status answer) }
    ensures fails { FailsWith (W.writes writer.old).failed (W.writes writer.new).failed result }
{
    let mut buf = [0; 160];
    let len = fixed(answer, &mut buf);
    write_bytes(writer, &buf[..len])?;
    Ok(answer.status())
}

/// Writes a 200 with a body, and returns its status. `Io::Write` if a write fails. If there is no memory to join a
/// short body with its head, it writes them one after the other.
fn write_body<W: Tell>(
    alloc: Global,
    writer: &mut W,
    kind: MediaType,
    body: &[u8],
) -> Result<StatusCode, Io>
    ensures bytes { Writes (W.contents writer.old) (W.contents writer.new) (reply_bytes 200 kind body.now) result }
    ensures status { IfOk result (λ status. status ≡ 200) }
    ensures fails { FailsWith (W.writes writer.old).failed (W.writes writer.new).failed result }
{
    let mut buf = [0; 160];
    let len = encode_head(kind, body.len(), &mut buf);
    write_joined(alloc, writer, &buf[..len], body)?;
    Ok(StatusCode::OK)
}

/// Writes a reply, and returns its status. `Io::Write` if a write fails; it does not fail if memory runs out.
pub(crate) fn write_page<W: Tell>(
    alloc: Global,
    writer: &mut W,
    page: &Page,
) -> Result<StatusCode, Io>
    ensures bytes { Writes (W.contents writer.old) (W.contents writer.new) (page_bytes page.now) result }
    ensures status { IfOk result (λ status. status ≡ page_status page.now) }
    ensures fails { FailsWith (W.writes writer.old).failed (W.writes writer.new).failed result }
{
    match page {
        Page::Fixed(answer) => write_fixed(writer, *answer),
        Page::Body(kind, body) => write_body(alloc, writer, *kind, body.as_slice()),
    }
}

/// Flushes what was written. `Io::Write` if the flush fails.
pub(crate) fn flush<W: Tell>(writer: &mut W) -> Result<(), Io>
    ensures bytes { Keeps (W.contents writer.old) (W.contents writer.new) }
    ensures which { IfErr result (λ e. e ≡ Io.Write) }
    ensures fails { FailsWith (W.writes writer.old).failed (W.writes writer.new).failed result }
    ensures flushed { OnOk result ((W.writes writer.new).unflushed ≡ []) }
{
    match writer.settle() {
        Ok(()) => Ok(()),
        Err(_) => Err(Io::Write),
    }
}
