//! Copies a message out of the bytes of a stream.
ghost use Rattle.std.specs.Prelude.{◌≡◌, ◌+◌, ◌≤◌, length, map, drop, All, IfOk};
ghost use Rattle.httparse.specs.Spans.{IsHeaderWithin};
ghost use Rattle.std.specs.List.{slice_range};
ghost use Rattle.framing.specs.Framing.{view, texts, with_body};
ghost use Rattle.framing.specs.Message.{ReadsMessage};
ghost use Rattle.framing.specs.Values.{IsHeadAt, values_at};

use crate::head::{Head, is_named};
use crate::message::{Memory, Message};
use httparse::spans::HeaderSpan;
use std::alloc::Global;

/// Returns the values of the headers with the wanted name, in their order. It fails only if memory runs out.
fn values(
    alloc: Global,
    bytes: &[u8],
    headers: &[HeaderSpan],
    wanted: &[u8],
) -> Result<Vec<Vec<u8>>, Memory>
    requires { All (IsHeaderWithin (length bytes.now)) headers.now }
    ensures { IfOk result (λ found. texts found.items ≡ values_at wanted.now bytes.now headers.now) }
{
    let mut found = Vec::new(alloc);
    for header in headers {
        if is_named(header.name.of(bytes), wanted) {
            found.push(Vec::from_slice(alloc, header.value.of(bytes))?)?;
        }
    }
    Ok(found)
}

/// Returns the message at the front of the bytes with an empty body. It fails only if memory runs out.
pub(crate) fn bodiless_of(
    alloc: Global,
    bytes: &[u8],
    headers: &[HeaderSpan],
    head: Head,
) -> Result<Message, Memory>
    requires head { IsHeadAt bytes.now headers.now head }
    requires whole { head.spans.len + head.body ≤ length bytes.now }
    ensures { IfOk result (λ message.
        ReadsMessage bytes.now
        (with_body (slice_range bytes.now head.spans.len (head.spans.len + head.body)) (view message))
        (drop (head.spans.len + head.body) bytes.now)) }
{
    let spans = head.spans;
    let fields = &headers[..spans.headers];
    Ok(Message {
        method: Vec::from_slice(alloc, spans.method.of(bytes))?,
        target: Vec::from_slice(alloc, spans.path.of(bytes))?,
        body: Vec::new(alloc),
        mod_lengths: values(alloc, bytes, fields, b"mod-length")?,
        version_times: values(alloc, bytes, fields, b"version-time")?,
    })
}
