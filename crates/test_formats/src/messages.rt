//! Messages of streams. (RFC 9112.)
use crate::rows::{bytes, column, named, on_one_line};
use std::alloc::{AllocError, Global};
use std::test::Fail;
use wire::{Bad, Framer, Memory, Message, Next, length_value};

/// - `length`: the text of a header, and the number that it writes, or `-` if it writes none.
/// - `stream`: a stream, its messages however it is cut, each with its body after `+`, and how it ends: `empty`, 400,
///   413, or `more` and how many bytes of a body are missing.
/// - `last`: a stream, its messages and end without its last byte, and then those with it. The stream repeats the
///   second column as
/// often as the third says, and the fourth follows; the result shows the repeated piece as `*`. A head has at most 64
/// headers and 16,384 bytes.
pub const ROWS: &str = "\
length|0|0
length|1|1
length|23|23
length|17825792|17825792
length|9999999999|9999999999
length||-
length|00|-
length|023|-
length|+23|-
length|-1|-
length|0x17|-
length|2 3|-
length|23 |-
length|10000000000|-
stream|GET / HTTP/1.0;;|GET / +  empty
stream|\r;\r;GET / HTTP/1.1\r;\r;|GET / +  empty
stream|GET / HTTP/1.1\r;content-length: 0\r;\r;|GET / +  empty
stream|GET /ü HTTP/1.1\r;\r;|GET /ü +  empty
stream|GET / HTTP/1.1\r;Content-Length: 1\r;\r;ab|GET / + a more 0
stream|GET / HTTP/1.1\r;Content-Length: \t1 \r;\r;a|GET / + a empty
stream||empty
stream|\r;\r;|more 0
stream|GET / HTTP/1.1\r;Content-Length: 17825792\r;\r;|more 17825792
stream|GET / HTTP/1.1\r;Content-Length: 17825793\r;\r;|413
stream|GET / HTTP/1.1\r;Content-Length: 9999999999\r;\r;|413
stream|GET / HTTP/1.1\r;Content-Length: 10000000000\r;\r;|400
stream|GET / HTTP/1.1\r;Content-Length: \r;\r;|400
stream|GET / HTTP/1.1\r;Content-Length: 00\r;\r;|400
stream|GET / HTTP/1.1\r;Content-Length: +23\r;\r;|400
stream|GET / HTTP/1.1\r;Content-Length: 023\r;\r;|400
stream|GET / HTTP/1.1\r;Content-Length: 0x17\r;\r;|400
stream|GET / HTTP/1.1\r;Content-Length: 99999999999\r;\r;|400
stream|GET / HTTP/1.1\r;Content-Length: 1\r;Content-Length: 1\r;\r;a|400
stream|GET / HTTP/1.1\r;Transfer-Encoding: identity\r;\r;|400
stream|GET / HTTP/1.1\r;Content-Length: 9999999999\r;transfer-encoding: x\r;\r;|400
stream|GET / HTTP/2.0\r;\r;|400
stream|PUT / HTTP/1.1;Content-Length: 1;;a|PUT / + a empty
stream|GET / HTTP/1.1\r;Content-Length : 1\r;\r;a|400
stream|GET / HTTP/1.1\r;Content-Length: 1, 1\r;\r;a|400
stream|GET / HTTP/1.1\r;Content-Length: 1\r; 2\r;\r;a|400
stream|GET / HTTP/1.1\r;Transfer-Encoding:\r;\r;|400
stream|GET /\u{0} HTTP/1.1\r;\r;|400
stream|GET /ÿ HTTP/1.1\r;\r;|400
stream|PUT /k/alphakey00000001/example.com/lib/@v/v1.0.0 HTTP/1.1\r;Mod-Length: 23\r;Content-Length: 23\r;\r;\
    module example.com/lib;GET /k/alphakey00000001/example.com/lib/@v/v1.0.0.mod HTTP/1.1\r;\r;\
    GET /k/alphakey00000001/example.com/lib/@v/v1.0.0.zip HTTP/1.1\r;\r;\
    GET /k/nosuchkey0000001/example.com/lib/@v/v1.0.0.mod HTTP/1.1\r;\r;|\
    PUT /k/alphakey00000001/example.com/lib/@v/v1.0.0 mod-length 23 + module example.com/lib; \
    GET /k/alphakey00000001/example.com/lib/@v/v1.0.0.mod +  GET /k/alphakey00000001/example.com/lib/@v/v1.0.0.zip +  \
    GET /k/nosuchkey0000001/example.com/lib/@v/v1.0.0.mod +  empty
stream|PUT / HTTP/1.1\r;mod-length: 1\r;Version-Time: \t2024-02-29T23:59:59Z \r;MOD-LENGTH:2\r;Version-Times: x\r;\r;|\
    PUT / mod-length 1 mod-length 2 version-time 2024-02-29T23:59:59Z +  empty
stream|GET / HTTP/1.1\r;\r;\r;|GET / +  more 0
stream|GET / HTTP/1.1\r;Content-Length: 9999999999\r;\r;PUT /k/alphakey00000001/example.com/lib/@v/v1.0.0 HTTP/1.1\r;\
    Mod-Length: 23\r;Content-Length: 23\r;\r;module example.com/lib;|413
last|PUT /k/alphakey00000001/example.com/lib/@v/v1.0.0 HTTP/1.1\r;Mod-Length: 23\r;Content-Length: 23\r;\r;\
    module example.com/lib;|more 1 then PUT /k/alphakey00000001/example.com/lib/@v/v1.0.0 mod-length 23 + module \
    example.com/lib; empty
last|G(|more 0 then 400
last|\rG|more 0 then 400
last|;\ra|more 0 then 400
last|GET\t|more 0 then 400
last|GET  |more 0 then 400
last|GET /\t|more 0 then 400
last|GET / X|more 0 then 400
last|GET / HTTP/1.2|more 0 then 400
last|GET / HTTP/1.1\ra|more 0 then 400
last|GET / HTTP/1.1\r;:|more 0 then 400
last|GET / HTTP/1.1\r; |more 0 then 400
last|GET / HTTP/1.1\r;A |more 0 then 400
last|GET / HTTP/1.1\r;A\t|more 0 then 400
last|GET / HTTP/1.1\r;A: b\u{0}|more 0 then 400
last|GET / HTTP/1.1\r;A: b\rc|more 0 then 400
last|GET / HTTP/1.1\r;A: b\r;\ra|more 0 then 400
last|\r;GET / HTTP/1.1\r;|A: b\r;|64|\r;|more 0 then GET / +  empty
last|\r;GET / HTTP/1.1\r;|A: b\r;|65|more 0 then 400
last|\r;GET / HTTP/1.1\r;|A: b\r;|64|Content-Length: 9999999999\r;|more 0 then 400
last|\r;GET / HTTP/1.1\r;A: |c|16359|\r;\r;|more 0 then GET / +  empty
last|\r;GET / HTTP/1.1\r;A: |c|16360|\r;\r|more 0 then 400
last|\r;GET / HTTP/1.1\r;Content-Length: 9999999999\r;A: |c|16332|\r;\r|more 0 then 400
last|\r;GET / HTTP/1.1\r;A: |c|16363|more 0 then 400
last||;|16384|more 0 then 400
last|PUT /a HTTP/1.1\r;Content-Length: 5000\r;\r;|more 0 then more 5000
last|PUT /a HTTP/1.1\r;Content-Length: 5000\r;\r;|x|5000|GET /b HTTP/1.1\r;\r;|\
    PUT /a + * more 0 then PUT /a + * GET /b +  empty
";

/// Appends the words to the text, each with a space after it.
fn put_words(text: &mut Vec<u8>, words: &[&[u8]]) -> Result<(), AllocError> {
    for word in words {
        text.extend_from_slice(word)?;
        text.push(b' ')?;
    }
    Ok(())
}

/// Appends the values of the headers of this name to the text, each after the name.
fn put_values(text: &mut Vec<u8>, name: &[u8], values: &[Vec<u8>]) -> Result<(), AllocError> {
    for value in values {
        put_words(text, &[name, value.as_slice()])?;
    }
    Ok(())
}

/// Appends a message to the text: its method, target, lengths and times, and its body after a `+`.
fn put_message(text: &mut Vec<u8>, message: &Message) -> Result<(), AllocError> {
    put_words(
        text,
        &[message.method.as_slice(), message.target.as_slice()],
    )?;
    put_values(text, b"mod-length", message.mod_lengths.as_slice())?;
    put_values(text, b"version-time", message.version_times.as_slice())?;
    put_words(text, &[b"+", message.body.as_slice()])
}

/// Appends the messages that are whole to the text, and returns what follows them.
fn take(framer: &mut Framer, text: &mut Vec<u8>) -> Result<&'static str, Memory> {
    for _ in 0..8u8 {
        match framer.next()? {
            Next::Message(message) => put_message(text, &message)?,
            Next::NeedMore => return Ok("more"),
            Next::Bad(Bad::BadRequest) => return Ok("400"),
            Next::Bad(Bad::TooLarge) => return Ok("413"),
        }
    }
    Ok("more than 8 messages")
}

/// Returns the messages of a stream and how it ends. The front comes in one piece, and the back in pieces of `step`
/// bytes.
fn handed_out(alloc: Global, front: &[u8], back: &[u8], step: usize) -> Result<Vec<u8>, Memory> {
    let mut framer = Framer::new(alloc);
    let mut text = Vec::new(alloc);
    framer.feed(front)?;
    take(&mut framer, &mut text)?;
    for piece in back.chunks(step.max(1)) {
        framer.feed(piece)?;
        take(&mut framer, &mut text)?;
    }
    let end = match take(&mut framer, &mut text)? {
        _ if framer.is_empty() => String::from_str(alloc, "empty")?,
        "more" => format!(in alloc; "more {}", framer.missing())?,
        status => String::from_str(alloc, status)?,
    };
    text.extend_from_slice(end.as_bytes())?;
    Ok(text)
}

/// Returns the messages and the end of a stream in one piece. They must not change if the stream is cut in two at any
/// of the first `limit` bytes, nor if the bytes after the cut come one by one; otherwise it returns `the cut matters`.
fn however_cut(alloc: Global, stream: &[u8], limit: usize) -> Result<Vec<u8>, Memory> {
    let whole = handed_out(alloc, stream, b"", 1)?;
    for cut in 0..limit.min(stream.len()) {
        let (front, back) = stream.split_at(cut);
        let in_two = handed_out(alloc, front, back, back.len())?;
        let by_bytes = handed_out(alloc, front, back, 1)?;
        if in_two.as_slice() != whole.as_slice() || by_bytes.as_slice() != whole.as_slice() {
            return Ok(Vec::from_slice(alloc, b"the cut matters")?);
        }
    }
    Ok(whole)
}

/// Returns the messages and the end of a stream without its last byte, and then with it, in one piece and byte by byte.
fn at_the_last_byte(alloc: Global, stream: &[u8]) -> Result<Vec<u8>, Memory> {
    let (front, _) = stream.split_at(stream.len().saturating_sub(1));
    let mut text = however_cut(alloc, front, 1)?;
    text.extend_from_slice(b" then ")?;
    text.extend_from_slice(&however_cut(alloc, stream, 1)?)?;
    Ok(text)
}

/// Makes the call of a row, and returns its result as a text.
pub fn given(alloc: Global, row: &str) -> Result<String, Fail> {
    let times = column(row, 3).parse::<usize>().unwrap_or(1);
    let filling = column(row, 2).repeat(alloc, times)?;
    let text = format!(in alloc; "{}{}{}", column(row, 1), filling.as_str(), column(row, 4))?;
    let stream = bytes(alloc, text.as_str())?;
    let text = match column(row, 0) {
        "length" => return Ok(named(alloc, length_value(&stream))?),
        "stream" => however_cut(alloc, &stream, stream.len())?,
        _ => at_the_last_byte(alloc, &stream)?,
    };
    let text = on_one_line(alloc, &text)?;
    if filling.is_empty() {
        return Ok(text);
    }
    Ok(text.replace(alloc, filling.as_str(), "*")?)
}
