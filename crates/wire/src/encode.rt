//! Writes replies into buffers on the stack, which takes no memory.
ghost use Rattle.std.specs.Prelude.{◌≡◌, ◌+◌, ◌≤◌, ◌++◌, length, take};
ghost use Rattle.wire.specs.Reply.{phrase, head_with, head_bytes, fixed_text, fixed_bytes, line_bytes};

use crate::reply::{Fixed, MediaType, phrase_of};
use http::StatusCode;
use itoa::Buffer;

/// Writes the head of a 200 whose body has `len` bytes, with the empty line that ends it (RFC 9112, sections 4 and 5),
/// to the front of the buffer, and returns the length of the head.
#[tactic(auto, unfolding(crate::specs::Reply::phrase))]
pub fn encode_head(kind: MediaType, len: usize, buf: &mut [u8; 160]) -> usize
    ensures text { take result buf.new ≡ head_bytes 200 kind len }
    ensures short { result ≤ 160 }
{
    let mut digits = Buffer::new();
    encode_head_with(StatusCode::OK, kind, digits.format(len).as_bytes(), buf)
}

/// Writes the whole reply to the front of the buffer, and returns its length.
pub fn fixed(answer: Fixed, buf: &mut [u8; 160]) -> usize
    ensures text { take result buf.new ≡ fixed_bytes answer }
    ensures short { result ≤ 160 }
{
    let mut body = [0; 31];
    let line = encode_text(answer, &mut body, 0);
    let len = append(&mut body, line, b"\n");
    let mut digits = Buffer::new();
    let at = encode_head_with(
        answer.status(),
        MediaType::TextPlain,
        digits.format(len as u8).as_bytes(),
        buf,
    );
    append(buf, at, &body[..len])
}

/// Writes the number of the status, a space and the fixed body without its newline to the front of the buffer, such as
/// `422 bad-time`, and returns their length.
pub fn fixed_line(answer: Fixed, buf: &mut [u8; 40]) -> usize
    ensures text { take result buf.new ≡ line_bytes answer }
    ensures short { result ≤ 40 }
{
    let at = append(buf, 0, answer.status().as_str().as_bytes());
    let at = append(buf, at, b" ");
    encode_text(answer, buf, at)
}

/// Writes a text to the buffer at `at`, and returns the index after it.
fn append(buf: &mut [u8], at: usize, text: &[u8]) -> usize
    requires { at + length text.now ≤ length buf.old }
    ensures end { result ≡ at + length text.now }
    ensures text { take result buf.new ≡ take at buf.old ++ text.now }
{
    let end = at + text.len();
    buf[at..end].copy_from_slice(text);
    end
}

/// Writes a head with these digits as the length to the front of the buffer, and returns the length of the head.
fn encode_head_with(status: StatusCode, kind: MediaType, digits: &[u8], buf: &mut [u8]) -> usize
    requires phrase { length (phrase status) ≤ 20 }
    requires room { 115 + length digits.now ≤ length buf.old }
    ensures text { take result buf.new ≡ head_with status kind digits.now }
    ensures short { result ≤ 115 + length digits.now }
{
    let at = append(buf, 0, b"HTTP/1.1 ");
    let at = append(buf, at, status.as_str().as_bytes());
    let at = append(buf, at, b" ");
    let at = append(buf, at, phrase_of(status).as_bytes());
    let at = append(buf, at, b"\r\nContent-Type: ");
    let at = append(buf, at, kind.text().as_bytes());
    let at = append(buf, at, b"\r\nContent-Length: ");
    let at = append(buf, at, digits);
    append(buf, at, b"\r\nConnection: close\r\n\r\n")
}

/// Writes a fixed body without its newline to the buffer at `at`, and returns the index after it.
fn encode_text(answer: Fixed, buf: &mut [u8], at: usize) -> usize
    requires { at + 30 ≤ length buf.old }
    ensures text { take result buf.new ≡ take at buf.old ++ fixed_text answer }
    ensures short { result ≤ at + 30 }
{
    match answer {
        Fixed::AlreadyPublished => append(buf, at, b"already published"),
        Fixed::Published => append(buf, at, b"published"),
        Fixed::BadRequest => append(buf, at, b"bad request"),
        Fixed::BadModLength => append(buf, at, b"bad mod-length"),
        Fixed::Forbidden => append(buf, at, b"forbidden"),
        Fixed::NotFound => append(buf, at, b"not found"),
        Fixed::Conflict => append(buf, at, b"conflict"),
        Fixed::TooLarge => append(buf, at, b"too large"),
        Fixed::MajorMismatch => append(buf, at, b"major-mismatch"),
        Fixed::BadTime => append(buf, at, b"bad-time"),
        Fixed::TimeMismatch => append(buf, at, b"time-mismatch"),
        Fixed::BadGoMod(line) => encode_bad_gomod(line, buf, at),
        Fixed::ModulePath => append(buf, at, b"module-path"),
        Fixed::IncompatibleGoMod => append(buf, at, b"incompatible-gomod"),
        Fixed::Unavailable => append(buf, at, b"unavailable"),
        Fixed::Full => append(buf, at, b"full"),
    }
}

/// Writes `bad-gomod` and the line to the buffer at `at`, and returns the index after them.
fn encode_bad_gomod(line: u64, buf: &mut [u8], at: usize) -> usize
    requires { at + 30 ≤ length buf.old }
    ensures text { take result buf.new ≡ take at buf.old ++ fixed_text (Fixed.BadGoMod line) }
    ensures short { result ≤ at + 30 }
{
    let mut digits = Buffer::new();
    let at = append(buf, at, b"bad-gomod ");
    append(buf, at, digits.format(line).as_bytes())
}
