//! Heads that are not whole: new bytes are scanned one by one, as long as it is plain where in a head they are.
ghost use Rattle.std.specs.Prelude.{◌≡◌, ℕ, ◌≤◌, List, [], ◌∷◌, ◌++◌, length, take, IfSome, IsTrue, IsFalse};
ghost use Rattle.std.specs.List.{list_all};
ghost use Rattle.httparse.specs.Grammar.{is_token_byte, is_uri_byte, is_value_byte};
ghost use Rattle.httparse.specs.Pieces.{is_newline};
ghost use Rattle.framing.specs.Framing.{MayBeginHead};
ghost use Rattle.framing.specs.HeadFront.{Stands, IsScanOf, EndsLine};

use crate::head::HEAD_LIMIT;

/// The state of a scan: where in a head the bytes end (RFC 9112, sections 2 to 5).
#[derive(Clone, Copy, Drop)]
pub(crate) enum HeadState {
    /// After any empty lines before the request line.
    Blank,
    /// After the carriage return of such an empty line.
    BlankReturn,
    Method,
    Target,
    /// At the beginning of a header, or of the empty line that ends the head.
    Line,
    HeaderName,
    HeaderValue,
    /// After the carriage return of a header.
    Return,
}

/// Whether a byte may be in a method or in the name of a header.
fn is_token(byte: u8) -> bool
    ensures { result ≡ is_token_byte byte }
{
    byte.is_ascii_alphanumeric() || b"!#$%&'*+-.^_`|~".contains(&byte)
}

/// Whether a byte may be in a target.
fn is_uri(byte: u8) -> bool
    ensures { result ≡ is_uri_byte byte }
{
    byte > b' ' && byte != 127
}

/// Whether a byte may be in the value of a header.
fn is_value(byte: u8) -> bool
    ensures { result ≡ is_value_byte byte }
{
    byte == b'\t' || (byte >= b' ' && byte != 127)
}

/// Whether each byte is a carriage return or a line feed.
fn are_newlines(bytes: &[u8]) -> bool
    ensures { result ≡ list_all is_newline bytes.now }
{
    bytes.iter().all(|byte| *byte == b'\r' || *byte == b'\n')
}

impl HeadState {
    /// Returns the state after one more byte, or `None` if it is not plain that a head may go on with this byte.
    fn after(self, byte: u8) -> Option<HeadState>
        ensures { IfSome result (λ state. (bytes : List ℕ) → Stands self bytes → Stands state (bytes ++ byte ∷ [])) }
    {
        match self {
            HeadState::Blank if byte == b'\n' => Some(HeadState::Blank),
            HeadState::Blank if byte == b'\r' => Some(HeadState::BlankReturn),
            HeadState::Blank if is_token(byte) => Some(HeadState::Method),
            HeadState::BlankReturn if byte == b'\n' => Some(HeadState::Blank),
            HeadState::Method if is_token(byte) => Some(HeadState::Method),
            HeadState::Method if byte == b' ' => Some(HeadState::Target),
            HeadState::Target if is_uri(byte) => Some(HeadState::Target),
            HeadState::Line if is_token(byte) => Some(HeadState::HeaderName),
            HeadState::HeaderName if is_token(byte) => Some(HeadState::HeaderName),
            HeadState::HeaderName if byte == b':' => Some(HeadState::HeaderValue),
            HeadState::HeaderValue if is_value(byte) => Some(HeadState::HeaderValue),
            HeadState::HeaderValue if byte == b'\r' => Some(HeadState::Return),
            _ => None,
        }
    }

    /// Returns the state after more bytes, or `None` if it is not plain that a head may go on with each.
    fn after_all(self, more: &[u8]) -> Option<HeadState>
        ensures { IfSome result (λ state. (bytes : List ℕ) → Stands self bytes → Stands state (bytes ++ more.now)) }
    {
        let mut state = self;
        for byte in more {
            state = state.after(*byte)?;
        }
        Some(state)
    }
}

/// A scan: how many of the bytes held were scanned, and where in a head they end.
#[derive(Clone, Copy, Drop)]
pub(crate) struct Scan {
    pub(crate) state: HeadState,
    pub(crate) len: usize,
}

impl Scan {
    /// Scans the beginning of a head. It returns `None` if the last line does not plainly show where it ends.
    pub(crate) fn of(bytes: &[u8]) -> Option<Scan>
        requires { MayBeginHead bytes.now }
        ensures { IfSome result (IsScanOf bytes.now) }
    {
        let at = last_line(bytes);
        let state = first_state(&bytes[..at]).after_all(&bytes[at..])?;
        Some(Scan {
            state,
            len: bytes.len(),
        })
    }

    /// Returns the scan with the bytes that have come since, or `None` if it is not plain that no whole head begins the
    /// bytes and more bytes may complete one.
    pub(crate) fn advance(self, bytes: &[u8]) -> Option<Scan>
        requires { IsScanOf bytes.now self }
        ensures { IfSome result (λ scan. IsScanOf bytes.now scan × MayBeginHead bytes.now) }
    {
        if bytes.len() >= HEAD_LIMIT {
            return None;
        }
        let state = self.state.after_all(&bytes[self.len..])?;
        Some(Scan {
            state,
            len: bytes.len(),
        })
    }
}

/// Returns the index at which the last line begins.
fn last_line(bytes: &[u8]) -> usize
    ensures within { result ≤ length bytes.now }
    ensures ends { EndsLine (take result bytes.now) }
{
    let mut at = bytes.len();
    while at > 0 && bytes[at - 1] != b'\n' {
        at -= 1;
    }
    at
}

/// Returns where in a head its first lines end.
fn first_state(lines: &[u8]) -> HeadState
    ensures { (more : List ℕ) → EndsLine lines.now → MayBeginHead (lines.now ++ more) → Stands result lines.now }
{
    if are_newlines(lines) {
        return HeadState::Blank;
    }
    HeadState::Line
}
