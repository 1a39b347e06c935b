//! Heads, and what the bytes of a stream begin with.
ghost use Rattle.std.specs.Prelude.{◌≡◌, ℕ, ◌≤◌, List, [], ◌∷◌, ◌++◌, length, All, take, MatchOption};
ghost use Rattle.std.specs.Prelude.{MatchBool, codes, ◌≢◌};
ghost use Rattle.std.specs.Str.{str_eq_ignore_ascii_case};
ghost use Rattle.httparse.specs.Spans.{IsWithin, span_bytes, IsHeaderWithin, IsRequestWithin, IsRequestOf};
ghost use Rattle.framing.specs.Message.{Announces, header_limit};
ghost use Rattle.framing.specs.Values.{Counts, IsFront, values_at};

use crate::framer::Bad;
use crate::length::length_value;
use httparse::Status;
use httparse::spans::{HeaderSpan, RequestSpans, Span, parse_request};

/// The most bytes of a head.
pub const HEAD_LIMIT: usize = 16_384;

/// The most headers of a head.
/// A 65th header is refused at the end of its line, not before: `httparse` bounds no count in an unfinished head.
pub const HEADER_LIMIT: usize = 64;

/// The most bytes of a body, as `body_limit` in `specs/Message.antt`. `framing` knows nothing of a go.mod or a zip, so
/// the number is written here; `engine::laws::body_has_room_for_both_files` says that it is the sum of their limits.
pub const BODY_LIMIT: usize = 17_825_792;

/// How often a header occurs in a head.
#[derive(Clone, Copy, Drop)]
pub(crate) enum Occurs {
    Never,
    Once(Span),
    Several,
}

impl Occurs {
    /// Returns the count with one more value.
    fn and(self, value: Span) -> Occurs
        ensures { (bytes : List ℕ) (values : List (List ℕ)) → IsWithin (length bytes) value → Counts bytes self values
            → Counts bytes result (values ++ span_bytes bytes value ∷ []) }
    {
        match self {
            Occurs::Never => Occurs::Once(value),
            _ => Occurs::Several,
        }
    }
}

/// A good head: the spans of what it says, and the length of the body that it announces.
#[derive(Clone, Copy, Drop)]
pub(crate) struct Head {
    pub(crate) spans: RequestSpans,
    pub(crate) body: usize,
}

/// What the bytes begin with.
#[derive(Clone, Copy, Drop)]
pub(crate) enum Front {
    Begun(Head),
    Unfinished,
    Failed(Bad),
}

/// Whether a name is the wanted one, in any case.
pub(crate) fn is_named(name: &[u8], wanted: &[u8]) -> bool
    ensures { result ≡ str_eq_ignore_ascii_case name.now wanted.now }
{
    name.eq_ignore_ascii_case(wanted)
}

/// Returns how often the headers have the wanted name, and where the value is if they have it once.
fn occurrences(bytes: &[u8], headers: &[HeaderSpan], wanted: &[u8]) -> Occurs
    requires { All (IsHeaderWithin (length bytes.now)) headers.now }
    ensures { Counts bytes.now result (values_at wanted.now bytes.now headers.now) }
{
    let mut found = Occurs::Never;
    for header in headers {
        if is_named(header.name.of(bytes), wanted) {
            found = found.and(header.value);
        }
    }
    found
}

/// Returns the length of the body that a head announces, which is 0 without a `Content-Length`. It returns `None` if
/// the head has several or a malformed one.
fn announced(bytes: &[u8], headers: &[HeaderSpan]) -> Option<usize>
    requires { All (IsHeaderWithin (length bytes.now)) headers.now }
    ensures { let values = values_at (codes "content-length") bytes.now headers.now in
        MatchOption result ((n : ℕ) → ¬ (Announces values n)) (Announces values) }
{
    match occurrences(bytes, headers, b"content-length") {
        Occurs::Never => Some(0),
        Occurs::Once(span) => length_value(span.of(bytes)),
        Occurs::Several => None,
    }
}

/// Whether a head has a `Transfer-Encoding`.
fn is_encoded(bytes: &[u8], headers: &[HeaderSpan]) -> bool
    requires { All (IsHeaderWithin (length bytes.now)) headers.now }
    ensures { let values = values_at (codes "transfer-encoding") bytes.now headers.now in
        MatchBool result (values ≢ []) (values ≡ []) }
{
    match occurrences(bytes, headers, b"transfer-encoding") {
        Occurs::Never => false,
        Occurs::Once(_) => true,
        Occurs::Several => true,
    }
}

/// Checks a whole head. Returns what the bytes begin with: the head, or its failure if it is malformed, or if it or its
/// body is longer than the limits.
fn check_limits(bytes: &[u8], headers: &[HeaderSpan], spans: RequestSpans) -> Front
    requires room { length headers.now ≡ header_limit }
    requires within { IsRequestWithin bytes.now headers.now spans }
    requires whole { IsRequestOf bytes.now headers.now spans }
    ensures { IsFront bytes.now headers.now result }
{
    let fields = &headers[..spans.headers];
    if spans.len > HEAD_LIMIT || is_encoded(bytes, fields) {
        return Front::Failed(Bad::BadRequest);
    }
    match announced(bytes, fields) {
        None => Front::Failed(Bad::BadRequest),
        Some(body) if body > BODY_LIMIT => Front::Failed(Bad::TooLarge),
        Some(body) => Front::Begun(Head { spans, body }),
    }
}

/// Returns what the bytes begin with. It writes the headers of a whole head to the front of `headers`.
pub(crate) fn front_of(bytes: &[u8], headers: &mut [HeaderSpan]) -> Front
    requires { length headers.old ≡ header_limit }
    ensures { IsFront bytes.now headers.new result }
{
    if bytes.is_empty() {
        return Front::Unfinished;
    }
    match parse_request(bytes, headers) {
        Ok(Status::Complete(spans)) => check_limits(bytes, headers, spans),
        Ok(Status::Partial) if bytes.len() < HEAD_LIMIT => Front::Unfinished,
        Ok(Status::Partial) => Front::Failed(Bad::BadRequest),
        Err(_) => Front::Failed(Bad::BadRequest),
    }
}
