//! Replies: their statuses, the kinds of their bodies, and the replies whose body is fixed.
ghost use Rattle.std.specs.Prelude.{◌≡◌, ◌≤◌, length};
ghost use Rattle.wire.specs.Reply.{kind_text, fixed_status, phrase};

pub use http::StatusCode;

/// Returns the phrase of a status in a status line (RFC 9112, section 4), which is empty if the status has none.
#[tactic(auto, unfolding(crate::specs::Reply::phrase))]
pub(crate) fn phrase_of(status: StatusCode) -> &'static str
    ensures { result.now ≡ phrase status }
{
    status.canonical_reason().unwrap_or("")
}

/// The kind of a body: the value of `Content-Type`.
#[derive(Clone, Copy, Debug, Drop, PartialEq, Eq)]
pub enum MediaType {
    /// `text/plain; charset=utf-8`
    TextPlain,
    /// `application/json`
    Json,
    /// `application/zip`
    Zip,
}

/// A reply whose bytes are fixed, except for the line of `BadGoMod`.
#[derive(Clone, Copy, Debug, Drop, PartialEq, Eq)]
pub enum Fixed {
    AlreadyPublished,
    Published,
    BadRequest,
    BadModLength,
    Forbidden,
    NotFound,
    Conflict,
    TooLarge,
    MajorMismatch,
    BadTime,
    TimeMismatch,
    /// A go.mod that cannot be read, with the line of its fault, or 0 if the fault has none.
    BadGoMod(u64),
    ModulePath,
    IncompatibleGoMod,
    Unavailable,
    Full,
}

impl MediaType {
    /// The value of `Content-Type`.
    pub(crate) fn text(self) -> &'static str
        ensures text { result.now ≡ kind_text self }
        ensures short { length result.now ≤ 25 }
    {
        match self {
            MediaType::TextPlain => "text/plain; charset=utf-8",
            MediaType::Json => "application/json",
            MediaType::Zip => "application/zip",
        }
    }
}

impl Fixed {
    /// The status of the reply.
    #[tactic(auto, unfolding(crate::specs::Reply::phrase))]
    pub fn status(self) -> StatusCode
        ensures status { result ≡ fixed_status self }
        ensures short { length (phrase result) ≤ 20 }
    {
        match self {
            Fixed::AlreadyPublished => StatusCode::OK,
            Fixed::Published => StatusCode::CREATED,
            Fixed::BadRequest | Fixed::BadModLength => StatusCode::BAD_REQUEST,
            Fixed::Forbidden => StatusCode::FORBIDDEN,
            Fixed::NotFound => StatusCode::NOT_FOUND,
            Fixed::Conflict => StatusCode::CONFLICT,
            Fixed::TooLarge => StatusCode::PAYLOAD_TOO_LARGE,
            Fixed::MajorMismatch
            | Fixed::BadTime
            | Fixed::TimeMismatch
            | Fixed::BadGoMod(_)
            | Fixed::ModulePath
            | Fixed::IncompatibleGoMod => StatusCode::UNPROCESSABLE_ENTITY,
            Fixed::Unavailable => StatusCode::SERVICE_UNAVAILABLE,
            Fixed::Full => StatusCode::INSUFFICIENT_STORAGE,
        }
    }
}
