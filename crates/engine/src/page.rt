//! What is written for a reply of the machine.
ghost use Rattle.std.specs.Prelude.{◌≡◌, Some, IfOk, OnErr};
ghost use Rattle.engine.specs.Exchange.{Outcome, answer_to};
ghost use Rattle.engine.specs.Request.{sum_by};
ghost use Rattle.engine.specs.Reply as spec;
ghost use Rattle.engine.specs.Reply.{IsComposed, IsOutcome, IsSummed, answer_page};

use crate::request::MessageRequest;
use gosum::sum_line;
use machine::reply::{ContentRefusal, Decision, Reply};
use machine::request::{Query, Request};
use modpath::ModulePath;
use modver::Version;
use std::alloc::Global;
use wire::reply::{Fixed, MediaType};
use wire::{Memory, info_body};
use world::bytes::Bytes;
use world::registry::StoreFault;

/// What is written for a reply.
#[derive(Drop)]
pub enum Page {
    /// One of the fixed replies.
    Fixed(Fixed),
    /// A 200 with a body of this kind.
    Body(MediaType, Bytes),
}

/// Returns the fixed reply that refuses the content of a publish.
fn refusal_of(refusal: ContentRefusal) -> Fixed
    ensures { result ≡ spec.refusal_of refusal }
{
    match refusal {
        ContentRefusal::MajorMismatch => Fixed::MajorMismatch,
        ContentRefusal::BadTime => Fixed::BadTime,
        ContentRefusal::TimeMismatch => Fixed::TimeMismatch,
        ContentRefusal::BadGoMod(line) => Fixed::BadGoMod(line as u64),
        ContentRefusal::ModulePath => Fixed::ModulePath,
        ContentRefusal::IncompatibleGoMod => Fixed::IncompatibleGoMod,
    }
}

/// Returns the fixed reply for a decision on a publish.
/// A publish with an unknown key gets the 404 that an unreadable request gets.
pub fn fixed_of(decision: Decision) -> Fixed
    ensures { result ≡ spec.fixed_of decision }
{
    match decision {
        Decision::Published => Fixed::Published,
        Decision::Same => Fixed::AlreadyPublished,
        Decision::NotFound => Fixed::NotFound,
        Decision::Forbidden => Fixed::Forbidden,
        Decision::BadLength => Fixed::BadModLength,
        Decision::TooLarge => Fixed::TooLarge,
        Decision::Refused(refusal) => refusal_of(refusal),
        Decision::Conflict => Fixed::Conflict,
        Decision::Full => Fixed::Full,
    }
}

/// Returns the go.sum line of a go.mod, and a newline. `Memory` if there is no room for it.
fn sum_body(
    alloc: Global,
    path: &ModulePath,
    version: &Version,
    gomod: &[u8],
) -> Result<Bytes, Memory>
    ensures { IfOk result (λ body. body ≡ spec.gomod_body (Some (path.now, version.now)) gomod.now) }
{
    let mut line = sum_line(alloc, path, version, gomod)?;
    line.push_str("\n")?;
    Ok(Bytes::new(line.into_bytes()))
}

/// Returns the body for a go.mod: the bytes that were received, or its go.sum line if the message asks for that.
/// `Memory` only if there is no room for the line.
fn gomod_body(alloc: Global, asked: &MessageRequest, gomod: Bytes) -> Result<Bytes, Memory>
    ensures body { IfOk result (λ body. body ≡ spec.gomod_body (sum_by asked.now) gomod) }
    ensures memory { OnErr result (IsSummed (sum_by asked.now)) }
{
    if !asked.is_summed {
        return Ok(gomod);
    }
    match &asked.request {
        Request::Get {
            query: Query::GoMod { path, version },
            ..
        } => sum_body(alloc, path, version, gomod.as_slice()),
        _ => Ok(gomod),
    }
}

/// Returns what is written for the machine's reply to what was asked. `Memory` only if there is no room for a body that
/// is composed; the bytes of a file are moved into the page. A request whose reply has a composed body changed nothing,
/// so a 503 in its place loses nothing.
pub(crate) fn page_of(alloc: Global, asked: &MessageRequest, reply: Reply) -> Result<Page, Memory>
    ensures page { IfOk result (λ page. page ≡ spec.reply_page (sum_by asked.now) reply) }
    ensures memory { OnErr result (IsComposed (sum_by asked.now) reply) }
{
    match reply {
        Reply::NotFound | Reply::Registry(_) => Ok(Page::Fixed(Fixed::NotFound)),
        Reply::Decided(decision) => Ok(Page::Fixed(fixed_of(decision))),
        Reply::GoMod(text) => Ok(Page::Body(MediaType::TextPlain, gomod_body(alloc, asked, text)?)),
        Reply::Zip(zip) => Ok(Page::Body(MediaType::Zip, zip)),
        Reply::Info { version, time } => {
            let body = info_body(alloc, &version, time)?;
            Ok(Page::Body(MediaType::Json, Bytes::new(body)))
        }
        Reply::Versions(versions) => Ok(Page::Body(MediaType::TextPlain, versions.lines(alloc)?)),
        Reply::Paths(paths) => Ok(Page::Body(MediaType::TextPlain, paths.lines(alloc)?)),
    }
}

/// Returns what is written for the machine's answer: its reply, or the 503 if the store met a fault or memory runs out
/// for the body of the reply.
pub(crate) fn page_of_answer(
    alloc: Global,
    asked: &MessageRequest,
    answer: Result<Reply, StoreFault>,
) -> Page
    ensures { (outcome : Outcome) × IsOutcome (sum_by asked.now) answer outcome
        × (result ≡ answer_page (sum_by asked.now) (answer_to outcome)) }
{
    let Ok(reply) = answer else {
        return Page::Fixed(Fixed::Unavailable);
    };
    match page_of(alloc, asked, reply) {
        Ok(page) => page,
        Err(_) => Page::Fixed(Fixed::Unavailable),
    }
}
