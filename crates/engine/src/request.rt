//! The request in a message: what it asks of the machine.
ghost use Rattle.std.specs.Prelude.{◌≡◌, ◌≤◌, take, drop, vec_len, IfOk};
ghost use Rattle.framing.specs.Framing.{view, texts};
ghost use Rattle.engine.specs.Request as spec;

use machine::request::{Body, GivenTime, Publish, Query, Request};
use modver::read_time;
use std::alloc::AllocError;
use wire::{Memory, Message, Resource, RouteTable, Target, length_value, target};
use world::bytes::Bytes;

/// What a message asks of the machine. For a go.sum line the machine is asked for the go.mod, so its replies and its
/// laws know nothing of sums. The line takes its path and its version from the request.
#[derive(Drop)]
pub(crate) struct MessageRequest {
    pub(crate) request: Request,
    /// The message asks for a go.sum line, and so the request is for the go.mod.
    pub(crate) is_summed: bool,
}

/// Returns what the message asks. The go.mod of a publish is the first bytes of its body, as many as `Mod-Length` says,
/// and its time is that of its `Version-Time`. Fails only if memory runs out.
pub(crate) fn message_request(
    routes: &mut RouteTable,
    message: Message,
) -> Result<MessageRequest, Memory>
    ensures { IfOk result (λ asked. asked ≡ spec.message_request (view message)) }
{
    let target = target(routes, &message.method, &message.target)?;
    let is_summed = is_summed(&target);
    let request = request_at(message, target)?;
    Ok(MessageRequest { request, is_summed })
}

/// Whether the target asks for a go.sum line.
fn is_summed(target: &Target) -> bool
    ensures { result ≡ spec.is_summed target.now }
{
    match target {
        Target::Get { resource, .. } => is_sum(resource),
        _ => false,
    }
}

fn is_sum(resource: &Resource) -> bool
    ensures { result ≡ spec.is_sum resource.now }
{
    match resource {
        Resource::GoSum { .. } => true,
        _ => false,
    }
}

/// Returns what a message with this target asks. Fails only if memory runs out.
fn request_at(message: Message, target: Target) -> Result<Request, AllocError>
    ensures { IfOk result (λ request. request ≡ spec.request_at (view message) target) }
{
    match target {
        Target::Unreadable => Ok(Request::Unreadable),
        Target::Get { key, resource } => Ok(Request::Get {
            key,
            query: query_of(resource),
        }),
        Target::Put { key, path, version } => {
            let time = given_time(&message.version_times);
            let body = body_of(message)?;
            Ok(Request::Put {
                key,
                publish: Publish {
                    path,
                    version,
                    body,
                    time,
                },
            })
        }
    }
}

/// Returns the machine's query. For a go.sum line it asks for the go.mod.
fn query_of(resource: Resource) -> Query
    ensures { result ≡ spec.query_of resource }
{
    match resource {
        Resource::Info { path, version } => Query::Info { path, version },
        Resource::GoMod { path, version } => Query::GoMod { path, version },
        Resource::Zip { path, version } => Query::Zip { path, version },
        Resource::List { path } => Query::List { path },
        Resource::Latest { path } => Query::Latest { path },
        Resource::Modules => Query::Modules,
        Resource::GoSum { path, version } => Query::GoMod { path, version },
    }
}

/// Returns the time that the values of `Version-Time` give: `Absent` for none, and `Malformed` for more than one.
#[tactic(auto, using(crate::proofs::RequestLemmas::many_times))]
fn given_time(values: &[Vec<u8>]) -> GivenTime
    ensures { result ≡ spec.given_time (texts values.now) }
{
    if values.len() > 1 {
        return GivenTime::Malformed;
    }
    match values {
        [text] => time_in(text),
        _ => GivenTime::Absent,
    }
}

/// Returns the time that a value writes, or `Malformed` if it writes none, for example because it is not UTF-8.
fn time_in(text: &[u8]) -> GivenTime
    ensures { result ≡ spec.time_in text.now }
{
    let Ok(text) = std::str::from_utf8(text) else {
        return GivenTime::Malformed;
    };
    match read_time(text) {
        Ok(time) => GivenTime::At(time),
        Err(_) => GivenTime::Malformed,
    }
}

/// Returns the files of a publish, or None if `gomod_len` gives no length for the go.mod. Fails only if memory runs
/// out.
fn body_of(message: Message) -> Result<Option<Body>, AllocError>
    ensures { IfOk result (λ body. body ≡ spec.body_of (view message)) }
{
    let Some(len) = gomod_len(&message.mod_lengths, message.body.len()) else {
        return Ok(None);
    };
    let (gomod, zip) = cut_in_two(message.body, len)?;
    Ok(Some(Body {
        gomod: Bytes::new(gomod),
        zip: Bytes::new(zip),
    }))
}

/// Returns the first `len` bytes of a text, and the others. It copies the shorter of the two and returns the other in
/// the buffer of the text. Fails only if memory runs out.
fn cut_in_two(mut text: Vec<u8>, len: usize) -> Result<(Vec<u8>, Vec<u8>), AllocError>
    requires { len ≤ vec_len text }
    ensures front { IfOk result (λ cut. cut.0.items ≡ take len text.items) }
    ensures back { IfOk result (λ cut. cut.1.items ≡ drop len text.items) }
{
    if len > text.len() - len {
        let back = text.split_off(len)?;
        return Ok((text, back));
    }
    let front = Vec::from_slice(*text.allocator(), &text[..len])?;
    text.rotate_left(len);
    text.truncate(text.len() - len);
    Ok((front, text))
}

/// Returns the length of the go.mod, or None if `Mod-Length` does not have exactly one value, if that is no length
/// value, or if it is more than `most`, the length of the body.
fn gomod_len(values: &[Vec<u8>], most: usize) -> Option<usize>
    ensures { result ≡ spec.gomod_len (texts values.now) most }
{
    let [text] = values else {
        return None;
    };
    let len = length_value(text)?;
    if len <= most { Some(len) } else { None }
}
