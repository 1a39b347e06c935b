//! A publish of a version from files.
ghost use Rattle.std.specs.Prelude.{◌≡◌, ◌⊎◌, [], option_copied, Err, IfErr, IfOk, OnOk};
ghost use Rattle.engine.specs.Causes.{FailsWith};
ghost use Rattle.machine.specs.Machine.{request_reply, after_request};
ghost use Rattle.world.specs.Store.{Does};
ghost use Rattle.commands.specs.Printed.{FailsEarlyOrByOutput, HasFailed, PrintsText};
ghost use Rattle.commands.specs.Publish as spec;
ghost use Rattle.commands.specs.Sources.{Adds, ReadsBoth};

use crate::printing::print_both;
use crate::refusal::CommandRefusal;
use crate::sources::{SourceFault, Sources, read_file};
use engine::Io;
use engine::page::fixed_of;
use histories::Tell;
use machine::reply::Reply;
use machine::request::{Body, GivenTime, Publish, Request};
use machine::step::step;
use modver::read_time;
use std::alloc::{AllocError, Global};
use text::Text;
use wire::fixed_line;
use wire::reply::Fixed;
use world::entry::{MAX_GOMOD, MAX_ZIP};
use world::forms::{path_of, version_of};
use world::registry::StoreFault;
use world::shelves::Shelves;

/// What a publish says about its version, in the words of a command line or a list.
#[derive(Clone, Copy, Drop)]
pub struct Words<'a> {
    pub key: &'a str,
    pub path: &'a str,
    pub version: &'a str,
    pub time: Option<&'a str>,
}

/// The names of the two files of a publish.
#[derive(Clone, Copy, Drop)]
pub struct Files<'a> {
    pub gomod: &'a str,
    pub zip: &'a str,
}

/// Reads two files of a source, publishes them and prints the outcome. It returns whether the version now has these
/// files. It reads no other file. If memory runs out while it reads, it does nothing on the store and the outcome is
/// the 503. `Io` if a file can't be read, and then it does nothing, or if the output fails: then a beginning of the
/// outcome's line is printed, or all of it.
pub fn publish<S: Shelves, F: Sources, O: Tell>(
    alloc: Global,
    shelves: &mut S,
    words: &Words,
    sources: &mut F,
    files: &Files,
    output: &mut O,
) -> Result<bool, CommandRefusal>
    ensures publishes { spec.PublishesFiles files.now (F.history sources.old) (F.history sources.new)
        S.shown shelves.old shelves.new
        (spec.asked_by words.now) (O.contents output.old) (O.contents output.new) result }
    // It fails only if a call of the output failed, or before it did anything, because a file can't be read.
    ensures cause { FailsEarlyOrByOutput shelves.old shelves.new (O.contents output.old) (O.contents output.new)
        (O.writes output.old) (O.writes output.new) result }
    // What was printed is flushed.
    ensures flushed { OnOk result ((O.writes output.new).unflushed ≡ []) }
{
    let read = read_files(sources, files);
    publish_read(alloc, shelves, words, read, output)
}

/// Publishes the files that were read, and prints the outcome. If they were not read, it does nothing on the store: it
/// prints the 503 if memory ran out, and otherwise fails with `Io`.
fn publish_read<S: Shelves, O: Tell>(
    alloc: Global,
    shelves: &mut S,
    words: &Words,
    read: Result<Body, SourceFault>,
    output: &mut O,
) -> Result<bool, CommandRefusal>
    ensures ends { spec.EndsBy S.shown shelves.old shelves.new (spec.asked_by words.now)
        (O.contents output.old) (O.contents output.new) result read }
    ensures cause { IfErr result (λ _. (read ≡ Err SourceFault.NoFile)
        ⊎ HasFailed (O.writes output.old) (O.writes output.new)) }
    ensures flushed { OnOk result ((O.writes output.new).unflushed ≡ []) }
{
    match read {
        Ok(body) => publish_files(alloc, shelves, words, body, output),
        Err(SourceFault::Memory) => tell(Fixed::Unavailable, output),
        Err(SourceFault::NoFile) => Err(CommandRefusal::Io),
    }
}

/// Returns the go.mod and the zip, or why one of them can't be read.
/// It stops at the first failure: if memory runs out for the go.mod, it does not read the zip.
#[tactic(auto, using(crate::proofs::SourceLemmas::two_files))]
pub(crate) fn read_files<F: Sources>(sources: &mut F, files: &Files) -> Result<Body, SourceFault>
    ensures { Adds (F.history sources.old) (F.history sources.new)
        (ReadsBoth files.now.gomod.now files.now.zip.now result) }
{
    let gomod = read_file(sources, files.gomod, MAX_GOMOD as u64)?;
    let zip = read_file(sources, files.zip, MAX_ZIP as u64)?;
    Ok(Body { gomod, zip })
}

/// Publishes files as the machine does and prints the outcome. It returns whether the version now has these files. `Io`
/// if the output fails: then a beginning of the outcome's line is printed, or all of it.
pub fn publish_files<S: Shelves, O: Tell>(
    alloc: Global,
    shelves: &mut S,
    words: &Words,
    body: Body,
    output: &mut O,
) -> Result<bool, CommandRefusal>
    ensures publishes { spec.PublishesAndTells (S.shown shelves.old) (S.shown shelves.new)
        (spec.asked_by words.now body) (O.contents output.old) (O.contents output.new) result }
    // It fails only if a call of the output failed.
    ensures cause { IfErr result (λ _. HasFailed (O.writes output.old) (O.writes output.new)) }
    // What was printed is flushed.
    ensures flushed { OnOk result ((O.writes output.new).unflushed ≡ []) }
{
    let told = publish_by(alloc, shelves, words, body);
    tell(answer_of(told), output)
}

/// Asks the machine to publish files, and returns its reply. Fails if the store meets a fault, or if memory runs out.
pub(crate) fn publish_by<S: Shelves>(
    alloc: Global,
    shelves: &mut S,
    words: &Words,
    body: Body,
) -> Result<Reply, StoreFault>
    ensures { Does (S.shown shelves.old) (S.shown shelves.new) result
        (λ w. request_reply w (spec.asked_by words.now body)) (λ w. after_request w (spec.asked_by words.now body)) }
{
    let request = request_of(alloc, words, body)?;
    step(alloc, shelves, &request)
}

/// Returns what a publish of files asks of the machine: `Unreadable` if the path or the version is invalid. Fails only
/// if memory runs out.
fn request_of(alloc: Global, words: &Words, body: Body) -> Result<Request, AllocError>
    ensures { IfOk result (λ request. request ≡ spec.asked_by words.now body) }
{
    let Some(path) = path_of(alloc, words.path)? else {
        return Ok(Request::Unreadable);
    };
    let Some(version) = version_of(alloc, words.version)? else {
        return Ok(Request::Unreadable);
    };
    let key = Text::copy_of(alloc, words.key)?;
    let publish = Publish {
        path,
        version,
        body: Some(body),
        time: given_time(words.time),
    };
    Ok(Request::Put { key, publish })
}

/// Returns the time that the text writes, `Malformed` if it writes none, or `Absent` without a text.
fn given_time(text: Option<&str>) -> GivenTime
    ensures { result ≡ spec.given_time (option_copied text.entry) }
{
    let Some(text) = text else {
        return GivenTime::Absent;
    };
    match read_time(text) {
        Ok(time) => GivenTime::At(time),
        Err(_) => GivenTime::Malformed,
    }
}

/// Returns the fixed answer to a publish: the 503 if the store met a fault.
pub(crate) fn answer_of(told: Result<Reply, StoreFault>) -> Fixed
    ensures { result ≡ spec.answer_of told }
{
    match told {
        Ok(Reply::Decided(decision)) => fixed_of(decision),
        Ok(_) => Fixed::NotFound,
        Err(_) => Fixed::Unavailable,
    }
}

/// Prints an answer as a line, and returns whether it accepts the publish. `Io` if the output fails.
fn tell<O: Tell>(answer: Fixed, output: &mut O) -> Result<bool, CommandRefusal>
    ensures tells { spec.PrintsAnswer answer (O.contents output.old) (O.contents output.new) result }
    ensures cause { IfErr result (λ _. HasFailed (O.writes output.old) (O.writes output.new)) }
    ensures flushed { OnOk result ((O.writes output.new).unflushed ≡ []) }
{
    match print_line(answer, output) {
        Ok(()) => Ok(is_accepted(answer.status().as_u16())),
        Err(_) => Err(CommandRefusal::Io),
    }
}

/// Whether a status accepts a publish.
pub(crate) fn is_accepted(status: u16) -> bool
    ensures { result ≡ spec.accepts status }
{
    status == 200 || status == 201
}

/// Prints an answer as a line: the number of its status, a space and its body. `Io::Write` if the output fails.
fn print_line<O: Tell>(answer: Fixed, output: &mut O) -> Result<(), Io>
    ensures prints { PrintsText (O.contents output.old) (O.contents output.new) (spec.answer_line answer) result }
    ensures fails { FailsWith (O.writes output.old).failed (O.writes output.new).failed result }
    ensures flushed { OnOk result ((O.writes output.new).unflushed ≡ []) }
{
    let mut line = [0; 40];
    let len = fixed_line(answer, &mut line);
    print_both(&line[..len], b"\n", output)
}
