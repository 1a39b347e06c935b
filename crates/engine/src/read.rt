//! Reading into the framer.
ghost use Rattle.std.specs.Prelude.{◌≡◌, ℕ, ◌<◌, ◌≤◌, List, [], ◌++◌, IsTrue, ◌+◌, None, length, take, IfOk};
ghost use Rattle.std.specs.Prelude.{IfErr, OnErr};
ghost use Rattle.histories.specs.Account.{Gives};
ghost use Rattle.framing.specs.Framing.{IsUnfinished};
ghost use Rattle.engine.specs.Causes.{FailsWith, GivesNone};
ghost use Rattle.engine.specs.Served.{body_read_limit, read_limit};
ghost use Rattle.engine.specs.Session.{ReadsOn, StaysNear};

use crate::fault::Io;
use histories::Hear;
use std::io::ErrorKind;
use wire::Framer;
use wire::reply::Fixed;

/// How often a call is tried while it is interrupted.
/// The bound ends a stream that is interrupted without end.
pub(crate) const TRIES: u32 = 1_000;

/// The most bytes that are read after a message. A read takes no more unless more of a message is known to be missing.
const READ_LIMIT: usize = 4_096;

/// The most bytes of one read, however many of a message are missing.
const BODY_READ_LIMIT: usize = 65_536;

/// What a read led to.
#[derive(Clone, Copy, Drop)]
pub(crate) enum AfterRead {
    /// Bytes came, and the framer holds them.
    GoesOn,
    /// This reply closes the stream, or nothing does at a good end.
    Ends(Option<Fixed>),
}

/// Reads once and returns how many bytes came, which is 0 only at the end. `Io::Read` if the reader fails, or if it is
/// interrupted at each of `TRIES` calls.
fn read_some<R: Hear>(reader: &mut R, chunk: &mut [u8]) -> Result<usize, Io>
    requires { 0 < length chunk.old }
    ensures room { IfOk result (λ _. length chunk.new ≤ length chunk.old) }
    ensures within { IfOk result (λ n. n ≤ length chunk.new) }
    ensures ok { IfOk result (λ n. Gives (R.account reader.old) (R.account reader.new) (take n chunk.new)) }
    ensures end { IfOk result (λ n. n ≡ 0 → IsTrue (R.account reader.new).is_over) }
    ensures err { OnErr result (Gives (R.account reader.old) (R.account reader.new) []) }
    ensures which { IfErr result (λ e. e ≡ Io.Read) }
    ensures last { IfOk result (λ n. (R.reads reader.new).last ≡ take n chunk.new) }
    ensures begun { IfOk result (λ _. (R.reads reader.old).begun < (R.reads reader.new).begun) }
    ensures none { OnErr result (GivesNone (R.reads reader.old) (R.reads reader.new)) }
    ensures spent { (R.reads reader.old).begun ≤ (R.reads reader.new).begun }
    ensures fails { FailsWith (R.reads reader.old).failed (R.reads reader.new).failed result }
{
    for _ in 0..TRIES {
        match reader.hear(chunk) {
            Ok(n) => return Ok(n),
            Err(e) if e.kind() == ErrorKind::Interrupted => {}
            Err(_) => return Err(Io::Read),
        }
    }
    Err(Io::Read)
}

/// Reads once and feeds the framer what came. Returns `Ends` at the end of the input, with the 400 if the framer holds
/// something, and with the 503 if memory runs out. `Io::Read` if the read fails.
fn feed_some<R: Hear>(
    reader: &mut R,
    framer: &mut Framer,
    chunk: &mut [u8],
) -> Result<AfterRead, Io>
    requires waits { IsUnfinished framer.old.held }
    requires room { 0 < length chunk.old }
    requires near { (bytes : List ℕ) → length bytes ≤ length chunk.old → StaysNear framer.old.held bytes }
    ensures on { ReadsOn framer.old framer.new (R.account reader.old) (R.account reader.new) result }
    ensures few { length framer.new.held ≤ length framer.old.held + length chunk.old }
    ensures last { IfOk result (λ _. Gives (R.account reader.old) (R.account reader.new) (R.reads reader.new).last) }
    ensures begun { IfOk result (λ _. (R.reads reader.old).begun < (R.reads reader.new).begun) }
    ensures none { OnErr result (GivesNone (R.reads reader.old) (R.reads reader.new)) }
    ensures spent { (R.reads reader.old).begun ≤ (R.reads reader.new).begun }
    ensures fails { FailsWith (R.reads reader.old).failed (R.reads reader.new).failed result }
{
    match read_some(reader, chunk)? {
        0 if framer.is_empty() => Ok(AfterRead::Ends(None)),
        0 => Ok(AfterRead::Ends(Some(Fixed::BadRequest))),
        n => match framer.feed(&chunk[..n]) {
            Ok(()) => Ok(AfterRead::GoesOn),
            Err(_) => Ok(AfterRead::Ends(Some(Fixed::Unavailable))),
        },
    }
}

/// Reads once for a message that lacks more than `READ_LIMIT` bytes, and reads no byte after it. Returns and fails as
/// `feed_some` does.
#[inline(never)]
fn read_body<R: Hear>(reader: &mut R, framer: &mut Framer, missing: usize) -> Result<AfterRead, Io>
    requires waits { IsUnfinished framer.old.held }
    requires long { read_limit < missing }
    requires missing { (bytes : List ℕ) → length bytes < missing → IsUnfinished (framer.old.held ++ bytes) }
    ensures on { ReadsOn framer.old framer.new (R.account reader.old) (R.account reader.new) result }
    ensures few { length framer.new.held ≤ length framer.old.held + body_read_limit }
    ensures last { IfOk result (λ _. Gives (R.account reader.old) (R.account reader.new) (R.reads reader.new).last) }
    ensures begun { IfOk result (λ _. (R.reads reader.old).begun < (R.reads reader.new).begun) }
    ensures none { OnErr result (GivesNone (R.reads reader.old) (R.reads reader.new)) }
    ensures spent { (R.reads reader.old).begun ≤ (R.reads reader.new).begun }
    ensures fails { FailsWith (R.reads reader.old).failed (R.reads reader.new).failed result }
{
    let mut chunk = [0; BODY_READ_LIMIT];
    let most = missing.min(BODY_READ_LIMIT);
    feed_some(reader, framer, &mut chunk[..most])
}

/// Reads once and feeds the framer what came: at most 4,096 bytes, or 65,536 while more than 4,096 are known to be
/// missing of a message. Returns and fails as `feed_some` does.
pub(crate) fn read_more<R: Hear>(reader: &mut R, framer: &mut Framer) -> Result<AfterRead, Io>
    requires { IsUnfinished framer.old.held }
    ensures on { ReadsOn framer.old framer.new (R.account reader.old) (R.account reader.new) result }
    ensures few { length framer.new.held ≤ length framer.old.held + body_read_limit }
    ensures last { IfOk result (λ _. Gives (R.account reader.old) (R.account reader.new) (R.reads reader.new).last) }
    ensures begun { IfOk result (λ _. (R.reads reader.old).begun < (R.reads reader.new).begun) }
    ensures none { OnErr result (GivesNone (R.reads reader.old) (R.reads reader.new)) }
    ensures spent { (R.reads reader.old).begun ≤ (R.reads reader.new).begun }
    ensures fails { FailsWith (R.reads reader.old).failed (R.reads reader.new).failed result }
{
    let missing = framer.missing();
    if missing > READ_LIMIT {
        return read_body(reader, framer, missing);
    }
    let mut chunk = [0; READ_LIMIT];
    feed_some(reader, framer, &mut chunk)
}
