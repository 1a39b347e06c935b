//! The first bytes of a reader, and how reading them ended.
ghost use Rattle.std.specs.Prelude.{◌≡◌, ◌<◌, ◌≤◌, ◌+◌, ◌^◌, [], false, IfOk, OnErr, length};
ghost use Rattle.commands.specs.Front as spec;

use crate::sources::SourceFault;
use histories::Hear;
use std::alloc::Global;
use std::io::ErrorKind;
use world::bytes::Bytes;

/// The most bytes of one read.
const PIECE: usize = 1 << 14;

/// How the reading of a file ended.
#[derive(Clone, Copy, Debug, Drop, PartialEq, Eq)]
pub enum ReadEnd {
    /// All its bytes came.
    Whole,
    /// It has more bytes than were asked for.
    Full,
    /// The rest was not read, for this reason.
    Broken(SourceFault),
}

impl ReadEnd {
    /// Whether all bytes came.
    pub(crate) fn is_whole(self) -> bool
        ensures { result ≡ spec.is_whole self }
    {
        match self {
            ReadEnd::Whole => true,
            ReadEnd::Full | ReadEnd::Broken(_) => false,
        }
    }
}

/// The first bytes of a file, and how reading them ended.
#[derive(Drop)]
pub struct Front {
    pub bytes: Bytes,
    pub end: ReadEnd,
}

/// Reads to the end of a reader, at most `most` bytes and one more, so that the caller sees that there are more.
/// Returns what came, also if a read fails or memory runs out.
pub(crate) fn hear_front<R: Hear>(alloc: Global, reader: &mut R, most: u64) -> Front
    requires { most < 2 ^ 63 }
    ensures hears { spec.HearsFront (R.account reader.old) (R.account reader.new) most result }
    // Each read gave some bytes or failed, but for one.
    ensures idle { spec.ReadsFew 1 (R.reads reader.old) (R.reads reader.new) 0 (length result.bytes) }
{
    let mut got = Vec::new(alloc);
    let end = hear_to_end(reader, &mut got, most);
    Front {
        bytes: Bytes::new(got),
        end,
    }
}

/// Reads after the bytes that came, which are none at first, and returns how that ended.
#[tactic(auto, using(crate::proofs::FrontLemmas::reads))]
fn hear_to_end<R: Hear>(reader: &mut R, got: &mut Vec<u8>, most: u64) -> ReadEnd
    requires few { most < 2 ^ 63 }
    requires none { got.old.items ≡ [] }
    ensures hears { spec.Hears (R.account reader.old) (R.account reader.new) most got.new.items result }
    // Each read gave some bytes or failed, but for one.
    ensures idle { spec.ReadsFew 1 (R.reads reader.old) (R.reads reader.new) (length got.old.items)
        (length got.new.items) }
{
    let mut chunk = [0; PIECE];
    for _ in 0..u64::MAX {
        let len = got.len() as u64;
        if len > most {
            return ReadEnd::Full;
        }
        let room = (most - len).min(PIECE as u64 - 1) as usize + 1;
        match hear_more(reader, got, &mut chunk[..room]) {
            Ok(true) => return ReadEnd::Whole,
            Ok(false) => {}
            Err(fault) => return ReadEnd::Broken(fault),
        }
    }
    ReadEnd::Broken(SourceFault::NoFile)
}

/// Reads once, after the bytes that came, and returns whether there are no more. A read that is interrupted reads
/// nothing. Fails with `NoFile` if a read fails, and with `Memory` if memory runs out.
fn hear_more<R: Hear>(
    reader: &mut R,
    got: &mut Vec<u8>,
    chunk: &mut [u8],
) -> Result<bool, SourceFault>
    requires { 0 < length chunk.old }
    ensures hears { IfOk result (λ over.
        spec.HearsOn (R.account reader.old) (R.account reader.new) got.old.items got.new.items over) }
    ensures few { IfOk result (λ _. length got.new.items ≤ length got.old.items + length chunk.old) }
    // It reads on only behind some bytes, or a read that was interrupted.
    ensures on { IfOk result (λ over. over ≡ false → spec.ReadsFew 0 (R.reads reader.old) (R.reads reader.new)
        (length got.old.items) (length got.new.items)) }
    ensures idle { spec.ReadsFew 1 (R.reads reader.old) (R.reads reader.new) (length got.old.items)
        (length got.new.items) }
    ensures fails { OnErr result
        (spec.LosesAll (R.account reader.old) (R.account reader.new) got.old.items got.new.items) }
{
    match reader.hear(chunk) {
        Ok(0) => Ok(true),
        Ok(n) => {
            got.extend_from_slice(&chunk[..n])?;
            Ok(false)
        }
        Err(e) if e.kind() == ErrorKind::Interrupted => Ok(false),
        Err(e) if e.kind() == ErrorKind::OutOfMemory => Err(SourceFault::Memory),
        Err(_) => Err(SourceFault::NoFile),
    }
}
