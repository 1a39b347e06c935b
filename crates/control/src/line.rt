//! Reading lines.
ghost use Rattle.std.specs.Prelude.{◌≡◌, ◌<◌, ◌≤◌, ◌+◌, ◌⊎◌, ◌↔◌, false, IfOk, IfErr, IsTrue, OnOk, vec_capacity};
ghost use Rattle.std.specs.Prelude.{vec_len};
ghost use Rattle.engine.specs.Causes.{IsUnreadable};
ghost use Rattle.orders.specs.Order.{longest_copy};
ghost use Rattle.control.specs.Line as spec;

use histories::{Failure, Hear};
use orders::LONGEST_LINE;
use std::alloc::{AllocError, Global};
use std::io::ErrorKind;

/// The most reads of one line, interrupted ones included.
const TRIES: u32 = 1_000;

/// The most bytes of the line of an outcome.
const LONGEST_OUTCOME: usize = 10;

/// The most bytes of one read.
const MOST_READ: usize = LONGEST_LINE + 1;

/// The room that the line of an outcome takes, however it comes.
pub(crate) const REPLY_ROOM: usize = LONGEST_OUTCOME + MOST_READ;

/// Why no line was read, or not all of a reply.
#[derive(Clone, Copy, Debug, Drop, PartialEq, Eq)]
pub enum ReadError {
    /// A read failed, or all that may be made did not end it.
    Io,
    /// Memory ran out.
    Memory,
}

impl From<AllocError> for ReadError {
    ghost use Rattle.control.specs.declared.line.ReadError.TheVariants.{Memory};

    ghost from_gives = { λ _ unread. unread ≡ Memory };

    fn from(_error: AllocError) -> ReadError {
        ReadError::Memory
    }
}

/// Reads a line of at most `LONGEST_LINE` bytes, with what comes after its end in the same read, and returns the bytes.
/// They may have no end of a line if the stream ends, or if the line is longer. Fails with `Io` if a read fails or
/// `TRIES` reads do not end the line, and with `Memory` if memory runs out.
pub(crate) fn read_line<R: Hear>(alloc: Global, reader: &mut R) -> Result<Vec<u8>, ReadError>
    ensures reads { IfOk result (λ got. spec.ReadsLine (R.account reader.old) (R.account reader.new) got.items) }
    ensures cause { IfErr result (λ why. why ≡ ReadError.Io
        → IsUnreadable spec.most_tries (R.reads reader.old) (R.reads reader.new)) }
    // No read began once a line had ended, or more bytes had come than a line may have.
    ensures asks { spec.AsksWhileOpen longest_copy (R.account reader.old) (R.account reader.new)
        (R.reads reader.old) (R.reads reader.new) }
{
    read_to(alloc, reader, LONGEST_LINE)
}

/// Reads until a line ends, more than `most` bytes came or the stream ends, and returns the bytes. Fails with `Io` if a
/// read fails or `TRIES` reads are not enough, and with `Memory` if memory runs out.
pub(crate) fn read_to<R: Hear>(
    alloc: Global,
    reader: &mut R,
    most: usize,
) -> Result<Vec<u8>, ReadError>
    ensures reads { IfOk result (λ got. spec.ReadsTo most (R.account reader.old) (R.account reader.new) got.items) }
    // Where memory did not run out, a read failed, or all that there are began.
    ensures cause { IfErr result (λ why. why ≡ ReadError.Io
        → IsUnreadable spec.most_tries (R.reads reader.old) (R.reads reader.new)) }
    // No read began once enough had come.
    ensures asks { spec.AsksWhileOpen most (R.account reader.old) (R.account reader.new)
        (R.reads reader.old) (R.reads reader.new) }
{
    let mut got = Vec::with_capacity(alloc, most.saturating_add(1))?;
    for _ in 0..TRIES {
        if read_on(reader, &mut got, most)? {
            return Ok(got);
        }
    }
    Err(ReadError::Io)
}

/// Reads once, after what was read, and returns whether no more has to be read. A read that is interrupted reads
/// nothing.
fn read_on<R: Hear>(reader: &mut R, got: &mut Vec<u8>, most: usize) -> Result<bool, ReadError>
    ensures on { IfOk result (λ done.
        spec.ReadsOn most (R.account reader.old) (R.account reader.new) got.old.items got.new.items done) }
    ensures tried { IfOk result (λ _. spec.HasTried 1 (R.reads reader.old) (R.reads reader.new)) }
    ensures fails { IfErr result (λ why. why ≡ ReadError.Io
        → (R.reads reader.old).failed < (R.reads reader.new).failed) }
    // More has to be read only if no line has ended, or if nothing came.
    ensures more { IfOk result (λ done. done ≡ false
        → (got.new.items ≡ got.old.items) ⊎ (¬ spec.HasEnough most got.new.items)) }
    ensures once { spec.AsksOnce (R.account reader.old) (R.account reader.new)
        (R.reads reader.old) (R.reads reader.new) }
{
    let mut chunk = [0; MOST_READ];
    match reader.hear(&mut chunk) {
        Ok(0) => Ok(true),
        Ok(n) => {
            got.extend_from_slice(&chunk[..n])?;
            Ok(is_enough(got, most))
        }
        Err(e) if e.kind() == ErrorKind::Interrupted => Ok(false),
        Err(_) => Err(ReadError::Io),
    }
}

/// How much of a reply is read.
#[derive(Clone, Copy, Debug, Drop, PartialEq, Eq)]
pub enum Extent {
    /// A line: as far as its end, or further than the line of an outcome goes.
    Line,
    /// All that comes.
    Stream,
}

/// What a read of a reply came to.
#[derive(Clone, Copy, Debug, Drop, PartialEq, Eq)]
pub enum Came {
    /// No more has to be read, or the stream has ended.
    All,
    /// More has to be read.
    Part,
    /// Nothing came, because the read was interrupted. Linux interrupts a read whose wait is bounded once its process
    /// was stopped and goes on.
    Interrupted,
    /// Nothing came in time.
    Late,
}

/// Reads a reply behind what was read, to its end. Fails with `Io` if a read breaks or is late, after which it reads no
/// more, or if `u64::MAX` reads are not enough; and with `Memory` if memory runs out, which a line takes none of that
/// begins with `REPLY_ROOM`.
pub(crate) fn read_reply<R: Hear>(
    reader: &mut R,
    got: &mut Vec<u8>,
    extent: Extent,
) -> Result<(), ReadError>
    ensures reads { OnOk result (spec.ReadsReply extent
        (R.account reader.old) (R.account reader.new) got.old.items got.new.items) }
    // It fails with `Io` just if a read broke or was late, or all that there are began or failed.
    ensures hears { spec.HearsReply false (R.reads reader.old) (R.reads reader.new) result }
    ensures memory { IfErr result (λ why. why ≡ ReadError.Memory
        → spec.LacksRoom extent (vec_capacity got.old) (vec_len got.old)) }
    // Each read but the last gave some bytes or failed.
    ensures few { spec.ReadsFew 1 (R.reads reader.old) (R.reads reader.new) (vec_len got.old) (vec_len got.new) }
{
    for _ in 0..u64::MAX {
        match hear_on(reader, got, extent)? {
            Came::All => return Ok(()),
            Came::Part | Came::Interrupted => {}
            Came::Late => return Err(ReadError::Io),
        }
    }
    Err(ReadError::Io)
}

/// Reads a part of a reply, behind what was read. Fails with `Io` if the read fails otherwise than for want of time or
/// by an interruption, and with `Memory` if memory runs out.
pub fn hear_on<R: Hear>(
    reader: &mut R,
    got: &mut Vec<u8>,
    extent: Extent,
) -> Result<Came, ReadError>
    ensures reads { IfOk result (λ _.
        spec.ReadsMore (R.account reader.old) (R.account reader.new) got.old.items got.new.items) }
    ensures came { IfOk result (λ came.
        spec.Comes extent came got.new.items (vec_len got.old) (vec_len got.new) (R.account reader.new)) }
    ensures tried { IfOk result (λ _. spec.Tries 1 (R.reads reader.old) (R.reads reader.new)) }
    ensures room { IfOk result (λ _. vec_capacity got.old ≤ vec_capacity got.new) }
    // It was late just if it came to that, and if it broke, it fails with `Io`.
    ensures fails { spec.FailsAs (R.reads reader.old) (R.reads reader.new) result }
    ensures memory { IfErr result (λ why. why ≡ ReadError.Memory
        → vec_capacity got.old < vec_len got.old + spec.most_read) }
    // A part is some bytes.
    ensures on { IfOk result (λ came. came ≡ Came.Part → vec_len got.old < vec_len got.new) }
    // It gives some bytes or fails, unless no more has to be read.
    ensures spends { IfOk result (λ came. spec.ReadsFew (spec.spare came)
        (R.reads reader.old) (R.reads reader.new) (vec_len got.old) (vec_len got.new)) }
    ensures few { spec.ReadsFew 1 (R.reads reader.old) (R.reads reader.new) (vec_len got.old) (vec_len got.new) }
{
    let mut chunk = [0; MOST_READ];
    match reader.hear(&mut chunk) {
        Ok(0) => Ok(Came::All),
        Ok(n) => {
            got.extend_from_slice(&chunk[..n])?;
            Ok(came_with(got, extent))
        }
        Err(e) => match Failure::of(&e) {
            Failure::Interrupted => Ok(Came::Interrupted),
            Failure::Late => Ok(Came::Late),
            Failure::Broken => Err(ReadError::Io),
        },
    }
}

/// Whether all of a reply came with these bytes, or a part of it.
fn came_with(bytes: &[u8], extent: Extent) -> Came
    ensures { spec.ComesWith extent result bytes.now }
{
    match extent {
        Extent::Line => {
            if is_enough(bytes, LONGEST_OUTCOME) {
                Came::All
            } else {
                Came::Part
            }
        }
        Extent::Stream => Came::Part,
    }
}

/// Whether a line ends in these bytes, or would be too long.
fn is_enough(bytes: &[u8], most: usize) -> bool
    ensures { IsTrue result ↔ spec.HasEnough most bytes.now }
{
    bytes.len() > most || bytes.contains(&b'\n')
}
