//! A file that is only read, as a disk that takes writes, which stay in memory.
//!
//! sqlite writes to a log before it knows what the files hold. Over a [`Peek`] it may do so, and the file keeps every
//! byte.
#![tactic(auto)]

ghost use Rattle.std.specs.Prelude.{◌≡◌, ◌+◌, ◌-◌, ◌^◌, ◌<◌, ◌≤◌, ℕ, min, List, length, slice_index, true};
ghost use Rattle.std.specs.Prelude.{false, refl, IsTrue, IsErr, IfOk, OnOk, OnErr};
ghost use Rattle.sqlite_disk.specs.Disk.{CountsFault, MoreFaults};
ghost use Rattle.sqlite_disk.specs.Refusal.{finds_no_room};
ghost use Rattle.sqlite_wal.specs.Reads.{IsClean, OnlyReads};
ghost use Rattle.peek.specs.Edits.{held, after, shown, Fronts, IsPart};

use sqlite_disk::{Disk, Start, Tally};
use std::alloc::{AllocError, Global};
use std::io;
use std::marker::PhantomData;

/// A change that is shown and not made.
#[derive(Drop)]
pub enum Edit {
    /// These bytes at an offset.
    Put(usize, Vec<u8>),
    /// Another length.
    Cut(usize),
}

/// A file that held what `T` says of a log or of a database file, and holds it still. It shows the changes that it was
/// asked for.
///
/// A read against a digest fails where a change may be, so that only the file's own bytes are tested.
#[derive(Drop)]
pub struct Peek<D: Disk, T: Start> {
    file: D,
    /// Whether the file is the log.
    is_log: bool,
    alloc: Global,
    /// The length of the file.
    own_len: usize,
    /// The oldest first.
    edits: Vec<Edit>,
    /// No change is below this offset.
    front: usize,
    /// The length that is shown.
    len: usize,
    failures: u64,
    start: PhantomData<T>,
    ghost kept: { (c : List ℕ) → D.Disk.may_leave file c → c ≡ held T.Start is_log },
    ghost same: { D.Disk.seen file ≡ held T.Start is_log },
    ghost usable: { IsTrue (D.Disk.is_usable file) },
    ghost own: { IsTrue (D.Disk.is_clean file) → own_len ≡ length (D.Disk.seen file) },
    ghost fronts: { IsTrue (D.Disk.is_clean file)
        → Fronts front (D.Disk.seen file) (shown (D.Disk.seen file) edits.items) },
    ghost long: { IsTrue (D.Disk.is_clean file) → len ≡ length (shown (D.Disk.seen file) edits.items) },
    ghost short: { front ≤ len },
}

impl<D: Disk, T: Start> Peek<D, T> {
    ghost use Rattle.peek.specs.Peek.{file_of, is_of_log, IsWhole};

    /// Shows a file of this length, with no change.
    pub fn over(alloc: Global, file: D, is_log: bool, len: usize) -> Peek<D, T>
        requires kept { (c : List ℕ) → D.Disk.may_leave file c → c ≡ held T.Start is_log }
        requires same { D.Disk.seen file ≡ held T.Start is_log }
        requires usable { IsTrue (D.Disk.is_usable file) }
        requires len { IsTrue (D.Disk.is_clean file) → len ≡ length (D.Disk.seen file) }
        ensures file { file_of result ≡ file }
        ensures whole { IsWhole result }
    {
        Peek {
            file,
            is_log,
            alloc,
            own_len: len,
            edits: Vec::new(alloc),
            front: len,
            len,
            failures: 0,
            start: PhantomData,
        }
    }

    /// Returns the file, which is as it was, and whether it is the log.
    pub fn into_file(self) -> (D, bool)
        ensures file { result.0 ≡ file_of self }
        ensures kept { (c : List ℕ) → D.Disk.may_leave result.0 c → c ≡ held T.Start result.1 }
        ensures same { D.Disk.seen result.0 ≡ held T.Start result.1 }
        ensures usable { IsTrue (D.Disk.is_usable result.0) }
    {
        let Peek {
            file,
            is_log,
            alloc: _,
            own_len: _,
            edits: _,
            front: _,
            len: _,
            failures: _,
            start: _,
        } = self;
        (file, is_log)
    }
}

/// Whether so many bytes at an offset end there or before.
fn is_below(end: usize, at: usize, len: usize) -> bool
    ensures { IsTrue result → at + len ≤ end }
{
    at <= end && len <= end - at
}

/// Counts a failure.
fn note(failures: &mut u64)
    ensures more { MoreFaults failures.old failures.new }
    ensures counts { failures.old ≤ failures.new }
{
    *failures = failures.saturating_add(1);
}

/// Returns an error, and counts it.
fn fail(failures: &mut u64) -> io::Result<()>
    ensures failed { IsErr result }
    ensures kind { finds_no_room result ≡ false }
    ensures faults { CountsFault result failures.old failures.new }
{
    note(failures);
    Err(io::ErrorKind::Unsupported.into())
}

/// Adds a change as the newest.
fn add(edits: &mut Vec<Edit>, edit: Edit) -> Result<(), AllocError>
    ensures shows { OnOk result ((file : List ℕ)
        → shown file edits.new.items ≡ after edit (shown file edits.old.items)) }
    ensures same { OnErr result (edits.new.items ≡ edits.old.items) }
{
    edits.push(edit)?;
    Ok(())
}

fn copied(alloc: Global, bytes: &[u8]) -> Result<Vec<u8>, AllocError>
    ensures { IfOk result (λ copy. copy.items ≡ bytes.now) }
{
    let mut copy = Vec::new(alloc);
    copy.extend_from_slice(bytes)?;
    Ok(copy)
}

/// Reads a part of a file of this length, with zeros behind its end.
fn read_part<D: Disk>(file: &mut D, len: usize, at: usize, buf: &mut [u8]) -> io::Result<()>
    requires usable { IsTrue (D.Disk.is_usable file.old) }
    requires len { IsClean D.Disk file.old → len ≡ length (D.Disk.seen file.old) }
    ensures read { OnOk result (IsClean D.Disk file.new → IsPart (D.Disk.seen file.old) at buf.new) }
    ensures faults { OnOk result (D.Disk.faults file.new ≡ D.Disk.faults file.old) }
    ensures counts { D.Disk.faults file.old ≤ D.Disk.faults file.new }
    ensures tally { D.Disk.tally_of file.new ≡ D.Disk.tally_of file.old }
    ensures same { OnlyReads D.Disk file.old file.new }
{
    let own = cut(len, at, buf);
    if own == 0 {
        return Ok(());
    }
    file.read_at(at, &mut buf[..own])
}

/// Writes bytes of an offset over a part of a file that begins at another.
fn put(from: usize, bytes: &[u8], at: usize, buf: &mut [u8])
    requires fits { at + length buf.old < 2 ^ 64 }
    ensures written { (i : ℕ) → i < length buf.old → from ≤ at + i → at + i < from + length bytes.now
        → slice_index buf.new i ≡ slice_index bytes.now (at + i - from) }
    ensures below { (i : ℕ) → i < length buf.old → at + i < from → slice_index buf.new i ≡ slice_index buf.old i }
    ensures above { (i : ℕ) → i < length buf.old → from + length bytes.now ≤ at + i
        → slice_index buf.new i ≡ slice_index buf.old i }
{
    let start = from.max(at);
    let end = from.saturating_add(bytes.len()).min(at + buf.len());
    if start < end {
        buf[start - at..end - at].copy_from_slice(&bytes[start - from..end - from]);
    }
}

/// Writes zeros over what a part of a file that begins at an offset has behind another, and returns how much is before.
fn cut(len: usize, at: usize, buf: &mut [u8]) -> usize
    ensures own { result ≡ min (len - at) (length buf.old) }
    ensures below { (i : ℕ) → i < length buf.old → at + i < len → slice_index buf.new i ≡ slice_index buf.old i }
    ensures past { (i : ℕ) → i < length buf.old → len ≤ at + i → slice_index buf.new i ≡ 0 }
{
    let own = len.saturating_sub(at).min(buf.len());
    buf[own..].fill(0);
    own
}

/// Makes a change to a part of a file.
fn lay(edit: &Edit, at: usize, buf: &mut [u8])
    requires fits { at + length buf.old < 2 ^ 64 }
    ensures { (file : List ℕ) → IsPart file at buf.old → IsPart (after edit.now file) at buf.new }
{
    match edit {
        Edit::Put(from, bytes) => put(*from, bytes.as_slice(), at, buf),
        Edit::Cut(len) => {
            cut(*len, at, buf);
        }
    }
}

/// Makes changes to a part of a file.
fn lay_all(edits: &[Edit], at: usize, buf: &mut [u8])
    requires fits { at + length buf.old < 2 ^ 64 }
    ensures { (file : List ℕ) → IsPart file at buf.old → IsPart (shown file edits.now) at buf.new }
{
    for edit in edits {
        lay(edit, at, buf);
    }
}

impl<D: Disk, T: Start> Disk for Peek<D, T> {
    ghost seen = { λ p. shown (D.Disk.seen p.file) p.edits.items };

    ghost may_leave = { λ p c. c ≡ shown (D.Disk.seen p.file) p.edits.items };

    ghost is_usable = { λ _. true };

    ghost faults = { λ p. D.Disk.faults p.file + p.failures };

    ghost tally_of = { λ p. D.Disk.tally_of p.file };

    ghost is_rotten = { λ _ _ _. false };

    ghost key_of = { λ p. D.Disk.key_of p.file };

    ghost is_clean = { λ p. D.Disk.is_clean p.file };

    ghost is_fair = { λ p. D.Disk.is_fair p.file };

    ghost fair_if_clean = { λ p. D.Disk.fair_if_clean p.file };

    ghost seen_may_stay = { λ _. refl };

    fn mixes(&self) -> bool {
        false
    }

    fn key(&self) -> u64 {
        self.file.key()
    }

    fn tally(&self) -> Tally {
        self.file.tally()
    }

    fn may_be_used(&self) -> bool {
        true
    }

    fn len(&mut self) -> io::Result<usize> {
        Ok(self.len)
    }

    fn read_at(&mut self, at: usize, buf: &mut [u8]) -> io::Result<()> {
        if !is_below(self.len, at, buf.len()) {
            return fail(&mut self.failures);
        }
        match read_part(&mut self.file, self.own_len, at, buf) {
            Ok(()) => {
                lay_all(self.edits.as_slice(), at, buf);
                Ok(())
            }
            Err(error) => {
                // It may be a failure of what is shown and not of the file.
                note(&mut self.failures);
                Err(error)
            }
        }
    }

    fn read_checked(&mut self, key: u64, want: u64, at: usize, buf: &mut [u8]) -> io::Result<()> {
        if !is_below(self.front, at, buf.len()) {
            return fail(&mut self.failures);
        }
        match self.file.read_checked(key, want, at, buf) {
            Ok(()) => Ok(()),
            Err(error) => {
                // It may be a failure of what is shown and not of the file.
                note(&mut self.failures);
                Err(error)
            }
        }
    }

    fn write_at(&mut self, at: usize, bytes: &[u8]) -> io::Result<()> {
        if bytes.len() > usize::MAX - at {
            return fail(&mut self.failures);
        }
        let Ok(copy) = copied(self.alloc, bytes) else {
            return fail(&mut self.failures);
        };
        let Ok(()) = add(&mut self.edits, Edit::Put(at, copy)) else {
            return fail(&mut self.failures);
        };
        self.front = self.front.min(at);
        self.len = self.len.max(at + bytes.len());
        Ok(())
    }

    fn set_len(&mut self, len: usize) -> io::Result<()> {
        let Ok(()) = add(&mut self.edits, Edit::Cut(len)) else {
            return fail(&mut self.failures);
        };
        self.front = self.front.min(len);
        self.len = len;
        Ok(())
    }

    fn sync(&mut self) -> io::Result<()> {
        Ok(())
    }
}
