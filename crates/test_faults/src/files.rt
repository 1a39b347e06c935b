//! Files that count the calls that a store makes of them.
use sqlite_disk::{Disk, Tally};
use std::alloc::Global;
use std::io;

/// The calls that were made of a file.
#[derive(Drop)]
pub struct Calls {
    pub count: u64,
    /// The calls that change or sync the file, each by how many calls came before it.
    pub writes: Vec<u64>,
}

impl Calls {
    pub fn new(alloc: Global) -> Calls {
        Calls {
            count: 0,
            writes: Vec::new(alloc),
        }
    }

    fn note_read(&mut self) {
        self.count = self.count.saturating_add(1);
    }

    fn note_write(&mut self) {
        let _ = self.writes.push(self.count);
        self.count = self.count.saturating_add(1);
    }
}

/// A file, and the calls that were made of it.
#[derive(Drop)]
pub struct Counted<D: Disk> {
    pub file: D,
    pub calls: Calls,
}

impl<D: Disk> Disk for Counted<D> {
    ghost seen = { λ c. D.Disk.seen c.file };

    ghost may_leave = { λ c. D.Disk.may_leave c.file };

    ghost is_usable = { λ c. D.Disk.is_usable c.file };

    ghost faults = { λ c. D.Disk.faults c.file };

    ghost tally_of = { λ c. D.Disk.tally_of c.file };

    ghost is_rotten = { λ c. D.Disk.is_rotten c.file };

    ghost key_of = { λ c. D.Disk.key_of c.file };

    ghost is_clean = { λ c. D.Disk.is_clean c.file };

    ghost is_fair = { λ c. D.Disk.is_fair c.file };

    ghost fair_if_clean = { λ c. D.Disk.fair_if_clean c.file };

    ghost seen_may_stay = { λ c. D.Disk.seen_may_stay c.file };

    ghost is_mixing = { λ c. D.Disk.is_mixing c.file };

    fn mixes(&self) -> bool {
        self.file.mixes()
    }

    fn key(&self) -> u64 {
        self.file.key()
    }

    fn tally(&self) -> Tally {
        self.file.tally()
    }

    fn may_be_used(&self) -> bool {
        self.file.may_be_used()
    }

    fn len(&mut self) -> io::Result<usize> {
        self.calls.note_read();
        self.file.len()
    }

    fn read_at(&mut self, at: usize, buf: &mut [u8]) -> io::Result<()> {
        self.calls.note_read();
        self.file.read_at(at, buf)
    }

    fn read_checked(&mut self, key: u64, want: u64, at: usize, buf: &mut [u8]) -> io::Result<()> {
        self.calls.note_read();
        self.file.read_checked(key, want, at, buf)
    }

    fn write_at(&mut self, at: usize, bytes: &[u8]) -> io::Result<()> {
        self.calls.note_write();
        self.file.write_at(at, bytes)
    }

    fn set_len(&mut self, len: usize) -> io::Result<()> {
        self.calls.note_write();
        self.file.set_len(len)
    }

    fn sync(&mut self) -> io::Result<()> {
        self.calls.note_write();
        self.file.sync()
    }
}
