//! Looks at files whose log an opening would write to, before they are opened. So a file that is refused keeps its log.

ghost use Rattle.std.specs.Prelude.{◌≡◌, IfOk, IfErr, IfSome, IsSomeAnd, IsTrue};
ghost use Rattle.sqlite.specs.Files.{image_of, IsCleanLeft};
ghost use Rattle.sqlite_wal.specs.Files.{image_at, outcomes};
ghost use Rattle.sqlite_wal.specs.Reads.{AreClean, OnlyReads};
ghost use Rattle.store_files.specs.Refusal.{IsOfOpening};
ghost use Rattle.store.specs.Restart.{HoldsNoStore, Keeps};
ghost use Rattle.store.specs.Still.{AreStill};

use crate::files::{PageRoom, SHORTEST_LOG};
use crate::open::open_over;
use peek::Peek;
use sqlite::{Files, Leftover, Start};
use sqlite_disk::Disk;
use sqlite_wal::{checksum_of, probe_frames, probe_page_size};
use std::alloc::Global;
use std::io;
use store_files::refusal::StoreRefusal;

/// Part of the text of a table that only a store has. It is in the first page of each file that goshelf made.
const OWN_TABLE: &[u8; 50] = b"CREATE TABLE shelf (name TEXT PRIMARY KEY, parent ";

/// The page size of a file that goshelf made.
const OWN_SIZE: usize = 4_096;

/// The bytes of a log's header.
const HEADER_LEN: usize = 32;

/// Where the header has its salt, whose first byte begins the salt of each frame that belongs to the log.
const SALT: usize = 16;

/// Where a frame has its salt.
const GATE: usize = 8;

/// Returns files that may be opened, or refuses them where they hold no store and an opening would write to their log.
/// Nothing is written to either file.
///
/// sqlite writes to the log before it reads the tables: a byte behind the last commit, so that what follows it is no
/// frame, or a new header over a log without one. Only where it would, this opens the store once more than needed, over
/// a [`Peek`] of each file. Files that goshelf has written are not opened twice.
pub(crate) fn look<D: Disk + Drop, T: Start>(
    alloc: Global,
    mut files: Files<D>,
    seed: u64,
) -> Result<Files<D>, (StoreRefusal, Option<Leftover<D>>)>
    requires still { AreStill D.Disk T.Start files }
    ensures still { IfOk result (λ files. AreStill D.Disk T.Start files) }
    ensures refused { IfErr result (λ e. IsOfOpening e.0) }
    ensures bad { IfErr result (λ e. e.0 ≡ StoreRefusal.BadSchema
        → IsSomeAnd e.1 (λ left. IsCleanLeft left → HoldsNoStore (image_at T.Start))) }
    ensures keeps { IfErr result (λ e. IfSome e.1 (λ left. IsCleanLeft left → Keeps (image_at T.Start) left)) }
{
    match writes_log(alloc, &mut files) {
        Ok(true) => look_closely::<D, T>(alloc, files, seed),
        _ => Ok(files),
    }
}

/// Reports whether an opening of files with a database may write to their log.
fn writes_log<D: Disk>(alloc: Global, files: &mut Files<D>) -> io::Result<bool>
    requires log { IsTrue (D.Disk.is_usable files.old.log) }
    requires db { IsTrue (D.Disk.is_usable files.old.db) }
    ensures log { OnlyReads D.Disk files.old.log files.new.log }
    ensures db { OnlyReads D.Disk files.old.db files.new.db }
{
    if files.db.len()? <= 1 {
        return Ok(false);
    }
    if files.log.len()? < SHORTEST_LOG {
        return Ok(!has_own_table(alloc, &mut files.db)?);
    }
    let Some(size) = probe_page_size(files)? else {
        return Ok(false);
    };
    match probe_frames(alloc, &mut files.log, size) {
        Ok(frames) => Ok(!is_shut(&mut files.log, frames.len(), size.bytes())?),
        Err(_) => Ok(false),
    }
}

/// Reports whether the first page of a file lists a table that only a store has.
fn has_own_table<D: Disk>(alloc: Global, db: &mut D) -> io::Result<bool>
    requires { IsTrue (D.Disk.is_usable db.old) }
    ensures { OnlyReads D.Disk db.old db.new }
{
    if db.len()? < OWN_SIZE {
        return Ok(false);
    }
    let mut page = vec![in alloc; 0; OWN_SIZE]?;
    db.read_at(0, &mut page)?;
    Ok(lists_own_table(&page))
}

fn lists_own_table(page: &[u8]) -> bool {
    let len = OWN_TABLE.len();
    for at in 0..page.len().saturating_sub(len) {
        if page[at..at + len] == OWN_TABLE[..] {
            return true;
        }
    }
    false
}

/// Reports whether sqlite leaves a log with so many frames of this page size as it is: its header is whole, and the
/// byte behind its last commit is not that of a frame's salt.
fn is_shut<D: Disk>(log: &mut D, frames: usize, page_size: usize) -> io::Result<bool>
    requires { IsTrue (D.Disk.is_usable log.old) }
    ensures { OnlyReads D.Disk log.old log.new }
{
    let end = frames
        .saturating_mul(page_size.saturating_add(SHORTEST_LOG - HEADER_LEN))
        .saturating_add(HEADER_LEN);
    if end.saturating_add(GATE) >= log.len()? {
        return Ok(false);
    }
    let mut head = [0; HEADER_LEN];
    log.read_at(0, &mut head)?;
    let mut gate = [0];
    log.read_at(end.saturating_add(GATE), &mut gate)?;
    Ok(gate[0] != head[SALT] && (frames > 0 || is_signed(&head)))
}

/// Reports whether a log's header is one of sqlite, by its checksum.
fn is_signed(head: &[u8; 32]) -> bool {
    if head[0] != 0x37 || head[1] != 0x7f || head[2] != 0x06 || head[3] & 0xfe != 0x82 {
        return false;
    }
    let (first, second) = checksum_of(head[3] == 0x83, (0, 0), &head[..24]);
    let mut sum = [0u8; 8];
    sum[..4].copy_from_slice(&first.to_be_bytes());
    sum[4..].copy_from_slice(&second.to_be_bytes());
    head[24..32] == sum[0..8]
}

/// Opens the store over a view of its files, and returns the files if it opens, or if why it does not may be another
/// reason than what they hold.
fn look_closely<D: Disk + Drop, T: Start>(
    alloc: Global,
    mut files: Files<D>,
    seed: u64,
) -> Result<Files<D>, (StoreRefusal, Option<Leftover<D>>)>
    requires still { AreStill D.Disk T.Start files }
    ensures still { IfOk result (λ files. AreStill D.Disk T.Start files) }
    ensures refused { IfErr result (λ e. IsOfOpening e.0) }
    ensures bad { IfErr result (λ e. e.0 ≡ StoreRefusal.BadSchema
        → IsSomeAnd e.1 (λ left. IsCleanLeft left → HoldsNoStore (image_at T.Start))) }
    ensures keeps { IfErr result (λ e. IfSome e.1 (λ left. IsCleanLeft left → Keeps (image_at T.Start) left)) }
{
    let (Ok(log_len), Ok(db_len)) = (files.log.len(), files.db.len()) else {
        return Ok(files);
    };
    let Files { log, db } = files;
    let shown = Files {
        log: Peek::<D, T>::over(alloc, log, true, log_len),
        db: Peek::<D, T>::over(alloc, db, false, db_len),
    };
    let (is_bad, shown) = is_no_store(alloc, shown, seed);
    let Some(files) = files_of(shown) else {
        return Err((StoreRefusal::Device, None));
    };
    if is_bad {
        return Err((StoreRefusal::BadSchema, Some(Leftover::Files(files))));
    }
    Ok(files)
}

/// Opens the store in two files, closes it, and reports whether the files were refused because they hold none. Returns
/// the files too.
fn is_no_store<D: Disk + Drop>(alloc: Global, files: Files<D>, seed: u64) -> (bool, Files<D>)
    requires log { IsTrue (D.Disk.is_usable files.log) }
    requires db { IsTrue (D.Disk.is_usable files.db) }
    requires settled { (it : _) → outcomes D.Disk files.log files.db it → it ≡ image_of D.Disk files }
    ensures { IsTrue result.0 → AreClean D.Disk result.1.log result.1.db → HoldsNoStore (image_of D.Disk files) }
{
    match open_over(alloc, files, seed, PageRoom::Slice) {
        Ok(shelves) => (false, shelves.close().into_store().close()),
        Err((StoreRefusal::BadSchema, left)) => (true, left.into_files()),
        Err((_, left)) => (false, left.into_files()),
    }
}

/// Returns the files that were shown, which are as they were. None if what came back is not a log and a database file,
/// which sqlite does not do, though no clause of it says so.
fn files_of<D: Disk + Drop, T: Start>(shown: Files<Peek<D, T>>) -> Option<Files<D>>
    ensures still { IfSome result (λ files. AreStill D.Disk T.Start files) }
    ensures clean { IfSome result (λ files. AreClean D.Disk files.log files.db
        → AreClean ⟦<Peek<D, T> as Disk>⟧ shown.log shown.db) }
{
    let Files { log, db } = shown;
    match (log.into_file(), db.into_file()) {
        ((log, true), (db, false)) => Some(Files { log, db }),
        _ => None,
    }
}
