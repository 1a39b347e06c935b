//! Opens the files of a store, with room in memory for the pages of a zip.

ghost use Rattle.std.specs.Prelude.{◌≡◌, ◌⊎◌, ◌↔◌, true, false, Decides, IfOk, IfErr, IsErrAnd, OnOk, IsTrue};
ghost use Rattle.sqlite.specs.Files.{file_state, image_of, tally_left, IsOpened, IsCleanLeft, LeavesFiles, Finds};
ghost use Rattle.sqlite.specs.Files.{IsBlankAs};
ghost use Rattle.sqlite.specs.Start.{FindsIn};
ghost use Rattle.sqlite.specs.State.{HasCleanDisk};
ghost use Rattle.sqlite_std_file.specs.File.{file_is_usable, IsFresh};
ghost use Rattle.sqlite_store.specs.FileStore.{view};
ghost use Rattle.sqlite_wal.specs.Reads.{AreClean, IsClean, OnlyReads};
ghost use Rattle.store_files.specs.Refusal.{IsOfOpening};
ghost use Rattle.store.specs.Names.{IsNoFileName};
ghost use Rattle.store.specs.Restart.{HoldsNoDatabase, HoldsNoFile, IsOddByte, IsStray};

use crate::file_name::log_name;
use sqlite::{Connection, Error, ErrorCode, FileFrom, FileStore, Files, Leftover, Start};
use sqlite_disk::{Disk, Tally};
use sqlite_pager::Options;
use sqlite_pool::probe_blank;
use sqlite_std_file::OpenError;
use sqlite_wal::{Error as WalError, PageSize};
use std::alloc::Global;
use std::fs;
use std::hash::{BuildHasher, RandomState};
use std::io::{self, ErrorKind};
use store_files::refusal::StoreRefusal;

/// What a store has room in memory for. Pages have 4,096 bytes.
///
/// In both cases the log grows to the kit's 1,000 frames of a page each before it is copied into the file. With 16
/// times as many, a publish of 1 or 16 MiB takes up to a tenth less time, but each opening reads and digests a log of
/// 64 MiB.
#[derive(Clone, Copy, Drop)]
pub enum PageRoom {
    /// For the largest zip, which has 4,100 pages. One that is asked for again is not read again, nor are the pages
    /// that lead to it. With the kit's 2,000, each `.zip` reads all its pages from the system and digests them again.
    Zip,
    /// For a slice of a copy: a store that is filled while another one is served. The pages that it writes go to the
    /// log 1 MiB at a time, so that nobody waits for more.
    Slice,
}

impl PageRoom {
    /// The options of a connection with this room. The number salts its log.
    fn options(self, seed: u64) -> Options {
        let (cache_pages, spill_pages) = match self {
            PageRoom::Zip => (8_192, 2_000),
            PageRoom::Slice => (1_024, 256),
        };
        Options {
            cache_pages,
            spill_pages,
            ..Options::new(seed)
        }
    }
}

/// The page size of a new file.
const NEW_SIZE: usize = 4_096;

/// Each page of a new file ends in the sum of SQLite's cksumvfs. An opening refuses a file if one is wrong.
const NEW_HAS_SUMS: bool = true;

/// The bytes of a log's header and of a frame's. sqlite passes over a shorter log.
pub(crate) const SHORTEST_LOG: usize = 32 + 24;

/// Opens the files at a path, which it creates if they do not exist, and returns them with a number that it drew at
/// random.
///
/// Fails with `Memory` if memory ran out, and with `Device` if the files cannot be opened (see
/// [`StoreRefusal::Device`]) or the system has no random number. If the database file is missing and something other
/// than an empty file has the name of its log, it creates nothing.
///
/// It opens both files itself, because the kit's call for a path takes no number of pages.
pub(crate) fn open_pair<T: Start>(
    rt: &HostRuntime,
    path: &str,
    start: T,
) -> Result<(Files<FileFrom<T>>, u64), StoreRefusal>
    ensures no_file { IsNoFileName path.now → IsErrAnd result (λ e. e ≡ StoreRefusal.Device) }
    ensures unopened { IfErr result (λ e. (e ≡ StoreRefusal.Memory) ⊎ (e ≡ StoreRefusal.Device)) }
    ensures log { IfOk result (λ it. IsTrue (file_is_usable T.Start it.0.log)) }
    ensures db { IfOk result (λ it. IsTrue (file_is_usable T.Start it.0.db)) }
    ensures fresh { IfOk result (λ it. IsFresh true it.0.log × IsFresh false it.0.db) }
{
    if names_no_file(path) {
        return Err(StoreRefusal::Device);
    }
    match is_log_alone(rt, path) {
        Ok(false) => {}
        Ok(true) => return Err(StoreRefusal::Device),
        Err(error) => return Err(path_refusal(OpenError::Io(error))),
    }
    let Ok(state) = RandomState::new(rt) else {
        return Err(StoreRefusal::Device);
    };
    match sqlite_std_file::open(rt, path, start) {
        Ok(files) => Ok((files, state.hash_one(&0u8))),
        Err(error) => Err(path_refusal(error)),
    }
}

/// Reports whether sqlite takes this name for no file: `:memory:`, a URI, or the empty name.
pub fn names_no_file(path: &str) -> bool
    ensures { Decides result (IsNoFileName path.now) }
{
    path.is_empty() || path == ":memory:" || path.starts_with("file:")
}

/// Reports whether there is no file of this name, but something other than an empty file at the name of its log: what
/// is left of a store whose database file was removed. False if the system does not say whether there is a file; fails
/// if it does not say that of the log, or if memory runs out.
fn is_log_alone(rt: &HostRuntime, path: &str) -> io::Result<bool> {
    match fs::symlink_metadata(rt, path) {
        Err(error) if error.kind() == ErrorKind::NotFound => {}
        _ => return Ok(false),
    }
    let log = log_name(rt, path)?;
    match fs::symlink_metadata(rt, log.as_str()) {
        Ok(found) => Ok(!found.is_file() || found.len() > 0),
        Err(error) if error.kind() == ErrorKind::NotFound => Ok(false),
        Err(error) => Err(error),
    }
}

/// Reports whether a store that is opened at this path is a new one: there is no file or an empty one, and no log that
/// may be what is left of another store. False if the system does not say.
pub fn is_new_store(rt: &HostRuntime, path: &str) -> bool {
    let room = match fs::metadata(rt, path) {
        Ok(found) if found.is_file() && found.len() == 0 => SHORTEST_LOG as u64,
        Err(error) if error.kind() == ErrorKind::NotFound => 1,
        _ => return false,
    };
    let Ok(log) = log_name(rt, path) else {
        return false;
    };
    match fs::symlink_metadata(rt, log.as_str()) {
        Ok(found) => found.is_file() && found.len() < room,
        Err(error) => error.kind() == ErrorKind::NotFound,
    }
}

/// Opens a connection to two files, or returns them with the refusal. The number salts the log.
///
/// Fails with `BadSchema` if the files hold no database, with `Memory` if memory ran out, and with `Device` if the disk
/// failed or a log stands beside an empty file. No statement asks for the time, so it passes no clock.
///
/// It has no runtime, so it can open no other files, and those that it was given come back with the refusal.
pub(crate) fn connect_files<D: Disk + Drop>(
    alloc: Global,
    mut files: Files<D>,
    seed: u64,
    room: PageRoom,
) -> Result<Connection<FileStore<D>>, (StoreRefusal, Leftover<D>)>
    requires log { IsTrue (D.Disk.is_usable files.log) }
    requires db { IsTrue (D.Disk.is_usable files.db) }
    ensures opened { IfOk result (λ c. HasCleanDisk (file_state c) → IsOpened c) }
    ensures found { IfOk result (λ c. HasCleanDisk (file_state c) → FindsIn (image_of D.Disk files) (file_state c)) }
    ensures sums { IfOk result (λ c. HasCleanDisk (file_state c)
        → IsBlankAs true (image_of D.Disk files) → (view c.store).has_sums ≡ true) }
    ensures begun { IfOk result (λ c. HasCleanDisk (file_state c) → ¬ IsStray (image_of D.Disk files)) }
    ensures refused { IfErr result (λ e. IsOfOpening e.0) }
    ensures bad { IfErr result (λ e. e.0 ≡ StoreRefusal.BadSchema
        → IsCleanLeft e.1 → HoldsNoDatabase (image_of D.Disk files)) }
    ensures unharmed { IfErr result (λ e. IsCleanLeft e.1 → LeavesFiles files e.1) }
{
    match judge(alloc, &mut files) {
        Ok(()) => {}
        Err(refusal) => return Err((refusal, Leftover::Files(files))),
    }
    connect_judged(alloc, files, room.options(seed))
}

/// Refuses files that sqlite would take for ones with no database yet, and write over, though no broken-off start
/// leaves them. Nothing is written.
///
/// Fails with `BadSchema` if the file has a single byte that is not the first of a start, with `Device` if the file is
/// empty and its log has room for a frame, or if the disk failed, and with `Memory` if memory ran out.
fn judge<D: Disk>(alloc: Global, files: &mut Files<D>) -> Result<(), StoreRefusal>
    requires log { IsTrue (D.Disk.is_usable files.old.log) }
    requires db { IsTrue (D.Disk.is_usable files.old.db) }
    ensures begun { OnOk result (AreClean D.Disk files.new.log files.new.db → ¬ IsStray (image_of D.Disk files.old)) }
    ensures bad { IfErr result (λ e. e ≡ StoreRefusal.BadSchema
        → AreClean D.Disk files.new.log files.new.db → IsStray (image_of D.Disk files.old)) }
    ensures refused { IfErr result IsOfOpening }
    ensures log { OnlyReads D.Disk files.old.log files.new.log }
    ensures db { OnlyReads D.Disk files.old.db files.new.db }
{
    let Ok(is_lost) = is_log_of_nothing(files) else {
        return Err(StoreRefusal::Device);
    };
    if is_lost {
        return Err(StoreRefusal::Device);
    }
    let Ok(is_odd) = is_odd_byte(&mut files.db) else {
        return Err(StoreRefusal::Device);
    };
    if !is_odd {
        return Ok(());
    }
    match probe_blank(alloc, files, PageSize::new(NEW_SIZE).unwrap(), false) {
        Ok(true) => Err(StoreRefusal::BadSchema),
        Ok(false) => Ok(()),
        Err(WalError::OutOfMemory) => Err(StoreRefusal::Memory),
        Err(_) => Err(StoreRefusal::Device),
    }
}

/// Reports whether the file is empty and its log is long enough to have a frame. sqlite writes the first page of a file
/// before the first frame, so the pages of that log have lost their file.
fn is_log_of_nothing<D: Disk>(files: &mut Files<D>) -> io::Result<bool>
    requires log { IsTrue (D.Disk.is_usable files.old.log) }
    requires db { IsTrue (D.Disk.is_usable files.old.db) }
    ensures log { OnlyReads D.Disk files.old.log files.new.log }
    ensures db { OnlyReads D.Disk files.old.db files.new.db }
{
    if files.db.len()? > 0 {
        return Ok(false);
    }
    Ok(files.log.len()? >= SHORTEST_LOG)
}

/// Reports whether the file has a single byte, and not the 0 that sqlite first writes to a new file.
fn is_odd_byte<D: Disk>(db: &mut D) -> io::Result<bool>
    requires { IsTrue (D.Disk.is_usable db.old) }
    ensures told { IfOk result (λ b. IsClean D.Disk db.new → Decides b (IsOddByte (D.Disk.seen db.old))) }
    ensures same { OnlyReads D.Disk db.old db.new }
{
    if db.len()? != 1 {
        return Ok(false);
    }
    let mut first = [0];
    db.read_at(0, &mut first)?;
    Ok(first[0] != 0)
}

/// Opens a connection to two files that were judged, or returns them with the refusal. A read that fails the test of
/// its digest is a failure of the disk, and says nothing of what the files hold.
fn connect_judged<D: Disk + Drop>(
    alloc: Global,
    files: Files<D>,
    options: Options,
) -> Result<Connection<FileStore<D>>, (StoreRefusal, Leftover<D>)>
    requires log { IsTrue (D.Disk.is_usable files.log) }
    requires db { IsTrue (D.Disk.is_usable files.db) }
    ensures opened { IfOk result (λ c. HasCleanDisk (file_state c) → IsOpened c) }
    ensures found { IfOk result (λ c. HasCleanDisk (file_state c) → Finds files c) }
    ensures sums { IfOk result (λ c. HasCleanDisk (file_state c)
        → IsBlankAs true (image_of D.Disk files) → (view c.store).has_sums ≡ true) }
    ensures refused { IfErr result (λ e. IsOfOpening e.0) }
    ensures bad { IfErr result (λ e. e.0 ≡ StoreRefusal.BadSchema
        → IsCleanLeft e.1 → HoldsNoFile (image_of D.Disk files)) }
    ensures unharmed { IfErr result (λ e. IsCleanLeft e.1 → LeavesFiles files e.1) }
{
    let caught = files.tally().caught;
    match Connection::open_files_with(alloc, files, options, NEW_HAS_SUMS) {
        Ok(conn) => Ok(conn),
        Err((error, left)) => {
            let refusal = file_refusal(error, tally_of(&left).caught != caught);
            Err((refusal, left))
        }
    }
}

/// Returns what the failed calls of the files met.
fn tally_of<D: Disk>(left: &Leftover<D>) -> Tally
    ensures { result ≡ tally_left left.now }
{
    match left {
        Leftover::Files(files) => files.tally(),
        Leftover::Unopened(files) => files.tally(),
        Leftover::Store(store) => store.tally(),
    }
}

/// Returns the refusal for a file that cannot be opened: `Memory` if memory ran out, and otherwise `Device`, for
/// example if there is no permission or no such folder.
fn path_refusal(error: OpenError) -> StoreRefusal
    ensures unopened { (result ≡ StoreRefusal.Memory) ⊎ (result ≡ StoreRefusal.Device) }
    ensures memory { error ≡ OpenError.OutOfMemory → result ≡ StoreRefusal.Memory }
    ensures in_use { error ≡ OpenError.Busy → result ≡ StoreRefusal.Device }
{
    match error {
        OpenError::OutOfMemory => StoreRefusal::Memory,
        OpenError::Io(error) if error.kind() == ErrorKind::OutOfMemory => StoreRefusal::Memory,
        OpenError::Io(_) | OpenError::Busy | OpenError::HotJournal => StoreRefusal::Device,
    }
}

/// Returns the refusal for opened files that cannot be read: `BadSchema` if they hold no database or a damaged one and
/// each read passed the test of its digest, `Memory` if memory ran out, and otherwise `Device`.
fn file_refusal(error: Error, is_caught: bool) -> StoreRefusal
    ensures bad { result ≡ StoreRefusal.BadSchema
        ↔ ((is_caught ≡ false) × ((error ≡ Error.SqliteFailure ErrorCode.NotADatabase)
        ⊎ (error ≡ Error.SqliteFailure ErrorCode.DatabaseCorrupt))) }
    ensures memory { error ≡ Error.SqliteFailure ErrorCode.OutOfMemory → result ≡ StoreRefusal.Memory }
    ensures opening { IsOfOpening result }
{
    match error {
        Error::SqliteFailure(ErrorCode::NotADatabase | ErrorCode::DatabaseCorrupt) => {
            if is_caught {
                StoreRefusal::Device
            } else {
                StoreRefusal::BadSchema
            }
        }
        Error::SqliteFailure(ErrorCode::OutOfMemory) => StoreRefusal::Memory,
        _ => StoreRefusal::Device,
    }
}
