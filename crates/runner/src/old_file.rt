//! A copy of the file of an older store, so that a migration writes to neither that file nor its log.
//!
//! sqlite opens the files of a store to write: it makes the log if there is none, and writes behind the last commit of
//! a log that another program wrote. So it opens a copy, which stands beside the new store.

ghost use Rattle.std.specs.Prelude.{IfErr};
ghost use Rattle.store_files.specs.Refusal.{IsOfOpening};

use crate::copy_line::{FilesLine, ShownFile};
use crate::temporary_files::TemporaryFiles;
use os::RangeLock;
use std::fs::{self, File, Metadata, OpenOptions};
use std::io::{self, ErrorKind, Read};
use std::os::fd::AsRawFd;
use std::os::unix::fs::{FileExt, MetadataExt, OpenOptionsExt};
use std::rt::HostRuntime;
use store::file_name::log_name;
use store_files::refusal::StoreRefusal;

/// The position of the locks of a database, and their number of bytes.
const LOCKS: (u64, u64) = (1 << 30, 512);

/// What each database file begins with.
const MAGIC: &[u8; 16] = b"SQLite format 3\0";

/// A file of the older store that is read under a lock.
#[derive(Drop)]
struct LockedFile {
    file: File,
    /// What the system said of it once it was locked.
    found: Metadata,
}

/// Copies the file at a path, and its log if there is one, into files beside the new store, and returns their names.
///
/// It locks both files before it reads their first byte and until it has read their last, so no other program writes
/// meanwhile. Fails with `Memory` if memory runs out. Fails with `Device` if another program has one of them open, if
/// one can't be read or has a second name, or if SQLite left a journal. If the copy can't be made for another cause, it
/// fails with `BadSchema` for a file that is no database, and otherwise with `Device`. Then it leaves no copy.
pub(crate) fn copy_of(
    rt: &HostRuntime,
    path: &str,
    to: &str,
) -> Result<TemporaryFiles, StoreRefusal>
    ensures { IfErr result IsOfOpening }
{
    match copy_locked(rt, path, to) {
        Ok(copy) => Ok(copy),
        Err(error) => match error.kind() {
            ErrorKind::OutOfMemory => Err(StoreRefusal::Memory),
            ErrorKind::InvalidData => Err(StoreRefusal::BadSchema),
            _ => Err(StoreRefusal::Device),
        },
    }
}

/// Copies both files under their locks. Fails as `copy_of` does, with `InvalidData` for a file that is no database.
fn copy_locked(rt: &HostRuntime, path: &str, to: &str) -> io::Result<TemporaryFiles> {
    // sqlite puts the log beside the file that a link leads to
    let real = fs::canonicalize(rt, path)?;
    let log_path = log_name(rt, real.as_str())?;
    let db = locked(rt, real.as_str())?;
    if has_journal(rt, real.as_str())? {
        return Err(ErrorKind::Unsupported.into());
    }
    let log = locked_log(rt, log_path.as_str())?;
    let copy = TemporaryFiles::beside(rt, to)?;
    copy_both(rt, &db, &log, &copy)?;
    if is_as_found(&db) && is_log_as_found(rt, log_path.as_str(), &log) {
        return Ok(copy);
    }
    copy.unlink(rt);
    Err(ErrorKind::WouldBlock.into())
}

/// Whether nobody wrote to a file since it was locked. A reader's lock does not hold off a program that keeps a log.
fn is_as_found(file: &LockedFile) -> bool {
    match file.file.metadata() {
        Ok(now) => {
            now.len() == file.found.len()
                && now.mtime() == file.found.mtime()
                && now.mtime_nsec() == file.found.mtime_nsec()
        }
        Err(_) => false,
    }
}

/// Whether nobody wrote to a log since it was locked, or made it if there was none.
fn is_log_as_found(rt: &HostRuntime, name: &str, log: &Option<LockedFile>) -> bool {
    match log {
        Some(log) => is_as_found(log),
        None => is_missing(rt, name),
    }
}

/// Opens a file of the older store and locks it: until it is dropped, no other program can open it to write. A file
/// that may only be read is locked as a reader does. Fails if another program has it open, or if it is no file with one
/// name.
fn locked(rt: &HostRuntime, path: &str) -> io::Result<LockedFile> {
    // opening a pipe would wait for whoever writes to it
    if !fs::symlink_metadata(rt, path)?.is_file() {
        return Err(ErrorKind::Unsupported.into());
    }
    let (file, kind) = match OpenOptions::new().read(true).write(true).open(rt, path) {
        Ok(file) => (file, RangeLock::Exclusive),
        Err(error) if is_denied(&error) => (File::open(rt, path)?, RangeLock::Shared),
        Err(error) => return Err(error),
    };
    if os::try_lock_range(file.as_raw_fd(), kind, LOCKS.0, LOCKS.1) != 0 {
        return Err(ErrorKind::WouldBlock.into());
    }
    let found = file.metadata()?;
    if found.nlink() != 1 {
        return Err(ErrorKind::Unsupported.into());
    }
    Ok(LockedFile { file, found })
}

/// Opens and locks a log, or returns None if there is none. Fails as `locked` does.
fn locked_log(rt: &HostRuntime, path: &str) -> io::Result<Option<LockedFile>> {
    if is_missing(rt, path) {
        return Ok(None);
    }
    Ok(Some(locked(rt, path)?))
}

/// Whether an error says that something is read-only.
fn is_denied(error: &io::Error) -> bool {
    matches!(
        error.kind(),
        ErrorKind::PermissionDenied | ErrorKind::ReadOnlyFilesystem
    )
}

/// Whether there is no file of this name.
pub(crate) fn is_missing(rt: &HostRuntime, path: &str) -> bool {
    match fs::symlink_metadata(rt, path) {
        Ok(_) => false,
        Err(error) => error.kind() == ErrorKind::NotFound,
    }
}

/// Whether SQLite left a rollback journal to play back, which only it can do. It has nothing to play back if its first
/// byte is missing or zero. Fails if the system does not say.
fn has_journal(rt: &HostRuntime, path: &str) -> io::Result<bool> {
    let journal = format!(in rt.alloc(); "{path}-journal")?;
    match fs::symlink_metadata(rt, journal.as_str()) {
        Ok(found) if found.is_file() => {}
        Ok(_) => return Ok(true),
        Err(error) if error.kind() == ErrorKind::NotFound => return Ok(false),
        Err(error) => return Err(error),
    }
    let mut first = [0];
    let read = File::open(rt, journal.as_str())?.read(&mut first)?;
    Ok(read == 1 && first[0] != 0)
}

/// Copies a database file, and its log if there is one, and shows on a terminal how far it is. If that fails, it leaves
/// no copy.
fn copy_both(
    rt: &HostRuntime,
    db: &LockedFile,
    log: &Option<LockedFile>,
    to: &TemporaryFiles,
) -> io::Result<()> {
    let log_size = match log {
        Some(log) => log.found.len(),
        None => 0,
    };
    let line = FilesLine::new(rt, "migrate 1/2", db.found.len().saturating_add(log_size));
    match copy_file(rt, db, to.path.as_str(), &line) {
        Ok(()) => {}
        Err(error) if error.kind() == ErrorKind::OutOfMemory => return Err(error),
        Err(_) if is_foreign(db, log)? => return Err(ErrorKind::InvalidData.into()),
        Err(error) => return Err(error),
    }
    let Some(log) = log else {
        return Ok(());
    };
    let copied = copy_file(rt, log, to.log.as_str(), &line);
    if copied.is_err() {
        let _ = fs::remove_file(rt, to.path.as_str());
    }
    copied
}

/// Whether a file is no database, whatever its copy would hold: it has no log, and does not begin as one does. Fails if
/// it can't be read.
fn is_foreign(db: &LockedFile, log: &Option<LockedFile>) -> io::Result<bool> {
    let mut begins = [0; 16];
    let read = db.file.read_at(&mut begins, 0)?;
    Ok(log.is_none() && (read < 16 || begins != *MAGIC))
}

/// Copies a file into a new one, which only its owner may read. Fails if there is such a file already, or if the system
/// fails; then it leaves no copy.
fn copy_file(
    rt: &HostRuntime,
    from: &LockedFile,
    to: &str,
    line: &FilesLine<'_>,
) -> io::Result<()> {
    let copy = OpenOptions::new()
        .write(true)
        .create_new(true)
        .mode(0o600)
        .open(rt, to)?;
    let mut shown = ShownFile {
        file: &from.file,
        line,
    };
    let copied = io::copy(&mut shown, &mut &copy);
    line.clear();
    match copied {
        Ok(_) => Ok(()),
        Err(error) => {
            let _ = fs::remove_file(rt, to);
            Err(error)
        }
    }
}
