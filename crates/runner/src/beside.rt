//! The names that SQLite gives the files beside a database: its journal, its log and its shared memory. A store of such
//! a name makes the database unreadable, so none is made there. This module looks at names, reads how a log begins, and
//! syncs the log of a copy; it makes, changes and removes no file.

ghost use Rattle.std.specs.Prelude.{IfErr};
ghost use Rattle.runner.specs.Opened.{IsOfName};

use commands::files::{is_missing_or_empty, is_same_file};
use std::fs::{self, File};
use std::io::{self, ErrorKind, Read};
use std::rt::HostRuntime;
use store::file_name::{log_name, real_name};
use store::files::is_new_store;
use store_files::refusal::StoreRefusal;

/// Tests the name of a new store. Fails with `Device` if SQLite has a use for that file, by its name or by a link: for
/// the database at `db`, or for another that stands there. Fails with `Memory` if memory runs out.
pub(crate) fn check_name(rt: &HostRuntime, db: &str, to: &str) -> Result<(), StoreRefusal>
    ensures { IfErr result IsOfName }
{
    match is_taken(rt, db, to) {
        Ok(false) => Ok(()),
        Ok(true) => Err(StoreRefusal::Device),
        Err(error) if error.kind() == ErrorKind::OutOfMemory => Err(StoreRefusal::Memory),
        Err(_) => Err(StoreRefusal::Device),
    }
}

/// Whether SQLite has a use for the file that a name leads to. Fails only if memory runs out.
fn is_taken(rt: &HostRuntime, db: &str, to: &str) -> io::Result<bool> {
    let db = real_name(rt, db)?;
    let real = real_name(rt, to)?;
    Ok(is_beside(rt, db.as_str(), to)? || is_beside(rt, db.as_str(), real.as_str())?)
}

/// Whether a file is the journal, the log or the shared memory of the database at `db` or of another. Fails only if
/// memory runs out.
fn is_beside(rt: &HostRuntime, db: &str, file: &str) -> io::Result<bool> {
    Ok(
        ends_so(rt, db, file, "-journal")?
            || ends_so(rt, db, file, "-wal")?
            || ends_so(rt, db, file, "-shm")?,
    )
}

/// Whether a file is the one that SQLite calls by a database's name and this ending. Fails only if memory runs out.
fn ends_so(rt: &HostRuntime, db: &str, file: &str, ending: &str) -> io::Result<bool> {
    let beside = format!(in rt.alloc(); "{db}{ending}")?;
    if beside.as_str() == file || is_same_file(rt, beside.as_str(), file) {
        return Ok(true);
    }
    match file.strip_suffix(ending) {
        Some(other) => Ok(is_file(rt, other)),
        None => Ok(false),
    }
}

/// Whether there is a file of this name, which no folder is.
fn is_file(rt: &HostRuntime, path: &str) -> bool {
    match fs::metadata(rt, path) {
        Ok(found) => found.is_file(),
        Err(_) => false,
    }
}

/// Whether there is no such file, or it has no bytes, and beside it stands a log that may be what is left of a store.
/// SQLite would lose that log, so no store is made there. False if memory runs out.
pub(crate) fn has_lone_log(rt: &HostRuntime, path: &str) -> bool {
    if !is_missing_or_empty(rt, path) || is_new_store(rt, path) {
        return false;
    }
    match log_name(rt, path) {
        Ok(log) => is_log(rt, log.as_str()),
        Err(_) => false,
    }
}

/// Whether the log that [`has_lone_log`] finds has the name of the file and `-wal`. It has another one if the file's
/// name is that of a link. False if memory runs out.
pub(crate) fn has_lone_log_of_name(rt: &HostRuntime, path: &str) -> bool {
    let Ok(log) = log_name(rt, path) else {
        return false;
    };
    match format!(in rt.alloc(); "{path}-wal") {
        Ok(named) => is_same_file(rt, named.as_str(), log.as_str()) && has_lone_log(rt, path),
        Err(_) => false,
    }
}

/// Whether there is a file of this name that begins as a log. A store that has the name of another one's log does not.
fn is_log(rt: &HostRuntime, path: &str) -> bool {
    if !is_file(rt, path) {
        return false;
    }
    match File::open(rt, path) {
        Ok(mut file) => begins_as_log(&mut file).unwrap_or(false),
        Err(_) => false,
    }
}

/// Whether the next bytes are those that a log of SQLite begins with. Fails if there are too few, or a read fails.
fn begins_as_log<R: Read>(file: &mut R) -> io::Result<bool> {
    let mut head = [0; 4];
    file.read_exact(&mut head)?;
    // (the last bit is for the order of the bytes in its checksums)
    Ok(head[..3] == [0x37, 0x7f, 0x06] && head[3] & 0xfe == 0x82)
}

/// Has the system write to the disk what it has of the log of the store at `path`. False if the disk failed. Does
/// nothing if the log can't be opened or memory runs out for its name.
pub(crate) fn sync_log(rt: &HostRuntime, path: &str) -> bool {
    let Ok(log) = log_name(rt, path) else {
        return true;
    };
    match File::open(rt, log.as_str()) {
        Ok(file) => file.sync_data().is_ok(),
        Err(_) => true,
    }
}
