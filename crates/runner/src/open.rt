//! Opens the store of the file that a command names.

ghost use Rattle.std.specs.Prelude.{IfErr, IfOk};
ghost use Rattle.sqlite_wal.specs.Files.{image_at};
ghost use Rattle.runner.specs.Opened.{HasBegun};
ghost use Rattle.store_files.specs.Refusal.{IsOfOpening};

use crate::old_file::is_missing;
use crate::temporary_files::TemporaryFiles;
use sqlite::Start;
use std::io::{self, ErrorKind};
use std::rt::HostRuntime;
use store::file_name::log_name;
use store::files::{PageRoom, names_no_file};
use store::open::FileShelves;
use store_files::files::Use;
use store_files::refusal::StoreRefusal;
use world::shelves::Shelves;

/// Opens the store of a file. Fails as `FileShelves::open_from` does.
///
/// If there is neither the file nor its log, and the store is only read, it opens a new store in files that have no
/// name, so that a mistyped name leaves none behind. What is read there is the same: a new store has no key, so each
/// publish gets a 404.
pub(crate) fn open_for<T: Start>(
    rt: &HostRuntime,
    path: &str,
    start: T,
    purpose: Use,
    room: PageRoom,
) -> Result<FileShelves<T>, StoreRefusal>
    ensures begun { IfOk result (HasBegun ⟦<FileShelves<T> as Shelves>⟧.shown (image_at T.Start)) }
    ensures opening { IfErr result IsOfOpening }
{
    if matches!(purpose, Use::Reading) && !names_no_file(path) && is_missing_store(rt, path) {
        open_temporary(rt, path, start, room)
    } else {
        open_named(rt, path, start, room)
    }
}

/// Whether there is neither a file of this name nor a log beside it, which may be all that is left of a store. False if
/// memory runs out.
fn is_missing_store(rt: &HostRuntime, path: &str) -> bool {
    match log_name(rt, path) {
        Ok(log) => is_missing(rt, path) && is_missing(rt, log.as_str()),
        Err(_) => false,
    }
}

/// Opens a new store in files that lose their names, in the folder of a file. Fails as `FileShelves::open_from` does.
fn open_temporary<T: Start>(
    rt: &HostRuntime,
    path: &str,
    start: T,
    room: PageRoom,
) -> Result<FileShelves<T>, StoreRefusal>
    ensures begun { IfOk result (HasBegun ⟦<FileShelves<T> as Shelves>⟧.shown (image_at T.Start)) }
    ensures opening { IfErr result IsOfOpening }
{
    let files = match TemporaryFiles::beside(rt, path) {
        Ok(files) => files,
        Err(error) => return Err(temporary_refusal(error)),
    };
    let opened = open_named(rt, files.path.as_str(), start, room);
    files.unlink(rt);
    opened
}

/// Returns why there are no such files: `Memory` if memory ran out, and otherwise `Device`.
fn temporary_refusal(error: io::Error) -> StoreRefusal
    ensures { IsOfOpening result }
{
    match error.kind() {
        ErrorKind::OutOfMemory => StoreRefusal::Memory,
        _ => StoreRefusal::Device,
    }
}

/// Opens the store of a file. Fails as `FileShelves::open_from` does.
fn open_named<T: Start>(
    rt: &HostRuntime,
    path: &str,
    start: T,
    room: PageRoom,
) -> Result<FileShelves<T>, StoreRefusal>
    ensures begun { IfOk result (HasBegun ⟦<FileShelves<T> as Shelves>⟧.shown (image_at T.Start)) }
    ensures opening { IfErr result IsOfOpening }
{
    match FileShelves::open_from(rt, path, start, room) {
        Ok(shelves) => Ok(shelves),
        Err((refusal, _)) => Err(refusal),
    }
}
