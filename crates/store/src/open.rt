//! Opens stores.

ghost use Rattle.std.specs.Prelude.{◌≡◌, IfOk, IfErr, IfSome, IsErrAnd, IsSomeAnd, IsTrue};
ghost use Rattle.sqlite.specs.Files.{file_state, image_of, IsCleanLeft};
ghost use Rattle.sqlite.specs.State.{HasCleanDisk};
ghost use Rattle.sqlite_wal.specs.Files.{image_at, outcomes};
ghost use Rattle.store.specs.Shown.{shown_with, BeginsAt};
ghost use Rattle.store_files.specs.Refusal.{IsOfOpening};
ghost use Rattle.store.specs.Names.{IsNoFileName};
ghost use Rattle.store.specs.Restart.{HoldsStore, HoldsNoStore, IsStray, RecoversStore, Keeps};

use crate::files::{PageRoom, connect_files, open_pair};
use crate::look::look;
use crate::store::SqlShelves;
use sqlite::{Alter, Connection, FileFrom, FileStore, Files, Leftover, Start};
use sqlite_disk::Disk;
use std::alloc::Global;
use std::rt::HostRuntime;
use store_files::refusal::StoreRefusal;

/// A store in a database file and its log, which held what `T` says.
pub type FileShelves<T> = SqlShelves<FileStore<FileFrom<T>>>;

impl<S: Alter> SqlShelves<S> {
    /// Closes a store and returns its connection, on which it makes no call: what was acknowledged is in the files
    /// already. A crate that drops a store has to prove the dropping of all its fields, so callers drop the connection
    /// instead.
    pub fn close(self) -> Connection<S>
        ensures untouched { result ≡ self.conn }
    {
        let SqlShelves {
            conn,
            kept: _,
            failures: _,
            alloc: _,
        } = self;
        conn
    }
}

/// Opens the store in two files, or returns them with the refusal, as `open_from` does. The number salts the log.
///
/// It has no runtime, so it can open no other files, and it cannot return fewer than it was given.
pub(crate) fn open_over<D: Disk + Drop>(
    alloc: Global,
    files: Files<D>,
    seed: u64,
    room: PageRoom,
) -> Result<SqlShelves<FileStore<D>>, (StoreRefusal, Leftover<D>)>
    requires log { IsTrue (D.Disk.is_usable files.log) }
    requires db { IsTrue (D.Disk.is_usable files.db) }
    requires settled { (it : _) → outcomes D.Disk files.log files.db it → it ≡ image_of D.Disk files }
    ensures begins { IfOk result (λ s. HasCleanDisk (file_state s.conn) → (w : _)
        × BeginsAt (shown_with (file_state s.conn) s.kept s.failures) w × RecoversStore (image_of D.Disk files) w) }
    ensures found { IfOk result (λ s. HasCleanDisk (file_state s.conn) → (w : _)
        → HoldsStore (image_of D.Disk files) w → BeginsAt (shown_with (file_state s.conn) s.kept s.failures) w) }
    ensures begun { IfOk result (λ s. HasCleanDisk (file_state s.conn) → ¬ IsStray (image_of D.Disk files)) }
    ensures refused { IfErr result (λ e. IsOfOpening e.0) }
    ensures bad { IfErr result (λ e. e.0 ≡ StoreRefusal.BadSchema
        → IsCleanLeft e.1 → HoldsNoStore (image_of D.Disk files)) }
    ensures keeps { IfErr result (λ e. IsCleanLeft e.1 → Keeps (image_of D.Disk files) e.1) }
    ensures none_failed { IfOk result (λ s. s.failures ≡ 0) }
{
    let connection = connect_files(alloc, files, seed, room)?;
    match SqlShelves::adopt(alloc, connection) {
        Ok(shelves) => Ok(shelves),
        Err((refusal, conn)) => Err((refusal, Leftover::Store(conn.into_store()))),
    }
}

impl<T: Start> SqlShelves<FileStore<FileFrom<T>>> {
    /// Opens the store in the files at a path, where `T` says what they hold: the database file, which is created if it
    /// does not exist, and its log. If the tables are those of the schema, the store begins at the world that they
    /// stand for; if there are no tables, it begins with only the shelf `common`.
    ///
    /// Fails with `BadSchema` if the files hold no database, other tables, or tables that stand for no world; with
    /// `Memory` if memory ran out; and with `Device` if the disk failed, the files cannot be opened (see
    /// [`StoreRefusal::Device`]), or a log stands where its database file is missing or empty. The files then come
    /// back, if they were opened, and hold what they held; only where there were no tables may those of a new store
    /// stand, if the disk failed or memory ran out. A log may be left beside them.
    ///
    /// It assumes that a write that a crash tears leaves each byte old or new. As with SQLite's `synchronous=FULL`,
    /// most commits then sync once.
    ///
    /// No clause of `sqlite` ties a path to the bytes of a file, so no contract says that this path was opened: tests
    /// do.
    pub fn open_from(
        rt: &HostRuntime,
        path: &str,
        start: T,
        room: PageRoom,
    ) -> Result<FileShelves<T>, (StoreRefusal, Option<Leftover<FileFrom<T>>>)>
        ensures no_file { IsNoFileName path.now → IsErrAnd result (λ e. e.0 ≡ StoreRefusal.Device) }
        ensures begins { IfOk result (λ s. HasCleanDisk (file_state s.conn) → (w : _)
            × BeginsAt (shown_with (file_state s.conn) s.kept s.failures) w × RecoversStore (image_at T.Start) w) }
        ensures found { IfOk result (λ s. HasCleanDisk (file_state s.conn) → (w : _)
            → HoldsStore (image_at T.Start) w → BeginsAt (shown_with (file_state s.conn) s.kept s.failures) w) }
        ensures begun { IfOk result (λ s. HasCleanDisk (file_state s.conn) → ¬ IsStray (image_at T.Start)) }
        ensures refused { IfErr result (λ e. IsOfOpening e.0) }
        // `BadSchema` says that the files hold no store, if the disk has returned what was written.
        ensures bad { IfErr result (λ e. e.0 ≡ StoreRefusal.BadSchema
            → IsSomeAnd e.1 (λ left. IsCleanLeft left → HoldsNoStore (image_at T.Start))) }
        ensures keeps { IfErr result (λ e. IfSome e.1 (λ left. IsCleanLeft left → Keeps (image_at T.Start) left)) }
        ensures none_failed { IfOk result (λ s. s.failures ≡ 0) }
    {
        let (files, seed) = match open_pair(rt, path, start) {
            Ok(opened) => opened,
            Err(refusal) => return Err((refusal, None)),
        };
        let files = match look::<FileFrom<T>, T>(rt.alloc(), files, seed) {
            Ok(files) => files,
            Err(refused) => return Err(refused),
        };
        match open_over(rt.alloc(), files, seed, room) {
            Ok(shelves) => Ok(shelves),
            Err((refusal, left)) => Err((refusal, Some(left))),
        }
    }
}
