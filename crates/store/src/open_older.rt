//! Opens the files of a store of an older schema.

ghost use Rattle.std.specs.Prelude.{IfOk, IfErr, IfSome};
ghost use Rattle.sqlite.specs.Files.{file_state, IsCleanLeft, AreFoundIn};
ghost use Rattle.sqlite.specs.State.{HasCleanDisk};
ghost use Rattle.sqlite_wal.specs.Files.{image_at};
ghost use Rattle.statements.specs.Calls.{IsOpenIfHonest};
ghost use Rattle.store.specs.Older.{FindsOlder};
ghost use Rattle.store.specs.Restart.{Keeps};
ghost use Rattle.store_files.specs.Refusal.{IsOfOpening};

use crate::files::{PageRoom, connect_files, open_pair};
use sqlite::{Connection, FileFrom, FileStore, Leftover, Start};
use std::rt::HostRuntime;
use store_files::refusal::StoreRefusal;

/// Opens a connection to the files of an older store, where `T` says what they hold. It does not test the tables: they
/// are those that the files hold, or none if the files hold no database yet.
///
/// Fails with `BadSchema` if the files hold no database, with `Memory` if memory ran out, and with `Device` if the disk
/// failed, the files cannot be opened (see [`StoreRefusal::Device`]), or a log stands where its database file is
/// missing or empty. The files then come back, if they were opened, and hold what they held.
pub fn open_older<T: Start>(
    rt: &HostRuntime,
    path: &str,
    start: T,
) -> Result<Connection<FileStore<FileFrom<T>>>, (StoreRefusal, Option<Leftover<FileFrom<T>>>)>
    ensures open { IfOk result (λ c. IsOpenIfHonest (file_state c)) }
    ensures found { IfOk result (λ c. FindsOlder (image_at T.Start) (file_state c)) }
    ensures shows { IfOk result (λ c. HasCleanDisk (file_state c)
        → AreFoundIn (image_at T.Start) (file_state c).now.trees) }
    ensures refused { IfErr result (λ e. IsOfOpening e.0) }
    ensures keeps { IfErr result (λ e. IfSome e.1 (λ left. IsCleanLeft left → Keeps (image_at T.Start) left)) }
{
    let (files, seed) = match open_pair(rt, path, start) {
        Ok(opened) => opened,
        Err(refusal) => return Err((refusal, None)),
    };
    match connect_files(rt.alloc(), files, seed, PageRoom::Zip) {
        Ok(conn) => Ok(conn),
        Err((refusal, left)) => Err((refusal, Some(left))),
    }
}
