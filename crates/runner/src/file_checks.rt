//! What a command asks of files that it opens as stores, or has open, and where it shows how far it is.
ghost use Rattle.std.specs.Prelude.{◌≡◌, false, IfErr, OnOk};
ghost use Rattle.runner.specs.Opened.{IsOfName, IsTargetRefusal, TellsLoneLog};

use commands::progress::StderrLine;
use store_files::refusal::StoreRefusal;

/// What is asked of files beside their stores. No call changes what a file holds, so no history has it.
pub trait FileChecks {
    ghost use Rattle.std.specs.Prelude.{ℕ, List, Bool};

    /// No file of the store at the first name, or of another store, has the second name.
    ghost free: { Self → List ℕ → List ℕ → Type 0 };

    /// The names lead to two files.
    ghost apart: { Self → List ℕ → List ℕ → Type 0 };

    /// What is said of a name: true if a log stands alone there.
    ghost lone_log: { Self → List ℕ → Bool → Type 0 };

    /// What a sync of the log of the store at a path said: false if the disk failed.
    ghost synced: { Self → List ℕ → Bool → Type 0 };

    /// Whether there is a file with this name that has no bytes. Folders and devices do not count.
    fn is_empty(&self, name: &str) -> bool;

    /// Whether there is no such file, or it has no bytes. False for a folder or a device.
    fn is_missing_or_empty(&self, name: &str) -> bool;

    /// Whether both names lead to one file. False if one of them leads to none.
    fn is_same(&self, name: &str, other: &str) -> bool
        ensures apart { result ≡ false → apart self.now name.now other.now };

    /// Tests the name of a new store. Fails with `Device` if SQLite has a use for that file, by its name or by a link:
    /// for the database at `db`, or for another that stands there. Fails with `Memory` if memory runs out.
    fn check_name(&self, db: &str, to: &str) -> Result<(), StoreRefusal>
        ensures free { OnOk result (free self.now db.now to.now) }
        ensures refused { IfErr result IsOfName };

    /// Whether there is no such file, or it has no bytes, and beside it stands a log that may be what is left of a
    /// store.
    fn has_lone_log(&self, name: &str) -> bool
        ensures { lone_log self.now name.now result };

    /// Has the system write to the disk what it has of the log of the store at `path`, which stays as it is. False if
    /// the disk failed: the system may report that once, so the commit may not hear of it. If the log can't be opened,
    /// or memory runs out for its name, nothing is written, and the commit writes all.
    fn sync_log(&self, path: &str) -> bool
        ensures { synced self.now path.now result };

    /// Returns a line on a terminal for a command that begins now, or None if there is no terminal.
    fn line(&self, _verb: &'static str) -> Option<StderrLine<'_>> {
        None
    }
}

/// Returns why no new store was opened in a file: `NotEmpty` in place of `Device` if a log of another store stands
/// there alone.
pub(crate) fn target_refusal<L: FileChecks>(
    checks: &L,
    to: &str,
    refusal: StoreRefusal,
) -> StoreRefusal
    ensures refusal { IsTargetRefusal result refusal }
    // Which of the two it is, is what is said of the log.
    ensures lone { refusal ≡ StoreRefusal.Device
        → TellsLoneLog (L.lone_log checks.now to.now) StoreRefusal.NotEmpty StoreRefusal.Device result }
{
    if refusal == StoreRefusal::Device && checks.has_lone_log(to) {
        StoreRefusal::NotEmpty
    } else {
        refusal
    }
}
