//! Copies a store into a fresh one a slice at a time, and has others served between two slices.

ghost use Rattle.std.specs.Prelude.{◌≡◌, ◌≤◌, ⊤, IfOk, IfSome, is_ok, IsErrOf, IsTrue, false, None, Ok};
ghost use Rattle.sqlite.specs.Held.{state};
ghost use Rattle.sqlite.specs.State.{HasCleanDisk};
ghost use Rattle.sqlite_trees.specs.View.{doubt};
ghost use Rattle.setup.specs.Extracted.{HasCauseInEither, IsRead, IsUnfit};
ghost use Rattle.setup.specs.Parts.{FillsAt};
ghost use Rattle.slices.specs.Slices.{HoldsUpTo};
ghost use Rattle.statements.specs.Calls.{ChangesAt, IsOpenIfHonest};
ghost use Rattle.statements.specs.Rows.{GoesOn, Writing};
ghost use Rattle.tables.specs.Means.{StandsFor};
ghost use Rattle.world.specs.World.{only_common};
ghost use Rattle.store.specs.Between.{HoldsIn, is_whole, told};
ghost use Rattle.store.specs.Shown.{shown_of, shown_with};

use crate::extract::refusal_of;
use crate::store::{SqlShelves, fault};
use cache::caches::Caches;
use interleave::between::{Between, CopyProgress, TurnEnd};
use interleave::newcomers::Newcomers;
use setup::copy::copy_registry;
use setup::judge::is_blank;
use slices::cursor::Cursor;
use slices::pace::Pace;
use slices::slice::copy_slice;
use sqlite::{Alter, Connection, Error, ErrorCode, Transaction};
use statements::extract_rows::CopyError;
use statements::transaction::commit_if;
use store_files::refusal::StoreRefusal;

/// Why no copy was made.
#[derive(Clone, Copy, Debug, Drop, PartialEq, Eq)]
pub enum CopyEnd {
    /// The fresh store has more than `common`, a disk failed, or memory ran out.
    Refused(StoreRefusal),
    /// What was served between two slices ended the copy.
    Ended,
}

impl<S: Alter> SqlShelves<S> {
    /// Copies all shelves, keys and entries that the store has now into the fresh store, a slice at a time, and has
    /// `between` take a turn after each slice. What a turn publishes is not copied, and no key or shelf that it adds or
    /// takes away changes the copy. All rows are written in one transaction.
    ///
    /// Fails with `NotEmpty` if the fresh store has another shelf than `common`, a key or an entry; with `Device` if a
    /// disk failed and with `Memory` if memory ran out; and with `Ended` if `between` ended it. Then the fresh store is
    /// as it was. After Ok, a crash leaves only the copy in it, wherever an earlier fault had left that; after
    /// `NotEmpty`, nothing that it did not leave before; after another failure, as `AfterFill` says, it may leave the
    /// copy too.
    pub fn copy_between<F: Alter, P: Pace, B: Between<SqlShelves<S>>>(
        &mut self,
        fresh: &mut SqlShelves<F>,
        pace: &mut P,
        between: &mut B,
    ) -> Result<(), CopyEnd>
        // The store was read and had turns; then a fault was counted, if there was one.
        ensures went { (n : _) × B.went between.old between.new self.old (record self.new { failures = n })
            × HasCauseInEither n self.new.failures fresh.old.failures fresh.new.failures (told result) }
        ensures ended { IsErrOf result CopyEnd.Ended → B.ended between.new }
        ensures honest { HasCleanDisk (state S.Store self.new.conn) → HasCleanDisk (state S.Store self.old.conn) }
        ensures honest_too { HasCleanDisk (state F.Store fresh.new.conn) → HasCleanDisk (state F.Store fresh.old.conn) }
        ensures spares { IsUnfit (told result)
            → IsRead (shown_with (state F.Store fresh.old.conn) fresh.old.kept fresh.old.failures)
            (shown_with (state F.Store fresh.new.conn) fresh.new.kept fresh.new.failures) }
        // The copy is of the world that the store stood for at first.
        ensures copies { HasCleanDisk (state S.Store self.new.conn) → HasCleanDisk (state F.Store fresh.new.conn)
            → (w x : _) → (shown_with (state S.Store self.old.conn) self.old.kept self.old.failures).stands w
            → (shown_with (state F.Store fresh.old.conn) fresh.old.kept fresh.old.failures).stands x
            → FillsAt (shown_with (state F.Store fresh.old.conn) fresh.old.kept fresh.old.failures)
            (shown_with (state F.Store fresh.new.conn) fresh.new.kept fresh.new.failures) ⊤ w x (told result) }
    {
        fresh.kept = Caches::new(fresh.alloc);
        self.copy_tables_between(fresh, pace, between)
    }

    /// Copies the store into the tables of the fresh one, and leaves what that keeps as it is. Fails as `copy_between`
    /// does.
    fn copy_tables_between<F: Alter, P: Pace, B: Between<SqlShelves<S>>>(
        &mut self,
        fresh: &mut SqlShelves<F>,
        pace: &mut P,
        between: &mut B,
    ) -> Result<(), CopyEnd>
        ensures went { (n : _) × B.went between.old between.new self.old (record self.new { failures = n })
            × HasCauseInEither n self.new.failures fresh.old.failures fresh.new.failures (told result) }
        ensures ended { IsErrOf result CopyEnd.Ended → B.ended between.new }
        ensures honest { HasCleanDisk (state S.Store self.new.conn) → HasCleanDisk (state S.Store self.old.conn) }
        ensures honest_too { HasCleanDisk (state F.Store fresh.new.conn) → HasCleanDisk (state F.Store fresh.old.conn) }
        ensures same { fresh.new.kept ≡ fresh.old.kept }
        ensures spares { IsUnfit (told result)
            → IsRead (shown_of (state F.Store fresh.old.conn)) (shown_of (state F.Store fresh.new.conn)) }
        ensures copies { HasCleanDisk (state S.Store self.new.conn) → HasCleanDisk (state F.Store fresh.new.conn)
            → (w x : _) → (shown_with (state S.Store self.old.conn) self.old.kept self.old.failures).stands w
            → StandsFor (state F.Store fresh.old.conn) x
            → FillsAt (shown_of (state F.Store fresh.old.conn)) (shown_of (state F.Store fresh.new.conn)) ⊤ w x
            (told result) }
    {
        match is_blank(&mut fresh.conn) {
            Ok(true) => {}
            Ok(false) => return Err(CopyEnd::Refused(StoreRefusal::NotEmpty)),
            Err(error) => return Err(CopyEnd::Refused(refusal_of(fault(
                &mut fresh.failures,
                error,
            )))),
        }
        match self.write_between(&mut fresh.conn, pace, between) {
            Ok(true) => Ok(()),
            Ok(false) => Err(CopyEnd::Ended),
            Err(CopyError::Source(error)) => Err(CopyEnd::Refused(refusal_of(fault(
                &mut self.failures,
                error,
            )))),
            Err(CopyError::Fresh(error)) => Err(CopyEnd::Refused(refusal_of(fault(
                &mut fresh.failures,
                error,
            )))),
        }
    }

    /// Copies the store into one that has only `common`, all or nothing, and returns whether it did: `between` may have
    /// ended the copy. Fails with `Source` or `Fresh`, by the store that failed, and counts no fault.
    fn write_between<F: Alter, P: Pace, B: Between<SqlShelves<S>>>(
        &mut self,
        fresh: &mut Connection<F>,
        pace: &mut P,
        between: &mut B,
    ) -> Result<bool, CopyError>
        ensures went { B.went between.old between.new self.old self.new }
        ensures ended { result ≡ Ok false → B.ended between.new }
        ensures honest { HasCleanDisk (state S.Store self.new.conn) → HasCleanDisk (state S.Store self.old.conn) }
        ensures clean { doubt (state F.Store fresh.old).is_clean ≤ doubt (state F.Store fresh.new).is_clean }
        ensures changes { HasCleanDisk (state S.Store self.new.conn) → IsOpenIfHonest (state F.Store fresh.old)
            → (w : _) → (shown_with (state S.Store self.old.conn) self.old.kept self.old.failures).stands w
            → ChangesAt (state F.Store fresh.old) (state F.Store fresh.new) (is_whole result) only_common w }
    {
        if !fresh.is_autocommit() {
            return Err(CopyError::Fresh(Error::SqliteFailure(ErrorCode::TransactionState)));
        }
        let mut tx = fresh.transaction();
        let written = self.fill_between(&mut tx, pace, between);
        match commit_if(tx, is_all(&written)) {
            Ok(()) => written,
            Err(error) => Err(CopyError::Fresh(error)),
        }
    }

    /// Copies the store into one that has only `common`, inside a transaction, and returns whether all of it was.
    fn fill_between<F: Alter, P: Pace, B: Between<SqlShelves<S>>>(
        &mut self,
        tx: &mut Transaction<'_, F>,
        pace: &mut P,
        between: &mut B,
    ) -> Result<bool, CopyError>
        ensures went { B.went between.old between.new self.old self.new }
        ensures ended { result ≡ Ok false → B.ended between.new }
        ensures honest { HasCleanDisk (state S.Store self.new.conn) → HasCleanDisk (state S.Store self.old.conn) }
        ensures same_reference { tx.new.conn.ghost_name ≡ tx.old.conn.ghost_name }
        ensures goes_on { GoesOn (state F.Store tx.old.conn.now) (state F.Store tx.new.conn.now) (is_ok result) }
        ensures copies { HasCleanDisk (state S.Store self.new.conn) → HasCleanDisk (state F.Store tx.new.conn.now)
            → (w : _) → (shown_with (state S.Store self.old.conn) self.old.kept self.old.failures).stands w
            → Writing (state F.Store tx.old.conn.now) only_common
            → IsTrue (is_whole result) → Writing (state F.Store tx.new.conn.now) w }
    {
        copy_registry(self.alloc, &mut self.conn, tx)?;
        let entries = self.entries_kept()?;
        self.copy_entries(tx, Cursor::new(entries), entries, pace, between)
    }

    /// Copies the entries that are left of `all` from the cursor on, inside a transaction, a slice at a time, and has
    /// `between` take a turn after each slice. Returns whether it copied all of them.
    fn copy_entries<F: Alter, P: Pace, B: Between<SqlShelves<S>>>(
        &mut self,
        tx: &mut Transaction<'_, F>,
        at: Cursor,
        all: u64,
        pace: &mut P,
        between: &mut B,
    ) -> Result<bool, CopyError>
        ensures went { B.went between.old between.new self.old self.new }
        ensures ended { result ≡ Ok false → B.ended between.new }
        ensures honest { HasCleanDisk (state S.Store self.new.conn) → HasCleanDisk (state S.Store self.old.conn) }
        ensures same_reference { tx.new.conn.ghost_name ≡ tx.old.conn.ghost_name }
        ensures goes_on { GoesOn (state F.Store tx.old.conn.now) (state F.Store tx.new.conn.now) (is_ok result) }
        ensures copies { HasCleanDisk (state S.Store self.new.conn) → HasCleanDisk (state F.Store tx.new.conn.now)
            → (w : _) → (shown_with (state S.Store self.old.conn) self.old.kept self.old.failures).stands w
            → HoldsUpTo w at (state F.Store tx.old.conn.now)
            → IsTrue (is_whole result) → Writing (state F.Store tx.new.conn.now) w }
    {
        let mut news = Newcomers::new(self.alloc);
        let mut at = at;
        for _ in 0..u64::MAX {
            if at.is_done() {
                return Ok(true);
            }
            match self.copy_on(tx, &mut news, at, all, pace, between)? {
                Some(next) => at = next,
                None => return Ok(false),
            }
        }
        Err(CopyError::Source(Error::SqliteFailure(ErrorCode::TooBig)))
    }

    /// Copies a slice, tells `between` how many of `all` entries are copied, and has it take a turn. Returns where the
    /// walk goes on, or None if `between` ended the copy.
    fn copy_on<F: Alter, P: Pace, B: Between<SqlShelves<S>>>(
        &mut self,
        tx: &mut Transaction<'_, F>,
        news: &mut Newcomers,
        at: Cursor,
        all: u64,
        pace: &mut P,
        between: &mut B,
    ) -> Result<Option<Cursor>, CopyError>
        ensures went { B.went between.old between.new self.old self.new }
        ensures ended { result ≡ Ok None → B.ended between.new }
        ensures honest { HasCleanDisk (state S.Store self.new.conn) → HasCleanDisk (state S.Store self.old.conn) }
        ensures same_reference { tx.new.conn.ghost_name ≡ tx.old.conn.ghost_name }
        ensures goes_on { GoesOn (state F.Store tx.old.conn.now) (state F.Store tx.new.conn.now) (is_ok result) }
        ensures copies { HasCleanDisk (state S.Store self.new.conn) → HasCleanDisk (state F.Store tx.new.conn.now)
            → (w : _) → HoldsIn (shown_with (state S.Store self.old.conn) self.old.kept self.old.failures) w news.old at
            (state F.Store tx.old.conn.now)
            → IfOk result (λ next. IfSome next (λ there.
            HoldsIn (shown_with (state S.Store self.new.conn) self.new.kept self.new.failures) w news.new there
            (state F.Store tx.new.conn.now))) }
    {
        let next = copy_slice(&mut self.conn, tx, news, at, pace)?;
        let done = all.saturating_sub(next.left);
        between.note_how_far(CopyProgress { done, all });
        match between.turn(self, news) {
            Ok(()) => Ok(Some(next)),
            Err(TurnEnd::Ended) => Ok(None),
            Err(TurnEnd::Memory) => Err(CopyError::Source(Error::SqliteFailure(
                ErrorCode::OutOfMemory,
            ))),
        }
    }
}

/// Whether all was written.
fn is_all(written: &Result<bool, CopyError>) -> bool
    ensures { result ≡ is_whole written.now }
{
    matches!(written, Ok(true))
}
