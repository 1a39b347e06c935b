//! How many versions a store keeps.

ghost use Rattle.std.specs.Prelude.{◌≡◌, ◌<◌, Some, IfOk};
ghost use Rattle.std.specs.FinMap as map;
ghost use Rattle.sqlite.specs.Held.{state};
ghost use Rattle.sqlite.specs.State.{HasCleanDisk};
ghost use Rattle.statements.specs.Calls.{Spares};
ghost use Rattle.statements.specs.Counted.{most_counted, versions_in};
ghost use Rattle.world.specs.Store.{Reads};
ghost use Rattle.store.specs.Shown.{shown_with};

use crate::store::{SqlShelves, counted};
use sqlite::{Alter, Error, ErrorCode};
use statements::entries::count_versions;
use world::registry::StoreFault;

/// The most that a query counts.
const MOST_COUNTED: u64 = 9_223_372_036_854_775_807;

impl<S: Alter> SqlShelves<S> {
    /// Returns how many versions all shelves have, or 2^63 - 1 if there are more. Returns the kept number if there is
    /// one, and otherwise reads each row of `version`, without its zip. Fails with `Memory` if memory ran out, and
    /// otherwise with `Device`.
    pub fn versions_kept(&mut self) -> Result<u64, StoreFault>
        ensures reads { Reads (shown_with (state S.Store self.old.conn) self.old.kept self.old.failures)
            (shown_with (state S.Store self.new.conn) self.new.kept self.new.failures) result versions_in }
    {
        if let Some(total) = self.kept.total {
            return Ok(total.min(MOST_COUNTED));
        }
        let count = counted(&mut self.failures, count_versions(&mut self.conn))?;
        self.kept.total = exact(count);
        Ok(count)
    }

    /// Returns how many versions all shelves have. Fails with `TooBig` if a query cannot count them, and counts no
    /// failure.
    pub(crate) fn entries_kept(&mut self) -> Result<u64, Error>
        ensures spares { Spares (state S.Store self.old.conn) (state S.Store self.new.conn) }
        ensures same { (self.new.kept ≡ self.old.kept) × (self.new.failures ≡ self.old.failures) }
        ensures answer { HasCleanDisk (state S.Store self.new.conn) → (w : _)
            → (shown_with (state S.Store self.old.conn) self.old.kept self.old.failures).stands w
            → IfOk result (λ n. n ≡ map.len w.entries) }
    {
        if let Some(total) = self.kept.total {
            return Ok(total);
        }
        match exact(count_versions(&mut self.conn)?) {
            Some(count) => Ok(count),
            None => Err(Error::SqliteFailure(ErrorCode::TooBig)),
        }
    }
}

/// Returns the number that a query counted if there can't be more.
fn exact(count: u64) -> Option<u64>
    ensures { (n : _) → result ≡ Some n → (n ≡ count) × (n < most_counted) }
{
    if count < MOST_COUNTED {
        Some(count)
    } else {
        None
    }
}
