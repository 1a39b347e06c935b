//! Finds the tables of a connection, or makes them.

ghost use Rattle.std.specs.Prelude.{◌≡◌, ◌≤◌, ◌≢◌, ◌⊎◌, false, IfErr, OnErr, OnOk, IsTrue};
ghost use Rattle.sqlite.specs.Held.{state};
ghost use Rattle.sqlite_trees.specs.View.{doubt};
ghost use Rattle.tables.specs.Schema.{no_schema};
ghost use Rattle.tables.specs.Means.{IsSettled};
ghost use Rattle.tables.specs.Causes.{IsHindered, IsVast};
ghost use Rattle.tables.specs.Calls.{Honestly};
ghost use Rattle.setup.specs.Opened.{Opens, IsBad, LeavesFirst};
ghost use Rattle.store_files.specs.Refusal.{IsOfOpening};

use crate::refusal::open_refusal;
use sqlite::{Alter, Connection};
use std::alloc::Global;
use store_files::refusal::StoreRefusal;
use tables::create::create;
use tables::fit::stand_for_world;
use tables::schema::is_no_schema;

/// Tests the tables of a connection. Fails with `BadSchema` if they are not those of the schema or stand for no world,
/// with `Memory` if memory ran out, and with `Device` otherwise.
fn find_tables<S: Alter>(alloc: Global, conn: &mut Connection<S>) -> Result<(), StoreRefusal>
    ensures clean { doubt (state S.Store conn.old).is_clean ≤ doubt (state S.Store conn.new).is_clean }
    ensures refused { IfErr result IsOfOpening }
    ensures opens { Honestly (state S.Store conn.old) (state S.Store conn.new) (λ old new.
        IsSettled old → OnOk result (Opens old new)) }
    ensures same { Honestly (state S.Store conn.old) (state S.Store conn.new) (λ old new.
        IsSettled old → IsTrue new.is_open → OnErr result (new.now ≡ old.now)) }
    ensures left { Honestly (state S.Store conn.old) (state S.Store conn.new) (λ old new.
        (db : _) → new.may_leave db → OnErr result (old.may_leave db)) }
    ensures bad { Honestly (state S.Store conn.old) (state S.Store conn.new) (λ old _.
        old.now.schema ≢ no_schema → IfErr result (λ e. e ≡ StoreRefusal.BadSchema → IsBad old.now)) }
    ensures device { Honestly (state S.Store conn.old) (state S.Store conn.new) (λ old new.
        IfErr result (λ e. e ≡ StoreRefusal.Device → IsHindered old new ⊎ IsVast old.now)) }
    ensures mode { Honestly (state S.Store conn.old) (state S.Store conn.new) (λ old new.
        old.in_transaction ≡ false → new.in_transaction ≡ false) }
    ensures limit { Honestly (state S.Store conn.old) (state S.Store conn.new) (λ old new.
        new.step_limit ≡ old.step_limit) }
{
    match stand_for_world(alloc, conn) {
        Ok(true) => Ok(()),
        Ok(false) => Err(StoreRefusal::BadSchema),
        Err(error) => Err(open_refusal(error)),
    }
}

/// Makes the tables of a connection that has none. Fails with `Memory` if memory ran out, and with `Device` otherwise.
fn make_tables<S: Alter>(conn: &mut Connection<S>) -> Result<(), StoreRefusal>
    requires empty { (state S.Store conn.old).now.schema ≡ no_schema }
    ensures clean { doubt (state S.Store conn.old).is_clean ≤ doubt (state S.Store conn.new).is_clean }
    ensures refused { IfErr result IsOfOpening }
    ensures opens { Honestly (state S.Store conn.old) (state S.Store conn.new)
        (λ old new. OnOk result (Opens old new)) }
    ensures same { Honestly (state S.Store conn.old) (state S.Store conn.new) (λ old new.
        IsTrue new.is_open → OnErr result (new.now ≡ old.now)) }
    ensures left { Honestly (state S.Store conn.old) (state S.Store conn.new) LeavesFirst }
    ensures failed { IfErr result (λ e. e ≢ StoreRefusal.BadSchema) }
    ensures device { Honestly (state S.Store conn.old) (state S.Store conn.new) (λ old new.
        old.in_transaction ≡ false → IfErr result (λ e. e ≡ StoreRefusal.Device → IsHindered old new)) }
    ensures mode { (state S.Store conn.new).in_transaction ≡ (state S.Store conn.old).in_transaction }
    ensures limit { (state S.Store conn.new).step_limit ≡ (state S.Store conn.old).step_limit }
{
    match create(conn) {
        Ok(()) => Ok(()),
        Err(error) => Err(open_refusal(error)),
    }
}

/// Finds the tables of a connection, or makes them if it has none. Fails with `BadSchema` if the tables are not those
/// of the schema or stand for no world, with `Memory` if memory ran out, and with `Device` otherwise. A connection in a
/// transaction is refused with `Device`.
pub fn open_tables<S: Alter>(alloc: Global, conn: &mut Connection<S>) -> Result<(), StoreRefusal>
    ensures clean { doubt (state S.Store conn.old).is_clean ≤ doubt (state S.Store conn.new).is_clean }
    ensures refused { IfErr result IsOfOpening }
    ensures opens { Honestly (state S.Store conn.old) (state S.Store conn.new) (λ old new.
        OnOk result (Opens old new)) }
    ensures same { Honestly (state S.Store conn.old) (state S.Store conn.new) (λ old new.
        IsTrue new.is_open → OnErr result (new.now ≡ old.now)) }
    ensures left { Honestly (state S.Store conn.old) (state S.Store conn.new) (λ old new.
        OnErr result (LeavesFirst old new)) }
    ensures bad { Honestly (state S.Store conn.old) (state S.Store conn.new) (λ old _.
        IfErr result (λ e. e ≡ StoreRefusal.BadSchema → IsBad old.now)) }
    ensures device { Honestly (state S.Store conn.old) (state S.Store conn.new) (λ old new.
        IfErr result (λ e. e ≡ StoreRefusal.Device
        → IsTrue old.in_transaction ⊎ (IsHindered old new ⊎ IsVast old.now))) }
    ensures mode { Honestly (state S.Store conn.old) (state S.Store conn.new) (λ old new.
        new.in_transaction ≡ old.in_transaction) }
    ensures limit { Honestly (state S.Store conn.old) (state S.Store conn.new) (λ old new.
        new.step_limit ≡ old.step_limit) }
{
    if !conn.is_autocommit() {
        return Err(StoreRefusal::Device);
    }
    if is_no_schema(conn.schema()) {
        make_tables(conn)
    } else {
        find_tables(alloc, conn)
    }
}
