//! Making the tables in an empty connection.

ghost use Rattle.std.specs.Prelude.{◌≡◌, ◌≤◌, true, false, ◌⊎◌, OnOk, OnErr, IfErr, IsTrue};
ghost use Rattle.sqlite.specs.Held.{state};
ghost use Rattle.sqlite.specs.State.{KeepsCommit, Survives};
ghost use Rattle.sqlite_trees.specs.View.{doubt};
ghost use Rattle.tables.specs.Means.{Holds, StandFor};
ghost use Rattle.tables.specs.Made.{IsMade};
ghost use Rattle.tables.specs.Schema.{no_schema};
ghost use Rattle.tables.specs.Calls.{Honestly};
ghost use Rattle.tables.specs.Causes.{IsExcused};
ghost use Rattle.world.specs.World.{only_common};

use sqlite::{Alter, Connection, Error, ErrorCode, Transaction};

/// Makes the tables, with the shelf `common`, within a transaction. In a transaction on an empty connection it fails
/// only if memory runs out, the connection is closed or limited in its steps, or the disk fails.
fn create_tables<S: Alter>(tx: &mut Transaction<'_, S>) -> Result<(), Error>
    ensures same_reference { tx.new.conn.ghost_name ≡ tx.old.conn.ghost_name }
    ensures survives { Survives (state S.Store tx.old.conn.now) (state S.Store tx.new.conn.now) (λ _. ⊥) }
    ensures commit { Honestly (state S.Store tx.old.conn.now) (state S.Store tx.new.conn.now) KeepsCommit }
    ensures inside { Honestly (state S.Store tx.old.conn.now) (state S.Store tx.new.conn.now) (λ old new.
        OnOk result (new.in_transaction ≡ old.in_transaction)) }
    ensures made { Honestly (state S.Store tx.old.conn.now) (state S.Store tx.new.conn.now) (λ old new.
        IsTrue old.in_transaction → old.now.schema ≡ no_schema → OnOk result (IsMade old new)) }
    ensures cause { Honestly (state S.Store tx.old.conn.now) (state S.Store tx.new.conn.now) (λ old new.
        IsTrue old.in_transaction → old.now.schema ≡ no_schema → IfErr result (IsExcused old new)) }
{
    tx.execute_batch(
        "CREATE TABLE meta (name TEXT PRIMARY KEY, value INTEGER NOT NULL) STRICT;\
         CREATE TABLE shelf (name TEXT PRIMARY KEY, parent TEXT REFERENCES shelf (name)) STRICT;\
         CREATE TABLE access (token TEXT PRIMARY KEY, shelf TEXT NOT NULL REFERENCES shelf (name), \
             publish INTEGER NOT NULL CHECK (publish IN (0, 1))) STRICT;\
         CREATE TABLE version (id INTEGER PRIMARY KEY, shelf TEXT NOT NULL REFERENCES shelf (name), \
             path TEXT NOT NULL, version TEXT NOT NULL, time TEXT, mod BLOB NOT NULL, order_key BLOB NOT NULL, \
             rank_key BLOB NOT NULL, UNIQUE (shelf, path, version)) STRICT;\
         CREATE TABLE piece (version INTEGER NOT NULL REFERENCES version (id), \
             number INTEGER NOT NULL CHECK (number >= 0), bytes BLOB NOT NULL, \
             PRIMARY KEY (version, number)) STRICT;\
         INSERT INTO meta (name, value) VALUES ('schema', 3);\
         INSERT INTO shelf (name) VALUES ('common')",
    )
}

/// Makes the tables, with the shelf `common` and nothing else, in one transaction, on a connection that has no table.
/// Refuses a connection that is in a transaction.
///
/// If it fails, the connection, while it is open, shows what it showed before. Outside a transaction it fails only if
/// memory runs out, the connection is closed or limited in its steps, or the disk fails.
pub fn create<S: Alter>(conn: &mut Connection<S>) -> Result<(), Error>
    requires empty { (state S.Store conn.old).now.schema ≡ no_schema }
    ensures clean { doubt (state S.Store conn.old).is_clean ≤ doubt (state S.Store conn.new).is_clean }
    ensures made { Honestly (state S.Store conn.old) (state S.Store conn.new) (λ _ new.
        OnOk result (IsTrue new.is_open × Holds new only_common)) }
    ensures unmade { Honestly (state S.Store conn.old) (state S.Store conn.new) (λ old new.
        IsTrue new.is_open → OnErr result (new.now ≡ old.now)) }
    ensures left { Honestly (state S.Store conn.old) (state S.Store conn.new) (λ old new.
        (db : _) → new.may_leave db → old.may_leave db ⊎ StandFor db only_common) }
    ensures cause { Honestly (state S.Store conn.old) (state S.Store conn.new) (λ old new.
        old.in_transaction ≡ false → IfErr result (IsExcused old new)) }
    // It leaves the connection in a transaction exactly if it was in one, and leaves its step limit as it was.
    ensures mode { (state S.Store conn.new).in_transaction ≡ (state S.Store conn.old).in_transaction }
    ensures limit { (state S.Store conn.new).step_limit ≡ (state S.Store conn.old).step_limit }
{
    if !conn.is_autocommit() {
        return Err(Error::SqliteFailure(ErrorCode::TransactionState));
    }
    let mut tx = conn.transaction();
    create_tables(&mut tx)?;
    tx.commit()?;
    Ok(())
}
