//! Connections that no store adopts, since a statement fails.
use sqlite::{Alter, Connection, Error};
use std::alloc::Global;
use std::test::Fail;
use store::store::SqlShelves;

/// The tables of the schema; and rows of a team with a key, a group with a team, and a version on `common`.
pub const TABLES: &str = "\
CREATE TABLE meta (name TEXT PRIMARY KEY, value INTEGER NOT NULL) STRICT;
CREATE TABLE shelf (name TEXT PRIMARY KEY, parent TEXT REFERENCES shelf (name)) STRICT;
CREATE TABLE access (token TEXT PRIMARY KEY, shelf TEXT NOT NULL REFERENCES shelf (name), \
    publish INTEGER NOT NULL CHECK (publish IN (0, 1))) STRICT;
CREATE TABLE version (id INTEGER PRIMARY KEY, shelf TEXT NOT NULL REFERENCES shelf (name), path TEXT NOT NULL, \
    version TEXT NOT NULL, time TEXT, mod BLOB NOT NULL, order_key BLOB NOT NULL, rank_key BLOB NOT NULL, \
    UNIQUE (shelf, path, version)) STRICT;
CREATE TABLE piece (version INTEGER NOT NULL REFERENCES version (id), number INTEGER NOT NULL CHECK (number >= 0), \
    bytes BLOB NOT NULL, PRIMARY KEY (version, number)) STRICT;
INSERT INTO meta VALUES ('schema', 3);
INSERT INTO shelf VALUES ('common', NULL), ('alpha', 'common'), ('platform', NULL), ('gamma', 'platform');
INSERT INTO access VALUES ('alphakey00000001', 'alpha', 1);
INSERT INTO version VALUES (7, 'common', 'example.com/lib', 'v1.0.0', NULL, \
    X'6d6f64756c65206578616d706c652e636f6d2f6c69620a', X'00000000000000010000000000000000000000000000000003', \
    X'0300000000000000010000000000000000000000000000000003');
INSERT INTO piece VALUES (7, 0, X'5A');
";

fn versions_in<S: Alter>(conn: &mut Connection<S>) -> Result<i64, Error> {
    conn.query_row("SELECT count(*) FROM version", &[])?.get(0)
}

/// Adopts a connection, and returns `adopted`; or why it is refused, and how many versions it has after that, if it
/// says so.
fn adopted<S: Alter + Drop>(alloc: Global, conn: Connection<S>) -> Result<String, Fail> {
    match SqlShelves::adopt(alloc, conn) {
        Ok(shelves) => {
            shelves.close();
            Ok(String::from_str(alloc, "adopted")?)
        }
        Err((refusal, mut conn)) => {
            let left = versions_in(&mut conn).ok();
            Ok(format!(in alloc; "{refusal:?} {left:?}")?)
        }
    }
}

/// Runs statements, and returns the outcome of adopting their connection, in which each statement takes at most this
/// many steps.
pub fn outcome(alloc: Global, statements: &str, steps: Option<u64>) -> Result<String, Fail> {
    let mut conn = Connection::open_in_memory(alloc)?;
    let is_made = conn.execute_batch(statements).is_ok();
    conn.set_step_limit(steps);
    let outcome = adopted(alloc, conn)?;
    if !is_made {
        return Err(Fail::new("the tables are not made"));
    }
    Ok(outcome)
}
