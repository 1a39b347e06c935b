//! Why a call that opens a store, or makes one from another, fails.

/// Why a call that opens a store, copies one or a part of it, or migrates one, fails.
#[derive(Clone, Copy, Debug, PartialEq, Eq)]
pub enum StoreRefusal {
    /// A disk failed; the connection is closed, in a transaction or limited in its steps; a table has 2^64 rows, one
    /// for each rowid; or the files cannot be opened: the name is empty, too long, `:memory:`, a URI or a folder's, or
    /// its folder is missing; the system forbids it; another process has the file open; the file has a second hard
    /// link; SQLite left a rollback journal; or the system gives no random numbers.
    Device,
    /// Memory ran out.
    Memory,
    /// The tables are not those of the schema (for a migration, not those of an older schema), or stand for no world.
    BadSchema,
    /// The fresh store has more than `common`: another shelf, a key or an entry.
    NotEmpty,
    /// There is no such team, or none is named. Neither `common` nor a group is a team.
    NoTeam,
}
