//! One slice of a copy.
ghost use Rattle.std.specs.Prelude.{◌≡◌, OnOk, IsTrue, is_ok, Some};
ghost use Rattle.std.specs.FinSet as set;
ghost use Rattle.sqlite.specs.Held.{state};
ghost use Rattle.statements.specs.Calls.{InEachWorld, Spares};
ghost use Rattle.statements.specs.Rows.{GoesOn};
ghost use Rattle.slices.specs.Slices.{CopiesOn, CopiesFrom, CopiesRest, CopiesWhole};

use crate::cursor::{Cursor, Part};
use crate::pace::Pace;
use crate::pieces::copy_pieces;
use crate::versions::{Version, find_version, put_version};
use interleave::newcomers::Newcomers;
use sqlite::{Alter, Connection, Error, ErrorCode, Transaction};
use statements::extract_rows::CopyError;
use statements::meter::len_at;

/// Returns the error of a source whose rows are not those that the walk counted on.
fn astray() -> CopyError {
    CopyError::Source(Error::SqliteFailure(ErrorCode::DatabaseCorrupt))
}

/// Copies the pieces of a version that are left, up to where the pace says, and returns where the walk goes on.
fn copy_rest<S: Alter, F: Alter, P: Pace>(
    source: &mut Connection<S>,
    version: Version,
    first: u32,
    left: u64,
    tx: &mut Transaction<'_, F>,
    pace: &mut P,
) -> Result<Cursor, CopyError>
    ensures reads { Spares (state S.Store source.old) (state S.Store source.new) }
    ensures open { InEachWorld (state S.Store source.old) (state S.Store source.new) (λ old new _.
        IsTrue old.is_open → OnOk result (IsTrue new.is_open)) }
    ensures same_reference { tx.new.conn.ghost_name ≡ tx.old.conn.ghost_name }
    ensures goes_on { GoesOn (state F.Store tx.old.conn.now) (state F.Store tx.new.conn.now) (is_ok result) }
    ensures copies { CopiesRest (state S.Store source.old) (state S.Store source.new)
        (state F.Store tx.old.conn.now) (state F.Store tx.new.conn.now) version first left result }
{
    match copy_pieces(source, version.id, first, tx, pace)? {
        Some(next) => Ok(Cursor {
            from: Some(version.id),
            left,
            part: Some(Part {
                place: version.place,
                next,
            }),
        }),
        None => match left.checked_sub(1) {
            Some(left) => Ok(Cursor {
                from: version.id.checked_add(1),
                left,
                part: None,
            }),
            None => Err(astray()),
        },
    }
}

/// Whether the version is the one of which a part was copied, and has the number from which the walk goes on.
fn is_resumed(from: Option<i64>, part: &Part, version: &Version) -> bool
    ensures { IsTrue result → (from ≡ Some version.now.id) × (part.now.place ≡ version.now.place) }
{
    from == Some(version.id) && part.place == version.place
}

/// Writes the row of a version, and copies its pieces up to where the pace says. Passes over a newcomer.
fn copy_whole<S: Alter, F: Alter, P: Pace>(
    source: &mut Connection<S>,
    tx: &mut Transaction<'_, F>,
    newcomers: &Newcomers,
    version: Version,
    left: u64,
    pace: &mut P,
) -> Result<Cursor, CopyError>
    ensures reads { Spares (state S.Store source.old) (state S.Store source.new) }
    ensures open { InEachWorld (state S.Store source.old) (state S.Store source.new) (λ old new _.
        IsTrue old.is_open → OnOk result (IsTrue new.is_open)) }
    ensures same_reference { tx.new.conn.ghost_name ≡ tx.old.conn.ghost_name }
    ensures goes_on { GoesOn (state F.Store tx.old.conn.now) (state F.Store tx.new.conn.now) (is_ok result) }
    ensures copies { CopiesWhole (state S.Store source.old) (state S.Store source.new)
        (state F.Store tx.old.conn.now) (state F.Store tx.new.conn.now) newcomers.now version left result }
{
    if is_newcomer(newcomers, &version) {
        return Ok(Cursor {
            from: version.id.checked_add(1),
            left,
            part: None,
        });
    }
    match put_version(tx, &version) {
        Ok(()) => {
            pace.note(len_at(&version.row, 5));
            copy_rest(source, version, 0, left, tx, pace)
        }
        Err(error) => Err(CopyError::Fresh(error)),
    }
}

/// Whether the version was published since the newcomers are noted.
fn is_newcomer(newcomers: &Newcomers, version: &Version) -> bool
    ensures { result ≡ set.contains newcomers.now version.now.place }
{
    newcomers.has(&version.place)
}

/// Copies a version that the walk came to, up to where the pace says, or passes over it if it is a newcomer. If a part
/// of a version was copied, it is to be that one.
fn copy_version<S: Alter, F: Alter, P: Pace>(
    source: &mut Connection<S>,
    tx: &mut Transaction<'_, F>,
    newcomers: &Newcomers,
    version: Version,
    at: Cursor,
    pace: &mut P,
) -> Result<Cursor, CopyError>
    ensures reads { Spares (state S.Store source.old) (state S.Store source.new) }
    ensures open { InEachWorld (state S.Store source.old) (state S.Store source.new) (λ old new _.
        IsTrue old.is_open → OnOk result (IsTrue new.is_open)) }
    ensures same_reference { tx.new.conn.ghost_name ≡ tx.old.conn.ghost_name }
    ensures goes_on { GoesOn (state F.Store tx.old.conn.now) (state F.Store tx.new.conn.now) (is_ok result) }
    ensures copies { CopiesFrom (state S.Store source.old) (state S.Store source.new)
        (state F.Store tx.old.conn.now) (state F.Store tx.new.conn.now) newcomers.now version at result }
{
    let Cursor { from, left, part } = at;
    match part {
        Some(part) => {
            if !is_resumed(from, &part, &version) {
                return Err(astray());
            }
            copy_rest(source, version, part.next, left, tx, pace)
        }
        None => copy_whole(source, tx, newcomers, version, left, pace),
    }
}

/// Copies the version that comes next, up to where the pace says, and returns where the walk goes on.
fn copy_next<S: Alter, F: Alter, P: Pace>(
    source: &mut Connection<S>,
    tx: &mut Transaction<'_, F>,
    newcomers: &Newcomers,
    at: Cursor,
    pace: &mut P,
) -> Result<Cursor, CopyError>
    ensures reads { Spares (state S.Store source.old) (state S.Store source.new) }
    ensures open { InEachWorld (state S.Store source.old) (state S.Store source.new) (λ _ new _.
        OnOk result (IsTrue new.is_open)) }
    ensures same_reference { tx.new.conn.ghost_name ≡ tx.old.conn.ghost_name }
    ensures goes_on { GoesOn (state F.Store tx.old.conn.now) (state F.Store tx.new.conn.now) (is_ok result) }
    ensures copies { CopiesOn (state S.Store source.old) (state S.Store source.new)
        (state F.Store tx.old.conn.now) (state F.Store tx.new.conn.now) newcomers.now at result }
{
    let Some(from) = at.from else {
        return Err(astray());
    };
    match find_version(source, from)? {
        Some(version) => copy_version(source, tx, newcomers, version, at, pace),
        None => Err(astray()),
    }
}

/// Copies entries of the source into the fresh store, inside a transaction, up to where the pace says, and returns
/// where the walk goes on. It passes over the newcomers. Fails with `Source` or `Fresh`, by the store that failed; with
/// `DatabaseCorrupt` of the source if there are fewer versions than the cursor counts; and with `SystemIoFailure` of
/// the fresh store if the pace says that its disk failed.
pub fn copy_slice<S: Alter, F: Alter, P: Pace>(
    source: &mut Connection<S>,
    tx: &mut Transaction<'_, F>,
    newcomers: &Newcomers,
    at: Cursor,
    pace: &mut P,
) -> Result<Cursor, CopyError>
    ensures reads { Spares (state S.Store source.old) (state S.Store source.new) }
    ensures open { InEachWorld (state S.Store source.old) (state S.Store source.new) (λ _ new _.
        OnOk result (IsTrue new.is_open)) }
    ensures same_reference { tx.new.conn.ghost_name ≡ tx.old.conn.ghost_name }
    ensures goes_on { GoesOn (state F.Store tx.old.conn.now) (state F.Store tx.new.conn.now) (is_ok result) }
    ensures copies { CopiesOn (state S.Store source.old) (state S.Store source.new)
        (state F.Store tx.old.conn.now) (state F.Store tx.new.conn.now) newcomers.now at result }
{
    if !pace.begin() {
        return Err(CopyError::Fresh(Error::SqliteFailure(ErrorCode::SystemIoFailure)));
    }
    let mut at = copy_next(source, tx, newcomers, at, pace)?;
    for _ in 0..u64::MAX {
        if at.is_done() || pace.is_spent() {
            return Ok(at);
        }
        at = copy_next(source, tx, newcomers, at, pace)?;
    }
    Ok(at)
}
