//! Tests the rows of `version` and puts them in.

ghost use Rattle.std.specs.Prelude.{◌≡◌, IfOk, IfSome, IsTrue, Some};
ghost use Rattle.sqlite.specs.Held.{state};
ghost use Rattle.modver.specs.SemanticVersion.{version_text};
ghost use Rattle.world.specs.World.{place};
ghost use Rattle.tables.specs.Walks.{MayFollow, run_with};
ghost use Rattle.older_rows.specs.Causes.{FailsAs};
ghost use Rattle.older_rows.specs.Visits.{Moves, is_done};
ghost use Rattle.older_rows.specs.Entries.{ShowsEntry, ShowsZip, ShowsKeys, IsFitRow, PutsEntry};
ghost use Rattle.older_rows.specs.Entered.{PutsEntries};

use crate::walk::{RowMeter, Visit, visit_rows};
use modver::Version;
use older::schema::Format;
use sqlite::{Alter, Connection, Error, Row, Transaction};
use statements::extract_rows::CopyError;
use statements::keyed::KeyedVersion;
use statements::meter::{Meter, len_at};
use statements::rows::put_entry;
use std::alloc::{AllocError, Global};
use tables::columns::{blob_at, int_at, is_blob_at, text_at};
use tables::fit::{run_up_to, time_at};
use world::entry::{EntryRef, Place};
use world::entry_test::fitting_version;

/// An entry as a row shows it, with its place.
#[derive(Drop)]
struct EntryAt<'r> {
    shelf: &'r str,
    path: &'r str,
    version: &'r str,
    entry: EntryRef<'r>,
}

/// An entry that may stand at its place, with the number of its row and its version.
#[derive(Drop)]
struct FitEntry<'r> {
    id: i64,
    shown: EntryAt<'r>,
    version: Version,
}

/// Returns the entry that a row shows, with this zip. Returns None if a column is not of its type.
fn entry_at<'r>(row: &'r Row, zip: &'r [u8]) -> Result<Option<EntryAt<'r>>, Error>
    ensures { IfOk result (λ found. IfSome found (λ s.
        ShowsEntry row.now (place s.shelf.now s.path.now s.version.now) s.entry × (s.entry.zip ≡ zip.now))) }
{
    let Some(shelf) = text_at(row, 0)? else {
        return Ok(None);
    };
    let Some(path) = text_at(row, 1)? else {
        return Ok(None);
    };
    let Some(version) = text_at(row, 2)? else {
        return Ok(None);
    };
    let Some(time) = time_at(row, 3)? else {
        return Ok(None);
    };
    let Some(gomod) = blob_at(row, 4)? else {
        return Ok(None);
    };
    let entry = EntryRef { gomod, zip, time };
    Ok(Some(EntryAt {
        shelf,
        path,
        version,
        entry,
    }))
}

/// Returns the zip that a row shows, or None if the column is not a BLOB. In schema 2 zips are rows of their own, so
/// the zip is empty here.
fn zip_at(format: Format, row: &Row) -> Result<Option<&[u8]>, Error>
    ensures { IfOk result (λ found. IfSome found (λ zip. ShowsZip format row.now zip.now)) }
{
    match format {
        Format::One => blob_at(row, 6),
        Format::Two => Ok(Some(&[])),
    }
}

/// Reports whether a row shows the order keys of a version. In schema 1 a row has none, and the answer is true.
fn shows_keys(format: Format, row: &Row, version: &KeyedVersion) -> Result<bool, Error>
    ensures { IfOk result (λ shows. IsTrue shows → ShowsKeys format row.now version.now) }
{
    match format {
        Format::One => Ok(true),
        Format::Two => Ok(
            is_blob_at(row, 6, version.order())? && is_blob_at(row, 7, version.rank())?,
        ),
    }
}

/// Returns the entry that a row shows, with its number and its version. Returns None if the row does not show them, or
/// the entry may not stand at its place. The order keys are not tested yet.
fn fit_row<'r>(alloc: Global, format: Format, row: &'r Row) -> Result<Option<FitEntry<'r>>, Error>
    ensures { IfOk result (λ found. IfSome found (λ f. (version_text f.version ≡ f.shown.version.now)
        × IsFitRow format row.now f.id (place f.shown.shelf.now f.shown.path.now f.shown.version.now) f.shown.entry)) }
{
    let Some(zip) = zip_at(format, row)? else {
        return Ok(None);
    };
    let Some(shown) = entry_at(row, zip)? else {
        return Ok(None);
    };
    let Some(version) = fitting_version(alloc, shown.path, shown.version, &shown.entry)? else {
        return Ok(None);
    };
    let Some(id) = int_at(row, 5)? else {
        return Ok(None);
    };
    Ok(Some(FitEntry { id, shown, version }))
}

/// Visits the rows of `version` in the order of their places. It refuses an entry that may not stand at its place, a
/// place that comes twice, and a path with too many versions on a shelf.
#[derive(Drop)]
struct EntryRows {
    alloc: Global,
    format: Format,
    last: Option<Place>,
    many: u64,
}

impl EntryRows {
    /// Reports whether an entry may follow the last one, and if so makes it the last one.
    fn follows(&mut self, shown: &EntryAt) -> Result<bool, AllocError>
        ensures { IfOk result (λ may. IsTrue may
            → MayFollow self.old.last self.old.many (place shown.now.shelf.now shown.now.path.now shown.now.version.now)
            × ((self.new.format ≡ self.old.format)
            × ((self.new.last ≡ Some (place shown.now.shelf.now shown.now.path.now shown.now.version.now))
            × (self.new.many ≡ run_with self.old.last self.old.many
            (place shown.now.shelf.now shown.now.path.now shown.now.version.now))))) }
    {
        let place = Place::new(self.alloc, shown.shelf, shown.path, shown.version)?;
        let Some(many) = run_up_to(&self.last, self.many, &place) else {
            return Ok(false);
        };
        self.last = Some(place);
        self.many = many;
        Ok(true)
    }
}

impl Visit for EntryRows {
    ghost Puts = { λ so_far row db next after. (next.format ≡ so_far.format)
        × PutsEntry so_far.format so_far.last so_far.many row db after next.last next.many };

    fn visit<F: Alter>(&mut self, tx: &mut Transaction<'_, F>, row: &Row) -> Result<bool, Error> {
        let Some(fit) = fit_row(self.alloc, self.format, row)? else {
            return Ok(false);
        };
        let keyed = KeyedVersion::of(self.alloc, &fit.version)?;
        if !shows_keys(self.format, row, &keyed)? {
            return Ok(false);
        }
        if !self.follows(&fit.shown)? {
            return Ok(false);
        }
        let shown = &fit.shown;
        put_entry(
            tx,
            Some(fit.id),
            shown.shelf,
            shown.path,
            &keyed,
            &shown.entry,
        )?;
        Ok(true)
    }
}

/// Has a meter hear of the versions of schema 1, which come with their zips.
#[derive(Drop)]
struct WholeMeter<'m, M: Meter> {
    meter: &'m M,
}

impl<'m, M: Meter> RowMeter for WholeMeter<'m, M> {
    fn note_row(&self, row: &Row) {
        self.meter.note_zip(false, len_at(row, 6));
    }
}

/// Has a meter hear of the versions of schema 2.
#[derive(Drop)]
struct VersionMeter<'m, M: Meter> {
    meter: &'m M,
}

impl<'m, M: Meter> RowMeter for VersionMeter<'m, M> {
    fn note_row(&self, row: &Row) {
        self.meter.note_version(len_at(row, 4));
    }
}

/// Puts in each version of schema 1 with its go.mod and its zip. Returns false if one may not stand at its place.
/// A version without a row of `body` shows NULL for its zip. The index of places has this order, so the database sorts
/// nothing.
fn put_with_zips<S: Alter, F: Alter, M: Meter>(
    alloc: Global,
    source: &mut Connection<S>,
    tx: &mut Transaction<'_, F>,
    meter: &M,
) -> Result<bool, CopyError>
    ensures same_reference { tx.new.conn.ghost_name ≡ tx.old.conn.ghost_name }
    ensures moves { Moves Format.One (PutsEntries Format.One) (state S.Store source.old) (state S.Store source.new)
        (state F.Store tx.old.conn.now) (state F.Store tx.new.conn.now) (is_done result) }
    ensures cause { FailsAs Format.One (state S.Store source.old) (state S.Store source.new) result }
{
    let mut rows = EntryRows {
        alloc,
        format: Format::One,
        last: None,
        many: 0,
    };
    visit_rows(
        source,
        Format::One,
        "SELECT v.shelf, v.path, v.version, v.time, v.mod, v.id, b.zip FROM version AS v \
         LEFT JOIN body AS b ON b.id = v.id ORDER BY v.shelf, v.path, v.version",
        tx,
        &mut rows,
        &WholeMeter { meter },
    )
}

/// Puts in each version of schema 2 with its go.mod. Returns false if one may not stand at its place.
fn put_without_zips<S: Alter, F: Alter, M: Meter>(
    alloc: Global,
    source: &mut Connection<S>,
    tx: &mut Transaction<'_, F>,
    meter: &M,
) -> Result<bool, CopyError>
    ensures same_reference { tx.new.conn.ghost_name ≡ tx.old.conn.ghost_name }
    ensures moves { Moves Format.Two (PutsEntries Format.Two) (state S.Store source.old) (state S.Store source.new)
        (state F.Store tx.old.conn.now) (state F.Store tx.new.conn.now) (is_done result) }
    ensures cause { FailsAs Format.Two (state S.Store source.old) (state S.Store source.new) result }
{
    let mut rows = EntryRows {
        alloc,
        format: Format::Two,
        last: None,
        many: 0,
    };
    visit_rows(
        source,
        Format::Two,
        "SELECT shelf, path, version, time, mod, id, order_key, rank_key FROM version ORDER BY shelf, path, version",
        tx,
        &mut rows,
        &VersionMeter { meter },
    )
}

/// Puts in each version with its go.mod, and in schema 1 with its zip. Returns false if one may not stand at its place.
/// Fails with `Source` or `Fresh`, by the store that failed.
pub(crate) fn put_entries<S: Alter, F: Alter, M: Meter>(
    alloc: Global,
    source: &mut Connection<S>,
    format: Format,
    tx: &mut Transaction<'_, F>,
    meter: &M,
) -> Result<bool, CopyError>
    ensures same_reference { tx.new.conn.ghost_name ≡ tx.old.conn.ghost_name }
    ensures moves { Moves format (PutsEntries format) (state S.Store source.old) (state S.Store source.new)
        (state F.Store tx.old.conn.now) (state F.Store tx.new.conn.now) (is_done result) }
    ensures cause { FailsAs format (state S.Store source.old) (state S.Store source.new) result }
{
    match format {
        Format::One => put_with_zips(alloc, source, tx, meter),
        Format::Two => put_without_zips(alloc, source, tx, meter),
    }
}
