//! The list of an import, read row by row. (RFC 4180.)
ghost use Rattle.std.specs.Prelude.{◌≡◌, ◌↔◌, ◌<◌, length, IsTrue, [], List, ℕ, Option, Some};
ghost use Rattle.csv.specs.Records.{fields_of, field_at};
ghost use Rattle.commands.specs.ImportList as spec;

use csv::{ErrorKind, Reader, ReaderBuilder, StringRecord};
use std::alloc::Global;
use std::io::Read;

/// What comes next in a list.
#[derive(Clone, Copy, Debug, Drop, PartialEq, Eq)]
pub enum NextRow {
    /// Fields of UTF-8.
    Fields,
    /// Nothing.
    End,
    /// Fields that are not UTF-8.
    NoText,
    /// The rest of the list can't be read: the reader failed, or memory ran out.
    ReadError,
}

/// A row of a list.
#[derive(Clone, Copy, Drop)]
pub struct ImportRow<'a> {
    pub path: &'a str,
    pub version: &'a str,
    /// Empty if the row gives no time.
    pub time: &'a str,
    /// The file name of the go.mod.
    pub gomod: &'a str,
    /// The file name of the zip.
    pub zip: &'a str,
}

/// Returns a reader at the beginning of a list.
/// It takes records of any length and no header, so a bad row reaches our checks, and a line gives its number.
pub fn open<R: Read>(alloc: Global, list: R) -> Reader<R>
    ensures { spec.HasRead R.remaining (R.remaining list) [] result }
{
    ReaderBuilder::new()
        .has_headers(false)
        .flexible(true)
        .from_reader(alloc, list)
}

/// Reads the next fields, and returns what came.
pub fn read_next<R: Read>(reader: &mut Reader<R>, fields: &mut StringRecord) -> NextRow
    ensures { (list : Option (List ℕ)) (rows : List (List (List ℕ))) → spec.HasRead R.remaining list rows reader.old
        → spec.Comes R.remaining list rows reader.new (fields_of fields.new) result }
{
    match reader.read_record(fields) {
        Ok(true) => NextRow::Fields,
        Ok(false) => NextRow::End,
        Err(error) => next_of(error.kind()),
    }
}

/// Returns what comes next if the read failed with this error.
fn next_of(kind: &ErrorKind) -> NextRow
    ensures { result ≡ spec.next_of kind.now }
{
    match kind {
        ErrorKind::Io(_) | ErrorKind::OutOfMemory => NextRow::ReadError,
        _ => NextRow::NoText,
    }
}

/// Returns the row of these fields, or None if they are not five.
pub fn row_of(fields: &StringRecord) -> Option<ImportRow<'_>>
    ensures { spec.IsRowOf (fields_of fields.now) result }
{
    if fields.len() != 5 {
        return None;
    }
    Some(ImportRow {
        path: field(fields, 0),
        version: field(fields, 1),
        time: field(fields, 2),
        gomod: field(fields, 3),
        zip: field(fields, 4),
    })
}

/// Returns the field at an index.
fn field(fields: &StringRecord, index: usize) -> &str
    requires { index < length (fields_of fields.now) }
    ensures { Some result.now ≡ field_at (fields_of fields.now) index }
{
    match fields.get(index) {
        Some(field) => field,
        None => unreachable!(),
    }
}

/// Whether these fields are the header of a list.
pub fn is_header(fields: &StringRecord) -> bool
    ensures { IsTrue result ↔ (fields_of fields.now ≡ spec.header) }
{
    match row_of(fields) {
        Some(row) => names_fields(&row),
        None => false,
    }
}

/// Whether a row has the names of the fields.
fn names_fields(row: &ImportRow) -> bool
    ensures { IsTrue result ↔ (spec.fields_of_row row.now ≡ spec.header) }
{
    row.path == "path"
        && row.version == "version"
        && row.time == "time"
        && row.gomod == "mod"
        && row.zip == "zip"
}
