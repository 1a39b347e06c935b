//! What hears how far a copy of rows is.

use sqlite::Row;
use sqlite::types::ValueRef;

/// Hears of the rows that were copied. No clause depends on it.
pub trait Meter {
    /// Hears that a version was copied, with this many bytes. Its zip comes behind all versions.
    fn note_version(&self, bytes: usize);

    /// Hears that this many bytes of a zip were copied, and whether they are the first of it.
    fn note_zip(&self, is_first: bool, bytes: usize);
}

/// Hears nothing.
#[derive(Clone, Copy, Drop)]
pub struct Unmetered;

impl Meter for Unmetered {
    fn note_version(&self, _bytes: usize) {}

    fn note_zip(&self, _is_first: bool, _bytes: usize) {}
}

/// Returns how many bytes a column has, or 0 if it is not a BLOB.
pub fn len_at(row: &Row, at: usize) -> usize {
    match row.get_ref(at) {
        Ok(ValueRef::Blob(bytes)) => bytes.len(),
        _ => 0,
    }
}

/// Whether a column is the number 0.
pub fn is_zero_at(row: &Row, at: usize) -> bool {
    matches!(row.get_ref(at), Ok(ValueRef::Int(0)))
}
