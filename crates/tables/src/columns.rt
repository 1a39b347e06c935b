//! The values of a row, read as the types that they must have.

ghost use Rattle.std.specs.Prelude.{◌≡◌, ◌≤◌, length, IfOk, IfErr, Decides, MatchOption, IsUtf8};
ghost use Rattle.sqlite.specs.declared.types.Value.TheVariants.{Int, Text, Blob};
ghost use Rattle.sqlite.specs.Order.{column};

use sqlite::types::ValueRef;
use sqlite::{Error, Row};

/// Returns the text of a column, or None if it holds no UTF-8 text. Fails only if the row has no such column.
pub fn text_at(row: &Row, at: usize) -> Result<Option<&str>, Error>
    ensures found { IfOk result (λ found. MatchOption found
        ((t : _) → column row.now at ≡ Text t → IsUtf8 t → ⊥)
        (λ t. (column row.now at ≡ Text t.now) × IsUtf8 t.now)) }
    ensures past { IfErr result (λ _. length row.now ≤ at) }
{
    match row.get_ref(at)? {
        ValueRef::Text(bytes) => match std::str::from_utf8(bytes) {
            Ok(text) => Ok(Some(text)),
            Err(_) => Ok(None),
        },
        _ => Ok(None),
    }
}

/// Returns the bytes of a column, or None if it holds no blob. Fails only if the row has no such column.
pub fn blob_at(row: &Row, at: usize) -> Result<Option<&[u8]>, Error>
    ensures found { IfOk result (λ found. MatchOption found
        ((b : _) → column row.now at ≡ Blob b → ⊥)
        (λ b. column row.now at ≡ Blob b.now)) }
    ensures past { IfErr result (λ _. length row.now ≤ at) }
{
    match row.get_ref(at)? {
        ValueRef::Blob(bytes) => Ok(Some(bytes)),
        _ => Ok(None),
    }
}

/// Returns the integer of a column, or None if it holds none. Fails only if the row has no such column.
pub fn int_at(row: &Row, at: usize) -> Result<Option<i64>, Error>
    ensures found { IfOk result (λ found. MatchOption found
        ((n : _) → column row.now at ≡ Int n → ⊥)
        (λ n. column row.now at ≡ Int n)) }
    ensures past { IfErr result (λ _. length row.now ≤ at) }
{
    match row.get_ref(at)? {
        ValueRef::Int(n) => Ok(Some(n)),
        _ => Ok(None),
    }
}

/// Whether a column is a blob with these bytes. Fails only if the row has no such column.
pub fn is_blob_at(row: &Row, at: usize, bytes: &[u8]) -> Result<bool, Error>
    ensures found { IfOk result (λ b. Decides b (column row.now at ≡ Blob bytes.now)) }
    ensures past { IfErr result (λ _. length row.now ≤ at) }
{
    Ok(matches!(row.get_ref(at)?, ValueRef::Blob(found) if found == bytes))
}
