//! The inventory as CSV. Calls here fail only if memory runs out. (RFC 4180.)
ghost use Rattle.std.specs.Prelude.{◌≡◌, [], ◌∷◌, ◌++◌, decimal, IfOk, OnOk};
ghost use Rattle.csv.specs.Records.{fields_of, partial_of};
ghost use Rattle.commands.specs.Inventory as spec;
ghost use Rattle.commands.specs.Lines.{IsBetweenLines, text_in};

use crate::inventory::InventoryRow;
use csv::{ByteRecord, Writer};
use itoa::Buffer;
use modver::{Class, TimeText, class};
use std::alloc::{AllocError, Global};
use world::bytes::Bytes;

/// Returns a writer to which the header was written.
pub(crate) fn headed(alloc: Global) -> Result<Writer<Vec<u8>>, AllocError>
    ensures between { IfOk result IsBetweenLines }
    ensures text { IfOk result (λ lines. text_in lines ≡ spec.line spec.header) }
{
    let mut lines = Writer::from_writer(Vec::new(alloc));
    let header = header(alloc)?;
    write_line(&mut lines, &header)?;
    Ok(lines)
}

/// Writes the line of a row.
pub(crate) fn write_row(
    alloc: Global,
    lines: &mut Writer<Vec<u8>>,
    row: &InventoryRow,
) -> Result<(), AllocError>
    requires between { IsBetweenLines lines.old }
    ensures between { OnOk result (IsBetweenLines lines.new) }
    ensures text { OnOk result (text_in lines.new ≡ text_in lines.old ++ spec.line (spec.fields row.now)) }
{
    let fields = fields_of_row(alloc, row)?;
    write_line(lines, &fields)
}

/// Returns the text that was written.
pub(crate) fn text_of(lines: Writer<Vec<u8>>) -> Result<Bytes, AllocError>
    ensures { IfOk result (λ text. text ≡ text_in lines) }
{
    match lines.into_inner() {
        Ok(text) => Ok(Bytes::new(text)),
        Err(_) => Err(AllocError),
    }
}

/// Writes a line of these fields.
#[tactic(auto, unfolding(crate::specs::Inventory::line))]
fn write_line(lines: &mut Writer<Vec<u8>>, fields: &ByteRecord) -> Result<(), AllocError>
    requires between { IsBetweenLines lines.old }
    ensures between { OnOk result (IsBetweenLines lines.new) }
    ensures text { OnOk result (text_in lines.new ≡ text_in lines.old ++ spec.line (fields_of fields.now)) }
{
    match lines.write_byte_record(fields) {
        Ok(()) => Ok(()),
        Err(_) => Err(AllocError),
    }
}

/// Returns the fields of the header.
fn header(alloc: Global) -> Result<ByteRecord, AllocError>
    ensures { IfOk result (λ fields. fields_of fields ≡ spec.header) }
{
    let mut fields = ByteRecord::new(alloc);
    fields.push_field(b"path")?;
    fields.push_field(b"version")?;
    fields.push_field(b"shelf")?;
    fields.push_field(b"class")?;
    fields.push_field(b"time")?;
    fields.push_field(b"mod_bytes")?;
    fields.push_field(b"zip_bytes")?;
    Ok(fields)
}

/// Returns the fields of a row.
fn fields_of_row(alloc: Global, row: &InventoryRow) -> Result<ByteRecord, AllocError>
    ensures { IfOk result (λ fields. fields_of fields ≡ spec.fields row.now) }
{
    let mut fields = ByteRecord::new(alloc);
    fields.push_field(row.path.as_str().as_bytes())?;
    fields.push_field(row.version.as_str().as_bytes())?;
    fields.push_field(row.shelf.as_str().as_bytes())?;
    fields.push_field(class_word(class(&row.version)).as_bytes())?;
    fields.push_field(time_field(&row.time).as_bytes())?;
    push_number(&mut fields, row.gomod_bytes)?;
    push_number(&mut fields, row.zip_bytes)?;
    Ok(fields)
}

/// Adds a number as a field.
fn push_number(fields: &mut ByteRecord, number: usize) -> Result<(), AllocError>
    requires whole { partial_of fields.old ≡ [] }
    ensures fields { OnOk result (fields_of fields.new ≡ fields_of fields.old ++ (decimal number ∷ [])) }
    ensures whole { OnOk result (partial_of fields.new ≡ []) }
{
    let mut digits = Buffer::new();
    fields.push_field(digits.format(number).as_bytes())
}

/// Returns the word of a class of versions.
fn class_word(class: Class) -> &'static str
    ensures { result.now ≡ spec.class_word class }
{
    match class {
        Class::Release => "release",
        Class::Pre => "pre",
        Class::Pseudo(_) => "pseudo",
    }
}

/// Returns the time of a version, or an empty text if it has none.
fn time_field(time: &Option<TimeText>) -> &str
    ensures { result.now ≡ spec.time_field time.now }
{
    match time {
        Some(time) => time.as_str(),
        None => "",
    }
}
