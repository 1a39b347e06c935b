//! `import`: publishes each row of a list.
ghost use Rattle.std.specs.Prelude.{◌≡◌, ◌&&◌, ℕ, List, [], ◌∷◌, ◌++◌, Option, option_copied, IfOk, OnOk};
ghost use Rattle.csv.specs.Records.{fields_of};
ghost use Rattle.engine.specs.Causes.{FailsWith};
ghost use Rattle.commands.specs.Import as spec;
ghost use Rattle.commands.specs.ImportFiles.{IsBodyOf, is_readable};
ghost use Rattle.commands.specs.ImportList.{HasRead, header, line_of_row};
ghost use Rattle.commands.specs.Sources.{Adds};

use crate::import_line::{RowOutcome, print_bad_row, print_outcome};
use crate::import_list::{ImportRow, NextRow, is_header, open, read_next, row_of};
use crate::import_progress::ImportProgress;
use crate::publish::{Files, Words, answer_of, publish_by, read_files};
use crate::sources::{SourceFault, Sources};
use csv::{Reader, StringRecord};
use engine::Io;
use histories::Tell;
use machine::request::Body;
use std::alloc::{AllocError, Global};
use std::io::{Read, Write};
use wire::reply::Fixed;
use world::bytes::Bytes;
use world::forms::{path_of, version_of};
use world::shelves::Shelves;

/// How an import ended whose lines were all printed.
#[derive(Clone, Copy, Debug, Drop, PartialEq, Eq)]
pub enum Ending {
    /// Every row was answered 200 or 201.
    AllIn,
    /// Some row was answered otherwise, or the list could not be read to its end.
    SomeOut,
    /// The header is wrong or absent, or a row is not UTF-8 or does not have five fields.
    BadRow,
}

/// Why the import ends.
#[derive(Clone, Copy, Debug, Drop, PartialEq, Eq)]
pub enum Closing {
    /// The list is at its end.
    End,
    /// The next row is bad.
    BadRow,
    /// The rest of the list can't be read.
    ReadError,
}

/// One step of an import.
#[derive(Clone, Copy, Debug, Drop, PartialEq, Eq)]
pub enum Step {
    /// A row was done; whether it was accepted.
    Row(bool),
    /// No row was done, and the import ends.
    Over(Closing),
}

/// Publishes each row of a list with a key, prints a line for each once it is done, and returns how the import ended.
/// The line is the number of the row, and its answer or `no file`.
///
/// A row is published with the files that it names, by the checks of a publish, and no other file is read. If one of
/// them can't be read, its line is `no file` and nothing is stored for it; if memory runs out for them, its line is
/// `503 unavailable`. The line `bad row` ends the import if the header is wrong or absent, or a row is not UTF-8 or
/// does not have five fields. The line `503 unavailable` ends it if the rest of the list can't be read. A list of the
/// header alone ends as all accepted. A list with more rows than a `u64` counts ends as one whose rest can't be read.
///
/// `Io::Write` if a line can't be printed; the row of the line is done.
pub fn import<S: Shelves, L: Read + Drop, F: Sources, O: Tell>(
    alloc: Global,
    shelves: &mut S,
    key: &str,
    list: L,
    sources: &mut F,
    progress: &ImportProgress<'_>,
    output: &mut O,
) -> Result<Ending, Io>
    ensures imports { spec.Imports (S.shown shelves.old) (S.shown shelves.new)
        (F.history sources.old) (F.history sources.new) key.now (L.remaining list)
        (O.contents output.old) (O.contents output.new) result }
    // It fails only if a call of the output failed.
    ensures fails { FailsWith (O.writes output.old).failed (O.writes output.new).failed result }
    // What was printed is flushed.
    ensures flushed { (O.writes output.old).unflushed ≡ [] → OnOk result ((O.writes output.new).unflushed ≡ []) }
{
    let mut reader = open(alloc, list);
    let mut fields = StringRecord::new(alloc);
    if let Some(closing) = read_header(&mut reader, &mut fields) {
        return close(0, closing, true, output);
    }
    let mut accepted = true;
    for number in 1..u64::MAX {
        match import_next(
            alloc,
            shelves,
            key,
            &mut reader,
            &mut fields,
            sources,
            progress,
            number,
            output,
        ) {
            Ok(Step::Row(accepts)) => {
                progress.row_done(number);
                accepted = both(accepted, accepts);
            }
            Ok(Step::Over(closing)) => return close(number, closing, accepted, output),
            Err(fault) => return Err(fault),
        }
    }
    close(u64::MAX, Closing::ReadError, accepted, output)
}

/// Whether both hold.
fn both(first: bool, second: bool) -> bool
    ensures { result ≡ first && second }
{
    first && second
}

/// Reads the header, and returns why the import ends if it is wrong, or None.
fn read_header<R: Read>(reader: &mut Reader<R>, fields: &mut StringRecord) -> Option<Closing>
    ensures { (list : Option (List ℕ)) → HasRead R.remaining list [] reader.old
        → spec.HeaderRead R.remaining list reader.new result }
{
    match read_next(reader, fields) {
        NextRow::Fields => {
            if is_header(fields) {
                None
            } else {
                Some(Closing::BadRow)
            }
        }
        NextRow::End => Some(Closing::BadRow),
        NextRow::NoText => Some(Closing::BadRow),
        NextRow::ReadError => Some(Closing::ReadError),
    }
}

/// Does the next row and prints its line, or returns why the import ends. `Io::Write` if the line can't be printed.
fn import_next<S: Shelves, R: Read, F: Sources, O: Tell>(
    alloc: Global,
    shelves: &mut S,
    key: &str,
    reader: &mut Reader<R>,
    fields: &mut StringRecord,
    sources: &mut F,
    progress: &ImportProgress<'_>,
    number: u64,
    output: &mut O,
) -> Result<Step, Io>
    ensures steps { (list : Option (List ℕ)) (rows : List (List (List ℕ))) → HasRead R.remaining list rows reader.old
        → spec.StepIs R.remaining (S.shown shelves.old) (S.shown shelves.new)
        (F.history sources.old) (F.history sources.new) key.now list rows reader.new number
        (O.contents output.old) (O.contents output.new) result }
    ensures fails { FailsWith (O.writes output.old).failed (O.writes output.new).failed result }
    ensures flushed { (O.writes output.old).unflushed ≡ [] → OnOk result ((O.writes output.new).unflushed ≡ []) }
{
    if let Some(closing) = read_row(reader, fields) {
        return Ok(Step::Over(closing));
    }
    let Some(row) = row_of(fields) else {
        return Ok(Step::Over(Closing::BadRow));
    };
    let outcome = import_row(alloc, shelves, key, &row, sources, progress);
    match print_outcome(number, outcome, output) {
        Ok(()) => Ok(Step::Row(outcome.accepts())),
        Err(fault) => Err(fault),
    }
}

/// Reads the fields of the next row, and returns why the import ends if there is none, or None.
fn read_row<R: Read>(reader: &mut Reader<R>, fields: &mut StringRecord) -> Option<Closing>
    ensures { (list : Option (List ℕ)) (rows : List (List (List ℕ))) → HasRead R.remaining list rows reader.old
        → spec.FieldsRead R.remaining list rows reader.new (fields_of fields.new) result }
{
    match read_next(reader, fields) {
        NextRow::Fields => None,
        NextRow::End => Some(Closing::End),
        NextRow::NoText => Some(Closing::BadRow),
        NextRow::ReadError => Some(Closing::ReadError),
    }
}

/// Publishes a row with the files that it names, and returns its outcome.
fn import_row<S: Shelves, F: Sources>(
    alloc: Global,
    shelves: &mut S,
    key: &str,
    row: &ImportRow,
    sources: &mut F,
    progress: &ImportProgress<'_>,
) -> RowOutcome
    ensures { spec.DoesRow (S.shown shelves.old) (S.shown shelves.new)
        (F.history sources.old) (F.history sources.new) key.now (line_of_row row.now) result }
{
    match body_of(alloc, row, sources) {
        Ok(body) => {
            progress.body_read(&body);
            RowOutcome::Answered(publish_row(alloc, shelves, key, row, body))
        }
        Err(SourceFault::NoFile) => RowOutcome::NoFile,
        Err(SourceFault::Memory) => RowOutcome::Answered(Fixed::Unavailable),
    }
}

/// Publishes a row with these files, and returns the answer.
fn publish_row<S: Shelves>(
    alloc: Global,
    shelves: &mut S,
    key: &str,
    row: &ImportRow,
    body: Body,
) -> Fixed
    ensures { spec.Publishes (S.shown shelves.old) (S.shown shelves.new)
        (spec.request_of key.now (line_of_row row.now) body) result }
{
    let words = Words {
        key,
        path: row.path,
        version: row.version,
        time: time_of(row.time),
    };
    answer_of(publish_by(alloc, shelves, &words, body))
}

/// Returns the time of a row, or None for an empty field.
fn time_of(time: &str) -> Option<&str>
    ensures { option_copied result ≡ spec.time_of time.now }
{
    if time.is_empty() {
        return None;
    }
    Some(time)
}

/// Returns the files of a row. If its path or its version is invalid, they are not read, because the row is answered
/// 404 anyway. `NoFile` if a file can't be read, and `Memory` if memory runs out.
#[tactic(auto, using(crate::proofs::SourceLemmas::files_of_row))]
fn body_of<F: Sources>(alloc: Global, row: &ImportRow, sources: &mut F) -> Result<Body, SourceFault>
    ensures { Adds (F.history sources.old) (F.history sources.new) (IsBodyOf (line_of_row row.now) result) }
{
    if !is_readable(alloc, row)? {
        return Ok(Body {
            gomod: Bytes::new(Vec::new(alloc)),
            zip: Bytes::new(Vec::new(alloc)),
        });
    }
    let files = Files {
        gomod: row.gomod,
        zip: row.zip,
    };
    read_files(sources, &files)
}

/// Whether the path and the version of a row are valid. Fails only if memory runs out.
fn is_readable(alloc: Global, row: &ImportRow) -> Result<bool, AllocError>
    ensures { IfOk result (λ is. is ≡ is_readable (line_of_row row.now)) }
{
    let path = path_of(alloc, row.path)?;
    let version = version_of(alloc, row.version)?;
    Ok(both(path.is_some(), version.is_some()))
}

/// Prints the line that ends the import, if one does, and returns how it ended. `Io::Write` if the line can't be
/// printed.
fn close<O: Tell>(
    number: u64,
    closing: Closing,
    accepted: bool,
    output: &mut O,
) -> Result<Ending, Io>
    ensures closes { spec.Closes number closing accepted (O.contents output.old) (O.contents output.new) result }
    ensures fails { FailsWith (O.writes output.old).failed (O.writes output.new).failed result }
    ensures flushed { (O.writes output.old).unflushed ≡ [] → OnOk result ((O.writes output.new).unflushed ≡ []) }
{
    match closing {
        Closing::End if accepted => Ok(Ending::AllIn),
        Closing::End => Ok(Ending::SomeOut),
        Closing::BadRow => match print_bad_row(number, output) {
            Ok(()) => Ok(Ending::BadRow),
            Err(fault) => Err(fault),
        },
        Closing::ReadError => {
            match print_outcome(number, RowOutcome::Answered(Fixed::Unavailable), output) {
                Ok(()) => Ok(Ending::SomeOut),
                Err(fault) => Err(fault),
            }
        }
    }
}
