//! Reads the tables of all modules. A row is a line of a table, with `|` between its columns: the call, its arguments,
//! and last what it returns. In a row, `;` is a newline and `ÿ` the byte 255.
use crate::{
    gomod_faults, hashes, latest_versions, messages, module_paths, orders, replies, targets,
    tokens, versions,
};
use modver::Version;
use std::alloc::{AllocError, Global};
use std::fmt::Debug;
use std::test::Fail;

/// The module to whose calls a table belongs.
#[derive(Clone, Copy)]
enum Subject {
    Messages,
    GoModFaults,
    Hashes,
    Latest,
    Orders,
    Paths,
    Replies,
    Targets,
    Tokens,
    Versions,
}

const SUBJECTS: [Subject; 10] = [
    Subject::Messages,
    Subject::GoModFaults,
    Subject::Hashes,
    Subject::Latest,
    Subject::Orders,
    Subject::Paths,
    Subject::Replies,
    Subject::Targets,
    Subject::Tokens,
    Subject::Versions,
];

/// Returns the table of a subject.
fn table(subject: Subject) -> &'static str {
    match subject {
        Subject::Messages => messages::ROWS,
        Subject::GoModFaults => gomod_faults::ROWS,
        Subject::Hashes => hashes::ROWS,
        Subject::Latest => latest_versions::ROWS,
        Subject::Orders => orders::ROWS,
        Subject::Paths => module_paths::ROWS,
        Subject::Replies => replies::ROWS,
        Subject::Targets => targets::ROWS,
        Subject::Tokens => tokens::ROWS,
        Subject::Versions => versions::ROWS,
    }
}

/// Makes the call of a row, and returns its result as a text.
fn given(alloc: Global, subject: Subject, row: &str) -> Result<String, Fail> {
    match subject {
        Subject::Messages => messages::given(alloc, row),
        Subject::GoModFaults => Ok(gomod_faults::given(alloc, row)?),
        Subject::Hashes => hashes::given(alloc, row),
        Subject::Latest => latest_versions::given(alloc, row),
        Subject::Orders => orders::given(alloc, row),
        Subject::Paths => Ok(module_paths::given(alloc, row)?),
        Subject::Replies => replies::given(alloc, row),
        Subject::Targets => targets::given(alloc, row),
        Subject::Tokens => Ok(tokens::given(alloc, row)?),
        Subject::Versions => versions::given(alloc, row),
    }
}

/// Returns the first row of a table whose call does not return its last column, and what the call returns. It returns
/// an empty text if there is no such row, and fails with the first call that fails.
fn wrong_row(alloc: Global, subject: Subject) -> Result<String, Fail> {
    for row in table(subject).lines() {
        let (call, wanted) = row.rsplit_once('|').ok_or("a row of one column")?;
        let given = given(alloc, subject, call)?;
        if given.as_str() != wanted {
            return Ok(format!(in alloc; "{row} returns {}", given.as_str())?);
        }
    }
    Ok(String::new(alloc))
}

/// Returns a column of a row, empty if the row has fewer columns.
pub fn column(row: &str, index: usize) -> &str {
    row.split('|').nth(index).unwrap_or("")
}

/// Returns the text that a column writes with `;` for each newline.
pub fn with_lines(alloc: Global, column: &str) -> Result<String, AllocError> {
    column.replace(alloc, ";", "\n")
}

/// Returns the bytes that a column writes with `;` for each newline and `ÿ` for each byte 255.
pub fn bytes(alloc: Global, column: &str) -> Result<Vec<u8>, AllocError> {
    let text = with_lines(alloc, column)?;
    let mut bytes = Vec::new(alloc);
    for (index, piece) in text.split('ÿ').enumerate() {
        if index > 0 {
            bytes.push(255)?;
        }
        bytes.extend_from_slice(piece.as_bytes())?;
    }
    Ok(bytes)
}

/// Returns the text of these bytes, with `;` for each newline. It fails if they are not text.
pub fn on_one_line(alloc: Global, bytes: &[u8]) -> Result<String, Fail> {
    Ok(str::from_utf8(bytes)?.replace(alloc, "\n", ";")?)
}

/// Returns the name of a value, or `-` for `None`.
pub fn named<F: Debug + Copy>(alloc: Global, value: Option<F>) -> Result<String, AllocError> {
    match value {
        Some(value) => format!(in alloc; "{value:?}"),
        None => String::from_str(alloc, "-"),
    }
}

/// Returns the versions that the words of a column write. It fails if a word is not a version.
pub fn versions_of(alloc: Global, column: &str) -> Result<Vec<Version>, Fail> {
    let mut list = Vec::new(alloc);
    for text in column.split_whitespace() {
        list.push(Version::parse(alloc, text)?)?;
    }
    Ok(list)
}

#[test]
fn calls_return_what_the_rows_say(rt: HostRuntime) -> Result<(), Fail> {
    for subject in SUBJECTS {
        let wrong = wrong_row(rt.alloc(), subject)?;
        assert!(rt; wrong.is_empty(), "{wrong}");
    }
    Ok(())
}
