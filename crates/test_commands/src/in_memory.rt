//! Files in memory.
use commands::memory_files::FilesInMemory;
use commands::sources::{Sources, read_file};
use std::alloc::{AllocError, Global};
use std::str::from_utf8;
use std::test::Fail;
use test_support::rows::{cell, with_lines};

/// Puts files, one a line: a name and its text, in which `;` is a newline.
pub fn put(alloc: Global, files: &mut FilesInMemory, table: &str) -> Result<(), AllocError> {
    for row in table.lines() {
        put_file(alloc, files, cell(row, 0), cell(row, 1))?;
    }
    Ok(())
}

fn put_file(
    alloc: Global,
    files: &mut FilesInMemory,
    name: &str,
    text: &str,
) -> Result<(), AllocError> {
    let text = with_lines(alloc, text)?;
    files.insert(name, text.as_bytes())
}

/// Returns the bytes under a name, at most one more than `most`, or why there are none.
fn read<F: Sources>(alloc: Global, files: &mut F, name: &str, most: u32) -> Result<String, Fail> {
    match read_file(files, name, u64::from(most)) {
        Ok(bytes) => Ok(String::from_str(alloc, from_utf8(bytes.as_slice())?)?),
        Err(fault) => Ok(format!(in alloc; "{fault:?}")?),
    }
}

/// Reports whether a row's name has the bytes, or the fault, that the row says.
fn is_read<F: Sources>(alloc: Global, files: &mut F, row: &str) -> Result<bool, Fail> {
    let most = cell(row, 1).parse::<u32>()?;
    let wanted = with_lines(alloc, cell(row, 2))?;
    Ok(read(alloc, files, cell(row, 0), most)?.as_str() == wanted.as_str())
}

/// Puts the file of a row with two columns and returns true. For a row with three, reports whether its name has what it
/// says.
fn holds(alloc: Global, files: &mut FilesInMemory, row: &str) -> Result<bool, Fail> {
    if row.split('|').count() == 3 {
        return is_read(alloc, files, row);
    }
    put_file(alloc, files, cell(row, 0), cell(row, 1))?;
    Ok(true)
}

/// Returns the first row whose name does not have what the row says, or the empty text if there is none.
fn wrong_row<'a>(alloc: Global, files: &mut FilesInMemory, rows: &'a str) -> Result<&'a str, Fail> {
    for row in rows.lines() {
        if !holds(alloc, files, row)? {
            return Ok(row);
        }
    }
    Ok("")
}

/// Files that are put, with 21 bytes, none, or one; and what a name has if the most bytes are the figure in the second
/// column.
const ROWS: &str = "\
a.mod | 100 | NoFile
a.mod | module example.com/a;
empty |
one | X
a.mod | 100 | module example.com/a;
a.mod | 21 | module example.com/a;
a.mod | 20 | module example.com/a;
a.mod | 19 | module example.com/a
a.mod | 4 | modul
a.mod | 0 | m
empty | 100 |
empty | 0 |
one | 1 | X
one | 0 | X
none | 100 | NoFile
a.mo | 100 | NoFile
A.mod | 100 | NoFile
a.mod | module example.com/b;
none | Y
a.mod | 100 | module example.com/b;
none | 100 | Y
one | 100 | X
two | 100 | NoFile
";

#[test]
fn files_in_memory_have_the_bytes_that_were_put(rt: HostRuntime) -> Result<(), Fail> {
    let mut files = FilesInMemory::new(rt.alloc());
    assert_eq!(rt; wrong_row(rt.alloc(), &mut files, ROWS)?, "");
    Ok(())
}
