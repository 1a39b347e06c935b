//! Imports that break off: the list cannot be read on, or a line cannot be printed.
use crate::in_memory::put;
use commands::import::{Ending, import};
use commands::import_progress::ImportProgress;
use commands::inventory::inventory;
use commands::memory::shelves_with;
use commands::memory_files::FilesInMemory;
use commands::sources::Sources;
use engine::Io;
use histories::Telling;
use outline::outlines::Outlines;
use std::alloc::{AllocError, Global};
use std::io::Read;
use std::str::from_utf8;
use std::test::Fail;
use test_support::doubles::{Sink, Source};
use world::shelves::Shelves;

const KEY: &str = "alphakey00000001";

fn files(alloc: Global) -> Result<FilesInMemory, AllocError> {
    let mut files = FilesInMemory::new(alloc);
    put(alloc, &mut files, "i.mod | module example.com/i;\nempty |")?;
    Ok(files)
}

/// Returns the first lines of a text, `count` at most.
fn first_lines(alloc: Global, text: &str, count: usize) -> Result<String, AllocError> {
    let mut first = String::new(alloc);
    for line in text.lines().take(count) {
        first.push_str(line)?;
        first.push('\n')?;
    }
    Ok(first)
}

/// Returns how many newlines are among the first bytes, `first` at most.
fn newlines(bytes: &[u8], first: usize) -> usize {
    bytes
        .iter()
        .take(first)
        .filter(|byte| **byte == b'\n')
        .count()
}

/// Three rows, the lines that are printed for them, and what the shelf sees afterwards.
const LIST: &[u8] =
    b"path,version,time,mod,zip\nexample.com/i,v1.0.0,,i.mod,empty\nexample.com/i,v1.1.0,,i.mod,empty\n\
      example.com/i,v1.2.0,,i.mod,empty\n";

const LINES: &str = "1 201 published\n2 201 published\n3 201 published\n";

const INVENTORY: &str = "\
path,version,shelf,class,time,mod_bytes,zip_bytes
example.com/i,v1.0.0,alpha,release,,21,0
example.com/i,v1.1.0,alpha,release,,21,0
example.com/i,v1.2.0,alpha,release,,21,0
";

/// Imports a list, and returns the lines that are printed and how the import ends.
fn imported<S: Shelves, F: Sources, L: Read + Drop>(
    alloc: Global,
    shelves: &mut S,
    files: &mut F,
    key: &str,
    list: L,
    mut output: Sink,
) -> Result<String, Fail> {
    let ending = ending_of(import(
        alloc,
        shelves,
        key,
        list,
        files,
        &ImportProgress::new(None),
        &mut Telling::new(&mut output),
    ));
    Ok(format!(in alloc; "{}{ending}", from_utf8(output.taken.as_slice())?)?)
}

/// Returns how an import ended, in words.
fn ending_of(ended: Result<Ending, Io>) -> &'static str {
    match ended {
        Ok(Ending::AllIn) => "all in",
        Ok(Ending::SomeOut) => "some out",
        Ok(Ending::BadRow) => "bad row",
        Err(_) => "io",
    }
}

/// Returns what the shelf of a key sees, or why the inventory fails.
fn seen_by<S: Outlines>(alloc: Global, shelves: &mut S, key: &str) -> Result<String, Fail> {
    match inventory(alloc, shelves, key) {
        Ok(text) => Ok(String::from_str(alloc, from_utf8(text.as_slice())?)?),
        Err(fault) => Ok(format!(in alloc; "{fault:?}")?),
    }
}

/// Imports a list, and returns what is printed, how the import ends, and what the shelf sees afterwards.
fn left_by<S: Outlines + Drop, L: Read + Drop, F: Sources>(
    alloc: Global,
    mut shelves: S,
    list: L,
    files: &mut F,
    output: Sink,
) -> Result<String, Fail> {
    let ended = imported(alloc, &mut shelves, files, KEY, list, output)?;
    let seen = seen_by(alloc, &mut shelves, KEY)?;
    Ok(format!(in alloc; "{}\n{}", ended.as_str(), seen.as_str())?)
}

/// Imports a list to shelves that have no entry, and returns what is printed, how it ends, and what the shelf sees
/// afterwards.
fn left<L: Read + Drop, F: Sources>(
    alloc: Global,
    list: L,
    files: &mut F,
    output: Sink,
) -> Result<String, Fail> {
    let shelves = shelves_with(alloc, "alpha", KEY)?;
    left_by(alloc, shelves, list, files, output)
}

/// Returns what is left if this was printed, the import ended so, and this many rows are done.
fn left_after(
    alloc: Global,
    printed: &str,
    ending: &str,
    rows: usize,
) -> Result<String, AllocError> {
    let seen = first_lines(alloc, INVENTORY, rows.saturating_add(1))?;
    format!(in alloc; "{printed}{ending}\n{}", seen.as_str())
}

/// Returns what is left if this many lines of the list were read, and the list then cannot be read on.
fn left_unread(alloc: Global, lines: usize) -> Result<String, AllocError> {
    let rows = lines.saturating_sub(1);
    let done = first_lines(alloc, LINES, rows)?;
    let printed = format!(in alloc; "{}{lines} 503 unavailable\n", done.as_str())?;
    left_after(alloc, printed.as_str(), "some out", rows)
}

/// Reports whether that is left if the list cannot be read on after this many reads.
fn stays<F: Sources>(alloc: Global, files: &mut F, reads: usize) -> Result<bool, Fail> {
    let mut list = Source::new(LIST, 1);
    list.reads = reads;
    let left = left(alloc, list, files, Sink::new(alloc, usize::MAX))?;
    let wanted = left_unread(alloc, newlines(LIST, reads))?;
    Ok(left.as_str() == wanted.as_str())
}

#[test]
fn rows_before_a_failed_read_stay(rt: HostRuntime) -> Result<(), Fail> {
    let mut files = files(rt.alloc())?;
    for reads in 0..LIST.len() + 1 {
        assert!(rt; stays(rt.alloc(), &mut files, reads)?, "at {reads}");
    }
    Ok(())
}

/// Two rows and a bad one, and the lines that are printed for them.
const BAD: &[u8] =
    b"path,version,time,mod,zip\nexample.com/i,v1.0.0,,i.mod,empty\nexample.com/i,v1.1.0,,i.mod,empty\n\
      example.com/i,v1.2.0\n";

const BAD_LINES: &str = "1 201 published\n2 201 published\n3 bad row\n";

/// Reports whether, with room for this much only, the beginning of the lines is printed, and the row is done whose line
/// breaks off.
fn breaks_off<F: Sources>(alloc: Global, files: &mut F, room: usize) -> Result<bool, Fail> {
    let left = left(alloc, BAD, files, Sink::new(alloc, room))?;
    let printed = BAD_LINES.get(..room).ok_or("no such place")?;
    let rows = newlines(BAD_LINES.as_bytes(), room)
        .saturating_add(1)
        .min(2);
    let wanted = left_after(alloc, printed, "io", rows)?;
    Ok(left.as_str() == wanted.as_str())
}

#[test]
fn a_row_whose_line_breaks_off_is_done(rt: HostRuntime) -> Result<(), Fail> {
    let mut files = files(rt.alloc())?;
    for room in 0..BAD_LINES.len() {
        assert!(rt; breaks_off(rt.alloc(), &mut files, room)?, "at {room}");
    }
    Ok(())
}

/// Reports whether the first row is the last that is done if its line is not flushed.
fn stops_unflushed<F: Sources>(alloc: Global, files: &mut F) -> Result<bool, Fail> {
    let mut output = Sink::new(alloc, usize::MAX);
    output.flushes = false;
    let left = left(alloc, BAD, files, output)?;
    let wanted = left_after(alloc, "1 201 published\n", "io", 1)?;
    Ok(left.as_str() == wanted.as_str())
}

#[test]
fn a_row_whose_line_is_not_flushed_is_the_last(rt: HostRuntime) -> Result<(), Fail> {
    let mut files = files(rt.alloc())?;
    assert!(rt; stops_unflushed(rt.alloc(), &mut files)?);
    Ok(())
}
