//! Imports a list.
use commands::import::import;
use commands::import_progress::ImportProgress;
use commands::memory_files::FilesInMemory;
use histories::Telling;
use std::alloc::Global;
use std::str::from_utf8;
use std::test::Fail;
use world::shelves::Shelves;

/// The rows of the list. The first has bit 1, the second bit 2.
const LIST: &str = "\
example.com/new,v1.0.0,,n.mod,n.zip
example.com/new,v1.1.0,,n.mod,n.zip
";

/// Returns the list of the rows whose bits are chosen.
fn list_of(alloc: Global, chosen: u8) -> Result<String, Fail> {
    let mut list = String::from_str(alloc, "path,version,time,mod,zip\n")?;
    let mut bit = 1u8;
    for row in LIST.lines() {
        if chosen & bit != 0 {
            list.push_str(row)?;
            list.push_str("\n")?;
        }
        bit = bit.wrapping_mul(2);
    }
    Ok(list)
}

/// Returns the bits of the lines that say that a row is published.
fn published(lines: &str) -> u8 {
    let mut published = 0;
    let mut bit = 1u8;
    for line in lines.lines() {
        if line.contains(" 201 ") {
            published |= bit;
        }
        bit = bit.wrapping_mul(2);
    }
    published
}

/// Returns the files that the rows name.
fn named_files(alloc: Global) -> Result<FilesInMemory, Fail> {
    let mut files = FilesInMemory::new(alloc);
    files.insert("n.mod", b"module example.com/new\n")?;
    files.insert("n.zip", b"zip")?;
    Ok(files)
}

/// Imports the rows whose bits are chosen, and returns the bits of the lines that say that a row is published.
pub fn imported<S: Shelves>(alloc: Global, shelves: &mut S, chosen: u8) -> Result<u8, Fail> {
    let list = list_of(alloc, chosen)?;
    let mut files = named_files(alloc)?;
    let mut output = Vec::new(alloc);
    import(
        alloc,
        shelves,
        "alphakey00000001",
        list.as_bytes(),
        &mut files,
        &ImportProgress::new(None),
        &mut Telling::new(&mut output),
    )?;
    Ok(published(from_utf8(output.as_slice())?))
}
