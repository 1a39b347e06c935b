//! `import` of a list in a file.
ghost use Rattle.std.specs.Prelude.{◌≡◌, [], OnOk, Some};
ghost use Rattle.commands.specs.ImportFile as spec;
ghost use Rattle.commands.specs.Printed.{FailsByOutput};

use crate::front::Front;
use crate::import::{Ending, import};
use crate::import_progress::ImportProgress;
use crate::refusal::CommandRefusal;
use crate::sources::Sources;
use engine::Io;
use histories::Tell;
use std::alloc::Global;
use std::io::{self, ErrorKind, Read};
use world::shelves::Shelves;

/// More bytes than a list has.
const MAX_LIST: u64 = (1 << 63) - 1;

/// The bytes of a list that were read, behind which a read fails if these are not all.
#[derive(Drop)]
struct ListReader<'a> {
    bytes: &'a [u8],
    is_whole: bool,
}

impl<'a> Read for ListReader<'a> {
    ghost remaining = { λ r. Some r.bytes.now };

    fn read(&mut self, buf: &mut [u8]) -> io::Result<usize> {
        if self.bytes.is_empty() && !self.is_whole {
            return Err(io::Error::from(ErrorKind::UnexpectedEof));
        }
        self.bytes.read(buf)
    }
}

/// Reads the list in a file, publishes each row with the files that it names, and returns whether the whole list was
/// read and every row accepted. It reads no other file. `BadRow` if the header or a row is bad. `Io` if the list can't
/// be opened, and then nothing is done, or if a line can't be printed: then a beginning of it is printed, or all of it.
/// If not all of the list can be read, or memory runs out for it, the rows before that are done. On a terminal
/// `progress` shows how far it is.
pub fn import_file<S: Shelves, F: Sources, O: Tell>(
    alloc: Global,
    shelves: &mut S,
    key: &str,
    list: &str,
    sources: &mut F,
    progress: &ImportProgress<'_>,
    output: &mut O,
) -> Result<bool, CommandRefusal>
    ensures imports { spec.ImportsFile S.shown shelves.old shelves.new key.now list.now
        (F.history sources.old) (F.history sources.new) (O.contents output.old) (O.contents output.new) result }
    // It ends with `Io` only if a call of the output failed, or the list was not opened.
    ensures cause { spec.FailsUnopenedOrByOutput S.shown shelves.old shelves.new key.now list.now
        (F.history sources.old) (F.history sources.new) (O.contents output.old) (O.contents output.new)
        (O.writes output.old) (O.writes output.new) result }
    // What was printed is flushed.
    ensures flushed { (O.writes output.old).unflushed ≡ [] → OnOk result ((O.writes output.new).unflushed ≡ []) }
{
    match sources.front(list, MAX_LIST) {
        Ok(front) => import_front(alloc, shelves, key, &front, sources, progress, output),
        Err(_) => Err(CommandRefusal::Io),
    }
}

/// Publishes the rows of what was read of a list, and returns whether that is all of it and every row was accepted.
/// Fails as `import_file` does once the list is read.
fn import_front<S: Shelves, F: Sources, O: Tell>(
    alloc: Global,
    shelves: &mut S,
    key: &str,
    front: &Front,
    sources: &mut F,
    progress: &ImportProgress<'_>,
    output: &mut O,
) -> Result<bool, CommandRefusal>
    ensures imports { spec.ImportsBytes (S.shown shelves.old) (S.shown shelves.new) key.now front.now
        (F.history sources.old) (F.history sources.new) (O.contents output.old) (O.contents output.new) result }
    ensures cause { FailsByOutput (O.writes output.old) (O.writes output.new) result }
    ensures flushed { (O.writes output.old).unflushed ≡ [] → OnOk result ((O.writes output.new).unflushed ≡ []) }
{
    let bytes = front.bytes.as_slice();
    let is_whole = front.end.is_whole();
    progress.begin(bytes);
    let rows = ListReader { bytes, is_whole };
    let ended = import(alloc, shelves, key, rows, sources, progress, output);
    progress.clear();
    import_ending(is_whole, ended)
}

/// Returns the result of the command for how the import ended, and for whether all of the list was read.
fn import_ending(is_whole: bool, ended: Result<Ending, Io>) -> Result<bool, CommandRefusal>
    ensures { result ≡ spec.import_ending is_whole ended }
{
    match ended {
        Ok(Ending::AllIn) => Ok(is_whole),
        Ok(Ending::SomeOut) => Ok(false),
        Ok(Ending::BadRow) => Err(CommandRefusal::BadRow),
        Err(_) => Err(CommandRefusal::Io),
    }
}
