//! Sources of the files that a command reads, with a history of what was read.
ghost use Rattle.std.specs.Prelude.{◌≡◌, ◌<◌, ◌^◌, []};
ghost use Rattle.commands.specs.Sources as spec;
ghost use Rattle.commands.specs.declared.sources.SourceFault.TheVariants.{Memory};

use crate::front::{Front, ReadEnd, hear_front};
use histories::{Hear, Hearing};
use std::alloc::AllocError;
use std::fs::File;
use std::io::{self, ErrorKind};
use std::rt::HostRuntime;
use store_files::record::Record;
use world::bytes::Bytes;

/// Why a source gives no bytes for a file name.
#[derive(Clone, Copy, Debug, Drop, PartialEq, Eq)]
pub enum SourceFault {
    /// There is no such file, or it can't be read.
    NoFile,
    /// Memory ran out.
    Memory,
}

impl From<AllocError> for SourceFault {
    ghost from_gives = { λ _ fault. fault ≡ Memory };

    fn from(_error: AllocError) -> SourceFault {
        SourceFault::Memory
    }
}

/// What was done to a file.
#[derive(Drop)]
pub enum FileDeed<R> {
    /// It was opened, and this reader read it: to its end, or as far as a limit or the memory let it.
    Read(R),
    /// It was opened, and a read by this reader failed.
    Failed(R),
    /// The system did not open it.
    Refused,
    /// It was not opened, because memory ran out.
    Unfetched,
}

/// A source of files, which notes each file that it reads. Code over it that has no handle of the system reads no file
/// but what the history has.
pub trait Sources {
    ghost use Rattle.std.specs.Prelude.{◌<◌, ◌^◌, List};
    ghost use Rattle.commands.specs.Sources.{Adds, FileDone, ReadsFront};

    /// What was read so far, the oldest first.
    ghost history: { Self → List FileDone };

    /// Returns the first bytes of a file, at most `most` and one more, so that the caller sees that a text is too long,
    /// and how reading them ended. `NoFile` if there is no such file or it can't be opened, and `Memory` if memory runs
    /// out for that.
    fn front(&mut self, name: &str, most: u64) -> Result<Front, SourceFault>
        requires { most < 2 ^ 63 }
        ensures { Adds (history self.old) (history self.new) (ReadsFront most name.now result) };
}

/// Returns the bytes of a file, at most `most` and one more. `NoFile` if there is no such file or it can't be read, and
/// `Memory` if memory runs out.
#[tactic(auto, using(crate::proofs::SourceLemmas::file_reads))]
pub fn read_file<F: Sources>(sources: &mut F, name: &str, most: u64) -> Result<Bytes, SourceFault>
    requires { most < 2 ^ 63 }
    ensures { spec.Adds (F.history sources.old) (F.history sources.new) (spec.ReadsFile most name.now result) }
{
    let front = sources.front(name, most)?;
    match front.end {
        ReadEnd::Whole | ReadEnd::Full => Ok(front.bytes),
        ReadEnd::Broken(fault) => Err(fault),
    }
}

/// The files of the system. That `front` opens the file whose name it notes is read and not proved.
#[derive(Drop)]
pub struct SystemFiles<'a> {
    rt: &'a HostRuntime,
    noted: Record<FileDeed<Hearing<File>>>,
}

impl<'a> SystemFiles<'a> {
    /// Returns the files of the system, of which none was read.
    pub fn new(rt: &'a HostRuntime) -> SystemFiles<'a>
        ensures { ⟦<SystemFiles<'a> as Sources>⟧.history result ≡ [] }
    {
        SystemFiles {
            rt,
            noted: Record::new(),
        }
    }
}

impl<'a> Sources for SystemFiles<'a> {
    ghost use Rattle.commands.specs.Sources.{all_by};

    ghost history = { λ s. all_by ⟦<Hearing<File> as Hear>⟧.account s.noted.deeds };

    fn front(&mut self, name: &str, most: u64) -> Result<Front, SourceFault> {
        match File::open(self.rt, name) {
            Ok(file) => {
                let mut reader = Hearing::new(file);
                let front = hear_front(self.rt.alloc(), &mut reader, most);
                self.noted
                    .note(name.as_bytes(), &deed_of(front.end, reader));
                Ok(front)
            }
            Err(error) => {
                let fault = fault_of(&error);
                self.noted.note(name.as_bytes(), &unopened(fault));
                Err(fault)
            }
        }
    }
}

/// Returns the deed of a file that was opened and read, by how that ended.
pub(crate) fn deed_of<R: Drop>(end: ReadEnd, reader: R) -> FileDeed<R>
    ensures { result ≡ spec.deed_of end reader }
{
    match end {
        ReadEnd::Broken(SourceFault::NoFile) => FileDeed::Failed(reader),
        _ => FileDeed::Read(reader),
    }
}

/// Returns the deed of a file that was not opened.
pub(crate) fn unopened<R>(fault: SourceFault) -> FileDeed<R>
    ensures { result ≡ spec.unopened fault }
{
    match fault {
        SourceFault::NoFile => FileDeed::Refused,
        SourceFault::Memory => FileDeed::Unfetched,
    }
}

/// Returns why the system did not open a file.
fn fault_of(error: &io::Error) -> SourceFault {
    match error.kind() {
        ErrorKind::OutOfMemory => SourceFault::Memory,
        _ => SourceFault::NoFile,
    }
}
