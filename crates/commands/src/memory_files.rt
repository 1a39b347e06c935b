//! Files in memory, for the sources of a command.
ghost use Rattle.std.specs.Prelude.{◌≡◌, ◌<◌, ◌^◌, [], Ok, OnOk, OnErr, IfOk, option_copied};
ghost use Rattle.std.specs.FinMap as map;
ghost use Rattle.commands.specs.MemoryFiles as spec;
ghost use Rattle.commands.specs.Sources.{Adds, ReadsFront, all_by};
ghost use Rattle.commands.specs.declared.sources.FileDeed.TheVariants.{Read};

use crate::front::{Front, ReadEnd};
use crate::sources::{FileDeed, SourceFault, Sources, unopened};
use std::alloc::{AllocError, Global};
use std::collections::BTreeMap;
use std::marker::Model;
use store_files::record::Record;
use world::bytes::Bytes;

/// The bytes of files, by their names.
#[derive(Drop)]
pub struct NamedFiles {
    alloc: Global,
    files: BTreeMap<String, Bytes>,
}

impl Model for NamedFiles {
    ghost use Rattle.std.specs.Prelude.{ℕ, List};
    ghost use Rattle.std.specs.FinMap as map;
    ghost use Rattle.std.specs.Coded.{coded_list, coded_ℕ};
    ghost use Rattle.world.specs.World.{text_cmp};
    ghost use Rattle.world.specs.FinMaps.{by_text};

    ghost Value = { map.FinMap text_cmp (List ℕ) };

    ghost coded = { map.code (coded_list coded_ℕ) (coded_list coded_ℕ) };

    ghost view = { λ m. by_text m.files.entries };
}

impl NamedFiles {
    /// Returns no files. It takes no memory.
    fn new(alloc: Global) -> NamedFiles
        ensures { result ≡ map.empty }
    {
        NamedFiles {
            alloc,
            files: BTreeMap::new(alloc),
        }
    }

    /// Adds a file, in place of one with the same name. If memory runs out, it fails and the files stay as they were.
    fn insert(&mut self, name: &str, bytes: &[u8]) -> Result<(), AllocError>
        ensures ok { OnOk result (self.new ≡ map.insert self.old name.now bytes.now) }
        ensures err { OnErr result (self.new ≡ self.old) }
    {
        let name = String::from_str(self.alloc, name)?;
        let bytes = Bytes::copy_of(self.alloc, bytes)?;
        self.files.insert(name, bytes)?;
        Ok(())
    }

    /// Returns the bytes of a file, or None if there is no such file.
    fn get(&self, name: &str) -> Option<&Bytes>
        ensures { option_copied result ≡ map.get self.now name.now }
    {
        self.files.get(name)
    }

    /// Returns the first bytes of a file, at most `most` and one more, and whether these are all. `NoFile` if there is
    /// no such file, and `Memory` if memory runs out.
    fn front(&self, name: &str, most: u64) -> Result<Front, SourceFault>
        requires { most < 2 ^ 63 }
        ensures { spec.IsFrontOf most (map.get self.now name.now) result }
    {
        match self.get(name) {
            None => Err(SourceFault::NoFile),
            Some(bytes) => Ok(front_of(self.alloc, bytes.as_slice(), most)?),
        }
    }
}

/// Files in memory, with a history of what was read.
#[derive(Drop)]
pub struct FilesInMemory {
    files: NamedFiles,
    noted: Record<FileDeed<Front>>,
}

impl FilesInMemory {
    /// Returns a source without files, of which none was read. It takes no memory.
    pub fn new(alloc: Global) -> FilesInMemory
        ensures files { result.files ≡ map.empty }
        ensures history { ⟦<FilesInMemory as Sources>⟧.history result ≡ [] }
    {
        FilesInMemory {
            files: NamedFiles::new(alloc),
            noted: Record::new(),
        }
    }

    /// Adds a file, in place of one with the same name. If memory runs out, it fails and the files stay as they were.
    pub fn insert(&mut self, name: &str, bytes: &[u8]) -> Result<(), AllocError>
        ensures ok { OnOk result (self.new.files ≡ map.insert self.old.files name.now bytes.now) }
        ensures err { OnErr result (self.new.files ≡ self.old.files) }
        ensures history { self.new.noted ≡ self.old.noted }
    {
        self.files.insert(name, bytes)
    }
}

impl Sources for FilesInMemory {
    ghost use Rattle.commands.specs.Sources.{all_by};
    ghost use Rattle.commands.specs.MemoryFiles.{account_of};

    ghost history = { λ s. all_by account_of s.noted.deeds };

    fn front(&mut self, name: &str, most: u64) -> Result<Front, SourceFault>
        requires { most < 2 ^ 63 }
        ensures history { Adds
            (all_by spec.account_of self.old.noted.deeds) (all_by spec.account_of self.new.noted.deeds)
            (ReadsFront most name.now result) }
        // It returns the bytes of the file with this name, which stays as it was.
        ensures is { spec.IsFrontOf most (map.get self.old.files name.now) result }
        ensures same { self.new.files ≡ self.old.files }
    {
        match self.files.front(name, most) {
            Ok(front) => {
                let deed = FileDeed::Read(front);
                self.noted.note(name.as_bytes(), &deed);
                front_in(deed)
            }
            Err(fault) => {
                self.noted.note(name.as_bytes(), &unopened(fault));
                Err(fault)
            }
        }
    }
}

/// Returns what was read, by the deed of a file that was.
fn front_in(deed: FileDeed<Front>) -> Result<Front, SourceFault>
    ensures { (front : _) → deed ≡ Read front → result ≡ Ok front }
{
    match deed {
        FileDeed::Read(front) => Ok(front),
        FileDeed::Failed(_front) => Err(SourceFault::NoFile),
        FileDeed::Refused => Err(SourceFault::NoFile),
        FileDeed::Unfetched => Err(SourceFault::Memory),
    }
}

/// Returns the first bytes, at most `most` and one more, and whether these are all. Fails only if memory runs out.
fn front_of(alloc: Global, bytes: &[u8], most: u64) -> Result<Front, AllocError>
    requires { most < 2 ^ 63 }
    ensures { IfOk result (λ front. spec.IsCutAt most bytes.now front) }
{
    if (bytes.len() as u64) <= most {
        return Ok(Front {
            bytes: Bytes::copy_of(alloc, bytes)?,
            end: ReadEnd::Whole,
        });
    }
    Ok(Front {
        bytes: Bytes::copy_of(alloc, &bytes[..most as usize + 1])?,
        end: ReadEnd::Full,
    })
}
