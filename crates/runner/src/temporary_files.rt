//! Files of a store that this run makes for itself. They lose their names as soon as they are open, so the system frees
//! them when the run ends, however it ends after that. A run that is killed before leaves them.

use std::hash::{BuildHasher, RandomState};
use std::rt::HostRuntime;
use std::{fs, io};

/// The names of a database file and its log, which no other file has.
#[derive(Drop)]
pub struct TemporaryFiles {
    pub path: String,
    pub log: String,
}

impl TemporaryFiles {
    /// Returns names in the folder of a file. They are short, because the file's own name may be as long as the system
    /// takes. Fails if the system has no random number, or if memory runs out.
    pub(crate) fn beside(rt: &HostRuntime, file: &str) -> io::Result<TemporaryFiles> {
        let number = RandomState::new(rt)?.hash_one(&0u8);
        let path = match file.rsplit_once('/') {
            Some((folder, _)) => format!(in rt.alloc(); "{folder}/goshelf-{number}")?,
            None => format!(in rt.alloc(); "goshelf-{number}")?,
        };
        let log = format!(in rt.alloc(); "{}-wal", path.as_str())?;
        Ok(TemporaryFiles { path, log })
    }

    /// Takes both names away. Errors are ignored.
    pub(crate) fn unlink(&self, rt: &HostRuntime) {
        let _ = fs::remove_file(rt, self.path.as_str());
        let _ = fs::remove_file(rt, self.log.as_str());
    }
}
