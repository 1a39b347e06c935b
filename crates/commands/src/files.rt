//! Files that are named on the command line. They are looked at here, and never written.
ghost use Rattle.std.specs.Prelude.{◌↔◌, ◌≢◌, [], IsTrue, IfOk, IfSome};

use std::fs::{self, File};
use std::io::{self, ErrorKind, Read};
use std::os::unix::fs::MetadataExt;
use std::rt::HostRuntime;

/// Whether there is such a file, it can be read, and it has bytes. False for a folder, a device or a pipe: it opens
/// none of them, because opening a pipe waits for whoever writes to it.
pub fn holds_bytes(rt: &HostRuntime, path: &str) -> bool {
    match fs::metadata(rt, path) {
        Ok(found) if found.is_file() => {}
        _ => return false,
    }
    match File::open(rt, path) {
        Ok(mut file) => has_bytes(&mut file).unwrap_or(false),
        Err(_) => false,
    }
}

/// Whether there is a file with this name that has no bytes. Folders and devices do not count.
pub fn is_empty_file(rt: &HostRuntime, path: &str) -> bool {
    match fs::metadata(rt, path) {
        Ok(found) => found.is_file() && found.len() == 0,
        Err(_) => false,
    }
}

/// Whether there is no such file, or it has no bytes. False for a folder or a device.
pub fn is_missing_or_empty(rt: &HostRuntime, path: &str) -> bool {
    match fs::metadata(rt, path) {
        Ok(found) => found.is_file() && found.len() == 0,
        Err(error) => error.kind() == ErrorKind::NotFound,
    }
}

/// Returns how many bytes a file has, as the system reports it without opening the file. None if it reports nothing, or
/// for a folder or a device.
pub fn size_of_file(rt: &HostRuntime, path: &str) -> Option<u64> {
    match fs::metadata(rt, path) {
        Ok(found) if found.is_file() => Some(found.len()),
        _ => None,
    }
}

/// Whether both names lead to one file. False if one of them leads to none.
pub fn is_same_file(rt: &HostRuntime, path: &str, other: &str) -> bool {
    let (Ok(one), Ok(two)) = (fs::metadata(rt, path), fs::metadata(rt, other)) else {
        return false;
    };
    one.dev() == two.dev() && one.ino() == two.ino()
}

/// Whether a reader has bytes left.
fn has_bytes<R: Read>(reader: &mut R) -> io::Result<bool>
    ensures { IfOk result (λ has. IfSome (R.remaining reader.old) (λ bytes. IsTrue has ↔ (bytes ≢ []))) }
{
    let mut byte = [0];
    Ok(reader.read(&mut byte)? > 0)
}
