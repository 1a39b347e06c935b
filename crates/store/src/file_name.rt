//! The names under which the system has the files of a store.

use std::fs;
use std::io::{self, ErrorKind};
use std::rt::HostRuntime;

/// Returns the name of the log of the store at a path. As in SQLite, the log stands beside the file that the path leads
/// to, and not beside a link. Fails only if memory runs out.
pub fn log_name(rt: &HostRuntime, path: &str) -> io::Result<String> {
    let real = real_name(rt, path)?;
    Ok(format!(in rt.alloc(); "{}-wal", real.as_str())?)
}

/// Returns the name of a file with no link in it. If there is no file, or only a link that leads to none, it is the end
/// of the name that was given, behind its folder's name without links; if there is no folder, it is the name that was
/// given. Fails only if memory runs out.
pub fn real_name(rt: &HostRuntime, path: &str) -> io::Result<String> {
    match fs::canonicalize(rt, path) {
        Ok(real) => Ok(String::from_str(rt.alloc(), real.as_str())?),
        Err(error) if error.kind() == ErrorKind::OutOfMemory => Err(error),
        Err(_) => name_in_folder(rt, path),
    }
}

/// Returns the name of a file in its folder, whose name has no link in it. Fails only if memory runs out.
fn name_in_folder(rt: &HostRuntime, path: &str) -> io::Result<String> {
    let (folder, name) = match path.rsplit_once('/') {
        Some(("", name)) => ("/", name),
        Some(parts) => parts,
        None => (".", path),
    };
    match fs::canonicalize(rt, folder) {
        Ok(real) => Ok(format!(in rt.alloc(); "{}/{name}", real.as_str())?),
        Err(error) if error.kind() == ErrorKind::OutOfMemory => Err(error),
        Err(_) => Ok(String::from_str(rt.alloc(), path)?),
    }
}
