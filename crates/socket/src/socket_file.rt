//! The socket of the operators in the file system.
use std::fs::{self, Metadata, Permissions};
use std::io::{self, ErrorKind};
use std::os::unix::fs::{FileTypeExt, MetadataExt, PermissionsExt};
use std::os::unix::net::{UnixListener, UnixStream};
use std::rt::HostRuntime;

/// What tells the file of a socket from all others, as long as somebody listens there.
#[derive(Clone, Copy, Debug, Drop, PartialEq, Eq)]
pub struct SocketFile {
    device: u64,
    inode: u64,
}

/// Makes a socket with this file name, which only its owner may connect to, and returns its listener and its file. It
/// first removes a socket that nobody listens at any more. Fails if somebody listens there, if the name is that of
/// another file or has more than 107 bytes, or if the system refuses the socket or its mode; then it leaves no socket.
///
/// Between making the socket and changing its mode, the umask decides who may connect.
pub(crate) fn operators_at(rt: &HostRuntime, path: &str) -> io::Result<(UnixListener, SocketFile)> {
    make_way(rt, path)?;
    let operators = bound(rt, path)?;
    let made = socket_file_at(rt, path)?;
    match fs::set_permissions(rt, path, Permissions::from_mode(0o600)) {
        Ok(()) => Ok((operators, made)),
        Err(error) => {
            remove_socket(rt, path, made);
            Err(error)
        }
    }
}

/// Makes a socket with this file name, where nothing had it, and listens there. Fails if the system makes no socket or
/// lets nobody listen. Then it leaves no socket but that of another server, which had the name first.
fn bound(rt: &HostRuntime, path: &str) -> io::Result<UnixListener> {
    match UnixListener::bind(rt, path) {
        Ok(operators) => Ok(operators),
        Err(error) => {
            if error.kind() != ErrorKind::AddrInUse {
                let _ = make_way(rt, path);
            }
            Err(error)
        }
    }
}

/// Returns what has this name, which may be any file. Fails if the system does.
fn socket_file_at(rt: &HostRuntime, path: &str) -> io::Result<SocketFile> {
    let found = fs::symlink_metadata(rt, path)?;
    Ok(SocketFile {
        device: found.dev(),
        inode: found.ino(),
    })
}

/// Removes a socket that an earlier server left. Fails if the name is that of another file, or if somebody listens
/// there.
fn make_way(rt: &HostRuntime, path: &str) -> io::Result<()> {
    match fs::symlink_metadata(rt, path) {
        Ok(found) if found.file_type().is_socket() => remove_left(rt, path, &found),
        Ok(_) => Err(io::Error::from(ErrorKind::AlreadyExists)),
        Err(e) if e.kind() == ErrorKind::NotFound => Ok(()),
        Err(e) => Err(e),
    }
}

/// Removes a socket that was found, if nobody listens there, and otherwise fails. One that another server put in its
/// place before this is known stays too.
fn remove_left(rt: &HostRuntime, path: &str, found: &Metadata) -> io::Result<()> {
    match UnixStream::connect(rt, path) {
        Ok(_) => Err(io::Error::from(ErrorKind::AddrInUse)),
        Err(e) if e.kind() == ErrorKind::ConnectionRefused => {
            if is_as_found(&fs::symlink_metadata(rt, path)?, found) {
                fs::remove_file(rt, path)
            } else {
                Err(io::Error::from(ErrorKind::AddrInUse))
            }
        }
        Err(e) => Err(e),
    }
}

/// Whether a file is the one that was found. The system may give the number of a socket that was removed to the next
/// one, but not its time.
fn is_as_found(now: &Metadata, found: &Metadata) -> bool {
    now.dev() == found.dev()
        && now.ino() == found.ino()
        && now.ctime() == found.ctime()
        && now.ctime_nsec() == found.ctime_nsec()
}

/// Removes a socket that was made, if it still has its name. Errors are ignored.
pub(crate) fn remove_socket(rt: &HostRuntime, path: &str, made: SocketFile) {
    match socket_file_at(rt, path) {
        Ok(found) if found == made => {
            let _ = fs::remove_file(rt, path);
        }
        _ => {}
    }
}
