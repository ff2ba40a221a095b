// The file of a Unix socket: made with its permissions, and removed in the end.

use std::fs::{Metadata, Permissions};
use std::io;
use std::io::ErrorKind;
use std::net::Net;
use std::os::fd::{AsFd, AsRawFd, OwnedFd};
use std::os::unix::fs::{FileTypeExt, MetadataExt, PermissionsExt};
use std::os::unix::net::{SocketAddr, UnixListener, UnixStream};
use std::rt::Files;

// As many connections may wait to be accepted as the system allows.
const BACKLOG: i32 = -1;

/// The file of a socket that this program has made.
#[derive(Debug, Drop)]
pub(crate) struct SocketFile<'a> {
    path: &'a str,
    // By which it is told from a file that has taken its place.
    node: (u64, u64),
}

// The number of the file's device, and its own there.
fn node_of(found: &Metadata) -> (u64, u64) {
    (found.dev(), found.ino())
}

// Makes the socket's file, without letting a peer connect.
fn make<R: Files + Net>(rt: &R, path: &str) -> io::Result<OwnedFd> {
    let socket = rt.unix_socket()?;
    rt.bind_unix(socket.as_fd(), &SocketAddr::from_pathname(path)?)?;
    Ok(socket)
}

// Whether the file is one that a server has left, which is no more.
fn is_left_over<R: Files + Net>(rt: &R, path: &str) -> bool {
    match rt.symlink_metadata(path) {
        Ok(found) if found.file_type().is_socket() => match UnixStream::connect(rt, path) {
            Ok(_) => false,
            Err(reason) => reason.kind() == ErrorKind::ConnectionRefused,
        },
        _ => false,
    }
}

// The same, in the place of a file that a server has left.
fn make_anew<R: Files + Net>(rt: &R, path: &str) -> io::Result<OwnedFd> {
    match make(rt, path) {
        Err(reason) if reason.kind() == ErrorKind::AddrInUse && is_left_over(rt, path) => {
            rt.remove_file(path)?;
            make(rt, path)
        }
        made => made,
    }
}

// Sets the permissions of the socket's file, and lets peers connect from then on. std's `bind` would let them connect before.
fn let_in(rt: &impl Files, path: &str, mode: u32, socket: &OwnedFd) -> io::Result<(u64, u64)> {
    rt.set_permissions(path, Permissions::from_mode(mode))?;
    let node = node_of(&rt.symlink_metadata(path)?);
    if libc::net::listen(socket.as_raw_fd(), BACKLOG) < 0 {
        return Err(io::Error::from(ErrorKind::Other));
    }
    Ok(node)
}

impl<'a> SocketFile<'a> {
    /// Makes the file with these permissions, and listens. The file of a server that is no more is replaced; where any other file is
    /// there, or a server that listens, this fails and the file stays. A peer that the permissions don't let in is never let in.
    pub(crate) fn listen<R: Files + Net>(
        rt: &R,
        path: &'a str,
        mode: u32,
    ) -> io::Result<(UnixListener, SocketFile<'a>)> {
        let socket = make_anew(rt, path)?;
        match let_in(rt, path, mode, &socket) {
            Ok(node) => Ok((UnixListener::from(socket), SocketFile { path, node })),
            Err(reason) => {
                let _ = rt.remove_file(path);
                Err(reason)
            }
        }
    }

    /// Removes the file, unless another one has taken its place.
    pub(crate) fn remove(self, rt: &impl Files) {
        if let Ok(found) = rt.symlink_metadata(self.path) {
            if node_of(&found) == self.node {
                let _ = rt.remove_file(self.path);
            }
        }
    }
}
