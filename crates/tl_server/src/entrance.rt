// Where connections come from: a port of this machine, or the file of a Unix socket.

ghost use Rattle.std.specs.Prelude.{◌≡◌, IfErr};
ghost use Rattle.tl_server.specs.declared.fault.ListenFault.TheVariants.{NoPort};

use crate::fault::ListenFault;
use crate::socket_file::SocketFile;
use crate::stream::{Address, Stream, local};
use std::io;
use std::net::{Net, Shutdown, TcpListener, TcpStream};
use std::os::fd::OwnedFd;
use std::os::unix::net::{UnixListener, UnixStream};
use std::rt::Files;

/// What waits for connections. The system lets clients connect from its start on.
#[derive(Drop)]
pub(crate) enum Listener {
    Port { port: u16, listener: TcpListener },
    Socket(UnixListener),
}

impl Listener {
    /// The next connection.
    pub(crate) fn accept(&self) -> io::Result<Stream> {
        match self {
            Listener::Port { listener, .. } => {
                let (stream, _) = listener.accept()?;
                Ok(Stream::Port(stream))
            }
            Listener::Socket(listener) => {
                let (stream, _) = listener.accept()?;
                Ok(Stream::Socket(stream))
            }
        }
    }

    /// Waits for a connection no more: where none has come, `accept` fails.
    pub(crate) fn set_nonblocking(&self) -> io::Result<()> {
        match self {
            Listener::Port { listener, .. } => listener.set_nonblocking(true),
            Listener::Socket(listener) => listener.set_nonblocking(true),
        }
    }

    /// Ends a wait in `accept` on another thread, if there is one: by a connection to the port, or by the end of the socket, whose file
    /// may have gone.
    pub(crate) fn wake<R: Net<Listener = TcpListener, Stream = TcpStream>>(&self, rt: &R) {
        match self {
            Listener::Port { port, .. } => drop(rt.connect(local(*port))),
            Listener::Socket(listener) => {
                // If this fails, it is tried again soon.
                if let Ok(listener) = listener.try_clone() {
                    let _ = UnixStream::from(OwnedFd::from(listener)).shutdown(Shutdown::Read);
                }
            }
        }
    }
}

// Listens at a port of this machine, or if it is 0 at one that the system chooses, and which port that is.
fn listen_at<R: Net<Listener = TcpListener, Stream = TcpStream>>(
    rt: &R,
    port: u16,
) -> io::Result<(u16, TcpListener)> {
    let listener = rt.bind(local(port))?;
    let port = listener.local_addr()?.port();
    Ok((port, listener))
}

/// A listener, where it listens, and the file that was made for it.
#[derive(Drop)]
pub(crate) struct Entrance<'a> {
    pub(crate) listener: Listener,
    pub(crate) address: Address<'a>,
    file: Option<SocketFile<'a>>,
}

impl<'a> Entrance<'a> {
    /// Listens at the address; for port 0 the system chooses a port. The file of a socket gets these permissions. 33 if that can't be done.
    pub(crate) fn open<R>(
        rt: &R,
        address: Address<'a>,
        mode: u32,
    ) -> Result<Entrance<'a>, ListenFault>
    where
        R: Files + Net<Listener = TcpListener, Stream = TcpStream>,
        ensures { IfErr result (λ e. e ≡ NoPort) }
    {
        match address {
            Address::Port(port) => match listen_at(rt, port) {
                Ok((port, listener)) => Ok(Entrance {
                    listener: Listener::Port { port, listener },
                    address: Address::Port(port),
                    file: None,
                }),
                Err(_) => Err(ListenFault::NoPort),
            },
            Address::Socket(path) => match SocketFile::listen(rt, path, mode) {
                Ok((listener, file)) => Ok(Entrance {
                    listener: Listener::Socket(listener),
                    address,
                    file: Some(file),
                }),
                Err(_) => Err(ListenFault::NoPort),
            },
        }
    }

    /// Listens no more, and removes the file.
    pub(crate) fn close(self, rt: &impl Files) {
        let Entrance {
            listener,
            address: _,
            file,
        } = self;
        if let Some(file) = file {
            file.remove(rt);
        }
        drop(listener);
    }
}
