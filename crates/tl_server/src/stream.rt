// Connections over a port of this machine, or over a Unix socket.

ghost use Rattle.std.specs.Io.{ReadsAtMost, WritesAtMost};

use std::io;
use std::io::{Read, Write};
use std::net::{Ipv4Addr, Net, Shutdown, SocketAddr, SocketAddrV4, TcpListener, TcpStream};
use std::os::unix::net::UnixStream;
use std::time::Duration;

/// Where a server waits for connections.
#[derive(Clone, Copy, Debug)]
pub enum Address<'a> {
    /// 127.0.0.1 and this port. Every user of the machine can connect.
    Port(u16),
    /// The file of a Unix socket. Who may write the file can connect.
    Socket(&'a str),
}

/// The address of a port of this machine.
pub(crate) fn local(port: u16) -> SocketAddr {
    SocketAddr::V4(SocketAddrV4::new(Ipv4Addr::LOCALHOST, port))
}

/// A connection.
#[derive(Drop)]
pub enum Stream {
    Port(TcpStream),
    Socket(UnixStream),
}

impl Stream {
    /// A connection to a server.
    pub(crate) fn connect<R: Net<Listener = TcpListener, Stream = TcpStream>>(
        rt: &R,
        address: Address<'_>,
    ) -> io::Result<Stream> {
        match address {
            Address::Port(port) => Ok(Stream::Port(rt.connect(local(port))?)),
            Address::Socket(path) => Ok(Stream::Socket(UnixStream::connect(rt, path)?)),
        }
    }

    /// The same connection once more.
    pub(crate) fn try_clone(&self) -> io::Result<Stream> {
        match self {
            Stream::Port(stream) => Ok(Stream::Port(stream.try_clone()?)),
            Stream::Socket(stream) => Ok(Stream::Socket(stream.try_clone()?)),
        }
    }

    /// Ends what comes from the peer, as if that had ended it.
    pub(crate) fn end_reading(&self) -> io::Result<()> {
        match self {
            Stream::Port(stream) => stream.shutdown(Shutdown::Read),
            Stream::Socket(stream) => stream.shutdown(Shutdown::Read),
        }
    }

    /// Sends each answer at once. Over a Unix socket that is always so.
    pub(crate) fn send_at_once(&self) -> io::Result<()> {
        match self {
            Stream::Port(stream) => stream.set_nodelay(true),
            Stream::Socket(_) => Ok(()),
        }
    }

    /// A read that waits longer fails.
    pub(crate) fn set_read_timeout(&self, longest: Option<Duration>) -> io::Result<()> {
        match self {
            Stream::Port(stream) => stream.set_read_timeout(longest),
            Stream::Socket(stream) => stream.set_read_timeout(longest),
        }
    }

    /// A write that waits longer fails.
    pub(crate) fn set_write_timeout(&self, longest: Option<Duration>) -> io::Result<()> {
        match self {
            Stream::Port(stream) => stream.set_write_timeout(longest),
            Stream::Socket(stream) => stream.set_write_timeout(longest),
        }
    }

    // Takes some of what the peer has sent.
    fn receive(&self, buf: &mut [u8]) -> io::Result<usize>
        ensures { ReadsAtMost result buf.new }
    {
        match self {
            Stream::Port(stream) => {
                let mut stream = stream;
                stream.read(buf)
            }
            Stream::Socket(stream) => {
                let mut stream = stream;
                stream.read(buf)
            }
        }
    }

    // Sends some of a text to the peer.
    fn send(&self, text: &[u8]) -> io::Result<usize>
        ensures { WritesAtMost result text.now }
    {
        match self {
            Stream::Port(stream) => {
                let mut stream = stream;
                stream.write(text)
            }
            Stream::Socket(stream) => {
                let mut stream = stream;
                stream.write(text)
            }
        }
    }
}

impl Read for &Stream {
    fn read(&mut self, buf: &mut [u8]) -> io::Result<usize> {
        let stream: &Stream = *self;
        stream.receive(buf)
    }
}

impl Write for &Stream {
    fn write(&mut self, buf: &[u8]) -> io::Result<usize> {
        let stream: &Stream = *self;
        stream.send(buf)
    }

    fn flush(&mut self) -> io::Result<()> {
        Ok(())
    }
}
