//! Lines over connections.

use crate::lines::{ANSWERS, BOUNDS, LINES, split_lines};
use std::alloc::Global;
use std::io::{Read, Write};
use std::net::{Ipv4Addr, Net, Shutdown, SocketAddr, SocketAddrV4, TcpListener, TcpStream};
use std::process::Abort;
use std::rt::Files;
use std::sync::Wait;
use std::test::Fail;
use std::thread::Threads;
use std::time::{Clock, Duration};
use std::{io, thread};
use tl_server::{ListenFault, ServeFault, SocketSink, SocketSource, Stream, listen, serve};
use tl_test_data::{FORK, ONE_NODE};
use tl_test_engines::{Ended, use_up_sessions, with_callers, with_engine_on_threads};
use tl_workers::{Engine, Session};

const REFUSED: &[u8] = b"{\"error\":[901]}\n";

/// How many seconds to wait for an answer.
const PATIENCE: u64 = 10;

fn address(port: u16) -> SocketAddr {
    SocketAddr::V4(SocketAddrV4::new(Ipv4Addr::LOCALHOST, port))
}

/// A port that nobody uses.
fn free_port<R: Net<Listener = TcpListener, Stream = TcpStream>>(rt: &R) -> io::Result<u16> {
    let listener = rt.bind(address(0))?;
    Ok(listener.local_addr()?.port())
}

/// A connection, made as soon as the server listens.
fn connect<R: Net<Listener = TcpListener, Stream = TcpStream> + Clock>(
    rt: &R,
    port: u16,
) -> io::Result<TcpStream> {
    for _ in 0..1000u32 {
        if let Ok(stream) = rt.connect(address(port)) {
            stream.set_read_timeout(Some(Duration::from_secs(PATIENCE)))?;
            return Ok(stream);
        }
        thread::sleep(rt, Duration::from_millis(5));
    }
    rt.connect(address(port))
}

/// Checks that the next bytes that come are these.
fn comes(rt: &impl Abort, stream: &mut TcpStream, bytes: &[u8]) -> io::Result<()> {
    for byte in bytes {
        let mut next = [0u8; 1];
        stream.read_exact(&mut next)?;
        assert_eq!(rt; next[0], *byte);
    }
    Ok(())
}

/// Checks that nothing more comes.
fn ends(rt: &impl Abort, stream: &mut TcpStream) -> io::Result<()> {
    let mut next = [0u8; 1];
    assert_eq!(rt; stream.read(&mut next)?, 0);
    Ok(())
}

/// Sends a line that isn't a request, and takes its answer.
fn greet(rt: &impl Abort, stream: &mut TcpStream) -> io::Result<()> {
    stream.write_all(b"hello\n")?;
    comes(rt, stream, REFUSED)
}

fn sessions_of(served: Result<Vec<Session>, ListenFault>) -> Result<Vec<Session>, Fail> {
    match served {
        Ok(sessions) => Ok(sessions),
        Err(_) => Err("the port can't be opened".into()),
    }
}

/// Runs a server of `connections` connections on this engine, while `ask` talks to its port. Returns the sessions.
fn listening<R, F>(
    rt: &R,
    alloc: Global,
    engine: &Engine,
    connections: u16,
    ask: F,
) -> Result<Vec<Session>, Fail>
where
    R: Files + Net<Listener = TcpListener, Stream = TcpStream> + Threads + Wait + Sync + Abort,
    F: FnOnce(u16) -> io::Result<()> + Send,
    requires { (f : _) (x : _) → F.pre f x }
{
    let port = free_port(rt)?;
    // If a connection fails, the server may wait for ever. So the test ends at once.
    let ((), served) = thread::join(
        rt,
        || assert!(rt; ask(port).is_ok(), "a connection fails"),
        || listen(rt, alloc, port, connections, engine),
    );
    sessions_of(served)
}

/// Runs a server of `connections` connections on a tree, while `ask` talks to its port. Then the engine closes with the sessions.
fn with_server<R, F, G>(
    rt: &R,
    alloc: Global,
    tree: &str,
    connections: u16,
    ask: F,
    judge: G,
) -> Result<(), Fail>
where
    R: Files + Net<Listener = TcpListener, Stream = TcpStream> + Threads + Wait + Sync + Abort,
    F: FnOnce(u16) -> io::Result<()> + Send,
    G: FnOnce(&Ended) -> Result<(), Fail>,
    requires ask { (f : _) (x : _) → F.pre f x }
    requires judge { G.IsAlwaysCallable judge }
{
    with_callers(
        rt,
        alloc,
        tree,
        &[],
        |engine| -> Result<Vec<Session>, Fail>
            requires { (f : _) (x : _) → F.pre f x }
        { listening(rt, alloc, engine, connections, ask) },
        judge,
    )
}

/// Checks that the engine has closed with `sessions` sessions.
fn closes_with(rt: &impl Abort, ended: &Ended, sessions: usize) -> Result<(), Fail> {
    assert_eq!(rt; ended.sessions().len(), sessions);
    Ok(())
}

/// Sends all lines and their end; all answers come back.
fn all_lines<R: Net<Listener = TcpListener, Stream = TcpStream> + Clock + Abort>(
    rt: &R,
    port: u16,
) -> io::Result<()> {
    let mut stream = connect(rt, port)?;
    stream.write_all(LINES)?;
    stream.shutdown(Shutdown::Write)?;
    comes(rt, &mut stream, ANSWERS)?;
    ends(rt, &mut stream)
}

#[test]
fn all_lines_over_a_connection(rt: HostRuntime) -> Result<(), Fail> {
    with_server(
        &rt,
        rt.alloc(),
        ONE_NODE,
        1,
        |port| all_lines(&rt, port),
        |ended| closes_with(&rt, ended, 1),
    )
}

/// Eight connections stay open; the ninth is answered after one of them has ended.
fn nine<R: Net<Listener = TcpListener, Stream = TcpStream> + Clock + Abort>(
    rt: &R,
    alloc: Global,
    port: u16,
) -> io::Result<()> {
    let mut open = Vec::with_capacity(alloc, 8).expect(rt, "memory for eight connections");
    for _ in 0..8u32 {
        let mut stream = connect(rt, port)?;
        greet(rt, &mut stream)?;
        open.push(stream).expect(rt, "memory for a connection");
    }
    let mut ninth = connect(rt, port)?;
    ninth.set_read_timeout(Some(Duration::from_millis(200)))?;
    ninth.write_all(b"hello\n")?;
    let mut answer = [0u8; 1];
    assert!(rt; ninth.read_exact(&mut answer).is_err());
    drop(open.pop());
    ninth.set_read_timeout(Some(Duration::from_secs(PATIENCE)))?;
    comes(rt, &mut ninth, REFUSED)
}

#[test]
fn a_ninth_connection_waits(rt: HostRuntime) -> Result<(), Fail> {
    with_server(
        &rt,
        rt.alloc(),
        ONE_NODE,
        9,
        |port| nine(&rt, rt.alloc(), port),
        |ended| closes_with(&rt, ended, 9),
    )
}

/// Checks that the remaining bytes are the answer to a call, with that reply.
fn replies(rt: &impl Abort, stream: &mut TcpStream, reply: &[u8]) -> io::Result<()> {
    stream.shutdown(Shutdown::Write)?;
    comes(rt, stream, b"{\"call\":")?;
    // Which of the two calls has which number is open.
    let mut call = [0u8; 1];
    stream.read_exact(&mut call)?;
    assert!(rt; call[0] == b'0' || call[0] == b'1');
    comes(rt, stream, reply)?;
    ends(rt, stream)
}

/// Two open connections ask for a call each, before either reads its answer.
fn two_at_once<R: Net<Listener = TcpListener, Stream = TcpStream> + Clock + Abort>(
    rt: &R,
    port: u16,
) -> io::Result<()> {
    let mut one = connect(rt, port)?;
    let mut other = connect(rt, port)?;
    let (register, _) = split_lines(LINES, 1);
    one.write_all(register)?;
    comes(rt, &mut one, BOUNDS)?;
    one.write_all(b"{\"args\":[1,3],\"op\":\"call\",\"proc\":\"add\"}\n")?;
    other.write_all(b"{\"args\":[2,3],\"op\":\"call\",\"proc\":\"add\"}\n")?;
    replies(rt, &mut one, b",\"reply\":[13]}\n")?;
    replies(rt, &mut other, b",\"reply\":[23]}\n")
}

/// Both calls are in the engine's order, and its tree has what they added.
fn has_both(rt: &impl Abort, ended: &Ended) -> Result<(), Fail> {
    let order = ended.order();
    assert!(rt; order == [0, 1].as_slice() || order == [1, 0].as_slice());
    assert_eq!(rt;
        ended.records(),
        [
            [0, 0, 0, 0, 0, 0, 0, 0],
            [13, 0, 0, 0, 0, 0, 0, 0],
            [23, 0, 0, 0, 0, 0, 0, 0]
        ]
        .as_slice()
    );
    closes_with(rt, ended, 2)
}

#[test]
fn two_connections_at_once_get_their_own_replies(rt: HostRuntime) -> Result<(), Fail> {
    with_server(
        &rt,
        rt.alloc(),
        FORK,
        2,
        |port| two_at_once(&rt, port),
        |ended| has_both(&rt, ended),
    )
}

/// Listens on a port that is in use.
fn listen_on_a_port_that_is_had<R>(
    rt: &R,
    alloc: Global,
    engine: &Engine,
) -> Result<Vec<Session>, Fail>
where
    R: Files + Net<Listener = TcpListener, Stream = TcpStream> + Threads + Wait + Sync + Abort,
{
    let listener = rt.bind(address(0))?;
    let port = listener.local_addr()?.port();
    let served = listen(rt, alloc, port, 1, engine);
    assert!(rt; matches!(&served, Err(ListenFault::NoPort)));
    Ok(Vec::new(alloc))
}

#[test]
fn a_port_that_is_had_is_refused(rt: HostRuntime) -> Result<(), Fail> {
    with_callers(
        &rt,
        rt.alloc(),
        ONE_NODE,
        &[],
        |engine| listen_on_a_port_that_is_had(&rt, rt.alloc(), engine),
        |ended| closes_with(&rt, ended, 0),
    )
}

/// A peer that reads its answers and leaves without a `close`; then another one.
fn one_after_another<R>(rt: &R, port: u16) -> io::Result<()>
where
    R: Net<Listener = TcpListener, Stream = TcpStream> + Clock + Abort,
{
    let (lines, _) = split_lines(LINES, 2);
    let (answers, _) = split_lines(ANSWERS, 2);
    let mut first = connect(rt, port)?;
    first.write_all(lines)?;
    comes(rt, &mut first, answers)?;
    drop(first);
    let mut second = connect(rt, port)?;
    second.write_all(b"{\"args\":[0,0],\"op\":\"call\",\"proc\":\"add\"}\n")?;
    comes(rt, &mut second, b"{\"call\":1,\"reply\":[8]}\n")
}

#[test]
fn a_peer_that_goes_away_leaves_its_calls_done(rt: HostRuntime) -> Result<(), Fail> {
    with_server(
        &rt,
        rt.alloc(),
        ONE_NODE,
        2,
        |port| one_after_another(&rt, port),
        |ended| closes_with(&rt, ended, 2),
    )
}

/// A connection to the server's address, and one to another address of this machine, which fails.
fn local_alone<R>(rt: &R, port: u16) -> io::Result<()>
where
    R: Net<Listener = TcpListener, Stream = TcpStream> + Clock + Abort,
{
    let mut stream = connect(rt, port)?;
    let other = SocketAddr::V4(SocketAddrV4::new(Ipv4Addr::new(127, 0, 0, 2), port));
    assert!(rt; rt.connect(other).is_err());
    greet(rt, &mut stream)
}

#[test]
fn no_other_address_is_listened_on(rt: HostRuntime) -> Result<(), Fail> {
    with_server(
        &rt,
        rt.alloc(),
        ONE_NODE,
        1,
        |port| local_alone(&rt, port),
        |ended| closes_with(&rt, ended, 1),
    )
}

/// A peer that sends `lines`, reads `first` and leaves while more of its answers has come. So its connection is reset.
fn reset(rt: &impl Abort, stream: TcpStream, lines: &[u8], first: &[u8]) -> io::Result<()> {
    let mut stream = stream;
    stream.write_all(lines)?;
    comes(rt, &mut stream, first)
}

/// Serves that connection.
fn serve_stream<R: Threads + Wait + Sync>(
    rt: &R,
    alloc: Global,
    stream: &Stream,
    engine: &Engine,
    session: &mut Session,
) -> Result<u64, ServeFault> {
    let mut source = SocketSource::new(stream);
    let mut sink = SocketSink::new(stream);
    serve(rt, alloc, &mut source, &mut sink, engine, session)
}

#[test]
fn a_connection_that_is_reset_has_not_ended(rt: HostRuntime) -> Result<(), Fail> {
    let listener = rt.bind(address(0))?;
    let peer = connect(&rt, listener.local_addr()?.port())?;
    let (stream, _) = listener.accept()?;
    let stream = Stream::Port(stream);
    with_engine_on_threads(
        &rt,
        rt.alloc(),
        ONE_NODE,
        &[],
        |engine, session| serve_stream(&rt, rt.alloc(), &stream, engine, session),
        |_, _| reset(&rt, peer, b"hello\n", b"{"),
        |served, left, _| {
            assert!(rt; left.is_ok(), "the peer fails");
            assert_eq!(rt; served, Err(ServeFault::ReadFailed));
            Ok(())
        },
    )
}

/// A peer asks for a call, and its connection is reset; then another one comes.
fn one_is_reset<R>(rt: &R, port: u16) -> io::Result<()>
where
    R: Net<Listener = TcpListener, Stream = TcpStream> + Clock + Abort,
{
    let (lines, _) = split_lines(LINES, 2);
    reset(rt, connect(rt, port)?, lines, BOUNDS)?;
    let mut second = connect(rt, port)?;
    greet(rt, &mut second)
}

#[test]
fn the_session_of_a_connection_that_is_reset_is_answered(rt: HostRuntime) -> Result<(), Fail> {
    with_server(
        &rt,
        rt.alloc(),
        ONE_NODE,
        2,
        |port| one_is_reset(&rt, port),
        |ended| closes_with(&rt, ended, 2),
    )
}

/// Nine connections, each of which gets the answer that there is no session for it, and is then ended.
fn nine_are_refused<R>(rt: &R, port: u16) -> io::Result<()>
where
    R: Net<Listener = TcpListener, Stream = TcpStream> + Clock + Abort,
{
    for _ in 0..9u32 {
        let mut stream = connect(rt, port)?;
        comes(rt, &mut stream, b"{\"error\":[821]}\n")?;
        ends(rt, &mut stream)?;
    }
    Ok(())
}

#[test]
fn connections_without_a_session_are_told_so_and_ended(rt: HostRuntime) -> Result<(), Fail> {
    with_callers(
        &rt,
        rt.alloc(),
        ONE_NODE,
        &[],
        |engine| {
            use_up_sessions(&rt, rt.alloc(), engine);
            listening(
                &rt,
                rt.alloc(),
                engine,
                9,
                |port| nine_are_refused(&rt, port),
            )
        },
        |ended| closes_with(&rt, ended, 0),
    )
}
