//! Connections of this process to itself.
use crate::shelves::shelves;
use socket::{
    Callers, Entrances, ListenOn, MemoryEntrances, SystemEntrances, SystemOperator, SystemPeer,
    serve_on,
};
use std::collections::LinkedList;
use std::io::{Read, Write};
use std::net::TcpStream;
use std::rt::HostRuntime;
use std::test::Fail;
use world::shelves::Shelves;

pub const PUT: &[u8] =
    b"PUT /k/alphakey00000001/example.com/lib/@v/v1.0.0 HTTP/1.1\r\nMod-Length: 23\r\nContent-Length: 23\r\n\r\n\
      module example.com/lib\n";

pub const GET: &[u8] = b"GET /k/alphakey00000001/example.com/lib/@v/v1.0.0.mod HTTP/1.1\r\n\r\n";

pub const PUBLISHED: &str =
    "HTTP/1.1 201 Created\r\nContent-Type: text/plain; charset=utf-8\r\nContent-Length: 10\r\nConnection: close\r\n\r\n\
     published\n";

pub const SERVED: &str =
    "HTTP/1.1 200 OK\r\nContent-Type: text/plain; charset=utf-8\r\nContent-Length: 23\r\nConnection: close\r\n\r\n\
     module example.com/lib\n";

/// Lets peers in at a free port, and returns it.
fn listening(entrances: &mut SystemEntrances<'_>) -> Result<u16, Fail> {
    match entrances.listen(ListenOn::Port(0))? {
        ListenOn::Port(port) => Ok(port),
        ListenOn::Input => Err(Fail::from("no port")),
    }
}

/// Returns a client that has sent its bytes.
fn client(rt: &HostRuntime, port: u16, bytes: &[u8]) -> Result<TcpStream, Fail> {
    let mut stream = TcpStream::connect(rt, ("127.0.0.1", port))?;
    stream.write_all(bytes)?;
    Ok(stream)
}

/// Serves two connections from shelves, and then drops them.
fn serve_two<S: Shelves + Drop>(
    rt: &HostRuntime,
    mut shelves: S,
    entrances: &mut SystemEntrances<'_>,
) {
    serve_on(rt.alloc(), entrances, &mut shelves, 2);
    entrances.close();
}

/// Returns all that a client still gets.
fn reply(rt: &HostRuntime, mut stream: TcpStream) -> Result<String, Fail> {
    let mut text = String::new(rt.alloc());
    stream.read_to_string(&mut text)?;
    Ok(text)
}

#[test]
fn answers_one_request_on_each_of_two_connections(rt: HostRuntime) -> Result<(), Fail> {
    let mut entrances = SystemEntrances::new(&rt);
    let port = listening(&mut entrances)?;
    let first = client(&rt, port, PUT)?;
    let second = client(&rt, port, GET)?;
    serve_two(&rt, shelves(rt.alloc())?, &mut entrances);
    assert!(rt; reply(&rt, first)?.as_str() == PUBLISHED);
    assert!(rt; reply(&rt, second)?.as_str() == SERVED);
    Ok(())
}

#[test]
fn connections_that_nobody_makes_count(rt: HostRuntime) -> Result<(), Fail> {
    let mut entrances: MemoryEntrances<'_, SystemPeer<'_>, SystemOperator<'_>> =
        MemoryEntrances::new(
            "serve.socket",
            LinkedList::new(rt.alloc()),
            LinkedList::new(rt.alloc()),
        );
    assert!(rt; entrances.listen(ListenOn::Port(0))? == ListenOn::Port(8080));
    assert!(rt; entrances.make_socket("serve.socket").is_err());
    assert!(rt; entrances.make_socket("other.socket").is_ok());
    serve_on(rt.alloc(), &mut entrances, &mut shelves(rt.alloc())?, 2);
    entrances.remove_socket("other.socket");
    entrances.close();
    assert!(rt; entrances.next_waiting().is_none());
    Ok(())
}
