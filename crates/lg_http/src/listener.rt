//! Where a server listens.
//!
//! Defined in: this file.
//! Tested in: `lg_http_tests/src/serving.rt`.

ghost use Rattle.std.specs.Prelude.{◌≡◌, ◌↔◌, IsTrue};
ghost use Rattle.std.specs.Net.Addr.{MatchIp, IsLoopbackV4, IsLoopbackV6};
ghost use Rattle.std.specs.Net.Socket.{socket_ip};

use mio::net::{TcpListener, TcpStream};
use mio::{Interest, Registry, Token};
use std::io;
use std::io::ErrorKind;
use std::net::{Net, SocketAddr};

/// A bound socket that takes connections. Bind it before the program's loops begin, so that a fault ends the start.
#[derive(Drop)]
pub struct Listener {
    listener: TcpListener,
}

/// A client that came.
#[derive(Drop)]
pub(crate) struct Client {
    pub(crate) stream: TcpStream,
    /// Whether its address is loopback: in 127.0.0.0/8 or ::1.
    pub(crate) is_loopback: bool,
}

impl Client {
    /// The client with this address at the other end of a connection.
    fn new(stream: TcpStream, address: SocketAddr) -> Client
        ensures { IsTrue result.is_loopback ↔ MatchIp (socket_ip address) IsLoopbackV4 IsLoopbackV6 }
    {
        Client {
            stream,
            is_loopback: address.ip().is_loopback(),
        }
    }
}

impl Listener {
    /// Binds an address. With port 0 the system chooses the port. The error says why it can't be bound, as
    /// [`ErrorKind::AddrInUse`] if another process has it.
    pub fn bind(net: &impl Net, address: SocketAddr) -> Result<Listener, ErrorKind> {
        match TcpListener::bind(net, address) {
            Ok(listener) => Ok(Listener { listener }),
            Err(e) => Err(e.kind()),
        }
    }

    /// The address that it is bound to. The error is the system's.
    pub fn address(&self) -> Result<SocketAddr, ErrorKind> {
        match self.listener.local_addr() {
            Ok(address) => Ok(address),
            Err(e) => Err(e.kind()),
        }
    }

    /// Has the system tell when a client comes.
    pub(crate) fn register(&mut self, registry: &Registry, token: Token) -> io::Result<()> {
        registry.register(&mut self.listener, token, Interest::READABLE)
    }

    /// Takes a connection. The kind of the error is `WouldBlock` if none waits.
    pub(crate) fn accept(&self) -> Result<Client, ErrorKind> {
        match self.listener.accept() {
            Ok((stream, address)) => Ok(Client::new(stream, address)),
            Err(e) => Err(e.kind()),
        }
    }
}
