//! The sockets of a node, which are bound before anything else is done.
//!
//! Defined in: this file.
//! Tested in: `cases/nodes`, `cases/status`.
ghost use Rattle.std.specs.Prelude.{◌≡◌, is_some, IfErr, IfOk, IfSome};
ghost use Rattle.lg_timing.specs.declared.config.Config.{Config as Opened};
ghost use Rattle.lg_http.specs.Meaning.Slots.{AreFree, slots_of};
ghost use Rattle.lg_node.specs.Meaning.Nodes.{IsEarly};

use crate::node::{NodeFault, Settings};
use lg_http::{Server, Signal};
use lg_rules::Addr;
use lg_status_server::bind;
use std::alloc::Global;
use std::net::{Net, SocketAddr, UdpSocket};
use std::random::RandomSource;

/// The sockets of a node: one for datagrams, and that of the status server if there is one.
#[derive(Drop)]
pub(crate) struct Sockets {
    pub(crate) socket: UdpSocket,
    pub(crate) server: Option<Server>,
    pub(crate) signal: Option<Signal>,
}

/// The socket of an address.
fn bind_socket<R: Net>(rt: &R, addr: Addr) -> Result<UdpSocket, NodeFault>
    ensures { (config : Opened) → IfErr result (IsEarly config) }
{
    match UdpSocket::bind(rt, SocketAddr::from(addr)) {
        Ok(socket) => Ok(socket),
        Err(fault) => Err(NodeFault::Socket(fault.kind())),
    }
}

impl Sockets {
    /// Binds a socket to the address of the settings, and then a status server if they have an address for one.
    pub(crate) fn bind<R: Net + RandomSource>(
        rt: &R,
        alloc: Global,
        settings: &Settings,
    ) -> Result<Sockets, NodeFault>
        ensures server { IfOk result (λ sockets. is_some sockets.server ≡ is_some settings.now.status) }
        ensures signal { IfOk result (λ sockets. is_some sockets.signal ≡ is_some settings.now.status) }
        ensures free { IfOk result (λ sockets. IfSome sockets.server (λ server. AreFree (slots_of server))) }
        ensures early { (config : Opened) → IfErr result (IsEarly config) }
    {
        let socket = match bind_socket(rt, settings.bind) {
            Ok(socket) => socket,
            Err(fault) => return Err(fault),
        };
        let Some(addr) = settings.status else {
            return Ok(Sockets {
                socket,
                server: None,
                signal: None,
            });
        };
        match bind(rt, alloc, addr) {
            Ok((server, signal)) => Ok(Sockets {
                socket,
                server: Some(server),
                signal: Some(signal),
            }),
            Err(kind) => {
                drop(socket);
                Err(NodeFault::Status(kind))
            }
        }
    }
}
