//! Free ports, and texts that name one.
use std::alloc::{AllocError, Global};
use std::io;
use std::net::{Ipv4Addr, Net, UdpSocket};

/// A UDP port of 127.0.0.1 that is free: that of a socket which is closed again. The system gives ports of five digits.
pub(crate) fn free_port<R: Net>(rt: &R) -> io::Result<u16> {
    let socket = UdpSocket::bind(rt, (Ipv4Addr::new(127, 0, 0, 1), 0))?;
    let address = socket.local_addr()?;
    Ok(address.port())
}

/// A text with a port in the place of each `#`.
pub(crate) fn with_port(alloc: Global, text: &str, port: u16) -> Result<Vec<u8>, AllocError> {
    let digits = format!(in alloc; "{port}")?;
    let mut bytes = Vec::new(alloc);
    for byte in text.as_bytes() {
        match byte {
            b'#' => bytes.extend_from_slice(digits.as_bytes())?,
            _ => bytes.push(*byte)?,
        }
    }
    Ok(bytes)
}
