//! An address as C has it.
//!
//! Defined in: `specs/Meaning/Addresses.antt`.
ghost use Rattle.std.specs.Prelude.{◌≡◌, ◌++◌, replicate, take};
ghost use Rattle.lg_c_values.specs.Meaning.Addresses.{c_addr, no_c_addr, addr_from_c};

use lg_rules::{Addr, Ip};

/// An address as C has it.
#[repr(C)]
#[derive(Clone, Copy)]
pub struct LgAddress {
    /// The bytes of the IP address, in the order of the network. Of an IPv4 address these are the first four, and the
    /// others don't count.
    pub bytes: [u8; 16],
    /// The port, in the order of the machine.
    pub port: u16,
    /// 4 for an IPv4 address, and 6 for an IPv6 address.
    pub family: u8,
}

/// The four bytes of an IPv4 address, and then zeros.
fn with_zeros(octets: [u8; 4]) -> [u8; 16]
    ensures { result ≡ octets ++ replicate 12 0 }
{
    let mut bytes = [0; 16];
    bytes[..4].copy_from_slice(&octets);
    bytes
}

impl LgAddress {
    /// An address for C. Behind the bytes of an IPv4 address stand zeros.
    pub fn of(addr: &Addr) -> LgAddress
        ensures { result ≡ c_addr addr.now }
    {
        match addr.ip {
            Ip::V4(octets) => LgAddress {
                bytes: with_zeros(octets),
                port: addr.port,
                family: 4,
            },
            Ip::V6(octets) => LgAddress {
                bytes: octets,
                port: addr.port,
                family: 6,
            },
        }
    }

    /// No address, for C.
    pub fn none() -> LgAddress
        ensures { result ≡ no_c_addr }
    {
        LgAddress {
            bytes: [0; 16],
            port: 0,
            family: 0,
        }
    }

    /// The first four bytes.
    fn first_four(&self) -> [u8; 4]
        ensures { result ≡ take 4 self.now.bytes }
    {
        let mut octets = [0; 4];
        octets.copy_from_slice(&self.bytes[..4]);
        octets
    }

    /// The address that C tells, if its family is one of the two.
    pub fn addr(&self) -> Option<Addr>
        ensures { result ≡ addr_from_c self.now }
    {
        match self.family {
            4 => Some(Addr::v4(self.first_four(), self.port)),
            6 => Some(Addr::v6(self.bytes, self.port)),
            _ => None,
        }
    }
}
