//! Writes IP addresses, and addresses with their ports.
//!
//! Each function here appends to a text. It allocates memory only if the text has to grow. If memory is refused, that
//! is its only error, and the text may have grown by a part of what was to be appended.
//!
//! Defined in: `specs/Meaning/Addresses.antt`.
//! Tested in: `cases/sim_members.case`, `cases/check.case`.
ghost use Rattle.std.specs.Prelude.{◌≡◌, ◌++◌, OnOk, decimal, string_bytes};
ghost use Rattle.std.specs.Net.Addr.{segments_of};
ghost use Rattle.std.specs.Net.Text.{ipv6_text};
ghost use Rattle.lg_text.specs.Meaning.Addresses.{addr_text, dotted, ip_before_port, ip_text};
ghost use Rattle.lg_rules.specs.declared.addr.Ip.TheVariants.{V6};

use itoa::Buffer;
use lg_rules::{Addr, Ip};
use std::alloc::AllocError;
use std::net::Ipv6Addr;

/// Appends a number in decimal. A table has five for each IPv4 address, and `write!` takes longer for them.
fn put_number(number: u64, text: &mut String) -> Result<(), AllocError>
    ensures { OnOk result (string_bytes text.new ≡ string_bytes text.old ++ decimal number) }
{
    let mut digits = Buffer::new();
    text.push_str(digits.format(number))
}

/// Appends a sign and a number behind it.
fn put_numbered(sign: &str, number: u64, text: &mut String) -> Result<(), AllocError>
    ensures { OnOk result (string_bytes text.new ≡ string_bytes text.old ++ (sign.now ++ decimal number)) }
{
    text.push_str(sign)?;
    put_number(number, text)
}

/// Appends the four numbers of an IPv4 address, with points between them.
fn put_dotted(octets: &[u8; 4], text: &mut String) -> Result<(), AllocError>
    ensures { OnOk result (string_bytes text.new ≡ string_bytes text.old ++ dotted octets.now) }
{
    let [a, b, c, d] = *octets;
    put_number(u64::from(a), text)?;
    put_numbered(".", u64::from(b), text)?;
    put_numbered(".", u64::from(c), text)?;
    put_numbered(".", u64::from(d), text)
}

/// Appends the IPv6 address of these bytes, as RFC 5952 has it.
fn put_groups(octets: &[u8; 16], text: &mut String) -> Result<(), AllocError>
    ensures { OnOk result (string_bytes text.new ≡ string_bytes text.old ++ ipv6_text (segments_of octets.now)) }
{
    let ip = Ipv6Addr::from_octets(*octets);
    write!(text, "{ip}")
}

/// Appends the IPv6 address of these bytes, in brackets.
fn put_bracketed(octets: &[u8; 16], text: &mut String) -> Result<(), AllocError>
    ensures { OnOk result (string_bytes text.new ≡ string_bytes text.old ++ ip_before_port (V6 octets.now)) }
{
    text.push('[')?;
    put_groups(octets, text)?;
    text.push(']')
}

/// Appends an IP address: `A.B.C.D`, or that of IPv6 as RFC 5952 has it, as in `2001:db8::1`.
pub fn put_ip(ip: &Ip, text: &mut String) -> Result<(), AllocError>
    ensures { OnOk result (string_bytes text.new ≡ string_bytes text.old ++ ip_text ip.now) }
{
    match ip {
        Ip::V4(octets) => put_dotted(octets, text),
        Ip::V6(octets) => put_groups(octets, text),
    }
}

/// Appends an IP address as it stands before a port: that of IPv6 is in brackets.
fn put_before_port(ip: &Ip, text: &mut String) -> Result<(), AllocError>
    ensures { OnOk result (string_bytes text.new ≡ string_bytes text.old ++ ip_before_port ip.now) }
{
    match ip {
        Ip::V4(octets) => put_dotted(octets, text),
        Ip::V6(octets) => put_bracketed(octets, text),
    }
}

/// Appends an address with its port: `A.B.C.D:PORT`, or `[ADDRESS]:PORT` for IPv6 (RFC 5952, section 6).
pub fn put_addr(addr: &Addr, text: &mut String) -> Result<(), AllocError>
    ensures { OnOk result (string_bytes text.new ≡ string_bytes text.old ++ addr_text addr.now) }
{
    put_before_port(&addr.ip, text)?;
    put_numbered(":", u64::from(addr.port), text)
}
