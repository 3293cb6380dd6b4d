//! Addresses of both families: their texts, which are read again, and what they are for the standard library.
use lg_rules::{Addr, Ip};
use lg_text::{ip_in, put_addr, put_ip};
use std::net::{IpAddr, Ipv4Addr, Ipv6Addr, SocketAddr};

/// 2001:db8::1, an address for documents (RFC 3849).
const DOCUMENT: [u8; 16] = [0x20, 0x01, 0x0d, 0xb8, 0, 0, 0, 0, 0, 0, 0, 0, 0, 0, 0, 1];

/// It has two runs of zeros of one length, of which the first is shortened (RFC 5952, section 4.2.3).
const TWO_RUNS: [u8; 16] = [0x20, 0x01, 0x0d, 0xb8, 0, 0, 0, 0, 0, 1, 0, 0, 0, 0, 0, 1];

/// No group of it is 0.
const NO_RUN: [u8; 16] = [0x20, 0x01, 0x0d, 0xb8, 0, 1, 0, 1, 0, 1, 0, 1, 0, 1, 0, 1];

/// One group of it is 0, which isn't shortened (RFC 5952, section 4.2.2).
const ONE_ZERO: [u8; 16] = [0x20, 0x01, 0x0d, 0xb8, 0, 0, 0, 1, 0, 1, 0, 1, 0, 1, 0, 1];

/// An address of one link.
const OF_A_LINK: [u8; 16] = [0xfe, 0x80, 0, 0, 0, 0, 0, 0, 0, 0, 0, 0, 0, 0, 0xab, 0xcd];

/// ::ffff:192.0.2.1, which maps an IPv4 address.
const MAPPED: [u8; 16] = [0, 0, 0, 0, 0, 0, 0, 0, 0, 0, 0xff, 0xff, 192, 0, 2, 1];

/// An IP address, its text, its text before the port 7946, and whether no other machine reaches it.
const ADDRESSES: &[(Ip, &str, &str, bool)] = &[
    (Ip::V4([127, 0, 0, 1]), "127.0.0.1", "127.0.0.1:7946", true),
    (
        Ip::V4([127, 255, 255, 255]),
        "127.255.255.255",
        "127.255.255.255:7946",
        true,
    ),
    (Ip::V4([128, 0, 0, 1]), "128.0.0.1", "128.0.0.1:7946", false),
    (Ip::V4([0; 4]), "0.0.0.0", "0.0.0.0:7946", false),
    (Ip::V6([0; 16]), "::", "[::]:7946", false),
    (Ip::V6(DOCUMENT), "2001:db8::1", "[2001:db8::1]:7946", false),
    (
        Ip::V6(TWO_RUNS),
        "2001:db8::1:0:0:1",
        "[2001:db8::1:0:0:1]:7946",
        false,
    ),
    (
        Ip::V6(NO_RUN),
        "2001:db8:1:1:1:1:1:1",
        "[2001:db8:1:1:1:1:1:1]:7946",
        false,
    ),
    (
        Ip::V6(ONE_ZERO),
        "2001:db8:0:1:1:1:1:1",
        "[2001:db8:0:1:1:1:1:1]:7946",
        false,
    ),
    (Ip::V6(OF_A_LINK), "fe80::abcd", "[fe80::abcd]:7946", false),
    (
        Ip::V6(MAPPED),
        "::ffff:192.0.2.1",
        "[::ffff:192.0.2.1]:7946",
        false,
    ),
];

/// Texts that spell no IP address.
const NONE: &[&str] = &[
    "",
    "127.0.0",
    "127.0.0.01",
    "127.0.0.256",
    "[::1]",
    "::1%lo",
    "2001:db8:::1",
    "localhost",
];

#[test]
fn texts_of_addresses(rt: HostRuntime) {
    for (ip, alone, with_port, is_local) in ADDRESSES {
        let mut text = String::new(rt.alloc());
        assert!(rt; put_ip(ip, &mut text).is_ok());
        assert_eq!(rt; text.as_str(), *alone);
        let mut text = String::new(rt.alloc());
        assert!(rt;
            put_addr(
                &Addr {
                    ip: *ip,
                    port: 7946
                },
                &mut text
            )
            .is_ok()
        );
        assert_eq!(rt; text.as_str(), *with_port);
        assert_eq!(rt; (ip_in(alone), ip.is_loopback()), (Some(*ip), *is_local));
    }
    for text in NONE {
        assert_eq!(rt; ip_in(text), None, "{text}");
    }
}

#[test]
fn addresses_of_sockets(rt: HostRuntime) {
    let near = SocketAddr::from(Addr::v4([192, 0, 2, 1], 7001));
    let far = SocketAddr::from(Addr::v6(DOCUMENT, 7002));
    let home = Ip::V6([0, 0, 0, 0, 0, 0, 0, 0, 0, 0, 0, 0, 0, 0, 0, 1]);
    assert!(rt; near.ip() == IpAddr::V4(Ipv4Addr::new(192, 0, 2, 1)) && near.port() == 7001);
    let document = Ipv6Addr::new(0x2001, 0xdb8, 0, 0, 0, 0, 0, 1);
    assert!(rt; far.ip() == IpAddr::V6(document) && far.port() == 7002);
    assert!(rt; home.is_loopback() && ip_in("::1") == Some(home));
    assert_eq!(rt; Addr::default(), Addr::v4([0; 4], 0));
}
