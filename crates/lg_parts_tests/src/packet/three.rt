//! Packets of version 3: worked rows, and every front and every one-byte change of some, checked against a slow judge.
use super::{both_are, changed, in_version, is_one, judged};
use lg_packet::{Body, Fault, Packet, Version};
use lg_rules::{Addr, Ip};
use lg_testing::answers::ANSWERS;
use lg_testing::bodies::{Says, packet_of};
use lg_testing::says::Said::{self, Alive, LeftAt, SuspectAt};
use lg_testing::says::{Member, named};

/// A Ping of `a` for `b` that tells that `c` left, at the incarnation 2.
const LEFT: &[u8] = b"SL\x03\x01\x00\x01a\x00\x00\x00\x07\x01b\x01\
    \x04\x01c\x04\x7f\x00\x00\x01\x1b\x5b\x00\x00\x00\x02";

/// A Page of `c` that tells the same of itself.
const LEFT_PAGE: &[u8] =
    b"SL\x03\x06\x00\x01c\x01\x04\x01c\x04\x7f\x00\x00\x01\x1b\x5b\x00\x00\x00\x02";

/// The Ping of `a` with the incarnation 0.
const LEFT_AT_0: &[u8] = b"SL\x03\x01\x00\x01a\x00\x00\x00\x07\x01b\x01\
    \x04\x01c\x04\x7f\x00\x00\x01\x1b\x5b\x00\x00\x00\x00";

/// An Ack of `b` for `a` that tells that `c` left, and that `b` suspects `d`.
const LEFT_ACK: &[u8] = b"SL\x03\x03\x00\x01b\x00\x00\x00\x07\x01a\x02\
    \x04\x01c\x04\x7f\x00\x00\x01\x1b\x5b\x00\x00\x00\x00\
    \x02\x01d\x04\x7f\x00\x00\x01\x1b\x5c\x00\x00\x00\x00\x01b";

/// `a` asks a helper to probe `c` at port 7003 of ::1.
const FAR_REQUEST: &[u8] =
    b"SL\x03\x02\x00\x01a\x00\x00\x00\x07\x01c\x06\x00\x00\x00\x00\x00\x00\x00\x00\x00\x00\x00\x00\x00\
    \x00\x00\x01\x1b\x5b\x00";

/// A Gossip of `a`, of the group `grn`, that tells that `c` is alive at 2001:db8::1.
const FAR_GOSSIP: &[u8] = b"SL\x03\x07\x03grn\x01a\x01\
    \x01\x01c\x06\x20\x01\x0d\xb8\x00\x00\x00\x00\x00\x00\x00\x00\x00\x00\x00\x01\x1b\x5b\x00\x00\
    \x00\x03";

/// A Pull of `a` of the group `g` for what comes after `f`.
const PULL: &[u8] = b"SL\x03\x05\x01g\x01a\x01f\x00";

/// A Nack of `b` for `a`.
const NACK: &[u8] = b"SL\x03\x04\x00\x01b\x00\x00\x00\x01\x01a\x00";

/// Bytes of packets of version 3.
const PACKETS: &[&[u8]] = &[
    LEFT,
    LEFT_PAGE,
    LEFT_AT_0,
    LEFT_ACK,
    FAR_REQUEST,
    FAR_GOSSIP,
    PULL,
    NACK,
];

/// Every front of a packet is Short, by the decoder and by the slow judge.
#[test]
fn fronts_in_version_three(rt: HostRuntime) {
    for bytes in PACKETS {
        for end in 0..bytes.len() {
            assert!(rt;
                both_are(&bytes[..end], Err(Fault::Short)),
                "{end} of {bytes:?}"
            );
        }
    }
}

/// The decoder and the slow judge agree on every change of one byte of a packet, and on every byte after it.
#[test]
fn changes_in_version_three(rt: HostRuntime) {
    for bytes in PACKETS {
        for place in 0..=bytes.len() {
            for byte in 0..=255 {
                let near = changed(bytes, place, byte);
                assert!(rt; both_are(&near, judged(&near)), "{near:?}");
            }
        }
    }
}

/// Bytes that are no packet, with their fault.
const REFUSED: &[(&[u8], Fault)] = &[
    (
        b"SL\x02\x01\x01a\x00\x00\x00\x07\x01b\x01\x04\x01c\x7f\x00\x00\x01\x1b\x5b\x00\x00\x00\x02",
        Fault::ClaimKind,
    ),
    (
        b"SL\x01\x01\x01a\x00\x00\x00\x07\x01b\x01\x04\x01c\x7f\x00\x00\x01\x1b\x5b\x00\x00\x00\x02",
        Fault::ClaimKind,
    ),
    (
        b"SL\x04\x01\x00\x01a\x00\x00\x00\x07\x01b\x01\
      \x04\x01c\x04\x7f\x00\x00\x01\x1b\x5b\x00\x00\x00\x02",
        Fault::Version,
    ),
    (
        b"SL\x00\x01\x00\x01a\x00\x00\x00\x07\x01b\x01\
      \x04\x01c\x04\x7f\x00\x00\x01\x1b\x5b\x00\x00\x00\x02",
        Fault::Version,
    ),
    (
        b"SL\x03\x01\x00\x01a\x00\x00\x00\x07\x01b\x01\
      \x05\x01c\x04\x7f\x00\x00\x01\x1b\x5b\x00\x00\x00\x02",
        Fault::ClaimKind,
    ),
    (
        b"SL\x03\x01\x00\x01a\x00\x00\x00\x07\x01b\x01\
      \x00\x01c\x04\x7f\x00\x00\x01\x1b\x5b\x00\x00\x00\x02",
        Fault::ClaimKind,
    ),
    (
        b"SL\x03\x01\x00\x01a\x00\x00\x00\x07\x01b\x01\
      \x04\x01c\x04\x7f\x00\x00\x01\x1b\x5b\x00\x00\x00\x02\
      \x01\x61",
        Fault::Trailing,
    ),
    (
        b"SL\x03\x01\x00\x01a\x00\x00\x00\x07\x01b\x01\x04\x01c\x04\x7f\x00\x00\x01\x1b\x5b\x00\x00\x00",
        Fault::Short,
    ),
    (
        b"SL\x03\x01\x00\x01a\x00\x00\x00\x07\x01b\x01\x04\x01c\x04\x7f\x00\x00\x01\x1b\x5b",
        Fault::Short,
    ),
    (
        b"SL\x03\x01\x21nnnnnnnnnnnnnnnnnnnnnnnnnnnnnnnnn\x01a\x00\x00\x00\x07\x01b\x00",
        Fault::Name,
    ),
    (b"SL\x03\x01\x02g\x21\x01", Fault::Name),
    (b"SL\x03\x01\x02g", Fault::Short),
    (b"SL\x03\x01\x02gr\x00", Fault::Name),
    (
        b"SL\x03\x01\x00\x01a\x00\x00\x00\x07\x01b\x01\
      \x01\x01c\x05\x20\x01\x0d\xb8\x00\x00\x00\x00\x00\x00\x00\x00\x00\x00\x00\x01\x1b\x5b\x00\x00\
      \x00\x00",
        Fault::Family,
    ),
    (
        b"SL\x03\x01\x00\x01a\x00\x00\x00\x07\x01b\x01\
      \x01\x01c\x00\x20\x01\x0d\xb8\x00\x00\x00\x00\x00\x00\x00\x00\x00\x00\x00\x01\x1b\x5b\x00\x00\
      \x00\x00",
        Fault::Family,
    ),
    (
        b"SL\x03\x02\x00\x01a\x00\x00\x00\x09\x01c\x07\x20\x01\x0d\xb8\x00\x00\x00\x00\x00\x00\x00\x00\x00\
      \x00\x00\x01\x1b\x5b\x00",
        Fault::Family,
    ),
    (
        b"SL\x03\x02\x00\x01a\x00\x00\x00\x09\x01c\x06",
        Fault::Short,
    ),
    (
        b"SL\x03\x02\x00\x01a\x00\x00\x00\x09\x01c\x06\x20\x01\x0d\xb8\x00\x00\x00\x00\x00\x00\x00",
        Fault::Short,
    ),
    (
        b"SL\x03\x01\x00\x01a\x00\x00\x00\x07\x01b\x0d\
      \x01\x03n00\x04\x7f\x00\x00\x01\x1f\x40\x00\x00\x00\x00\
      \x01\x03n01\x04\x7f\x00\x00\x01\x1f\x41\x00\x00\x00\x00\
      \x01\x03n02\x04\x7f\x00\x00\x01\x1f\x42\x00\x00\x00\x00\
      \x01\x03n03\x04\x7f\x00\x00\x01\x1f\x43\x00\x00\x00\x00\
      \x01\x03n04\x04\x7f\x00\x00\x01\x1f\x44\x00\x00\x00\x00\
      \x01\x03n05\x04\x7f\x00\x00\x01\x1f\x45\x00\x00\x00\x00\
      \x01\x03n06\x04\x7f\x00\x00\x01\x1f\x46\x00\x00\x00\x00\
      \x01\x03n07\x04\x7f\x00\x00\x01\x1f\x47\x00\x00\x00\x00\
      \x01\x03n08\x04\x7f\x00\x00\x01\x1f\x48\x00\x00\x00\x00\
      \x01\x03n09\x04\x7f\x00\x00\x01\x1f\x49\x00\x00\x00\x00\
      \x01\x03n10\x04\x7f\x00\x00\x01\x1f\x4a\x00\x00\x00\x00\
      \x01\x03n11\x04\x7f\x00\x00\x01\x1f\x4b\x00\x00\x00\x00",
        Fault::Count,
    ),
    (
        b"SL\x02\x01\x01a\x00\x00\x00\x07\x01b\x07\
      \x01\x03n00\x7f\x00\x00\x01\x1f\x40\x00\x00\x00\x00\
      \x01\x03n01\x7f\x00\x00\x01\x1f\x41\x00\x00\x00\x00\
      \x01\x03n02\x7f\x00\x00\x01\x1f\x42\x00\x00\x00\x00\
      \x01\x03n03\x7f\x00\x00\x01\x1f\x43\x00\x00\x00\x00\
      \x01\x03n04\x7f\x00\x00\x01\x1f\x44\x00\x00\x00\x00\
      \x01\x03n05\x7f\x00\x00\x01\x1f\x45\x00\x00\x00\x00",
        Fault::Count,
    ),
    (b"SL\x02\x07\x01a\x00", Fault::Kind),
    (b"SL\x01\x07\x01a\x00", Fault::Kind),
    (b"SL\x03\x08\x00\x01a\x00", Fault::Kind),
    (b"SL\x03\x00\x00\x01a\x00", Fault::Kind),
    (b"SL\x03\x08\xff", Fault::Kind),
    (b"SL\x03\x03\x00\x01c\x00\x00\x00\x01\x00", Fault::Name),
];

/// The first byte that can't stand in its place gives the fault, by the decoder and by the slow judge.
#[test]
fn refuses_in_version_three(rt: HostRuntime) {
    for (bytes, fault) in REFUSED {
        assert!(rt; both_are(bytes, Err(*fault)), "{bytes:?}");
    }
}

/// Bytes of packets, with the groups that they name, their senders, bodies and claims.
const READ: &[(&[u8], Option<Member>, Member, Says, &[Said])] = &[
    (LEFT, None, "a", Says::Ping(7, "b"), &[LeftAt("c", 2, 7003)]),
    (LEFT_PAGE, None, "c", Says::Page, &[LeftAt("c", 2, 7003)]),
    (
        LEFT_AT_0,
        None,
        "a",
        Says::Ping(7, "b"),
        &[LeftAt("c", 0, 7003)],
    ),
    (
        LEFT_ACK,
        None,
        "b",
        Says::AckFor(7, "a"),
        &[LeftAt("c", 0, 7003), SuspectAt("d", 0, "b", 7004)],
    ),
    (PULL, Some("g"), "a", Says::PullAfter("f"), &[]),
    (NACK, None, "b", Says::NackFor(1, "a"), &[]),
];

/// A packet of version 3 that names a group, if one is given.
fn packet_in(group: Option<Member>, sender: Member, says: &Says, said: &[Said]) -> Packet {
    let mut packet = in_version(Version::Three, &packet_of(sender, says, said));
    packet.group = group.map(named);
    packet
}

/// Each packet is written as its bytes, and these are read as the packet.
#[test]
fn writes_and_reads_version_three(rt: HostRuntime) {
    for (bytes, group, sender, says, said) in READ {
        let packet = packet_in(*group, sender, says, said);
        assert!(rt; is_one(bytes, &packet), "{bytes:?}");
    }
}

/// The address ::1.
const LOOPBACK: Ip = Ip::V6([0, 0, 0, 0, 0, 0, 0, 0, 0, 0, 0, 0, 0, 0, 0, 1]);

/// The address 2001:db8::1.
const DOCUMENTED: Ip = Ip::V6([0x20, 1, 0x0d, 0xb8, 0, 0, 0, 0, 0, 0, 0, 0, 0, 0, 0, 1]);

/// The packets with addresses of sixteen bytes, both at port 7003.
fn far_packets() -> [Packet; 2] {
    let mut request = packet_in(None, "a", &Says::Page, &[]);
    request.body = Body::PingReq {
        number: 7,
        target: named("c"),
        addr: Addr {
            ip: LOOPBACK,
            port: 7003,
        },
    };
    let mut gossip = packet_in(Some("grn"), "a", &Says::Gossip, &[Alive("c", 3)]);
    for claim in gossip.claims.iter_mut() {
        claim.addr = Addr {
            ip: DOCUMENTED,
            port: 7003,
        };
    }
    [request, gossip]
}

/// An address of sixteen bytes is written behind its family, and read again.
#[test]
fn writes_and_reads_both_families(rt: HostRuntime) {
    let [request, gossip] = far_packets();
    assert!(rt; is_one(FAR_REQUEST, &request), "{request:?}");
    assert!(rt; is_one(FAR_GOSSIP, &gossip), "{gossip:?}");
}

/// Whether bytes are those of a packet, if they are some.
fn are_packet_if_any(bytes: &[u8]) -> bool {
    bytes.is_empty() || both_are(bytes, Ok(true))
}

/// The bytes that a detector hears, and those that it answers, are packets.
#[test]
fn answers_are_packets(rt: HostRuntime) {
    for (case, _, answers) in ANSWERS {
        for (heard, sent) in *answers {
            assert!(rt;
                both_are(heard, Ok(true)) && are_packet_if_any(sent),
                "{case}"
            );
        }
    }
}
