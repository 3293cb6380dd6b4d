//! Packets: worked rows, and every front and every one-byte change of some packets in versions 1 and 2, checked against
//! a slow judge.
mod judge;
mod telling;
mod three;

use arrayvec::ArrayVec;
use judge::judge;
use lg_packet::{
    Body, Fault, MAX_PACKET, Packet, Version, begun_spelling, decode, encode, first_bad_byte,
    one_reading, one_spelling, own_spelling,
};
use lg_testing::bodies::{Says, packet_of};
use lg_testing::says::Member;
use lg_testing::says::Said::{self, Alive, AliveAt, Suspect};

/// A Ping from `a` for `b`, numbered 7.
const PING: &[u8] = b"SL\x01\x01\x01a\x00\x00\x00\x07\x01b\x00";

/// The same, numbered 8.
const PING_8: &[u8] = b"SL\x01\x01\x01a\x00\x00\x00\x08\x01b\x00";

/// An Ack of `b`, numbered 7.
const ACK: &[u8] = b"SL\x01\x03\x01b\x00\x00\x00\x07\x00";

/// `a` asks a helper to probe `c` at port 7003, for its probe numbered 1.
const PING_REQ: &[u8] = b"SL\x01\x02\x01a\x00\x00\x00\x01\x01c\x7f\x00\x00\x01\x1b\x5b\x00";

/// The helper `b` has no Ack for the probe numbered 1.
const NACK: &[u8] = b"SL\x01\x04\x01b\x00\x00\x00\x01\x00";

/// `a` asks for the first records, and says that `a` itself is alive.
const PULL: &[u8] = b"SL\x01\x05\x01a\x00\x01\
    \x01\x01a\x7f\x00\x00\x01\x1b\x59\x00\x00\x00\x00";

/// `a` asks for the records after `f`.
const PULL_AFTER: &[u8] = b"SL\x01\x05\x01a\x01f\x01\
    \x01\x01a\x7f\x00\x00\x01\x1b\x59\x00\x00\x00\x00";

/// `b` answers with the records of `a`, `b` and `c`.
const PAGE: &[u8] = b"SL\x01\x06\x01b\x03\
    \x01\x01a\x7f\x00\x00\x01\x1b\x59\x00\x00\x00\x00\
    \x01\x01b\x7f\x00\x00\x01\x1b\x5a\x00\x00\x00\x00\
    \x01\x01c\x7f\x00\x00\x01\x1b\x5b\x00\x00\x00\x00";

/// A Ping from `a` for `c` that says that `c` is alive.
const ALIVE: &[u8] = b"SL\x01\x01\x01a\x00\x00\x00\x07\x01c\x01\
    \x01\x01c\x7f\x00\x00\x01\x1b\x5b\x00\x00\x00\x00";

/// An Ack of `b` that says the same.
const ACK_ALIVE: &[u8] = b"SL\x01\x03\x01b\x00\x00\x00\x08\x01\
    \x01\x01c\x7f\x00\x00\x01\x1b\x5b\x00\x00\x00\x00";

/// A Ping for `b`, in which it is suspected by `a` and then by `c`.
const SUSPECTS: &[u8] = b"SL\x01\x01\x01a\x00\x00\x00\x09\x01b\x02\
    \x02\x01b\x7f\x00\x00\x01\x1b\x58\x00\x00\x00\x00\x01a\
    \x02\x01b\x7f\x00\x00\x01\x1b\x58\x00\x00\x00\x00\x01c";

/// The Ack of `b` to it, by which `b` objects.
const OBJECTS: &[u8] = b"SL\x01\x03\x01b\x00\x00\x00\x09\x01\
    \x01\x01b\x7f\x00\x00\x01\x1b\x58\x00\x00\x00\x01";

/// A Ping in which `b` is suspected at the greatest incarnation.
const GREATEST: &[u8] = b"SL\x01\x01\x01a\x00\x00\x00\x01\x01b\x01\
    \x02\x01b\x7f\x00\x00\x01\x1b\x58\x3b\x9a\xca\x00\x01a";

/// The same, with an incarnation above the greatest.
const ABOVE: &[u8] = b"SL\x01\x01\x01a\x00\x00\x00\x01\x01b\x01\
    \x02\x01b\x7f\x00\x00\x01\x1b\x58\x3b\x9a\xca\x01\x01a";

/// The default packet.
const FIRST_ACK: &[u8] = b"SL\x01\x03\x01a\x00\x00\x00\x00\x00";

/// A Ping from `a` for `b` in version 2, numbered 1.
const SECOND: &[u8] = b"SL\x02\x01\x01a\x00\x00\x00\x01\x01b\x00";

/// The place of the version.
const VERSION_PLACE: usize = 2;

/// The versions whose packets differ in this place alone, with the bytes that stand for them.
const VERSIONS: &[(Version, u8)] = &[(Version::One, 1), (Version::Two, 2)];

/// Bytes that are packets of version 1.
const PACKETS: &[&[u8]] = &[
    PING, PING_8, ACK, PING_REQ, NACK, PULL, PULL_AFTER, PAGE, ALIVE, ACK_ALIVE, SUSPECTS, OBJECTS,
    GREATEST,
];

/// The bytes of a packet.
fn bytes_of(packet: &Packet) -> ArrayVec<u8, MAX_PACKET> {
    let mut out = ArrayVec::new();
    encode(packet, &mut out);
    out
}

/// The fault of bytes that are no packet; otherwise whether what is read from them is written as these bytes.
fn reading(bytes: &[u8]) -> Result<bool, Fault> {
    match decode(bytes) {
        Ok(packet) => Ok(bytes_of(&packet).as_slice() == bytes),
        Err(fault) => Err(fault),
    }
}

/// The reading of bytes that the slow judge wants.
fn judged(bytes: &[u8]) -> Result<bool, Fault> {
    match judge(bytes) {
        Some(fault) => Err(fault),
        None => Ok(true),
    }
}

/// Whether both the decoder and the slow judge read bytes like this.
fn both_are(bytes: &[u8], want: Result<bool, Fault>) -> bool {
    reading(bytes) == want && judged(bytes) == want
}

/// Some bytes with another one at a place, or with one more at their end.
fn changed(bytes: &[u8], place: usize, byte: u8) -> ArrayVec<u8, MAX_PACKET> {
    let mut changed = ArrayVec::new();
    let _ = changed.try_extend_from_slice(bytes);
    if place < changed.len() {
        changed[place] = byte;
    } else {
        let _ = changed.try_push(byte);
    }
    changed
}

/// Every front of a packet of either version is Short, by the decoder and by the slow judge.
#[test]
fn fronts_of_packets(rt: HostRuntime) {
    for packet in PACKETS {
        for (_, version) in VERSIONS {
            let bytes = changed(packet, VERSION_PLACE, *version);
            for end in 0..bytes.len() {
                assert!(rt;
                    both_are(&bytes[..end], Err(Fault::Short)),
                    "{end} of {bytes:?}"
                );
            }
        }
    }
}

/// The same packets, and one with too great an incarnation.
const CHANGED: &[&[u8]] = &[
    PING, PING_8, ACK, PING_REQ, NACK, PULL, PULL_AFTER, PAGE, ALIVE, ACK_ALIVE, SUSPECTS, OBJECTS,
    GREATEST, ABOVE,
];

/// The decoder and the slow judge agree on every change of one byte of a packet of either version, and on every byte
/// after it.
#[test]
fn changes_of_packets(rt: HostRuntime) {
    for packet in CHANGED {
        for (_, version) in VERSIONS {
            let bytes = changed(packet, VERSION_PLACE, *version);
            for place in 0..=bytes.len() {
                for byte in 0..=255 {
                    let near = changed(&bytes, place, byte);
                    assert!(rt; both_are(&near, judged(&near)), "{near:?}");
                }
            }
        }
    }
}

/// Changes of one byte of the Ping numbered 7, each at its place counted from 0, and the faults that they give.
const CHANGES_OF_PING: &[(usize, u8, Fault)] = &[
    (0, 0x00, Fault::Magic),
    (1, 0x00, Fault::Magic),
    (2, 0xff, Fault::Version),
    (3, 0x07, Fault::Kind),
    (4, 0x00, Fault::Name),
    (4, 0x02, Fault::Name),
    (4, 0x21, Fault::Name),
    (5, 0x20, Fault::Name),
    (10, 0x02, Fault::Name),
    (12, 0x07, Fault::Count),
    (12, 0x01, Fault::Short),
];

/// The place of the only byte of its target's name.
const TARGET_PLACE: usize = 11;

/// The bytes of a Ping, one by one: most changes give a fault, and another letter in its target's name gives a Ping for
/// another.
#[test]
fn each_byte_of_a_ping(rt: HostRuntime) {
    for (place, byte, fault) in CHANGES_OF_PING {
        let near = changed(PING, *place, *byte);
        assert!(rt; both_are(&near, Err(*fault)), "{near:?}");
    }
    let of_z = changed(PING, TARGET_PLACE, b'z');
    assert!(rt; is_one(&of_z, &packet_of("a", &Says::Ping(7, "z"), &[])));
}

/// Bytes that are no version or no kind, and a byte after a packet. Each is put at its place, or after the packet if
/// its place is past the end.
const REFUSED_CHANGES: &[(usize, u8, Fault)] = &[
    (VERSION_PLACE, 0, Fault::Version),
    (VERSION_PLACE, 4, Fault::Version),
    (VERSION_PLACE, 255, Fault::Version),
    (3, 0, Fault::Kind),
    (3, 7, Fault::Kind),
    (3, 255, Fault::Kind),
    (MAX_PACKET, 0, Fault::Trailing),
];

/// Some bytes are no version, some are no kind, and no byte follows a packet.
#[test]
fn other_bytes_and_one_byte_more(rt: HostRuntime) {
    for bytes in PACKETS {
        for (place, byte, fault) in REFUSED_CHANGES {
            let near = changed(bytes, *place, *byte);
            assert!(rt; both_are(&near, Err(*fault)), "{near:?}");
        }
    }
}

/// Bytes that are no packet, with their fault. The last four are fronts of packets with too great an incarnation, which
/// is judged once its four bytes are there, and such a packet itself.
const REFUSED: &[(&[u8], Fault)] = &[
    (b"", Fault::Short),
    (b"S", Fault::Short),
    (b"\x00", Fault::Magic),
    (b"S\x00", Fault::Magic),
    (b"SL\x00", Fault::Version),
    (b"SL\x03", Fault::Short),
    (b"SL\x04", Fault::Version),
    (b"SL\xff", Fault::Version),
    (b"SL\x02", Fault::Short),
    (b"SL\x02\x00", Fault::Kind),
    (b"SL\x02\x07", Fault::Kind),
    (b"SL\x01\x00", Fault::Kind),
    (b"SL\x01\x07", Fault::Kind),
    (b"SL\x01\x01\x00", Fault::Name),
    (b"SL\x01\x01\x21", Fault::Name),
    (b"SL\x01\x01\x03a ", Fault::Name),
    (b"SL\x01\x01\x03aa", Fault::Short),
    (b"SL\x01\x03\x01b\x00\x00\x00\x07\x00\x00", Fault::Trailing),
    (b"SL\x01\x03\x01b\x00\x00\x00\x07\x07", Fault::Count),
    (b"SL\x01\x03\x01b\x00\x00\x00\x07\x06", Fault::Short),
    (b"SL\x01\x03\x01b\x00\x00\x00\x07\x01\x04", Fault::ClaimKind),
    (b"SL\x01\x05\x01a\x21", Fault::Name),
    (b"SL\x01\x05\x01a\x02 ", Fault::Name),
    (b"SL\x01\x06\x01b\x07", Fault::Count),
    (
        b"SL\x01\x01\x01a\x00\x00\x00\x01\x01b\x01\x02\x01b\x7f\x00\x00\x01\x1b\x58\x3b\x9a\xca",
        Fault::Short,
    ),
    (
        b"SL\x01\x01\x01a\x00\x00\x00\x01\x01b\x01\x02\x01b\x7f\x00\x00\x01\x1b\x58\xff\xff\xff",
        Fault::Short,
    ),
    (
        b"SL\x01\x01\x01a\x00\x00\x00\x01\x01b\x01\x02\x01b\x7f\x00\x00\x01\x1b\x58\x3b\x9a\xca\x01",
        Fault::Incarnation,
    ),
    (ABOVE, Fault::Incarnation),
];

/// The first byte that can't stand in its place gives the fault, by the decoder and by the slow judge.
#[test]
fn refuses_by_the_first_fault(rt: HostRuntime) {
    for (bytes, fault) in REFUSED {
        assert!(rt; both_are(bytes, Err(*fault)), "{bytes:?}");
    }
}

/// Whether bytes are read as a packet's version, its group, its sender, its body and its claims.
fn is_read_as(bytes: &[u8], wanted: &Packet) -> bool {
    match decode(bytes) {
        Ok(read) => {
            read.version == wanted.version
                && read.group == wanted.group
                && read.sender == wanted.sender
                && read.body == wanted.body
                && read.claims == wanted.claims
        }
        Err(_) => false,
    }
}

/// Whether a packet is written as these bytes, and they are read as the packet.
fn is_one(bytes: &[u8], wanted: &Packet) -> bool {
    bytes_of(&wanted.copy()).as_slice() == bytes && is_read_as(bytes, wanted)
}

/// Bytes of packets of version 1, with their senders, bodies and claims.
const WRITTEN: &[(&[u8], Member, Says, &[Said])] = &[
    (PING, "a", Says::Ping(7, "b"), &[]),
    (PING_8, "a", Says::Ping(8, "b"), &[]),
    (ACK, "b", Says::Ack(7), &[]),
    (PING_REQ, "a", Says::Request(1, "c", 7003), &[]),
    (NACK, "b", Says::Nack(1), &[]),
    (PULL, "a", Says::PullFirst, &[AliveAt("a", 7001)]),
    (PULL_AFTER, "a", Says::PullAfter("f"), &[AliveAt("a", 7001)]),
    (
        PAGE,
        "b",
        Says::Page,
        &[AliveAt("a", 7001), AliveAt("b", 7002), AliveAt("c", 7003)],
    ),
    (ALIVE, "a", Says::Ping(7, "c"), &[AliveAt("c", 7003)]),
    (ACK_ALIVE, "b", Says::Ack(8), &[AliveAt("c", 7003)]),
    (
        SUSPECTS,
        "a",
        Says::Ping(9, "b"),
        &[Suspect("b", 0, "a"), Suspect("b", 0, "c")],
    ),
    (OBJECTS, "b", Says::Ack(9), &[Alive("b", 1)]),
    (
        GREATEST,
        "a",
        Says::Ping(1, "b"),
        &[Suspect("b", 1_000_000_000, "a")],
    ),
];

/// The packet of a version that says the same as another.
fn in_version(version: Version, packet: &Packet) -> Packet {
    let mut same = packet.copy();
    same.version = version;
    same
}

/// Each packet of either version is written as its bytes, and these are read as the packet.
#[test]
fn writes_and_reads_packets(rt: HostRuntime) {
    one_reading();
    one_spelling();
    first_bad_byte();
    begun_spelling();
    own_spelling();
    for (bytes, sender, says, said) in WRITTEN {
        let packet = packet_of(sender, says, said);
        for (version, byte) in VERSIONS {
            let bytes = changed(bytes, VERSION_PLACE, *byte);
            assert!(rt; is_one(&bytes, &in_version(*version, &packet)), "{bytes:?}");
        }
    }
    let second = in_version(Version::Two, &packet_of("a", &Says::Ping(1, "b"), &[]));
    assert!(rt; is_one(SECOND, &second) && is_one(FIRST_ACK, &Packet::default()));
}
