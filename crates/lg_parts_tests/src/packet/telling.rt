//! What the versions tell of packets that say more than they can, and the longest packets.
use super::{both_are, bytes_of, in_version, is_read_as};
use arrayvec::ArrayVec;
use lg_packet::{Body, Fault, MAX_PACKET, Packet, Version};
use lg_rules::{Addr, Claim};
use lg_testing::bodies::{Says, packet_of};
use lg_testing::says::Said::{self, Alive, AliveFar, Failed, Left, Numbered, Suspect, SuspectFar};
use lg_testing::says::{Member, claim_of, far, named};

/// The longest name.
const LONGEST: Member = "ABCDEFGHIJKLMNOPabcdefghijklm._-";

/// Versions 1 and 2, which tell less than version 3.
const OLD: &[Version] = &[Version::One, Version::Two];

/// A packet of `a`: the group that it names, its body and its claims.
type Content = (Option<Member>, Says, &'static [Said]);

/// The packet of a version with this content.
fn packet_in(version: Version, content: &Content) -> Packet {
    let (group, says, said) = content;
    let mut packet = in_version(version, &packet_of("a", says, said));
    packet.group = group.map(named);
    packet
}

/// Whether the packet of a version with some content is told as the one with other content, in bytes that are a packet.
fn is_told_as(version: Version, said: &Content, told: &Content) -> bool {
    let bytes = bytes_of(&packet_in(version, said));
    both_are(&bytes, Ok(true)) && is_read_as(&bytes, &packet_in(version, told))
}

/// Twelve claims.
const TWELVE: &[Said] = &[
    Numbered(0),
    Numbered(1),
    Numbered(2),
    Numbered(3),
    Numbered(4),
    Numbered(5),
    Numbered(6),
    Numbered(7),
    Numbered(8),
    Numbered(9),
    Numbered(10),
    Numbered(11),
];

/// The first six of them.
const SIX: &[Said] = &[
    Numbered(0),
    Numbered(1),
    Numbered(2),
    Numbered(3),
    Numbered(4),
    Numbered(5),
];

/// What packets of versions 1 and 2 say, and as what it is told.
const LESS: &[(Content, Content)] = &[
    (
        (None, Says::Page, &[Left("c", 3), Alive("d", 0)]),
        (None, Says::Page, &[Failed("c", 3), Alive("d", 0)]),
    ),
    (
        (Some("g"), Says::Ping(7, "b"), &[]),
        (None, Says::Ping(7, "b"), &[]),
    ),
    (
        (None, Says::AckFor(7, "b"), &[Alive("c", 0)]),
        (None, Says::Ack(7), &[Alive("c", 0)]),
    ),
    (
        (None, Says::NackFor(7, "b"), &[]),
        (None, Says::Nack(7), &[]),
    ),
    (
        (None, Says::Gossip, &[Alive("c", 0)]),
        (None, Says::Page, &[Alive("c", 0)]),
    ),
    ((None, Says::Page, TWELVE), (None, Says::Page, SIX)),
    ((Some("g"), Says::Gossip, TWELVE), (None, Says::Page, SIX)),
];

/// Versions 1 and 2 tell no group, no receiver, a Gossip as a Page, Left as Failed, and no more than six claims.
#[test]
fn older_versions_tell_less(rt: HostRuntime) {
    for (number, (said, told)) in LESS.iter().enumerate() {
        for version in OLD {
            assert!(rt;
                is_told_as(*version, said, told),
                "row {number}, {version:?}"
            );
        }
    }
}

/// What packets of version 3 say, and as what it is told.
const ALL: &[(Content, Content)] = &[
    (
        (None, Says::Ack(7), &[Alive("c", 0)]),
        (None, Says::AckFor(7, "a"), &[Alive("c", 0)]),
    ),
    (
        (Some("g"), Says::Nack(7), &[]),
        (Some("g"), Says::NackFor(7, "a"), &[]),
    ),
    (
        (None, Says::AckFor(7, "b"), &[Left("c", 3)]),
        (None, Says::AckFor(7, "b"), &[Left("c", 3)]),
    ),
    (
        (Some("g"), Says::Gossip, TWELVE),
        (Some("g"), Says::Gossip, TWELVE),
    ),
    (
        (
            None,
            Says::RequestFar(7, "c"),
            &[AliveFar("d"), SuspectFar("e", "b")],
        ),
        (
            None,
            Says::RequestFar(7, "c"),
            &[AliveFar("d"), SuspectFar("e", "b")],
        ),
    ),
];

/// Version 3 tells all, but an Ack or a Nack without a receiver as one for its own sender.
#[test]
fn version_three_tells_all(rt: HostRuntime) {
    for (number, (said, told)) in ALL.iter().enumerate() {
        assert!(rt; is_told_as(Version::Three, said, told), "row {number}");
    }
}

/// A packet of a version whose target and whose only member are at an address.
fn located(version: Version, addr: Addr) -> Packet {
    let mut packet = in_version(version, &packet_of("a", &Says::Page, &[]));
    packet.body = Body::PingReq {
        number: 7,
        target: named("c"),
        addr,
    };
    // Built anew from its parts, since the checker doesn't follow a whole claim into a generic call.
    let Claim {
        name,
        status,
        incarnation,
        ..
    } = claim_of(&Alive("d", 4));
    let mut claims = ArrayVec::new();
    claims.push(Claim {
        name,
        addr,
        status,
        incarnation,
    });
    packet.claims = claims;
    packet
}

/// Versions 1 and 2 tell an address of sixteen bytes as 0.0.0.0.
#[test]
fn tells_other_addresses_as_none(rt: HostRuntime) {
    for version in OLD {
        let bytes = bytes_of(&located(*version, far()));
        let told = located(*version, Addr::v4([0; 4], 7));
        assert!(rt;
            both_are(&bytes, Ok(true)) && is_read_as(&bytes, &told),
            "{version:?}"
        );
    }
}

/// The packet of a version with a group, a sender and a target of the longest name, an address, and some claims.
fn longest(version: Version, group: Option<Member>, addr: Addr, said: &[Said]) -> Packet {
    let mut packet = in_version(version, &packet_of(LONGEST, &Says::Page, said));
    packet.group = group.map(named);
    packet.body = Body::PingReq {
        number: u32::MAX,
        target: named(LONGEST),
        addr,
    };
    packet
}

/// The longest packet of version 2, and that of version 3.
fn longest_of_each() -> [Packet; 2] {
    let near = longest(
        Version::Two,
        None,
        Addr::v4([255; 4], u16::MAX),
        &[Suspect(LONGEST, 0, LONGEST); 6],
    );
    let far = longest(
        Version::Three,
        Some(LONGEST),
        Addr::v6([255; 16], u16::MAX),
        &[SuspectFar(LONGEST, LONGEST); 12],
    );
    [near, far]
}

/// Their lengths: the head, the group, the sender, the body, the count, and the claims.
const LENGTHS: [usize; 2] = [4 + 33 + 43 + 1 + 6 * 77, 4 + 33 + 33 + 56 + 1 + 12 * 90];

/// Some bytes and one more, for which a packet may have no room.
fn longer(bytes: &[u8]) -> ArrayVec<u8, 1208> {
    let mut longer = ArrayVec::new();
    let _ = longer.try_extend_from_slice(bytes);
    let _ = longer.try_push(0);
    longer
}

/// The longest packets have as many bytes as they should, and are read as they were written. With one more byte they
/// are no packets. There is room for the longest of all.
#[test]
fn the_longest_packets(rt: HostRuntime) {
    assert_eq!(rt; [LENGTHS[0], LENGTHS[1], MAX_PACKET], [543, 1207, 1207]);
    for (wanted, length) in longest_of_each().iter().zip(LENGTHS) {
        let bytes = bytes_of(wanted);
        let longer = longer(&bytes);
        let facts = [
            bytes.len() == length && longer.len() == length + 1,
            both_are(&bytes, Ok(true)),
            is_read_as(&bytes, wanted),
            both_are(&longer, Err(Fault::Trailing)),
        ];
        assert_eq!(rt;
            facts,
            [true; 4],
            "its length, it is one, it is read, no byte follows"
        );
    }
}
