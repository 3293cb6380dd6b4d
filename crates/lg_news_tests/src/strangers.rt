//! Unknown names that come to a full table whose other members are all gone.
use crate::playing::play_on;
use crate::rooms::knows_numbered;
use arrayvec::ArrayVec;
use lg_detector::{Detector, Event, MAX_MEMBERS, Reply};
use lg_detector_testing::Happens::In;
use lg_detector_testing::Step::{self, Changed, Forgot, Members, Takes};
use lg_detector_testing::takes;
use lg_packet::Version::Three;
use lg_packet::{Body, MAX_CLAIMS, Packet};
use lg_rules::{Claim, Name, Status};
use lg_testing::bodies::Says::Gossip;
use lg_testing::says::Said::{Alive, Failed};
use lg_testing::says::named;
use lg_testing::{at, claim, local, numbered};

/// The claims about some numbered members, from one on.
fn claims_from(first: u32, count: u32, status: Status) -> ArrayVec<Claim, MAX_CLAIMS> {
    let mut claims = ArrayVec::new();
    for number in first..first.saturating_add(count) {
        let Claim {
            name,
            addr,
            status,
            incarnation,
        } = claim(numbered(number), status, 0);
        if !claims.is_full() {
            claims.push(Claim {
                name,
                addr,
                status,
                incarnation,
            });
        }
    }
    claims
}

/// The names of some numbered members, from one on.
fn names_from(first: u32, count: u32) -> ArrayVec<Name, MAX_CLAIMS> {
    let mut names = ArrayVec::new();
    for number in first..first.saturating_add(count) {
        let name = numbered(number);
        if !names.is_full() {
            names.push(name);
        }
    }
    names
}

/// A Gossip about some numbered members, from one on.
fn gossip(now: u64, first: u32, count: u32, status: Status) -> Event {
    Event::Heard {
        now: at(now),
        source: local(1),
        packet: Packet {
            version: Three,
            group: None,
            sender: named("a"),
            body: Body::Gossip,
            claims: claims_from(first, count, status),
        },
    }
}

/// Whether b hears that some numbered members have failed, and takes all of it.
fn fails(detector: &mut Detector, first: u32, count: u32, reply: &mut Reply) -> bool {
    takes(detector, &gossip(0, first, count, Status::Failed), reply)
        && reply.changed.as_slice() == claims_from(first, count, Status::Failed).as_slice()
        && reply.forgotten.is_empty()
}

/// Whether b hears that twelve unknown members are alive, takes the first of them, and forgets as many of those that
/// are gone.
fn takes_of_twelve(
    detector: &mut Detector,
    first: u32,
    taken: u32,
    gone: u32,
    reply: &mut Reply,
) -> bool {
    takes(detector, &gossip(10, first, 12, Status::Alive), reply)
        && reply.changed.as_slice() == claims_from(first, taken, Status::Alive).as_slice()
        && reply.forgotten.as_slice() == names_from(gone, taken).as_slice()
}

/// How many of the twelve unknown members of each packet are taken: 255 in all.
const TAKEN: &[u32] = &[
    12, 12, 12, 12, 12, 12, 12, 12, 12, 12, 12, 12, 12, 12, 12, 12, 12, 12, 12, 12, 12, 3, 0, 0, 0,
];

/// The first of the new members fails, and is forgotten for a member that joins.
const JOINS: &[Step<'static>] = &[
    Takes(In(20, Three, "a", Gossip, &[Failed("m255", 0)])),
    Changed(&[Failed("m255", 0)]),
    Forgot(&[]),
    Takes(In(30, Three, "a", Gossip, &[Alive("joiner", 0)])),
    Changed(&[Alive("joiner", 0)]),
    Forgot(&["m255"]),
    Members(MAX_MEMBERS),
];

/// m000 to m254 fail at one moment. Of 300 unknown members, m255 to m554, the first 255 are taken, and the others are
/// forgotten for them in the order of their names. Nobody is gone then, so that the rest isn't taken.
#[test]
fn takes_as_many_as_are_gone(rt: HostRuntime) {
    let mut detector = knows_numbered(&rt, rt.alloc(), 60_000);
    let mut reply = Reply::default();
    for (packet, count) in (0..22_u32).zip(TAKEN) {
        let met = fails(&mut detector, packet.saturating_mul(12), *count, &mut reply);
        assert!(rt; met, "failed, packet {packet}: {reply:?}");
    }
    for (packet, taken) in (0..25_u32).zip(TAKEN) {
        let gone = packet.saturating_mul(12);
        let first = gone.saturating_add(255);
        let met = takes_of_twelve(&mut detector, first, *taken, gone, &mut reply);
        assert!(rt; met, "unknown, packet {packet}: {reply:?}");
    }
    play_on(&rt, &mut detector, "a joiner", JOINS);
}
