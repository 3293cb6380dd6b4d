//! Entries of each kind of event, timer and answer, with packets of all three versions.

use arrayvec::ArrayVec;
use lg_detector::{Answer, Event, Outgoing, Reply, Timer, TimerId};
use lg_packet::{Body, Packet, Version};
use lg_rules::{Addr, Claim, Status};
use lg_testing::{
    ack, alive, at, claim, failed, incarnation, letter, local, name, numbered, ping, said, suspect,
};
use lg_timing::{Config, Seed};

/// How many entries there are.
pub(crate) const SAMPLES: usize = 11;

/// From this one on they are short.
pub(crate) const SMALL: usize = 6;

/// For how many milliseconds the clock stood still before each.
pub(crate) const STOOD_STILL: [u64; SAMPLES] = [
    0,
    1,
    127,
    128,
    1500,
    16_383,
    16_384,
    86_400_000,
    1_000_000_000_000_000,
    9_223_372_036_854_775_808,
    18_446_744_073_709_551_615,
];

/// Random words.
const WORDS: [u32; 8] = [0, 1, 2, 0x8000_0000, 0xffff_ffff, 5, 6, 7];

/// An IPv6 address.
fn far() -> Addr {
    Addr::v6(
        [0x20, 1, 0xd, 0xb8, 0, 0, 0, 0, 0, 0, 0, 0, 0, 0, 0, 9],
        65535,
    )
}

/// A packet of a version, from a member of a group if the version tells one.
fn packet_in(version: Version, body: Body, claims: &[Claim]) -> Packet {
    let group = match version {
        Version::One | Version::Two => None,
        Version::Three => Some(name(b"blue")),
    };
    Packet {
        version,
        group,
        sender: name(b"first.member-of_the.group-00000.1"),
        body,
        claims: said(claims),
    }
}

/// A configuration with a group, an IPv6 address and two seeds.
fn config() -> Config {
    let mut config = Config::new(name(b"node-1"), far());
    config.wire = 3;
    config.first = 4_294_967_295;
    config.group = Some(name(b"blue"));
    config.seeds.push(Seed {
        name: letter(b'x'),
        addr: local(7001),
    });
    config.seeds.push(Seed {
        name: letter(b'y'),
        addr: far(),
    });
    config
}

/// A reply with a timer that fired and the next deadline.
fn fired(id: TimerId, next: u64) -> Reply {
    let mut reply = Reply::default();
    reply.fired = Some(Timer { deadline: 300, id });
    reply.next = next;
    reply
}

/// A reply with an answer.
fn answered(answer: Answer) -> Reply {
    let mut reply = Reply::default();
    reply.answer = Some(answer);
    reply.next = u64::MAX;
    reply
}

/// Twelve records.
fn twelve() -> ArrayVec<Claim, 12> {
    let mut claims = ArrayVec::new();
    for number in 0..12 {
        claims.push(claim(numbered(number), Status::Alive, number));
    }
    claims
}

/// A reply that has as much as one can have.
fn full() -> Reply {
    let mut reply = fired(TimerId::Suspicion(letter(b'q')), 16_384);
    for number in 0..8u16 {
        reply.sends.push(Outgoing {
            to: local(7000 + number),
            packet: packet_in(
                Version::Three,
                ping(u32::from(number), b'b'),
                twelve().as_slice(),
            ),
        });
    }
    reply.changed = twelve();
    for number in 0..12 {
        reply.forgotten.push(numbered(500 + number));
    }
    reply.ousted = true;
    reply
}

/// The entry with this number, 0 to 10.
pub(crate) fn sample(number: usize) -> (usize, Event, Reply) {
    let now = at(300);
    let words = WORDS;
    match number {
        0 => (
            0,
            Event::Open {
                now,
                config: config(),
            },
            Reply::default(),
        ),
        1 => (1, Event::Tick { now, words }, fired(TimerId::RoundEnd, 127)),
        2 => (32, Event::Tick { now, words }, full()),
        3 => {
            let packet = packet_in(
                Version::One,
                ack(7),
                &[alive(b'c', 0), suspect(b'd', 1, b'e')],
            );
            let source = local(7001);
            (
                1,
                Event::Heard {
                    now,
                    source,
                    packet,
                },
                fired(TimerId::RelayNack(9), 128),
            )
        }
        4 => {
            let packet = packet_in(Version::Two, Body::Page, &[failed(b'c', 1_000_000_000)]);
            let source = far();
            (
                1,
                Event::Heard {
                    now,
                    source,
                    packet,
                },
                fired(TimerId::RelayEnd(u32::MAX), 255),
            )
        }
        5 => {
            let receiver = Some(letter(b'z'));
            let body = Body::Nack {
                number: 1,
                receiver,
            };
            let packet = packet_in(Version::Three, body, twelve().as_slice());
            let source = far();
            (
                1,
                Event::Heard {
                    now,
                    source,
                    packet,
                },
                fired(TimerId::Forget(letter(b'q')), 1),
            )
        }
        6 => (
            2,
            Event::Ask {
                now,
                name: letter(b'c'),
            },
            answered(Answer::Status(None)),
        ),
        7 => {
            let record = Some(suspect(b'c', 4, b'd'));
            (
                2,
                Event::Ask {
                    now,
                    name: letter(b'c'),
                },
                answered(Answer::Status(record)),
            )
        }
        8 => {
            let answer = Answer::Health {
                score: 20,
                number: incarnation(1_000_000_000),
                members: 256,
            };
            (
                3,
                Event::Health {
                    now: at(1_000_000_000_000_000),
                },
                answered(answer),
            )
        }
        9 => (
            4,
            Event::Pull {
                now: at(0),
                peer: far(),
            },
            fired(TimerId::RoundStart, 0),
        ),
        _ => (5, Event::Leave { now, words }, fired(TimerId::Gossip, 9)),
    }
}
