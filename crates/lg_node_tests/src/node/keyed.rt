//! Keyed links over a link in memory: what comes of each datagram, what is handed to the link inside, and a loop over
//! such a link.

use super::clocks::MemoryClock;
use super::links::PING_7;
use super::loops::receive;
use super::playing::{Play, Shown, told};
use super::wire::{
    Arrival, FIRST, SEALED, SEALED_NOTHING, SEALED_OTHER, SEALED_SECOND, SEALED_VERSION_2, SECOND,
    Wire, both, counts, only,
};
use arrayvec::ArrayVec;
use lg_agent::{AgentName, Pass, Spent};
use lg_agent_testing::{Case, Ending, Left, last_pass};
use lg_node::{Counted, Ended, KeyedLink, Link, LinkFault, LoopEnd, MAX_DATAGRAM, Why};
use lg_packet::MAX_PACKET;
use lg_seal::{Keys, SEAL_LEN, TAG_LEN};
use lg_testing::local;
use std::alloc::Global;
use std::sync::Wait;
use std::sync::atomic::AtomicBool;

/// The Ack of b with the number 7, sealed with the first key.
const SEALED_ACK: &[u8] = b"LK\x01SL\x01\x03\x01b\x00\x00\x00\x07\x00\
    \xc8\xf6\x0a\xf9\x5e\xe4\xcc\x3d\x3b\x29\xf0\xf5\x8c\xb4\xcc\x6b";

/// The tag under the first key of 1,207 letters `a` behind the head.
const TAG_OF_LETTERS: &[u8; TAG_LEN] =
    b"\xd6\x49\xe7\x5d\xbb\x94\xc6\x5f\x2b\x52\x2e\x5d\xb4\x81\xb6\x06";

/// The bytes of the head of a sealed datagram.
const HEAD_LEN: usize = SEAL_LEN - TAG_LEN;

/// How long a call of `receive` is to wait, in milliseconds.
const LIMIT_MS: u64 = 20;

/// Whether the next thing that comes over a link is this.
fn comes<L: Link>(link: &mut L, want: Arrival<'_>) -> bool {
    let mut buffer = [0xff; MAX_DATAGRAM];
    match (link.receive(&mut buffer, LIMIT_MS), want) {
        (Ok(Some((source, length))), Arrival::Datagram(bytes)) => {
            source == local(7001) && &buffer[..length] == bytes
        }
        (Ok(None), Arrival::Nothing) => true,
        (Err(LinkFault), Arrival::Fault) => true,
        _ => false,
    }
}

/// What comes of each thing that comes over the link inside, and what is counted then.
#[test]
fn takes_what_is_sealed(rt: HostRuntime) {
    let (one, two) = (only(FIRST), both(FIRST, SECOND));
    let ping = Arrival::Datagram(PING_7);
    let none = Arrival::Nothing;
    let rows = [
        (
            "first key",
            one,
            Arrival::Datagram(SEALED),
            ping,
            counts(0, 0),
        ),
        ("of two", two, Arrival::Datagram(SEALED), ping, counts(0, 0)),
        (
            "second key",
            two,
            Arrival::Datagram(SEALED_SECOND),
            ping,
            counts(0, 0),
        ),
        (
            "no bytes",
            one,
            Arrival::Datagram(SEALED_NOTHING),
            Arrival::Datagram(b""),
            counts(0, 0),
        ),
        ("plain", one, ping, none, counts(1, 0)),
        ("empty", one, Arrival::Datagram(b""), none, counts(1, 0)),
        (
            "version 2",
            one,
            Arrival::Datagram(SEALED_VERSION_2),
            none,
            counts(1, 0),
        ),
        (
            "no second",
            one,
            Arrival::Datagram(SEALED_SECOND),
            none,
            counts(0, 1),
        ),
        (
            "other key",
            two,
            Arrival::Datagram(SEALED_OTHER),
            none,
            counts(0, 1),
        ),
        ("nothing", one, none, none, counts(0, 0)),
        ("fault", one, Arrival::Fault, Arrival::Fault, counts(0, 0)),
    ];
    for (name, keys, coming, want, counted) in rows {
        let coming = [coming];
        let mut link = KeyedLink::new(Wire::new(&coming), &keys);
        assert!(rt; comes(&mut link, want), "{name}");
        assert_eq!(rt; link.get_ref().limit_ms, LIMIT_MS, "{name}");
        assert_eq!(rt; link.counted(), counted, "{name}");
        assert_eq!(rt;
            link.failures(),
            u64::from(matches!(want, Arrival::Fault)),
            "{name}"
        );
    }
}

/// What a link with the first key has dropped, if these bits of the byte in this place of a sealed datagram are turned.
fn dropped_with(place: usize, bits: u8) -> Counted {
    let mut changed = ArrayVec::<u8, MAX_DATAGRAM>::new();
    if changed.try_extend_from_slice(SEALED).is_err() || place >= changed.len() {
        return counts(0, 0);
    }
    changed[place] ^= bits;
    let coming = [Arrival::Datagram(changed.as_slice())];
    let keys = only(FIRST);
    let mut link = KeyedLink::new(Wire::new(&coming), &keys);
    if comes(&mut link, Arrival::Nothing) {
        link.counted()
    } else {
        counts(0, 0)
    }
}

/// Each bit of a sealed datagram is turned, and each time it is dropped.
#[test]
fn drops_changed_datagrams(rt: HostRuntime) {
    for place in 0..SEALED.len() {
        let want = if place < HEAD_LEN {
            counts(1, 0)
        } else {
            counts(0, 1)
        };
        for bits in [1, 2, 4, 8, 16, 32, 64, 128] {
            assert_eq!(rt; dropped_with(place, bits), want, "{bits} at {place}");
        }
    }
}

/// Datagrams come one after another. What is dropped is counted, and keeps nothing from coming later.
#[test]
fn counts_what_is_dropped(rt: HostRuntime) {
    let (plain, sealed) = (Arrival::Datagram(PING_7), Arrival::Datagram(SEALED));
    let other = Arrival::Datagram(SEALED_OTHER);
    let coming = [
        plain,
        sealed,
        other,
        Arrival::Fault,
        plain,
        Arrival::Nothing,
        other,
        other,
        sealed,
    ];
    let wants = [
        Arrival::Nothing,
        plain,
        Arrival::Nothing,
        Arrival::Fault,
        Arrival::Nothing,
        Arrival::Nothing,
        Arrival::Nothing,
        Arrival::Nothing,
        plain,
    ];
    let keys = only(FIRST);
    let mut link = KeyedLink::new(Wire::new(&coming), &keys);
    for (place, want) in wants.iter().enumerate() {
        assert!(rt; comes(&mut link, *want), "{place}");
    }
    assert_eq!(rt; (link.counted(), link.failures()), (counts(2, 3), 1));
}

/// Whether a link with these keys hands over a packet once, sealed as this, for port 7002.
fn hands(keys: &Keys, packet: &[u8], is_cut: bool, want: &[u8]) -> bool {
    let mut wire = Wire::new(&[]);
    wire.is_cut = is_cut;
    let mut link = KeyedLink::new(wire, keys);
    let is_sent = link.send(local(7002), packet).is_ok();
    let wire = link.get_ref();
    is_sent != is_cut
        && link.failures() == u64::from(is_cut)
        && wire.handed == 1
        && wire.port == 7002
        && wire.bytes.as_slice() == want
}

/// The first key signs, also if the datagram isn't sent.
#[test]
fn seals_what_is_sent(rt: HostRuntime) {
    let rows = [
        (only(FIRST), PING_7.as_slice(), SEALED),
        (both(FIRST, SECOND), PING_7.as_slice(), SEALED),
        (both(SECOND, FIRST), PING_7.as_slice(), SEALED_SECOND),
        (only(FIRST), b"".as_slice(), SEALED_NOTHING),
    ];
    for (keys, packet, want) in rows {
        assert!(rt; hands(&keys, packet, false, want), "{want:?}");
        assert!(rt; hands(&keys, packet, true, want), "{want:?}");
    }
}

/// The greatest packet has its room. Of longer bytes the rest is cut off.
#[test]
fn seals_the_greatest_packet(rt: HostRuntime) {
    let letters = [b'a'; MAX_PACKET + 2];
    let mut want = ArrayVec::<u8, MAX_DATAGRAM>::new();
    for part in [b"LK\x01".as_slice(), &letters[..MAX_PACKET], TAG_OF_LETTERS] {
        assert!(rt; want.try_extend_from_slice(part).is_ok());
    }
    for more in 0..3 {
        let packet = &letters[..MAX_PACKET + more];
        assert!(rt;
            hands(&only(FIRST), packet, false, want.as_slice()),
            "{more}"
        );
    }
}

/// What a member has sent and what comes back to it is sealed with a key of its group, so it comes. The detector takes
/// a packet of its own name like any other.
#[test]
fn takes_what_it_sent(rt: HostRuntime) {
    let keys = both(SECOND, FIRST);
    let mut sender = KeyedLink::new(Wire::new(&[]), &keys);
    assert!(rt; sender.send(local(7001), PING_7).is_ok());
    let coming = [Arrival::Datagram(sender.get_ref().bytes.as_slice())];
    let mut link = KeyedLink::new(Wire::new(&coming), &keys);
    assert!(rt; comes(&mut link, Arrival::Datagram(PING_7)));
    assert_eq!(rt; link.counted(), counts(0, 0));
}

/// What comes over the link inside, while a receiving loop runs: only the last is sealed with the first key.
const ARRIVALS: [Arrival<'static>; 4] = [
    Arrival::Datagram(PING_7),
    Arrival::Datagram(SEALED_OTHER),
    Arrival::Nothing,
    Arrival::Datagram(SEALED),
];

/// What a receiving loop over a keyed link did.
#[derive(Clone, Copy, Debug, PartialEq, Eq)]
pub struct KeyedSeen {
    end: LoopEnd,
    counted: Counted,
    /// How many datagrams were handed to the link inside, and whether the last one was the sealed Ack.
    handed: u64,
    is_answered: bool,
}

/// Runs the receiving loop with a pass, a turn for each thing that comes.
fn run_pass<A: AgentName, R: Wait>(
    rt: &R,
    alloc: Global,
    pass: Pass<'_, A>,
) -> (KeyedSeen, Spent<A>) {
    let stop = AtomicBool::new(false);
    let clock = MemoryClock::new(0);
    let keys = only(FIRST);
    let link = KeyedLink::new(Wire::new(&ARRIVALS), &keys);
    let turns = ARRIVALS.len() as u64;
    let Ended { link, spent, end } = receive(rt, alloc, pass, link, &clock, &stop, turns);
    let wire = link.get_ref();
    let seen = KeyedSeen {
        end,
        counted: link.counted(),
        handed: wire.handed,
        is_answered: wire.bytes.as_slice() == SEALED_ACK,
    };
    (seen, spent)
}

/// Runs the receiving loop with the last pass.
pub fn run_keyed<A: AgentName, R: Wait>(
    rt: &R,
    alloc: Global,
    passes: Vec<Pass<'_, A>>,
    spents: Vec<Spent<A>>,
) -> Left<A, Shown> {
    let Some(pass) = last_pass(passes) else {
        return Left::nothing(spents);
    };
    let (seen, spent) = run_pass(rt, alloc, pass);
    Left::with(spents, spent, Shown::Keyed(seen))
}

/// A datagram that is dropped makes no call. To the Ping that is sealed comes a sealed Ack.
#[test]
fn loops_hear_what_is_sealed(rt: HostRuntime) {
    let want = KeyedSeen {
        end: LoopEnd {
            why: Why::ReadBound,
            dropped: 0,
            unsent: 0,
            turns: 4,
        },
        counted: counts(1, 1),
        handed: 1,
        is_answered: true,
    };
    let outcome = told(&rt, rt.alloc(), Case::new(1, Play::Keyed));
    let met = outcome.as_ref().is_ok_and(|outcome| match &outcome.seen {
        Some(Shown::Keyed(seen)) => { *seen == want && outcome.ending == Ending::closed(None, 2) }
        _ => false,
    });
    assert!(rt; met);
}
