//! Sealed datagrams: worked rows, each front and each change of a byte of one, and datagrams of members that have other
//! keys or none.

use crate::keys::{SECOND, is_told};
use crate::tags::FIRST;
use arrayvec::ArrayVec;
use lg_packet::{Fault, MAX_PACKET, decode};
use lg_seal::{GroupKey, Keys, SEAL_LEN, SealFault, Sealer, TAG_LEN};

/// The most bytes of a sealed datagram.
const MAX_SEALED: usize = MAX_PACKET + SEAL_LEN;

/// A Ping from `a` for `b`, numbered 7.
const PING: &[u8] = b"SL\x01\x01\x01a\x00\x00\x00\x07\x01b\x00";

/// The Ping, sealed with the first key. The tag is that of the module `hmac` of Python, as in the rows below.
const SEALED: &[u8] = b"LK\x01SL\x01\x01\x01a\x00\x00\x00\x07\x01b\x00\
    \x67\xae\xea\x53\xab\x87\x50\x65\xc3\xb8\x5b\xc2\x84\x04\x6d\x0f";

/// The Ping, sealed with the second key.
const SEALED_SECOND: &[u8] = b"LK\x01SL\x01\x01\x01a\x00\x00\x00\x07\x01b\x00\
    \x14\x27\x90\x39\x14\x9d\x24\x3d\x69\x97\xa8\x0b\x0c\x60\x98\xd7";

/// No bytes.
const NOTHING: &[u8] = b"";

/// They, sealed with the first key.
const SEALED_NOTHING: &[u8] = b"LK\x01\
    \x27\x04\x5b\xb3\xe4\x47\x59\xb7\xbe\xda\x1a\x79\x3b\xd0\xe0\x59";

/// The Ping behind the head, with the tag under the first key of the Ping alone.
const SEALED_WITHOUT_HEAD: &[u8] = b"LK\x01SL\x01\x01\x01a\x00\x00\x00\x07\x01b\x00\
    \xdd\x0d\x01\x6f\x7c\x3f\x27\x85\x17\x97\x48\xa3\xf9\xdd\xf7\xed";

/// The bytes of the head.
const HEAD_LEN: usize = SEAL_LEN - TAG_LEN;

/// One key.
fn only(bytes: [u8; 32]) -> Sealer {
    Sealer::new(&Keys {
        first: GroupKey::new(bytes),
        second: None,
    })
}

/// Two keys, of which the first signs.
fn both(first: [u8; 32], second: [u8; 32]) -> Sealer {
    Sealer::new(&Keys {
        first: GroupKey::new(first),
        second: Some(GroupKey::new(second)),
    })
}

/// Whether the bytes, sealed with these keys, are this datagram, and it opens with them to the bytes.
fn is_sealed(sealer: &Sealer, packet: &[u8], want: &[u8]) -> bool {
    let mut room = ArrayVec::<u8, MAX_SEALED>::new();
    if packet.len() > MAX_PACKET {
        return false;
    }
    // What the room held before is gone.
    room.push(0);
    sealer.seal(packet, &mut room);
    room.as_slice() == want && sealer.open(want) == Ok(packet)
}

#[test]
fn seals_and_opens(rt: HostRuntime) {
    let rows = [
        (only(FIRST), PING, SEALED),
        (both(FIRST, SECOND), PING, SEALED),
        (only(SECOND), PING, SEALED_SECOND),
        (both(SECOND, FIRST), PING, SEALED_SECOND),
        (only(FIRST), NOTHING, SEALED_NOTHING),
    ];
    for (sealer, packet, want) in rows {
        assert!(rt; is_sealed(&sealer, packet, want), "{want:?}");
    }
}

#[test]
fn opens_with_either_key(rt: HostRuntime) {
    let rows = [
        (both(FIRST, SECOND), SEALED, Ok(PING)),
        (both(FIRST, SECOND), SEALED_SECOND, Ok(PING)),
        (both(SECOND, FIRST), SEALED, Ok(PING)),
        (only(SECOND), SEALED, Err(SealFault::Forged)),
        (only(FIRST), SEALED_SECOND, Err(SealFault::Forged)),
        (only(FIRST), SEALED_WITHOUT_HEAD, Err(SealFault::Forged)),
        (only(FIRST), PING, Err(SealFault::Unsigned)),
        (only(FIRST), NOTHING, Err(SealFault::Unsigned)),
    ];
    for (sealer, datagram, want) in rows {
        assert_eq!(rt; sealer.open(datagram), want, "{datagram:?}");
    }
}

/// What the front of the sealed Ping with this many bytes opens to.
fn fault_of_front(len: usize) -> SealFault {
    if len < SEAL_LEN {
        SealFault::Unsigned
    } else {
        SealFault::Forged
    }
}

/// Each front of a sealed datagram is refused.
#[test]
fn refuses_fronts(rt: HostRuntime) {
    let sealer = both(SECOND, FIRST);
    for len in 0..SEALED.len() {
        let front = &SEALED[..len];
        assert_eq!(rt; sealer.open(front), Err(fault_of_front(len)), "{len}");
    }
}

/// Whether a sealed datagram is refused if these bits of the byte in this place are turned.
fn is_refused_with(sealer: &Sealer, place: usize, bits: u8) -> bool {
    let mut changed = ArrayVec::<u8, MAX_SEALED>::new();
    if changed.try_extend_from_slice(SEALED).is_err() || place >= changed.len() {
        return false;
    }
    changed[place] ^= bits;
    let want = if place < HEAD_LEN {
        SealFault::Unsigned
    } else {
        SealFault::Forged
    };
    sealer.open(changed.as_slice()) == Err(want)
}

/// Each bit of a sealed datagram is turned, and all bits of each byte of it, and each time it is refused.
#[test]
fn refuses_changed_bytes(rt: HostRuntime) {
    let sealer = both(FIRST, SECOND);
    for place in 0..SEALED.len() {
        for bits in [1, 2, 4, 8, 16, 32, 64, 128, 255] {
            assert!(rt; is_refused_with(&sealer, place, bits), "{bits} at {place}");
        }
    }
}

/// The greatest packet has its room, and a member without keys refuses a sealed datagram by its first bytes.
#[test]
fn seals_the_greatest_packet(rt: HostRuntime) {
    let sealer = only(FIRST);
    let packet = [b'a'; MAX_PACKET];
    let mut room = ArrayVec::<u8, MAX_SEALED>::new();
    sealer.seal(&packet, &mut room);
    assert!(rt; room.is_full());
    assert!(rt; sealer.open(room.as_slice()) == Ok(packet.as_slice()));
    assert_eq!(rt; decode(room.as_slice()).err(), Some(Fault::Magic));
}

/// The messages of the faults.
#[test]
fn tells_faults(rt: HostRuntime) {
    let rows = [
        (SealFault::Unsigned, "the datagram isn't sealed"),
        (
            SealFault::Forged,
            "the datagram isn't sealed with a key of this group",
        ),
    ];
    for (fault, want) in rows {
        assert_eq!(rt; is_told(rt.alloc(), &fault, want), Ok(true), "{want}");
    }
}
