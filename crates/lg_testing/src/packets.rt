//! Packets of members whose names are one letter, and whether two packets are equal.
use crate::claims::letter;
use arrayvec::ArrayVec;
use lg_packet::{Body, Packet, Version};
use lg_rules::{Claim, MAX_CLAIMS};

/// The first of some claims, at most as many as a packet has room for.
pub fn said(claims: &[Claim]) -> ArrayVec<Claim, MAX_CLAIMS> {
    let mut list = ArrayVec::new();
    for claim in claims {
        if !list.is_full() {
            list.push(*claim);
        }
    }
    list
}

/// A packet of version 1 of the member named by a letter, with the first of some claims.
pub fn packet(sender: u8, body: Body, claims: &[Claim]) -> Packet {
    Packet {
        version: Version::One,
        group: None,
        sender: letter(sender),
        body,
        claims: said(claims),
    }
}

/// A Ping for the member named by a letter.
pub fn ping(number: u32, target: u8) -> Body {
    Body::Ping {
        number,
        target: letter(target),
    }
}

/// An Ack that names no receiver.
pub fn ack(number: u32) -> Body {
    Body::Ack {
        number,
        receiver: None,
    }
}

/// Whether two packets are equal.
pub fn is_same_packet(one: &Packet, other: &Packet) -> bool {
    one.version == other.version
        && one.group == other.group
        && one.sender == other.sender
        && one.body == other.body
        && one.claims.as_slice() == other.claims.as_slice()
}
