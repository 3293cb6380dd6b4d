//! Bodies of packets as plain data, as the claims of `says` are.
use crate::claims::local;
use crate::says::{Member, Said, claims_of, far, named};
use lg_packet::{Body, Packet, Version};

/// The body of a packet. Members are letters.
#[derive(Clone, Copy)]
pub enum Says {
    /// A Ping, by its number, of a member.
    Ping(u32, Member),
    /// A request, by its number, to ping a member at a port.
    Request(u32, Member, u16),
    /// A request, by its number, to ping a member at port 7 of ::1.
    RequestFar(u32, Member),
    /// An Ack that names no receiver.
    Ack(u32),
    /// An Ack for a receiver.
    AckFor(u32, Member),
    /// A Nack that names no receiver.
    Nack(u32),
    /// A Nack for a receiver.
    NackFor(u32, Member),
    /// A Pull for the first records.
    PullFirst,
    /// A Pull for the records after a member.
    PullAfter(Member),
    /// A Page.
    Page,
    /// A Gossip.
    Gossip,
}

/// An Ack, for a receiver if one is given.
fn ack_of(number: u32, receiver: Option<Member>) -> Body {
    Body::Ack {
        number,
        receiver: receiver.map(named),
    }
}

/// A Nack, for a receiver if one is given.
fn nack_of(number: u32, receiver: Option<Member>) -> Body {
    Body::Nack {
        number,
        receiver: receiver.map(named),
    }
}

/// The body of a packet.
pub fn body_of(says: &Says) -> Body {
    match says {
        Says::Ping(number, member) => Body::Ping {
            number: *number,
            target: named(member),
        },
        Says::Request(number, member, port) => Body::PingReq {
            number: *number,
            target: named(member),
            addr: local(*port),
        },
        Says::RequestFar(number, member) => Body::PingReq {
            number: *number,
            target: named(member),
            addr: far(),
        },
        Says::Ack(number) => ack_of(*number, None),
        Says::AckFor(number, receiver) => ack_of(*number, Some(receiver)),
        Says::Nack(number) => nack_of(*number, None),
        Says::NackFor(number, receiver) => nack_of(*number, Some(receiver)),
        Says::PullFirst => Body::Pull { after: None },
        Says::PullAfter(member) => Body::Pull {
            after: Some(named(member)),
        },
        Says::Page => Body::Page,
        Says::Gossip => Body::Gossip,
    }
}

/// A packet of version 1 of a member, with the first twelve of some claims.
pub fn packet_of(sender: Member, says: &Says, said: &[Said]) -> Packet {
    Packet {
        version: Version::One,
        group: None,
        sender: named(sender),
        body: body_of(says),
        claims: claims_of(said),
    }
}
