//! The bytes that a packet begins with, and those that stand for its version and for the kinds of packets and of
//! claims.
//!
//! Defined in: `specs/Meaning/Spelling.antt`, `specs/Meaning/Reading.antt`.
//! Tested in: `lg_parts_tests/src/packet.rt`.
ghost use Rattle.std.specs.Prelude.{◌≡◌};
ghost use Rattle.lg_packet.specs.Meaning.Reading.{version_of_byte, seventh_kind, kind_of_byte};
ghost use Rattle.lg_packet.specs.Meaning.Reading.{fourth_kind, claim_kind_of_byte};
ghost use Rattle.lg_packet.specs.Meaning.Spelling.{kind_of, claim_kind_of};

use crate::packet::Body;
use lg_rules::{Status, Version};

/// The first byte of a packet. With the second it is the magic, which tells a packet from other datagrams.
pub(crate) const FIRST_MAGIC: u8 = 0x53;

/// The second byte of a packet.
pub(crate) const SECOND_MAGIC: u8 = 0x4c;

/// The version that a byte stands for, if it stands for one.
pub(crate) fn version_of_byte(byte: u8) -> Option<Version>
    ensures { result ≡ version_of_byte byte }
{
    match byte {
        1 => Some(Version::One),
        2 => Some(Version::Two),
        3 => Some(Version::Three),
        _ => None,
    }
}

/// The kind of a packet, by the byte that stands for it.
#[derive(Clone, Copy, Debug, PartialEq, Eq)]
pub(crate) enum Kind {
    /// A Ping.
    Ping = 1,
    /// A PingReq.
    PingReq = 2,
    /// An Ack.
    Ack = 3,
    /// A Nack.
    Nack = 4,
    /// A Pull.
    Pull = 5,
    /// A Page.
    Page = 6,
    /// A Gossip, which only version 3 has.
    Gossip = 7,
}

/// The kind of packet that the byte 7 stands for in a version: only version 3 has it.
fn seventh_kind(version: Version) -> Option<Kind>
    ensures { result ≡ seventh_kind version }
{
    match version {
        Version::One | Version::Two => None,
        Version::Three => Some(Kind::Gossip),
    }
}

/// The kind of packet that a byte stands for in a version, if it stands for one.
pub(crate) fn kind_of_byte(version: Version, byte: u8) -> Option<Kind>
    ensures { result ≡ kind_of_byte version byte }
{
    match byte {
        1 => Some(Kind::Ping),
        2 => Some(Kind::PingReq),
        3 => Some(Kind::Ack),
        4 => Some(Kind::Nack),
        5 => Some(Kind::Pull),
        6 => Some(Kind::Page),
        7 => seventh_kind(version),
        _ => None,
    }
}

/// The kind of a packet with this body. Versions 1 and 2 tell a Gossip as a Page.
pub(crate) fn kind_of(version: Version, body: &Body) -> Kind
    ensures { result ≡ kind_of version body.now }
{
    match body {
        Body::Ping { .. } => Kind::Ping,
        Body::PingReq { .. } => Kind::PingReq,
        Body::Ack { .. } => Kind::Ack,
        Body::Nack { .. } => Kind::Nack,
        Body::Pull { .. } => Kind::Pull,
        Body::Page => Kind::Page,
        Body::Gossip => match version {
            Version::One | Version::Two => Kind::Page,
            Version::Three => Kind::Gossip,
        },
    }
}

/// The kind of a claim, by the byte that stands for it.
#[derive(Clone, Copy, Debug, PartialEq, Eq)]
pub(crate) enum ClaimKind {
    /// The member is alive.
    Alive = 1,
    /// The member is suspected, by an accuser.
    Suspect = 2,
    /// The member has failed.
    Failed = 3,
    /// The member leaves, which only version 3 tells.
    Left = 4,
}

/// The kind of claim that the byte 4 stands for in a version: only version 3 has it.
fn fourth_kind(version: Version) -> Option<ClaimKind>
    ensures { result ≡ fourth_kind version }
{
    match version {
        Version::One | Version::Two => None,
        Version::Three => Some(ClaimKind::Left),
    }
}

/// The kind of claim that a byte stands for in a version, if it stands for one.
pub(crate) fn claim_kind_of_byte(version: Version, byte: u8) -> Option<ClaimKind>
    ensures { result ≡ claim_kind_of_byte version byte }
{
    match byte {
        1 => Some(ClaimKind::Alive),
        2 => Some(ClaimKind::Suspect),
        3 => Some(ClaimKind::Failed),
        4 => fourth_kind(version),
        _ => None,
    }
}

/// The kind of a claim with this status. Versions 1 and 2 tell Left as Failed.
pub(crate) fn claim_kind_of(version: Version, status: &Status) -> ClaimKind
    ensures { result ≡ claim_kind_of version status.now }
{
    match status {
        Status::Alive => ClaimKind::Alive,
        Status::Suspect(_) => ClaimKind::Suspect,
        Status::Failed => ClaimKind::Failed,
        Status::Left => match version {
            Version::One | Version::Two => ClaimKind::Failed,
            Version::Three => ClaimKind::Left,
        },
    }
}
