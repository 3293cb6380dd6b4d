//! What is wrong with bytes that are no packet.
//!
//! Defined in: `specs/Meaning/Fault.antt`.
//! Tested in: `lg_parts_tests/src/packet.rt`.

use lg_rules::{MAX_CLAIMS, MAX_INCARNATION};
use thiserror::Error;

/// Why some bytes are no packet: the fault of the first byte that can't stand in its place, or [`Fault::Short`] if
/// each can and more bytes are due.
#[derive(Clone, Copy, Debug, PartialEq, Eq, Error)]
pub enum Fault {
    /// The bytes end although another byte is due.
    #[error("the bytes end before the packet does")]
    Short = 1,
    /// The first byte isn't `53`, or the second isn't `4c`.
    #[error("a packet begins with the bytes 53 4c")]
    Magic = 2,
    /// The version is none of `01`, `02` and `03`.
    #[error("the version has to be 1, 2 or 3")]
    Version = 3,
    /// The kind isn't 1 to 6: a Ping, a PingReq, an Ack, a Nack, a Pull or a Page. In version 3 it isn't 7 either: a
    /// Gossip.
    #[error("the kind of a packet has to be 1 to 6, or 7 in version 3")]
    Kind = 4,
    /// The length of a name is out of its range, or a byte of a name may not stand in one.
    #[error("a name has to be 1 to {most} bytes of A-Z a-z 0-9 . _ -", most = lg_rules::MAX_NAME)]
    Name = 5,
    /// There are more claims than a packet can have: 6, or 12 in version 3.
    #[error("a packet has at most 6 claims, or {most} in version 3", most = MAX_CLAIMS)]
    Count = 6,
    /// The kind of a claim isn't 1 to 3. In version 3 it isn't 4 either.
    #[error("the kind of a claim has to be 1 to 3, or 4 in version 3")]
    ClaimKind = 7,
    /// An incarnation is above [`MAX_INCARNATION`]. It is judged at the last of its four bytes.
    #[error("an incarnation is at most {most}", most = MAX_INCARNATION)]
    Incarnation = 8,
    /// A byte follows the packet.
    #[error("bytes follow the packet's end")]
    Trailing = 9,
    /// The family of an address is neither 4 nor 6.
    #[error("the family of an address has to be 4 or 6")]
    Family = 10,
}
