//! What a call of C answers.
//!
//! Defined in: `specs/Meaning/Statuses.antt`.

/// Done.
pub(crate) const OK: u32 = 0;

/// The detector is closed.
pub(crate) const CLOSED: u32 = 1;

/// The detector is open already.
pub(crate) const OPEN: u32 = 2;

/// A name, an address, a moment or a count is out of its form or range.
pub(crate) const BAD_VALUE: u32 = 3;

/// The bytes of a datagram are no packet.
pub(crate) const BAD_PACKET: u32 = 4;

/// The configuration doesn't pass its check.
pub(crate) const BAD_CONFIG: u32 = 5;

/// Memory was refused.
pub(crate) const NO_MEMORY: u32 = 6;

/// The detector has accepted as many events as it can: 4,000,000,000.
pub(crate) const ENDED: u32 = 7;

/// There are more records than C has room for.
pub(crate) const NO_ROOM: u32 = 8;
