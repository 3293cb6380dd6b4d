//! What is wrong with a text of keys, or with a datagram that isn't taken.
//!
//! Defined in: `specs/Meaning/Reading.antt`, `specs/Meaning/Sealing.antt`.
//! Tested in: `lg_seal_tests/src/keys.rt`, `lg_seal_tests/src/sealing.rt`.

use crate::key::KEY_LEN;
use thiserror::Error;

/// The hex digits of a key: 64.
const KEY_DIGITS: usize = 2 * KEY_LEN;

/// Why a text spells no keys: its first fault, from the top of the text.
#[derive(Clone, Copy, Debug, PartialEq, Eq, Error)]
pub enum KeyFault {
    /// The text is empty.
    #[error("there is no key")]
    NoKey,
    /// The line with this number, 1 or 2, isn't exactly 64 hex digits.
    #[error("line {0} isn't a key of {digits} hex digits", digits = KEY_DIGITS)]
    BadLine(u8),
    /// A third line begins.
    #[error("there are more than two lines")]
    TooManyLines,
    /// Both lines spell the same key.
    #[error("the two keys are the same")]
    SameKeys,
}

/// Why a datagram isn't taken.
#[derive(Clone, Copy, Debug, PartialEq, Eq, Error)]
pub enum SealFault {
    /// It doesn't begin with `4c 4b 01`, or is too short to have a tag behind that. A datagram of a member without keys
    /// is one of these.
    #[error("the datagram isn't sealed")]
    Unsigned,
    /// Its tag is that of none of the keys.
    #[error("the datagram isn't sealed with a key of this group")]
    Forged,
}
