//! What is wrong with the bytes of a recording.
//!
//! Defined in: `specs/Meaning/Scanned.antt`.
//! Tested in: `lg_fields_tests/src/fields.rt`.
ghost use Rattle.std.specs.Prelude.{◌≡◌};
ghost use Rattle.lg_fields.specs.Meaning.Scanned.{field_fault};

use lg_packet::Fault;
use thiserror::Error;

/// Why some bytes of a recording can't be read: the first fault from the left.
#[derive(Clone, Copy, Debug, PartialEq, Eq, Error)]
pub enum FieldFault {
    /// The bytes end although more are due.
    #[error("the bytes end before the recording does")]
    Short = 1,
    /// One of the three magic bytes isn't that of a recording. No field has this fault: it is of a file's
    /// beginning.
    #[error("a recording begins with the bytes 4c 47 52")]
    Magic = 2,
    /// The version of the format isn't known. No field has this fault: it is of a file's beginning.
    #[error("the version of a recording has to be 1")]
    Version = 3,
    /// The digest of a chunk isn't that of its body.
    #[error("the digest of a chunk isn't that of its body")]
    Check = 4,
    /// A number has more bytes than it needs, is above 2^64 - 1, or is out of its range.
    #[error("a number isn't in its least form, or is out of its range")]
    Number = 5,
    /// The length of a name is out of its range, or a byte of a name may not stand in one.
    #[error("a name has to be 1 to {most} bytes of A-Z a-z 0-9 . _ -", most = lg_rules::MAX_NAME)]
    Name = 6,
    /// The family of an address is neither 4 nor 6.
    #[error("the family of an address has to be 4 or 6")]
    Family = 7,
    /// A kind isn't known, or a flag is neither 0 nor 1.
    #[error("a kind isn't known, or a flag is neither 0 nor 1")]
    Kind = 8,
    /// There are too many of something, or too few.
    #[error("a count is out of its range")]
    Count = 9,
    /// Some bytes are no packet, or not the Page that records are.
    #[error("some bytes are no packet, or not the page of records that is due")]
    Packet = 10,
    /// An incarnation is above [`MAX_INCARNATION`](lg_rules::MAX_INCARNATION).
    #[error("an incarnation is at most {most}", most = lg_rules::MAX_INCARNATION)]
    Incarnation = 11,
    /// A body goes on behind its last part. No field has this fault: it is of the body of a chunk.
    #[error("bytes follow the end of a chunk's body")]
    Trailing = 12,
}

/// The fault of a field that is as in packets. What is wrong with a packet otherwise is one fault here.
impl From<Fault> for FieldFault {
    ghost from_gives = { λ fault told. told ≡ field_fault fault };

    fn from(fault: Fault) -> FieldFault {
        match fault {
            Fault::Short => FieldFault::Short,
            Fault::Name => FieldFault::Name,
            Fault::Family => FieldFault::Family,
            Fault::Incarnation => FieldFault::Incarnation,
            Fault::Magic
            | Fault::Version
            | Fault::Kind
            | Fault::Count
            | Fault::ClaimKind
            | Fault::Trailing => FieldFault::Packet,
        }
    }
}
