//! Tags: rows of RFC 4231, and rows that the module `hmac` of Python computed.

use lg_seal::{GroupKey, MAX_HMAC_KEY, Signer, TAG_LEN, hmac};

/// A key, a message, and the first bytes of their HMAC-SHA256.
type Row = (&'static [u8], &'static [u8], &'static [u8]);

/// Test cases 1 to 5 of RFC 4231, section 4. Of case 5 the RFC gives 16 bytes, as many as a tag has. Cases 6 and 7
/// don't apply: their keys have 131 bytes, more than a block. None has a key of 32 bytes, so the rows below are others.
const RFC_4231: &[Row] = &[
    (
        &[0x0b; 20],
        b"Hi There",
        b"\xb0\x34\x4c\x61\xd8\xdb\x38\x53\x5c\xa8\xaf\xce\xaf\x0b\xf1\x2b\
          \x88\x1d\xc2\x00\xc9\x83\x3d\xa7\x26\xe9\x37\x6c\x2e\x32\xcf\xf7",
    ),
    (
        b"Jefe",
        b"what do ya want for nothing?",
        b"\x5b\xdc\xc1\x46\xbf\x60\x75\x4e\x6a\x04\x24\x26\x08\x95\x75\xc7\
          \x5a\x00\x3f\x08\x9d\x27\x39\x83\x9d\xec\x58\xb9\x64\xec\x38\x43",
    ),
    (
        &[0xaa; 20],
        &[0xdd; 50],
        b"\x77\x3e\xa9\x1e\x36\x80\x0e\x46\x85\x4d\xb8\xeb\xd0\x91\x81\xa7\
          \x29\x59\x09\x8b\x3e\xf8\xc1\x22\xd9\x63\x55\x14\xce\xd5\x65\xfe",
    ),
    (
        b"\x01\x02\x03\x04\x05\x06\x07\x08\x09\x0a\x0b\x0c\x0d\x0e\x0f\x10\x11\x12\x13\x14\x15\x16\x17\x18\x19",
        &[0xcd; 50],
        b"\x82\x55\x8a\x38\x9a\x44\x3c\x0e\xa4\xcc\x81\x98\x99\xf2\x08\x3a\
          \x85\xf0\xfa\xa3\xe5\x78\xf8\x07\x7a\x2e\x3f\xf4\x67\x29\x66\x5b",
    ),
    (
        &[0x0c; 20],
        b"Test With Truncation",
        b"\xa3\xb6\x16\x74\x73\x10\x0e\xe0\x6e\x0c\x79\x6c\x29\x55\x55\x2b",
    ),
];

/// The key `00 01 .. 1f`.
pub(crate) const FIRST: [u8; 32] =
    *b"\x00\x01\x02\x03\x04\x05\x06\x07\x08\x09\x0a\x0b\x0c\x0d\x0e\x0f\
      \x10\x11\x12\x13\x14\x15\x16\x17\x18\x19\x1a\x1b\x1c\x1d\x1e\x1f";

/// Letters `a`, and their tag under the first key. The lengths are those at which a block more is hashed, 543, the
/// greatest of a packet of versions 1 and 2, and 1,207, the greatest of version 3.
const LETTERS: &[(&[u8], &[u8; TAG_LEN])] = &[
    (
        &[b'a'; 0],
        b"\xd3\x8b\x42\x09\x6d\x80\xf4\x5f\x82\x6b\x44\xa9\xd5\x60\x7d\xe7",
    ),
    (
        &[b'a'; 1],
        b"\x51\x67\xdd\x15\xd1\x81\x66\xa9\xdd\x6c\xaa\x35\x22\xf7\x02\x6f",
    ),
    (
        &[b'a'; 54],
        b"\x64\x4c\x1b\x72\x49\xa2\xfe\xa0\xfa\x6b\xc4\x6b\x7c\x59\x52\x9c",
    ),
    (
        &[b'a'; 55],
        b"\xd5\xcc\x4f\x73\x13\x59\x6a\x85\x44\xd2\x90\x50\x26\x40\xf0\x9d",
    ),
    (
        &[b'a'; 56],
        b"\x59\x89\x2c\x1b\xe1\xad\x9f\xc2\xb7\xfd\x86\x4c\x0b\x95\x1c\xb4",
    ),
    (
        &[b'a'; 63],
        b"\x0f\x7d\xae\x2c\x7a\x2f\x73\x54\x86\xe4\xb9\x74\x08\x84\xec\x60",
    ),
    (
        &[b'a'; 64],
        b"\x0b\x28\xb3\x5a\x26\x36\xba\x2e\x13\x22\x6c\x4f\x5d\xa3\x05\xef",
    ),
    (
        &[b'a'; 119],
        b"\xeb\xfd\x1d\xfe\x53\xef\x64\x58\x41\x6b\x60\xe3\x9a\x5c\x67\xa2",
    ),
    (
        &[b'a'; 120],
        b"\x34\x1e\xb4\x81\xd5\x6f\x3e\x42\x77\xb5\x3c\x83\x07\x34\xba\xdb",
    ),
    (
        &[b'a'; 543],
        b"\xa7\xb7\x6c\x82\xa9\xb5\x19\x59\xdc\xb2\x1d\xed\xf1\x4a\xd4\x12",
    ),
    (
        &[b'a'; 1207],
        b"\x60\x1f\x50\x80\xcd\xa1\xa4\x39\xdb\x37\x5d\x85\x28\xbe\xf9\x76",
    ),
];

/// Whether the HMAC-SHA256 of a row begins with its bytes.
fn is_right((key, message, want): &Row) -> bool {
    key.len() <= MAX_HMAC_KEY && hmac(key, message).starts_with(want)
}

#[test]
fn computes_the_rows_of_the_rfc(rt: HostRuntime) {
    for row in RFC_4231 {
        assert!(rt; is_right(row), "{row:?}");
    }
}

#[test]
fn computes_tags(rt: HostRuntime) {
    let signer = Signer::new(GroupKey::new(FIRST));
    for (message, want) in LETTERS {
        assert_eq!(rt; signer.tag_of(message).0, **want, "{message:?}");
    }
}
