//! Texts of keys, and what is shown of keys.

use crate::tags::FIRST;
use lg_seal::{GroupKey, KeyFault, Keys, keys_in};
use std::alloc::{AllocError, Global};
use std::fmt::{Debug, Display};

/// The key `c0 c1 .. df`.
pub(crate) const SECOND: [u8; 32] =
    *b"\xc0\xc1\xc2\xc3\xc4\xc5\xc6\xc7\xc8\xc9\xca\xcb\xcc\xcd\xce\xcf\
      \xd0\xd1\xd2\xd3\xd4\xd5\xd6\xd7\xd8\xd9\xda\xdb\xdc\xdd\xde\xdf";

/// Texts of one key, the first.
const ONE: &[&[u8]] = &[
    b"000102030405060708090a0b0c0d0e0f101112131415161718191a1b1c1d1e1f",
    b"000102030405060708090a0b0c0d0e0f101112131415161718191a1b1c1d1e1f\n",
    b"000102030405060708090A0B0C0D0E0F101112131415161718191A1B1C1D1E1F\n",
    b"000102030405060708090a0b0c0d0e0F101112131415161718191A1B1C1D1E1F\n",
];

/// Texts of two keys, the first and the second.
const TWO: &[&[u8]] = &[
    b"000102030405060708090a0b0c0d0e0f101112131415161718191a1b1c1d1e1f\n\
      c0c1c2c3c4c5c6c7c8c9cacbcccdcecfd0d1d2d3d4d5d6d7d8d9dadbdcdddedf",
    b"000102030405060708090a0b0c0d0e0f101112131415161718191a1b1c1d1e1f\n\
      C0C1C2C3C4C5C6C7C8C9CACBCCCDCECFD0D1D2D3D4D5D6D7D8D9DADBDCDDDEDF\n",
];

/// Texts that spell no keys, each with its first fault from the top.
const NONE: &[(&[u8], KeyFault)] = &[
    (b"", KeyFault::NoKey),
    // Nothing in the first line.
    (b"\n", KeyFault::BadLine(1)),
    (
        b"\n000102030405060708090a0b0c0d0e0f101112131415161718191a1b1c1d1e1f\n",
        KeyFault::BadLine(1),
    ),
    // A digit too few, and one too many.
    (
        b"000102030405060708090a0b0c0d0e0f101112131415161718191a1b1c1d1e1\n",
        KeyFault::BadLine(1),
    ),
    (
        b"000102030405060708090a0b0c0d0e0f101112131415161718191a1b1c1d1e1f0\n",
        KeyFault::BadLine(1),
    ),
    // Two digits too few, and two too many.
    (
        b"000102030405060708090a0b0c0d0e0f101112131415161718191a1b1c1d1e",
        KeyFault::BadLine(1),
    ),
    (
        b"000102030405060708090a0b0c0d0e0f101112131415161718191a1b1c1d1e1f00",
        KeyFault::BadLine(1),
    ),
    // What isn't a digit: the first letter behind them, a blank, a carriage return, and a prefix.
    (
        b"000102030405060708090a0b0c0d0e0f101112131415161718191a1b1c1d1e1g\n",
        KeyFault::BadLine(1),
    ),
    (
        b" 000102030405060708090a0b0c0d0e0f101112131415161718191a1b1c1d1e1f\n",
        KeyFault::BadLine(1),
    ),
    (
        b"000102030405060708090a0b0c0d0e0f101112131415161718191a1b1c1d1e1f\r\n",
        KeyFault::BadLine(1),
    ),
    (
        b"0x0102030405060708090a0b0c0d0e0f101112131415161718191a1b1c1d1e1f\n",
        KeyFault::BadLine(1),
    ),
    // The same in the second line.
    (
        b"000102030405060708090a0b0c0d0e0f101112131415161718191a1b1c1d1e1f\n\n",
        KeyFault::BadLine(2),
    ),
    (
        b"000102030405060708090a0b0c0d0e0f101112131415161718191a1b1c1d1e1f\n\
          c0c1c2c3c4c5c6c7c8c9cacbcccdcecfd0d1d2d3d4d5d6d7d8d9dadbdcddded\n",
        KeyFault::BadLine(2),
    ),
    (
        b"000102030405060708090a0b0c0d0e0f101112131415161718191a1b1c1d1e1f\n\
          c0c1c2c3c4c5c6c7c8c9cacbcccdcecfd0d1d2d3d4d5d6d7d8d9dadbdcdddedG\n",
        KeyFault::BadLine(2),
    ),
    // A bad second line comes before a third.
    (
        b"000102030405060708090a0b0c0d0e0f101112131415161718191a1b1c1d1e1f\n\n\n",
        KeyFault::BadLine(2),
    ),
    // A third line, which may be empty.
    (
        b"000102030405060708090a0b0c0d0e0f101112131415161718191a1b1c1d1e1f\n\
          c0c1c2c3c4c5c6c7c8c9cacbcccdcecfd0d1d2d3d4d5d6d7d8d9dadbdcdddedf\n\n",
        KeyFault::TooManyLines,
    ),
    (
        b"000102030405060708090a0b0c0d0e0f101112131415161718191a1b1c1d1e1f\n\
          c0c1c2c3c4c5c6c7c8c9cacbcccdcecfd0d1d2d3d4d5d6d7d8d9dadbdcdddedf\n\
          0000000000000000000000000000000000000000000000000000000000000000\n",
        KeyFault::TooManyLines,
    ),
    // One key twice, in the same case and in the other.
    (
        b"000102030405060708090a0b0c0d0e0f101112131415161718191a1b1c1d1e1f\n\
          000102030405060708090a0b0c0d0e0f101112131415161718191a1b1c1d1e1f\n",
        KeyFault::SameKeys,
    ),
    (
        b"000102030405060708090a0b0c0d0e0f101112131415161718191a1b1c1d1e1f\n\
          000102030405060708090A0B0C0D0E0F101112131415161718191A1B1C1D1E1F",
        KeyFault::SameKeys,
    ),
];

/// The faults with their messages.
const MESSAGES: &[(KeyFault, &str)] = &[
    (KeyFault::NoKey, "there is no key"),
    (KeyFault::BadLine(2), "line 2 isn't a key of 64 hex digits"),
    (KeyFault::TooManyLines, "there are more than two lines"),
    (KeyFault::SameKeys, "the two keys are the same"),
];

fn is_read_as(text: &[u8], want: &Keys) -> bool {
    match keys_in(text) {
        Ok(keys) => keys == *want,
        Err(_) => false,
    }
}

#[test]
fn reads_keys(rt: HostRuntime) {
    let one = Keys {
        first: GroupKey::new(FIRST),
        second: None,
    };
    for text in ONE {
        assert!(rt; is_read_as(text, &one), "{text:?}");
    }
    let two = Keys {
        first: GroupKey::new(FIRST),
        second: Some(GroupKey::new(SECOND)),
    };
    for text in TWO {
        assert!(rt; is_read_as(text, &two), "{text:?}");
    }
}

#[test]
fn tells_the_first_fault(rt: HostRuntime) {
    for (text, fault) in NONE {
        assert_eq!(rt; keys_in(text), Err(*fault), "{text:?}");
    }
}

pub(crate) fn is_told<F: Display>(
    alloc: Global,
    fault: &F,
    want: &str,
) -> Result<bool, AllocError> {
    Ok(format!(in alloc; "{fault}")?.as_str() == want)
}

#[test]
fn tells_faults(rt: HostRuntime) {
    for (fault, want) in MESSAGES {
        assert_eq!(rt; is_told(rt.alloc(), fault, want), Ok(true), "{want}");
    }
}

fn is_shown<T: Debug>(alloc: Global, value: &T, want: &str) -> Result<bool, AllocError> {
    Ok(format!(in alloc; "{value:?}")?.as_str() == want)
}

/// No byte of a key is shown.
#[test]
fn shows_no_key(rt: HostRuntime) {
    let keys = Keys {
        first: GroupKey::new(FIRST),
        second: Some(GroupKey::new(SECOND)),
    };
    let want = "Keys { first: Key(..), second: Some(Key(..)) }";
    assert_eq!(rt; is_shown(rt.alloc(), &keys, want), Ok(true));
}
