//! Keys of a group.
//!
//! Defined in: this file.
//! Tested in: `lg_seal_tests/src/keys.rt`.
ghost use Rattle.std.specs.Prelude.{◌≡◌, length};

use std::fmt;
use std::fmt::{Debug, Formatter};
use std::marker::Model;

/// The bytes of a key: 32 (this project's choice). RFC 2104, section 3, discourages a key shorter than a digest, which
/// has as many.
pub const KEY_LEN: usize = 32;

/// A key that the members of a group share and nobody else knows: 32 bytes.
///
/// A contract sees a key as the list of its bytes. The time of comparing two keys by `==` depends on them, so only the
/// reading of a text of keys compares them.
#[derive(Clone, Copy, PartialEq, Eq)]
pub struct GroupKey {
    bytes: [u8; KEY_LEN],
}

impl Model for GroupKey {
    ghost use Rattle.std.specs.Prelude.{ℕ, List};

    ghost Value = { List ℕ };

    ghost view = { λ k. k.bytes };

    ghost inverse = { λ bytes. record { bytes = bytes } };
}

/// Shows `GroupKey(..)` and no byte of the key, so that no log or message tells a key by accident.
impl Debug for GroupKey {
    fn fmt<W: fmt::Write>(&self, f: &mut Formatter<W>) -> fmt::Result {
        f.write_str("Key(..)")
    }
}

impl GroupKey {
    /// The key with these bytes.
    pub fn new(bytes: [u8; KEY_LEN]) -> GroupKey
        ensures { result ≡ bytes }
    {
        GroupKey { bytes }
    }

    /// The bytes of the key.
    pub fn as_bytes(&self) -> &[u8]
        ensures bytes { result.now ≡ self.now }
        ensures whole { length self.now ≡ KEY_LEN }
    {
        &self.bytes
    }
}

/// One or two keys. So a group changes its key with no pause: each member learns the new key as its second one, then
/// each signs with it, and then each forgets the old one.
#[derive(Clone, Copy, Debug, PartialEq, Eq)]
pub struct Keys {
    /// The key that signs. What is sealed with it is taken.
    pub first: GroupKey,
    /// If there is a second key, what is sealed with it is taken too.
    pub second: Option<GroupKey>,
}
