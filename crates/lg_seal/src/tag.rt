//! Tags: HMAC-SHA256, cut to 16 bytes.
//!
//! Defined in: `specs/Meaning/Tags.antt`.
//! Tested in: `lg_seal_tests/src/tags.rt`.
ghost use Rattle.std.specs.Prelude.{◌≡◌, ◌↔◌, ◌≤◌, ℕ, IsTrue, List, length, take};
ghost use Rattle.lg_seal.specs.Meaning.Tags.{hmac, padded_key, tag_of};
ghost use Rattle.lg_seal.specs.Support.Differing.{differing_bits};
ghost use Rattle.lg_seal.specs.Support.Hashing.{HaveTaken};

use crate::key::GroupKey;
use sha2::{Digest, Sha256};
use std::marker::Model;

/// The bytes of a tag: 16 (this project's choice). That is half of a digest, the least that RFC 2104, section 5,
/// recommends.
pub const TAG_LEN: usize = 16;

/// The most bytes of a key of [`hmac`]: 64, a block of SHA-256. A longer key would be hashed first (RFC 2104, section
/// 2), which a key of a group never is.
pub const MAX_HMAC_KEY: usize = 64;

/// The bytes of a digest of SHA-256.
const DIGEST_LEN: usize = 32;

/// What the padded key is xored with before the message is hashed: ipad of RFC 2104.
const INNER_PAD: u8 = 0x36;

/// What the padded key is xored with before the inner digest is hashed: opad of RFC 2104.
const OUTER_PAD: u8 = 0x5c;

/// The tag of some bytes under a key.
///
/// Tags have no `==`, which may stop at the first byte that differs.
#[derive(Clone, Copy, Debug)]
pub struct Tag(pub [u8; TAG_LEN]);

/// The key, filled up with zeros to 64 bytes, each byte xored with `pad`.
fn padded_key(key: &[u8], pad: u8) -> [u8; MAX_HMAC_KEY]
    requires { length key.now ≤ MAX_HMAC_KEY }
    ensures { result ≡ padded_key pad key.now }
{
    let mut block = [pad; MAX_HMAC_KEY];
    for (place, byte) in key.iter().enumerate() {
        block[place] = byte ^ pad;
    }
    block
}

/// The two hashers of HMAC-SHA256 (RFC 2104, section 2). Each has taken the padded key, which is a block, and
/// takes next what it hashes behind that.
#[derive(Drop)]
pub(crate) struct Hashers {
    inner: Sha256,
    outer: Sha256,
}

/// The hashers of a key of at most 64 bytes.
fn hashers_of(key: &[u8]) -> Hashers
    requires { length key.now ≤ MAX_HMAC_KEY }
    ensures { HaveTaken key.now result }
{
    let mut inner = Sha256::new();
    inner.update(padded_key(key, INNER_PAD));
    let mut outer = Sha256::new();
    outer.update(padded_key(key, OUTER_PAD));
    Hashers { inner, outer }
}

/// A hasher that has taken the same.
fn copy_of(hasher: &Sha256) -> Sha256
    ensures { result ≡ hasher.now }
{
    match hasher.clone() {
        Ok(copy) => copy,
        Err(_) => unreachable!(),
    }
}

/// The HMAC-SHA256 of a message, by the hashers of its key.
#[tactic(auto, unfolding(crate::specs::Meaning::Tags::hmac))]
fn digest_behind(hashers: Hashers, message: &[u8]) -> [u8; DIGEST_LEN]
    ensures { (key : List ℕ) → HaveTaken key hashers → result ≡ hmac key message.now }
{
    let Hashers {
        mut inner,
        mut outer,
    } = hashers;
    inner.update(message);
    outer.update(inner.finalize());
    outer.finalize()
}

/// HMAC-SHA256 (RFC 2104, section 2) under a key of at most 64 bytes. Copies nothing of the message, and allocates
/// nothing.
pub fn hmac(key: &[u8], message: &[u8]) -> [u8; DIGEST_LEN]
    requires { length key.now ≤ MAX_HMAC_KEY }
    ensures { result ≡ hmac key.now message.now }
{
    digest_behind(hashers_of(key), message)
}

/// A key that is ready to make tags: its padded key is hashed already, so a tag takes two blocks of SHA-256 less. A
/// contract sees it as the bytes of the key.
#[derive(Drop)]
pub struct Signer {
    key: GroupKey,
    hashers: Hashers,
}

impl Model for Signer {
    ghost use Rattle.std.specs.Prelude.{ℕ, List};
    ghost use Rattle.lg_seal.specs.Support.Hashing.{HaveTaken};

    ghost Value = { List ℕ };

    ghost view = { λ s. s.key };

    ghost invariant = { λ s. HaveTaken s.key s.hashers };
}

impl Signer {
    /// A key, made ready.
    pub fn new(key: GroupKey) -> Signer
        ensures { result ≡ key }
    {
        let hashers = hashers_of(key.as_bytes());
        Signer { key, hashers }
    }

    /// The tag of some bytes under this key: the first 16 bytes of their HMAC-SHA256. Allocates nothing.
    #[tactic(auto, unfolding(crate::specs::Meaning::Tags::tag_of))]
    pub fn tag_of(&self, bytes: &[u8]) -> Tag
        ensures { result.0 ≡ tag_of self.now bytes.now }
    {
        let hashers = Hashers {
            inner: copy_of(&self.hashers.inner),
            outer: copy_of(&self.hashers.outer),
        };
        first_bytes(&digest_behind(hashers, bytes))
    }
}

/// The tag in a digest: its first 16 bytes.
fn first_bytes(digest: &[u8; DIGEST_LEN]) -> Tag
    ensures { result.0 ≡ take TAG_LEN digest.now }
{
    let mut tag = [0; TAG_LEN];
    tag.copy_from_slice(&digest[..TAG_LEN]);
    Tag(tag)
}

/// The bits in which two tags differ at any of their bytes. It looks at all 16 bytes whatever they are.
fn differing_bits(tag: &Tag, bytes: &[u8; TAG_LEN]) -> u8
    ensures { result ≡ differing_bits tag.now.0 bytes.now }
{
    tag.0
        .iter()
        .zip(bytes)
        .fold(0, |bits, (one, other)| bits | (one ^ other))
}

/// Whether a tag has these bytes. It looks at all of them, so that the time doesn't tell how many bytes of a forged tag
/// are right. No contract says how long it takes.
pub(crate) fn are_equal(tag: &Tag, bytes: &[u8; TAG_LEN]) -> bool
    ensures { IsTrue result ↔ (tag.now.0 ≡ bytes.now) }
{
    differing_bits(tag, bytes) == 0
}
