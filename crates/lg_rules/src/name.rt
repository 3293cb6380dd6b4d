//! Names of members.
//!
//! Defined in: `specs/Meaning/Name.antt`.
//! Tested in: `lg_parts_tests/src/rules.rt`.
ghost use Rattle.std.specs.Prelude.{◌≡◌, nat_eq};
ghost use Rattle.std.specs.Cmp.Lexicographic.{slice_cmp, pointwise};
ghost use Rattle.std.specs.Ordering.{nat_cmp};
ghost use Rattle.lg_rules.specs.Meaning.Name.{is_name_byte, bad_byte};

use std::alloc::AllocError;
use std::cmp::Ordering;
use std::marker::Model;
use thiserror::Error;

/// The most bytes of a name: 32 (this project's choice).
pub const MAX_NAME: usize = 32;

/// Why some bytes are no name. The bytes of a text that is too long are not judged one by one.
#[derive(Clone, Copy, Debug, PartialEq, Eq, Error)]
pub enum NameFault {
    /// There are no bytes.
    #[error("a name is empty; it has 1 to {most} bytes", most = MAX_NAME)]
    Empty,
    /// There are more than 32 bytes.
    #[error("a name is too long; it has 1 to {most} bytes", most = MAX_NAME)]
    TooLong,
    /// Some byte is none of `A-Z a-z 0-9 . _ -`. This is the first such byte.
    #[error("the byte {0} stands in a name; allowed are A-Z a-z 0-9 . _ -")]
    BadByte(u8),
}

/// The name of a member: 1 to 32 bytes of `A-Z a-z 0-9 . _ -` (this project's choice).
///
/// Names are ordered by their bytes, and a name comes before the longer names that begin with it. A contract sees a
/// name as the list of its bytes.
#[derive(Debug)]
pub struct Name {
    // The bytes of the name, and then zeros.
    bytes: [u8; MAX_NAME],
    len: u8,
}

impl Model for Name {
    ghost use Rattle.std.specs.Prelude.{ℕ, List, length, take};
    ghost use Rattle.lg_rules.specs.Support.Padding.{HoldsName, padded, unpadded};

    ghost Value = { List ℕ };

    ghost view = { λ n. take n.len n.bytes };

    ghost invariant = { λ n. HoldsName n.bytes n.len };

    ghost inverse = { λ text. record { bytes = padded text; len = length text } };

    ghost inverse_ok = { λ fields holds. unpadded fields holds };
}

impl Clone for Name {
    ghost use Rattle.std.specs.Prelude.{◌≡◌, ⊤};

    ghost is_clone = { λ x y. y ≡ x };

    ghost is_infallible = { λ _. ⊤ };

    fn clone(&self) -> Result<Self, AllocError> {
        Ok(*self)
    }
}

impl Copy for Name {}

/// The name `a`. It fills those places of arrays of fixed length that hold no name yet.
impl Default for Name {
    ghost use Rattle.std.specs.Prelude.{◌≡◌, ◌∷◌, []};

    ghost is_default = { λ n. n ≡ 97 ∷ [] };

    fn default() -> Self {
        let mut bytes = [0; MAX_NAME];
        bytes[0] = b'a';
        Name { bytes, len: 1 }
    }
}

impl PartialEq for Name {
    ghost use Rattle.std.proofs.Common.{rules};
    ghost use Rattle.std.specs.Cmp.Rules.{comparing};

    ghost eq = { pointwise nat_eq };

    ghost laws = { Prim.search (comparing, rules) };

    fn eq(&self, other: &Name) -> bool {
        self.cmp(other).is_eq()
    }
}

impl Eq for Name {
    ghost use Rattle.std.proofs.Common.{rules};
    ghost use Rattle.std.specs.Cmp.Rules.{comparing};

    ghost laws = { Prim.search (comparing, rules) };
}

impl PartialOrd for Name {
    ghost use Rattle.std.proofs.Common.{rules};
    ghost use Rattle.std.specs.Cmp.{partial_order_from_own_ties};
    ghost use Rattle.std.specs.Cmp.Rules.{comparing};
    ghost use Rattle.std.specs.Ordering.{as_partial_cmp};

    ghost partial_cmp = { as_partial_cmp (slice_cmp nat_cmp) };

    ghost laws = { partial_order_from_own_ties (Prim.search (comparing, rules)) (Prim.search (comparing, rules)) };

    fn partial_cmp(&self, other: &Name) -> Option<Ordering> {
        Some(self.cmp(other))
    }
}

impl Ord for Name {
    ghost use Rattle.std.proofs.Common.{rules};
    ghost use Rattle.std.specs.Cmp.Rules.{comparing};

    ghost cmp = { slice_cmp nat_cmp };

    ghost total = { Prim.search (comparing, rules) };

    ghost matches_partial_cmp = { Prim.search (comparing, rules) };

    ghost matches_eq = { Prim.search (comparing, rules) };

    fn cmp(&self, other: &Name) -> Ordering {
        self.words().cmp(&other.words())
    }
}

/// Whether a byte may stand in a name.
pub fn is_name_byte(byte: u8) -> bool
    ensures { result ≡ is_name_byte byte }
{
    matches!(byte, b'A'..=b'Z' | b'a'..=b'z' | b'0'..=b'9' | b'.' | b'_' | b'-')
}

/// The first byte that may not stand in a name, if there is one.
fn first_bad_byte(text: &[u8]) -> Option<u8>
    ensures { result ≡ bad_byte text.now }
{
    text.iter().copied().find(|byte| !is_name_byte(*byte))
}

impl Name {
    ghost use Rattle.std.specs.Prelude.{◌≡◌, IsTrue};
    ghost use Rattle.lg_rules.specs.Meaning.Name.{is_name, name_of_text};
    ghost use Rattle.lg_rules.specs.Support.Padding.{padded};
    ghost use Rattle.lg_rules.specs.Support.Words.{words_of};

    /// The name with these bytes, or the first fault in the order of [`NameFault`].
    pub fn new(text: &[u8]) -> Result<Name, NameFault>
        ensures { result ≡ name_of_text text.now }
    {
        if text.is_empty() {
            return Err(NameFault::Empty);
        }
        if text.len() > MAX_NAME {
            return Err(NameFault::TooLong);
        }
        if let Some(byte) = first_bad_byte(text) {
            return Err(NameFault::BadByte(byte));
        }
        Ok(Name::from_good(text))
    }

    /// Makes a name of bytes that are one.
    fn from_good(text: &[u8]) -> Name
        requires { IsTrue (is_name text.now) }
        ensures { result ≡ text.now }
    {
        let mut bytes = [0; MAX_NAME];
        bytes[..text.len()].copy_from_slice(text);
        Name {
            bytes,
            len: text.len() as u8,
        }
    }

    /// The bytes of the name, 1 to 32 of them.
    pub fn as_bytes(&self) -> &[u8]
        ensures bytes { result.now ≡ self.now }
        ensures name { IsTrue (is_name self.now) }
    {
        &self.bytes[..usize::from(self.len)]
    }

    /// The 32 bytes as four big-endian numbers. Each byte of a name is above the zeros after it. So these numbers
    /// compare as the names do, in four steps instead of 32.
    fn words(&self) -> [u64; 4]
        ensures words { result ≡ words_of 4 (padded self.now) }
        ensures name { IsTrue (is_name self.now) }
    {
        let words = self.bytes.as_chunks::<8>().0;
        [
            u64::from_be_bytes(words[0]),
            u64::from_be_bytes(words[1]),
            u64::from_be_bytes(words[2]),
            u64::from_be_bytes(words[3]),
        ]
    }
}
