//! A set of numbers below 256.
//!
//! Defined in: `specs/Meaning/Flags.antt`.
//! Tested in: `lg_parts_tests/src/bit_set.rt`.
use crate::word::{closed_word, lowest_bits, nth_bit, opened_word, risen_word, topped_word};
use std::alloc::AllocError;
use std::marker::Model;

/// How many numbers there are, of which a set has some: those from 0 to 255 (this project's choice).
pub const NUMBERS: usize = 256;

/// A set of numbers from 0 to 255, a bit for each number. No call allocates memory.
///
/// The numbers are the indexes of a row of up to 256 names. A name that joins opens its place in the row, and in each
/// set. A contract sees the list of the flags, 256 of them: the flag at an index says whether that number is in the
/// set.
#[derive(Debug)]
pub struct BitSet {
    // The numbers from 0 to 63, from 64 to 127 and so on, the lowest of them at the lowest bit.
    words: [u64; 4],
}

impl Model for BitSet {
    ghost use Rattle.std.specs.Prelude.{List, Bool};

    ghost Value = { List Bool };

    ghost use Rattle.lg_bit_set.specs.Support.Words.{AreWords, flags_of, words_from, words_back};

    ghost view = { λ s. flags_of s.words };

    ghost invariant = { λ s. AreWords s.words };

    ghost inverse = { λ flags. record { words = words_from 4 flags } };

    ghost inverse_ok = { λ fields holds. words_back fields holds };
}

impl Clone for BitSet {
    ghost use Rattle.std.specs.Prelude.{◌≡◌, ⊤};

    ghost is_clone = { λ x y. y ≡ x };

    ghost is_infallible = { λ _. ⊤ };

    fn clone(&self) -> Result<Self, AllocError> {
        Ok(*self)
    }
}

impl Copy for BitSet {}

/// The empty set.
impl Default for BitSet {
    ghost use Rattle.std.specs.Prelude.{◌≡◌};
    ghost use Rattle.lg_bit_set.specs.Meaning.Flags.{no_flags};

    ghost is_default = { λ s. s ≡ no_flags };

    fn default() -> Self {
        BitSet::new()
    }
}

impl PartialEq for BitSet {
    ghost use Rattle.std.proofs.Common.{rules};
    ghost use Rattle.std.proofs.Math.Bool.{beq};
    ghost use Rattle.std.specs.Cmp.Lexicographic.{pointwise};
    ghost use Rattle.std.specs.Cmp.Rules.{comparing};

    ghost eq = { pointwise beq };

    ghost laws = { Prim.search (comparing, rules) };

    fn eq(&self, other: &BitSet) -> bool {
        self.words == other.words
    }
}

impl Eq for BitSet {
    ghost use Rattle.std.proofs.Common.{rules};
    ghost use Rattle.std.specs.Cmp.Rules.{comparing};

    ghost laws = { Prim.search (comparing, rules) };
}

impl BitSet {
    ghost use Rattle.std.specs.Prelude.{
      ◌≡◌,
      ℕ,
      ◌||◌,
      true,
      false,
      drop,
      length,
      nat_eq,
      slice_index_or,
      slice_set,
    };
    ghost use Rattle.lg_bit_set.specs.Meaning.Flags.{
      no_flags,
      flags_below,
      count_set,
      flags_without,
      nth_number,
      numbers_of,
      opened_flags,
      closed_flags,
    };

    /// The empty set.
    #[inline(always)]
    pub fn new() -> BitSet
        ensures { result ≡ no_flags }
    {
        BitSet { words: [0; 4] }
    }

    /// All numbers below a count, which is any number: from 256 on it is all there are.
    #[inline(always)]
    pub fn below(count: usize) -> BitSet
        ensures { result ≡ flags_below count }
    {
        BitSet {
            words: [
                lowest_bits(count),
                lowest_bits(count.saturating_sub(64)),
                lowest_bits(count.saturating_sub(128)),
                lowest_bits(count.saturating_sub(192)),
            ],
        }
    }

    /// Whether a number is in the set.
    #[inline(always)]
    pub fn contains(&self, number: u8) -> bool
        ensures flag { result ≡ slice_index_or self.now number false }
        ensures size { length self.now ≡ NUMBERS }
    {
        (self.words[usize::from(number / 64)] >> (number % 64)) & 1 == 1
    }

    /// Adds a number. If the set has it, nothing changes.
    #[inline(always)]
    pub fn insert(&mut self, number: u8)
        ensures flags { self.new ≡ slice_set self.old number true }
        ensures size { length self.new ≡ NUMBERS }
    {
        self.words[usize::from(number / 64)] |= 1 << (number % 64);
    }

    /// Takes a number out. If the set doesn't have it, nothing changes.
    #[inline(always)]
    pub fn remove(&mut self, number: u8)
        ensures flags { self.new ≡ slice_set self.old number false }
        ensures size { length self.new ≡ NUMBERS }
    {
        self.words[usize::from(number / 64)] &= !(1 << (number % 64));
    }

    /// Takes all numbers out.
    #[inline(always)]
    pub fn clear(&mut self)
        ensures { self.new ≡ no_flags }
    {
        self.words = [0; 4];
    }

    /// The numbers that are in this set and not in the other.
    #[inline(always)]
    pub fn without(&self, other: &BitSet) -> BitSet
        ensures flags { result ≡ flags_without self.now other.now }
        ensures size { length result ≡ NUMBERS }
    {
        let [a, b, c, d] = self.words;
        let [e, f, g, h] = other.words;
        BitSet {
            words: [a & !e, b & !f, c & !g, d & !h],
        }
    }

    /// The numbers that are in this set or in the other.
    #[inline(always)]
    pub fn union(&self, other: &BitSet) -> BitSet
        ensures flags { (number : ℕ) → slice_index_or result number false
            ≡ (slice_index_or self.now number false || slice_index_or other.now number false) }
        ensures size { length result ≡ NUMBERS }
    {
        let [a, b, c, d] = self.words;
        let [e, f, g, h] = other.words;
        BitSet {
            words: [a | e, b | f, c | g, d | h],
        }
    }

    /// How many numbers are in the set, 0 to 256.
    #[inline(always)]
    pub fn len(&self) -> usize
        ensures count { result ≡ count_set self.now }
        ensures size { length self.now ≡ NUMBERS }
    {
        let [a, b, c, d] = self.words;
        (a.count_ones() + b.count_ones() + c.count_ones() + d.count_ones()) as usize
    }

    /// Whether no number is in the set.
    #[inline(always)]
    pub fn is_empty(&self) -> bool
        ensures empty { result ≡ nat_eq (count_set self.now) 0 }
        ensures size { length self.now ≡ NUMBERS }
    {
        for word in &self.words {
            if *word != 0 {
                return false;
            }
        }
        true
    }

    /// The number that has `index` smaller ones in the set, so the least one at 0. None if the set has no more than
    /// `index` numbers.
    pub fn nth(&self, index: usize) -> Option<u8>
        ensures number { result ≡ nth_number self.now index }
        ensures size { length self.now ≡ NUMBERS }
    {
        let mut left = index;
        'words: for i in 0..4 {
            let word = self.words[i];
            let count = word.count_ones() as usize;
            if left < count {
                return Some((64 * i + nth_bit(word, left)) as u8);
            }
            left -= count;
        }
        None
    }

    /// The least number, if the set has one.
    #[inline(always)]
    pub fn first(&self) -> Option<u8>
        ensures { result ≡ nth_number self.now 0 }
    {
        'words: for i in 0..4 {
            let word = self.words[i];
            if word != 0 {
                return Some((64 * i + nth_bit(word, 0)) as u8);
            }
        }
        None
    }

    /// Takes the least number out and returns it, if the set has one.
    #[inline(always)]
    pub fn pop_first(&mut self) -> Option<u8>
        ensures number { result ≡ nth_number self.old 0 }
        ensures left { numbers_of self.new ≡ drop 1 (numbers_of self.old) }
    {
        let number = self.first()?;
        self.remove(number);
        Some(number)
    }

    /// Makes room for a number: each number at or above it rises by one, and it isn't in the set afterwards. The
    /// number 255 is dropped. In an empty set nothing moves.
    #[inline(always)]
    pub fn open(&mut self, number: u8)
        ensures flags { self.new ≡ opened_flags number self.old }
        ensures size { length self.new ≡ NUMBERS }
    {
        if !self.is_empty() {
            self.open_words(number);
        }
    }

    /// Makes room for a number in the words.
    fn open_words(&mut self, number: u8)
        ensures flags { self.new ≡ opened_flags number self.old }
        ensures size { length self.new ≡ NUMBERS }
    {
        let at = usize::from(number / 64);
        'words: for i in (at + 1..4).rev() {
            self.words[i] = risen_word(self.words[i], self.words[i - 1]);
        }
        self.words[at] = opened_word(self.words[at], number % 64);
    }

    /// Takes a number's place away: the number leaves the set, and each number above it falls by one. In an empty set
    /// nothing moves.
    #[inline(always)]
    pub fn close(&mut self, number: u8)
        ensures flags { self.new ≡ closed_flags number self.old }
        ensures size { length self.new ≡ NUMBERS }
    {
        if !self.is_empty() {
            self.close_words(number);
        }
    }

    /// Takes a number's place away from the words.
    fn close_words(&mut self, number: u8)
        ensures flags { self.new ≡ closed_flags number self.old }
        ensures size { length self.new ≡ NUMBERS }
    {
        let at = usize::from(number / 64);
        self.words[at] = closed_word(self.words[at], number % 64);
        'words: for i in at + 1..4 {
            self.words[i - 1] = topped_word(self.words[i - 1], self.words[i]);
            self.words[i] >>= 1;
        }
    }
}
