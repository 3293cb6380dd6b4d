//! One word of a set: 64 flags, the lowest bit first.
//!
//! Defined in: `specs/Meaning/Flags.antt`, `specs/Support/Words.antt`.
//! Tested in: `lg_parts_tests/src/bit_set.rt`.
ghost use Rattle.std.specs.Prelude.{◌≡◌, ℕ, ◌+◌, ◌-◌, ◌<◌, ◌≤◌, count_ones, Some, nat_eq, nat_lt};
ghost use Rattle.std.specs.Int.{bit_at};
ghost use Rattle.lg_bit_set.specs.Meaning.Flags.{nth_number};
ghost use Rattle.lg_bit_set.specs.Support.Steps.{IsOnTheWay};
ghost use Rattle.lg_bit_set.specs.Support.Words.{word_flags};

/// From how many set bits below the one that is looked for it is quicker to pass by places than to clear bits one by
/// one, as measured.
const FEW: usize = 16;

/// A word of which some of the lowest places were passed by, on the way to one of its set bits.
#[derive(Clone, Copy)]
pub(crate) struct Rest {
    /// The bits that are left: the first place that wasn't passed by is the lowest.
    bits: u64,
    /// How many of them are set below the one that is looked for.
    below: usize,
    /// How many places were passed by.
    passed: usize,
}

/// Passes by the lowest `width` places of a rest, unless the bit that is looked for is at one of them.
#[inline(always)]
fn pass_by(bits: u64, below: usize, passed: usize, width: usize) -> Rest
    requires width { width < 64 }
    requires within { passed + width < 64 }
    requires more { below < count_ones bits }
    ensures place { IsOnTheWay bits below passed result.bits result.below result.passed }
    ensures more { result.below < count_ones result.bits }
    ensures passed { result.passed ≤ passed + width }
{
    let count = (bits & ((1 << width) - 1)).count_ones() as usize;
    if below < count {
        Rest {
            bits,
            below,
            passed,
        }
    } else {
        Rest {
            bits: bits >> width,
            below: below - count,
            passed: passed + width,
        }
    }
}

/// The place of the set bit of a word that has `below` set bits below it, which are cleared one by one.
#[inline(always)]
fn place_after(word: u64, below: usize) -> usize
    requires { below < count_ones word }
    ensures place { nth_number (word_flags 64 word) below ≡ Some result }
    ensures within { result < 64 }
{
    let mut rest = word;
    'bits: for _ in 0..below {
        rest &= rest - 1;
    }
    rest.trailing_zeros() as usize
}

/// The place, below 64, of the set bit of a word that has `index` set bits below it. If these are many, three steps
/// pass by most of them, so that at most seven are cleared one by one.
#[inline(always)]
pub(crate) fn nth_bit(word: u64, index: usize) -> usize
    requires { index < count_ones word }
    ensures place { nth_number (word_flags 64 word) index ≡ Some result }
    ensures within { result < 64 }
{
    if index < FEW {
        return place_after(word, index);
    }
    let half = pass_by(word, index, 0, 32);
    let quarter = pass_by(half.bits, half.below, half.passed, 16);
    let eighth = pass_by(quarter.bits, quarter.below, quarter.passed, 8);
    eighth.passed + place_after(eighth.bits, eighth.below)
}

/// The word whose `count` lowest bits are set, or all of them if there are no more.
#[inline(always)]
pub(crate) fn lowest_bits(count: usize) -> u64
    ensures { (i : ℕ) → i < 64 → nat_eq (bit_at result i) 1 ≡ nat_lt i count }
{
    if count < 64 {
        (1 << count) - 1
    } else {
        u64::MAX
    }
}

/// The word with a clear bit at a place: the bits there and above rise by one, and the highest one is dropped.
#[inline(always)]
pub(crate) fn opened_word(word: u64, place: u8) -> u64
    requires { place < 64 }
    ensures below { (i : ℕ) → i < place → bit_at result i ≡ bit_at word i }
    ensures at { bit_at result place ≡ 0 }
    ensures above { (i : ℕ) → place ≤ i → i < 63 → bit_at result (i + 1) ≡ bit_at word i }
{
    let low = word & ((1 << place) - 1);
    let high = word >> place << place;
    high << 1 | low
}

/// The word without the bit at a place: the bits above fall by one, and the highest one is clear.
#[inline(always)]
pub(crate) fn closed_word(word: u64, place: u8) -> u64
    requires { place < 64 }
    ensures below { (i : ℕ) → i < place → bit_at result i ≡ bit_at word i }
    ensures above { (i : ℕ) → place ≤ i → i < 63 → bit_at result i ≡ bit_at word (i + 1) }
    ensures highest { bit_at result 63 ≡ 0 }
{
    let low = word & ((1 << place) - 1);
    let high = word >> place >> 1 << place;
    high | low
}

/// The bits of a word risen by one, the lowest one taken from the word below.
#[inline(always)]
pub(crate) fn risen_word(word: u64, below: u64) -> u64
    ensures lowest { bit_at result 0 ≡ bit_at below 63 }
    ensures above { (i : ℕ) → i < 63 → bit_at result (i + 1) ≡ bit_at word i }
{
    word << 1 | below >> 63
}

/// The word with its highest bit, which is clear, taken from the lowest one of the word above.
#[inline(always)]
pub(crate) fn topped_word(word: u64, above: u64) -> u64
    requires { bit_at word 63 ≡ 0 }
    ensures below { (i : ℕ) → i < 63 → bit_at result i ≡ bit_at word i }
    ensures highest { bit_at result 63 ≡ bit_at above 0 }
{
    word | above << 63
}
