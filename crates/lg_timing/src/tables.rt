//! The tables of logarithms by which suspicion timeouts are computed.
//!
//! Defined in: `specs/Meaning/Tables.antt`.
//! Tested in: `lg_parts_tests/src/timing.rt`, `cases/timeouts.case`.
ghost use Rattle.std.specs.Prelude.{◌≡◌, ℕ, ◌+◌, ◌≤◌};
ghost use Rattle.lg_timing.specs.Meaning.Tables.{IsLog, range_end, log10_of, ratio_of};

use crate::config::MAX_CONFIRMATIONS;

/// The most members that aren't gone, this member included: 256, the greatest size of a table (this project's
/// choice).
pub const MAX_LIVE: u64 = 256;

// A row for each number of confirmations that count, with a column for each number of those that came.
const RATIOS: [[u64; 6]; 6] = [
    [1000, 0, 0, 0, 0, 0],
    [0, 1000, 0, 0, 0, 0],
    [0, 630, 1000, 0, 0, 0],
    [0, 500, 792, 1000, 0, 0],
    [0, 430, 682, 861, 1000, 0],
    [0, 386, 613, 773, 898, 1000],
];

/// The base-ten logarithm that counts for `live` members that aren't gone, 1 to [`MAX_LIVE`], in thousandths
/// rounded down. It is the logarithm of the greatest number in the range that `live` is in. The ranges end at 10, 16,
/// 32, 64, 128 and 256 (this project's choice).
#[tactic(auto, unfolding(crate::specs::Meaning::Tables::log10_of))]
pub fn log10_thousandths(live: u64) -> u64
    requires some { 1 ≤ live }
    requires within { live ≤ MAX_LIVE }
    ensures { result ≡ log10_of live }
{
    match live {
        0..=10 => 1000,
        11..=16 => 1204,
        17..=32 => 1505,
        33..=64 => 1806,
        65..=128 => 2107,
        _ => 2408,
    }
}

/// The quotient log(c + 1) / log(k + 1) in thousandths rounded down, for `c` of `k` confirmations (Lifeguard, local
/// health aware suspicion). `c` is at most `k`, and `k` at most [`MAX_CONFIRMATIONS`]. For a `k` of 0 it is 1000
/// (this project's choice).
#[tactic(auto, unfolding(crate::specs::Meaning::Tables::ratio_of))]
pub fn ratio(k: u64, c: u64) -> u64
    requires came { c ≤ k }
    requires within { k ≤ MAX_CONFIRMATIONS }
    ensures quotient { result ≡ ratio_of k c }
    ensures within_one { result ≤ 1000 }
{
    RATIOS[k as usize][c as usize]
}

/// The tables hold logarithms. An entry `t` is the logarithm of a number to a base, in thousandths: the greatest `t`
/// for which `base ^ t` is at most `number ^ 1000`. For a `k` of 0 the quotient is 1000. This is a law, and the call
/// does nothing.
pub fn tables_are_logarithms()
    ensures logarithms { (live : ℕ) → IsLog 10 (range_end live) (log10_of live) }
    ensures quotients { (k c : ℕ) → 1 ≤ k → k ≤ MAX_CONFIRMATIONS → c ≤ k
        → IsLog (k + 1) (c + 1) (ratio_of k c) }
    ensures none { ratio_of 0 0 ≡ 1000 }
{}
