//! The retransmit limit: how often a claim may be sent.
//!
//! Defined in: `specs/Meaning/Queue.antt`.
//! Tested in: `lg_parts_tests/src/gossip.rt`.
ghost use Rattle.std.specs.Prelude.{◌≡◌, ◌≤◌, ◌*◌};
ghost use Rattle.lg_gossip.specs.Meaning.Queue.{decimal_digits, limit_of};

use lg_rules::MAX_LAMBDA;

/// The most decimal digits of a number of members: those of the greatest `usize`.
pub(crate) const MAX_DIGITS: u64 = 20;

/// The most packets that take a claim from a queue: 200.
pub const MAX_TIMES_SENT: u64 = MAX_LAMBDA * MAX_DIGITS;

/// How many decimal digits a number of members has.
#[tactic(auto, using(crate::proofs::Digits::digit_steps))]
fn decimal_digits(live: usize) -> u64
    ensures digits { result ≡ decimal_digits live }
    ensures most { result ≤ MAX_DIGITS }
{
    if live < 10 {
        1
    } else {
        1 + decimal_digits(live / 10)
    }
}

/// The retransmit limit among `live` members: `lambda` times the number of decimal digits of `live`.
pub(crate) fn send_limit(lambda: u64, live: usize) -> u64
    requires { lambda ≤ MAX_LAMBDA }
    ensures limit { result ≡ limit_of lambda live }
    ensures most { result ≤ lambda * MAX_DIGITS }
{
    lambda * decimal_digits(live)
}
